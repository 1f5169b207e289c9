//! The slots of a pool, in the order in which they have their turns.

ghost use Rattle.std.specs.Prelude.{◌≡◌, ◌<◌, ◌∷◌, [], length, map, IfOk};
ghost use Rattle.slot_turns.specs.Turns.{AreInTurn, HaveCome, IsEachSlotOnce};

use plan_model::SlotId;
use pool_settings::Settings;
use std::alloc::{AllocError, Global};
use std::collections::VecDeque;
use std::marker::Model;

/// The slots of a pool, each once, in the order in which they come from now on. After the last one the first one comes again. Contracts see
/// the list.
#[derive(Drop)]
pub struct SlotTurns {
    coming: VecDeque<SlotId>,
}

impl Model for SlotTurns {
    ghost use Rattle.std.specs.Prelude.{ℕ, List};

    ghost Value = { List ℕ };

    ghost view = { λ turns. turns.coming.items };
}

impl SlotTurns {
    /// The slots of these settings: the first slot of each machine comes first, then the second one of each that has one, and so on. Among
    /// the first ones, the second ones and so on machines come in their order. The only error is out of memory.
    pub fn new(alloc: Global, settings: &Settings) -> Result<SlotTurns, AllocError>
        ensures each_once { IfOk result (λ turns. IsEachSlotOnce settings.now turns) }
        ensures in_turn { IfOk result (λ turns. AreInTurn settings.now turns) }
    {
        let order = order_of(alloc, settings)?;
        Ok(SlotTurns {
            coming: VecDeque::from_vec(order),
        })
    }

    /// How many slots there are.
    pub fn len(&self) -> usize
        ensures { result ≡ length self.now }
    {
        self.coming.len()
    }

    /// The slot that comes next. From then on it is the last one.
    pub fn next(&mut self) -> SlotId
        requires some { 0 < length self.old }
        ensures comes { HaveCome (result ∷ []) self.old self.new }
    {
        let slot = self.coming[0];
        self.coming.rotate_left(1);
        slot
    }
}

/// The slots in the order in which they come at first. The sort is by the worker's number in its machine and then by the slot, since slots
/// are numbered by machine.
fn order_of(alloc: Global, settings: &Settings) -> Result<Vec<SlotId>, AllocError>
    ensures each_once { IfOk result (λ order. IsEachSlotOnce settings.now order.items) }
    ensures in_turn { IfOk result (λ order. AreInTurn settings.now order.items) }
{
    let mut numbered = Vec::new(alloc);
    for number in 0..settings.slots() {
        let slot = SlotId::new(number);
        numbered.push((settings.worker_number(slot), slot))?;
    }
    numbered.sort()?;
    slots_of(alloc, &numbered)
}

/// The slots beside the numbers.
fn slots_of(alloc: Global, numbered: &[(u32, SlotId)]) -> Result<Vec<SlotId>, AllocError>
    ensures { IfOk result (λ slots. slots.items ≡ map (λ pair. pair.1) numbered.now) }
{
    numbered.iter().map(|pair| pair.1).collect(alloc)
}
