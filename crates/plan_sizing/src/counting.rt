//! The workers of a farm that has grown, and how many of them a plan puts on each function.

ghost use Rattle.std.specs.Prelude.{◌≡◌, ◌+◌, ◌<◌, ◌≤◌, All, length, slice_index_or};
ghost use Rattle.plan_model.specs.Counts.{AreCounts, CountsOne};
ghost use Rattle.plan_model.specs.Planning.{assigned, is_live};
ghost use Rattle.plan_sizing.specs.Sizing.{grown};

use crate::farm::Farm;
use plan_model::{FuncId, MAX_FUNCTIONS, MachineId, Plan, SlotId};

/// How many workers the grown farm has, live ones and added ones.
pub fn workers(farm: &Farm, added: &[MachineId]) -> u32
    requires { farm.now.slots + length added.now ≤ 4096 }
    ensures all { result ≡ length (grown farm.now added.now).live }
    ensures few { result ≤ 8192 }
{
    farm.input().workers() + added.len() as u32
}

/// The worker at a place of the grown farm, the added ones after the live ones, as slot and machine.
pub fn worker_at(farm: &Farm, added: &[MachineId], place: u32) -> (SlotId, MachineId)
    requires few { farm.now.slots + length added.now ≤ 4096 }
    requires place { place < length (grown farm.now added.now).live }
    ensures { result ≡ slice_index_or (grown farm.now added.now).live place (0, 0) }
{
    let live = farm.input().live();
    if (place as usize) < live.len() {
        live[place as usize]
    } else {
        let number = place - live.len() as u32;
        (SlotId::new(farm.slots() + number), added[number as usize])
    }
}

/// Whether the slot is that of a live or an added worker.
pub fn is_live(farm: &Farm, added: &[MachineId], slot: SlotId) -> bool
    requires { farm.now.slots + length added.now ≤ 4096 }
    ensures { result ≡ is_live (grown farm.now added.now) slot }
{
    farm.facts();
    let first = farm.slots();
    let number = slot.number();
    if number >= first {
        return ((number - first) as usize) < added.len();
    }
    farm.input()
        .live()
        .binary_search_by_key(&slot, |&(live, _)| live)
        .is_ok()
}

/// How many workers the plan puts on each function.
pub fn count_workers(farm: &Farm, added: &[MachineId], plan: &Plan) -> [u32; MAX_FUNCTIONS]
    requires { farm.now.slots + length added.now ≤ 4096 }
    ensures { AreCounts (grown farm.now added.now) (assigned plan.now) result }
{
    let mut counts = [0; MAX_FUNCTIONS];
    for place in 0..workers(farm, added) {
        let worker = worker_at(farm, added, place);
        count_one(&mut counts, plan.function_of(worker.0));
    }
    counts
}

/// Counts one more worker on the function.
fn count_one(counts: &mut [u32], function: Option<FuncId>)
    requires { All (λ count. count < 8192) counts.old }
    ensures { CountsOne counts.old counts.new function }
{
    if let Some(function) = function {
        let place = function.number() as usize;
        if place < counts.len() {
            counts[place] += 1;
        }
    }
}
