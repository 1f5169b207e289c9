//! Slots, and the workers that they hold.

ghost use Rattle.std.specs.Prelude.{◌≡◌};
ghost use Rattle.worker_state.specs.Slots as spec;

use crate::job::Ticket;
use plan_model::SlotId;

/// What a slot of the pool holds.
#[derive(Clone, Copy, Debug, PartialEq, Eq)]
pub enum Slot {
    /// No worker. The number is the generation of the last one, and 0 if there was none.
    Empty(u32),
    /// A worker.
    Live {
        /// Which worker of the slot it is, from 1.
        generation: u32,
        /// How many jobs it has reported.
        runs: u32,
        /// The job that it has, if any.
        ticket: Option<Ticket>,
    },
}

impl Slot {
    /// Whether the slot has a worker.
    pub fn is_live(&self) -> bool
        ensures { result ≡ spec.is_live self.now }
    {
        match self {
            Slot::Empty(_) => false,
            Slot::Live { .. } => true,
        }
    }

    /// Whether the worker of that generation is in the slot.
    pub fn has_generation(&self, generation: u32) -> bool
        ensures { result ≡ spec.has_generation self.now generation }
    {
        match self {
            Slot::Empty(_) => false,
            Slot::Live {
                generation: own,
                ..
            } => *own == generation,
        }
    }

    /// The generation of the last worker, live or not, and 0 if there was none.
    pub fn last_generation(&self) -> u32
        ensures { result ≡ spec.last_generation self.now }
    {
        match self {
            Slot::Empty(last) => *last,
            Slot::Live { generation, .. } => *generation,
        }
    }

    /// How many jobs the worker has reported, and 0 without a worker.
    pub fn run_count(&self) -> u32
        ensures { result ≡ spec.run_count self.now }
    {
        match self {
            Slot::Empty(_) => 0,
            Slot::Live { runs, .. } => *runs,
        }
    }

    /// The job that the worker has, if any.
    pub fn held_ticket(&self) -> Option<Ticket>
        ensures { result ≡ spec.held_ticket self.now }
    {
        match self {
            Slot::Empty(_) => None,
            Slot::Live { ticket, .. } => *ticket,
        }
    }
}

/// One worker of the pool: the one of this generation in this slot. A slot gives each generation to one worker alone, so the
/// name is never given again.
#[derive(Clone, Copy, Debug, PartialEq, Eq)]
pub struct WorkerName {
    /// The worker's slot.
    pub slot: SlotId,
    /// Which worker of the slot it is, from 1.
    pub generation: u32,
}
