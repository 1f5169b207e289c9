//! The events of the pool's machine, with their values.
ghost use Rattle.std.specs.Prelude.{◌≡◌, IfOk};

use gear_packets::Handle;
use gear_status::Load;
use plan_model::{Answer, SlotId};
use std::alloc::{AllocError, Global};
use std::marker::Model;
use std::sync::ArcSlice;
use worker_state::{Cause, EndKind, Standing, Ticket, WorkerName};

/// The name of a function, any bytes, which several owners may share. Clauses see it as its bytes.
#[derive(Drop)]
pub struct FunctionName {
    bytes: ArcSlice<u8>,
}

impl Model for FunctionName {
    ghost use Rattle.std.specs.Prelude.{List, ℕ};
    ghost use Rattle.std.specs.Arc.{arc_slice_items};

    ghost Value = { List ℕ };

    ghost view = { λ n. arc_slice_items n.bytes };
}

impl FunctionName {
    /// A copy of these bytes.
    pub fn copied(alloc: Global, bytes: &[u8]) -> Result<FunctionName, AllocError>
        ensures { IfOk result (λ n. n ≡ bytes.now) }
    {
        let bytes = ArcSlice::from_slice(alloc, bytes)?;
        Ok(FunctionName { bytes })
    }

    /// The same name, which shares the bytes.
    pub fn shared(&self) -> Result<FunctionName, AllocError>
        ensures { IfOk result (λ n. n ≡ self.now) }
    {
        let bytes = self.bytes.clone()?;
        Ok(FunctionName { bytes })
    }

    /// The name's bytes.
    pub fn bytes(&self) -> &[u8]
        ensures { result.now ≡ self.now }
    {
        self.bytes.as_slice()
    }
}

/// A job as the server assigned it: its handle, and the function that it asks for.
#[derive(Drop)]
pub struct Job {
    /// The job's handle.
    pub handle: Handle,
    /// The function that it asks for.
    pub function: FunctionName,
}

/// One event of the machine. The history is the list of them.
#[derive(Drop)]
pub enum Event {
    /// A new worker joined the slot.
    Join {
        /// The slot.
        slot: SlotId,
    },
    /// A load was taken.
    Load {
        /// What the server said of its queues.
        load: Load,
    },
    /// A round was made.
    Round {
        /// Its answer, which is shown for the input of the state before it.
        answer: Answer,
    },
    /// A worker was given a job.
    Grab {
        /// The worker.
        worker: WorkerName,
        /// The job's handle.
        handle: Handle,
        /// The function that the job asks for.
        function: FunctionName,
        /// When it was given, in milliseconds of the caller's clock.
        now_ms: u64,
    },
    /// A worker began to report its job.
    Begin {
        /// The worker.
        worker: WorkerName,
        /// The job.
        ticket: Ticket,
    },
    /// A worker has reported its job.
    Reported {
        /// The worker.
        worker: WorkerName,
        /// The job.
        ticket: Ticket,
        /// How the job ended.
        end: EndKind,
    },
    /// A worker was lost, and with it the job that it had.
    Lost {
        /// The worker.
        worker: WorkerName,
        /// Why.
        cause: Cause,
    },
}

/// A chapter of the history: all events since the last one ended, in order.
#[derive(Drop)]
pub struct Chapter {
    /// The chapter's number, from 1.
    pub number: u32,
    /// Its events.
    pub events: Vec<Event>,
}

/// A job that a pool keeps no longer, as it was when it was forgotten.
#[derive(Drop)]
pub struct Forgotten {
    /// Its ticket.
    pub ticket: Ticket,
    /// What was assigned.
    pub job: Job,
    /// How it ended: reported, or lost.
    pub standing: Standing,
}
