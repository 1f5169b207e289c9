//! Commands, and the words that they hold.

ghost use Rattle.std.specs.Prelude.{◌≡◌, IfOk};

use gear_packets::Handle;
use gear_status::Load;
use plan_model::SlotId;
use std::alloc::{AllocError, Global};
use std::marker::Model;
use worker_state::{Cause, EndKind, Ticket, WorkerName};

/// A word of a command line that may be any word: in a [`Command`] it has one or more bytes, none of them a space. Clauses
/// see it as its bytes.
#[derive(Drop)]
pub struct Word {
    bytes: Vec<u8>,
}

impl Model for Word {
    ghost use Rattle.std.specs.Prelude.{List, ℕ};

    ghost Value = { List ℕ };

    ghost view = { λ w. w.bytes.items };
}

impl Word {
    /// A copy of these bytes.
    pub fn copied(alloc: Global, bytes: &[u8]) -> Result<Word, AllocError>
        ensures { IfOk result (λ word. word ≡ bytes.now) }
    {
        let bytes = Vec::from_slice(alloc, bytes)?;
        Ok(Word { bytes })
    }

    /// The word's bytes.
    pub fn bytes(&self) -> &[u8]
        ensures { result.now ≡ self.now }
    {
        self.bytes.as_slice()
    }
}

/// What a command line asks for. The forms of the lines are on [the crate's page](crate).
#[derive(Drop)]
pub enum Command {
    /// `join W`: a new worker for the slot.
    Join(SlotId),
    /// `load [NAME TOTAL RUNNING]..`: a load of these names, each with 0 available workers.
    Load(Load),
    /// `round`: a round, which plans and gives its orders at once.
    Round,
    /// `view`: a plan for the input of now, which is kept.
    View,
    /// `adopt`: the orders of the plan that was kept.
    Adopt,
    /// `grab P HANDLE FUNCTION NOW`: a job for the worker.
    Grab {
        /// The worker.
        worker: WorkerName,
        /// The job's handle.
        handle: Handle,
        /// The function that the job asks for, which the settings need not have.
        function: Word,
        /// When the job is given, in milliseconds of the caller's clock.
        now_ms: u64,
    },
    /// `begin P TICKET`: the worker begins to report its job.
    Begin {
        /// The worker.
        worker: WorkerName,
        /// The job.
        ticket: Ticket,
    },
    /// `report P TICKET complete`, or `fail`: the worker has reported its job.
    Report {
        /// The worker.
        worker: WorkerName,
        /// The job.
        ticket: Ticket,
        /// How the job ended.
        end: EndKind,
    },
    /// `lose P CAUSE`: the worker is lost.
    Lose {
        /// The worker.
        worker: WorkerName,
        /// Why.
        cause: Cause,
    },
    /// `expire P NOW`: the worker is lost if its job takes too long.
    Expire {
        /// The worker.
        worker: WorkerName,
        /// The time of now, in milliseconds of the clock of `grab`.
        now_ms: u64,
    },
    /// `job TICKET`: the state of a job.
    Job(Ticket),
    /// `order W`: the order of the slot.
    Order(SlotId),
    /// `totals`: how many jobs, rounds and events there are.
    Totals,
    /// `chapter`: the end of the chapter of the history.
    Chapter,
}
