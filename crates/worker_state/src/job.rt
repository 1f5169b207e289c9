//! Jobs by ticket, and their states.

ghost use Rattle.std.specs.Prelude.{◌≡◌};
ghost use Rattle.worker_state.specs.Slots as spec;

use crate::cause::Cause;
use crate::slot::WorkerName;
use std::marker::Model;

/// The number of a grabbed job. Tickets are given from 1 on, each once, so a ticket names one job for ever. Any caller can
/// name a ticket, whether it was given or not. Clauses see it as its number.
#[derive(Clone, Copy, Debug, PartialEq, Eq, PartialOrd, Ord)]
pub struct Ticket(u64);

impl Model for Ticket {
    ghost use Rattle.std.specs.Prelude.{ℕ};

    ghost Value = { ℕ };

    ghost view = { λ ticket. ticket.0 };

    ghost inverse = { λ n. record { 0 = n } };
}

impl Ticket {
    /// The ticket of this number.
    pub fn new(number: u64) -> Ticket
        ensures { result ≡ number }
    {
        Ticket(number)
    }

    /// The ticket's number.
    pub fn number(self) -> u64
        ensures { result ≡ self }
    {
        self.0
    }
}

/// How a worker ended a job.
#[derive(Clone, Copy, Debug, PartialEq, Eq)]
pub enum EndKind {
    /// With a result, by WORK_COMPLETE.
    Complete,
    /// Without one, by WORK_FAIL.
    Fail,
}

/// The state of a grabbed job. Each job is in exactly one of these, and leaves neither of the last two.
#[derive(Clone, Copy, Debug, PartialEq, Eq)]
pub enum Standing {
    /// A worker has it.
    Running,
    /// The worker has begun to write its answer, and the job is not late any more.
    Reporting,
    /// The answer was written whole.
    Reported(EndKind),
    /// Its worker was lost with it, for this cause.
    Lost(WorkerName, Cause),
}

impl Standing {
    /// Whether a worker has the job and has not begun to write its answer.
    pub fn is_running(&self) -> bool
        ensures { result ≡ spec.is_running self.now }
    {
        match self {
            Standing::Running => true,
            _ => false,
        }
    }

    /// Whether its worker has begun to write the answer, and not ended.
    pub fn is_reporting(&self) -> bool
        ensures { result ≡ spec.is_reporting self.now }
    {
        match self {
            Standing::Reporting => true,
            _ => false,
        }
    }

    /// How many events are still to come of the job before its worker's last one.
    pub fn closing_events(&self) -> u32
        ensures { result ≡ spec.closing_events self.now }
    {
        match self {
            Standing::Running => 2,
            Standing::Reporting => 1,
            Standing::Reported(_) => 0,
            Standing::Lost(_, _) => 0,
        }
    }
}
