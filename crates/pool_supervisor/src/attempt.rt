//! What an attempt of the supervisor came to.
ghost use Rattle.std.specs.Prelude.{◌≡◌, IfOk, string_bytes};
ghost use Rattle.pool_supervisor.specs.Lines.{attempt_of, attempt_words, attempt_line, status_words};

use gear_status::StatusError;
use plan_model::Backlog;
use pool_core::{AdoptError, LoadError, Ran, ViewError};
use refusal::{Label, Labelled};
use std::alloc::{AllocError, Global};
use std::fmt::Write;

/// A refusal of the pool in a round.
#[derive(Clone, Copy, Debug, PartialEq, Eq)]
pub enum PoolRefusal {
    /// The load was not taken.
    Load(LoadError),
    /// There was no view.
    View(ViewError),
    /// The answer was not adopted. `Stale` means that the input had changed three times while the planner was at work.
    Adopt(AdoptError),
}

impl Labelled for PoolRefusal {
    ghost use Rattle.pool_supervisor.specs.Lines.{refusal_label};

    ghost label = { refusal_label };

    fn label(&self) -> Label {
        match self {
            PoolRefusal::Load(error) => error.label(),
            PoolRefusal::View(error) => error.label(),
            PoolRefusal::Adopt(error) => error.label(),
        }
    }
}

/// What an attempt came to. Its number is its place in the list of a run, from 1.
#[derive(Clone, Copy, Debug, PartialEq, Eq)]
pub enum Attempt {
    /// A round has a plan.
    Backlog {
        /// The round's number.
        round: u32,
        /// Its backlog, below 2^32.
        backlog: u64,
    },
    /// A round has a plan, and jobs wait for a function that nobody serves.
    Unserved {
        /// The round's number.
        round: u32,
        /// How many wait for the one of those functions that has the most.
        waiting: u64,
    },
    /// No plan meets the least and greatest numbers.
    NoPlan {
        /// The round's number.
        round: u32,
    },
    /// The server could not be asked for its status: there was no link, or it took no request.
    NoLink,
    /// What the server said of its queues was not taken.
    Status(StatusError),
    /// The pool refused a step of the round.
    Refused(PoolRefusal),
    /// The planner had no memory.
    Memory,
}

impl Attempt {
    /// What an adopted round came to.
    pub fn of_round(ran: &Ran) -> Attempt
        ensures { result ≡ attempt_of ran.now }
    {
        let round = ran.number;
        let Some(number) = ran.backlog else {
            return Attempt::NoPlan { round };
        };
        match Backlog::of(number) {
            Backlog::Jobs(backlog) => Attempt::Backlog { round, backlog },
            Backlog::Unserved(waiting) => Attempt::Unserved { round, waiting },
        }
    }
}

/// The line of an attempt after its number, without a line feed. The only error is out of memory.
pub fn attempt_words(alloc: Global, attempt: &Attempt) -> Result<String, AllocError>
    ensures { IfOk result (λ text. string_bytes text ≡ attempt_words attempt.now) }
{
    let mut text = String::new(alloc);
    match attempt {
        Attempt::Backlog { round, backlog } => {
            let words = Backlog::Jobs(*backlog);
            write!(text, "round {round} {words}")?
        }
        Attempt::Unserved { round, waiting } => {
            let words = Backlog::Unserved(*waiting);
            write!(text, "round {round} {words}")?
        }
        Attempt::NoPlan { round } => write!(text, "round {round} noplan")?,
        Attempt::NoLink => write!(text, "nolink")?,
        Attempt::Status(error) => return status_words(alloc, *error),
        Attempt::Refused(refusal) => {
            let label = refusal.label();
            let number = label.number();
            let name = label.name();
            write!(text, "refused {number} {name}")?
        }
        Attempt::Memory => write!(text, "refused Memory")?,
    }
    Ok(text)
}

/// Why a status text was not taken, with its line if it is one line.
fn status_words(alloc: Global, error: StatusError) -> Result<String, AllocError>
    ensures { IfOk result (λ text. string_bytes text ≡ status_words error) }
{
    let label = error.label();
    let number = label.number();
    let name = label.name();
    let mut text = String::new(alloc);
    match error.line() {
        Some(line) => write!(text, "status {number} {name} line {line}")?,
        None => write!(text, "status {number} {name}")?,
    }
    Ok(text)
}

/// The line of an attempt of this number, without a line feed. The only error is out of memory.
pub fn attempt_line(alloc: Global, number: u32, attempt: &Attempt) -> Result<String, AllocError>
    ensures { IfOk result (λ text. string_bytes text ≡ attempt_line number attempt.now) }
{
    let words = attempt_words(alloc, attempt)?;
    let mut line = String::new(alloc);
    write!(line, "attempt {number} {words}")?;
    Ok(line)
}
