//! How a session ends, and why.

ghost use Rattle.std.specs.Prelude.{◌≡◌, ◌<◌, IfSome, length};
ghost use Rattle.worker_state.specs.Causes.{cause_label};
ghost use Rattle.job_runner.specs.Ends.{end_label, loss_of, place_of};

use refusal::{Label, Labelled};
use worker_state::Cause;

/// Why a session ended.
///
/// `Retired` and `Gone` lose no worker. Each other end is reported at the [`Cause`] of its name, for which the session lost its worker at
/// the pool (`loss`), and has its number. No session ends as `Late`.
#[derive(Clone, Copy, Debug, PartialEq, Eq)]
pub enum EndCause {
    /// The worker has made all its runs, and the pool has retired it.
    Retired,
    /// The worker is not in its slot any more: the pool gave it up, as when its job took too long.
    Gone,
    /// [`Cause::BadPacket`]
    BadPacket,
    /// [`Cause::ServerError`]
    ServerError,
    /// [`Cause::ReadFault`]
    ReadFault,
    /// [`Cause::WriteFault`]
    WriteFault,
    /// [`Cause::TurnsUsed`]
    TurnsUsed,
    /// [`Cause::Memory`]
    Memory,
    /// [`Cause::HistoryFull`]
    HistoryFull,
    /// [`Cause::Closed`]
    Closed,
    /// [`Cause::Stopped`]
    Stopped,
    /// [`Cause::Unserved`]
    Unserved,
}

/// How many causes there are for which a session ends.
const CAUSES: usize = 12;

impl EndCause {
    /// All of them, in the order of their numbers.
    pub const ALL: [EndCause; CAUSES] = [
        EndCause::Retired,
        EndCause::Gone,
        EndCause::BadPacket,
        EndCause::ServerError,
        EndCause::ReadFault,
        EndCause::WriteFault,
        EndCause::TurnsUsed,
        EndCause::Memory,
        EndCause::HistoryFull,
        EndCause::Closed,
        EndCause::Stopped,
        EndCause::Unserved,
    ];

    /// Its place in [`ALL`](EndCause::ALL).
    pub fn place(self) -> usize
        ensures exact { result ≡ place_of self }
        ensures inside { result < length EndCause.ALL }
    {
        self as usize
    }

    /// The cause for which the worker is lost: the one of the same number and name. None if it is retired, or lost already.
    pub fn loss(self) -> Option<Cause>
        ensures exact { result ≡ loss_of self }
        ensures label { IfSome result (λ cause. cause_label cause ≡ end_label self) }
    {
        match self {
            EndCause::Retired | EndCause::Gone => None,
            EndCause::BadPacket => Some(Cause::BadPacket),
            EndCause::ServerError => Some(Cause::ServerError),
            EndCause::ReadFault => Some(Cause::ReadFault),
            EndCause::WriteFault => Some(Cause::WriteFault),
            EndCause::TurnsUsed => Some(Cause::TurnsUsed),
            EndCause::Memory => Some(Cause::Memory),
            EndCause::HistoryFull => Some(Cause::HistoryFull),
            EndCause::Closed => Some(Cause::Closed),
            EndCause::Stopped => Some(Cause::Stopped),
            EndCause::Unserved => Some(Cause::Unserved),
        }
    }
}

impl Labelled for EndCause {
    ghost use Rattle.job_runner.specs.Ends.{end_label};

    ghost label = { end_label };

    #[tactic(auto, using(crate::proofs::Labels::gone_label))]
    fn label(&self) -> Label {
        match self.loss() {
            Some(cause) => cause.label(),
            None if *self == EndCause::Retired => Label::new(1, "Retired"),
            None => Label::new(2, "Gone"),
        }
    }
}

/// How a session ended, and how many jobs it took, answered and reported.
///
/// `reported <= answered <= grabbed <= reported + 1`: at most one job was open when the session ended.
#[derive(Clone, Copy, Debug, PartialEq, Eq)]
pub struct SessionEnd {
    /// Why it ended.
    pub cause: EndCause,
    /// How many jobs it took at the port.
    pub grabbed: u64,
    /// How many answers it wrote whole.
    pub answered: u64,
    /// How many of them the port booked.
    pub reported: u64,
}
