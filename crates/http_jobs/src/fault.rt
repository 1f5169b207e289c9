//! Why a job was not done.

ghost use Rattle.std.specs.Prelude.{◌≡◌};
ghost use Rattle.http_jobs.specs.Reasons.{HasCame, why_of};

use devices::DialError;
use http1::ReadError;
use std::alloc::AllocError;
use thiserror::Error;

/// Why a job was not served: nothing came back that answers it.
#[derive(Clone, Copy, Debug, PartialEq, Eq, Error)]
pub enum Unserved {
    /// No connection was opened, for this reason.
    #[error("no connection was opened: {why}", why = dial_words(*.0))]
    Unreachable(DialError),
    /// A write failed, and no response came that refuses the job. A prefix of the request went out.
    #[error("a write failed")]
    Write,
    /// A read failed.
    #[error("a read failed")]
    Read,
    /// The connection ended before the response was whole.
    #[error("the connection ended before the response was whole")]
    Ended,
    /// The deadline came before the response was whole.
    #[error("the deadline came before the response was whole")]
    Late,
    /// What came breaks the rules of HTTP, or has a head above 16 KiB, or more than 64 fields.
    #[error("what came is no response: {0}")]
    NoResponse(ReadError),
    /// The service, or a proxy before it, is down or busy: status 408, 429, 502, 503 or 504.
    #[error("the service is down or busy: status {0}")]
    Status(u16),
    /// More bytes and timeouts came than can be counted: 2^64 - 1.
    #[error("the response does not end")]
    Endless,
}

/// Why a job was not done.
#[derive(Clone, Copy, Debug, PartialEq, Eq, Error)]
pub enum NotDone {
    /// The service did not serve it. Another worker may do it.
    #[error("{0}")]
    Unserved(Unserved),
    /// There was no memory.
    #[error("out of memory")]
    Memory,
}

/// Whether anything came over a connection since a request was begun.
#[derive(Clone, Copy, Debug, PartialEq, Eq)]
pub enum Came {
    /// Not a byte.
    Nothing,
    /// A byte at least.
    Bytes,
}

/// Why a request has no response, and whether anything came.
#[derive(Clone, Copy, Debug, PartialEq, Eq)]
pub enum Unanswered {
    /// The service did not serve it, for this reason, and so much came.
    Unserved(Unserved, Came),
    /// There was no memory.
    Memory,
}

impl Unanswered {
    /// A request was not answered, for this reason, and so much came.
    pub(crate) fn of(why: NotDone, came: Came) -> Unanswered
        ensures why { why_of result ≡ why }
        ensures came { HasCame came result }
    {
        match why {
            NotDone::Unserved(reason) => Unanswered::Unserved(reason, came),
            NotDone::Memory => Unanswered::Memory,
        }
    }
}

impl From<AllocError> for Unanswered {
    ghost use Rattle.std.specs.Prelude.{◌≡◌};
    ghost use Rattle.http_jobs.specs.declared.fault.Unanswered.TheVariants.{Memory};

    ghost from_gives = { λ _ e. e ≡ Memory };

    fn from(_: AllocError) -> Unanswered {
        Unanswered::Memory
    }
}

/// It says no more whether anything came.
impl From<Unanswered> for NotDone {
    ghost use Rattle.std.specs.Prelude.{◌≡◌};
    ghost use Rattle.http_jobs.specs.Reasons.{why_of};

    ghost from_gives = { λ unanswered e. e ≡ why_of unanswered };

    fn from(unanswered: Unanswered) -> NotDone {
        match unanswered {
            Unanswered::Unserved(reason, _) => NotDone::Unserved(reason),
            Unanswered::Memory => NotDone::Memory,
        }
    }
}

impl From<AllocError> for NotDone {
    ghost use Rattle.std.specs.Prelude.{◌≡◌};
    ghost use Rattle.http_jobs.specs.declared.fault.NotDone.TheVariants.{Memory};

    ghost from_gives = { λ _ e. e ≡ Memory };

    fn from(_: AllocError) -> NotDone {
        NotDone::Memory
    }
}

/// A session hears that a job was not served, and not why.
impl From<NotDone> for job_runner::NotDone {
    ghost use Rattle.std.specs.Prelude.{◌≡◌};
    ghost use Rattle.http_jobs.specs.Serving.{as_of_session};

    ghost from_gives = { λ why heard. heard ≡ as_of_session why };

    fn from(why: NotDone) -> job_runner::NotDone {
        match why {
            NotDone::Unserved(_) => job_runner::NotDone::Unserved,
            NotDone::Memory => job_runner::NotDone::Memory,
        }
    }
}

/// Why no connection to a service was opened, in words.
pub fn dial_words(why: DialError) -> &'static str {
    match why {
        DialError::BadName | DialError::NoAddress => "the service's name was not found",
        DialError::Refused => "the service refused it",
        DialError::NoAnswer => "the service did not answer",
        DialError::TooManyFiles => "too many files are open",
        DialError::NoPort => "this machine has no port or buffer left",
        DialError::Memory => "out of memory",
        DialError::Failed => "the system gave another error",
    }
}

impl From<DialError> for NotDone {
    ghost use Rattle.std.specs.Prelude.{◌≡◌};
    ghost use Rattle.http_jobs.specs.declared.fault.NotDone.TheVariants.{Unserved};
    ghost use Rattle.http_jobs.specs.declared.fault.Unserved.TheVariants.{Unreachable};

    ghost from_gives = { λ why e. e ≡ Unserved (Unreachable why) };

    fn from(why: DialError) -> NotDone {
        NotDone::Unserved(Unserved::Unreachable(why))
    }
}

impl From<Unserved> for NotDone {
    ghost use Rattle.std.specs.Prelude.{◌≡◌};
    ghost use Rattle.http_jobs.specs.declared.fault.NotDone.TheVariants.{Unserved};

    ghost from_gives = { λ u e. e ≡ Unserved u };

    fn from(reason: Unserved) -> NotDone {
        NotDone::Unserved(reason)
    }
}
