//! Why a service manager is not told.

use std::alloc::AllocError;
use std::io;
use thiserror::Error;

/// Why a name is that of no socket.
#[derive(Clone, Copy, Debug, PartialEq, Eq, Error)]
pub enum AddressError {
    /// It has no bytes.
    #[error("is empty")]
    Empty,
    /// It begins neither as a path (`/`) nor as an abstract name (`@`).
    #[error("begins neither with `/` nor with `@`")]
    NoName,
    /// It has more than 107 bytes.
    #[error("has more than 107 bytes")]
    TooLong,
}

/// Why there is no service manager to tell, although the environment names one.
#[derive(Debug, Drop, Error)]
pub enum ManagerError {
    /// What it names is no socket.
    #[error("NOTIFY_SOCKET {0}")]
    Address(AddressError),
    /// What it names is not UTF-8.
    #[error("NOTIFY_SOCKET is not UTF-8")]
    NotUtf8,
    /// WATCHDOG_USEC is no number of microseconds from 2,000 on.
    #[error("WATCHDOG_USEC is no number of microseconds from 2000 on")]
    BadWatchdog,
    /// An allocation was refused.
    #[error("out of memory")]
    Memory,
    /// No socket can be opened, as if no more files may be open.
    #[error("no socket to the service manager: {0}")]
    NoSocket(io::Error),
}

/// Why a status is not told.
#[derive(Clone, Copy, Debug, PartialEq, Eq, Error)]
pub enum StatusError {
    /// It has a line feed, after which the service manager would read another message.
    #[error("the status has more than one line")]
    LineFeed,
    /// An allocation was refused.
    #[error("out of memory")]
    Memory,
}

impl From<AllocError> for StatusError {
    ghost use Rattle.std.specs.Prelude.{◌≡◌};
    ghost use Rattle.service_manager.specs.declared.error.StatusError.TheVariants.{Memory};

    ghost from_gives = { λ _ error. error ≡ Memory };

    fn from(_: AllocError) -> StatusError {
        StatusError::Memory
    }
}

/// Why the service manager was not told something: its socket is not there any more, or takes nothing now.
#[derive(Debug, Drop, Error)]
#[error("the service manager was not told: {error}")]
pub struct NotTold {
    /// What the system said.
    pub error: io::Error,
}
