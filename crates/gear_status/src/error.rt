//! Why a status text is not taken.

ghost use Rattle.std.specs.Prelude.{◌≡◌};
ghost use Rattle.gear_status.specs.StatusRefusals as spec;

use byte_io::DeviceFault;
use refusal::{Label, Labelled};
use std::alloc::{AllocError, AllocFailed};
use thiserror::Error;

/// Why a status text is not taken. Lines are counted from 1.
///
/// The first faulty line decides. Within a line the order is `LineTooLong`, `TooManyLines`, `BadLine`, `BadNumber`.
#[derive(Clone, Copy, Debug, PartialEq, Eq, Error)]
pub enum StatusError {
    /// This line has fewer than three tabs.
    #[error("line {0} has fewer than three tabs")]
    BadLine(u32),
    /// A count of this line is not written in decimal digits alone, or is above 4,294,967,295.
    #[error("line {0} has a count that is no number up to 4294967295")]
    BadNumber(u32),
    /// This line has more than 4,096 bytes before its line feed, a carriage return counted.
    #[error("line {0} is longer than 4096 bytes")]
    LineTooLong(u32),
    /// Line 65,537 is not the period line.
    #[error("there are more than 65536 lines before the period line")]
    TooManyLines,
    /// The input ended before the line feed of the period line.
    #[error("the text ends before its period line")]
    Truncated,
    /// The source failed, or had nothing to give for the 65th time.
    #[error("the source failed, or was silent for too long")]
    ReadFault,
    /// A growth of the load or of the line that was being read was refused.
    #[error("out of memory")]
    Memory,
}

/// The number of a refusal is its place in the list of variants, from 1 to 7.
impl Labelled for StatusError {
    ghost use Rattle.gear_status.specs.StatusRefusals.{status_label};

    ghost label = { status_label };

    fn label(&self) -> Label {
        match self {
            StatusError::BadLine(_) => Label::new(1, "BadLine"),
            StatusError::BadNumber(_) => Label::new(2, "BadNumber"),
            StatusError::LineTooLong(_) => Label::new(3, "LineTooLong"),
            StatusError::TooManyLines => Label::new(4, "TooManyLines"),
            StatusError::Truncated => Label::new(5, "Truncated"),
            StatusError::ReadFault => Label::new(6, "ReadFault"),
            StatusError::Memory => Label::new(7, "Memory"),
        }
    }
}

impl StatusError {
    /// The line that is refused, counted from 1, if it is one line.
    pub fn line(self) -> Option<u32>
        ensures line { result ≡ spec.status_line_of self }
    {
        match self {
            StatusError::BadLine(line)
            | StatusError::BadNumber(line)
            | StatusError::LineTooLong(line) => Some(line),
            StatusError::TooManyLines
            | StatusError::Truncated
            | StatusError::ReadFault
            | StatusError::Memory => None,
        }
    }
}

impl From<AllocError> for StatusError {
    ghost use Rattle.gear_status.specs.declared.error.StatusError.TheVariants.{Memory};

    ghost from_gives = { λ _ f. f ≡ Memory };

    fn from(_: AllocError) -> StatusError {
        StatusError::Memory
    }
}

impl<T: Drop> From<AllocFailed<T>> for StatusError {
    ghost use Rattle.gear_status.specs.declared.error.StatusError.TheVariants.{Memory};

    ghost from_gives = { λ _ f. f ≡ Memory };

    fn from(_: AllocFailed<T>) -> StatusError {
        StatusError::Memory
    }
}

impl From<DeviceFault> for StatusError {
    ghost use Rattle.gear_status.specs.declared.error.StatusError.TheVariants.{ReadFault};

    ghost from_gives = { λ _ f. f ≡ ReadFault };

    fn from(_: DeviceFault) -> StatusError {
        StatusError::ReadFault
    }
}
