//! Why a report is not read, or not written.

ghost use Rattle.std.specs.Prelude.{◌≡◌};
ghost use Rattle.pool_report.specs.ReportRefusals as spec;

use refusal::{Label, Labelled};
use thiserror::Error;

/// Why a report is not taken. Lines are counted from 1, each with the line feed that ends it, and the first
/// faulty line decides.
#[derive(Clone, Copy, Debug, PartialEq, Eq, Error)]
pub enum ReadError {
    /// This line has not the shape of a line of a report, is out of its place or order, or comes
    /// after `end`. A machine or function of a name that no settings can have, as one of 65 bytes, is a wrong
    /// shape; a worker or function that is not above the one before it is out of order.
    #[error("line {0} is no line of such a text, or out of its place")]
    BadLine(u64),
    /// This line is in its place, and its worker or function is none of the settings.
    #[error("line {0} names a worker or function that the settings do not have")]
    UnknownName(u64),
    /// The text ends before the line feed of `end`, and each line that it has is right.
    #[error("the text ends before its line `end`")]
    Truncated,
    /// Memory for the answer was refused.
    #[error("out of memory")]
    Memory,
}

/// The number of a refusal is its place in the list of variants, from 1 to 4.
impl Labelled for ReadError {
    ghost use Rattle.pool_report.specs.ReportRefusals.{read_label};

    ghost label = { read_label };

    fn label(&self) -> Label {
        match self {
            ReadError::BadLine(_) => Label::new(1, "BadLine"),
            ReadError::UnknownName(_) => Label::new(2, "UnknownName"),
            ReadError::Truncated => Label::new(3, "Truncated"),
            ReadError::Memory => Label::new(4, "Memory"),
        }
    }
}

impl ReadError {
    /// The line that is refused, counted from 1, if it is one line.
    pub fn line(self) -> Option<u64>
        ensures { result ≡ spec.report_line_of self }
    {
        match self {
            ReadError::BadLine(line) | ReadError::UnknownName(line) => Some(line),
            ReadError::Truncated | ReadError::Memory => None,
        }
    }
}

/// Why a report is not written, or not whole.
#[derive(Clone, Copy, Debug, PartialEq, Eq, Error)]
pub enum WriteError {
    /// The sink failed when so many bytes of the report had gone out, and those are a prefix of it, not all of it.
    #[error("the sink failed after {0} bytes")]
    WriteFault(usize),
    /// Memory for the report was refused, and nothing of it has gone out.
    #[error("out of memory")]
    Memory,
}

/// The number of a refusal is its place in the list of variants, 1 or 2.
impl Labelled for WriteError {
    ghost use Rattle.pool_report.specs.ReportRefusals.{write_label};

    ghost label = { write_label };

    fn label(&self) -> Label {
        match self {
            WriteError::WriteFault(_) => Label::new(1, "WriteFault"),
            WriteError::Memory => Label::new(2, "Memory"),
        }
    }
}
