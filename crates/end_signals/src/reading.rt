//! The signals of this process, as the system tells them at this moment.

ghost use Rattle.std.specs.Prelude.{IfOk};
ghost use Rattle.end_signals.specs.Reading.{IsStatusOf, status_file};

use crate::status::{MaskFault, SignalStatus, signal_status};
use devices::{Folder, InputError, read_file};
use std::alloc::Global;
use thiserror::Error;

/// The file in which the system says which signals of this process are blocked and pending.
const STATUS_FILE: &str = "/proc/self/status";

/// Why it is not known which signals are blocked or pending.
#[derive(Clone, Copy, Debug, PartialEq, Eq, Error)]
pub enum SignalsUnread {
    /// The system's status of this process is not read, as if /proc is not there, or no more files may be open.
    #[error("/proc/self/status: {0}")]
    File(#[from] InputError),
    /// It does not say so.
    #[error("/proc/self/status: {0}")]
    Text(#[from] MaskFault),
}

/// What the system says of SIGTERM and SIGINT at this moment. It opens one file and takes a few KiB of memory for a moment, so it may be
/// called a few times a second.
pub fn read_signals<F: Folder>(files: &F, alloc: Global) -> Result<SignalStatus, SignalsUnread>
    ensures { IfOk result (IsStatusOf (F.file files.now status_file)) }
{
    let text = read_file(files, alloc, STATUS_FILE)?;
    let status = signal_status(text.as_slice())?;
    Ok(status)
}
