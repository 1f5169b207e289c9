//! What the errors of the system's calls say of a device or a file. Each kind of error has one meaning, which is said here alone.

ghost use Rattle.std.specs.Prelude.{◌≡◌};
ghost use Rattle.devices.specs.Results as spec;

use crate::error::InputError;
use std::io::ErrorKind;

/// Whether the reads of a stream have a time limit.
#[derive(Clone, Copy)]
pub enum TimeLimit {
    /// None: a read waits for as long as it takes.
    Unset,
    /// A read that waits longer ends with an error.
    Set,
}

/// What an error of the system says.
#[derive(Clone, Copy)]
pub enum Meaning {
    /// There was nothing in the time of the call. More may come.
    Timeout,
    /// There is no memory, which says nothing of the device.
    OutOfMemory,
    /// The device failed.
    Fault,
}

/// What an error of this kind says. A call that a signal interrupted has timed out. That the call would have to wait is a timeout if the
/// stream has a time limit, since Linux says so of a read that waited so long. Without one it is a fault: nothing waits for such a stream,
/// so a caller that waited out its timeouts would only read it 64 times in a row. `TimedOut` is always a fault: TCP gave up the connection,
/// whose other side did not answer, and says so once.
pub fn meaning_of(kind: ErrorKind, limit: TimeLimit) -> Meaning
    ensures meaning { result ≡ spec.meaning_of kind limit }
{
    match kind {
        ErrorKind::Interrupted => Meaning::Timeout,
        ErrorKind::WouldBlock => match limit {
            TimeLimit::Set => Meaning::Timeout,
            TimeLimit::Unset => Meaning::Fault,
        },
        ErrorKind::OutOfMemory => Meaning::OutOfMemory,
        _ => Meaning::Fault,
    }
}

/// Why a call on a file failed that met an error of this kind: out of memory, which says nothing of the file, or `other`.
pub fn failed_by(kind: ErrorKind, other: InputError) -> InputError
    ensures failure { result ≡ spec.failed_by kind other }
{
    match meaning_of(kind, TimeLimit::Unset) {
        Meaning::OutOfMemory => InputError::Memory,
        Meaning::Timeout | Meaning::Fault => other,
    }
}
