//! A write to a stream of the system.

ghost use Rattle.std.specs.Prelude.{◌≤◌, length, IfOk};
ghost use Rattle.std.specs.Io.KnownBytes.{WriteAppends};

use byte_io::DeviceFault;
use std::io::{ErrorKind, Write};

/// How often a write is tried that a signal interrupts each time.
const MOST_TRIES: u32 = 64;

/// Writes the bytes, or a prefix of them, and says how many were taken: at least one. A write that a signal interrupted took none, and is
/// tried again, 64 times in all: a program that was stopped for a while goes on where it was. One that took nothing has failed.
pub fn write_some<W: Write>(writer: &mut W, bytes: &[u8]) -> Result<usize, DeviceFault>
    ensures within { IfOk result (λ n. (1 ≤ n) × (n ≤ length bytes.now)) }
    ensures bytes { WriteAppends (W.contents writer.old) (W.contents writer.new) result bytes.now }
{
    for _attempt in 0..MOST_TRIES {
        match writer.write(bytes) {
            Ok(0) => return Err(DeviceFault),
            Ok(count) => return Ok(count),
            Err(error) => {
                if error.kind() != ErrorKind::Interrupted {
                    return Err(DeviceFault);
                }
            }
        }
    }
    Err(DeviceFault)
}
