//! What a stream of the system counts of its reads.

ghost use Rattle.std.specs.Prelude.{◌≡◌, ◌+◌, ◌-◌, ◌^◌, ◌<◌, false};
ghost use Rattle.byte_io.specs.Device.{failure_of, lull_of};
ghost use Rattle.devices.specs.Results.{IsNoPiece};

use crate::results::{Meaning, TimeLimit, meaning_of};
use byte_io::{DeviceFault, Took};
use std::io::ErrorKind;

/// What the reads of a stream have come to.
#[derive(Clone, Copy)]
pub struct Reads {
    /// How many failed.
    pub failures: u64,
    /// How many timed out.
    pub timeouts: u64,
    /// Whether the last found the end.
    pub has_ended: bool,
}

impl Reads {
    /// Those of a stream that was not read yet.
    pub fn new() -> Reads
        ensures unread { result ≡ record { failures = 0; timeouts = 0; has_ended = false } }
    {
        Reads {
            failures: 0,
            timeouts: 0,
            has_ended: false,
        }
    }

    /// Counts a read that met an error of this kind, and says what a source gives by it: a timeout, or a failure. A stream that can
    /// count no further timeout fails.
    pub fn stopped(&mut self, kind: ErrorKind, limit: TimeLimit) -> Result<Took, DeviceFault>
        requires count { self.old.failures < 2 ^ 64 - 1 }
        ensures nothing { IsNoPiece result }
        ensures pauses { self.new.timeouts ≡ self.old.timeouts + lull_of result }
        ensures fails { self.new.failures ≡ self.old.failures + failure_of result }
        ensures ends { self.new.has_ended ≡ self.old.has_ended }
    {
        match meaning_of(kind, limit) {
            Meaning::Timeout if self.timeouts < u64::MAX => {
                self.timeouts += 1;
                Ok(Took::Lull)
            }
            _ => {
                self.failures += 1;
                Err(DeviceFault)
            }
        }
    }
}
