//! What bytes are read from and written to.

ghost use Rattle.std.specs.Prelude.{◌≡◌, ◌+◌, ◌-◌, ◌^◌, ◌<◌, ◌≤◌, length, IfOk, IfErr, OnOk, OnErr, take};
ghost use Rattle.byte_io.specs.Device.{FitsBuffer, failure_of, gone, is_end, lull_of, taken};
ghost use Rattle.byte_io.specs.Sides.{HasPrefix, HasText, Input, Output, and_then, counted, no_input, no_output};

use thiserror::Error;

/// What one read gave.
#[derive(Clone, Copy, Debug, PartialEq, Eq)]
pub enum Took {
    /// So many bytes, at least one, at the start of the buffer.
    Bytes(usize),
    /// Nothing in the time of one read. More may come.
    Lull,
    /// The end of the input.
    Ended,
}

/// The device failed in this call.
#[derive(Clone, Copy, Debug, PartialEq, Eq, Error)]
#[error("the device failed")]
pub struct DeviceFault;

/// What bytes come from, or go to, or both: a socket, a file, memory.
///
/// A device reports on its two sides. A side that it does not have stays as it was at first. Bytes and timeouts are reported if that
/// can be, as over memory; of a socket nothing is claimed, and it says None. Failures are counted always.
pub trait Device {
    /// What was read from it.
    ghost input: { Self → Input } = { λ _. no_input };

    /// What was written to it.
    ghost output: { Self → Output } = { λ _. no_output };
}

/// What bytes are read from.
///
/// A source stores and reports how often it has failed, and whether its last read found the end.
pub trait Source: Device {
    /// Reads into the start of the buffer. After a failure nothing is known of the buffer.
    fn take(&mut self, buffer: &mut [u8]) -> Result<Took, DeviceFault>
        requires room { 0 < length buffer.old }
        requires count { (Self.input self.old).failures < 2 ^ 64 - 1 }
        ensures within { IfOk result (FitsBuffer (length buffer.new)) }
        ensures bytes { (Self.input self.new).given ≡ and_then (Self.input self.old).given (taken buffer.new result) }
        ensures pauses { (Self.input self.new).lulls ≡ counted (Self.input self.old).lulls (lull_of result) }
        ensures fails { (Self.input self.new).failures ≡ (Self.input self.old).failures + failure_of result }
        ensures ends { (Self.input self.new).has_ended ≡ is_end result }
        ensures output { Self.output self.new ≡ Self.output self.old };
}

/// What bytes are written to.
///
/// A sink stores and reports how often it has failed.
pub trait Sink: Device {
    /// Writes the bytes, or a prefix of them, and says how many it took: at least one. After a failure it took none.
    fn give(&mut self, bytes: &[u8]) -> Result<usize, DeviceFault>
        requires some { 0 < length bytes.now }
        requires count { (Self.output self.old).failures < 2 ^ 64 - 1 }
        ensures within { IfOk result (λ n. (1 ≤ n) × (n ≤ length bytes.now)) }
        ensures bytes { (Self.output self.new).got ≡ and_then (Self.output self.old).got (gone bytes.now result) }
        ensures fails { (Self.output self.new).failures ≡ (Self.output self.old).failures + failure_of result }
        ensures input { Self.input self.new ≡ Self.input self.old };
}

/// The sink failed after it took so many bytes, a prefix of the text.
#[derive(Clone, Copy, Debug, PartialEq, Eq, Error)]
#[error("the device failed after {count} bytes")]
pub struct Given {
    /// How many bytes went out before the failure.
    pub count: usize,
}

/// Writes all the bytes, in as many writes as the sink needs. If a write fails, a prefix of them has gone out, and
/// nothing is written after it.
pub fn give_all<S: Sink>(sink: &mut S, bytes: &[u8]) -> Result<(), Given>
    requires count { (S.output sink.old).failures < 2 ^ 64 - 1 }
    ensures ok { OnOk result (HasText (S.output sink.old) bytes.now (S.output sink.new)) }
    ensures err { IfErr result (λ g. HasPrefix (S.output sink.old) bytes.now g.count (S.output sink.new)) }
    ensures input { S.input sink.new ≡ S.input sink.old }
{
    let mut count = 0;
    while count < bytes.len() {
        match sink.give(&bytes[count..]) {
            Ok(n) => count += n,
            Err(_) => return Err(Given { count }),
        }
    }
    Ok(())
}
