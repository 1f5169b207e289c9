//! A connection that can be looked at, and written to, without waiting.

ghost use Rattle.std.specs.Prelude.{◌≡◌, ◌+◌, ◌-◌, ◌^◌, ◌<◌, ◌≤◌, length, IfOk, IfSome};
ghost use Rattle.byte_io.specs.Device.{failure_of};
ghost use Rattle.byte_io.specs.Sides.{and_then};
ghost use Rattle.http_jobs.specs.AtOnce.{gone_at_once};

use byte_io::{DeviceFault, Sink};

/// A connection that can be looked at and written to without waiting, and whose reads and writes wait no longer than they may.
pub trait Look: Sink {
    ghost use Rattle.std.specs.Prelude.{Bool, Option};

    /// Whether it is open, and nothing has come that was not read. None if it does not show that.
    ghost quiet: { Self → Option Bool };

    /// Whether it is open, and nothing has come that was not read. It does not wait, and takes nothing.
    fn is_quiet(&self) -> bool
        ensures quiet { IfSome (Self.quiet self.now) (λ quiet. result ≡ quiet) };

    /// Lets each write from now on take so many milliseconds, and no longer. A connection whose writes never wait need not know.
    fn limit_writes(&mut self, _milliseconds: u64)
        ensures input { Self.input self.new ≡ Self.input self.old }
        ensures output { Self.output self.new ≡ Self.output self.old }
    {}

    /// Lets each read from now on take so many milliseconds, and no longer, or as long as at first. A connection whose reads never wait
    /// need not know.
    fn limit_reads(&mut self, _milliseconds: Option<u64>)
        ensures input { Self.input self.new ≡ Self.input self.old }
        ensures output { Self.output self.new ≡ Self.output self.old }
    {}

    /// Writes the bytes, or a prefix of them, as far as there is room for them, and does not wait. It says how many it took, at least one,
    /// or none if there is no room now. After a failure it took none. A connection whose writes never wait takes them as it always does.
    fn give_at_once(&mut self, bytes: &[u8]) -> Result<Option<usize>, DeviceFault>
        requires some { 0 < length bytes.now }
        requires count { (Self.output self.old).failures < 2 ^ 64 - 1 }
        ensures within { IfOk result (λ given. IfSome given (λ n. (1 ≤ n) × (n ≤ length bytes.now))) }
        ensures bytes { (Self.output self.new).got ≡ and_then (Self.output self.old).got (gone_at_once bytes.now result) }
        ensures fails { (Self.output self.new).failures ≡ (Self.output self.old).failures + failure_of result }
        ensures input { Self.input self.new ≡ Self.input self.old }
    {
        match self.give(bytes) {
            Ok(count) => Ok(Some(count)),
            Err(e) => Err(e),
        }
    }
}
