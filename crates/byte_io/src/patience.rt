//! How long one call waits for a silent source.

ghost use Rattle.std.specs.Prelude.{◌≡◌, ◌-◌, ◌^◌, ◌<◌, length};
ghost use Rattle.byte_io.specs.Pieces.{IsPiece};
ghost use Rattle.byte_io.specs.Sides.{Meets, Met};

use crate::device::{DeviceFault, Source, Took};
use std::marker::Model;

/// How many timeouts one call waits out. At the next it gives up.
pub const MAX_TIMEOUTS: u32 = 64;

/// The timeout at which a call gives up. A dial, or one write, may take as long as so many.
pub const LAST_TIMEOUT: u32 = MAX_TIMEOUTS + 1;

/// How often one call has waited for its source. All reads of the call go through it, so their timeouts are counted together.
#[derive(Drop)]
pub struct Patience {
    timeouts: u32,
}

impl Model for Patience {
    ghost use Rattle.std.specs.Prelude.{ℕ, ◌≤◌};

    ghost Value = { ℕ };

    ghost view = { λ p. p.timeouts };

    ghost invariant = { λ p. p.timeouts ≤ 64 };
}

impl Patience {
    /// That of a call which has not waited yet.
    pub fn new() -> Patience
        ensures unused { result ≡ 0 }
    {
        Patience { timeouts: 0 }
    }

    /// Reads the next piece of a source into the start of the buffer, and waits out timeouts. Answers how many bytes it has, at
    /// least one, or None if the input has ended.
    ///
    /// Fails if the source does, and at the 65th timeout of the call.
    pub fn read<S: Source>(
        &mut self,
        source: &mut S,
        buffer: &mut [u8],
    ) -> Result<Option<usize>, DeviceFault>
        requires room { 0 < length buffer.old }
        requires count { (S.input source.old).failures < 2 ^ 64 - 1 }
        ensures piece { (met : Met) × Meets (S.input source.old) met (S.input source.new)
            × IsPiece self.old met buffer.new result self.new }
    {
        loop {
            match source.take(buffer)? {
                Took::Bytes(count) => return Ok(Some(count)),
                Took::Ended => return Ok(None),
                Took::Lull => {
                    if self.timeouts == MAX_TIMEOUTS {
                        return Err(DeviceFault);
                    }
                    self.timeouts += 1;
                }
            }
        }
    }
}
