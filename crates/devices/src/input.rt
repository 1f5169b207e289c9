//! Input that is read whole.

ghost use Rattle.std.specs.Prelude.{◌≡◌, ◌-◌, ◌^◌, ◌<◌, MatchResult};
ghost use Rattle.byte_io.specs.Sides.{Meets, Met};
ghost use Rattle.devices.specs.Whole.{IsNotWhole, IsWhole};

use crate::error::InputError;
use byte_io::{Patience, Source};
use std::alloc::Global;

/// The most bytes that a file or an input may have.
pub const LIMIT: u64 = 16_777_216;

/// All bytes of a source, up to its end and no more than `LIMIT`.
///
/// `TooLong` if another byte comes, `ReadFault` if the source fails or times out for the 65th time, `Memory` if memory is
/// refused. At most 4,096 bytes are taken at a time, so no more than these are taken above the limit.
pub fn read_whole<R: Source>(alloc: Global, source: &mut R) -> Result<Vec<u8>, InputError>
    requires count { (R.input source.old).failures < 2 ^ 64 - 1 }
    ensures whole { (met : Met) × Meets (R.input source.old) met (R.input source.new)
        × MatchResult result (λ text. (text.items ≡ met.bytes) × IsWhole met) (IsNotWhole met) }
{
    let mut buffer = [0u8; 4096];
    let mut bytes = Vec::new(alloc);
    let mut patience = Patience::new();
    while let Some(count) = patience.read(source, &mut buffer)? {
        if bytes.len() as u64 + count as u64 > LIMIT {
            return Err(InputError::TooLong);
        }
        bytes.extend_from_slice(&buffer[..count])?;
    }
    Ok(bytes)
}
