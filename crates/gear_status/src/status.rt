//! A load, read from a source.

ghost use Rattle.std.specs.Prelude.{◌≡◌, ◌≢◌, ◌-◌, ◌^◌, ◌<◌, ◌≤◌, Err, IfErr, IfOk, IfSome, Ok, length, max};
ghost use Rattle.byte_io.specs.Pieces.{IsPiece};
ghost use Rattle.byte_io.specs.Sides.{Meets, Met};
ghost use Rattle.gear_status.specs.Status.{status};
ghost use Rattle.gear_status.specs.Stream.{AnswersStatus, AnswersWithin};

use crate::reader::Unfinished;
use crate::{Load, StatusError};
use byte_io::{DeviceFault, Patience, Source};
use std::alloc::Global;

/// The most bytes of one read.
const PIECE: usize = 4096;

/// Reads the job server's answer to `status` from a source: one line `NAME TAB TOTAL TAB RUNNING TAB AVAILABLE_WORKERS` for
/// each function, and a last line that holds one period (Gearman's PROTOCOL document, "Administrative Protocol").
///
/// A line ends with a line feed, and one carriage return directly before it is dropped. The name is all before the third tab
/// from the right, any bytes, also none. Counts are decimal, up to 4,294,967,295, leading zeros allowed. A name that comes again
/// replaces its counts and keeps its place. A line has at most 4,096 bytes before its line feed, and there are at most 65,536
/// lines before the period line, so the load and one line bound the memory.
///
/// The source's pieces do not matter. At most 4,096 bytes are taken at a time. No read is made once the period line or a fault
/// has come, and what was read after it is not looked at. `ReadFault` is answered exactly if the source failed in this call,
/// or timed out for the 65th time in it, before its bytes decided: after the first failure nothing is read.
pub fn read_status<S: Source>(alloc: Global, source: &mut S) -> Result<Load, StatusError>
    requires count { (S.input source.old).failures < 2 ^ 64 - 1 }
    ensures answers { (met : Met) × Meets (S.input source.old) met (S.input source.new) × AnswersStatus met result }
{
    let mut buffer = [0u8; PIECE];
    let mut text = Unfinished::new(alloc);
    let mut patience = Patience::new();
    while let Some(count) = patience.read(source, &mut buffer)? {
        if text.feed(&buffer[..count])? {
            return Ok(text.into_load());
        }
    }
    Err(StatusError::Truncated)
}

/// As `read_status`, from no more than `limit` bytes. None if so many hold neither a fault nor the line feed of the period
/// line, and another byte comes.
pub fn read_status_within<S: Source>(
    alloc: Global,
    source: &mut S,
    limit: u64,
) -> Result<Option<Load>, StatusError>
    requires count { (S.input source.old).failures < 2 ^ 64 - 1 }
    ensures answers { (met : Met) × Meets (S.input source.old) met (S.input source.new) × AnswersWithin limit met result }
{
    let mut buffer = [0u8; PIECE];
    let mut text = Unfinished::new(alloc);
    let mut patience = Patience::new();
    let mut left = limit;
    while let Some(count) = read_up_to(left, &mut patience, source, &mut buffer)? {
        if left == 0 {
            return Ok(None);
        }
        left -= count as u64;
        if text.feed(&buffer[..count])? {
            return Ok(Some(text.into_load()));
        }
    }
    Err(StatusError::Truncated)
}

/// The load of a status text that is there whole, by the same rules. `ReadFault` never comes.
pub fn load_of(alloc: Global, text: &[u8]) -> Result<Load, StatusError>
    ensures ok { IfOk result (λ load. status text.now ≡ Ok load) }
    ensures refused { IfErr result (λ e. e ≢ StatusError.Memory → status text.now ≡ Err e) }
    ensures no_device { IfErr result (λ e. e ≢ StatusError.ReadFault) }
{
    let mut unfinished = Unfinished::new(alloc);
    if unfinished.feed(text)? {
        Ok(unfinished.into_load())
    } else {
        Err(StatusError::Truncated)
    }
}

/// Reads a piece of no more than so many bytes, or of one if none are left: whether it comes distinguishes a text that ends at a limit
/// from a longer one.
fn read_up_to<S: Source>(
    left: u64,
    patience: &mut Patience,
    source: &mut S,
    buffer: &mut [u8],
) -> Result<Option<usize>, DeviceFault>
    requires room { 0 < length buffer.old }
    requires count { (S.input source.old).failures < 2 ^ 64 - 1 }
    ensures within { IfOk result (λ piece. IfSome piece (λ n. n ≤ max left 1)) }
    ensures piece { (met : Met) × Meets (S.input source.old) met (S.input source.new)
        × IsPiece patience.old met buffer.new result patience.new }
{
    let room = left.max(1).min(buffer.len() as u64) as usize;
    patience.read(source, &mut buffer[..room])
}
