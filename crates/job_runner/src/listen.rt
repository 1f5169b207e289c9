//! One read of a session.

ghost use Rattle.std.specs.Prelude.{◌≡◌, ◌≢◌, ◌+◌, ◌-◌, ◌<◌, ◌≤◌, ◌^◌, ◌++◌, ℕ, List, length, IfErr, Option};
ghost use Rattle.gear_packets.specs.Response.{Message};
ghost use Rattle.gear_packets.specs.Text.{reading, read_after};
ghost use Rattle.byte_io.specs.Sides.{and_then, counted};
ghost use Rattle.job_runner.specs.Listening.{Hears, IsReadEnd, Reads, reads_of, lulls_of, read_failures, finds_end};

use crate::end::EndCause;
use byte_io::{Source, Took};
use gear_packets::{FeedError, Reader, cut_anywhere};

/// What one read of a session gave.
#[derive(Clone, Copy, Debug, PartialEq, Eq)]
pub enum Heard {
    /// Bytes, which went to the reader.
    Piece,
    /// Nothing in the time of one read.
    Lull,
}

/// What a session has read, with room for one more read.
#[derive(Drop)]
pub struct Inbox {
    /// What was read, but for the messages that were acted on.
    pub reader: Reader,
    /// Where a read puts what comes.
    pub buffer: [u8; 4096],
}

/// Reads once, and feeds what came to the reader. A fault of the stream is left to the reader.
pub fn hear<L: Source>(
    link: &mut L,
    reader: &mut Reader,
    buffer: &mut [u8],
) -> Result<Heard, EndCause>
    requires room { 0 < length buffer.old }
    requires countable { (L.input link.old).failures < 2 ^ 64 - 1 }
    ensures hears { (before : Option (List ℕ)) (read : List ℕ) (given : List Message) →
        (L.input link.old).given ≡ and_then before read → reading read ≡ read_after given reader.old →
        (more : List ℕ) × ((L.input link.new).given ≡ and_then before more)
        × (length more ≤ length read + length buffer.old) × Hears more given reader.new result }
    ensures kept { result ≢ Ok Heard.Piece → reader.new ≡ reader.old }
    ensures reads { Reads (length buffer.old) (reads_of result) 1 (L.input link.old) (L.input link.new) }
    ensures output { L.output link.new ≡ L.output link.old }
    ensures lulls { (L.input link.new).lulls ≡ counted (L.input link.old).lulls (lulls_of result) }
    ensures failures { (L.input link.new).failures ≡ (L.input link.old).failures + read_failures result }
    ensures ended { (L.input link.new).has_ended ≡ finds_end result }
    ensures causes { IfErr result IsReadEnd }
{
    cut_anywhere();
    match link.take(buffer) {
        Err(_) => Err(EndCause::ReadFault),
        Ok(Took::Ended) => Err(EndCause::Closed),
        Ok(Took::Lull) => Ok(Heard::Lull),
        Ok(Took::Bytes(count)) => match reader.feed(&buffer[..count]) {
            Ok(()) => Ok(Heard::Piece),
            Err(FeedError::Fault(_)) => Ok(Heard::Piece),
            Err(FeedError::Memory) => Err(EndCause::Memory),
        },
    }
}
