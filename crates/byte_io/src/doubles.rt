//! Devices for tests: one in memory that follows a script.

ghost use Rattle.std.specs.Prelude.{◌≡◌, ◌<◌, ◌≤◌, ◌-◌, ◌^◌, ◌++◌, ◌∷◌, [], min, length, take, IfOk, OnOk, OnErr, Some, None};
ghost use Rattle.byte_io.specs.Script.{Reads, Writes, first_play, fails, one_less};

use crate::device::{Device, DeviceFault, Sink, Source, Took};
use std::alloc::{AllocError, Global};
use std::marker::Model;

/// A source and a sink for tests. It gives its pieces one by one, over as many reads as the buffers need, and then ends; a piece
/// without bytes is a timeout. It takes so many bytes at a write. Each side may fail at one stated call, which reads or writes nothing.
#[derive(Drop)]
pub struct Script {
    pieces: Vec<Vec<u8>>,
    next: usize,
    at: usize,
    lulls: usize,
    has_ended: bool,
    sound_takes: Option<u64>,
    take_failures: u64,
    output: Vec<u8>,
    widest_give: usize,
    sound_gives: Option<u64>,
    give_failures: u64,
}

impl Model for Script {
    ghost use Rattle.byte_io.specs.Script.{IsPlay, Play};

    ghost Value = { Play };

    ghost use Rattle.byte_io.specs.Played.{play_view};

    ghost view = { play_view };

    ghost invariant = { λ s. IsPlay (play_view s) };
}

impl Script {
    /// A script without pieces: it ends at its first read, takes whatever is written, and never fails.
    pub fn new(alloc: Global) -> Script
        ensures no_pieces { result ≡ first_play }
    {
        Script {
            pieces: Vec::new(alloc),
            next: 0,
            at: 0,
            lulls: 0,
            has_ended: false,
            sound_takes: None,
            take_failures: 0,
            output: Vec::new(alloc),
            widest_give: usize::MAX,
            sound_gives: None,
            give_failures: 0,
        }
    }

    /// Lists a piece of input. One without bytes is a timeout. If there is no memory for it, the script stays as it was.
    pub fn piece(&mut self, bytes: &[u8]) -> Result<(), AllocError>
        ensures ok { OnOk result (self.new ≡ record self.old { pieces = self.old.pieces ++ bytes.now ∷ [] }) }
        ensures err { OnErr result (self.new ≡ self.old) }
    {
        let piece = Vec::from_slice(*self.pieces.allocator(), bytes)?;
        self.pieces.push(piece)?;
        Ok(())
    }

    /// Lists a timeout. If there is no memory for it, the script stays as it was.
    pub fn lull(&mut self) -> Result<(), AllocError>
        ensures ok { OnOk result (self.new ≡ record self.old { pieces = self.old.pieces ++ [] ∷ [] }) }
        ensures err { OnErr result (self.new ≡ self.old) }
    {
        self.piece(&[])
    }

    /// The call of `take` that is to fail, counted from 1 for the next.
    pub fn fail_take(&mut self, call: u64)
        requires counted { 1 ≤ call }
        ensures planned { self.new ≡ record self.old { sound_takes = Some (call - 1) } }
    {
        self.sound_takes = Some(call - 1);
    }

    /// The call of `give` that is to fail, counted from 1 for the next.
    pub fn fail_give(&mut self, call: u64)
        requires counted { 1 ≤ call }
        ensures planned { self.new ≡ record self.old { sound_gives = Some (call - 1) } }
    {
        self.sound_gives = Some(call - 1);
    }

    /// A write takes no more bytes than this.
    pub fn give_at_most(&mut self, count: usize)
        requires some { 1 ≤ count }
        ensures planned { self.new ≡ record self.old { widest_give = count } }
    {
        self.widest_give = count;
    }

    /// The bytes that were written, in order.
    pub fn output(&self) -> &[u8]
        ensures written { result.now ≡ self.now.output }
    {
        self.output.as_slice()
    }
}

impl Script {
    /// One read: what it gives, and the script that is left, are those that the script and the room in the buffer say.
    fn read(&mut self, buffer: &mut [u8]) -> Result<Took, DeviceFault>
        requires room { 0 < length buffer.old }
        requires count { self.old.take_failures < 2 ^ 64 - 1 }
        ensures reads { Reads self.old buffer.new result self.new }
    {
        let (fails, sound) = counted(self.sound_takes);
        self.has_ended = false;
        self.sound_takes = sound;
        if fails {
            self.take_failures += 1;
            return Err(DeviceFault);
        }
        if self.next == self.pieces.len() {
            self.has_ended = true;
            return Ok(Took::Ended);
        }
        let piece = self.pieces[self.next].as_slice();
        if piece.is_empty() {
            self.next += 1;
            self.at = 0;
            self.lulls += 1;
            return Ok(Took::Lull);
        }
        let left = &piece[self.at..];
        let count = copy_prefix(left, buffer);
        if count < left.len() {
            self.at += count;
            return Ok(Took::Bytes(count));
        }
        self.next += 1;
        self.at = 0;
        Ok(Took::Bytes(count))
    }

    /// One write: what it takes is what the script says, or nothing if it is to fail or the growth of its output is refused.
    fn write(&mut self, bytes: &[u8]) -> Result<usize, DeviceFault>
        requires some { 0 < length bytes.now }
        requires count { self.old.give_failures < 2 ^ 64 - 1 }
        ensures within { IfOk result (λ n. (1 ≤ n) × (n ≤ length bytes.now)) }
        ensures writes { Writes self.old bytes.now result self.new }
    {
        let (fails, sound) = counted(self.sound_gives);
        self.sound_gives = sound;
        let count = bytes.len().min(self.widest_give);
        if fails || self.output.extend_from_slice(&bytes[..count]).is_err() {
            self.give_failures += 1;
            return Err(DeviceFault);
        }
        Ok(count)
    }
}

/// Whether this call is to fail, and the calls before the failure that are left after it.
fn counted(sound: Option<u64>) -> (bool, Option<u64>)
    ensures fails { result.0 ≡ fails sound }
    ensures less { result.1 ≡ one_less sound }
{
    match sound {
        Some(0) => (true, None),
        Some(calls) => (false, Some(calls - 1)),
        None => (false, None),
    }
}

/// Copies what fits, and says how much that is.
fn copy_prefix(from: &[u8], into: &mut [u8]) -> usize
    ensures count { result ≡ min (length from.now) (length into.old) }
    ensures bytes { take result into.new ≡ take result from.now }
    ensures len { length into.new ≡ length into.old }
{
    let count = from.len().min(into.len());
    into[..count].copy_from_slice(&from[..count]);
    count
}

impl Device for Script {
    ghost use Rattle.std.specs.Prelude.{Some};
    ghost use Rattle.byte_io.specs.Script.{given};

    ghost input = { λ s. record { given = Some (given s); lulls = Some s.lulls; failures = s.take_failures; has_ended = s.has_ended } };

    ghost output = { λ s. record { got = Some s.output; failures = s.give_failures } };
}

impl Source for Script {
    fn take(&mut self, buffer: &mut [u8]) -> Result<Took, DeviceFault> {
        self.read(buffer)
    }
}

impl Sink for Script {
    fn give(&mut self, bytes: &[u8]) -> Result<usize, DeviceFault> {
        self.write(bytes)
    }
}
