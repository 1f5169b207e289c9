//! A link to a job server that ends by itself if the server answers nothing, and lets its reader look up if the server talks without end.

ghost use Rattle.std.specs.Prelude.{◌≡◌, false};
ghost use Rattle.server_link.specs.Talk.{first_talk};

use crate::talk::Talk;
use byte_io::{Device, DeviceFault, Sink, Source, Took};
use std::marker::Model;
use std::time::Clock;

/// A link to a job server.
///
/// Once it was given a request for a job, and 65 timeouts and ten seconds brought nothing, the next read fails, as if the link under it
/// had: a server answers such a request at once, so one that acknowledges and never answers is gone. And it answers a timeout, though bytes
/// may wait, if nothing was given and no read timed out for a second: so who reads it looks up, also if the server talks without end. It
/// does not while the server gives its status, whose timeouts are counted.
///
/// While its clock does not show the time, it answers no timeout by itself, and fails after 65 timeouts.
#[derive(Drop)]
pub struct ServerLink<L: Device, R> {
    link: L,
    clock: R,
    talk: Talk,
    /// How often it failed by itself, as the server was silent.
    silences: u64,
    /// How many timeouts it answered by itself.
    looks: u64,
    /// Whether the last read found the end.
    has_ended: bool,
}

impl<L: Device, R> Model for ServerLink<L, R> {
    ghost use Rattle.server_link.specs.Link.{Linked};

    ghost Value = { Linked };

    ghost view = { λ s. record {
      input = L.input s.link;
      output = L.output s.link;
      talk = s.talk;
      silences = s.silences;
      looks = s.looks;
      has_ended = s.has_ended;
    } };
}

/// The time, in milliseconds since some moment that stays the same. None if the clock does not show it.
fn now_ms<R: Clock>(clock: &R) -> Option<u64> {
    let time = clock.monotonic().ok()?;
    u64::try_from(time.as_millis()).ok()
}

impl<L: Device, R> ServerLink<L, R> {
    /// A link that was not used yet, and the clock that it goes by.
    pub fn new(link: L, clock: R) -> ServerLink<L, R>
        ensures new { result ≡ record {
          input = L.input link;
          output = L.output link;
          talk = first_talk;
          silences = 0;
          looks = 0;
          has_ended = false;
        } }
    {
        ServerLink {
            link,
            clock,
            talk: Talk::new(),
            silences: 0,
            looks: 0,
            has_ended: false,
        }
    }
}

impl<L: Device, R> Device for ServerLink<L, R> {
    ghost use Rattle.server_link.specs.Link.{input_of};

    ghost input = { λ s. input_of s };

    ghost output = { λ s. s.output };
}

impl<L: Source, R: Clock> Source for ServerLink<L, R> {
    ghost use Rattle.std.specs.Prelude.{◌⊎◌, ◌+◌, ◌-◌, ◌^◌, ◌<◌, IfOk, length};
    ghost use Rattle.byte_io.specs.Device.{FitsBuffer, failure_of, is_end, lull_of, taken};
    ghost use Rattle.byte_io.specs.Sides.{and_then, counted};
    ghost use Rattle.server_link.specs.Link.{GivesUp, Listens, LooksUp};
    ghost use Rattle.server_link.specs.Talk.{IsSilent};

    fn take(&mut self, buffer: &mut [u8]) -> Result<Took, DeviceFault>
        requires room { 0 < length buffer.old }
        requires count { self.old.input.failures + self.old.silences < 2 ^ 64 - 1 }
        ensures within { IfOk result (FitsBuffer (length buffer.new)) }
        ensures bytes { self.new.input.given ≡ and_then self.old.input.given (taken buffer.new result) }
        ensures pauses { counted self.new.input.lulls self.new.looks
            ≡ counted (counted self.old.input.lulls self.old.looks) (lull_of result) }
        ensures fails { self.new.input.failures + self.new.silences ≡ (self.old.input.failures + self.old.silences) + failure_of result }
        ensures ends { self.new.has_ended ≡ is_end result }
        ensures output { self.new.output ≡ self.old.output }
        ensures gives_up { IsSilent self.old.talk → GivesUp self.old result self.new }
        ensures goes_on { (¬ IsSilent self.old.talk) → LooksUp self.old result self.new ⊎ Listens self.old result self.new }
    {
        self.has_ended = false;
        if self.talk.is_silent() {
            self.silences += 1;
            return Err(DeviceFault);
        }
        let now = now_ms(&self.clock);
        if self.talk.is_due(now) && self.looks < u64::MAX {
            self.talk.look(now);
            self.looks += 1;
            return Ok(Took::Lull);
        }
        self.talk.begin(now);
        let took = self.link.take(buffer);
        match took {
            Ok(Took::Lull) => self.talk.wait(now_ms(&self.clock)),
            _ => self.talk.answer(),
        }
        self.has_ended = took == Ok(Took::Ended);
        took
    }
}

impl<L: Sink, R> Sink for ServerLink<L, R> {
    ghost use Rattle.std.specs.Prelude.{◌+◌, ◌-◌, ◌^◌, ◌<◌, ◌≤◌, IfOk, OnErr, length, take};
    ghost use Rattle.byte_io.specs.Device.{failure_of, gone};
    ghost use Rattle.byte_io.specs.Sides.{and_then};
    ghost use Rattle.server_link.specs.Talk.{told};

    fn give(&mut self, bytes: &[u8]) -> Result<usize, DeviceFault>
        requires some { 0 < length bytes.now }
        requires count { self.old.output.failures < 2 ^ 64 - 1 }
        ensures within { IfOk result (λ n. (1 ≤ n) × (n ≤ length bytes.now)) }
        ensures bytes { self.new.output.got ≡ and_then self.old.output.got (gone bytes.now result) }
        ensures fails { self.new.output.failures ≡ self.old.output.failures + failure_of result }
        ensures input { ⟦<ServerLink<L, R> as Device>⟧.input self.new ≡ ⟦<ServerLink<L, R> as Device>⟧.input self.old }
        ensures told { IfOk result (λ n. self.new.talk ≡ told self.old.talk (take n bytes.now)) }
        ensures untold { OnErr result (self.new.talk ≡ self.old.talk) }
        ensures counts { (self.new.silences ≡ self.old.silences) × (self.new.looks ≡ self.old.looks) }
    {
        let given = self.link.give(bytes);
        if let Ok(count) = given {
            self.talk.tell(&bytes[..count]);
        }
        given
    }
}
