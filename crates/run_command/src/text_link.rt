//! A link to a job server on which each text has a deadline.

ghost use Rattle.std.specs.Prelude.{◌≡◌, ◌+◌, ◌-◌, ◌<◌, ◌≤◌, ◌^◌, IfOk, None, Ok, false, length, true};
ghost use Rattle.byte_io.specs.Deadline.{deadline_from, is_past};
ghost use Rattle.byte_io.specs.Device.{failure_of, gone};
ghost use Rattle.byte_io.specs.Sides.{and_then};
ghost use Rattle.job_runner.specs.Run.{seen_link};
ghost use Rattle.pool_supervisor.specs.Dials.{IsNew};
ghost use Rattle.run_command.specs.Texts as spec;

use byte_io::{Device, DeviceFault, Sink, Source, Took, deadline_from};
use pool_supervisor::Watch;

/// A link to a job server on which each text has a deadline: what its first write leaves has to be taken in so many milliseconds after that
/// write. A write after the deadline fails, and writes nothing. A link alone bounds the time of each write: a server that takes a report by
/// a few bytes at a time would hold a worker and its job for as long as it likes.
///
/// One for a single answer can have a deadline for that too. A read after it, or once the run has to end, fails and reads nothing: a server
/// that gives its status by a few bytes at a time would hold an attempt.
///
/// Most texts are taken whole by their first write: then the clock is not read. While it does not show the time, no write or read is late.
#[derive(Drop)]
pub struct TextLink<'e, L, H> {
    link: L,
    watch: &'e H,
    limit_ms: u64,
    /// Until when the rest of a text has to be taken. None between two texts.
    deadline: Option<u64>,
    /// How many writes came too late.
    late: u64,
    /// Until when all has to be read. None if there is no hurry.
    read_until: Option<u64>,
    /// How many reads came too late.
    late_reads: u64,
    /// Whether the last read found the end.
    has_ended: bool,
}

/// The deadline after a write of so many bytes: none if the text was taken whole.
fn deadline_after(
    written: &Result<usize, DeviceFault>,
    count: usize,
    deadline: Option<u64>,
) -> Option<u64>
    ensures { result ≡ spec.deadline_after written.now count deadline }
{
    match written {
        Ok(taken) if *taken == count => None,
        _ => deadline,
    }
}

impl<'e, L: Source + Sink, H: Watch> TextLink<'e, L, H> {
    /// A new link, for texts that each may take so many milliseconds.
    pub fn new(link: L, watch: &'e H, limit_ms: u32) -> TextLink<'e, L, H>
        requires fresh { IsNew (seen_link L.input L.output link) }
        ensures fresh { IsNew (seen_link ⟦<TextLink<'e, L, H> as Device>⟧.input ⟦<TextLink<'e, L, H> as Device>⟧.output result) }
        ensures unwritten { result.deadline ≡ None }
        ensures unlimited { result.read_until ≡ None }
        ensures link { result.link ≡ link }
        ensures limit { result.limit_ms ≡ limit_ms }
    {
        TextLink {
            link,
            watch,
            limit_ms: limit_ms as u64,
            deadline: None,
            late: 0,
            read_until: None,
            late_reads: 0,
            has_ended: false,
        }
    }
}

impl<'e, L: Sink, H> TextLink<'e, L, H> {
    /// Writes the rest of a text, or a prefix of it, at this time, if it is not late.
    fn give_at(&mut self, bytes: &[u8], now: Option<u64>) -> Result<usize, DeviceFault>
        requires some { 0 < length bytes.now }
        requires count { (L.output self.old.link).failures + self.old.late < 2 ^ 64 - 1 }
        ensures late { is_past self.old.deadline now ≡ true → failure_of result ≡ 1 }
        ensures unwritten { is_past self.old.deadline now ≡ true → self.new ≡ record self.old { late = self.old.late + 1 } }
        ensures in_time { is_past self.old.deadline now ≡ false → self.new.late ≡ self.old.late }
        ensures deadline { is_past self.old.deadline now ≡ false
            → self.new.deadline ≡ spec.deadline_after result (length bytes.now) self.old.deadline }
        ensures limit { self.new.limit_ms ≡ self.old.limit_ms }
        ensures reading { (self.new.read_until ≡ self.old.read_until) × (self.new.late_reads ≡ self.old.late_reads)
            × (self.new.has_ended ≡ self.old.has_ended) }
        ensures within { IfOk result (λ n. (1 ≤ n) × (n ≤ length bytes.now)) }
        ensures bytes { (L.output self.new.link).got ≡ and_then (L.output self.old.link).got (gone bytes.now result) }
        ensures fails { (L.output self.new.link).failures + self.new.late
            ≡ ((L.output self.old.link).failures + self.old.late) + failure_of result }
        ensures input { L.input self.new.link ≡ L.input self.old.link }
    {
        if byte_io::is_past(self.deadline, now) {
            self.late += 1;
            return Err(DeviceFault);
        }
        let written = self.link.give(bytes);
        self.deadline = deadline_after(&written, bytes.len(), self.deadline);
        written
    }
}

impl<'e, L, H> TextLink<'e, L, H> {
    /// Gives the rest of a text a deadline from this time on.
    fn begin_deadline(&mut self, now: Option<u64>)
        ensures deadline { self.new ≡ record self.old { deadline = deadline_from self.old.limit_ms now } }
    {
        self.deadline = deadline_from(self.limit_ms, now);
    }

    /// Lets all that is read take so many milliseconds from this time on.
    pub fn limit_reading(&mut self, milliseconds: u32, now: Option<u64>)
        ensures deadline { self.new ≡ record self.old { read_until = deadline_from milliseconds now } }
    {
        self.read_until = deadline_from(milliseconds as u64, now);
    }
}

impl<'e, L, H: Watch> TextLink<'e, L, H> {
    /// Whether all had to be read by now, or nobody waits for it any more.
    fn is_read_late(&self) -> bool
        ensures unhurried { self.now.read_until ≡ None → result ≡ false }
    {
        self.read_until.is_some()
            && (self.watch.has_to_end() || byte_io::is_past(self.read_until, self.watch.now_ms()))
    }
}

impl<'e, L: Device, H> Device for TextLink<'e, L, H> {
    ghost use Rattle.std.specs.Prelude.{◌+◌};

    ghost input = { λ s. record {
      given = (L.input s.link).given;
      lulls = (L.input s.link).lulls;
      failures = (L.input s.link).failures + s.late_reads;
      has_ended = s.has_ended;
    } };

    ghost output = { λ s. record { got = (L.output s.link).got; failures = (L.output s.link).failures + s.late } };
}

impl<'e, L: Source, H: Watch> Source for TextLink<'e, L, H> {
    ghost use Rattle.byte_io.specs.Device.{FitsBuffer, failure_of, is_end, lull_of, taken};
    ghost use Rattle.byte_io.specs.Sides.{and_then, counted};

    fn take(&mut self, buffer: &mut [u8]) -> Result<Took, DeviceFault>
        requires room { 0 < length buffer.old }
        requires count { (L.input self.old.link).failures + self.old.late_reads < 2 ^ 64 - 1 }
        ensures within { IfOk result (FitsBuffer (length buffer.new)) }
        ensures bytes { (L.input self.new.link).given ≡ and_then (L.input self.old.link).given (taken buffer.new result) }
        ensures pauses { (L.input self.new.link).lulls ≡ counted (L.input self.old.link).lulls (lull_of result) }
        ensures fails { (L.input self.new.link).failures + self.new.late_reads
            ≡ ((L.input self.old.link).failures + self.old.late_reads) + failure_of result }
        ensures ends { self.new.has_ended ≡ is_end result }
        ensures output { ⟦<TextLink<'e, L, H> as Device>⟧.output self.new ≡ ⟦<TextLink<'e, L, H> as Device>⟧.output self.old }
        ensures unhurried { self.old.read_until ≡ None → self.new.late_reads ≡ self.old.late_reads }
        ensures writing { (self.new.deadline ≡ self.old.deadline) × (self.new.limit_ms ≡ self.old.limit_ms)
            × (self.new.late ≡ self.old.late) }
        ensures limit { self.new.read_until ≡ self.old.read_until }
    {
        self.has_ended = false;
        if self.is_read_late() {
            self.late_reads += 1;
            return Err(DeviceFault);
        }
        let took = self.link.take(buffer);
        self.has_ended = took == Ok(Took::Ended);
        took
    }
}

impl<'e, L: Sink, H: Watch> Sink for TextLink<'e, L, H> {
    fn give(&mut self, bytes: &[u8]) -> Result<usize, DeviceFault>
        requires some { 0 < length bytes.now }
        requires count { (L.output self.old.link).failures + self.old.late < 2 ^ 64 - 1 }
        ensures within { IfOk result (λ n. (1 ≤ n) × (n ≤ length bytes.now)) }
        ensures bytes { (L.output self.new.link).got ≡ and_then (L.output self.old.link).got (gone bytes.now result) }
        ensures fails { (L.output self.new.link).failures + self.new.late
            ≡ ((L.output self.old.link).failures + self.old.late) + failure_of result }
        ensures input { ⟦<TextLink<'e, L, H> as Device>⟧.input self.new ≡ ⟦<TextLink<'e, L, H> as Device>⟧.input self.old }
        ensures reading { (self.new.read_until ≡ self.old.read_until) × (self.new.late_reads ≡ self.old.late_reads)
            × (self.new.has_ended ≡ self.old.has_ended) }
        ensures first { self.old.deadline ≡ None → self.new.late ≡ self.old.late }
        ensures whole { self.old.deadline ≡ None → result ≡ Ok (length bytes.now) → self.new.deadline ≡ None }
        ensures limit { self.new.limit_ms ≡ self.old.limit_ms }
    {
        if self.deadline.is_some() {
            let now = self.watch.now_ms();
            return self.give_at(bytes, now);
        }
        let written = self.link.give(bytes);
        if written != Ok(bytes.len()) {
            let now = self.watch.now_ms();
            self.begin_deadline(now);
        }
        written
    }
}
