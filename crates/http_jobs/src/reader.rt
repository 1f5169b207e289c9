//! A response, as it is read.

ghost use Rattle.std.specs.Prelude.{◌≡◌, ◌++◌, ◌<◌, ◌≤◌, ◌+◌, ◌-◌, ◌^◌, ℕ, List, [], length, Ok, None, OnOk};
ghost use Rattle.http1.specs.declared.conn.Limits.{Limits as Heads};
ghost use Rattle.byte_io.specs.Sides.{and_then, counted};
ghost use Rattle.http_jobs.specs.Reading.{Advanced, Closed, FillsOn, IsPartway, NotesMore, Stepped, Wants};
ghost use Rattle.http_jobs.specs.Reasons.{came_of};
ghost use Rattle.http_jobs.specs.Response.{is_unserved, most_fields};

use crate::fault::{Came, NotDone, Unserved};
use byte_io::{Source, Took};
use http1::{Client, Event, ReadError};
use httparse::spans::HeaderSpan;
use std::alloc::{AllocError, Global};

/// Fewer consumed bytes than these are kept before the next read, since they are not worth a move of what comes after them.
const MOST_CONSUMED: usize = 16384;

/// A response as far as it was read.
#[derive(Drop)]
pub struct ResponseReader {
    /// The state of the connection.
    pub client: Client,
    /// What was read, from some point on.
    pub unread: Vec<u8>,
    /// How much of it the client has consumed.
    pub at: usize,
    /// The status of the response, once its head has come.
    pub status: Option<u16>,
    /// What has come of its body.
    pub body: Vec<u8>,
    /// Whether anything was read.
    pub came: Came,
}

/// What one step came to.
#[derive(Clone, Copy, Debug, PartialEq, Eq)]
pub enum Step {
    /// More has to be read.
    NeedsMore,
    /// A part was consumed.
    Continues,
    /// The response is whole.
    Whole,
    /// The body is larger than its bound.
    TooLarge,
}

/// What the steps came to that can be made without a read.
#[derive(Clone, Copy, Debug, PartialEq, Eq)]
pub enum Stage {
    /// More has to be read.
    NeedsMore,
    /// The response is whole.
    Whole,
    /// The body is larger than its bound.
    TooLarge,
}

/// What one read came to.
#[derive(Clone, Copy, Debug, PartialEq, Eq)]
pub enum Fill {
    /// Bytes came, or none in the time of one read.
    More,
    /// The connection has ended, which ended the body.
    Ended,
}

/// Whether the service, or a proxy before it, is down or busy by this status.
fn is_unserved(status: u16) -> bool
    ensures { result ≡ is_unserved status }
{
    status == 408 || status == 429 || status == 502 || status == 503 || status == 504
}

impl ResponseReader {
    /// Nothing was read yet for this client.
    pub fn new(alloc: Global, client: Client) -> ResponseReader
        ensures client { result.client ≡ client }
        ensures unread { result.unread.items ≡ [] }
        ensures at { result.at ≡ 0 }
        ensures status { result.status ≡ None }
        ensures body { result.body.items ≡ [] }
        ensures came { result.came ≡ came_of [] }
    {
        ResponseReader {
            client,
            unread: Vec::new(alloc),
            at: 0,
            status: None,
            body: Vec::new(alloc),
            came: Came::Nothing,
        }
    }

    /// Takes the next part off what was read.
    fn step(&mut self, spans: &mut [HeaderSpan], max_body: usize) -> Result<Step, NotDone>
        requires within { self.old.at ≤ length self.old.unread.items }
        requires spans { length spans.old ≡ most_fields }
        ensures within { self.new.at ≤ length self.new.unread.items }
        ensures unread { self.new.unread.items ≡ self.old.unread.items }
        ensures came { self.new.came ≡ self.old.came }
        ensures progress { result ≡ Ok Step.Continues → self.old.at < self.new.at }
        ensures steps { (limits : Heads) (read : List ℕ) → IsPartway limits read self.old → Stepped limits max_body read self.new result }
    {
        let input = &self.unread[self.at..];
        let read = match self.client.read(input, spans) {
            Ok(read) => read,
            Err(e) => return Err(NotDone::Unserved(Unserved::NoResponse(e))),
        };
        match read.event {
            Event::NeedMore => {
                self.at += read.consumed;
                Ok(Step::NeedsMore)
            }
            Event::Informational(_) => {
                self.at += read.consumed;
                Ok(Step::Continues)
            }
            Event::Head(head) => {
                if is_unserved(head.code) {
                    return Err(NotDone::Unserved(Unserved::Status(head.code)));
                }
                self.at += read.consumed;
                self.status = Some(head.code);
                Ok(Step::Continues)
            }
            Event::Data(span) => {
                let piece = span.of(input);
                match self.body.extend_from_slice(piece) {
                    Ok(()) => {}
                    Err(_) => return Err(NotDone::Memory),
                }
                self.at += read.consumed;
                if self.body.len() > max_body {
                    return Ok(Step::TooLarge);
                }
                Ok(Step::Continues)
            }
            Event::End(_) => {
                self.at += read.consumed;
                Ok(Step::Whole)
            }
            Event::Paused | Event::Upgraded | Event::Closed => Err(NotDone::Unserved(
                Unserved::NoResponse(ReadError::UnexpectedResponse),
            )),
        }
    }

    /// Takes all that can be taken off what was read.
    pub fn advance(&mut self, spans: &mut [HeaderSpan], max_body: usize) -> Result<Stage, NotDone>
        requires within { self.old.at ≤ length self.old.unread.items }
        requires spans { length spans.old ≡ most_fields }
        ensures within { self.new.at ≤ length self.new.unread.items }
        ensures came { self.new.came ≡ self.old.came }
        ensures steps { (limits : Heads) (read : List ℕ) → IsPartway limits read self.old → Advanced limits max_body read self.new result }
    {
        loop {
            match self.step(spans, max_body) {
                Ok(Step::NeedsMore) => return Ok(Stage::NeedsMore),
                Ok(Step::Continues) => {}
                Ok(Step::Whole) => return Ok(Stage::Whole),
                Ok(Step::TooLarge) => return Ok(Stage::TooLarge),
                Err(e) => return Err(e),
            }
        }
    }

    /// Reads once.
    pub fn fill<L: Source>(&mut self, link: &mut L, buffer: &mut [u8]) -> Result<Fill, NotDone>
        requires within { self.old.at ≤ length self.old.unread.items }
        requires room { 0 < length buffer.old }
        requires count { (L.input link.old).failures < 2 ^ 64 - 1 }
        ensures within { self.new.at ≤ length self.new.unread.items }
        ensures fills { (more : List ℕ) × (lulls : ℕ) × ((L.input link.new).given ≡ and_then (L.input link.old).given more)
            × ((L.input link.new).lulls ≡ counted (L.input link.old).lulls lulls) × (result ≡ Ok Fill.More → 1 ≤ length more + lulls)
            × NotesMore self.old self.new more × FillsOn self.old self.new more (L.input link.old) (L.input link.new) result }
        ensures output { L.output link.new ≡ L.output link.old }
        ensures failures { OnOk result ((L.input link.new).failures ≡ (L.input link.old).failures) }
    {
        match link.take(buffer) {
            Err(_) => Err(NotDone::Unserved(Unserved::Read)),
            Ok(Took::Lull) => Ok(Fill::More),
            Ok(Took::Ended) => {
                if self.close() {
                    return Ok(Fill::Ended);
                }
                Err(NotDone::Unserved(Unserved::Ended))
            }
            Ok(Took::Bytes(count)) => {
                self.came = Came::Bytes;
                self.keep(&buffer[..count])?;
                Ok(Fill::More)
            }
        }
    }

    /// Takes the end of the connection, and answers whether it ended the body, and so the response.
    fn close(&mut self) -> bool
        requires within { self.old.at ≤ length self.old.unread.items }
        ensures within { self.new.at ≤ length self.new.unread.items }
        ensures closes { (limits : Heads) (read : List ℕ) → IsPartway limits read self.old → Wants limits read self.old
            → Closed limits read self.new result }
        ensures came { self.new.came ≡ self.old.came }
    {
        match self.client.read_eof() {
            Ok(Event::End(_)) => true,
            _ => false,
        }
    }

    /// Drops what was consumed, if that is all that was read, or much of it.
    fn drop_consumed(&mut self)
        requires within { self.old.at ≤ length self.old.unread.items }
        ensures within { self.new.at ≤ length self.new.unread.items }
        ensures few { self.new.at < 16384 }
        ensures keeps { (limits : Heads) (read : List ℕ) → IsPartway limits read self.old → IsPartway limits read self.new }
        ensures came { self.new.came ≡ self.old.came }
    {
        if self.at == self.unread.len() {
            self.unread.clear();
            self.at = 0;
        } else if self.at >= MOST_CONSUMED {
            self.unread.drain(..self.at);
            self.at = 0;
        }
    }

    /// Puts a piece after what was read.
    fn keep(&mut self, piece: &[u8]) -> Result<(), AllocError>
        requires within { self.old.at ≤ length self.old.unread.items }
        ensures within { self.new.at ≤ length self.new.unread.items }
        ensures keeps { OnOk result ((limits : Heads) (read : List ℕ) → IsPartway limits read self.old
            → IsPartway limits (read ++ piece.now) self.new) }
        ensures came { self.new.came ≡ self.old.came }
    {
        self.drop_consumed();
        self.unread.extend_from_slice(piece)?;
        Ok(())
    }
}
