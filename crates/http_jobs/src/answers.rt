//! A request by POST and the response to it.

ghost use Rattle.std.specs.Prelude.{◌≡◌, ◌++◌, ◌<◌, ◌≤◌, ◌-◌, ◌^◌, ℕ, List, Option, length, take, true};
ghost use Rattle.std.specs.Prelude.{IsSome, IfErr, IfOk, MatchResult, OnOk};
ghost use Rattle.http1.specs.Head.{pairs};
ghost use Rattle.http1.specs.declared.conn.Limits.{Limits as Heads};
ghost use Rattle.byte_io.specs.Sides.{Input, and_then};
ghost use Rattle.job_runner.specs.Run.{seen_link};
ghost use Rattle.http_jobs.specs.Clock.{InTime};
ghost use Rattle.http_jobs.specs.Exchange.{Explains, ExplainsUnanswered, IsAnswerIn, IsReceived, Refuses, Sees, Sends};
ghost use Rattle.http_jobs.specs.Meanwhile.{HasGone, HasNone, HasNoRefusal, HasRead, HasReceipt, HasReceived};
ghost use Rattle.http_jobs.specs.Meanwhile.{IsReadTo, IsReading, IsReadingIn, Moment, ReadsOn, Shown, came_by, moment};
ghost use Rattle.http_jobs.specs.Post.{CanBeSent, text_of};
ghost use Rattle.http_jobs.specs.Reading.{IsComplete};
ghost use Rattle.http_jobs.specs.Reasons.{HasCame, NotReceived, NotRefused, Seen, why_of};
ghost use Rattle.http_jobs.specs.declared.fault.Came.{Came};
ghost use Rattle.http_jobs.specs.Response as spec;
ghost use Rattle.http_jobs.specs.Response.{head_limits, most_fields};

use crate::clock::{Clock, is_late};
use crate::fault::{Came, NotDone, Unanswered, Unserved};
use crate::look::Look;
use crate::outcome::is_success;
use crate::posts::{EncodedRequest, Post, encode_post};
use crate::reader::{Fill, ResponseReader, Stage};
use crate::sending::{Unsent, send, send_what_fits};
use byte_io::{Sink, Source};
use http1::{Client, Limits};
use httparse::spans::{EMPTY_HEADER_SPAN, HeaderSpan};
use std::alloc::Global;

/// How long the head of a response may be, and the chunk extensions and trailers of its body.
const HEAD_LIMITS: Limits = Limits {
    max_head_len: 16384,
    max_extensions_len: 16384,
    max_trailers_len: 16384,
};

/// What bounds a response.
#[derive(Clone, Copy, Debug, PartialEq, Eq)]
pub struct Bounds {
    /// The most bytes that its body may have.
    pub max_body: usize,
    /// By when it has to be whole, in milliseconds of the clock, or none.
    pub deadline: Option<u64>,
}

/// A whole response.
#[derive(Drop)]
pub struct Answer {
    /// Its status, which is none of 408, 429, 502, 503 and 504.
    pub status: u16,
    /// Its body.
    pub body: Vec<u8>,
    /// Whether only the end of the connection bounds the body: then it may be cut.
    pub is_unbounded: bool,
    /// Whether the connection can carry another exchange.
    pub is_kept: bool,
}

/// What came back.
#[derive(Drop)]
pub enum Received {
    /// A whole response.
    Whole(Answer),
    /// A response whose body is larger than its bound.
    TooLarge,
}

/// What was read to its end, and whether that was anything.
#[derive(Drop)]
pub struct Receipt {
    /// The response.
    pub received: Received,
    /// Whether anything came.
    pub came: Came,
}

/// How far a response was read.
#[derive(Drop)]
pub enum Progress {
    /// In part.
    Partway(ResponseReader),
    /// To its end, or until its body was too large.
    Read(Receipt),
}

/// How much of a request went out.
#[derive(Clone, Copy, Debug, PartialEq, Eq)]
pub enum Went {
    /// All of it.
    Whole,
    /// A prefix of it, after which a write failed.
    Cut,
}

/// How much of a request went out, and what was read of its response meanwhile.
#[derive(Drop)]
pub struct Sent {
    /// How much of the request went out.
    pub went: Went,
    /// How far the response was read.
    pub progress: Progress,
}

/// The response that was read.
fn whole(reader: ResponseReader, is_unbounded: bool) -> Receipt
    requires within { reader.at ≤ length reader.unread.items }
    requires head { IsSome reader.status }
    ensures received { (limits : Heads) (max : ℕ) (read : List ℕ) → IsComplete limits read reader is_unbounded
        → IsReceived limits max read result.received }
    ensures came { result.came ≡ reader.came }
{
    let came = reader.came;
    Receipt {
        received: Received::Whole(conclude(reader, is_unbounded)),
        came,
    }
}

/// The same, as an answer.
fn conclude(reader: ResponseReader, is_unbounded: bool) -> Answer
    requires within { reader.at ≤ length reader.unread.items }
    requires head { IsSome reader.status }
    ensures { (limits : Heads) (read : List ℕ) → IsComplete limits read reader is_unbounded → IsAnswerIn limits read result }
{
    let Some(status) = reader.status else {
        unreachable!()
    };
    let is_kept = !is_unbounded && reader.client.is_idle() && reader.at == reader.unread.len();
    Answer {
        status,
        body: reader.body,
        is_unbounded,
        is_kept,
    }
}

/// A response whose body is larger than its bound.
fn too_large(came: Came) -> Receipt
    ensures received { result.received ≡ Received.TooLarge }
    ensures came { result.came ≡ came }
{
    Receipt {
        received: Received::TooLarge,
        came,
    }
}

/// Reads once, and takes all that can be taken off what was read.
fn read_on<L: Source>(
    link: &mut L,
    reader: ResponseReader,
    spans: &mut [HeaderSpan],
    buffer: &mut [u8],
    bounds: Bounds,
) -> Result<Progress, Unanswered>
    requires count { (L.input link.old).failures < 2 ^ 64 - 1 }
    requires reading { IsReading reader }
    requires spans { length spans.old ≡ most_fields }
    requires room { 0 < length buffer.old }
    ensures read { (limits : Heads) (first : Moment) (seen : Seen) (shown : Shown)
        → HasRead limits bounds.deadline first seen (moment (L.input link.old) shown) reader
        → ReadsOn limits bounds first seen (moment (L.input link.new) shown) result }
    ensures reading { IfOk result IsReadingIn }
    ensures failures { OnOk result ((L.input link.new).failures ≡ (L.input link.old).failures) }
    ensures output { L.output link.new ≡ L.output link.old }
{
    let mut reader = reader;
    match reader.fill(link, buffer) {
        Ok(Fill::Ended) => return Ok(Progress::Read(whole(reader, true))),
        Ok(Fill::More) => {}
        Err(why) => return Err(Unanswered::of(why, reader.came)),
    }
    match reader.advance(spans, bounds.max_body) {
        Ok(Stage::NeedsMore) => Ok(Progress::Partway(reader)),
        Ok(Stage::Whole) => Ok(Progress::Read(whole(reader, false))),
        Ok(Stage::TooLarge) => Ok(Progress::Read(too_large(reader.came))),
        Err(why) => Err(Unanswered::of(why, reader.came)),
    }
}

/// Reads a response to its end, of which a part was read.
fn receive<L: Source, C: Clock>(
    link: &mut L,
    clock: &mut C,
    reader: ResponseReader,
    bounds: Bounds,
) -> Result<Receipt, Unanswered>
    requires count { (L.input link.old).failures < 2 ^ 64 - 1 }
    requires reading { IsReading reader }
    ensures received { (limits : Heads) (first : Moment) (seen : Seen)
        → HasRead limits bounds.deadline first seen (moment (L.input link.old) (C.shown clock.old)) reader
        → MatchResult result (HasReceipt limits bounds first (moment (L.input link.new) (C.shown clock.new)))
        (HasNone limits bounds first (moment (L.input link.new) (C.shown clock.new))) }
    ensures output { L.output link.new ≡ L.output link.old }
{
    let mut spans = [EMPTY_HEADER_SPAN; 64];
    let mut buffer = [0u8; 16384];
    let mut reader = reader;
    for _turn in 0..u64::MAX {
        if is_late(clock, bounds.deadline) {
            return Err(Unanswered::Unserved(Unserved::Late, reader.came));
        }
        match read_on(link, reader, &mut spans, &mut buffer, bounds) {
            Ok(Progress::Partway(more)) => reader = more,
            Ok(Progress::Read(receipt)) => return Ok(receipt),
            Err(e) => return Err(e),
        }
    }
    Err(Unanswered::Unserved(Unserved::Endless, reader.came))
}

/// What a response is that was read so far: it is read to its end.
fn receive_rest<L: Source, C: Clock>(
    link: &mut L,
    clock: &mut C,
    progress: Progress,
    bounds: Bounds,
) -> Result<Receipt, Unanswered>
    requires count { (L.input link.old).failures < 2 ^ 64 - 1 }
    requires reading { IsReadingIn progress }
    ensures received { (limits : Heads) (first : Moment)
        → IsReadTo limits bounds first (moment (L.input link.old) (C.shown clock.old)) progress
        → MatchResult result (HasReceipt limits bounds first (moment (L.input link.new) (C.shown clock.new)))
        (HasNone limits bounds first (moment (L.input link.new) (C.shown clock.new))) }
    ensures output { L.output link.new ≡ L.output link.old }
{
    match progress {
        Progress::Partway(reader) => receive(link, clock, reader, bounds),
        Progress::Read(receipt) => Ok(receipt),
    }
}

/// Whether anything came of a response.
fn came_in(progress: &Progress) -> Came
    ensures { result ≡ came_by progress.now }
{
    match progress {
        Progress::Partway(reader) => reader.came,
        Progress::Read(receipt) => receipt.came,
    }
}

/// Writes all the bytes, which end a request, and reads nothing meanwhile.
fn send_last<L: Sink + Look, C: Clock>(
    link: &mut L,
    clock: &mut C,
    bounds: Bounds,
    bytes: &[u8],
    progress: Progress,
) -> Result<Sent, Unanswered>
    requires count { (L.output link.old).failures < 2 ^ 64 - 1 }
    ensures read { (limits : Heads) (first : Moment)
        → IsReadTo limits bounds first (moment (L.input link.old) (C.shown clock.old)) progress
        → MatchResult result (λ sent. IsReadTo limits bounds first (moment (L.input link.new) (C.shown clock.new)) sent.progress)
        (HasNone limits bounds first (moment (L.input link.new) (C.shown clock.new))) }
    ensures progress { IfOk result (λ sent. sent.progress ≡ progress) }
    ensures went { IfOk result (λ sent. HasGone sent.went bytes.now (L.output link.old) (L.output link.new)) }
    ensures prefix { (count : ℕ) × ((L.output link.new).got ≡ and_then (L.output link.old).got (take count bytes.now)) }
    ensures input { L.input link.new ≡ L.input link.old }
{
    match send(link, clock, bounds.deadline, bytes) {
        Ok(()) => Ok(Sent {
            went: Went::Whole,
            progress,
        }),
        Err(Unsent::Write) => Ok(Sent {
            went: Went::Cut,
            progress,
        }),
        Err(Unsent::Late) => Err(Unanswered::Unserved(Unserved::Late, came_in(&progress))),
    }
}

/// How many milliseconds a read waits at first if there is no room for the rest of a request. Each wait in which nothing could be written
/// makes the next one twice as long.
const FIRST_WAIT: u64 = 1;

/// How many it waits at most.
const LONGEST_WAIT: u64 = 32;

/// How long the next read waits, after one that waited so long, if so many bytes were written since.
fn next_wait(waited: u64, given: usize) -> u64 {
    if given > 0 {
        FIRST_WAIT
    } else {
        waited.saturating_mul(2).min(LONGEST_WAIT)
    }
}

/// Writes the rest of a request, and reads what comes of the response while there is no room for more: a service that answers while it
/// reads may read no more before its answer is taken. Once the response is read, nothing is read any more.
fn send_rest<L: Source + Sink + Look, C: Clock>(
    link: &mut L,
    clock: &mut C,
    reader: ResponseReader,
    bounds: Bounds,
    rest: &[u8],
) -> Result<Sent, Unanswered>
    requires reads { (L.input link.old).failures < 2 ^ 64 - 1 }
    requires writes { (L.output link.old).failures < 2 ^ 64 - 1 }
    requires reading { IsReading reader }
    ensures read { (limits : Heads) (first : Moment) (seen : Seen)
        → HasRead limits bounds.deadline first seen (moment (L.input link.old) (C.shown clock.old)) reader
        → MatchResult result (λ sent. IsReadTo limits bounds first (moment (L.input link.new) (C.shown clock.new)) sent.progress)
        (HasNone limits bounds first (moment (L.input link.new) (C.shown clock.new))) }
    ensures reading { IfOk result (λ sent. IsReadingIn sent.progress) }
    ensures went { IfOk result (λ sent. HasGone sent.went rest.now (L.output link.old) (L.output link.new)) }
    ensures prefix { (count : ℕ) × ((L.output link.new).got ≡ and_then (L.output link.old).got (take count rest.now)) }
    ensures failures { OnOk result ((L.input link.new).failures ≡ (L.input link.old).failures) }
{
    let mut spans = [EMPTY_HEADER_SPAN; 64];
    let mut buffer = [0u8; 16384];
    let mut reader = reader;
    let mut count = 0;
    let mut wait_ms = FIRST_WAIT;
    for _turn in 0..u64::MAX {
        let given = match send_what_fits(link, clock, bounds.deadline, &rest[count..]) {
            Ok(given) => given,
            Err(Unsent::Write) => {
                return Ok(Sent {
                    went: Went::Cut,
                    progress: Progress::Partway(reader),
                });
            }
            Err(Unsent::Late) => return Err(Unanswered::Unserved(Unserved::Late, reader.came)),
        };
        count += given;
        if count == rest.len() {
            return Ok(Sent {
                went: Went::Whole,
                progress: Progress::Partway(reader),
            });
        }
        wait_ms = next_wait(wait_ms, given);
        link.limit_reads(Some(wait_ms));
        match read_on(link, reader, &mut spans, &mut buffer, bounds) {
            Ok(Progress::Partway(more)) => reader = more,
            Ok(read) => return send_last(link, clock, bounds, &rest[count..], read),
            Err(e) => return Err(e),
        }
    }
    Err(Unanswered::Unserved(Unserved::Endless, reader.came))
}

/// Writes the rest of a request, and reads what comes meanwhile. Without a deadline nothing is read, and each write may wait.
fn send_meanwhile<L: Source + Sink + Look, C: Clock>(
    link: &mut L,
    clock: &mut C,
    reader: ResponseReader,
    bounds: Bounds,
    rest: &[u8],
) -> Result<Sent, Unanswered>
    requires reads { (L.input link.old).failures < 2 ^ 64 - 1 }
    requires writes { (L.output link.old).failures < 2 ^ 64 - 1 }
    requires reading { IsReading reader }
    ensures read { (limits : Heads) (first : Moment) (seen : Seen)
        → HasRead limits bounds.deadline first seen (moment (L.input link.old) (C.shown clock.old)) reader
        → MatchResult result (λ sent. IsReadTo limits bounds first (moment (L.input link.new) (C.shown clock.new)) sent.progress)
        (HasNone limits bounds first (moment (L.input link.new) (C.shown clock.new))) }
    ensures reading { IfOk result (λ sent. IsReadingIn sent.progress) }
    ensures went { IfOk result (λ sent. HasGone sent.went rest.now (L.output link.old) (L.output link.new)) }
    ensures prefix { (count : ℕ) × ((L.output link.new).got ≡ and_then (L.output link.old).got (take count rest.now)) }
    ensures failures { OnOk result ((L.input link.new).failures ≡ (L.input link.old).failures) }
{
    if rest.is_empty() || bounds.deadline.is_none() {
        return send_last(link, clock, bounds, rest, Progress::Partway(reader));
    }
    let sent = send_rest(link, clock, reader, bounds, rest);
    link.limit_reads(None);
    sent
}

/// Writes a request, and reads what comes meanwhile.
fn send_request<L: Source + Sink + Look, C: Clock>(
    link: &mut L,
    clock: &mut C,
    reader: ResponseReader,
    bounds: Bounds,
    request: &EncodedRequest<'_>,
) -> Result<Sent, Unanswered>
    requires reads { (L.input link.old).failures < 2 ^ 64 - 1 }
    requires writes { (L.output link.old).failures < 2 ^ 64 - 1 }
    requires reading { IsReading reader }
    ensures read { (limits : Heads) (first : Moment) (seen : Seen)
        → HasRead limits bounds.deadline first seen (moment (L.input link.old) (C.shown clock.old)) reader
        → MatchResult result (λ sent. IsReadTo limits bounds first (moment (L.input link.new) (C.shown clock.new)) sent.progress)
        (HasNone limits bounds first (moment (L.input link.new) (C.shown clock.new))) }
    ensures reading { IfOk result (λ sent. IsReadingIn sent.progress) }
    ensures went { IfOk result (λ sent. HasGone sent.went (request.now.text.items ++ request.now.rest.now)
        (L.output link.old) (L.output link.new)) }
    ensures prefix { (count : ℕ) × ((L.output link.new).got
        ≡ and_then (L.output link.old).got (take count (request.now.text.items ++ request.now.rest.now))) }
    ensures failures { OnOk result ((L.input link.new).failures ≡ (L.input link.old).failures) }
{
    match send(link, clock, bounds.deadline, request.text.as_slice()) {
        Ok(()) => send_meanwhile(link, clock, reader, bounds, request.rest),
        Err(Unsent::Write) => Ok(Sent {
            went: Went::Cut,
            progress: Progress::Partway(reader),
        }),
        Err(Unsent::Late) => Err(Unanswered::Unserved(Unserved::Late, reader.came)),
    }
}

/// A whole response as a refusal, of a request of which a write failed. The error is `Write` if it says success, since the service accepted
/// what it did not have.
fn refusal_in(answer: Answer, came: Came) -> Result<Received, Unanswered>
    ensures refuses { IfOk result Refuses }
    ensures is_answer { IfOk result (λ received. (limits : Heads) (max : ℕ) (read : List ℕ) → IsAnswerIn limits read answer
        → IsReceived limits max read received) }
    ensures success { IfErr result (λ e. (e ≡ Unanswered.Unserved Unserved.Write came) × (spec.is_success answer.status ≡ true)) }
{
    if is_success(answer.status) {
        return Err(Unanswered::Unserved(Unserved::Write, came));
    }
    Ok(Received::Whole(Answer {
        is_kept: false,
        ..answer
    }))
}

/// Why a request was not refused of which a write failed, by why no response was read.
fn not_refused(e: Unanswered) -> Unanswered
    ensures refused { (limits : Heads) (max : ℕ) (deadline : Option ℕ) (seen : Seen) (old new : Input)
        → NotReceived limits deadline seen old new (why_of e) → NotRefused limits max deadline seen old new (why_of result) }
    ensures came { (came : Came) → HasCame came e → HasCame came result }
{
    match e {
        Unanswered::Unserved(Unserved::Status(status), came) => {
            Unanswered::Unserved(Unserved::Status(status), came)
        }
        Unanswered::Unserved(_, came) => Unanswered::Unserved(Unserved::Write, came),
        Unanswered::Memory => Unanswered::Memory,
    }
}

/// What refuses a request of which a write failed, by what was read: the service may have refused it before it had read all of it, and
/// closed. The error is `Write` if it did not.
fn refusal_from(read: Result<Receipt, Unanswered>) -> Result<Received, Unanswered>
    ensures received { (limits : Heads) (bounds : Bounds) (first now : Moment)
        → MatchResult read (HasReceipt limits bounds first now) (HasNone limits bounds first now)
        → MatchResult result (HasReceived limits bounds first now) (HasNoRefusal limits bounds first now) }
    ensures refused { IfOk result Refuses }
{
    match read {
        Ok(receipt) => {
            let Receipt { received, came } = receipt;
            match received {
                Received::Whole(answer) => refusal_in(answer, came),
                Received::TooLarge => Err(Unanswered::Unserved(Unserved::Write, came)),
            }
        }
        Err(e) => Err(not_refused(e)),
    }
}

/// Sends a request, once, over a connection that carries nothing else, and reads the response to it.
///
/// If a write fails, the response may have come before: it is what came back if it is whole and its status is none of 200 to 299. Then a
/// prefix of the request went out, and the connection is not kept.
///
/// Its error says why none came: `Unserved`, with the reason, also for the statuses 408, 429, 502, 503 and 504, and if anything came, or
/// `Memory`. Then a prefix of the request went out, and the connection is of no more use.
pub fn answer_to<L: Source + Sink + Look, C: Clock>(
    alloc: Global,
    link: &mut L,
    clock: &mut C,
    post: &Post<'_>,
    bounds: Bounds,
) -> Result<Received, Unanswered>
    requires reads { (L.input link.old).failures < 2 ^ 64 - 1 }
    requires writes { (L.output link.old).failures < 2 ^ 64 - 1 }
    requires sendable { CanBeSent post.now.target.now (pairs post.now.headers.now) }
    ensures answered { (seen : Seen) × Sees (L.input link.old) (C.shown clock.old) seen (L.input link.new) (C.shown clock.new)
        × OnOk result (InTime bounds.deadline seen.times) × MatchResult result (IsReceived head_limits bounds.max_body seen.read)
        (ExplainsUnanswered bounds.max_body bounds.deadline seen (seen_link L.input L.output link.old)
        (seen_link L.input L.output link.new)) }
    ensures request { IfOk result (λ received. Sends (text_of post.now) (L.output link.old) (L.output link.new) (Refuses received)) }
    ensures prefix { (count : ℕ) × ((L.output link.new).got ≡ and_then (L.output link.old).got (take count (text_of post.now))) }
    ensures no_failure { OnOk result ((L.input link.new).failures ≡ (L.input link.old).failures) }
{
    let mut client = Client::new(HEAD_LIMITS);
    let request = encode_post(alloc, &mut client, post)?;
    let reader = ResponseReader::new(alloc, client);
    let Sent { went, progress } = match send_request(link, clock, reader, bounds, &request) {
        Ok(sent) => sent,
        Err(e) => return Err(e),
    };
    let read = receive_rest(link, clock, progress, bounds);
    match went {
        Went::Whole => match read {
            Ok(receipt) => Ok(receipt.received),
            Err(e) => Err(e),
        },
        Went::Cut => refusal_from(read),
    }
}

/// Sends a request, once, over a connection that carries nothing else, and reads the response to it.
///
/// If a write fails, the response may have come before: it is what came back if it is whole and its status is none of 200 to 299. Then a
/// prefix of the request went out, and the connection is not kept.
///
/// Its error says why none came: `Unserved`, with the reason, also for the statuses 408, 429, 502, 503 and 504, or `Memory`. Then a prefix
/// of the request went out, and the connection is of no more use.
pub fn ask<L: Source + Sink + Look, C: Clock>(
    alloc: Global,
    link: &mut L,
    clock: &mut C,
    post: &Post<'_>,
    bounds: Bounds,
) -> Result<Received, NotDone>
    requires reads { (L.input link.old).failures < 2 ^ 64 - 1 }
    requires writes { (L.output link.old).failures < 2 ^ 64 - 1 }
    requires sendable { CanBeSent post.now.target.now (pairs post.now.headers.now) }
    ensures answered { (seen : Seen) × Sees (L.input link.old) (C.shown clock.old) seen (L.input link.new) (C.shown clock.new)
        × OnOk result (InTime bounds.deadline seen.times) × MatchResult result (IsReceived head_limits bounds.max_body seen.read)
        (Explains bounds.max_body bounds.deadline seen (seen_link L.input L.output link.old) (seen_link L.input L.output link.new)) }
    ensures request { IfOk result (λ received. Sends (text_of post.now) (L.output link.old) (L.output link.new) (Refuses received)) }
    ensures prefix { (count : ℕ) × ((L.output link.new).got ≡ and_then (L.output link.old).got (take count (text_of post.now))) }
    ensures no_failure { OnOk result ((L.input link.new).failures ≡ (L.input link.old).failures) }
{
    Ok(answer_to(alloc, link, clock, post, bounds)?)
}
