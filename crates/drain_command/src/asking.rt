//! The request for a drain, and what comes of it.

ghost use Rattle.std.specs.Prelude.{◌≡◌, List, MatchResult};
ghost use Rattle.http_jobs.specs.Serving.{DialCall, then_called};
ghost use Rattle.drain_command.specs.Drain as spec;

use crate::caller::Caller;
use byte_io::{Sink, Source, deadline_from, is_past};
use http_jobs::{Answer, Bounds, Clock, Dial, Look, NotDone, Post, Received, Unserved, ask};
use http1::Header;
use plan_commands::{Fault, PageError};
use std::alloc::Global;
use std::snapshot::Snapshot;

/// The most bytes that totals may have.
const MOST_TOTALS: usize = 1_048_576;

/// For how many milliseconds an answer is waited for. A page waits for its totals for 2^32 - 1 milliseconds at most.
const ANSWER_MS: u64 = 4_295_100_000;

/// For how many milliseconds a page is asked again that closes connections without an answer. It serves nobody for more than 10 seconds,
/// so by then it has served whoever had the places.
const TRY_MS: u64 = 15_000;

/// How often it is asked at most, whatever the clock shows.
const MOST_TRIES: u32 = 300;

/// The pause between two tries, in milliseconds.
const PAUSE_MS: u32 = 50;

/// The moment so many milliseconds from now, if the time is known.
fn moment<C: Clock>(clock: &mut C, milliseconds: u64) -> Option<u64> {
    deadline_from(milliseconds, clock.now_ms())
}

/// Whether this moment has come.
fn has_come<C: Clock>(clock: &mut C, moment: Option<u64>) -> bool {
    is_past(moment, clock.now_ms())
}

/// The totals of a whole answer.
fn totals_in(answer: Answer) -> Result<Vec<u8>, PageError>
    ensures { spec.TakesAnswer answer result }
{
    if answer.status != 200 {
        return Err(PageError::Refused(answer.status));
    }
    // Such a body may be cut.
    if answer.is_unbounded {
        return Err(PageError::Unanswered);
    }
    Ok(answer.body)
}

/// What came of the request.
fn totals_of(came: Result<Received, NotDone>) -> Result<Vec<u8>, Fault>
    ensures { spec.TakesWhatCame came result }
{
    match came {
        Ok(Received::Whole(answer)) => Ok(totals_in(answer)?),
        Ok(Received::TooLarge) => Err(Fault::Page(PageError::Unanswered)),
        Err(NotDone::Unserved(Unserved::Status(status))) => {
            Err(Fault::Page(PageError::Refused(status)))
        }
        Err(NotDone::Unserved(_)) => Err(Fault::Page(PageError::Unanswered)),
        Err(NotDone::Memory) => Err(Fault::Memory),
    }
}

/// Sends the request over a new connection, and takes what comes back.
fn ask_over<L: Source + Sink + Look, C: Clock>(
    alloc: Global,
    link: &mut L,
    clock: &mut C,
) -> Result<Vec<u8>, Fault>
    requires { spec.IsNewLink L.input L.output link.old }
    ensures { spec.ComesOver L.input L.output link.new result }
{
    let headers = [
        Header {
            name: b"host",
            value: b"localhost",
        },
        Header {
            name: b"poolman",
            value: b"drain",
        },
    ];
    let post = Post {
        target: b"/drain",
        headers: &headers,
        body: &[],
    };
    let bounds = Bounds {
        max_body: MOST_TOTALS,
        deadline: moment(clock, ANSWER_MS),
    };
    totals_of(ask(alloc, link, clock, &post, bounds))
}

/// Asks once, over a connection of its own.
fn ask_once<L: Source + Sink + Look + Drop, D: Dial<L>, C: Clock>(
    alloc: Global,
    dial: &mut D,
    clock: &mut C,
) -> Result<Vec<u8>, Fault>
    ensures { (calls : List DialCall) × (D.calls dial.new ≡ then_called (D.calls dial.old) calls)
        × MatchResult result (λ totals. spec.IsToldIn calls totals.items) (spec.IsNotToldIn calls) }
{
    let Ok(mut link) = dial.dial(None) else {
        return Err(Fault::Page(PageError::Unreached));
    };
    let came = ask_over(alloc, &mut link, clock);
    let left = Snapshot::of(&link);
    drop(link);
    dial.hung_up(left);
    came
}

/// Whether no other try comes after one that came to this.
fn is_last(came: &Result<Vec<u8>, Fault>) -> bool
    ensures { result ≡ spec.is_last came.now }
{
    match came {
        Err(Fault::Page(PageError::Unanswered)) => false,
        _ => true,
    }
}

/// What a try came to. A page that was there before, and is not any more, gave no whole answer.
fn came_to(came: Result<Vec<u8>, Fault>, was_there: bool) -> Result<Vec<u8>, Fault>
    ensures { result ≡ spec.came_to was_there came }
{
    match came {
        Err(Fault::Page(PageError::Unreached)) if was_there => {
            Err(Fault::Page(PageError::Unanswered))
        }
        other => other,
    }
}

/// Asks a page for the end of its farm, and waits until that has ended. Gives its totals.
///
/// A page that closes a connection without a whole answer is asked again, over a new connection, for longer than it serves a peer. The
/// fault is `Unreached` if the first connection was not opened, `Unanswered` if none brought a whole answer, `Refused` if it answered with
/// another status than 200, or `Memory`.
pub fn ask_page<H: Caller, L: Source + Sink + Look + Drop, D: Dial<L>, C: Clock>(
    host: &H,
    alloc: Global,
    dial: &mut D,
    clock: &mut C,
) -> Result<Vec<u8>, Fault>
    ensures { (calls : List DialCall) × (D.calls dial.new ≡ then_called (D.calls dial.old) calls)
        × MatchResult result (λ totals. spec.IsToldIn calls totals.items) (spec.IsNotToldIn calls) }
{
    let end = moment(clock, TRY_MS);
    for count in 0..MOST_TRIES {
        let came = ask_once(alloc, dial, clock);
        if is_last(&came) {
            return came_to(came, count > 0);
        }
        if has_come(clock, end) {
            return Err(Fault::Page(PageError::Unanswered));
        }
        host.pause(PAUSE_MS);
    }
    Err(Fault::Page(PageError::Unanswered))
}
