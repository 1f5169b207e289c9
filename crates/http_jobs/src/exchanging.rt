//! One job, one request, one response.

ghost use Rattle.std.specs.Prelude.{◌≡◌, ◌<◌, ◌-◌, ◌^◌, ℕ, List, take, IfOk, OnOk, MatchResult};
ghost use Rattle.http1.specs.declared.conn.Limits.{Limits as Heads};
ghost use Rattle.byte_io.specs.Sides.{and_then};
ghost use Rattle.gear_packets.specs.Reading.{job_of};
ghost use Rattle.job_runner.specs.Run.{seen_link};
ghost use Rattle.http_jobs.specs.Clock.{InTime};
ghost use Rattle.http_jobs.specs.Exchange.{ExplainsJob, IsDone, IsReceived, IsRefusal, Refuses, Sees, Sends};
ghost use Rattle.http_jobs.specs.Reasons.{Seen};
ghost use Rattle.http_jobs.specs.Request.{most_body, request_of};
ghost use Rattle.http_jobs.specs.Response.{head_limits, reply_of};

use crate::answers::{Bounds, Received, answer_to};
use crate::clock::Clock;
use crate::fault::Unanswered;
use crate::look::Look;
use crate::outcome::{Reply, oversized, reply_to};
use crate::posts::Post;
use crate::request::{Attempt, headers, most_body, target};
use crate::service::Service;
use byte_io::{Sink, Source};
use gear_packets::Assignment;
use std::alloc::{AllocError, Global};

/// What an exchange came to.
#[derive(Drop)]
pub struct Done {
    /// What the response comes to.
    pub reply: Reply,
    /// Whether the connection can carry another exchange.
    pub is_kept: bool,
}

/// What an exchange came to, by what came back. The only error is out of memory.
fn done_of(alloc: Global, received: Received) -> Result<Done, AllocError>
    ensures done { (limits : Heads) (max : ℕ) (read : List ℕ) → IsReceived limits max read received
        → IfOk result (IsDone limits max read) }
    ensures refused { Refuses received → IfOk result (λ done. IsRefusal (reply_of done.reply) done.is_kept) }
{
    match received {
        Received::Whole(answer) => {
            let is_kept = answer.is_kept;
            let reply = reply_to(alloc, answer.status, answer.is_unbounded, answer.body)?;
            Ok(Done { reply, is_kept })
        }
        Received::TooLarge => Ok(Done {
            reply: oversized(alloc),
            is_kept: false,
        }),
    }
}

/// How a job is sent.
#[derive(Clone, Copy, Debug, PartialEq, Eq)]
pub struct Sending {
    /// Which time it is sent. The request says so.
    pub attempt: Attempt,
    /// By when the response has to be whole, in milliseconds of the clock, or none.
    pub deadline: Option<u64>,
}

/// Does a job by one request and one response.
pub fn exchange<L: Source + Sink + Look, C: Clock>(
    alloc: Global,
    link: &mut L,
    clock: &mut C,
    service: &Service,
    job: &Assignment,
    sending: Sending,
) -> Result<Done, Unanswered>
    requires reads { (L.input link.old).failures < 2 ^ 64 - 1 }
    requires writes { (L.output link.old).failures < 2 ^ 64 - 1 }
    ensures exchanged { (seen : Seen) × Sees (L.input link.old) (C.shown clock.old) seen (L.input link.new) (C.shown clock.new)
        × OnOk result (InTime sending.deadline seen.times) × MatchResult result (IsDone head_limits (most_body (job_of job.now)) seen.read)
        (ExplainsJob (job_of job.now) sending seen (seen_link L.input L.output link.old) (seen_link L.input L.output link.new)) }
    ensures request { IfOk result (λ done. Sends (request_of service.now (job_of job.now) sending.attempt) (L.output link.old)
        (L.output link.new) (IsRefusal (reply_of done.reply) done.is_kept)) }
    ensures prefix { (count : ℕ) × ((L.output link.new).got
        ≡ and_then (L.output link.old).got (take count (request_of service.now (job_of job.now) sending.attempt))) }
    ensures no_failure { OnOk result ((L.input link.new).failures ≡ (L.input link.old).failures) }
{
    let target = target(alloc, service, job)?;
    let headers = headers(alloc, service, job, sending.attempt)?;
    let post = Post {
        target: target.as_bytes(),
        headers: headers.as_slice(),
        body: job.payload.as_slice(),
    };
    let bounds = Bounds {
        max_body: most_body(job),
        deadline: sending.deadline,
    };
    let received = answer_to(alloc, link, clock, &post, bounds)?;
    Ok(done_of(alloc, received)?)
}
