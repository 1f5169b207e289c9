//! What a response reports of a job, and what fails one that no service answers.

ghost use Rattle.std.specs.Prelude.{◌≡◌, ◌++◌, [], IfOk, OnOk, Some, string_bytes};
ghost use Rattle.std.specs.Option.{option_map};
ghost use Rattle.job_runner.specs.Told.{told_of};
ghost use Rattle.http_jobs.specs.Response.{IsLeftTooOften, body_as_warning, failed_with, failure_by, left_words};
ghost use Rattle.http_jobs.specs.Response.{reply_of, told_by, told_in};
ghost use Rattle.http_jobs.specs.Response as spec;
ghost use Rattle.http_jobs.specs.declared.outcome.Failure.TheVariants.{TooLarge};

use crate::fault::Unserved;
use job_runner::{End, Note, Outcome};
use std::alloc::{AllocError, Global};
use std::fmt::Write;
use thiserror::Error;

/// The warning of a result that may be cut.
const UNBOUNDED: &[u8] = b"only the end of the connection bounds the body, which may be cut";

/// Why a job failed.
#[derive(Clone, Copy, Debug, PartialEq, Eq, Error)]
pub enum Failure {
    /// Its status, which is none of 200 to 299.
    #[error("status {0}")]
    Status(u16),
    /// Only the end of the connection bounds the result, which may be cut.
    #[error("the response may be cut")]
    Unbounded,
    /// The result is too large for a packet.
    #[error("the response is too large")]
    TooLarge,
    /// Services left it unserved too often: so many times in all, and the last time for this reason.
    #[error("left unserved too often ({0}): {1}")]
    LeftTooOften(u32, Unserved),
}

/// What a response comes to, or a job without one that failed.
#[derive(Drop)]
pub struct Reply {
    /// What its job reports.
    pub outcome: Outcome,
    /// Why the job failed, if it did.
    pub failure: Option<Failure>,
}

impl Reply {
    /// What the job reports, or none if the service has no job of its function.
    pub fn outcome_in(reply: Option<Reply>) -> Option<Outcome>
        ensures { option_map told_of result ≡ told_in (option_map reply_of reply) }
    {
        match reply {
            Some(reply) => Some(reply.outcome),
            None => None,
        }
    }
}

/// Whether the service says by this status that it received the request and accepted it: 200 to 299.
pub fn is_success(status: u16) -> bool
    ensures { result ≡ spec.is_success status }
{
    status >= 200 && status < 300
}

/// A job that failed without a warning.
fn failed_job(alloc: Global) -> Outcome
    ensures { told_of result ≡ failed_with [] }
{
    Outcome {
        notes: Vec::new(alloc),
        end: End::Fail,
    }
}

/// A job that failed with a warning, if that is not empty.
fn failure_with(alloc: Global, warning: Vec<u8>) -> Result<Outcome, AllocError>
    ensures { IfOk result (λ outcome. told_of outcome ≡ failed_with (body_as_warning warning.items)) }
{
    let mut outcome = failed_job(alloc);
    if !warning.is_empty() {
        outcome.notes.push(Note::Warning(warning))?;
    }
    Ok(outcome)
}

/// What a response comes to that is too large for a packet.
pub fn oversized(alloc: Global) -> Reply
    ensures told { told_of result.outcome ≡ failed_with [] }
    ensures failure { result.failure ≡ Some TooLarge }
{
    Reply {
        outcome: failed_job(alloc),
        failure: Some(Failure::TooLarge),
    }
}

/// Says that a job was left unserved too often: so many times in all, and the last time for a reason in these words.
fn push_left_words(out: &mut String, times: u32, reason: &str) -> Result<(), AllocError>
    ensures { OnOk result (string_bytes out.new ≡ string_bytes out.old ++ left_words times reason.now) }
{
    write!(out, "left unserved too often ({times}): {reason}")
}

/// What a job comes to that services left unserved too often: so many times in all, and the last time for this reason. It failed, with a
/// warning that says so. The only error is out of memory.
pub fn left_too_often(alloc: Global, times: u32, last: Unserved) -> Result<Reply, AllocError>
    ensures { IfOk result (λ reply. IsLeftTooOften times last (reply_of reply)) }
{
    let reason = format!(in alloc; "{last}")?;
    let mut warning = String::new(alloc);
    push_left_words(&mut warning, times, reason.as_str())?;
    Ok(Reply {
        outcome: failure_with(alloc, warning.into_bytes())?,
        failure: Some(Failure::LeftTooOften(times, last)),
    })
}

/// What a whole response comes to, by its status, its body, and whether only the end of the connection bounds that. The only error is out
/// of memory.
pub fn reply_to(
    alloc: Global,
    status: u16,
    is_unbounded: bool,
    body: Vec<u8>,
) -> Result<Reply, AllocError>
    ensures told { IfOk result (λ reply. told_of reply.outcome ≡ told_by status is_unbounded body.items) }
    ensures failure { IfOk result (λ reply. reply.failure ≡ failure_by status is_unbounded) }
{
    if !is_success(status) {
        return Ok(Reply {
            outcome: failure_with(alloc, body)?,
            failure: Some(Failure::Status(status)),
        });
    }
    if is_unbounded {
        return Ok(Reply {
            outcome: failure_with(alloc, Vec::from_slice(alloc, UNBOUNDED)?)?,
            failure: Some(Failure::Unbounded),
        });
    }
    Ok(Reply {
        outcome: Outcome {
            notes: Vec::new(alloc),
            end: End::Complete(body),
        },
        failure: None,
    })
}
