//! Jobs that were not completed, and their lines.

use crate::farm::Farm;
use crate::last_jobs::AnsweredJob;
use farm_page::{FailureEnd, FailureView};
use gear_packets::{Assignment, Handle};
use http_jobs::{NotDone, Reply};
use job_runner::{EndCause, Note, Outcome};
use percent_encoding::{AsciiSet, CONTROLS, ascii_set, percent_encode};
use refusal::Labelled;
use std::alloc::{AllocError, Global};
use worker_state::WorkerName;

/// What is percent-encoded in a word: what would end the word or the line, and the sign of the encoding. Bytes above 127 always are.
const WORD: AsciiSet = ascii_set!(CONTROLS.add(b' ').add(b'%'));

/// How many bytes of a name are told at most.
const LONGEST_NAME: usize = 256;

/// How many bytes are shown at most of what a service said of a job.
const LONGEST_SAYING: usize = 200;

/// Why a job of such a function failed: no service was asked.
const NO_PATH: &str = "the function has no path";

/// A job that was not completed.
#[derive(Drop)]
pub struct Uncompleted {
    /// What the page shows of it.
    pub view: FailureView,
    /// Why it failed or was lost, in words.
    pub why: String,
}

/// These bytes as one word, and `-` if there are none.
fn word(alloc: Global, bytes: &[u8]) -> Result<String, AllocError> {
    if bytes.is_empty() {
        return String::from_str(alloc, "-");
    }
    let told = bytes.len().min(LONGEST_NAME);
    let mut word = String::new(alloc);
    percent_encode(&bytes[..told], WORD).append_to(&mut word)?;
    Ok(word)
}

/// As much of a name as is told, in no more memory than that takes: nothing of a longer name if there is none for its beginning.
pub fn told_part(alloc: Global, name: Vec<u8>) -> Vec<u8> {
    if name.len() <= LONGEST_NAME {
        return name;
    }
    let told = name.len().min(LONGEST_NAME);
    Vec::from_slice(alloc, &name[..told]).unwrap_or_else(|_| Vec::new(alloc))
}

/// How a job failed: with the beginning of the first warning, if its service gave one.
fn end_of_failed(alloc: Global, outcome: &Outcome) -> Result<FailureEnd, AllocError> {
    let Some(Note::Warning(warning)) = outcome.notes.first() else {
        return Ok(FailureEnd::Failed);
    };
    let shown = warning.len().min(LONGEST_SAYING);
    let words = String::from_utf8_lossy(alloc, &warning[..shown])?;
    Ok(FailureEnd::Said(words))
}

/// How a job ended that failed or was lost. The only error is out of memory.
fn failure_end(
    alloc: Global,
    done: &Result<Option<Reply>, NotDone>,
) -> Result<FailureEnd, AllocError> {
    match done {
        Ok(Some(reply)) => end_of_failed(alloc, &reply.outcome),
        Ok(None) => Ok(FailureEnd::Failed),
        Err(why) => Ok(FailureEnd::Lost(format!(in alloc; "{why}")?)),
    }
}

/// Why a job was not completed, in words, if it was not: the status of its service's response, or what was wrong with the response, or why
/// none came. The only error is out of memory.
pub fn why_not_completed(
    alloc: Global,
    done: &Result<Option<Reply>, NotDone>,
) -> Result<Option<String>, AllocError> {
    let why = match done {
        Ok(Some(reply)) => match reply.failure {
            None => return Ok(None),
            Some(why) => format!(in alloc; "{why}")?,
        },
        Ok(None) => String::from_str(alloc, NO_PATH)?,
        Err(why) => format!(in alloc; "{why}")?,
    };
    Ok(Some(why))
}

/// The names of a job.
#[derive(Clone, Copy)]
struct JobNames<'j> {
    handle: &'j Handle,
    unique: &'j [u8],
    function: &'j [u8],
}

/// What the page shows of a job that ended so at the worker of this name. Of its own names each is one word: at most 256 bytes,
/// percent-encoded if they are not visible characters. Its time is not known yet. The only error is out of memory.
fn failure_view(
    alloc: Global,
    job: JobNames<'_>,
    worker: String,
    end: FailureEnd,
) -> Result<FailureView, AllocError> {
    Ok(FailureView {
        time: String::from_str(alloc, "-")?,
        handle: word(alloc, job.handle.bytes())?,
        unique: word(alloc, job.unique)?,
        function: word(alloc, job.function)?,
        worker,
        end,
    })
}

/// A job of this worker, if it was not completed. The only error is out of memory.
pub fn failure_of(
    alloc: Global,
    farm: &Farm,
    worker: WorkerName,
    job: &Assignment,
    done: &Result<Option<Reply>, NotDone>,
) -> Result<Option<Uncompleted>, AllocError> {
    let name = farm.name_of(alloc, worker)?;
    uncompleted_job(alloc, name, job, done)
}

/// A job of the worker of this name, if it was not completed. The only error is out of memory.
pub fn uncompleted_job(
    alloc: Global,
    worker: String,
    job: &Assignment,
    done: &Result<Option<Reply>, NotDone>,
) -> Result<Option<Uncompleted>, AllocError> {
    let Some(why) = why_not_completed(alloc, done)? else {
        return Ok(None);
    };
    let end = failure_end(alloc, done)?;
    let names = JobNames {
        handle: &job.handle,
        unique: &job.unique,
        function: &job.function,
    };
    let view = failure_view(alloc, names, worker, end)?;
    Ok(Some(Uncompleted { view, why }))
}

/// A job that its service answered, and whose worker, of this name, ended for this cause before the job server had the answer. The only
/// error is out of memory.
pub fn lost_job(
    alloc: Global,
    worker: String,
    job: &AnsweredJob,
    cause: EndCause,
) -> Result<Uncompleted, AllocError> {
    let why = String::from_str(alloc, cause.label().name())?;
    let end = FailureEnd::Lost(String::from_str(alloc, why.as_str())?);
    let names = JobNames {
        handle: &job.handle,
        unique: &job.unique,
        function: &job.function,
    };
    let view = failure_view(alloc, names, worker, end)?;
    Ok(Uncompleted { view, why })
}

/// The names of a job, each as one word: its handle, its unique id and its function. The only error is out of memory.
pub fn job_words(alloc: Global, job: &AnsweredJob) -> Result<String, AllocError> {
    let handle = word(alloc, job.handle.bytes())?;
    let unique = word(alloc, &job.unique)?;
    let function = word(alloc, &job.function)?;
    format!(in alloc; "{handle} {unique} {function}")
}

/// The line of a job, if it was not completed.
pub fn line_of(
    alloc: Global,
    failure: &Result<Option<Uncompleted>, AllocError>,
) -> Option<Result<String, AllocError>> {
    match failure {
        Ok(Some(failure)) => Some(failure_line(alloc, failure)),
        Ok(None) => None,
        Err(_) => Some(Err(AllocError)),
    }
}

/// The line of a job that was not completed: its handle, its unique id, its function and the worker, and why it failed or was lost, as
/// `failed H:srv:12 order-7 resize north/0#3: status 404`. The only error is out of memory.
pub fn failure_line(alloc: Global, failure: &Uncompleted) -> Result<String, AllocError> {
    let Uncompleted { view, why } = failure;
    let ended = match &view.end {
        FailureEnd::Failed | FailureEnd::Said(_) => "failed",
        FailureEnd::Lost(_) => "lost",
    };
    let handle = &view.handle;
    let unique = &view.unique;
    let function = &view.function;
    let worker = &view.worker;
    format!(in alloc; "{ended} {handle} {unique} {function} {worker}: {why}")
}
