//! What is told of a run to whoever watches it, in lines.

use devices::DialError;
use job_runner::EndCause;
use plan_model::FuncId;
use pool_settings::Settings;
use pool_supervisor::{Attempt, Attempted, EndCounts, EndedWorker, RunEnd, attempt_line};
use refusal::Labelled;
use std::alloc::{AllocError, Global};
use std::fmt::Write;

/// The line of a function that no job of the run serves. The only error is out of memory.
pub fn job_note(
    alloc: Global,
    settings: &Settings,
    function: FuncId,
) -> Result<String, AllocError> {
    let name = settings.function_name(function);
    format!(in alloc; "remark run has no job for {name}")
}

/// The line of an attempt. Without a link it says why the server was not reached, if that is known. The only error is out of memory.
pub fn attempt_told(
    alloc: Global,
    made: &Attempted<'_>,
    unreached: Option<DialError>,
) -> Result<String, AllocError> {
    let mut line = attempt_line(alloc, made.number, made.attempt)?;
    if let (Attempt::NoLink, Some(error)) = (made.attempt, unreached) {
        write!(line, " ({error})")?;
    }
    Ok(line)
}

/// The line of an attempt, how many workers are alive, and the function with the longest queue per worker. The only error is out of memory.
pub fn attempt_note(
    alloc: Global,
    made: &Attempted<'_>,
    unreached: Option<DialError>,
) -> Result<String, AllocError> {
    let mut line = attempt_told(alloc, made, unreached)?;
    let alive = made.alive;
    write!(line, " alive {alive}")?;
    if let Some(queue) = &made.longest {
        let name = made.settings.function_name(queue.function);
        let waiting = queue.waiting;
        let workers = queue.workers;
        write!(line, " longest {name} waiting {waiting} workers {workers}")?;
    }
    Ok(line)
}

/// Which worker ended, and why. The only error is out of memory.
pub fn worker_note(alloc: Global, ended: &EndedWorker<'_>) -> Result<String, AllocError> {
    let worker = ended
        .settings
        .worker_text(alloc, ended.worker.slot, ended.worker.generation)?;
    let cause = ended.end.cause.label().name();
    let why = reason(ended.end.cause);
    format!(in alloc; "ended {worker} {cause} ({why})")
}

/// Why a session ends for this cause.
fn reason(cause: EndCause) -> &'static str {
    match cause {
        EndCause::Retired => "it has made all its runs",
        EndCause::Gone => "its job took too long",
        EndCause::BadPacket =>
            "the server sent a malformed or too long packet, or a job that was not asked for",
        EndCause::ServerError => "the server sent an error",
        EndCause::ReadFault => "a read from the server failed",
        EndCause::WriteFault => "a write to the server failed",
        EndCause::TurnsUsed => "it has made all its reads",
        EndCause::Memory => "out of memory",
        EndCause::HistoryFull => "the history has no room for another job",
        EndCause::Closed => "the server closed the connection",
        EndCause::Stopped => "the run is over",
        EndCause::Unserved => "a job was not served",
    }
}

/// How many workers ended for each cause, if any did.
pub fn causes_note(alloc: Global, ends: &EndCounts) -> Result<String, AllocError> {
    let mut line = String::from_str(alloc, "ends")?;
    for (cause, count) in ends.each() {
        if count > 0 {
            let name = cause.label().name();
            write!(line, " {name} {count}")?;
        }
    }
    Ok(line)
}

/// What became of the run's workers and of their jobs. The only error is out of memory.
pub fn end_notes(alloc: Global, ended: &RunEnd) -> Result<Vec<String>, AllocError> {
    let mut lines = Vec::new(alloc);
    lines.push(causes_note(alloc, &ended.ends)?)?;
    let completed = ended.jobs.completed;
    let failed = ended.jobs.failed;
    let lost = ended.totals.lost;
    let given_back = ended.jobs.given_back;
    lines.push(format!(in alloc;
        "jobs completed {completed} failed {failed} lost {lost} given back {given_back}"
    )?)?;
    Ok(lines)
}
