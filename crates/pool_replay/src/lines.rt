//! What each command prints, without its line feed.

ghost use Rattle.std.specs.Prelude.{◌≡◌, IfOk, string_bytes};
ghost use Rattle.pool_replay.specs.Lines as spec;

use plan_model::{Answer, Backlog, Certified};
use pool_core::{
    Chapter, ChapterError, GrabError, JoinError, Pass, Ran, ReportError, StayOrRetire, ViewError,
};
use pool_settings::Settings;
use refusal::{Label, Labelled};
use std::alloc::{AllocError, Global};
use std::fmt::Write;
use worker_state::{EndKind, Order, Standing, Ticket, What, WorkerName};

/// What is printed if a command names a worker that has no pass.
pub const NO_PASS: &str = "refused NoPass";

/// What is printed if there is no view to adopt.
pub const NO_VIEW: &str = "refused NoView";

/// A refusal of the pool: its number in its call, and its name.
fn refused(alloc: Global, label: &Label) -> Result<String, AllocError>
    ensures { IfOk result (λ s. string_bytes s ≡ spec.refused_line label.now) }
{
    let number = label.number();
    let name = label.name();
    let mut line = String::new(alloc);
    write!(line, "refused {number} {name}")?;
    Ok(line)
}

/// A worker's name, as `a/0#1`, and the empty text if there is no such slot.
pub fn worker_words(
    alloc: Global,
    settings: &Settings,
    worker: &WorkerName,
) -> Result<String, AllocError>
    ensures { IfOk result (λ s. string_bytes s ≡ spec.worker_words settings.now worker.now) }
{
    if worker.slot.number() < settings.slots() {
        settings.worker_text(alloc, worker.slot, worker.generation)
    } else {
        Ok(String::new(alloc))
    }
}

pub fn join_line(
    alloc: Global,
    settings: &Settings,
    answer: &Result<Pass, JoinError>,
) -> Result<String, AllocError>
    ensures { IfOk result (λ s. string_bytes s ≡ spec.join_line settings.now answer.now) }
{
    match answer {
        Ok(pass) => {
            let worker = worker_words(alloc, settings, &pass.name())?;
            format!(in alloc; "ok {worker}")
        }
        Err(error) => refused(alloc, &error.label()),
    }
}

/// `ok`, or the refusal.
pub fn ok_line<E: Labelled + Copy>(
    alloc: Global,
    answer: Result<(), E>,
) -> Result<String, AllocError>
    ensures { IfOk result (λ s. string_bytes s ≡ spec.ok_line E.label answer) }
{
    match answer {
        Ok(()) => String::from_str(alloc, "ok"),
        Err(error) => refused(alloc, &error.label()),
    }
}

pub fn grab_line(alloc: Global, answer: Result<Ticket, GrabError>) -> Result<String, AllocError>
    ensures { IfOk result (λ s. string_bytes s ≡ spec.grab_line answer) }
{
    match answer {
        Ok(ticket) => {
            let number = ticket.number();
            format!(in alloc; "ok {number}")
        }
        Err(error) => refused(alloc, &error.label()),
    }
}

pub fn report_line(
    alloc: Global,
    answer: Result<StayOrRetire, ReportError>,
) -> Result<String, AllocError>
    ensures { IfOk result (λ s. string_bytes s ≡ spec.report_line answer) }
{
    match answer {
        Ok(StayOrRetire::Stay) => String::from_str(alloc, "ok stay"),
        Ok(StayOrRetire::Retire) => String::from_str(alloc, "ok retire"),
        Err(error) => refused(alloc, &error.label()),
    }
}

/// What the backlog number of an answer says, and `noplan` if it has none.
fn found_words(alloc: Global, number: Option<u64>) -> Result<String, AllocError>
    ensures { IfOk result (λ s. string_bytes s ≡ spec.found_words number) }
{
    match number {
        None => String::from_str(alloc, "noplan"),
        Some(number) => {
            let backlog = Backlog::of(number);
            format!(in alloc; "{backlog}")
        }
    }
}

fn ran_line(alloc: Global, ran: &Ran) -> Result<String, AllocError>
    ensures { IfOk result (λ s. string_bytes s ≡ spec.ran_line ran.now) }
{
    let number = ran.number;
    let found = found_words(alloc, ran.backlog)?;
    let moved = ran.moved;
    let mut line = String::new(alloc);
    write!(line, "ok {number} {found} moved {moved}")?;
    Ok(line)
}

/// What a round reports, or the refusal.
pub fn ran_or<E: Labelled + Copy>(
    alloc: Global,
    answer: Result<Ran, E>,
) -> Result<String, AllocError>
    ensures { IfOk result (λ s. string_bytes s ≡ spec.ran_or E.label answer) }
{
    match answer {
        Ok(ran) => ran_line(alloc, &ran),
        Err(error) => refused(alloc, &error.label()),
    }
}

fn backlog_of(answer: &Answer) -> Option<u64>
    ensures { result ≡ spec.backlog_if_planned answer.now }
{
    match answer {
        Answer::Planned { backlog, .. } => Some(*backlog),
        Answer::NoPlan { .. } => None,
    }
}

pub fn view_line(alloc: Global, answer: &Result<Certified, ViewError>) -> Result<String, AllocError>
    ensures { IfOk result (λ s. string_bytes s ≡ spec.view_line answer.now) }
{
    match answer {
        Ok(viewed) => {
            let found = found_words(alloc, backlog_of(viewed.answer()))?;
            format!(in alloc; "ok {found}")
        }
        Err(error) => refused(alloc, &error.label()),
    }
}

pub fn job_line(
    alloc: Global,
    settings: &Settings,
    standing: &Option<Standing>,
) -> Result<String, AllocError>
    ensures { IfOk result (λ s. string_bytes s ≡ spec.job_line settings.now standing.now) }
{
    match standing {
        None => String::from_str(alloc, "none"),
        Some(Standing::Running) => String::from_str(alloc, "running"),
        Some(Standing::Reporting) => String::from_str(alloc, "reporting"),
        Some(Standing::Reported(EndKind::Complete)) => String::from_str(alloc, "reported complete"),
        Some(Standing::Reported(EndKind::Fail)) => String::from_str(alloc, "reported fail"),
        Some(Standing::Lost(worker, cause)) => {
            let worker = worker_words(alloc, settings, worker)?;
            let label = cause.label();
            let cause = label.name();
            let mut line = String::new(alloc);
            write!(line, "lost {worker} {cause}")?;
            Ok(line)
        }
    }
}

pub fn order_line(alloc: Global, settings: &Settings, order: &Order) -> Result<String, AllocError>
    ensures { IfOk result (λ s. string_bytes s ≡ spec.order_line settings.now order.now) }
{
    match order.what {
        What::Idle => String::from_str(alloc, "idle"),
        What::Stop => String::from_str(alloc, "stop"),
        What::Work(function) => {
            let function = settings.function_name(function);
            let round = order.round;
            let mut line = String::new(alloc);
            write!(line, "work {function} round {round}")?;
            Ok(line)
        }
    }
}

/// The number of a chapter that has ended, and how many events it hands out.
pub fn chapter_line(
    alloc: Global,
    answer: &Result<Chapter, ChapterError>,
) -> Result<String, AllocError>
    ensures { IfOk result (λ s. string_bytes s ≡ spec.chapter_line answer.now) }
{
    match answer {
        Ok(chapter) => {
            let number = chapter.number;
            let events = chapter.events.len();
            let mut line = String::new(alloc);
            write!(line, "ok chapter {number} events {events}")?;
            Ok(line)
        }
        Err(error) => refused(alloc, &error.label()),
    }
}
