//! The rows of a page's tables.

ghost use Rattle.std.specs.Prelude.{◌≡◌, ◌++◌, OnOk};
ghost use Rattle.farm_page.specs.Rows as spec;
ghost use Rattle.farm_page.specs.declared.cells.Mark.TheVariants as mark;

use crate::cells::{
    Gap, Mark, put_bar_if, put_cell, put_cell_if, put_fault_cell, put_gap, put_row_name, put_words,
};
use crate::condition::is_thinned;
use crate::markup::Markup;
use crate::measured::{FunctionNumber, HostNumber, function_value, host_value};
use crate::notices::is_worn;
use crate::view::{EndView, FailureEnd, FailureView, FarmView, FunctionView, HostView};
use std::alloc::AllocError;

/// How the number of a function's workers is shown: it is wrong below the least number.
fn workers_mark(workers: u32, least: u32) -> Mark
    ensures { result ≡ spec.workers_mark workers least }
{
    if workers < least {
        Mark::Bad
    } else {
        Mark::Plain
    }
}

/// How many jobs wait for each worker of a function, rounded up. None if that is not known, or if there is no worker.
fn waiting_per_worker(function: &FunctionView) -> Option<u64>
    ensures { result ≡ spec.waiting_per_worker function.now }
{
    let waiting = function.waiting?;
    let workers = function.workers?;
    if workers == 0 {
        return None;
    }
    Some(u64::from(waiting.div_ceil(workers)))
}

/// Adds the number of a function's workers, or that it is not known.
fn put_workers_cell(out: &mut Markup, function: &FunctionView) -> Result<(), AllocError>
    ensures { OnOk result (out.new ≡ out.old ++ spec.workers_cell function.now) }
{
    match function.workers {
        Some(workers) => put_cell(
            out,
            workers_mark(workers, function.least),
            u64::from(workers),
        ),
        None => put_gap(out, Gap::Unknown),
    }
}

/// Adds the numbers of a function's queue and of its workers, of `all` workers of the farm.
fn put_workers(out: &mut Markup, function: &FunctionView, all: u32) -> Result<(), AllocError>
    ensures { OnOk result (out.new ≡ out.old ++ spec.workers_cells function.now all) }
{
    let waiting = function_value(function, FunctionNumber::Waiting);
    let running = function_value(function, FunctionNumber::Running);
    put_cell_if(out, waiting, Gap::Unknown)?;
    put_cell_if(out, waiting_per_worker(function), Gap::Unknown)?;
    put_cell_if(out, running, Gap::Unknown)?;
    put_workers_cell(out, function)?;
    put_bar_if(out, function.workers, all, function.least)
}

/// Adds what became of a function's jobs.
fn put_jobs(out: &mut Markup, function: &FunctionView) -> Result<(), AllocError>
    ensures { OnOk result (out.new ≡ out.old ++ spec.jobs_cells function.now) }
{
    let completed = function_value(function, FunctionNumber::Completed);
    let failed = function_value(function, FunctionNumber::Failed);
    let lost = function_value(function, FunctionNumber::Lost);
    put_cell_if(out, completed, Gap::Unknown)?;
    put_fault_cell(out, failed)?;
    put_fault_cell(out, lost)
}

/// Adds the row of a function, of a farm with so many workers.
pub fn put_function(out: &mut Markup, function: &FunctionView, all: u32) -> Result<(), AllocError>
    ensures { OnOk result (out.new ≡ out.old ++ spec.function_row all function.now) }
{
    let most = function_value(function, FunctionNumber::Most);
    put_row_name(out, function.name.as_str())?;
    put_workers(out, function, all)?;
    put_cell(out, Mark::Plain, u64::from(function.least))?;
    put_cell_if(out, most, Gap::Any)?;
    put_jobs(out, function)?;
    out.put_tags("</tr>\n")
}

/// Adds why a host is not reached.
fn put_unreached(out: &mut Markup, why: &str) -> Result<(), AllocError>
    ensures { OnOk result (out.new ≡ out.old ++ spec.unreached_cell why.now) }
{
    out.put_tags("<td class=\"words bad\">not reached: ")?;
    out.put_text(why.as_bytes())?;
    out.put_tags("</td>")
}

/// Adds whether a host is reached.
fn put_reached(out: &mut Markup, host: &HostView) -> Result<(), AllocError>
    ensures { OnOk result (out.new ≡ out.old ++ spec.reached_cell host.now) }
{
    match &host.unreached {
        None => out.put_tags("<td class=\"words\">reached</td>"),
        Some(why) => put_unreached(out, why.as_str()),
    }
}

/// How many of a host's workers are not alive. None if that is not known.
fn not_alive(host: &HostView) -> Option<u64>
    ensures { result ≡ spec.not_alive host.now }
{
    let alive = host.alive?;
    Some(u64::from(host.all.saturating_sub(alive)))
}

/// Adds how many of a host's workers are not alive.
fn put_not_alive(out: &mut Markup, host: &HostView) -> Result<(), AllocError>
    ensures { OnOk result (out.new ≡ out.old ++ spec.not_alive_cell host.now) }
{
    put_cell_if(out, not_alive(host), Gap::Unknown)
}

/// Adds how many workers are missing on a host.
fn put_missing(out: &mut Markup, host: &HostView) -> Result<(), AllocError>
    ensures { OnOk result (out.new ≡ out.old ++ spec.missing_cell host.now) }
{
    put_cell_if(out, host_value(host, HostNumber::Missing), Gap::Unknown)
}

/// Adds the row of a host.
pub fn put_host(out: &mut Markup, host: &HostView) -> Result<(), AllocError>
    ensures { OnOk result (out.new ≡ out.old ++ spec.host_row host.now) }
{
    let alive = host_value(host, HostNumber::Alive);
    put_row_name(out, host.name.as_str())?;
    put_cell_if(out, alive, Gap::Unknown)?;
    put_cell(out, Mark::Plain, u64::from(host.all))?;
    put_bar_if(out, host.alive, host.all, host.all)?;
    put_not_alive(out, host)?;
    put_missing(out, host)?;
    put_reached(out, host)?;
    out.put_tags("</tr>\n")
}

/// Adds how a job ended.
fn put_failure_end(out: &mut Markup, end: &FailureEnd) -> Result<(), AllocError>
    ensures { OnOk result (out.new ≡ out.old ++ spec.failure_end_cell end.now) }
{
    match end {
        FailureEnd::Failed => put_words(out, "failed", ""),
        FailureEnd::Said(words) => put_words(out, "failed: ", words.as_str()),
        FailureEnd::Lost(why) => put_words(out, "lost: ", why.as_str()),
    }
}

/// Adds the row of a job that was not completed.
pub fn put_failure(out: &mut Markup, failure: &FailureView) -> Result<(), AllocError>
    ensures { OnOk result (out.new ≡ out.old ++ spec.failure_row failure.now) }
{
    put_row_name(out, failure.handle.as_str())?;
    put_words(out, "", failure.time.as_str())?;
    put_words(out, "", failure.unique.as_str())?;
    put_words(out, "", failure.function.as_str())?;
    put_words(out, "", failure.worker.as_str())?;
    put_failure_end(out, &failure.end)?;
    out.put_tags("</tr>\n")
}

/// How a number is shown that is to be looked at, or is as it should be.
fn mark_of(is_odd: bool) -> Mark
    ensures { result ≡ spec.mark_of is_odd }
{
    if is_odd { Mark::Warn } else { Mark::Plain }
}

/// Adds how many workers were alive before the attempt started new ones.
fn put_before(out: &mut Markup, view: &FarmView) -> Result<(), AllocError>
    ensures { OnOk result (out.new ≡ out.old ++ spec.before_cell view.now) }
{
    let before = view.turnover.alive_before;
    put_cell(out, mark_of(is_thinned(view)), u64::from(before))
}

/// Adds how many workers a slot has had.
fn put_used(out: &mut Markup, most_used: u32) -> Result<(), AllocError>
    ensures { OnOk result (out.new ≡ out.old ++ spec.used_cell most_used) }
{
    put_cell(out, mark_of(is_worn(most_used)), u64::from(most_used))
}

/// Adds a count.
fn put_count(out: &mut Markup, count: u32) -> Result<(), AllocError>
    ensures { OnOk result (out.new ≡ out.old ++ spec.cell mark.Plain count) }
{
    put_cell(out, Mark::Plain, u64::from(count))
}

/// Adds the numbers of all workers of a farm.
fn put_turnover(out: &mut Markup, view: &FarmView) -> Result<(), AllocError>
    ensures { OnOk result (out.new ≡ out.old ++ spec.turnover_cells view.now) }
{
    put_before(out, view)?;
    put_count(out, view.workers.alive)?;
    put_count(out, view.workers.all)?;
    put_cell(out, Mark::Plain, view.turnover.ended)?;
    put_used(out, view.turnover.most_used)
}

/// Adds the row of all workers of a farm: how they come and go.
pub fn put_all_workers(out: &mut Markup, view: &FarmView) -> Result<(), AllocError>
    ensures { OnOk result (out.new ≡ out.old ++ spec.workers_row view.now) }
{
    put_row_name(out, "all")?;
    put_turnover(out, view)?;
    out.put_tags("</tr>\n")
}

/// Adds the row of a cause, if a worker ended for it.
pub fn put_end(out: &mut Markup, end: &EndView) -> Result<(), AllocError>
    ensures { OnOk result (out.new ≡ out.old ++ spec.end_row end.now) }
{
    if end.count == 0 {
        return Ok(());
    }
    put_row_name(out, end.cause.as_str())?;
    put_cell(out, Mark::Plain, end.count)?;
    out.put_tags("</tr>\n")
}
