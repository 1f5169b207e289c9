//! The parts of a page that say what the farm is: its sentence, and its tables.

ghost use Rattle.std.specs.Prelude.{◌≡◌, ◌++◌, IfOk, OnOk};
ghost use Rattle.farm_page.specs.Rows.{failure_rows, workers_row};
ghost use Rattle.farm_page.specs.Sections as spec;

use crate::markup::Markup;
use crate::rows::{put_all_workers, put_end, put_failure, put_function, put_host};
use crate::view::{EndView, FailureView, FarmView, FunctionView, HostView, JobEnds};
use std::alloc::{AllocError, Global};

/// Of how many functions a page shows all in one table.
const SHOWN: usize = 24;

/// A share of the functions.
#[derive(Clone, Copy)]
pub enum Share {
    /// Those to look at: jobs wait for them or failed, or they lack workers.
    Busy,
    /// The others.
    Quiet,
}

/// The sentence of a page as its heading. The only error is out of memory.
pub fn headline(alloc: Global, words: &str) -> Result<Markup, AllocError>
    ensures { IfOk result (λ part. part ≡ spec.headline words.now) }
{
    let mut out = Markup::new(alloc);
    out.put_tags("<h1><span class=\"mark\"></span>")?;
    out.put_text(words.as_bytes())?;
    out.put_tags(".</h1>\n")?;
    Ok(out)
}

/// Whether jobs failed or were lost.
fn has_faults(jobs: JobEnds) -> bool
    ensures { result ≡ spec.has_faults jobs }
{
    jobs.failed > 0 || jobs.lost > 0
}

/// Whether a function has fewer workers than it is to have.
fn lacks_workers(function: &FunctionView) -> bool
    ensures { result ≡ spec.lacks_workers function.now }
{
    match function.workers {
        Some(workers) => workers < function.least,
        None => false,
    }
}

/// Whether a function is one to look at.
fn is_busy(function: &FunctionView) -> bool
    ensures { result ≡ spec.is_busy function.now }
{
    function.waiting.map_or(false, |waiting| waiting > 0)
        || lacks_workers(function)
        || function.jobs.map_or(false, has_faults)
}

impl Share {
    /// Whether a function is of this share.
    fn has(self, function: &FunctionView) -> bool
        ensures { result ≡ spec.is_of self function.now }
    {
        match self {
            Share::Busy => is_busy(function),
            Share::Quiet => !is_busy(function),
        }
    }
}

/// Adds the row of a function, if it is of this share.
fn put_function_if(
    out: &mut Markup,
    function: &FunctionView,
    share: Share,
    all: u32,
) -> Result<(), AllocError>
    ensures { OnOk result (out.new ≡ out.old ++ spec.row_if share all function.now) }
{
    if share.has(function) {
        put_function(out, function, all)
    } else {
        Ok(())
    }
}

/// The rows of a share of the functions, in a farm of so many workers. The only error is out of memory.
fn function_rows(
    alloc: Global,
    functions: &[FunctionView],
    share: Share,
    all: u32,
) -> Result<Markup, AllocError>
    ensures { IfOk result (λ part. part ≡ spec.function_rows share all functions.now) }
{
    let mut out = Markup::new(alloc);
    for function in functions {
        put_function_if(&mut out, function, share, all)?;
    }
    Ok(out)
}

/// The rows of hosts. The only error is out of memory.
fn host_rows(alloc: Global, hosts: &[HostView]) -> Result<Markup, AllocError>
    ensures { IfOk result (λ part. part ≡ spec.host_rows hosts.now) }
{
    let mut out = Markup::new(alloc);
    for host in hosts {
        put_host(&mut out, host)?;
    }
    Ok(out)
}

/// The row of all workers. The only error is out of memory.
fn workers_row(alloc: Global, view: &FarmView) -> Result<Markup, AllocError>
    ensures { IfOk result (λ part. part ≡ workers_row view.now) }
{
    let mut out = Markup::new(alloc);
    put_all_workers(&mut out, view)?;
    Ok(out)
}

/// The rows of causes. The only error is out of memory.
fn end_rows(alloc: Global, ends: &[EndView]) -> Result<Markup, AllocError>
    ensures { IfOk result (λ part. part ≡ spec.end_rows ends.now) }
{
    let mut out = Markup::new(alloc);
    for end in ends {
        put_end(&mut out, end)?;
    }
    Ok(out)
}

/// The rows of jobs that were not completed. The only error is out of memory.
fn failure_rows(alloc: Global, failures: &[FailureView]) -> Result<Markup, AllocError>
    ensures { IfOk result (λ part. part ≡ failure_rows failures.now) }
{
    let mut out = Markup::new(alloc);
    for failure in failures {
        put_failure(&mut out, failure)?;
    }
    Ok(out)
}

/// The head of the table of functions.
const FUNCTIONS: &str = "<section><h2>Functions</h2><div class=\"wide\"><table><thead><tr>\
<th class=\"words\" scope=\"col\">function</th><th scope=\"col\">waiting</th>\
<th scope=\"col\">waiting per worker</th><th scope=\"col\">running</th>\
<th scope=\"col\">workers</th><th scope=\"col\">share</th><th scope=\"col\">least</th><th scope=\"col\">most</th>\
<th scope=\"col\">completed</th><th scope=\"col\">failed</th><th scope=\"col\">lost</th></tr></thead><tbody>\n";

/// What is between the functions to look at and the others, if they are many: these are folded away.
const FOLD: &str =
    "</tbody></table></div><details><summary>all other functions</summary><div class=\"wide\"><table>\
<thead><tr><th class=\"words\" scope=\"col\">function</th><th scope=\"col\">waiting</th>\
<th scope=\"col\">waiting per worker</th><th scope=\"col\">running</th>\
<th scope=\"col\">workers</th><th scope=\"col\">share</th><th scope=\"col\">least</th><th scope=\"col\">most</th>\
<th scope=\"col\">completed</th><th scope=\"col\">failed</th><th scope=\"col\">lost</th></tr></thead><tbody>\n";

/// The end of a table.
const END: &str = "</tbody></table></div></section>\n";

/// The end of a table that is folded away.
const FOLD_END: &str = "</tbody></table></div></details></section>\n";

/// The head of the table of hosts.
const HOSTS: &str = "<section><h2>Hosts</h2><div class=\"wide\"><table><thead><tr>\
<th class=\"words\" scope=\"col\">host</th><th scope=\"col\">workers alive</th><th scope=\"col\">workers</th>\
<th scope=\"col\">share alive</th><th scope=\"col\">not alive</th><th scope=\"col\">missing</th>\
<th class=\"words\" scope=\"col\">service</th></tr></thead><tbody>\n";

/// The head of the table of all workers.
const WORKERS: &str = "<section><h2>Workers</h2><div class=\"wide\"><table><thead><tr>\
<th class=\"words\" scope=\"col\">workers</th><th scope=\"col\">alive before new ones</th><th scope=\"col\">alive</th>\
<th scope=\"col\">in the settings</th><th scope=\"col\">ended since the attempt before</th>\
<th scope=\"col\">most of one slot, of 262143</th></tr></thead><tbody>\n";

/// The head of the table of causes.
const ENDS: &str = "<section><h2>Workers that ended</h2><div class=\"wide\"><table><thead><tr>\
<th class=\"words\" scope=\"col\">cause</th><th scope=\"col\">workers</th></tr></thead><tbody>\n";

/// The head of the table of jobs that were not completed.
const FAILURES: &str =
    "<section><h2>Last failed and lost jobs</h2><div class=\"wide\"><table><thead><tr>\
<th class=\"words\" scope=\"col\">job</th><th class=\"words\" scope=\"col\">ended</th>\
<th class=\"words\" scope=\"col\">unique id</th><th class=\"words\" scope=\"col\">function</th>\
<th class=\"words\" scope=\"col\">worker</th><th class=\"words\" scope=\"col\">how it ended</th></tr></thead><tbody>\n";

/// What stands in place of that table if there is no such job.
const NO_FAILURE: &str =
    "<section><h2>Last failed and lost jobs</h2><p>No job has failed or been lost.</p></section>\n";

/// The table of the functions: those to look at first. If there are more than 24, the others are folded away. The only error is out of
/// memory.
pub fn functions_section(alloc: Global, view: &FarmView) -> Result<Markup, AllocError>
    ensures busy { IfOk result (λ part. spec.Holds part (spec.function_rows Share.Busy view.now.workers.all view.now.functions.items)) }
    ensures quiet { IfOk result (λ part. spec.Holds part (spec.function_rows Share.Quiet view.now.workers.all view.now.functions.items)) }
{
    let all = view.workers.all;
    let busy = function_rows(alloc, &view.functions, Share::Busy, all)?;
    let quiet = function_rows(alloc, &view.functions, Share::Quiet, all)?;
    let mut out = Markup::new(alloc);
    out.put_tags(FUNCTIONS)?;
    out.put(&busy)?;
    let is_long = view.functions.len() > SHOWN;
    out.put_tags(if is_long { FOLD } else { "" })?;
    out.put(&quiet)?;
    out.put_tags(if is_long { FOLD_END } else { END })?;
    Ok(out)
}

/// The table of the hosts. The only error is out of memory.
pub fn hosts_section(alloc: Global, view: &FarmView) -> Result<Markup, AllocError>
    ensures { IfOk result (λ part. spec.Holds part (spec.host_rows view.now.hosts.items)) }
{
    let rows = host_rows(alloc, &view.hosts)?;
    let mut out = Markup::new(alloc);
    out.put_tags(HOSTS)?;
    out.put(&rows)?;
    out.put_tags(END)?;
    Ok(out)
}

/// The table of all workers. The only error is out of memory.
pub fn workers_section(alloc: Global, view: &FarmView) -> Result<Markup, AllocError>
    ensures { IfOk result (λ part. spec.Holds part (workers_row view.now)) }
{
    let row = workers_row(alloc, view)?;
    let mut out = Markup::new(alloc);
    out.put_tags(WORKERS)?;
    out.put(&row)?;
    out.put_tags(END)?;
    Ok(out)
}

/// The table of the causes for which workers ended. The only error is out of memory.
pub fn ends_section(alloc: Global, view: &FarmView) -> Result<Markup, AllocError>
    ensures { IfOk result (λ part. spec.Holds part (spec.end_rows view.now.ends.items)) }
{
    let rows = end_rows(alloc, &view.ends)?;
    let mut out = Markup::new(alloc);
    out.put_tags(ENDS)?;
    out.put(&rows)?;
    out.put_tags(END)?;
    Ok(out)
}

/// The table of the last jobs that were not completed, or that there is none. The only error is out of memory.
pub fn failures_section(alloc: Global, view: &FarmView) -> Result<Markup, AllocError>
    ensures { IfOk result (λ part. spec.Holds part (spec.failures_part view.now.failures)) }
{
    let jobs = view.failures.jobs();
    let rows = failure_rows(alloc, jobs)?;
    let mut out = Markup::new(alloc);
    if jobs.is_empty() {
        out.put_tags(NO_FAILURE)?;
        return Ok(out);
    }
    out.put_tags(FAILURES)?;
    out.put(&rows)?;
    out.put_tags(END)?;
    Ok(out)
}
