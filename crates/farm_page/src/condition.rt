//! How a farm is, in one sentence.

ghost use Rattle.std.specs.Prelude.{◌≡◌, ◌++◌, IfOk, OnOk, string_bytes};
ghost use Rattle.std.specs.Option.{option_copied};
ghost use Rattle.farm_page.specs.Condition as spec;

use crate::view::{
    FarmView, FunctionView, HostView, JobsAgain, MissingView, Outcome, Shortage, Workers,
};
use std::alloc::{AllocError, Global};
use std::fmt::Write;

/// How many functions, or hosts on which workers are missing, a sentence names.
const NAMED: usize = 3;

/// How a farm is.
#[derive(Clone, Copy, Debug, PartialEq, Eq)]
pub enum Condition {
    /// It has a plan, all its hosts are reached, all its workers are alive, at least half of them were before the attempt started new ones,
    /// each function with jobs has a worker, and no job comes again.
    Well,
    /// It has a plan, but not all that the settings have; or it ends.
    Watch,
    /// It has no plan, or its last attempt is late; and it goes on.
    Bad,
}

/// The first host that is not reached.
fn unreached(hosts: &[HostView]) -> Option<&HostView>
    ensures { option_copied result ≡ spec.unreached hosts.now }
{
    hosts.iter().find(|host| host.unreached.is_some())
}

/// How many jobs wait for a function without workers. None do if it has one, or if that is not known.
fn without_workers(function: &FunctionView) -> u32
    ensures { result ≡ spec.without_workers function.now }
{
    match (function.workers, function.waiting) {
        (Some(0), Some(waiting)) => waiting,
        _ => 0,
    }
}

/// How many jobs wait for functions without workers, as far as a number of 64 bits counts them.
fn all_without_workers(functions: &[FunctionView]) -> u64
    ensures { result ≡ spec.all_without_workers functions.now }
{
    let mut jobs = 0u64;
    for function in functions {
        jobs = jobs.saturating_add(u64::from(without_workers(function)));
    }
    jobs
}

/// Whether fewer than half of the workers were alive before the attempt started new ones.
pub fn is_thinned(view: &FarmView) -> bool
    ensures { result ≡ spec.is_thinned view.now }
{
    2 * u64::from(view.turnover.alive_before) < u64::from(view.workers.all)
}

/// Whether a job comes again.
fn comes_again(view: &FarmView) -> bool
    ensures { result ≡ spec.comes_again view.now }
{
    view.again.times > 0
}

/// Whether workers stay, and jobs are done, as in a farm that is well.
fn is_calm(view: &FarmView) -> bool
    ensures { result ≡ spec.is_calm view.now }
{
    !comes_again(view) && !is_thinned(view)
}

/// Whether a farm has workers, hosts and jobs as a farm that is well has them.
fn is_whole(view: &FarmView) -> bool
    ensures { result ≡ spec.is_whole view.now }
{
    if let Outcome::Unserved(_) = view.outcome {
        return false;
    }
    if all_without_workers(&view.functions) > 0 {
        return false;
    }
    unreached(&view.hosts).is_none() && view.workers.alive >= view.workers.all && is_calm(view)
}

/// How a farm is.
pub fn condition_of(view: &FarmView) -> Condition
    ensures { result ≡ spec.condition_of view.now }
{
    if !view.outcome.has_plan() {
        return Condition::Bad;
    }
    if is_whole(view) {
        Condition::Well
    } else {
        Condition::Watch
    }
}

/// Adds names, each after a space.
fn push_names(out: &mut String, functions: &[String]) -> Result<(), AllocError>
    ensures { OnOk result (string_bytes out.new ≡ string_bytes out.old ++ spec.names functions.now) }
{
    for function in functions {
        write!(out, " {function}")?;
    }
    Ok(())
}

/// Adds so many of the first names, and how many more there are.
pub fn push_first_names(out: &mut String, named: usize, names: &[String]) -> Result<(), AllocError>
    ensures { OnOk result (string_bytes out.new ≡ string_bytes out.old ++ spec.first_names named names.now) }
{
    if names.len() <= named {
        return push_names(out, names);
    }
    let more = names.len() - named;
    push_names(out, &names[..named])?;
    write!(out, " and {more} more")
}

/// Adds how many workers are needed, and how many there are.
fn push_need(out: &mut String, need: Option<u64>, have: u64) -> Result<(), AllocError>
    ensures { OnOk result (string_bytes out.new ≡ string_bytes out.old ++ spec.need_words need have) }
{
    match need {
        Some(need) => write!(
            out,
            " {need} workers are needed, and {have} that may do them are alive"
        ),
        None => write!(
            out,
            " the {have} workers alive that may do them are not enough"
        ),
    }
}

/// What a shortage is, as `for x y 3 workers are needed, and 2 that may do them are alive`. The only error is out of memory.
pub fn shortage_words(alloc: Global, shortage: &Shortage) -> Result<String, AllocError>
    ensures { IfOk result (λ words. string_bytes words ≡ spec.shortage_words shortage.now) }
{
    let mut out = String::from_str(alloc, "for")?;
    push_first_names(&mut out, NAMED, &shortage.functions)?;
    push_need(&mut out, shortage.need, shortage.have)?;
    Ok(out)
}

/// Why there is no plan.
fn no_plan_words(alloc: Global, shortage: &Option<Shortage>) -> Result<String, AllocError>
    ensures { IfOk result (λ words. string_bytes words ≡ spec.no_plan_words shortage.now) }
{
    match shortage {
        Some(shortage) => {
            let words = shortage_words(alloc, shortage)?;
            format!(in alloc; "No plan: {words}")
        }
        None => String::from_str(
            alloc,
            "No plan meets the least and greatest numbers of workers",
        ),
    }
}

/// Adds how many workers of all are alive.
fn push_alive(out: &mut String, workers: Workers) -> Result<(), AllocError>
    ensures { OnOk result (string_bytes out.new ≡ string_bytes out.old ++ spec.alive_words workers) }
{
    let alive = workers.alive;
    let all = workers.all;
    write!(out, "{alive} of {all} workers are alive")
}

/// That a host is not reached.
fn unreached_words(alloc: Global, view: &FarmView, host: &HostView) -> Result<String, AllocError>
    ensures { IfOk result (λ words. string_bytes words ≡ spec.unreached_words view.now host.now) }
{
    let name = host.name.as_str();
    let mut out = String::new(alloc);
    write!(out, "Host {name} is not reached: ")?;
    push_alive(&mut out, view.workers)?;
    Ok(out)
}

/// That not all workers are alive.
fn few_words(alloc: Global, workers: Workers) -> Result<String, AllocError>
    ensures { IfOk result (λ words. string_bytes words ≡ spec.alive_words workers) }
{
    let mut out = String::new(alloc);
    push_alive(&mut out, workers)?;
    Ok(out)
}

/// Adds that a job comes again.
fn push_again(out: &mut String, again: JobsAgain) -> Result<(), AllocError>
    ensures { OnOk result (string_bytes out.new ≡ string_bytes out.old ++ spec.again_words again) }
{
    let times = again.times;
    let held = again.held;
    write!(
        out,
        "A job that no service does comes again: left {times} times lately, such jobs held now: {held}"
    )
}

/// That a job comes again.
fn again_words(alloc: Global, again: JobsAgain) -> Result<String, AllocError>
    ensures { IfOk result (λ words. string_bytes words ≡ spec.again_words again) }
{
    let mut out = String::new(alloc);
    push_again(&mut out, again)?;
    Ok(out)
}

/// Adds that so many of all workers were alive before the attempt.
fn push_thinned(out: &mut String, before: u32, all: u32) -> Result<(), AllocError>
    ensures { OnOk result (string_bytes out.new ≡ string_bytes out.old ++ spec.thinned_words before all) }
{
    write!(
        out,
        "{before} of {all} workers were alive before new ones started"
    )
}

/// That few workers were alive before the attempt.
fn thinned_words(alloc: Global, before: u32, all: u32) -> Result<String, AllocError>
    ensures { IfOk result (λ words. string_bytes words ≡ spec.thinned_words before all) }
{
    let mut out = String::new(alloc);
    push_thinned(&mut out, before, all)?;
    Ok(out)
}

/// How a farm is whose workers are all alive.
fn alive_words(alloc: Global, view: &FarmView, jobs: u64) -> Result<String, AllocError>
    ensures { IfOk result (λ words. string_bytes words ≡ spec.all_alive_words view.now jobs) }
{
    if comes_again(view) {
        return again_words(alloc, view.again);
    }
    if is_thinned(view) {
        return thinned_words(alloc, view.turnover.alive_before, view.workers.all);
    }
    format!(in alloc; "Well: backlog {jobs}, as small as it can be")
}

/// How a farm is whose hosts are all reached.
fn reached_words(alloc: Global, view: &FarmView, jobs: u64) -> Result<String, AllocError>
    ensures { IfOk result (λ words. string_bytes words ≡ spec.reached_words view.now jobs) }
{
    let left = all_without_workers(&view.functions);
    if left > 0 {
        return format!(in alloc; "{left} jobs wait for functions without workers");
    }
    if view.workers.alive < view.workers.all {
        return few_words(alloc, view.workers);
    }
    alive_words(alloc, view, jobs)
}

/// How a farm with a backlog is.
fn planned_words(alloc: Global, view: &FarmView, jobs: u64) -> Result<String, AllocError>
    ensures { IfOk result (λ words. string_bytes words ≡ spec.planned_words view.now jobs) }
{
    if let Some(host) = unreached(&view.hosts) {
        return unreached_words(alloc, view, host);
    }
    reached_words(alloc, view, jobs)
}

/// Whether workers are missing on a host.
pub fn is_short(host: &HostView) -> bool
    ensures { result ≡ spec.is_short host.now }
{
    host.missing.map_or(false, |missing| missing > 0)
}

/// On how many hosts workers are missing.
fn short_hosts(hosts: &[HostView]) -> usize
    ensures { result ≡ spec.short_hosts hosts.now }
{
    hosts.iter().filter(|host| is_short(host)).count()
}

/// Adds how many workers are missing on a host, if any are.
fn push_place(out: &mut String, host: &HostView) -> Result<(), AllocError>
    ensures { OnOk result (string_bytes out.new ≡ string_bytes out.old ++ spec.place_words host.now) }
{
    let name = host.name.as_str();
    match host.missing {
        Some(missing) if missing > 0 => write!(out, ", {missing} on {name}"),
        _ => Ok(()),
    }
}

/// Adds how many workers are missing on each of these hosts.
fn push_each_place(out: &mut String, hosts: &[HostView]) -> Result<(), AllocError>
    ensures { OnOk result (string_bytes out.new ≡ string_bytes out.old ++ spec.each_place hosts.now) }
{
    for host in hosts {
        push_place(out, host)?;
    }
    Ok(())
}

/// Adds where workers are missing: on which hosts, or on how many if they are more than a sentence names.
fn push_places(out: &mut String, hosts: &[HostView]) -> Result<(), AllocError>
    ensures { OnOk result (string_bytes out.new ≡ string_bytes out.old ++ spec.places_words hosts.now) }
{
    let short = short_hosts(hosts);
    if short <= NAMED {
        push_each_place(out, hosts)
    } else {
        write!(out, " on {short} hosts")
    }
}

/// Adds how many workers are missing, if any are, and where.
fn push_workers(out: &mut String, workers: u64, hosts: &[HostView]) -> Result<(), AllocError>
    ensures { OnOk result (string_bytes out.new ≡ string_bytes out.old ++ spec.workers_words workers hosts.now) }
{
    if workers == 0 {
        return Ok(());
    }
    write!(out, "; {workers} workers are missing")?;
    push_places(out, hosts)
}

/// Adds how many workers are missing for the wanted backlog, or that no addition reaches it, if this is known and wanted.
fn push_missing(out: &mut String, view: &FarmView) -> Result<(), AllocError>
    ensures { OnOk result
        (string_bytes out.new ≡ string_bytes out.old ++ spec.missing_words view.now.missing view.now.hosts.items) }
{
    match &view.missing {
        MissingView::NotAsked | MissingView::NoLoad | MissingView::NoMemory => Ok(()),
        MissingView::Workers(workers) => push_workers(out, *workers, &view.hosts),
        MissingView::Never(_) | MissingView::TooMany(_) => {
            out.push_str("; no addition of workers reaches the wanted backlog")
        }
    }
}

/// What the last attempt to plan came to, in words.
fn outcome_words(alloc: Global, view: &FarmView) -> Result<String, AllocError>
    ensures { IfOk result (λ words. string_bytes words ≡ spec.outcome_words view.now view.now.outcome) }
{
    match &view.outcome {
        Outcome::Backlog(jobs) => planned_words(alloc, view, *jobs),
        Outcome::Unserved(jobs) => {
            format!(in alloc;
                "{jobs} jobs wait for a function that workers alive may do and none does"
            )
        }
        Outcome::NoPlan => no_plan_words(alloc, &view.shortage),
        Outcome::Unreadable { why, .. } | Outcome::NoRound(why) => {
            format!(in alloc; "No round was made: {why}")
        }
    }
}

/// How a farm is, in one sentence without a full stop, with the workers that are missing for the wanted backlog. The only error is out of
/// memory.
pub fn sentence(alloc: Global, view: &FarmView) -> Result<String, AllocError>
    ensures { IfOk result (λ words. string_bytes words ≡ spec.sentence view.now) }
{
    let mut words = outcome_words(alloc, view)?;
    push_missing(&mut words, view)?;
    Ok(words)
}
