//! What a page says of a farm below its sentence, with what to do about it.

ghost use Rattle.std.specs.Prelude.{◌≡◌, ◌++◌, IfOk, OnOk, option_map, string_bytes};
ghost use Rattle.farm_page.specs.Notices as spec;

use crate::condition::{is_short, push_first_names};
use crate::markup::Markup;
use crate::view::{FarmView, HostView, JobsAgain, MissingView, Outcome};
use std::alloc::{AllocError, Global};
use std::fmt::Write;

/// How many functions or machines a notice names.
const NAMED: usize = 24;

/// How many workers a slot can have.
const SLOT_WORKERS: u32 = 262_143;

/// Whether a slot has had more than half of the workers that it can have.
pub fn is_worn(most_used: u32) -> bool
    ensures { result ≡ spec.is_worn most_used }
{
    2 * u64::from(most_used) > u64::from(SLOT_WORKERS)
}

/// Adds that a line of the status text cannot be read.
fn push_unreadable(out: &mut String, line: u32) -> Result<(), AllocError>
    ensures { OnOk result (string_bytes out.new ≡ string_bytes out.old ++ spec.line_words line) }
{
    write!(
        out,
        "Line {line} of the job server's status text cannot be read, so no plan is made"
    )
}

/// That a line of the status text cannot be read, and what to do.
fn unreadable_words(alloc: Global, line: u32) -> Result<String, AllocError>
    ensures { IfOk result (λ words. string_bytes words ≡ spec.unreadable_words line) }
{
    let mut out = String::new(alloc);
    push_unreadable(&mut out, line)?;
    out.push_str(
        ", and workers keep doing what they did last. Any client can cause it, by a job of a function whose name has a line ",
    )?;
    out.push_str(
        "feed or is too long. Remove it with gearadmin --drop-function NAME; with a line feed, start the job server again.",
    )?;
    Ok(out)
}

/// What a page says if a line of the status text cannot be read.
fn unreadable_notice(alloc: Global, view: &FarmView) -> Result<Option<String>, AllocError>
    ensures { IfOk result (λ words. option_map string_bytes words ≡ spec.unreadable_notice view.now.outcome) }
{
    match &view.outcome {
        Outcome::Unreadable { line, .. } => Ok(Some(unreadable_words(alloc, *line)?)),
        _ => Ok(None),
    }
}

/// That these functions are let off.
fn let_off_words(alloc: Global, names: &[String]) -> Result<String, AllocError>
    ensures { IfOk result (λ words. string_bytes words ≡ spec.let_off_words names.now) }
{
    let mut out = String::from_str(
        alloc,
        "Short of workers, so that until more are alive the plan leaves out their least numbers:",
    )?;
    push_first_names(&mut out, NAMED, names)?;
    out.push_str(". The other functions have the workers that they are to have.")?;
    Ok(out)
}

/// What a page says of a plan that leaves out least numbers, if one is in force.
fn let_off_notice(alloc: Global, view: &FarmView) -> Result<Option<String>, AllocError>
    ensures { IfOk result (λ words. option_map string_bytes words ≡ spec.let_off_notice view.now.relaxed) }
{
    match &view.relaxed {
        Some(plan) => Ok(Some(let_off_words(alloc, &plan.let_off)?)),
        None => Ok(None),
    }
}

/// Adds how often a job was left.
fn push_times(out: &mut String, times: u32) -> Result<(), AllocError>
    ensures { OnOk result (string_bytes out.new ≡ string_bytes out.old ++ spec.times_words times) }
{
    write!(
        out,
        "A job that no service does comes again: it was left {times} times lately"
    )
}

/// Adds how many jobs are held.
fn push_held(out: &mut String, held: u32) -> Result<(), AllocError>
    ensures { OnOk result (string_bytes out.new ≡ string_bytes out.old ++ spec.held_words held) }
{
    write!(out, ". Connections that hold such jobs: {held}. ")
}

/// That a job comes again, and what to do.
fn again_words(alloc: Global, again: JobsAgain) -> Result<String, AllocError>
    ensures { IfOk result (λ words. string_bytes words ≡ spec.again_words again) }
{
    let mut out = String::new(alloc);
    push_times(&mut out, again.times)?;
    push_held(&mut out, again.held)?;
    out.push_str(
        "The lines lost name the job. Mend its service, or set functions.F.retries in the services file: ",
    )?;
    out.push_str("a job that is left more often is answered as failed.")?;
    Ok(out)
}

/// What a page says of jobs that come again, if any do.
fn again_notice(alloc: Global, again: JobsAgain) -> Result<Option<String>, AllocError>
    ensures { IfOk result (λ words. option_map string_bytes words ≡ spec.again_notice again) }
{
    if again.times == 0 {
        return Ok(None);
    }
    Ok(Some(again_words(alloc, again)?))
}

/// That these machines have no workers.
fn room_words(alloc: Global, names: &[String]) -> Result<String, AllocError>
    ensures { IfOk result (λ words. string_bytes words ≡ spec.room_words names.now) }
{
    let mut out = String::from_str(alloc, "Without workers for want of files or threads:")?;
    push_first_names(&mut out, NAMED, names)?;
    out.push_str(". Raise ulimit -n, ulimit -u or TasksMax, and start the farm again.")?;
    Ok(out)
}

/// What a page says of machines without workers for want of files or threads, if there are any.
fn room_notice(alloc: Global, view: &FarmView) -> Result<Option<String>, AllocError>
    ensures { IfOk result (λ words. option_map string_bytes words ≡ spec.room_notice view.now.without_room.items) }
{
    if view.without_room.is_empty() {
        return Ok(None);
    }
    Ok(Some(room_words(alloc, &view.without_room)?))
}

/// Adds how many workers a slot has had.
fn push_worn(out: &mut String, most_used: u32) -> Result<(), AllocError>
    ensures { OnOk result (string_bytes out.new ≡ string_bytes out.old ++ spec.used_words most_used) }
{
    write!(out, "A slot has had {most_used} workers")
}

/// That a slot has had so many workers, and what to do.
fn worn_words(alloc: Global, most_used: u32) -> Result<String, AllocError>
    ensures { IfOk result (λ words. string_bytes words ≡ spec.worn_words most_used) }
{
    let mut out = String::new(alloc);
    push_worn(&mut out, most_used)?;
    out.push_str(
        ", and the farm ends with status 6 once one has had 262143. Start it again before, at a time that suits you.",
    )?;
    Ok(out)
}

/// What a page says of the slot that has had the most workers, if these are more than half of what it can have.
fn worn_notice(alloc: Global, most_used: u32) -> Result<Option<String>, AllocError>
    ensures { IfOk result (λ words. option_map string_bytes words ≡ spec.worn_notice most_used) }
{
    if is_worn(most_used) {
        Ok(Some(worn_words(alloc, most_used)?))
    } else {
        Ok(None)
    }
}

/// Whether workers are missing on a host that is not reached.
fn misses_unreached(host: &HostView) -> bool
    ensures { result ≡ spec.misses_unreached host.now }
{
    host.unreached.is_some() && is_short(host)
}

/// Whether workers are missing on hosts that are not reached.
fn any_misses_unreached(hosts: &[HostView]) -> bool
    ensures { result ≡ spec.any_misses_unreached hosts.now }
{
    hosts.iter().any(|host| misses_unreached(host))
}

/// Where not to add the workers that are missing, if some are missing on a host that is not reached.
fn unreached_notice(alloc: Global, hosts: &[HostView]) -> Result<Option<String>, AllocError>
    ensures { IfOk result (λ words. option_map string_bytes words ≡ spec.unreached_notice hosts.now) }
{
    if !any_misses_unreached(hosts) {
        return Ok(None);
    }
    Ok(Some(String::from_str(
        alloc,
        "Workers are missing on a host that is not reached: add none there before it is reached again.",
    )?))
}

/// Adds which function shows that no addition helps.
fn push_never(out: &mut String, function: &str) -> Result<(), AllocError>
    ensures { OnOk result (string_bytes out.new ≡ string_bytes out.old ++ spec.never_words function.now) }
{
    write!(
        out,
        "No addition of workers reaches the wanted backlog, as function {function} shows. /size has why."
    )
}

/// Adds how many workers would have to be added.
fn push_too_many(out: &mut String, workers: u64) -> Result<(), AllocError>
    ensures { OnOk result (string_bytes out.new ≡ string_bytes out.old ++ spec.too_many_words workers) }
{
    write!(
        out,
        "No addition of workers reaches the wanted backlog: {workers} at least, and a farm has at most 4096."
    )
}

/// That no addition of workers helps, as this function shows.
fn never_words(alloc: Global, function: &str) -> Result<String, AllocError>
    ensures { IfOk result (λ words. string_bytes words ≡ spec.never_words function.now) }
{
    let mut out = String::new(alloc);
    push_never(&mut out, function)?;
    Ok(out)
}

/// That more workers are missing than a farm can have.
fn too_many_words(alloc: Global, workers: u64) -> Result<String, AllocError>
    ensures { IfOk result (λ words. string_bytes words ≡ spec.too_many_words workers) }
{
    let mut out = String::new(alloc);
    push_too_many(&mut out, workers)?;
    Ok(out)
}

/// What a page says of workers that are missing, if a backlog is wanted and the sentence does not say it all.
fn missing_notice(alloc: Global, view: &FarmView) -> Result<Option<String>, AllocError>
    ensures { IfOk result (λ words. option_map string_bytes words ≡ spec.missing_notice view.now.missing view.now.hosts.items) }
{
    let words = match &view.missing {
        MissingView::NotAsked => return Ok(None),
        MissingView::NoLoad => String::from_str(
            alloc,
            "How many workers are missing is not known: no load was read.",
        )?,
        MissingView::NoMemory => String::from_str(
            alloc,
            "How many workers are missing is not known: there was no memory for it.",
        )?,
        MissingView::Workers(_) => return unreached_notice(alloc, &view.hosts),
        MissingView::Never(function) => never_words(alloc, function.as_str())?,
        MissingView::TooMany(workers) => too_many_words(alloc, *workers)?,
    };
    Ok(Some(words))
}

/// Adds words as a paragraph.
fn put_paragraph(out: &mut Markup, words: &str) -> Result<(), AllocError>
    ensures { OnOk result (out.new ≡ out.old ++ spec.paragraph words.now) }
{
    out.put_tags("<p>")?;
    out.put_text(words.as_bytes())?;
    out.put_tags("</p>\n")
}

/// Adds a notice, if there is one.
fn put_notice(out: &mut Markup, words: &Option<String>) -> Result<(), AllocError>
    ensures { OnOk result (out.new ≡ out.old ++ spec.notice (option_map string_bytes words.now)) }
{
    match words {
        Some(words) => put_paragraph(out, words.as_str()),
        None => Ok(()),
    }
}

/// What a page says below its sentence: that the status text cannot be read, which functions are let off, where no workers are to be
/// added or why that is not known, that a job comes again, which machines have no workers for want of files or threads, and that a slot has
/// had most of its workers; each with what to do, if it is so. The only error is out of memory.
pub fn notices_of(alloc: Global, view: &FarmView) -> Result<Markup, AllocError>
    ensures { IfOk result (λ part. part ≡ spec.notices view.now) }
{
    let mut out = Markup::new(alloc);
    put_notice(&mut out, &unreadable_notice(alloc, view)?)?;
    put_notice(&mut out, &let_off_notice(alloc, view)?)?;
    put_notice(&mut out, &missing_notice(alloc, view)?)?;
    put_notice(&mut out, &again_notice(alloc, view.again)?)?;
    put_notice(&mut out, &room_notice(alloc, view)?)?;
    put_notice(&mut out, &worn_notice(alloc, view.turnover.most_used)?)?;
    Ok(out)
}
