//! One line of a report, as it is read.

ghost use Rattle.std.specs.Prelude.{◌≡◌, option_map};
ghost use Rattle.pool_report.specs.Lines as spec;
ghost use Rattle.pool_report.specs.Told.{line_view};

use plan_model::UNSERVED;
use pool_settings::{is_machine_name, is_name};
use text_pieces::{cut_last, is_plain, plain_number_u32, plain_number_u64};

/// What a line says, less the numbers that an answer does not hold. Names are those that some settings could have.
#[derive(Clone, Copy)]
pub enum Line<'t> {
    /// `report 1`.
    Head,
    /// The backlog of a plan.
    Backlog(u64),
    /// `noplan`.
    NoPlan,
    /// A worker, with its function or none.
    Task(&'t [u8], Option<&'t [u8]>),
    /// What a set needs and has.
    Short,
    /// A function of the set.
    Needed(&'t [u8]),
    /// A function that no live worker may do.
    Stranded(&'t [u8]),
    /// `end`.
    Last,
}

/// What comes after a word at the start of a line.
pub fn after_word<'t>(word: &[u8], line: &'t [u8]) -> Option<&'t [u8]>
    ensures { option_map (λ t. t.now) result ≡ spec.after_word word.now line.now }
{
    line.strip_prefix(word)
}

/// Whether a text has the shape of a worker's name, `machine/number`.
fn is_worker(name: &[u8]) -> bool
    ensures { result ≡ spec.is_worker name.now }
{
    match cut_last(b'/', name) {
        Some((machine, number)) => is_machine_name(machine) && is_plain(number),
        None => false,
    }
}

fn read_backlog(rest: &[u8]) -> Option<Line<'_>>
    ensures { option_map line_view result ≡ spec.backlog_in rest.now }
{
    let backlog = plain_number_u32(rest)?;
    Some(Line::Backlog(u64::from(backlog)))
}

fn read_unserved(rest: &[u8]) -> Option<Line<'_>>
    ensures { option_map line_view result ≡ spec.unserved_in rest.now }
{
    let waiting = plain_number_u32(rest)?;
    if waiting > 0 {
        Some(Line::Backlog(UNSERVED + u64::from(waiting)))
    } else {
        None
    }
}

fn read_work(rest: &[u8]) -> Option<Line<'_>>
    ensures { option_map line_view result ≡ spec.work_in rest.now }
{
    let (worker, function) = cut_last(b' ', rest)?;
    if is_worker(worker) && is_name(function) {
        Some(Line::Task(worker, Some(function)))
    } else {
        None
    }
}

fn read_idle(rest: &[u8]) -> Option<Line<'_>>
    ensures { option_map line_view result ≡ spec.idle_in rest.now }
{
    if is_worker(rest) {
        Some(Line::Task(rest, None))
    } else {
        None
    }
}

/// The text `TEXT WORD NUMBER`, as the text and the number, which is below 2^64 and without leading zeros.
pub fn count_after<'t>(word: &[u8], rest: &'t [u8]) -> Option<(&'t [u8], u64)>
    ensures { option_map (λ parts. (parts.0.now, parts.1)) result ≡ spec.count_after word.now rest.now }
{
    let (prefix, digits) = cut_last(b' ', rest)?;
    let number = plain_number_u64(digits)?;
    let (text, found) = cut_last(b' ', prefix)?;
    if found == word {
        Some((text, number))
    } else {
        None
    }
}

fn read_short(rest: &[u8]) -> Option<Line<'_>>
    ensures { option_map line_view result ≡ spec.short_in rest.now }
{
    let (need, _have) = count_after(b"have", rest)?;
    let _need = plain_number_u64(need)?;
    Some(Line::Short)
}

fn read_needed(rest: &[u8]) -> Option<Line<'_>>
    ensures { option_map line_view result ≡ spec.needed_in rest.now }
{
    let (function, _need) = count_after(b"need", rest)?;
    if is_name(function) {
        Some(Line::Needed(function))
    } else {
        None
    }
}

fn read_stranded(rest: &[u8]) -> Option<Line<'_>>
    ensures { option_map line_view result ≡ spec.stranded_in rest.now }
{
    let (function, waiting) = cut_last(b' ', rest)?;
    let _waiting = plain_number_u32(waiting)?;
    if is_name(function) {
        Some(Line::Stranded(function))
    } else {
        None
    }
}

fn keyed(line: &[u8]) -> Option<Line<'_>>
    ensures { option_map line_view result ≡ spec.keyed line.now }
{
    if let Some(rest) = after_word(b"backlog ", line) {
        return read_backlog(rest);
    }
    if let Some(rest) = after_word(b"unserved ", line) {
        return read_unserved(rest);
    }
    if let Some(rest) = after_word(b"work ", line) {
        return read_work(rest);
    }
    if let Some(rest) = after_word(b"idle ", line) {
        return read_idle(rest);
    }
    if let Some(rest) = after_word(b"short need ", line) {
        return read_short(rest);
    }
    if let Some(rest) = after_word(b"in ", line) {
        return read_needed(rest);
    }
    if let Some(rest) = after_word(b"stranded ", line) {
        return read_stranded(rest);
    }
    None
}

/// What a line says, if it has the shape of one.
pub fn read_line(line: &[u8]) -> Option<Line<'_>>
    ensures { option_map line_view result ≡ spec.line_of line.now }
{
    if line == b"report 1".as_slice() {
        return Some(Line::Head);
    }
    if line == b"noplan".as_slice() {
        return Some(Line::NoPlan);
    }
    if line == b"end".as_slice() {
        return Some(Line::Last);
    }
    keyed(line)
}
