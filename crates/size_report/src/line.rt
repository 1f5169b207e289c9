//! One line of the text of a size, as it is read.

ghost use Rattle.std.specs.Prelude.{◌≡◌, option_map};
ghost use Rattle.pool_report.specs.Lines.{line_of};
ghost use Rattle.size_report.specs.Lines as spec;
ghost use Rattle.size_report.specs.Told.{size_line_view};

use pool_report::{Line as ReportLine, after_word, count_after, read_line};
use pool_settings::{is_machine_name, is_name};
use text_pieces::{cut_last, plain_number_u32, plain_number_u64};

/// What a line says, less the numbers that a size does not hold.
#[derive(Clone, Copy)]
pub enum Line<'t> {
    Head,
    Level,
    Add,
    On(&'t [u8], u32),
    AboveMost(&'t [u8], u32, u32),
    NoMachine(&'t [u8], u32),
    TooMany(u64),
    /// A line as a report has it.
    Shared(ReportLine<'t>),
}

fn read_level(rest: &[u8]) -> Option<Line<'_>>
    ensures { option_map size_line_view result ≡ spec.level_in rest.now }
{
    if rest == b"-".as_slice() {
        return Some(Line::Level);
    }
    let level = plain_number_u32(rest)?;
    if level > 0 { Some(Line::Level) } else { None }
}

fn read_add(rest: &[u8]) -> Option<Line<'_>>
    ensures { option_map size_line_view result ≡ spec.add_in rest.now }
{
    let _many = plain_number_u32(rest)?;
    Some(Line::Add)
}

fn read_on(rest: &[u8]) -> Option<Line<'_>>
    ensures { option_map size_line_view result ≡ spec.on_in rest.now }
{
    let (machine, many) = cut_last(b' ', rest)?;
    let many = plain_number_u32(many)?;
    if is_machine_name(machine) {
        Some(Line::On(machine, many))
    } else {
        None
    }
}

/// Whether a number is below 2^32.
fn is_small(number: u64) -> bool
    ensures { result ≡ spec.small number }
{
    number < 1 << 32
}

fn read_above_most(rest: &[u8]) -> Option<Line<'_>>
    ensures { option_map size_line_view result ≡ spec.above_most_in rest.now }
{
    let (prefix, most) = count_after(b"most", rest)?;
    let (function, need) = count_after(b"need", prefix)?;
    if is_name(function) && is_small(need) && is_small(most) {
        Some(Line::AboveMost(function, need as u32, most as u32))
    } else {
        None
    }
}

fn read_no_machine(rest: &[u8]) -> Option<Line<'_>>
    ensures { option_map size_line_view result ≡ spec.no_machine_in rest.now }
{
    let (function, need) = count_after(b"need", rest)?;
    if is_name(function) && is_small(need) {
        Some(Line::NoMachine(function, need as u32))
    } else {
        None
    }
}

fn read_too_many(rest: &[u8]) -> Option<Line<'_>>
    ensures { option_map size_line_view result ≡ spec.too_many_in rest.now }
{
    let many = plain_number_u64(rest)?;
    Some(Line::TooMany(many))
}

fn read_shared(line: &[u8]) -> Option<Line<'_>>
    ensures { option_map size_line_view result ≡ option_map (λ line. spec.shared line) (line_of line.now) }
{
    let line = read_line(line)?;
    Some(Line::Shared(line))
}

fn keyed(line: &[u8]) -> Option<Line<'_>>
    ensures { option_map size_line_view result ≡ spec.keyed line.now }
{
    if let Some(rest) = after_word(b"level ", line) {
        return read_level(rest);
    }
    if let Some(rest) = after_word(b"add ", line) {
        return read_add(rest);
    }
    if let Some(rest) = after_word(b"on ", line) {
        return read_on(rest);
    }
    if let Some(rest) = after_word(b"cannot 1 ", line) {
        return read_above_most(rest);
    }
    if let Some(rest) = after_word(b"cannot 2 ", line) {
        return read_no_machine(rest);
    }
    if let Some(rest) = after_word(b"cannot 3 add ", line) {
        return read_too_many(rest);
    }
    read_shared(line)
}

/// What a line says, if it has the shape of one.
pub fn read_size_line(line: &[u8]) -> Option<Line<'_>>
    ensures { option_map size_line_view result ≡ spec.size_line_of line.now }
{
    if line == b"size 1".as_slice() {
        return Some(Line::Head);
    }
    keyed(line)
}
