//! One line of a status text.

ghost use Rattle.std.specs.Prelude.{◌≡◌, option_map, Ok, Err, IfOk, IfErr, true};
ghost use Rattle.gear_status.specs.Stream.{is_verdict};
ghost use Rattle.gear_status.specs.Cut.{fields_view};
ghost use Rattle.gear_status.specs.Status as spec;

use crate::{Counts, StatusError};
use text_pieces::{cut_last, number_u32};

/// The four fields of a line.
#[derive(Clone, Copy)]
struct Fields<'l> {
    name: &'l [u8],
    total: &'l [u8],
    running: &'l [u8],
    workers: &'l [u8],
}

fn split_line(line: &[u8]) -> Option<Fields<'_>>
    ensures { option_map fields_view result ≡ spec.fields_of line.now }
{
    let (line, workers) = cut_last(b'\t', line)?;
    let (line, running) = cut_last(b'\t', line)?;
    let (name, total) = cut_last(b'\t', line)?;
    Some(Fields {
        name,
        total,
        running,
        workers,
    })
}

fn read_counts(fields: &Fields<'_>) -> Option<Counts>
    ensures { result ≡ spec.counts_in (fields_view fields.now) }
{
    Some(Counts {
        total: number_u32(fields.total)?,
        running: number_u32(fields.running)?,
        workers: number_u32(fields.workers)?,
    })
}

/// What line `n` says.
pub fn line_meaning(n: u32, line: &[u8]) -> Result<(&[u8], Counts), StatusError>
    ensures ok { IfOk result (λ l. spec.line_meaning n line.now ≡ Ok (l.0.now, l.1)) }
    ensures verdict { IfErr result (λ f. is_verdict f ≡ true) }
    ensures err { IfErr result (λ f. spec.line_meaning n line.now ≡ Err f) }
{
    let Some(fields) = split_line(line) else {
        return Err(StatusError::BadLine(n));
    };
    match read_counts(&fields) {
        Some(counts) => Ok((fields.name, counts)),
        None => Err(StatusError::BadNumber(n)),
    }
}

/// A line without the carriage return at its end.
pub fn without_return(line: &[u8]) -> &[u8]
    ensures { result.now ≡ spec.without_return line.now }
{
    let len = line.len();
    if len > 0 && line[len - 1] == b'\r' {
        &line[..len - 1]
    } else {
        line
    }
}

/// Whether a line is the last of a status text.
pub fn is_period(line: &[u8]) -> bool
    ensures { result ≡ spec.is_period line.now }
{
    without_return(line) == b".".as_slice()
}
