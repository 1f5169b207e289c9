//! The size that a text gives.

ghost use Rattle.std.specs.Prelude.{◌≡◌, ◌≢◌, IfOk, IfErr, Ok, Err};
ghost use Rattle.size_report.specs.Reading.{size_meaning};

use crate::draft::Draft;
use plan_sizing::Size;
use pool_report::{Misread, ReadError, cut_line};
use pool_settings::Settings;
use std::alloc::Global;

/// The size that a text gives, under these settings.
///
/// Taken is exactly a text of the shape that [the crate's page](crate) gives, whose machines, workers and functions the settings have, in
/// rising order, the added workers by their numbers after the last of their machine. At most 4,096 workers are added. Numbers are decimal
/// without leading zeros; those of `short` and `in`, and that of `cannot 3 add`, are below 2^64, the others below 2^32. The level is at
/// least 1, and so is what a machine gets.
///
/// A size holds neither the level, nor how many are added in all, nor what a set needs and has, so the reading drops them, and says nothing
/// of whether the size is right: that is what [`check_size`](plan_sizing::check_size) says. A text that is read and is not its size's very
/// text can be recognised by [`size_text`](crate::size_text).
///
/// The first faulty line decides, as for a report: `BadLine` and `UnknownName` give its number, `BadLine` if both are true of it;
/// `Truncated` is a text whose lines are all right and of which the end is missing. What is kept of a text is bounded by the settings and
/// the limit of added workers, however long the text is.
pub fn read_size(alloc: Global, settings: &Settings, text: &[u8]) -> Result<Size, ReadError>
    ensures ok { IfOk result (λ size. size_meaning settings.now text.now ≡ Ok size) }
    ensures refused { IfErr result (λ e. e ≢ ReadError.Memory → size_meaning settings.now text.now ≡ Err e) }
{
    let mut draft = Draft::new(alloc);
    let mut rest = text;
    let mut number: u64 = 1;
    while let Some((line, tail)) = cut_line(rest) {
        match draft.place_line(settings, line) {
            Ok(()) => {}
            Err(Misread::Bad) => return Err(ReadError::BadLine(number)),
            Err(Misread::Unknown) => return Err(ReadError::UnknownName(number)),
            Err(Misread::Memory) => return Err(ReadError::Memory),
        }
        number += 1;
        rest = tail;
    }
    if !draft.is_done() {
        return Err(ReadError::Truncated);
    }
    if !rest.is_empty() {
        return Err(ReadError::BadLine(number));
    }
    Ok(draft.into_size())
}
