//! The answer that a report's text gives.

ghost use Rattle.std.specs.Prelude.{◌≡◌, ◌≢◌, ◌∷◌, ◌+◌, ◌<◌, [], IfOk, IfErr, MatchOption, Ok, Err, length};
ghost use Rattle.std.specs.List.{slice_split};
ghost use Rattle.pool_report.specs.Reading.{meaning};
ghost use Rattle.text_pieces.specs.Lines.{is_line_feed};

use crate::draft::Draft;
use crate::error::ReadError;
use crate::stage::Misread;
use plan_model::Answer;
use pool_settings::Settings;
use std::alloc::Global;
use text_pieces::cut_first;

/// The text before and after the first line feed.
pub fn cut_line(text: &[u8]) -> Option<(&[u8], &[u8])>
    ensures { MatchOption result (slice_split is_line_feed text.now ≡ text.now ∷ [])
        (λ p. (slice_split is_line_feed text.now ≡ p.0.now ∷ slice_split is_line_feed p.1.now)
        × (length p.1.now < length text.now)) }
{
    cut_first(b'\n', text)
}

/// The answer that a report's text gives, under these settings.
///
/// Taken is exactly a text of a report's shape, as [the crate's page](crate) gives it, whose workers and
/// functions the settings have, in rising order: a plan with any backlog, or none, and with or without a set
/// (without a plan the set must be there). Numbers are decimal without leading zeros; those of `short` and `in`
/// are below 2^64, the others below 2^32, and a worker's number has any length.
///
/// An answer holds neither what a set needs and has nor the stranded functions, so the reading drops them, and
/// says nothing of whether the answer is right: that is what [`check`](plan_model::check) says. A text that is
/// read and is not its answer's very report can be recognised by [`report_text`](crate::report_text).
///
/// The first faulty line decides. `BadLine` and `UnknownName` give its number, `BadLine` if both are true of
/// it; `Truncated` is a text whose lines are all right and of which the end is missing. What is kept of a text
/// is bounded by the settings, at most 4,096 workers and 1,024 functions, however long the text is.
pub fn read(alloc: Global, settings: &Settings, text: &[u8]) -> Result<Answer, ReadError>
    ensures ok { IfOk result (λ a. meaning settings.now text.now ≡ Ok a) }
    ensures refused { IfErr result (λ e. e ≢ ReadError.Memory → meaning settings.now text.now ≡ Err e) }
{
    let mut draft = Draft::new(alloc);
    let mut rest = text;
    let mut number: u64 = 1;
    while let Some((line, tail)) = cut_line(rest) {
        match draft.place_line(settings, line) {
            Ok(()) => {}
            Err(Misread::Bad) => return Err(ReadError::BadLine(number)),
            Err(Misread::Unknown) => return Err(ReadError::UnknownName(number)),
            Err(Misread::Memory) => return Err(ReadError::Memory),
        }
        number += 1;
        rest = tail;
    }
    if !draft.is_done() {
        return Err(ReadError::Truncated);
    }
    if !rest.is_empty() {
        return Err(ReadError::BadLine(number));
    }
    Ok(draft.into_answer())
}
