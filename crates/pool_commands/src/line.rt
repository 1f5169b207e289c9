//! The command of a line.

ghost use Rattle.std.specs.Prelude.{◌≡◌, ◌∷◌, ◌<◌, [], List, IfOk, IfSome, MatchOption, None, length, map, option_map, take};
ghost use Rattle.gear_status.specs.Status.{Line, put};
ghost use Rattle.pool_commands.specs.Grammar as grammar;
ghost use Rattle.pool_commands.specs.Grammar.{IsCommandWithin};
ghost use Rattle.pool_commands.specs.Words as spec;
ghost use Rattle.pool_settings.specs.Slots.{slots};

use crate::command::Command;
use crate::form::fixed_form;
use crate::word::count_in;
use gear_status::Load;
use pool_settings::Settings;
use std::alloc::{AllocError, Global};
use text_pieces::cut_first;

/// One more than the words that the longest form of a fixed number of words has after the first.
const MOST_ARGS: usize = 5;

/// A name of a load with its numbers of jobs.
#[derive(Clone, Copy)]
struct Entry<'l> {
    name: &'l [u8],
    total: u32,
    running: u32,
}

/// The first word of a text, and what comes after the space after it, if there is one.
fn cut_word(text: &[u8]) -> (&[u8], Option<&[u8]>)
    ensures words { spec.words_of text.now ≡ result.0.now ∷ spec.words_after (option_map (λ t. t.now) result.1) }
    ensures shorter { IfSome result.1 (λ t. length t.now < length text.now) }
{
    match cut_first(b' ', text) {
        Some((word, rest)) => (word, Some(rest)),
        None => (text, None),
    }
}

/// The first name of a text with its numbers, and what comes after them.
fn cut_entry(text: &[u8]) -> Option<(Entry<'_>, Option<&[u8]>)>
    ensures entry { MatchOption result
        ((load : List Line) → grammar.load_from load (spec.words_of text.now) ≡ None)
        (λ cut. (load : List Line) → grammar.load_from load (spec.words_of text.now)
        ≡ grammar.load_from (put load (cut.0.name.now, record { total = cut.0.total; running = cut.0.running; workers = 0 }))
        (spec.words_after (option_map (λ t. t.now) cut.1))) }
    ensures shorter { IfSome result (λ cut. IfSome cut.1 (λ t. length t.now < length text.now)) }
{
    let (name, rest) = cut_word(text);
    let (total, rest) = cut_word(rest?);
    let (running, rest) = cut_word(rest?);
    if name.is_empty() {
        return None;
    }
    let total = count_in(total)?;
    let running = count_in(running)?;
    let entry = Entry {
        name,
        total,
        running,
    };
    Some((entry, rest))
}

/// The load of these words, three for each name.
fn load_in(alloc: Global, text: Option<&[u8]>) -> Result<Option<Load>, AllocError>
    ensures { IfOk result (λ load. load ≡ grammar.load_from [] (spec.words_after (option_map (λ t. t.now) text.entry))) }
{
    let mut load = Load::new(alloc);
    let mut rest = text;
    while let Some(left) = rest {
        let Some((entry, after)) = cut_entry(left) else {
            return Ok(None);
        };
        load.set(entry.name, entry.total, entry.running, 0)?;
        rest = after;
    }
    Ok(Some(load))
}

/// The first words of a text, no more of them than show whether it has as many as a form of a fixed number of words.
fn first_words<'l>(alloc: Global, text: Option<&'l [u8]>) -> Result<Vec<&'l [u8]>, AllocError>
    ensures { IfOk result (λ words. map (λ w. w.now) words.items ≡ take 5 (spec.words_after (option_map (λ t. t.now) text.entry))) }
{
    let mut words = Vec::new(alloc);
    let mut rest = text;
    for _count in 0..MOST_ARGS {
        let Some(left) = rest else {
            return Ok(words);
        };
        let (word, after) = cut_word(left);
        words.push(word)?;
        rest = after;
    }
    Ok(words)
}

/// The command of a line, without its line feed, under these settings, or `None` if the line is of none of the forms that
/// [the crate's page](crate) gives. The only error is out of memory.
///
/// A slot that the command names, alone or in a worker's name, is one of the settings. Whether such a worker, or such a job,
/// was ever there is for the pool to say.
///
/// It takes memory for the words of a line, five at most, and for the load or the function that the command holds. Its time
/// grows with the length of the line: a load may have millions of names.
pub fn command_in(
    alloc: Global,
    settings: &Settings,
    line: &[u8],
) -> Result<Option<Command>, AllocError>
    ensures all { IfOk result (λ c. c ≡ grammar.command_in settings.now line.now) }
    ensures within { IfOk result (λ c. IfSome c (IsCommandWithin (slots settings.now))) }
{
    let (verb, rest) = cut_word(line);
    if verb == b"load".as_slice() {
        return Ok(load_in(alloc, rest)?.map(Command::Load));
    }
    let args = first_words(alloc, rest)?;
    fixed_form(alloc, settings, verb, args.as_slice())
}
