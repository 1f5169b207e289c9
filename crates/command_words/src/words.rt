//! What the words of each command give.

ghost use Rattle.std.specs.Prelude.{◌≡◌, ◌≤◌, IfOk, Some, is_some, map, option_map, true};
ghost use Rattle.std.specs.Int.NonZero.{non_zero_u32_get};
ghost use Rattle.clap.specs.Words.{FailsBy, fault_of, found_of, kind_of, rows_of};
ghost use Rattle.clap.specs.Matches.{first_value};
ghost use Rattle.clap.specs.Simple.{matches_of};
ghost use Rattle.clap.specs.Walk.{first_of};
ghost use Rattle.clap.specs.declared.error.kind.ErrorKind.TheVariants.{ValueValidation};
ghost use Rattle.command_words.specs.Words as spec;

use crate::operands::{check, check_size, drain, plan, replay, run, serve, show_settings, size};
use clap::error::ErrorKind;
use clap::{ArgMatches, Command, Error};
use std::alloc::{AllocError, Global};
use std::convert::AsStr;
use std::num::NonZeroU32;
use text_pieces::plain_number_u32;

/// What the words of `plan` give.
#[derive(Drop)]
pub struct PlanWords<'a> {
    /// The settings file.
    pub settings: &'a str,
    /// Workers that are not live.
    pub lost: Vec<&'a str>,
}

/// What the words of `check` give.
#[derive(Drop)]
pub struct CheckWords<'a> {
    /// The settings file.
    pub settings: &'a str,
    /// The file with the status text.
    pub status: &'a str,
    /// Workers that are not live.
    pub lost: Vec<&'a str>,
}

/// What the words of `size` give.
#[derive(Drop)]
pub struct SizeWords<'a> {
    /// The settings file.
    pub settings: &'a str,
    /// How many jobs may wait for each worker of a function. None for any plan at all.
    pub level: Option<NonZeroU32>,
    /// Workers that are not live.
    pub lost: Vec<&'a str>,
}

/// What the words of `check-size` give.
#[derive(Drop)]
pub struct CheckSizeWords<'a> {
    /// The settings file.
    pub settings: &'a str,
    /// The file with the status text.
    pub status: &'a str,
    /// How many jobs may wait for each worker of a function. None for any plan at all.
    pub level: Option<NonZeroU32>,
    /// Workers that are not live.
    pub lost: Vec<&'a str>,
}

/// What the words of `settings` give.
#[derive(Clone, Copy, Drop)]
pub struct SettingsWords<'a> {
    /// The settings file.
    pub settings: &'a str,
    /// The services file, if it is to be read too.
    pub services: Option<&'a str>,
}

/// What the words of `serve` give.
#[derive(Clone, Copy, Drop)]
pub struct ServeWords<'a> {
    /// The settings file.
    pub settings: &'a str,
    /// The services file.
    pub services: &'a str,
    /// Whether the farm ends when its input does.
    pub until_input: bool,
}

/// What the words of `run` give.
#[derive(Clone, Copy, Drop)]
pub struct RunWords<'a> {
    /// The settings file.
    pub settings: &'a str,
    /// How many attempts to plan.
    pub rounds: u32,
}

/// The word of an operand that has to be there.
fn text_of<'a>(matches: &ArgMatches<'a>, id: &str) -> &'a str
    requires { is_some (first_value (found_of matches.now) id.now) ≡ true }
    ensures { first_of id.now (rows_of (found_of matches.now)) ≡ Some result.now }
{
    let Some(text) = matches.get_str(id) else {
        unreachable!()
    };
    text
}

/// The words of several operands, if any were given.
fn lost_in<'a>(alloc: Global, matches: &ArgMatches<'a>) -> Result<Vec<&'a str>, AllocError>
    ensures { IfOk result (λ v. map (λ w. w.now) v.items ≡ spec.lost_in (rows_of (found_of matches.now))) }
{
    match matches.get_strs("LOST") {
        Some(words) => Vec::from_slice(alloc, words),
        None => Ok(Vec::new(alloc)),
    }
}

/// What the words of `plan` give.
pub fn plan_words<'a, W: AsStr>(alloc: Global, words: &'a [W]) -> Result<PlanWords<'a>, Error>
    ensures settings { IfOk result (λ m. first_of spec.settings (matches_of spec.plan_app (map W.text words.now)) ≡ Some m.settings.now) }
    ensures lost { IfOk result (λ m. map (λ w. w.now) m.lost.items ≡ spec.lost_in (matches_of spec.plan_app (map W.text words.now))) }
    ensures kinds { FailsBy (fault_of spec.plan_app (map W.text words.now)) result }
{
    let command = plan(alloc)?;
    let matches = command.try_get_matches_from(words)?;
    let lost = lost_in(alloc, &matches)?;
    Ok(PlanWords {
        settings: text_of(&matches, "SETTINGS"),
        lost,
    })
}

/// What the words of `check` give.
pub fn check_words<'a, W: AsStr>(alloc: Global, words: &'a [W]) -> Result<CheckWords<'a>, Error>
    ensures settings { IfOk result (λ m. first_of spec.settings (matches_of spec.check_app (map W.text words.now)) ≡ Some m.settings.now) }
    ensures status { IfOk result (λ m. first_of spec.status (matches_of spec.check_app (map W.text words.now)) ≡ Some m.status.now) }
    ensures lost { IfOk result (λ m. map (λ w. w.now) m.lost.items ≡ spec.lost_in (matches_of spec.check_app (map W.text words.now))) }
    ensures kinds { FailsBy (fault_of spec.check_app (map W.text words.now)) result }
{
    let command = check(alloc)?;
    let matches = command.try_get_matches_from(words)?;
    let lost = lost_in(alloc, &matches)?;
    let settings = text_of(&matches, "SETTINGS");
    let status = text_of(&matches, "STATUS");
    Ok(CheckWords {
        settings,
        status,
        lost,
    })
}

/// The level that a text says: a number from 1 to 4,294,967,295, or `-` for none.
fn level_of(text: &str) -> Option<Option<NonZeroU32>>
    ensures { option_map (option_map non_zero_u32_get) result ≡ spec.level_of text.now }
{
    if text == "-" {
        return Some(None);
    }
    let number = plain_number_u32(text.as_bytes())?;
    let level = NonZeroU32::new(number)?;
    Some(Some(level))
}

/// What is wrong with a level that is none.
fn no_level<'a>(command: Result<Command<'a>, AllocError>) -> Result<Error, AllocError>
    ensures { IfOk result (λ e. kind_of e ≡ ValueValidation) }
{
    let mut command = command?;
    command.error(
        ErrorKind::ValueValidation,
        "BACKLOG is a whole number from 1 to 4294967295, or -",
    )
}

/// What the words of `size` give.
pub fn size_words<'a, W: AsStr>(alloc: Global, words: &'a [W]) -> Result<SizeWords<'a>, Error>
    ensures settings { IfOk result (λ m. first_of spec.settings (matches_of spec.size_app (map W.text words.now)) ≡ Some m.settings.now) }
    ensures level { IfOk result
        (λ m. spec.level_in (matches_of spec.size_app (map W.text words.now)) ≡ Some (option_map non_zero_u32_get m.level)) }
    ensures lost { IfOk result (λ m. map (λ w. w.now) m.lost.items ≡ spec.lost_in (matches_of spec.size_app (map W.text words.now))) }
    ensures kinds { FailsBy (spec.level_faults spec.size_app (map W.text words.now)) result }
{
    let command = size(alloc)?;
    let matches = command.try_get_matches_from(words)?;
    let lost = lost_in(alloc, &matches)?;
    let settings = text_of(&matches, "SETTINGS");
    let backlog = text_of(&matches, "BACKLOG");
    match level_of(backlog) {
        Some(level) => Ok(SizeWords {
            settings,
            level,
            lost,
        }),
        None => Err(no_level(size(alloc))?),
    }
}

/// What the words of `check-size` give.
pub fn check_size_words<'a, W: AsStr>(
    alloc: Global,
    words: &'a [W],
) -> Result<CheckSizeWords<'a>, Error>
    ensures settings { IfOk result
        (λ m. first_of spec.settings (matches_of spec.check_size_app (map W.text words.now)) ≡ Some m.settings.now) }
    ensures status { IfOk result (λ m. first_of spec.status (matches_of spec.check_size_app (map W.text words.now)) ≡ Some m.status.now) }
    ensures level { IfOk result
        (λ m. spec.level_in (matches_of spec.check_size_app (map W.text words.now)) ≡ Some (option_map non_zero_u32_get m.level)) }
    ensures lost { IfOk result (λ m. map (λ w. w.now) m.lost.items ≡ spec.lost_in (matches_of spec.check_size_app (map W.text words.now))) }
    ensures kinds { FailsBy (spec.level_faults spec.check_size_app (map W.text words.now)) result }
{
    let command = check_size(alloc)?;
    let matches = command.try_get_matches_from(words)?;
    let lost = lost_in(alloc, &matches)?;
    let settings = text_of(&matches, "SETTINGS");
    let status = text_of(&matches, "STATUS");
    let backlog = text_of(&matches, "BACKLOG");
    match level_of(backlog) {
        Some(level) => Ok(CheckSizeWords {
            settings,
            status,
            level,
            lost,
        }),
        None => Err(no_level(check_size(alloc))?),
    }
}

/// The text of the word of `replay`: its settings.
pub fn replay_words<'a, W: AsStr>(alloc: Global, words: &'a [W]) -> Result<&'a str, Error>
    ensures settings { IfOk result (λ m. first_of spec.settings (matches_of spec.replay_app (map W.text words.now)) ≡ Some m.now) }
    ensures kinds { FailsBy (fault_of spec.replay_app (map W.text words.now)) result }
{
    let command = replay(alloc)?;
    let matches = command.try_get_matches_from(words)?;
    Ok(text_of(&matches, "SETTINGS"))
}

/// What the words of `settings` give.
pub fn settings_words<'a, W: AsStr>(
    alloc: Global,
    words: &'a [W],
) -> Result<SettingsWords<'a>, Error>
    ensures settings { IfOk result
        (λ m. first_of spec.settings (matches_of spec.settings_app (map W.text words.now)) ≡ Some m.settings.now) }
    ensures services { IfOk result
        (λ m. first_of spec.services (matches_of spec.settings_app (map W.text words.now)) ≡ option_map (λ t. t.now) m.services) }
    ensures kinds { FailsBy (fault_of spec.settings_app (map W.text words.now)) result }
{
    let command = show_settings(alloc)?;
    let matches = command.try_get_matches_from(words)?;
    let services = matches.get_str("SERVICES");
    Ok(SettingsWords {
        settings: text_of(&matches, "SETTINGS"),
        services,
    })
}

/// Whether a flag is there.
fn is_set(matches: &ArgMatches<'_>, name: &str) -> bool
    ensures { result ≡ spec.is_set name.now (rows_of (found_of matches.now)) }
{
    matches.get_one::<bool>(name).unwrap_or(false)
}

/// What the words of `serve` give.
pub fn serve_words<'a, W: AsStr>(alloc: Global, words: &'a [W]) -> Result<ServeWords<'a>, Error>
    ensures settings { IfOk result (λ m. first_of spec.settings (matches_of spec.serve_app (map W.text words.now)) ≡ Some m.settings.now) }
    ensures services { IfOk result (λ m. first_of spec.services (matches_of spec.serve_app (map W.text words.now)) ≡ Some m.services.now) }
    ensures until_input { IfOk result
        (λ m. spec.is_set spec.until_input (matches_of spec.serve_app (map W.text words.now)) ≡ m.until_input) }
    ensures kinds { FailsBy (fault_of spec.serve_app (map W.text words.now)) result }
{
    let command = serve(alloc)?;
    let matches = command.try_get_matches_from(words)?;
    let settings = text_of(&matches, "SETTINGS");
    let services = text_of(&matches, "SERVICES");
    let until_input = is_set(&matches, "until-input");
    Ok(ServeWords {
        settings,
        services,
        until_input,
    })
}

/// The text of the word of `drain`: its services.
pub fn drain_words<'a, W: AsStr>(alloc: Global, words: &'a [W]) -> Result<&'a str, Error>
    ensures services { IfOk result (λ m. first_of spec.services (matches_of spec.drain_app (map W.text words.now)) ≡ Some m.now) }
    ensures kinds { FailsBy (fault_of spec.drain_app (map W.text words.now)) result }
{
    let command = drain(alloc)?;
    let matches = command.try_get_matches_from(words)?;
    Ok(text_of(&matches, "SERVICES"))
}

/// What the words of `run` give.
pub fn run_words<'a, W: AsStr>(alloc: Global, words: &'a [W]) -> Result<RunWords<'a>, Error>
    ensures settings { IfOk result (λ m. first_of spec.settings (matches_of spec.run_app (map W.text words.now)) ≡ Some m.settings.now) }
    ensures rounds { IfOk result (λ m. spec.rounds_in (matches_of spec.run_app (map W.text words.now)) ≡ Some m.rounds) }
    ensures range { IfOk result (λ m. (spec.least_rounds ≤ m.rounds) × (m.rounds ≤ spec.most_rounds)) }
    ensures kinds { FailsBy (fault_of spec.run_app (map W.text words.now)) result }
{
    let command = run(alloc)?;
    let matches = command.try_get_matches_from(words)?;
    let Some(rounds) = matches.get_one::<u32>("ROUNDS") else {
        unreachable!()
    };
    Ok(RunWords {
        settings: text_of(&matches, "SETTINGS"),
        rounds,
    })
}
