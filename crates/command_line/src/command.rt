//! What the words of the command line ask for.

ghost use Rattle.std.specs.Prelude.{◌≡◌, ◌≤◌, IfErr, IfOk, Some, [], drop, length, map};
ghost use Rattle.clap.specs.Simple.{matches_of};
ghost use Rattle.clap.specs.Words.{fault_of};
ghost use Rattle.command_line.specs.Named.{HasRoundsInRange, IsOfKinds, Tells, named};
ghost use Rattle.command_words.specs.Words as spec;

use clap::Error;
use clap::error::ErrorKind;
use command_words::{
    CheckSizeWords, CheckWords, PlanWords, RunWords, ServeWords, SettingsWords, SizeWords,
    check_size_words, check_words, drain_words, overview, plan_words, replay_words, run_words,
    serve_words, settings_words, size_words,
};
use std::alloc::{AllocError, Global};
use std::convert::AsStr;
use std::num::NonZeroU32;

/// What the words ask for, with the texts that they give.
#[derive(Drop)]
pub enum Command<'a> {
    /// `plan SETTINGS [LOST]...`: the best plan for the status text on standard input.
    Plan {
        settings: &'a str,
        lost: Vec<&'a str>,
    },
    /// `check SETTINGS STATUS [LOST]...`: whether the report on standard input is shown.
    Check {
        settings: &'a str,
        status: &'a str,
        lost: Vec<&'a str>,
    },
    /// `size SETTINGS BACKLOG [LOST]...`: how many workers are missing for the status text on standard input. The level is how many jobs
    /// may wait for each worker of a function; without one any plan will do.
    Size {
        settings: &'a str,
        level: Option<NonZeroU32>,
        lost: Vec<&'a str>,
    },
    /// `check-size SETTINGS STATUS BACKLOG [LOST]...`: whether the size on standard input is shown.
    CheckSize {
        settings: &'a str,
        status: &'a str,
        level: Option<NonZeroU32>,
        lost: Vec<&'a str>,
    },
    /// `replay SETTINGS`: what the command lines on standard input answer.
    Replay {
        settings: &'a str,
    },
    /// `settings SETTINGS [SERVICES]`: what the settings file means, or where its first fault is; with a services file what both mean.
    Settings {
        settings: &'a str,
        services: Option<&'a str>,
    },
    /// `run SETTINGS ROUNDS`: keeps workers at a job server, for 1 to 65,536 attempts to plan.
    Run {
        settings: &'a str,
        rounds: u32,
    },
    /// `serve SETTINGS SERVICES [--until-input]`: keeps workers at a job server, whose jobs services do over HTTP, until it is told to
    /// stop. With the flag it ends when standard input does, too.
    Serve {
        settings: &'a str,
        services: &'a str,
        until_input: bool,
    },
    /// `drain SERVICES`: ends the running farm that has this services file, and tells what it came to.
    Drain {
        services: &'a str,
    },
}

/// Why words are not taken.
#[derive(Drop)]
pub enum CommandError {
    /// They are no command's words, or ask for help. Its text is what `clap` prints of it.
    Usage(Error),
    /// An allocation was refused.
    Memory,
}

impl From<AllocError> for CommandError {
    ghost use Rattle.std.specs.Prelude.{◌≡◌};
    ghost use Rattle.command_line.specs.declared.command.CommandError.TheVariants.{Memory};

    ghost from_gives = { λ _ e. e ≡ Memory };

    fn from(_: AllocError) -> CommandError {
        CommandError::Memory
    }
}

/// Distinguishes out of memory from words that are not taken.
fn refused(error: Error) -> CommandError
    ensures { Tells error result }
{
    if error.kind() == ErrorKind::OutOfMemory {
        CommandError::Memory
    } else {
        CommandError::Usage(error)
    }
}

fn plan_of<'a, W: AsStr>(alloc: Global, words: &'a [W]) -> Result<Command<'a>, CommandError>
    ensures ok { IfOk result (λ c. spec.plan_in (matches_of spec.plan_app (map W.text words.now)) ≡ Some (named c)) }
    ensures taken { IfOk result (λ _. fault_of spec.plan_app (map W.text words.now) ≡ []) }
    ensures usage { IfErr result (IsOfKinds (fault_of spec.plan_app (map W.text words.now))) }
{
    match plan_words(alloc, words) {
        Ok(PlanWords { settings, lost }) => Ok(Command::Plan { settings, lost }),
        Err(error) => Err(refused(error)),
    }
}

fn check_of<'a, W: AsStr>(alloc: Global, words: &'a [W]) -> Result<Command<'a>, CommandError>
    ensures ok { IfOk result (λ c. spec.check_in (matches_of spec.check_app (map W.text words.now)) ≡ Some (named c)) }
    ensures taken { IfOk result (λ _. fault_of spec.check_app (map W.text words.now) ≡ []) }
    ensures usage { IfErr result (IsOfKinds (fault_of spec.check_app (map W.text words.now))) }
{
    match check_words(alloc, words) {
        Ok(
            CheckWords {
                settings,
                status,
                lost,
            },
        ) => Ok(Command::Check {
            settings,
            status,
            lost,
        }),
        Err(error) => Err(refused(error)),
    }
}

fn size_of<'a, W: AsStr>(alloc: Global, words: &'a [W]) -> Result<Command<'a>, CommandError>
    ensures ok { IfOk result (λ c. spec.size_in (matches_of spec.size_app (map W.text words.now)) ≡ Some (named c)) }
    ensures taken { IfOk result (λ _. spec.level_faults spec.size_app (map W.text words.now) ≡ []) }
    ensures usage { IfErr result (IsOfKinds (spec.level_faults spec.size_app (map W.text words.now))) }
{
    match size_words(alloc, words) {
        Ok(
            SizeWords {
                settings,
                level,
                lost,
            },
        ) => Ok(Command::Size {
            settings,
            level,
            lost,
        }),
        Err(error) => Err(refused(error)),
    }
}

fn check_size_of<'a, W: AsStr>(alloc: Global, words: &'a [W]) -> Result<Command<'a>, CommandError>
    ensures ok { IfOk result (λ c. spec.check_size_in (matches_of spec.check_size_app (map W.text words.now)) ≡ Some (named c)) }
    ensures taken { IfOk result (λ _. spec.level_faults spec.check_size_app (map W.text words.now) ≡ []) }
    ensures usage { IfErr result (IsOfKinds (spec.level_faults spec.check_size_app (map W.text words.now))) }
{
    match check_size_words(alloc, words) {
        Ok(
            CheckSizeWords {
                settings,
                status,
                level,
                lost,
            },
        ) => Ok(Command::CheckSize {
            settings,
            status,
            level,
            lost,
        }),
        Err(error) => Err(refused(error)),
    }
}

fn replay_of<'a, W: AsStr>(alloc: Global, words: &'a [W]) -> Result<Command<'a>, CommandError>
    ensures ok { IfOk result (λ c. spec.replay_in (matches_of spec.replay_app (map W.text words.now)) ≡ Some (named c)) }
    ensures taken { IfOk result (λ _. fault_of spec.replay_app (map W.text words.now) ≡ []) }
    ensures usage { IfErr result (IsOfKinds (fault_of spec.replay_app (map W.text words.now))) }
{
    match replay_words(alloc, words) {
        Ok(settings) => Ok(Command::Replay { settings }),
        Err(error) => Err(refused(error)),
    }
}

fn settings_of<'a, W: AsStr>(alloc: Global, words: &'a [W]) -> Result<Command<'a>, CommandError>
    ensures ok { IfOk result (λ c. spec.settings_in (matches_of spec.settings_app (map W.text words.now)) ≡ Some (named c)) }
    ensures taken { IfOk result (λ _. fault_of spec.settings_app (map W.text words.now) ≡ []) }
    ensures usage { IfErr result (IsOfKinds (fault_of spec.settings_app (map W.text words.now))) }
{
    match settings_words(alloc, words) {
        Ok(SettingsWords { settings, services }) => Ok(Command::Settings { settings, services }),
        Err(error) => Err(refused(error)),
    }
}

fn run_of<'a, W: AsStr>(alloc: Global, words: &'a [W]) -> Result<Command<'a>, CommandError>
    ensures ok { IfOk result (λ c. spec.run_in (matches_of spec.run_app (map W.text words.now)) ≡ Some (named c)) }
    ensures taken { IfOk result (λ _. fault_of spec.run_app (map W.text words.now) ≡ []) }
    ensures rounds { IfOk result HasRoundsInRange }
    ensures usage { IfErr result (IsOfKinds (fault_of spec.run_app (map W.text words.now))) }
{
    match run_words(alloc, words) {
        Ok(RunWords { settings, rounds }) => Ok(Command::Run { settings, rounds }),
        Err(error) => Err(refused(error)),
    }
}

fn serve_of<'a, W: AsStr>(alloc: Global, words: &'a [W]) -> Result<Command<'a>, CommandError>
    ensures ok { IfOk result (λ c. spec.serve_in (matches_of spec.serve_app (map W.text words.now)) ≡ Some (named c)) }
    ensures taken { IfOk result (λ _. fault_of spec.serve_app (map W.text words.now) ≡ []) }
    ensures usage { IfErr result (IsOfKinds (fault_of spec.serve_app (map W.text words.now))) }
{
    match serve_words(alloc, words) {
        Ok(
            ServeWords {
                settings,
                services,
                until_input,
            },
        ) => Ok(Command::Serve {
            settings,
            services,
            until_input,
        }),
        Err(error) => Err(refused(error)),
    }
}

fn drain_of<'a, W: AsStr>(alloc: Global, words: &'a [W]) -> Result<Command<'a>, CommandError>
    ensures ok { IfOk result (λ c. spec.drain_in (matches_of spec.drain_app (map W.text words.now)) ≡ Some (named c)) }
    ensures taken { IfOk result (λ _. fault_of spec.drain_app (map W.text words.now) ≡ []) }
    ensures usage { IfErr result (IsOfKinds (fault_of spec.drain_app (map W.text words.now))) }
{
    match drain_words(alloc, words) {
        Ok(services) => Ok(Command::Drain { services }),
        Err(error) => Err(refused(error)),
    }
}

/// The command of this name, from words of which it is the second, if it is one that takes no text from standard input.
fn command_without_input<'a, W: AsStr>(
    alloc: Global,
    name: &str,
    words: &'a [W],
) -> Result<Command<'a>, CommandError>
    requires { 1 ≤ length words.now }
    ensures ok { IfOk result (λ c. spec.named_without_input name.now (drop 1 (map W.text words.now)) ≡ Some (named c)) }
    ensures taken { IfOk result (λ _. spec.faults_without_input (map W.text words.now) name.now ≡ []) }
    ensures rounds { IfOk result HasRoundsInRange }
    ensures usage { IfErr result (IsOfKinds (spec.faults_without_input (map W.text words.now) name.now)) }
{
    if name == "settings" {
        settings_of(alloc, &words[1..])
    } else if name == "run" {
        run_of(alloc, &words[1..])
    } else if name == "serve" {
        serve_of(alloc, &words[1..])
    } else if name == "drain" {
        drain_of(alloc, &words[1..])
    } else {
        Err(refused(overview(alloc, words)?))
    }
}

/// The command of this name, from words of which it is the second, if it is one about sizes, or one that takes no text from standard
/// input.
fn command_of_sizes<'a, W: AsStr>(
    alloc: Global,
    name: &str,
    words: &'a [W],
) -> Result<Command<'a>, CommandError>
    requires { 1 ≤ length words.now }
    ensures ok { IfOk result (λ c. spec.named_of_sizes name.now (drop 1 (map W.text words.now)) ≡ Some (named c)) }
    ensures taken { IfOk result (λ _. spec.faults_of_sizes (map W.text words.now) name.now ≡ []) }
    ensures rounds { IfOk result HasRoundsInRange }
    ensures usage { IfErr result (IsOfKinds (spec.faults_of_sizes (map W.text words.now) name.now)) }
{
    if name == "size" {
        size_of(alloc, &words[1..])
    } else if name == "check-size" {
        check_size_of(alloc, &words[1..])
    } else {
        command_without_input(alloc, name, words)
    }
}

/// The command of this name, from words of which it is the second.
fn command_named<'a, W: AsStr>(
    alloc: Global,
    name: &str,
    words: &'a [W],
) -> Result<Command<'a>, CommandError>
    requires { 1 ≤ length words.now }
    ensures ok { IfOk result (λ c. spec.command_named name.now (drop 1 (map W.text words.now)) ≡ Some (named c)) }
    ensures taken { IfOk result (λ _. spec.faults_as (map W.text words.now) name.now ≡ []) }
    ensures rounds { IfOk result HasRoundsInRange }
    ensures usage { IfErr result (IsOfKinds (spec.faults_as (map W.text words.now) name.now)) }
{
    if name == "plan" {
        plan_of(alloc, &words[1..])
    } else if name == "check" {
        check_of(alloc, &words[1..])
    } else if name == "replay" {
        replay_of(alloc, &words[1..])
    } else {
        command_of_sizes(alloc, name, words)
    }
}

/// The command that the words ask for. The first word is the program's name and the second the
/// command's. `Usage` comes if `clap` finds a fault in the words, help that they ask for included: it
/// is of the kind of the first one, and holds the text to print. So it is if ROUNDS is no whole number from
/// 1 to 65,536 in decimal, of which a `+` may come first: of the kind `ValueValidation`, or
/// `UnknownArgument` if the word is read as an option, since it begins with `-`. If `clap` finds no fault, only a BACKLOG that is
/// neither `-` nor a number from 1 to 4,294,967,295 in decimal without leading zeros gives `Usage`, of the kind `ValueValidation`.
pub fn command_of<'a, W: AsStr>(alloc: Global, words: &'a [W]) -> Result<Command<'a>, CommandError>
    ensures ok { IfOk result (λ c. spec.command_in (map W.text words.now) ≡ Some (named c)) }
    ensures taken { IfOk result (λ _. spec.faults_in (map W.text words.now) ≡ []) }
    ensures rounds { IfOk result HasRoundsInRange }
    ensures usage { IfErr result (IsOfKinds (spec.faults_in (map W.text words.now))) }
{
    match words.get(1) {
        Some(name) => command_named(alloc, name.as_str(), words),
        None => Err(refused(overview(alloc, words)?)),
    }
}
