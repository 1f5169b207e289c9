//! The command line of each command, as a command of `clap` of its own.

ghost use Rattle.std.specs.Prelude.{◌≡◌, ◌<◌, IfOk, IsOkAnd, IsSomeAnd, Some, [], false, length, map};
ghost use Rattle.clap.specs.Built.{AddsSubcommand, FitsChain, TakesValue};
ghost use Rattle.clap.specs.Words.{HasKind, IsPlainArg, app_of, args_of, groups_of};
ghost use Rattle.clap.specs.Words.{rule_of};
ghost use Rattle.clap.specs.Simple.{new_app};
ghost use Rattle.clap.specs.declared.builder.command.Command.TheViews.{out-Command as fields_of};
ghost use Rattle.command_words.specs.Required.{Requires, RequiresNumber};
ghost use Rattle.command_words.specs.Words as spec;

use crate::help::{
    CHECK, CHECK_SIZE, DRAIN, Help, PLAN, PROGRAM, REPLAY, RUN, SERVE, SETTINGS, SIZE,
};
use clap::error::ErrorKind;
use clap::{Arg, ArgAction, Command, Error, value_parser};
use std::alloc::{AllocError, Global};
use std::convert::AsStr;

/// The version of the program.
const VERSION: &str = "0.3.0";

/// A word that has to be there.
fn operand<'a>(alloc: Global, id: &'a str, help: &'a str) -> Arg<'a>
    ensures rule { rule_of result ≡ spec.operand id.entry.now }
    ensures id { result.id ≡ id.entry }
    ensures help { result.help ≡ Some help.entry }
    ensures plain { IsPlainArg result }
    ensures value { TakesValue result }
    ensures local { result.global ≡ false }
{
    Arg::new(alloc, id)
        .required(true)
        .action(ArgAction::Set)
        .help(help)
}

/// A word that may be there.
fn optional<'a>(alloc: Global, id: &'a str, help: &'a str) -> Arg<'a>
    ensures rule { rule_of result ≡ spec.optional id.entry.now }
    ensures id { result.id ≡ id.entry }
    ensures help { result.help ≡ Some help.entry }
    ensures plain { IsPlainArg result }
    ensures local { result.global ≡ false }
{
    Arg::new(alloc, id).action(ArgAction::Set).help(help)
}

/// A flag `--NAME`, which may be there.
fn flag<'a>(alloc: Global, name: &'a str, help: &'a str) -> Arg<'a>
    ensures rule { rule_of result ≡ spec.flag name.entry.now }
    ensures id { result.id ≡ name.entry }
    ensures help { result.help ≡ Some help.entry }
    ensures plain { IsPlainArg result }
    ensures local { result.global ≡ false }
{
    Arg::new(alloc, name)
        .long(name)
        .action(ArgAction::SetTrue)
        .help(help)
}

/// Any number of words.
fn operands<'a>(alloc: Global, id: &'a str, help: &'a str) -> Arg<'a>
    ensures rule { rule_of result ≡ spec.operands id.entry.now }
    ensures id { result.id ≡ id.entry }
    ensures help { result.help ≡ Some help.entry }
    ensures plain { IsPlainArg result }
    ensures local { result.global ≡ false }
{
    Arg::new(alloc, id)
        .action(ArgAction::Append)
        .num_args(0..)
        .help(help)
}

fn settings<'a>(alloc: Global) -> Arg<'a>
    ensures rule { rule_of result ≡ spec.operand spec.settings }
    ensures id { result.id.now ≡ spec.settings }
    ensures explained { IsSomeAnd result.help (λ help. 0 < length help.now) }
    ensures fits { FitsChain result }
    ensures value { TakesValue result }
{
    operand(
        alloc,
        "SETTINGS",
        "The settings file: machines, functions, least and greatest numbers",
    )
}

fn services<'a>(alloc: Global) -> Arg<'a>
    ensures rule { rule_of result ≡ spec.operand spec.services }
    ensures id { result.id.now ≡ spec.services }
    ensures explained { IsSomeAnd result.help (λ help. 0 < length help.now) }
    ensures fits { FitsChain result }
    ensures value { TakesValue result }
{
    operand(
        alloc,
        "SERVICES",
        "The services file: where the jobs of each machine go, and the page",
    )
}

fn optional_services<'a>(alloc: Global) -> Arg<'a>
    ensures rule { rule_of result ≡ spec.optional spec.services }
    ensures id { result.id.now ≡ spec.services }
    ensures explained { IsSomeAnd result.help (λ help. 0 < length help.now) }
    ensures fits { FitsChain result }
{
    optional(
        alloc,
        "SERVICES",
        "The services file, read beside the settings: where the jobs of each machine go",
    )
}

fn until_input<'a>(alloc: Global) -> Arg<'a>
    ensures rule { rule_of result ≡ spec.flag spec.until_input }
    ensures id { result.id.now ≡ spec.until_input }
    ensures explained { IsSomeAnd result.help (λ help. 0 < length help.now) }
    ensures fits { FitsChain result }
{
    flag(alloc, "until-input", "End when standard input ends")
}

fn status<'a>(alloc: Global) -> Arg<'a>
    ensures rule { rule_of result ≡ spec.operand spec.status }
    ensures id { result.id.now ≡ spec.status }
    ensures explained { IsSomeAnd result.help (λ help. 0 < length help.now) }
    ensures fits { FitsChain result }
    ensures value { TakesValue result }
{
    operand(
        alloc,
        "STATUS",
        "The file with the status text that was planned for",
    )
}

fn lost<'a>(alloc: Global) -> Arg<'a>
    ensures rule { rule_of result ≡ spec.operands spec.lost }
    ensures id { result.id.now ≡ spec.lost }
    ensures explained { IsSomeAnd result.help (λ help. 0 < length help.now) }
    ensures fits { FitsChain result }
{
    operands(
        alloc,
        "LOST",
        "Workers that are not live, as a/0; all others are",
    )
}

fn backlog<'a>(alloc: Global) -> Arg<'a>
    ensures rule { rule_of result ≡ spec.operand spec.backlog }
    ensures id { result.id.now ≡ spec.backlog }
    ensures explained { IsSomeAnd result.help (λ help. 0 < length help.now) }
    ensures fits { FitsChain result }
    ensures value { TakesValue result }
{
    operand(
        alloc,
        "BACKLOG",
        "How many jobs may wait for each worker of a function, from 1 to 4294967295; - for any plan at all",
    )
}

fn rounds<'a>(alloc: Global) -> Arg<'a>
    ensures rule { rule_of result ≡ spec.number spec.rounds spec.least_rounds spec.most_rounds }
    ensures id { result.id.now ≡ spec.rounds }
    ensures explained { IsSomeAnd result.help (λ help. 0 < length help.now) }
    ensures fits { FitsChain result }
    ensures value { TakesValue result }
{
    operand(
        alloc,
        "ROUNDS",
        "How many attempts to plan, a whole number from 1 to 65536",
    )
    .value_parser(value_parser!(u32).range(1..=65536))
}

/// A command without operands, with its help.
fn command<'a>(alloc: Global, name: &'a str, help: Help) -> Command<'a>
    ensures app { app_of result ≡ new_app name.entry.now }
    ensures about { (fields_of result).about ≡ Some help.about }
    ensures usage { (fields_of result).usage_str ≡ Some help.usage }
    ensures example { (fields_of result).after_help ≡ Some help.example }
    ensures arguments { args_of result ≡ [] }
    ensures groups { groups_of result ≡ [] }
    ensures local { (fields_of result).has_globals ≡ false }
    ensures negates { (fields_of result).subcommand_negates_reqs ≡ false }
{
    Command::new(alloc, name)
        .about(help.about)
        .override_usage(help.usage)
        .after_help(help.example)
}

/// `plan` with its operands.
pub fn plan<'a>(alloc: Global) -> Result<Command<'a>, AllocError>
    ensures app { IfOk result (λ c. app_of c ≡ spec.plan_app) }
    ensures local { IfOk result (λ c. (fields_of c).has_globals ≡ false) }
    ensures settings { IfOk result (Requires spec.settings) }
{
    command(alloc, "plan", PLAN)
        .arg(settings(alloc))?
        .arg(lost(alloc))
}

/// `check` with its operands.
pub fn check<'a>(alloc: Global) -> Result<Command<'a>, AllocError>
    ensures app { IfOk result (λ c. app_of c ≡ spec.check_app) }
    ensures local { IfOk result (λ c. (fields_of c).has_globals ≡ false) }
    ensures settings { IfOk result (Requires spec.settings) }
    ensures status { IfOk result (Requires spec.status) }
{
    command(alloc, "check", CHECK)
        .arg(settings(alloc))?
        .arg(status(alloc))?
        .arg(lost(alloc))
}

/// `size` with its operands.
pub fn size<'a>(alloc: Global) -> Result<Command<'a>, AllocError>
    ensures app { IfOk result (λ c. app_of c ≡ spec.size_app) }
    ensures local { IfOk result (λ c. (fields_of c).has_globals ≡ false) }
    ensures settings { IfOk result (Requires spec.settings) }
    ensures backlog { IfOk result (Requires spec.backlog) }
{
    command(alloc, "size", SIZE)
        .arg(settings(alloc))?
        .arg(backlog(alloc))?
        .arg(lost(alloc))
}

/// `check-size` with its operands.
pub fn check_size<'a>(alloc: Global) -> Result<Command<'a>, AllocError>
    ensures app { IfOk result (λ c. app_of c ≡ spec.check_size_app) }
    ensures local { IfOk result (λ c. (fields_of c).has_globals ≡ false) }
    ensures settings { IfOk result (Requires spec.settings) }
    ensures status { IfOk result (Requires spec.status) }
    ensures backlog { IfOk result (Requires spec.backlog) }
{
    command(alloc, "check-size", CHECK_SIZE)
        .arg(settings(alloc))?
        .arg(status(alloc))?
        .arg(backlog(alloc))?
        .arg(lost(alloc))
}

/// `replay` with its operand.
pub fn replay<'a>(alloc: Global) -> Result<Command<'a>, AllocError>
    ensures app { IfOk result (λ c. app_of c ≡ spec.replay_app) }
    ensures local { IfOk result (λ c. (fields_of c).has_globals ≡ false) }
    ensures settings { IfOk result (Requires spec.settings) }
{
    command(alloc, "replay", REPLAY).arg(settings(alloc))
}

/// `settings` with its operands.
pub fn show_settings<'a>(alloc: Global) -> Result<Command<'a>, AllocError>
    ensures app { IfOk result (λ c. app_of c ≡ spec.settings_app) }
    ensures local { IfOk result (λ c. (fields_of c).has_globals ≡ false) }
    ensures settings { IfOk result (Requires spec.settings) }
{
    command(alloc, "settings", SETTINGS)
        .arg(settings(alloc))?
        .arg(optional_services(alloc))
}

/// `run` with its operands.
pub fn run<'a>(alloc: Global) -> Result<Command<'a>, AllocError>
    ensures app { IfOk result (λ c. app_of c ≡ spec.run_app) }
    ensures local { IfOk result (λ c. (fields_of c).has_globals ≡ false) }
    ensures settings { IfOk result (Requires spec.settings) }
    ensures rounds { IfOk result (RequiresNumber spec.rounds spec.least_rounds spec.most_rounds) }
{
    command(alloc, "run", RUN)
        .arg(settings(alloc))?
        .arg(rounds(alloc))
}

/// `serve` with its operands and its flag.
pub fn serve<'a>(alloc: Global) -> Result<Command<'a>, AllocError>
    ensures app { IfOk result (λ c. app_of c ≡ spec.serve_app) }
    ensures local { IfOk result (λ c. (fields_of c).has_globals ≡ false) }
    ensures settings { IfOk result (Requires spec.settings) }
    ensures services { IfOk result (Requires spec.services) }
{
    command(alloc, "serve", SERVE)
        .arg(settings(alloc))?
        .arg(services(alloc))?
        .arg(until_input(alloc))
}

/// `drain` with its operand.
pub fn drain<'a>(alloc: Global) -> Result<Command<'a>, AllocError>
    ensures app { IfOk result (λ c. app_of c ≡ spec.drain_app) }
    ensures local { IfOk result (λ c. (fields_of c).has_globals ≡ false) }
    ensures services { IfOk result (Requires spec.services) }
{
    command(alloc, "drain", DRAIN).arg(services(alloc))
}

/// The program without its commands.
fn bare_program<'a>(alloc: Global) -> Command<'a>
    ensures app { app_of result ≡ spec.bare_app }
{
    command(alloc, "poolman", PROGRAM)
        .version(VERSION)
        .subcommand_required(true)
}

/// Adds a command, if it could be made. The only error is out of memory.
fn add<'a>(
    program: Command<'a>,
    command: Result<Command<'a>, AllocError>,
) -> Result<Command<'a>, AllocError>
    ensures { IfOk result (λ p. IsOkAnd command.entry (λ c. AddsSubcommand program.entry c p)) }
{
    program.subcommand(command?)
}

/// Adds the commands about plans.
fn add_plans<'a>(alloc: Global, program: Command<'a>) -> Result<Command<'a>, AllocError>
    ensures app { IfOk result (λ p. app_of p ≡ spec.with_plans (app_of program.entry)) }
{
    let planning = add(program, plan(alloc))?;
    add(planning, check(alloc))
}

/// Adds the commands about sizes.
fn add_sizes<'a>(alloc: Global, program: Command<'a>) -> Result<Command<'a>, AllocError>
    ensures app { IfOk result (λ p. app_of p ≡ spec.with_sizes (app_of program.entry)) }
{
    let sizing = add(program, size(alloc))?;
    add(sizing, check_size(alloc))
}

/// Adds the commands that try settings.
fn add_trials<'a>(alloc: Global, program: Command<'a>) -> Result<Command<'a>, AllocError>
    ensures app { IfOk result (λ p. app_of p ≡ spec.with_trials (app_of program.entry)) }
{
    let replaying = add(program, replay(alloc))?;
    add(replaying, show_settings(alloc))
}

/// Adds the commands about a pool that runs.
fn add_runs<'a>(alloc: Global, program: Command<'a>) -> Result<Command<'a>, AllocError>
    ensures app { IfOk result (λ p. app_of p ≡ spec.with_runs (app_of program.entry)) }
{
    let running = add(program, run(alloc))?;
    let serving = add(running, serve(alloc))?;
    add(serving, drain(alloc))
}

/// The command line of words that name no command.
fn program<'a>(alloc: Global) -> Result<Command<'a>, AllocError>
    ensures app { IfOk result (λ p. app_of p ≡ spec.overview_app) }
{
    let planning = add_plans(alloc, bare_program(alloc))?;
    let sizing = add_sizes(alloc, planning)?;
    let trying = add_trials(alloc, sizing)?;
    add_runs(alloc, trying)
}

/// What to print if the words name no command: the help that they ask for, or what is wrong.
pub fn overview<W: AsStr>(alloc: Global, words: &[W]) -> Result<Error, AllocError>
    ensures kinds { IfOk result (HasKind (spec.overview_faults (map W.text words.now))) }
{
    let mut program = program(alloc)?;
    match program.try_get_matches_from_mut(words) {
        Ok(_) => program.error(ErrorKind::MissingSubcommand, "a command is wanted"),
        Err(error) => Ok(error),
    }
}
