//! A run of command lines.

ghost use Rattle.std.specs.Prelude.{◌≡◌, ◌∷◌, ◌<◌, [], None, IfErr, OnErr, OnOk, MatchOption, length, string_bytes};
ghost use Rattle.pool_commands.specs.Grammar as grammar;
ghost use Rattle.pool_replay.specs.declared.running.Stop.TheVariants.{NoCommand};
ghost use Rattle.pool_replay.specs.Run.{IsRun};
ghost use Rattle.pool_replay.specs.Transcript.{IsTranscript, AnswersLine, first_desk, lines_of};

use crate::desk::Desk;
use crate::law::transcripts_are_histories;
use pool_commands::command_in;
use pool_core::{jobs_are_accounted_for, rounds_are_shown};
use pool_settings::Settings;
use std::alloc::{AllocError, Global};
use text_pieces::cut_first;

/// How a run ended.
#[derive(Clone, Copy, Debug, PartialEq, Eq)]
pub enum End {
    /// After its last line.
    Done,
    /// At the first line that is no command, counted from 1. The lines before it were run.
    BadLine(u64),
    /// There was no memory: for the pool, for a line, or for what it prints.
    Memory,
}

/// What a run printed, and how it ended.
#[derive(Drop)]
pub struct Outcome {
    /// A line for each command that was run, each ended by a line feed.
    pub output: String,
    /// How the run ended.
    pub end: End,
}

/// Why a line was not run, or what it prints was not kept.
#[derive(Clone, Copy, Debug, PartialEq, Eq)]
enum Stop {
    /// It is no command.
    NoCommand,
    /// There was no memory.
    Memory,
}

impl From<AllocError> for Stop {
    ghost use Rattle.std.specs.Prelude.{◌≡◌};
    ghost use Rattle.pool_replay.specs.declared.running.Stop.TheVariants.{Memory};

    ghost from_gives = { λ _ e. e ≡ Memory };

    fn from(_: AllocError) -> Stop {
        Stop::Memory
    }
}

/// The first line of a text, and what comes after its line feed; none if the text is empty.
fn cut_line(text: &[u8]) -> Option<(&[u8], &[u8])>
    ensures { MatchOption result (lines_of text.now ≡ [])
        (λ cut. (lines_of text.now ≡ cut.0.now ∷ lines_of cut.1.now) × (length cut.1.now < length text.now)) }
{
    if text.is_empty() {
        return None;
    }
    match cut_first(b'\n', text) {
        Some(cut) => Some(cut),
        None => Some((text, &[])),
    }
}

/// Runs one line, and appends what it prints. If it is not run, or there is no memory for what it prints, nothing is
/// appended.
fn answer_line(
    alloc: Global,
    settings: &Settings,
    desk: &mut Desk,
    line: &[u8],
    output: &mut String,
) -> Result<(), Stop>
    requires { desk.old.pool.settings ≡ settings.now }
    ensures answer { OnOk result (AnswersLine settings.now line.now desk.old (string_bytes output.old) desk.new (string_bytes output.new)) }
    ensures settings { OnOk result (desk.new.pool.settings ≡ settings.now) }
    ensures unchanged { OnErr result (string_bytes output.new ≡ string_bytes output.old) }
    ensures no_command { IfErr result (λ stop. stop ≡ NoCommand → grammar.command_in settings.now line.now ≡ None) }
{
    let Some(command) = command_in(alloc, settings, line)? else {
        return Err(Stop::NoCommand);
    };
    desk.pool.facts();
    let mut answer = desk.execute(alloc, settings, command)?;
    answer.push('\n')?;
    output.push_str(answer.as_str())?;
    Ok(())
}

/// Runs the lines of an input on a desk at which nothing has happened, and appends what they print.
fn run_lines(
    alloc: Global,
    settings: &Settings,
    desk: &mut Desk,
    input: &[u8],
    output: &mut String,
) -> End
    requires first { desk.old ≡ first_desk settings.now }
    requires empty { string_bytes output.old ≡ [] }
    ensures { IsTranscript settings.now 1 (first_desk settings.now) (lines_of input.now) (string_bytes output.new) result }
{
    let mut rest = input;
    let mut number: u64 = 1;
    while let Some((line, tail)) = cut_line(rest) {
        match answer_line(alloc, settings, desk, line, output) {
            Ok(()) => {}
            Err(Stop::NoCommand) => return End::BadLine(number),
            Err(Stop::Memory) => return End::Memory,
        }
        number += 1;
        rest = tail;
    }
    End::Done
}

/// Runs the command lines of an input, one after the other, on a new pool of these settings, and prints one line for each.
///
/// A line ends with a line feed, which the last may lack; an empty input has no line. The run ends after the last line, at the
/// first line that is no command, or when memory runs out; what the lines before that print is in the output. If
/// there is no memory for the pool itself the output is empty.
///
/// A refusal of the pool prints `refused`, its number in its call, and its name. The passes of the workers that joined are kept
/// under their names until `lose` takes them, also if it is refused; a command for a worker without a pass prints `refused
/// NoPass`, but `expire` needs none. `view` keeps what it saw and the best plan for it, in the place of an older view, and
/// `adopt` spends it, also if it is refused; if there is none it prints `refused NoView`. `chapter` ends the chapter of the
/// pool's history and gives its events up: the state goes on, and with it passes, jobs and the view, and the events of `totals` are
/// those since then.
///
/// Whatever the lines are, the pool keeps its promise: each round is best for its state, or shown to have no plan; and each grabbed job is
/// running, reported once, or lost with its named worker.
pub fn run(alloc: Global, settings: &Settings, input: &[u8]) -> Outcome
    ensures run { IsRun settings.now input.now (string_bytes result.output) result.end }
{
    let mut output = String::new(alloc);
    let Ok(mut desk) = Desk::new(alloc, settings) else {
        return Outcome {
            output,
            end: End::Memory,
        };
    };
    desk.pool.facts();
    transcripts_are_histories();
    rounds_are_shown();
    jobs_are_accounted_for();
    let end = run_lines(alloc, settings, &mut desk, input, &mut output);
    Outcome { output, end }
}
