//! The whole program, over words, files, input, output and error output.

ghost use Rattle.std.specs.Prelude.{◌≡◌, ◌≢◌, [], ◌-◌, ◌^◌, ◌<◌, None, map, string_bytes};
ghost use Rattle.byte_io.specs.Sides.{Meets, Met};
ghost use Rattle.command_line.specs.Named.{named};
ghost use Rattle.fault_detail.specs.Detail.{names_of};
ghost use Rattle.program.specs.Program as spec;

use crate::carrying::carry_out;
use crate::lent::Lent;
use byte_io::{Sink, Source};
use clap::Error;
use command_line::{Command, CommandError, command_of};
use devices::Folder;
use fault_detail::{Given, complain, say, tell};
use plan_commands::{Exit, Fault};
use serve_command::FarmHost;
use std::alloc::Global;
use std::io;
use std::io::ErrorKind;

/// The status of a command line that is not taken, help included.
const USAGE: u8 = 2;

/// The program: carries out the command that the words ask for, on the files that they name, from the input to the
/// output, and prints on error output its fault, in a line that begins with `poolman: `, and below it what the fault is about if a
/// person reads error output. Gives the exit status: 0 if
/// the command is done; 1 if there is no plan, in a round of a run or of a farm too, or the report is not shown; 2 if the words
/// are no command's or ask for help, and then what `clap` says of them is on error output; 3 if input is refused;
/// 4 if memory, a device or a page failed; 5 if no attempt of a farm led to a plan; and 6 if a farm ended since one of its slots can have
/// no more workers.
///
/// The first word is the program's name. Words that are no text in UTF-8 are no command's. A run and a farm are on the host; this
/// contract says nothing of what the host does with progress reports and with the lines of a farm.
pub fn program<F: Folder, H: FarmHost, R: Source, W: Sink, E: Sink>(
    lent: Lent<'_, F, H>,
    words: io::Result<Vec<String>>,
    input: &mut R,
    output: &mut W,
    errors: &mut E,
) -> u8
    requires input { (R.input input.old).failures < 2 ^ 64 - 1 }
    requires output { (W.output output.old).failures < 2 ^ 64 - 1 }
    requires errors { (E.output errors.old).failures < 2 ^ 64 - 1 }
    ensures program { (met : Met) × Meets (R.input input.old) met (R.input input.new)
        × spec.Program lent.entry.reader (F.file lent.entry.files.now) (spec.words_in words) met
        (record { output = W.output output.old; errors = E.output errors.old })
        (record { output = W.output output.new; errors = E.output errors.new }) result }
{
    match words {
        Ok(words) => obey(lent, &words, input, output, errors),
        Err(error) => no_words(error.kind(), errors),
    }
}

/// Carries out the command of the words, or prints why they are none. Gives the exit status.
fn obey<F: Folder, H: FarmHost, R: Source, W: Sink, E: Sink>(
    lent: Lent<'_, F, H>,
    words: &[String],
    input: &mut R,
    output: &mut W,
    errors: &mut E,
) -> u8
    requires input { (R.input input.old).failures < 2 ^ 64 - 1 }
    requires output { (W.output output.old).failures < 2 ^ 64 - 1 }
    requires errors { (E.output errors.old).failures < 2 ^ 64 - 1 }
    ensures obeys { (met : Met) × Meets (R.input input.old) met (R.input input.new)
        × spec.Obeys lent.entry.reader (F.file lent.entry.files.now) (map (λ w. string_bytes w) words.now) met
        (record { output = W.output output.old; errors = E.output errors.old })
        (record { output = W.output output.new; errors = E.output errors.new }) result }
{
    match command_of(lent.alloc, words) {
        Ok(command) => {
            let exit = carry_out(lent, &command, input, output);
            end_command(lent, &command, exit, errors)
        }
        Err(CommandError::Usage(error)) => advise(lent.alloc, &error, errors),
        Err(CommandError::Memory) => end_lacking(errors),
    }
}

/// What is printed of words that are not taken: this text of `clap`, or that they are no command if it is empty.
fn usage_text(text: &str) -> &[u8]
    ensures { result.now ≢ [] }
{
    if text.is_empty() {
        b"poolman: the words are no command\n"
    } else {
        text.as_bytes()
    }
}

/// Prints what `clap` says of the words.
fn advise<E: Sink>(alloc: Global, error: &Error, errors: &mut E) -> u8
    requires { (E.output errors.old).failures < 2 ^ 64 - 1 }
    ensures { spec.Advises (E.output errors.old) (E.output errors.new) result }
{
    match format!(in alloc; "{error}") {
        Ok(text) => {
            say(errors, usage_text(text.as_str()));
            USAGE
        }
        Err(_) => end_lacking(errors),
    }
}

/// Prints why the system gives no words. Words that are no UTF-8 are no command's.
fn no_words<E: Sink>(kind: ErrorKind, errors: &mut E) -> u8
    requires { (E.output errors.old).failures < 2 ^ 64 - 1 }
    ensures { spec.HasNoWords kind (E.output errors.old) (E.output errors.new) result }
{
    match kind {
        ErrorKind::OutOfMemory => end_lacking(errors),
        _ => {
            say(errors, b"poolman: the command line is not UTF-8\n");
            USAGE
        }
    }
}

/// What a command is given that has a settings file and nothing else.
fn given_settings(settings: &str) -> Given<'_>
    ensures settings { result.settings.now ≡ settings.now }
    ensures services { result.services ≡ None }
    ensures status { result.status ≡ None }
    ensures lost { result.lost.now ≡ [] }
{
    Given {
        settings,
        services: None,
        status: None,
        lost: &[],
    }
}

/// What a command is given, by its words.
fn given_of<'a>(command: &'a Command<'a>) -> Given<'a>
    ensures { names_of result ≡ spec.names_in (named command.now) }
{
    match command {
        Command::Plan { settings, lost } | Command::Size { settings, lost, .. } => Given {
            lost: lost.as_slice(),
            ..given_settings(settings)
        },
        Command::Check {
            settings,
            status,
            lost,
        }
        | Command::CheckSize {
            settings,
            status,
            lost,
            ..
        } => Given {
            status: Some(*status),
            lost: lost.as_slice(),
            ..given_settings(settings)
        },
        Command::Settings { settings, services } => Given {
            services: *services,
            ..given_settings(settings)
        },
        Command::Serve {
            settings,
            services,
            ..
        } => Given {
            services: Some(*services),
            ..given_settings(settings)
        },
        Command::Drain { services } => Given {
            services: Some(*services),
            ..given_settings("")
        },
        Command::Replay { settings } | Command::Run { settings, .. } => given_settings(settings),
    }
}

/// Ends a command: prints the fault line, if there is a fault, and for a person what the fault is about. Gives the status.
fn end_command<F, H, E: Sink>(
    lent: Lent<'_, F, H>,
    command: &Command<'_>,
    exit: Exit,
    errors: &mut E,
) -> u8
    requires { (E.output errors.old).failures < 2 ^ 64 - 1 }
    ensures tells { spec.TellsEnd lent.entry.reader (named command.now) exit.fault (E.output errors.old) (E.output errors.new) }
    ensures status { result ≡ exit.status }
{
    if let Some(fault) = &exit.fault {
        tell(lent.reader, lent.alloc, &given_of(command), fault, errors);
    }
    exit.status
}

/// Prints that there is no memory, and gives the status.
fn end_lacking<E: Sink>(errors: &mut E) -> u8
    requires { (E.output errors.old).failures < 2 ^ 64 - 1 }
    ensures { spec.Lacks (E.output errors.old) (E.output errors.new) result }
{
    complain(&Fault::Memory, errors);
    Fault::Memory.status()
}
