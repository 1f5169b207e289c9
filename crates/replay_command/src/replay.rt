//! The command `replay`: from command lines to what each answers.

ghost use Rattle.std.specs.Prelude.{◌≡◌, ◌-◌, ◌^◌, ◌<◌};
ghost use Rattle.byte_io.specs.Sides.{Meets, Met};
ghost use Rattle.replay_command.specs.Replay as spec;

use byte_io::{Sink, Source};
use devices::read_whole;
use plan_commands::{Exit, Fault, deliver, read_settings};
use pool_replay::{End, Outcome, run};
use std::alloc::Global;

/// Runs the command lines that the source gives, whole, on a pool of these settings. Faults are looked for in the settings
/// and in the source.
fn run_input<R: Source>(
    alloc: Global,
    settings_text: &[u8],
    source: &mut R,
) -> Result<Outcome, Fault>
    requires { (R.input source.old).failures < 2 ^ 64 - 1 }
    ensures { (met : Met) × Meets (R.input source.old) met (R.input source.new) × spec.GivesRun settings_text.now met result }
{
    let settings = read_settings(alloc, settings_text)?;
    let input = read_whole(alloc, source)?;
    Ok(run(alloc, &settings, &input))
}

/// How the command ends that ran its lines so, and wrote what they print.
fn exit_of(end: End) -> Exit
    ensures { result ≡ spec.exit_of end }
{
    match end {
        End::Done => Exit::answered(0),
        End::BadLine(line) => Exit::refused(Fault::BadCommand(line)),
        End::Memory => Exit::refused(Fault::Memory),
    }
}

/// Runs command lines on a pool in which nothing has happened, and writes what each of them prints: a transcript of the pool's
/// machine, a line for each command. A command that the pool refuses prints the refusal and is no fault. The exit status is
/// 0 if each line was a command.
///
/// Faults are looked for in the settings, in the source, which gives at most 16,777,216 bytes, and in the lines. The source is read
/// only if the settings are right, and nothing is written if it does not give its bytes up to their end. If it failed or
/// timed out for the 65th time the fault is `ReadFault`. The first line that is no command ends the run as `BadCommand`, and out of
/// memory as `Memory`: what is written then is the transcript of the lines before it. After a `WriteFault`, which comes only if the
/// sink failed, a prefix of the transcript was written and not all of it.
pub fn run_commands<R: Source, S: Sink>(
    alloc: Global,
    settings_text: &[u8],
    source: &mut R,
    sink: &mut S,
) -> Exit
    requires source { (R.input source.old).failures < 2 ^ 64 - 1 }
    requires sink { (S.output sink.old).failures < 2 ^ 64 - 1 }
    ensures replays { (met : Met) × Meets (R.input source.old) met (R.input source.new)
        × spec.Replays settings_text.now met (S.output sink.old) (S.output sink.new) result }
{
    match run_input(alloc, settings_text, source) {
        Ok(outcome) => deliver(sink, outcome.output.as_bytes(), exit_of(outcome.end)),
        Err(fault) => Exit::refused(fault),
    }
}
