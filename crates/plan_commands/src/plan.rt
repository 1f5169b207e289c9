//! The command `plan`: from the texts to the report.

ghost use Rattle.std.specs.Prelude.{◌≡◌, ◌-◌, ◌^◌, ◌<◌, IfOk, map};
ghost use Rattle.byte_io.specs.Sides.{Meets, Met};
ghost use Rattle.plan_model.specs.Shown.{Shown};
ghost use Rattle.plan_commands.specs.Plan.{Plans, WritesReport, status_with};

use crate::ending::Exit;
use crate::fault::Fault;
use crate::problem::{Problem, pose};
use bumpalo::Bump;
use byte_io::{Sink, Source};
use level_search::solve;
use plan_model::Answer;
use pool_report::write;
use std::alloc::{AllocError, Global};

/// The best answer to a problem.
fn answer_of(alloc: Global, problem: &Problem) -> Result<Answer, AllocError>
    ensures { IfOk result (λ answer. Shown problem.now.input answer) }
{
    let bump = Bump::new(alloc);
    let solved = solve(alloc, &bump, &problem.input, None)?;
    Ok(solved.answer)
}

/// 0 with a plan, 1 without.
fn status_with(answer: &Answer) -> u8
    ensures { result ≡ status_with answer.now }
{
    match answer {
        Answer::Planned { .. } => 0,
        Answer::NoPlan { .. } => 1,
    }
}

/// Solves the problem and writes the report.
fn report<S: Sink>(alloc: Global, problem: &Problem, sink: &mut S) -> Exit
    requires of_these { problem.now.input.may ≡ problem.now.settings.may }
    requires count { (S.output sink.old).failures < 2 ^ 64 - 1 }
    ensures reports { WritesReport problem.now (S.output sink.old) (S.output sink.new) result }
{
    let answer = match answer_of(alloc, problem) {
        Ok(answer) => answer,
        Err(_) => return Exit::refused(Fault::Memory),
    };
    match write(alloc, &problem.settings, &problem.input, &answer, sink) {
        Ok(()) => Exit::answered(status_with(&answer)),
        Err(error) => Exit::refused(Fault::from(error)),
    }
}

/// Plans for these settings, with all workers live but the lost ones, and for the status text that the
/// source gives, and writes the report of the answer to the sink. The exit status is 0 with a plan and
/// 1 if there is none.
///
/// Faults are looked for in the settings, then in the names of the lost workers, and then in the
/// status text. The source is read only if the first two are right, and no further than the piece
/// with its period line or its first fault; of a text that is too long, one byte above 16,777,216
/// bytes is taken. If the source failed or timed out for the 65th time the fault is `ReadFault`.
///
/// The report is made whole before its first byte goes out: after a `WriteFault`, which comes only
/// if the sink failed, a prefix of it was written and not all of it, and after any other fault nothing.
pub fn plan_text<R: Source, S: Sink>(
    alloc: Global,
    settings_text: &[u8],
    lost: &[&str],
    source: &mut R,
    sink: &mut S,
) -> Exit
    requires source { (R.input source.old).failures < 2 ^ 64 - 1 }
    requires sink { (S.output sink.old).failures < 2 ^ 64 - 1 }
    ensures plans { (met : Met) × Meets (R.input source.old) met (R.input source.new)
        × Plans settings_text.now (map (λ w. w.now) lost.now) met (S.output sink.old) (S.output sink.new) result }
{
    match pose(alloc, settings_text, lost, source) {
        Ok(problem) => report(alloc, &problem, sink),
        Err(fault) => Exit::refused(fault),
    }
}
