//! The command `check`: whether a report is shown.

ghost use Rattle.std.specs.Prelude.{◌≡◌, ◌-◌, ◌^◌, ◌<◌, IfOk, IsTrue, ◌↔◌, map, string_bytes};
ghost use Rattle.byte_io.specs.Sides.{Meets, Met};
ghost use Rattle.plan_model.specs.Shown.{Shown};
ghost use Rattle.pool_report.specs.Answered as answered;
ghost use Rattle.plan_commands.specs.Check as spec;
ghost use Rattle.plan_commands.specs.Problem.{load_of};

use crate::ending::{Exit, deliver};
use crate::fault::Fault;
use crate::problem::{Problem, pose_text};
use byte_io::{Sink, Source};
use devices::read_whole;
use plan_model::{Answer, Reason, check};
use pool_report::{read, report_text};
use refusal::Labelled;
use std::alloc::{AllocError, Global};
use std::fmt::Write;

/// What a report is found to be.
#[derive(Clone, Copy, Debug, PartialEq, Eq)]
pub enum Verdict {
    /// It gives an answer that is shown, and is the report of that answer.
    Shown,
    /// It gives an answer that is shown, and is not the report of that answer.
    OtherText,
    /// It gives an answer that is not shown. This is the first reason why not.
    NotShown(Reason),
}

impl Verdict {
    /// The exit status: 0 if the report is shown, else 1.
    pub fn status(self) -> u8
        ensures { result ≡ spec.verdict_status self }
    {
        match self {
            Verdict::Shown => 0,
            Verdict::OtherText | Verdict::NotShown(_) => 1,
        }
    }
}

/// Whether the text is the report of the answer.
fn is_report(
    alloc: Global,
    problem: &Problem,
    answer: &Answer,
    given_text: &[u8],
) -> Result<bool, AllocError>
    requires of_these { problem.now.input.may ≡ problem.now.settings.may }
    requires shown { Shown problem.now.input answer.now }
    ensures { IfOk result (λ same.
        IsTrue same ↔ (given_text.now ≡ answered.report_text problem.now.settings problem.now.input answer.now)) }
{
    let text = report_text(alloc, &problem.settings, &problem.input, answer)?;
    Ok(given_text == text.as_bytes())
}

/// What the report is found to be, for this problem.
fn judge(alloc: Global, problem: &Problem, given_text: &[u8]) -> Result<Verdict, Fault>
    requires { problem.now.input.may ≡ problem.now.settings.may }
    ensures { spec.Judges problem.now given_text.now result }
{
    let answer = read(alloc, &problem.settings, given_text)?;
    if let Err(reason) = check(&problem.input, &answer) {
        return Ok(Verdict::NotShown(reason));
    }
    if is_report(alloc, problem, &answer, given_text)? {
        Ok(Verdict::Shown)
    } else {
        Ok(Verdict::OtherText)
    }
}

/// The line of a verdict.
fn verdict_line(alloc: Global, verdict: Verdict) -> Result<String, AllocError>
    ensures { IfOk result (λ line. string_bytes line ≡ spec.verdict_line verdict) }
{
    let mut line = String::new(alloc);
    match verdict {
        Verdict::Shown => line.push_str("shown\n")?,
        Verdict::OtherText => line.push_str("not shown 7 Text\n")?,
        Verdict::NotShown(reason) => {
            let label = reason.label();
            write!(line, "not shown {} {}\n", label.number(), label.name())?;
        }
    }
    Ok(line)
}

/// Writes the line of a verdict.
fn pronounce<S: Sink>(alloc: Global, verdict: Verdict, sink: &mut S) -> Exit
    requires { (S.output sink.old).failures < 2 ^ 64 - 1 }
    ensures { spec.Pronounces verdict (S.output sink.old) (S.output sink.new) result }
{
    match verdict_line(alloc, verdict) {
        Ok(line) => deliver(sink, line.as_bytes(), Exit::answered(verdict.status())),
        Err(_) => Exit::refused(Fault::Memory),
    }
}

/// What the report that the source gives is found to be. Faults are looked for in the settings, the
/// lost workers, the status text, the source and the report.
fn examine<R: Source>(
    alloc: Global,
    settings_text: &[u8],
    status_text: &[u8],
    lost: &[&str],
    source: &mut R,
) -> Result<Verdict, Fault>
    requires { (R.input source.old).failures < 2 ^ 64 - 1 }
    ensures { (met : Met) × Meets (R.input source.old) met (R.input source.new)
        × spec.ExaminesText settings_text.now (map (λ w. w.now) lost.now) (load_of status_text.now) met result }
{
    let problem = pose_text(alloc, settings_text, lost, status_text)?;
    let report = read_whole(alloc, source)?;
    judge(alloc, &problem, &report)
}

/// Says whether the report that the source gives is shown, by the settings, the lost workers and the
/// status text alone: writes `shown` if it gives an answer that is shown and is the report of that
/// answer, `not shown 7 Text` if only the latter fails, and else `not shown` with the number and
/// the name of the first reason why the answer is not shown. The exit status is 0 with `shown` and 1
/// without.
///
/// Faults are looked for in the settings, then in the names of the lost workers, in the status text, in
/// the source, which gives at most 16,777,216 bytes, and in the report. The source is read only if the
/// first three are right, and up to its end; if it failed or timed out for the 65th time the fault is
/// `ReadFault`. After a `WriteFault`, which comes only if the sink failed, a prefix of the line was
/// written and not all of it, and after any other fault nothing.
pub fn check_text<R: Source, S: Sink>(
    alloc: Global,
    settings_text: &[u8],
    status_text: &[u8],
    lost: &[&str],
    source: &mut R,
    sink: &mut S,
) -> Exit
    requires source { (R.input source.old).failures < 2 ^ 64 - 1 }
    requires sink { (S.output sink.old).failures < 2 ^ 64 - 1 }
    ensures checks { (met : Met) × Meets (R.input source.old) met (R.input source.new)
        × spec.ChecksText settings_text.now (map (λ w. w.now) lost.now) (load_of status_text.now) met
        (S.output sink.old) (S.output sink.new) result }
{
    match examine(alloc, settings_text, status_text, lost, source) {
        Ok(verdict) => pronounce(alloc, verdict, sink),
        Err(fault) => Exit::refused(fault),
    }
}
