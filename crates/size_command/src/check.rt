//! The command `check-size`: whether the text of a size is shown.

ghost use Rattle.std.specs.Prelude.{◌≡◌, ◌-◌, ◌^◌, ◌<◌, IfOk, IsTrue, ◌↔◌, map, option_map, string_bytes};
ghost use Rattle.std.specs.Int.NonZero.{non_zero_u32_get};
ghost use Rattle.byte_io.specs.Sides.{Meets, Met};
ghost use Rattle.plan_commands.specs.Problem.{load_of};
ghost use Rattle.plan_sizing.specs.Shown.{Shown};
ghost use Rattle.pool_report.specs.Law.{IsOf};
ghost use Rattle.pool_settings.specs.Slots.{slots};
ghost use Rattle.size_command.specs.CheckSizes as spec;
ghost use Rattle.size_report.specs.Text as meant;

use crate::farm::farm_of;
use byte_io::{Sink, Source};
use devices::read_whole;
use plan_commands::{Exit, Fault, Problem, deliver, pose_text};
use plan_sizing::{Farm, Flaw, Size, check_size};
use pool_settings::Settings;
use refusal::Labelled;
use size_report::{read_size, size_text};
use std::alloc::{AllocError, Global};
use std::fmt::Write;
use std::num::NonZeroU32;

/// What the text of a size is found to be.
#[derive(Clone, Copy, Debug, PartialEq, Eq)]
pub enum SizeVerdict {
    /// It gives a size that is shown, and is the text of that size.
    Shown,
    /// It gives a size that is shown, and is not the text of that size.
    OtherText,
    /// It gives a size that is not shown. This is the first flaw of it.
    NotShown(Flaw),
}

impl SizeVerdict {
    /// The exit status: 0 if the size is shown, else 1.
    pub fn status(self) -> u8
        ensures { result ≡ spec.size_verdict_status self }
    {
        match self {
            SizeVerdict::Shown => 0,
            SizeVerdict::OtherText | SizeVerdict::NotShown(_) => 1,
        }
    }
}

/// Whether the text is that of the size.
fn is_text(
    alloc: Global,
    settings: &Settings,
    farm: &Farm,
    size: &Size,
    given_text: &[u8],
) -> Result<bool, AllocError>
    requires of_these { farm.now.problem.may ≡ settings.now.may }
    requires slots { farm.now.slots ≡ slots settings.now }
    requires shown { Shown farm.now size.now }
    ensures { IfOk result (λ same. IsTrue same ↔ (given_text.now ≡ meant.size_text settings.now farm.now size.now)) }
{
    let text = size_text(alloc, settings, farm, size)?;
    Ok(given_text == text.as_bytes())
}

/// What the text that gives a size is found to be, for this farm.
fn find(
    alloc: Global,
    settings: &Settings,
    farm: &Farm,
    size: &Size,
    given_text: &[u8],
) -> Result<SizeVerdict, AllocError>
    requires of_these { farm.now.problem.may ≡ settings.now.may }
    requires slots { farm.now.slots ≡ slots settings.now }
    ensures { IfOk result (spec.FindsSize settings.now farm.now given_text.now size.now) }
{
    if let Err(flaw) = check_size(farm, size) {
        return Ok(SizeVerdict::NotShown(flaw));
    }
    if is_text(alloc, settings, farm, size, given_text)? {
        Ok(SizeVerdict::Shown)
    } else {
        Ok(SizeVerdict::OtherText)
    }
}

/// What the text is found to be, for the farm of this problem.
fn judge(
    alloc: Global,
    settings_text: &[u8],
    level: Option<NonZeroU32>,
    problem: &Problem,
    given_text: &[u8],
) -> Result<SizeVerdict, Fault>
    requires { IsOf problem.now.settings problem.now.input }
    ensures { spec.JudgesSize settings_text.now (option_map non_zero_u32_get level) problem.now given_text.now result }
{
    let size = read_size(alloc, &problem.settings, given_text)?;
    let farm = farm_of(alloc, settings_text, problem, level)?;
    let found = find(alloc, &problem.settings, &farm, &size, given_text)?;
    Ok(found)
}

/// The line of a verdict.
fn verdict_line(alloc: Global, verdict: SizeVerdict) -> Result<String, AllocError>
    ensures { IfOk result (λ line. string_bytes line ≡ spec.size_verdict_line verdict) }
{
    let mut line = String::new(alloc);
    match verdict {
        SizeVerdict::Shown => line.push_str("shown\n")?,
        SizeVerdict::OtherText => line.push_str("not shown 7 Text\n")?,
        SizeVerdict::NotShown(flaw) => {
            let label = flaw.label();
            write!(line, "not shown {} {}\n", label.number(), label.name())?;
        }
    }
    Ok(line)
}

/// Writes the line of a verdict.
fn pronounce<S: Sink>(alloc: Global, verdict: SizeVerdict, sink: &mut S) -> Exit
    requires { (S.output sink.old).failures < 2 ^ 64 - 1 }
    ensures { spec.PronouncesSize verdict (S.output sink.old) (S.output sink.new) result }
{
    match verdict_line(alloc, verdict) {
        Ok(line) => deliver(sink, line.as_bytes(), Exit::answered(verdict.status())),
        Err(_) => Exit::refused(Fault::Memory),
    }
}

/// The texts that `check-size` is given, and the level.
#[derive(Clone, Copy)]
pub struct Asked<'t> {
    /// The text of the settings file.
    pub settings: &'t [u8],
    /// The status text that the size was made from.
    pub status: &'t [u8],
    /// How many jobs may wait for each worker of a function; without it any plan will do.
    pub level: Option<NonZeroU32>,
    /// Workers that are not live.
    pub lost: &'t [&'t str],
}

/// What the text that the source gives is found to be. Faults are looked for in the settings, the lost workers, the status text, the
/// source and the text.
fn examine<R: Source>(alloc: Global, asked: Asked<'_>, source: &mut R) -> Result<SizeVerdict, Fault>
    requires { (R.input source.old).failures < 2 ^ 64 - 1 }
    ensures { (met : Met) × Meets (R.input source.old) met (R.input source.new)
        × spec.ExaminesSizeText asked.entry.settings.now (option_map non_zero_u32_get asked.entry.level)
        (map (λ w. w.now) asked.entry.lost.now) (load_of asked.entry.status.now) met result }
{
    let problem = pose_text(alloc, asked.settings, asked.lost, asked.status)?;
    let text = read_whole(alloc, source)?;
    judge(alloc, asked.settings, asked.level, &problem, &text)
}

/// Says whether the size that the source gives is shown, by what is asked alone, and without a planner: writes `shown` if the text gives
/// a size that is shown and is the text of that size, `not shown 7 Text` if only the latter fails, and else `not shown` with the number
/// and the name of the first [`Flaw`] of the size. The exit status is 0 with `shown` and 1 without.
///
/// Faults are looked for in the settings, then in the names of the lost workers, in the status text, in the source, which gives at most
/// 16,777,216 bytes, and in the text of the size. The source is read only if the first three are right, and up to its end; if it
/// failed or timed out for the 65th time the fault is `ReadFault`. After a `WriteFault`, which comes only if the sink failed, a prefix of
/// the line was written and not all of it, and after any other fault nothing.
pub fn check_size_text<R: Source, S: Sink>(
    alloc: Global,
    asked: Asked<'_>,
    source: &mut R,
    sink: &mut S,
) -> Exit
    requires source { (R.input source.old).failures < 2 ^ 64 - 1 }
    requires sink { (S.output sink.old).failures < 2 ^ 64 - 1 }
    ensures checks { (met : Met) × Meets (R.input source.old) met (R.input source.new)
        × spec.ChecksSizeText asked.entry.settings.now (option_map non_zero_u32_get asked.entry.level)
        (map (λ w. w.now) asked.entry.lost.now) (load_of asked.entry.status.now) met
        (S.output sink.old) (S.output sink.new) result }
{
    match examine(alloc, asked, source) {
        Ok(verdict) => pronounce(alloc, verdict, sink),
        Err(fault) => Exit::refused(fault),
    }
}
