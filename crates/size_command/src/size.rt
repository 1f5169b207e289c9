//! The command `size`: from the texts to the size.

ghost use Rattle.std.specs.Prelude.{◌≡◌, ◌-◌, ◌^◌, ◌<◌, IfOk, map, option_map};
ghost use Rattle.std.specs.Int.NonZero.{non_zero_u32_get};
ghost use Rattle.byte_io.specs.Sides.{Meets, Met};
ghost use Rattle.plan_sizing.specs.Shown.{Right, Shown};
ghost use Rattle.pool_report.specs.Law.{IsOf};
ghost use Rattle.pool_settings.specs.Slots.{slots};
ghost use Rattle.size_command.specs.Sizes as spec;

use crate::farm::farm_of;
use bumpalo::Bump;
use byte_io::{Sink, Source};
use plan_commands::{Exit, Fault, Problem, deliver, pose};
use plan_sizing::{Farm, Size, find_size};
use pool_settings::Settings;
use size_report::size_text;
use std::alloc::{AllocError, Global};
use std::num::NonZeroU32;

/// 0 with an addition, 1 if none serves.
fn status_with(size: &Size) -> u8
    ensures { result ≡ spec.status_with size.now }
{
    match size {
        Size::Enough { .. } => 0,
        Size::Never(_) | Size::TooMany { .. } => 1,
    }
}

/// The size of a farm.
fn size_of(alloc: Global, farm: &Farm) -> Result<Size, AllocError>
    ensures shown { IfOk result (Shown farm.now) }
    ensures right { IfOk result (Right farm.now) }
{
    let bump = Bump::new(alloc);
    find_size(alloc, &bump, farm)
}

/// Writes the text of a size that is shown.
fn write<S: Sink>(
    alloc: Global,
    settings: &Settings,
    farm: &Farm,
    size: &Size,
    sink: &mut S,
) -> Exit
    requires of_these { farm.now.problem.may ≡ settings.now.may }
    requires slots { farm.now.slots ≡ slots settings.now }
    requires shown { Shown farm.now size.now }
    requires count { (S.output sink.old).failures < 2 ^ 64 - 1 }
    ensures { spec.WritesText settings.now farm.now size.now (S.output sink.old) (S.output sink.new) result }
{
    match size_text(alloc, settings, farm, size) {
        Ok(text) => deliver(sink, text.as_bytes(), Exit::answered(status_with(size))),
        Err(_) => Exit::refused(Fault::Memory),
    }
}

/// Finds the size of a farm and writes it.
fn report<S: Sink>(alloc: Global, settings: &Settings, farm: &Farm, sink: &mut S) -> Exit
    requires of_these { farm.now.problem.may ≡ settings.now.may }
    requires slots { farm.now.slots ≡ slots settings.now }
    requires count { (S.output sink.old).failures < 2 ^ 64 - 1 }
    ensures reports { spec.Reports settings.now farm.now (S.output sink.old) (S.output sink.new) result }
{
    match size_of(alloc, farm) {
        Ok(size) => write(alloc, settings, farm, &size, sink),
        Err(_) => Exit::refused(Fault::Memory),
    }
}

/// Writes the size of a problem's farm.
fn answer<S: Sink>(
    alloc: Global,
    settings_text: &[u8],
    level: Option<NonZeroU32>,
    problem: &Problem,
    sink: &mut S,
) -> Exit
    requires of_these { IsOf problem.now.settings problem.now.input }
    requires count { (S.output sink.old).failures < 2 ^ 64 - 1 }
    ensures answers { spec.WritesSize settings_text.now (option_map non_zero_u32_get level) problem.now
        (S.output sink.old) (S.output sink.new) result }
{
    match farm_of(alloc, settings_text, problem, level) {
        Ok(farm) => report(alloc, &problem.settings, &farm, sink),
        Err(_) => Exit::refused(Fault::Memory),
    }
}

/// Finds how many workers are missing, by these settings, with all workers live but the lost ones, and the status text that the source
/// gives, and writes the size to the sink: the least number of workers that have to be added to the machines of the settings so that a plan
/// exists that meets every least number, passes no greatest number, and in which no more jobs wait for each worker of a function than the
/// level says. All that waits for a function counts, even if no live worker may do it. Without a level any plan will do. A greatest
/// number that the settings write stays; one that they leave out grows with the addition.
///
/// The exit status is 0 with an addition, also one of nobody, and 1 if none serves.
///
/// Faults are looked for in the settings, then in the names of the lost workers, and then in the status text, and the source is read, as by
/// [`plan_text`](plan_commands::plan_text). The text is made whole before its first byte goes out: after a `WriteFault`, which comes only
/// if the sink failed, a prefix of it was written and not all of it, and after any other fault nothing.
pub fn size_of_texts<R: Source, S: Sink>(
    alloc: Global,
    settings_text: &[u8],
    level: Option<NonZeroU32>,
    lost: &[&str],
    source: &mut R,
    sink: &mut S,
) -> Exit
    requires source { (R.input source.old).failures < 2 ^ 64 - 1 }
    requires sink { (S.output sink.old).failures < 2 ^ 64 - 1 }
    ensures sizes { (met : Met) × Meets (R.input source.old) met (R.input source.new)
        × spec.Sizes settings_text.now (map (λ w. w.now) lost.now) (option_map non_zero_u32_get level) met
        (S.output sink.old) (S.output sink.new) result }
{
    match pose(alloc, settings_text, lost, source) {
        Ok(problem) => answer(alloc, settings_text, level, &problem, sink),
        Err(fault) => Exit::refused(fault),
    }
}
