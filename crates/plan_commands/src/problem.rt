//! The planning problem that settings, lost workers and a status text pose.

ghost use Rattle.std.specs.Prelude.{◌≡◌, ◌≢◌, ◌-◌, ◌^◌, ◌<◌, IfErr, IfOk, IfSome, false, is_some, map, not, true};
ghost use Rattle.byte_io.specs.Sides.{Meets, Met};
ghost use Rattle.pool_report.specs.Law.{IsOf};
ghost use Rattle.pool_settings.specs.Planning.{instance_of, waiting_of};
ghost use Rattle.plan_commands.specs.Posing.{GivesLoad, Poses, PosesText};
ghost use Rattle.plan_commands.specs.Problem as spec;

use crate::fault::Fault;
use crate::reading::read_settings;
use byte_io::Source;
use devices::LIMIT;
use gear_status::{Load, load_of, read_status_within};
use plan_model::Input;
use pool_settings::Settings;
use std::alloc::{AllocError, Global};

/// What there is to plan for, with the settings that name its workers and functions.
#[derive(Drop)]
pub struct Problem {
    pub settings: Settings,
    pub input: Input,
}

/// The place of the first lost worker that is none of the settings.
fn first_unknown(settings: &Settings, lost: &[&str]) -> Option<usize>
    ensures unknown { IfSome result (λ place. place ≡ spec.unknown_place settings.now (map (λ w. w.now) lost.now)) }
    ensures any { is_some result ≡ not (spec.are_workers settings.now (map (λ w. w.now) lost.now)) }
{
    for (place, name) in lost.iter().enumerate() {
        match settings.slot_named(name.as_bytes()) {
            Some(_) => {}
            None => return Some(place),
        }
    }
    None
}

/// By slot, whether its worker is live: all are but the lost ones. A lost worker that is none of the settings is told before any memory is
/// asked for.
fn live_marks(alloc: Global, settings: &Settings, lost: &[&str]) -> Result<Vec<bool>, Fault>
    ensures ok { IfOk result (λ marks. marks.items ≡ spec.live_marks settings.now (map (λ w. w.now) lost.now)) }
    ensures known { IfOk result (λ _. spec.are_workers settings.now (map (λ w. w.now) lost.now) ≡ true) }
    ensures unknown { IfErr result (λ f. f ≢ Fault.Memory →
        (f ≡ Fault.UnknownWorker (spec.unknown_place settings.now (map (λ w. w.now) lost.now)))
        × (spec.are_workers settings.now (map (λ w. w.now) lost.now) ≡ false)) }
    ensures memory { IfErr result (λ f. f ≡ Fault.Memory → spec.are_workers settings.now (map (λ w. w.now) lost.now) ≡ true) }
{
    if let Some(place) = first_unknown(settings, lost) {
        return Err(Fault::UnknownWorker(place));
    }
    let mut marks = vec![in alloc; true; settings.slots() as usize]?;
    for name in lost {
        match settings.slot_named(name.as_bytes()) {
            Some(slot) => marks[slot.number() as usize] = false,
            None => unreachable!(),
        }
    }
    Ok(marks)
}

/// Reads a status text of no more than `LIMIT` bytes, up to the piece that decides.
fn read_load<S: Source>(alloc: Global, source: &mut S) -> Result<Load, Fault>
    requires { (S.input source.old).failures < 2 ^ 64 - 1 }
    ensures { (met : Met) × Meets (S.input source.old) met (S.input source.new) × GivesLoad met result }
{
    match read_status_within(alloc, source, LIMIT) {
        Ok(Some(load)) => Ok(load),
        Ok(None) => Err(Fault::TooLong),
        Err(error) => Err(Fault::from(error)),
    }
}

fn input_of(
    alloc: Global,
    settings: &Settings,
    live: &[bool],
    load: &Load,
) -> Result<Input, AllocError>
    ensures { IfOk result (λ input. input ≡ instance_of settings.now live.now (waiting_of settings.now load.now)) }
{
    let waiting = settings.waiting_jobs(alloc, load)?;
    settings.input(alloc, live, &waiting)
}

/// The problem that the settings, the lost workers and the status text of the source pose. Faults are
/// looked for in this order, and the source is read only if the first two are right.
pub fn pose<S: Source>(
    alloc: Global,
    settings_text: &[u8],
    lost: &[&str],
    source: &mut S,
) -> Result<Problem, Fault>
    requires count { (S.input source.old).failures < 2 ^ 64 - 1 }
    ensures posed { (met : Met) × Meets (S.input source.old) met (S.input source.new)
        × Poses settings_text.now (map (λ w. w.now) lost.now) met result }
    ensures of_these { IfOk result (λ p. p.input.may ≡ p.settings.may) }
    ensures of_settings { IfOk result (λ p. IsOf p.settings p.input) }
{
    let settings = read_settings(alloc, settings_text)?;
    let live = live_marks(alloc, &settings, lost)?;
    let load = read_load(alloc, source)?;
    let input = input_of(alloc, &settings, &live, &load)?;
    Ok(Problem { settings, input })
}

/// The problem that the settings, the lost workers and a status text that is there whole pose. Faults
/// are looked for in this order.
pub fn pose_text(
    alloc: Global,
    settings_text: &[u8],
    lost: &[&str],
    status_text: &[u8],
) -> Result<Problem, Fault>
    ensures posed { PosesText settings_text.now (map (λ w. w.now) lost.now) (spec.load_of status_text.now) result }
    ensures of_these { IfOk result (λ p. p.input.may ≡ p.settings.may) }
    ensures of_settings { IfOk result (λ p. IsOf p.settings p.input) }
{
    let settings = read_settings(alloc, settings_text)?;
    let live = live_marks(alloc, &settings, lost)?;
    let load = load_of(alloc, status_text)?;
    let input = input_of(alloc, &settings, &live, &load)?;
    Ok(Problem { settings, input })
}
