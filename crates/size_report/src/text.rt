//! The text of a size.

ghost use Rattle.std.specs.Prelude.{◌≡◌, ◌++◌, ◌+◌, ◌<◌, ◌≤◌, All, IfOk, OnOk, count_by, length, option_map, string_bytes};
ghost use Rattle.std.specs.List.{flat_map};
ghost use Rattle.std.specs.List.Sorted.{IsNonDecreasing};
ghost use Rattle.plan_sizing.specs.Shown.{IsEvidence, Right, Shown};
ghost use Rattle.plan_sizing.specs.Sizing.{need};
ghost use Rattle.pool_report.specs.Report.{needed_line, short_if, short_lines};
ghost use Rattle.pool_settings.specs.Names.{name_at};
ghost use Rattle.pool_settings.specs.Slots.{slots};
ghost use Rattle.size_report.specs.Text as spec;

use crate::workers::worker_of;
use plan_model::{FuncId, FuncSet, MachineId, Plan, SlotId, count_neighbours};
use plan_sizing::{Farm, Obstacle, Size, shown_is_right, total_need};
use pool_report::{push_needed_line, push_short_line, push_worker_line};
use pool_settings::Settings;
use std::alloc::{AllocError, Global};
use std::fmt::Write;

fn push_level(out: &mut String, level: Option<u32>) -> Result<(), AllocError>
    ensures { OnOk result (string_bytes out.new ≡ string_bytes out.old ++ spec.level_line level) }
{
    match level {
        Some(level) => write!(out, "level {level}\n"),
        None => out.push_str("level -\n"),
    }
}

/// How many of the added workers are on a machine.
fn added_on(added: &[MachineId], machine: MachineId) -> usize
    ensures { result ≡ spec.added_on added.now machine }
{
    added.iter().filter(|other| **other == machine).count()
}

/// The line of the machine of this number, if it gets workers.
fn push_on_if(
    out: &mut String,
    settings: &Settings,
    added: &[MachineId],
    number: u32,
) -> Result<(), AllocError>
    ensures { OnOk result (string_bytes out.new ≡ string_bytes out.old ++ spec.on_if settings.now added.now number) }
{
    let machine = MachineId::new(number);
    let many = added_on(added, machine);
    if many == 0 {
        return Ok(());
    }
    let name = settings.machine_name(machine);
    write!(out, "on {name} {many}\n")
}

fn push_on_lines(
    out: &mut String,
    settings: &Settings,
    added: &[MachineId],
) -> Result<(), AllocError>
    ensures { OnOk result (string_bytes out.new ≡ string_bytes out.old ++ spec.on_lines settings.now added.now) }
{
    for number in 0..settings.machines() {
        push_on_if(out, settings, added, number)?;
    }
    Ok(())
}

/// The line of a worker, if the plan gives it a function.
fn push_task_if(
    out: &mut String,
    settings: &Settings,
    added: &[MachineId],
    entry: (SlotId, Option<FuncId>),
) -> Result<(), AllocError>
    requires rising { IsNonDecreasing added.now }
    requires there { All (λ machine. machine < length settings.now.machines) added.now }
    requires few { length added.now ≤ 4096 }
    requires slot { entry.0 < slots settings.now + length added.now }
    ensures { OnOk result (string_bytes out.new ≡ string_bytes out.old ++ spec.task_if settings.now added.now entry) }
{
    let (slot, function) = entry;
    let Some(function) = function else {
        return Ok(());
    };
    let (machine, number) = worker_of(settings, added, slot);
    push_worker_line(
        out,
        settings.machine_name(machine),
        number,
        Some(settings.function_name(function)),
    )
}

fn push_tasks(
    out: &mut String,
    settings: &Settings,
    added: &[MachineId],
    plan: &Plan,
) -> Result<(), AllocError>
    requires rising { IsNonDecreasing added.now }
    requires there { All (λ machine. machine < length settings.now.machines) added.now }
    requires few { length added.now ≤ 4096 }
    requires slots { All (λ entry. entry.0 < slots settings.now + length added.now) plan.now }
    ensures { OnOk result (string_bytes out.new
        ≡ string_bytes out.old ++ flat_map (spec.task_if settings.now added.now) plan.now) }
{
    for entry in plan.entries() {
        push_task_if(out, settings, added, *entry)?;
    }
    Ok(())
}

/// The line of a function of the set, with its need.
fn push_needed(
    out: &mut String,
    settings: &Settings,
    farm: &Farm,
    function: FuncId,
) -> Result<(), AllocError>
    requires { function < length farm.now.problem.least }
    ensures { OnOk result (string_bytes out.new
        ≡ string_bytes out.old ++ needed_line (spec.needed_of settings.now farm.now function)) }
{
    push_needed_line(out, settings.function_name(function), farm.need(function))
}

fn push_set(
    out: &mut String,
    settings: &Settings,
    farm: &Farm,
    set: &FuncSet,
) -> Result<(), AllocError>
    requires { All (λ f. f < length farm.now.problem.least) set.now }
    ensures { OnOk result (string_bytes out.new
        ≡ string_bytes out.old ++ short_lines (spec.short_of settings.now farm.now set.now)) }
{
    let need = total_need(farm, set);
    let have = count_neighbours(farm.input(), set);
    push_short_line(out, need, u64::from(have))?;
    for function in set.functions() {
        push_needed(out, settings, farm, *function)?;
    }
    Ok(())
}

fn push_set_if(
    out: &mut String,
    settings: &Settings,
    farm: &Farm,
    short: &Option<FuncSet>,
    many: usize,
) -> Result<(), AllocError>
    requires { IsEvidence farm.now many short.now }
    ensures { OnOk result (string_bytes out.new
        ≡ string_bytes out.old ++ short_if (option_map (spec.short_of settings.now farm.now) short.now)) }
{
    match short {
        Some(set) => push_set(out, settings, farm, set),
        None => Ok(()),
    }
}

fn push_obstacle(
    out: &mut String,
    settings: &Settings,
    obstacle: Obstacle,
) -> Result<(), AllocError>
    ensures { OnOk result (string_bytes out.new ≡ string_bytes out.old ++ spec.obstacle_line settings.now obstacle) }
{
    match obstacle {
        Obstacle::AboveMost {
            function,
            need,
            most,
        } => {
            let name = settings.function_name(function);
            write!(out, "cannot 1 {name} need {need} most {most}\n")
        }
        Obstacle::NoMachine { function, need } => {
            let name = settings.function_name(function);
            write!(out, "cannot 2 {name} need {need}\n")
        }
    }
}

fn push_too_many(out: &mut String, many: u64) -> Result<(), AllocError>
    ensures { OnOk result (string_bytes out.new ≡ string_bytes out.old ++ spec.too_many_line many) }
{
    write!(out, "cannot 3 add {many}\n")
}

fn push_answer(
    out: &mut String,
    settings: &Settings,
    farm: &Farm,
    size: &Size,
) -> Result<(), AllocError>
    requires of_these { farm.now.problem.may ≡ settings.now.may }
    requires slots { farm.now.slots ≡ slots settings.now }
    requires shown { Shown farm.now size.now }
    ensures { OnOk result (string_bytes out.new ≡ string_bytes out.old ++ spec.answer_lines settings.now farm.now size.now) }
{
    farm.facts();
    settings.facts();
    match size {
        Size::Enough { added, plan, short } => {
            let machines = added.machines();
            let many = machines.len();
            write!(out, "add {many}\n")?;
            push_on_lines(out, settings, machines)?;
            push_tasks(out, settings, machines, plan)?;
            push_set_if(out, settings, farm, short, many)
        }
        Size::Never(obstacle) => push_obstacle(out, settings, *obstacle),
        Size::TooMany { added, short } => {
            push_too_many(out, *added)?;
            push_set(out, settings, farm, short)
        }
    }
}

/// The text of a size that is shown for a farm with the permissions and the workers of these settings, as [the crate's page](crate) gives
/// it.
///
/// A size that is shown is right: an addition has its plan, which serves, and no smaller one has a plan that serves; and if none serves,
/// or none within the limit, none does. The text has both sides, so that each number can be tested by hand: the workers of the plan, and a
/// set of functions that needs so many more workers than may do any of its functions. A worker that the plan gives no function has no line.
/// Memory refused is the only error.
pub fn size_text(
    alloc: Global,
    settings: &Settings,
    farm: &Farm,
    size: &Size,
) -> Result<String, AllocError>
    requires of_these { farm.now.problem.may ≡ settings.now.may }
    requires slots { farm.now.slots ≡ slots settings.now }
    requires shown { Shown farm.now size.now }
    ensures text { IfOk result (λ text. string_bytes text ≡ spec.size_text settings.now farm.now size.now) }
    ensures right { Right farm.now size.now }
{
    shown_is_right(farm, size);
    let mut out = String::new(alloc);
    out.push_str("size 1\n")?;
    push_level(&mut out, farm.level())?;
    push_answer(&mut out, settings, farm, size)?;
    out.push_str("end\n")?;
    Ok(out)
}
