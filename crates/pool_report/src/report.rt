//! The report of an answer, and its writing.

ghost use Rattle.std.specs.Prelude.{◌≡◌, ◌+◌, ◌++◌, ◌^◌, ◌-◌, ◌<◌, [], if◌then◌else◌, IfOk, OnOk, All};
ghost use Rattle.std.specs.Prelude.{length, map, option_map, string_bytes};
ghost use Rattle.std.specs.List.{flat_map};
ghost use Rattle.plan_model.specs.Planning.{assigned, is_stranded};
ghost use Rattle.plan_model.specs.Shown.{IsEvidence, Shown};
ghost use Rattle.pool_report.specs.Answered as spec;
ghost use Rattle.pool_report.specs.Outcome.{WroteText};
ghost use Rattle.pool_report.specs.Report.{needed_line, short_if, short_lines, stranded_line, finding_lines, worker_line};
ghost use Rattle.pool_settings.specs.Names.{name_at};

use crate::error::WriteError;
use crate::lines::{push_backlog, push_needed_line, push_short_line, push_worker_line};
use byte_io::{Sink, give_all};
use plan_model::{
    Answer, FuncId, FuncSet, Input, MachineId, Plan, SlotId, TOP_LEVEL, count_neighbours,
    total_need,
};
use pool_settings::Settings;
use std::alloc::{AllocError, Global};
use std::fmt::Write;

fn task_of<'s>(settings: &'s Settings, plan: &Plan, slot: SlotId) -> Option<&'s str>
    ensures { option_map (λ f. f.now) result ≡ option_map (name_at settings.now.functions) (assigned plan.now slot) }
{
    match plan.function_of(slot) {
        Some(function) => Some(settings.function_name(function)),
        None => None,
    }
}

/// The line of a live worker: `work` with its function, or `idle`.
fn push_worker(
    out: &mut String,
    settings: &Settings,
    plan: &Plan,
    worker: (SlotId, MachineId),
) -> Result<(), AllocError>
    requires { worker.1 < length settings.now.machines }
    ensures { OnOk result (string_bytes out.new
        ≡ string_bytes out.old ++ worker_line (spec.reported_worker settings.now (assigned plan.now) worker)) }
{
    let (slot, machine) = worker;
    let name = settings.machine_name(machine);
    let number = slot.number().saturating_sub(settings.first_slot(machine));
    push_worker_line(out, name, number, task_of(settings, plan, slot))
}

fn push_tasks(
    out: &mut String,
    settings: &Settings,
    input: &Input,
    plan: &Plan,
) -> Result<(), AllocError>
    requires { All (λ worker. worker.1 < length settings.now.machines) input.now.live }
    ensures { OnOk result (string_bytes out.new ≡ string_bytes out.old
        ++ flat_map worker_line (map (spec.reported_worker settings.now (assigned plan.now)) input.now.live)) }
{
    for worker in input.live() {
        push_worker(out, settings, plan, *worker)?;
    }
    Ok(())
}

/// The line of a function of the set, with its need at the level.
fn push_needed(
    out: &mut String,
    settings: &Settings,
    input: &Input,
    level: u64,
    function: FuncId,
) -> Result<(), AllocError>
    requires { function < length input.now.least }
    ensures { OnOk result (string_bytes out.new
        ≡ string_bytes out.old ++ needed_line (spec.needed_at settings.now input.now level function)) }
{
    let name = settings.function_name(function);
    push_needed_line(out, name, input.need(level, function))
}

fn push_set(
    out: &mut String,
    settings: &Settings,
    input: &Input,
    level: u64,
    set: &FuncSet,
) -> Result<(), AllocError>
    requires { All (λ f. f < length input.now.least) set.now }
    ensures { OnOk result (string_bytes out.new
        ≡ string_bytes out.old ++ short_lines (spec.short_at settings.now input.now level set.now)) }
{
    let need = total_need(input, level, set);
    let have = count_neighbours(input, set);
    push_short_line(out, need, u64::from(have))?;
    for function in set.functions() {
        push_needed(out, settings, input, level, *function)?;
    }
    Ok(())
}

fn push_evidence(
    out: &mut String,
    settings: &Settings,
    input: &Input,
    backlog: u64,
    short: &Option<FuncSet>,
) -> Result<(), AllocError>
    requires { IsEvidence input.now backlog short.now }
    ensures { OnOk result (string_bytes out.new ≡ string_bytes out.old
        ++ short_if (option_map (spec.short_at settings.now input.now (backlog - 1)) short.now)) }
{
    match short {
        Some(set) => push_set(out, settings, input, backlog - 1, set),
        None => Ok(()),
    }
}

/// The line of the function of this number, if no live worker may do it, with its waiting jobs.
fn push_if_stranded(
    out: &mut String,
    settings: &Settings,
    input: &Input,
    number: u32,
) -> Result<(), AllocError>
    requires { number < length input.now.least }
    ensures { OnOk result (string_bytes out.new ≡ string_bytes out.old
        ++ (if is_stranded input.now number then stranded_line (spec.stranded_at settings.now input.now number) else [])) }
{
    let function = FuncId::new(number);
    if !input.is_stranded(function) {
        return Ok(());
    }
    let name = settings.function_name(function);
    let waiting = input.waiting()[number as usize];
    write!(out, "stranded {name} {waiting}\n")
}

fn push_leftovers(out: &mut String, settings: &Settings, input: &Input) -> Result<(), AllocError>
    ensures { OnOk result (string_bytes out.new
        ≡ string_bytes out.old ++ flat_map stranded_line (spec.stranded_all settings.now input.now)) }
{
    for number in 0..input.functions() as u32 {
        push_if_stranded(out, settings, input, number)?;
    }
    Ok(())
}

fn push_told(
    out: &mut String,
    settings: &Settings,
    input: &Input,
    answer: &Answer,
) -> Result<(), AllocError>
    requires workers { All (λ worker. worker.1 < length settings.now.machines) input.now.live }
    requires shown { Shown input.now answer.now }
    ensures { OnOk result (string_bytes out.new ≡ string_bytes out.old ++ finding_lines (spec.finding settings.now input.now answer.now)) }
{
    match answer {
        Answer::Planned {
            plan,
            backlog,
            short,
        } => {
            push_backlog(out, *backlog)?;
            push_tasks(out, settings, input, plan)?;
            push_evidence(out, settings, input, *backlog, short)
        }
        Answer::NoPlan { short } => {
            out.push_str("noplan\n")?;
            push_set(out, settings, input, TOP_LEVEL, short)
        }
    }
}

/// The text of the report of an answer that is shown for an input with the permissions of these settings: what
/// [`write`] writes, as [the crate's page](crate) gives it.
///
/// The needs in it are those at the level one below the backlog, or at [`TOP_LEVEL`] without a plan, so that
/// each number can be tested by hand: the set needs more workers than may do any of its functions, and by
/// Hall's theorem no plan reaches that level. A live worker that the plan does not list is `idle`. Memory
/// refused is the only error.
pub fn report_text(
    alloc: Global,
    settings: &Settings,
    input: &Input,
    answer: &Answer,
) -> Result<String, AllocError>
    requires of_these { input.now.may ≡ settings.now.may }
    requires shown { Shown input.now answer.now }
    ensures { IfOk result (λ s. string_bytes s ≡ spec.report_text settings.now input.now answer.now) }
{
    input.facts();
    settings.facts();
    let mut out = String::new(alloc);
    out.push_str("report 1\n")?;
    push_told(&mut out, settings, input, answer)?;
    push_leftovers(&mut out, settings, input)?;
    out.push_str("end\n")?;
    Ok(out)
}

/// Writes the report of an answer that is shown for an input with the permissions of these settings: the text of
/// [`report_text`], byte by byte.
///
/// The text is made whole before its first byte goes out. After `WriteFault` so many bytes of it have
/// gone out, which are a prefix and never all of it, and after `Memory` none. A sink that fails is not tried
/// again.
pub fn write<S: Sink>(
    alloc: Global,
    settings: &Settings,
    input: &Input,
    answer: &Answer,
    sink: &mut S,
) -> Result<(), WriteError>
    requires of_these { input.now.may ≡ settings.now.may }
    requires shown { Shown input.now answer.now }
    requires count { (S.output sink.old).failures < 2 ^ 64 - 1 }
    ensures written { WroteText (S.output sink.old) (spec.report_text settings.now input.now answer.now) (S.output sink.new) result }
{
    let text = match report_text(alloc, settings, input, answer) {
        Ok(text) => text,
        Err(_) => return Err(WriteError::Memory),
    };
    match give_all(sink, text.as_bytes()) {
        Ok(()) => Ok(()),
        Err(given) => Err(WriteError::WriteFault(given.count)),
    }
}
