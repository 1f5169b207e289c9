//! What a farm of settings cannot do, as lines of one remark each.

ghost use Rattle.std.specs.Prelude.{◌≡◌, ◌++◌, ◌∷◌, ◌<◌, ◌≤◌, ℕ, List, [], All, IfOk, OnOk, length, slice_index, string_bytes, sum_by};
ghost use Rattle.std.specs.List.{flat_map};
ghost use Rattle.settings_command.specs.Farm.{IsShown, IsShortSet, farm, hands};
ghost use Rattle.settings_command.specs.Meaning.{functions, machines};
ghost use Rattle.settings_command.specs.Remarks as spec;

use crate::farm::{farm_of, short_set};
use crate::history::{push_cut_history, push_history};
use crate::jobless::push_jobless;
use crate::portless::push_portless;
use plan_model::{FuncId, FuncSet, Input, MachineId, count_neighbours};
use pool_settings::Settings;
use std::alloc::{AllocError, Global};
use std::fmt::Write;

fn push_if_workerless(
    out: &mut String,
    settings: &Settings,
    machine: MachineId,
) -> Result<(), AllocError>
    requires { machine < length settings.now.machines }
    ensures { OnOk result (string_bytes out.new ≡ string_bytes out.old ++ spec.workerless_remark settings.now machine) }
{
    if settings.workers(machine) > 0 {
        return Ok(());
    }
    let name = settings.machine_name(machine);
    write!(out, "remark machine {name} has no workers\n")
}

/// The machines without workers.
fn push_workerless(out: &mut String, settings: &Settings) -> Result<(), AllocError>
    ensures { OnOk result (string_bytes out.new ≡ string_bytes out.old
        ++ flat_map (spec.workerless_remark settings.now) (machines settings.now)) }
{
    for number in 0..settings.machines() {
        push_if_workerless(out, settings, MachineId::new(number))?;
    }
    Ok(())
}

/// How many workers may do some function of a set.
fn hands_of(settings: &Settings, workers: &Input, set: &FuncSet) -> u32
    requires { workers.now ≡ farm settings.now }
    ensures { result ≡ hands settings.now set.now }
{
    count_neighbours(workers, set)
}

/// How many workers may do a function.
fn hands_for(
    alloc: Global,
    settings: &Settings,
    workers: &Input,
    function: FuncId,
) -> Result<u32, AllocError>
    requires { workers.now ≡ farm settings.now }
    ensures { IfOk result (λ many. many ≡ hands settings.now (function ∷ [])) }
{
    let set = FuncSet::of_rising(vec![in alloc; function]?);
    Ok(hands_of(settings, workers, &set))
}

fn push_few_line(out: &mut String, name: &str, least: u32, many: u32) -> Result<(), AllocError>
    ensures { OnOk result (string_bytes out.new ≡ string_bytes out.old ++ spec.few_line name.now least many) }
{
    write!(
        out,
        "remark function {name} needs {least} workers at the least, and {many} may do it\n"
    )
}

fn push_if_few(
    out: &mut String,
    settings: &Settings,
    workers: &Input,
    function: FuncId,
) -> Result<(), AllocError>
    requires workers { workers.now ≡ farm settings.now }
    requires function { function < length settings.now.functions }
    ensures { OnOk result (string_bytes out.new ≡ string_bytes out.old ++ spec.few_remark settings.now function) }
{
    let least = settings.least(function);
    let many = hands_for(*out.allocator(), settings, workers, function)?;
    if many < least {
        push_few_line(out, settings.function_name(function), least, many)
    } else {
        Ok(())
    }
}

/// The functions that need more workers than may do them.
fn push_few(out: &mut String, settings: &Settings, workers: &Input) -> Result<(), AllocError>
    requires { workers.now ≡ farm settings.now }
    ensures { OnOk result (string_bytes out.new ≡ string_bytes out.old
        ++ flat_map (spec.few_remark settings.now) (functions settings.now)) }
{
    for number in 0..settings.functions() {
        push_if_few(out, settings, workers, FuncId::new(number))?;
    }
    Ok(())
}

fn push_crossed_line(out: &mut String, name: &str, least: u32, most: u32) -> Result<(), AllocError>
    ensures { OnOk result (string_bytes out.new ≡ string_bytes out.old ++ spec.crossed_line name.now least most) }
{
    write!(
        out,
        "remark function {name} needs {least} workers at the least, and may have {most} at the most\n"
    )
}

fn push_if_crossed(
    out: &mut String,
    settings: &Settings,
    function: FuncId,
) -> Result<(), AllocError>
    requires { function < length settings.now.functions }
    ensures { OnOk result (string_bytes out.new ≡ string_bytes out.old ++ spec.crossed_remark settings.now function) }
{
    let least = settings.least(function);
    let most = settings.most(function);
    if most < least {
        push_crossed_line(out, settings.function_name(function), least, most)
    } else {
        Ok(())
    }
}

/// The functions whose least number is above their greatest.
fn push_crossed(out: &mut String, settings: &Settings) -> Result<(), AllocError>
    ensures { OnOk result (string_bytes out.new ≡ string_bytes out.old
        ++ flat_map (spec.crossed_remark settings.now) (functions settings.now)) }
{
    for number in 0..settings.functions() {
        push_if_crossed(out, settings, FuncId::new(number))?;
    }
    Ok(())
}

/// The names of functions, with a space before each.
fn push_names(out: &mut String, settings: &Settings, set: &[FuncId]) -> Result<(), AllocError>
    ensures { OnOk result (string_bytes out.new ≡ string_bytes out.old ++ flat_map (spec.listed_name settings.now) set.now) }
{
    for function in set {
        let name = settings.function_name(*function);
        write!(out, " {name}")?;
    }
    Ok(())
}

/// The least numbers of functions, all together.
fn total_least(settings: &Settings, set: &[FuncId]) -> u64
    requires within { All (λ f. f < length settings.now.functions) set.now }
    requires few { length set.now ≤ 1024 }
    ensures { result ≡ sum_by (slice_index settings.now.least) set.now }
{
    let mut total = 0;
    for function in set {
        total += u64::from(settings.least(*function));
    }
    total
}

/// The least numbers of a set that is short, all together.
fn least_of(settings: &Settings, set: &FuncSet) -> u64
    requires { IsShortSet settings.now set.now }
    ensures { result ≡ sum_by (slice_index settings.now.least) set.now }
{
    settings.facts();
    total_least(settings, set.functions())
}

fn push_short_end(out: &mut String, least: u64, many: u32) -> Result<(), AllocError>
    ensures { OnOk result (string_bytes out.new ≡ string_bytes out.old ++ spec.short_end least many) }
{
    write!(out, ": {least} workers, and {many} may do them\n")
}

fn push_short_start(out: &mut String, settings: &Settings, set: &FuncSet) -> Result<(), AllocError>
    ensures { OnOk result (string_bytes out.new ≡ string_bytes out.old ++ spec.short_start settings.now set.now) }
{
    out.push_str("remark no plan meets the least numbers of")?;
    push_names(out, settings, set.functions())
}

fn push_short(
    out: &mut String,
    settings: &Settings,
    workers: &Input,
    set: &FuncSet,
) -> Result<(), AllocError>
    requires workers { workers.now ≡ farm settings.now }
    requires short { IsShortSet settings.now set.now }
    ensures { OnOk result (string_bytes out.new ≡ string_bytes out.old ++ spec.short_line settings.now set.now) }
{
    let least = least_of(settings, set);
    let many = hands_of(settings, workers, set);
    push_short_start(out, settings, set)?;
    push_short_end(out, least, many)
}

/// The functions whose least numbers no plan meets, if there are any.
fn push_if_short(
    out: &mut String,
    settings: &Settings,
    workers: &Input,
    short: &Option<FuncSet>,
) -> Result<(), AllocError>
    requires workers { workers.now ≡ farm settings.now }
    requires shown { IsShown settings.now short.now }
    ensures { OnOk result (string_bytes out.new ≡ string_bytes out.old ++ spec.short_remark settings.now short.now) }
{
    match short {
        Some(set) => push_short(out, settings, workers, set),
        None => Ok(()),
    }
}

/// The remarks on the farm alone, by kind.
fn push_limits(
    out: &mut String,
    settings: &Settings,
    workers: &Input,
    short: &Option<FuncSet>,
) -> Result<(), AllocError>
    requires workers { workers.now ≡ farm settings.now }
    requires shown { IsShown settings.now short.now }
    ensures { OnOk result (string_bytes out.new ≡ string_bytes out.old ++ spec.limit_remarks settings.now short.now) }
{
    push_portless(out, settings)?;
    push_workerless(out, settings)?;
    push_few(out, settings, workers)?;
    push_crossed(out, settings)?;
    push_if_short(out, settings, workers, short)
}

/// What a farm of these settings cannot do, however it is run, a line each: a job server without a port, the machines without workers, the
/// functions that need more workers than may do them, those whose least number is above their greatest, and the functions whose least
/// numbers no plan meets together. The only error is out of memory.
fn push_limit_remarks(out: &mut String, settings: &Settings) -> Result<(), AllocError>
    ensures { OnOk result ((text : List ℕ) × spec.AreLimitRemarks settings.now text
        × (string_bytes out.new ≡ string_bytes out.old ++ text)) }
{
    let alloc = *out.allocator();
    let workers = farm_of(alloc, settings)?;
    let short = short_set(alloc, settings, &workers)?;
    push_limits(out, settings, &workers, &short)?;
    Ok(())
}

/// What a farm of these settings cannot do under `run`: the same, a history that one job of each worker may fill between two attempts to
/// plan, and the functions that `run` has no job for. The only error is out of memory.
pub fn push_run_remarks(out: &mut String, settings: &Settings) -> Result<(), AllocError>
    ensures { OnOk result ((text : List ℕ) × spec.AreRunRemarks settings.now text
        × (string_bytes out.new ≡ string_bytes out.old ++ text)) }
{
    push_limit_remarks(out, settings)?;
    push_history(out, settings)?;
    push_jobless(out, settings)?;
    Ok(())
}

/// What a farm of these settings cannot do under `serve`: the same without what is of `run`, and a history without room for an attempt to
/// plan while each worker has a job. The only error is out of memory.
pub fn push_serve_remarks(out: &mut String, settings: &Settings) -> Result<(), AllocError>
    ensures { OnOk result ((text : List ℕ) × spec.AreServeRemarks settings.now text
        × (string_bytes out.new ≡ string_bytes out.old ++ text)) }
{
    push_limit_remarks(out, settings)?;
    push_cut_history(out, settings)?;
    Ok(())
}
