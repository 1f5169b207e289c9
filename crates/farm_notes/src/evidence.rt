//! The evidence of an answer, as texts with which anybody can check it.

ghost use Rattle.std.specs.Prelude.{◌≡◌, ◌<◌, ◌++◌, IfOk, OnOk, length, map, string_bytes};
ghost use Rattle.farm_notes.specs.Evidence as spec;
ghost use Rattle.plan_model.specs.Planning.{is_live};
ghost use Rattle.pool_supervisor.specs.Steps.{IsMadeOf};
ghost use Rattle.pool_report.specs.Answered.{report_text};
ghost use Rattle.pool_settings.specs.Slots as names;

use farm_page::Evidence;
use plan_model::{Certified, FuncId, Input, SlotId};
use pool_report::report_text;
use pool_settings::Settings;
use std::alloc::{AllocError, Global};
use std::fmt::Write;

/// Adds the line of a function for which so many jobs wait.
fn push_status_line(out: &mut String, name: &str, waiting: u32) -> Result<(), AllocError>
    ensures { OnOk result (string_bytes out.new ≡ string_bytes out.old ++ spec.status_line name.now waiting) }
{
    write!(out, "{name}\t{waiting}\t0\t0\n")
}

/// Adds the lines of the functions of the settings.
fn push_status_lines(
    out: &mut String,
    settings: &Settings,
    waiting: &[u32],
) -> Result<(), AllocError>
    requires all { length waiting.now ≡ length settings.now.functions }
    ensures { OnOk result (string_bytes out.new ≡ string_bytes out.old ++ spec.status_lines settings.now.functions waiting.now) }
{
    for number in 0..settings.functions() {
        let name = settings.function_name(FuncId::new(number));
        push_status_line(out, name, waiting[number as usize])?;
    }
    Ok(())
}

/// A status text in which so many jobs wait for each function of the settings, as a job server would write it. Whoever reads it finds so
/// many. The only error is out of memory.
pub fn status_text(
    alloc: Global,
    settings: &Settings,
    waiting: &[u32],
) -> Result<Vec<u8>, AllocError>
    requires all { length waiting.now ≡ length settings.now.functions }
    ensures text { IfOk result (λ text. text.items ≡ spec.status_text settings.now.functions waiting.now) }
    ensures read_back { IfOk result (λ text. spec.IsReadAs settings.now waiting.now text.items) }
{
    settings.facts();
    let mut out = String::new(alloc);
    push_status_lines(&mut out, settings, waiting)?;
    out.push_str(".\n")?;
    Ok(out.into_bytes())
}

/// The report of an answer.
fn report_of(
    alloc: Global,
    settings: &Settings,
    certified: &Certified,
) -> Result<Vec<u8>, AllocError>
    requires of_these { IsMadeOf settings.now certified.now.input }
    ensures { IfOk result (λ text. text.items ≡ report_text settings.now certified.now.input certified.now.answer) }
{
    let text = report_text(alloc, settings, certified.input(), certified.answer())?;
    Ok(text.into_bytes())
}

/// Whether the worker of a slot is live in the input.
fn is_live(input: &Input, slot: SlotId) -> bool
    ensures { result ≡ is_live input.now slot }
{
    input
        .live()
        .binary_search_by_key(&slot, |&(live, _)| live)
        .is_ok()
}

/// The name of the worker of a slot, as `north/0`.
fn worker_name(alloc: Global, settings: &Settings, slot: SlotId) -> Result<String, AllocError>
    requires { slot < names.slots settings.now }
    ensures { IfOk result (λ name. string_bytes name ≡ names.worker_name settings.now slot) }
{
    let machine = settings.machine_name(settings.machine_of(slot));
    let number = settings.worker_number(slot);
    format!(in alloc; "{machine}/{number}")
}

/// Adds the worker of a slot, if it is not live in the input.
fn push_if_lost(
    lost: &mut Vec<String>,
    settings: &Settings,
    input: &Input,
    slot: SlotId,
) -> Result<(), AllocError>
    requires { slot < names.slots settings.now }
    ensures { OnOk result (map string_bytes lost.new.items
        ≡ map string_bytes lost.old.items ++ spec.lost_at settings.now input.now slot) }
{
    if is_live(input, slot) {
        return Ok(());
    }
    let name = worker_name(*lost.allocator(), settings, slot)?;
    lost.push(name)?;
    Ok(())
}

/// The workers that are not live in the input, as `north/0`.
fn lost_workers(
    alloc: Global,
    settings: &Settings,
    input: &Input,
) -> Result<Vec<String>, AllocError>
    ensures { IfOk result (λ lost. map string_bytes lost.items ≡ spec.lost_workers settings.now input.now) }
{
    let mut lost = Vec::new(alloc);
    for number in 0..settings.slots() {
        push_if_lost(&mut lost, settings, input, SlotId::new(number))?;
    }
    Ok(lost)
}

/// The evidence of an answer: its report, the status text for which it was made, and the workers that were not live. With the settings file
/// it is all that `poolman check` takes. Its attempt has the number 0 until it is known. The only error is out of memory.
pub fn evidence_of(
    alloc: Global,
    settings: &Settings,
    certified: &Certified,
) -> Result<Evidence, AllocError>
    requires of_these { IsMadeOf settings.now certified.now.input }
    ensures { IfOk result (spec.IsEvidenceOf settings.now certified.now) }
{
    settings.facts();
    let input = certified.input();
    input.facts();
    let report = report_of(alloc, settings, certified)?;
    let status = status_text(alloc, settings, input.waiting())?;
    let lost = lost_workers(alloc, settings, input)?;
    Ok(Evidence {
        attempt: 0,
        report,
        status,
        lost,
    })
}
