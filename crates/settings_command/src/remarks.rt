//! What settings that are taken may yet have wrong.

ghost use Rattle.std.specs.Prelude.{◌≡◌, ◌++◌, ◌<◌, [], OnOk, length, string_bytes};
ghost use Rattle.std.specs.List.{flat_map};
ghost use Rattle.settings_command.specs.Meaning as spec;

use plan_model::{FuncId, MachineId};
use pool_settings::Settings;
use std::alloc::AllocError;
use std::fmt::Write;

/// Whether a machine lists the function.
fn is_listed(settings: &Settings, function: FuncId) -> bool
    ensures { result ≡ spec.is_listed settings.now function }
{
    for number in 0..settings.machines() {
        if settings.may(MachineId::new(number), function) {
            return true;
        }
    }
    false
}

fn push_unlisted_line(out: &mut String, function: &str) -> Result<(), AllocError>
    ensures { OnOk result (string_bytes out.new ≡ string_bytes out.old ++ spec.unlisted_line function.now) }
{
    write!(out, "remark no machine lists function {function}\n")
}

fn push_if_unlisted(
    out: &mut String,
    settings: &Settings,
    function: FuncId,
) -> Result<(), AllocError>
    ensures { OnOk result (string_bytes out.new ≡ string_bytes out.old ++ spec.unlisted_remark settings.now function) }
{
    if is_listed(settings, function) {
        Ok(())
    } else {
        push_unlisted_line(out, settings.function_name(function))
    }
}

fn push_unlisted(out: &mut String, settings: &Settings) -> Result<(), AllocError>
    ensures { OnOk result (string_bytes out.new ≡ string_bytes out.old
        ++ flat_map (spec.unlisted_remark settings.now) (spec.functions settings.now)) }
{
    for number in 0..settings.functions() {
        push_if_unlisted(out, settings, FuncId::new(number))?;
    }
    Ok(())
}

fn push_bare_line(out: &mut String, machine: &str) -> Result<(), AllocError>
    ensures { OnOk result (string_bytes out.new ≡ string_bytes out.old ++ spec.bare_line machine.now) }
{
    write!(out, "remark machine {machine} lists no function\n")
}

fn push_if_bare(out: &mut String, settings: &Settings, machine: MachineId) -> Result<(), AllocError>
    requires { machine < length settings.now.machines }
    ensures { OnOk result (string_bytes out.new ≡ string_bytes out.old ++ spec.bare_remark settings.now machine) }
{
    if settings.permitted(machine).is_empty() {
        push_bare_line(out, settings.machine_name(machine))
    } else {
        Ok(())
    }
}

fn push_bare(out: &mut String, settings: &Settings) -> Result<(), AllocError>
    ensures { OnOk result (string_bytes out.new ≡ string_bytes out.old
        ++ flat_map (spec.bare_remark settings.now) (spec.machines settings.now)) }
{
    for number in 0..settings.machines() {
        push_if_bare(out, settings, MachineId::new(number))?;
    }
    Ok(())
}

/// A line for each function that no machine lists, and then one for each machine that lists none.
pub fn push_remarks(out: &mut String, settings: &Settings) -> Result<(), AllocError>
    ensures { OnOk result (string_bytes out.new ≡ string_bytes out.old ++ spec.remarks settings.now) }
{
    push_unlisted(out, settings)?;
    push_bare(out, settings)
}
