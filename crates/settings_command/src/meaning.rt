//! What settings mean, as lines of one fact each.

ghost use Rattle.std.specs.Prelude.{◌≡◌, ◌++◌, ◌<◌, IfOk, OnOk, length, string_bytes};
ghost use Rattle.std.specs.List.{flat_map};
ghost use Rattle.toml.specs.View.{table_view};
ghost use Rattle.file_keys.specs.Keys.{key_view, keys_view};
ghost use Rattle.settings_command.specs.Meaning as spec;

use crate::place::push_printable;
use crate::remarks::push_remarks;
use file_keys::Key;
use plan_model::{FuncId, MachineId};
use pool_settings::{Settings, SettingsFile, TOP_KEYS};
use std::alloc::{AllocError, Global};
use std::fmt::Write;

/// What marks a value that the file does not give.
pub(crate) fn mark(is_given: bool) -> &'static str
    ensures { result.now ≡ spec.mark is_given }
{
    if is_given { "" } else { " (default)" }
}

fn push_single_line(out: &mut String, name: &str, number: u32, mark: &str) -> Result<(), AllocError>
    ensures { OnOk result (string_bytes out.new ≡ string_bytes out.old ++ spec.single_line name.now number mark.now) }
{
    write!(out, "{name} {number}{mark}\n")
}

fn push_text_line(out: &mut String, name: &str, text: &str, mark: &str) -> Result<(), AllocError>
    ensures { OnOk result (string_bytes out.new ≡ string_bytes out.old ++ spec.text_line name.now text.now mark.now) }
{
    write!(out, "{name} ")?;
    push_printable(out, text)?;
    write!(out, "{mark}\n")
}

/// The number at a key of the top table, if it has one.
fn push_number(out: &mut String, file: &SettingsFile, key: &Key) -> Result<(), AllocError>
    ensures { OnOk result (string_bytes out.new ≡ string_bytes out.old ++ spec.number_lines (table_view file.now.tree) (key_view key.now)) }
{
    let Some(number) = file.number(key) else {
        return Ok(());
    };
    let mark = mark(file.has_key(key.name));
    push_single_line(out, key.name, number, mark)
}

/// The text at a key of the top table, if it has one.
fn push_text(out: &mut String, file: &SettingsFile, key: &Key) -> Result<(), AllocError>
    ensures { OnOk result (string_bytes out.new ≡ string_bytes out.old ++ spec.text_lines (table_view file.now.tree) (key_view key.now)) }
{
    let Some(text) = file.text(key) else {
        return Ok(());
    };
    let mark = mark(file.has_key(key.name));
    push_text_line(out, key.name, text, mark)
}

/// The single keys of the top table.
fn push_keys(out: &mut String, file: &SettingsFile, keys: &[Key]) -> Result<(), AllocError>
    ensures { OnOk result (string_bytes out.new
        ≡ string_bytes out.old ++ flat_map (spec.key_lines (table_view file.now.tree)) (keys_view keys.now)) }
{
    for key in keys {
        push_number(out, file, key)?;
        push_text(out, file, key)?;
    }
    Ok(())
}

/// A bound of a function.
fn push_bound(
    out: &mut String,
    function: &str,
    key: &str,
    number: u32,
    file: &SettingsFile,
) -> Result<(), AllocError>
    ensures { OnOk result (string_bytes out.new ≡ string_bytes out.old
        ++ spec.bound_line (table_view file.now.tree) function.now key.now number) }
{
    let mark = mark(file.function_has_key(function, key));
    write!(out, "function {function} {key} {number}{mark}\n")
}

/// A function, with its least and its greatest number.
fn push_function(
    out: &mut String,
    settings: &Settings,
    file: &SettingsFile,
    function: FuncId,
) -> Result<(), AllocError>
    requires { function < length settings.now.functions }
    ensures { OnOk result (string_bytes out.new ≡ string_bytes out.old
        ++ spec.function_lines (table_view file.now.tree) settings.now function) }
{
    let name = settings.function_name(function);
    push_bound(out, name, "least", settings.least(function), file)?;
    push_bound(out, name, "most", settings.most(function), file)
}

fn push_functions(
    out: &mut String,
    settings: &Settings,
    file: &SettingsFile,
) -> Result<(), AllocError>
    ensures { OnOk result (string_bytes out.new ≡ string_bytes out.old
        ++ flat_map (spec.function_lines (table_view file.now.tree) settings.now) (spec.functions settings.now)) }
{
    for number in 0..settings.functions() {
        push_function(out, settings, file, FuncId::new(number))?;
    }
    Ok(())
}

/// What the workers of a machine may do.
fn push_may(out: &mut String, settings: &Settings, machine: MachineId) -> Result<(), AllocError>
    requires { machine < length settings.now.machines }
    ensures { OnOk result (string_bytes out.new ≡ string_bytes out.old
        ++ flat_map (spec.may_line settings.now machine) (spec.listed settings.now machine)) }
{
    let name = settings.machine_name(machine);
    for function in settings.permitted(machine) {
        let function = settings.function_name(*function);
        write!(out, "may {name} {function}\n")?;
    }
    Ok(())
}

/// A machine, with its workers and what they may do.
fn push_machine(out: &mut String, settings: &Settings, machine: MachineId) -> Result<(), AllocError>
    requires { machine < length settings.now.machines }
    ensures { OnOk result (string_bytes out.new ≡ string_bytes out.old ++ spec.machine_lines settings.now machine) }
{
    let name = settings.machine_name(machine);
    let workers = settings.workers(machine);
    write!(out, "machine {name} workers {workers}\n")?;
    push_may(out, settings, machine)
}

fn push_machines(out: &mut String, settings: &Settings) -> Result<(), AllocError>
    ensures { OnOk result (string_bytes out.new ≡ string_bytes out.old
        ++ flat_map (spec.machine_lines settings.now) (spec.machines settings.now)) }
{
    for number in 0..settings.machines() {
        push_machine(out, settings, MachineId::new(number))?;
    }
    Ok(())
}

/// What settings mean: a line for each single key, the version first, two for each function, one for each machine and after it one for
/// each function that its workers may do, all in the order of [`Settings`]; and then the remarks, one for each function that no machine
/// lists and one for each machine that lists none. A value that the file does not give is marked `(default)`. The only error is out of
/// memory.
pub fn meaning_text(
    alloc: Global,
    settings: &Settings,
    file: &SettingsFile,
) -> Result<String, AllocError>
    ensures { IfOk result (λ text. string_bytes text ≡ spec.meaning (table_view file.now.tree) settings.now) }
{
    let mut out = String::new(alloc);
    push_keys(&mut out, file, &TOP_KEYS)?;
    push_functions(&mut out, settings, file)?;
    push_machines(&mut out, settings)?;
    push_remarks(&mut out, settings)?;
    Ok(out)
}
