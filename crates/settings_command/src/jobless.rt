//! The functions that `run` has no job for.

ghost use Rattle.std.specs.Prelude.{◌≡◌, ◌++◌, ◌∷◌, OnOk, string_bytes};
ghost use Rattle.settings_command.specs.Remarks as spec;

use plan_model::FuncId;
use pool_settings::Settings;
use std::alloc::AllocError;
use std::fmt::Write;
use stock_jobs::is_stock;

/// A name, with a space before it.
fn push_name(out: &mut String, name: &str) -> Result<(), AllocError>
    ensures { OnOk result (string_bytes out.new ≡ string_bytes out.old ++ 32 ∷ name.now) }
{
    write!(out, " {name}")
}

fn push_if_jobless(
    out: &mut String,
    settings: &Settings,
    function: FuncId,
) -> Result<(), AllocError>
    ensures { OnOk result (string_bytes out.new ≡ string_bytes out.old ++ spec.jobless_name settings.now function) }
{
    let name = settings.function_name(function);
    if is_stock(name.as_bytes()) {
        Ok(())
    } else {
        push_name(out, name)
    }
}

/// Their names, with a space before each.
fn push_jobless_names(out: &mut String, settings: &Settings) -> Result<(), AllocError>
    ensures { OnOk result (string_bytes out.new ≡ string_bytes out.old ++ spec.jobless_names settings.now) }
{
    for number in 0..settings.functions() {
        push_if_jobless(out, settings, FuncId::new(number))?;
    }
    Ok(())
}

fn push_jobless_line(out: &mut String, names: &str) -> Result<(), AllocError>
    ensures { OnOk result (string_bytes out.new ≡ string_bytes out.old ++ spec.jobless_line names.now) }
{
    write!(out, "remark run has no job for{names}\n")
}

/// A line with the functions that `run` has no job for, if there are any.
pub fn push_jobless(out: &mut String, settings: &Settings) -> Result<(), AllocError>
    ensures { OnOk result (string_bytes out.new ≡ string_bytes out.old ++ spec.jobless_remark settings.now) }
{
    let mut names = String::new(*out.allocator());
    push_jobless_names(&mut names, settings)?;
    if names.is_empty() {
        Ok(())
    } else {
        push_jobless_line(out, names.as_str())
    }
}
