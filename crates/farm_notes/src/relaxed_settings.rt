//! Settings in which least numbers are left out, as a text.

use plan_model::{FuncId, Input, MachineId};
use pool_settings::Settings;
use std::alloc::{AllocError, Global};
use std::fmt;
use std::fmt::Write;
use toml_writer::{write_key, write_string};

/// A name, as TOML writes a key.
#[derive(Drop)]
struct Key<'t> {
    name: &'t str,
}

impl fmt::Display for Key<'_> {
    fn fmt<W: fmt::Write>(&self, f: &mut fmt::Formatter<W>) -> fmt::Result {
        write_key(f, self.name)
    }
}

/// A name, as TOML writes a text.
#[derive(Drop)]
struct Quoted<'t> {
    name: &'t str,
}

impl fmt::Display for Quoted<'_> {
    fn fmt<W: fmt::Write>(&self, f: &mut fmt::Formatter<W>) -> fmt::Result {
        write_string(f, self.name)
    }
}

/// Adds the table of a function.
fn push_function(
    out: &mut String,
    settings: &Settings,
    input: &Input,
    function: FuncId,
) -> Result<(), AllocError> {
    let name = settings.function_name(function);
    let place = function.number() as usize;
    let least = input.least().get(place).copied().unwrap_or(0);
    let most = input.most().get(place).copied().unwrap_or(0);
    write!(
        out,
        "[functions.{}]\nleast = {least}\nmost = {most}\n",
        Key { name }
    )
}

/// Adds the functions that the workers of a machine may do.
fn push_listed(
    out: &mut String,
    settings: &Settings,
    functions: &[FuncId],
) -> Result<(), AllocError> {
    let mut lead = "";
    for function in functions {
        let name = settings.function_name(*function);
        write!(out, "{lead}{}", Quoted { name })?;
        lead = ", ";
    }
    Ok(())
}

/// Adds the table of a machine, of so many workers who may do these functions.
fn push_machine(
    out: &mut String,
    settings: &Settings,
    machine: MachineId,
    workers: u32,
    functions: &[FuncId],
) -> Result<(), AllocError> {
    let name = settings.machine_name(machine);
    write!(
        out,
        "[machines.{}]\nworkers = {workers}\nfunctions = [",
        Key { name }
    )?;
    push_listed(out, settings, functions)?;
    out.push_str("]\n")
}

/// Adds the tables of the functions, with the least and greatest numbers of a problem.
fn push_functions(out: &mut String, settings: &Settings, input: &Input) -> Result<(), AllocError> {
    for number in 0..settings.functions() {
        push_function(out, settings, input, FuncId::new(number))?;
    }
    Ok(())
}

/// Adds the tables of the machines.
fn push_machines(out: &mut String, settings: &Settings) -> Result<(), AllocError> {
    for number in 0..settings.machines() {
        let machine = MachineId::new(number);
        let workers = settings.workers(machine);
        push_machine(out, settings, machine, workers, settings.permitted(machine))?;
    }
    Ok(())
}

/// A settings file with the functions and machines of these settings, and the least and greatest numbers of this problem: all that a plan
/// depends on. The only error is out of memory.
pub fn settings_text(
    alloc: Global,
    settings: &Settings,
    input: &Input,
) -> Result<Vec<u8>, AllocError> {
    let mut out = String::from_str(
        alloc,
        "# All that a plan of the farm depends on. Least numbers that the plan in force leaves out are 0.\nversion = 2\n",
    )?;
    push_functions(&mut out, settings, input)?;
    push_machines(&mut out, settings)?;
    Ok(out.into_bytes())
}
