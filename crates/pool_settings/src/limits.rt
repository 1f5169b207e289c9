//! The last two checks: each listed function is there, and there are not too many of anything.

ghost use Rattle.std.specs.Prelude.{◌≡◌, length, nat_le, not, option_map, sum};
ghost use Rattle.std.specs.List.{filter_map, find};
ghost use Rattle.toml.specs.Data.{as_str};
ghost use Rattle.toml.specs.View.{array_view, table_view, view};
ghost use Rattle.file_keys.specs.Tree.{values_of};
ghost use Rattle.pool_settings.specs.Entries.{entries_if, shown, table_entries};
ghost use Rattle.pool_settings.specs.Reading as spec;

use crate::bounds::MAX_WORKERS;
use crate::build::{count_at, listed_in};
use crate::checks::{first_in, unless};
use crate::keys::{FUNCTIONS, MACHINES, WORKERS};
use crate::place::{Counted, Place};
use crate::tree::table_at;
use file_keys::value_at;
use plan_model::{MAX_FUNCTIONS, MAX_MACHINES};
use toml::{Table, Value};

fn is_function(tree: &Table, name: &str) -> bool
    ensures { result ≡ spec.is_function_of (table_view tree.now) name.now }
{
    match table_at(tree, FUNCTIONS.name) {
        Some(functions) => value_at(functions, name).is_some(),
        None => false,
    }
}

/// The first text of some values that is no function.
fn no_function<'t>(tree: &Table, names: &'t Vec<Value>) -> Option<&'t str>
    ensures { option_map (λ t. t.now) result
        ≡ find (λ name. not (spec.is_function_of (table_view tree.now) name)) (filter_map as_str (values_of (array_view names.now))) }
{
    for value in names {
        if let Some(name) = value.as_str() {
            if !is_function(tree, name) {
                return Some(name);
            }
        }
    }
    None
}

/// The first name that a machine lists and that is no function.
fn unknown_function_of<'t>(
    tree: &Table,
    machine: &'t str,
    value: &'t Value,
) -> Option<Place<&'t str>>
    ensures { shown result ≡ spec.unknown_function_of (table_view tree.now) (machine.now, view value.now) }
{
    let name = no_function(tree, listed_in(value)?)?;
    Some(Place::Listed(machine, name))
}

pub fn unknown_function(tree: &Table) -> Option<Place<&str>>
    ensures { shown result ≡ spec.unknown_function (table_view tree.now) }
{
    first_in(table_at(tree, MACHINES.name), |machine, value| {
        unknown_function_of(tree, machine, value)
    })
}

fn count_of(table: Option<&Table>) -> usize
    ensures { result ≡ length (entries_if table.entry) }
{
    match table {
        Some(table) => table.len(),
        None => 0,
    }
}

fn table_workers_fit(table: &Table) -> bool
    ensures { result ≡ nat_le (sum (spec.column_of spec.workers_key 0 (table_entries table.now))) 4096 }
{
    let mut total = 0;
    for (_name, machine) in table {
        total += count_at(machine, WORKERS.name, 0);
        if total > MAX_WORKERS {
            return false;
        }
    }
    true
}

fn workers_fit(table: Option<&Table>) -> bool
    ensures { result ≡ nat_le (sum (spec.column_of spec.workers_key 0 (entries_if table.entry))) 4096 }
{
    match table {
        Some(table) => table_workers_fit(table),
        None => true,
    }
}

pub fn too_many(tree: &Table) -> Option<Place<&str>>
    ensures { shown result ≡ spec.too_many (table_view tree.now) }
{
    let machines = table_at(tree, MACHINES.name);
    let functions = table_at(tree, FUNCTIONS.name);
    if count_of(machines) > MAX_MACHINES {
        return Some(Place::Count(Counted::Machines));
    }
    if count_of(functions) > MAX_FUNCTIONS {
        return Some(Place::Count(Counted::Functions));
    }
    unless(workers_fit(machines), Place::Count(Counted::Workers))
}
