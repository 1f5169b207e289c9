//! The checks of a settings file. Each looks at the whole tree, and answers where the first fault is.

ghost use Rattle.std.specs.Prelude.{◌≡◌, IfOk};
ghost use Rattle.toml.specs.View.{table_view, view};
ghost use Rattle.file_keys.specs.Keys.{keys_view};
ghost use Rattle.file_keys.specs.Tree.{Entry, entries_at, has_key};
ghost use Rattle.pool_settings.specs.Entries.{AnswersAs, entries_if, found_in, shown, table_entries};
ghost use Rattle.pool_settings.specs.Fault.{HasTables};
ghost use Rattle.pool_settings.specs.Place as places;
ghost use Rattle.pool_settings.specs.Reading as spec;
ghost use Rattle.std.specs.Prelude.{Option};

use crate::keys::{
    FIRST_FUNCTION_KEYS, FUNCTION_KEYS, FUNCTIONS, MACHINE_KEYS, MACHINES, TOP_KEYS, VERSION,
};
use crate::name_rules::{is_machine_name, is_name};
use crate::place::{Place, Section};
use crate::tree::table_at;
use file_keys::{Key, first_bad, first_missing, is_known, number_of, value_at};
use toml::{Table, Value};

/// The two tables of a settings file whose keys are names.
#[derive(Clone, Copy)]
pub struct Tables<'t> {
    pub functions: &'t Table,
    pub machines: &'t Table,
}

/// A fault there, unless all is good.
pub fn unless(good: bool, place: Place<&str>) -> Option<Place<&str>>
    ensures { shown result ≡ places.unless good (places.place_view (λ t. t.now) place.entry) }
{
    if good { None } else { Some(place) }
}

/// The first fault that a check finds in the entries of a table, in the order of their keys.
pub fn first_in<'t, F>(table: Option<&'t Table>, check: F) -> Option<Place<&'t str>>
where
    F: Fn(&'t str, &'t Value) -> Option<Place<&'t str>>,
    requires { F.IsAlwaysCallable check }
    ensures { (find : Entry → Option spec.Where) → AnswersAs (F.post check) find
        → shown result ≡ places.first_in find (entries_if table.entry) }
{
    let entries = table?;
    for (key, value) in entries {
        if let Some(place) = check(key.as_str(), value) {
            return Some(place);
        }
    }
    None
}

pub fn version_in(tree: &Table) -> Option<u32>
    ensures { result ≡ spec.version_in (table_view tree.now) }
{
    number_of(&VERSION, tree)
}

pub fn bad_version(tree: &Table) -> Option<Place<&str>>
    ensures { shown result ≡ spec.bad_version (table_view tree.now) }
{
    unless(version_in(tree).is_some(), Place::Key(VERSION.name))
}

fn is_version_2(tree: &Table) -> bool
    ensures { result ≡ spec.is_version_2 (table_view tree.now) }
{
    version_in(tree) == Some(2)
}

// ---- known keys

/// The keys that the table of a function or a machine may have in the version of the file.
fn entry_keys(section: Section, tree: &Table) -> &'static [Key]
    ensures { keys_view result.now ≡ spec.entry_keys section (table_view tree.now) }
{
    match section {
        Section::Functions if is_version_2(tree) => &FUNCTION_KEYS,
        Section::Functions => &FIRST_FUNCTION_KEYS,
        Section::Machines => &MACHINE_KEYS,
    }
}

fn unknown_top_key(tree: &Table) -> Option<Place<&str>>
    ensures { shown result ≡ spec.unknown_top_key (table_view tree.now) }
{
    first_in(Some(tree), |key, _value| {
        unless(is_known(&TOP_KEYS, key), Place::Key(key))
    })
}

/// The first unknown key of the table of a function or a machine. What is no table has no keys.
fn unknown_key_of<'t>(
    section: Section,
    tree: &Table,
    name: &'t str,
    value: &'t Value,
) -> Option<Place<&'t str>>
    ensures { shown result ≡ spec.unknown_key_of section (table_view tree.now) (name.now, view value.now) }
{
    let keys = entry_keys(section, tree);
    first_in(value.as_table(), |key, _value| {
        unless(is_known(keys, key), Place::EntryKey(section, name, key))
    })
}

fn unknown_key_in<'t>(
    section: Section,
    tree: &Table,
    table: Option<&'t Table>,
) -> Option<Place<&'t str>>
    ensures { shown result ≡ places.first_in (spec.unknown_key_of section (table_view tree.now)) (entries_if table.entry) }
{
    first_in(
        table,
        |name, value| unknown_key_of(section, tree, name, value),
    )
}

pub fn unknown_key(tree: &Table) -> Option<Place<&str>>
    ensures { shown result ≡ spec.unknown_key (table_view tree.now) }
{
    unknown_top_key(tree)
        .or_else(|| unknown_key_in(Section::Functions, tree, table_at(tree, FUNCTIONS.name)))
        .or_else(|| unknown_key_in(Section::Machines, tree, table_at(tree, MACHINES.name)))
}

// ---- needed keys

pub fn has_key(table: &Table, key: &str) -> bool
    ensures { result ≡ has_key key.now (table_view table.now) }
{
    value_at(table, key).is_some()
}

/// The first key that a machine lacks. What is no table lacks none.
fn missing_key_of<'t>(name: &'t str, value: &'t Value) -> Option<Place<&'t str>>
    ensures { shown result ≡ spec.missing_key_of (name.now, view value.now) }
{
    let key = first_missing(&MACHINE_KEYS, value.as_table()?)?;
    Some(Place::EntryKey(Section::Machines, name, key))
}

fn missing_top_key(tree: &Table) -> Option<Place<&str>>
    ensures { shown result ≡ spec.missing_top_key (table_view tree.now) }
{
    let key = first_missing(&TOP_KEYS, tree)?;
    Some(Place::Key(key))
}

pub fn missing_key(tree: &Table) -> Option<Place<&str>>
    ensures { shown result ≡ spec.missing_key (table_view tree.now) }
{
    missing_top_key(tree).or_else(|| first_in(table_at(tree, MACHINES.name), missing_key_of))
}

// ---- names

fn bad_function_name(table: Option<&Table>) -> Option<Place<&str>>
    ensures { shown result ≡ spec.bad_function_name (entries_if table.entry) }
{
    first_in(table, |name, _value| {
        unless(
            is_name(name.as_bytes()),
            Place::Entry(Section::Functions, name),
        )
    })
}

fn bad_machine_name(table: Option<&Table>) -> Option<Place<&str>>
    ensures { shown result ≡ spec.bad_machine_name (entries_if table.entry) }
{
    first_in(table, |name, _value| {
        unless(
            is_machine_name(name.as_bytes()),
            Place::Entry(Section::Machines, name),
        )
    })
}

pub fn bad_name(tree: &Table) -> Option<Place<&str>>
    ensures { shown result ≡ spec.bad_name (table_view tree.now) }
{
    bad_function_name(table_at(tree, FUNCTIONS.name)).or_else(|| bad_machine_name(table_at(
        tree,
        MACHINES.name,
    )))
}

// ---- values

fn bad_top_value(tree: &Table) -> Option<Place<&str>>
    ensures { shown result ≡ spec.bad_top_value (table_view tree.now) }
{
    let key = first_bad(&TOP_KEYS, tree)?;
    Some(Place::Key(key))
}

/// Where a function's table is no table, or has a bad value.
fn bad_function<'t>(name: &'t str, value: &'t Value) -> Option<Place<&'t str>>
    ensures { shown result ≡ spec.bad_function (name.now, view value.now) }
{
    let Some(function) = value.as_table() else {
        return Some(Place::Entry(Section::Functions, name));
    };
    let key = first_bad(&FUNCTION_KEYS, function)?;
    Some(Place::EntryKey(Section::Functions, name, key))
}

/// Where a machine's table is no table, or has a bad value.
fn bad_machine<'t>(name: &'t str, value: &'t Value) -> Option<Place<&'t str>>
    ensures { shown result ≡ spec.bad_machine (name.now, view value.now) }
{
    let Some(machine) = value.as_table() else {
        return Some(Place::Entry(Section::Machines, name));
    };
    let key = first_bad(&MACHINE_KEYS, machine)?;
    Some(Place::EntryKey(Section::Machines, name, key))
}

/// The table at a key, if it is one and a check finds no fault in its entries. Else where the first fault is.
fn sound_table<'t, F>(tree: &'t Table, key: &'t str, check: F) -> Result<&'t Table, Place<&'t str>>
where
    F: Fn(&'t str, &'t Value) -> Option<Place<&'t str>>,
    requires { F.IsAlwaysCallable check }
    ensures fault { (find : Entry → Option spec.Where) → AnswersAs (F.post check) find
        → found_in result ≡ spec.bad_table key.now find (table_view tree.now) }
    ensures table { IfOk result (λ table. table_entries table.now ≡ entries_at key.now (table_view tree.now)) }
{
    let Some(table) = table_at(tree, key) else {
        return Err(Place::Key(key));
    };
    match first_in(Some(table), check) {
        Some(place) => Err(place),
        None => Ok(table),
    }
}

fn function_table(tree: &Table) -> Result<&Table, Place<&str>>
    ensures fault { found_in result ≡ spec.bad_table spec.functions_key spec.bad_function (table_view tree.now) }
    ensures table { IfOk result (λ table. table_entries table.now ≡ entries_at spec.functions_key (table_view tree.now)) }
{
    sound_table(tree, FUNCTIONS.name, bad_function)
}

fn machine_table(tree: &Table) -> Result<&Table, Place<&str>>
    ensures fault { found_in result ≡ spec.bad_table spec.machines_key spec.bad_machine (table_view tree.now) }
    ensures table { IfOk result (λ table. table_entries table.now ≡ entries_at spec.machines_key (table_view tree.now)) }
{
    sound_table(tree, MACHINES.name, bad_machine)
}

/// The tables of functions and machines of a tree whose values are good. Else where the first bad value is.
pub fn tables_of(tree: &Table) -> Result<Tables<'_>, Place<&str>>
    ensures fault { found_in result ≡ spec.bad_value (table_view tree.now) }
    ensures tables { IfOk result (HasTables (table_view tree.now)) }
{
    if let Some(place) = bad_top_value(tree) {
        return Err(place);
    }
    let functions = match function_table(tree) {
        Ok(functions) => functions,
        Err(place) => return Err(place),
    };
    match machine_table(tree) {
        Ok(machines) => Ok(Tables {
            functions,
            machines,
        }),
        Err(place) => Err(place),
    }
}
