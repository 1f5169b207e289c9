//! The checks of a services file that look at versions, keys and names. Each looks at the whole tree, and answers where the first fault is.

ghost use Rattle.std.specs.Prelude.{◌≡◌, Option};
ghost use Rattle.toml.specs.View.{table_view, view};
ghost use Rattle.pool_settings.specs.Entries.{entries_if};
ghost use Rattle.pool_settings.specs.Place as places;
ghost use Rattle.file_keys.specs.Tree.{Entry};
ghost use Rattle.service_settings.specs.Entries.{AnswersAs, shown};
ghost use Rattle.service_settings.specs.Place.{place_view};
ghost use Rattle.service_settings.specs.Reading as spec;

use crate::keys::{PAGE, PAGE_KEYS, TOP_KEYS, VERSION};
use crate::place::ServicesPlace;
use crate::tree::{entry_keys, section_key, table_at};
use file_keys::{first_missing, is_bad, is_known};
use pool_settings::{Place, Section, Settings};
use toml::{Table, Value};

/// A fault there, unless all is good.
pub fn unless(good: bool, place: ServicesPlace<&str>) -> Option<ServicesPlace<&str>>
    ensures { shown result ≡ places.unless good (place_view (λ t. t.now) place.entry) }
{
    if good { None } else { Some(place) }
}

/// The first fault that a check finds in the entries of a table, in the order of their keys.
pub fn first_in<'t, F>(table: Option<&'t Table>, check: F) -> Option<ServicesPlace<&'t str>>
where
    F: Fn(&'t str, &'t Value) -> Option<ServicesPlace<&'t str>>,
    requires { F.IsAlwaysCallable check }
    ensures { (find : Entry → Option spec.Where) → AnswersAs (F.post check) find
        → shown result ≡ places.first_in find (entries_if table.entry) }
{
    let entries = table?;
    for (key, value) in entries {
        if let Some(place) = check(key.as_str(), value) {
            return Some(place);
        }
    }
    None
}

pub fn bad_version(tree: &Table) -> Option<ServicesPlace<&str>>
    ensures { shown result ≡ spec.bad_version (table_view tree.now) }
{
    unless(
        !is_bad(&VERSION, tree),
        ServicesPlace::At(Place::Key(VERSION.name)),
    )
}

// ---- known keys

fn unknown_top_key(tree: &Table) -> Option<ServicesPlace<&str>>
    ensures { shown result ≡ spec.unknown_top_key (table_view tree.now) }
{
    first_in(Some(tree), |key, _value| {
        unless(is_known(&TOP_KEYS, key), ServicesPlace::At(Place::Key(key)))
    })
}

/// The first unknown key of the table of a function or a machine. What is no table has no keys.
fn unknown_key_of<'t>(
    section: Section,
    name: &'t str,
    value: &'t Value,
) -> Option<ServicesPlace<&'t str>>
    ensures { shown result ≡ spec.unknown_key_of section (name.now, view value.now) }
{
    first_in(value.as_table(), |key, _value| {
        unless(
            is_known(entry_keys(section), key),
            ServicesPlace::At(Place::EntryKey(section, name, key)),
        )
    })
}

fn unknown_key_in(section: Section, tree: &Table) -> Option<ServicesPlace<&str>>
    ensures { shown result ≡ spec.unknown_key_in section (table_view tree.now) }
{
    first_in(table_at(tree, section_key(section)), |name, value| {
        unknown_key_of(section, name, value)
    })
}

fn unknown_page_key(tree: &Table) -> Option<ServicesPlace<&str>>
    ensures { shown result ≡ spec.unknown_page_key (table_view tree.now) }
{
    first_in(table_at(tree, PAGE.name), |key, _value| {
        unless(is_known(&PAGE_KEYS, key), ServicesPlace::PageKey(key))
    })
}

pub fn unknown_key(tree: &Table) -> Option<ServicesPlace<&str>>
    ensures { shown result ≡ spec.unknown_key (table_view tree.now) }
{
    unknown_top_key(tree)
        .or_else(|| unknown_key_in(Section::Functions, tree))
        .or_else(|| unknown_key_in(Section::Machines, tree))
        .or_else(|| unknown_page_key(tree))
}

/// The key that a page lacks. What is no table lacks none.
pub fn missing_key(tree: &Table) -> Option<ServicesPlace<&str>>
    ensures { shown result ≡ spec.missing_key (table_view tree.now) }
{
    let page = table_at(tree, PAGE.name)?;
    let key = first_missing(&PAGE_KEYS, page)?;
    Some(ServicesPlace::PageKey(key))
}

// ---- names

/// Whether the settings have a function or a machine of this name.
fn has_name(section: Section, settings: &Settings, name: &str) -> bool
    ensures { result ≡ spec.has_name section settings.now name.now }
{
    match section {
        Section::Functions => settings.function_named(name.as_bytes()).is_some(),
        Section::Machines => settings.machine_named(name.as_bytes()).is_some(),
    }
}

/// The first function or machine of the file that the settings do not have.
pub fn unknown_name<'t>(
    section: Section,
    settings: &Settings,
    tree: &'t Table,
) -> Option<ServicesPlace<&'t str>>
    ensures { shown result ≡ spec.unknown_name section settings.now (table_view tree.now) }
{
    first_in(table_at(tree, section_key(section)), |name, _value| {
        unless(
            has_name(section, settings, name),
            ServicesPlace::At(Place::Entry(section, name)),
        )
    })
}

/// A function of the settings that has no path at a service.
pub fn dot_function(settings: &Settings) -> Option<ServicesPlace<&str>>
    ensures { shown result ≡ spec.dot_function settings.now }
{
    unless(
        !has_name(Section::Functions, settings, "."),
        ServicesPlace::At(Place::Entry(Section::Functions, ".")),
    )
    .or_else(|| unless(
        !has_name(Section::Functions, settings, ".."),
        ServicesPlace::At(Place::Entry(Section::Functions, "..")),
    ))
}
