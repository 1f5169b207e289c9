//! The check of a services file that looks at types and ranges.

ghost use Rattle.std.specs.Prelude.{◌≡◌};
ghost use Rattle.toml.specs.View.{table_view, view};
ghost use Rattle.service_settings.specs.Entries.{shown};
ghost use Rattle.service_settings.specs.Reading as spec;

use crate::checks::first_in;
use crate::keys::{PAGE, PAGE_KEYS, TOP_KEYS};
use crate::place::ServicesPlace;
use crate::tree::{entry_keys, section_key};
use file_keys::{first_bad, value_at};
use pool_settings::{Place, Section};
use toml::{Table, Value};

fn bad_top_value(tree: &Table) -> Option<ServicesPlace<&str>>
    ensures { shown result ≡ spec.bad_top_value (table_view tree.now) }
{
    let key = first_bad(&TOP_KEYS, tree)?;
    Some(ServicesPlace::At(Place::Key(key)))
}

/// Where the table of a function or a machine is no table, or its value is bad.
fn bad_entry<'t>(
    section: Section,
    name: &'t str,
    value: &'t Value,
) -> Option<ServicesPlace<&'t str>>
    ensures { shown result ≡ spec.bad_entry section (name.now, view value.now) }
{
    let Some(table) = value.as_table() else {
        return Some(ServicesPlace::At(Place::Entry(section, name)));
    };
    let key = first_bad(entry_keys(section), table)?;
    Some(ServicesPlace::At(Place::EntryKey(section, name, key)))
}

fn bad_section(section: Section, tree: &Table) -> Option<ServicesPlace<&str>>
    ensures { shown result ≡ spec.bad_section section (table_view tree.now) }
{
    let value = value_at(tree, section_key(section))?;
    let Some(table) = value.as_table() else {
        return Some(ServicesPlace::At(Place::Key(section_key(section))));
    };
    first_in(Some(table), |name, value| bad_entry(section, name, value))
}

fn bad_page_value(page: &Table) -> Option<ServicesPlace<&str>>
    ensures { shown result ≡ spec.bad_page_value (table_view page.now) }
{
    let key = first_bad(&PAGE_KEYS, page)?;
    Some(ServicesPlace::PageKey(key))
}

fn bad_page(tree: &Table) -> Option<ServicesPlace<&str>>
    ensures { shown result ≡ spec.bad_page (table_view tree.now) }
{
    match value_at(tree, PAGE.name)?.as_table() {
        Some(page) => bad_page_value(page),
        None => Some(ServicesPlace::At(Place::Key(PAGE.name))),
    }
}

pub fn bad_value(tree: &Table) -> Option<ServicesPlace<&str>>
    ensures { shown result ≡ spec.bad_value (table_view tree.now) }
{
    bad_top_value(tree)
        .or_else(|| bad_section(Section::Functions, tree))
        .or_else(|| bad_section(Section::Machines, tree))
        .or_else(|| bad_page(tree))
}
