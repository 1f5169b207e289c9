//! What a table of `toml` holds at a key.

ghost use Rattle.std.specs.Prelude.{◌≡◌, option_map};
ghost use Rattle.toml.specs.View.{table_view};
ghost use Rattle.file_keys.specs.Keys.{keys_view};
ghost use Rattle.file_keys.specs.Tree.{entries_at};
ghost use Rattle.pool_settings.specs.Entries.{entries_if};
ghost use Rattle.service_settings.specs.Reading as spec;

use crate::keys::{FUNCTION_KEYS, FUNCTIONS, MACHINE_KEYS, MACHINES};
use file_keys::{Key, value_at};
use pool_settings::Section;
use toml::Table;

pub fn table_at<'t>(table: &'t Table, key: &str) -> Option<&'t Table>
    ensures table { option_map (λ t. table_view t.now) result ≡ spec.table_at key.now (table_view table.now) }
    ensures entries { entries_if result ≡ entries_at key.now (table_view table.now) }
{
    match value_at(table, key) {
        Some(value) => value.as_table(),
        None => None,
    }
}

pub fn text_at<'t>(table: &'t Table, key: &str) -> Option<&'t str>
    ensures { option_map (λ t. t.now) result ≡ spec.text_at key.now (table_view table.now) }
{
    match value_at(table, key) {
        Some(value) => value.as_str(),
        None => None,
    }
}

/// The key of a section in the top table.
pub fn section_key(section: Section) -> &'static str
    ensures { result.now ≡ spec.section_key section }
{
    match section {
        Section::Functions => FUNCTIONS.name,
        Section::Machines => MACHINES.name,
    }
}

/// The keys that the table of a function or a machine has.
pub fn entry_keys(section: Section) -> &'static [Key]
    ensures { keys_view result.now ≡ spec.entry_keys section }
{
    match section {
        Section::Functions => &FUNCTION_KEYS,
        Section::Machines => &MACHINE_KEYS,
    }
}

/// The table of a function or a machine.
pub fn entry_table<'t>(section: Section, tree: &'t Table, name: &str) -> Option<&'t Table>
    ensures { option_map (λ t. table_view t.now) result ≡ spec.entry_table section (table_view tree.now) name.now }
{
    let entries = table_at(tree, section_key(section))?;
    table_at(entries, name)
}
