//! What a table of `toml` holds at a key.

ghost use Rattle.std.specs.Prelude.{◌≡◌, is_some, option_and_then, option_map};
ghost use Rattle.toml.specs.Data.{as_table, get_member};
ghost use Rattle.toml.specs.View.{table_view};
ghost use Rattle.file_keys.specs.Tree as spec;
ghost use Rattle.pool_settings.specs.Entries.{entries_if};

use file_keys::value_at;
use toml::Table;

pub fn table_at<'t>(table: &'t Table, key: &str) -> Option<&'t Table>
    ensures table { option_map (λ t. table_view t.now) result ≡ option_and_then as_table (get_member key.now (table_view table.now)) }
    ensures entries { entries_if result ≡ spec.entries_at key.now (table_view table.now) }
    ensures there { is_some result ≡ is_some (option_and_then as_table (get_member key.now (table_view table.now))) }
{
    match value_at(table, key) {
        Some(value) => value.as_table(),
        None => None,
    }
}
