//! What a table of `toml` holds at a key.

ghost use Rattle.std.specs.Prelude.{◌≡◌, option_map};
ghost use Rattle.toml.specs.Data.{get_member};
ghost use Rattle.toml.specs.View.{table_view, view};
ghost use Rattle.file_keys.specs.Tree as spec;

use toml::{Table, Value};

/// The value at a key.
pub fn value_at<'t>(table: &'t Table, key: &str) -> Option<&'t Value>
    ensures { option_map (λ v. view v.now) result ≡ get_member key.now (table_view table.now) }
{
    table.get(key)
}

/// The number from `low` to `high` that a value is.
pub fn number_between(low: u32, high: u32, value: &Value) -> Option<u32>
    ensures { result ≡ spec.number_between low high (view value.now) }
{
    let number = value.as_integer()?;
    if number < (low as i64) || (high as i64) < number {
        return None;
    }
    Some(number as u32)
}

/// The text of `low` to `high` bytes that a value is.
pub fn text_between(low: u32, high: u32, value: &Value) -> Option<&str>
    ensures { option_map (λ t. t.now) result ≡ spec.text_between low high (view value.now) }
{
    let text = value.as_str()?;
    if text.len() < low as usize || (high as usize) < text.len() {
        return None;
    }
    Some(text)
}
