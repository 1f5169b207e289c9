//! What a settings file has at its mistake.

use pool_settings::{Place, Section, SettingsError};
use std::alloc::{AllocError, Global};
use toml::{Table, Value};

/// How many bytes a text of a settings file has at most.
const LONGEST_TEXT: usize = 255;

/// What a settings file has where its mistake is, in words, as far as it helps to mend it: a number as it is, another value by its kind,
/// and of a text that is not TOML why it is not. If there is no memory for the words there are none, since the mistake is known without
/// them.
///
/// The text is read once more, which happens only for a file with a mistake.
pub fn found(
    alloc: Global,
    settings_text: &[u8],
    error: SettingsError,
    place: &Place<String>,
) -> Option<String> {
    match error {
        SettingsError::Text => why_not_toml(alloc, settings_text),
        SettingsError::BadValue => value_in_words(alloc, settings_text, place),
        _ => None,
    }
}

fn why_not_toml(alloc: Global, settings_text: &[u8]) -> Option<String> {
    match toml::table_from_slice(alloc, settings_text) {
        Err(error) if !error.is_memory() => String::from_str(alloc, error.message()).ok(),
        _ => None,
    }
}

fn value_in_words(alloc: Global, settings_text: &[u8], place: &Place<String>) -> Option<String> {
    let tree = toml::table_from_slice(alloc, settings_text).ok()?;
    let value = value_at(&tree, place)?;
    words(alloc, value, place).ok()
}

/// The value at a place, if one value is there.
fn value_at<'t>(tree: &'t Table, place: &Place<String>) -> Option<&'t Value> {
    match place {
        Place::Key(key) => tree.get(key.as_str()),
        Place::Entry(section, name) => entry(tree, *section, name.as_str()),
        Place::EntryKey(section, name, key) => entry(tree, *section, name.as_str())?
            .as_table()?
            .get(key.as_str()),
        Place::Text { .. } | Place::Listed(_, _) | Place::Count(_) => None,
    }
}

/// What a table of the file has for a name.
fn entry<'t>(tree: &'t Table, section: Section, name: &str) -> Option<&'t Value> {
    let key = match section {
        Section::Functions => "functions",
        Section::Machines => "machines",
    };
    tree.get(key)?.as_table()?.get(name)
}

fn words(alloc: Global, value: &Value, place: &Place<String>) -> Result<String, AllocError> {
    if let Some(number) = value.as_integer() {
        return format!(in alloc; "{number}");
    }
    String::from_str(alloc, kind(value, place))
}

/// Whether a list is wanted here: the functions of a machine.
fn wants_list(place: &Place<String>) -> bool {
    match place {
        Place::EntryKey(Section::Machines, _, key) => key.as_str() == "functions",
        _ => false,
    }
}

fn kind(value: &Value, place: &Place<String>) -> &'static str {
    match value {
        Value::Integer(_) => "a number",
        Value::String(text) if text.is_empty() => "an empty text",
        Value::String(text) if text.len() > LONGEST_TEXT => "a text of more than 255 bytes",
        Value::String(_) => "a text",
        Value::Float(_) => "a float",
        Value::Boolean(_) => "true or false",
        Value::Datetime(_) => "a date or a time",
        Value::Array(_) if wants_list(place) => "a list with other values",
        Value::Array(_) => "a list",
        Value::Table(_) => "a table",
    }
}
