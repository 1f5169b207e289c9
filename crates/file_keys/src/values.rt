//! What a table has at the keys of a list of rows: which key it lacks, which value is not what it has to be, and the numbers.

ghost use Rattle.std.specs.Prelude.{◌≡◌, IfSome, is_some, length, option_map, true};
ghost use Rattle.std.specs.List.{list_all};
ghost use Rattle.toml.specs.Data.{as_str};
ghost use Rattle.toml.specs.View.{array_view, table_view, view};
ghost use Rattle.file_keys.specs.Hosts.{is_socket};
ghost use Rattle.file_keys.specs.Keys as spec;
ghost use Rattle.file_keys.specs.Tree.{values_of};

use crate::hosts::{has_port, is_host, is_socket};
use crate::keys::{
    Key, KeyValue, default_boolean_of, default_of, default_text_of, is_required, least_of,
};
use crate::tree::{number_between, text_between, value_at};
use toml::{Table, Value};

// ---- a value

/// The text of a value that is the address of a socket, with its port.
pub fn as_address(value: &Value) -> Option<&str>
    ensures value { option_map (λ t. t.now) result ≡ spec.as_address (view value.now) }
    ensures socket { IfSome result (λ t. is_socket t.now ≡ true) }
{
    let address = value.as_str()?;
    if is_socket(address.as_bytes()) && has_port(address.as_bytes()) {
        Some(address)
    } else {
        None
    }
}

fn is_host_text(value: &Value) -> bool
    ensures { result ≡ spec.is_host_text (view value.now) }
{
    match value.as_str() {
        Some(host) => is_host(host.as_bytes()),
        None => false,
    }
}

fn are_hosts(values: &Vec<Value>) -> bool
    ensures { result ≡ list_all spec.is_host_text (values_of (array_view values.now)) }
{
    for value in values {
        if !is_host_text(value) {
            return false;
        }
    }
    true
}

fn is_list_of_hosts(value: &Value) -> bool
    ensures { result ≡ spec.is_list_of_hosts (view value.now) }
{
    match value.as_array() {
        Some(values) => are_hosts(values),
        None => false,
    }
}

fn are_texts(values: &Vec<Value>) -> bool
    ensures { result ≡ list_all (λ d. is_some (as_str d)) (values_of (array_view values.now)) }
{
    for value in values {
        if !value.is_str() {
            return false;
        }
    }
    true
}

fn is_list_of_texts(value: &Value) -> bool
    ensures { result ≡ spec.is_list_of_texts (view value.now) }
{
    match value.as_array() {
        Some(values) => are_texts(values),
        None => false,
    }
}

/// Whether a value is what it has to be.
fn takes(wanted: KeyValue, value: &Value) -> bool
    ensures { result ≡ spec.takes wanted (view value.now) }
{
    match wanted {
        KeyValue::Number { least, most } => number_between(least, most, value).is_some(),
        KeyValue::Boolean => value.as_bool().is_some(),
        KeyValue::Text => value.is_str(),
        KeyValue::Bytes { least, most } => text_between(least, most, value).is_some(),
        KeyValue::Texts => is_list_of_texts(value),
        KeyValue::Table => true,
        KeyValue::Address => as_address(value).is_some(),
        KeyValue::Hosts => is_list_of_hosts(value),
    }
}

// ---- the keys of a table

/// Whether the value of a key is not what it has to be, or a key that has to be there is not.
pub fn is_bad(key: &Key, table: &Table) -> bool
    ensures { result ≡ spec.is_bad (table_view table.now) (spec.key_view key.now) }
{
    match value_at(table, key.name) {
        Some(value) => !takes(key.value, value),
        None => is_required(key),
    }
}

/// The first key that is bad.
pub fn first_bad(keys: &[Key], table: &Table) -> Option<&'static str>
    ensures { option_map (λ t. t.now) result ≡ spec.first_bad (spec.keys_view keys.now) (table_view table.now) }
{
    for key in keys {
        if is_bad(key, table) {
            return Some(key.name);
        }
    }
    None
}

/// The first key that a table lacks and has to have.
pub fn first_missing(keys: &[Key], table: &Table) -> Option<&'static str>
    ensures { option_map (λ t. t.now) result ≡ spec.first_missing (spec.keys_view keys.now) (table_view table.now) }
{
    for key in keys {
        if is_required(key) && value_at(table, key.name).is_none() {
            return Some(key.name);
        }
    }
    None
}

// ---- numbers and texts

/// The number that a value has to be, if it is one and has to be one.
fn number_as(wanted: KeyValue, value: &Value) -> Option<u32>
    ensures { result ≡ spec.number_as wanted (view value.now) }
{
    match wanted {
        KeyValue::Number { least, most } => number_between(least, most, value),
        _ => None,
    }
}

/// The number at a key, or its default. None if its value is anything else.
pub fn number_of(key: &Key, table: &Table) -> Option<u32>
    ensures { result ≡ spec.number_of (spec.key_view key.now) (table_view table.now) }
{
    match value_at(table, key.name) {
        Some(value) => number_as(key.value, value),
        None => default_of(key),
    }
}

/// The number at a key of a table whose values are good. Without the key it is the default, and if that is no number, the least allowed.
fn number_in(key: &Key, table: &Table) -> u32
    ensures { result ≡ spec.number_in (table_view table.now) (spec.key_view key.now) }
{
    number_of(key, table).unwrap_or(default_of(key).unwrap_or(least_of(key)))
}

/// For each key the number at it in a table whose values are good. Without the key it is the default, and if that is no number, the least
/// allowed.
pub fn numbers_in<const N: usize>(keys: &[Key], table: &Table) -> [u32; N]
    requires { length keys.now ≡ N }
    ensures { result ≡ spec.numbers_in (spec.keys_view keys.now) (table_view table.now) }
{
    let mut numbers = [0; N];
    for place in 0..N {
        numbers[place] = number_in(&keys[place], table);
    }
    numbers
}

/// Whether a value that has to be true or false is true, if it is one of them.
fn boolean_as(wanted: KeyValue, value: &Value) -> Option<bool>
    ensures { result ≡ spec.boolean_as wanted (view value.now) }
{
    match wanted {
        KeyValue::Boolean => value.as_bool(),
        _ => None,
    }
}

/// Whether the value at a key is true, or its default. None if its value is anything else.
pub fn boolean_of(key: &Key, table: &Table) -> Option<bool>
    ensures { result ≡ spec.boolean_of (spec.key_view key.now) (table_view table.now) }
{
    match value_at(table, key.name) {
        Some(value) => boolean_as(key.value, value),
        None => default_boolean_of(key),
    }
}

/// The text that a value has to be, if it is one and its length is bounded.
fn text_as(wanted: KeyValue, value: &Value) -> Option<&str>
    ensures { option_map (λ t. t.now) result ≡ spec.text_as wanted (view value.now) }
{
    match wanted {
        KeyValue::Bytes { least, most } => text_between(least, most, value),
        _ => None,
    }
}

/// The text at a key, or its default. None if its value is anything else.
pub fn text_of<'t>(key: &Key, table: &'t Table) -> Option<&'t str>
    ensures { option_map (λ t. t.now) result ≡ spec.text_of (spec.key_view key.now) (table_view table.now) }
{
    match value_at(table, key.name) {
        Some(value) => text_as(key.value, value),
        None => default_text_of(key),
    }
}

/// The text of bounded length at a key of a table whose values are good.
pub fn text_in<'t>(key: &Key, table: &'t Table) -> &'t str
    ensures { result.now ≡ spec.text_in (table_view table.now) (spec.key_view key.now) }
{
    text_of(key, table).unwrap_or(default_text_of(key).unwrap_or(""))
}
