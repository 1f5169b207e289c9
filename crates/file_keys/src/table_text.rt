//! Rows as a text, which pages and manuals can be held against.

use crate::keys::{Absent, Key, KeyValue};
use std::alloc::AllocError;
use std::fmt::Write;

/// What a value has to be.
fn push_value(out: &mut String, value: KeyValue) -> Result<(), AllocError> {
    match value {
        KeyValue::Number { least, most } if most == least => write!(out, "{least}"),
        KeyValue::Number { least, most } if least < most && most - least == 1 => write!(
            out,
            "{least} or {most}"
        ),
        KeyValue::Number { least, most } => write!(out, "{least} to {most}"),
        KeyValue::Boolean => out.push_str("true or false"),
        KeyValue::Text => out.push_str("a text"),
        KeyValue::Bytes { least, most } => write!(out, "{least} to {most} bytes"),
        KeyValue::Texts => out.push_str("a list of texts"),
        KeyValue::Table => out.push_str("a table"),
        KeyValue::Address => out.push_str("an address and a port"),
        KeyValue::Hosts => out.push_str("a list of names or addresses"),
    }
}

/// What a file without the key means.
fn push_absent(out: &mut String, absent: Absent<&str>) -> Result<(), AllocError> {
    match absent {
        Absent::Refused => out.push_str("required"),
        Absent::Number(number) => write!(out, "{number}"),
        Absent::Boolean(holds) => write!(out, "{holds}"),
        Absent::Text(text) => write!(out, "`{text}`"),
        Absent::Words(words) => out.push_str(words),
    }
}

fn push_key(out: &mut String, before: &str, key: &Key) -> Result<(), AllocError> {
    write!(out, "| `{before}{}` | ", key.name)?;
    push_value(out, key.value)?;
    out.push_str(" | ")?;
    push_absent(out, key.absent)?;
    write!(out, " | {} |\n", key.help)
}

/// Writes a row of a table for each key: its name behind the words that say where it stands, what its value has to be, what a file
/// without it means, and what it is for. The only error is out of memory.
pub fn push_keys(out: &mut String, before: &str, keys: &[Key]) -> Result<(), AllocError> {
    for key in keys {
        push_key(out, before, key)?;
    }
    Ok(())
}
