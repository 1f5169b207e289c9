//! The row of a key. A settings file has a list of rows for each of its tables: its reader, the definitions of `specs/` and the texts for
//! people take names, ranges and defaults from there.

ghost use Rattle.std.specs.Prelude.{◌≡◌, option_map};
ghost use Rattle.file_keys.specs.Keys as spec;

use std::fmt;

/// What a value has to be.
#[derive(Clone, Copy, Debug, PartialEq, Eq)]
pub enum KeyValue {
    /// A number from `least` to `most`.
    Number {
        /// The least number.
        least: u32,
        /// The greatest number.
        most: u32,
    },
    /// True or false.
    Boolean,
    /// A text.
    Text,
    /// A text of `least` to `most` bytes.
    Bytes {
        /// The least length.
        least: u32,
        /// The greatest length.
        most: u32,
    },
    /// A list of texts.
    Texts,
    /// A table. What stands in it has rows of its own, and who looks there finds whether it is one.
    Table,
    /// The address of a socket, with its port.
    Address,
    /// A list of hosts.
    Hosts,
}

/// What a file means that does not have a key. `T` is how words are held, as in [`Row`].
#[derive(Clone, Copy)]
pub enum Absent<T> {
    /// It is refused.
    Refused,
    /// This number.
    Number(u32),
    /// Whether this holds.
    Boolean(bool),
    /// This text.
    Text(T),
    /// What these words say.
    Words(T),
}

/// The row of a key. `T` is how its words are held: a constant has a name in `specs/` only if no struct in it has a reference of its own.
#[derive(Clone, Copy)]
pub struct Row<T> {
    /// Its name in its table.
    pub name: T,
    /// What its value has to be.
    pub value: KeyValue,
    /// What the file means without it.
    pub absent: Absent<T>,
    /// What it is for, or when to change it, in words for people.
    pub help: T,
}

/// A key of a file.
pub type Key = Row<&'static str>;

/// Whether a file without the key is refused.
pub fn is_required(key: &Key) -> bool
    ensures { result ≡ spec.is_required (spec.key_view key.now) }
{
    match key.absent {
        Absent::Refused => true,
        _ => false,
    }
}

/// The number that a file without the key means, if there is one.
pub fn default_of(key: &Key) -> Option<u32>
    ensures { result ≡ spec.default_of (spec.key_view key.now) }
{
    match key.absent {
        Absent::Number(number) => Some(number),
        _ => None,
    }
}

/// Whether a file without the key means true or false, if it means one of them.
pub fn default_boolean_of(key: &Key) -> Option<bool>
    ensures { result ≡ spec.default_boolean_of (spec.key_view key.now) }
{
    match key.absent {
        Absent::Boolean(holds) => Some(holds),
        _ => None,
    }
}

/// The text that a file without the key means, if there is one.
pub fn default_text_of(key: &Key) -> Option<&'static str>
    ensures { option_map (λ t. t.now) result ≡ spec.default_text_of (spec.key_view key.now) }
{
    match key.absent {
        Absent::Text(text) => Some(text),
        _ => None,
    }
}

/// The least number that a key takes, or 0.
pub fn least_of(key: &Key) -> u32
    ensures { result ≡ spec.least_of (spec.key_view key.now) }
{
    match key.value {
        KeyValue::Number { least, .. } => least,
        _ => 0,
    }
}

/// Whether one of the keys has this name.
pub fn is_known(keys: &[Key], name: &str) -> bool
    ensures { result ≡ spec.is_known (spec.keys_view keys.now) name.now }
{
    for key in keys {
        if name == key.name {
            return true;
        }
    }
    false
}

/// What is wanted, in words.
impl fmt::Display for KeyValue {
    fn fmt<W: fmt::Write>(&self, out: &mut fmt::Formatter<W>) -> fmt::Result {
        match self {
            KeyValue::Number { least, most } => {
                write!(out, "a number from {least} to {most} is wanted")
            }
            KeyValue::Boolean => out.write_str("true or false is wanted"),
            KeyValue::Text => out.write_str("a text is wanted"),
            KeyValue::Bytes { least, most } => {
                write!(out, "a text of {least} to {most} bytes is wanted")
            }
            KeyValue::Texts => out.write_str("a list of texts is wanted"),
            KeyValue::Table => out.write_str("a table is wanted"),
            KeyValue::Address => out.write_str(
                "an address and a port from 1 to 65535 are wanted, as 127.0.0.1:4780",
            ),
            KeyValue::Hosts => out.write_str("a list of names or addresses is wanted"),
        }
    }
}
