//! What the settings may have, if a mistake breaks a bound.

use file_keys::{Key, KeyValue};
use plan_commands::Mistake;
use pool_settings::{
    Counted, FUNCTION_KEYS, MACHINE_KEYS, Place, Section, SettingsError, TOP_KEYS,
};
use std::fmt;

/// What is wanted in the place of a mistake.
#[derive(Clone, Copy)]
pub enum Wanted {
    /// What the row of a key says.
    Value(KeyValue),
    /// What these words say.
    Words(&'static str),
}

impl fmt::Display for Wanted {
    fn fmt<W: fmt::Write>(&self, out: &mut fmt::Formatter<W>) -> fmt::Result {
        match self {
            Wanted::Value(value) => write!(out, "{value}"),
            Wanted::Words(words) => out.write_str(words),
        }
    }
}

/// What is wanted in the place of the mistake, if the refusal does not say it: another version, a range, a type, or how many there may be.
pub fn wanted_of_settings(mistake: &Mistake) -> Option<Wanted> {
    match mistake.error {
        SettingsError::UnknownKey => known_later(&mistake.place),
        SettingsError::BadValue => Some(Wanted::Value(wanted_value(&mistake.place))),
        SettingsError::BadName => Some(Wanted::Words(wanted_name(&mistake.place))),
        SettingsError::TooMany => Some(Wanted::Words(at_most(&mistake.place))),
        _ => None,
    }
}

/// The version of a key that settings of the first one do not have.
fn known_later(place: &Place<String>) -> Option<Wanted> {
    match place {
        Place::EntryKey(Section::Functions, _, key) if key.as_str() == "most" => {
            Some(Wanted::Words("`most` wants `version = 2`"))
        }
        _ => None,
    }
}

fn wanted_value(place: &Place<String>) -> KeyValue {
    match place {
        Place::Key(key) => wanted_at(&TOP_KEYS, key.as_str()),
        Place::EntryKey(Section::Functions, _, key) => wanted_at(&FUNCTION_KEYS, key.as_str()),
        Place::EntryKey(Section::Machines, _, key) => wanted_at(&MACHINE_KEYS, key.as_str()),
        _ => KeyValue::Table,
    }
}

/// What is wanted at one of these keys.
pub fn wanted_at(keys: &[Key], name: &str) -> KeyValue {
    match keys.iter().find(|key| key.name == name) {
        Some(key) => key.value,
        None => KeyValue::Table,
    }
}

fn wanted_name(place: &Place<String>) -> &'static str {
    match place {
        Place::Entry(Section::Machines, _) => "1 to 64 bytes from ! to ~ but / and # are wanted",
        _ => "1 to 64 bytes from ! to ~ are wanted",
    }
}

fn at_most(place: &Place<String>) -> &'static str {
    match place {
        Place::Count(Counted::Machines) => "at most 256",
        Place::Count(Counted::Functions) => "at most 1024",
        _ => "at most 4096",
    }
}
