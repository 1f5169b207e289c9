//! What the services may have, if a mistake breaks a bound.

use crate::wanted::wanted_at;
use file_keys::KeyValue;
use plan_commands::ServicesMistake;
use pool_settings::{Place, Section};
use service_settings::{
    FUNCTION_KEYS, MACHINE_KEYS, PAGE_KEYS, ServicesError, ServicesPlace, TOP_KEYS,
};

/// What is wanted in the place of the mistake, if the refusal does not say it: a range or a type.
pub fn wanted_of_services(mistake: &ServicesMistake) -> Option<KeyValue> {
    match mistake.error {
        ServicesError::BadValue => Some(wanted_value(&mistake.place)),
        _ => None,
    }
}

fn wanted_value(place: &ServicesPlace<String>) -> KeyValue {
    match place {
        ServicesPlace::At(Place::Key(key)) => wanted_at(&TOP_KEYS, key.as_str()),
        ServicesPlace::At(Place::EntryKey(Section::Functions, _, key)) => {
            wanted_at(&FUNCTION_KEYS, key.as_str())
        }
        ServicesPlace::At(Place::EntryKey(Section::Machines, _, key)) => {
            wanted_at(&MACHINE_KEYS, key.as_str())
        }
        ServicesPlace::At(_) => KeyValue::Table,
        ServicesPlace::PageKey(key) => wanted_at(&PAGE_KEYS, key.as_str()),
    }
}
