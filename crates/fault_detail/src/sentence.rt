//! A fault in a sentence.

use crate::wanted::wanted_of_settings;
use crate::wanted_services::wanted_of_services;
use devices::InputError;
use plan_commands::{Fault, Mistake, ServicesMistake};
use std::alloc::{AllocError, Global};

/// What is wrong with the settings, what is wanted in its place, and what the file has there.
fn of_mistake(alloc: Global, mistake: &Mistake) -> Result<String, AllocError> {
    match (wanted_of_settings(mistake), &mistake.found) {
        (Some(words), Some(found)) => format!(in alloc; "{} ({words}, not {found})", mistake.error),
        (Some(words), None) => format!(in alloc; "{} ({words})", mistake.error),
        (None, Some(found)) => format!(in alloc; "{} ({found})", mistake.error),
        (None, None) => format!(in alloc; "{}", mistake.error),
    }
}

/// What is wrong with the services, and what is wanted in its place.
fn of_services(alloc: Global, mistake: &ServicesMistake) -> Result<String, AllocError> {
    match wanted_of_services(mistake) {
        Some(words) => format!(in alloc; "{} ({words})", mistake.error),
        None => format!(in alloc; "{}", mistake.error),
    }
}

/// What is wrong, in a sentence. Refusals that have one of their own are displayed by it.
pub fn sentence(alloc: Global, fault: &Fault) -> Result<String, AllocError> {
    match fault {
        Fault::Settings(mistake) => of_mistake(alloc, mistake),
        Fault::Services(mistake) => of_services(alloc, mistake),
        Fault::UnknownWorker(_) => String::from_str(alloc, "the settings have no such worker"),
        Fault::Status(error) => format!(in alloc; "{error}"),
        Fault::Report(error) => format!(in alloc; "{error}"),
        Fault::BadCommand(line) => format!(in alloc; "line {line} is no command"),
        Fault::File(_, error) => format!(in alloc; "{error}"),
        Fault::TooLong => format!(in alloc; "{}", InputError::TooLong),
        Fault::ReadFault => format!(in alloc; "{}", InputError::ReadFault),
        Fault::WriteFault => String::from_str(alloc, "a write failed"),
        Fault::Page(error) => format!(in alloc; "{error}"),
        Fault::Memory => String::from_str(alloc, "out of memory"),
    }
}
