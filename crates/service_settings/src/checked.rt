//! The checks of a services file, one after another.

ghost use Rattle.std.specs.Prelude.{◌≡◌, ◌≢◌, IfErr, None, OnOk};
ghost use Rattle.toml.specs.View.{table_view};
ghost use Rattle.service_settings.specs.Fault.{error_of, fault_in};
ghost use Rattle.service_settings.specs.Reading as spec;

use crate::ServicesError;
use crate::checks::{bad_version, dot_function, missing_key, unknown_key, unknown_name};
use crate::fault::ServicesFault;
use crate::urls::{UrlRule, no_url, wrong_url};
use crate::values::bad_value;
use pool_settings::{Section, Settings};
use toml::Table;

/// The first check of versions, keys and values that a tree fails, with its place.
pub fn checked_alone(tree: &Table) -> Result<(), ServicesFault<'_>>
    ensures first { fault_in result ≡ spec.first_fault_alone (table_view tree.now) }
    ensures refusal { IfErr result (λ f. error_of f ≢ ServicesError.Memory) }
{
    if let Some(place) = bad_version(tree) {
        return Err(ServicesFault::At(ServicesError::Version, place));
    }
    if let Some(place) = unknown_key(tree) {
        return Err(ServicesFault::At(ServicesError::UnknownKey, place));
    }
    if let Some(place) = missing_key(tree) {
        return Err(ServicesFault::At(ServicesError::MissingKey, place));
    }
    match bad_value(tree) {
        Some(place) => Err(ServicesFault::At(ServicesError::BadValue, place)),
        None => Ok(()),
    }
}

/// The first check that a tree fails beside the settings, with its place.
pub fn checked<'f>(settings: &'f Settings, tree: &'f Table) -> Result<(), ServicesFault<'f>>
    ensures first { fault_in result ≡ spec.first_fault settings.now (table_view tree.now) }
    ensures refusal { IfErr result (λ f. error_of f ≢ ServicesError.Memory) }
    ensures urls { OnOk result (spec.no_url settings.now (table_view tree.now) ≡ None) }
{
    if let Err(fault) = checked_alone(tree) {
        return Err(fault);
    }
    if let Some(place) = unknown_name(Section::Machines, settings, tree) {
        return Err(ServicesFault::At(ServicesError::UnknownMachine, place));
    }
    if let Some(place) = unknown_name(Section::Functions, settings, tree) {
        return Err(ServicesFault::At(ServicesError::UnknownFunction, place));
    }
    if let Some(place) = wrong_url(UrlRule::NoHttps, tree) {
        return Err(ServicesFault::At(ServicesError::Https, place));
    }
    if let Some(place) = wrong_url(UrlRule::Form, tree) {
        return Err(ServicesFault::At(ServicesError::BadUrl, place));
    }
    if let Some(place) = dot_function(settings) {
        return Err(ServicesFault::At(ServicesError::DotFunction, place));
    }
    match no_url(settings, tree) {
        Some(place) => Err(ServicesFault::At(ServicesError::NoUrl, place)),
        None => Ok(()),
    }
}
