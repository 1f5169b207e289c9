//! The checks of a settings file, one after another.

ghost use Rattle.std.specs.Prelude.{◌≡◌, ◌≢◌, IfErr, IfOk};
ghost use Rattle.toml.specs.View.{table_view};
ghost use Rattle.pool_settings.specs.Fault.{HasTables, error_of, fault_in};
ghost use Rattle.pool_settings.specs.Reading as spec;

use crate::SettingsError;
use crate::checks::{Tables, bad_name, bad_version, missing_key, tables_of, unknown_key};
use crate::fault::SettingsFault;
use crate::limits::{too_many, unknown_function};
use toml::Table;

/// The two tables of a tree that passes the checks, or the first check that it fails, with its place.
pub fn checked(tree: &Table) -> Result<Tables<'_>, SettingsFault<'_>>
    ensures first { fault_in result ≡ spec.first_fault (table_view tree.now) }
    ensures refusal { IfErr result (λ f. error_of f ≢ SettingsError.Memory) }
    ensures tables { IfOk result (HasTables (table_view tree.now)) }
{
    if let Some(place) = bad_version(tree) {
        return Err(SettingsFault::At(SettingsError::Version, place));
    }
    if let Some(place) = unknown_key(tree) {
        return Err(SettingsFault::At(SettingsError::UnknownKey, place));
    }
    if let Some(place) = missing_key(tree) {
        return Err(SettingsFault::At(SettingsError::MissingKey, place));
    }
    if let Some(place) = bad_name(tree) {
        return Err(SettingsFault::At(SettingsError::BadName, place));
    }
    let tables = match tables_of(tree) {
        Ok(tables) => tables,
        Err(place) => return Err(SettingsFault::At(SettingsError::BadValue, place)),
    };
    if let Some(place) = unknown_function(tree) {
        return Err(SettingsFault::At(SettingsError::UnknownFunction, place));
    }
    match too_many(tree) {
        Some(place) => Err(SettingsFault::At(SettingsError::TooMany, place)),
        None => Ok(tables),
    }
}
