//! Settings and services as every command reads them.

ghost use Rattle.std.specs.Prelude.{◌≡◌, ℕ, Err, IfErr, IfOk, List, Some, length};
ghost use Rattle.toml.specs.View.{table_view};
ghost use Rattle.pool_settings.specs.Reading.{tree_of};
ghost use Rattle.pool_settings.specs.Settings as meant;
ghost use Rattle.plan_commands.specs.Mistake as spec;
ghost use Rattle.plan_commands.specs.ServicesMistake.{KeepsServices, ReadsPage, ReadsServices};

use crate::fault::Fault;
use crate::mistake::Mistake;
use crate::services_mistake::ServicesMistake;
use pool_settings::{Settings, SettingsFault, SettingsFile};
use service_settings::{Page, Services, ServicesFault, ServicesFile};
use std::alloc::Global;

impl Fault {
    /// The fault of a settings file that is not taken, with its place; or `Memory`, if there is none for the names of the place.
    pub fn of_settings(alloc: Global, fault: &SettingsFault<'_>) -> Fault
        ensures { spec.Keeps fault.now result }
    {
        match *fault {
            SettingsFault::At(error, ref place) => match Mistake::new(alloc, error, place) {
                Ok(mistake) => Fault::Settings(mistake),
                Err(_) => Fault::Memory,
            },
            SettingsFault::Memory => Fault::Memory,
        }
    }

    /// The fault of a services file that is not taken, with its place; or `Memory`, if there is none for the names of the place.
    pub fn of_services(alloc: Global, fault: &ServicesFault<'_>) -> Fault
        ensures { KeepsServices fault.now result }
    {
        match *fault {
            ServicesFault::At(error, ref place) => match ServicesMistake::new(alloc, error, place) {
                Ok(mistake) => Fault::Services(mistake),
                Err(_) => Fault::Memory,
            },
            ServicesFault::Memory => Fault::Memory,
        }
    }
}

/// The fault of a settings file with this text, with what the file has at its place.
fn fault_in(alloc: Global, settings_text: &[u8], fault: &SettingsFault<'_>) -> Fault
    ensures { spec.Keeps fault.now result }
{
    match Fault::of_settings(alloc, fault) {
        Fault::Settings(mistake) => Fault::Settings(mistake.with_found(alloc, settings_text)),
        other => other,
    }
}

/// Reads the text of a settings file, whether its settings are good or not. The fault is that of a text that is no TOML, with its place, or
/// `Memory`.
pub fn read_settings_file(alloc: Global, settings_text: &[u8]) -> Result<SettingsFile, Fault>
    ensures ok { IfOk result (λ file. tree_of settings_text.now ≡ Some (table_view file.tree)) }
    ensures refused { IfErr result (λ fault. spec.Reads settings_text.now (Err fault)) }
{
    match SettingsFile::read(alloc, settings_text) {
        Ok(file) => Ok(file),
        Err(fault) => Err(fault_in(alloc, settings_text, &fault)),
    }
}

/// The settings of the file that was read from this text, as every command reads them. The fault is the first mistake of the file with its
/// place and what the file has there, or `Memory`.
pub fn settings_in(
    alloc: Global,
    settings_text: &[u8],
    file: &SettingsFile,
) -> Result<Settings, Fault>
    requires { tree_of settings_text.now ≡ Some (table_view file.now.tree) }
    ensures reads { spec.Reads settings_text.now result }
{
    match file.settings(alloc) {
        Ok(settings) => Ok(settings),
        Err(fault) => Err(fault_in(alloc, settings_text, &fault)),
    }
}

/// Reads the text of a settings file, as every command does. The fault is the first mistake of the file with its place and what the file
/// has there, or `Memory`.
pub fn read_settings(alloc: Global, settings_text: &[u8]) -> Result<Settings, Fault>
    ensures reads { spec.Reads settings_text.now result }
{
    let file = read_settings_file(alloc, settings_text)?;
    settings_in(alloc, settings_text, &file)
}

/// Reads the text of a services file, whether its services are good or not. The fault is that of a text that is no TOML, with its place, or
/// `Memory`.
pub fn read_services_file(alloc: Global, services_text: &[u8]) -> Result<ServicesFile, Fault>
    ensures ok { IfOk result (λ file. tree_of services_text.now ≡ Some (table_view file.tree)) }
    ensures refused { IfErr result (λ fault. (p : meant.Settings) → ReadsServices p services_text.now (Err fault)) }
    ensures page { IfErr result (λ fault. ReadsPage services_text.now (Err fault)) }
{
    match ServicesFile::read(alloc, services_text) {
        Ok(file) => Ok(file),
        Err(fault) => Err(Fault::of_services(alloc, &fault)),
    }
}

/// What a services file means beside the settings. The fault is its first mistake with its place, or `Memory`.
pub fn services_in(
    alloc: Global,
    file: &ServicesFile,
    settings: &Settings,
) -> Result<Services, Fault>
    ensures reads { (text : List ℕ) → tree_of text ≡ Some (table_view file.now.tree) → ReadsServices settings.now text result }
    ensures machines { IfOk result (λ services. length services.urls ≡ length settings.now.machines) }
    ensures functions { IfOk result (λ services. length services.timeouts ≡ length settings.now.functions) }
{
    match file.services(alloc, settings) {
        Ok(services) => Ok(services),
        Err(fault) => Err(Fault::of_services(alloc, &fault)),
    }
}

/// Reads the text of a services file beside the settings. The fault is the first mistake of the file with its place, or `Memory`.
pub fn read_services(
    alloc: Global,
    services_text: &[u8],
    settings: &Settings,
) -> Result<Services, Fault>
    ensures reads { ReadsServices settings.now services_text.now result }
    ensures machines { IfOk result (λ services. length services.urls ≡ length settings.now.machines) }
    ensures functions { IfOk result (λ services. length services.timeouts ≡ length settings.now.functions) }
{
    let file = read_services_file(alloc, services_text)?;
    services_in(alloc, &file, settings)
}

/// The page that a services file writes, whatever the settings are. The fault is the first mistake that shows without them, with its place,
/// also that there is no page, or `Memory`.
pub fn read_page(alloc: Global, services_text: &[u8]) -> Result<Page, Fault>
    ensures { ReadsPage services_text.now result }
{
    let file = read_services_file(alloc, services_text)?;
    match file.page(alloc) {
        Ok(page) => Ok(page),
        Err(fault) => Err(Fault::of_services(alloc, &fault)),
    }
}
