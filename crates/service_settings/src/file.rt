//! A services file whose text is TOML, and what it means beside the settings.

ghost use Rattle.std.specs.Prelude.{◌≡◌, IfErr, IfOk, Ok, Some, length};
ghost use Rattle.toml.specs.View.{table_view};
ghost use Rattle.file_keys.specs.Keys.{key_view, number_of};
ghost use Rattle.file_keys.specs.Tree.{has_key};
ghost use Rattle.pool_settings.specs.Reading.{tree_of};
ghost use Rattle.service_settings.specs.Fault.{RefusesPage, RefusesText, RefusesTree};
ghost use Rattle.service_settings.specs.Reading as spec;

use crate::ServicesError;
use crate::checked::{checked, checked_alone};
use crate::fault::ServicesFault;
use crate::keys::PAGE;
use crate::page::Page;
use crate::place::ServicesPlace;
use crate::services::{Services, services_of};
use crate::tree::entry_table;
use file_keys::{Key, number_of, value_at};
use pool_settings::{Place, Section, Settings, SettingsFault, SettingsFile};
use std::alloc::Global;
use toml::Table;

/// A services file whose text is TOML. A key with a default that it does not give has its default.
#[derive(Drop)]
pub struct ServicesFile {
    /// The tree of the file.
    pub tree: Table,
}

impl ServicesFile {
    /// Reads the text of a services file, whether its services are good or not. The errors are `Text`, with its place, and `Memory`. A
    /// text that is not UTF-8 is at fault after its last character.
    pub fn read(alloc: Global, text: &[u8]) -> Result<ServicesFile, ServicesFault<'_>>
        ensures ok { IfOk result (λ file. tree_of text.now ≡ Some (table_view file.tree)) }
        ensures refused { IfErr result (RefusesText text.now) }
    {
        match SettingsFile::read(alloc, text) {
            Ok(file) => Ok(ServicesFile { tree: file.tree }),
            Err(SettingsFault::At(_, place)) => Err(ServicesFault::At(
                ServicesError::Text,
                ServicesPlace::At(place),
            )),
            Err(SettingsFault::Memory) => Err(ServicesFault::Memory),
        }
    }

    /// What the file means beside the settings, or its first fault. The place is the first in the order of `ServicesError`: the top table
    /// before `functions`, that before `machines`, and that before `page`. Names and unknown keys come in byte order, other keys in
    /// the order of the rows of `keys.rt`. `Memory` comes only if there is no fault.
    pub fn services<'f>(
        &'f self,
        alloc: Global,
        settings: &'f Settings,
    ) -> Result<Services, ServicesFault<'f>>
        ensures ok { IfOk result (λ services. spec.read_tree settings.now (table_view self.now.tree) ≡ Ok services) }
        ensures refused { IfErr result (RefusesTree settings.now (table_view self.now.tree)) }
        ensures machines { IfOk result (λ services. length services.urls ≡ length settings.now.machines) }
        ensures functions { IfOk result (λ services. length services.timeouts ≡ length settings.now.functions) }
    {
        checked(settings, &self.tree)?;
        let services = services_of(alloc, settings, &self.tree)?;
        Ok(services)
    }

    /// The page that the file writes, whatever the settings are. The first of the checks of versions, keys and values that the file fails
    /// is its fault; if it fails none and has no page, that is `MissingKey` at `page`. Else only memory may be refused.
    pub fn page(&self, alloc: Global) -> Result<Page, ServicesFault<'_>>
        ensures ok { IfOk result (λ page. spec.page_reading (table_view self.now.tree) ≡ Ok page) }
        ensures refused { IfErr result (RefusesPage (table_view self.now.tree)) }
    {
        checked_alone(&self.tree)?;
        match Page::read(alloc, &self.tree)? {
            Some(page) => Ok(page),
            None => Err(ServicesFault::At(
                ServicesError::MissingKey,
                ServicesPlace::At(Place::Key(PAGE.name)),
            )),
        }
    }

    /// The number at a key of the top table, or its default.
    pub fn number(&self, key: &Key) -> Option<u32>
        ensures { result ≡ number_of (key_view key.now) (table_view self.now.tree) }
    {
        number_of(key, &self.tree)
    }

    /// Whether the top table has a key.
    pub fn has_key(&self, key: &str) -> bool
        ensures { result ≡ has_key key.now (table_view self.now.tree) }
    {
        value_at(&self.tree, key).is_some()
    }

    /// Whether the table of a function has a key. A function that is not there has none.
    pub fn function_has_key(&self, function: &str, key: &str) -> bool
        ensures { result ≡ spec.function_has_key function.now key.now (table_view self.now.tree) }
    {
        match entry_table(Section::Functions, &self.tree, function) {
            Some(table) => value_at(table, key).is_some(),
            None => false,
        }
    }
}
