//! A settings file whose text is TOML: which keys it gives, and what it means.

ghost use Rattle.std.specs.Prelude.{◌≡◌, ◌≢◌, IfErr, IfOk, None, Ok, Some, option_map};
ghost use Rattle.toml.specs.View.{table_view};
ghost use Rattle.file_keys.specs.Keys.{key_view, number_of, text_of};
ghost use Rattle.file_keys.specs.Tree.{has_key};
ghost use Rattle.pool_settings.specs.Fault.{RefusesText, RefusesTree};
ghost use Rattle.pool_settings.specs.Reading as spec;

use crate::Settings;
use crate::checked::checked;
use crate::checks::{has_key, version_in};
use crate::fault::{SettingsFault, text_fault};
use crate::keys::FUNCTIONS;
use crate::settings::settings_of;
use crate::tree::table_at;
use file_keys::{Key, number_of, text_of};
use std::alloc::Global;
use toml::Table;

/// A settings file whose text is TOML. A key with a default that it does not give has its default.
#[derive(Drop)]
pub struct SettingsFile {
    /// The tree of the file.
    pub tree: Table,
}

impl SettingsFile {
    /// Reads the text of a settings file, whether its settings are good or not. The errors are `Text`, with its place, and `Memory`. A
    /// text that is not UTF-8 is at fault after its last character.
    pub fn read(alloc: Global, text: &[u8]) -> Result<SettingsFile, SettingsFault<'_>>
        ensures ok { IfOk result (λ file. spec.tree_of text.now ≡ Some (table_view file.tree)) }
        ensures refused { IfErr result (RefusesText text.now) }
    {
        match std::str::from_utf8(text) {
            Ok(utf8) => match toml::table_from_str(alloc, utf8) {
                Ok(tree) => Ok(SettingsFile { tree }),
                Err(error) => match error.span() {
                    Some(span) => Err(text_fault(&text[..span.start])),
                    None => Err(SettingsFault::Memory),
                },
            },
            Err(error) => Err(text_fault(&text[..error.valid_up_to()])),
        }
    }

    /// What the file means, or its first fault. The place is the first in the order of `SettingsError`: the top table before `functions`,
    /// and that before `machines`. Names and unknown keys come in byte order, other keys in the order of the rows of
    /// `keys.rt`. `Memory` comes only if the file has no fault.
    pub fn settings(&self, alloc: Global) -> Result<Settings, SettingsFault<'_>>
        ensures ok { IfOk result (λ settings. spec.read_tree (table_view self.now.tree) ≡ Ok settings) }
        ensures refused { IfErr result (RefusesTree (table_view self.now.tree)) }
    {
        let tables = checked(&self.tree)?;
        let settings = settings_of(alloc, &self.tree, tables)?;
        Ok(settings)
    }

    /// The version of the file, if it is 1 or 2.
    pub fn version(&self) -> Option<u32>
        ensures { result ≡ spec.version_in (table_view self.now.tree) }
    {
        version_in(&self.tree)
    }

    /// The number at a key of the top table, or its default.
    pub fn number(&self, key: &Key) -> Option<u32>
        ensures { result ≡ number_of (key_view key.now) (table_view self.now.tree) }
    {
        number_of(key, &self.tree)
    }

    /// The text of bounded length at a key of the top table, or its default.
    pub fn text(&self, key: &Key) -> Option<&str>
        ensures { option_map (λ t. t.now) result ≡ text_of (key_view key.now) (table_view self.now.tree) }
    {
        text_of(key, &self.tree)
    }

    /// Whether the top table has a key.
    pub fn has_key(&self, key: &str) -> bool
        ensures { result ≡ has_key key.now (table_view self.now.tree) }
    {
        has_key(&self.tree, key)
    }

    /// Whether the table of a function has a key. A function that is not there has none.
    pub fn function_has_key(&self, function: &str, key: &str) -> bool
        ensures { result ≡ spec.function_has_key function.now key.now (table_view self.now.tree) }
    {
        let Some(functions) = table_at(&self.tree, FUNCTIONS.name) else {
            return false;
        };
        match table_at(functions, function) {
            Some(table) => has_key(table, key),
            None => false,
        }
    }
}
