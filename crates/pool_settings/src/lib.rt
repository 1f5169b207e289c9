//! The settings of a pool: read from a TOML file, checked, and numbered by name in byte order.
#![tactic(auto)]

mod bounds;
mod build;
mod checked;
mod checks;
mod error;
mod fault;
mod file;
mod keys;
mod law;
mod limits;
mod name_rules;
mod names;
mod place;
mod planning;
mod settings;
mod slots;
mod tree;

pub use error::SettingsError;
pub use fault::SettingsFault;
pub use file::SettingsFile;
pub use keys::{FUNCTION_KEYS, MACHINE_KEYS, TOP_KEYS, keys_text};
pub use law::names_are_one_to_one;
pub use name_rules::{is_machine_name, is_name};
pub use place::{Counted, Place, Section};
pub use settings::Settings;
