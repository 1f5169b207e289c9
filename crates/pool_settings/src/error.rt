//! Why a settings file is not taken.

ghost use Rattle.std.specs.Prelude.{◌≡◌};

use refusal::{Label, Labelled};
use std::alloc::AllocError;
use thiserror::Error;

/// Why a settings file is not taken, in the order in which it is looked for: each check over the whole file before the next.
#[derive(Clone, Copy, Debug, PartialEq, Eq, Error)]
pub enum SettingsError {
    /// The file is not UTF-8, or not TOML.
    #[error("the file is not TOML")]
    Text,
    /// `version` is missing, or is not the number 1 or 2.
    #[error("`version` has to be 1 or 2")]
    Version,
    /// A table has a key that settings of this version do not have.
    #[error("there is an unknown key")]
    UnknownKey,
    /// `functions`, `machines`, or a machine's `workers` or `functions` is missing.
    #[error("a required key is missing")]
    MissingKey,
    /// A function or a machine has a name that is not 1 to 64 bytes from `!` to `~`, or a machine's holds `/` or `#`.
    #[error("a function or a machine has a bad name")]
    BadName,
    /// A value has another type than its key needs, or is out of range.
    #[error("a value has the wrong type or is out of range")]
    BadValue,
    /// A machine lists a function that `functions` does not have.
    #[error("a machine lists an unknown function")]
    UnknownFunction,
    /// There are more than 256 machines, 1,024 functions or 4,096 workers in all.
    #[error("there are too many machines, functions or workers")]
    TooMany,
    /// A growth was refused while the file was read.
    #[error("out of memory")]
    Memory,
}

/// The number of a refusal is its place in the order in which it is looked for, from 1 to 9.
impl Labelled for SettingsError {
    ghost use Rattle.pool_settings.specs.SettingsRefusals.{settings_label};

    ghost label = { settings_label };

    fn label(&self) -> Label {
        match self {
            SettingsError::Text => Label::new(1, "Text"),
            SettingsError::Version => Label::new(2, "Version"),
            SettingsError::UnknownKey => Label::new(3, "UnknownKey"),
            SettingsError::MissingKey => Label::new(4, "MissingKey"),
            SettingsError::BadName => Label::new(5, "BadName"),
            SettingsError::BadValue => Label::new(6, "BadValue"),
            SettingsError::UnknownFunction => Label::new(7, "UnknownFunction"),
            SettingsError::TooMany => Label::new(8, "TooMany"),
            SettingsError::Memory => Label::new(9, "Memory"),
        }
    }
}

impl From<AllocError> for SettingsError {
    ghost use Rattle.pool_settings.specs.declared.error.SettingsError.TheVariants.{Memory};

    ghost from_gives = { λ _ f. f ≡ Memory };

    fn from(_: AllocError) -> SettingsError {
        SettingsError::Memory
    }
}
