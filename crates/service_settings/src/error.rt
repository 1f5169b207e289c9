//! Why a services file is not taken.

ghost use Rattle.std.specs.Prelude.{◌≡◌};

use refusal::{Label, Labelled};
use std::alloc::AllocError;
use thiserror::Error;

/// Why a services file is not taken, in the order in which it is looked for: each check over the whole file before the next.
#[derive(Clone, Copy, Debug, PartialEq, Eq, Error)]
pub enum ServicesError {
    /// The file is not UTF-8, or not TOML.
    #[error("the file is not TOML")]
    Text,
    /// `version` is missing, or is not the number 1.
    #[error("`version` has to be 1")]
    Version,
    /// A table has a key that services of this version do not have.
    #[error("there is an unknown key")]
    UnknownKey,
    /// `page` has no `listen`.
    #[error("a required key is missing")]
    MissingKey,
    /// A value has another type than its key needs, or is out of range.
    #[error("a value has the wrong type or is out of range")]
    BadValue,
    /// The settings do not have a machine of this name.
    #[error("the settings do not have this machine")]
    UnknownMachine,
    /// The settings do not have a function of this name.
    #[error("the settings do not have this function")]
    UnknownFunction,
    /// A URL begins with `https://`. Services are asked over plain HTTP.
    #[error("a URL with https is not supported")]
    Https,
    /// A URL is not `http://HOST[:PORT][/PATH]`.
    #[error("a URL is not of the form http://HOST[:PORT][/PATH]")]
    BadUrl,
    /// The settings have a function named `.` or `..`. Servers make other paths of these.
    #[error("a function with this name has no path at a service")]
    DotFunction,
    /// The settings have a machine without a URL: it has none of its own, and there is none at the top.
    #[error("a machine has no URL")]
    NoUrl,
    /// A growth was refused while the file was read.
    #[error("out of memory")]
    Memory,
}

/// The number of a refusal is its place in the order in which it is looked for, from 1 to 12.
impl Labelled for ServicesError {
    ghost use Rattle.service_settings.specs.Refusals.{services_label};

    ghost label = { services_label };

    fn label(&self) -> Label {
        match self {
            ServicesError::Text => Label::new(1, "Text"),
            ServicesError::Version => Label::new(2, "Version"),
            ServicesError::UnknownKey => Label::new(3, "UnknownKey"),
            ServicesError::MissingKey => Label::new(4, "MissingKey"),
            ServicesError::BadValue => Label::new(5, "BadValue"),
            ServicesError::UnknownMachine => Label::new(6, "UnknownMachine"),
            ServicesError::UnknownFunction => Label::new(7, "UnknownFunction"),
            ServicesError::Https => Label::new(8, "Https"),
            ServicesError::BadUrl => Label::new(9, "BadUrl"),
            ServicesError::DotFunction => Label::new(10, "DotFunction"),
            ServicesError::NoUrl => Label::new(11, "NoUrl"),
            ServicesError::Memory => Label::new(12, "Memory"),
        }
    }
}

impl From<AllocError> for ServicesError {
    ghost use Rattle.service_settings.specs.declared.error.ServicesError.TheVariants.{Memory};

    ghost from_gives = { λ _ f. f ≡ Memory };

    fn from(_: AllocError) -> ServicesError {
        ServicesError::Memory
    }
}
