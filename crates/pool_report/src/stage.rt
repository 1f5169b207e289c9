//! How far a report has been read, and why a line of it is not taken.

use std::alloc::{AllocError, AllocFailed};

/// How far a report has been read.
#[derive(Clone, Copy, Debug, PartialEq, Eq)]
pub enum Stage {
    Start,
    Verdict,
    Tasks,
    Bare,
    Set,
    Leftovers,
    Done,
}

/// Why a line is not taken.
#[derive(Clone, Copy, Debug, PartialEq, Eq)]
pub enum Misread {
    /// It has not the shape of a line, or is out of its place or order.
    Bad,
    /// It is in its place, and its worker, machine or function is none of the settings.
    Unknown,
    /// Memory was refused.
    Memory,
}

impl From<AllocError> for Misread {
    ghost use Rattle.std.specs.Prelude.{◌≡◌};
    ghost use Rattle.pool_report.specs.declared.stage.Misread.TheVariants.{Memory};

    ghost from_gives = { λ _ f. f ≡ Memory };

    fn from(_: AllocError) -> Misread {
        Misread::Memory
    }
}

impl<T: Drop> From<AllocFailed<T>> for Misread {
    ghost use Rattle.std.specs.Prelude.{◌≡◌};
    ghost use Rattle.pool_report.specs.declared.stage.Misread.TheVariants.{Memory};

    ghost from_gives = { λ _ f. f ≡ Memory };

    fn from(_: AllocFailed<T>) -> Misread {
        Misread::Memory
    }
}
