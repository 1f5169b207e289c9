//! A mistake in a settings file: what is wrong, and where.

ghost use Rattle.std.specs.Prelude.{◌≡◌, IfOk};
ghost use Rattle.pool_settings.specs.Place.{place_view};
ghost use Rattle.plan_commands.specs.Mistake.{kept_view, mistake_view};

use crate::found::found;
use crate::place::{keep, lent};
use pool_settings::{Place, SettingsError};
use std::alloc::{AllocError, Global};

/// The first mistake of a settings file: what is wrong, and where in the file that is. With `Text` the place is a line and a column, with
/// `TooMany` what there are too many of, and else a key or a name.
#[derive(Debug, PartialEq, Eq, Drop)]
pub struct Mistake {
    /// What is wrong, which is not `Memory`.
    pub error: SettingsError,
    /// Where in the file that is.
    pub place: Place<String>,
    /// What the file has there, in words, if that is known and there was memory for it.
    pub found: Option<String>,
}

impl Mistake {
    /// The mistake with texts of its own, so that it outlives the file. What the file has there is left open. The only error is out of
    /// memory.
    pub fn new(
        alloc: Global,
        error: SettingsError,
        place: &Place<&str>,
    ) -> Result<Mistake, AllocError>
        ensures { IfOk result (λ mistake. mistake_view mistake ≡ (error, place_view (λ t. t.now) place.now)) }
    {
        let place = keep(alloc, place)?;
        Ok(Mistake {
            error,
            place,
            found: None,
        })
    }

    /// The mistake, with what this text of the file has at its place, if there is memory for it.
    pub fn with_found(self, alloc: Global, settings_text: &[u8]) -> Mistake
        ensures same { mistake_view result ≡ mistake_view self }
    {
        let Mistake { error, place, .. } = self;
        let found = found(alloc, settings_text, error, &place);
        Mistake {
            error,
            place,
            found,
        }
    }

    /// The place, which lends its texts.
    pub fn lent_place(&self) -> Place<&str>
        ensures { place_view (λ t. t.now) result ≡ kept_view self.now.place }
    {
        lent(&self.place)
    }
}
