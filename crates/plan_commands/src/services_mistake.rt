//! A mistake in a services file: what is wrong, and where.

ghost use Rattle.std.specs.Prelude.{◌≡◌, IfOk};
ghost use Rattle.service_settings.specs.Place.{place_view};
ghost use Rattle.plan_commands.specs.ServicesMistake.{kept_view, mistake_view};

use crate::place::{keep, lent};
use service_settings::{ServicesError, ServicesPlace};
use std::alloc::{AllocError, Global};

/// The first mistake of a services file beside the settings: what is wrong, and where that is. With `Text` the place is a line and a
/// column, with `DotFunction` and `NoUrl` a name of the settings, and else a key or a name of the file.
#[derive(Debug, PartialEq, Eq, Drop)]
pub struct ServicesMistake {
    /// What is wrong, which is not `Memory`.
    pub error: ServicesError,
    /// Where that is.
    pub place: ServicesPlace<String>,
}

impl ServicesMistake {
    /// The mistake with texts of its own, so that it outlives the file and the settings. The only error is out of memory.
    pub fn new(
        alloc: Global,
        error: ServicesError,
        place: &ServicesPlace<&str>,
    ) -> Result<ServicesMistake, AllocError>
        ensures { IfOk result (λ mistake. mistake_view mistake ≡ (error, place_view (λ t. t.now) place.now)) }
    {
        let place = keep_place(alloc, place)?;
        Ok(ServicesMistake { error, place })
    }

    /// The place, which lends its texts.
    pub fn lent_place(&self) -> ServicesPlace<&str>
        ensures { place_view (λ t. t.now) result ≡ kept_view self.now.place }
    {
        match &self.place {
            ServicesPlace::At(place) => ServicesPlace::At(lent(place)),
            ServicesPlace::PageKey(key) => ServicesPlace::PageKey(key.as_str()),
        }
    }
}

/// The place with texts of its own.
fn keep_place(
    alloc: Global,
    place: &ServicesPlace<&str>,
) -> Result<ServicesPlace<String>, AllocError>
    ensures { IfOk result (λ kept. kept_view kept ≡ place_view (λ t. t.now) place.now) }
{
    let kept = match *place {
        ServicesPlace::At(ref place) => ServicesPlace::At(keep(alloc, place)?),
        ServicesPlace::PageKey(key) => ServicesPlace::PageKey(String::from_str(alloc, key)?),
    };
    Ok(kept)
}
