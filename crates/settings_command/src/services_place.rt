//! Where a fault of a services file is, as a line.

ghost use Rattle.std.specs.Prelude.{◌≡◌, IfOk, string_bytes};
ghost use Rattle.service_settings.specs.Place.{place_view};
ghost use Rattle.settings_command.specs.Place as spec;

use crate::place::{place_text, push_key};
use service_settings::ServicesPlace;
use std::alloc::{AllocError, Global};

/// The line of a key of the page.
fn page_key_text(alloc: Global, key: &str) -> Result<String, AllocError>
    ensures { IfOk result (λ text. string_bytes text ≡ spec.line_of_page_key key.now) }
{
    let mut out = String::new(alloc);
    out.push_str("at page.")?;
    push_key(&mut out, key)?;
    out.push_str("\n")?;
    Ok(out)
}

/// The line that says where a fault of services is: as [`place_text`] has it, and `at page.KEY` for a key of the page. The only error is
/// out of memory.
pub fn services_place_text(alloc: Global, place: &ServicesPlace<&str>) -> Result<String, AllocError>
    ensures { IfOk result (λ text. string_bytes text ≡ spec.line_of_services_place (place_view (λ t. t.now) place.now)) }
{
    match place {
        ServicesPlace::At(place) => place_text(alloc, place),
        ServicesPlace::PageKey(key) => page_key_text(alloc, key),
    }
}
