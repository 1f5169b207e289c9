//! A place in a settings file, with texts of its own.

ghost use Rattle.std.specs.Prelude.{◌≡◌, IfOk};
ghost use Rattle.pool_settings.specs.Place.{place_view};
ghost use Rattle.plan_commands.specs.Mistake.{kept_view};

use pool_settings::Place;
use std::alloc::{AllocError, Global};

/// The place with texts of its own. The only error is out of memory.
pub fn keep(alloc: Global, place: &Place<&str>) -> Result<Place<String>, AllocError>
    ensures { IfOk result (λ kept. kept_view kept ≡ place_view (λ t. t.now) place.now) }
{
    let kept = match *place {
        Place::Text { line, column } => Place::Text { line, column },
        Place::Key(key) => Place::Key(String::from_str(alloc, key)?),
        Place::Entry(section, name) => Place::Entry(section, String::from_str(alloc, name)?),
        Place::EntryKey(section, name, key) => Place::EntryKey(
            section,
            String::from_str(alloc, name)?,
            String::from_str(alloc, key)?,
        ),
        Place::Listed(machine, function) => Place::Listed(
            String::from_str(alloc, machine)?,
            String::from_str(alloc, function)?,
        ),
        Place::Count(counted) => Place::Count(counted),
    };
    Ok(kept)
}

/// The place, which lends its texts.
pub fn lent(place: &Place<String>) -> Place<&str>
    ensures { place_view (λ t. t.now) result ≡ kept_view place.now }
{
    match place {
        Place::Text { line, column } => Place::Text {
            line: *line,
            column: *column,
        },
        Place::Key(key) => Place::Key(key.as_str()),
        Place::Entry(section, name) => Place::Entry(*section, name.as_str()),
        Place::EntryKey(section, name, key) => {
            Place::EntryKey(*section, name.as_str(), key.as_str())
        }
        Place::Listed(machine, function) => Place::Listed(machine.as_str(), function.as_str()),
        Place::Count(counted) => Place::Count(*counted),
    }
}
