//! How often a service manager wants to be told that this program is alive.

ghost use Rattle.std.specs.Prelude.{◌≡◌};
ghost use Rattle.service_manager.specs.Watchdog as spec;

use crate::error::ManagerError;
use std::alloc::Alloc;
use std::env;
use std::env::{Env, VarError};
use text_pieces::number_u64;

/// The microseconds of two milliseconds: each sign of life is to come after half of the time that the service manager waits for one.
const TWO_MILLISECONDS_US: u64 = 2000;

/// After how many milliseconds the service manager is to be told again that this program is alive, by the text of WATCHDOG_USEC: half of
/// the time that it waits. None if that is no number of microseconds, or not one millisecond.
pub fn alive_every_ms(text: &[u8]) -> Option<u64>
    ensures { result ≡ spec.alive_every_ms text.now }
{
    match number_u64(text)? / TWO_MILLISECONDS_US {
        0 => None,
        half => Some(half),
    }
}

/// The same of the environment's WATCHDOG_USEC, and None if it has none: then nobody waits for a sign of life.
pub fn watchdog_of<R: Env + Alloc>(rt: &R) -> Result<Option<u64>, ManagerError> {
    match env::var(rt, "WATCHDOG_USEC") {
        Ok(text) => match alive_every_ms(text.as_bytes()) {
            Some(milliseconds) => Ok(Some(milliseconds)),
            None => Err(ManagerError::BadWatchdog),
        },
        Err(VarError::NotPresent) => Ok(None),
        Err(VarError::NotUnicode) => Err(ManagerError::BadWatchdog),
        Err(VarError::OutOfMemory) => Err(ManagerError::Memory),
    }
}
