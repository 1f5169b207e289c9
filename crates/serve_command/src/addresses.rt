//! Where the hosts of a farm were reached last.

use http_jobs::LastAddress;
use std::alloc::{AllocError, Global};
use std::sync::{Arc, Mutex, Wait};

/// A host, and the address that took the last connection to it.
#[derive(Drop)]
struct Place {
    /// Its name, as `host:port`.
    host: String,
    last: Arc<LastAddress>,
}

/// Where the hosts of a farm were reached last, for all workers that dial them.
#[derive(Drop)]
pub struct Addresses {
    places: Mutex<Vec<Place>>,
}

impl Addresses {
    /// Those of a farm that has dialled no host.
    pub fn new(alloc: Global) -> Addresses {
        Addresses {
            places: Mutex::new(Vec::new(alloc)),
        }
    }

    /// That of this host. The only error is out of memory.
    pub fn of<R: Wait>(
        &self,
        rt: &R,
        alloc: Global,
        host: &str,
    ) -> Result<Arc<LastAddress>, AllocError> {
        let mut held = self.places.lock(rt);
        if let Some(place) = held.iter().find(|place| place.host.as_str() == host) {
            return Arc::try_clone(&place.last);
        }
        let last = Arc::new(alloc, LastAddress::new())?;
        let place = Place {
            host: String::from_str(alloc, host)?,
            last: Arc::try_clone(&last)?,
        };
        held.push(place)?;
        Ok(last)
    }
}
