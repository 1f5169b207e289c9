//! Where a host was reached last.

use std::net::SocketAddr;
use std::sync::{Mutex, Wait};

/// The address that took the last connection to a host, for all that dial it.
#[derive(Drop)]
pub struct LastAddress {
    address: Mutex<Option<SocketAddr>>,
}

impl LastAddress {
    /// That of a host to which no connection was opened yet.
    pub fn new() -> LastAddress {
        LastAddress {
            address: Mutex::new(None),
        }
    }

    /// The address, if one took a connection.
    pub fn get<R: Wait>(&self, rt: &R) -> Option<SocketAddr> {
        *self.address.lock(rt)
    }

    /// The same without a wait. None too if somebody else reads or sets it just now.
    pub fn try_get(&self) -> Option<SocketAddr> {
        *self.address.try_lock()?
    }

    /// This address took a connection. It does not wait: if somebody else reads or sets it just now, it is not set.
    pub fn set(&self, address: SocketAddr) {
        if let Some(mut held) = self.address.try_lock() {
            *held = Some(address);
        }
    }
}
