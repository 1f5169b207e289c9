//! The address of a socket of this machine.

ghost use Rattle.std.specs.Prelude.{◌≡◌};
ghost use Rattle.service_manager.specs.Address as spec;

use crate::error::AddressError;
use libc::net;
use std::marker::Model;

/// The most bytes of a name. The system takes 108, of which the last is a NUL.
const LONGEST_NAME: usize = 107;

/// How many bytes stand before the name: the number of the family of addresses.
const FAMILY_LENGTH: usize = 2;

/// The address of a socket of this machine. Clauses see it as the bytes that the system reads.
#[derive(Drop)]
pub struct SocketAddress {
    bytes: [u8; net::_SS_SIZE],
    length: u32,
}

impl Model for SocketAddress {
    ghost use Rattle.std.specs.Prelude.{ℕ, ◌≤◌, List, take};

    ghost Value = { List ℕ };

    ghost view = { λ address. take address.length address.bytes };

    ghost invariant = { λ address. address.length ≤ 128 };
}

impl SocketAddress {
    /// The address of a path, or of an abstract name, which begins with `@`. The error is the first that is so.
    pub fn of_name(name: &[u8]) -> Result<SocketAddress, AddressError>
        ensures { result ≡ spec.address_of name.now }
    {
        if name.is_empty() {
            return Err(AddressError::Empty);
        }
        if name[0] != b'/' && name[0] != b'@' {
            return Err(AddressError::NoName);
        }
        if name.len() > LONGEST_NAME {
            return Err(AddressError::TooLong);
        }
        let mut bytes = [0u8; net::_SS_SIZE];
        let end = FAMILY_LENGTH + name.len();
        bytes[..FAMILY_LENGTH].copy_from_slice(&(net::AF_UNIX as u16).to_ne_bytes());
        bytes[FAMILY_LENGTH..end].copy_from_slice(name);
        if name[0] == b'@' {
            bytes[FAMILY_LENGTH] = 0;
        }
        Ok(SocketAddress {
            bytes,
            length: end as u32,
        })
    }

    /// Sends bytes there, as one datagram, over a socket of this descriptor. It does not wait. Below 0 if they were not sent.
    pub(crate) fn send(&self, fd: i32, bytes: &[u8]) -> isize {
        let flags = net::MSG_NOSIGNAL | net::MSG_DONTWAIT;
        unsafe { net::sendto(fd, bytes, flags, &self.bytes, self.length) }
    }
}
