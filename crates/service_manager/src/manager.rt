//! The service manager that started this program.

use crate::address::SocketAddress;
use crate::error::{ManagerError, NotTold};
use crate::notice::Notice;
use libc::net;
use os::FromRawFd;
use std::alloc::Alloc;
use std::env::{Env, VarError};
use std::os::fd::{AsRawFd, OwnedFd};
use std::{env, io};

/// A service manager that wants to be told of this program, as of a unit of systemd with `Type=notify`. It has one socket for as long as it
/// is there, so that a sign of life needs no file and no memory.
#[derive(Drop)]
pub struct ServiceManager {
    socket: OwnedFd,
    address: SocketAddress,
}

/// What the system said of its last call, which failed.
fn last_error() -> io::Error {
    io::Error::from_raw_os_error(os::errno())
}

impl ServiceManager {
    /// The service manager whose socket has this name: a path, or an abstract name, which begins with `@`.
    pub fn at(name: &[u8]) -> Result<ServiceManager, ManagerError> {
        let address = SocketAddress::of_name(name).map_err(ManagerError::Address)?;
        let fd = unsafe { net::socket(net::AF_UNIX, net::SOCK_DGRAM | net::SOCK_CLOEXEC, 0) };
        if fd < 0 {
            return Err(ManagerError::NoSocket(last_error()));
        }
        let socket = unsafe { OwnedFd::from_raw_fd(fd) };
        Ok(ServiceManager { socket, address })
    }

    /// The service manager that the environment names in NOTIFY_SOCKET. None if it names none: then nobody is to be told.
    pub fn of_environment<R: Env + Alloc>(rt: &R) -> Result<Option<ServiceManager>, ManagerError> {
        match env::var(rt, "NOTIFY_SOCKET") {
            Ok(name) => Ok(Some(ServiceManager::at(name.as_bytes())?)),
            Err(VarError::NotPresent) => Ok(None),
            Err(VarError::NotUnicode) => Err(ManagerError::NotUtf8),
            Err(VarError::OutOfMemory) => Err(ManagerError::Memory),
        }
    }

    /// Tells it this. It does not wait: if the service manager takes nothing now, it was not told.
    pub fn tell(&self, notice: Notice) -> Result<(), NotTold> {
        self.send(notice.text())
    }

    /// Sends it the bytes of a datagram, as those of `status_text`.
    pub fn send(&self, text: &[u8]) -> Result<(), NotTold> {
        if self.address.send(self.socket.as_raw_fd(), text) < 0 {
            return Err(NotTold {
                error: last_error(),
            });
        }
        Ok(())
    }
}
