//! Why a server is not reached.

use std::io;
use std::io::ErrorKind;
use std::net::{Net, SocketAddr, UdpSocket};
use thiserror::Error;

/// The system's number for a process that may open no more files, and the one for a system that may not (`EMFILE` and `ENFILE`).
const TOO_MANY_FILES: [i32; 2] = [24, 23];

/// The system's number for a machine that has no buffer for a connection (`ENOBUFS`).
const NO_BUFFER: i32 = 105;

/// Why a server is not reached.
#[derive(Clone, Copy, Debug, PartialEq, Eq, Error)]
pub enum DialError {
    /// It is named in another form than `host:port`.
    #[error("the server is not named as host:port")]
    BadName,
    /// Its name has no address, or cannot be looked up now.
    #[error("the server's name was not found")]
    NoAddress,
    /// It refused the connection.
    #[error("the server refused the connection")]
    Refused,
    /// Nothing came back in the time of a dial, or no way leads to it.
    #[error("the server did not answer")]
    NoAnswer,
    /// No more files may be open, in this process or on this machine.
    #[error("too many files are open")]
    TooManyFiles,
    /// This machine has no port left for a connection to that address, or no buffer. The connections that it closed lately hold ports.
    #[error("this machine has no port or buffer left")]
    NoPort,
    /// There was no memory.
    #[error("out of memory")]
    Memory,
    /// The system said something else.
    #[error("the connection failed")]
    Failed,
}

impl DialError {
    /// Whether an address was found and dialled in vain, and not for want of files, ports or memory here.
    pub fn is_of_address(self) -> bool {
        matches!(
            self,
            DialError::Refused | DialError::NoAnswer | DialError::Failed
        )
    }

    /// Why a name was not found. Where no more files may be open the resolver says no more than that it found nothing, so this looks
    /// whether a socket can be opened at all.
    pub fn why_not_found<R: Net>(net: &R, error: &io::Error) -> DialError {
        let why = DialError::of_lookup(error);
        if why != DialError::NoAddress {
            return why;
        }
        match UdpSocket::bind(net, "127.0.0.1:0") {
            Ok(_) => why,
            Err(error) => match DialError::of_connect(&error) {
                DialError::TooManyFiles => DialError::TooManyFiles,
                _ => why,
            },
        }
    }

    /// Why a name was not looked up, by what the system said.
    pub fn of_lookup(error: &io::Error) -> DialError {
        match error.kind() {
            ErrorKind::InvalidInput => DialError::BadName,
            ErrorKind::OutOfMemory => DialError::Memory,
            _ if lacks_files(error) => DialError::TooManyFiles,
            _ => DialError::NoAddress,
        }
    }

    /// Why a connection to this address was not made. The system says of an address that no way leads to the same as if no port were left,
    /// if this machine has no address of that kind: an IPv6 address, and IPv6 is turned off. So this looks which of the two it is.
    pub fn why_not_connected<R: Net>(net: &R, address: SocketAddr, error: &io::Error) -> DialError {
        let why = DialError::of_connect(error);
        if error.kind() != ErrorKind::AddrNotAvailable || leads_to(net, address) {
            return why;
        }
        DialError::NoAnswer
    }

    /// Why a connection was not made, by what the system said.
    pub fn of_connect(error: &io::Error) -> DialError {
        match error.kind() {
            ErrorKind::ConnectionRefused => DialError::Refused,
            ErrorKind::TimedOut
            | ErrorKind::WouldBlock
            | ErrorKind::HostUnreachable
            | ErrorKind::NetworkUnreachable
            | ErrorKind::NetworkDown => DialError::NoAnswer,
            ErrorKind::AddrNotAvailable => DialError::NoPort,
            ErrorKind::OutOfMemory => DialError::Memory,
            _ if lacks_files(error) => DialError::TooManyFiles,
            _ if error.raw_os_error() == Some(NO_BUFFER) => DialError::NoPort,
            _ => DialError::Failed,
        }
    }
}

/// Whether a way leads from this machine to the address, or that is not known. What looks is a socket for datagrams: it takes none of the
/// ports that connections have, and nothing is sent.
fn leads_to<R: Net>(net: &R, address: SocketAddr) -> bool {
    let own = match address {
        SocketAddr::V4(_) => "0.0.0.0:0",
        SocketAddr::V6(_) => "[::]:0",
    };
    match UdpSocket::bind(net, own) {
        Ok(socket) => socket.connect(address).is_ok(),
        Err(_) => true,
    }
}

/// Whether no more files may be open.
fn lacks_files(error: &io::Error) -> bool {
    match error.raw_os_error() {
        Some(number) => TOO_MANY_FILES.contains(&number),
        None => false,
    }
}
