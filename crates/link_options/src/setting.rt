//! The options of a TCP connection that are set here.

ghost use Rattle.std.specs.Prelude.{◌≡◌, IfErr};
ghost use Rattle.libc.specs.Net.{SockOption};
ghost use Rattle.link_options.specs.Setting as spec;

use libc::net;
use std::fmt::{Display, Formatter};
use std::net::TcpStream;
use std::os::fd::AsRawFd;
use std::{fmt, io};
use thiserror::Error;

/// How many bytes the value of each of these options has.
const VALUE_LENGTH: u32 = 4;

/// An option of a TCP connection.
#[derive(Clone, Copy, Debug, PartialEq, Eq)]
pub enum TcpOption {
    /// SO_KEEPALIVE: 1 if probes are sent, and 0 if not.
    Keepalive,
    /// TCP_KEEPIDLE: how many seconds pass before the first probe, 1 to 32,767.
    KeepaliveIdle,
    /// TCP_KEEPINTVL: how many seconds pass between probes, 1 to 32,767.
    KeepaliveInterval,
    /// TCP_KEEPCNT: how many probes are sent, 1 to 127.
    KeepaliveProbes,
    /// TCP_USER_TIMEOUT: after how many milliseconds the connection ends if what was sent is not acknowledged, and 0 for as long as the
    /// system takes.
    UserTimeout,
}

impl TcpOption {
    /// The option with its value.
    pub fn with(self, value: u32) -> Setting
        ensures { result ≡ record { option = self; value = value } }
    {
        Setting {
            option: self,
            value,
        }
    }

    /// What the system's headers call it.
    pub fn name(self) -> &'static str
        ensures { result.now ≡ spec.name_of self }
    {
        match self {
            TcpOption::Keepalive => "SO_KEEPALIVE",
            TcpOption::KeepaliveIdle => "TCP_KEEPIDLE",
            TcpOption::KeepaliveInterval => "TCP_KEEPINTVL",
            TcpOption::KeepaliveProbes => "TCP_KEEPCNT",
            TcpOption::UserTimeout => "TCP_USER_TIMEOUT",
        }
    }

    /// The system's numbers of its level and of itself.
    pub fn numbers(self) -> (i32, i32)
        ensures numbers { result ≡ spec.numbers_of self }
        ensures known { SockOption result.0 result.1 }
    {
        match self {
            TcpOption::Keepalive => (net::SOL_SOCKET, net::SO_KEEPALIVE),
            TcpOption::KeepaliveIdle => (net::IPPROTO_TCP, net::TCP_KEEPIDLE),
            TcpOption::KeepaliveInterval => (net::IPPROTO_TCP, net::TCP_KEEPINTVL),
            TcpOption::KeepaliveProbes => (net::IPPROTO_TCP, net::TCP_KEEPCNT),
            TcpOption::UserTimeout => (net::IPPROTO_TCP, net::TCP_USER_TIMEOUT),
        }
    }
}

impl Display for TcpOption {
    fn fmt<W: fmt::Write>(&self, f: &mut Formatter<W>) -> fmt::Result {
        f.write_str(self.name())
    }
}

/// An option that the system refused to set on a connection.
#[derive(Debug, Drop, Error)]
#[error("the system refused the option {option} of a connection: {error}")]
pub struct OptionRefused {
    /// Which one it is.
    pub option: TcpOption,
    /// What the system said.
    pub error: io::Error,
}

/// What the system said of it.
impl From<OptionRefused> for io::Error {
    fn from(refused: OptionRefused) -> io::Error {
        refused.error
    }
}

/// An option with its value.
#[derive(Clone, Copy, Debug, PartialEq, Eq)]
pub struct Setting {
    /// The option.
    pub option: TcpOption,
    /// Its value, in the option's unit.
    pub value: u32,
}

impl Setting {
    /// Sets the option on a connection. The error names it.
    pub fn set_on(&self, stream: &TcpStream) -> Result<(), OptionRefused>
        ensures { IfErr result (λ refused. refused.option ≡ self.now.option) }
    {
        let (level, name) = self.option.numbers();
        let mut value = [0u8; 16];
        value[..4].copy_from_slice(&self.value.to_ne_bytes());
        let fd = stream.as_raw_fd();
        if unsafe { net::setsockopt(fd, level, name, &value, VALUE_LENGTH) } == 0 {
            return Ok(());
        }
        Err(OptionRefused {
            option: self.option,
            error: io::Error::from_raw_os_error(os::errno()),
        })
    }
}
