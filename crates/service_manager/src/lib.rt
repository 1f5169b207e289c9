//! What a service manager, as systemd, is told of this program: by a datagram to the socket that it names.
#![tactic(auto)]

mod address;
mod error;
mod manager;
mod notice;
mod watchdog;

pub use address::SocketAddress;
pub use error::{AddressError, ManagerError, NotTold, StatusError};
pub use manager::ServiceManager;
pub use notice::{Notice, status_text};
pub use watchdog::{alive_every_ms, watchdog_of};
