//! What a TCP connection is told so that it ends by itself once its peer is gone.
#![tactic(auto)]

mod limits;
mod setting;

pub use limits::{Keepalive, LinkOptions};
pub use setting::{OptionRefused, Setting, TcpOption};
