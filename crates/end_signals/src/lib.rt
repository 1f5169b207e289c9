//! The signals that ask a program to end, as far as they were blocked when it started: they stay pending then, and are seen here.
#![tactic(auto)]

mod masks;
mod reading;
mod status;

pub use masks::EndSignals;
pub use reading::{SignalsUnread, read_signals};
pub use status::{MaskFault, MaskLine, SignalStatus, signal_status};
