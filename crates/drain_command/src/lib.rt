//! The command `drain`: asks the page of a running farm to end it, and tells what the farm came to.
#![tactic(auto)]

mod asking;
mod caller;
mod draining;

pub use asking::ask_page;
pub use caller::Caller;
pub use draining::drain_farm;
