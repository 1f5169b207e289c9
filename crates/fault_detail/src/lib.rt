//! What error output gets of a fault: the fault line, and for a person what the fault is about.
#![tactic(auto)]

mod complaint;
mod detail;
mod given;
mod giving;
mod pieces;
mod sentence;
mod wanted;
mod wanted_services;

pub use complaint::{Reader, complain, say, tell};
pub use detail::detail_line;
pub use given::Given;
