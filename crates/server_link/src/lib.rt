//! A link to a job server that finds a server which answers nothing, or which talks without end.
#![tactic(auto)]

mod link;
mod talk;

pub use link::ServerLink;
