//! A list of which only the end is kept.
#![tactic(auto)]

mod list;
mod past;

pub use list::LongList;
