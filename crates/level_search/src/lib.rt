//! The answer of a planning round: the least backlog that can be reached, by bisection of its levels.
#![tactic(auto)]

mod bisect;
mod fill;
mod previous;
mod solving;
mod spread;

pub use solving::{Solved, solve};
