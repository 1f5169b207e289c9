//! The tables of a planning round: who may do what and who does what, as slices of one arena.
#![tactic(auto)]

mod building;
mod copying;
mod ordering;
mod tables;

pub use building::build;
pub use copying::{copy_plan, looks};
pub use plan_model::FuncId;
pub use tables::{Groups, Pairs, Tables};
