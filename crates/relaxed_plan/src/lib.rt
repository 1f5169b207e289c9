//! A plan that leaves out least numbers of functions that are short of workers, if no plan meets all.
//!
//! A problem without a plan has a set of functions that need more workers than may do any of them. [`relaxed_plan`] lets these functions
//! off: their least numbers are 0 then. So are those of all functions that no live worker may do. It solves what is left, lets off the
//! next set that is short if there is one, and so on, until there is a plan. So functions that lack workers take none that the least
//! numbers of the others need.
#![tactic(auto)]

mod law;
mod letting_off;
mod relaxing;
mod stranding;

pub use law::short_has_least;
pub use letting_off::let_off;
pub use relaxing::{Relaxed, relaxed_plan};
pub use stranding::stranded;
