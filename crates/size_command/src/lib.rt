//! The commands `size` and `check-size` as calls over texts and devices: how many workers a farm is short of, and whether a text says so
//! rightly.
#![tactic(auto)]

mod check;
mod farm;
mod size;

pub use check::{Asked, SizeVerdict, check_size_text};
pub use size::size_of_texts;
