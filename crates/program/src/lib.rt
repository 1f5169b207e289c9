//! The whole program, over words, files, input, output and error output: what `poolman` does, lent what the system has.
#![tactic(auto)]

mod carrying;
mod lent;
mod page_calls;
mod whole;

pub use carrying::carry_out;
pub use lent::Lent;
pub use whole::program;
