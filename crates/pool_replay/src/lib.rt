//! Runs command lines on a pool, one after the other, and prints what each call answers.
//!
//! The forms of the lines are those of [`pool_commands`]. [`run`] says what is kept between two of them.
#![tactic(auto)]

mod desk;
mod law;
mod lines;
mod passes;
mod running;

pub use law::{commands_are_calls, transcripts_are_histories};
pub use running::{End, Outcome, run};
