//! The command `replay` as a call over texts and devices.
#![tactic(auto)]

mod replay;

pub use replay::run_commands;

#[cfg(test)]
mod tests;
