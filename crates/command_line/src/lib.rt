//! The program's command line: from its words to the command that they ask for.
#![tactic(auto)]

mod command;

pub use command::{Command, CommandError, command_of};
