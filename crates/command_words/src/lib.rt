//! The words of each command, as a command line of `clap` of its own: the texts that they give, or what is wrong with them.
#![tactic(auto)]

mod help;
mod operands;
mod words;

pub use operands::overview;
pub use words::{
    CheckSizeWords, CheckWords, PlanWords, RunWords, ServeWords, SettingsWords, SizeWords,
    check_size_words, check_words, drain_words, plan_words, replay_words, run_words, serve_words,
    settings_words, size_words,
};
