//! A test of the command `run` over a job server in memory.
#![tactic(auto)]

#[cfg(test)]
mod one_job;
#[cfg(test)]
mod runs;
