//! Tests of the shared pool and of its runs. They stand in a crate of their own, since a crate with tests is proved twice.
#![tactic(auto)]

#[cfg(test)]
mod booked;
#[cfg(test)]
mod doubles;
#[cfg(test)]
mod runs;
#[cfg(test)]
mod scenario;
#[cfg(test)]
mod server;
#[cfg(test)]
mod tally;
mod unreached;
#[cfg(test)]
mod unreached_runs;
