//! The rounds of a run, known in two places: under the lock of a pool, and by who tells what the rounds came to.
//!
//! Of a locked value only the type is known once the lock is free. So who made a round, and told it, cannot say later that the pool still
//! has that round, and no other. Here both have a token that knows the rounds. A round is added by both at once, so both know the same
//! rounds whenever they meet. The rounds exist in proofs alone; what runs are a few steps on one word.
#![tactic(auto)]

mod known;
mod rounds;

pub use rounds::{NoRounds, RoundsId, RoundsKept, RoundsTold};
