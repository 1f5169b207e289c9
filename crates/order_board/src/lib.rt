//! Orders for workers, which are posted and read without a lock.
//!
//! A board has one word of 64 bits for each slot. One seat, the publisher's, may store words; each reader has a seat of its own,
//! which loads the word of one slot. So a post is one atomic store and a read is one atomic load, and nobody waits for anybody.
//!
//! What is read was posted for that slot, and a reader never goes back to an older order. How soon a post is seen is not
//! promised.
#![tactic(auto)]

mod board;
mod rule;
mod seat;
mod view;

pub use board::{Board, BoardError};
pub use seat::{PublisherSeat, ReaderSeat, SeatSource};

#[cfg(test)]
mod tests;
