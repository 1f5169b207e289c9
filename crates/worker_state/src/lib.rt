//! The words in which a pool speaks of its workers: slots and their workers, tickets of jobs, orders, causes of losses, and
//! the packets by which a worker changes its function.
#![tactic(auto)]

mod cause;
mod job;
mod limits;
mod order;
mod registration;
mod slot;

pub use cause::Cause;
pub use job::{EndKind, Standing, Ticket};
pub use limits::{MAX_CHAPTERS, MAX_GENERATION, MAX_ROUNDS, MAX_TICKETS};
pub use order::{Order, What};
pub use registration::change;
pub use slot::{Slot, WorkerName};

#[cfg(test)]
mod tests;
