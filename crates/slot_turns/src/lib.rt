//! The order in which the slots of a pool have their turns.
//!
//! If there are too few descriptors or threads for all slots, those that come late get nothing. So their order goes round the machines: the
//! first slot of each, then the second ones, and so on. Whoever goes through the slots may stop at any of them; the next time it goes on at
//! the one after it.
#![tactic(auto)]

mod law;
mod turns;

pub use law::slots_take_turns;
pub use turns::SlotTurns;
