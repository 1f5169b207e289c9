//! What bytes are read from and written to: sources and sinks, and those over memory.
//!
//! [`Source`] and [`Sink`] are the two sides of a [`Device`]. [`SliceSource`] and [`VecSink`] are over memory, and [`doubles`]
//! has a device for tests.
#![tactic(auto)]

mod deadline;
mod device;
pub mod doubles;
mod memory;
mod patience;

pub use deadline::{deadline_from, is_past};
pub use device::{Device, DeviceFault, Given, Sink, Source, Took, give_all};
pub use memory::{SliceSource, VecSink};
pub use patience::{LAST_TIMEOUT, MAX_TIMEOUTS, Patience};
