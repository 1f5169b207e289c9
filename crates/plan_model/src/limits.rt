//! The limits of planning problems.

/// An input has no more live workers than this, and each slot is below it: a plan gives a slot to each worker.
pub const MAX_WORKERS: usize = 4096;

/// An input has no more functions than this.
pub const MAX_FUNCTIONS: usize = 1024;

/// An input has no more machines than this.
pub const MAX_MACHINES: usize = 256;
