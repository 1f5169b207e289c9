//! What a pool has room to count.

/// The greatest generation: a slot has at most so many workers, one after the other.
pub const MAX_GENERATION: u32 = 262_143;

/// A pool makes at most so many rounds.
pub const MAX_ROUNDS: u32 = u32::MAX;

/// At most so many chapters of a history end.
pub const MAX_CHAPTERS: u32 = u32::MAX;

/// A pool gives at most so many tickets.
pub const MAX_TICKETS: u64 = u64::MAX;
