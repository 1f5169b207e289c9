//! What calls of a pool tell.

/// Whether a worker goes on after a report.
#[derive(Clone, Copy, Debug, PartialEq, Eq)]
pub enum StayOrRetire {
    /// It stays in its slot.
    Stay,
    /// It has made all its runs: its slot is empty, and its session ends.
    Retire,
}

/// The counts of a pool.
#[derive(Clone, Copy, Debug, PartialEq, Eq)]
pub struct Totals {
    /// Jobs that were grabbed: the sum of the next three.
    pub grabbed: u64,
    /// Jobs that are running, those that are being reported among them.
    pub running: u64,
    /// Jobs whose answer was written whole.
    pub reported: u64,
    /// Jobs that were lost with their worker.
    pub lost: u64,
    /// Rounds so far.
    pub rounds: u32,
    /// Events of this chapter of the history.
    pub events: u32,
}

/// What a round reports.
#[derive(Clone, Copy, Debug, PartialEq, Eq)]
pub struct Ran {
    /// The round's number, from 1.
    pub number: u32,
    /// The backlog of its plan, and none if there is no plan.
    pub backlog: Option<u64>,
    /// How many live workers got another function than before, or none any more.
    pub moved: u32,
}
