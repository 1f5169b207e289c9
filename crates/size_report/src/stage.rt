//! How far the text of a size has been read, and which kind of size it gives.

use plan_sizing::Obstacle;

/// How far the text of a size has been read.
#[derive(Clone, Copy, Debug, PartialEq, Eq)]
pub enum Stage {
    Start,
    Level,
    Verdict,
    /// The machines with an addition are given.
    Added,
    Tasks,
    /// The text says that no addition serves.
    Barred,
    /// The text says that each addition that serves is too many.
    Beyond,
    Set,
    Done,
}

/// Which kind of size is given.
#[derive(Clone, Copy, Debug, PartialEq, Eq)]
pub enum Kind {
    Enough,
    Never(Obstacle),
    TooMany(u64),
}
