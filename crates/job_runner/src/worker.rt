//! A worker in its session, and what it works with.

use pool_core::Pass;
use pool_settings::Settings;
use std::alloc::Global;

/// What the sessions of a pool work with: the same for each of its workers.
#[derive(Clone, Copy)]
pub struct Workplace<'w> {
    /// Where memory comes from.
    pub alloc: Global,
    /// The settings of the pool, whose functions its orders name by number.
    pub settings: &'w Settings,
    /// How many reads a session may make.
    pub turns: u32,
}

/// A worker in its session: what goes unchanged from the first step to the last.
#[derive(Clone, Copy)]
pub struct Worker<'w> {
    /// What it works with.
    pub place: Workplace<'w>,
    /// Its right to speak at the port.
    pub pass: &'w Pass,
}
