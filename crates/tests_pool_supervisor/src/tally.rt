//! What happens in a run, as counts that its parts share, and waits for it that end.

use std::sync::atomic::{AtomicU64, Ordering};
use std::thread;
use std::time::{Clock, Duration};

/// How often a wait looks before it is given up.
const TURNS: u32 = 100_000_000;

/// After so many looks a wait sleeps for a millisecond, so that the thread that it waits for gets a processor. A wait that is given
/// up has slept 10,000 times.
const LOOKS: u32 = 10_000;

/// What is counted.
#[derive(Clone, Copy, Debug, PartialEq, Eq)]
pub enum Happening {
    /// The server was asked for its status.
    Asked,
    /// A job has begun.
    Begun,
    /// The answer to a job has come to the server.
    Answered,
    /// The link of a worker was closed.
    Left,
    /// A plan was asked for.
    Planned,
    /// The same, with the plan before it.
    PlannedAfterAPlan,
    /// An attempt was reported.
    Attempted,
    /// The same, and it came to a round.
    MadeRound,
    /// There was a pause of the length that the settings of the tests want.
    Paused,
}

/// How often each thing has happened in a run.
#[derive(Drop)]
pub struct Tally {
    asked: AtomicU64,
    begun: AtomicU64,
    answered: AtomicU64,
    left: AtomicU64,
    planned: AtomicU64,
    planned_after_a_plan: AtomicU64,
    attempted: AtomicU64,
    rounds: AtomicU64,
    paused: AtomicU64,
    given_up: AtomicU64,
}

impl Tally {
    /// Nothing has happened.
    pub fn new() -> Tally {
        Tally {
            asked: AtomicU64::new(0),
            begun: AtomicU64::new(0),
            answered: AtomicU64::new(0),
            left: AtomicU64::new(0),
            planned: AtomicU64::new(0),
            planned_after_a_plan: AtomicU64::new(0),
            attempted: AtomicU64::new(0),
            rounds: AtomicU64::new(0),
            paused: AtomicU64::new(0),
            given_up: AtomicU64::new(0),
        }
    }

    fn counter(&self, what: Happening) -> &AtomicU64 {
        match what {
            Happening::Asked => &self.asked,
            Happening::Begun => &self.begun,
            Happening::Answered => &self.answered,
            Happening::Left => &self.left,
            Happening::Planned => &self.planned,
            Happening::PlannedAfterAPlan => &self.planned_after_a_plan,
            Happening::Attempted => &self.attempted,
            Happening::MadeRound => &self.rounds,
            Happening::Paused => &self.paused,
        }
    }

    /// It happens once more. The answer is how often it had happened before.
    pub fn add(&self, what: Happening) -> u64 {
        self.counter(what).fetch_add(1, Ordering::SeqCst)
    }

    /// How often it has happened.
    pub fn count(&self, what: Happening) -> u64 {
        self.counter(what).load(Ordering::SeqCst)
    }

    /// Whether a wait was given up.
    pub fn has_given_up(&self) -> bool {
        self.given_up.load(Ordering::SeqCst) > 0
    }

    /// A wait is given up, or an attempt was not reported in its place.
    pub fn give_up(&self) {
        let _before = self.given_up.fetch_add(1, Ordering::SeqCst);
    }

    /// Waits until it has happened so often. It gives up after 100,000,000 looks, or once another wait was given up.
    pub fn wait_for<R: Clock>(&self, rt: &R, what: Happening, count: u64) {
        for turn in 0..TURNS {
            if self.count(what) >= count || self.has_given_up() {
                return;
            }
            if turn % LOOKS == LOOKS - 1 {
                thread::sleep(rt, Duration::from_millis(1));
            }
        }
        self.give_up();
    }

    /// Waits until each of these has happened so often.
    pub fn wait_for_all<R: Clock>(&self, rt: &R, until: &[(Happening, u64)]) {
        for (what, count) in until {
            self.wait_for(rt, *what, *count);
        }
    }
}
