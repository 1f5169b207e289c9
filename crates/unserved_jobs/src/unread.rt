//! Jobs that no worker can read, since they are too large: how long the links of the workers that met one stay open.

ghost use Rattle.std.specs.Prelude.{◌≡◌, ◌≤◌, ◌+◌, ◌-◌, min};
ghost use Rattle.unserved_jobs.specs.Unread as spec;

use crate::job::{FORGET_MS, hold_ms};
use std::marker::Model;

/// How many links are held at most: each costs a thread and a file, and only a few jobs are so large.
const MOST_LINKS: u32 = 16;

/// The workers that ended lately since a packet of their job server could not be read, as one with a job that is too large. Which job that
/// was is not known: its handle is in the packet. So the job is held by the link to which it was given, and the links of all such workers
/// are counted together.
#[derive(Drop)]
pub struct UnreadJobs {
    times: u32,
    last_ms: u64,
    held: u32,
}

impl Model for UnreadJobs {
    ghost use Rattle.std.specs.Prelude.{◌≤◌};
    ghost use Rattle.unserved_jobs.specs.Unread.{Unread};

    ghost Value = { Unread };

    ghost view = { λ unread. record { times = unread.times; last_ms = unread.last_ms; held = unread.held } };

    ghost invariant = { λ unread. unread.held ≤ 16 };
}

impl UnreadJobs {
    /// No worker ended so yet.
    pub fn new() -> UnreadJobs
        ensures { result ≡ spec.none_unread }
    {
        UnreadJobs {
            times: 0,
            last_ms: 0,
            held: 0,
        }
    }

    /// A worker ended so now. For how many milliseconds its link is to be held, up to `give_back`: 50, and twice as long for each further
    /// worker, a minute at most. If the last one ended so 10 minutes ago or longer, it is 50 again. None if 16 links are held: then this
    /// one is closed at once.
    pub fn hold(&mut self, now_ms: u64) -> Option<u32>
        ensures time { result ≡ spec.unread_hold_ms now_ms self.old }
        ensures times { self.new.times ≡ spec.unread_times now_ms self.old }
        ensures last { self.new.last_ms ≡ now_ms }
        ensures held { self.new.held ≡ min (self.old.held + 1) 16 }
    {
        self.times = self.times_lately(now_ms).saturating_add(1);
        self.last_ms = now_ms;
        if self.held >= MOST_LINKS {
            return None;
        }
        self.held += 1;
        hold_ms(self.times.saturating_add(1))
    }

    /// How many workers ended so, each less than 10 minutes after the one before, if the last one did less than 10 minutes ago. Else 0.
    pub fn times_lately(&self, now_ms: u64) -> u32
        ensures { result ≡ spec.times_lately now_ms self.now }
    {
        if now_ms.saturating_sub(self.last_ms) < FORGET_MS {
            self.times
        } else {
            0
        }
    }

    /// How many of their links are held.
    pub fn held(&self) -> u32
        ensures all { result ≡ self.now.held }
        ensures few { result ≤ 16 }
    {
        self.held
    }

    /// A link is held no more.
    pub fn give_back(&mut self)
        ensures held { self.new.held ≡ self.old.held - 1 }
        ensures times { self.new.times ≡ self.old.times }
        ensures last { self.new.last_ms ≡ self.old.last_ms }
    {
        self.held = self.held.saturating_sub(1);
    }
}
