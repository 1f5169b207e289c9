//! What became of the jobs of sessions, counted.
ghost use Rattle.std.specs.Prelude.{◌≡◌, ◌+◌, ◌-◌, ◌<◌, ◌^◌, min};
ghost use Rattle.pool_supervisor.specs.JobCounts.{with_end, answered};

use worker_state::EndKind;

/// What became of the jobs that a server gave to a session, or to several.
#[derive(Clone, Copy, Debug, PartialEq, Eq)]
pub struct JobCounts {
    /// Jobs that were answered with a result, and booked so.
    pub completed: u64,
    /// Jobs that were answered with a failure, and booked so.
    pub failed: u64,
    /// Jobs that the pool did not book, for example because its history is full. The session ends, and the server gives the job to another
    /// worker. The count stays at the greatest number that it can hold.
    pub given_back: u64,
}

impl JobCounts {
    /// No jobs.
    pub fn none() -> JobCounts
        ensures answered { answered result ≡ 0 }
        ensures given_back { result.given_back ≡ 0 }
    {
        JobCounts {
            completed: 0,
            failed: 0,
            given_back: 0,
        }
    }

    /// One more answer was booked, and ended so.
    pub fn add_end(&mut self, end: EndKind)
        requires room { answered self.old + 1 < 2 ^ 64 }
        ensures counts { self.new ≡ with_end end self.old }
        ensures one { answered self.new ≡ answered self.old + 1 }
    {
        match end {
            EndKind::Complete => self.completed += 1,
            EndKind::Fail => self.failed += 1,
        }
    }

    /// One more job was given back.
    pub fn add_given_back(&mut self)
        ensures completed { self.new.completed ≡ self.old.completed }
        ensures failed { self.new.failed ≡ self.old.failed }
        ensures given_back { self.new.given_back ≡ min (self.old.given_back + 1) (2 ^ 64 - 1) }
    {
        self.given_back = self.given_back.saturating_add(1);
    }

    /// The jobs of another session too.
    pub fn add(&mut self, other: JobCounts)
        requires room { answered self.old + answered other < 2 ^ 64 }
        ensures completed { self.new.completed ≡ self.old.completed + other.completed }
        ensures failed { self.new.failed ≡ self.old.failed + other.failed }
        ensures given_back { self.new.given_back ≡ min (self.old.given_back + other.given_back) (2 ^ 64 - 1) }
    {
        self.completed += other.completed;
        self.failed += other.failed;
        self.given_back = self.given_back.saturating_add(other.given_back);
    }
}
