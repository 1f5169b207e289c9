//! The jobs that a host left unserved.

ghost use Rattle.std.specs.Prelude.{◌≡◌};
ghost use Rattle.farm_hosts.specs.Hosts as spec;

/// How many new jobs in a row mark a host of few workers. Fewer could be a coincidence.
const FEWEST_JOBS: u32 = 3;

/// How many mark one of many workers. More would take others their time.
const MOST_JOBS: u32 = 16;

/// For how many milliseconds after it served a job a host is not marked: jobs that nobody can do may come in a burst.
const BURST_MS: u64 = 200;

/// A job that a host left unserved.
#[derive(Clone, Copy, Debug, PartialEq, Eq)]
pub struct LeftJob {
    /// Whether nobody had left it before. One that was left before may be a job that no host can do, and counts for no host.
    pub is_new: bool,
    /// How many workers the host's machine has.
    pub workers: u32,
    /// When it was left, in milliseconds, if that is known.
    pub now_ms: Option<u64>,
}

/// What a host left unserved since it last served a job, or since it was last left alone.
#[derive(Clone, Copy, Debug, PartialEq, Eq)]
pub struct LeftJobs {
    /// How many new jobs it left.
    pub new_jobs: u32,
    /// Before this moment it is not marked, in milliseconds: 200 after it served that job. 0 if it served none, or that is not known.
    pub spared_until_ms: u64,
}

/// How many new jobs in a row mark a host with so many workers, if it serves none of them: as many as workers, since each may be at one,
/// but 3 at least and 16 at most.
fn jobs_that_mark(workers: u32) -> u32
    ensures { result ≡ spec.jobs_that_mark workers }
{
    workers.clamp(FEWEST_JOBS, MOST_JOBS)
}

/// Before which moment a host is not marked that served a job at this time.
fn spared_until(now_ms: Option<u64>) -> u64
    ensures { result ≡ spec.spared_until now_ms }
{
    match now_ms {
        Some(now) => now.saturating_add(BURST_MS),
        None => 0,
    }
}

impl LeftJobs {
    /// It left none, and served none.
    pub fn nothing() -> LeftJobs
        ensures { result ≡ spec.left_nothing }
    {
        LeftJobs {
            new_jobs: 0,
            spared_until_ms: 0,
        }
    }

    /// After it served a job at this time, in milliseconds, if that is known.
    pub fn after_served(now_ms: Option<u64>) -> LeftJobs
        ensures { result ≡ spec.left_after_served now_ms }
    {
        LeftJobs {
            new_jobs: 0,
            spared_until_ms: spared_until(now_ms),
        }
    }

    /// With one more.
    pub fn with(self, job: LeftJob) -> LeftJobs
        ensures { result ≡ spec.left_with job self }
    {
        let more = if job.is_new { 1 } else { 0 };
        LeftJobs {
            new_jobs: self.new_jobs.saturating_add(more),
            ..self
        }
    }

    /// Whether it served a job less than 200 milliseconds before this time, if both times are known.
    fn are_spared(self, now_ms: Option<u64>) -> bool
        ensures { result ≡ spec.are_spared now_ms self }
    {
        match now_ms {
            Some(now) => now < self.spared_until_ms,
            None => false,
        }
    }

    /// For how many milliseconds more the host is spared though it left so many, 200 at most. 0 if it did not, or if no time is known.
    pub fn doubt_ms(self, job: LeftJob) -> u64
        ensures { result ≡ spec.doubt_ms job self }
    {
        match job.now_ms {
            Some(now) if self.new_jobs >= jobs_that_mark(job.workers) => {
                self.spared_until_ms.saturating_sub(now).min(BURST_MS)
            }
            _ => 0,
        }
    }

    /// Whether they mark the host, the last of which is this job.
    pub fn mark(self, job: LeftJob) -> bool
        ensures { result ≡ spec.marks job self }
    {
        self.new_jobs >= jobs_that_mark(job.workers) && !self.are_spared(job.now_ms)
    }
}
