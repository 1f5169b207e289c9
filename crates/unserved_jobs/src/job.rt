//! One job that was left unserved: whether it is new, how long it is held, and when it is answered as failed.

ghost use Rattle.std.specs.Prelude.{◌≡◌, ◌↔◌, ◌<◌, IfNone, IfSome, IsTrue, false};
ghost use Rattle.unserved_jobs.specs.Unserved as spec;

use gear_packets::Handle;
use worker_state::WorkerName;

/// From how many milliseconds on after it was last left a job counts as new. A job server that was started again gives the same handles
/// again.
pub(crate) const FORGET_MS: u64 = 600_000;

/// For how many milliseconds a job is held that was left for the second time. Each further time takes twice as long.
const FIRST_HOLD_MS: u32 = 50;

/// For how many milliseconds a job is held at most: a minute.
const LONGEST_HOLD_MS: u32 = 60_000;

/// A job that services left unserved.
#[derive(Drop)]
pub struct UnservedJob {
    /// The job, as its job server names it.
    pub handle: Handle,
    /// How often it was left.
    pub times: u32,
    /// When it was last left, in milliseconds.
    pub last_ms: u64,
    /// The worker that holds it, if one does.
    pub held_by: Option<WorkerName>,
}

/// Whether the two are one worker.
fn is_same_worker(one: &WorkerName, other: &WorkerName) -> bool
    ensures { result ≡ spec.is_same_worker one.now other.now }
{
    one == other
}

impl UnservedJob {
    /// This job, which is left now, by what was known of it.
    pub(crate) fn left_now(job: &Handle, now_ms: u64, before: Option<UnservedJob>) -> UnservedJob
        ensures { result ≡ spec.left_now job.now now_ms before }
    {
        let (times, held_by) = match before {
            Some(known) if known.is_recent(now_ms) => {
                (known.times.saturating_add(1), known.held_by)
            }
            Some(known) => (1, known.held_by),
            None => (1, None),
        };
        UnservedJob {
            handle: job.copy(),
            times,
            last_ms: now_ms,
            held_by,
        }
    }

    /// Whether it is this job: its handle is the same, to the last byte.
    pub(crate) fn is(&self, job: &Handle) -> bool
        ensures { result ≡ spec.is_of job.now self.now }
    {
        self.handle.bytes() == job.bytes()
    }

    /// Whether it was left within the last 10 minutes.
    pub(crate) fn is_recent(&self, now_ms: u64) -> bool
        ensures { result ≡ spec.is_recent now_ms self.now }
    {
        now_ms.saturating_sub(self.last_ms) < FORGET_MS
    }

    /// How often it was left, or 0 if that was not within the last 10 minutes.
    pub(crate) fn recent_times(&self, now_ms: u64) -> u32
        ensures { result ≡ spec.recent_times now_ms self.now }
    {
        if self.is_recent(now_ms) {
            self.times
        } else {
            0
        }
    }

    /// Whether a worker holds it.
    pub(crate) fn is_held(&self) -> bool
        ensures { result ≡ spec.is_held self.now }
    {
        self.held_by.is_some()
    }

    /// Whether this worker holds it.
    pub(crate) fn is_held_by(&self, worker: &WorkerName) -> bool
        ensures { result ≡ spec.is_held_by worker.now self.now }
    {
        match &self.held_by {
            Some(holder) => is_same_worker(holder, worker),
            None => false,
        }
    }

    /// This worker does not hold it any more.
    pub(crate) fn give_back(&mut self, worker: &WorkerName)
        ensures { self.new ≡ spec.given_back worker.now self.old }
    {
        if self.is_held_by(worker) {
            self.held_by = None;
        }
    }
}

/// For how many milliseconds a job is held that was left so often, this time included. None at the first time, since another host may do
/// it at once. Then 50, 100, 200 .. and a minute at most.
pub fn hold_ms(times: u32) -> Option<u32>
    ensures { result ≡ spec.hold_ms times }
{
    let doublings = times.checked_sub(2)?;
    let factor = 2u32.saturating_pow(doublings);
    Some(FIRST_HOLD_MS.saturating_mul(factor).min(LONGEST_HOLD_MS))
}

/// Whether a job that was left so often, this time included, is to be answered as failed, if an operator lets a job come again so often
/// (`functions.F.retries`). With 0 it is the first time that it is left; with no such bound it never is.
pub fn is_left_too_often(times: u32, retries: Option<u32>) -> bool
    ensures bound { IfSome retries (λ most. IsTrue result ↔ (most < times)) }
    ensures no_bound { IfNone retries (result ≡ false) }
{
    match retries {
        Some(most) => times > most,
        None => false,
    }
}
