//! The jobs that were left unserved lately, in a table of a fixed size, and which of them are held.

ghost use Rattle.std.specs.Prelude.{◌≡◌, ◌≤◌, [], IfNone, IfOk, IfSome, find, map, position, vec_capacity, vec_len};
ghost use Rattle.std.specs.Option.{option_copied};
ghost use Rattle.unserved_jobs.specs.Unserved as spec;

use crate::job::{UnservedJob, hold_ms};
use gear_packets::Handle;
use std::alloc::{AllocError, Global};
use std::marker::Model;
use worker_state::WorkerName;

/// How many jobs are known at most.
const MOST_JOBS: usize = 256;

/// How many jobs are held at once, at most. Each keeps a thread and a link to its job server.
const MOST_HELD: usize = 64;

/// The jobs that services left unserved lately, by whichever worker: the last 256, how often each was left and when last, and which worker
/// holds it before it is given back, if one does. 64 jobs are held at once at most, and one that is held gives way to no other. All its
/// memory is taken by `new`: no later call needs any, or can fail. Clauses see it as the list of its jobs: the one that was left last
/// stands at the end.
#[derive(Drop)]
pub struct UnservedJobs {
    jobs: Vec<UnservedJob>,
}

impl Model for UnservedJobs {
    ghost use Rattle.std.specs.Prelude.{◌≤◌, List, vec_capacity};
    ghost use Rattle.unserved_jobs.specs.declared.job.UnservedJob.{UnservedJob};

    ghost Value = { List UnservedJob };

    ghost use Rattle.unserved_jobs.specs.Unserved.{IsTable};

    ghost view = { λ table. table.jobs.items };

    ghost invariant = { λ table. IsTable table.jobs.items × (256 ≤ vec_capacity table.jobs) };
}

/// The place of this job among the jobs, if it is there.
fn place_of(jobs: &[UnservedJob], job: &Handle) -> Option<usize>
    ensures { result ≡ position (spec.is_of job.now) jobs.now }
{
    jobs.iter().position(|left| left.is(job))
}

/// The place of the job that was left longest ago, of those that nobody holds.
fn place_of_oldest(jobs: &[UnservedJob]) -> Option<usize>
    ensures { result ≡ position spec.is_free jobs.now }
{
    jobs.iter().position(|left| !left.is_held())
}

/// Takes this job out of the jobs, and hands out what was known of it.
fn take_out(jobs: &mut Vec<UnservedJob>, job: &Handle) -> Option<UnservedJob>
    ensures known { result ≡ spec.known job.now jobs.old.items }
    ensures others { jobs.new.items ≡ spec.without job.now jobs.old.items }
    ensures capacity { vec_capacity jobs.new ≡ vec_capacity jobs.old }
{
    let place = place_of(jobs, job)?;
    Some(jobs.remove(place))
}

/// Makes room for one more of 256 jobs.
fn make_room(jobs: &mut Vec<UnservedJob>)
    requires { spec.IsTable jobs.old.items }
    ensures jobs { jobs.new.items ≡ spec.with_room jobs.old.items }
    ensures capacity { vec_capacity jobs.new ≡ vec_capacity jobs.old }
    ensures room { vec_len jobs.new ≤ 255 }
{
    if jobs.len() < MOST_JOBS {
        return;
    }
    if let Some(place) = place_of_oldest(jobs) {
        jobs.remove(place);
    }
}

/// The job that this worker holds, if it holds one.
fn held_by<'j>(jobs: &'j [UnservedJob], worker: &WorkerName) -> Option<&'j UnservedJob>
    ensures { option_copied result ≡ find (spec.is_held_by worker.now) jobs.now }
{
    jobs.iter().find(|left| left.is_held_by(worker))
}

/// How many of the jobs are held.
fn held_in(jobs: &[UnservedJob]) -> usize
    ensures { result ≡ spec.held_count jobs.now }
{
    jobs.iter().filter(|left| left.is_held()).count()
}

/// The worker holds none of these jobs any more.
fn give_back_in(jobs: &mut [UnservedJob], worker: &WorkerName)
    ensures { jobs.new ≡ map (spec.given_back worker.now) jobs.old }
{
    for left in jobs.iter_mut() {
        left.give_back(worker);
    }
}

/// The most times that one of these jobs was left that were left within the last 10 minutes.
fn most_times_in(jobs: &[UnservedJob], now_ms: u64) -> u32
    ensures { result ≡ spec.most_times now_ms jobs.now }
{
    let mut most = 0;
    for left in jobs {
        most = left.recent_times(now_ms).max(most);
    }
    most
}

impl UnservedJobs {
    /// No job was left yet. The only error is out of memory.
    pub fn new(alloc: Global) -> Result<UnservedJobs, AllocError>
        ensures { IfOk result (λ table. table ≡ []) }
    {
        Ok(UnservedJobs {
            jobs: Vec::with_capacity(alloc, MOST_JOBS)?,
        })
    }

    /// The job was left unserved now, by this clock. How often it was left, this time included. One that was last left 10 minutes ago or
    /// longer counts as new, and so does one that is not among the last 256. If 256 others are known, the one that was left longest ago
    /// gives way, of those that nobody holds.
    pub fn note(&mut self, job: &Handle, now_ms: u64) -> u32
        ensures times { result ≡ spec.times_now now_ms (spec.known job.now self.old) }
        ensures jobs { self.new ≡ spec.after_left job.now now_ms self.old }
        ensures held { spec.held_count self.new ≡ spec.held_count self.old }
    {
        let before = take_out(&mut self.jobs, job);
        make_room(&mut self.jobs);
        let left = UnservedJob::left_now(job, now_ms, before);
        let times = left.times;
        self.jobs.push_reserved(left);
        times
    }

    /// From now on the worker, which left the job, holds it, until `give_back`. For how many milliseconds it is to hold it (`hold_ms`).
    /// None: it does not hold it, and gives it back at once. That is so of a job that was left once or is not known, of one that somebody
    /// holds, and of any if 64 are held. A worker that holds another job holds both.
    pub fn hold(&mut self, worker: WorkerName, job: &Handle) -> Option<u32>
        ensures time { result ≡ spec.next_hold_ms job.now self.old }
        ensures held { IfSome result (λ _. self.new ≡ spec.once_held worker job.now self.old) }
        ensures not_held { IfNone result (self.new ≡ self.old) }
    {
        if held_in(&self.jobs) >= MOST_HELD {
            return None;
        }
        let place = place_of(&self.jobs, job)?;
        if self.jobs[place].is_held() {
            return None;
        }
        let milliseconds = hold_ms(self.jobs[place].times)?;
        self.jobs[place].held_by = Some(worker);
        Some(milliseconds)
    }

    /// For how many milliseconds the worker is to hold its job, if it holds one.
    pub fn hold_of(&self, worker: WorkerName) -> Option<u32>
        ensures { result ≡ spec.own_hold_ms worker self.now }
    {
        hold_ms(held_by(&self.jobs, &worker)?.times)
    }

    /// The worker gives back what it holds. What others hold stays held.
    pub fn give_back(&mut self, worker: WorkerName)
        ensures { self.new ≡ map (spec.given_back worker) self.old }
    {
        give_back_in(&mut self.jobs, &worker);
    }

    /// The job was answered: it does not come again.
    pub fn forget(&mut self, job: &Handle)
        ensures { self.new ≡ spec.without job.now self.old }
    {
        drop(take_out(&mut self.jobs, job));
    }

    /// How many jobs are held: 64 at most.
    pub fn held(&self) -> usize
        ensures count { result ≡ spec.held_count self.now }
        ensures table { spec.IsTable self.now }
    {
        held_in(&self.jobs)
    }

    /// The most times that one of the jobs was left that were last left less than 10 minutes ago, and 0 if there is none.
    pub fn most_times(&self, now_ms: u64) -> u32
        ensures { result ≡ spec.most_times now_ms self.now }
    {
        most_times_in(&self.jobs, now_ms)
    }
}
