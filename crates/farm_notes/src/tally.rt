//! What became of the jobs of a farm.

use farm_page::{FailureView, Failures, JobEnds};
use plan_model::FuncId;
use std::alloc::{AllocError, Global};
use std::sync::{Mutex, Wait};

/// How a job ended.
#[derive(Clone, Copy, Debug, PartialEq, Eq)]
pub enum JobEnd {
    /// It was answered with a result.
    Completed,
    /// It was answered with a failure.
    Failed,
    /// It was not answered, and its worker ended.
    Lost,
}

/// The jobs of a function since the farm began.
#[derive(Clone, Copy)]
pub struct FunctionJobs {
    /// Those that a service has now.
    pub running: u32,
    /// What became of the others.
    pub ends: JobEnds,
}

impl FunctionJobs {
    /// No jobs.
    fn none() -> FunctionJobs {
        FunctionJobs {
            running: 0,
            ends: JobEnds {
                completed: 0,
                failed: 0,
                lost: 0,
            },
        }
    }
}

/// What is kept of the jobs of a function.
#[derive(Clone, Copy)]
struct Counted {
    /// What is shown of them.
    jobs: FunctionJobs,
    /// How many were counted as completed and lost after all. So many of the next that are completed are not counted: no count goes down.
    completed_before: u64,
    /// The same of those that were counted as failed.
    failed_before: u64,
}

/// Counts one more, if not so many were counted before.
fn count_one(count: &mut u64, before: &mut u64) {
    if *before > 0 {
        *before -= 1;
    } else {
        *count = count.saturating_add(1);
    }
}

impl Counted {
    /// No jobs.
    fn none() -> Counted {
        Counted {
            jobs: FunctionJobs::none(),
            completed_before: 0,
            failed_before: 0,
        }
    }

    /// One that was running has ended so.
    fn end(&mut self, end: JobEnd) {
        self.jobs.running = self.jobs.running.saturating_sub(1);
        let ends = &mut self.jobs.ends;
        match end {
            JobEnd::Completed => count_one(&mut ends.completed, &mut self.completed_before),
            JobEnd::Failed => count_one(&mut ends.failed, &mut self.failed_before),
            JobEnd::Lost => ends.lost = ends.lost.saturating_add(1),
        }
    }

    /// One that ended so is lost after all.
    fn lose(&mut self, end: JobEnd) {
        match end {
            JobEnd::Completed => self.completed_before = self.completed_before.saturating_add(1),
            JobEnd::Failed => self.failed_before = self.failed_before.saturating_add(1),
            JobEnd::Lost => return,
        }
        let ends = &mut self.jobs.ends;
        ends.lost = ends.lost.saturating_add(1);
    }
}

/// The jobs of each function of a farm since it began, and the last that were not completed. A count stays at the greatest number that it
/// can hold. Jobs of no function of the farm are not counted.
#[derive(Drop)]
pub struct Tally {
    jobs: Mutex<Vec<Counted>>,
    failures: Mutex<Failures>,
}

/// The jobs of a function, if it is one of the farm.
fn jobs_of(jobs: &mut [Counted], function: Option<FuncId>) -> Option<&mut Counted> {
    jobs.get_mut(function?.number() as usize)
}

impl Tally {
    /// That of a farm with so many functions before its first job. The only error is out of memory.
    pub fn new(alloc: Global, functions: u32) -> Result<Tally, AllocError> {
        let mut jobs = Vec::new(alloc);
        jobs.resize(functions as usize, Counted::none())?;
        Ok(Tally {
            jobs: Mutex::new(jobs),
            failures: Mutex::new(Failures::new(alloc)),
        })
    }

    /// A service is asked for one more job of the function.
    pub fn begin<R: Wait>(&self, rt: &R, function: Option<FuncId>) {
        let mut held = self.jobs.lock(rt);
        if let Some(Counted { jobs, .. }) = jobs_of(&mut held, function) {
            jobs.running = jobs.running.saturating_add(1);
        }
    }

    /// A job of the function that was begun has ended so.
    pub fn end<R: Wait>(&self, rt: &R, function: Option<FuncId>, end: JobEnd) {
        let mut held = self.jobs.lock(rt);
        if let Some(jobs) = jobs_of(&mut held, function) {
            jobs.end(end);
        }
    }

    /// A job of the function that ended so is lost after all: its worker ended before the job server had the answer.
    pub fn lose<R: Wait>(&self, rt: &R, function: Option<FuncId>, end: JobEnd) {
        let mut held = self.jobs.lock(rt);
        if let Some(jobs) = jobs_of(&mut held, function) {
            jobs.lose(end);
        }
    }

    /// A job was not completed, if there is one here. If there is no memory to keep that, it is not shown.
    pub fn note<R: Wait>(&self, rt: &R, failure: Option<FailureView>) {
        if let Some(failure) = failure {
            let _ = self.failures.lock(rt).add(failure);
        }
    }

    /// The last jobs that were not completed. The only error is out of memory.
    pub fn failures<R: Wait>(&self, rt: &R) -> Result<Failures, AllocError> {
        self.failures.lock(rt).copy()
    }

    /// The jobs by function. The only error is out of memory.
    pub fn counts<R: Wait>(&self, rt: &R) -> Result<Vec<FunctionJobs>, AllocError> {
        let held = self.jobs.lock(rt);
        let mut jobs = Vec::new(*held.allocator());
        for counted in held.iter() {
            jobs.push(counted.jobs)?;
        }
        Ok(jobs)
    }
}
