//! What runs the jobs of a session.

ghost use Rattle.std.specs.Prelude.{◌≡◌, IfErr, IfOk, Option};
ghost use Rattle.std.specs.Option.{option_map};
ghost use Rattle.gear_packets.specs.Reading.{job_of};
ghost use Rattle.gear_packets.specs.Response.{AssignedJob};
ghost use Rattle.job_runner.specs.Told.{Told, told_of};

use crate::job::Outcome;
use crate::table::NamedJobs;
use gear_packets::Assignment;
use std::alloc::{AllocError, Global};
use thiserror::Error;

/// Why a job was not done.
#[derive(Clone, Copy, Debug, PartialEq, Eq, Error)]
pub enum NotDone {
    /// What does it did not take it, or did not say how it ended.
    #[error("the job was not served")]
    Unserved,
    /// There was no memory.
    #[error("out of memory")]
    Memory,
}

/// How what runs a session's jobs is between two of them.
#[derive(Clone, Copy, Debug, PartialEq, Eq)]
pub enum Readiness {
    /// Nothing is known that speaks against one more job.
    Ready,
    /// What was kept for the next job is lost, such as a connection that the other side closed. Whether there can be another is not known.
    Lost,
    /// What one more job needs cannot be had now, such as a connection.
    Unready,
}

/// What runs the jobs of one session, one after the other. It may change from job to job, as a connection does.
pub trait Jobs {
    ghost use Rattle.gear_packets.specs.Response.{AssignedJob};
    ghost use Rattle.job_runner.specs.declared.jobs.NotDone.{NotDone};
    ghost use Rattle.job_runner.specs.Told.{Told};
    ghost use Rattle.std.specs.Prelude.{Option};

    /// What it may report of a job, by what it was before and is after; nothing if no job has the name.
    ghost tells: { Self → Self → AssignedJob → Option Told → Type 0 };

    /// When it may fail with this error, by what it was before and is after.
    ghost fails: { Self → Self → AssignedJob → NotDone → Type 0 };

    /// What it may be once it got ready for one more job, by what it was before.
    ghost prepares: { Self → Self → Type 0 };

    /// Runs a job. None if no job has its name. The error is why it was not done.
    fn run(&mut self, alloc: Global, job: Assignment) -> Result<Option<Outcome>, NotDone>
        ensures tells { IfOk result (λ outcome. tells self.old self.new (job_of job) (option_map told_of outcome)) }
        ensures fails { IfErr result (λ error. fails self.old self.new (job_of job) error) };

    /// Gets ready for one more job, which is asked for next: what that needs, such as a connection, is better found lacking now than once
    /// there is a job. It may wait. How it is then. Not called before the first job of a session: it comes ready.
    fn prepare(&mut self) -> Readiness
        ensures { prepares self.old self.new };

    /// How it is while no job comes. It does not wait.
    fn readiness(&self) -> Readiness {
        Readiness::Ready
    }
}

/// Jobs by name do not change, and are always ready. They report what the job of that name means, and fail for lack of memory alone.
impl<'j, T: NamedJobs> Jobs for &'j T {
    ghost use Rattle.std.specs.Prelude.{◌≡◌};
    ghost use Rattle.job_runner.specs.declared.jobs.NotDone.TheVariants.{Memory};

    ghost tells = { λ before after job told. (after ≡ before) × (told ≡ T.told before.now job.function job.payload) };

    ghost fails = { λ before after job error. (after ≡ before) × (error ≡ Memory) };

    ghost prepares = { λ before after. after ≡ before };

    fn prepare(&mut self) -> Readiness {
        Readiness::Ready
    }

    fn run(&mut self, alloc: Global, job: Assignment) -> Result<Option<Outcome>, NotDone> {
        match (**self).run(alloc, &job.function, &job.payload) {
            Ok(outcome) => Ok(outcome),
            Err(AllocError) => Err(NotDone::Memory),
        }
    }
}
