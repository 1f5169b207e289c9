//! What takes the place of a clock, a planner and jobs, each of which can be made to wait for what happens in a run.

use crate::tally::{Happening, Tally};
use job_runner::{End, Job, JobTable, Outcome};
use plan_model::{Answer, Input, Plan};
use pool_supervisor::{ArenaPlanner, Attempt, Attempted, Planner, Progress, Watch};
use std::alloc::{AllocError, Global};
use std::sync::atomic::{AtomicU64, Ordering};
use std::time::Clock;

/// The `round_ms` of the tests' settings.
const ROUND_MS: u32 = 7;

/// A pause between two attempts: what has to happen before it ends, each with how often, and by how much the clock goes on then.
#[derive(Clone, Copy)]
pub struct Pause {
    /// What has to happen.
    pub until: &'static [(Happening, u64)],
    /// How far the clock goes on, in milliseconds.
    pub jump_ms: u64,
}

/// A clock that begins at noon and goes on in pauses alone. A pause ends when what it waits for has happened; one that was not listed
/// ends at once. It counts the attempts that it is told of, as long as their numbers rise from 1 one by one.
#[derive(Drop)]
pub struct Stage<'a, R> {
    rt: &'a R,
    tally: &'a Tally,
    pauses: &'static [Pause],
    now_ms: AtomicU64,
}

impl<'a, R> Stage<'a, R> {
    /// A clock at noon, before the first pause.
    pub fn new(rt: &'a R, tally: &'a Tally, pauses: &'static [Pause]) -> Stage<'a, R> {
        Stage {
            rt,
            tally,
            pauses,
            now_ms: AtomicU64::new(43_200_000),
        }
    }
}

impl<R: Clock> Watch for Stage<'_, R> {
    fn now_ms(&self) -> Option<u64> {
        Some(self.now_ms.load(Ordering::SeqCst))
    }

    fn pause(&self, milliseconds: u32) {
        if milliseconds != ROUND_MS {
            return;
        }
        let number = self.tally.add(Happening::Paused);
        if let Some(pause) = self.pauses.get(number as usize) {
            self.tally.wait_for_all(self.rt, pause.until);
            let _before = self.now_ms.fetch_add(pause.jump_ms, Ordering::SeqCst);
        }
    }
}

impl<R> Progress for Stage<'_, R> {
    fn attempted(&self, made: &Attempted<'_>) {
        // Each attempt is reported once, and before its pause.
        let before = self.tally.add(Happening::Attempted);
        let is_next = before.saturating_add(1) == u64::from(made.number);
        if !is_next || self.tally.count(Happening::Paused) != before {
            self.tally.give_up();
        }
        if is_round(made.attempt) {
            let _before = self.tally.add(Happening::MadeRound);
        }
    }
}

/// Whether the attempt came to a round.
pub fn is_round(attempt: &Attempt) -> bool {
    matches!(
        attempt,
        Attempt::Backlog { .. } | Attempt::Unserved { .. } | Attempt::NoPlan { .. }
    )
}

/// Tells its input in reverse. Where its input is listed, it waits first, until something has happened so often.
#[derive(Drop)]
pub struct Reverse<'a, R> {
    rt: &'a R,
    tally: &'a Tally,
    waits: &'static [(&'static [u8], Happening, u64)],
}

impl<R: Clock> Job for Reverse<'_, R> {
    ghost use Rattle.std.specs.Prelude.{[], reverse};
    ghost use Rattle.job_runner.specs.Told.{complete};

    ghost meaning = { λ _ input. record { remarks = []; finish = complete (reverse input) } };

    fn run(&self, alloc: Global, input: &[u8]) -> Result<Outcome, AllocError> {
        let _before = self.tally.add(Happening::Begun);
        for (waiting, what, count) in self.waits {
            if *waiting == input {
                self.tally.wait_for(self.rt, *what, *count);
            }
        }
        let mut text = Vec::from_slice(alloc, input)?;
        text.reverse();
        Ok(Outcome {
            notes: Vec::new(alloc),
            end: End::Complete(text),
        })
    }
}

/// The job `reverse` alone, which waits so.
pub fn reverse_alone<'a, R: Clock>(
    rt: &'a R,
    alloc: Global,
    tally: &'a Tally,
    waits: &'static [(&'static [u8], Happening, u64)],
) -> Result<JobTable<Reverse<'a, R>>, AllocError> {
    let mut jobs = Vec::new(alloc);
    jobs.push((
        Vec::from_slice(alloc, b"reverse")?,
        Reverse { rt, tally, waits },
    ))?;
    JobTable::new(jobs).map_err(|_| AllocError)
}

/// The planner of the program. Where the number of its call is listed, it waits first, until something has happened so often.
#[derive(Drop)]
pub struct Waiting<'a, R> {
    /// What it sleeps by.
    pub rt: &'a R,
    /// What happens is counted here.
    pub tally: &'a Tally,
    /// The planner.
    pub planner: ArenaPlanner,
    /// The number of a call, from 1, and what it waits for.
    pub waits: &'static [(u64, Happening, u64)],
}

impl<R: Clock> Planner for Waiting<'_, R> {
    fn solve(&self, input: &Input, previous: Option<&Plan>) -> Result<Answer, AllocError> {
        let before = self.tally.add(Happening::Planned);
        if previous.is_some() {
            let _before = self.tally.add(Happening::PlannedAfterAPlan);
        }
        for (call, what, count) in self.waits {
            if *call == before.saturating_add(1) {
                self.tally.wait_for(self.rt, *what, *count);
            }
        }
        self.planner.solve(input, previous)
    }
}
