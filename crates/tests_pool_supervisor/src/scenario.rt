//! What decides a run over the server in memory.

use crate::doubles::{Pause, Stage, Waiting, reverse_alone};
use crate::server::{Part, Server};
use crate::tally::{Happening, Tally};
use pool_settings::Settings;
use pool_supervisor::{ArenaPlanner, RunEnd, attempt_line, run_pool};
use std::alloc::{AllocError, Global};
use std::sync::Wait;
use std::test::Fail;
use std::thread::Threads;
use std::time::Clock;

/// All that decides a run.
#[derive(Clone, Copy)]
pub struct Scenario {
    /// The settings of its pool.
    pub settings: &'static str,
    /// How many attempts it makes.
    pub rounds: u32,
    /// What the server does with each worker.
    pub parts: &'static [Part],
    /// What the server answers when it is asked for its status.
    pub statuses: &'static [&'static [u8]],
    /// So many dials fail before the first that does not.
    pub failing_dials: u64,
    /// The pauses between attempts.
    pub pauses: &'static [Pause],
    /// The input of a job, and what that job waits for.
    pub job_waits: &'static [(&'static [u8], Happening, u64)],
    /// The number of a plan, and what that plan waits for.
    pub plan_waits: &'static [(u64, Happening, u64)],
}

impl Scenario {
    /// So many attempts over a server that is always there, in which nobody waits for anything.
    pub fn new(
        settings: &'static str,
        rounds: u32,
        parts: &'static [Part],
        statuses: &'static [&'static [u8]],
    ) -> Scenario {
        Scenario {
            settings,
            rounds,
            parts,
            statuses,
            failing_dials: 0,
            pauses: &[],
            job_waits: &[],
            plan_waits: &[],
        }
    }

    /// Runs it to its end. What happens is counted in the tally.
    pub fn run<R: Threads + Wait + Clock + Sync>(
        &self,
        rt: &R,
        alloc: Global,
        tally: &Tally,
    ) -> Result<RunEnd, Fail> {
        let settings = Settings::read(alloc, self.settings.as_bytes())?;
        let server = Server {
            rt,
            alloc,
            tally,
            parts: self.parts,
            statuses: self.statuses,
            failing_dials: self.failing_dials,
        };
        let stage = Stage::new(rt, tally, self.pauses);
        let planner = Waiting {
            rt,
            tally,
            planner: ArenaPlanner::new(alloc),
            waits: self.plan_waits,
        };
        let jobs = reverse_alone(rt, alloc, tally, self.job_waits)?;
        let (ended, _server) = run_pool(
            rt,
            alloc,
            server,
            &stage,
            &planner,
            &jobs,
            settings,
            self.rounds,
        )?;
        Ok(ended)
    }
}

/// The lines of a run's attempts.
pub fn lines_of(alloc: Global, ended: &RunEnd) -> Result<String, AllocError> {
    let mut text = String::new(alloc);
    let mut number = 0u32;
    for attempt in &ended.lines {
        number = number.saturating_add(1);
        let line = attempt_line(alloc, number, attempt)?;
        text.push_str(line.as_str())?;
        text.push_str("\n")?;
    }
    Ok(text)
}

/// The totals of a run: jobs grabbed, running, reported and lost, rounds, and events.
pub fn totals_of(ended: &RunEnd) -> (u64, u64, u64, u64, u32, u32) {
    let totals = ended.totals;
    (
        totals.grabbed,
        totals.running,
        totals.reported,
        totals.lost,
        totals.rounds,
        totals.events,
    )
}
