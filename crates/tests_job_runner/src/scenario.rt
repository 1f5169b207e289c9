//! What decides a session of the first worker of a pool in memory.
ghost use Rattle.std.specs.Prelude.{◌≡◌, IfOk};
ghost use Rattle.job_runner.specs.Book.{no_calls};

use crate::jobs::TestJob;
use crate::pool_port::{Beside, order_work};
use byte_io::{Sink, Source};
use job_runner::{JobTable, PoolPort, SessionEnd, run_session};
use plan_model::SlotId;
use pool_core::{Pass, Pool};
use pool_settings::Settings;
use std::alloc::{AllocError, Global};

/// Machine a with one worker for echo and reverse.
pub const BOTH: &str =
    "version = 1\n[functions.echo]\n[functions.reverse]\n[machines.a]\nworkers = 1\nfunctions = [\"echo\", \"reverse\"]\n";

/// The job of `reverse` alone.
const REVERSE: &[(&[u8], TestJob)] = &[(b"reverse", TestJob::Reverse)];

/// A call of the link that fails, counted from 1.
#[derive(Clone, Copy)]
pub enum Trouble {
    None,
    Take(u64),
    Give(u64),
}

/// All that decides a session, but for what it reads.
#[derive(Clone, Copy)]
pub struct Scenario {
    /// The settings of its pool.
    pub settings: &'static str,
    /// The function of the first order.
    pub first: &'static [u8],
    /// Its jobs by name.
    pub jobs: &'static [(&'static [u8], TestJob)],
    /// How many reads it may make.
    pub turns: u32,
    /// Whether a write takes one byte.
    pub single_writes: bool,
    /// Where the link fails.
    pub trouble: Trouble,
    /// What happens at the pool.
    pub beside: Beside,
}

impl Scenario {
    /// A worker for `reverse`.
    pub fn new() -> Scenario {
        Scenario {
            settings: BOTH,
            first: b"reverse",
            jobs: REVERSE,
            turns: u32::MAX,
            single_writes: false,
            trouble: Trouble::None,
            beside: Beside::Nothing,
        }
    }

    /// Its jobs.
    pub fn table(&self, alloc: Global) -> Option<JobTable<TestJob>> {
        let mut jobs = Vec::new(alloc);
        for (name, job) in self.jobs {
            let name = Vec::from_slice(alloc, name).ok()?;
            jobs.push((name, *job)).ok()?;
        }
        JobTable::new(jobs).ok()
    }
}

/// A pool whose first worker is ordered to work.
#[derive(Drop)]
pub struct Farm {
    /// The pool's settings.
    pub settings: Settings,
    /// The pool.
    pub pool: Pool,
    /// The worker's right to speak.
    pub pass: Pass,
}

/// A pool of these settings, whose first worker has joined and is ordered to do the function.
pub fn new_farm(alloc: Global, settings: &str, function: &[u8]) -> Option<Farm> {
    let settings = Settings::read(alloc, settings.as_bytes()).ok()?;
    let copy = settings.copy(alloc).ok()?;
    let mut pool = Pool::new(alloc, copy).ok()?;
    if pool.slots() == 0 {
        return None;
    }
    let pass = pool.join(SlotId::new(0)).ok()?;
    order_work(alloc, &mut pool, function)?;
    Some(Farm {
        settings,
        pool,
        pass,
    })
}

/// Runs a session over a link and a port. None where memory was refused beside it.
pub fn run_over<L: Source + Sink, P: PoolPort>(
    alloc: Global,
    scenario: &Scenario,
    settings: &Settings,
    pass: Pass,
    link: &mut L,
    port: &mut P,
) -> Option<SessionEnd>
    requires input { (L.input link.old).failures ≡ 0 }
    requires output { (L.output link.old).failures ≡ 0 }
    requires fresh { P.book port.old ≡ no_calls }
{
    if pass.name().slot.number() >= settings.slots() {
        return None;
    }
    let jobs = scenario.table(alloc)?;
    Some(run_session(alloc, link, port, &jobs, settings, pass, scenario.turns))
}
