//! Runs over a dialler that shows its calls: their lines follow from these.
ghost use Rattle.std.specs.Prelude.{◌≡◌, IfOk, vec_len};
ghost use Rattle.std.specs.List.{AllByRecursion};

use crate::doubles::{Stage, reverse_alone};
use crate::scenario::lines_of;
use crate::tally::Tally;
use crate::unreached::Unreached;
use pool_settings::Settings;
use pool_supervisor::{ArenaPlanner, Attempt, RunEnd, run_pool};
use std::alloc::Global;
use std::sync::Wait;
use std::test::Fail;
use std::thread::Threads;
use std::time::Clock;

/// One worker for `reverse`.
const ONE: &str =
    "version = 1\nround_ms = 7\n[functions.reverse]\n[machines.a]\nworkers = 1\nfunctions = [\"reverse\"]\n";

/// A run of so many attempts that reaches no server. That each ends without a link follows from the calls of its dialler.
fn run_unreached<R: Threads + Wait + Clock + Sync>(
    rt: &R,
    alloc: Global,
    rounds: u32,
) -> Result<RunEnd, Fail>
    ensures count { IfOk result (λ ended. vec_len ended.lines ≡ rounds) }
    ensures lines { IfOk result (λ ended. AllByRecursion (λ line. line ≡ Attempt.NoLink) ended.lines.items) }
{
    let settings = Settings::read(alloc, ONE.as_bytes())?;
    let tally = Tally::new();
    let stage = Stage::new(rt, &tally, &[]);
    let planner = ArenaPlanner::new(alloc);
    let jobs = reverse_alone(rt, alloc, &tally, &[])?;
    let dial = Unreached::new();
    let (ended, _dial) = run_pool(rt, alloc, dial, &stage, &planner, &jobs, settings, rounds)?;
    Ok(ended)
}

#[test]
fn a_run_that_reaches_no_server(rt: HostRuntime) -> Result<(), Fail> {
    let ended = run_unreached(&rt, rt.alloc(), 2)?;
    let lines = lines_of(rt.alloc(), &ended)?;
    assert_eq!(rt; lines.as_str(), "attempt 1 nolink\nattempt 2 nolink\n");
    Ok(())
}
