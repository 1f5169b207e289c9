//! The command `run`: from a settings text to what a run of the pool came to.

ghost use Rattle.std.specs.Prelude.{◌≡◌, ◌-◌, ◌^◌, ◌<◌, IfErr, IfOk, List, [], length, string_bytes};
ghost use Rattle.pool_supervisor.specs.Rounds.{TellRun};
ghost use Rattle.pool_supervisor.specs.Runs.{AreOfOneHistory};
ghost use Rattle.pool_supervisor.specs.Sessions.{AllHad, AreSums, HadJobs, HadNamedJobs, PastSession};
ghost use Rattle.run_command.specs.Run as spec;

use crate::host::{Host, Route};
use crate::text::{run_text, status_after};
use byte_io::Sink;
use job_runner::NamedJobs;
use plan_commands::{Exit, Fault, deliver, read_settings};
use pool_settings::Settings;
use pool_supervisor::{
    ArenaPlanner, JobSource, Lent, RunEnd, run_sessions, sessions_have_named_jobs,
};
use std::alloc::{AllocError, Global};
use stock_jobs::stock_jobs;

/// Runs the pool with the jobs of this source.
fn run_with<H: Host, J: JobSource + Sync>(
    host: &H,
    alloc: Global,
    jobs: &J,
    settings: Settings,
    rounds: u32,
) -> Result<RunEnd, AllocError>
    ensures lines { IfOk result (λ ended. length ended.lines.items ≡ rounds) }
    ensures told { IfOk result (λ ended. TellRun settings [] ended.lines.items []) }
    ensures one_history { IfOk result (λ ended. AreOfOneHistory settings ended.totals ended.chapters ended.lines.items) }
    ensures sums { IfOk result (λ ended. (sessions : List PastSession)
        × AreSums settings sessions ended
        × AllHad (HadJobs J.Jobs.tells J.Jobs.fails J.Jobs.prepares (J.gives jobs.now) (J.denies jobs.now)) sessions) }
{
    let route = Route::new(host, alloc, &settings)?;
    let planner = ArenaPlanner::new(alloc);
    let lent = Lent {
        rt: host,
        alloc,
        watch: host,
        jobs,
    };
    let (ended, _route) = run_sessions(lent, route, &planner, settings, rounds)?;
    Ok(ended)
}

/// What a run came to, and the text of it.
#[derive(Drop)]
struct Told {
    ended: RunEnd,
    text: String,
}

/// Runs the pool of these settings.
fn run_told<H: Host, J: JobSource + Sync>(
    host: &H,
    alloc: Global,
    jobs: &J,
    settings_text: &[u8],
    rounds: u32,
) -> Result<Told, Fault>
    ensures run { IfOk result (λ told. spec.IsRunBy settings_text.now
        (HadJobs J.Jobs.tells J.Jobs.fails J.Jobs.prepares (J.gives jobs.now) (J.denies jobs.now)) told.ended) }
    ensures lines { IfOk result (λ told. length told.ended.lines.items ≡ rounds) }
    ensures text { IfOk result (λ told. string_bytes told.text ≡ spec.run_text told.ended) }
    ensures kept { IfErr result (spec.IsKeptFrom settings_text.now) }
{
    let settings = read_settings(alloc, settings_text)?;
    let ended = run_with(host, alloc, jobs, settings, rounds)?;
    let text = run_text(alloc, &ended)?;
    Ok(Told { ended, text })
}

/// Runs a pool of workers by these settings against their job server: `rounds` attempts to plan, and a session in a thread for each worker,
/// with the jobs that the source gives it. When all sessions have ended it writes what the run came to: a line for each attempt, from the
/// first on; the line of the chapters of the history that ended, if one did; and the line of the pool's totals, which account for each job
/// that was grabbed: it runs, was reported or was lost. The exit status is 1 if some round had no plan, and else 0. An unreachable server,
/// a bad status text or a refused call is reported in the attempt's line; the exit status stays 0.
///
/// Faults are looked for in the settings, before anything is dialled. If memory is refused, or a thread, so that the run cannot go on,
/// the sessions are ended and the fault is `Memory`. Nothing is written before the run has ended: after a `WriteFault`, which comes
/// only if the sink failed, a prefix of the text was written and not all of it, and after any other fault nothing.
///
/// It returns once all sessions have ended, so it waits for jobs that are running.
pub fn run_source<H: Host, J: JobSource + Sync, S: Sink>(
    host: &H,
    alloc: Global,
    jobs: &J,
    settings_text: &[u8],
    rounds: u32,
    sink: &mut S,
) -> Exit
    requires sink { (S.output sink.old).failures < 2 ^ 64 - 1 }
    ensures supervises { spec.Supervises settings_text.now
        (HadJobs J.Jobs.tells J.Jobs.fails J.Jobs.prepares (J.gives jobs.now) (J.denies jobs.now))
        rounds (S.output sink.old) (S.output sink.new) result }
{
    match run_told(host, alloc, jobs, settings_text, rounds) {
        Ok(told) => {
            let done = Exit::answered(status_after(&told.ended.lines));
            deliver(sink, told.text.as_bytes(), done)
        }
        Err(fault) => Exit::refused(fault),
    }
}

/// [`run_source`] with jobs by name, the same for each session. They report what their names mean.
pub fn run_jobs<H: Host, J: NamedJobs + Sync, S: Sink>(
    host: &H,
    alloc: Global,
    jobs: &J,
    settings_text: &[u8],
    rounds: u32,
    sink: &mut S,
) -> Exit
    requires sink { (S.output sink.old).failures < 2 ^ 64 - 1 }
    ensures supervises { spec.Supervises settings_text.now (HadNamedJobs (J.told jobs.now))
        rounds (S.output sink.old) (S.output sink.new) result }
{
    sessions_have_named_jobs(jobs);
    run_source(host, alloc, &jobs, settings_text, rounds, sink)
}

/// [`run_jobs`] with the stock jobs (`StockJob`). So each job that a session did reported what the stock job of its name makes of its
/// input.
pub fn run_rounds<H: Host, S: Sink>(
    host: &H,
    alloc: Global,
    settings_text: &[u8],
    rounds: u32,
    sink: &mut S,
) -> Exit
    requires sink { (S.output sink.old).failures < 2 ^ 64 - 1 }
    ensures supervises { spec.SupervisesStock settings_text.now rounds (S.output sink.old) (S.output sink.new) result }
{
    match stock_jobs(alloc) {
        Ok(jobs) => run_jobs(host, alloc, &jobs, settings_text, rounds, sink),
        Err(_) => Exit::refused(Fault::Memory),
    }
}
