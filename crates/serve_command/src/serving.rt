//! The command `serve`: from the texts of a farm to the end of its run.

ghost use Rattle.std.specs.Prelude.{◌≡◌, ◌+◌, ◌^◌, ◌-◌, min, IfErr, IfOk};
ghost use Rattle.serve_command.specs.Farm as farms;
ghost use Rattle.serve_command.specs.Serving as spec;

use crate::books::Books;
use crate::farm::{Farm, FarmTexts};
use crate::farm_jobs::FarmSource;
use crate::host::FarmHost;
use crate::last_jobs::LastJobs;
use crate::page_door::PageDoor;
use crate::reporting::{Outlook, Reporting};
use farm_hosts::{FileRoom, Hosts, ThreadRoom};
use farm_notes::Tally;
use page_server::{MOST_PEERS, PageTimes};
use plan_commands::{Exit, Fault};
use pool_supervisor::{ArenaPlanner, Lent, RunEnd, run_until_ended};
use run_command::{Route, text_ms, write_ms};
use std::alloc::{AllocError, Global};
use std::sync::Mutex;
use unserved_jobs::{UnreadJobs, UnservedJobs};

/// For how many milliseconds more than workers may take to end a drain waits for the end of the farm.
const DRAIN_MS: u32 = 60_000;

/// A farm that ended.
#[derive(Drop)]
pub struct FarmEnd {
    /// What its run came to.
    pub run: RunEnd,
    /// What its attempts came to.
    pub outlook: Outlook,
}

/// How many milliseconds workers may take to end: to open a connection, to do a job, and to write its answer and what comes after it. The
/// first write of an answer, the last one, and that of what comes after it each may take as long as a write may.
fn end_ms(farm: &Farm) -> u32
    ensures { result ≡ spec.end_ms farm.now }
{
    let settings = &farm.settings;
    farm.services
        .connect_ms()
        .saturating_add(settings.job_timeout_ms())
        .saturating_add(text_ms(settings))
        .saturating_add(write_ms(settings).saturating_mul(3))
}

/// The times that the page of a farm goes by.
fn page_times(farm: &Farm) -> PageTimes
    ensures round { result.round_ms ≡ farm.now.settings.round_ms }
    ensures drain { result.drain_ms ≡ min (spec.end_ms farm.now + 60000) (2 ^ 32 - 1) }
{
    PageTimes {
        round_ms: farm.settings.round_ms(),
        drain_ms: end_ms(farm).saturating_add(DRAIN_MS),
    }
}

/// Runs a farm until its host says that it has to end.
fn run_until_end<'x, H: FarmHost>(
    host: &'x H,
    alloc: Global,
    farm: &'x Farm,
) -> Result<FarmEnd, AllocError>
    ensures { IfOk result (λ ended. spec.IsFarmRun farm.now ended.run) }
{
    let settings = farm.settings.copy(alloc)?;
    let route = Route::new(host, alloc, &settings)?;
    let planner = ArenaPlanner::new(alloc);
    let hosts = Hosts::new(alloc, settings.machines(), settings.round_ms())?;
    let unserved = Mutex::new(UnservedJobs::new(alloc)?);
    let unread = Mutex::new(UnreadJobs::new());
    let tally = Tally::new(alloc, settings.functions())?;
    let last_jobs = LastJobs::new(alloc, settings.slots())?;
    let peers = farm.services.page().map_or(0, |_| MOST_PEERS);
    let files = FileRoom::new(settings.slots(), peers);
    let threads = ThreadRoom::new();
    let books = Books {
        farm,
        hosts: &hosts,
        unserved: &unserved,
        unread: &unread,
        tally: &tally,
        last_jobs: &last_jobs,
        files: &files,
        threads: &threads,
    };
    let source = FarmSource { host, alloc, books };
    let door = farm
        .services
        .page()
        .map(|page| PageDoor::new(page, page_times(farm)));
    host.tell_start();
    if let Some(door) = &door {
        let came = host.open_page(door.page, door.times);
        host.tell_if(door.note_try(host, alloc, &came));
    }
    let watch = Reporting::new(host, alloc, books, door);
    host.note_stage(watch.stage(host.is_to_end()));
    let lent = Lent {
        rt: &watch,
        alloc,
        watch: &watch,
        jobs: &source,
    };
    let (run, _route) = run_until_ended(lent, route, &planner, settings)?;
    Ok(FarmEnd {
        run,
        outlook: watch.outlook(),
    })
}

/// Runs the farm of these texts: a session in a thread for each worker of the settings, whose jobs are done by the service of its
/// machine, and attempts to plan, one after the other, until the host says that the farm has to end. Then each session is told to stop,
/// all are joined, and what the run came to is told. Each attempt and each end of a worker is told to the host in a line when it comes.
///
/// The fault is the first mistake of the settings, or else that of the services; nothing is dialled then. It is `Memory` if memory is
/// refused, so that the run cannot go on; then its sessions are ended too. If no thread can be started for a worker, its slot stays empty
/// for some attempts.
pub fn run_farm<H: FarmHost>(
    host: &H,
    alloc: Global,
    texts: FarmTexts<'_>,
) -> Result<FarmEnd, Fault>
    ensures run { IfOk result (λ ended. spec.IsFarmRunBy texts.entry.settings.now texts.entry.services.now ended.run) }
    ensures kept { IfErr result (farms.IsRefused texts.entry.settings.now texts.entry.services.now) }
{
    let farm = Farm::read(alloc, texts)?;
    Ok(run_until_end(host, alloc, &farm)?)
}

/// [`run_farm`] as a command. Its status is 0 if each round had a plan; 1 if only some had one; 5 if no attempt ever led to a plan; 6 if a
/// slot has had all the workers that it can have, which ends the farm; and 3 or 4 with its fault.
pub fn serve_farm<H: FarmHost>(host: &H, alloc: Global, texts: FarmTexts<'_>) -> Exit
    ensures serves { spec.Serves texts.entry.settings.now texts.entry.services.now result }
{
    match run_farm(host, alloc, texts) {
        Ok(ended) => Exit::answered(ended.outlook.status()),
        Err(fault) => Exit::refused(fault),
    }
}
