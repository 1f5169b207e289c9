//! One session over the shared pool, and what it hands back.
ghost use Rattle.std.specs.Prelude.{◌≡◌, ◌⊎◌, ◌-◌, ◌<◌, ◌^◌, ℕ, List};
ghost use Rattle.byte_io.specs.Sides.{and_then};
ghost use Rattle.job_runner.specs.Book.{Ledger};
ghost use Rattle.job_runner.specs.Loop.{duty_of};
ghost use Rattle.job_runner.specs.Course.{session_of};
ghost use Rattle.job_runner.specs.Run.{EndTold, Served};
ghost use Rattle.job_runner.specs.Told.{Telling};
ghost use Rattle.pool_settings.specs.Slots.{slots};
ghost use Rattle.pool_supervisor.specs.JobCounts.{answered};
ghost use Rattle.pool_supervisor.specs.Published.{AreSeen};
ghost use Rattle.pool_supervisor.specs.Sessions.{turned_away};

use crate::job_counts::JobCounts;
use crate::jobs::JobSource;
use crate::place::{Grabs, Place, Reports, RunBoard, RunId};
use crate::port::{SharedPort, Watch};
use crate::shared::Shared;
use byte_io::{Sink, Source};
use job_runner::{EndCause, SessionEnd, Workplace, serve_worker};
use pool_core::Pass;
use std::alloc::{AllocError, Global};
use std::sync::Wait;
use std::sync::ledger::Share;
use worker_state::Cause;

/// What a run is lent by its caller for its sessions.
pub struct Lent<'e, J, C, R> {
    /// The right to wait for other threads.
    pub rt: &'e R,
    /// Where memory comes from.
    pub alloc: Global,
    /// What tells the time.
    pub watch: &'e C,
    /// What gives each session its jobs.
    pub jobs: &'e J,
}

impl<'e, J, C, R> Clone for Lent<'e, J, C, R> {
    ghost use Rattle.std.specs.Prelude.{◌≡◌, ⊤};

    ghost is_clone = { λ lent copy. copy ≡ lent };

    ghost is_infallible = { λ _. ⊤ };

    fn clone(&self) -> Result<Lent<'e, J, C, R>, AllocError> {
        Ok(*self)
    }
}

// Not derived, since that would ask the same of all that is lent.
impl<'e, J, C, R> Copy for Lent<'e, J, C, R> {}

/// Where the sessions of a run are: what they are lent, their pool, and their board.
pub struct Site<'e, N: RunId, J, C, R> {
    /// What the run is lent.
    pub lent: Lent<'e, J, C, R>,
    /// The pool.
    pub shared: &'e Shared<Grabs<N>, Reports<N>>,
    /// The board from which orders are read, and the settings.
    pub run: RunBoard<'e, N>,
}

impl<'e, N: RunId, J, C, R> Clone for Site<'e, N, J, C, R> {
    ghost use Rattle.std.specs.Prelude.{◌≡◌, ⊤};

    ghost is_clone = { λ site copy. copy ≡ site };

    ghost is_infallible = { λ _. ⊤ };

    fn clone(&self) -> Result<Site<'e, N, J, C, R>, AllocError> {
        Ok(*self)
    }
}

impl<'e, N: RunId, J, C, R> Copy for Site<'e, N, J, C, R> {}

/// A worker that joined its pool, with its seat at the board.
#[derive(Drop)]
pub struct Enrolled<N: RunId> {
    /// Its right to speak for its slot.
    pub pass: Pass,
    /// Its place at the board.
    pub place: Place<N>,
    /// There it reads the orders of its own slot.
    pub ghost own: { place.seat.slot ≡ pass.slot },
}

/// What a session is given: its worker, and a share of each book, which is 0.
#[derive(Drop)]
pub struct Papers<N: RunId> {
    /// The worker.
    pub worker: Enrolled<N>,
    /// Its share of the book of grabs.
    pub grabbed: Share<Grabs<N>>,
    /// Its share of the book of reports.
    pub reported: Share<Reports<N>>,
    /// It has one part of each ledger.
    pub ghost grab_part: { grabbed.parts ≡ 1 },
    pub ghost report_part: { reported.parts ≡ 1 },
    /// Nothing was grabbed or reported yet.
    pub ghost none_grabbed: { grabbed.amount ≡ 0 },
    pub ghost none_reported: { reported.amount ≡ 0 },
}

/// What is left of the papers of a session that never began: its place at the board, and its shares, which are 0.
#[derive(Drop)]
pub struct Unused<N: RunId> {
    /// Its place at the board.
    pub place: Place<N>,
    /// Its share of the book of grabs.
    pub grabbed: Share<Grabs<N>>,
    /// Its share of the book of reports.
    pub reported: Share<Reports<N>>,
    /// It has one part of each ledger.
    pub ghost grab_part: { grabbed.parts ≡ 1 },
    pub ghost report_part: { reported.parts ≡ 1 },
    /// Nothing was grabbed or reported.
    pub ghost none_grabbed: { grabbed.amount ≡ 0 },
    pub ghost none_reported: { reported.amount ≡ 0 },
}

/// How many reads a session may make.
const TURNS: u32 = u32::MAX;

/// What a session hands back: how it ended, its place at the board, and its shares, which stand at what it grabbed and reported.
#[derive(Drop)]
pub struct Returned<N: RunId> {
    /// How it ended, and what it counted.
    pub end: SessionEnd,
    /// What became of its jobs.
    pub jobs: JobCounts,
    /// Its place at the board.
    pub place: Place<N>,
    /// Its share of the book of grabs.
    pub grabbed: Share<Grabs<N>>,
    /// Its share of the book of reports.
    pub reported: Share<Reports<N>>,
    /// It has one part of each ledger.
    pub ghost grab_part: { grabbed.parts ≡ 1 },
    pub ghost report_part: { reported.parts ≡ 1 },
    /// The shares stand at the counts of its end.
    pub ghost grabs_counted: { grabbed.amount ≡ end.grabbed },
    pub ghost reports_counted: { reported.amount ≡ end.reported },
    /// Each job that it reported was completed or failed.
    pub ghost ends_counted: { answered jobs ≡ end.reported },
}

/// A worker's session over the shared pool, to its end, with these jobs. The shares begin at 0 and come back at the counts of its end.
fn run_jobs<N: RunId, L: Source + Sink, J: JobSource, C: Watch, R: Wait>(
    site: &Site<'_, N, J, C, R>,
    link: &mut L,
    papers: Papers<N>,
    jobs: J::Jobs,
) -> Returned<N>
    requires slot { papers.worker.pass.slot < slots site.now.run.settings.now }
    requires output { (L.output link.old).failures < 2 ^ 64 - 1 }
    requires input { (L.input link.old).failures < 2 ^ 64 - 1 }
    ensures served { (read bytes : List ℕ) × (told : List Telling) × (book : Ledger) × (last : J.Jobs)
        × ((L.input link.new).given ≡ and_then (L.input link.old).given read)
        × ((L.output link.new).got ≡ and_then (L.output link.old).got bytes)
        × EndTold J.Jobs.tells J.Jobs.fails J.Jobs.prepares jobs last result.end.cause told
        × Served (session_of (duty_of site.now.run.settings.now papers.worker.pass) (L.output link.old).got read) told bytes
        (record { input = L.input link.old; output = L.output link.old })
        (record { input = L.input link.new; output = L.output link.new })
        book result.end × AreSeen result.place.seat.seen book.orders }
{
    let Papers {
        worker: Enrolled { pass, place },
        grabbed,
        reported,
    } = papers;
    let Lent {
        rt,
        alloc,
        watch,
        ..
    } = site.lent;
    let shares = (grabbed, reported);
    let mut port = SharedPort::new(rt, site.shared, watch, site.run, place, shares);
    let mut jobs = jobs;
    let place = Workplace {
        alloc,
        settings: site.run.settings,
        turns: TURNS,
    };
    let end = serve_worker(place, pass, link, &mut port, &mut jobs);
    let jobs_done = port.jobs();
    let (grabbed, reported, place) = port.into_parts();
    Returned {
        end,
        jobs: jobs_done,
        place,
        grabbed,
        reported,
    }
}

/// Ends a session before it begins. Its worker is lost as unserved.
fn turn_away<N: RunId, J, C, R: Wait>(site: &Site<'_, N, J, C, R>, papers: Papers<N>) -> Returned<N>
    ensures end { result.end ≡ turned_away }
{
    let Papers {
        worker: Enrolled { pass, place },
        grabbed,
        reported,
    } = papers;
    let _ = site.shared.hold(site.lent.rt).lose(pass, Cause::Unserved);
    Returned {
        end: SessionEnd {
            cause: EndCause::Unserved,
            grabbed: 0,
            answered: 0,
            reported: 0,
        },
        jobs: JobCounts::none(),
        place,
        grabbed,
        reported,
    }
}

/// Gives up a session for which there is no thread. Its worker is lost as out of memory, as one is that finds no memory later.
pub fn give_up<N: RunId, J, C, R: Wait>(
    site: &Site<'_, N, J, C, R>,
    papers: Papers<N>,
) -> Unused<N> {
    let Papers {
        worker: Enrolled { pass, place },
        grabbed,
        reported,
    } = papers;
    let _ = site.shared.hold(site.lent.rt).lose(pass, Cause::Memory);
    Unused {
        place,
        grabbed,
        reported,
    }
}

/// A worker's session over the shared pool, to its end, with the jobs that the source gives it. It promises of what it reads and writes
/// what [`serve_worker`] does, and each order that it obeys is one that its place saw, or Stop. If the source gives it none, it ends as
/// `Unserved` before it begins, and nothing is read or written. The shares begin at 0 and come back at the counts of its end, so the pool
/// has booked just what the session reports.
pub fn run_worker<N: RunId, L: Source + Sink, J: JobSource, C: Watch, R: Wait>(
    site: &Site<'_, N, J, C, R>,
    link: &mut L,
    papers: Papers<N>,
) -> Returned<N>
    requires slot { papers.worker.pass.slot < slots site.now.run.settings.now }
    requires output { (L.output link.old).failures < 2 ^ 64 - 1 }
    requires input { (L.input link.old).failures < 2 ^ 64 - 1 }
    ensures served { (J.denies site.now.lent.jobs.now papers.worker.pass × (link.new ≡ link.old) × (result.end ≡ turned_away))
        ⊎ ((read bytes : List ℕ) × (told : List Telling) × (book : Ledger) × (first last : J.Jobs)
        × J.gives site.now.lent.jobs.now papers.worker.pass first
        × ((L.input link.new).given ≡ and_then (L.input link.old).given read)
        × ((L.output link.new).got ≡ and_then (L.output link.old).got bytes)
        × EndTold J.Jobs.tells J.Jobs.fails J.Jobs.prepares first last result.end.cause told
        × Served (session_of (duty_of site.now.run.settings.now papers.worker.pass) (L.output link.old).got read) told bytes
        (record { input = L.input link.old; output = L.output link.old })
        (record { input = L.input link.new; output = L.output link.new })
        book result.end × AreSeen result.place.seat.seen book.orders) }
{
    match site.lent.jobs.jobs_of(papers.worker.pass.name()) {
        Some(jobs) => run_jobs(site, link, papers, jobs),
        None => turn_away(site, papers),
    }
}
