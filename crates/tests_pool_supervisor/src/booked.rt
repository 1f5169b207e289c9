//! What a session books by its port, held against the history of its pool. No clause says that the two agree: a port shows what it answered
//! and not what it was asked, and what is under a lock is known only while that is held.
ghost use Rattle.std.specs.Prelude.{◌≡◌, ◌<◌, ◌≤◌, ◌^◌, IfOk};
ghost use Rattle.pool_settings.specs.Slots.{slots};
ghost use Rattle.pool_core.specs.Book.{totals_of};

use crate::doubles::{Reverse, Stage, reverse_alone};
use crate::server::ASSIGN;
use crate::tally::Tally;
use agreed_rounds::NoRounds;
use byte_io::doubles::Script;
use job_runner::{JobTable, NamedJobs, SessionEnd};
use order_board::{Board, PublisherSeat, SeatSource};
use plan_model::{FuncId, SlotId};
use pool_core::{Event, JoinError, Pass, Pool};
use pool_settings::Settings;
use pool_supervisor::{
    Enrolled, Grabs, JobCounts, JobSource, Lent, Papers, Place, Reports, RunBoard, RunId, Shared,
    Site, Until, Watch, run_worker,
};
use std::alloc::{AllocError, Global};
use std::marker::{Brand, PhantomData};
use std::process::Abort;
use std::sync::Wait;
use std::sync::ledger::{Blank, Share};
use std::test::Fail;
use worker_state::{Cause, EndKind, Order, What, WorkerName};

/// Machine a with one worker for `reverse`.
pub const ONE: &str =
    "version = 1\n[functions.reverse]\n[machines.a]\nworkers = 1\nfunctions = [\"reverse\"]\n";

/// How many parts each ledger of a run has.
const PARTS: u64 = 1 << 40;

/// What a run makes before its first session.
#[derive(Drop)]
struct Made {
    pool: Pool,
    board: Board,
    publisher: PublisherSeat,
    source: SeatSource,
    rounds: NoRounds,
    /// Nothing was grabbed yet, and no round was made.
    ghost is_new: { ((totals_of pool).grabbed ≡ 0) × ((totals_of pool).rounds ≡ 0) },
    /// The seats are at the board, which has a place for each slot.
    ghost can_post: { publisher.board ≡ board.id },
    ghost can_seat: { source.board ≡ board.id },
    ghost room: { slots pool.settings ≤ board.slots },
}

/// The only error is out of memory.
fn make(alloc: Global, settings: &Settings) -> Result<Made, AllocError>
    ensures { IfOk result (λ made. made.pool.settings ≡ settings.now) }
{
    let pool = Pool::new(alloc, settings.copy(alloc)?)?;
    let Ok((board, publisher, source)) = Board::new(alloc, settings.slots()) else {
        return Err(AllocError);
    };
    let rounds = NoRounds::new(alloc)?;
    Ok(Made {
        pool,
        board,
        publisher,
        source,
        rounds,
    })
}

/// The worker of the first slot.
fn join<N: RunId, J, C, R: Wait>(site: &Site<'_, N, J, C, R>) -> Result<Pass, JoinError>
    requires { 0 < slots site.now.run.settings.now }
    ensures { IfOk result (λ pass. pass.slot ≡ 0) }
{
    let mut held = site.shared.hold(site.lent.rt);
    held.facts();
    held.join(SlotId::new(0))
}

/// A session of the worker: how it ended, and what became of its jobs.
fn session<N: RunId, J: JobSource, C: Watch, R: Wait>(
    site: &Site<'_, N, J, C, R>,
    papers: Papers<N>,
    link: &mut Script,
) -> (SessionEnd, JobCounts)
    requires slot { papers.worker.pass.slot < slots site.now.run.settings.now }
    requires input { link.old.take_failures ≡ 0 }
    requires output { link.old.give_failures ≡ 0 }
{
    let returned = run_worker(site, link, papers);
    (returned.end, returned.jobs)
}

/// A session of the first slot's worker, who joins the pool.
fn serve_over<'e, N: RunId, J: JobSource, C: Watch, R: Wait>(
    lent: Lent<'e, J, C, R>,
    shared: &'e Shared<Grabs<N>, Reports<N>>,
    run: RunBoard<'e, N>,
    place: Place<N>,
    shares: (Share<Grabs<N>>, Share<Reports<N>>),
    link: &mut Script,
) -> Result<(SessionEnd, JobCounts), Fail>
    requires slot { 0 < slots run.settings.now }
    requires place { place.seat.slot ≡ 0 }
    requires grabbed { (shares.0.parts ≡ 1) × (shares.0.amount ≡ 0) }
    requires reported { (shares.1.parts ≡ 1) × (shares.1.amount ≡ 0) }
    requires input { link.old.take_failures ≡ 0 }
    requires output { link.old.give_failures ≡ 0 }
{
    let site = Site { lent, shared, run };
    let (grabbed, reported) = shares;
    let papers = Papers {
        worker: Enrolled {
            pass: join(&site)?,
            place,
        },
        grabbed,
        reported,
    };
    Ok(session(&site, papers, link))
}

/// What a session came to.
#[derive(Drop)]
pub struct Done {
    /// How it ended.
    pub end: SessionEnd,
    /// What became of its jobs.
    pub jobs: JobCounts,
    /// The pool then.
    pub pool: Pool,
}

/// The session of a run's worker, which is ordered to do `reverse`.
fn serve<'e, N: RunId, J: JobSource, C: Watch, R: Wait>(
    lent: Lent<'e, J, C, R>,
    settings: &'e Settings,
    made: Made,
    books: (Blank, Blank),
    link: &mut Script,
) -> Result<Done, Fail>
    requires board { made.board.id ≡ N.board }
    requires until { N.until ≡ Until.Rounds 1 }
    requires settings { (settings.now ≡ N.settings) × (made.pool.settings ≡ N.settings) }
    requires grabbed { (books.0.name ≡ N.grabs) × (books.0.parts ≡ 2 ^ 40) }
    requires reported { (books.1.name ≡ N.reports) × (books.1.parts ≡ 2 ^ 40) }
    requires rounds { made.rounds ≡ N.rounds }
    requires input { link.old.take_failures ≡ 0 }
    requires output { link.old.give_failures ≡ 0 }
{
    let Made {
        pool,
        board,
        publisher,
        source,
        rounds,
    } = made;
    if settings.slots() == 0 {
        return Err(Fail::from("there is no slot"));
    }
    let (grabbed, reported) = books;
    let (shared, (mut grabs, mut reports), _told) = Shared::<Grabs<N>, Reports<N>>::new(
        pool, grabbed, reported, rounds,
    );
    let order = Order {
        generation: 1,
        round: 1,
        what: What::Work(FuncId::new(0)),
    };
    let _ = board.post(publisher, SlotId::new(0), order);
    let (seat, _source) = board.reader(source, SlotId::new(0));
    let place = Place {
        seat,
        of: PhantomData,
    };
    let run = RunBoard {
        board: &board,
        settings,
        until: Until::Rounds(1),
        of: PhantomData,
    };
    let shares = (grabs.split_off(1, 0), reports.split_off(1, 0));
    let (end, jobs) = serve_over(lent, &shared, run, place, shares, link)?;
    let pool = shared.into_pool();
    Ok(Done { end, jobs, pool })
}

/// Whether it is the first worker of the slot.
fn is_first(worker: &WorkerName) -> bool {
    worker.slot.number() == 0 && worker.generation == 1
}

/// Whether the pool has the job as the server assigned it.
fn is_grab(event: &Event) -> bool {
    match event {
        Event::Grab {
            worker,
            handle,
            function,
            now_ms,
        } => {
            is_first(worker)
                && handle.bytes() == b"H:a:1".as_slice()
                && function.bytes() == b"reverse".as_slice()
                && *now_ms == 43_200_000
        }
        _ => false,
    }
}

/// Whether the job was reported so.
fn is_report(event: &Event, kind: EndKind) -> bool {
    match event {
        Event::Reported {
            worker,
            ticket,
            end,
        } => is_first(worker) && ticket.number() == 1 && *end == kind,
        _ => false,
    }
}

/// Whether the worker was lost since the link was closed.
fn is_loss(event: &Event) -> bool {
    match event {
        Event::Lost { worker, cause } => is_first(worker) && *cause == Cause::Closed,
        _ => false,
    }
}

/// Whether these are a worker that joins, a job that is grabbed, begun and reported so, and the loss of the worker.
fn are_booked(events: &[Event], kind: EndKind) -> bool {
    events.len() == 5
        && is_grab(&events[1])
        && matches!(events[2], Event::Begin { .. })
        && is_report(&events[3], kind)
        && is_loss(&events[4])
}

/// The session of a run with these jobs, whose worker is of the first slot of the settings and does their first function.
pub fn book<J: NamedJobs + Sync, C: Watch, R: Wait>(
    rt: &R,
    alloc: Global,
    watch: &C,
    jobs: &J,
    settings: &str,
    link: &mut Script,
) -> Result<Done, Fail>
    requires input { link.old.take_failures ≡ 0 }
    requires output { link.old.give_failures ≡ 0 }
{
    let settings = Settings::read(alloc, settings.as_bytes())?;
    let made = make(alloc, &settings)?;
    let lent = Lent {
        rt,
        alloc,
        watch,
        jobs: &jobs,
    };
    let (grabbed, reported) = (Blank::new(PARTS), Blank::new(PARTS));
    serve::<Brand, &J, C, R>(lent, &settings, made, (grabbed, reported), link)
}

/// The link gives one job of `reverse`, and then ends: the pool has the job as the server gave it, and its end as the session wrote it.
fn expect_booked<J: NamedJobs + Sync, C: Watch, R: Wait + Abort>(
    rt: &R,
    alloc: Global,
    watch: &C,
    jobs: &J,
    kind: EndKind,
) -> Result<(), Fail> {
    let mut link = Script::new(alloc);
    link.piece(ASSIGN)?;
    let Done { end, jobs: _, pool } = book(rt, alloc, watch, jobs, ONE, &mut link)?;
    assert_eq!(rt; (end.grabbed, end.answered, end.reported), (1, 1, 1));
    assert!(rt; are_booked(pool.history(), kind));
    Ok(())
}

#[test]
fn a_job_that_is_complete(rt: HostRuntime) -> Result<(), Fail> {
    let tally = Tally::new();
    let jobs = reverse_alone(&rt, rt.alloc(), &tally, &[])?;
    let stage = Stage::new(&rt, &tally, &[]);
    expect_booked(&rt, rt.alloc(), &stage, &jobs, EndKind::Complete)
}

/// A job that nobody has fails.
#[test]
fn a_job_that_fails(rt: HostRuntime) -> Result<(), Fail> {
    let tally = Tally::new();
    let jobs: JobTable<Reverse<'_, HostRuntime>> = JobTable::new(Vec::new(rt.alloc())).map_err(
        |_| "no table",
    )?;
    let stage = Stage::new(&rt, &tally, &[]);
    expect_booked(&rt, rt.alloc(), &stage, &jobs, EndKind::Fail)
}
