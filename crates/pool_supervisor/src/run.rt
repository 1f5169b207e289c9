//! A run of the pool: what it makes, and what it came to.
ghost use Rattle.std.specs.Prelude.{◌≡◌, ◌≤◌, ◌^◌, [], List, IfOk, vec_len};
ghost use Rattle.pool_settings.specs.Slots.{slots as slot_count};
ghost use Rattle.pool_core.specs.Book.{totals_of};
ghost use Rattle.pool_supervisor.specs.declared.attempt.Attempt.{Attempt};
ghost use Rattle.pool_supervisor.specs.FarmPosts.{TellFarm};
ghost use Rattle.pool_supervisor.specs.Rounds.{TellRun};
ghost use Rattle.pool_supervisor.specs.Runs.{AreOfOneHistory, IsRun};
ghost use Rattle.pool_supervisor.specs.Sessions.{Covers, HadJobs, HadNamedJobs};
ghost use Rattle.pool_supervisor.specs.Tries.{Dials, DialsBy, LooksBy, all_slots};
ghost use Rattle.slot_turns.specs.Turns.{IsEachSlotOnce};

use crate::attempts::{Lines, Seats, Supervisor, Until};
use crate::crew::{Crew, PARTS};
use crate::dial::Dial;
use crate::jobs::JobSource;
use crate::news::Progress;
use crate::place::{Grabs, Reports, RunBoard, RunId};
use crate::planner::Planner;
use crate::port::Watch;
use crate::run_end::RunEnd;
use crate::session::{Lent, Site};
use crate::shared::Shared;
use agreed_rounds::NoRounds;
use byte_io::{Sink, Source};
use job_runner::NamedJobs;
use order_board::Board;
use plan_model::FuncId;
use pool_core::Pool;
use pool_settings::Settings;
use slot_turns::SlotTurns;
use std::alloc::{AllocError, Global};
use std::marker::{Brand, PhantomData};
use std::sync::Wait;
use std::sync::ledger::Blank;
use std::thread::Threads;

/// What a run makes before its first session starts.
#[derive(Drop)]
struct Made {
    pool: Pool,
    board: Board,
    seats: Seats,
    turns: SlotTurns,
    rounds: NoRounds,
    lines: Lines,
    /// Nothing was grabbed yet, and no round was made.
    ghost is_new: { ((totals_of pool).grabbed ≡ 0) × ((totals_of pool).rounds ≡ 0) },
    /// The seats are at the board, which has a place for each slot.
    ghost can_post: { seats.publisher.board ≡ board.id },
    ghost can_seat: { seats.source.board ≡ board.id },
    ghost room: { slot_count pool.settings ≤ board.slots },
    /// Each slot has its turns.
    ghost each_once: { ∥ IsEachSlotOnce pool.settings turns ∥₁ },
    /// Nothing was posted or reported yet.
    ghost none_posted: { seats.publisher.posts ≡ [] },
    ghost none_told: { lines.told.items ≡ [] },
}

/// What the supervisor of a run is lent by its caller, beside what its sessions are.
#[derive(Drop)]
struct Tools<'e, L, Y, P> {
    settings: &'e Settings,
    dial: Y,
    planner: &'e P,
    links: PhantomData<L>,
}

impl<'e, L: Source + Sink + Send + Drop, Y: Dial<L> + Drop, P: Planner> Tools<'e, L, Y, P> {
    /// The run of this name.
    #[tactic(auto, using(crate::proofs::Rounds::none_noted))]
    fn run<
        N: RunId + Send + Sync,
        J: JobSource + Sync,
        C: Watch + Progress + Sync,
        R: Threads + Wait + Sync,
    >(
        self,
        lent: Lent<'e, J, C, R>,
        made: Made,
        grabbed: Blank,
        reported: Blank,
    ) -> Result<(RunEnd, Y), AllocError>
        requires board { made.board.id ≡ N.board }
        requires settings { (self.settings.now ≡ N.settings) × (made.pool.settings ≡ N.settings) }
        requires until { made.lines.until ≡ N.until }
        requires grabbed { (grabbed.name ≡ N.grabs) × (grabbed.parts ≡ 2 ^ 40) }
        requires reported { (reported.name ≡ N.reports) × (reported.parts ≡ 2 ^ 40) }
        requires rounds { made.rounds ≡ N.rounds }
        requires rule { J.allows lent.jobs.now ≡ N.allows }
        requires source { Covers N.had_jobs
            (HadJobs J.Jobs.tells J.Jobs.fails J.Jobs.prepares (J.gives lent.jobs.now) (J.denies lent.jobs.now)) }
        ensures runs { IfOk result (λ ended. IsRun made.pool.settings N.allows N.had_jobs made.lines.until [] ended.0 []
            (Y.calls self.entry.dial) (Y.calls ended.1)) }
    {
        let Tools {
            settings,
            dial,
            planner,
            links: _,
        } = self;
        let Made {
            pool,
            board,
            seats,
            turns,
            rounds,
            lines,
        } = made;
        let (shared, (grabs, reports), told) = Shared::<Grabs<N>, Reports<N>>::new(
            pool, grabbed, reported, rounds,
        );
        let supervisor = Supervisor {
            site: Site {
                lent,
                shared: &shared,
                run: RunBoard {
                    board: &board,
                    settings,
                    until: lines.until,
                    of: PhantomData,
                },
            },
            dial,
            planner,
            crew: Crew::<N, L>::new(lent.alloc, grabs, reports),
            seats,
            turns,
            rounds: told,
            longest: None,
            relaxed: None,
        };
        supervisor.run(lines)
    }

    /// A run that makes attempts for so long.
    fn run_whole<J: JobSource + Sync, C: Watch + Progress + Sync, R: Threads + Wait + Sync>(
        self,
        lent: Lent<'e, J, C, R>,
        until: Until,
    ) -> Result<(RunEnd, Y), AllocError>
        ensures runs { IfOk result (λ e. IsRun self.entry.settings.now (J.allows lent.entry.jobs.now)
            (HadJobs J.Jobs.tells J.Jobs.fails J.Jobs.prepares (J.gives lent.entry.jobs.now) (J.denies lent.entry.jobs.now))
            until [] e.0 [] (Y.calls self.entry.dial) (Y.calls e.1)) }
    {
        report_lacking(lent.watch, lent.jobs, self.settings);
        let made = make(lent.alloc, self.settings, until)?;
        let watch = lent.watch;
        let ran = self.run::<Brand, J, C, R>(lent, made, Blank::new(PARTS), Blank::new(PARTS));
        report(watch, &ran);
        ran
    }
}

/// The lines of a run that makes attempts for so long: none yet. The error is that memory was refused.
fn no_lines(alloc: Global, until: Until) -> Result<Lines, AllocError>
    ensures until { IfOk result (λ lines. lines.until ≡ until) }
    ensures none { IfOk result (λ lines. lines.told.items ≡ []) }
{
    let told = match until {
        Until::Rounds(rounds) => Vec::with_capacity(alloc, rounds as usize)?,
        Until::Ended => Vec::new(alloc),
    };
    Ok(Lines { told, until })
}

/// What a run of these settings makes: its pool, its board, and room for its lines. The error is that memory was refused.
fn make(alloc: Global, settings: &Settings, until: Until) -> Result<Made, AllocError>
    ensures settings { IfOk result (λ made. made.pool.settings ≡ settings.now) }
    ensures until { IfOk result (λ made. made.lines.until ≡ until) }
{
    let lines = no_lines(alloc, until)?;
    let pool = Pool::new(alloc, settings.copy(alloc)?)?;
    let Ok((board, publisher, source)) = Board::new(alloc, settings.slots()) else {
        return Err(AllocError);
    };
    let turns = SlotTurns::new(alloc, settings)?;
    let rounds = NoRounds::new(alloc)?;
    Ok(Made {
        pool,
        board,
        seats: Seats { publisher, source },
        turns,
        rounds,
        lines,
    })
}

/// Runs a pool of these settings for so many attempts, with a session for each slot, and then ends all sessions. Each session has the jobs
/// that the source gives it. The watch is told of each function without a job, of each attempt, of each worker's end, and of what the run
/// came to. What dials is handed back with that, so that its calls are known. Lines and totals are of one history, which keeps to the
/// promise, and the totals are the sums of what the joined sessions counted, each of which had jobs of the source or was denied them. The
/// only error is that memory or a thread was refused.
pub fn run_sessions<
    L: Source + Sink + Send + Drop,
    Y: Dial<L> + Drop,
    P: Planner,
    S: JobSource + Sync,
    H: Watch + Progress + Threads + Wait + Sync,
>(
    lent: Lent<'_, S, H, H>,
    dial: Y,
    planner: &P,
    settings: Settings,
    rounds: u32,
) -> Result<(RunEnd, Y), AllocError>
    ensures lines { IfOk result (λ e. vec_len e.0.lines ≡ rounds) }
    ensures told { IfOk result (λ e. TellRun settings [] e.0.lines.items []) }
    ensures one_history { IfOk result (λ e. AreOfOneHistory settings e.0.totals e.0.chapters e.0.lines.items) }
    ensures dials { IfOk result (λ e. Dials settings (S.allows lent.entry.jobs.now)
        (HadJobs S.Jobs.tells S.Jobs.fails S.Jobs.prepares (S.gives lent.entry.jobs.now) (S.denies lent.entry.jobs.now))
        [] e.0.lines.items e.0 (Y.calls dial) (Y.calls e.1)) }
{
    let tools: Tools<'_, L, Y, P> = Tools {
        settings: &settings,
        dial,
        planner,
        links: PhantomData,
    };
    tools.run_whole(lent, Until::Rounds(rounds))
}

/// [`run_sessions`] that makes attempts until the watch says that the run has to end. It keeps no line of an attempt: the watch is told
/// each. Empty slots are filled in turn round the machines, for no longer than a round in an attempt, and again between attempts whenever
/// the watch is woken. A worker that joins does what its slot did last, and after a round without a plan the orders of a relaxed plan are
/// posted.
pub fn run_until_ended<
    L: Source + Sink + Send + Drop,
    Y: Dial<L> + Drop,
    P: Planner,
    S: JobSource + Sync,
    H: Watch + Progress + Threads + Wait + Sync,
>(
    lent: Lent<'_, S, H, H>,
    dial: Y,
    planner: &P,
    settings: Settings,
) -> Result<(RunEnd, Y), AllocError>
    ensures attempts { IfOk result (λ e. (lines : List Attempt) × TellFarm settings [] lines []
        × DialsBy (LooksBy Until.Ended settings (S.allows lent.entry.jobs.now)) settings
        (HadJobs S.Jobs.tells S.Jobs.fails S.Jobs.prepares (S.gives lent.entry.jobs.now) (S.denies lent.entry.jobs.now)) [] lines
        e.0 (Y.calls dial) (Y.calls e.1)
        × AreOfOneHistory settings e.0.totals e.0.chapters lines) }
    ensures none_kept { IfOk result (λ e. e.0.lines.items ≡ []) }
{
    let tools: Tools<'_, L, Y, P> = Tools {
        settings: &settings,
        dial,
        planner,
        links: PhantomData,
    };
    tools.run_whole(lent, Until::Ended)
}

/// [`run_sessions`] with jobs by name, the same for each session, and with what it is lent one by one. Each session has them, and they
/// report what they mean.
pub fn run_pool<
    L: Source + Sink + Send + Drop,
    Y: Dial<L> + Drop,
    P: Planner,
    J: NamedJobs + Sync,
    C: Watch + Progress + Sync,
    R: Threads + Wait + Sync,
>(
    rt: &R,
    alloc: Global,
    dial: Y,
    watch: &C,
    planner: &P,
    jobs: &J,
    settings: Settings,
    rounds: u32,
) -> Result<(RunEnd, Y), AllocError>
    ensures lines { IfOk result (λ e. vec_len e.0.lines ≡ rounds) }
    ensures told { IfOk result (λ e. TellRun settings [] e.0.lines.items []) }
    ensures one_history { IfOk result (λ e. AreOfOneHistory settings e.0.totals e.0.chapters e.0.lines.items) }
    ensures dials { IfOk result (λ e. Dials settings all_slots (HadNamedJobs (J.told jobs.now)) [] e.0.lines.items e.0
        (Y.calls dial) (Y.calls e.1)) }
{
    let tools: Tools<'_, L, Y, P> = Tools {
        settings: &settings,
        dial,
        planner,
        links: PhantomData,
    };
    let lent = Lent {
        rt,
        alloc,
        watch,
        jobs: &jobs,
    };
    tools.run_whole(lent, Until::Rounds(rounds))
}

/// Reports each function of the settings that the source has no job for.
fn report_lacking<C: Progress, J: JobSource>(watch: &C, jobs: &J, settings: &Settings) {
    for number in 0..settings.functions() {
        let function = FuncId::new(number);
        if !jobs.serves(settings.function_name(function).as_bytes()) {
            watch.lacks_job(settings, function);
        }
    }
}

/// Reports what a run came to.
fn report<C: Progress, Y>(watch: &C, ran: &Result<(RunEnd, Y), AllocError>) {
    if let Ok((ended, _)) = ran {
        watch.finished(ended);
    }
}
