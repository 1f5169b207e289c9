//! A session's way to the shared pool.
ghost use Rattle.std.specs.Prelude.{◌≡◌, ◌⊎◌, ◌+◌};
ghost use Rattle.job_runner.specs.Book.{no_calls, after_order};
ghost use Rattle.order_board.specs.Posts.{BeginsWith, latest};
ghost use Rattle.pool_supervisor.specs.JobCounts.{answered};
ghost use Rattle.pool_supervisor.specs.PortCalls.{book_of, grab_refusal_of};
ghost use Rattle.pool_supervisor.specs.Published.{AreSeen, IsStopFor};

use crate::calls::{Call, Calls, note};
use crate::job_counts::JobCounts;
use crate::place::{Grabs, Place, Reports, RunBoard, RunId};
use crate::shared::Shared;
use crate::steps::GivenJob;
use gear_packets::Handle;
use job_runner::{EndCause, Gone, GrabRefusal, PoolPort, Readiness};
use pool_core::{GrabError, Pass, StayOrRetire};
use std::snapshot::Snapshot;
use std::sync::Wait;
use std::sync::ledger::Share;
use worker_state::{Cause, EndKind, MAX_GENERATION, Order, Ticket, What, WorkerName};

/// What tells the time, and lets it pass.
pub trait Watch {
    /// Milliseconds since some moment that stays the same, or none if the time is not known. It never goes back.
    fn now_ms(&self) -> Option<u64>;

    /// Lets so many milliseconds pass.
    fn pause(&self, milliseconds: u32);

    /// Lets so many milliseconds pass, or fewer if it is woken. Whether it was woken, meanwhile or before.
    fn pause_until_woken(&self, milliseconds: u32) -> bool {
        self.pause(milliseconds);
        false
    }

    /// Wakes who pauses until woken, now or next. Called if a worker's slot is empty that should have another worker before the next
    /// attempt.
    fn wake(&self) {}

    /// Whether the run has to end. A run of so many attempts does not ask.
    fn has_to_end(&self) -> bool {
        false
    }

    /// Whether the worker, whose jobs are run by what is so, may ask for one more job. Its session looks at this whenever it reads its
    /// order: before each request for a job and at each timeout. If not, the order is to stop.
    fn may_go_on(&self, _worker: WorkerName, _readiness: Readiness) -> bool {
        true
    }

    /// Called when a worker's session has ended for this cause, before its link is closed, and not for a worker for which there was no
    /// thread. Until this returns, the job server waits for the answer to a job that the worker left, and gives it to nobody else. The
    /// worker's slot is empty meanwhile, and may have another worker. The end of the run waits for it.
    fn before_hang_up(&self, _worker: WorkerName, _cause: EndCause) {}
}

/// A session's way to the shared pool, with a share of each of its books.
///
/// Orders are read from the board, with no lock; a worker that is not ready for one more job, or may not go on, is ordered to stop, also if
/// it has no order yet. Each other call is one hold of the lock, and one call of the pool with the arguments that it was given, at the time
/// of the watch. But in a run until its watch ends it, a grab that finds no room in the history ends the chapter and grabs again. A job
/// that is grabbed when no time is known is never late. A refusal that says that the worker is not what its session takes it for is
/// reported as [`Gone`].
///
/// Its calls are known to contracts alone ([`Calls`]). Each share is the number of those that succeeded, and it counts how the jobs ended.
#[derive(Drop)]
pub struct SharedPort<'a, N: RunId, C, R> {
    rt: &'a R,
    shared: &'a Shared<Grabs<N>, Reports<N>>,
    watch: &'a C,
    run: RunBoard<'a, N>,
    place: Place<N>,
    grab_share: Share<Grabs<N>>,
    report_share: Share<Reports<N>>,
    jobs_done: JobCounts,
    readiness: Readiness,
    calls: Snapshot<Calls>,
    ghost grab_part: { grab_share.parts ≡ 1 },
    ghost report_part: { report_share.parts ≡ 1 },
    ghost grabs_counted: { grab_share.amount ≡ (book_of calls.value).grabs },
    ghost reports_counted: { report_share.amount ≡ (book_of calls.value).reports },
    ghost ends_counted: { answered jobs_done ≡ (book_of calls.value).reports },
    ghost orders_seen: { AreSeen place.seat.seen (book_of calls.value).orders },
}

impl<'a, N: RunId, C: Watch, R: Wait> SharedPort<'a, N, C, R> {
    /// A port that was not called yet, over shares that stand at 0 and a place at the board.
    #[tactic(auto, using(crate::proofs::Seen::none_seen))]
    pub fn new(
        rt: &'a R,
        shared: &'a Shared<Grabs<N>, Reports<N>>,
        watch: &'a C,
        run: RunBoard<'a, N>,
        place: Place<N>,
        shares: (Share<Grabs<N>>, Share<Reports<N>>),
    ) -> SharedPort<'a, N, C, R>
        requires grabbed { (shares.0.parts ≡ 1) × (shares.0.amount ≡ 0) }
        requires reported { (shares.1.parts ≡ 1) × (shares.1.amount ≡ 0) }
        ensures { ⟦<SharedPort<'a, N, C, R> as PoolPort>⟧.book result ≡ no_calls }
    {
        let (grab_share, report_share) = shares;
        SharedPort {
            rt,
            shared,
            watch,
            run,
            place,
            grab_share,
            report_share,
            jobs_done: JobCounts::none(),
            readiness: Readiness::Ready,
            calls: Snapshot::of(&Calls::New),
        }
    }

    /// What became of the jobs that it was called for.
    pub fn jobs(&self) -> JobCounts
        ensures { answered result ≡ (⟦<SharedPort<'a, N, C, R> as PoolPort>⟧.book self.now).reports }
    {
        self.jobs_done
    }

    /// The shares, whose amounts are the numbers of the jobs that it grabbed and reported, and its place at the board.
    pub fn into_parts(self) -> (Share<Grabs<N>>, Share<Reports<N>>, Place<N>)
        ensures grabbed { (result.0.parts ≡ 1) × (result.0.amount ≡ (⟦<SharedPort<'a, N, C, R> as PoolPort>⟧.book self.entry).grabs) }
        ensures reported { (result.1.parts ≡ 1)
            × (result.1.amount ≡ (⟦<SharedPort<'a, N, C, R> as PoolPort>⟧.book self.entry).reports) }
        ensures seen { AreSeen result.2.seat.seen (⟦<SharedPort<'a, N, C, R> as PoolPort>⟧.book self.entry).orders }
    {
        let SharedPort {
            rt: _,
            shared: _,
            watch: _,
            run: _,
            place,
            grab_share,
            report_share,
            jobs_done: _,
            readiness: _,
            calls: _,
        } = self;
        (grab_share, report_share, place)
    }
}

/// What a session is answered for a grab that the pool refused.
fn refusal_of(error: GrabError) -> GrabRefusal
    ensures { result ≡ grab_refusal_of error }
{
    match error {
        GrabError::HistoryFull => GrabRefusal::HistoryFull,
        GrabError::Memory => GrabRefusal::Memory,
        GrabError::Gone | GrabError::Busy => GrabRefusal::Gone,
    }
}

/// The order to stop for the worker of a pass. What was read may be for the worker before it, as long as no round had a plan since it
/// joined, and no worker obeys the order of another. No pass of a pool has a generation that an order cannot name.
fn stop_for(pass: &Pass, read: Order) -> Order
    ensures { IsStopFor pass.now.generation result }
{
    Order {
        generation: pass.name().generation.min(MAX_GENERATION),
        what: What::Stop,
        ..read
    }
}

impl<'a, N: RunId, C: Watch, R: Wait> PoolPort for SharedPort<'a, N, C, R> {
    ghost use Rattle.pool_supervisor.specs.PortCalls.{book_of};

    ghost book = { λ p. book_of p.calls.value };

    fn note_readiness(&mut self, readiness: Readiness) {
        self.readiness = readiness;
    }

    #[tactic(auto, using(crate::proofs::Seen::seen_more))]
    fn order(&mut self, pass: &Pass) -> Order
        ensures book { book_of self.new.calls.value ≡ after_order (book_of self.old.calls.value) result }
        ensures read { (result ≡ latest self.new.place.seat.seen) ⊎ IsStopFor pass.now.generation result }
        ensures later { BeginsWith self.new.place.seat.seen self.old.place.seat.seen }
        ensures slot { self.new.place.seat.slot ≡ self.old.place.seat.slot }
    {
        // (the watch may take its time, and what is posted meanwhile is to be read)
        let may_go_on = self.readiness != Readiness::Unready
            && self.watch.may_go_on(pass.name(), self.readiness);
        let read = self.run.board.read_by(&mut self.place.seat);
        let order = if may_go_on {
            read
        } else {
            stop_for(pass, read)
        };
        note(&mut self.calls, Call::Order(order));
        order
    }

    fn grab(
        &mut self,
        pass: &Pass,
        handle: Handle,
        function: &[u8],
    ) -> Result<Ticket, GrabRefusal> {
        let now_ms = self.watch.now_ms().unwrap_or(u64::MAX);
        let job = GivenJob {
            handle: &handle,
            function,
            now_ms,
        };
        let (answer, cut) = {
            let mut held = self.shared.hold(self.rt);
            self.run.grab(&mut held, &mut self.grab_share, pass, job)
        };
        // The lock is free when the events of a chapter are dropped.
        drop(cut);
        match answer {
            Ok(ticket) => {
                note(&mut self.calls, Call::Grab(Ok(ticket)));
                Ok(ticket)
            }
            Err(error) => {
                self.jobs_done.add_given_back();
                let refusal = refusal_of(error);
                note(&mut self.calls, Call::Grab(Err(refusal)));
                Err(refusal)
            }
        }
    }

    fn begin_report(&mut self, pass: &Pass, ticket: Ticket) -> Result<(), Gone> {
        let begun = self.shared.hold(self.rt).begin_report(pass, ticket);
        let answer = match begun {
            Ok(()) => Ok(()),
            Err(_) => Err(Gone),
        };
        note(&mut self.calls, Call::Begin(answer));
        answer
    }

    fn reported(
        &mut self,
        pass: &Pass,
        ticket: Ticket,
        end: EndKind,
    ) -> Result<StayOrRetire, Gone> {
        let mut held = self.shared.hold(self.rt);
        let answer = match held.reported(&mut self.report_share, pass, ticket, end) {
            Ok(told) => {
                self.jobs_done.add_end(end);
                Ok(told)
            }
            Err(_) => Err(Gone),
        };
        note(&mut self.calls, Call::Report(answer));
        answer
    }

    fn lose(&mut self, pass: Pass, cause: Cause) {
        let _ = self.shared.hold(self.rt).lose(pass, cause);
        note(&mut self.calls, Call::Lose(cause));
    }
}
