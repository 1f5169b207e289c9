//! The sessions of a run: started as threads, and joined as they end.
ghost use Rattle.std.specs.Prelude.{◌≡◌, ◌+◌, ◌-◌, ◌<◌, ◌≤◌, ◌^◌, IfOk, OnOk, vec_len};
ghost use Rattle.job_runner.specs.Run.{seen_link};
ghost use Rattle.pool_settings.specs.Slots.{slots as slot_count};
ghost use Rattle.pool_supervisor.specs.Counted.{CountAHistory};
ghost use Rattle.pool_supervisor.specs.JobCounts.{answered};
ghost use Rattle.pool_supervisor.specs.Dials.{IsNew};
ghost use Rattle.pool_supervisor.specs.Joined.{Joins};
ghost use Rattle.pool_supervisor.specs.Sessions.{Covers, HadJobs, IsPast, counts_of, no_counts};

use crate::attempts::Lines;
use crate::dial::Dial;
use crate::ended::{EndedSession, OfRun, Session, SessionOutcome, Unthreaded};
use crate::ends::EndCounts;
use crate::job_counts::JobCounts;
use crate::jobs::JobSource;
use crate::news::{EndedWorker, Progress};
use crate::place::{Grabs, Place, Reports, RunId, RunRounds};
use crate::port::Watch;
use crate::run_end::RunEnd;
use crate::session::{Enrolled, Papers, Returned, Site, give_up};
use byte_io::{Sink, Source};
use core::thread::Stack;
use job_runner::{EndCause, SessionEnd};
use order_board::SeatSource;
use std::alloc::{AllocError, Global};
use std::marker::Model;
use std::sync::atomic::{AtomicBool, Ordering};
use std::sync::ledger::Share;
use std::sync::{Arc, Wait};
use std::thread::{Scope, Threads};

/// Into how many parts the ledgers of a run are cut: one for each session that runs, and one at least for the crew.
pub const PARTS: u64 = 1 << 40;

/// The stack of a session's thread, in bytes. A session has its reader's buffer of 4,096 bytes there and little else; what a job takes
/// is on the heap.
const STACK: usize = 256 * 1024;

/// What a session and its crew tell each other.
#[derive(Drop)]
struct Signals {
    /// Set by the crew if there is no thread for the session, before it lets the session know.
    is_refused: AtomicBool,
    /// Set by the session as the last that it does.
    has_ended: AtomicBool,
}

/// A session that was not joined yet.
#[derive(Drop)]
struct Unjoined<N: RunId, L: Source + Sink> {
    session: Session<N, L>,
    signals: Arc<Signals>,
}

/// Room for one more session: what its start needs of memory but for the thread.
#[derive(Drop)]
pub struct Berth {
    signals: Arc<Signals>,
    of_session: Arc<Signals>,
}

/// Whether the slot of a session that ended so should have another worker before the next attempt: if it had a job, and ended for no other
/// reason. What ends a session that had no job, or that lost its job server, ends the next one just as soon.
fn calls_for_another(end: &SessionEnd) -> bool {
    let is_of_jobs = end.cause == EndCause::Unserved || end.cause == EndCause::Retired;
    is_of_jobs && end.grabbed > 0
}

/// The sessions that run, and what those that ended handed back.
///
/// Our shares and the running sessions' shares make up both ledgers. Our shares equal the sums of what the sessions reported that were
/// joined.
#[derive(Drop)]
pub struct Crew<N: RunId, L: Source + Sink> {
    running: Vec<Unjoined<N, L>>,
    grabs: Share<Grabs<N>>,
    reports: Share<Reports<N>>,
    grabbed: u64,
    reported: u64,
    jobs: JobCounts,
    ends: EndCounts,
}

impl<N: RunId, L: Source + Sink> Model for Crew<N, L> {
    ghost use Rattle.std.specs.Prelude.{◌≡◌, ◌+◌, ◌^◌, vec_len, vec_capacity};
    ghost use Rattle.pool_supervisor.specs.JobCounts.{answered};
    ghost use Rattle.pool_supervisor.specs.Sessions.{Sessions};

    ghost Value = { Sessions };

    ghost view = { λ c. record {
      running = vec_len c.running;
      room = vec_capacity c.running;
      counts = record { grabbed = c.grabbed; reported = c.reported; ends = c.ends };
    } };

    ghost invariant = { λ c.
        (c.grabs.parts + vec_len c.running ≡ 2 ^ 40) × (c.grabs.amount ≡ c.grabbed)
        × (c.reports.parts + vec_len c.running ≡ 2 ^ 40) × (c.reports.amount ≡ c.reported)
        × (answered c.jobs ≡ c.reported) };
}

impl<N: RunId, L: Source + Sink> Crew<N, L> {
    /// No session yet, over the whole shares, which stand at 0.
    pub fn new(alloc: Global, grabs: Share<Grabs<N>>, reports: Share<Reports<N>>) -> Crew<N, L>
        requires grabs { (grabs.parts ≡ 2 ^ 40) × (grabs.amount ≡ 0) }
        requires reports { (reports.parts ≡ 2 ^ 40) × (reports.amount ≡ 0) }
        ensures counts { result.counts ≡ no_counts }
    {
        Crew {
            running: Vec::new(alloc),
            grabs,
            reports,
            grabbed: 0,
            reported: 0,
            jobs: JobCounts::none(),
            ends: EndCounts::none(),
        }
    }

    /// Makes room for one more session. The error is that memory was refused, or that so many run that no part of a ledger is left.
    pub fn berth(&mut self, alloc: Global) -> Result<Berth, AllocError>
        ensures room { OnOk result (self.new.running < self.new.room) }
        ensures counts { self.new.counts ≡ self.old.counts }
        ensures parts { OnOk result (self.new.running + 2 ≤ 2 ^ 40) }
    {
        if self.running.len() as u64 >= PARTS / 2 {
            return Err(AllocError);
        }
        self.running.reserve(1)?;
        let signals = Signals {
            is_refused: AtomicBool::new(false),
            has_ended: AtomicBool::new(false),
        };
        let signals = Arc::new(alloc, signals)?;
        let of_session = Arc::try_clone(&signals)?;
        Ok(Berth {
            signals,
            of_session,
        })
    }

    /// Whether a session has ended.
    fn has_ended(&self, at: usize) -> bool
        requires { at < self.now.running }
    {
        self.running[at].signals.has_ended.load(Ordering::SeqCst)
    }

    /// Joins a session, adds up what it did, takes its seat back, and reports how it and its link ended. Of one for which no thread could
    /// be started there is nothing to add or report.
    fn take_back<J, C: Progress, R: Threads + Wait, Y: Dial<L>>(
        &mut self,
        site: &Site<'_, N, J, C, R>,
        source: &mut SeatSource,
        dial: &mut Y,
        at: usize,
    )
        requires at { at < self.old.running }
        requires board { source.old.board ≡ N.board }
        ensures one { self.new.running + 1 ≡ self.old.running }
        ensures source { source.new ≡ source.old }
        ensures joins { Joins N.settings N.had_jobs self.old.counts self.new.counts (Y.calls dial.old) (Y.calls dial.new) }
    {
        let Crew {
            running,
            grabs,
            reports,
            grabbed,
            reported,
            jobs,
            ends,
        } = self;
        let Unjoined {
            session,
            signals: _,
        } = running.swap_remove(at);
        let outcome = session.join(site.lent.rt);
        let (ended, link) = match outcome {
            Ok(ended) => ended,
            Err(unused) => {
                grabs.merge(unused.grabbed);
                reports.merge(unused.reported);
                let Place { seat, of: _ } = unused.place;
                site.run.board.give_back(seat, source);
                return;
            }
        };
        let EndedSession { worker, returned } = ended;
        let Returned {
            end,
            jobs: jobs_of_session,
            place,
            grabbed: grab_share,
            reported: report_share,
        } = returned;
        grabs.merge(grab_share);
        reports.merge(report_share);
        // The books bound the shares, and so the sums.
        let _ = site.shared.hold(site.lent.rt).audit(grabs, reports);
        *grabbed += end.grabbed;
        *reported += end.reported;
        jobs.add(jobs_of_session);
        ends.count(end.cause);
        site.lent.watch.ended(&EndedWorker {
            settings: site.run.settings,
            worker,
            end,
        });
        let Place { seat, of: _ } = place;
        site.run.board.give_back(seat, source);
        dial.hung_up(link);
    }

    /// Joins the sessions that have ended, so that none keeps a handle or a thread for longer than an attempt. It waits for no session
    /// that goes on.
    pub fn join_ended<J, C: Progress, R: Threads + Wait, Y: Dial<L>>(
        &mut self,
        site: &Site<'_, N, J, C, R>,
        source: &mut SeatSource,
        dial: &mut Y,
    )
        requires board { source.old.board ≡ N.board }
        ensures source { source.new ≡ source.old }
        ensures joins { Joins N.settings N.had_jobs self.old.counts self.new.counts (Y.calls dial.old) (Y.calls dial.new) }
    {
        let mut at = self.running.len();
        while at > 0 {
            at -= 1;
            if self.has_ended(at) {
                self.take_back(site, source, dial, at);
            }
        }
    }

    /// Joins all sessions, as each ends, and takes the totals: what the run came to, with these lines. Totals and chapters are of the
    /// history of which these rounds were told, and the totals are the sums of what its sessions counted.
    #[tactic(auto, using(crate::proofs::Tries::same_joins))]
    pub fn join_all<J, C: Progress, R: Threads + Wait, Y: Dial<L>>(
        mut self,
        site: &Site<'_, N, J, C, R>,
        source: &mut SeatSource,
        dial: &mut Y,
        rounds: RunRounds<N>,
        lines: Lines,
    ) -> RunEnd
        requires board { source.old.board ≡ N.board }
        ensures joins { Joins N.settings N.had_jobs self.counts (counts_of result) (Y.calls dial.old) (Y.calls dial.new) }
        ensures lines { vec_len result.lines ≡ vec_len lines.told }
        ensures told { result.lines.items ≡ lines.told.items }
        ensures counts { CountAHistory N.settings result.totals result.chapters rounds }
    {
        while self.running.len() > 0 {
            let last = self.running.len() - 1;
            self.take_back(site, source, dial, last);
        }
        let Crew {
            running: _,
            mut grabs,
            mut reports,
            grabbed,
            reported,
            jobs,
            ends,
        } = self;
        let rt = site.lent.rt;
        let mut held = site.shared.hold(rt);
        let totals = held.settle(rt, &mut grabs, &mut reports, rounds);
        let chapters = held.pool().chapters();
        let Lines { told, until: _ } = lines;
        RunEnd {
            totals,
            grabbed,
            reported,
            jobs,
            ends,
            chapters,
            lines: told,
        }
    }
}

impl<'e, N: RunId, J: JobSource + Sync, C: Watch + Sync, R: Threads + Wait + Sync> Site<
    'e,
    N,
    J,
    C,
    R,
> {
    /// Starts a session of the crew in a thread of its own. At `Err` no thread could be started: then the worker is lost as out of memory,
    /// and its link is closed.
    pub fn start<'s, L: Source + Sink + Send + Drop + 's>(
        self,
        scope: &Scope<'s, &'e ()>,
        crew: &mut Crew<N, L>,
        berth: Berth,
        link: L,
        worker: Enrolled<N>,
    ) -> Result<(), AllocError>
    where
        'e: 's,
        N: Send + Sync + 's,
        requires room { crew.old.running < crew.old.room }
        requires parts { crew.old.running + 2 ≤ 2 ^ 40 }
        requires slot { worker.pass.slot < slot_count self.run.settings.now }
        requires fresh { IsNew (seen_link L.input L.output link) }
        requires source { Covers N.had_jobs
            (HadJobs J.Jobs.tells J.Jobs.fails J.Jobs.prepares (J.gives self.lent.jobs.now) (J.denies self.lent.jobs.now)) }
        ensures counts { crew.new.counts ≡ crew.old.counts }
    {
        let site = self;
        let Crew {
            running,
            grabs,
            reports,
            ..
        } = crew;
        let papers = Papers {
            worker,
            grabbed: grabs.split_off(1, 0),
            reported: reports.split_off(1, 0),
        };
        let Berth {
            signals,
            of_session,
        } = berth;
        let work = move || -> SessionOutcome<N, L>
            requires slot { papers.worker.pass.slot < slot_count site.run.settings.now }
            requires fresh { IsNew (seen_link L.input L.output link) }
            requires source { Covers N.had_jobs
                (HadJobs J.Jobs.tells J.Jobs.fails J.Jobs.prepares (J.gives site.lent.jobs.now) (J.denies site.lent.jobs.now)) }
            ensures past { IfOk result (λ ended. IsPast N.settings N.had_jobs ended.0.worker ended.0.returned.end
                (seen_link L.input L.output ended.1.value)) }
        {
            let (mut link, papers) = (link, papers);
            let outcome = if of_session.is_refused.load(Ordering::SeqCst) {
                Err(give_up(&site, papers))
            } else {
                Ok(EndedSession::of(&site, &mut link, papers))
            };
            if let Ok((ended, _)) = &outcome {
                if calls_for_another(&ended.returned.end) {
                    site.lent.watch.wake();
                }
                let cause = ended.returned.end.cause;
                site.lent.watch.before_hang_up(ended.worker, cause);
            }
            drop(link);
            of_session.has_ended.store(true, Ordering::SeqCst);
            outcome
        };
        match Stack::new()
            .stack_size(STACK)
            .spawn_scoped_with(scope, OfRun, work)
        {
            Ok(handle) => {
                let session = Session::InThread(handle);
                running.push_reserved(Unjoined { session, signals });
                Ok(())
            }
            Err(refused) => {
                signals.is_refused.store(true, Ordering::SeqCst);
                let work = refused.value;
                let session = Session::Over(Unthreaded::new(work()));
                running.push_reserved(Unjoined { session, signals });
                Err(AllocError)
            }
        }
    }
}
