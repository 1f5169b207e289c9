//! The supervisor of a run, and the steps of an attempt, one after the other.
ghost use Rattle.std.specs.Prelude.{◌≡◌, ◌+◌, ◌-◌, ◌<◌, ◌≤◌, ◌∷◌, [], List, IfOk, OnOk, vec_len, vec_capacity};
ghost use Rattle.pool_settings.specs.Slots.{slots as slot_count};
ghost use Rattle.job_runner.specs.Run.{seen_link};
ghost use Rattle.order_board.specs.declared.view.Post.{Post};
ghost use Rattle.pool_supervisor.specs.Asking.{Tells};
ghost use Rattle.pool_supervisor.specs.Dials.{IsNew};
ghost use Rattle.pool_supervisor.specs.FarmPosts.{AttemptPosts, PostSinceBy, PostsBy, PostsMore};
ghost use Rattle.pool_supervisor.specs.Rounds.{AreNoted, Notes, StopsAll};
ghost use Rattle.pool_supervisor.specs.Runs.{IsRun, Keeps, MakesAll, most_kept};
ghost use Rattle.pool_supervisor.specs.Sessions.{Covers, HadJobs, no_counts};
ghost use Rattle.pool_supervisor.specs.Tries.{Attempts, Fills, FillsBy, FillsOne};
ghost use Rattle.slot_turns.specs.Turns.{IsEachSlotOnce};

use crate::attempt::Attempt;
use crate::crew::Crew;
use crate::dial::Dial;
use crate::filling::Filling;
use crate::jobs::JobSource;
use crate::news::{Attempted, JoinedWorker, Progress};
use crate::place::{Place, RunId, RunRounds};
use crate::planner::Planner;
use crate::port::Watch;
use crate::queue::Queue;
use crate::run_end::RunEnd;
use crate::session::{Enrolled, Site};
use byte_io::{Sink, Source};
use order_board::{PublisherSeat, SeatSource};
use plan_model::SlotId;
use pool_core::{Chapter, JoinError, Pass};
use relaxed_plan::Relaxed;
use slot_turns::SlotTurns;
use std::alloc::AllocError;
use std::marker::PhantomData;
use std::sync::Wait;
use std::thread;
use std::thread::{Scope, Threads};

/// In how many holds of the lock an attempt forgets jobs, at the most. Together they may forget more jobs than any run grabs between two
/// attempts.
const MOST_HOLDS: u32 = u32::MAX;

/// The supervisor's seats at the board.
#[derive(Drop)]
pub struct Seats {
    /// The right to post.
    pub publisher: PublisherSeat,
    /// The right to seat readers.
    pub source: SeatSource,
}

/// How long a run makes attempts, and when its history is cut.
#[derive(Clone, Copy, Debug, PartialEq, Eq)]
pub enum Until {
    /// Until so many were made. Their lines are kept. An attempt cuts the history if more than half of it is used.
    Rounds(u32),
    /// Until the watch says that the run has to end. No line is kept. Each attempt cuts the history, and so does a job that finds no room.
    Ended,
}

/// What a run has to tell so far, with room for the lines that it keeps.
#[derive(Drop)]
pub struct Lines {
    /// What each attempt so far came to, the first one first, if lines are kept.
    pub told: Vec<Attempt>,
    /// How long the run makes attempts.
    pub until: Until,
    /// There is room for the lines to come.
    pub ghost room: { (vec_len told ≤ most_kept until) × (most_kept until ≤ vec_capacity told) },
}

/// The supervisor of a run: where its sessions are, the sessions, and what it alone has.
#[derive(Drop)]
pub struct Supervisor<'e, N: RunId, L: Source + Sink, Y, P, J: JobSource, C, R> {
    /// Where the sessions are.
    pub site: Site<'e, N, J, C, R>,
    /// What makes links to the job server.
    pub dial: Y,
    /// What finds plans.
    pub planner: &'e P,
    /// The sessions.
    pub crew: Crew<N, L>,
    /// Its seats at the board.
    pub seats: Seats,
    /// The order in which slots have their turns, in a run that goes on until its watch ends it.
    pub turns: SlotTurns,
    /// The rounds so far, as it tells them.
    pub rounds: RunRounds<N>,
    /// The longest queue per worker under the plan of this attempt. None if it has none yet, or if no job waits.
    pub longest: Option<Queue>,
    /// The plan whose orders were posted, if the last round had none and there is a relaxed one.
    pub relaxed: Option<Relaxed>,
    /// Each slot has its turns.
    pub ghost each_once: { ∥ IsEachSlotOnce N.settings turns ∥₁ },
    /// The seats are at the run's board.
    pub ghost can_post: { seats.publisher.board ≡ N.board },
    pub ghost can_seat: { seats.source.board ≡ N.board },
    /// Which slots may have a worker is for the run's source to say.
    pub ghost rule: { J.allows site.lent.jobs.now ≡ N.allows },
    /// The jobs that it gives are as the run says.
    pub ghost source: { Covers N.had_jobs
        (HadJobs J.Jobs.tells J.Jobs.fails J.Jobs.prepares (J.gives site.lent.jobs.now) (J.denies site.lent.jobs.now)) },
}

impl<'e, N: RunId, J, C: Watch, R: Wait> Site<'e, N, J, C, R> {
    /// The chapter of the history, ended if that is due. None if it goes on.
    fn end_chapter_if_due(&self) -> Option<Chapter> {
        let mut held = self.shared.hold(self.lent.rt);
        // A refusal changes nothing.
        self.run.end_if_due(&mut held)?.ok()
    }

    /// Whether no worker is in the slot.
    fn is_empty(&self, slot: SlotId) -> bool
        requires { slot < slot_count self.now.run.settings.now }
    {
        let held = self.shared.hold(self.lent.rt);
        held.facts();
        self.run.is_empty(&held, slot)
    }

    /// A new worker in the slot, if the pool takes one.
    fn join_worker(&self, slot: SlotId) -> Result<Pass, JoinError>
        requires { slot < slot_count self.now.run.settings.now }
        ensures { IfOk result (λ pass. pass.slot ≡ slot) }
    {
        let mut held = self.shared.hold(self.lent.rt);
        held.facts();
        held.join(slot)
    }

    /// How many workers are alive.
    fn alive(&self) -> u32 {
        let held = self.shared.hold(self.lent.rt);
        held.facts();
        self.run.alive(&held)
    }

    /// The most workers that one slot has had.
    fn most_used(&self) -> u32 {
        let held = self.shared.hold(self.lent.rt);
        held.facts();
        self.run.most_used(&held)
    }

    /// Loses each worker whose job is late. It is left out if no time is known.
    pub fn expire_late(&self) {
        let Some(now_ms) = self.lent.watch.now_ms() else {
            return;
        };
        let mut held = self.shared.hold(self.lent.rt);
        self.run.expire_late(&mut held, now_ms);
    }

    /// Forgets the jobs that have ended, up to the first that has not. Sessions can take the lock in between.
    fn forget_ended(&self) {
        for _hold in 0..MOST_HOLDS {
            let mut held = self.shared.hold(self.lent.rt);
            if !self.run.forget_ended(&mut held) {
                return;
            }
        }
    }
}

impl<
    'e,
    N: RunId + Send + Sync + 'e,
    L: Source + Sink + Send + Drop,
    Y: Dial<L> + Drop,
    P: Planner,
    J: JobSource + Sync,
    C: Watch + Progress + Sync,
    R: Threads + Wait + Sync,
> Supervisor<'e, N, L, Y, P, J, C, R> {
    /// Goes on if no thread could be started for this slot: it stays empty. A run of so many attempts does not go on, but ends with this
    /// error.
    fn go_on_without(&self, slot: SlotId, error: AllocError) -> Result<(), AllocError> {
        match self.site.run.until {
            Until::Rounds(_) => Err(error),
            Until::Ended => {
                self.site.lent.watch.not_started(slot);
                Ok(())
            }
        }
    }

    /// Starts a session in the slot over this link if there is room and a worker; else the link is closed. The error is that a thread could
    /// not be started, in a run of so many attempts.
    fn start_over<'s>(
        &mut self,
        scope: &Scope<'s, &'e ()>,
        slot: SlotId,
        link: L,
    ) -> Result<(), AllocError>
    where
        'e: 's,
        N: 's,
        L: 's,
        requires slot { slot < slot_count N.settings }
        requires fresh { IsNew (seen_link L.input L.output link) }
        ensures posts { PostsMore N.until self.old.seats.publisher.posts self.new.seats.publisher.posts }
        ensures rounds { self.new.rounds ≡ self.old.rounds }
        ensures dial { self.new.dial ≡ self.old.dial }
        ensures turns { self.new.turns ≡ self.old.turns }
        ensures counts { self.new.crew.counts ≡ self.old.crew.counts }
    {
        let site = self.site;
        let Ok(berth) = self.crew.berth(site.lent.alloc) else {
            return Ok(());
        };
        let pass = match site.join_worker(slot) {
            Ok(pass) => pass,
            Err(error) => {
                site.lent.watch.not_joined(slot, error);
                return Ok(());
            }
        };
        let place = Place {
            seat: site.run.board.seat_reader(&mut self.seats.source, slot),
            of: PhantomData,
        };
        let name = pass.name();
        site.run
            .hand_on(&mut self.seats.publisher, slot, name.generation);
        let worker = Enrolled { pass, place };
        match site.start(scope, &mut self.crew, berth, link, worker) {
            Ok(()) => {
                site.lent.watch.joined(&JoinedWorker {
                    settings: site.run.settings,
                    worker: name,
                });
                Ok(())
            }
            Err(error) => self.go_on_without(slot, error),
        }
    }

    /// Dials for the slot if it is empty and may have a worker, and starts a session if there is a link, room and a worker. The error is
    /// that a thread could not be started.
    pub fn start_one<'s>(
        &mut self,
        scope: &Scope<'s, &'e ()>,
        slot: SlotId,
    ) -> Result<(), AllocError>
    where
        'e: 's,
        N: 's,
        L: 's,
        requires slot { slot < slot_count N.settings }
        ensures posts { PostsMore N.until self.old.seats.publisher.posts self.new.seats.publisher.posts }
        ensures rounds { self.new.rounds ≡ self.old.rounds }
        ensures turns { self.new.turns ≡ self.old.turns }
        ensures counts { self.new.crew.counts ≡ self.old.crew.counts }
        ensures fills { FillsOne N.allows slot (Y.calls self.old.dial) (Y.calls self.new.dial) }
    {
        if !self.site.is_empty(slot) {
            return Ok(());
        }
        if !self.site.lent.jobs.may_start(slot) {
            return Ok(());
        }
        match self.dial.dial() {
            Some(link) => self.start_over(scope, slot, link),
            None => Ok(()),
        }
    }

    /// Dials for each empty slot that may have a worker, once and in order, and starts a session in it if there is a link, room and a
    /// worker, whatever became of the others. The error is that a thread could not be started.
    fn start_all<'s>(&mut self, scope: &Scope<'s, &'e ()>) -> Result<(), AllocError>
    where
        'e: 's,
        N: 's,
        L: 's,
        ensures posts { PostsMore N.until self.old.seats.publisher.posts self.new.seats.publisher.posts }
        ensures rounds { self.new.rounds ≡ self.old.rounds }
        ensures counts { self.new.crew.counts ≡ self.old.crew.counts }
        ensures fills { OnOk result (Fills N.allows (slot_count N.settings) (Y.calls self.old.dial) (Y.calls self.new.dial)) }
    {
        for number in 0..self.site.run.settings.slots() {
            self.start_one(scope, SlotId::new(number))?;
        }
        Ok(())
    }

    /// Starts sessions in empty slots: by [`Supervisor::start_all`] in a run of so many attempts. In another, workers whose jobs are late
    /// are lost first, and [`Supervisor::start_in_turn`] does it. The error is that a thread could not be started.
    fn fill<'s>(&mut self, scope: &Scope<'s, &'e ()>) -> Result<(), AllocError>
    where
        'e: 's,
        N: 's,
        L: 's,
        ensures posts { PostsMore N.until self.old.seats.publisher.posts self.new.seats.publisher.posts }
        ensures rounds { self.new.rounds ≡ self.old.rounds }
        ensures counts { self.new.crew.counts ≡ self.old.crew.counts }
        ensures fills { OnOk result (FillsBy N.until N.settings N.allows (Y.calls self.old.dial) (Y.calls self.new.dial)) }
    {
        match self.site.run.until {
            Until::Rounds(_) => self.start_all(scope),
            Until::Ended => {
                self.site.expire_late();
                let milliseconds = self.site.run.settings.round_ms();
                self.start_in_turn(scope, Filling::Attempt, milliseconds)
            }
        }
    }

    /// Posts Stop to the worker of every slot.
    fn stop_all(&mut self)
        ensures stops { StopsAll N.settings self.old.seats.publisher.posts self.new.seats.publisher.posts }
        ensures rounds { self.new.rounds ≡ self.old.rounds }
        ensures dial { self.new.dial ≡ self.old.dial }
        ensures crew { self.new.crew ≡ self.old.crew }
    {
        let site = self.site;
        let held = site.shared.hold(site.lent.rt);
        held.facts();
        site.run.stop_all(&held, &mut self.seats.publisher);
    }

    /// What the server says, and then a plan for it.
    fn make_round(&mut self) -> Attempt
        ensures posts { PostsBy N.until N.settings result self.old.seats.publisher.posts self.new.seats.publisher.posts }
        ensures notes { Notes result self.old.rounds self.new.rounds }
        ensures crew { self.new.crew ≡ self.old.crew }
        ensures tells { Tells result (Y.calls self.old.dial) (Y.calls self.new.dial) }
    {
        match self.take_load() {
            Ok(()) => self.plan_round(),
            Err(attempt) => attempt,
        }
    }

    /// The steps of the attempt of this number but for its pause, and what it came to. The error is that a thread could not be started.
    fn attempt<'s>(&mut self, scope: &Scope<'s, &'e ()>, number: u32) -> Result<Attempt, AllocError>
    where
        'e: 's,
        N: 's,
        L: 's,
        ensures posts { IfOk result
            (λ line. AttemptPosts N.until N.settings line self.old.seats.publisher.posts self.new.seats.publisher.posts) }
        ensures notes { IfOk result (λ line. Notes line self.old.rounds self.new.rounds) }
        ensures calls { IfOk result
            (λ line. Attempts N.until N.settings N.allows N.had_jobs [] (line ∷ [])
            self.old.crew.counts self.new.crew.counts (Y.calls self.old.dial) (Y.calls self.new.dial)) }
    {
        let site = self.site;
        self.crew
            .join_ended(&site, &mut self.seats.source, &mut self.dial);
        // The lock is free when the events of the chapter are dropped.
        drop(site.end_chapter_if_due());
        let alive_before = site.alive();
        self.fill(scope)?;
        site.expire_late();
        site.forget_ended();
        self.longest = None;
        let attempt = self.make_round();
        site.lent.watch.attempted(&Attempted {
            settings: site.run.settings,
            number,
            attempt: &attempt,
            alive_before,
            alive: site.alive(),
            most_used: site.most_used(),
            longest: self.longest,
        });
        Ok(attempt)
    }

    /// So many attempts in all, with their lines kept. The error is that a thread could not be started.
    fn attempt_all<'s>(
        &mut self,
        scope: &Scope<'s, &'e ()>,
        attempts: u32,
        lines: &mut Lines,
    ) -> Result<(), AllocError>
    where
        'e: 's,
        N: 's,
        L: 's,
        requires attempts { lines.old.until ≡ Until.Rounds attempts }
        requires noted { AreNoted lines.old.told.items self.old.rounds }
        ensures noted { OnOk result (AreNoted lines.new.told.items self.new.rounds) }
        ensures until { lines.new.until ≡ lines.old.until }
        ensures lines { OnOk result (vec_len lines.new.told ≡ attempts) }
        ensures posts { OnOk result (PostSinceBy N.until N.settings lines.old.told.items lines.new.told.items
            self.old.seats.publisher.posts self.new.seats.publisher.posts) }
        ensures calls { OnOk result (Attempts N.until N.settings N.allows N.had_jobs
            lines.old.told.items lines.new.told.items
            self.old.crew.counts self.new.crew.counts (Y.calls self.old.dial) (Y.calls self.new.dial)) }
    {
        let site = self.site;
        while lines.told.len() < attempts as usize {
            let number = lines.told.len() as u32 + 1;
            let line = self.attempt(scope, number)?;
            lines.told.push_reserved(line);
            site.lent.watch.pause(site.run.settings.round_ms());
        }
        Ok(())
    }

    /// Attempts until the watch says that the run has to end. Between two of them slots are filled whose workers ended for what their jobs
    /// came to. The error is that a thread could not be started.
    fn attempt_until_ended<'s>(&mut self, scope: &Scope<'s, &'e ()>) -> Result<(), AllocError>
    where
        'e: 's,
        N: 's,
        L: 's,
        requires noted { AreNoted [] self.old.rounds }
        requires ended { N.until ≡ Until.Ended }
        ensures attempts { OnOk result ((lines : List Attempt)
            × PostSinceBy N.until N.settings [] lines self.old.seats.publisher.posts self.new.seats.publisher.posts
            × Attempts N.until N.settings N.allows N.had_jobs [] lines
            self.old.crew.counts self.new.crew.counts (Y.calls self.old.dial) (Y.calls self.new.dial)
            × AreNoted lines self.new.rounds) }
    {
        let site = self.site;
        let mut number = 0u32;
        for _attempt in site.lent.rt.forever() {
            if site.lent.watch.has_to_end() {
                return Ok(());
            }
            number = number.saturating_add(1);
            self.attempt(scope, number)?;
            self.rest_and_refill(scope)?;
        }
        Ok(())
    }

    /// All attempts, and then Stop to every slot. The error is that a thread could not be started; Stop is posted then too.
    fn attempt_and_stop<'s>(
        &mut self,
        scope: &Scope<'s, &'e ()>,
        lines: &mut Lines,
    ) -> Result<(), AllocError>
    where
        'e: 's,
        N: 's,
        L: 's,
        requires noted { AreNoted lines.old.told.items self.old.rounds }
        requires until { self.old.site.run.until ≡ lines.old.until }
        ensures stops { (before : List Post) × StopsAll N.settings before self.new.seats.publisher.posts }
        ensures attempts { OnOk result ((all : List Attempt) × Keeps lines.old.until all lines.new.told.items
            × AreNoted all self.new.rounds
            × MakesAll N.until N.settings N.allows N.had_jobs lines.old.told.items all
            self.old.seats.publisher.posts self.new.seats.publisher.posts
            self.old.crew.counts self.new.crew.counts (Y.calls self.old.dial) (Y.calls self.new.dial)) }
    {
        let attempted = match self.site.run.until {
            Until::Rounds(rounds) => self.attempt_all(scope, rounds, lines),
            Until::Ended => self.attempt_until_ended(scope),
        };
        self.stop_all();
        attempted
    }

    /// All attempts, and then the end of all sessions. What dials is handed back.
    fn supervise<'s>(
        mut self,
        scope: &Scope<'s, &'e ()>,
        mut lines: Lines,
    ) -> Result<(RunEnd, Y), AllocError>
    where
        'e: 's,
        N: 's,
        L: 's,
        requires noted { AreNoted lines.told.items self.rounds }
        requires none_joined { self.crew.counts ≡ no_counts }
        requires until { self.site.run.until ≡ lines.until }
        ensures runs { IfOk result (λ ended. IsRun N.settings N.allows N.had_jobs lines.until lines.told.items ended.0
            self.entry.seats.publisher.posts (Y.calls self.entry.dial) (Y.calls ended.1)) }
    {
        let attempted = self.attempt_and_stop(scope, &mut lines);
        let Supervisor {
            site,
            mut dial,
            planner: _,
            crew,
            mut seats,
            turns: _,
            rounds,
            longest: _,
            relaxed: _,
        } = self;
        let ended = crew.join_all(&site, &mut seats.source, &mut dial, rounds, lines);
        attempted?;
        Ok((ended, dial))
    }

    /// The run, with its sessions as threads of one scope. All that they are lent has one lifetime. What dials is handed back.
    pub fn run(self, lines: Lines) -> Result<(RunEnd, Y), AllocError>
        requires noted { AreNoted lines.told.items self.rounds }
        requires none_joined { self.crew.counts ≡ no_counts }
        requires until { self.site.run.until ≡ lines.until }
        ensures runs { IfOk result (λ ended. IsRun N.settings N.allows N.had_jobs lines.until lines.told.items ended.0
            self.entry.seats.publisher.posts (Y.calls self.entry.dial) (Y.calls ended.1)) }
    {
        thread::scope(
            thread::scope_env(),
            self.site.lent.rt,
            |scope| -> Result<(RunEnd, Y), AllocError>
                requires noted { AreNoted lines.told.items self.rounds }
                requires none_joined { self.crew.counts ≡ no_counts }
                requires until { self.site.run.until ≡ lines.until }
                ensures runs { IfOk result (λ ended. IsRun N.settings N.allows N.had_jobs lines.until lines.told.items ended.0
                    self.entry.seats.publisher.posts (Y.calls self.entry.dial) (Y.calls ended.1)) }
            { self.supervise(scope, lines) },
        )
    }
}
