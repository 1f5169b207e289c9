//! How empty slots are filled in a run that goes on until its watch ends it: in turn, for no longer than a round, and between attempts.
ghost use Rattle.std.specs.Prelude.{◌≡◌, ◌<◌, ◌≤◌, ◌∷◌, [], ℕ, List, OnOk, length};
ghost use Rattle.pool_settings.specs.Slots.{slots as slot_count};
ghost use Rattle.pool_supervisor.specs.FarmPosts.{PostsMore};
ghost use Rattle.pool_supervisor.specs.Filling.{time_left};
ghost use Rattle.pool_supervisor.specs.Tries.{Attempts, FillsBy, FillsThese, LooksNext};
ghost use Rattle.pool_supervisor.specs.declared.attempts.Until.TheVariants.{Ended};
ghost use Rattle.slot_turns.specs.Turns.{HaveCome};

use crate::attempts::Supervisor;
use crate::dial::Dial;
use crate::jobs::JobSource;
use crate::news::Progress;
use crate::place::RunId;
use crate::planner::Planner;
use crate::port::Watch;
use crate::session::Site;
use byte_io::{Sink, Source};
use plan_model::SlotId;
use slot_turns::slots_take_turns;
use std::alloc::AllocError;
use std::sync::Wait;
use std::thread::{Scope, Threads};
use worker_state::MAX_GENERATION;

/// How many milliseconds pass at least from one refill to the next.
const REFILL_MS: u32 = 20;

/// What fills empty slots.
#[derive(Clone, Copy, Debug, PartialEq, Eq)]
pub enum Filling {
    /// An attempt, which looks at each slot.
    Attempt,
    /// A refill between two attempts. It leaves out a slot that has used half of its generations: refills come so fast that it would have
    /// no more workers after some hours.
    Refill,
}

/// How many of so many milliseconds are left that began then. 0 if a time is not known.
fn left_of(milliseconds: u32, begun: Option<u64>, now: Option<u64>) -> u32
    ensures { result ≡ time_left milliseconds begun now }
{
    let (Some(begun), Some(now)) = (begun, now) else {
        return 0;
    };
    let passed = now.saturating_sub(begun);
    if passed >= u64::from(milliseconds) {
        return 0;
    }
    milliseconds - passed as u32
}

impl<'e, N: RunId, J, C: Watch, R: Wait> Site<'e, N, J, C, R> {
    /// Whether what fills slots may look at this one.
    fn may_fill(&self, filling: Filling, slot: SlotId) -> bool
        requires { slot < slot_count self.now.run.settings.now }
    {
        match filling {
            Filling::Attempt => true,
            Filling::Refill => {
                let held = self.shared.hold(self.lent.rt);
                self.run.used(&held, slot) < MAX_GENERATION / 2
            }
        }
    }

    /// Whether no further slot may be looked at of those that were begun then: the run has to end, or so many milliseconds have passed. If
    /// they have, whoever pauses until the next attempt is woken, and goes on.
    fn is_over(&self, milliseconds: u32, begun: Option<u64>) -> bool {
        let watch = self.lent.watch;
        if watch.has_to_end() {
            return true;
        }
        let is_late = begun.is_some() && left_of(milliseconds, begun, watch.now_ms()) == 0;
        if is_late {
            watch.wake();
        }
        is_late
    }

    /// Lets so many milliseconds pass, or fewer if it is woken, but some from the last refill to the next. Whether slots are to be filled
    /// then: it was woken, and the run has not to end.
    fn is_called(&self, left: u32, refilled: Option<u64>) -> bool {
        let watch = self.lent.watch;
        if !watch.pause_until_woken(left) {
            return false;
        }
        let early = left_of(REFILL_MS, refilled, watch.now_ms());
        if early > 0 {
            watch.pause(early);
        }
        !watch.has_to_end()
    }
}

impl<
    'e,
    N: RunId + Send + Sync + 'e,
    L: Source + Sink + Send + Drop,
    Y: Dial<L> + Drop,
    P: Planner,
    J: JobSource + Sync,
    C: Watch + Progress + Sync,
    R: Threads + Wait + Sync,
> Supervisor<'e, N, L, Y, P, J, C, R> {
    /// Looks at the slot whose turn it is, as [`Supervisor::start_one`] does, if what fills slots may look at it. The error is that a
    /// thread could not be started.
    fn start_next<'s>(
        &mut self,
        scope: &Scope<'s, &'e ()>,
        filling: Filling,
    ) -> Result<(), AllocError>
    where
        'e: 's,
        N: 's,
        L: 's,
        ensures posts { PostsMore N.until self.old.seats.publisher.posts self.new.seats.publisher.posts }
        ensures rounds { self.new.rounds ≡ self.old.rounds }
        ensures counts { self.new.crew.counts ≡ self.old.crew.counts }
        ensures next { LooksNext N.settings N.allows self.old.turns self.new.turns
            (Y.calls self.old.dial) (Y.calls self.new.dial) }
    {
        slots_take_turns();
        if self.turns.len() == 0 {
            return Ok(());
        }
        let slot = self.turns.next();
        if !self.site.may_fill(filling, slot) {
            return Ok(());
        }
        self.start_one(scope, slot)
    }

    /// Looks at slots in turn, at each once at most, and starts a session in it if it is empty and may have a worker, and there is a link
    /// and room. No dial begins once so many milliseconds have passed, or the run has to end: the next time it goes on at the next slot.
    /// Then the pause until the next attempt is woken, so that it goes on in there. The error is that a thread could not be started.
    pub fn start_in_turn<'s>(
        &mut self,
        scope: &Scope<'s, &'e ()>,
        filling: Filling,
        milliseconds: u32,
    ) -> Result<(), AllocError>
    where
        'e: 's,
        N: 's,
        L: 's,
        ensures posts { PostsMore N.until self.old.seats.publisher.posts self.new.seats.publisher.posts }
        ensures rounds { self.new.rounds ≡ self.old.rounds }
        ensures counts { self.new.crew.counts ≡ self.old.crew.counts }
        ensures turns { OnOk result ((came : List ℕ) × HaveCome came self.old.turns self.new.turns
            × FillsThese N.settings N.allows came (Y.calls self.old.dial) (Y.calls self.new.dial)) }
        ensures fills { OnOk result (FillsBy Ended N.settings N.allows (Y.calls self.old.dial) (Y.calls self.new.dial)) }
    {
        slots_take_turns();
        let begun = self.site.lent.watch.now_ms();
        for _turn in 0..self.turns.len() {
            if self.site.is_over(milliseconds, begun) {
                return Ok(());
            }
            self.start_next(scope, filling)?;
        }
        Ok(())
    }

    /// Joins the sessions that ended, and fills empty slots for no longer than so many milliseconds. The error is that a thread could not
    /// be started.
    fn refill<'s>(&mut self, scope: &Scope<'s, &'e ()>, milliseconds: u32) -> Result<(), AllocError>
    where
        'e: 's,
        N: 's,
        L: 's,
        requires ended { N.until ≡ Ended }
        ensures posts { PostsMore N.until self.old.seats.publisher.posts self.new.seats.publisher.posts }
        ensures rounds { self.new.rounds ≡ self.old.rounds }
        ensures calls { OnOk result (Attempts N.until N.settings N.allows N.had_jobs [] []
            self.old.crew.counts self.new.crew.counts (Y.calls self.old.dial) (Y.calls self.new.dial)) }
    {
        let site = self.site;
        self.crew
            .join_ended(&site, &mut self.seats.source, &mut self.dial);
        self.start_in_turn(scope, Filling::Refill, milliseconds)
    }

    /// Lets the time of a round pass. Whenever it is woken meanwhile, slots are filled, no sooner than 20 milliseconds after the last time:
    /// their workers do what those before them did, and wait for no attempt. If no time is known it pauses as a run of so many attempts
    /// does. The error is that a thread could not be started.
    pub fn rest_and_refill<'s>(&mut self, scope: &Scope<'s, &'e ()>) -> Result<(), AllocError>
    where
        'e: 's,
        N: 's,
        L: 's,
        requires ended { N.until ≡ Ended }
        ensures posts { PostsMore N.until self.old.seats.publisher.posts self.new.seats.publisher.posts }
        ensures rounds { self.new.rounds ≡ self.old.rounds }
        ensures calls { OnOk result (Attempts N.until N.settings N.allows N.had_jobs [] []
            self.old.crew.counts self.new.crew.counts (Y.calls self.old.dial) (Y.calls self.new.dial)) }
    {
        let site = self.site;
        let round_ms = site.run.settings.round_ms();
        let begun = site.lent.watch.now_ms();
        if begun.is_none() {
            site.lent.watch.pause(round_ms);
            return Ok(());
        }
        let mut left = round_ms;
        let mut refilled = None;
        for _refill in 0..round_ms {
            if !site.is_called(left, refilled) {
                return Ok(());
            }
            refilled = site.lent.watch.now_ms();
            self.refill(scope, left_of(round_ms, begun, refilled))?;
            left = left_of(round_ms, begun, site.lent.watch.now_ms());
            if left == 0 {
                return Ok(());
            }
        }
        Ok(())
    }
}
