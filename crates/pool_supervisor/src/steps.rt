//! The steps of an attempt, each on what lies under the lock in one hold of it.
ghost use Rattle.std.specs.Prelude.{◌≡◌, ◌↔◌, ◌⊎◌, ◌+◌, ◌<◌, ◌≤◌, ◌++◌, ◌∷◌, [], ℕ, true, false, not, count_by, length};
ghost use Rattle.std.specs.Prelude.{IsSome, IfSome, IfNone, IfOk, OnOk, OnErr, Ok, Err};
ghost use Rattle.std.specs.Option.{option_map};
ghost use Rattle.pool_settings.specs.Slots.{slots as slot_count};
ghost use Rattle.worker_state.specs.Slots.{is_live, last_generation};
ghost use Rattle.worker_state.specs.declared.slot.Slot.TheVariants.{Empty};
ghost use Rattle.pool_core.specs.Machine.{slot_in};
ghost use Rattle.pool_core.specs.Book.{has_closed_prefix};
ghost use Rattle.pool_core.specs.Calls.{Adopts, EndsChapter, Expires};
ghost use Rattle.order_board.specs.Posts.{latest, posts_of};
ghost use Rattle.pool_supervisor.specs.FarmPosts.{IsRelaxedFor, IsRelaxedIn, PostsAfter, PostsMore, PostsRound};
ghost use Rattle.pool_supervisor.specs.FarmPosts.{handed_on, orders_by, relaxed_order};
ghost use Rattle.pool_supervisor.specs.Published.{ArePosted, stop_order};
ghost use Rattle.pool_supervisor.specs.Reached.{IsRoundOf};
ghost use Rattle.pool_supervisor.specs.Steps.{GrabsOrCuts, IsChapterDue, IsLate, most_forgotten, worker_of};

use crate::attempts::Until;
use crate::booked::Booked;
use crate::place::{Grabs, Reports, RunBoard, RunId, RunRounds};
use crate::posting::{publish_all_by, publish_by, publish_plan_by, stop_by};
use gear_packets::Handle;
use order_board::PublisherSeat;
use plan_model::{Answer, Certified, SlotId};
use pool_core::{
    AdoptError, Chapter, ChapterError, ExpireError, GrabError, Pass, Ran, histories_join,
};
use relaxed_plan::Relaxed;
use std::sync::Wait;
use std::sync::ledger::Share;
use worker_state::{MAX_GENERATION, Order, Slot, Ticket, What};

/// How many jobs are forgotten in one hold of the lock, at the most.
const MOST_FORGOTTEN: u32 = 1024;

/// A job that the server gave to a worker.
#[derive(Clone, Copy)]
pub struct GivenJob<'a> {
    /// Its handle.
    pub handle: &'a Handle,
    /// Its function.
    pub function: &'a [u8],
    /// When it came, in milliseconds.
    pub now_ms: u64,
}

/// What was found for what was viewed of the pool.
pub struct Found<'a> {
    /// The answer.
    pub certified: Certified,
    /// A relaxed plan of the same problem, if the answer is that there is no plan.
    pub relaxed: Option<&'a Relaxed>,
}

impl<'e, N: RunId> RunBoard<'e, N> {
    /// Ends the chapter of the history if that is due: in a run of so many attempts if more than half of what the history may have is
    /// used, so that a long run does not run out of room; in one until its watch ends it if there is any event, so that it does not keep
    /// the loads and plans of its attempts. None if it goes on. The events are handed out, to be dropped once the lock is free.
    pub fn end_if_due(
        &self,
        held: &mut Booked<Grabs<N>, Reports<N>>,
    ) -> Option<Result<Chapter, ChapterError>>
        ensures due { IsSome result ↔ IsChapterDue self.now.until held.old }
        ensures ends { IfSome result (EndsChapter held.old held.new) }
        ensures goes_on { IfNone result (held.new ≡ held.old) }
    {
        held.facts();
        let events = held.pool().totals().events;
        let is_due = match self.until {
            Until::Rounds(_) => events > self.settings.history() / 2,
            Until::Ended => events > 0,
        };
        if is_due {
            Some(held.end_chapter())
        } else {
            None
        }
    }

    /// Ends the chapter for a job that was answered so, if that is due: in a run until its watch ends it, if there was no room for the job
    /// and there is any event. None if it goes on.
    fn cut_for(
        &self,
        held: &mut Booked<Grabs<N>, Reports<N>>,
        answer: &Result<Ticket, GrabError>,
    ) -> Option<Result<Chapter, ChapterError>>
        ensures due { IsSome result
            ↔ (self.now.until ≡ Until.Ended) × (answer.now ≡ Err GrabError.HistoryFull) × (0 < length held.old.events) }
        ensures ends { IfSome result (EndsChapter held.old held.new) }
        ensures goes_on { IfNone result (held.new ≡ held.old) }
    {
        let Err(GrabError::HistoryFull) = answer else {
            return None;
        };
        match self.until {
            Until::Rounds(_) => None,
            Until::Ended => self.end_if_due(held),
        }
    }

    /// Books a job as [`Booked::grab`] does. If the history has no room for it, and the run goes on until its watch ends it, the chapter is
    /// ended first. Its events are handed out, to be dropped once the lock is free; the error says why the pool did not end it.
    pub fn grab(
        &self,
        held: &mut Booked<Grabs<N>, Reports<N>>,
        mine: &mut Share<Grabs<N>>,
        pass: &Pass,
        job: GivenJob<'_>,
    ) -> (
        Result<Ticket, GrabError>,
        Option<Result<Chapter, ChapterError>>,
    )
        requires part { 0 < mine.old.parts }
        ensures pool { GrabsOrCuts self.now.until pass.now job.entry.handle.now job.entry.function.now job.entry.now_ms
            held.old held.new result.0 result.1 }
        ensures raised { OnOk result.0 (mine.new.amount ≡ mine.old.amount + 1) }
        ensures kept { OnErr result.0 (mine.new.amount ≡ mine.old.amount) }
        ensures parts { mine.new.parts ≡ mine.old.parts }
    {
        let GivenJob {
            handle,
            function,
            now_ms,
        } = job;
        let answer = held.grab(mine, pass, handle.copy(), function, now_ms);
        let Some(cut) = self.cut_for(held, &answer) else {
            return (answer, None);
        };
        let again = held.grab(mine, pass, handle.copy(), function, now_ms);
        (again, Some(cut))
    }

    /// Whether no worker is in the slot.
    pub fn is_empty(&self, held: &Booked<Grabs<N>, Reports<N>>, slot: SlotId) -> bool
        requires slot { slot < slot_count self.now.settings.now }
        ensures { result ≡ not (is_live (slot_in held.now.state.slots slot)) }
    {
        held.facts();
        !held.pool().slot(slot).is_live()
    }

    /// How many workers the slot has had.
    pub fn used(&self, held: &Booked<Grabs<N>, Reports<N>>, slot: SlotId) -> u32
        requires slot { slot < slot_count self.now.settings.now }
        ensures { result ≡ last_generation (slot_in held.now.state.slots slot) }
    {
        held.facts();
        held.pool().slot(slot).last_generation()
    }

    /// The most workers that one slot has had.
    pub fn most_used(&self, held: &Booked<Grabs<N>, Reports<N>>) -> u32
        ensures most { (slot : ℕ) → slot < slot_count self.now.settings.now
            → last_generation (slot_in held.now.state.slots slot) ≤ result }
        ensures some { (slot_count self.now.settings.now ≡ 0) ⊎ ((slot : ℕ) × (slot < slot_count self.now.settings.now)
            × (last_generation (slot_in held.now.state.slots slot) ≡ result)) }
    {
        let mut most = 0;
        for number in 0..self.settings.slots() {
            most = most.max(self.used(held, SlotId::new(number)));
        }
        most
    }

    /// Posts to the worker of this generation, who joined in the slot, what the slot did last, if that was a function, in a run that goes
    /// on until its watch ends it. A run of so many attempts posts nothing.
    pub fn hand_on(&self, publisher: &mut PublisherSeat, slot: SlotId, generation: u32)
        requires own { publisher.old.board ≡ N.board }
        requires slot { slot < slot_count self.now.settings.now }
        ensures own { publisher.new.board ≡ publisher.old.board }
        ensures posts { PostsMore N.until publisher.old.posts publisher.new.posts }
        ensures exact { publisher.new.posts ≡ publisher.old.posts
            ++ handed_on N.until slot generation (latest (posts_of slot publisher.old.posts)) }
    {
        let Until::Ended = self.until else {
            return;
        };
        let Order {
            generation: _,
            round,
            what,
        } = self.board.posted_by(publisher, slot);
        if let What::Work(_) = what {
            let order = Order {
                generation: generation.min(MAX_GENERATION),
                round,
                what,
            };
            self.board.post_by(publisher, slot, order);
        }
    }

    /// How many workers are alive.
    pub fn alive(&self, held: &Booked<Grabs<N>, Reports<N>>) -> u32
        ensures { result ≡ count_by is_live held.now.state.slots }
    {
        held.facts();
        let slots = self.settings.slots();
        let mut alive = 0;
        for number in 0..slots {
            if !self.is_empty(held, SlotId::new(number)) {
                alive += 1;
            }
        }
        alive
    }

    /// Loses the worker of the slot if its job is late by this clock. The error says that the slot has none, or that it has no job, or one
    /// that is not late or is being reported.
    pub fn expire_if_late(
        &self,
        held: &mut Booked<Grabs<N>, Reports<N>>,
        slot: SlotId,
        now_ms: u64,
    ) -> Result<(), ExpireError>
        requires slot { slot < slot_count self.now.settings.now }
        ensures { Expires (worker_of held.old.state slot) now_ms held.old held.new result }
    {
        held.facts();
        match held.pool().slot(slot) {
            Slot::Live { generation, .. } => held.expire(slot, generation, now_ms),
            Slot::Empty(_) => Err(ExpireError::Gone),
        }
    }

    /// Loses each worker whose job is late by this clock, and no other.
    pub fn expire_late(&self, held: &mut Booked<Grabs<N>, Reports<N>>, now_ms: u64)
        ensures late { (slot : ℕ) → IsLate held.old now_ms slot → slot_in held.new.state.slots slot
            ≡ Empty (worker_of held.old.state slot).generation }
        ensures others { (slot : ℕ) → (IsLate held.old now_ms slot → ⊥)
            → slot_in held.new.state.slots slot ≡ slot_in held.old.state.slots slot }
    {
        held.facts();
        for number in 0..self.settings.slots() {
            held.facts();
            // A refusal says that no job of the slot is late.
            let _ = self.expire_if_late(held, SlotId::new(number), now_ms);
        }
    }

    /// Forgets the jobs of the first tickets, one after the other, up to the first that has not ended, but at most 1,024, so that no hold
    /// of the lock is long. True if it forgot so many: more may have ended then.
    pub fn forget_ended(&self, held: &mut Booked<Grabs<N>, Reports<N>>) -> bool
        ensures only { held.new ≡ record held.old { forgotten = held.new.forgotten } }
        ensures more { held.old.forgotten ≤ held.new.forgotten }
        ensures most { result ≡ true → held.new.forgotten ≡ held.old.forgotten + most_forgotten }
        ensures all { result ≡ false → has_closed_prefix held.new ≡ false }
    {
        for _number in 0..MOST_FORGOTTEN {
            if held.forget().is_none() {
                return false;
            }
        }
        true
    }

    /// Posts the orders of a round that the pool has just made, if it has a plan: those of its live workers, and in a run that goes on
    /// until its watch ends it Idle to each empty slot.
    fn post_round(
        &self,
        held: &Booked<Grabs<N>, Reports<N>>,
        publisher: &mut PublisherSeat,
        ran: &Ran,
    )
        requires own { publisher.old.board ≡ N.board }
        ensures own { publisher.new.board ≡ publisher.old.board }
        ensures posts { ArePosted (orders_by N.until ran.now held.now.state) publisher.old.posts publisher.new.posts }
    {
        held.facts();
        if ran.backlog.is_none() {
            return;
        }
        match self.until {
            Until::Rounds(_) => publish_by(held.pool(), self.board, publisher),
            Until::Ended => publish_all_by(held.pool(), self.board, publisher),
        }
    }

    /// Posts the orders of a relaxed plan, if there is one, after a round without a plan in a run that goes on until its watch ends it.
    fn post_relaxed(
        &self,
        held: &Booked<Grabs<N>, Reports<N>>,
        publisher: &mut PublisherSeat,
        ran: &Ran,
        relaxed: Option<&Relaxed>,
    )
        requires own { publisher.old.board ≡ N.board }
        requires relaxed { IfSome relaxed (λ r. IsRelaxedIn N.settings held.now.state r.now) }
        ensures own { publisher.new.board ≡ publisher.old.board }
        ensures posts { PostsAfter N.until N.settings ran.now held.now.state publisher.old.posts publisher.new.posts }
        ensures exact { ArePosted (relaxed_order N.until ran.now (option_map (λ r. r.now) relaxed.entry) held.now.state)
            publisher.old.posts publisher.new.posts }
    {
        held.facts();
        let (Until::Ended, None, Some(relaxed)) = (self.until, ran.backlog, relaxed) else {
            return;
        };
        let Answer::Planned { plan, .. } = relaxed.certified.answer() else {
            return;
        };
        publish_plan_by(held.pool(), self.board, publisher, plan, ran.number);
    }

    /// Adopts an answer as the next round to tell, and posts the orders of the round if it has a plan, and else those of the relaxed plan
    /// if there is one, so that no later round's orders come before them.
    pub fn adopt_and_publish<R: Wait>(
        &self,
        rt: &R,
        held: &mut Booked<Grabs<N>, Reports<N>>,
        publisher: &mut PublisherSeat,
        rounds: &mut RunRounds<N>,
        found: Found<'_>,
    ) -> Result<Ran, AdoptError>
        requires own { publisher.old.board ≡ N.board }
        requires relaxed { IfSome found.relaxed (λ r. IsRelaxedFor found.certified.input r.now) }
        ensures pool { Adopts found.entry.certified held.old held.new result }
        ensures round { IfOk result (λ ran. IsRoundOf N.settings ran held.new.state) }
        ensures own { publisher.new.board ≡ publisher.old.board }
        ensures posts { IfOk result
            (λ ran. PostsRound N.until N.settings ran held.new.state publisher.old.posts publisher.new.posts) }
        ensures told { IfOk result (λ ran. rounds.new ≡ rounds.old ++ ran ∷ []) }
        ensures refused { OnErr result ((publisher.new ≡ publisher.old) × (rounds.new ≡ rounds.old)) }
    {
        held.facts();
        histories_join();
        let Found { certified, relaxed } = found;
        let ran = held.adopt(rt, rounds, certified)?;
        self.post_round(held, publisher, &ran);
        self.post_relaxed(held, publisher, &ran, relaxed);
        Ok(ran)
    }

    /// Posts Stop to the worker of every slot.
    pub fn stop_all(&self, held: &Booked<Grabs<N>, Reports<N>>, publisher: &mut PublisherSeat)
        requires own { publisher.old.board ≡ N.board }
        ensures own { publisher.new.board ≡ publisher.old.board }
        ensures posts { ArePosted (stop_order held.now.state) publisher.old.posts publisher.new.posts }
    {
        held.facts();
        stop_by(held.pool(), self.board, publisher);
    }
}
