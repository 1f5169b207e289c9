//! What lies under the lock.
ghost use Rattle.std.specs.Prelude.{◌≡◌, ◌+◌, ◌<◌, ◌≤◌, ◌++◌, ◌∷◌, [], length, slice_index_or, IfOk, OnErr, OnOk};
ghost use Rattle.pool_settings.specs.Slots.{slots as slot_count};
ghost use Rattle.worker_state.specs.Orders.{no_order, IsOrder};
ghost use Rattle.pool_core.specs.Book.{totals_of};
ghost use Rattle.pool_core.specs.Kept.{IsSoundState};
ghost use Rattle.pool_core.specs.Calls.{Joins, Loads, Views, Adopts, Grabs, Begins, Reports, Loses, Expires, EndsChapter, Forgets};
ghost use Rattle.pool_supervisor.specs.Counted.{CountsItsEvents};
ghost use Rattle.pool_supervisor.specs.Reached.{IsReached};

use crate::place::{RoundsOf, RunLedger};
use agreed_rounds::{NoRounds, RoundsKept, RoundsTold};
use gear_packets::Handle;
use gear_status::Load;
use plan_model::{Certified, Input, Plan, SlotId};
use pool_core::{
    AdoptError, BeginError, Chapter, ChapterError, ExpireError, Forgotten, GrabError, JoinError,
    LoadError, LoseError, Pass, Pool, Ran, ReportError, StayOrRetire, Totals, ViewError,
    events_count, histories_are_sound, histories_count, histories_join, jobs_are_accounted_for,
    rounds_are_shown,
};
use std::marker::Model;
use std::sync::Wait;
use std::sync::ledger::{self, Blank, Ledger, Share};
use worker_state::{Cause, EndKind, Order, Ticket};

/// A pool with the books of its grabs and of its reports, and with its rounds.
///
/// The two books stand at the totals of the pool at every moment at which the lock is free: one counts the jobs that were grabbed,
/// the other those that were reported, over all chapters of the history. A share can rise only with its book, so no session can
/// tell of a job that the pool does not count. The settings of the pool are those in the name of its run. The rounds that are kept beside
/// it are those of its whole history, and who tells them knows the same ones.
///
/// Each call is the call of the pool of that name, with the same answers; `grab` and `reported` move a book and a share besides, and
/// `adopt` adds a round. Contracts see it as its pool.
#[derive(Drop)]
pub struct Booked<G: RunLedger, D: Ledger> {
    pool: Pool,
    grabbed: ledger::Book<G>,
    reported: ledger::Book<D>,
    rounds: RoundsKept<RoundsOf<G>>,
}

impl<G: RunLedger, D: Ledger> Model for Booked<G, D> {
    ghost use Rattle.std.specs.Prelude.{◌≡◌};
    ghost use Rattle.pool_core.specs.Book.{Book, totals_of};
    ghost use Rattle.pool_supervisor.specs.Counted.{CameTo};

    ghost Value = { Book };

    ghost view = { λ b. b.pool };

    ghost invariant = { λ b. (b.grabbed.total ≡ (totals_of b.pool).grabbed) × (b.reported.total ≡ (totals_of b.pool).reported)
        × (b.pool.settings ≡ G.settings) × CameTo b.pool b.rounds };
}

impl<G: RunLedger, D: Ledger> Booked<G, D> {
    /// A pool that has grabbed nothing and made no round, with the whole shares of both ledgers, which stand at 0, and no rounds to tell.
    pub fn new(
        pool: Pool,
        grabbed: Blank,
        reported: Blank,
        rounds: NoRounds,
    ) -> (Booked<G, D>, Share<G>, Share<D>, RoundsTold<RoundsOf<G>>)
        requires pool { ((totals_of pool).grabbed ≡ 0) × ((totals_of pool).rounds ≡ 0) }
        requires settings { pool.settings ≡ G.settings }
        requires rounds { rounds ≡ G.rounds }
        requires grabbed { (grabbed.name ≡ G.name) × (grabbed.parts ≡ G.parts) }
        requires reported { (reported.name ≡ D.name) × (reported.parts ≡ D.parts) }
        ensures pool { result.0 ≡ pool }
        ensures grabbed { (result.1.parts ≡ G.parts) × (result.1.amount ≡ 0) }
        ensures reported { (result.2.parts ≡ D.parts) × (result.2.amount ≡ 0) }
        ensures told { result.3 ≡ [] }
    {
        // What was reported was grabbed.
        let _none = pool.totals();
        histories_join();
        let _events = pool.history();
        let (grab_book, grab_share) = grabbed.open::<G>();
        let (report_book, report_share) = reported.open::<D>();
        let (kept, told) = rounds.named::<RoundsOf<G>>();
        let booked = Booked {
            pool,
            grabbed: grab_book,
            reported: report_book,
            rounds: kept,
        };
        (booked, grab_share, report_share, told)
    }

    /// Books a job that the server gave to the worker, as [`Pool::grab`] does. If it does, the share and the book of grabs rise
    /// by one; if it is refused, nothing changes.
    pub fn grab(
        &mut self,
        mine: &mut Share<G>,
        pass: &Pass,
        handle: Handle,
        function: &[u8],
        now_ms: u64,
    ) -> Result<Ticket, GrabError>
        requires part { 0 < mine.old.parts }
        ensures pool { Grabs pass.now handle function.now now_ms self.old self.new result }
        ensures raised { OnOk result (mine.new.amount ≡ mine.old.amount + 1) }
        ensures kept { OnErr result (mine.new.amount ≡ mine.old.amount) }
        ensures parts { mine.new.parts ≡ mine.old.parts }
    {
        let Booked { pool, grabbed, .. } = self;
        histories_join();
        events_count(pool);
        let ticket = pool.grab(pass, handle, function, now_ms)?;
        grabbed.add(mine, 1);
        Ok(ticket)
    }

    /// Books that the answer to a job was written whole, as [`Pool::reported`] does. If it does, the share and the book of
    /// reports rise by one; if it is refused, nothing changes. It takes no memory.
    pub fn reported(
        &mut self,
        mine: &mut Share<D>,
        pass: &Pass,
        ticket: Ticket,
        end: EndKind,
    ) -> Result<StayOrRetire, ReportError>
        requires part { 0 < mine.old.parts }
        ensures pool { Reports pass.now ticket end self.old self.new result }
        ensures raised { OnOk result (mine.new.amount ≡ mine.old.amount + 1) }
        ensures kept { OnErr result (mine.new.amount ≡ mine.old.amount) }
        ensures parts { mine.new.parts ≡ mine.old.parts }
    {
        let Booked { pool, reported, .. } = self;
        histories_join();
        events_count(pool);
        let answer = pool.reported(pass, ticket, end)?;
        reported.add(mine, 1);
        Ok(answer)
    }

    /// Begins to report a job, as [`Pool::begin_report`] does.
    pub fn begin_report(&mut self, pass: &Pass, ticket: Ticket) -> Result<(), BeginError>
        ensures { Begins pass.now ticket self.old self.new result }
    {
        histories_join();
        events_count(&self.pool);
        self.pool.begin_report(pass, ticket)
    }

    /// Loses a worker and the job that it had, as [`Pool::lose`] does. The job stays in the book of grabs.
    pub fn lose(&mut self, pass: Pass, cause: Cause) -> Result<(), LoseError>
        ensures { Loses pass cause self.old self.new result }
    {
        histories_join();
        events_count(&self.pool);
        self.pool.lose(pass, cause)
    }

    /// Loses the worker of that generation if its job is late, as [`Pool::expire`] does.
    pub fn expire(&mut self, slot: SlotId, generation: u32, now_ms: u64) -> Result<(), ExpireError>
        requires { slot < length self.old.state.slots }
        ensures { Expires (record { slot = slot; generation = generation }) now_ms self.old self.new result }
    {
        histories_join();
        events_count(&self.pool);
        self.pool.expire(slot, generation, now_ms)
    }

    /// A new worker in an empty slot, as by [`Pool::join`].
    pub fn join(&mut self, slot: SlotId) -> Result<Pass, JoinError>
        requires { slot < length self.old.state.slots }
        ensures { Joins slot self.old self.new result }
    {
        histories_join();
        events_count(&self.pool);
        self.pool.join(slot)
    }

    /// Takes what the server says of its queues, as [`Pool::load`] does.
    pub fn load(&mut self, load: Load) -> Result<(), LoadError>
        ensures { Loads load self.old self.new result }
    {
        histories_join();
        events_count(&self.pool);
        self.pool.load(load)
    }

    /// What a round would plan for now, and the plan before it, as by [`Pool::view`].
    pub fn view(&self) -> Result<(Input, Option<Plan>), ViewError>
        ensures { Views self.now result }
    {
        self.pool.view()
    }

    /// Takes an answer that was found elsewhere as a round, as [`Pool::adopt`] does. If it does, the round is the next one to tell; if it
    /// is refused, nothing changes.
    pub fn adopt<R: Wait>(
        &mut self,
        rt: &R,
        told: &mut RoundsTold<RoundsOf<G>>,
        certified: Certified,
    ) -> Result<Ran, AdoptError>
        ensures pool { Adopts certified self.old self.new result }
        ensures told { IfOk result (λ ran. told.new ≡ told.old ++ ran ∷ []) }
        ensures untold { OnErr result (told.new ≡ told.old) }
    {
        let Booked { pool, rounds, .. } = self;
        histories_join();
        events_count(pool);
        let ran = pool.adopt(certified)?;
        rounds.push(rt, told, ran);
        Ok(ran)
    }

    /// Forgets the job of the first ticket that is not forgotten, as [`Pool::forget`] does. The books go on: the totals count it.
    pub fn forget(&mut self) -> Option<Forgotten>
        ensures { Forgets self.old self.new result }
    {
        self.pool.forget()
    }

    /// Hands out the events of this chapter, as [`Pool::end_chapter`] does. The books go on: they count over all chapters.
    pub fn end_chapter(&mut self) -> Result<Chapter, ChapterError>
        ensures { EndsChapter self.old self.new result }
    {
        self.pool.end_chapter()
    }

    /// The totals of the pool, held against two shares. No share is above its book, and one that is whole is equal to its book.
    pub fn audit(&mut self, grabbed: &mut Share<G>, reported: &mut Share<D>) -> Totals
        ensures same { self.new ≡ self.old }
        ensures totals { result ≡ totals_of self.old }
        ensures grabs_kept { (grabbed.new.amount ≡ grabbed.old.amount) × (grabbed.new.parts ≡ grabbed.old.parts) }
        ensures reports_kept { (reported.new.amount ≡ reported.old.amount) × (reported.new.parts ≡ reported.old.parts) }
        ensures bound { (grabbed.old.amount ≤ result.grabbed) × (reported.old.amount ≤ result.reported) }
        ensures grabbed { grabbed.old.parts ≡ G.parts → grabbed.old.amount ≡ result.grabbed }
        ensures reported { reported.old.parts ≡ D.parts → reported.old.amount ≡ result.reported }
    {
        let Booked {
            pool,
            grabbed: grab_book,
            reported: report_book,
            rounds: _,
        } = self;
        grab_book.audit(grabbed);
        report_book.audit(reported);
        pool.totals()
    }

    /// The totals of the pool, held against two shares as [`Booked::audit`] does, and against the rounds that were told.
    ///
    /// There is one history of which the totals count the Grab and Reported events, and the rounds that were told are its rounds. Each of
    /// them is the best of all plans or shown to have none, and each grabbed job is running, reported once, or lost with its named worker.
    pub fn settle<R: Wait>(
        &mut self,
        rt: &R,
        grabbed: &mut Share<G>,
        reported: &mut Share<D>,
        told: RoundsTold<RoundsOf<G>>,
    ) -> Totals
        ensures same { self.new ≡ self.old }
        ensures totals { result ≡ totals_of self.old }
        ensures settings { self.old.settings ≡ G.settings }
        ensures events { CountsItsEvents self.old result told }
        ensures accounts { result.grabbed ≡ result.running + result.reported + result.lost }
        ensures grabbed { grabbed.old.parts ≡ G.parts → grabbed.old.amount ≡ result.grabbed }
        ensures reported { reported.old.parts ≡ D.parts → reported.old.amount ≡ result.reported }
        ensures grabs_kept { (grabbed.new.amount ≡ grabbed.old.amount) × (grabbed.new.parts ≡ grabbed.old.parts) }
        ensures reports_kept { (reported.new.amount ≡ reported.old.amount) × (reported.new.parts ≡ reported.old.parts) }
    {
        let _events = self.pool.history();
        histories_join();
        histories_count();
        rounds_are_shown();
        jobs_are_accounted_for();
        self.rounds.reconcile(rt, told);
        self.audit(grabbed, reported)
    }

    /// Does nothing: what every pool of a run keeps. Its settings are those in the run's name, and so is the number of its slots. A
    /// history of these settings leads to its state.
    pub fn facts(&self)
        ensures settings { self.now.settings ≡ G.settings }
        ensures slots { length self.now.state.slots ≡ slot_count G.settings }
        ensures reached { IsReached G.settings self.now.state }
        ensures sound { IsSoundState G.settings self.now.state }
    {
        let _events = self.pool.history();
        histories_join();
        histories_count();
        histories_are_sound();
    }

    /// The pool, for its readers.
    pub fn pool(&self) -> &Pool
        ensures { result.now ≡ self.now }
    {
        &self.pool
    }

    /// The pool, whose books are given up.
    pub fn into_pool(self) -> Pool
        ensures { result ≡ self }
    {
        let Booked {
            pool,
            grabbed: _,
            reported: _,
            rounds: _,
        } = self;
        pool
    }
}
