//! The pool and what it answers without a change. Its calls stand in the files below it, each of one subject.
ghost use Rattle.std.specs.Prelude.{◌≡◌, ◌+◌, ◌<◌, ◌≤◌, slice_get, IfSome, IfNone, [], Some, None, length, IfOk};
ghost use Rattle.pool_core.specs.Machine.{first, slot_in, standing_in, open_ticket, owed};
ghost use Rattle.pool_settings.specs.Settings.{AreSettings};
ghost use Rattle.worker_state.specs.Orders.{IsOrder};
ghost use Rattle.pool_core.specs.Kept.{IsChapter};
ghost use Rattle.pool_core.specs.Book.{Book, has_room, totals_of, kept_standing, kept_job};

mod chapters;
mod forgetting;
mod jobs;
mod planning;
mod workers;

use crate::answer::Totals;
use crate::event::{Event, Job};
use crate::table;
use gear_packets::Handle;
use gear_status::Load;
use long_list::LongList;
use plan_model::{Plan, SlotId};
use pool_settings::Settings;
use std::alloc::{AllocError, Global};
use std::marker::Model;
use worker_state::{Order, Slot, Standing, Ticket, WorkerName};

/// The right to speak for one worker. Only `join` makes one, and it cannot be copied, so at most one speaker is there for each
/// worker. Clauses see it as the worker's name.
#[derive(Drop)]
pub struct Pass {
    worker: WorkerName,
}

impl Model for Pass {
    ghost use Rattle.worker_state.specs.declared.slot.WorkerName.{WorkerName};

    ghost Value = { WorkerName };

    ghost view = { λ p. p.worker };
}

impl Pass {
    /// The worker that the pass speaks for.
    pub fn name(&self) -> WorkerName
        ensures { result ≡ self.now }
    {
        self.worker
    }
}

/// A pool: its slots, jobs and rounds, with the history that led to them.
///
/// Each call either answers its first true refusal and changes nothing, or is one event of the machine that the definitions
/// describe (`IsPossible`, `after`). The state is always the replay of the history. The events that close a job or a worker
/// need neither room nor memory when they come: `join` and `grab` make it before. Calls take constant time, but for `load`,
/// rounds and `end_chapter`; none looks through the history.
///
/// Clauses see a pool as a `Book`: the settings, the events of this chapter, the state, how many chapters have ended, and how many of
/// the first tickets are forgotten.
#[derive(Drop)]
pub struct Pool {
    alloc: Global,
    settings: Settings,
    slots: Vec<Slot>,
    grab_times: Vec<u64>,
    orders: Vec<Order>,
    load: Option<Load>,
    jobs: LongList<Job>,
    standings: LongList<Standing>,
    previous: Option<Plan>,
    rounds: u32,
    events: Vec<Event>,
    /// Events that may still come without asking.
    owed: u32,
    reported: u64,
    lost: u64,
    chapters: u32,
}

impl Model for Pool {
    ghost use Rattle.pool_core.specs.Book.{Book};

    ghost Value = { Book };

    ghost use Rattle.pool_core.specs.View.{book_of, IsKeptBy};

    ghost view = { book_of };

    ghost invariant = { IsKeptBy };
}

impl Pool {
    /// A pool of these settings: all slots are empty, there is no load, and nothing has happened. The only error is that memory
    /// was refused.
    pub fn new(alloc: Global, settings: Settings) -> Result<Pool, AllocError>
        ensures { IfOk result (λ pool.
            pool ≡ record { settings = settings; events = []; state = first settings; chapters = 0; forgotten = 0 }) }
    {
        let count = settings.slots() as usize;
        let slots = table::empty_slots(alloc, count)?;
        let grab_times = table::no_times(alloc, count)?;
        let orders = table::no_orders(alloc, count)?;
        Ok(Pool {
            alloc,
            settings,
            slots,
            grab_times,
            orders,
            load: None,
            jobs: LongList::new(alloc),
            standings: LongList::new(alloc),
            previous: None,
            rounds: 0,
            events: Vec::new(alloc),
            owed: 0,
            reported: 0,
            lost: 0,
            chapters: 0,
        })
    }

    /// How many slots there are.
    pub fn slots(&self) -> u32
        ensures { result ≡ length self.now.state.slots }
    {
        self.settings.slots()
    }

    /// What a slot holds.
    pub fn slot(&self, slot: SlotId) -> Slot
        requires { slot < length self.now.state.slots }
        ensures { slice_get self.now.state.slots slot ≡ Some result }
    {
        let slots = self.slots.as_slice();
        slots[slot.number() as usize]
    }

    /// The order to the worker of a slot. It is idle and of round 0 for a worker that joined since the last round with a plan.
    /// Its generation is at most 262,143, and its function is below 1,024.
    pub fn order(&self, slot: SlotId) -> Order
        requires { slot < length self.now.state.slots }
        ensures order { slice_get self.now.state.orders slot ≡ Some result }
        ensures ranges { IsOrder result }
    {
        let orders = self.orders.as_slice();
        orders[slot.number() as usize]
    }

    /// What became of the ticket. None if it was not given or is forgotten.
    pub fn standing(&self, ticket: Ticket) -> Option<Standing>
        ensures { result ≡ kept_standing self.now ticket }
    {
        self.standing_in(ticket)
    }

    /// The handle and the function of the ticket's job. None if it was not given or is forgotten.
    pub fn job(&self, ticket: Ticket) -> Option<(&Handle, &[u8])>
        ensures some { IfSome result (λ job. kept_job self.now ticket
            ≡ Some (record { handle = job.0.now; function = job.1.now })) }
        ensures none { IfNone result (kept_job self.now ticket ≡ None) }
    {
        match table::job_of(&self.jobs, ticket) {
            None => None,
            Some(job) => Some((&job.handle, job.function.bytes())),
        }
    }

    /// How many of the first tickets are forgotten: it is the number of the last such ticket.
    pub fn forgotten(&self) -> u64
        ensures { result ≡ self.now.forgotten }
    {
        self.standings.forgotten()
    }

    /// How many chapters of the history have ended.
    pub fn chapters(&self) -> u32
        ensures { result ≡ self.now.chapters }
    {
        self.chapters
    }

    /// The counts of the pool.
    pub fn totals(&self) -> Totals
        ensures exact { result ≡ totals_of self.now }
        ensures within { result.reported ≤ result.grabbed }
    {
        let grabbed = self.standings.len();
        Totals {
            grabbed,
            running: grabbed - self.reported - self.lost,
            reported: self.reported,
            lost: self.lost,
            rounds: self.rounds,
            events: self.events.len() as u32,
        }
    }

    /// The events of this chapter. With those of the chapters before it they are a history, which leads from the first state to
    /// the state of now, and with those that are owed they are no more than the settings allow.
    pub fn history(&self) -> &[Event]
        ensures events { result.now ≡ self.now.events }
        ensures settings { AreSettings self.now.settings }
        ensures replays { IsChapter self.now.settings self.now.chapters self.now.events self.now.state }
        ensures within { length self.now.events + owed self.now.state ≤ self.now.settings.history }
    {
        self.events.as_slice()
    }

    /// Does nothing: brings what every pool keeps to where it is called. Its events, with those of the chapters before it, are a history
    /// of its settings that leads to the state of now.
    pub fn facts(&self)
        ensures settings { AreSettings self.now.settings }
        ensures replays { IsChapter self.now.settings self.now.chapters self.now.events self.now.state }
        ensures within { length self.now.events + owed self.now.state ≤ self.now.settings.history }
        ensures totals { (totals_of self.now).reported ≤ (totals_of self.now).grabbed }
    {
        let _events = self.history();
        let _totals = self.totals();
    }

    fn has_room(&self, count: u32) -> bool
        requires { count ≤ 3 }
        ensures { result ≡ has_room self.now count }
    {
        let limit = self.settings.history() as usize;
        self.events.len() + self.owed as usize + count as usize <= limit
    }

    fn slot_of(&self, slot: SlotId) -> Slot
        ensures { result ≡ slot_in self.now.state.slots slot }
    {
        table::slot_of(self.slots.as_slice(), slot)
    }

    /// What became of the ticket that the worker has: it is not forgotten.
    fn held_standing(&self, worker: &WorkerName, ticket: Ticket) -> Option<Standing>
        requires { open_ticket self.now.state worker.now ≡ Some ticket }
        ensures { result ≡ standing_in self.now.state.standings ticket }
    {
        table::standing_of(&self.standings, ticket)
    }

    fn standing_in(&self, ticket: Ticket) -> Option<Standing>
        ensures { result ≡ kept_standing self.now ticket }
    {
        table::standing_of(&self.standings, ticket)
    }
}
