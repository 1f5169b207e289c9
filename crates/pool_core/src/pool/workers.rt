//! Workers: how they join, and how they are lost.
ghost use Rattle.std.specs.Prelude.{◌≡◌, ◌<◌, IsTrue, length};
ghost use Rattle.pool_core.specs.Machine.{is_live_in};
ghost use Rattle.pool_core.specs.Book.{IsStep, join_refusal, lose_refusal, expire_refusal};
ghost use Rattle.pool_core.specs.Calls.{Joins, Loses, Expires};
ghost use Rattle.pool_core.specs.declared.event.Event.TheVariants as event;

use super::{Pass, Pool};
use crate::error::{ExpireError, JoinError, LoseError};
use crate::event::Event;
use crate::table;
use plan_model::SlotId;
use worker_state::{Cause, MAX_GENERATION, Order, Slot, What, WorkerName};

impl Pool {
    fn join_refusal(&self, slot: SlotId) -> Option<JoinError>
        ensures { result ≡ join_refusal self.now slot }
    {
        let held = self.slot_of(slot);
        if held.is_live() {
            return Some(JoinError::AlreadyLive);
        }
        if held.last_generation() >= MAX_GENERATION {
            return Some(JoinError::GenerationsUsed);
        }
        if !self.has_room(2) {
            return Some(JoinError::HistoryFull);
        }
        None
    }

    /// A new worker in an empty slot, of the next generation, with no runs, no job and an idle order.
    ///
    /// It makes the room for the event that ends the worker. A slot gives 262,143 generations.
    ///
    /// Refused, in this order, as `AlreadyLive`, `GenerationsUsed`, `HistoryFull` or `Memory`.
    pub fn join(&mut self, slot: SlotId) -> Result<Pass, JoinError>
        requires { slot < length self.old.state.slots }
        ensures { Joins slot self.old self.new result }
    {
        if let Some(refusal) = self.join_refusal(slot) {
            return Err(refusal);
        }
        self.events.reserve(self.owed as usize + 2)?;
        let generation = table::slot_of(self.slots.as_slice(), slot).last_generation() + 1;
        let live = Slot::Live {
            generation,
            runs: 0,
            ticket: None,
        };
        let order = Order {
            generation,
            round: 0,
            what: What::Idle,
        };
        table::put_slot(&mut self.slots, slot, live);
        table::put_order(&mut self.orders, slot, order);
        self.owed += 1;
        self.events.push_reserved(Event::Join { slot });
        Ok(Pass {
            worker: WorkerName { slot, generation },
        })
    }

    fn lose_refusal(&self, worker: &WorkerName) -> Option<LoseError>
        ensures { result ≡ lose_refusal self.now worker.now }
    {
        if self.slot_of(worker.slot).has_generation(worker.generation) {
            None
        } else {
            Some(LoseError::Gone)
        }
    }

    fn lose_worker(&mut self, worker: WorkerName, cause: Cause)
        requires { IsTrue (is_live_in self.old.state worker) }
        ensures { IsStep (event.Lost worker cause) self.old self.new }
    {
        let ticket = table::slot_of(self.slots.as_slice(), worker.slot).held_ticket();
        table::put_slot(&mut self.slots, worker.slot, Slot::Empty(worker.generation));
        let jobs = table::lost_jobs(&ticket);
        // No more are lost than were grabbed.
        let _grabbed = self.standings.len();
        let name = WorkerName {
            slot: worker.slot,
            generation: worker.generation,
        };
        let owed = table::put_lost(&mut self.standings, ticket, name, cause);
        self.owed -= 1 + owed;
        self.lost += jobs;
        self.events.push_reserved(Event::Lost { worker, cause });
    }

    /// Loses a worker, and with it the job that it had. The pass is spent, also if it is refused. It takes no memory and needs
    /// no room, and is refused as `Gone` alone.
    pub fn lose(&mut self, pass: Pass, cause: Cause) -> Result<(), LoseError>
        ensures { Loses pass cause self.old self.new result }
    {
        let worker = pass.name();
        if let Some(refusal) = self.lose_refusal(&worker) {
            return Err(refusal);
        }
        self.lose_worker(worker, cause);
        Ok(())
    }

    fn expire_refusal(&self, worker: &WorkerName, now_ms: u64) -> Option<ExpireError>
        ensures { result ≡ expire_refusal self.now worker.now now_ms }
    {
        let slot = self.slot_of(worker.slot);
        if !slot.has_generation(worker.generation) {
            return Some(ExpireError::Gone);
        }
        let Some(ticket) = slot.held_ticket() else {
            return Some(ExpireError::NoJob);
        };
        if table::is_reporting(self.held_standing(worker, ticket)) {
            return Some(ExpireError::Reporting);
        }
        let since = table::time_of(self.grab_times.as_slice(), worker.slot);
        let timeout = self.settings.job_timeout_ms() as u64;
        if since <= now_ms && timeout <= now_ms - since {
            None
        } else {
            Some(ExpireError::NotLate)
        }
    }

    /// Loses the worker of that generation if its job is late, unless the report has begun: if the time of the grab and the
    /// job timeout add up to no more than now. It takes no memory and needs no room.
    ///
    /// Refused, in this order, as `Gone`, `NoJob`, `Reporting` or `NotLate`.
    pub fn expire(&mut self, slot: SlotId, generation: u32, now_ms: u64) -> Result<(), ExpireError>
        requires { slot < length self.old.state.slots }
        ensures { Expires (record { slot = slot; generation = generation }) now_ms self.old self.new result }
    {
        let worker = WorkerName { slot, generation };
        if let Some(refusal) = self.expire_refusal(&worker, now_ms) {
            return Err(refusal);
        }
        self.lose_worker(worker, Cause::Late);
        Ok(())
    }
}
