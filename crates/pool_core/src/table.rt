//! Reads and writes of the tables by slot and by ticket.
ghost use Rattle.std.specs.Prelude.{◌≡◌, not, ◌+◌, ◌-◌, ◌^◌, ◌<◌, ◌≤◌, ℕ, slice_set, slice_index, length, vec_len, vec_capacity};
ghost use Rattle.std.specs.Prelude.{if◌then◌else◌, IfSome, IfOk, OnOk, replicate};
ghost use Rattle.worker_state.specs.Slots as slots;
ghost use Rattle.pool_core.specs.Machine.{slot_in, standing_in, job_at, with_lost};
ghost use Rattle.pool_core.specs.Machine as machine;
ghost use Rattle.pool_core.specs.Book.{is_some_and, unless_forgotten};
ghost use Rattle.std.specs.Option.{option_copied};
ghost use Rattle.pool_core.specs.Kept.{closing_of, lost_of};
ghost use Rattle.worker_state.specs.Orders.{no_order};
ghost use Rattle.worker_state.specs.declared.slot.Slot.TheVariants.{Empty, Live};
ghost use Rattle.pool_core.specs.declared.answer.StayOrRetire.TheVariants.{Stay, Retire};

use crate::answer::StayOrRetire;
use crate::event::{Event, Job};
use long_list::LongList;
use plan_model::SlotId;
use std::alloc::{AllocError, Global};
use worker_state::{Cause, Order, Slot, Standing, Ticket, WorkerName};

/// What the slot holds; a slot that is not there holds nothing.
pub fn slot_of(slots: &[Slot], slot: SlotId) -> Slot
    ensures { result ≡ slot_in slots.now slot }
{
    let at = slot.number() as usize;
    if at < slots.len() {
        slots[at]
    } else {
        Slot::Empty(0)
    }
}

/// Puts this into the slot.
pub fn put_slot(slots: &mut Vec<Slot>, slot: SlotId, to: Slot)
    requires { slot < vec_len slots.old }
    ensures { slots.new.items ≡ slice_set slots.old.items slot to }
{
    slots[slot.number() as usize] = to;
}

/// Whether the ticket that a worker holds is this one.
pub fn has_open(held: Option<Ticket>, ticket: Ticket) -> bool
    ensures { result ≡ machine.has_open held ticket }
{
    match held {
        None => false,
        Some(own) => own == ticket,
    }
}

/// What became of the ticket, if it was given and is not forgotten.
pub fn standing_of(standings: &LongList<Standing>, ticket: Ticket) -> Option<Standing>
    ensures { result ≡ unless_forgotten standings.now.forgotten ticket (standing_in standings.now.items ticket) }
{
    if ticket.number() <= standings.forgotten() {
        return None;
    }
    match standings.get(ticket.number() - 1) {
        None => None,
        Some(standing) => Some(*standing),
    }
}

/// The ticket's job, if it was given and is not forgotten.
pub fn job_of(jobs: &LongList<Job>, ticket: Ticket) -> Option<&Job>
    ensures { option_copied result ≡ unless_forgotten jobs.now.forgotten ticket (job_at jobs.now.items ticket) }
{
    if ticket.number() <= jobs.forgotten() {
        return None;
    }
    jobs.get(ticket.number() - 1)
}

/// Lets a ticket that was given and is not forgotten stand so.
pub fn put_standing(standings: &mut LongList<Standing>, ticket: Ticket, to: Standing)
    requires kept { standings.old.forgotten < ticket }
    requires given { ticket ≤ length standings.old.items }
    ensures items { standings.new.items ≡ slice_set standings.old.items (ticket - 1) to }
    ensures forgotten { standings.new.forgotten ≡ standings.old.forgotten }
{
    standings.put(ticket.number() - 1, to);
}

/// Whether the job of a ticket is being run.
pub fn is_running(standing: Option<Standing>) -> bool
    ensures { result ≡ is_some_and slots.is_running standing }
{
    match standing {
        None => false,
        Some(standing) => standing.is_running(),
    }
}

/// Whether the answer to the job of a ticket is being written.
pub fn is_reporting(standing: Option<Standing>) -> bool
    ensures { result ≡ is_some_and slots.is_reporting standing }
{
    match standing {
        None => false,
        Some(standing) => standing.is_reporting(),
    }
}

/// Whether the job is reported or lost.
pub fn is_closed(standing: &Standing) -> bool
    ensures { result ≡ not (slots.is_open standing.now) }
{
    match standing {
        Standing::Running | Standing::Reporting => false,
        Standing::Reported(_) | Standing::Lost(_, _) => true,
    }
}

/// Gives the slot this order.
pub fn put_order(orders: &mut Vec<Order>, slot: SlotId, order: Order)
    requires { slot < vec_len orders.old }
    ensures { orders.new.items ≡ slice_set orders.old.items slot order }
{
    orders[slot.number() as usize] = order;
}

/// Notes when the slot's last grab was.
pub fn put_time(times: &mut Vec<u64>, slot: SlotId, now_ms: u64)
    requires { slot < vec_len times.old }
    ensures { times.new.items ≡ slice_set times.old.items slot now_ms }
{
    times[slot.number() as usize] = now_ms;
}

/// When the slot's last grab was, 0 if there was none.
pub fn time_of(times: &[u64], slot: SlotId) -> u64
    ensures { result ≡ slice_index times.now slot }
{
    let at = slot.number() as usize;
    if at < times.len() { times[at] } else { 0 }
}

/// The slot of a worker that has made one more run than these.
pub fn slot_after(stays: bool, generation: u32, runs: u32) -> Slot
    requires { runs + 1 < 2 ^ 32 }
    ensures { result ≡ (if stays then Live generation (runs + 1) None else Empty generation) }
{
    if stays {
        Slot::Live {
            generation,
            runs: runs + 1,
            ticket: None,
        }
    } else {
        Slot::Empty(generation)
    }
}

/// What a worker is answered after a run.
pub fn stay_or_retire(stays: bool) -> StayOrRetire
    ensures { result ≡ (if stays then Stay else Retire) }
{
    if stays {
        StayOrRetire::Stay
    } else {
        StayOrRetire::Retire
    }
}

/// How many events a worker owes after a run: its end, if it stays.
pub fn owed_by_worker(stays: bool) -> u32
    ensures { result ≡ (if stays then 1 else 0) }
{
    if stays { 1 } else { 0 }
}

/// How many jobs are lost with a worker that holds this ticket.
pub fn lost_jobs(ticket: &Option<Ticket>) -> u64
    ensures { result ≡ lost_of ticket.now }
{
    match ticket {
        None => 0,
        Some(_) => 1,
    }
}

/// Loses the open ticket, and says how many events were owed for its job.
pub fn put_lost(
    standings: &mut LongList<Standing>,
    ticket: Option<Ticket>,
    worker: WorkerName,
    cause: Cause,
) -> u32
    requires { IfSome ticket (λ k. (standings.old.forgotten < k) × (k ≤ length standings.old.items)) }
    ensures standings { standings.new.items ≡ with_lost standings.old.items ticket worker cause }
    ensures forgotten { standings.new.forgotten ≡ standings.old.forgotten }
    ensures owed { result ≡ closing_of standings.old.items ticket }
{
    match ticket {
        None => 0,
        Some(ticket) => {
            let owed = match standings.get(ticket.number() - 1) {
                None => 0,
                Some(standing) => standing.closing_events(),
            };
            put_standing(standings, ticket, Standing::Lost(worker, cause));
            owed
        }
    }
}

/// Room for one more job and these events.
pub fn reserve_job(
    jobs: &mut LongList<Job>,
    standings: &mut LongList<Standing>,
    events: &mut Vec<Event>,
    count: usize,
) -> Result<(), AllocError>
    ensures jobs { (jobs.new.items ≡ jobs.old.items) × (jobs.new.forgotten ≡ jobs.old.forgotten) }
    ensures standings { (standings.new.items ≡ standings.old.items) × (standings.new.forgotten ≡ standings.old.forgotten) }
    ensures events { events.new.items ≡ events.old.items }
    ensures capacity { vec_capacity events.old ≤ vec_capacity events.new }
    ensures room { OnOk result ((0 < jobs.new.room) × (0 < standings.new.room) × (vec_len events.new + count ≤ vec_capacity events.new)) }
{
    jobs.reserve(1)?;
    standings.reserve(1)?;
    events.reserve(count)?;
    Ok(())
}

/// So many slots that never had a worker.
#[tactic(auto, using(crate::proofs::Tables::copies_more))]
pub fn empty_slots(alloc: Global, count: usize) -> Result<Vec<Slot>, AllocError>
    ensures { IfOk result (λ slots. slots.items ≡ replicate count (Empty 0)) }
{
    let mut slots = Vec::with_capacity(alloc, count)?;
    // A workaround for the prover: it names `Option<Ticket>`, so that the check loads the type inside a slot.
    let _ticket: Option<Ticket> = None;
    for _number in 0..count {
        slots.push_reserved(Slot::Empty(0));
    }
    Ok(slots)
}

/// For so many slots that there was no grab.
pub fn no_times(alloc: Global, count: usize) -> Result<Vec<u64>, AllocError>
    ensures { IfOk result (λ times. times.items ≡ replicate count 0) }
{
    Ok(vec![in alloc; 0u64; count]?)
}

/// The orders of so many slots that never had a worker.
#[tactic(auto, using(crate::proofs::Tables::copies_more))]
pub fn no_orders(alloc: Global, count: usize) -> Result<Vec<Order>, AllocError>
    ensures { IfOk result (λ orders. orders.items ≡ replicate count no_order) }
{
    let mut orders = Vec::new(alloc);
    for _number in 0..count {
        orders.push(Order::NONE)?;
    }
    Ok(orders)
}
