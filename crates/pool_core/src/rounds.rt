//! What a round reads and writes.
ghost use Rattle.std.specs.Prelude.{◌≡◌, ◌↔◌, ◌<◌, ◌≤◌, ℕ, IsTrue, slice_index_or, IfOk, Some, length, map, slice_get};
ghost use Rattle.worker_state.specs.Slots.{is_live};
ghost use Rattle.worker_state.specs.Orders.{no_order, IsOrder};
ghost use Rattle.pool_settings.specs.Slots.{slots as slot_count, owners};
ghost use Rattle.pool_settings.specs.Planning.{instance_of, waiting_of};
ghost use Rattle.pool_core.specs.Machine.{what_of, ordered, orders_from};
ghost use Rattle.pool_core.specs.Book.{moved_in, one_moved};
ghost use Rattle.pool_core.specs.Walk.{live_from};

use crate::table;
use gear_status::Load;
use plan_model::{FuncId, Input, MachineId, Plan, SlotId};
use pool_settings::Settings;
use std::alloc::{AllocError, Global};
use worker_state::{Order, Slot, What};

/// For each slot whether it is live.
pub fn live_marks(alloc: Global, slots: &[Slot]) -> Result<Vec<bool>, AllocError>
    ensures { IfOk result (λ marks. marks.items ≡ map is_live slots.now) }
{
    let mut marks = Vec::new(alloc);
    for slot in slots {
        marks.push(slot.is_live())?;
    }
    Ok(marks)
}

/// Whether the list has this worker at the place.
fn is_listed(listed: &[(SlotId, MachineId)], place: usize, slot: SlotId, machine: MachineId) -> bool
    ensures { IsTrue result ↔ (slice_get listed.now place ≡ Some (slot, machine)) }
{
    match listed.get(place) {
        None => false,
        Some(worker) => worker.0 == slot && worker.1 == machine,
    }
}

/// Whether these are the live workers, in order.
fn are_live(settings: &Settings, slots: &[Slot], listed: &[(SlotId, MachineId)]) -> bool
    requires { length slots.now ≡ slot_count settings.now }
    ensures { IsTrue result ↔ (listed.now ≡ live_from 0 (owners settings.now) slots.now) }
{
    let mut next = 0usize;
    for number in 0..settings.slots() {
        let slot = SlotId::new(number);
        if slots[number as usize].is_live() {
            if !is_listed(listed, next, slot, settings.machine_of(slot)) {
                return false;
            }
            next += 1;
        }
    }
    next == listed.len()
}

/// Whether these are the jobs that wait, for each function.
fn are_waiting(settings: &Settings, load: &Load, waiting: &[u32]) -> bool
    ensures { IsTrue result ↔ (waiting.now ≡ waiting_of settings.now load.now) }
{
    let count = settings.functions();
    if waiting.len() != count as usize {
        return false;
    }
    for number in 0..count {
        let name = settings.function_name(FuncId::new(number));
        if waiting[number as usize] != load.waiting(name.as_bytes()) {
            return false;
        }
    }
    true
}

/// What a worker is to do with this function, or without one.
fn what(function: Option<FuncId>) -> What
    ensures { result ≡ what_of function }
{
    match function {
        None => What::Idle,
        Some(function) => What::Work(function),
    }
}

/// A slot's order after a round.
fn order_after(what: What, round: u32, slot: &Slot, order: Order) -> Order
    requires { IsOrder (ordered what round slot.now order) }
    ensures { result ≡ ordered what round slot.now order }
{
    match slot {
        Slot::Empty(_) => order,
        Slot::Live {
            generation,
            runs: _,
            ticket: _,
        } => {
            if order.generation == *generation && order.what == what {
                order
            } else {
                Order {
                    generation: *generation,
                    round,
                    what,
                }
            }
        }
    }
}

/// The orders after a round.
pub fn orders_after(
    alloc: Global,
    plan: &Plan,
    round: u32,
    slots: &[Slot],
    orders: &[Order],
) -> Result<Vec<Order>, AllocError>
    requires few { length slots.now ≤ 4096 }
    requires paired { length slots.now ≡ length orders.now }
    requires ranges { (s : ℕ) → IsOrder (slice_index_or (orders_from 0 plan.now round slots.now orders.now) s no_order) }
    ensures { IfOk result (λ made. made.items ≡ orders_from 0 plan.now round slots.now orders.now) }
{
    let mut made = Vec::new(alloc);
    for (number, slot) in slots.iter().enumerate() {
        let function = plan.function_of(SlotId::new(number as u32));
        let order = order_after(what(function), round, slot, orders[number]);
        made.push(order)?;
    }
    Ok(made)
}

/// 1 if a live worker got another function.
fn one_if_moved(slot: &Slot, old: &Order, new: &Order) -> u32
    ensures { result ≡ one_moved slot.now old.now new.now }
{
    if slot.is_live() && old.what != new.what {
        1
    } else {
        0
    }
}

/// How many live workers got another function.
pub fn moved(slots: &[Slot], old: &[Order], new: &[Order]) -> u32
    requires few { length slots.now ≤ 4096 }
    requires old { length slots.now ≡ length old.now }
    requires new { length slots.now ≡ length new.now }
    ensures count { result ≡ moved_in slots.now old.now new.now }
{
    let mut count = 0u32;
    for (number, slot) in slots.iter().enumerate() {
        count += one_if_moved(slot, &old[number], &new[number]);
    }
    count
}

/// Whether the input is that of these slots and this load.
pub fn is_input(settings: &Settings, slots: &[Slot], load: &Load, input: &Input) -> bool
    requires { length slots.now ≡ slot_count settings.now }
    ensures { IsTrue result ↔ (input.now ≡ instance_of settings.now (map is_live slots.now) (waiting_of settings.now load.now)) }
{
    if input.rows() != settings.rows() {
        return false;
    }
    if input.least() != settings.least_numbers() {
        return false;
    }
    if input.most() != settings.most_numbers() {
        return false;
    }
    if !are_live(settings, slots, input.live()) {
        return false;
    }
    are_waiting(settings, load, input.waiting())
}
