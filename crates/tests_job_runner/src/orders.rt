//! The orders that a port answered, for contracts alone.
ghost use Rattle.std.specs.Prelude.{◌≡◌, ◌++◌, [], ◌∷◌};
ghost use Rattle.tests_job_runner.specs.Orders.{orders_of};

use std::mem;
use std::snapshot::Snapshot;
use worker_state::Order;

/// The orders so far, the last one first. A port keeps them as a snapshot, which has no bytes: they are no data of a program.
#[derive(Drop)]
pub enum Orders {
    /// None yet.
    New,
    /// Some orders, and one more.
    Then(Snapshot<Orders>, Order),
}

/// One more order.
pub fn note(orders: &mut Snapshot<Orders>, order: Order)
    ensures { orders_of orders.new.value ≡ orders_of orders.old.value ++ order ∷ [] }
{
    let before = mem::replace(orders, Snapshot::of(&Orders::New));
    *orders = Snapshot::of(&Orders::Then(before, order));
}
