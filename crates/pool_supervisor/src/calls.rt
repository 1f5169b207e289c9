//! The calls of a port, for contracts alone.
ghost use Rattle.std.specs.Prelude.{◌≡◌};
ghost use Rattle.pool_supervisor.specs.PortCalls.{book_of, after_call};

use job_runner::{Gone, GrabRefusal};
use pool_core::StayOrRetire;
use std::mem;
use std::snapshot::Snapshot;
use worker_state::{Cause, Order, Ticket};

/// A call of a port, and its answer.
#[derive(Clone, Copy)]
pub enum Call {
    /// The order was read.
    Order(Order),
    /// A job was to be booked.
    Grab(Result<Ticket, GrabRefusal>),
    /// A report was to begin.
    Begin(Result<(), Gone>),
    /// A report was to be booked.
    Report(Result<StayOrRetire, Gone>),
    /// The worker was lost.
    Lose(Cause),
}

/// The calls of a port so far, the last one first. A port keeps them as a snapshot, which has no bytes: they are no data of a program.
#[derive(Drop)]
pub enum Calls {
    /// None yet.
    New,
    /// Some calls, and one more.
    Then(Snapshot<Calls>, Call),
}

/// One more call.
pub fn note(calls: &mut Snapshot<Calls>, call: Call)
    ensures { book_of calls.new.value ≡ after_call (book_of calls.old.value) call }
{
    let before = mem::replace(calls, Snapshot::of(&Calls::New));
    *calls = Snapshot::of(&Calls::Then(before, call));
}
