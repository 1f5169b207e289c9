//! A port over a pool in memory, where something may happen beside the session at a stated call.
ghost use Rattle.std.specs.Prelude.{◌≡◌};
ghost use Rattle.job_runner.specs.Book.{after_order, no_calls};

use crate::orders::{Orders, note};
use crate::slot_board::SlotBoard;
use gear_packets::Handle;
use gear_status::Load;
use job_runner::{Gone, GrabRefusal, PoolPort, PortAnswer};
use pool_core::{ExpireError, GrabError, Pass, Pool, StayOrRetire};
use std::alloc::Global;
use std::snapshot::Snapshot;
use worker_state::{Cause, EndKind, Order, Ticket, What};

/// What happens beside a session.
#[derive(Clone, Copy)]
pub enum Beside {
    /// Nothing.
    Nothing,
    /// Just before this order is read, counted from 1, a job of that function waits alone, and a round is made.
    LoadAt(u32, &'static [u8]),
    /// This order and each later one is to stop.
    StopAt(u32),
    /// The job's time ends just before its report begins.
    LateBefore,
    /// The job's time ends just after its report began.
    LateAfter,
}

/// A pool as the port of one session.
#[derive(Drop)]
pub struct PoolTestPort {
    /// The pool.
    pub pool: Pool,
    /// What `expire` answered.
    pub expired: Option<Result<(), ExpireError>>,
    /// How many calls of `lose` were made.
    pub losses: u64,
    /// The cause of the last of them.
    pub last_loss: Option<Cause>,
    alloc: Global,
    beside: Beside,
    board: Option<SlotBoard>,
    orders: u32,
    told: Snapshot<Orders>,
    grabs: u64,
    begins: u64,
    reports: u64,
    last_answer: Option<PortAnswer>,
}

/// Makes a round in which one job of this function waits and no other. Where memory is refused it makes none.
pub fn order_work(alloc: Global, pool: &mut Pool, function: &[u8]) -> Option<()> {
    let mut load = Load::new(alloc);
    load.set(function, 1, 0, 0).ok()?;
    pool.load(load).ok()?;
    pool.round().ok()?;
    Some(())
}

/// The order, as it is read from the board once it was posted there, if there is a board.
fn read_back(board: &mut Option<SlotBoard>, order: Order) -> Order {
    match board {
        Some(board) => board.pass_on(order),
        None => order,
    }
}

impl PoolTestPort {
    /// The port of a session that has not begun. With a board the session reads its orders there, to which they are posted.
    pub fn new(alloc: Global, pool: Pool, beside: Beside, board: Option<SlotBoard>) -> PoolTestPort
        ensures { ⟦<PoolTestPort as PoolPort>⟧.book result ≡ no_calls }
    {
        PoolTestPort {
            pool,
            expired: None,
            losses: 0,
            last_loss: None,
            alloc,
            beside,
            board,
            orders: 0,
            told: Snapshot::of(&Orders::New),
            grabs: 0,
            begins: 0,
            reports: 0,
            last_answer: None,
        }
    }

    /// What the pool orders now.
    fn order_now(&mut self, pass: &Pass) -> Order
        ensures { ⟦<PoolTestPort as PoolPort>⟧.book self.new ≡ ⟦<PoolTestPort as PoolPort>⟧.book self.old }
    {
        self.orders = self.orders.saturating_add(1);
        let name = pass.name();
        if let Beside::LoadAt(at, function) = self.beside {
            if at == self.orders {
                let _made = order_work(self.alloc, &mut self.pool, function);
            }
        }
        if name.slot.number() >= self.pool.slots() {
            return Order::NONE;
        }
        let order = read_back(&mut self.board, self.pool.order(name.slot));
        match self.beside {
            Beside::StopAt(at) if at <= self.orders => Order {
                what: What::Stop,
                ..order
            },
            _ => order,
        }
    }

    /// The job's deadline.
    fn expire(&mut self, pass: &Pass)
        ensures { ⟦<PoolTestPort as PoolPort>⟧.book self.new ≡ ⟦<PoolTestPort as PoolPort>⟧.book self.old }
    {
        let name = pass.name();
        if name.slot.number() < self.pool.slots() {
            self.expired = Some(self.pool.expire(name.slot, name.generation, 60_000));
        }
    }
}

impl PoolPort for PoolTestPort {
    ghost use Rattle.job_runner.specs.Book.{Ledger};
    ghost use Rattle.tests_job_runner.specs.Orders.{orders_of};

    ghost book = { λ p. record {
      grabs = p.grabs;
      begins = p.begins;
      reports = p.reports;
      losses = p.losses;
      last_loss = p.last_loss;
      orders = orders_of p.told.value;
      last_answer = p.last_answer;
    } };

    fn order(&mut self, pass: &Pass) -> Order {
        let order = self.order_now(pass);
        note(&mut self.told, order);
        self.last_answer = Some(PortAnswer::Ordered(order));
        order
    }

    fn grab(
        &mut self,
        pass: &Pass,
        handle: Handle,
        function: &[u8],
    ) -> Result<Ticket, GrabRefusal> {
        match self.pool.grab(pass, handle, function, 0) {
            Ok(ticket) => {
                self.grabs += 1;
                self.last_answer = Some(PortAnswer::Grabbed(ticket));
                Ok(ticket)
            }
            Err(GrabError::HistoryFull) => {
                self.last_answer = Some(PortAnswer::HistoryFull);
                Err(GrabRefusal::HistoryFull)
            }
            Err(GrabError::Memory) => {
                self.last_answer = Some(PortAnswer::Memory);
                Err(GrabRefusal::Memory)
            }
            Err(_) => {
                self.last_answer = Some(PortAnswer::Gone);
                Err(GrabRefusal::Gone)
            }
        }
    }

    fn begin_report(&mut self, pass: &Pass, ticket: Ticket) -> Result<(), Gone> {
        if matches!(self.beside, Beside::LateBefore) {
            self.expire(pass);
        }
        let Ok(()) = self.pool.begin_report(pass, ticket) else {
            self.last_answer = Some(PortAnswer::Gone);
            return Err(Gone);
        };
        if matches!(self.beside, Beside::LateAfter) {
            self.expire(pass);
        }
        self.begins += 1;
        self.last_answer = Some(PortAnswer::Began);
        Ok(())
    }

    fn reported(
        &mut self,
        pass: &Pass,
        ticket: Ticket,
        end: EndKind,
    ) -> Result<StayOrRetire, Gone> {
        match self.pool.reported(pass, ticket, end) {
            Ok(StayOrRetire::Stay) => {
                self.reports += 1;
                self.last_answer = Some(PortAnswer::Stay);
                Ok(StayOrRetire::Stay)
            }
            Ok(StayOrRetire::Retire) => {
                self.reports += 1;
                self.last_answer = Some(PortAnswer::Retire);
                Ok(StayOrRetire::Retire)
            }
            Err(_) => {
                self.last_answer = Some(PortAnswer::Gone);
                Err(Gone)
            }
        }
    }

    fn lose(&mut self, pass: Pass, cause: Cause) {
        self.losses += 1;
        self.last_loss = Some(cause);
        let _lost = self.pool.lose(pass, cause);
    }
}
