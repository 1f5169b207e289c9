//! The orders of a pool, posted to its board.
ghost use Rattle.std.specs.Prelude.{◌≡◌, ◌∷◌, ◌<◌, ◌≤◌, [], length};
ghost use Rattle.pool_supervisor.specs.FarmPosts.{plan_order, standing_order, what_by};
ghost use Rattle.pool_supervisor.specs.Published.{ArePosted, live_order, stop_order};

use order_board::{Board, PublisherSeat};
use plan_model::{FuncId, MAX_FUNCTIONS, Plan, SlotId};
use pool_core::Pool;
use worker_state::{Order, What};

/// Posts the order of each live slot, as [`publish_by`] does.
pub fn publish(pool: &Pool, board: &Board, mut publisher: PublisherSeat) -> PublisherSeat
    requires own { publisher.board ≡ board.now.id }
    requires room { length pool.now.state.slots ≤ board.now.slots }
    ensures own { result.board ≡ publisher.board }
    ensures posts { ArePosted (live_order pool.now.state) publisher.posts result.posts }
{
    publish_by(pool, board, &mut publisher);
    publisher
}

/// Posts the order of each live slot, as the pool has it, and nothing else. It waits for nobody and takes no memory: each post is one
/// atomic store.
pub fn publish_by(pool: &Pool, board: &Board, publisher: &mut PublisherSeat)
    requires own { publisher.old.board ≡ board.now.id }
    requires room { length pool.now.state.slots ≤ board.now.slots }
    ensures own { publisher.new.board ≡ publisher.old.board }
    ensures posts { ArePosted (live_order pool.now.state) publisher.old.posts publisher.new.posts }
{
    for number in 0..pool.slots() {
        let slot = SlotId::new(number);
        if pool.slot(slot).is_live() {
            board.post_by(publisher, slot, pool.order(slot));
        }
    }
}

/// What a slot is to do after a plan: its order, which is Idle if no worker is live in it.
fn standing_order(pool: &Pool, slot: SlotId) -> Order
    requires slot { slot < length pool.now.state.slots }
    ensures { standing_order pool.now.state slot ≡ result ∷ [] }
{
    let Order {
        generation,
        round,
        what,
    } = pool.order(slot);
    let what = if pool.slot(slot).is_live() {
        what
    } else {
        What::Idle
    };
    Order {
        generation,
        round,
        what,
    }
}

/// Posts the order of each live slot, as the pool has it, and Idle to each other slot, so that the last order that was posted to a slot is
/// what it had to do under the last plan. Nothing else is posted.
pub fn publish_all_by(pool: &Pool, board: &Board, publisher: &mut PublisherSeat)
    requires own { publisher.old.board ≡ board.now.id }
    requires room { length pool.now.state.slots ≤ board.now.slots }
    ensures own { publisher.new.board ≡ publisher.old.board }
    ensures posts { ArePosted (standing_order pool.now.state) publisher.old.posts publisher.new.posts }
{
    for number in 0..pool.slots() {
        let slot = SlotId::new(number);
        board.post_by(publisher, slot, standing_order(pool, slot));
    }
}

/// What a worker is to do with this function, or without one. A function that no order can name counts as none.
fn what_by(function: Option<FuncId>) -> What
    ensures { result ≡ what_by function }
{
    match function {
        Some(function) if function.number() < MAX_FUNCTIONS as u32 => What::Work(function),
        _ => What::Idle,
    }
}

/// What a plan gives a slot, as an order of the round of this number.
fn plan_order(pool: &Pool, plan: &Plan, round: u32, slot: SlotId) -> Order
    requires slot { slot < length pool.now.state.slots }
    ensures { plan_order plan.now round pool.now.state slot ≡ result ∷ [] }
{
    let Order {
        generation,
        round: _,
        what: _,
    } = pool.order(slot);
    Order {
        generation,
        round,
        what: what_by(plan.function_of(slot)),
    }
}

/// Posts to each slot what the plan gives it, as an order of the round of this number, and nothing else.
pub fn publish_plan_by(
    pool: &Pool,
    board: &Board,
    publisher: &mut PublisherSeat,
    plan: &Plan,
    round: u32,
)
    requires own { publisher.old.board ≡ board.now.id }
    requires room { length pool.now.state.slots ≤ board.now.slots }
    ensures own { publisher.new.board ≡ publisher.old.board }
    ensures posts { ArePosted (plan_order plan.now round pool.now.state) publisher.old.posts publisher.new.posts }
{
    for number in 0..pool.slots() {
        let slot = SlotId::new(number);
        board.post_by(publisher, slot, plan_order(pool, plan, round, slot));
    }
}

/// Posts Stop to the worker of each slot, with the generation and round of the slot's order, and nothing else.
pub fn stop_by(pool: &Pool, board: &Board, publisher: &mut PublisherSeat)
    requires own { publisher.old.board ≡ board.now.id }
    requires room { length pool.now.state.slots ≤ board.now.slots }
    ensures own { publisher.new.board ≡ publisher.old.board }
    ensures posts { ArePosted (stop_order pool.now.state) publisher.old.posts publisher.new.posts }
{
    for number in 0..pool.slots() {
        let slot = SlotId::new(number);
        let Order {
            generation,
            round,
            what: _,
        } = pool.order(slot);
        let stop = Order {
            generation,
            round,
            what: What::Stop,
        };
        board.post_by(publisher, slot, stop);
    }
}
