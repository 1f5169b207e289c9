//! Spare workers, moved to where they help most.

ghost use Rattle.std.specs.Prelude.{◌≡◌, ◌+◌, ◌*◌, ◌^◌, ◌<◌, ◌≤◌, length, slice_index, IfSome, IsTrue};
ghost use Rattle.plan_model.specs.Planning.{IsInstance, may_do, need};
ghost use Rattle.round_arena.specs.Input.{pair_count};
ghost use Rattle.round_arena.specs.Plan.{pair_total};
ghost use Rattle.round_arena.specs.Round.{IsConsistent, SamePairs};
ghost use Rattle.level_search.specs.Filled.{IsFull};
ghost use Rattle.level_search.specs.Levels.{AreMet, Fits};
ghost use Rattle.level_search.specs.Paid.{passes_at};
ghost use Rattle.level_search.specs.declared.previous.Origin.TheVariants.{Previous};
ghost use Rattle.level_search.specs.Spread.{IsSettled, LeavesNobody, row_length};

use crate::fill::fill_idle;
use crate::previous::Origin;
use plan_model::{FuncId, Input, MachineId, TOP_LEVEL};
use round_arena::Tables;

// What waits for a function, and how many workers it has.
#[derive(Clone, Copy)]
struct Queue {
    jobs: u32,
    workers: u32,
}

// Whether each worker of one queue has more waiting jobs than each of the other. A queue without workers has more than any with some.
fn exceeds(one: Queue, other: Queue) -> bool {
    u64::from(one.jobs) * u64::from(other.workers) > u64::from(other.jobs) * u64::from(one.workers)
}

// Whether each worker of one queue has at least twice the waiting jobs of each of the other.
fn is_twice(one: Queue, other: Queue) -> bool {
    u64::from(one.jobs) * u64::from(other.workers) / 2
        >= u64::from(other.jobs) * u64::from(one.workers)
}

// Whether the queue may have one more worker, and exceeds the other.
fn is_better(queue: Queue, other: Queue, most: u32) -> bool
    ensures { IsTrue result → queue.workers < most }
{
    queue.workers < most && exceeds(queue, other)
}

fn queue_of(input: &Input, tables: &Tables, function: u32) -> Queue
    requires function { function < length input.now.least }
    requires counts { length tables.now.count.now ≡ length input.now.least + 1 }
    ensures { result.workers ≡ slice_index tables.now.count.now function }
{
    Queue {
        jobs: input.waiting()[function as usize],
        workers: tables.count[function as usize],
    }
}

// The function of the machine below its greatest number that has the most waiting jobs for each worker, the first of equals.
fn busiest(input: &Input, tables: &Tables, machine: MachineId) -> Option<u32>
    requires instance { IsInstance input.now }
    requires machine { machine < length input.now.may }
    requires counts { length tables.now.count.now ≡ length input.now.least + 1 }
    requires limits { length tables.now.most.now ≡ length input.now.least }
    ensures known { IfSome result (λ f. f < length input.now.least) }
    ensures permitted { IfSome result (λ f. IsTrue (may_do input.now machine f)) }
    ensures room { IfSome result (λ f. slice_index tables.now.count.now f < slice_index tables.now.most.now f) }
{
    let mut choice: Option<u32> = None;
    let mut best = Queue {
        jobs: 0,
        workers: 1,
    };
    for function in input.permitted(machine) {
        let number = function.number();
        let queue = queue_of(input, tables, number);
        if is_better(queue, best, tables.most[number as usize]) {
            choice = Some(number);
            best = queue;
        }
    }
    choice
}

// Whether the worker's function has more workers than it needs at the level, and nobody idle could take his place.
fn is_spare(input: &Input, tables: &Tables, level: u64, function: u32) -> bool
    requires function { function < length input.now.least }
    requires counts { length tables.now.count.now ≡ length input.now.least + 1 }
    requires limits { length tables.now.most.now ≡ length input.now.least }
    ensures spare { IsTrue result → need input.now level function < slice_index tables.now.count.now function }
    ensures free { IsTrue result → LeavesNobody (length input.now.least) tables.now function }
{
    let count = tables.count[function as usize];
    count > input.need(level, FuncId::new(function))
        && (count < tables.most[function as usize] || tables.count[input.functions()] == 0)
}

// If the worker is spare, and some function that he may do has twice the waiting jobs for each worker, he goes there.
fn move_worker(tables: &mut Tables, input: &Input, level: u64, w: usize)
    requires settled { IsSettled input.now level tables.old }
    requires instance { IsInstance input.now }
    requires worker { w < length tables.old.owner.now }
    requires looks { tables.old.looks + row_length input.now (slice_index tables.old.machine.now w) < 2 ^ 64 }
    ensures settled { IsSettled input.now level tables.new }
    ensures same { SamePairs tables.old tables.new }
    ensures looks { tables.new.looks ≤ tables.old.looks + row_length input.now (slice_index tables.old.machine.now w) }
    ensures more { tables.old.looks ≤ tables.new.looks }
{
    let from = tables.owner[w];
    if from as usize == input.functions() || !is_spare(input, tables, level, from) {
        return;
    }
    tables.looks += input.permitted(tables.machine[w]).len() as u64;
    if let Some(to) = busiest(input, tables, tables.machine[w]) {
        if to != from && is_twice(queue_of(input, tables, to), queue_of(input, tables, from)) {
            tables.owner[w] = to;
            tables.count[from as usize] -= 1;
            tables.count[to as usize] += 1;
        }
    }
}

/// Moves workers whom no need holds at the level to the function that they may do, below its greatest number, with the most waiting
/// jobs for each worker, if that has at least twice as many as the one they leave.
///
/// One worker after the other, by rising slot. It looks at each permitted pair at most once. The tables still serve the level, and
/// still leave nobody idle for nothing.
pub fn spread(tables: &mut Tables, input: &Input, level: u64)
    requires settled { IsSettled input.now level tables.old }
    requires looks { tables.old.looks + pair_count input.now < 2 ^ 64 }
    ensures settled { IsSettled input.now level tables.new }
    ensures same { SamePairs tables.old tables.new }
    ensures looks { tables.new.looks ≤ tables.old.looks + pair_count input.now }
    ensures more { tables.old.looks ≤ tables.new.looks }
{
    input.facts();
    for w in 0..tables.owner.len() {
        move_worker(tables, input, level, w);
    }
}

/// Gives idle workers something to do. If that moves nobody from the plan before, it stays as it is; else spare workers are sent where
/// they help.
///
/// At the top level nobody is moved: there some function with the greatest number of waiting jobs has no worker at all.
pub fn settle(tables: &mut Tables, input: &Input, level: u64, origin: Origin)
    requires sound { IsConsistent (length input.now.least) tables.old }
    requires fits { Fits input.now tables.old }
    requires met { AreMet input.now tables.old.owner.now level }
    requires pairs { pair_total tables.old.pairs ≡ pair_count input.now }
    requires staff { length tables.old.owner.now + 1 < 2 ^ 32 }
    requires looks { tables.old.looks + 2 * pair_total tables.old.pairs < 2 ^ 64 }
    ensures settled { IsSettled input.now level tables.new }
    ensures same { SamePairs tables.old tables.new }
    ensures kept { origin ≡ Previous → IsFull (length input.now.least) tables.old → tables.new.owner.now ≡ tables.old.owner.now }
    ensures looks { tables.new.looks ≤ tables.old.looks + passes_at level * pair_total tables.old.pairs }
    ensures more { tables.old.looks + pair_total tables.old.pairs ≤ tables.new.looks }
{
    let functions = input.functions();
    let idle = tables.count[functions];
    fill_idle(tables, functions as u32);
    let is_kept = match origin {
        Origin::Previous => tables.count[functions] == idle,
        Origin::Search => false,
    };
    if !is_kept && level < TOP_LEVEL {
        spread(tables, input, level);
    }
}
