//! Orders to workers, and the words of 64 bits that hold them.

ghost use Rattle.std.specs.Prelude.{◌≡◌, ◌<◌, IfSome, IfNone};
ghost use Rattle.worker_state.specs.Orders.{task_number, IsTaskWithin};

use crate::limits::MAX_GENERATION;
use plan_model::FuncId;
use std::marker::Model;

/// How many rounds a word distinguishes, and how many numbers of a task.
const ROUNDS: u64 = 1 << 32;

const TASKS: u64 = 1 << 11;

/// What a worker is to do.
#[derive(Clone, Copy, Debug, PartialEq, Eq)]
pub enum What {
    /// To have no function, and wait.
    Idle,
    /// To do the jobs of a function.
    Work(FuncId),
    /// To end.
    Stop,
}

/// An order to the worker of a slot. It holds for the worker of its generation, and for no other.
///
/// An order is in its ranges wherever it is held, so that each order has a word of 64 bits. Contracts see it as its three parts.
#[derive(Clone, Copy, Debug, PartialEq, Eq)]
pub struct Order {
    /// The generation of the worker, at most 262,143, and 0 before the first.
    pub generation: u32,
    /// The number of the round that gave the order, and 0 before any.
    pub round: u32,
    /// What the worker is to do. A function is below 1,024.
    pub what: What,
}

impl Model for Order {
    ghost use Rattle.worker_state.specs.OrderParts.{OrderParts};

    ghost Value = { OrderParts };

    ghost use Rattle.worker_state.specs.Orders.{HasWord};

    ghost view = { λ o. record { generation = o.generation; round = o.round; what = o.what } };

    ghost inverse = { λ o. record { generation = o.generation; round = o.round; what = o.what } };

    ghost invariant = { λ o. HasWord (record { generation = o.generation; round = o.round; what = o.what }) };
}

impl Order {
    ghost use Rattle.std.specs.Prelude.{◌≡◌, Some, IfSome};
    ghost use Rattle.worker_state.specs.OrderParts.{OrderParts};
    ghost use Rattle.worker_state.specs.Orders.{HasWord, word_of};

    /// The order of a slot that never had a worker.
    pub const NONE: Order = Order {
        generation: 0,
        round: 0,
        what: What::Idle,
    };

    /// The word of the order, by which a board keeps it: bits 0 to 31 are the round, bits 32 to 42 the task (0 for `Idle`,
    /// the function's number and 1 for `Work`, 1,025 for `Stop`), bits 43 to 60 the generation, and bits 61 to 63 are 0.
    pub fn to_word(self) -> u64
        ensures word { result ≡ word_of self }
        ensures ranges { HasWord self }
        ensures alone { (order : OrderParts) → HasWord order → word_of order ≡ result → order ≡ self }
    {
        u64::from(self.round)
            + ROUNDS * number_of(self.what)
            + ROUNDS * TASKS * u64::from(self.generation)
    }

    /// The order that has this word, or `None` if no order has it.
    pub fn of_word(word: u64) -> Option<Order>
        ensures word { IfSome result (λ order. word_of order ≡ word) }
        ensures found { (order : OrderParts) → HasWord order → word_of order ≡ word → result ≡ Some order }
    {
        let generation = word / (ROUNDS * TASKS);
        if generation > u64::from(MAX_GENERATION) {
            return None;
        }
        let what = task_of((word / ROUNDS % TASKS) as u32)?;
        Some(Order {
            generation: generation as u32,
            round: (word % ROUNDS) as u32,
            what,
        })
    }
}

/// The number of a task in a word.
fn number_of(what: What) -> u64
    ensures { result ≡ task_number what }
{
    match what {
        What::Idle => 0,
        What::Work(function) => u64::from(function.number()) + 1,
        What::Stop => 1025,
    }
}

/// The task of a number in a word. No task has a number above 1,025.
fn task_of(number: u32) -> Option<What>
    ensures some { IfSome result (λ what. (task_number what ≡ number) × IsTaskWithin what) }
    ensures none { IfNone result (1025 < number) }
{
    match number {
        0 => Some(What::Idle),
        1025 => Some(What::Stop),
        number if number < 1025 => Some(What::Work(FuncId::new(number - 1))),
        _ => None,
    }
}
