//! The tables of a round.

use bumpalo::Bump;
use plan_model::{MachineId, SlotId};

/// Groups of numbers, one after the other: the numbers of group `g` are
/// `items[first[g]..first[g + 1]]`.
#[derive(Clone, Copy)]
pub struct Groups<'p> {
    /// For each group the place of its first number, and last the place after the last group.
    pub first: &'p [usize],
    /// The numbers of one group after the other.
    pub items: &'p [u32],
}

/// The permitted pairs of a function and a worker. All workers of a machine may do the same, so a
/// pair is a machine of the function and a worker of that machine.
#[derive(Clone, Copy)]
pub struct Pairs<'p> {
    /// For each function the machines that may do it, those whose workers are the least wanted first.
    /// No contract speaks of this order.
    pub machines: Groups<'p>,
    /// For each machine its workers, side by side.
    pub workers: Groups<'p>,
}

/// The tables of a planning round, all of them slices of one arena. A worker is its place in the
/// list of live workers.
///
/// The fields are public, since the search moves workers over `owner` and `count` one step at a time;
/// `IsConsistent` says how they fit together, and each call that takes tables asks for it and gives it back.
#[derive(Drop)]
pub struct Tables<'a> {
    /// Where the tables lie, and where the search makes its own.
    pub bump: &'a Bump,
    /// The slot of each worker, in rising order.
    pub slot: &'a [SlotId],
    /// The machine of each worker.
    pub machine: &'a [MachineId],
    /// Which worker may do which function.
    pub pairs: Pairs<'a>,
    /// The greatest number of workers of each function.
    pub most: &'a [u32],
    /// All functions, in the order in which the search serves them: those that the fewest workers may
    /// do first. No contract speaks of this order.
    pub order: &'a [u32],
    /// The function of each worker, or the number of functions if it is idle.
    pub owner: &'a mut [u32],
    /// How many workers are on each function, at most its greatest number, and last how many are idle.
    pub count: &'a mut [u32],
    /// How many pairs have been looked at since the tables were built.
    pub looks: u64,
}
