//! A list that grows at its end and is forgotten from its start.
ghost use Rattle.std.specs.Prelude.{◌≡◌, ◌+◌, ◌-◌, ◌^◌, ◌<◌, ◌≤◌, ◌↔◌, [], ◌∷◌, ◌++◌, length, slice_set, slice_index_or};
ghost use Rattle.std.specs.Prelude.{IfSome, IfNone, IsSome, OnOk};
ghost use Rattle.std.specs.VecDeque.{deque_len, deque_capacity};

use crate::past::Past;
use std::alloc::{AllocError, Global};
use std::collections::VecDeque;
use std::marker::Model;

#[cfg(test)]
mod tests;

/// The room that is kept, however few items are.
const LEAST_ROOM: usize = 64;

/// A list that grows at its end, and whose first items may be forgotten. The others keep their places then, and the room for the
/// forgotten ones is given back. Each call takes constant time on average.
///
/// Clauses see it as all items that ever were in it, with how many of the first are forgotten, and the room for more (`Long`).
#[derive(Drop)]
pub struct LongList<T> {
    past: Past<T>,
    forgotten: u64,
    kept: VecDeque<T>,
}

impl<T> Model for LongList<T> {
    ghost use Rattle.std.specs.Prelude.{◌≡◌, ◌+◌, ◌-◌, ◌^◌, ◌<◌, ◌++◌, length};
    ghost use Rattle.std.specs.VecDeque.{deque_len, deque_capacity};
    ghost use Rattle.long_list.specs.Long.{Long};

    ghost Value = { Long T };

    ghost view = { λ l. record {
      items = l.past.items ++ l.kept.items;
      forgotten = l.forgotten;
      room = deque_capacity l.kept - deque_len l.kept;
    } };

    ghost invariant = { λ l. (l.forgotten ≡ length l.past.items) × (l.forgotten + deque_len l.kept < 2 ^ 64) };
}

impl<T> LongList<T> {
    /// A list that never had an item.
    pub fn new(alloc: Global) -> LongList<T>
        ensures items { result.items ≡ [] }
        ensures forgotten { result.forgotten ≡ 0 }
    {
        LongList {
            past: Past::new(),
            forgotten: 0,
            kept: VecDeque::new(alloc),
        }
    }

    /// How many items ever were in it.
    pub fn len(&self) -> u64
        ensures { result ≡ length self.now.items }
    {
        self.forgotten + self.kept.len() as u64
    }

    /// How many of the first are forgotten.
    pub fn forgotten(&self) -> u64
        ensures { result ≡ self.now.forgotten }
    {
        self.forgotten
    }

    /// The item at a place, if it is kept.
    pub fn get(&self, at: u64) -> Option<&T>
        ensures variant { IsSome result ↔ ((self.now.forgotten ≤ at) × (at < length self.now.items)) }
        ensures value { IfSome result (λ x. x.now ≡ slice_index_or self.now.items at x.now) }
    {
        if at < self.forgotten {
            return None;
        }
        self.kept.get((at - self.forgotten) as usize)
    }

    /// Writes over the item at a place, which has to be kept.
    pub fn put(&mut self, at: u64, to: T)
    where
        T: Drop,
        requires kept { self.old.forgotten ≤ at }
        requires within { at < length self.old.items }
        ensures items { self.new.items ≡ slice_set self.old.items at to }
        ensures forgotten { self.new.forgotten ≡ self.old.forgotten }
        ensures room { self.new.room ≡ self.old.room }
    {
        self.kept[(at - self.forgotten) as usize] = to;
    }

    /// Makes room for so many more. If memory is refused, all stays as it is.
    pub fn reserve(&mut self, count: usize) -> Result<(), AllocError>
        ensures items { self.new.items ≡ self.old.items }
        ensures forgotten { self.new.forgotten ≡ self.old.forgotten }
        ensures room { OnOk result (count ≤ self.new.room) }
    {
        self.kept.reserve(count)
    }

    /// One more at the end, where there is room.
    pub fn push_reserved(&mut self, last: T)
        requires room { 0 < self.old.room }
        requires fits { length self.old.items + 1 < 2 ^ 64 }
        ensures items { self.new.items ≡ self.old.items ++ last ∷ [] }
        ensures forgotten { self.new.forgotten ≡ self.old.forgotten }
        ensures room { self.new.room + 1 ≡ self.old.room }
    {
        self.kept.push_back_reserved(last);
    }

    /// Forgets the first item that is kept, and hands it out. If less than a quarter of the room is used then, half of the room is given
    /// back.
    pub fn forget(&mut self) -> Option<T>
        ensures variant { IsSome result ↔ (self.old.forgotten < length self.old.items) }
        ensures value { IfSome result (λ x. x ≡ slice_index_or self.old.items self.old.forgotten x) }
        ensures items { self.new.items ≡ self.old.items }
        ensures forgotten { IfSome result (λ x. self.new.forgotten ≡ self.old.forgotten + 1) }
        ensures room { IfSome result (λ x. self.new.room ≤ self.old.room + 1) }
        ensures none { IfNone result (self.new ≡ self.old) }
    {
        let first = self.kept.pop_front()?;
        self.past = self.past.with(&first);
        self.forgotten += 1;
        give_back(&mut self.kept);
        Some(first)
    }
}

/// Gives half of the room back if less than a quarter of it is used. If the smaller block is refused, the room stays.
fn give_back<T>(kept: &mut VecDeque<T>)
    ensures items { kept.new.items ≡ kept.old.items }
    ensures len { deque_len kept.new ≡ deque_len kept.old }
    ensures capacity { deque_capacity kept.new ≤ deque_capacity kept.old }
{
    let capacity = kept.capacity();
    if LEAST_ROOM < capacity && kept.len() < capacity / 4 {
        kept.shrink_to(capacity / 2);
    }
}
