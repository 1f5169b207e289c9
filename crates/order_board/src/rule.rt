//! The rule of a board's words, and the four kinds of step that keep it: a store by the publisher; a load, by a reader or by the
//! publisher; a split of the seat source; a join, which gives a reader's seat back.
ghost use Rattle.std.specs.Prelude.{ℕ};

use crate::view::View;
use atomic_table::{Join, Play, Split, TableRule};
use std::marker::{Brand, PhantomData};

/// Each slot's word is that of its last post, or 0; the publisher knows all posts, and each reader a beginning of its slot's.
pub struct BoardRule;

impl TableRule<(), View, usize> for BoardRule {
    ghost use Rattle.order_board.specs.Rule.{IsKept, publisher};
    ghost use Rattle.std.specs.Prelude.{[]};

    ghost holds = { IsKept };

    ghost first = { λ _. publisher [] };
}

/// A store by the publisher.
pub struct Posting;

impl Play<(), View> for Posting {
    ghost use Rattle.order_board.specs.Rule.{Stores};

    ghost then = { Stores };
}

/// A load by a reader.
pub struct Reading;

impl Play<(), View> for Reading {
    ghost use Rattle.order_board.specs.Rule.{ReadsSeat};

    ghost then = { ReadsSeat };
}

/// A load by the publisher.
pub struct Looking;

impl Play<(), View> for Looking {
    ghost use Rattle.order_board.specs.Rule.{Looks};

    ghost then = { Looks };
}

/// The split by which a new board gets its source of reader seats.
pub struct Opening;

impl Split<View> for Opening {
    ghost use Rattle.order_board.specs.Rule.{source};

    ghost left = { λ view. view };

    ghost right = { λ _. source };
}

/// The slot of a new reader's seat. Each call picks it.
pub trait Chosen {
    ghost slot: { ℕ };
}

impl Chosen for Brand {
    ghost slot = { 0 };
}

/// The split that makes a reader's seat.
pub struct Seating<J>(PhantomData<J>);

impl<J: Chosen> Split<View> for Seating<J> {
    ghost use Rattle.order_board.specs.Rule.{reader};
    ghost use Rattle.std.specs.Prelude.{[]};

    ghost left = { λ view. view };

    ghost right = { λ _. reader J.slot [] };
}

/// The join that gives a reader's seat back.
pub struct Retiring;

impl Join<View> for Retiring {
    ghost use Rattle.order_board.specs.Rule.{spent};

    ghost both = { λ view _. view };

    ghost spent = { spent };
}
