//! The seats of a board. Each is bound to its board, none can be copied, and only a board makes them.

use crate::view::View;
use atomic_table::Seat;
use plan_model::SlotId;
use std::marker::Model;

/// The right to post to a board. There is one for each board.
///
/// Contracts see its board and all that was posted to it, the oldest first.
#[derive(Drop)]
pub struct PublisherSeat {
    pub(crate) seat: Seat<(), View>,
}

impl Model for PublisherSeat {
    ghost use Rattle.std.specs.Prelude.{◌≡◌, []};
    ghost use Rattle.order_board.specs.Seats.{PublisherParts};
    ghost use Rattle.order_board.specs.Rule.{publisher, posts_in};

    ghost Value = { PublisherParts };

    ghost view = { λ s. record { board = s.seat.table_id; posts = posts_in s.seat.me.0 } };

    ghost invariant = { λ s. s.seat.me ≡ (publisher (posts_in s.seat.me.0), []) };
}

/// The right to make reader seats of a board, and to take them back. There is one for each board.
///
/// Contracts see its board.
#[derive(Drop)]
pub struct SeatSource {
    pub(crate) seat: Seat<(), View>,
}

impl Model for SeatSource {
    ghost use Rattle.std.specs.Prelude.{◌≡◌, []};
    ghost use Rattle.order_board.specs.Seats.{SourceParts, source_code};
    ghost use Rattle.order_board.specs.Rule.{source};

    ghost Value = { SourceParts };

    ghost coded = { source_code };

    ghost view = { λ s. record { board = s.seat.table_id } };

    ghost invariant = { λ s. s.seat.me ≡ (source, []) };
}

/// The right to read one slot of a board.
///
/// Contracts see its board, its slot, and what it has seen of the slot's posts, the oldest first.
#[derive(Drop)]
pub struct ReaderSeat {
    pub(crate) seat: Seat<(), View>,
    pub(crate) slot: SlotId,
}

impl Model for ReaderSeat {
    ghost use Rattle.std.specs.Prelude.{◌≡◌, ◌<◌, []};
    ghost use Rattle.order_board.specs.Seats.{ReaderParts};
    ghost use Rattle.order_board.specs.Rule.{reader, seen_in};

    ghost Value = { ReaderParts };

    ghost view = { λ s. record { board = s.seat.table_id; slot = s.slot; seen = seen_in s.seat.me.0 } };

    ghost invariant = { λ s. (s.seat.me ≡ (reader s.slot (seen_in s.seat.me.0), [])) × (s.slot < s.seat.table_id.words) };
}
