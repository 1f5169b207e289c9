//! A board with the orders of one worker.
ghost use Rattle.std.specs.Prelude.{◌≡◌, ◌<◌};

use order_board::{Board, PublisherSeat, ReaderSeat};
use plan_model::SlotId;
use std::alloc::Global;
use worker_state::Order;

/// A board of one slot, with the seat that posts to it and one that reads it.
#[derive(Drop)]
pub struct SlotBoard {
    board: Board,
    publisher: PublisherSeat,
    reader: ReaderSeat,
    ghost has_slot: { 0 < board.slots },
    ghost can_post: { publisher.board ≡ board.id },
    ghost can_read: { reader.board ≡ board.id },
}

impl SlotBoard {
    /// A board to which nothing was posted. None if there is no memory.
    pub fn new(alloc: Global) -> Option<SlotBoard> {
        let Ok((board, publisher, source)) = Board::new(alloc, 1) else {
            return None;
        };
        let (reader, _source) = board.reader(source, SlotId::new(0));
        Some(SlotBoard {
            board,
            publisher,
            reader,
        })
    }

    /// Posts an order, and reads the last one.
    pub fn pass_on(&mut self, order: Order) -> Order {
        self.board
            .post_by(&mut self.publisher, SlotId::new(0), order);
        self.board.read_by(&mut self.reader)
    }
}
