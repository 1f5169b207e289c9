//! A board and its calls.
ghost use Rattle.std.specs.Prelude.{◌≡◌, ◌↔◌, ◌<◌, ◌≤◌, [], ◌∷◌, ◌++◌, IfOk};
ghost use Rattle.worker_state.specs.Orders.{HasWord, word_of};
ghost use Rattle.worker_state.specs.OrderParts.{OrderParts};
ghost use Rattle.order_board.specs.Rule.{zeros, publisher};

use crate::rule::{BoardRule, Chosen, Looking, Opening, Posting, Reading, Retiring, Seating};
use crate::seat::{PublisherSeat, ReaderSeat, SeatSource};
use crate::view::View;
use atomic_table::{Seat, Table};
use plan_model::{MAX_WORKERS, SlotId};
use refusal::{Label, Labelled};
use std::alloc::{AllocError, Global};
use std::marker::{Brand, Model};
use thiserror::Error;
use worker_state::Order;

/// A board has no more slots than a pool.
const MAX_SLOTS: u32 = MAX_WORKERS as u32;

type Words = Table<(), View, usize, BoardRule, Global>;

/// One word for each slot, which holds the order that was posted to it last, or none.
///
/// A board is shared by reference: the thread that has the [`PublisherSeat`] posts, and each thread that has a [`ReaderSeat`]
/// reads its own slot. Every call returns after one atomic step, whatever other threads do, but [`Board::new`], which alone takes
/// memory.
///
/// Contracts see which board it is, and how many slots it has.
#[derive(Drop)]
pub struct Board {
    table: Words,
    slots: u32,
}

impl Model for Board {
    ghost use Rattle.std.specs.Prelude.{◌≡◌, ◌≤◌, ◌<◌};
    ghost use Rattle.order_board.specs.Seats.{BoardParts, board_code};

    ghost Value = { BoardParts };

    ghost coded = { board_code };

    ghost view = { λ b. record { id = b.table.shared.table_id; slots = b.slots } };

    ghost invariant = { λ b.
        (b.table.shared.key ≡ b.table.shared.table_id.words) × (b.slots ≤ b.table.shared.table_id.words)
        × (0 < b.table.shared.table_id.words) × (b.slots ≤ 4096) };
}

/// Why there is no board. If both are true the first is answered.
#[derive(Clone, Copy, Debug, PartialEq, Eq, Error)]
pub enum BoardError {
    /// More than 4,096 slots.
    #[error("more slots than a pool may have")]
    TooMany,
    /// There was no memory.
    #[error("out of memory")]
    Memory,
}

/// The number of a refusal is its place in the list of variants, 1 or 2.
impl Labelled for BoardError {
    ghost use Rattle.order_board.specs.BoardRefusals.{board_label};

    ghost label = { board_label };

    fn label(&self) -> Label {
        match self {
            BoardError::TooMany => Label::new(1, "TooMany"),
            BoardError::Memory => Label::new(2, "Memory"),
        }
    }
}

impl Board {
    ghost use Rattle.std.specs.Prelude.{◌↔◌, ◌≡◌, ◌≢◌, ℕ, [], ◌∷◌, ◌++◌, ◌<◌, ◌≤◌, IfOk};
    ghost use Rattle.order_board.specs.Posts.{post, posts_of, latest, BeginsWith};

    /// A board of so many slots, to which nothing was posted, with the one seat that posts and the one source of reader seats.
    /// It may have 0 slots.
    ///
    /// Refused, in this order, as `TooMany` above 4,096 slots, or `Memory`.
    pub fn new(alloc: Global, slots: u32) -> Result<(Board, PublisherSeat, SeatSource), BoardError>
        ensures slots { IfOk result (λ made. made.0.slots ≡ slots) }
        ensures publisher { IfOk result (λ made. (made.1.board ≡ made.0.id) × (made.1.posts ≡ [])) }
        ensures source { IfOk result (λ made. made.2.board ≡ made.0.id) }
        ensures too_many { (result ≡ Err BoardError.TooMany) ↔ (4096 < slots) }
    {
        if slots > MAX_SLOTS {
            return Err(BoardError::TooMany);
        }
        // A table has at least one word, which a board of 0 slots does not use.
        let count = slots.max(1) as usize;
        let Ok(made) = empty_words(alloc, count) else {
            return Err(BoardError::Memory);
        };
        let (table, mut seat) = made;
        let source = table.shared.split_seat::<Opening>(&mut seat);
        Ok((
            Board { table, slots },
            PublisherSeat { seat },
            SeatSource { seat: source },
        ))
    }

    /// How many slots the board has, at most 4,096.
    pub fn slots(&self) -> u32
        ensures slots { result ≡ self.now.slots }
        ensures most { result ≤ 4096 }
    {
        self.slots
    }

    /// Posts an order to a slot, as [`Board::post_by`] does.
    pub fn post(&self, mut publisher: PublisherSeat, slot: SlotId, order: Order) -> PublisherSeat
        requires own { publisher.board ≡ self.now.id }
        requires slot { slot < self.now.slots }
        ensures own { result.board ≡ publisher.board }
        ensures posts { result.posts ≡ publisher.posts ++ post slot order ∷ [] }
        ensures here { posts_of slot result.posts ≡ posts_of slot publisher.posts ++ order ∷ [] }
        ensures elsewhere { (other : ℕ) → other ≢ slot → posts_of other result.posts ≡ posts_of other publisher.posts }
    {
        self.post_by(&mut publisher, slot, order);
        publisher
    }

    /// Posts an order to a slot: from now on it is the slot's last, and no other slot's posts change. It is one atomic store.
    pub fn post_by(&self, publisher: &mut PublisherSeat, slot: SlotId, order: Order)
        requires own { publisher.old.board ≡ self.now.id }
        requires slot { slot < self.now.slots }
        ensures own { publisher.new.board ≡ publisher.old.board }
        ensures posts { publisher.new.posts ≡ publisher.old.posts ++ post slot order ∷ [] }
        ensures here { posts_of slot publisher.new.posts ≡ posts_of slot publisher.old.posts ++ order ∷ [] }
        ensures elsewhere { (other : ℕ) → other ≢ slot → posts_of other publisher.new.posts ≡ posts_of other publisher.old.posts }
    {
        self.table.shared.store::<Posting>(
            &mut publisher.seat,
            slot.number() as usize,
            order.to_word(),
        );
    }

    /// The last order that was posted to a slot, as by [`Board::posted_by`].
    pub fn posted(&self, mut publisher: PublisherSeat, slot: SlotId) -> (Order, PublisherSeat)
        requires own { publisher.board ≡ self.now.id }
        requires slot { slot < self.now.slots }
        ensures order { result.0 ≡ latest (posts_of slot publisher.posts) }
        ensures publisher { result.1 ≡ publisher }
    {
        let order = self.posted_by(&mut publisher, slot);
        (order, publisher)
    }

    /// The last order that was posted to a slot, or [`Order::NONE`] if none was. It is one atomic load.
    pub fn posted_by(&self, publisher: &mut PublisherSeat, slot: SlotId) -> Order
        requires own { publisher.old.board ≡ self.now.id }
        requires slot { slot < self.now.slots }
        ensures order { result ≡ latest (posts_of slot publisher.old.posts) }
        ensures publisher { publisher.new ≡ publisher.old }
    {
        let word = self
            .table
            .shared
            .load::<Looking>(&mut publisher.seat, slot.number() as usize);
        order_of(word)
    }

    /// A seat that reads a slot, as by [`Board::seat_reader`].
    pub fn reader(&self, mut source: SeatSource, slot: SlotId) -> (ReaderSeat, SeatSource)
        requires own { source.board ≡ self.now.id }
        requires slot { slot < self.now.slots }
        ensures reader { (result.0.board ≡ source.board) × (result.0.slot ≡ slot) }
        ensures seen { result.0.seen ≡ [] }
        ensures source { result.1 ≡ source }
    {
        let reader = self.seat_reader(&mut source, slot);
        (reader, source)
    }

    /// A seat that reads a slot. It has seen nothing yet. Any number of seats may read one slot.
    pub fn seat_reader(&self, source: &mut SeatSource, slot: SlotId) -> ReaderSeat
        requires own { source.old.board ≡ self.now.id }
        requires slot { slot < self.now.slots }
        ensures reader { (result.board ≡ source.old.board) × (result.slot ≡ slot) }
        ensures seen { result.seen ≡ [] }
        ensures source { source.new ≡ source.old }
    {
        self.seat_reader_at::<Brand>(source, slot)
    }

    fn seat_reader_at<J: Chosen>(&self, source: &mut SeatSource, slot: SlotId) -> ReaderSeat
        requires own { source.old.board ≡ self.now.id }
        requires slot { slot < self.now.slots }
        requires chosen { slot ≡ J.slot }
        ensures reader { (result.board ≡ source.old.board) × (result.slot ≡ slot) }
        ensures seen { result.seen ≡ [] }
        ensures source { source.new ≡ source.old }
    {
        let new = self.table.shared.split_seat::<Seating<J>>(&mut source.seat);
        ReaderSeat { seat: new, slot }
    }

    /// The last order that the seat has seen of its slot's posts, as by [`Board::read_by`].
    pub fn read(&self, mut reader: ReaderSeat) -> (Order, ReaderSeat)
        requires own { reader.board ≡ self.now.id }
        ensures reader { (result.1.board ≡ reader.board) × (result.1.slot ≡ reader.slot) }
        ensures later { BeginsWith result.1.seen reader.seen }
        ensures order { result.0 ≡ latest result.1.seen }
    {
        let order = self.read_by(&mut reader);
        (order, reader)
    }

    /// The last order that the seat has seen of its slot's posts, or [`Order::NONE`] if it has seen none. What it has seen
    /// begins with what it had seen before, so a reader never goes back to an older order. It is one atomic load.
    pub fn read_by(&self, reader: &mut ReaderSeat) -> Order
        requires own { reader.old.board ≡ self.now.id }
        ensures reader { (reader.new.board ≡ reader.old.board) × (reader.new.slot ≡ reader.old.slot) }
        ensures later { BeginsWith reader.new.seen reader.old.seen }
        ensures order { result ≡ latest reader.new.seen }
    {
        let word = self
            .table
            .shared
            .load::<Reading>(&mut reader.seat, reader.slot.number() as usize);
        order_of(word)
    }

    /// Gives a reader's seat back to the source of its board, as [`Board::give_back`] does.
    pub fn retire(&self, reader: ReaderSeat, mut source: SeatSource) -> SeatSource
        requires reader { reader.board ≡ self.now.id }
        requires source { source.board ≡ self.now.id }
        ensures { result ≡ source }
    {
        self.give_back(reader, &mut source);
        source
    }

    /// Gives a reader's seat back to the source of its board.
    pub fn give_back(&self, reader: ReaderSeat, source: &mut SeatSource)
        requires reader { reader.board ≡ self.now.id }
        requires source { source.old.board ≡ self.now.id }
        ensures { source.new ≡ source.old }
    {
        let ReaderSeat {
            seat: given_back,
            slot: _,
        } = reader;
        self.table
            .shared
            .join_seat::<Retiring>(&mut source.seat, given_back);
    }
}

/// So many words that are 0, and their first seat, which is the publisher's.
fn empty_words(alloc: Global, count: usize) -> Result<(Words, Seat<(), View>), AllocError>
    ensures table { IfOk result (λ made. (made.0.shared.table_id.words ≡ count) × (made.0.shared.key ≡ count)) }
    ensures seat { IfOk result (λ made. (made.1.table_id ≡ made.0.shared.table_id) × (made.1.me ≡ (publisher [], []))) }
{
    let words = zero_words(alloc, count)?;
    Table::of_words(alloc, words.as_slice(), &count)
}

fn zero_words(alloc: Global, count: usize) -> Result<Vec<u64>, AllocError>
    ensures { IfOk result (λ words. words.items ≡ zeros count) }
{
    vec![in alloc; 0u64; count]
}

/// The order that has the word.
fn order_of(word: u64) -> Order
    ensures { (order : OrderParts) → HasWord order → word_of order ≡ word → result ≡ order }
{
    match Order::of_word(word) {
        Some(order) => order,
        None => Order::NONE,
    }
}
