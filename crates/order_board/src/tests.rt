//! Boards in one thread and in several. No test depends on which thread runs when.
ghost use Rattle.std.specs.Prelude.{◌≡◌, ◌<◌, ◌≤◌};

use super::*;
use plan_model::{FuncId, SlotId};
use std::alloc::Global;
use std::process::Abort;
use std::thread::{Threads, join};
use worker_state::{Order, What};

/// How many rounds the publisher of the threads posts, and how often each reader reads meanwhile.
const ROUNDS: u32 = 20_000;

const READS: u32 = 100_000;

/// A board, asked for once more if memory was refused: `rt try --test --fail-alloc 1..` refuses each allocation of a test in
/// turn, and no test's answer changes.
fn board(rt: &impl Abort, alloc: Global, slots: u32) -> (Board, PublisherSeat, SeatSource)
    requires { slots ≤ 4096 }
    ensures slots { result.0.slots ≡ slots }
    ensures publisher { result.1.board ≡ result.0.id }
    ensures source { result.2.board ≡ result.0.id }
{
    match Board::new(alloc, slots) {
        Ok(made) => made,
        Err(error) => {
            assert_eq!(rt; error, BoardError::Memory);
            Board::new(alloc, slots).expect(rt, "memory")
        }
    }
}

fn work(generation: u32, round: u32, function: u32) -> Order
    requires { (generation ≤ 262143) × (function < 1024) }
{
    Order {
        generation,
        round,
        what: What::Work(FuncId::new(function)),
    }
}

/// Reads by a seat, whose order is to be this.
fn expect_read(rt: &impl Abort, board: &Board, reader: ReaderSeat, wanted: Order) -> ReaderSeat
    requires { reader.board ≡ board.now.id }
    ensures { result.board ≡ reader.board }
{
    let (order, reader) = board.read(reader);
    assert_eq!(rt; order, wanted);
    reader
}

/// Looks at what was posted to a slot last, which is to be this.
fn expect_posted(
    rt: &impl Abort,
    board: &Board,
    publisher: PublisherSeat,
    slot: u32,
    wanted: Order,
) -> PublisherSeat
    requires own { publisher.board ≡ board.now.id }
    requires slot { slot < board.now.slots }
    ensures { result.board ≡ publisher.board }
{
    let (order, publisher) = board.posted(publisher, SlotId::new(slot));
    assert_eq!(rt; order, wanted);
    publisher
}

#[test]
fn reads_what_was_posted(rt: HostRuntime) {
    let (board, publisher, source) = board(&rt, rt.alloc(), 2);
    let (reader, source) = board.reader(source, SlotId::new(0));
    let reader = expect_read(&rt, &board, reader, Order::NONE);
    let publisher = expect_posted(&rt, &board, publisher, 0, Order::NONE);

    let first = work(1, 1, 0);
    assert_eq!(rt; first.to_word(), 8_800_387_989_505);
    let publisher = board.post(publisher, SlotId::new(0), first);
    let reader = expect_read(&rt, &board, reader, first);
    let publisher = expect_posted(&rt, &board, publisher, 0, first);
    let (other, source) = board.reader(source, SlotId::new(1));
    let other = expect_read(&rt, &board, other, Order::NONE);

    let second = work(2, 7, 1023);
    let publisher = board.post(publisher, SlotId::new(0), second);
    let publisher = expect_posted(&rt, &board, publisher, 1, Order::NONE);
    let source = board.retire(reader, source);
    let (late, _source) = board.reader(source, SlotId::new(0));
    let _late = expect_read(&rt, &board, late, second);
    let _other = expect_read(&rt, &board, other, Order::NONE);
    let _publisher = expect_posted(&rt, &board, publisher, 0, second);
}

#[test]
fn limits(rt: HostRuntime) {
    for slots in [4097, u32::MAX] {
        assert!(rt;
            matches!(Board::new(rt.alloc(), slots), Err(BoardError::TooMany)),
            "{slots} slots"
        );
    }
    let (none, _publisher, _source) = board(&rt, rt.alloc(), 0);
    assert_eq!(rt; none.slots(), 0);

    let (all, publisher, source) = board(&rt, rt.alloc(), 4096);
    assert_eq!(rt; all.slots(), 4096);
    let last = SlotId::new(4095);
    let stop = Order {
        generation: 262_143,
        round: u32::MAX,
        what: What::Stop,
    };
    let _publisher = all.post(publisher, last, stop);
    let (reader, _source) = all.reader(source, last);
    let _reader = expect_read(&rt, &all, reader, stop);
}

/// The order of a round in the test of threads. Each slot has a generation of its own, and the function is that of the round.
fn order_of_round(slot: u32, round: u32) -> Order
    requires { slot < 2 }
{
    work(slot + 1, round, (round % 1024 + slot) % 1024)
}

/// Posts an order of each round to both slots.
fn post_rounds(board: &Board, mut publisher: PublisherSeat) -> PublisherSeat
    requires own { publisher.board ≡ board.now.id }
    requires slots { board.now.slots ≡ 2 }
    ensures { result.board ≡ publisher.board }
{
    for round in 1..=ROUNDS {
        publisher = board.post(publisher, SlotId::new(0), order_of_round(0, round));
        publisher = board.post(publisher, SlotId::new(1), order_of_round(1, round));
    }
    publisher
}

/// What a reader met.
#[derive(Clone, Copy, Debug, PartialEq, Eq)]
enum Met {
    /// Only orders that were posted to its slot, none after a later one. The last round that it saw.
    Posted(u32),
    /// An order that was not posted to its slot.
    NotPosted(Order),
    /// An order of an earlier round after one of a later round.
    WentBack(Order),
}

/// Reads a slot again and again.
fn follow(board: &Board, mut reader: ReaderSeat, slot: u32) -> Met
    requires own { reader.board ≡ board.now.id }
    requires slot { slot < 2 }
{
    let mut last = 0u32;
    for _turn in 0..READS {
        let (order, next) = board.read(reader);
        reader = next;
        if order.round < last {
            return Met::WentBack(order);
        }
        if order != Order::NONE && order != order_of_round(slot, order.round) {
            return Met::NotPosted(order);
        }
        last = order.round;
    }
    Met::Posted(last)
}

/// The publisher posts and one reader reads, each in a thread of its own.
fn post_and_follow<R: Threads + Sync>(
    rt: &R,
    board: &Board,
    publisher: PublisherSeat,
    reader: ReaderSeat,
) -> (PublisherSeat, Met)
    requires publisher { publisher.board ≡ board.now.id }
    requires reader { reader.board ≡ board.now.id }
    requires slots { board.now.slots ≡ 2 }
    ensures { result.0.board ≡ publisher.board }
{
    join(
        rt,
        move || -> PublisherSeat
            requires own { publisher.board ≡ board.now.id }
            requires slots { board.now.slots ≡ 2 }
            ensures { result.board ≡ publisher.board }
        { post_rounds(board, publisher) },
        move || -> Met
            requires own { reader.board ≡ board.now.id }
        { follow(board, reader, 0) },
    )
}

/// Two readers, one of each slot, each in a thread of its own.
fn follow_both<R: Threads + Sync>(
    rt: &R,
    board: &Board,
    first: ReaderSeat,
    second: ReaderSeat,
) -> (Met, Met)
    requires first { first.board ≡ board.now.id }
    requires second { second.board ≡ board.now.id }
{
    join(
        rt,
        move || -> Met
            requires own { first.board ≡ board.now.id }
        { follow(board, first, 0) },
        move || -> Met
            requires own { second.board ≡ board.now.id }
        { follow(board, second, 1) },
    )
}

/// A reader met only orders that were posted, none after a later one, whatever the threads' schedule was.
fn is_sound(met: Met) -> bool {
    match met {
        Met::Posted(last) => last <= ROUNDS,
        Met::NotPosted(_) | Met::WentBack(_) => false,
    }
}

#[test]
fn no_order_goes_back(rt: HostRuntime) {
    let (board, publisher, source) = board(&rt, rt.alloc(), 2);
    let (first, source) = board.reader(source, SlotId::new(0));
    let (second, source) = board.reader(source, SlotId::new(0));
    let (third, source) = board.reader(source, SlotId::new(1));
    let shared = &board;
    let handle = &rt;
    let ((publisher, met), (other, third)) = join(
        handle,
        move || -> (PublisherSeat, Met)
            requires publisher { publisher.board ≡ shared.now.id }
            requires reader { first.board ≡ shared.now.id }
            requires slots { shared.now.slots ≡ 2 }
            ensures { result.0.board ≡ publisher.board }
        { post_and_follow(handle, shared, publisher, first) },
        move || -> (Met, Met)
            requires first { second.board ≡ shared.now.id }
            requires second { third.board ≡ shared.now.id }
        { follow_both(handle, shared, second, third) },
    );
    for met in [met, other, third] {
        assert!(rt; is_sound(met), "{met:?}");
    }
    let _publisher = expect_posted(&rt, &board, publisher, 1, order_of_round(1, ROUNDS));
    let (late, _source) = board.reader(source, SlotId::new(0));
    let _late = expect_read(&rt, &board, late, order_of_round(0, ROUNDS));
}
