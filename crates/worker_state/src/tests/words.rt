//! A change of function, as gearmand was seen to take it, and the words of orders.
ghost use Rattle.std.specs.Prelude.{◌≤◌};
ghost use Rattle.worker_state.specs.Limits.{max_generation};
ghost use Rattle.worker_state.specs.Orders.{IsTaskWithin};

use crate::{Cause, MAX_GENERATION, MAX_ROUNDS, Order, What, change};
use gear_packets::encode;
use plan_model::FuncId;
use refusal::Labelled;
use std::test::Fail;

#[test]
fn a_change_of_function(rt: HostRuntime) -> Result<(), Fail> {
    let mut text = Vec::new(rt.alloc());
    for request in &change(Some(b"n"), Some(b"o")) {
        if let Some(request) = request {
            text.extend_from_slice(&encode(rt.alloc(), request).ok().ok_or("not spelled")?)?;
        }
    }
    let wanted = b"\0REQ\0\0\0\x02\0\0\0\x01n\0REQ\0\0\0\x01\0\0\0\x01o";
    assert!(rt; text.as_slice() == wanted.as_slice());
    Ok(())
}

#[test]
fn numbers_and_names(rt: HostRuntime) {
    assert_eq!(rt; Cause::BadPacket.label().number(), 3);
    assert_eq!(rt; Cause::Late.label().number(), 12);
    assert_eq!(rt; Cause::WriteFault.label().name(), "WriteFault");
    assert_eq!(rt; Cause::named(b"Closed"), Some(Cause::Closed));
    assert_eq!(rt; Cause::named(b"closed"), None);
}

fn order(generation: u32, round: u32, what: What) -> Order
    requires { (generation ≤ max_generation) × IsTaskWithin what }
{
    Order {
        generation,
        round,
        what,
    }
}

#[test]
fn words_of_orders(rt: HostRuntime) {
    let work = order(1, 1, What::Work(FuncId::new(0)));
    assert_eq!(rt; work.to_word(), 8_800_387_989_505);
    assert_eq!(rt; Order::of_word(8_800_387_989_505), Some(work));
    assert_eq!(rt; Order::NONE.to_word(), 0);
    assert_eq!(rt; Order::of_word(0), Some(Order::NONE));
    let last = order(MAX_GENERATION, MAX_ROUNDS, What::Stop);
    assert_eq!(rt; last.to_word(), 2_305_838_619_757_117_439);
    assert_eq!(rt; Order::of_word(2_305_838_619_757_117_439), Some(last));
}

#[test]
fn words_of_no_order(rt: HostRuntime) {
    // a task of the number 1,026, and each of the three bits above the generation
    assert_eq!(rt; Order::of_word(1026 << 32), None);
    assert_eq!(rt; Order::of_word(1 << 61), None);
    assert_eq!(rt; Order::of_word(1 << 62), None);
    assert_eq!(rt; Order::of_word(1 << 63), None);
}
