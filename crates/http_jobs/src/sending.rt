//! A request, as it is sent.

ghost use Rattle.std.specs.Prelude.{◌≡◌, ◌++◌, ◌≤◌, ◌<◌, ◌+◌, ◌-◌, ◌^◌, ℕ, List, Option, length, take, IfErr, IfOk, OnOk};
ghost use Rattle.byte_io.specs.Sides.{and_then, HasText};
ghost use Rattle.http_jobs.specs.Clock.{InTime, shown_then};
ghost use Rattle.http_jobs.specs.Reasons.{NotSent};

use crate::clock::{Clock, is_late};
use crate::look::Look;
use byte_io::{Sink, is_past};

/// Why bytes were not sent, or only a prefix of them.
#[derive(Clone, Copy, Debug, PartialEq, Eq)]
pub enum Unsent {
    /// A write failed, before the deadline.
    Write,
    /// The deadline came.
    Late,
}

/// Lets the next write wait until the deadline, and no longer. Without a deadline, or if the time is not known, writes wait as long as
/// before.
fn limit_write<L: Look>(link: &mut L, deadline: Option<u64>, now: Option<u64>)
    ensures input { L.input link.new ≡ L.input link.old }
    ensures output { L.output link.new ≡ L.output link.old }
{
    if let (Some(deadline), Some(now)) = (deadline, now) {
        // Zero would be no limit.
        link.limit_writes(deadline.saturating_sub(now).max(1));
    }
}

/// Writes all the bytes, in as many writes as the sink needs. Before each write it looks at the clock, and lets it wait until the deadline.
/// After one that failed it looks again: if the deadline has come by then, the error is `Late`. If a write fails or the deadline has come,
/// a prefix of them has gone out, and nothing is written after it.
pub fn send<L: Sink + Look, C: Clock>(
    link: &mut L,
    clock: &mut C,
    deadline: Option<u64>,
    bytes: &[u8],
) -> Result<(), Unsent>
    requires count { (L.output link.old).failures < 2 ^ 64 - 1 }
    ensures sent { OnOk result (HasText (L.output link.old) bytes.now (L.output link.new)) }
    ensures prefix { (count : ℕ) × ((L.output link.new).got ≡ and_then (L.output link.old).got (take count bytes.now)) }
    ensures why { (times : List (Option ℕ)) × (C.shown clock.new ≡ shown_then (C.shown clock.old) times)
        × OnOk result (InTime deadline times) × IfErr result (NotSent deadline times (L.output link.old) (L.output link.new)) }
    ensures input { L.input link.new ≡ L.input link.old }
{
    let mut count = 0;
    while count < bytes.len() {
        let now = clock.now_ms();
        if is_past(deadline, now) {
            return Err(Unsent::Late);
        }
        limit_write(link, deadline, now);
        match link.give(&bytes[count..]) {
            Ok(n) => count += n,
            Err(_) => {
                // Such as a write that waited for all the time that was left.
                if is_late(clock, deadline) {
                    return Err(Unsent::Late);
                }
                return Err(Unsent::Write);
            }
        }
    }
    Ok(())
}

/// Writes of the bytes what there is room for now, in as many writes as the sink needs, and says how many that are. Before each write it
/// looks at the clock, and after one that failed it looks again: if the deadline has come by then, the error is `Late`. If a write fails or
/// the deadline has come, a prefix of them has gone out.
pub fn send_what_fits<L: Look, C: Clock>(
    link: &mut L,
    clock: &mut C,
    deadline: Option<u64>,
    bytes: &[u8],
) -> Result<usize, Unsent>
    requires count { (L.output link.old).failures < 2 ^ 64 - 1 }
    ensures within { IfOk result (λ n. n ≤ length bytes.now) }
    ensures sent { IfOk result (λ n. HasText (L.output link.old) (take n bytes.now) (L.output link.new)) }
    ensures prefix { (count : ℕ) × ((L.output link.new).got ≡ and_then (L.output link.old).got (take count bytes.now)) }
    ensures why { (times : List (Option ℕ)) × (C.shown clock.new ≡ shown_then (C.shown clock.old) times)
        × OnOk result (InTime deadline times) × IfErr result (NotSent deadline times (L.output link.old) (L.output link.new)) }
    ensures input { L.input link.new ≡ L.input link.old }
{
    let mut count = 0;
    while count < bytes.len() {
        if is_late(clock, deadline) {
            return Err(Unsent::Late);
        }
        match link.give_at_once(&bytes[count..]) {
            Ok(Some(n)) => count += n,
            Ok(None) => return Ok(count),
            Err(_) => {
                if is_late(clock, deadline) {
                    return Err(Unsent::Late);
                }
                return Err(Unsent::Write);
            }
        }
    }
    Ok(count)
}
