//! The counts of a pool as a line.

ghost use Rattle.std.specs.Prelude.{◌≡◌, IfOk, string_bytes};
ghost use Rattle.pool_core.specs.Totals as spec;

use crate::answer::Totals;
use std::alloc::{AllocError, Global};
use std::fmt::Write;

/// The counts of a pool in a line, without a line feed: `totals grabbed G running R reported P lost L rounds N events E`. The only
/// error is out of memory.
pub fn totals_line(alloc: Global, totals: Totals) -> Result<String, AllocError>
    ensures { IfOk result (λ s. string_bytes s ≡ spec.totals_line totals) }
{
    let grabbed = totals.grabbed;
    let running = totals.running;
    let reported = totals.reported;
    let lost = totals.lost;
    let rounds = totals.rounds;
    let events = totals.events;
    let mut line = String::new(alloc);
    write!(
        line,
        "totals grabbed {grabbed} running {running} reported {reported}"
    )?;
    write!(line, " lost {lost} rounds {rounds} events {events}")?;
    Ok(line)
}
