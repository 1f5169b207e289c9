//! What a run writes.

ghost use Rattle.std.specs.Prelude.{◌≡◌, ◌^◌, ◌<◌, IfOk, length, string_bytes};
ghost use Rattle.std.specs.List.{list_any};
ghost use Rattle.run_command.specs.Run as spec;

use pool_core::totals_line;
use pool_supervisor::{Attempt, RunEnd, attempt_line};
use std::alloc::{AllocError, Global};
use std::fmt::Write;

/// The lines of all attempts.
fn attempt_lines(alloc: Global, attempts: &[Attempt]) -> Result<String, AllocError>
    requires { length attempts.now < 2 ^ 32 }
    ensures { IfOk result (λ text. string_bytes text ≡ spec.attempt_lines 1 attempts.now) }
{
    let mut text = String::new(alloc);
    for (place, attempt) in attempts.iter().enumerate() {
        let line = attempt_line(alloc, place as u32 + 1, attempt)?;
        writeln!(text, "{line}")?;
    }
    Ok(text)
}

/// All that a run writes.
pub fn run_text(alloc: Global, ended: &RunEnd) -> Result<String, AllocError>
    requires { length ended.now.lines.items < 2 ^ 32 }
    ensures { IfOk result (λ text. string_bytes text ≡ spec.run_text ended.now) }
{
    let mut text = attempt_lines(alloc, &ended.lines)?;
    let chapters = ended.chapters;
    if chapters > 0 {
        writeln!(text, "chapters {chapters}")?;
    }
    let totals = totals_line(alloc, ended.totals)?;
    writeln!(text, "{totals}")?;
    Ok(text)
}

/// Whether it is a round without a plan.
fn has_no_plan(attempt: &Attempt) -> bool
    ensures { result ≡ spec.has_no_plan attempt.now }
{
    matches!(attempt, Attempt::NoPlan { .. })
}

/// Whether some round had no plan.
fn some_lack_a_plan(attempts: &[Attempt]) -> bool
    ensures { result ≡ list_any spec.has_no_plan attempts.now }
{
    attempts.iter().any(|attempt| has_no_plan(attempt))
}

/// 1 if some round had no plan, and else 0.
pub fn status_after(attempts: &[Attempt]) -> u8
    ensures { result ≡ spec.status_after attempts.now }
{
    if some_lack_a_plan(attempts) { 1 } else { 0 }
}
