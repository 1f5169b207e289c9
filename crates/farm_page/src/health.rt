//! Whether a farm is well, for whoever watches it.

ghost use Rattle.std.specs.Prelude.{◌≡◌, IfOk, string_bytes};
ghost use Rattle.farm_page.specs.Health as spec;

use crate::condition::{Condition, condition_of, sentence};
use crate::view::FarmView;
use std::alloc::{AllocError, Global};
use std::fmt::Write;

/// For how many milliseconds an attempt may be late before the farm counts as stuck.
const GRACE_MS: u64 = 60_000;

/// Whether a farm goes on.
#[derive(Clone, Copy, Debug, PartialEq, Eq)]
pub enum FarmPhase {
    /// It makes attempts.
    GoesOn,
    /// It begins no more attempts, and its workers finish their jobs.
    Ends,
}

/// When a farm is looked at.
#[derive(Clone, Copy)]
pub struct Moment {
    /// How many milliseconds ago its last attempt ended.
    pub age_ms: u64,
    /// How many milliseconds are between two attempts.
    pub round_ms: u32,
    /// Whether it goes on.
    pub phase: FarmPhase,
}

impl Moment {
    /// Whether the farm ends.
    pub fn is_ending(self) -> bool
        ensures { result ≡ spec.is_ending self }
    {
        matches!(self.phase, FarmPhase::Ends)
    }

    /// Whether the farm goes on, and its last attempt is older than three rounds.
    pub fn is_late(self) -> bool
        ensures { result ≡ spec.is_late self }
    {
        !self.is_ending() && self.age_ms > 3 * u64::from(self.round_ms)
    }
}

/// Whether the farm goes on, and its last attempt led to a plan and is no older than three rounds.
pub fn is_healthy(view: &FarmView, moment: Moment) -> bool
    ensures { result ≡ spec.is_healthy view.now moment }
{
    view.outcome.has_plan() && !moment.is_late() && !moment.is_ending()
}

/// Whether the farm makes attempts, or ends: its last attempt ended no longer ago than three rounds and a minute. A job server that is
/// silent makes attempts late, and a restart does not mend it: a minute is longer than it can keep one.
pub fn is_live(moment: Moment) -> bool
    ensures { result ≡ spec.is_live moment }
{
    moment.is_ending() || moment.age_ms <= 3 * u64::from(moment.round_ms) + GRACE_MS
}

/// How a farm is at a moment: to be watched if it ends, and bad if its last attempt is late.
pub fn condition_at(view: &FarmView, moment: Moment) -> Condition
    ensures { result ≡ spec.condition_at view.now moment }
{
    if moment.is_ending() {
        return Condition::Watch;
    }
    if moment.is_late() {
        Condition::Bad
    } else {
        condition_of(view)
    }
}

/// That no attempt ended for so long.
fn late_words(alloc: Global, age_ms: u64) -> Result<String, AllocError>
    ensures { IfOk result (λ words. string_bytes words ≡ spec.late_words age_ms) }
{
    let mut words = String::new(alloc);
    write!(words, "No attempt ended in the last {age_ms} ms")?;
    Ok(words)
}

/// How a farm is at a moment, in one sentence without a full stop: the farm's own, or that it ends, or that its last attempt is late. The
/// only error is out of memory.
pub fn sentence_at(alloc: Global, view: &FarmView, moment: Moment) -> Result<String, AllocError>
    ensures { IfOk result (λ words. string_bytes words ≡ spec.sentence_at view.now moment) }
{
    if moment.is_ending() {
        return String::from_str(
            alloc,
            "The farm ends: no more attempts begin, and workers finish their jobs",
        );
    }
    if moment.is_late() {
        late_words(alloc, moment.age_ms)
    } else {
        sentence(alloc, view)
    }
}

/// The line that says whether a farm is well: its sentence at the moment. The only error is out of memory.
pub fn health_text(alloc: Global, view: &FarmView, moment: Moment) -> Result<String, AllocError>
    ensures { IfOk result (λ line. string_bytes line ≡ spec.health_text view.now moment) }
{
    let words = sentence_at(alloc, view, moment)?;
    format!(in alloc; "{words}\n")
}
