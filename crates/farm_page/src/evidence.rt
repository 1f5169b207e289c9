//! The evidence of a plan, as texts.

ghost use Rattle.std.specs.Prelude.{◌≡◌, ◌++◌, IfOk, OnOk};
ghost use Rattle.farm_page.specs.Evidence as spec;

use crate::view::{Evidence, RelaxedPlan, SizeView};
use crate::writing::{put_bytes, put_number, put_text};
use std::alloc::{AllocError, Global};

/// Adds the workers that were not alive, each after a space.
fn put_lost(out: &mut Vec<u8>, lost: &[String]) -> Result<(), AllocError>
    ensures { OnOk result (out.new.items ≡ out.old.items ++ spec.lost_words lost.now) }
{
    for worker in lost {
        put_text(out, " ")?;
        put_text(out, worker.as_str())?;
    }
    Ok(())
}

/// Adds the line of the workers that were not alive.
fn put_lost_line(out: &mut Vec<u8>, evidence: &Evidence) -> Result<(), AllocError>
    ensures { OnOk result (out.new.items ≡ out.old.items ++ spec.lost_text evidence.now) }
{
    put_text(out, "lost")?;
    put_lost(out, &evidence.lost)?;
    put_text(out, "\n")
}

/// The workers that were not alive, in one line: `lost north/0 north/1`. The only error is out of memory.
pub fn lost_text(alloc: Global, evidence: &Evidence) -> Result<Vec<u8>, AllocError>
    ensures { IfOk result (λ text. text.items ≡ spec.lost_text evidence.now) }
{
    let mut out = Vec::new(alloc);
    put_lost_line(&mut out, evidence)?;
    Ok(out)
}

/// Adds the number of the attempt, and the workers that were not alive, in a line each.
fn put_attempt(out: &mut Vec<u8>, evidence: &Evidence) -> Result<(), AllocError>
    ensures { OnOk result (out.new.items ≡ out.old.items ++ spec.attempt_text evidence.now) }
{
    put_text(out, "attempt ")?;
    put_number(out, u64::from(evidence.attempt))?;
    put_text(out, "\n")?;
    put_lost_line(out, evidence)
}

/// Adds a text after the line that says what it is.
fn put_part(out: &mut Vec<u8>, title: &str, text: &[u8]) -> Result<(), AllocError>
    ensures { OnOk result (out.new.items ≡ out.old.items ++ spec.part title.now text.now) }
{
    put_text(out, title)?;
    put_text(out, "\n")?;
    put_bytes(out, text)
}

/// Adds the settings and the report of a plan that leaves out least numbers.
fn put_plan(out: &mut Vec<u8>, plan: &RelaxedPlan) -> Result<(), AllocError>
    ensures { OnOk result (out.new.items ≡ out.old.items ++ spec.plan_text plan.now) }
{
    put_part(out, "relaxed settings", &plan.settings)?;
    put_part(out, "relaxed report", &plan.report)?;
    Ok(())
}

/// Adds a plan that is in force in place of one that meets all least numbers, if there is one.
fn put_relaxed(out: &mut Vec<u8>, relaxed: &Option<RelaxedPlan>) -> Result<(), AllocError>
    ensures { OnOk result (out.new.items ≡ out.old.items ++ spec.relaxed_text relaxed.now) }
{
    match relaxed {
        Some(plan) => put_plan(out, plan),
        None => Ok(()),
    }
}

/// Adds the text of the size, if there is one.
fn put_size(out: &mut Vec<u8>, size: &SizeView) -> Result<(), AllocError>
    ensures { OnOk result (out.new.items ≡ out.old.items ++ spec.size_part size.now) }
{
    match size {
        SizeView::Text { text, .. } => put_part(out, "size", text),
        SizeView::NotAsked | SizeView::NoRound | SizeView::NoMemory => Ok(()),
    }
}

/// All that a plan can be checked with, beside the settings, in one text. If no plan meets all least numbers, and one that leaves some out
/// is in force, it has that too, with settings that leave them out. At its end is the size, if the services file wants a backlog and there
/// was memory for it. The only error is out of memory.
///
/// ```text
/// attempt 17
/// lost north/0 north/1
/// status
/// ..                        the status text, to its line `.`
/// report
/// ..                        the report, to its line `end`
/// relaxed settings
/// ..                        settings in which some least numbers are 0
/// relaxed report
/// ..                        the report of the plan in force, to its line `end`
/// size
/// ..                        how many workers are missing, to its line `end`
/// ```
pub fn evidence_text(
    alloc: Global,
    evidence: &Evidence,
    relaxed: &Option<RelaxedPlan>,
    size: &SizeView,
) -> Result<Vec<u8>, AllocError>
    ensures { IfOk result (λ text. text.items ≡ spec.evidence_text evidence.now relaxed.now size.now) }
{
    let mut out = Vec::new(alloc);
    put_attempt(&mut out, evidence)?;
    put_part(&mut out, "status", &evidence.status)?;
    put_part(&mut out, "report", &evidence.report)?;
    put_relaxed(&mut out, relaxed)?;
    put_size(&mut out, size)?;
    Ok(out)
}
