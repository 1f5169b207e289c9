//! What a request is answered.

ghost use Rattle.std.specs.Prelude.{◌≡◌, IfOk};
ghost use Rattle.farm_page.specs.Request.{place_asked};
ghost use Rattle.farm_page.specs.Replying as spec;

use crate::answer::{Allowed, Answer, Content, Status};
use crate::evidence::{evidence_text, lost_text};
use crate::health::{Moment, health_text, is_healthy, is_live};
use crate::metrics::metrics_text;
use crate::page::{Refresh, page_text};
use crate::request::{Asked, Place, Refusal, Site, place_asked};
use crate::view::{Evidence, FarmView, RelaxedPlan, SizeView};
use std::alloc::{AllocError, Global};

/// What a request is answered.
#[derive(Drop)]
pub enum Reply {
    /// This answer.
    Told(Answer),
    /// The farm has to end, and the answer is what it came to, once it has.
    Drain,
}

/// A farm at a moment.
#[derive(Clone, Copy)]
pub struct Seen<'f> {
    /// The farm.
    pub farm: &'f FarmView,
    /// The moment.
    pub moment: Moment,
}

/// An answer of one line of words.
fn words(alloc: Global, status: Status, words: &str) -> Result<Answer, AllocError>
    ensures { IfOk result (λ answer. answer ≡ spec.text_of status words.now) }
{
    Ok(Answer {
        status,
        content: Content::Text,
        attempt: None,
        allowed: None,
        body: Vec::from_slice(alloc, words.as_bytes())?,
    })
}

/// The same for a method that may not be used.
fn not_allowed(alloc: Global, allowed: Allowed, words: &str) -> Result<Answer, AllocError>
    ensures { IfOk result (λ answer. answer ≡ spec.not_allowed allowed words.now) }
{
    Ok(Answer {
        status: Status::MethodNotAllowed,
        content: Content::Text,
        attempt: None,
        allowed: Some(allowed),
        body: Vec::from_slice(alloc, words.as_bytes())?,
    })
}

/// The answer of a refusal.
fn refused(alloc: Global, refusal: Refusal) -> Result<Answer, AllocError>
    ensures { IfOk result (λ answer. answer ≡ spec.refused refusal) }
{
    match refusal {
        Refusal::OtherHost => words(
            alloc,
            Status::Forbidden,
            "403: this page has another host\n",
        ),
        Refusal::NoSuchPath => words(alloc, Status::NotFound, "404: there is nothing here\n"),
        Refusal::OnlyRead => not_allowed(alloc, Allowed::Reads, "405: this is only read\n"),
        Refusal::OnlyPosted => not_allowed(alloc, Allowed::Posts, "405: this is only posted to\n"),
        Refusal::NoDrain => words(
            alloc,
            Status::Forbidden,
            "403: a drain comes from this machine, with its header\n",
        ),
    }
}

/// A part of the evidence.
#[derive(Clone, Copy)]
enum Part {
    Whole,
    Report,
    Status,
    Lost,
}

/// The text of a part of the evidence.
fn part_text(
    alloc: Global,
    evidence: &Evidence,
    relaxed: &Option<RelaxedPlan>,
    size: &SizeView,
    part: Part,
) -> Result<Vec<u8>, AllocError>
    ensures { IfOk result (λ text. text.items ≡ spec.part_text part evidence.now relaxed.now size.now) }
{
    match part {
        Part::Whole => evidence_text(alloc, evidence, relaxed, size),
        Part::Report => Vec::from_slice(alloc, &evidence.report),
        Part::Status => Vec::from_slice(alloc, &evidence.status),
        Part::Lost => lost_text(alloc, evidence),
    }
}

/// The answer of a part of the evidence, with the number of its attempt.
fn part_answer(alloc: Global, farm: &FarmView, part: Part) -> Result<Answer, AllocError>
    ensures { IfOk result (λ answer. answer ≡ spec.part_answer part farm.now.evidence farm.now.relaxed farm.now.size) }
{
    let Some(evidence) = &farm.evidence else {
        return words(alloc, Status::Unavailable, "503: there was no round yet\n");
    };
    Ok(Answer {
        status: Status::Ok,
        content: Content::Text,
        attempt: Some(evidence.attempt),
        allowed: None,
        body: part_text(alloc, evidence, &farm.relaxed, &farm.size, part)?,
    })
}

/// A part of the plan that is in force in place of one that meets all least numbers.
#[derive(Clone, Copy)]
enum RelaxedPart {
    Settings,
    Report,
}

/// The text of such a part.
fn relaxed_text(alloc: Global, plan: &RelaxedPlan, part: RelaxedPart) -> Result<Vec<u8>, AllocError>
    ensures { IfOk result (λ text. text.items ≡ spec.relaxed_part part plan.now) }
{
    match part {
        RelaxedPart::Settings => Vec::from_slice(alloc, &plan.settings),
        RelaxedPart::Report => Vec::from_slice(alloc, &plan.report),
    }
}

/// The answer of such a part, with the number of the attempt.
fn relaxed_answer(alloc: Global, farm: &FarmView, part: RelaxedPart) -> Result<Answer, AllocError>
    ensures { IfOk result (λ answer. answer ≡ spec.relaxed_answer part farm.now.evidence farm.now.relaxed) }
{
    let (Some(evidence), Some(plan)) = (&farm.evidence, &farm.relaxed) else {
        return words(
            alloc,
            Status::Unavailable,
            "503: no least numbers are left out\n",
        );
    };
    Ok(Answer {
        status: Status::Ok,
        content: Content::Text,
        attempt: Some(evidence.attempt),
        allowed: None,
        body: relaxed_text(alloc, plan, part)?,
    })
}

/// The answer of the size's text, with the number of its attempt.
fn size_text_answer(alloc: Global, attempt: u32, text: &[u8]) -> Result<Answer, AllocError>
    ensures { IfOk result (λ answer. answer ≡ spec.size_text_answer attempt text.now) }
{
    Ok(Answer {
        status: Status::Ok,
        content: Content::Text,
        attempt: Some(attempt),
        allowed: None,
        body: Vec::from_slice(alloc, text)?,
    })
}

/// The answer of the size: there is nothing if the services file wants no backlog.
fn size_answer(alloc: Global, size: &SizeView) -> Result<Answer, AllocError>
    ensures { IfOk result (λ answer. answer ≡ spec.size_answer size.now) }
{
    match size {
        SizeView::NotAsked => refused(alloc, Refusal::NoSuchPath),
        SizeView::NoRound => words(alloc, Status::Unavailable, "503: there was no round yet\n"),
        SizeView::NoMemory => words(
            alloc,
            Status::Unavailable,
            "503: there was no memory for the size\n",
        ),
        SizeView::Text { attempt, text } => size_text_answer(alloc, *attempt, text),
    }
}

/// The answer of the page.
fn page_answer(alloc: Global, seen: &Seen<'_>, refresh: Refresh) -> Result<Answer, AllocError>
    ensures { IfOk result (λ answer. spec.IsPage seen.now refresh answer) }
{
    Ok(Answer {
        status: Status::Ok,
        content: Content::Page,
        attempt: Some(seen.farm.attempt),
        allowed: None,
        body: page_text(alloc, seen.farm, seen.moment, refresh)?,
    })
}

/// The answer of the metrics.
fn metrics_answer(alloc: Global, seen: &Seen<'_>) -> Result<Answer, AllocError>
    ensures { IfOk result (λ answer. answer ≡ spec.metrics_answer seen.now) }
{
    Ok(Answer {
        status: Status::Ok,
        content: Content::Metrics,
        attempt: Some(seen.farm.attempt),
        allowed: None,
        body: metrics_text(alloc, seen.farm, seen.moment)?,
    })
}

/// An answer that says how the farm is, with 200 if it is as it was asked, and else 503.
fn state_answer(alloc: Global, seen: &Seen<'_>, is_so: bool) -> Result<Answer, AllocError>
    ensures { IfOk result (λ answer. answer ≡ spec.state_answer seen.now is_so) }
{
    let status = if is_so {
        Status::Ok
    } else {
        Status::Unavailable
    };
    let line = health_text(alloc, seen.farm, seen.moment)?;
    words(alloc, status, line.as_str())
}

/// The answer of health.
fn health_answer(alloc: Global, seen: &Seen<'_>) -> Result<Answer, AllocError>
    ensures { IfOk result (λ answer. answer ≡ spec.health_answer seen.now) }
{
    state_answer(alloc, seen, is_healthy(seen.farm, seen.moment))
}

/// The answer of whether the farm makes attempts.
fn live_answer(alloc: Global, seen: &Seen<'_>) -> Result<Answer, AllocError>
    ensures { IfOk result (λ answer. answer ≡ spec.live_answer seen.now) }
{
    state_answer(alloc, seen, is_live(seen.moment))
}

/// What is answered for a place.
fn reply_at(
    alloc: Global,
    seen: &Seen<'_>,
    place: Place,
    refresh: Refresh,
) -> Result<Reply, AllocError>
    ensures { IfOk result (λ reply. spec.RepliesAt seen.now refresh place reply) }
{
    let farm = seen.farm;
    let answer = match place {
        Place::Drain => return Ok(Reply::Drain),
        Place::Page => page_answer(alloc, seen, refresh)?,
        Place::Metrics => metrics_answer(alloc, seen)?,
        Place::Evidence => part_answer(alloc, farm, Part::Whole)?,
        Place::Report => part_answer(alloc, farm, Part::Report)?,
        Place::Status => part_answer(alloc, farm, Part::Status)?,
        Place::Lost => part_answer(alloc, farm, Part::Lost)?,
        Place::RelaxedSettings => relaxed_answer(alloc, farm, RelaxedPart::Settings)?,
        Place::RelaxedReport => relaxed_answer(alloc, farm, RelaxedPart::Report)?,
        Place::Size => size_answer(alloc, &farm.size)?,
        Place::Health => health_answer(alloc, seen)?,
        Place::Live => live_answer(alloc, seen)?,
    };
    Ok(Reply::Told(answer))
}

/// What a request is answered, of a farm at a moment: what it asks for, or its refusal. The report, the status text and the lost workers
/// are those of the last evidence, and have the number of its attempt. The only error is out of memory.
pub fn reply_to(
    alloc: Global,
    seen: &Seen<'_>,
    site: &Site<'_>,
    asked: &Asked<'_>,
) -> Result<Reply, AllocError>
    ensures { IfOk result (λ reply. spec.Replies seen.now asked.now (place_asked site.now asked.now) reply) }
{
    match place_asked(site, asked) {
        Ok(place) if asked.is_still => reply_at(alloc, seen, place, Refresh::Never),
        Ok(place) => reply_at(alloc, seen, place, Refresh::Soon),
        Err(refusal) => Ok(Reply::Told(refused(alloc, refusal)?)),
    }
}
