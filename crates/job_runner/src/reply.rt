//! The packets that answer a job.

ghost use Rattle.std.specs.Prelude.{◌≡◌, ◌≢◌, ◌+◌, ◌<◌, ◌≤◌, ◌^◌, ◌++◌, [], ◌∷◌, ℕ, List, length, IfOk, IfErr, Option, Some, None, false};
ghost use Rattle.std.specs.List.{AllByRecursion, list_all};
ghost use Rattle.std.specs.Option.{option_map};
ghost use Rattle.gear_packets.specs.Request.{IsHandle, IsSent, work_complete};
ghost use Rattle.gear_packets.specs.Requests.{packet_of};
ghost use Rattle.gear_packets.specs.Text.{text_of};
ghost use Rattle.job_runner.specs.Told.{told_of, remark_of, finish_of, remark_packet, finish_packet, told_packets, can_send, answer_to};
ghost use Rattle.job_runner.specs.Told.{end_kind_of, kind_of_answer, CanBeSent};

use crate::job::{End, Note, Outcome};
use gear_packets::{EncodeError, Handle, Request, encode, encode_into};
use std::alloc::{AllocError, Global};
use worker_state::EndKind;

/// The most bytes that the body of a packet may have.
const BODY_LIMIT: usize = 16_777_216;

/// The text that answers a job, and how the job ended.
#[derive(Drop)]
pub struct Encoded {
    /// All its packets.
    pub text: Vec<u8>,
    /// How the job ended.
    pub end: EndKind,
}

/// The packet of a note.
fn note_request<'n>(handle: &Handle, note: &'n Note) -> Request<'n>
    ensures { packet_of result ≡ remark_packet handle.now (remark_of note.now) }
{
    match note {
        Note::Piece(bytes) => Request::WorkData(handle.copy(), bytes.as_slice()),
        Note::Warning(bytes) => Request::WorkWarning(handle.copy(), bytes.as_slice()),
        Note::Progress(part, whole) => Request::WorkStatus(handle.copy(), *part, *whole),
    }
}

/// The packet of an end.
fn end_request<'n>(handle: &Handle, end: &'n End) -> Request<'n>
    ensures { packet_of result ≡ finish_packet handle.now (finish_of end.now) }
{
    match end {
        End::Complete(bytes) => Request::WorkComplete(handle.copy(), bytes.as_slice()),
        End::Fail => Request::WorkFail(handle.copy()),
    }
}

/// How a job ended, as the pool books it.
fn end_kind(end: &End) -> EndKind
    ensures { result ≡ end_kind_of (finish_of end.now) }
{
    match end {
        End::Complete(_) => EndKind::Complete,
        End::Fail => EndKind::Fail,
    }
}

/// Whether a packet has room for a handle, the NUL after it, and these bytes.
fn has_room(handle: &[u8], bytes: &[u8]) -> bool
    requires { IsHandle handle.now }
    ensures { result ≡ can_send (work_complete handle.now bytes.now) }
{
    bytes.len() < BODY_LIMIT - handle.len()
}

/// Whether the packet of a note is small enough to be sent.
fn note_fits(handle: &[u8], note: &Note) -> bool
    requires { IsHandle handle.now }
    ensures { result ≡ can_send (remark_packet handle.now (remark_of note.now)) }
{
    match note {
        Note::Piece(bytes) => has_room(handle, bytes.as_slice()),
        Note::Warning(bytes) => has_room(handle, bytes.as_slice()),
        Note::Progress(part, whole) => {
            // Two numbers always have room.
            let (_part, _whole) = (*part, *whole);
            true
        }
    }
}

/// Whether the packet of an end is small enough to be sent.
fn end_fits(handle: &[u8], end: &End) -> bool
    requires { IsHandle handle.now }
    ensures { result ≡ can_send (finish_packet handle.now (finish_of end.now)) }
{
    match end {
        End::Complete(bytes) => has_room(handle, bytes.as_slice()),
        End::Fail => true,
    }
}

/// Whether all that a job reported is small enough to be sent.
fn can_be_sent(handle: &Handle, outcome: &Outcome) -> bool
    ensures { result ≡ list_all can_send (told_packets handle.now (told_of outcome.now)) }
{
    let name = handle.bytes();
    for note in &outcome.notes {
        if !note_fits(name, note) {
            return false;
        }
    }
    end_fits(name, &outcome.end)
}

/// Encodes all that a job reported, unless a packet of it would be too large.
fn encode_outcome(alloc: Global, handle: &Handle, outcome: &Outcome) -> Result<Vec<u8>, EncodeError>
    ensures text { IfOk result (λ text. text.items ≡ text_of (told_packets handle.now (told_of outcome.now))) }
    ensures each { IfOk result (λ _. AllByRecursion IsSent (told_packets handle.now (told_of outcome.now))) }
    ensures refused { IfErr result
        (λ e. e ≢ EncodeError.Memory → list_all can_send (told_packets handle.now (told_of outcome.now)) ≡ false) }
{
    let mut text = Vec::new(alloc);
    for note in &outcome.notes {
        encode_into(alloc, &mut text, &note_request(handle, note))?;
    }
    encode_into(alloc, &mut text, &end_request(handle, &outcome.end))?;
    Ok(text)
}

/// Encodes WORK_FAIL alone, the answer of a job that there is not, or whose report is too large. The only error is out of memory.
#[tactic(auto, unfolding(crate::specs::Told::answer_to, crate::specs::Told::kind_of_answer))]
pub fn encode_failure(alloc: Global, handle: &Handle) -> Result<Encoded, AllocError>
    ensures text { IfOk result (λ encoded. encoded.text.items ≡ text_of (answer_to handle.now None)) }
    ensures each { IfOk result (λ _. AllByRecursion IsSent (answer_to handle.now None)) }
    ensures kind { IfOk result (λ encoded. encoded.end ≡ kind_of_answer handle.now None) }
{
    match encode(alloc, &Request::WorkFail(handle.copy())) {
        Ok(text) => Ok(Encoded {
            text,
            end: EndKind::Fail,
        }),
        Err(_) => Err(AllocError),
    }
}

/// Encodes the answer to a job: what it reported, or `failure` if there is no such job, or a packet would be too large. The only error is
/// out of memory, and it comes only if all that the job reported can be sent.
pub fn encode_reply(
    alloc: Global,
    handle: &Handle,
    outcome: Option<Outcome>,
    failure: Encoded,
) -> Result<Encoded, AllocError>
    requires fails { failure.text.items ≡ text_of (answer_to handle.now None) }
    requires each_fails { AllByRecursion IsSent (answer_to handle.now None) }
    requires kind_fails { failure.end ≡ kind_of_answer handle.now None }
    ensures text { IfOk result (λ encoded. encoded.text.items ≡ text_of (answer_to handle.now (option_map told_of outcome))) }
    ensures each { IfOk result (λ _. AllByRecursion IsSent (answer_to handle.now (option_map told_of outcome))) }
    ensures kind { IfOk result (λ encoded. encoded.end ≡ kind_of_answer handle.now (option_map told_of outcome)) }
    ensures memory { IfErr result (λ _. CanBeSent handle.now (option_map told_of outcome)) }
{
    let Some(outcome) = outcome else {
        return Ok(failure);
    };
    if !can_be_sent(handle, &outcome) {
        return Ok(failure);
    }
    match encode_outcome(alloc, handle, &outcome) {
        Ok(text) => Ok(Encoded {
            text,
            end: end_kind(&outcome.end),
        }),
        Err(EncodeError::Memory) => Err(AllocError),
        Err(EncodeError::TooLarge | EncodeError::NulInArgument) => unreachable!(),
    }
}
