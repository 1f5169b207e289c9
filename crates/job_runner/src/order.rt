//! Orders, as a session obeys them.

ghost use Rattle.std.specs.Prelude.{◌≡◌, ◌↔◌, ◌+◌, ◌-◌, ◌<◌, ◌≤◌, ◌^◌, ℕ, List, length, IsTrue, IfOk, IfSome, Option};
ghost use Rattle.std.specs.List.{AllByRecursion};
ghost use Rattle.gear_packets.specs.Request.{IsSent};
ghost use Rattle.std.specs.Option.{option_map, option_to_list};
ghost use Rattle.gear_packets.specs.Requests.{packet_of};
ghost use Rattle.gear_packets.specs.Text.{text_of};
ghost use Rattle.worker_state.specs.Registration.{seen_name};
ghost use Rattle.job_runner.specs.Course.{IsAccepted, IsFunctionName, Sends, asking};
ghost use Rattle.job_runner.specs.Course.{name_of, obeying, IsStop};
ghost use Rattle.job_runner.specs.Following.{meant_by, phase_with};
ghost use Rattle.job_runner.specs.Run.{LinkKept, seen_link};

use crate::end::EndCause;
use crate::sending::add_if;
use byte_io::{Sink, give_all};
use gear_packets::Request;
use plan_model::FuncId;
use pool_core::Pass;
use pool_settings::Settings;
use std::alloc::{AllocError, Global};
use worker_state::{Order, What, change};

/// What a session does once it has obeyed an order.
#[derive(Clone, Copy, Debug, PartialEq, Eq)]
pub enum Phase {
    /// It has asked for a job.
    Waiting,
    /// There was no job, and it is to be woken.
    Asleep,
    /// It has no function.
    Idle,
}

/// What a session waits for once it has followed an order, by the function that it then has registered.
pub fn phase_with(registered: Option<u32>) -> Phase
    ensures { result ≡ phase_with registered }
{
    match registered {
        Some(_) => Phase::Waiting,
        None => Phase::Idle,
    }
}

/// Whether an order ends the session of a pass.
pub fn stops(order: &Order, pass: &Pass) -> bool
    ensures { IsTrue result ↔ IsStop pass.now.generation order.now }
{
    order.what == What::Stop && order.generation == pass.name().generation
}

/// The function that an order names for a pass, if it names one that is there.
pub fn wanted_of(order: &Order, pass: &Pass, settings: &Settings) -> Option<u32>
    ensures meant { result ≡ meant_by pass.now.generation (length settings.now.functions) order.now }
    ensures there { IfSome result (λ f. f < length settings.now.functions) }
{
    match order.what {
        What::Work(function)
            if order.generation == pass.name().generation
                && function.number() < settings.functions() => { Some(function.number()) }
        _ => None,
    }
}

/// The name of a function, if there is one.
#[tactic(auto, using(crate::proofs::Names::known_named))]
fn name_of(settings: &Settings, function: Option<u32>) -> Option<&[u8]>
    ensures name { seen_name result ≡ name_of settings.now.functions function }
    ensures named { IfSome (name_of settings.now.functions function) IsFunctionName }
{
    let count = settings.functions();
    match function {
        Some(function) if function < count => {
            Some(settings.function_name(FuncId::new(function)).as_bytes())
        }
        _ => None,
    }
}

/// The request for a job of a function, if there is one.
fn asking<'n>(to: Option<&'n [u8]>) -> Option<Request<'n>>
    ensures { option_to_list (option_map packet_of result) ≡ asking (seen_name to.entry) }
{
    match to {
        Some(_) => Some(Request::GrabJobUniq),
        None => None,
    }
}

/// Encodes the packets that lead from one function to another, and ask for a job of it. The only error is out of memory.
fn encode_change<'n>(
    alloc: Global,
    from: Option<&'n [u8]>,
    to: Option<&'n [u8]>,
) -> Result<Vec<u8>, AllocError>
    requires accepted { AllByRecursion IsAccepted (obeying (seen_name from) (seen_name to)) }
    ensures text { IfOk result (λ text. text.items ≡ text_of (obeying (seen_name from.entry) (seen_name to.entry))) }
    ensures each { IfOk result (λ _. AllByRecursion IsSent (obeying (seen_name from.entry) (seen_name to.entry))) }
{
    let mut text = Vec::new(alloc);
    let requests = change(from, to);
    let ask = asking(to);
    add_if(alloc, &mut text, &requests[0])?;
    add_if(alloc, &mut text, &requests[1])?;
    add_if(alloc, &mut text, &ask)?;
    Ok(text)
}

/// Writes the packets that lead from one function to another, and ask for a job of it.
pub fn write_change<L: Sink>(
    alloc: Global,
    link: &mut L,
    settings: &Settings,
    from: Option<u32>,
    to: Option<u32>,
) -> Result<(), EndCause>
    requires { (L.output link.old).failures < 2 ^ 64 - 1 }
    ensures sends { Sends (L.output link.old).got (L.output link.new).got
        (obeying (name_of settings.now.functions from) (name_of settings.now.functions to)) result }
    ensures link { LinkKept (seen_link L.input L.output link.old) (seen_link L.input L.output link.new) result }
{
    let from = name_of(settings, from);
    let to = name_of(settings, to);
    let Ok(text) = encode_change(alloc, from, to) else {
        return Err(EndCause::Memory);
    };
    let Ok(()) = give_all(link, text.as_slice()) else {
        return Err(EndCause::WriteFault);
    };
    Ok(())
}
