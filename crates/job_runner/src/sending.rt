//! Packets, written to the link.

ghost use Rattle.std.specs.Prelude.{◌≡◌, ◌+◌, ◌-◌, ◌<◌, ◌≤◌, ◌^◌, ◌++◌, [], ◌∷◌, OnOk, IfErr};
ghost use Rattle.gear_packets.specs.Request.{IsSent, encoding};
ghost use Rattle.std.specs.List.{AllByRecursion};
ghost use Rattle.std.specs.Option.{option_map, option_to_list};
ghost use Rattle.gear_packets.specs.Requests.{packet_of};
ghost use Rattle.gear_packets.specs.Text.{text_of};
ghost use Rattle.job_runner.specs.Course.{IsAccepted, Sends};
ghost use Rattle.job_runner.specs.Run.{LinkKept, seen_link};

use crate::end::EndCause;
use byte_io::{Sink, give_all};
use gear_packets::{EncodeError, Request, encode_into};
use std::alloc::{AllocError, Global};

/// Puts a packet that breaks no rule after a text. The only error is out of memory.
fn add(alloc: Global, text: &mut Vec<u8>, request: &Request) -> Result<(), AllocError>
    requires accepted { IsAccepted (packet_of request.now) }
    ensures encoded { OnOk result (text.new.items ≡ text.old.items ++ encoding (packet_of request.now)) }
    ensures sent { OnOk result (IsSent (packet_of request.now)) }
{
    match encode_into(alloc, text, request) {
        Ok(()) => Ok(()),
        Err(EncodeError::Memory) => Err(AllocError),
        Err(EncodeError::TooLarge | EncodeError::NulInArgument) => unreachable!(),
    }
}

/// Puts a packet after a text, if there is one. The only error is out of memory.
pub fn add_if(
    alloc: Global,
    text: &mut Vec<u8>,
    request: &Option<Request>,
) -> Result<(), AllocError>
    requires accepted { AllByRecursion IsAccepted (option_to_list (option_map packet_of request.now)) }
    ensures encoded { OnOk result (text.new.items ≡ text.old.items ++ text_of (option_to_list (option_map packet_of request.now))) }
    ensures sent { OnOk result (AllByRecursion IsSent (option_to_list (option_map packet_of request.now))) }
{
    match request {
        Some(request) => add(alloc, text, request),
        None => Ok(()),
    }
}

/// Sends one packet.
pub fn send<L: Sink>(alloc: Global, link: &mut L, request: &Request) -> Result<(), EndCause>
    requires count { (L.output link.old).failures < 2 ^ 64 - 1 }
    requires accepted { IsAccepted (packet_of request.now) }
    ensures sends { Sends (L.output link.old).got (L.output link.new).got (packet_of request.now ∷ []) result }
    ensures link { LinkKept (seen_link L.input L.output link.old) (seen_link L.input L.output link.new) result }
{
    let mut text = Vec::new(alloc);
    let Ok(()) = add(alloc, &mut text, request) else {
        return Err(EndCause::Memory);
    };
    let Ok(()) = give_all(link, text.as_slice()) else {
        return Err(EndCause::WriteFault);
    };
    Ok(())
}
