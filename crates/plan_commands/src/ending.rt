//! How a command ends.

ghost use Rattle.std.specs.Prelude.{◌≡◌, ◌-◌, ◌^◌, ◌<◌};
ghost use Rattle.plan_commands.specs.Ending.{Delivers};
ghost use Rattle.plan_commands.specs.Fault as spec;

use crate::fault::Fault;
use byte_io::{Sink, give_all};

/// How a command ended: its exit status, and the fault that kept it from an answer, if one did.
#[derive(Debug, PartialEq, Eq, Drop)]
pub struct Exit {
    /// 0 if it is done, 1 if there is no plan or the report is not shown, 3 and 4 with a fault. The
    /// command line alone ends with 2.
    pub status: u8,
    pub fault: Option<Fault>,
}

impl Exit {
    /// The exit of a command that was answered.
    pub fn answered(status: u8) -> Exit
        ensures { result ≡ spec.answered status }
    {
        Exit {
            status,
            fault: None,
        }
    }

    /// The exit of a command that met a fault.
    pub fn refused(fault: Fault) -> Exit
        ensures { result ≡ spec.refused fault }
    {
        Exit {
            status: fault.status(),
            fault: Some(fault),
        }
    }
}

/// Writes the text, and ends the command as it would, or by `WriteFault` if a write fails.
pub fn deliver<S: Sink>(sink: &mut S, text: &[u8], done: Exit) -> Exit
    requires count { (S.output sink.old).failures < 2 ^ 64 - 1 }
    ensures delivers { Delivers text.now done (S.output sink.old) (S.output sink.new) result }
{
    match give_all(sink, text) {
        Ok(()) => done,
        Err(_) => Exit::refused(Fault::WriteFault),
    }
}
