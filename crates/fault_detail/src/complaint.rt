//! What error output gets of a fault.

ghost use Rattle.std.specs.Prelude.{◌≡◌, ◌-◌, ◌^◌, ◌<◌, IsTrue};
ghost use Rattle.fault_detail.specs.Complaint as spec;
ghost use Rattle.fault_detail.specs.Detail.{names_of};

use crate::detail::detail_line;
use crate::given::Given;
use crate::giving::{give, give_line};
use byte_io::Sink;
use plan_commands::Fault;
use std::alloc::Global;

/// Who reads what the program writes to error output.
#[derive(Clone, Copy, Debug, PartialEq, Eq)]
pub enum Reader {
    /// A person, who gets a second line that says what a fault is about.
    Person,
    /// A program or a file, which gets the fault line alone.
    Program,
}

/// Writes the fault line, and for a person what the fault is about.
pub fn tell<E: Sink>(
    reader: Reader,
    alloc: Global,
    given: &Given<'_>,
    fault: &Fault,
    errors: &mut E,
)
    requires { (E.output errors.old).failures < 2 ^ 64 - 1 }
    ensures tells { spec.Tells reader (names_of given.now) fault.now (E.output errors.old) (E.output errors.new) }
{
    match reader {
        Reader::Program => {
            complain(fault, errors);
        }
        Reader::Person => tell_person(alloc, given, fault, errors),
    }
}

/// Writes the fault line, and what the fault is about, if the fault line went out whole.
fn tell_person<E: Sink>(alloc: Global, given: &Given<'_>, fault: &Fault, errors: &mut E)
    requires { (E.output errors.old).failures < 2 ^ 64 - 1 }
    ensures { spec.TellsPerson (names_of given.now) fault.now (E.output errors.old) (E.output errors.new) }
{
    let is_whole = complain(fault, errors);
    if is_whole {
        tell_more(alloc, given, fault, errors);
    }
}

/// Writes what a fault is about; if there is no memory for that line, nothing.
fn tell_more<E: Sink>(alloc: Global, given: &Given<'_>, fault: &Fault, errors: &mut E)
    requires { (E.output errors.old).failures < 2 ^ 64 - 1 }
    ensures { spec.TellsMore (names_of given.now) fault.now (E.output errors.old) (E.output errors.new) }
{
    if let Ok(line) = detail_line(alloc, given, fault) {
        say(errors, line.as_bytes());
    }
}

/// Writes the line of a fault, which takes no memory. Returns whether the line went out whole.
pub fn complain<E: Sink>(fault: &Fault, errors: &mut E) -> bool
    requires { (E.output errors.old).failures < 2 ^ 64 - 1 }
    ensures complains { spec.Complains fault.now (E.output errors.old) (E.output errors.new) }
    ensures whole { IsTrue result → (E.output errors.new).failures ≡ (E.output errors.old).failures }
{
    give_line(errors, fault).is_ok()
}

/// Writes a text, or a prefix of it if a write fails, which cannot be reported. Returns whether the text went out whole.
pub fn say<E: Sink>(errors: &mut E, text: &[u8]) -> bool
    requires { (E.output errors.old).failures < 2 ^ 64 - 1 }
    ensures says { spec.SaysLine text.now (E.output errors.old) (E.output errors.new) }
    ensures whole { IsTrue result → (E.output errors.new).failures ≡ (E.output errors.old).failures }
{
    give(errors, text).is_ok()
}
