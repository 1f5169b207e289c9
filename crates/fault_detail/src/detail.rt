//! The line for people that says what a fault is about.

ghost use Rattle.std.specs.Prelude.{◌≡◌, ◌++◌, IfOk, OnOk, string_bytes};
ghost use Rattle.fault_detail.specs.Detail as spec;

use crate::given::{Given, Subject};
use crate::sentence::sentence;
use plan_commands::{Fault, Mistake, ServicesMistake};
use settings_command::{place_text, push_printable, services_place_text};
use std::alloc::{AllocError, Global};

/// Adds what a fault is about. A name is in quotes if a byte of it is not printable, so that the line stays one line.
fn push_subject(out: &mut String, subject: Subject<'_>) -> Result<(), AllocError>
    ensures { OnOk result (string_bytes out.new ≡ string_bytes out.old ++ spec.subject_words subject.entry) }
{
    match subject {
        Subject::Named(name) => push_printable(out, name),
        Subject::Unnamed(words) => out.push_str(words),
    }
}

/// Adds where in the settings a mistake is, and the end of the line.
fn push_place(alloc: Global, out: &mut String, mistake: &Mistake) -> Result<(), AllocError>
    ensures { OnOk result (string_bytes out.new ≡ string_bytes out.old ++ spec.place_end mistake.now) }
{
    let line = place_text(alloc, &mistake.lent_place())?;
    out.push_str(" ")?;
    out.push_str(line.as_str())
}

/// Adds where a mistake in the services is, and the end of the line.
fn push_services_place(
    alloc: Global,
    out: &mut String,
    mistake: &ServicesMistake,
) -> Result<(), AllocError>
    ensures { OnOk result (string_bytes out.new ≡ string_bytes out.old ++ spec.services_place_end mistake.now) }
{
    let line = services_place_text(alloc, &mistake.lent_place())?;
    out.push_str(" ")?;
    out.push_str(line.as_str())
}

/// Adds the end of the line: where in the settings or the services the fault is, if it is there, and a line feed.
fn push_end(alloc: Global, out: &mut String, fault: &Fault) -> Result<(), AllocError>
    ensures { OnOk result (string_bytes out.new ≡ string_bytes out.old ++ spec.line_end fault.now) }
{
    match fault {
        Fault::Settings(mistake) => push_place(alloc, out, mistake),
        Fault::Services(mistake) => push_services_place(alloc, out, mistake),
        _ => out.push_str("\n"),
    }
}

/// The line for people that says what a fault is about: `poolman: `, the name of the file, the worker or the stream that it is about, the
/// sentence of the refusal and, for a mistake in the settings or the services, where that is, with each key and each name as TOML writes a
/// key. The name of a file or a worker is written so too if a byte of it is not printable. The only error is out of memory.
pub fn detail_line(alloc: Global, given: &Given<'_>, fault: &Fault) -> Result<String, AllocError>
    ensures { IfOk result (λ line. spec.IsDetail (spec.names_of given.now) fault.now (string_bytes line)) }
{
    let what = sentence(alloc, fault)?;
    let mut out = String::from_str(alloc, "poolman: ")?;
    push_subject(&mut out, given.subject(fault))?;
    out.push_str(": ")?;
    out.push_str(what.as_str())?;
    push_end(alloc, &mut out, fault)?;
    Ok(out)
}
