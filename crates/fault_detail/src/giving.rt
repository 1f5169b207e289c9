//! The line of a fault, written piece by piece: it takes no memory.

ghost use Rattle.std.specs.Prelude.{◌≡◌, ◌-◌, ◌^◌, ◌<◌, OnOk, OnErr};
ghost use Rattle.byte_io.specs.Sides.{HasText};
ghost use Rattle.fault_detail.specs.Complaint.{IsCut, fault_text};
ghost use Rattle.fault_detail.specs.Pieces.{count_text, label_text};

use crate::pieces::{Count, Pieces};
use byte_io::{DeviceFault, Sink, give_all};
use itoa::Buffer;
use plan_commands::Fault;
use refusal::Label;

/// Writes a text, or a prefix of it if a write fails.
pub fn give<E: Sink>(errors: &mut E, text: &[u8]) -> Result<(), DeviceFault>
    requires { (E.output errors.old).failures < 2 ^ 64 - 1 }
    ensures ok { OnOk result (HasText (E.output errors.old) text.now (E.output errors.new)) }
    ensures err { OnErr result (IsCut (E.output errors.old) text.now (E.output errors.new)) }
{
    match give_all(errors, text) {
        Ok(()) => Ok(()),
        Err(_) => Err(DeviceFault),
    }
}

/// Writes the number and the name of a label, if there is one.
fn give_label<E: Sink>(errors: &mut E, label: &Option<Label>) -> Result<(), DeviceFault>
    requires { (E.output errors.old).failures < 2 ^ 64 - 1 }
    ensures ok { OnOk result (HasText (E.output errors.old) (label_text label.now) (E.output errors.new)) }
    ensures err { OnErr result (IsCut (E.output errors.old) (label_text label.now) (E.output errors.new)) }
{
    if let Some(label) = label {
        give(errors, Buffer::new().format(label.number()).as_bytes())?;
        give(errors, b" ")?;
        give(errors, label.name().as_bytes())?;
    }
    Ok(())
}

/// Writes the number at the end, after the word for what it is, if there is one.
fn give_count<E: Sink>(errors: &mut E, count: Option<Count>) -> Result<(), DeviceFault>
    requires { (E.output errors.old).failures < 2 ^ 64 - 1 }
    ensures ok { OnOk result (HasText (E.output errors.old) (count_text count) (E.output errors.new)) }
    ensures err { OnErr result (IsCut (E.output errors.old) (count_text count) (E.output errors.new)) }
{
    let mut buffer = Buffer::new();
    match count {
        Some(Count::Line(line)) => {
            give(errors, b" line ")?;
            give(errors, buffer.format(line).as_bytes())
        }
        Some(Count::Status(status)) => {
            give(errors, b" status ")?;
            give(errors, buffer.format(status).as_bytes())
        }
        None => Ok(()),
    }
}

/// Writes the line of a fault, or a prefix of it if a write fails.
pub fn give_line<E: Sink>(errors: &mut E, fault: &Fault) -> Result<(), DeviceFault>
    requires { (E.output errors.old).failures < 2 ^ 64 - 1 }
    ensures ok { OnOk result (HasText (E.output errors.old) (fault_text fault.now) (E.output errors.new)) }
    ensures err { OnErr result (IsCut (E.output errors.old) (fault_text fault.now) (E.output errors.new)) }
{
    let pieces = Pieces::of(fault);
    give(errors, b"poolman: ")?;
    give(errors, pieces.words.as_bytes())?;
    give_label(errors, &pieces.label)?;
    give_count(errors, pieces.count)?;
    give(errors, b"\n")
}
