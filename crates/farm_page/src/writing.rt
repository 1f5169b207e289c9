//! Words, numbers and names at the end of a text of bytes.

ghost use Rattle.std.specs.Prelude.{◌≡◌, ◌++◌, OnErr, OnOk};
ghost use Rattle.std.specs.Fmt.{decimal};
ghost use Rattle.farm_page.specs.Escaping as spec;

use std::alloc::AllocError;

/// Adds words.
pub fn put_text(out: &mut Vec<u8>, text: &str) -> Result<(), AllocError>
    ensures ok { OnOk result (out.new.items ≡ out.old.items ++ text.now) }
    ensures err { OnErr result (out.new.items ≡ out.old.items) }
{
    out.extend_from_slice(text.as_bytes())
}

/// Adds bytes.
pub fn put_bytes(out: &mut Vec<u8>, bytes: &[u8]) -> Result<(), AllocError>
    ensures { OnOk result (out.new.items ≡ out.old.items ++ bytes.now) }
{
    out.extend_from_slice(bytes)
}

/// Adds a number in decimal digits.
pub fn put_number(out: &mut Vec<u8>, number: u64) -> Result<(), AllocError>
    ensures ok { OnOk result (out.new.items ≡ out.old.items ++ decimal number) }
    ensures err { OnErr result (out.new.items ≡ out.old.items) }
{
    let digits = number.to_string(*out.allocator())?;
    put_text(out, digits.as_str())
}

/// Adds a byte of a label's value.
fn put_label_byte(out: &mut Vec<u8>, byte: u8) -> Result<(), AllocError>
    ensures { OnOk result (out.new.items ≡ out.old.items ++ spec.label_byte byte) }
{
    match byte {
        b'\\' => put_text(out, "\\\\"),
        b'"' => put_text(out, "\\\""),
        b'\n' => put_text(out, "\\n"),
        _ => Ok(out.push(byte)?),
    }
}

/// Adds the value of a label, as the text format of Prometheus writes it: a backslash before `\` and `"`, and `\n` for a line feed. All
/// other bytes stay, those above 127 too: a label is UTF-8.
pub fn put_label(out: &mut Vec<u8>, value: &[u8]) -> Result<(), AllocError>
    ensures { OnOk result (out.new.items ≡ out.old.items ++ spec.label_text value.now) }
{
    for byte in value {
        put_label_byte(out, *byte)?;
    }
    Ok(())
}
