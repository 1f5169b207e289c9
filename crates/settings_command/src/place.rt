//! Where a fault of a settings file is, as a line.

ghost use Rattle.std.specs.Prelude.{◌≡◌, ◌++◌, [], ◌∷◌, IfOk, OnOk, Some, codes, string_bytes};
ghost use Rattle.std.specs.Char.{is_ascii_graphic};
ghost use Rattle.std.specs.List.{list_all};
ghost use Rattle.pool_settings.specs.Place.{place_view};
ghost use Rattle.toml_writer.specs.Text.{key_text};
ghost use Rattle.settings_command.specs.Place as spec;

use pool_settings::{Counted, Place, Section};
use std::alloc::{AllocError, Global};
use std::fmt;
use std::fmt::Write;
use toml_writer::write_key;

fn section_name(section: Section) -> &'static str
    ensures { result.now ≡ spec.section_name section }
{
    match section {
        Section::Functions => "functions",
        Section::Machines => "machines",
    }
}

fn counted_name(counted: Counted) -> &'static str
    ensures { result.now ≡ spec.counted_name counted }
{
    match counted {
        Counted::Machines => "machines",
        Counted::Functions => "functions",
        Counted::Workers => "workers",
    }
}

/// A key or a name, as TOML writes a key.
#[derive(Drop)]
struct Key<'t> {
    text: &'t str,
}

impl fmt::Display for Key<'_> {
    ghost output = { λ key. Some (key_text key.text.now) };

    fn fmt<W: fmt::Write>(&self, f: &mut fmt::Formatter<W>) -> fmt::Result {
        write_key(f, self.text)
    }
}

/// Adds a key or a name as TOML writes a key.
pub(crate) fn push_key(out: &mut String, key: &str) -> Result<(), AllocError>
    ensures { OnOk result (string_bytes out.new ≡ string_bytes out.old ++ key_text key.now) }
{
    write!(out, "{}", Key { text: key })
}

fn is_printable(text: &str) -> bool
    ensures { result ≡ list_all is_ascii_graphic text.now }
{
    text.as_bytes().iter().all(|byte| byte.is_ascii_graphic())
}

/// Adds a text as it is, or in quotes, as TOML writes a key, if a byte of it is not a visible character of ASCII. So a line stays one line
/// whatever the text holds. The only error is out of memory.
#[tactic(auto, unfolding(crate::specs::Place::printable))]
pub fn push_printable(out: &mut String, text: &str) -> Result<(), AllocError>
    ensures { OnOk result (string_bytes out.new ≡ string_bytes out.old ++ spec.printable text.now) }
{
    if is_printable(text) {
        out.push_str(text)
    } else {
        push_key(out, text)
    }
}

/// The name of a function or a machine in its table.
#[tactic(auto, unfolding(crate::specs::Place::entry_words))]
fn push_entry(out: &mut String, section: Section, name: &str) -> Result<(), AllocError>
    ensures { OnOk result (string_bytes out.new ≡ string_bytes out.old ++ spec.entry_words section name.now) }
{
    out.push_str(section_name(section))?;
    out.push_str(".")?;
    push_key(out, name)
}

/// A name that a machine lists.
fn push_listed(out: &mut String, machine: &str, function: &str) -> Result<(), AllocError>
    ensures { OnOk result (string_bytes out.new ≡ string_bytes out.old ++ spec.listed_words machine.now function.now) }
{
    push_entry(out, Section::Machines, machine)?;
    out.push_str(".functions ")?;
    push_key(out, function)
}

fn push_place(out: &mut String, place: &Place<&str>) -> Result<(), AllocError>
    ensures { OnOk result (string_bytes out.new ≡ string_bytes out.old ++ spec.place_words (place_view (λ t. t.now) place.now)) }
{
    match place {
        Place::Text { line, column } => write!(out, "line {line} column {column}"),
        Place::Key(key) => push_key(out, key),
        Place::Entry(section, name) => push_entry(out, *section, name),
        Place::EntryKey(section, name, key) => {
            push_entry(out, *section, name)?;
            out.push_str(".")?;
            push_key(out, key)
        }
        Place::Listed(machine, function) => push_listed(out, machine, function),
        Place::Count(counted) => out.push_str(counted_name(*counted)),
    }
}

/// The line that says where a fault is: `at` and a line and a column, the path of a key, a machine's list with the name in it that is
/// no function, or what there are too many of. Each key and each name is written as TOML writes a key, so that the line stays one
/// line. The only error is out of memory.
pub fn place_text(alloc: Global, place: &Place<&str>) -> Result<String, AllocError>
    ensures { IfOk result (λ text. string_bytes text ≡ spec.line_of_place (place_view (λ t. t.now) place.now)) }
{
    let mut out = String::new(alloc);
    out.push_str("at ")?;
    push_place(&mut out, place)?;
    out.push_str("\n")?;
    Ok(out)
}
