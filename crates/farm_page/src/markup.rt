//! The markup of a page.

ghost use Rattle.std.specs.Prelude.{◌≡◌, ◌++◌, [], IfOk, IsTrue, OnOk};
ghost use Rattle.std.specs.Fmt.{decimal};
ghost use Rattle.std.specs.List.{list_all};
ghost use Rattle.farm_page.specs.Escaping as spec;
ghost use Rattle.farm_page.specs.Markup.{entities, is_markup};

use crate::writing::{put_number, put_text};
use std::alloc::{AllocError, Global};
use std::marker::Model;

/// The markup of a page, as far as it is written. Whatever names it shows, each `<` in it begins a tag of the program's own, and each `&`
/// one of five entities.
#[derive(Drop)]
pub struct Markup {
    bytes: Vec<u8>,
}

impl Model for Markup {
    ghost use Rattle.std.specs.Prelude.{ℕ, List, IsTrue};
    ghost use Rattle.farm_page.specs.Markup.{is_markup};

    ghost Value = { List ℕ };

    ghost view = { λ m. m.bytes.items };

    ghost invariant = { λ m. IsTrue (is_markup m.bytes.items) };
}

/// Adds a byte of a text.
fn put_byte(out: &mut Vec<u8>, byte: u8) -> Result<(), AllocError>
    ensures { OnOk result (out.new.items ≡ out.old.items ++ spec.page_byte byte) }
{
    match byte {
        b'<' => put_text(out, "&lt;"),
        b'>' => put_text(out, "&gt;"),
        b'&' => put_text(out, "&amp;"),
        b'"' => put_text(out, "&quot;"),
        b'\'' => put_text(out, "&#39;"),
        0..=31 | 127 => put_text(out, "&#65533;"),
        _ => Ok(out.push(byte)?),
    }
}

/// A text of any bytes as words of a page. `<`, `>`, `&` and both quotes are written as entities, and a control byte as the entity of the
/// replacement character. All other bytes stay, those above 127 too: a page is UTF-8. The only error is out of memory.
pub fn escaped(alloc: Global, text: &[u8]) -> Result<Vec<u8>, AllocError>
    ensures text { IfOk result (λ words. words.items ≡ spec.page_text text.now) }
    ensures opens_nothing { IfOk result (λ words. IsTrue (list_all spec.opens_nothing words.items)) }
    ensures own { IfOk result (λ words. IsTrue (spec.is_followed 38 entities words.items)) }
{
    let mut words = Vec::new(alloc);
    for byte in text {
        put_byte(&mut words, *byte)?;
    }
    Ok(words)
}

impl Markup {
    /// A page without a word.
    pub fn new(alloc: Global) -> Markup
        ensures { result ≡ [] }
    {
        Markup {
            bytes: Vec::new(alloc),
        }
    }

    /// Adds tags and words of the program's own.
    pub fn put_tags(&mut self, text: &str) -> Result<(), AllocError>
        requires { IsTrue (is_markup text.now) }
        ensures { OnOk result (self.new ≡ self.old ++ text.now) }
    {
        put_text(&mut self.bytes, text)
    }

    /// Adds a text of any bytes as words of the page, [escaped].
    pub fn put_text(&mut self, text: &[u8]) -> Result<(), AllocError>
        ensures { OnOk result (self.new ≡ self.old ++ spec.page_text text.now) }
    {
        let words = escaped(*self.bytes.allocator(), text)?;
        self.bytes.extend_from_slice(words.as_slice())
    }

    /// Adds a number.
    pub fn put_number(&mut self, number: u64) -> Result<(), AllocError>
        ensures { OnOk result (self.new ≡ self.old ++ decimal number) }
    {
        put_number(&mut self.bytes, number)
    }

    /// Adds another part of the page.
    pub fn put(&mut self, part: &Markup) -> Result<(), AllocError>
        ensures { OnOk result (self.new ≡ self.old ++ part.now) }
    {
        self.bytes.extend_from_slice(part.bytes.as_slice())
    }

    /// The bytes of the page.
    pub fn into_bytes(self) -> Vec<u8>
        ensures all { result.items ≡ self }
        ensures own { IsTrue (is_markup result.items) }
    {
        self.bytes
    }
}
