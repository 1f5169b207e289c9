//! A status text, read as it comes.

ghost use Rattle.std.specs.Prelude.{◌≡◌, ◌≢◌, ◌∷◌, ◌++◌, ◌^◌, ◌-◌, ◌<◌, [], IfOk, IfErr, Err, List, ℕ, true};
ghost use Rattle.gear_status.specs.Stream.{IsPart, LeadsTo, is_verdict, meaning_with};

use crate::line::{is_period, line_meaning, without_return};
use crate::{Load, StatusError};
use std::alloc::Global;
use std::marker::Model;

/// The bytes of the longest line, without its line feed.
const MAX_LINE: usize = 4096;

/// The most lines before the period line.
const MAX_LINES: u32 = 65536;

/// What has come of a status text: the lines so far, and the start of the next.
#[derive(Drop)]
pub struct Unfinished {
    number: u32,
    line: Vec<u8>,
    load: Load,
}

impl Model for Unfinished {
    ghost use Rattle.gear_status.specs.Stream.{IsPart, Part};

    ghost Value = { Part };

    ghost view = { λ u. record { number = u.number; line = u.line.items; load = u.load } };

    ghost invariant = { λ u. IsPart (record { number = u.number; line = u.line.items; load = u.load }) };
}

impl Unfinished {
    pub fn new(alloc: Global) -> Unfinished
        ensures { result ≡ record { number = 1; line = []; load = [] } }
    {
        Unfinished {
            number: 1,
            line: Vec::new(alloc),
            load: Load::new(alloc),
        }
    }

    /// Takes the byte of a line feed: the line has come whole. Answers whether the text has.
    fn end_line(&mut self) -> Result<bool, StatusError>
        ensures part { IsPart self.new }
        ensures ok { IfOk result (LeadsTo self.old (10 ∷ []) self.new) }
        ensures verdict { IfErr result (λ f. is_verdict f ≡ true) }
        ensures err { IfErr result (λ f. f ≢ StatusError.Memory → (rest : List ℕ) → meaning_with self.old (10 ∷ rest) ≡ Err f) }
    {
        if is_period(self.line.as_slice()) {
            return Ok(true);
        }
        if self.number > MAX_LINES {
            return Err(StatusError::TooManyLines);
        }
        let (name, counts) = line_meaning(self.number, without_return(self.line.as_slice()))?;
        self.load.set_counts(name, counts)?;
        self.line.clear();
        self.number += 1;
        Ok(false)
    }

    /// Takes one byte. Answers whether the text has come whole.
    fn push(&mut self, byte: u8) -> Result<bool, StatusError>
        ensures part { IsPart self.new }
        ensures ok { IfOk result (LeadsTo self.old (byte ∷ []) self.new) }
        ensures verdict { IfErr result (λ f. is_verdict f ≡ true) }
        ensures err { IfErr result (λ f. f ≢ StatusError.Memory → (rest : List ℕ) → meaning_with self.old (byte ∷ rest) ≡ Err f) }
    {
        if byte == b'\n' {
            return self.end_line();
        }
        if self.line.len() == MAX_LINE {
            return Err(StatusError::LineTooLong(self.number));
        }
        self.line.push(byte)?;
        Ok(false)
    }

    /// Takes the next bytes of the text, and answers whether it has come whole.
    pub fn feed(&mut self, piece: &[u8]) -> Result<bool, StatusError>
        ensures part { IsPart self.new }
        ensures ok { IfOk result (LeadsTo self.old piece.now self.new) }
        ensures verdict { IfErr result (λ f. is_verdict f ≡ true) }
        ensures err { IfErr result (λ f. f ≢ StatusError.Memory → (rest : List ℕ) → meaning_with self.old (piece.now ++ rest) ≡ Err f) }
    {
        let _number = self.number;
        for byte in piece {
            if self.push(*byte)? {
                return Ok(true);
            }
        }
        Ok(false)
    }

    /// The load of a text that has come whole.
    pub fn into_load(self) -> Load
        ensures { result ≡ self.load }
    {
        let Unfinished {
            number: _,
            line: _,
            load,
        } = self;
        load
    }
}
