//! Sets of signals, as the system writes them.

ghost use Rattle.std.specs.Prelude.{◌≡◌, ◌<◌, ◌≤◌, length};
ghost use Rattle.std.specs.Char.{is_ascii_hexdigit};
ghost use Rattle.std.specs.List.{list_all};
ghost use Rattle.end_signals.specs.Masks as spec;

use std::fmt;
use std::fmt::{Display, Formatter};

/// How many hexadecimal digits a mask has, with four signals each.
const MASK_DIGITS: usize = 16;

/// The number of the signal that a service manager and a container's host send to end a program.
const SIGTERM: usize = 15;

/// The number of the signal of Ctrl-C.
const SIGINT: usize = 2;

/// Which of the two signals that ask a program to end.
#[derive(Clone, Copy, Debug, PartialEq, Eq)]
pub enum EndSignals {
    /// None of them.
    Neither,
    /// SIGTERM.
    Terminate,
    /// SIGINT.
    Interrupt,
    /// SIGTERM and SIGINT.
    Both,
}

impl EndSignals {
    /// Those of the two that are there.
    pub(crate) fn of(has_terminate: bool, has_interrupt: bool) -> EndSignals
        ensures { result ≡ spec.signals_of has_terminate has_interrupt }
    {
        match (has_terminate, has_interrupt) {
            (true, true) => EndSignals::Both,
            (true, false) => EndSignals::Terminate,
            (false, true) => EndSignals::Interrupt,
            (false, false) => EndSignals::Neither,
        }
    }

    /// Whether SIGTERM is one of them.
    pub fn has_terminate(self) -> bool
        ensures { result ≡ spec.has_terminate self }
    {
        matches!(self, EndSignals::Terminate | EndSignals::Both)
    }

    /// Whether SIGINT is one of them.
    pub fn has_interrupt(self) -> bool
        ensures { result ≡ spec.has_interrupt self }
    {
        matches!(self, EndSignals::Interrupt | EndSignals::Both)
    }

    /// Those that are among these and among the others.
    pub fn and(self, others: EndSignals) -> EndSignals
        ensures { result ≡ spec.common_of self others }
    {
        EndSignals::of(
            self.has_terminate() && others.has_terminate(),
            self.has_interrupt() && others.has_interrupt(),
        )
    }

    /// Those that are among these or among the others.
    pub fn or(self, others: EndSignals) -> EndSignals
        ensures { result ≡ spec.joined_of self others }
    {
        EndSignals::of(
            self.has_terminate() || others.has_terminate(),
            self.has_interrupt() || others.has_interrupt(),
        )
    }
}

impl Display for EndSignals {
    fn fmt<W: fmt::Write>(&self, f: &mut Formatter<W>) -> fmt::Result {
        f.write_str(match self {
            EndSignals::Neither => "no signal",
            EndSignals::Terminate => "SIGTERM",
            EndSignals::Interrupt => "SIGINT",
            EndSignals::Both => "SIGTERM and SIGINT",
        })
    }
}

/// The value of a hexadecimal digit.
fn digit_of(byte: u8) -> u8
    ensures { result ≡ spec.digit_of byte }
{
    match byte {
        b'0'..=b'9' => byte - b'0',
        b'a'..=b'f' => byte - b'a' + 10,
        b'A'..=b'F' => byte - b'A' + 10,
        _ => 0,
    }
}

/// Whether a mask has the signal of this number.
#[tactic(auto, unfolding(crate::specs::Masks::has_signal))]
fn has_signal(number: usize, mask: &[u8]) -> bool
    requires signal { 0 < number }
    requires known { number ≤ 64 }
    requires mask { length mask.now ≡ 16 }
    ensures { result ≡ spec.has_signal number mask.now }
{
    let place = (number - 1) / 4;
    let bit = 1u8 << ((number - 1) % 4);
    digit_of(mask[MASK_DIGITS - 1 - place]) & bit != 0
}

fn are_hexadecimal(digits: &[u8]) -> bool
    ensures { result ≡ list_all is_ascii_hexdigit digits.now }
{
    digits.iter().all(|byte| byte.is_ascii_hexdigit())
}

/// Whether a text is a mask: 16 hexadecimal digits.
fn is_mask(text: &[u8]) -> bool
    ensures { result ≡ spec.is_mask text.now }
{
    text.len() == MASK_DIGITS && are_hexadecimal(text)
}

/// Which of the two signals a mask has. None if it is no mask.
pub(crate) fn signals_in(mask: &[u8]) -> Option<EndSignals>
    ensures { result ≡ spec.signals_in mask.now }
{
    if !is_mask(mask) {
        return None;
    }
    Some(EndSignals::of(has_signal(SIGTERM, mask), has_signal(SIGINT, mask)))
}
