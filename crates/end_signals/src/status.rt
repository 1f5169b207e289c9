//! What the system says of a process and its signals.

ghost use Rattle.std.specs.Prelude.{◌≡◌, ◌∷◌, ◌<◌, [], MatchOption, length, option_map};
ghost use Rattle.std.specs.List.{slice_split};
ghost use Rattle.text_pieces.specs.Lines.{is_line_feed};
ghost use Rattle.end_signals.specs.Masks.{common_of};
ghost use Rattle.end_signals.specs.Status as spec;

use crate::masks::{EndSignals, signals_in};
use std::fmt;
use std::fmt::{Display, Formatter};
use text_pieces::cut_first;
use thiserror::Error;

/// A line of a process's status that has a mask of signals.
#[derive(Clone, Copy, Debug, PartialEq, Eq)]
pub enum MaskLine {
    /// Those that wait for the first thread alone.
    ThreadPending,
    /// Those that wait for any thread of the process.
    SharedPending,
    /// Those that the first thread has blocked, as all have that it started.
    Blocked,
}

impl MaskLine {
    /// The word before its colon.
    fn name(self) -> &'static str {
        match self {
            MaskLine::ThreadPending => "SigPnd",
            MaskLine::SharedPending => "ShdPnd",
            MaskLine::Blocked => "SigBlk",
        }
    }

    /// The line, up to its mask.
    fn start(self) -> &'static [u8]
        ensures { result.now ≡ spec.start_of self }
    {
        match self {
            MaskLine::ThreadPending => b"SigPnd:\t",
            MaskLine::SharedPending => b"ShdPnd:\t",
            MaskLine::Blocked => b"SigBlk:\t",
        }
    }
}

impl Display for MaskLine {
    fn fmt<W: fmt::Write>(&self, f: &mut Formatter<W>) -> fmt::Result {
        f.write_str(self.name())
    }
}

/// What is wrong with a process's status.
#[derive(Clone, Copy, Debug, PartialEq, Eq, Error)]
pub enum MaskFault {
    /// It has no such line.
    #[error("the system's status of this process has no line {0}")]
    Missing(MaskLine),
    /// The line has no mask of 16 hexadecimal digits.
    #[error("the line {0} of the system's status of this process has no mask of 16 hexadecimal digits")]
    NoMask(MaskLine),
}

/// What a process's status says of SIGTERM and SIGINT.
#[derive(Clone, Copy, Debug, PartialEq, Eq)]
pub struct SignalStatus {
    /// Which of them are blocked: they do nothing when they come, but wait.
    pub blocked: EndSignals,
    /// Which of them came, and wait.
    pub pending: EndSignals,
}

impl SignalStatus {
    /// Which of them came, and wait since they are blocked. A signal that came stays so, and a second one changes nothing. One that is not
    /// blocked ends the process as it comes, or does nothing at all to process 1 of a container.
    pub fn came(&self) -> EndSignals
        ensures { result ≡ common_of self.now.pending self.now.blocked }
    {
        self.pending.and(self.blocked)
    }
}

/// What follows these bytes at the start of a line.
fn after_start<'t>(start: &[u8], line: &'t [u8]) -> Option<&'t [u8]>
    ensures { option_map (λ rest. rest.now) result ≡ spec.after_start start.now line.now }
{
    line.strip_prefix(start)
}

/// The text before and after the first line feed.
fn cut_line(text: &[u8]) -> Option<(&[u8], &[u8])>
    ensures { MatchOption result (slice_split is_line_feed text.now ≡ text.now ∷ [])
        (λ p. (slice_split is_line_feed text.now ≡ p.0.now ∷ slice_split is_line_feed p.1.now)
        × (length p.1.now < length text.now)) }
{
    cut_first(b'\n', text)
}

/// What follows these bytes in the first line that begins with them.
fn mask_from<'t>(start: &[u8], text: &'t [u8]) -> Option<&'t [u8]>
    ensures { option_map (λ mask. mask.now) result ≡ spec.mask_from start.now text.now }
{
    let mut rest = text;
    while let Some((line, after)) = cut_line(rest) {
        if let Some(mask) = after_start(start, line) {
            return Some(mask);
        }
        rest = after;
    }
    after_start(start, rest)
}

/// Which of the two signals the mask of a line has.
fn signals_of_line(line: MaskLine, text: &[u8]) -> Result<EndSignals, MaskFault>
    ensures { result ≡ spec.signals_of_line line text.now }
{
    let Some(mask) = mask_from(line.start(), text) else {
        return Err(MaskFault::Missing(line));
    };
    match signals_in(mask) {
        Some(signals) => Ok(signals),
        None => Err(MaskFault::NoMask(line)),
    }
}

/// What the text of `/proc/self/status` says of SIGTERM and SIGINT. Of several faults it tells that of the line that the system writes
/// first.
#[tactic(auto, unfolding(crate::specs::Status::signal_status))]
pub fn signal_status(text: &[u8]) -> Result<SignalStatus, MaskFault>
    ensures { result ≡ spec.signal_status text.now }
{
    let own = signals_of_line(MaskLine::ThreadPending, text)?;
    let shared = signals_of_line(MaskLine::SharedPending, text)?;
    let blocked = signals_of_line(MaskLine::Blocked, text)?;
    Ok(SignalStatus {
        blocked,
        pending: own.or(shared),
    })
}
