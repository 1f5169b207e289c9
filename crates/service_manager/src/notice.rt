//! What a service manager is told, as it reads it.

ghost use Rattle.std.specs.Prelude.{◌≡◌, Err, IfOk, false, true};
ghost use Rattle.service_manager.specs.Notice as spec;

use crate::error::StatusError;
use std::alloc::Global;

/// Something that a service manager waits for.
#[derive(Clone, Copy, Debug, PartialEq, Eq)]
pub enum Notice {
    /// This program has started, and does its work now.
    Ready,
    /// It is alive. It has to say so as often as its watchdog wants.
    Alive,
    /// It is about to end.
    Stopping,
}

impl Notice {
    /// The bytes of its datagram. None are allocated.
    pub fn text(self) -> &'static [u8]
        ensures { result.now ≡ spec.text_of self }
    {
        match self {
            Notice::Ready => b"READY=1",
            Notice::Alive => b"WATCHDOG=1",
            Notice::Stopping => b"STOPPING=1",
        }
    }
}

/// The bytes of the datagram that tells a status: a sentence for people, of one line.
pub fn status_text(alloc: Global, status: &str) -> Result<Vec<u8>, StatusError>
    ensures text { IfOk result (λ text. text.items ≡ spec.status_text status.now) }
    ensures one_line { IfOk result (λ _. spec.has_line_feed status.now ≡ false) }
    ensures line_feed { spec.has_line_feed status.now ≡ true → result ≡ Err StatusError.LineFeed }
{
    if status.as_bytes().contains(&b'\n') {
        return Err(StatusError::LineFeed);
    }
    let mut text = Vec::new(alloc);
    text.extend_from_slice(b"STATUS=")?;
    text.extend_from_slice(status.as_bytes())?;
    Ok(text)
}
