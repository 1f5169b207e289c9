//! Why workers are lost.

ghost use Rattle.std.specs.Prelude.{◌≡◌};
ghost use Rattle.worker_state.specs.Causes.{cause_named};

use refusal::{Label, Labelled};

/// Why a worker was lost.
#[derive(Clone, Copy, Debug, PartialEq, Eq)]
pub enum Cause {
    /// The server sent what is no response, or a job that nobody asked for.
    BadPacket,
    /// The server sent an ERROR packet.
    ServerError,
    /// The link failed at a read.
    ReadFault,
    /// The link failed at a write.
    WriteFault,
    /// The session made as many reads as it was given.
    TurnsUsed,
    /// There was no memory.
    Memory,
    /// The pool's history had no room for one more job.
    HistoryFull,
    /// The server closed the link.
    Closed,
    /// The worker was ordered to stop.
    Stopped,
    /// Its job took longer than a job may take.
    Late,
    /// What does its jobs did not take one, or did not say how it ended.
    Unserved,
}

/// The causes that a text may name.
const NAMED: [Cause; 10] = [
    Cause::BadPacket,
    Cause::ServerError,
    Cause::ReadFault,
    Cause::WriteFault,
    Cause::TurnsUsed,
    Cause::Memory,
    Cause::HistoryFull,
    Cause::Closed,
    Cause::Stopped,
    Cause::Late,
];

impl Cause {
    /// The cause that a text means by this name. No text may name [`Unserved`](Cause::Unserved).
    pub fn named(name: &[u8]) -> Option<Cause>
        ensures { result ≡ cause_named name.now }
    {
        NAMED
            .iter()
            .find(|cause| cause.label().name().as_bytes() == name)
            .copied()
    }
}

/// The number and the name of a cause, as texts give them. 1 and 2 are ends of a session that lose no worker.
impl Labelled for Cause {
    ghost use Rattle.worker_state.specs.Causes.{cause_label};

    ghost label = { cause_label };

    fn label(&self) -> Label {
        match self {
            Cause::BadPacket => Label::new(3, "BadPacket"),
            Cause::ServerError => Label::new(4, "ServerError"),
            Cause::ReadFault => Label::new(5, "ReadFault"),
            Cause::WriteFault => Label::new(6, "WriteFault"),
            Cause::TurnsUsed => Label::new(7, "TurnsUsed"),
            Cause::Memory => Label::new(8, "Memory"),
            Cause::HistoryFull => Label::new(9, "HistoryFull"),
            Cause::Closed => Label::new(10, "Closed"),
            Cause::Stopped => Label::new(11, "Stopped"),
            Cause::Late => Label::new(12, "Late"),
            Cause::Unserved => Label::new(13, "Unserved"),
        }
    }
}
