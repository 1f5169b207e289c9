//! What a job server was told last over a link, and for how long it has been silent since.

ghost use Rattle.std.specs.Prelude.{◌≡◌, ◌↔◌, IsTrue, drop, length, ◌++◌};
ghost use Rattle.server_link.specs.Talk as spec;

use byte_io::LAST_TIMEOUT;
use std::marker::Model;

/// GRAB_JOB_UNIQ, the request for a job.
const JOB_REQUEST: [u8; 12] = [0, b'R', b'E', b'Q', 0, 0, 0, 30, 0, 0, 0, 0];

/// The request for the status.
const STATUS_REQUEST: [u8; 7] = *b"status\n";

/// For how many milliseconds a job server may owe the answer to a request for a job, if 65 timeouts are not longer.
const SILENCE_MS: u64 = 10_000;

/// After how many milliseconds without a timeout one is answered though bytes wait.
const LOOK_MS: u64 = 1_000;

/// What a job server was told last over a link, and for how long it has been silent since.
#[derive(Drop)]
pub struct Talk {
    /// The last twelve bytes given.
    last: [u8; 12],
    /// How many timeouts there were since.
    timeouts: u32,
    /// Whether anything else came since.
    is_answered: bool,
    /// When the first read since began.
    began_ms: Option<u64>,
    /// When that was, or the last timeout, if one came.
    looked_ms: Option<u64>,
}

impl Model for Talk {
    ghost use Rattle.server_link.specs.Talk as meant;

    ghost Value = { meant.Talk };

    ghost view = { λ t. record {
      last = t.last;
      timeouts = t.timeouts;
      is_answered = t.is_answered;
      began_ms = t.began_ms;
      looked_ms = t.looked_ms;
    } };
}

/// The last twelve of twelve bytes and these.
fn last_of(before: [u8; 12], bytes: &[u8]) -> [u8; 12]
    ensures last { result ≡ drop (length bytes.now) (before ++ bytes.now) }
{
    let mut last = [0; 12];
    if bytes.len() >= 12 {
        last.copy_from_slice(&bytes[bytes.len() - 12..]);
        return last;
    }
    let kept = 12 - bytes.len();
    last[..kept].copy_from_slice(&before[bytes.len()..]);
    last[kept..].copy_from_slice(bytes);
    last
}

/// Whether this time is a second later than that, or more. Not if one of them is not known.
fn was_long_ago(looked_ms: Option<u64>, now_ms: Option<u64>) -> bool
    ensures ago { IsTrue result ↔ spec.WasLongAgo looked_ms now_ms }
{
    match (looked_ms, now_ms) {
        (Some(looked), Some(now)) => now >= looked && now - looked >= LOOK_MS,
        _ => false,
    }
}

impl Talk {
    /// Before anything is given.
    pub fn new() -> Talk
        ensures first { result ≡ spec.first_talk }
    {
        Talk {
            last: [0; 12],
            timeouts: 0,
            is_answered: false,
            began_ms: None,
            looked_ms: None,
        }
    }

    /// These bytes are given.
    pub fn tell(&mut self, bytes: &[u8])
        ensures told { self.new ≡ spec.told self.old bytes.now }
    {
        self.last = last_of(self.last, bytes);
        self.timeouts = 0;
        self.is_answered = false;
        self.began_ms = None;
        self.looked_ms = None;
    }

    /// A read begins at this time.
    pub fn begin(&mut self, now_ms: Option<u64>)
        ensures begun { self.new ≡ spec.begun self.old now_ms }
    {
        if self.began_ms.is_none() {
            self.began_ms = now_ms;
            self.looked_ms = now_ms;
        }
    }

    /// A read timed out at this time.
    pub fn wait(&mut self, now_ms: Option<u64>)
        ensures waited { self.new ≡ spec.waited self.old now_ms }
    {
        self.timeouts = self.timeouts.saturating_add(1);
        self.looked_ms = now_ms;
    }

    /// Something came.
    pub fn answer(&mut self)
        ensures answered { self.new ≡ spec.answered self.old }
    {
        self.is_answered = true;
    }

    /// A timeout is answered at this time.
    pub fn look(&mut self, now_ms: Option<u64>)
        ensures looked { self.new ≡ record self.old { looked_ms = now_ms } }
    {
        self.looked_ms = now_ms;
    }

    /// Whether the server has owed the answer to a request for a job for 65 timeouts, and for ten seconds if the clock shows them.
    pub fn is_silent(&self) -> bool
        ensures silent { IsTrue result ↔ spec.IsSilent self.now }
    {
        let has_passed = match (self.began_ms, self.looked_ms) {
            (Some(began), Some(looked)) => looked >= began && looked - began >= SILENCE_MS,
            _ => true,
        };
        self.last == JOB_REQUEST && !self.is_answered && self.timeouts >= LAST_TIMEOUT && has_passed
    }

    /// Whether what was given last is the request for the status.
    fn asks_for_status(&self) -> bool
        ensures status { IsTrue result ↔ spec.AsksForStatus self.now }
    {
        self.last.ends_with(&STATUS_REQUEST)
    }

    /// Whether a timeout is to be answered at this time though bytes may wait: the last one, or the first read since something was given,
    /// was a second ago or longer, and the server does not give its status.
    pub fn is_due(&self, now_ms: Option<u64>) -> bool
        ensures due { IsTrue result ↔ ((¬ spec.AsksForStatus self.now) × spec.WasLongAgo self.now.looked_ms now_ms) }
    {
        was_long_ago(self.looked_ms, now_ms) && !self.asks_for_status()
    }
}
