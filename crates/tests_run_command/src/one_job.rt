//! A host whose job server has one job.

use byte_io::{Device, DeviceFault, Sink, Source, Took};
use run_command::{Attempted, Host, Progress, Watch};
use std::alloc::{AllocError, Global};
use std::sync::atomic::{AtomicU64, Ordering};
use std::sync::{Arc, Wait};
use std::thread;
use std::thread::Threads;
use std::time::{Clock, Duration};

/// The request for a job, GRAB_JOB_UNIQ.
const GRAB: [u8; 12] = [0, 82, 69, 81, 0, 0, 0, 30, 0, 0, 0, 0];

/// JOB_ASSIGN_UNIQ: the job H:a:1 for `reverse`, with the unique id u1 and the input a, NUL, c.
const ASSIGN: [u8; 32] = [
    0, 82, 69, 83, 0, 0, 0, 31, 0, 0, 0, 20, 72, 58, 97, 58, 49, 0, 114, 101, 118, 101, 114, 115,
    101, 0, 117, 49, 0, 97, 0, 99,
];

/// WORK_COMPLETE of that job: its result is c, NUL, a.
const COMPLETE: [u8; 21] = [
    0, 82, 69, 81, 0, 0, 0, 13, 0, 0, 0, 9, 72, 58, 97, 58, 49, 0, 99, 0, 97,
];

const NO_JOB: [u8; 12] = [0, 82, 69, 83, 0, 0, 0, 10, 0, 0, 0, 0];

/// How many milliseconds a link waits at most, so that no test hangs.
const PATIENCE: u32 = 10_000;

/// What the links of the server share.
#[derive(Drop)]
struct Desk {
    /// How often the job was given, and NO_JOB after it.
    grabs: Arc<AtomicU64>,
    /// How often the job was answered.
    answers: Arc<AtomicU64>,
    /// How often the status was asked for.
    asked: Arc<AtomicU64>,
}

impl Desk {
    fn new(alloc: Global) -> Result<Desk, AllocError> {
        Ok(Desk {
            grabs: Arc::new(alloc, AtomicU64::new(0))?,
            answers: Arc::new(alloc, AtomicU64::new(0))?,
            asked: Arc::new(alloc, AtomicU64::new(0))?,
        })
    }

    fn share(&self) -> Result<Desk, AllocError> {
        Ok(Desk {
            grabs: Arc::try_clone(&self.grabs)?,
            answers: Arc::try_clone(&self.answers)?,
            asked: Arc::try_clone(&self.asked)?,
        })
    }
}

/// A link to the server: what was written to it decides what it gives.
#[derive(Drop)]
pub struct Line<R: Drop> {
    rt: R,
    desk: Desk,
    /// What it has to give.
    text: Vec<u8>,
    lulls: u32,
    has_ended: bool,
}

impl<R: Drop> Device for Line<R> {
    ghost use Rattle.std.specs.Prelude.{None};

    ghost input = { λ l. record { given = None; lulls = None; failures = 0; has_ended = l.has_ended } };

    ghost output = { λ _. record { got = None; failures = 0 } };
}

impl<R: Clock + Drop> Line<R> {
    /// Waits until the job was answered, but not for ever.
    fn wait_for_answer(&self) {
        for _ in 0..PATIENCE {
            if self.desk.answers.load(Ordering::SeqCst) > 0 {
                return;
            }
            thread::sleep(&self.rt, Duration::from_millis(1));
        }
    }

    /// The first status is sent at once, with the job waiting, and each later one when it was answered.
    fn status(&self) -> &'static [u8] {
        if self.desk.asked.fetch_add(1, Ordering::SeqCst) == 0 {
            return b"reverse\t1\t0\t0\n.\n";
        }
        self.wait_for_answer();
        b"reverse\t0\t0\t1\n.\n"
    }

    /// What is given for a text that was written.
    fn answer(&self, text: &[u8]) -> &'static [u8] {
        if text == b"status\n".as_slice() {
            return self.status();
        }
        if text == COMPLETE.as_slice() {
            let _ = self.desk.answers.fetch_add(1, Ordering::SeqCst);
        }
        if !text.ends_with(&GRAB) {
            return b"";
        }
        if self.desk.grabs.fetch_add(1, Ordering::SeqCst) == 0 {
            &ASSIGN
        } else {
            &NO_JOB
        }
    }
}

impl<R: Clock + Drop> Source for Line<R> {
    fn take(&mut self, buffer: &mut [u8]) -> Result<Took, DeviceFault> {
        self.has_ended = false;
        let count = buffer.len().min(self.text.len());
        if count > 0 {
            buffer[..count].copy_from_slice(&self.text[..count]);
            self.text.drain(..count);
            return Ok(Took::Bytes(count));
        }
        if self.lulls >= PATIENCE {
            self.has_ended = true;
            return Ok(Took::Ended);
        }
        self.lulls += 1;
        thread::sleep(&self.rt, Duration::from_millis(1));
        Ok(Took::Lull)
    }
}

impl<R: Clock + Drop> Sink for Line<R> {
    fn give(&mut self, bytes: &[u8]) -> Result<usize, DeviceFault> {
        let answer = self.answer(bytes);
        let _ = self.text.extend_from_slice(answer);
        Ok(bytes.len())
    }
}

/// A host that reaches this server. Its clock is always at noon, and its pauses are over at once.
#[derive(Drop)]
pub struct OneJob<R: Drop> {
    rt: R,
    alloc: Global,
    desk: Desk,
}

impl<R: Drop> OneJob<R> {
    pub fn new(rt: R, alloc: Global) -> Result<OneJob<R>, AllocError> {
        Ok(OneJob {
            rt,
            alloc,
            desk: Desk::new(alloc)?,
        })
    }
}

impl<R: Threads + Drop> Threads for OneJob<R> {}

impl<R: Wait + Drop> Wait for OneJob<R> {}

impl<R: Drop> Watch for OneJob<R> {
    fn now_ms(&self) -> Option<u64> {
        Some(43_200_000)
    }

    fn pause(&self, _milliseconds: u32) {}
}

impl<R: Drop> Progress for OneJob<R> {
    fn attempted(&self, _made: &Attempted<'_>) {}
}

impl<R: Threads + Wait + Clock + Copy + Send + Sync + Drop> Host for OneJob<R> {
    type Link = Line<R>;

    fn reach(&self, _server: &str, _lull_ms: u32) -> Option<Line<R>> {
        Some(Line {
            rt: self.rt,
            desk: self.desk.share().ok()?,
            text: Vec::new(self.alloc),
            lulls: 0,
            has_ended: false,
        })
    }
}
