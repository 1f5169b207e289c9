//! Whether threads can be started for more workers.

use crate::waits::{Lack, lacking_again};
use std::sync::{Mutex, Wait};

/// What is new of the threads.
#[derive(Clone, Copy, Debug, PartialEq, Eq)]
pub enum ThreadNews {
    /// A thread was refused, and none was before.
    Lacking,
    /// A thread was started again.
    Present,
}

impl ThreadNews {
    /// Its line.
    pub fn line(self) -> &'static str {
        match self {
            ThreadNews::Lacking => "lacksthreads",
            ThreadNews::Present => "hasthreads",
        }
    }
}

/// What is known of the threads.
#[derive(Drop)]
struct Known {
    /// The number of the attempt that is made now, from 1.
    attempt: u64,
    /// The last refusal, if no thread was started since.
    refusal: Option<Lack>,
    /// Whether it was reported that threads are lacking.
    are_lacking: bool,
}

impl Known {
    /// What is new after the attempt.
    fn news(&self) -> Option<ThreadNews> {
        match (self.are_lacking, self.refusal) {
            (false, Some(_)) => Some(ThreadNews::Lacking),
            (true, None) => Some(ThreadNews::Present),
            _ => None,
        }
    }
}

/// Whether threads can be started for more workers. That is only seen by starting one, which uses up a worker of its slot. After a refusal
/// none is tried for the rest of that attempt, and then for as many attempts as twice the wait before, until one is started. A worker that
/// ends leaves its thread: then one is tried at once.
#[derive(Drop)]
pub struct ThreadRoom {
    known: Mutex<Known>,
}

impl ThreadRoom {
    /// That of a farm before its first attempt.
    pub fn new() -> ThreadRoom {
        ThreadRoom {
            known: Mutex::new(Known {
                attempt: 1,
                refusal: None,
                are_lacking: false,
            }),
        }
    }

    /// Whether a thread for one more worker may be tried.
    pub fn allows_start<R: Wait>(&self, rt: &R) -> bool {
        let held = self.known.lock(rt);
        match held.refusal {
            None => true,
            Some(refusal) => refusal.is_due(held.attempt),
        }
    }

    /// A thread was started.
    pub fn note_start<R: Wait>(&self, rt: &R) {
        self.known.lock(rt).refusal = None;
    }

    /// A thread was refused.
    pub fn note_refusal<R: Wait>(&self, rt: &R) {
        let mut held = self.known.lock(rt);
        let attempt = held.attempt;
        held.refusal = Some(lacking_again(held.refusal, attempt));
    }

    /// A worker has ended, and so has its thread: another may be started.
    pub fn note_end<R: Wait>(&self, rt: &R) {
        let mut held = self.known.lock(rt);
        let attempt = held.attempt;
        if let Some(refusal) = held.refusal {
            held.refusal = Some(refusal.due_now(attempt));
        }
    }

    /// Whether threads were lacking in the last attempt.
    pub fn is_lacking<R: Wait>(&self, rt: &R) -> bool {
        self.known.lock(rt).are_lacking
    }

    /// The attempt is over, and the next begins. What is new of the threads after it.
    pub fn begin_attempt<R: Wait>(&self, rt: &R) -> Option<ThreadNews> {
        let mut held = self.known.lock(rt);
        let news = held.news();
        held.are_lacking = held.refusal.is_some();
        held.attempt = held.attempt.saturating_add(1);
        news
    }
}
