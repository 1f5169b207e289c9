//! What a page shows, swapped whole.

use std::alloc::AllocError;
use std::mem;
use std::sync::{Arc, Mutex, Wait};
use std::time::{Clock, Duration};

/// Something that is shown, since this moment of the monotonic clock. None if that could not be read.
#[derive(Drop)]
struct Showing<T> {
    what: Arc<T>,
    since: Option<Duration>,
}

/// What a page shows, if there is anything yet. The lock is held for a swap or for a count, and never while something to show is made or
/// dropped.
#[derive(Drop)]
pub struct Shown<T> {
    current: Mutex<Option<Showing<T>>>,
}

/// How many milliseconds ago a moment was. It is the longest time if that is not known.
fn age_ms<R: Clock>(rt: &R, since: Option<Duration>) -> u64 {
    let (Some(since), Ok(now)) = (since, rt.monotonic()) else {
        return u64::MAX;
    };
    u64::try_from(now.saturating_sub(since).as_millis()).unwrap_or(u64::MAX)
}

impl<T: Drop> Shown<T> {
    /// Nothing yet.
    pub fn new() -> Shown<T> {
        Shown {
            current: Mutex::new(None),
        }
    }

    /// Shows this from now on.
    pub fn show<R: Wait + Clock>(&self, rt: &R, next: Arc<T>) {
        let showing = Showing {
            what: next,
            since: rt.monotonic().ok(),
        };
        let mut held = self.current.lock(rt);
        let before = mem::replace(&mut *held, Some(showing));
        drop(held);
        drop(before);
    }

    /// What is shown now, and for how many milliseconds it has been. None if there is nothing yet. The only error is out of memory.
    pub fn current<R: Wait + Clock>(&self, rt: &R) -> Result<Option<(Arc<T>, u64)>, AllocError> {
        let held = self.current.lock(rt);
        match &*held {
            Some(showing) => {
                let what = Arc::try_clone(&showing.what)?;
                Ok(Some((what, age_ms(rt, showing.since))))
            }
            None => Ok(None),
        }
    }
}
