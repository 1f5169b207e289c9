//! What somebody who drains a farm waits for.

use std::alloc::{AllocError, Global};
use std::sync::{Condvar, Mutex, Wait};
use std::time::{Clock, Duration};

/// What a farm came to, for those who wait for it.
#[derive(Drop)]
pub struct EndText {
    text: Mutex<Option<String>>,
    told: Condvar,
}

impl EndText {
    /// That of a farm that goes on.
    pub fn new() -> EndText {
        EndText {
            text: Mutex::new(None),
            told: Condvar::new(),
        }
    }

    /// The farm has ended, and came to this.
    pub fn tell<R: Wait>(&self, rt: &R, text: String) {
        *self.text.lock(rt) = Some(text);
        self.told.notify_all();
    }

    /// What the farm came to, for which it waits, but no longer than so many milliseconds. None if it goes on. The only error is out of
    /// memory.
    pub fn wait<R: Wait + Clock>(
        &self,
        rt: &R,
        alloc: Global,
        milliseconds: u32,
    ) -> Result<Option<String>, AllocError> {
        let held = self.text.lock(rt);
        let most = Duration::from_millis(milliseconds as u64);
        let (held, _) = self
            .told
            .wait_timeout_while(rt, held, most, |text| text.is_none());
        match &*held {
            Some(text) => Ok(Some(String::from_str(alloc, text.as_str())?)),
            None => Ok(None),
        }
    }
}
