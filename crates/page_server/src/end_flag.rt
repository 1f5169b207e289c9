//! A flag that ends a farm, and a bell. Each cuts a rest short.

use std::io::{ErrorKind, Read};
use std::mem;
use std::sync::{Condvar, Mutex, Wait};
use std::time::{Clock, Duration};

/// What cuts a rest short.
#[derive(Clone, Copy, Drop)]
struct Calls {
    /// The farm has to end.
    is_raised: bool,
    /// The bell was rung, and nobody has heard it yet.
    is_rung: bool,
}

/// Whether a farm has to end. Once it is raised it stays raised. It has a bell besides, for who rests until something happens.
#[derive(Drop)]
pub struct EndFlag {
    calls: Mutex<Calls>,
    called: Condvar,
}

impl EndFlag {
    /// A flag that is not raised.
    pub fn new() -> EndFlag {
        EndFlag {
            calls: Mutex::new(Calls {
                is_raised: false,
                is_rung: false,
            }),
            called: Condvar::new(),
        }
    }

    /// Raises it, and wakes whoever rests on it.
    pub fn raise<R: Wait>(&self, rt: &R) {
        self.calls.lock(rt).is_raised = true;
        self.called.notify_all();
    }

    /// Rings the bell: who rests until it rings, or does so next, goes on.
    pub fn ring<R: Wait>(&self, rt: &R) {
        self.calls.lock(rt).is_rung = true;
        self.called.notify_all();
    }

    /// Whether it is raised.
    pub fn is_raised<R: Wait>(&self, rt: &R) -> bool {
        self.calls.lock(rt).is_raised
    }

    /// Waits for so many milliseconds, or until it is raised.
    pub fn rest<R: Wait + Clock>(&self, rt: &R, milliseconds: u32) {
        let held = self.calls.lock(rt);
        let most = Duration::from_millis(milliseconds as u64);
        let _ = self
            .called
            .wait_timeout_while(rt, held, most, |calls| !calls.is_raised);
    }

    /// Waits for so many milliseconds, or until it is raised, or the bell rings. Whether the bell has rung since this last said so.
    pub fn rest_until_rung<R: Wait + Clock>(&self, rt: &R, milliseconds: u32) -> bool {
        let held = self.calls.lock(rt);
        let most = Duration::from_millis(milliseconds as u64);
        let (mut held, _) = self
            .called
            .wait_timeout_while(rt, held, most, |calls| !calls.is_raised && !calls.is_rung);
        mem::replace(&mut held.is_rung, false)
    }
}

/// For how many milliseconds an input that has nothing to read now is left alone.
const NOTHING_NOW_MS: u32 = 100;

/// Reads this input until it ends or fails, and then raises the flag. An input that does not block may have nothing to read now: it has not
/// ended, and is read again a little later, if the flag is not raised by then.
pub fn end_with_input<S: Read, R: Wait + Clock>(rt: &R, input: &mut S, flag: &EndFlag) {
    let mut buffer = [0u8; 256];
    for _ in 0..u64::MAX {
        match input.read(&mut buffer) {
            Ok(0) => break,
            Ok(_) => {}
            Err(error) if error.kind() == ErrorKind::Interrupted => {}
            Err(error) if error.kind() == ErrorKind::WouldBlock => {
                flag.rest(rt, NOTHING_NOW_MS);
                // Else a rest, which is over at once then, would keep a processor busy until the farm has ended.
                if flag.is_raised(rt) {
                    return;
                }
            }
            Err(_) => break,
        }
    }
    flag.raise(rt);
}
