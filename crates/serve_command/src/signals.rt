//! The signals that drain a farm.

use devices::Folder;
use end_signals::{EndSignals, SignalsUnread, read_signals};
use page_server::EndFlag;
use std::alloc::{AllocError, Global};
use std::sync::Wait;
use std::time::Clock;

/// For how many milliseconds at most a signal that came is not seen.
const UNSEEN_MS: u32 = 200;

/// The line that says which signals drain a farm, as `drains at SIGTERM and SIGINT`, `drains at no signal` or `drains at no signal (WHY)`.
/// The only error is out of memory.
pub fn signals_line(
    alloc: Global,
    signals: &Result<EndSignals, SignalsUnread>,
) -> Result<String, AllocError> {
    match signals {
        Ok(signals) => format!(in alloc; "drains at {signals}"),
        Err(why) => format!(in alloc; "drains at no signal ({why})"),
    }
}

/// Whether a signal waits that was blocked when the program started. A look that fails, as if no more files may be open, sees none: the
/// signal stays, and another look may see it.
fn has_come<F: Folder>(files: &F, alloc: Global) -> bool {
    read_signals(files, alloc).is_ok_and(|status| status.came() != EndSignals::Neither)
}

/// Raises the flag once a signal waits that was blocked when the program started: it looks five times a second, and rests meanwhile. It
/// returns once the flag is raised, by whomever.
pub fn drain_at_signals<F: Folder, R: Wait + Clock>(
    rt: &R,
    files: &F,
    alloc: Global,
    flag: &EndFlag,
) {
    for _ in 0..u64::MAX {
        if flag.is_raised(rt) {
            return;
        }
        if has_come(files, alloc) {
            break;
        }
        flag.rest(rt, UNSEEN_MS);
    }
    flag.raise(rt);
}
