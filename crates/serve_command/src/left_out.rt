//! The line that says how many lines were left out.

use arrayvec::ArrayString;
use run_command::time_in_seconds;
use std::fmt;
use std::fmt::Write;
use std::time::Clock;

/// Room for the line: a line feed, the time of any year, the words, and any number.
const ROOM: usize = 96;

/// The line of so many lines that were left out, with a time or without.
fn write_count<R: Clock>(line: &mut ArrayString<ROOM>, rt: &R, count: u64) -> fmt::Result {
    match time_in_seconds(rt) {
        Some(time) => write!(line, "{time}")?,
        None => write!(line, "-")?,
    }
    write!(line, " left out {count} lines\n")
}

/// The line of so many lines that were left out, after the time as each other line is, with its line feed. If what is before it may be a
/// line in part, it begins with a line feed too. It takes no memory.
pub fn left_out_line<R: Clock>(rt: &R, count: u64, is_after_part: bool) -> ArrayString<ROOM> {
    let mut line = ArrayString::new();
    if is_after_part {
        let _ = line.try_push_str("\n");
    }
    // There is room for all of it.
    let _ = write_count(&mut line, rt, count);
    line
}
