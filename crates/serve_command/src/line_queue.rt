//! Lines on their way to whoever reads them.

use crate::left_out::left_out_line;
use std::alloc::{AllocError, Global};
use std::collections::VecDeque;
use std::io::{ErrorKind, Write};
use std::sync::{Condvar, Mutex, Wait};
use std::time::{Clock, Duration};
use std::{io, thread};

/// How many lines wait at most. Whoever reads them may fall behind so far, and no line is left out.
const MOST_WAITING: usize = 4_096;

/// For how many milliseconds an output that has no room now is left alone.
const NO_ROOM_MS: u64 = 10;

/// The lines that wait.
#[derive(Drop)]
struct Waiting {
    lines: VecDeque<String>,
    /// How many lines were left out since the last one that was taken.
    left_out: u64,
    /// The lines that come after all of these.
    last: VecDeque<String>,
    /// No more lines come.
    is_closed: bool,
    /// The last one was taken.
    is_done: bool,
}

/// What is taken from a queue.
#[derive(Debug, PartialEq, Eq, Drop)]
pub enum Taken {
    /// The next line.
    Line(String),
    /// So many lines were left out here: there was no room for them, or no memory.
    LeftOut(u64),
}

/// Lines on their way to a thread that writes them. Whoever puts one in never waits for that thread: a line that finds 4,096 before it is
/// left out, and counted, but for the last lines.
#[derive(Drop)]
pub struct LineQueue {
    waiting: Mutex<Waiting>,
    changed: Condvar,
}

impl LineQueue {
    /// A queue without lines.
    pub fn new(alloc: Global) -> LineQueue {
        LineQueue {
            waiting: Mutex::new(Waiting {
                lines: VecDeque::new(alloc),
                left_out: 0,
                last: VecDeque::new(alloc),
                is_closed: false,
                is_done: false,
            }),
            changed: Condvar::new(),
        }
    }

    /// Puts in a line, or counts one for which there is no memory.
    pub fn put<R: Wait>(&self, rt: &R, line: Result<String, AllocError>) {
        let mut held = self.waiting.lock(rt);
        if !held.put(line) {
            held.left_out = held.left_out.saturating_add(1);
        }
        self.changed.notify_all();
    }

    /// Puts in one of the last lines, which comes after all others, however many wait, or counts one for which there is no memory.
    pub fn put_last<R: Wait>(&self, rt: &R, line: Result<String, AllocError>) {
        let mut held = self.waiting.lock(rt);
        if !held.put_last(line) {
            held.left_out = held.left_out.saturating_add(1);
        }
        self.changed.notify_all();
    }

    /// The next line, or how many were left out before it. It waits for one. None if the queue is closed and all were taken.
    pub fn take<R: Wait>(&self, rt: &R) -> Option<Taken> {
        let held = self.waiting.lock(rt);
        let mut held = self.changed.wait_while(
            rt,
            held,
            |waiting| waiting.is_empty() && !waiting.is_closed,
        );
        let taken = held.take();
        held.is_done = taken.is_none();
        self.changed.notify_all();
        taken
    }

    /// Says that no more lines come, and waits until all were taken, but no longer than so many milliseconds.
    pub fn close<R: Wait + Clock>(&self, rt: &R, milliseconds: u32) {
        let mut held = self.waiting.lock(rt);
        held.is_closed = true;
        self.changed.notify_all();
        let most = Duration::from_millis(milliseconds as u64);
        let _ = self
            .changed
            .wait_timeout_while(rt, held, most, |waiting| !waiting.is_done);
    }
}

impl Waiting {
    fn is_empty(&self) -> bool {
        self.lines.is_empty() && self.left_out == 0 && self.last.is_empty()
    }

    /// Puts in a line. Whether it was put in. After lines that were left out none comes before their number was taken, so that this
    /// stands where they would.
    fn put(&mut self, line: Result<String, AllocError>) -> bool {
        match line {
            Ok(line) if self.left_out == 0 && self.lines.len() < MOST_WAITING => {
                self.lines.push_back(line).is_ok()
            }
            _ => false,
        }
    }

    /// Puts in one of the last lines. Whether it was put in.
    fn put_last(&mut self, line: Result<String, AllocError>) -> bool {
        match line {
            Ok(line) => self.last.push_back(line).is_ok(),
            Err(_) => false,
        }
    }

    /// What comes next.
    fn take(&mut self) -> Option<Taken> {
        if let Some(line) = self.lines.pop_front() {
            return Some(Taken::Line(line));
        }
        if self.left_out == 0 {
            return self.last.pop_front().map(Taken::Line);
        }
        let left_out = self.left_out;
        self.left_out = 0;
        Some(Taken::LeftOut(left_out))
    }
}

/// Writes this text, in one write if the output takes it whole. An output that does not block is waited for, as one that blocks waits.
fn write_whole<R: Clock, W: Write>(rt: &R, output: &mut W, text: &[u8]) -> io::Result<()> {
    let mut left = text;
    for _ in 0..u64::MAX {
        if left.is_empty() {
            return Ok(());
        }
        match output.write(left) {
            Ok(0) => return Err(ErrorKind::WriteZero.into()),
            Ok(count) => left = left.get(count..).unwrap_or(&[]),
            Err(error) => match error.kind() {
                ErrorKind::Interrupted => {}
                ErrorKind::WouldBlock => {
                    thread::sleep(rt, Duration::from_millis(NO_ROOM_MS));
                }
                _ => return Err(error),
            },
        }
    }
    Err(ErrorKind::TimedOut.into())
}

/// Lines that were not written, and are not told yet.
#[derive(Clone, Copy)]
struct Untold {
    /// How many.
    count: u64,
    /// The last that was written may be there in part.
    may_be_cut: bool,
}

impl Untold {
    /// None yet.
    fn none() -> Untold {
        Untold {
            count: 0,
            may_be_cut: false,
        }
    }

    /// So many more.
    fn add(&mut self, count: u64) {
        self.count = self.count.saturating_add(count);
    }

    /// Writes this text. If it cannot be written it may be there in part.
    fn write<R: Clock, W: Write>(&mut self, rt: &R, output: &mut W, text: &[u8]) -> io::Result<()> {
        let written = write_whole(rt, output, text);
        self.may_be_cut = written.is_err();
        written
    }

    /// Writes how many there are, if there are any. If that cannot be written they stay counted.
    fn tell<R: Clock, W: Write>(&mut self, rt: &R, output: &mut W) -> io::Result<()> {
        if self.count == 0 {
            return Ok(());
        }
        let line = left_out_line(rt, self.count, self.may_be_cut);
        self.write(rt, output, line.as_bytes())?;
        self.count = 0;
        Ok(())
    }

    /// Writes a line after the number of those that were left out before it. If that cannot be written the line is one of them.
    fn write_line<R: Clock, W: Write>(&mut self, rt: &R, output: &mut W, line: &str) {
        let told = self.tell(rt, output);
        if told.is_err() || self.write(rt, output, line.as_bytes()).is_err() {
            self.add(1);
        }
    }
}

/// Writes each line of the queue, each in one write if the output takes it whole, and how many were left out, until the queue is closed and
/// all lines were taken. What cannot be written is lost and counted. A line after it is tried once that number could be written, which
/// takes no memory.
pub fn write_lines<R: Wait + Clock, W: Write>(rt: &R, queue: &LineQueue, output: &mut W) {
    let mut untold = Untold::none();
    for _ in rt.forever() {
        match queue.take(rt) {
            Some(Taken::Line(line)) => untold.write_line(rt, output, line.as_str()),
            Some(Taken::LeftOut(count)) => {
                untold.add(count);
                let _ = untold.tell(rt, output);
            }
            None => {
                let _ = untold.tell(rt, output);
                return;
            }
        }
    }
}
