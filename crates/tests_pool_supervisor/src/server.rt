//! A job server in memory, as far as the tests need one: its links, the jobs that it gives, and its status.
ghost use Rattle.std.specs.Prelude.{◌≡◌};

use crate::tally::{Happening, Tally};
use byte_io::{Device, DeviceFault, Sink, Source, Took};
use gear_packets::{Request, decode};
use pool_supervisor::Dial;
use std::alloc::{AllocError, Global};
use std::snapshot::Snapshot;
use std::thread;
use std::time::{Clock, Duration};

/// A job `H:a:1` of `reverse` with the unique id `u1` and the data `61 00 63`.
pub const ASSIGN: &[u8] = b"\0RES\0\0\0\x1f\0\0\0\x14H:a:1\0reverse\0u1\0a\0c";

const NO_JOB: &[u8] = b"\0RES\0\0\0\x0a\0\0\0\0";

/// After so many lulls a link ends, so that no test hangs.
const PATIENCE: u32 = 10_000;

/// What becomes of the link of a worker.
#[derive(Clone, Copy)]
pub enum Fate {
    /// It holds.
    Holds,
    /// It does not take the answer of this number, counted from 1.
    BreaksAt(u64),
    /// It ends once so many plans were asked for.
    EndsAt(u64),
}

/// What the server does with one worker.
#[derive(Clone, Copy)]
pub struct Part {
    /// The worker's name, as it says it.
    pub worker: &'static [u8],
    /// The function of its jobs. It is given none before it has said that it can do it.
    pub function: &'static [u8],
    /// The job that it is given at each request. Behind them there is none for it.
    pub jobs: &'static [&'static [u8]],
    /// What becomes of its link.
    pub fate: Fate,
}

/// A job server, which makes links to itself. A worker that has no part is given no job.
#[derive(Drop)]
pub struct Server<'a, R> {
    /// What links sleep by.
    pub rt: &'a R,
    /// Where memory comes from.
    pub alloc: Global,
    /// What happens is counted here.
    pub tally: &'a Tally,
    /// What it does with each worker.
    pub parts: &'static [Part],
    /// What it answers when it is asked for its status, the first time first. After them it has no function.
    pub statuses: &'static [&'static [u8]],
    /// So many dials fail before the first that does not.
    pub failing_dials: u64,
}

/// Counts that the link of a worker was closed.
struct Leaving<'a>(&'a Tally);

impl Drop for Leaving<'_> {
    fn drop(self) {
        let _before = self.0.add(Happening::Left);
        let Leaving(_) = self;
    }
}

/// A link to the server.
#[derive(Drop)]
pub struct Link<'a, R> {
    rt: &'a R,
    tally: &'a Tally,
    parts: &'static [Part],
    statuses: &'static [&'static [u8]],
    /// What is to be read, and how much of it was.
    text: Vec<u8>,
    at: usize,
    /// What the server does with the worker that has said its name.
    part: Option<Part>,
    leaving: Option<Leaving<'a>>,
    /// Whether it can do the function of its jobs.
    is_able: bool,
    given: usize,
    answered: u64,
    lulls: u32,
    failures: u64,
    has_ended: bool,
}

impl<R> Device for Link<'_, R> {
    ghost use Rattle.std.specs.Prelude.{None};

    ghost input = { λ l. record { given = None; lulls = None; failures = 0; has_ended = l.has_ended } };

    ghost output = { λ l. record { got = None; failures = l.failures } };
}

impl<'a, R> Link<'a, R> {
    /// What the server does with a worker of this name, if anything.
    fn part_of(&self, name: &[u8]) -> Option<Part> {
        for part in self.parts {
            if part.worker == name {
                return Some(*part);
            }
        }
        None
    }

    /// The worker says its name.
    fn meet(&mut self, name: &[u8])
        ensures { (self.new.has_ended ≡ self.old.has_ended) × (self.new.failures ≡ self.old.failures) }
    {
        self.leaving = Some(Leaving(self.tally));
        self.part = self.part_of(name);
    }

    /// Whether this is the function of the worker's jobs.
    fn has_jobs_of(&self, function: &[u8]) -> bool {
        match self.part {
            Some(part) => part.function == function,
            None => false,
        }
    }

    /// The worker asks for a job.
    fn give_job(&mut self) -> Result<(), AllocError>
        ensures { (self.new.has_ended ≡ self.old.has_ended) × (self.new.failures ≡ self.old.failures) }
    {
        let job = match self.part {
            Some(part) if self.is_able => part.jobs.get(self.given).copied(),
            _ => None,
        };
        match job {
            Some(job) => {
                self.given = self.given.saturating_add(1);
                self.text.extend_from_slice(job)
            }
            None => self.text.extend_from_slice(NO_JOB),
        }
    }

    /// The worker has answered a job.
    fn take_answer(&mut self)
        ensures { (self.new.has_ended ≡ self.old.has_ended) × (self.new.failures ≡ self.old.failures) }
    {
        self.answered = self.answered.saturating_add(1);
        let _before = self.tally.add(Happening::Answered);
    }

    /// What the server does at a request.
    fn hear(&mut self, request: Request) -> Result<(), AllocError>
        ensures { (self.new.has_ended ≡ self.old.has_ended) × (self.new.failures ≡ self.old.failures) }
    {
        match request {
            Request::SetClientId(name) => {
                self.meet(name);
                Ok(())
            }
            Request::CanDo(function) => {
                self.is_able = self.has_jobs_of(function);
                Ok(())
            }
            Request::CantDo(_) => {
                self.is_able = false;
                Ok(())
            }
            Request::GrabJobUniq => self.give_job(),
            Request::WorkComplete(_, _) | Request::WorkFail(_) => {
                self.take_answer();
                Ok(())
            }
            _ => Ok(()),
        }
    }

    /// What becomes of the link.
    fn fate(&self) -> Fate {
        match self.part {
            Some(part) => part.fate,
            None => Fate::Holds,
        }
    }

    /// Whether the text is the answer that the link does not take.
    fn is_broken_by(&self, text: &[u8]) -> bool {
        let Fate::BreaksAt(number) = self.fate() else {
            return false;
        };
        match decode(text) {
            Some((Request::WorkComplete(_, _) | Request::WorkFail(_), _)) => {
                number == self.answered.saturating_add(1)
            }
            _ => false,
        }
    }

    /// Hears the packets of a text.
    fn hear_all(&mut self, text: &[u8]) -> Result<(), AllocError>
        ensures { (self.new.has_ended ≡ self.old.has_ended) × (self.new.failures ≡ self.old.failures) }
    {
        let mut at = 0;
        while at < text.len() {
            let Some((request, length)) = decode(&text[at..]) else {
                return Ok(());
            };
            self.hear(request)?;
            at += length.max(1);
        }
        Ok(())
    }

    /// Tells the status whose turn it is.
    fn tell_status(&mut self) -> Result<(), AllocError>
        ensures { (self.new.has_ended ≡ self.old.has_ended) × (self.new.failures ≡ self.old.failures) }
    {
        let number = self.tally.add(Happening::Asked);
        let text = match self.statuses.get(number as usize) {
            Some(text) => *text,
            None => b".\n",
        };
        self.text.extend_from_slice(text)
    }

    /// Whether there is nothing more to come. A link that has waited for too long counts as a wait that was given up.
    fn is_over(&self) -> bool {
        match self.fate() {
            Fate::EndsAt(plans) if self.tally.count(Happening::Planned) >= plans => true,
            _ if self.lulls < PATIENCE => false,
            _ => {
                self.tally.give_up();
                true
            }
        }
    }
}

impl<R: Clock> Source for Link<'_, R> {
    fn take(&mut self, buffer: &mut [u8]) -> Result<Took, DeviceFault> {
        self.has_ended = false;
        if self.at < self.text.len() {
            let count = buffer.len().min(self.text.len() - self.at);
            buffer[..count].copy_from_slice(&self.text[self.at..self.at + count]);
            self.at += count;
            return Ok(Took::Bytes(count));
        }
        if self.is_over() {
            self.has_ended = true;
            return Ok(Took::Ended);
        }
        self.lulls = self.lulls.saturating_add(1);
        thread::sleep(self.rt, Duration::from_millis(1));
        Ok(Took::Lull)
    }
}

impl<R> Sink for Link<'_, R> {
    fn give(&mut self, bytes: &[u8]) -> Result<usize, DeviceFault> {
        if self.is_broken_by(bytes) {
            self.failures += 1;
            return Err(DeviceFault);
        }
        let heard = if bytes == b"status\n".as_slice() {
            self.tell_status()
        } else {
            self.hear_all(bytes)
        };
        match heard {
            Ok(()) => Ok(bytes.len()),
            Err(_) => {
                self.failures += 1;
                Err(DeviceFault)
            }
        }
    }
}

impl<'a, R: Clock> Dial<Link<'a, R>> for Server<'a, R> {
    ghost use Rattle.std.specs.Prelude.{◌≡◌, None};

    ghost calls = { λ _. None };

    fn hung_up(&mut self, _link: Snapshot<Link<'a, R>>)
        ensures { self.new ≡ self.old }
    {}

    fn dial(&mut self) -> Option<Link<'a, R>> {
        if self.failing_dials > 0 {
            self.failing_dials -= 1;
            return None;
        }
        Some(Link {
            rt: self.rt,
            tally: self.tally,
            parts: self.parts,
            statuses: self.statuses,
            text: Vec::new(self.alloc),
            at: 0,
            part: None,
            leaving: None,
            is_able: false,
            given: 0,
            answered: 0,
            lulls: 0,
            failures: 0,
            has_ended: false,
        })
    }
}
