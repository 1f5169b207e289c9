//! The system as the host of a run.
ghost use Rattle.std.specs.Prelude.{IfSome};
ghost use Rattle.job_runner.specs.Run.{seen_link};
ghost use Rattle.pool_supervisor.specs.Dials.{IsNew};

use crate::host::Host;
use crate::watching::{attempt_note, end_notes, job_note, worker_note};
use byte_io::Device;
use devices::{Caller, DialError, TcpLink};
use jiff::Timestamp;
use link_options::LinkOptions;
use plan_model::FuncId;
use pool_settings::Settings;
use pool_supervisor::{Attempt, Attempted, EndedWorker, Progress, RunEnd, Watch};
use std::alloc::{AllocError, Global};
use std::net::{Net, SocketAddr, TcpStream};
use std::rt::{Clock, Env};
use std::sync::{Mutex, Wait};
use std::thread::Threads;
use std::time::Duration;
use std::{env, thread};

/// The variable of the environment by which a run is watched.
const WATCH: &str = "POOLMAN_WATCH";

/// The time, in whole seconds. None if the system does not show it.
pub fn time_in_seconds<R: Clock>(rt: &R) -> Option<Timestamp> {
    let now = Timestamp::now(rt).ok()?;
    Timestamp::from_second(now.as_second()).ok()
}

/// Whether the job server gave no status in this attempt.
pub fn gave_no_status(attempt: &Attempt) -> bool {
    matches!(attempt, Attempt::NoLink | Attempt::Status(_))
}

/// The system as the host of a run: its threads, TCP, its monotonic clock, and its standard error.
///
/// If the run is watched, each function without a job, each attempt, each end of a worker, and what the run came to are written to standard
/// error when they are reported, each line after the time, as RFC 3339 writes it; else nothing is. A line whose write fails is left out. A
/// write waits while nobody reads standard error, and so do the attempts; workers go on.
#[derive(Drop)]
pub struct System<R> {
    rt: R,
    is_watched: bool,
    /// Why the last dial failed, if it did.
    unreached: Mutex<Option<DialError>>,
    /// The address of the job server that took the last link, if one did.
    known: Mutex<Option<SocketAddr>>,
}

impl<R: Env + Alloc> System<R> {
    /// The system, whose runs are watched if the variable `POOLMAN_WATCH` is `1`.
    pub fn new(rt: R) -> System<R> {
        let is_watched = match env::var(&rt, WATCH) {
            Ok(value) => value.as_str() == "1",
            Err(_) => false,
        };
        System {
            rt,
            is_watched,
            unreached: Mutex::new(None),
            known: Mutex::new(None),
        }
    }
}

impl<R: Wait> System<R> {
    /// Why the last dial of the job server failed, if it did.
    pub fn last_failure(&self) -> Option<DialError> {
        *self.unreached.lock(&self.rt)
    }

    /// Forgets where the job server was.
    fn forget(&self) {
        *self.known.lock(&self.rt) = None;
    }

    /// Keeps what became of a dial.
    fn keep(&self, failure: Option<DialError>) {
        *self.unreached.lock(&self.rt) = failure;
    }
}

impl<R: Clock + Eprint + Alloc<A = Global>> System<R> {
    /// Writes a line to standard error, after the time.
    fn write(&self, line: &str) {
        let written = match time_in_seconds(&self.rt) {
            Some(time) => self.rt.eprintln(format_args!("{time} {line}")),
            None => self.rt.eprintln(line),
        };
        let _ = written;
    }

    /// Writes this line, if there was memory for it.
    fn write_line(&self, line: Result<String, AllocError>) {
        if let Ok(line) = line {
            self.write(line.as_str());
        }
    }

    /// Writes these lines, if there was memory for them.
    fn write_lines(&self, lines: Result<Vec<String>, AllocError>) {
        if let Ok(lines) = lines {
            for line in &lines {
                self.write(line.as_str());
            }
        }
    }
}

impl<R: Threads> Threads for System<R> {}

impl<R: Wait> Wait for System<R> {}

impl<R: Clock> Watch for System<R> {
    fn now_ms(&self) -> Option<u64> {
        let time = self.rt.monotonic().ok()?;
        u64::try_from(time.as_millis()).ok()
    }

    fn pause(&self, milliseconds: u32) {
        thread::sleep(&self.rt, Duration::from_millis(milliseconds as u64));
    }
}

impl<R: Wait + Clock + Eprint + Alloc<A = Global>> Progress for System<R> {
    fn lacks_job(&self, settings: &Settings, function: FuncId) {
        if self.is_watched {
            self.write_line(job_note(self.rt.alloc(), settings, function));
        }
    }

    fn attempted(&self, made: &Attempted<'_>) {
        if gave_no_status(made.attempt) && self.last_failure().is_none() {
            self.forget();
        }
        if self.is_watched {
            self.write_line(attempt_note(self.rt.alloc(), made, self.last_failure()));
        }
    }

    fn ended(&self, ended: &EndedWorker<'_>) {
        if self.is_watched {
            self.write_line(worker_note(self.rt.alloc(), ended));
        }
    }

    fn finished(&self, ended: &RunEnd) {
        if self.is_watched {
            self.write_lines(end_notes(self.rt.alloc(), ended));
        }
    }
}

/// Waits for a link until the run has to end.
#[derive(Drop)]
struct UntilEnd<'w, W> {
    watch: &'w W,
}

impl<W: Watch> Caller for UntilEnd<'_, W> {
    fn has_given_up(&self) -> bool {
        self.watch.has_to_end()
    }
}

impl<R: Wait + Clock + Net<Stream = TcpStream>> System<R> {
    /// A new link to the server, as `reach` gives one, for a run that this watch ends. Once the run has to end no address is dialled, and
    /// if it had to before, why the last dial failed stays as it was.
    pub fn reach_until_end<W: Watch>(
        &self,
        watch: &W,
        server: &str,
        lull_ms: u32,
    ) -> Option<TcpLink>
        ensures fresh { IfSome result (λ link. IsNew (seen_link ⟦<TcpLink as Device>⟧.input ⟦<TcpLink as Device>⟧.output link)) }
    {
        if watch.has_to_end() {
            return None;
        }
        // A run has one server.
        let mut known = *self.known.lock(&self.rt);
        let caller = UntilEnd { watch };
        let options = LinkOptions::JOB_SERVER;
        let dialled = TcpLink::dial_again(&self.rt, &caller, &mut known, server, lull_ms, options);
        *self.known.lock(&self.rt) = known;
        match dialled {
            Ok(link) => {
                self.keep(None);
                Some(link)
            }
            Err(error) => {
                self.keep(Some(error));
                None
            }
        }
    }
}

impl<R: Threads + Wait + Clock + Eprint + Alloc<A = Global> + Net<Stream = TcpStream> + Sync> Host
    for System<R> {
    type Link = TcpLink;

    fn reach(&self, server: &str, lull_ms: u32) -> Option<TcpLink> {
        self.reach_until_end(self, server, lull_ms)
    }

    fn doubt(&self) {
        self.forget();
    }
}
