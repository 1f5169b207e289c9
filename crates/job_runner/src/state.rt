//! What a session knows between two messages, and the order that it then obeys.

ghost use Rattle.std.specs.Prelude.{◌≡◌, ◌≢◌, ◌+◌, ◌-◌, ◌<◌, ◌≤◌, ◌^◌, ℕ, List, length, IfErr, Option, Some, None};
ghost use Rattle.gear_packets.specs.Reading.{job_of};
ghost use Rattle.job_runner.specs.Course.{AnswerReason, PortReason, CanCount, CanBook};
ghost use Rattle.job_runner.specs.Holding.{GetsReady, Idles, SameParts, link_of, now_of};
ghost use Rattle.job_runner.specs.Run.{LinkKept, ToldSince};
ghost use Rattle.job_runner.specs.Acting.{tellings_of, Came, FollowsOrder, Serves};

use crate::answering::Tally;
use crate::end::EndCause;
use crate::jobs::Jobs;
use crate::order::{Phase, phase_with, stops, wanted_of, write_change};
use crate::port::PoolPort;
use crate::worker::Worker;
use byte_io::Sink;
use gear_packets::Assignment;

/// What a session knows between two messages, its reader aside.
#[derive(Drop)]
pub struct State {
    /// The number of the function that the server has registered for the worker.
    pub registered: Option<u32>,
    /// What it waits for.
    pub phase: Phase,
    /// Its counts.
    pub tally: Tally,
}

/// A session while it goes on: what it works on, and what it knows.
#[derive(Drop)]
pub struct Session<'l, 'p, 'j, L, P, J> {
    /// Its link to the server.
    pub link: &'l mut L,
    /// Its port to the pool.
    pub port: &'p mut P,
    /// What runs its jobs.
    pub jobs: &'j mut J,
    /// What it knows.
    pub state: State,
}

impl<'l, 'p, 'j, L: Sink, P: PoolPort, J: Jobs> Session<'l, 'p, 'j, L, P, J> {
    /// Reads the order, and writes what it asks for: the packets that lead to its function, with the request for a job of it.
    pub fn follow(&mut self, worker: &Worker<'_>) -> Result<(), EndCause>
        requires { (L.output self.old.link.now).failures < 2 ^ 64 - 1 }
        ensures idles { Idles self.old self.new }
        ensures follows { FollowsOrder worker.now (now_of L.output P.book self.old) (now_of L.output P.book self.new) result }
        ensures link { LinkKept (link_of L.input L.output self.old) (link_of L.input L.output self.new) result }
        ensures reason { IfErr result (PortReason worker.now.pass.now.generation (P.book self.new.port.now)) }
        ensures losses { (P.book self.new.port.now).losses ≡ (P.book self.old.port.now).losses }
    {
        let order = self.port.order(worker.pass);
        if stops(&order, worker.pass) {
            return Err(EndCause::Stopped);
        }
        let settings = worker.place.settings;
        let wanted = wanted_of(&order, worker.pass, settings);
        write_change(
            worker.place.alloc,
            self.link,
            settings,
            self.state.registered,
            wanted,
        )?;
        self.state.registered = wanted;
        self.state.phase = phase_with(wanted);
        Ok(())
    }

    /// Gets ready for one more job, and then obeys the order, which may be to stop if it did not get ready.
    pub fn prepare_and_follow(&mut self, worker: &Worker<'_>) -> Result<(), EndCause>
        requires { (L.output self.old.link.now).failures < 2 ^ 64 - 1 }
        ensures ready { GetsReady J.prepares self.old self.new }
        ensures follows { FollowsOrder worker.now (now_of L.output P.book self.old) (now_of L.output P.book self.new) result }
        ensures link { LinkKept (link_of L.input L.output self.old) (link_of L.input L.output self.new) result }
        ensures reason { IfErr result (PortReason worker.now.pass.now.generation (P.book self.new.port.now)) }
        ensures losses { (P.book self.new.port.now).losses ≡ (P.book self.old.port.now).losses }
    {
        let readiness = self.jobs.prepare();
        self.port.note_readiness(readiness);
        self.follow(worker)
    }

    /// Answers an assignment, and then obeys the current order.
    pub fn serve_job(&mut self, worker: &Worker<'_>, job: Assignment) -> Result<(), EndCause>
        requires link { (L.output self.old.link.now).failures < 2 ^ 64 - 1 }
        requires tally { CanCount self.old.state.tally }
        requires port { CanBook (P.book self.old.port.now) }
        ensures parts { SameParts self.old self.new }
        ensures serves { (came : Came)
            × ToldSince J.tells J.fails J.prepares self.old.jobs.now self.new.jobs.now (tellings_of (job_of job) came) result
            × Serves worker.now (job_of job) came (now_of L.output P.book self.old) (now_of L.output P.book self.new) result }
        ensures link { LinkKept (link_of L.input L.output self.old) (link_of L.input L.output self.new) result }
        ensures reason { IfErr result (AnswerReason worker.now.pass.now.generation (P.book self.new.port.now)) }
        ensures losses { (P.book self.new.port.now).losses ≡ (P.book self.old.port.now).losses }
    {
        match self.answer(worker, job) {
            Ok(()) => {}
            Err(cause) => return Err(cause),
        }
        self.prepare_and_follow(worker)
    }
}
