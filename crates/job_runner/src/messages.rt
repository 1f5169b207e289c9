//! What a session does at a message.

ghost use Rattle.std.specs.Prelude.{◌≡◌, ◌+◌, ◌-◌, ◌<◌, ◌^◌, IfErr};
ghost use Rattle.gear_packets.specs.Reading.{message_of};
ghost use Rattle.job_runner.specs.Course.{PortReason, CanCount, CanBook};
ghost use Rattle.job_runner.specs.Holding.{GetsReady, Idles, SameParts, link_of, now_of};
ghost use Rattle.job_runner.specs.Run.{LinkKept, ToldSince};
ghost use Rattle.job_runner.specs.Loop.{StepReason};
ghost use Rattle.job_runner.specs.Path.{IsSendEnd};
ghost use Rattle.job_runner.specs.Acting.{asked_by, told_at, Came, Does, Glances, Sleeps};

use crate::end::EndCause;
use crate::jobs::Jobs;
use crate::order::{Phase, stops, wanted_of};
use crate::port::PoolPort;
use crate::sending::send;
use crate::state::Session;
use crate::worker::Worker;
use byte_io::Sink;
use gear_packets::{Assignment, Request, Response};

impl<'l, 'p, 'j, L: Sink, P: PoolPort, J: Jobs> Session<'l, 'p, 'j, L, P, J> {
    /// Asks to be woken when there is work.
    fn sleep(&mut self, worker: &Worker<'_>) -> Result<(), EndCause>
        requires link { (L.output self.old.link.now).failures < 2 ^ 64 - 1 }
        ensures idles { Idles self.old self.new }
        ensures link { LinkKept (link_of L.input L.output self.old) (link_of L.input L.output self.new) result }
        ensures sleeps { Sleeps (now_of L.output P.book self.old) (now_of L.output P.book self.new) result }
        ensures reason { IfErr result IsSendEnd }
    {
        send(worker.place.alloc, self.link, &Request::PreSleep)?;
        self.state.phase = Phase::Asleep;
        Ok(())
    }

    /// Does what a message asks for.
    pub fn act(&mut self, worker: &Worker<'_>, message: Response) -> Result<(), EndCause>
        requires link { (L.output self.old.link.now).failures < 2 ^ 64 - 1 }
        requires tally { CanCount self.old.state.tally }
        requires port { CanBook (P.book self.old.port.now) }
        ensures parts { SameParts self.old self.new }
        ensures does { (came : Came)
            × ToldSince J.tells J.fails J.prepares self.old.jobs.now self.new.jobs.now
            (told_at (asked_by (message_of message) self.old.state.phase) came) result
            × Does worker.now (asked_by (message_of message) self.old.state.phase) came
            (now_of L.output P.book self.old) (now_of L.output P.book self.new) result }
        ensures link { LinkKept (link_of L.input L.output self.old) (link_of L.input L.output self.new) result }
        ensures reason { IfErr result (StepReason worker.now.pass.now.generation (message_of message) self.old.state.tally
            self.new.state.tally (P.book self.new.port.now)) }
        ensures losses { (P.book self.new.port.now).losses ≡ (P.book self.old.port.now).losses }
    {
        match message {
            Response::Noop => match self.state.phase {
                Phase::Asleep => self.prepare_and_follow(worker),
                _ => Ok(()),
            },
            Response::NoJob => match self.state.phase {
                Phase::Waiting => self.sleep(worker),
                _ => Ok(()),
            },
            Response::Assign {
                handle,
                function,
                unique,
                payload,
            } => match self.state.phase {
                Phase::Waiting => {
                    let job = Assignment {
                        handle,
                        function,
                        unique,
                        payload,
                    };
                    self.serve_job(worker, job)
                }
                _ => Err(EndCause::BadPacket),
            },
            Response::Fault { .. } => Err(EndCause::ServerError),
            Response::Other(_) => Ok(()),
        }
    }

    /// Looks at the order if nothing came.
    #[tactic(auto, using(crate::proofs::Telling::unprepared))]
    pub fn glance(&mut self, worker: &Worker<'_>) -> Result<(), EndCause>
        requires { (L.output self.old.link.now).failures < 2 ^ 64 - 1 }
        ensures ready { GetsReady J.prepares self.old self.new }
        ensures glances { Glances worker.now (now_of L.output P.book self.old) (now_of L.output P.book self.new) result }
        ensures link { LinkKept (link_of L.input L.output self.old) (link_of L.input L.output self.new) result }
        ensures reason { IfErr result (PortReason worker.now.pass.now.generation (P.book self.new.port.now)) }
        ensures losses { (P.book self.new.port.now).losses ≡ (P.book self.old.port.now).losses }
    {
        let readiness = self.jobs.readiness();
        self.port.note_readiness(readiness);
        let order = self.port.order(worker.pass);
        if stops(&order, worker.pass) {
            return Err(EndCause::Stopped);
        }
        let wanted = wanted_of(&order, worker.pass, worker.place.settings);
        if self.state.phase == Phase::Waiting || wanted == self.state.registered {
            return Ok(());
        }
        self.prepare_and_follow(worker)
    }
}
