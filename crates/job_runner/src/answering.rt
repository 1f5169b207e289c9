//! An assignment, from the port to its answer.

ghost use Rattle.std.specs.Prelude.{◌≡◌, ◌+◌, ◌-◌, ◌<◌, ◌≤◌, ◌^◌, IfErr};
ghost use Rattle.gear_packets.specs.Reading.{job_of};
ghost use Rattle.job_runner.specs.Book.{Ledger};
ghost use Rattle.job_runner.specs.Course.{AnswerReason, CanCount, CanBook};
ghost use Rattle.job_runner.specs.Holding.{SameParts, link_of, now_of};
ghost use Rattle.job_runner.specs.Run.{LinkKept, ToldSince};
ghost use Rattle.job_runner.specs.Acting.{account_of, tellings_of, Came, Answers, TellsAnswer};

use crate::end::EndCause;
use crate::jobs::{Jobs, NotDone};
use crate::port::{GrabRefusal, PoolPort};
use crate::reply::{encode_failure, encode_reply};
use crate::state::Session;
use crate::worker::Worker;
use byte_io::{Sink, give_all};
use gear_packets::Assignment;
use pool_core::StayOrRetire;

/// How many jobs a session took, answered and reported.
#[derive(Clone, Copy, Debug, PartialEq, Eq)]
pub struct Tally {
    /// Jobs that the port booked.
    pub grabbed: u64,
    /// Answers that were written whole.
    pub answered: u64,
    /// Answers that the port booked.
    pub reported: u64,
}

impl<'l, 'p, 'j, L: Sink, P: PoolPort, J: Jobs> Session<'l, 'p, 'j, L, P, J> {
    /// Answers an assignment: takes it at the port, runs its job, and writes what it reports once the port has let it. The payload goes
    /// with the job, so that a great one is not held beside the answer.
    pub fn answer(&mut self, worker: &Worker<'_>, job: Assignment) -> Result<(), EndCause>
        requires link { (L.output self.old.link.now).failures < 2 ^ 64 - 1 }
        requires tally { CanCount self.old.state.tally }
        requires port { CanBook (P.book self.old.port.now) }
        ensures parts { SameParts self.old self.new }
        ensures registered { self.new.state.registered ≡ self.old.state.registered }
        ensures answers { (came : Came)
            × ToldSince J.tells J.fails J.prepares self.old.jobs.now self.new.jobs.now (tellings_of (job_of job) came) result
            × Answers (job_of job) (account_of (now_of L.output P.book self.old)) (account_of (now_of L.output P.book self.new))
            came result }
        ensures tells { TellsAnswer (P.book self.new.port.now).last_answer result }
        ensures orders { (P.book self.new.port.now).orders ≡ (P.book self.old.port.now).orders }
        ensures reason { IfErr result (AnswerReason worker.now.pass.now.generation (P.book self.new.port.now)) }
        ensures link { LinkKept (link_of L.input L.output self.old) (link_of L.input L.output self.new) result }
        ensures losses { (P.book self.new.port.now).losses ≡ (P.book self.old.port.now).losses }
    {
        let handle = job.handle.copy();
        let ticket = match self.port.grab(worker.pass, handle.copy(), &job.function) {
            Ok(ticket) => ticket,
            Err(GrabRefusal::Gone) => return Err(EndCause::Gone),
            Err(GrabRefusal::HistoryFull) => return Err(EndCause::HistoryFull),
            Err(GrabRefusal::Memory) => return Err(EndCause::Memory),
        };
        self.state.tally.grabbed += 1;
        let Ok(failure) = encode_failure(worker.place.alloc, &handle) else {
            return Err(EndCause::Memory);
        };
        let outcome = match self.jobs.run(worker.place.alloc, job) {
            Ok(outcome) => outcome,
            Err(NotDone::Unserved) => return Err(EndCause::Unserved),
            Err(NotDone::Memory) => return Err(EndCause::Memory),
        };
        let Ok(encoded) = encode_reply(worker.place.alloc, &handle, outcome, failure) else {
            return Err(EndCause::Memory);
        };
        let Ok(()) = self.port.begin_report(worker.pass, ticket) else {
            return Err(EndCause::Gone);
        };
        let Ok(()) = give_all(self.link, encoded.text.as_slice()) else {
            return Err(EndCause::WriteFault);
        };
        self.state.tally.answered += 1;
        match self.port.reported(worker.pass, ticket, encoded.end) {
            Ok(StayOrRetire::Stay) => {
                self.state.tally.reported += 1;
                Ok(())
            }
            Ok(StayOrRetire::Retire) => {
                self.state.tally.reported += 1;
                Err(EndCause::Retired)
            }
            Err(_) => Err(EndCause::Gone),
        }
    }
}
