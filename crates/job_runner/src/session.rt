//! A whole session: from its worker's name to its end.

ghost use Rattle.std.specs.Prelude.{◌≡◌, ◌≢◌, ◌+◌, ◌-◌, ◌<◌, ◌≤◌, ◌^◌, [], ℕ, List, length, IfErr, IfOk, OnOk, Option, string_bytes};
ghost use Rattle.gear_packets.specs.Request.{set_client_id};
ghost use Rattle.byte_io.specs.Sides.{and_then};
ghost use Rattle.pool_settings.specs.Slots.{slots, worker_text};
ghost use Rattle.job_runner.specs.Told.{Telling};
ghost use Rattle.job_runner.specs.Book.{no_calls};
ghost use Rattle.job_runner.specs.Course.{GoesOnOrEnds, IsAccepted, PortReason, session_of};
ghost use Rattle.job_runner.specs.Run.{EndTold, FailsAs, ReadReason, Reason, Served, ServedBy, seen_link, tally_of, LinkKept};
ghost use Rattle.job_runner.specs.Listening.{Reads, reads_of, reads_by};
ghost use Rattle.job_runner.specs.Acting.{Begins, Glances};
ghost use Rattle.job_runner.specs.Holding.{GetsReady, Idles, IsOver, SameParts, Stands, Start, having_read, link_of, now_of};
ghost use Rattle.job_runner.specs.Loop.{first_state, duty_of, session_in, HasServed, Halts};

use crate::answering::Tally;
use crate::end::{EndCause, SessionEnd};
use crate::jobs::Jobs;
use crate::listen::{Heard, Inbox, hear};
use crate::order::Phase;
use crate::port::PoolPort;
use crate::sending::send;
use crate::state::{Session, State};
use crate::table::NamedJobs;
use crate::worker::{Worker, Workplace};
use byte_io::{Sink, Source};
use gear_packets::{Reader, Request, says_its_packets};
use pool_core::Pass;
use pool_settings::Settings;
use std::alloc::{AllocError, Global};

/// The name by which the server's lists show a worker.
fn encode_worker(worker: &Worker<'_>) -> Result<String, AllocError>
    requires slot { worker.now.pass.now.slot < slots worker.now.place.settings.now }
    ensures text { IfOk result (λ text. string_bytes text
        ≡ worker_text worker.now.place.settings.now worker.now.pass.now.slot worker.now.pass.now.generation) }
    ensures accepted { IsAccepted
        (set_client_id (worker_text worker.now.place.settings.now worker.now.pass.now.slot worker.now.pass.now.generation)) }
{
    let name = worker.pass.name();
    worker
        .place
        .settings
        .worker_text(worker.place.alloc, name.slot, name.generation)
}

impl<'l, 'p, 'j, L: Sink, P: PoolPort, J: Jobs> Session<'l, 'p, 'j, L, P, J> {
    /// Gives the worker's name, and obeys the first order.
    fn begin(&mut self, worker: &Worker<'_>) -> Result<(), EndCause>
        requires slot { worker.now.pass.now.slot < slots worker.now.place.settings.now }
        requires link { (L.output self.old.link.now).failures < 2 ^ 64 - 1 }
        ensures idles { Idles self.old self.new }
        ensures begins { Begins worker.now
            (worker_text worker.now.place.settings.now worker.now.pass.now.slot worker.now.pass.now.generation)
            (now_of L.output P.book self.old) (now_of L.output P.book self.new) result }
        ensures reason { IfErr result (PortReason worker.now.pass.now.generation (P.book self.new.port.now)) }
        ensures link { LinkKept (link_of L.input L.output self.old) (link_of L.input L.output self.new) result }
        ensures losses { (P.book self.new.port.now).losses ≡ (P.book self.old.port.now).losses }
    {
        let Ok(name) = encode_worker(worker) else {
            return Err(EndCause::Memory);
        };
        match send(
            worker.place.alloc,
            self.link,
            &Request::SetClientId(name.as_bytes()),
        ) {
            Ok(()) => self.follow(worker),
            Err(cause) => Err(cause),
        }
    }

    /// Acts on each message that was read, and then on the fault at which the stream ended.
    fn drain(&mut self, worker: &Worker<'_>, reader: &mut Reader) -> Result<(), EndCause>
        requires link { (L.output self.old.link.now).failures < 2 ^ 64 - 1 }
        requires serving { (start : Start J) × (length start.read < 2 ^ 60)
            × Stands L.output P.book J.tells J.prepares worker.now start reader.old self.old }
        ensures parts { SameParts self.old self.new }
        ensures leaves { (start : Start J) → Stands L.output P.book J.tells J.prepares worker.now start reader.old self.old
            → GoesOnOrEnds (Stands L.output P.book J.tells J.prepares worker.now start reader.new self.new)
            (IsOver L.output P.book J.tells J.fails J.prepares worker.now start self.new) result }
        ensures all_given { OnOk result (reader.new.messages ≡ []) }
        ensures reason { (start : Start J) → Stands L.output P.book J.tells J.prepares worker.now start reader.old self.old
            → IfErr result (ReadReason (session_in worker.now start.before start.read) self.new.state.tally (P.book self.new.port.now)) }
        ensures link { LinkKept (link_of L.input L.output self.old) (link_of L.input L.output self.new) result }
        ensures losses { (P.book self.new.port.now).losses ≡ (P.book self.old.port.now).losses }
    {
        while let Some(message) = reader.next() {
            match self.act(worker, message) {
                Ok(()) => {}
                Err(cause) => return Err(cause),
            }
        }
        match reader.fault() {
            Some(_) => Err(EndCause::BadPacket),
            None => Ok(()),
        }
    }
}

impl<'l, 'p, 'j, L: Source + Sink, P: PoolPort, J: Jobs> Session<'l, 'p, 'j, L, P, J> {
    /// One read of the link, once all that was read is acted on. If nothing comes it looks at the order.
    #[tactic(auto, using(crate::proofs::Telling::unprepared))]
    fn listen(&mut self, worker: &Worker<'_>, inbox: &mut Inbox) -> Result<(), EndCause>
        requires output { (L.output self.old.link.now).failures < 2 ^ 64 - 1 }
        requires input { (L.input self.old.link.now).failures < 2 ^ 64 - 1 }
        requires all_given { inbox.old.reader.messages ≡ [] }
        ensures ready { GetsReady J.prepares self.old self.new }
        ensures listens { (start : Start J) (given : Option (List ℕ)) → (L.input self.old.link.now).given ≡ and_then given start.read
            → Stands L.output P.book J.tells J.prepares worker.now start inbox.old.reader self.old
            → (more : List ℕ) × ((L.input self.new.link.now).given ≡ and_then given more) × (length more ≤ length start.read + 4096)
            × GoesOnOrEnds (Stands L.output P.book J.tells J.prepares worker.now (having_read start more) inbox.new.reader self.new)
            (λ cause. IsOver L.output P.book J.tells J.fails J.prepares worker.now (having_read start more) self.new cause
            × Reason (session_in worker.now start.before more) (link_of L.input L.output self.old) (link_of L.input L.output self.new)
            self.new.state.tally (P.book self.new.port.now) cause) result }
        ensures looks { (L.input self.new.link.now).lulls ≢ (L.input self.old.link.now).lulls
            → Glances worker.now (now_of L.output P.book self.old) (now_of L.output P.book self.new) result }
        ensures reads { Reads 4096 (reads_of result) 1 (L.input self.old.link.now) (L.input self.new.link.now) }
        ensures no_turns { IfErr result (λ cause. cause ≢ EndCause.TurnsUsed) }
        ensures read_failures { result ≢ Err EndCause.ReadFault
            → (L.input self.new.link.now).failures ≡ (L.input self.old.link.now).failures }
        ensures write_failures { result ≢ Err EndCause.WriteFault
            → (L.output self.new.link.now).failures ≡ (L.output self.old.link.now).failures }
        ensures losses { (P.book self.new.port.now).losses ≡ (P.book self.old.port.now).losses }
    {
        match hear(self.link, &mut inbox.reader, &mut inbox.buffer) {
            Ok(Heard::Piece) => Ok(()),
            Ok(Heard::Lull) => self.glance(worker),
            Err(cause) => Err(cause),
        }
    }

    /// Goes through a session, to its end.
    fn serve(&mut self, worker: &Worker<'_>) -> EndCause
        requires slot { worker.now.pass.now.slot < slots worker.now.place.settings.now }
        requires output { (L.output self.old.link.now).failures < 2 ^ 64 - 1 }
        requires input { (L.input self.old.link.now).failures < 2 ^ 64 - 1 }
        requires first { self.old.state ≡ first_state }
        requires fresh { P.book self.old.port.now ≡ no_calls }
        ensures parts { SameParts self.old self.new }
        ensures ran { (read : List ℕ) × ((L.input self.new.link.now).given ≡ and_then (L.input self.old.link.now).given read)
            × (Halts (session_in worker.now (L.output self.old.link.now).got read)
            (EndTold J.tells J.fails J.prepares self.old.jobs.now self.new.jobs.now)
            (L.output self.new.link.now).got self.new.state.tally (P.book self.new.port.now) result
            × Reason (session_in worker.now (L.output self.old.link.now).got read)
            (link_of L.input L.output self.old) (link_of L.input L.output self.new)
            self.new.state.tally (P.book self.new.port.now) result) }
        ensures turns { Reads 4096 (reads_by worker.now.place.turns result) worker.now.place.turns
            (L.input self.old.link.now) (L.input self.new.link.now) }
        ensures faults { FailsAs (link_of L.input L.output self.old) (link_of L.input L.output self.new) result }
        ensures losses { (P.book self.new.port.now).losses ≡ 0 }
    {
        match self.begin(worker) {
            Ok(()) => {}
            Err(cause) => return cause,
        }
        let mut inbox = Inbox {
            reader: Reader::new(worker.place.alloc),
            buffer: [0; 4096],
        };
        let turns = worker.place.turns;
        let mut made = 0;
        while made < turns {
            match self.drain(worker, &mut inbox.reader) {
                Ok(()) => {}
                Err(cause) => return cause,
            }
            match self.listen(worker, &mut inbox) {
                Ok(()) => made += 1,
                Err(cause) => return cause,
            }
        }
        match self.drain(worker, &mut inbox.reader) {
            Ok(()) => EndCause::TurnsUsed,
            Err(cause) => cause,
        }
    }
}

/// A session over a link and a port, from its first state to its end.
fn session_over<L: Source + Sink, P: PoolPort, J: Jobs>(
    worker: &Worker<'_>,
    link: &mut L,
    port: &mut P,
    jobs: &mut J,
) -> SessionEnd
    requires slot { worker.now.pass.now.slot < slots worker.now.place.settings.now }
    requires output { (L.output link.old).failures < 2 ^ 64 - 1 }
    requires input { (L.input link.old).failures < 2 ^ 64 - 1 }
    requires fresh { P.book port.old ≡ no_calls }
    ensures ran { (read : List ℕ) × ((L.input link.new).given ≡ and_then (L.input link.old).given read)
        × (Halts (session_in worker.now (L.output link.old).got read) (EndTold J.tells J.fails J.prepares jobs.old jobs.new)
        (L.output link.new).got (tally_of result) (P.book port.new) result.cause
        × Reason (session_in worker.now (L.output link.old).got read)
        (seen_link L.input L.output link.old) (seen_link L.input L.output link.new) (tally_of result) (P.book port.new) result.cause) }
    ensures turns { Reads 4096 (reads_by worker.now.place.turns result.cause) worker.now.place.turns (L.input link.old) (L.input link.new) }
    ensures faults { FailsAs (seen_link L.input L.output link.old) (seen_link L.input L.output link.new) result.cause }
    ensures losses { (P.book port.new).losses ≡ 0 }
{
    let mut session = Session {
        link,
        port,
        jobs,
        state: State {
            registered: None,
            phase: Phase::Idle,
            tally: Tally {
                grabbed: 0,
                answered: 0,
                reported: 0,
            },
        },
    };
    let cause = session.serve(worker);
    let tally = session.state.tally;
    SessionEnd {
        cause,
        grabbed: tally.grabbed,
        answered: tally.answered,
        reported: tally.reported,
    }
}

/// A worker's session at its place over a link, to its end: it takes jobs, runs them and answers them, as the pool orders.
///
/// The port has not been called before, the pass is of a slot that the settings have, and the link has failed less than 2^64 - 1 times
/// on each side. A session of no turns ends as `TurnsUsed` once it has given its name and obeyed its first order. A job that is not done is
/// not answered, and the session ends as `Unserved` or `Memory`.
pub fn serve_worker<L: Source + Sink, P: PoolPort, J: Jobs>(
    place: Workplace<'_>,
    pass: Pass,
    link: &mut L,
    port: &mut P,
    jobs: &mut J,
) -> SessionEnd
    requires slot { pass.slot < slots place.settings.now }
    requires output { (L.output link.old).failures < 2 ^ 64 - 1 }
    requires input { (L.input link.old).failures < 2 ^ 64 - 1 }
    requires fresh { P.book port.old ≡ no_calls }
    ensures served { (read bytes : List ℕ) × (told : List Telling)
        × ((L.input link.new).given ≡ and_then (L.input link.old).given read)
        × ((L.output link.new).got ≡ and_then (L.output link.old).got bytes)
        × EndTold J.tells J.fails J.prepares jobs.old jobs.new result.cause told
        × Served (session_of (duty_of place.entry.settings.now pass) (L.output link.old).got read) told bytes
        (seen_link L.input L.output link.old) (seen_link L.input L.output link.new) (P.book port.new) result }
    ensures turns { Reads 4096 (reads_by place.entry.turns result.cause) place.entry.turns (L.input link.old) (L.input link.new) }
{
    says_its_packets();
    let worker = Worker { place, pass: &pass };
    let end = session_over(&worker, link, port, jobs);
    match end.cause.loss() {
        Some(loss) => port.lose(pass, loss),
        None => drop(pass),
    }
    end
}

/// [`serve_worker`] for jobs by name, with the parts of the place one by one.
pub fn run_session<L: Source + Sink, P: PoolPort, J: NamedJobs>(
    alloc: Global,
    link: &mut L,
    port: &mut P,
    jobs: &J,
    settings: &Settings,
    pass: Pass,
    turns: u32,
) -> SessionEnd
    requires slot { pass.slot < slots settings.now }
    requires output { (L.output link.old).failures < 2 ^ 64 - 1 }
    requires input { (L.input link.old).failures < 2 ^ 64 - 1 }
    requires fresh { P.book port.old ≡ no_calls }
    ensures served { (read bytes : List ℕ)
        × ((L.input link.new).given ≡ and_then (L.input link.old).given read)
        × ((L.output link.new).got ≡ and_then (L.output link.old).got bytes)
        × ServedBy (J.told jobs.now) (session_of (duty_of settings.now pass) (L.output link.old).got read) bytes
        (seen_link L.input L.output link.old) (seen_link L.input L.output link.new) (P.book port.new) result }
    ensures turns { Reads 4096 (reads_by turns result.cause) turns (L.input link.old) (L.input link.new) }
{
    let place = Workplace {
        alloc,
        settings,
        turns,
    };
    let mut jobs = jobs;
    serve_worker(place, pass, link, port, &mut jobs)
}
