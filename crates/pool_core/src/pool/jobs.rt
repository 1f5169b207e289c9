//! Jobs: how they are grabbed and reported.
ghost use Rattle.std.specs.Prelude.{◌≡◌, ◌+◌, ◌<◌, nat_lt, ◌^◌};
ghost use Rattle.worker_state.specs.Slots.{run_count};
ghost use Rattle.pool_core.specs.Machine.{slot_in};
ghost use Rattle.pool_core.specs.Book.{grab_refusal, begin_refusal, report_refusal};
ghost use Rattle.pool_core.specs.Calls.{Grabs, Begins, Reports};

use super::{Pass, Pool};
use crate::answer::StayOrRetire;
use crate::error::{BeginError, GrabError, ReportError};
use crate::event::{Event, FunctionName, Job};
use crate::table;
use gear_packets::Handle;
use worker_state::{EndKind, MAX_TICKETS, Slot, Standing, Ticket, WorkerName};

impl Pool {
    fn grab_refusal(&self, worker: &WorkerName) -> Option<GrabError>
        ensures { result ≡ grab_refusal self.now worker.now }
    {
        let slot = self.slot_of(worker.slot);
        if !slot.has_generation(worker.generation) {
            return Some(GrabError::Gone);
        }
        if slot.held_ticket().is_some() {
            return Some(GrabError::Busy);
        }
        if self.has_room(3) && self.standings.len() < MAX_TICKETS {
            None
        } else {
            Some(GrabError::HistoryFull)
        }
    }

    /// Books a job that the server gave to the worker, and gives its ticket: 1 for the first job of the pool, and so on.
    ///
    /// The function may be any bytes. The time is in milliseconds, of the clock that `expire` is given. It makes the room for the
    /// events that close the job.
    ///
    /// Refused, in this order, as `Gone`, `Busy`, `HistoryFull` or `Memory`.
    pub fn grab(
        &mut self,
        pass: &Pass,
        handle: Handle,
        function: &[u8],
        now_ms: u64,
    ) -> Result<Ticket, GrabError>
        ensures { Grabs pass.now handle function.now now_ms self.old self.new result }
    {
        let worker = pass.name();
        if let Some(refusal) = self.grab_refusal(&worker) {
            return Err(refusal);
        }
        let function = FunctionName::copied(self.alloc, function)?;
        let noted = function.shared()?;
        table::reserve_job(
            &mut self.jobs,
            &mut self.standings,
            &mut self.events,
            self.owed as usize + 3,
        )?;
        let ticket = Ticket::new(self.standings.len() + 1);
        let runs = table::slot_of(self.slots.as_slice(), worker.slot).run_count();
        let slot = Slot::Live {
            generation: worker.generation,
            runs,
            ticket: Some(ticket),
        };
        table::put_slot(&mut self.slots, worker.slot, slot);
        table::put_time(&mut self.grab_times, worker.slot, now_ms);
        self.jobs.push_reserved(Job {
            handle: handle.copy(),
            function,
        });
        self.standings.push_reserved(Standing::Running);
        self.owed += 2;
        self.events.push_reserved(Event::Grab {
            worker,
            handle,
            function: noted,
            now_ms,
        });
        Ok(ticket)
    }

    #[tactic(auto, using(crate::proofs::Tables::open_is))]
    fn begin_refusal(&self, worker: &WorkerName, ticket: Ticket) -> Option<BeginError>
        ensures { result ≡ begin_refusal self.now worker.now ticket }
    {
        let slot = self.slot_of(worker.slot);
        if !slot.has_generation(worker.generation) {
            return Some(BeginError::Gone);
        }
        if !table::has_open(slot.held_ticket(), ticket) {
            return Some(BeginError::WrongTicket);
        }
        if !table::is_running(self.held_standing(worker, ticket)) {
            return Some(BeginError::AlreadyReporting);
        }
        None
    }

    /// Begins to report a job: from now on it is not late. A session calls it before it writes the first byte of the answer.
    /// It takes no memory and needs no room.
    ///
    /// Refused, in this order, as `Gone`, `WrongTicket` or `AlreadyReporting`.
    pub fn begin_report(&mut self, pass: &Pass, ticket: Ticket) -> Result<(), BeginError>
        ensures { Begins pass.now ticket self.old self.new result }
    {
        let worker = pass.name();
        if let Some(refusal) = self.begin_refusal(&worker, ticket) {
            return Err(refusal);
        }
        table::put_standing(&mut self.standings, ticket, Standing::Reporting);
        self.owed -= 1;
        self.events.push_reserved(Event::Begin { worker, ticket });
        Ok(())
    }

    #[tactic(auto, using(crate::proofs::Tables::open_is))]
    fn report_refusal(&self, worker: &WorkerName, ticket: Ticket) -> Option<ReportError>
        ensures { result ≡ report_refusal self.now worker.now ticket }
    {
        let slot = self.slot_of(worker.slot);
        if !slot.has_generation(worker.generation) {
            return Some(ReportError::Gone);
        }
        if !table::has_open(slot.held_ticket(), ticket) {
            return Some(ReportError::WrongTicket);
        }
        if !table::is_reporting(self.held_standing(worker, ticket)) {
            return Some(ReportError::NotReporting);
        }
        None
    }

    /// Whether the worker goes on after one more run.
    fn stays(&self, worker: &WorkerName) -> bool
        ensures stays { result ≡ nat_lt (run_count (slot_in self.now.state.slots worker.now.slot) + 1) self.now.settings.max_runs }
        ensures fits { run_count (slot_in self.now.state.slots worker.now.slot) + 1 < 2 ^ 32 }
    {
        let max_runs = self.settings.max_runs();
        let runs = table::slot_of(self.slots.as_slice(), worker.slot).run_count();
        runs + 1 < max_runs
    }

    /// Books that the answer to a job was written whole, and counts a run. At the greatest number of runs the worker retires: its
    /// slot is empty then. It takes no memory and needs no room.
    ///
    /// Refused, in this order, as `Gone`, `WrongTicket` or `NotReporting`.
    pub fn reported(
        &mut self,
        pass: &Pass,
        ticket: Ticket,
        end: EndKind,
    ) -> Result<StayOrRetire, ReportError>
        ensures { Reports pass.now ticket end self.old self.new result }
    {
        let worker = pass.name();
        if let Some(refusal) = self.report_refusal(&worker, ticket) {
            return Err(refusal);
        }
        let stays = self.stays(&worker);
        // No more are reported than were grabbed.
        let _grabbed = self.standings.len();
        let runs = table::slot_of(self.slots.as_slice(), worker.slot).run_count();
        let slot = table::slot_after(stays, worker.generation, runs);
        table::put_slot(&mut self.slots, worker.slot, slot);
        table::put_standing(&mut self.standings, ticket, Standing::Reported(end));
        // The report and the worker's end were owed.
        self.owed -= 2 - table::owed_by_worker(stays);
        self.reported += 1;
        self.events.push_reserved(Event::Reported {
            worker,
            ticket,
            end,
        });
        Ok(table::stay_or_retire(stays))
    }
}
