//! What a farm reports of its run while it goes on.

ghost use Rattle.std.specs.Prelude.{◌≡◌};
ghost use Rattle.serve_command.specs.Serving as spec;

use crate::books::Books;
use crate::farm::Farm;
use crate::farm_jobs::{answers_line, host_line};
use crate::host::FarmHost;
use crate::job_lines::{Uncompleted, job_words, line_of, lost_job};
use crate::last_jobs::AnsweredJob;
use crate::manager::Stage;
use crate::page_door::PageDoor;
use farm_hosts::{BeforeJob, LeftJob, lets_go_on, said_of_host};
use farm_notes::{Known, PageNotes};
use farm_page::{FarmView, JobsAgain};
use http_jobs::try_dial;
use job_runner::{EndCause, Readiness};
use plan_model::{Certified, MachineId, SlotId};
use pool_core::{JoinError, totals_line};
use pool_settings::Settings;
use pool_supervisor::{Attempt, Attempted, EndedWorker, JoinedWorker, Progress, RunEnd, Watch};
use refusal::Labelled;
use relaxed_plan::Relaxed;
use run_command::{attempt_told, end_notes, gave_no_status};
use std::alloc::{AllocError, Global};
use std::sync::{Mutex, Wait};
use std::thread::Threads;
use unserved_jobs::{UnreadJobs, UnservedJobs};
use worker_state::WorkerName;

/// What the attempts of a run came to so far.
#[derive(Clone, Copy, Debug, PartialEq, Eq)]
pub enum Outlook {
    /// None led to a round.
    Nothing,
    /// Some led to a round, and no round to a plan.
    NoPlan,
    /// Some led to a round, and each round to a plan.
    Plans,
    /// Some rounds led to a plan, and some did not.
    LacksAPlan,
    /// A slot can have no more workers, so the run has to end.
    SlotUsed,
}

impl Outlook {
    /// After one more attempt.
    fn after(self, attempt: &Attempt) -> Outlook
        ensures { result ≡ spec.after_attempt self attempt.now }
    {
        match attempt {
            Attempt::NoPlan { .. } => self.after_no_plan(),
            Attempt::Backlog { .. } | Attempt::Unserved { .. } => self.after_plan(),
            _ => self,
        }
    }

    /// After a round without a plan.
    fn after_no_plan(self) -> Outlook
        ensures { result ≡ spec.after_no_plan self }
    {
        match self {
            Outlook::Nothing => Outlook::NoPlan,
            Outlook::Plans => Outlook::LacksAPlan,
            other => other,
        }
    }

    /// After a round with a plan.
    fn after_plan(self) -> Outlook
        ensures { result ≡ spec.after_plan self }
    {
        match self {
            Outlook::Nothing => Outlook::Plans,
            Outlook::NoPlan => Outlook::LacksAPlan,
            other => other,
        }
    }

    /// The exit status of a farm that ended so.
    pub fn status(self) -> u8
        ensures { result ≡ spec.status_of self }
    {
        match self {
            Outlook::Plans => 0,
            Outlook::LacksAPlan => 1,
            Outlook::Nothing | Outlook::NoPlan => 5,
            Outlook::SlotUsed => 6,
        }
    }
}

/// What was looked for last.
#[derive(Clone, Copy, Debug, PartialEq, Eq)]
enum LastPlan {
    /// A plan that meets all least numbers.
    OfAll,
    /// There is none, and a relaxed plan was found.
    Relaxed,
}

/// The job that its service answered last for a worker that ended.
#[derive(Drop)]
enum LastJob {
    /// There was none.
    None,
    /// Its answer was written to the job server.
    Written(AnsweredJob),
    /// The job server did not have its answer.
    Lost(AnsweredJob),
}

/// The host of a farm's run: it rests until the farm has to end, and what happens is told in lines, and on a page if the farm has one.
#[derive(Drop)]
pub struct Reporting<'e, H> {
    host: &'e H,
    alloc: Global,
    books: Books<'e>,
    door: Option<PageDoor<'e>>,
    notes: Option<PageNotes>,
    outlook: Mutex<Outlook>,
    last_plan: Mutex<LastPlan>,
}

impl<'e, H: Wait> Reporting<'e, H> {
    /// A run's, before its first attempt. The farm may have a page.
    pub fn new(
        host: &'e H,
        alloc: Global,
        books: Books<'e>,
        door: Option<PageDoor<'e>>,
    ) -> Reporting<'e, H> {
        let notes = door.is_some().then(|| PageNotes::new(alloc));
        Reporting {
            host,
            alloc,
            books,
            door,
            notes,
            outlook: Mutex::new(Outlook::Nothing),
            last_plan: Mutex::new(LastPlan::OfAll),
        }
    }

    /// What the attempts came to so far.
    pub fn outlook(&self) -> Outlook {
        *self.outlook.lock(self)
    }

    /// What was looked for last.
    fn last_plan(&self) -> LastPlan {
        *self.last_plan.lock(self)
    }

    /// The door of the page, if that is not open yet.
    fn shut_door(&self) -> Option<&PageDoor<'e>> {
        let door = self.door.as_ref()?;
        if door.is_open(self) {
            return None;
        }
        Some(door)
    }

    /// How far the farm is, which may have to end.
    pub fn stage(&self, has_to_end: bool) -> Stage {
        if has_to_end {
            Stage::Stopping
        } else if self.shut_door().is_some() {
            Stage::Starting
        } else {
            Stage::Ready
        }
    }

    /// What the page shows after an attempt at this time. None if there is no page, or no memory.
    fn view(&self, made: &Attempted<'_>, now_ms: Option<u64>) -> Option<FarmView> {
        let notes = self.notes.as_ref()?;
        let unreached = self.books.hosts.unreached(self, self.alloc).ok()?;
        let jobs = self.books.tally.counts(self).ok()?;
        let failures = self.books.tally.failures(self).ok()?;
        let without_room = self.without_room().ok()?;
        let known = Known {
            unreached: &unreached,
            jobs: &jobs,
            failures: &failures,
            again: jobs_again(self, &self.books, now_ms),
            without_room: &without_room,
            wants_backlog: self.books.farm.wanted().is_some(),
        };
        notes.view(self, self.alloc, made, &known).ok()
    }

    /// The machines that have no worker for want of files or threads: none lives, and the host is not left alone. None are if neither is
    /// lacking. The only error is out of memory.
    fn without_room(&self) -> Result<Vec<MachineId>, AllocError> {
        let mut machines = Vec::new(self.alloc);
        let farm = self.books.farm;
        let is_lacking = self.books.files.is_lacking(self) || self.books.threads.is_lacking(self);
        for number in 0..farm.settings.machines() {
            let machine = MachineId::new(number);
            let is_wanted = farm.settings.workers(machine) > 0;
            if is_lacking && is_wanted && self.books.hosts.is_without_workers(self, machine) {
                machines.push(machine)?;
            }
        }
        Ok(machines)
    }

    /// The job that its service answered last for a worker that ended. If the worker left it without an answer, it is counted as lost from
    /// now on.
    fn take_last(&self, ended: &EndedWorker<'_>) -> LastJob {
        let Some(job) = self.books.last_jobs.end(self, ended.worker) else {
            return LastJob::None;
        };
        if ended.end.grabbed == ended.end.reported {
            return LastJob::Written(job);
        }
        self.books.tally.lose(self, job.counted, job.end);
        LastJob::Lost(job)
    }

    /// Notes what one more attempt came to.
    fn note(&self, attempt: &Attempt) {
        let mut held = self.outlook.lock(self);
        *held = held.after(attempt);
    }
}

impl<'e, H: Threads> Threads for Reporting<'e, H> {}

impl<'e, H: Wait> Wait for Reporting<'e, H> {}

/// How often the job was left that was left most often lately, if a job was left more than once, and how many workers hold one. So it is of
/// jobs that are too large to be read, which are counted as one.
fn jobs_again<R: Wait>(rt: &R, books: &Books<'_>, now_ms: Option<u64>) -> JobsAgain {
    let times = match now_ms {
        Some(now_ms) => {
            let unread = books.unread.lock(rt).times_lately(now_ms);
            books.unserved.lock(rt).most_times(now_ms).max(unread)
        }
        None => 0,
    };
    let unread = books.unread.lock(rt).held();
    JobsAgain {
        times: if times > 1 { times } else { 0 },
        held: unread.saturating_add(books.unserved.lock(rt).held() as u32),
    }
}

/// For how many milliseconds the worker is to hold its job, if it holds one.
fn hold_of<R: Wait>(rt: &R, unserved: &Mutex<UnservedJobs>, worker: WorkerName) -> Option<u32> {
    unserved.lock(rt).hold_of(worker)
}

/// The worker gives back what it holds.
fn give_back<R: Wait>(rt: &R, unserved: &Mutex<UnservedJobs>, worker: WorkerName) {
    unserved.lock(rt).give_back(worker);
}

/// A job that the machine's host left before, as one that it leaves now.
fn left_before(farm: &Farm, machine: MachineId, now_ms: Option<u64>) -> LeftJob {
    LeftJob {
        is_new: false,
        workers: farm.workers_on(machine),
        now_ms,
    }
}

/// For how many milliseconds more it is in doubt whether the machine's host serves jobs. 0 after a worker that ended for another reason
/// than that its job was not served.
fn doubt_of<R: Wait>(
    rt: &R,
    books: &Books<'_>,
    machine: MachineId,
    cause: EndCause,
    now_ms: Option<u64>,
) -> u32 {
    if cause != EndCause::Unserved {
        return 0;
    }
    let left = left_before(books.farm, machine, now_ms);
    u32::try_from(books.hosts.doubt_ms(rt, machine, left)).unwrap_or(0)
}

/// For how many milliseconds the link of a worker is to be held that met a job that is too large to be read, if it is.
fn hold_unread<R: Wait>(rt: &R, unread: &Mutex<UnreadJobs>, now_ms: Option<u64>) -> Option<u32> {
    unread.lock(rt).hold(now_ms?)
}

impl<'e, H: FarmHost> Watch for Reporting<'e, H> {
    fn now_ms(&self) -> Option<u64> {
        self.host.now_ms()
    }

    fn pause(&self, milliseconds: u32) {
        self.host.rest(milliseconds);
        self.host.note_stage(self.stage(self.host.is_to_end()));
    }

    fn pause_until_woken(&self, milliseconds: u32) -> bool {
        let is_rung = self.host.rest_until_rung(milliseconds);
        self.host.note_stage(self.stage(self.host.is_to_end()));
        is_rung
    }

    fn wake(&self) {
        self.host.ring();
    }

    fn has_to_end(&self) -> bool {
        self.host.is_to_end() || self.outlook() == Outlook::SlotUsed
    }

    /// A worker whose host was not reached dials it again, beside the connection that it keeps: that may look open though its host is gone,
    /// and then the next job would be done in vain. So does a worker that is told that its connection was closed, and one of the workers of
    /// a host that has no job and was not heard of for some attempts, since else each of them could take a job before it learns that the
    /// host is gone. Such a worker goes on if the host's name was not found and no address is known that took a connection: a resolver that
    /// is down ends no worker of a host that is well. If the farm has to end, a worker that would dial just ends. So do all workers but one
    /// of a host that takes connections and serves no job: one by one they would take jobs from others, and give them back.
    fn may_go_on(&self, worker: WorkerName, readiness: Readiness) -> bool {
        let slot = worker.slot;
        let Some(machine) = self.books.farm.machine_of(slot) else {
            return false;
        };
        let does = self
            .books
            .hosts
            .before_job(self.host, machine, worker, readiness);
        match does {
            BeforeJob::Ask => return true,
            BeforeJob::End => return false,
            BeforeJob::Dial | BeforeJob::Look => {}
        }
        if self.host.is_to_end() {
            return false;
        }
        let said = match self.books.farm.host_of(self.alloc, slot) {
            Some(name) => {
                let times = self.books.farm.call_times();
                let mut dials = match does {
                    BeforeJob::Look => self.host.looks(name, times),
                    _ => self.host.dials(name, times),
                };
                said_of_host(does, try_dial(&mut dials))
            }
            // There is no memory for its name.
            None => None,
        };
        if does == BeforeJob::Look {
            self.books.hosts.end_look(self.host, machine);
        }
        if let Some(dialled) = said {
            let _turn = self.books.hosts.turn(self.host);
            let news = self.books.hosts.note_dial(self.host, machine, dialled);
            self.host
                .tell_if(host_line(self.alloc, self.books.farm, machine, news));
        }
        lets_go_on(said)
    }

    /// A job that no service serves would go round all workers, and end each. So a worker that left one which was left before holds it for
    /// a while, and the job server gives it to nobody. Not once the farm has to end. So does a worker that met a job that is too large to
    /// be read, and its slot has another worker meanwhile.
    fn before_hang_up(&self, worker: WorkerName, cause: EndCause) {
        if cause == EndCause::BadPacket {
            let held_ms = hold_unread(self, self.books.unread, self.host.now_ms());
            if let Some(milliseconds) = held_ms {
                self.host.ring();
                self.host.rest(milliseconds);
                self.books.unread.lock(self).give_back();
            }
            return;
        }
        let WorkerName { slot, generation } = worker;
        let farm = self.books.farm;
        let Some(machine) = farm.machine_of(slot) else {
            return;
        };
        let doubt_ms = doubt_of(self.host, &self.books, machine, cause, self.host.now_ms());
        if doubt_ms > 0 {
            // Another worker would leave the job too. If none is served meanwhile the host is left alone.
            self.host.rest(doubt_ms);
            let left = left_before(farm, machine, self.host.now_ms());
            let _turn = self.books.hosts.turn(self.host);
            let news = self.books.hosts.note_unserved(self.host, machine, left);
            self.host
                .tell_if(host_line(self.alloc, farm, machine, news));
        }
        let held_ms = hold_of(self, self.books.unserved, WorkerName { slot, generation });
        if let Some(milliseconds) = held_ms {
            // A host that is left alone by now fails and not the job, and another host may do it.
            if !self.books.hosts.is_left_alone(self.host, machine) {
                self.host.rest(milliseconds.saturating_sub(doubt_ms));
            }
            give_back(self, self.books.unserved, WorkerName { slot, generation });
        }
    }
}

impl<'e, H: FarmHost> Progress for Reporting<'e, H> {
    fn attempted(&self, made: &Attempted<'_>) {
        self.note(made.attempt);
        // Not before: a status is not read to its end once the farm has to end.
        if self.outlook() == Outlook::SlotUsed {
            self.host.begin_end();
        }
        if gave_no_status(made.attempt) && self.host.last_failure().is_none() {
            self.host.doubt();
        }
        if let Some(door) = self.shut_door() {
            let came = self.host.open_page(door.page, door.times);
            self.host.tell_if(door.note_try(self, self.alloc, &came));
        }
        self.host.note_stage(self.stage(self.host.is_to_end()));
        self.host.note_alive();
        self.books.hosts.begin_attempt(self);
        if let Some(news) = self.books.files.begin_attempt(self) {
            self.host.tell(String::from_str(self.alloc, news.line()));
        }
        if let Some(news) = self.books.threads.begin_attempt(self) {
            self.host.tell(String::from_str(self.alloc, news.line()));
        }
        self.host
            .tell(attempt_told(self.alloc, made, self.host.last_failure()));
        // What a plan lacks may be workers of a host that only one worker tries. By a relaxed plan that worker has a function all the same.
        let lacks_plan = matches!(made.attempt, Attempt::NoPlan { .. })
            && self.last_plan() == LastPlan::OfAll;
        let farm = self.books.farm;
        let turn = self.books.hosts.turn(self);
        for number in 0..farm.settings.machines() {
            let machine = MachineId::new(number);
            let answers = self.books.hosts.note_waits(self, machine);
            self.host
                .tell_if(answers_line(self.alloc, farm, machine, answers));
            if lacks_plan {
                let news = self.books.hosts.note_no_plan(self, machine);
                self.host
                    .tell_if(host_line(self.alloc, farm, machine, news));
            }
        }
        drop(turn);
        if let Some(view) = self.view(made, self.host.now_ms()) {
            self.host.show(view);
        }
    }

    fn planned(&self, settings: &Settings, certified: &Certified) {
        *self.last_plan.lock(self) = LastPlan::OfAll;
        if let Some(notes) = &self.notes {
            let wanted = self.books.farm.wanted();
            notes.planned(self, self.alloc, settings, certified, wanted);
        }
    }

    fn relaxed(&self, settings: &Settings, relaxed: &Relaxed) {
        *self.last_plan.lock(self) = LastPlan::Relaxed;
        if let Some(notes) = &self.notes {
            notes.relaxed(self, self.alloc, settings, relaxed);
        }
    }

    fn joined(&self, joined: &JoinedWorker<'_>) {
        let machine = joined.settings.machine_of(joined.worker.slot);
        self.books.hosts.note_join(self, machine);
        self.books.files.note_start(self);
        self.books.threads.note_start(self);
        self.host.tell(joined_line(self.alloc, joined));
    }

    fn not_joined(&self, _slot: SlotId, error: JoinError) {
        if error == JoinError::GenerationsUsed {
            *self.outlook.lock(self) = Outlook::SlotUsed;
            self.host.tell(String::from_str(
                self.alloc,
                "ends since a slot has had 262143 workers",
            ));
        }
    }

    fn not_started(&self, _slot: SlotId) {
        self.books.threads.note_refusal(self);
    }

    fn ended(&self, ended: &EndedWorker<'_>) {
        let machine = ended.settings.machine_of(ended.worker.slot);
        self.books.hosts.note_end(self, machine, ended.worker);
        self.books.threads.note_end(self);
        self.books.files.note_end(self);
        let last = self.take_last(ended);
        let lost = lost_of(self.alloc, ended, &last);
        self.host.tell_if(line_of(self.alloc, &lost));
        let dated = lost.ok().flatten().map(|lost| self.host.dated(lost.view));
        self.books.tally.note(self, dated);
        self.host.tell(ended_line(self.alloc, ended, &last));
        if let Some(notes) = &self.notes {
            notes.ended(self, ended.end.cause);
        }
        self.host.note_stage(self.stage(self.host.is_to_end()));
    }

    fn finished(&self, ended: &RunEnd) {
        match end_lines(self.alloc, ended) {
            Ok(lines) => {
                if let Ok(text) = text_of(self.alloc, &lines) {
                    self.host.tell_end(text);
                }
                for line in lines {
                    self.host.tell_last(Ok(line));
                }
            }
            Err(error) => self.host.tell_last(Err(error)),
        }
    }
}

/// Which worker joined, as `joined north/0#3`. The only error is out of memory.
fn joined_line(alloc: Global, joined: &JoinedWorker<'_>) -> Result<String, AllocError> {
    let worker = joined
        .settings
        .worker_text(alloc, joined.worker.slot, joined.worker.generation)?;
    format!(in alloc; "joined {worker}")
}

/// The job that a worker left without an answer, if there is one here. The only error is out of memory.
fn lost_of(
    alloc: Global,
    ended: &EndedWorker<'_>,
    last: &LastJob,
) -> Result<Option<Uncompleted>, AllocError> {
    let LastJob::Lost(job) = last else {
        return Ok(None);
    };
    let worker = ended
        .settings
        .worker_text(alloc, ended.worker.slot, ended.worker.generation)?;
    let lost = lost_job(alloc, worker, job, ended.end.cause)?;
    Ok(Some(lost))
}

/// Which worker ended, and why, as `ended north/0#3 Closed`. If a read failed, the job follows whose answer it had written last, and which
/// may not have arrived, as `ended north/0#3 ReadFault after H:srv:12 order-7 resize`. The only error is out of memory.
fn ended_line(
    alloc: Global,
    ended: &EndedWorker<'_>,
    last: &LastJob,
) -> Result<String, AllocError> {
    let worker = ended
        .settings
        .worker_text(alloc, ended.worker.slot, ended.worker.generation)?;
    let cause = ended.end.cause.label().name();
    match last {
        LastJob::Written(job) if ended.end.cause == EndCause::ReadFault => {
            let job = job_words(alloc, job)?;
            format!(in alloc; "ended {worker} {cause} after {job}")
        }
        _ => format!(in alloc; "ended {worker} {cause}"),
    }
}

/// What a farm came to: how often each cause ended a worker, how its jobs ended, the chapters of the history that ended if one did, and
/// the totals. The only error is out of memory.
fn end_lines(alloc: Global, ended: &RunEnd) -> Result<Vec<String>, AllocError> {
    let mut lines = end_notes(alloc, ended)?;
    let chapters = ended.chapters;
    if chapters > 0 {
        lines.push(format!(in alloc; "chapters {chapters}")?)?;
    }
    lines.push(totals_line(alloc, ended.totals)?)?;
    Ok(lines)
}

/// These lines as one text.
fn text_of(alloc: Global, lines: &[String]) -> Result<String, AllocError> {
    let mut text = String::new(alloc);
    for line in lines {
        text.push_str(line.as_str())?;
        text.push_str("\n")?;
    }
    Ok(text)
}
