//! The jobs of a farm's workers, done by the services of their machines.

ghost use Rattle.std.specs.Prelude.{IfSome};
ghost use Rattle.http_jobs.specs.Response.{reply_of};
ghost use Rattle.serve_command.specs.ServiceJobs.{IsGivenUp, IsSettled};

use crate::books::Books;
use crate::farm::Farm;
use crate::host::FarmHost;
use crate::job_lines::{failure_of, line_of, told_part};
use crate::last_jobs::AnsweredJob;
use devices::DialError;
use farm_hosts::{AnswerNews, Heard, HostNews, HostSign, Hosts, LeftJob, MachineSlot, sign_of};
use farm_notes::JobEnd;
use gear_packets::{Assignment, Handle};
use http_jobs::{JobTerms, Reply, Resend, ServiceJobs, Unserved, dial_words, left_too_often};
use job_runner::{End, Jobs, NotDone, Outcome, Readiness};
use plan_model::{FuncId, MachineId, SlotId};
use pool_supervisor::JobSource;
use std::alloc::{AllocError, Global};
use std::sync::{Mutex, Wait};
use unserved_jobs::{UnservedJobs, is_left_too_often};
use worker_state::WorkerName;

/// The terms of a worker that has had no job yet. Each job has its own.
const BEFORE_A_JOB: JobTerms = JobTerms {
    timeout_ms: 0,
    resend: Resend::Never,
};

/// Gives each worker of a farm the jobs of its machine's service.
#[derive(Drop)]
pub struct FarmSource<'e, H> {
    /// What opens connections, and is told which hosts are reached.
    pub host: &'e H,
    /// Where memory comes from.
    pub alloc: Global,
    /// The farm, and what is kept of it.
    pub books: Books<'e>,
}

impl<'e, H: FarmHost> JobSource for FarmSource<'e, H> {
    ghost use Rattle.std.specs.Prelude.{◌≡◌, true, ⊤};
    ghost use Rattle.std.specs.Option.{option_map};
    ghost use Rattle.job_runner.specs.Run.{seen_link};
    ghost use Rattle.http_jobs.specs.Serving.{HasNew};
    ghost use Rattle.pool_settings.specs.Slots.{machine_of};
    ghost use Rattle.serve_command.specs.Farm.{HasDialled, IsServiceOf};

    type Jobs = FarmJobs<'e, H>;

    ghost allows = { λ _ _ _. true };

    ghost gives = { λ source worker given. (given.books.farm ≡ source.books.farm)
        × IsServiceOf source.books.farm.now worker given.jobs.service
        × HasNew (option_map (seen_link H.Call.input H.Call.output) given.jobs.kept)
        × HasDialled source.books.farm.now worker (H.Dials.host given.jobs.dial) (H.Dials.calls given.jobs.dial)
        × (given.worker ≡ worker) × (given.machine ≡ machine_of source.books.farm.now.settings worker.slot) };

    ghost denies = { λ _ _. ⊤ };

    fn may_start(&self, slot: SlotId) -> bool {
        let farm = self.books.farm;
        if slot.number() >= farm.settings.slots() || self.host.is_to_end() {
            return false;
        }
        // Else each empty slot would dial a job server that does not answer, and an attempt would take as long as all of that. Whether it
        // does again the attempt sees when it asks for the status.
        if self.host.last_failure().is_some() {
            return false;
        }
        if !self.books.threads.allows_start(self.host) {
            return false;
        }
        let machine = farm.settings.machine_of(slot);
        let own = MachineSlot {
            machine,
            number: farm.settings.worker_number(slot),
            of: farm.settings.workers(machine),
        };
        if !self.books.hosts.may_start(self.host, own) {
            return false;
        }
        if let Some(most) = self.books.files.files_to_find(self.host) {
            let free = self.host.free_files(most);
            self.books.files.note_found(self.host, most, free);
        }
        self.books.files.ask_to_start(self.host)
    }

    fn jobs_of(&self, worker: WorkerName) -> Option<FarmJobs<'e, H>> {
        let farm = self.books.farm;
        let slot = worker.slot;
        let generation = worker.generation;
        if slot.number() >= farm.settings.slots() {
            return None;
        }
        let machine = farm.settings.machine_of(slot);
        let Some((host, service)) = farm.place_of(self.alloc, worker) else {
            self.books.files.note_opening(self.host);
            return None;
        };
        let dials = self.host.dials(host, farm.call_times());
        let mut jobs = ServiceJobs::new(service, dials, self.host.times(), BEFORE_A_JOB);
        let opened = jobs.open();
        self.books.files.note_opening(self.host);
        let turn = self.books.hosts.turn(self.host);
        if let Some(news) = self.books.hosts.note_dial(self.host, machine, opened) {
            self.host.tell(news_line(self.alloc, farm, machine, news));
        }
        drop(turn);
        if let Err(why) = opened {
            let worker = WorkerName { slot, generation };
            self.host
                .tell(no_connection_line(self.alloc, farm, worker, why));
            return None;
        }
        self.books
            .last_jobs
            .begin(self.host, WorkerName { slot, generation })
            .ok()?;
        self.books
            .hosts
            .note_start(self.host, machine, WorkerName { slot, generation });
        Some(FarmJobs {
            host: self.host,
            alloc: self.alloc,
            books: self.books,
            machine,
            worker: WorkerName { slot, generation },
            jobs,
            heard: Heard::Nothing,
            next_look: Mutex::new(NextLook::Due),
        })
    }

    /// A service has a job of each function, or says itself that it has none.
    fn serves(&self, _function: &[u8]) -> bool {
        true
    }
}

/// The jobs of one worker. Each is done by the service of the worker's machine, in the time that its function has.
#[derive(Drop)]
pub struct FarmJobs<'e, H: FarmHost> {
    host: &'e H,
    alloc: Global,
    books: Books<'e>,
    machine: MachineId,
    worker: WorkerName,
    jobs: ServiceJobs<H::Call, H::Dials, H::Times>,
    /// Whether its service has answered one.
    heard: Heard,
    next_look: Mutex<NextLook>,
}

/// Whether a worker that is about to ask for a job, or that has waited for one, looks at its kept connection.
#[derive(Clone, Copy)]
enum NextLook {
    /// It does not: its job has just ended, and a look is three calls of the system.
    AfterJob,
    /// It does.
    Due,
    /// Not while it waits: since the last job it was told that the connection is lost. A service may close each one that is idle, and its
    /// workers are not to dial it at each timeout.
    ToldLost,
}

/// Whether a worker that is about to ask for a job looks at its kept connection. The next time it does.
fn takes_look<R: Wait>(rt: &R, next_look: &Mutex<NextLook>) -> bool {
    let mut next = next_look.lock(rt);
    match *next {
        NextLook::AfterJob => {
            *next = NextLook::Due;
            false
        }
        NextLook::Due | NextLook::ToldLost => true,
    }
}

/// What is new of the machine's host after this job, which told so much of it.
fn news_of<R: Wait>(
    rt: &R,
    hosts: &Hosts,
    machine: MachineId,
    job: LeftJob,
    sign: HostSign,
) -> Option<HostNews> {
    match sign {
        HostSign::Served => hosts.note_served(rt, machine, job.now_ms),
        HostSign::Unserved => hosts.note_unserved(rt, machine, job),
        HostSign::Unreached(why) => hosts.note_dial(rt, machine, Err(why)),
        HostSign::Nothing => None,
    }
}

/// Whether a response came to a job, one that says how the job ended or not.
fn is_answered(served: &Result<Option<Reply>, http_jobs::NotDone>) -> bool {
    matches!(
        served,
        Ok(Some(_)) | Err(http_jobs::NotDone::Unserved(Unserved::Status(_)))
    )
}

/// What a worker has heard of its host after this job.
fn heard_after(so_far: Heard, served: &Result<Option<Reply>, http_jobs::NotDone>) -> Heard {
    if is_answered(served) {
        Heard::Answer
    } else {
        so_far
    }
}

/// A job of the machine's host has come to this. What is new of its answers.
fn end_job<R: Wait>(
    rt: &R,
    hosts: &Hosts,
    machine: MachineId,
    so_far: Heard,
    served: &Result<Option<Reply>, http_jobs::NotDone>,
) -> Option<AnswerNews> {
    hosts.end_job(rt, machine, so_far, is_answered(served))
}

/// How a job ended.
fn end_of(done: &Result<Option<Reply>, http_jobs::NotDone>) -> JobEnd {
    match done {
        Ok(Some(reply)) => match &reply.outcome.end {
            End::Complete(_) => JobEnd::Completed,
            End::Fail => JobEnd::Failed,
        },
        Ok(None) => JobEnd::Failed,
        Err(_) => JobEnd::Lost,
    }
}

/// The job, to be kept as one that is answered, if its service said how it ended. Its names are moved, and its data is dropped.
fn answered_of(
    alloc: Global,
    job: Assignment,
    function: Option<FuncId>,
    done: &Result<Option<Reply>, http_jobs::NotDone>,
) -> Option<AnsweredJob> {
    let end = end_of(done);
    if end == JobEnd::Lost {
        return None;
    }
    let Assignment {
        handle,
        function: name,
        unique,
        payload: _,
    } = job;
    Some(AnsweredJob {
        handle,
        unique: told_part(alloc, unique),
        function: told_part(alloc, name),
        counted: function,
        end,
    })
}

/// The line of what is new of a machine's host. The only error is out of memory.
fn news_line(
    alloc: Global,
    farm: &Farm,
    machine: MachineId,
    news: HostNews,
) -> Result<String, AllocError> {
    let name = farm.settings.machine_name(machine);
    match news {
        HostNews::Reached => format!(in alloc; "reached {name}"),
        HostNews::Unreached(why) => {
            let why = why.name();
            format!(in alloc; "unreached {name} {why}")
        }
    }
}

/// The line of what is new of the answers of a machine's host, if anything is.
pub fn answers_line(
    alloc: Global,
    farm: &Farm,
    machine: MachineId,
    news: Option<AnswerNews>,
) -> Option<Result<String, AllocError>> {
    let name = farm.settings.machine_name(machine);
    match news? {
        AnswerNews::Unanswered(jobs) => Some(format!(in alloc; "unanswered {name} {jobs}")),
        AnswerNews::Answered => Some(format!(in alloc; "answered {name}")),
    }
}

/// The line of a worker that ends since no connection to its service was opened. The only error is out of memory.
fn no_connection_line(
    alloc: Global,
    farm: &Farm,
    worker: WorkerName,
    why: DialError,
) -> Result<String, AllocError> {
    let name = farm.name_of(alloc, worker)?;
    let why = dial_words(why);
    format!(in alloc; "noconnection {name} ({why})")
}

/// The line of what is new of a machine's host, if anything is.
pub fn host_line(
    alloc: Global,
    farm: &Farm,
    machine: MachineId,
    news: Option<HostNews>,
) -> Option<Result<String, AllocError>> {
    let news = news?;
    Some(news_line(alloc, farm, machine, news))
}

/// Notes that the job was left unserved at this time, if it was. How often it was, this time included. None if no time is known. A job that
/// was served is not known any more: whoever left it before, it comes again no more.
fn note_left<R: Wait>(
    rt: &R,
    unserved: &Mutex<UnservedJobs>,
    job: &Handle,
    sign: HostSign,
    now_ms: Option<u64>,
) -> Option<u32> {
    match (sign, now_ms) {
        (HostSign::Unserved, Some(now_ms)) => Some(unserved.lock(rt).note(job, now_ms)),
        (HostSign::Served, _) => {
            unserved.lock(rt).forget(job);
            None
        }
        _ => None,
    }
}

/// What a job is to the host that left it at this time, if it did. If it was left before, it may be one that nobody can do: it would tell
/// the same of each host. If that is not known it counts as new.
fn left_job(farm: &Farm, machine: MachineId, times: Option<u32>, now_ms: Option<u64>) -> LeftJob {
    LeftJob {
        is_new: times.unwrap_or(1) == 1,
        workers: farm.workers_on(machine),
        now_ms,
    }
}

/// How a worker leaves a job.
#[derive(Clone, Copy)]
struct Leaving {
    machine: MachineId,
    worker: WorkerName,
    /// How often services left the job unserved, this time included. None if that is not so, or not known.
    times: Option<u32>,
    /// How many times it may come again.
    retries: Option<u32>,
    /// Whether it is in doubt if the machine's host serves jobs.
    is_in_doubt: bool,
}

/// What a job comes to that was left unserved so often, if that is too often: it failed. None also if memory is refused: then it comes
/// again, and may fail the next time.
fn given_up(
    alloc: Global,
    times: u32,
    retries: Option<u32>,
    done: &Result<Option<Reply>, http_jobs::NotDone>,
) -> Option<Reply>
    ensures { IfSome result (λ reply. IsGivenUp retries done.now (reply_of reply)) }
{
    match done {
        Err(http_jobs::NotDone::Unserved(last)) if is_left_too_often(times, retries) => {
            left_too_often(alloc, times, *last).ok()
        }
        _ => None,
    }
}

/// What a job comes to that its worker leaves unserved. If it was left too often it failed, and is not known any more. Else the worker
/// holds it for a while once its session has ended, if it was left before. Neither is so if the host is left alone: then the host fails
/// and not the job, and another host may do it. While that is in doubt no job fails.
fn settle<R: Wait>(
    rt: &R,
    alloc: Global,
    books: &Books<'_>,
    job: &Handle,
    left: Leaving,
    done: Result<Option<Reply>, http_jobs::NotDone>,
) -> Result<Option<Reply>, http_jobs::NotDone>
    ensures { IsSettled left.retries done result }
{
    let Some(times) = left.times else {
        return done;
    };
    if books.hosts.is_left_alone(rt, left.machine) {
        return done;
    }
    if !left.is_in_doubt {
        if let Some(reply) = given_up(alloc, times, left.retries, &done) {
            books.unserved.lock(rt).forget(job);
            return Ok(Some(reply));
        }
    }
    let _milliseconds = books.unserved.lock(rt).hold(left.worker, job);
    done
}

impl<'e, H: FarmHost> Jobs for FarmJobs<'e, H> {
    ghost use Rattle.std.specs.Prelude.{◌≡◌};
    ghost use Rattle.http_jobs.specs.Serving.{IsNotDoneBy, MayMakeReady, visible};
    ghost use Rattle.serve_command.specs.Farm.{terms_in};
    ghost use Rattle.serve_command.specs.ServiceJobs.{Does};

    ghost tells = { λ before after job told. (after.books.farm ≡ before.books.farm)
        × (after.worker ≡ before.worker) × (after.machine ≡ before.machine)
        × (H.Dials.host after.jobs.dial ≡ H.Dials.host before.jobs.dial)
        × Does before.books.farm.now before.jobs.service
        (visible H.Call.input H.Call.output H.Call.quiet before.jobs.kept (H.Dials.calls before.jobs.dial)
        (H.Times.shown before.jobs.clock))
        (visible H.Call.input H.Call.output H.Call.quiet after.jobs.kept (H.Dials.calls after.jobs.dial)
        (H.Times.shown after.jobs.clock)) job told
        × (after.jobs.service ≡ before.jobs.service)
        × (after.jobs.terms ≡ terms_in before.books.farm.now job.function) };

    ghost fails = { λ before after job error. (after.books.farm ≡ before.books.farm)
        × (after.worker ≡ before.worker) × (after.machine ≡ before.machine)
        × (H.Dials.host after.jobs.dial ≡ H.Dials.host before.jobs.dial)
        × IsNotDoneBy before.jobs.service (terms_in before.books.farm.now job.function)
        (visible H.Call.input H.Call.output H.Call.quiet before.jobs.kept (H.Dials.calls before.jobs.dial)
        (H.Times.shown before.jobs.clock))
        (visible H.Call.input H.Call.output H.Call.quiet after.jobs.kept (H.Dials.calls after.jobs.dial)
        (H.Times.shown after.jobs.clock))
        after.jobs.service after.jobs.terms job error };

    ghost prepares = { λ before after. (after.books.farm ≡ before.books.farm)
        × (after.worker ≡ before.worker) × (after.machine ≡ before.machine)
        × (H.Dials.host after.jobs.dial ≡ H.Dials.host before.jobs.dial)
        × MayMakeReady
        (visible H.Call.input H.Call.output H.Call.quiet before.jobs.kept (H.Dials.calls before.jobs.dial)
        (H.Times.shown before.jobs.clock))
        (visible H.Call.input H.Call.output H.Call.quiet after.jobs.kept (H.Dials.calls after.jobs.dial)
        (H.Times.shown after.jobs.clock))
        × (after.jobs.service ≡ before.jobs.service) × (after.jobs.terms ≡ before.jobs.terms) };

    fn run(&mut self, alloc: Global, job: Assignment) -> Result<Option<Outcome>, NotDone> {
        let farm = self.books.farm;
        let function = farm.settings.function_named(&job.function);
        self.books.tally.begin(self.host, function);
        let timeout_ms = self.books.farm.timeout_ms(&job.function);
        self.jobs.set_terms(self.books.farm.terms(&job.function));
        self.next_look = Mutex::new(NextLook::AfterJob);
        let so_far = self.heard;
        self.books.hosts.begin_job(self.host, self.machine, so_far);
        let served = self.jobs.serve(alloc, &job);
        self.heard = heard_after(so_far, &served);
        let sign = sign_of(&served, timeout_ms, farm.services.connect_ms());
        let now_ms = self.host.now_ms();
        let times_left = note_left(self.host, self.books.unserved, &job.handle, sign, now_ms);
        let left = left_job(farm, self.machine, times_left, now_ms);
        let turn = self.books.hosts.turn(self.host);
        let answers = end_job(self.host, self.books.hosts, self.machine, so_far, &served);
        self.host
            .tell_if(answers_line(alloc, farm, self.machine, answers));
        let news = news_of(self.host, self.books.hosts, self.machine, left, sign);
        self.host
            .tell_if(host_line(alloc, farm, self.machine, news));
        drop(turn);
        let left = Leaving {
            machine: self.machine,
            worker: self.worker,
            times: times_left,
            retries: farm.retries(&job.function),
            is_in_doubt: self.books.hosts.doubt_ms(self.host, self.machine, left) > 0,
        };
        let done = settle(self.host, alloc, &self.books, &job.handle, left, served);
        self.books.tally.end(self.host, function, end_of(&done));
        let failure = failure_of(alloc, farm, self.worker, &job, &done);
        self.host.tell_if(line_of(alloc, &failure));
        let dated = failure
            .ok()
            .flatten()
            .map(|failure| self.host.dated(failure.view));
        self.books.tally.note(self.host, dated);
        let answered = answered_of(alloc, job, function, &done);
        drop(self.books.last_jobs.keep(self.host, self.worker, answered));
        Ok(Reply::outcome_in(done?))
    }

    /// If no connection is kept, or the kept one is lost, one is opened. If that fails the worker asks for no job, and ends: another host
    /// may do the job. None is opened if the farm has to end, since then no job is asked for.
    fn prepare(&mut self) -> Readiness {
        let looks = takes_look(self.host, &self.next_look);
        if self.host.is_to_end() || (self.jobs.is_open() && !(looks && self.jobs.is_lost())) {
            return Readiness::Ready;
        }
        let opened = self.jobs.make_ready();
        let farm = self.books.farm;
        let turn = self.books.hosts.turn(self.host);
        let news = self.books.hosts.note_dial(self.host, self.machine, opened);
        self.host
            .tell_if(host_line(self.alloc, farm, self.machine, news));
        drop(turn);
        let Err(why) = opened else {
            return Readiness::Ready;
        };
        self.host
            .tell(no_connection_line(self.alloc, farm, self.worker, why));
        Readiness::Unready
    }

    /// `Lost` if it is time to look and the kept connection is lost. A loss is told once.
    fn readiness(&self) -> Readiness {
        let mut next = self.next_look.lock(self.host);
        match *next {
            NextLook::AfterJob => *next = NextLook::Due,
            NextLook::Due if self.jobs.is_lost() => {
                *next = NextLook::ToldLost;
                return Readiness::Lost;
            }
            NextLook::Due | NextLook::ToldLost => {}
        }
        Readiness::Ready
    }
}
