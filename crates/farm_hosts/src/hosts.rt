//! Which hosts of a farm are reached, and when one that is not is tried again.

use crate::first_answers::{AnswerNews, Heard};
use crate::host_entry::{HostEntry, HostNews, MachineSlot};
use crate::host_state::{BeforeJob, Reason};
use crate::left_jobs::LeftJob;
use crate::waits::longest_unreached;
use devices::DialError;
use job_runner::Readiness;
use plan_model::MachineId;
use std::alloc::{AllocError, Global};
use std::sync::{Mutex, MutexGuard, Wait};
use worker_state::WorkerName;

/// What is known of all hosts.
#[derive(Drop)]
struct Table {
    /// The number of the attempt that is made now, from 1.
    attempt: u64,
    /// The host of each machine.
    hosts: Vec<HostEntry>,
}

/// Which hosts of a farm are reached. A host is left alone if a dial to it failed, unless files, ports or memory were lacking here, until
/// one succeeds; or if as many new jobs in a row as it has workers, 3 to 16, were not served, and none for 200 milliseconds, until one is,
/// or until there is no plan for so few workers. To one that is left alone one worker comes at a time, and of those whose jobs are not
/// served it alone asks for more.
#[derive(Drop)]
pub struct Hosts {
    table: Mutex<Table>,
    news: Mutex<()>,
}

impl Hosts {
    /// The hosts of so many machines, of which nothing is known, in a farm that pauses for `round_ms` milliseconds between two attempts.
    /// The only error is out of memory.
    pub fn new(alloc: Global, machines: u32, round_ms: u32) -> Result<Hosts, AllocError> {
        let longest = longest_unreached(round_ms);
        let mut hosts = Vec::new(alloc);
        hosts.resize(machines as usize, HostEntry::new(longest))?;
        Ok(Hosts {
            table: Mutex::new(Table { attempt: 1, hosts }),
            news: Mutex::new(()),
        })
    }

    /// The turn to change how a host is, and to tell what is new of it. Whoever tells such news takes it before the change, so that the
    /// lines of two workers come in the order of what they say.
    pub fn turn<R: Wait>(&self, rt: &R) -> MutexGuard<'_, ()> {
        self.news.lock(rt)
    }

    /// By machine, why its host is left alone, if it is. The only error is out of memory.
    pub fn unreached<R: Wait>(
        &self,
        rt: &R,
        alloc: Global,
    ) -> Result<Vec<Option<&'static str>>, AllocError> {
        let held = self.table.lock(rt);
        let mut unreached = Vec::new(alloc);
        for host in &held.hosts {
            unreached.push(host.state.reason().map(Reason::name))?;
        }
        Ok(unreached)
    }

    /// The next attempt begins.
    pub fn begin_attempt<R: Wait>(&self, rt: &R) {
        let mut held = self.table.lock(rt);
        held.attempt = held.attempt.saturating_add(1);
        for host in &mut held.hosts {
            host.begin_attempt();
        }
    }

    /// Whether a worker of this slot may start now: if its machine's host is not left alone, or is to be tried again and it is the slot's
    /// turn. Of a host that is back at most 2 workers may start in that attempt, 4 in the next, and so on, or as many as were alive
    /// before the attempt.
    pub fn may_start<R: Wait>(&self, rt: &R, slot: MachineSlot) -> bool {
        let held = self.table.lock(rt);
        match held.hosts.get(slot.machine.number() as usize) {
            Some(host) => host.may_start(slot, held.attempt),
            None => false,
        }
    }

    /// What a worker of the machine, whose jobs are run by what is so, does before it asks for one more job. A worker that is told that its
    /// connection was closed takes a look at the host, up to `end_look`. So does one worker of a host that has no job to do, and for four
    /// attempts has taken no connection and served no job.
    pub fn before_job<R: Wait>(
        &self,
        rt: &R,
        machine: MachineId,
        worker: WorkerName,
        readiness: Readiness,
    ) -> BeforeJob {
        let mut held = self.table.lock(rt);
        let attempt = held.attempt;
        match held.hosts.get_mut(machine.number() as usize) {
            Some(host) => host.before_job(worker, readiness, attempt),
            None => BeforeJob::End,
        }
    }

    /// The host of this machine is given a job by a worker that has heard so much of it.
    pub fn begin_job<R: Wait>(&self, rt: &R, machine: MachineId, so_far: Heard) {
        let mut held = self.table.lock(rt);
        if let Some(host) = held.hosts.get_mut(machine.number() as usize) {
            host.busy = host.busy.saturating_add(1);
            host.answers.begin_job(so_far);
        }
    }

    /// Such a job has ended, and was answered or not. What is new of the answers of the host.
    pub fn end_job<R: Wait>(
        &self,
        rt: &R,
        machine: MachineId,
        so_far: Heard,
        is_answered: bool,
    ) -> Option<AnswerNews> {
        let mut held = self.table.lock(rt);
        let host = held.hosts.get_mut(machine.number() as usize)?;
        host.busy = host.busy.saturating_sub(1);
        host.answers.end_job(so_far, is_answered)
    }

    /// After an attempt: what is new of the answers of the host of this machine, by how long its jobs have waited.
    pub fn note_waits<R: Wait>(&self, rt: &R, machine: MachineId) -> Option<AnswerNews> {
        let mut held = self.table.lock(rt);
        let host = held.hosts.get_mut(machine.number() as usize)?;
        host.answers.begin_attempt()
    }

    /// A worker's look at the host of this machine has ended.
    pub fn end_look<R: Wait>(&self, rt: &R, machine: MachineId) {
        let mut held = self.table.lock(rt);
        if let Some(host) = held.hosts.get_mut(machine.number() as usize) {
            host.busy = host.busy.saturating_sub(1);
        }
    }

    /// Whether the host of this machine is left alone.
    pub fn is_left_alone<R: Wait>(&self, rt: &R, machine: MachineId) -> bool {
        let held = self.table.lock(rt);
        match held.hosts.get(machine.number() as usize) {
            Some(host) => host.state.reason().is_some(),
            None => false,
        }
    }

    /// Whether no worker of the machine is alive, though its host is not left alone.
    pub fn is_without_workers<R: Wait>(&self, rt: &R, machine: MachineId) -> bool {
        let held = self.table.lock(rt);
        match held.hosts.get(machine.number() as usize) {
            Some(host) => host.alive == 0 && host.state.reason().is_none(),
            None => false,
        }
    }

    /// A worker of the machine joined. If its host is left alone, the worker tries it, and the next one waits for longer.
    pub fn note_join<R: Wait>(&self, rt: &R, machine: MachineId) {
        let mut held = self.table.lock(rt);
        let attempt = held.attempt;
        if let Some(host) = held.hosts.get_mut(machine.number() as usize) {
            host.note_join(attempt);
        }
    }

    /// A worker of the machine opened a connection for its jobs. If its host is left alone since jobs were not served, this worker alone
    /// goes on there, until another starts.
    pub fn note_start<R: Wait>(&self, rt: &R, machine: MachineId, worker: WorkerName) {
        let mut held = self.table.lock(rt);
        if let Some(host) = held.hosts.get_mut(machine.number() as usize) {
            host.state = host.state.after_start(worker);
        }
    }

    /// A worker of the machine has ended.
    pub fn note_end<R: Wait>(&self, rt: &R, machine: MachineId, worker: WorkerName) {
        let mut held = self.table.lock(rt);
        if let Some(host) = held.hosts.get_mut(machine.number() as usize) {
            host.note_end(worker);
        }
    }

    /// A round had no plan. What is new of the host of this machine.
    pub fn note_no_plan<R: Wait>(&self, rt: &R, machine: MachineId) -> Option<HostNews> {
        let mut held = self.table.lock(rt);
        let host = held.hosts.get_mut(machine.number() as usize)?;
        host.note_no_plan()
    }

    /// A connection was opened to the host of this machine, or could not be. What is new of the host: nothing if there were no files or
    /// no memory for it here.
    pub fn note_dial<R: Wait>(
        &self,
        rt: &R,
        machine: MachineId,
        dialled: Result<(), DialError>,
    ) -> Option<HostNews> {
        let mut held = self.table.lock(rt);
        let attempt = held.attempt;
        let host = held.hosts.get_mut(machine.number() as usize)?;
        host.note_dial(dialled, attempt)
    }

    /// A job was served by the host of this machine at this time, in milliseconds. What is new of the host.
    pub fn note_served<R: Wait>(
        &self,
        rt: &R,
        machine: MachineId,
        now_ms: Option<u64>,
    ) -> Option<HostNews> {
        let mut held = self.table.lock(rt);
        let attempt = held.attempt;
        let host = held.hosts.get_mut(machine.number() as usize)?;
        host.note_served(attempt, now_ms)
    }

    /// For how many milliseconds more the host of this machine is spared, which left this job and others: as many new ones in a row as mark
    /// it, but it served one just before. Until then a job that it leaves is not to come again, since it would be left once more.
    pub fn doubt_ms<R: Wait>(&self, rt: &R, machine: MachineId, job: LeftJob) -> u64 {
        let held = self.table.lock(rt);
        match held.hosts.get(machine.number() as usize) {
            Some(host) => host.left.doubt_ms(job),
            None => 0,
        }
    }

    /// This job was not served by the host of this machine. What is new of the host.
    pub fn note_unserved<R: Wait>(
        &self,
        rt: &R,
        machine: MachineId,
        job: LeftJob,
    ) -> Option<HostNews> {
        let mut held = self.table.lock(rt);
        let attempt = held.attempt;
        let host = held.hosts.get_mut(machine.number() as usize)?;
        host.note_unserved(job, attempt)
    }
}
