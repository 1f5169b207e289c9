//! The job that each worker did last, until its session goes on to another or ends.

ghost use Rattle.std.specs.Prelude.{◌<◌, IfSome, length};

use farm_notes::JobEnd;
use gear_packets::Handle;
use plan_model::FuncId;
use std::alloc::{AllocError, Global};
use std::mem;
use std::sync::{Mutex, Wait};
use worker_state::WorkerName;

/// A job that the service of its worker's machine answered. Its session may end before the job server has the answer.
#[derive(Drop)]
pub struct AnsweredJob {
    /// Its handle.
    pub handle: Handle,
    /// Its unique id.
    pub unique: Vec<u8>,
    /// The name of its function.
    pub function: Vec<u8>,
    /// Its function, if it is one of the farm.
    pub counted: Option<FuncId>,
    /// How it is counted.
    pub end: JobEnd,
}

/// A worker whose session has not been seen to end.
#[derive(Drop)]
struct Entry {
    generation: u32,
    /// The job that it did last, if its service answered that.
    job: Option<AnsweredJob>,
}

/// The workers of each slot. There are several if the pool gave one up whose session goes on.
type Table = Vec<Vec<Entry>>;

/// The job that each worker of a farm did last, if its service answered that.
#[derive(Drop)]
pub struct LastJobs {
    workers: Mutex<Table>,
}

/// Where the worker's entry is among those of its slot.
fn place_of(entries: &[Entry], worker: WorkerName) -> Option<usize>
    ensures { IfSome result (λ place. place < length entries.now) }
{
    entries
        .iter()
        .position(|entry| entry.generation == worker.generation)
}

/// The entry of a worker, if it has one.
fn entry_of(table: &mut Table, worker: WorkerName) -> Option<&mut Entry> {
    let entries = table.get_mut(worker.slot.number() as usize)?;
    let place = place_of(entries, worker)?;
    entries.get_mut(place)
}

/// Makes an entry for a worker.
fn add_entry(table: &mut Table, worker: WorkerName) -> Result<(), AllocError> {
    let Some(entries) = table.get_mut(worker.slot.number() as usize) else {
        return Ok(());
    };
    entries.reserve_exact(1)?;
    entries.push(Entry {
        generation: worker.generation,
        job: None,
    })?;
    Ok(())
}

/// Takes the entry of a worker away, if it has one.
fn take_entry(table: &mut Table, worker: WorkerName) -> Option<Entry> {
    let entries = table.get_mut(worker.slot.number() as usize)?;
    let place = place_of(entries, worker)?;
    Some(entries.swap_remove(place))
}

impl LastJobs {
    /// Those of a farm with so many slots before its first worker. The only error is out of memory.
    pub fn new(alloc: Global, slots: u32) -> Result<LastJobs, AllocError> {
        let mut table = Vec::new(alloc);
        for _slot in 0..slots {
            table.push(Vec::new(alloc))?;
        }
        Ok(LastJobs {
            workers: Mutex::new(table),
        })
    }

    /// Makes room for the jobs of a worker, so that none of them needs memory to be kept. The only error is out of memory.
    pub fn begin<R: Wait>(&self, rt: &R, worker: WorkerName) -> Result<(), AllocError> {
        add_entry(&mut self.workers.lock(rt), worker)
    }

    /// The worker's last job is this one from now on, or none of which its service said how it ended. The one before is handed back.
    pub fn keep<R: Wait>(
        &self,
        rt: &R,
        worker: WorkerName,
        job: Option<AnsweredJob>,
    ) -> Option<AnsweredJob> {
        let mut held = self.workers.lock(rt);
        let entry = entry_of(&mut held, worker)?;
        mem::replace(&mut entry.job, job)
    }

    /// The session of a worker has ended. Its last job, if its service answered that.
    pub fn end<R: Wait>(&self, rt: &R, worker: WorkerName) -> Option<AnsweredJob> {
        let mut held = self.workers.lock(rt);
        let entry = take_entry(&mut held, worker)?;
        entry.job
    }
}
