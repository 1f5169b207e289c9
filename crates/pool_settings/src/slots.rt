//! The slots of machines, numbered by machine and then by the worker's number in its machine.

ghost use Rattle.std.specs.Prelude.{◌≡◌, ◌<◌, ◌≤◌, ◌+◌, ◌++◌, IfOk, OnOk, length, sum, take, slice_index, replicate};
ghost use Rattle.pool_settings.specs.Slots.{firsts_from, owners_from};

use plan_model::{MachineId, SlotId};
use std::alloc::{AllocError, Global};
use std::marker::Model;

/// How many workers each machine has, with a table of the first slot of each machine and one of each slot's machine, so that
/// no call looks for either.
#[derive(Drop)]
pub struct SlotTable {
    workers: Vec<u32>,
    first: Vec<u32>,
    owners: Vec<MachineId>,
}

impl Model for SlotTable {
    ghost use Rattle.std.specs.Prelude.{◌≡◌, ◌≤◌, ℕ, List, length, sum, take, slice_index};
    ghost use Rattle.pool_settings.specs.Slots.{IsSlotTable};

    ghost Value = { List ℕ };

    ghost view = { λ t. t.workers.items };

    ghost invariant = { λ t. IsSlotTable t.workers.items t.first.items t.owners.items };
}

impl SlotTable {
    /// The table of machines with these numbers of workers.
    pub fn new(alloc: Global, workers: Vec<u32>) -> Result<SlotTable, AllocError>
        requires few { sum workers.items ≤ 4096 }
        requires machines { length workers.items ≤ 256 }
        ensures { IfOk result (λ table. table ≡ workers.items) }
    {
        let first = first_slots(alloc, &workers)?;
        let owners = owners_of(alloc, &workers)?;
        Ok(SlotTable {
            workers,
            first,
            owners,
        })
    }

    /// How many slots there are.
    pub fn len(&self) -> u32
        ensures all { result ≡ sum self.now }
        ensures few { result ≤ 4096 }
    {
        self.owners.len() as u32
    }

    /// For each machine the number of its workers.
    pub fn workers(&self) -> &[u32]
        ensures all { result.now ≡ self.now }
        ensures few { sum self.now ≤ 4096 }
    {
        &self.workers
    }

    /// The machine of each slot.
    pub fn owners(&self) -> &[MachineId]
        ensures { result.now ≡ owners_from 0 self.now }
    {
        &self.owners
    }

    /// The slot of a machine's first worker.
    pub fn first(&self, machine: MachineId) -> u32
        requires { machine < length self.now }
        ensures first { result ≡ sum (take machine self.now) }
        ensures within { result + slice_index self.now machine ≤ sum self.now }
        ensures room { result + slice_index self.now machine ≤ 4096 }
    {
        self.first[machine.number() as usize]
    }

    /// The machine of a slot.
    pub fn owner(&self, slot: SlotId) -> MachineId
        requires { slot < sum self.now }
        ensures { result ≡ slice_index (owners_from 0 self.now) slot }
    {
        self.owners[slot.number() as usize]
    }

    pub fn copy(&self, alloc: Global) -> Result<SlotTable, AllocError>
        ensures { IfOk result (λ table. table ≡ self.now) }
    {
        let workers = Vec::from_slice(alloc, &self.workers)?;
        let first = Vec::from_slice(alloc, &self.first)?;
        let owners = Vec::from_slice(alloc, &self.owners)?;
        Ok(SlotTable {
            workers,
            first,
            owners,
        })
    }
}

/// For each machine the slot of its first worker.
fn first_slots(alloc: Global, workers: &[u32]) -> Result<Vec<u32>, AllocError>
    requires { sum workers.now ≤ 4096 }
    ensures { IfOk result (λ first. first.items ≡ firsts_from 0 workers.now) }
{
    let mut first = Vec::new(alloc);
    let mut slot = 0;
    for count in workers {
        first.push(slot)?;
        slot += *count;
    }
    Ok(first)
}

/// The machine of each slot.
fn owners_of(alloc: Global, workers: &[u32]) -> Result<Vec<MachineId>, AllocError>
    requires { length workers.now ≤ 256 }
    ensures { IfOk result (λ owners. owners.items ≡ owners_from 0 workers.now) }
{
    let mut owners = Vec::new(alloc);
    let mut machine = 0;
    for count in workers {
        owners.resize(owners.len() + *count as usize, MachineId::new(machine))?;
        machine += 1;
    }
    Ok(owners)
}
