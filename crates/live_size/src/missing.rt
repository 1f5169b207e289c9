//! How many workers are missing, or why no addition helps.

ghost use Rattle.std.specs.Prelude.{◌≡◌, ◌≤◌, IfOk, length, slice_index_or};
ghost use Rattle.plan_sizing.specs.Shown.{Shown};
ghost use Rattle.live_size.specs.Answers as spec;
ghost use Rattle.size_report.specs.Text.{added_on};

use plan_model::MachineId;
use plan_sizing::{Farm, Obstacle, Size};
use pool_settings::Settings;
use std::alloc::{AllocError, Global};
use std::marker::Model;

/// How many workers are missing on each machine, and 0 where none is. Contracts see the list of the numbers.
#[derive(Debug, Drop)]
pub struct ByMachine {
    numbers: Vec<u32>,
}

impl Model for ByMachine {
    ghost use Rattle.std.specs.Prelude.{ℕ, List};

    ghost Value = { List ℕ };

    ghost view = { λ a. a.numbers.items };
}

/// How many of the added workers are on a machine.
#[tactic(auto, using(crate::proofs::Counts::few_on))]
fn count_on(added: &[MachineId], machine: MachineId) -> u32
    requires { length added.now ≤ 4096 }
    ensures { result ≡ added_on added.now machine }
{
    added.iter().filter(|other| **other == machine).count() as u32
}

/// How many of the added workers are on each of so many machines.
fn counts_on(alloc: Global, machines: u32, added: &[MachineId]) -> Result<Vec<u32>, AllocError>
    requires { length added.now ≤ 4096 }
    ensures { IfOk result (λ numbers. numbers.items ≡ spec.by_machine machines added.now) }
{
    let mut numbers = Vec::new(alloc);
    for number in 0..machines {
        numbers.push(count_on(added, MachineId::new(number)))?;
    }
    Ok(numbers)
}

impl ByMachine {
    /// How many workers are missing on a machine. On one that the settings do not have it is 0.
    pub fn on(&self, machine: MachineId) -> u32
        ensures { result ≡ slice_index_or self.now machine 0 }
    {
        match self.numbers.get(machine.number() as usize) {
            Some(number) => *number,
            None => 0,
        }
    }

    /// The number of each machine of the settings.
    pub fn numbers(&self) -> &[u32]
        ensures { result.now ≡ self.now }
    {
        &self.numbers
    }

    /// The same numbers again. The only error is out of memory.
    pub fn copy(&self, alloc: Global) -> Result<ByMachine, AllocError>
        ensures { IfOk result (λ copy. copy ≡ self.now) }
    {
        Ok(ByMachine {
            numbers: Vec::from_slice(alloc, &self.numbers)?,
        })
    }
}

/// How many workers are missing, or why no addition helps.
#[derive(Debug, Drop)]
pub enum Missing {
    /// So many workers on each machine: together the fewest with which a plan keeps to the wanted backlog. If none is missing, each number
    /// is 0.
    Workers(ByMachine),
    /// No addition helps, as this function shows, the lowest that shows it.
    Never(Obstacle),
    /// So many workers at least have to be added, and with those of the settings they are more than 4,096.
    TooMany(u64),
}

impl Missing {
    /// What a size of a farm of these settings says is missing. The only error is out of memory.
    pub(crate) fn of(
        alloc: Global,
        settings: &Settings,
        farm: &Farm,
        size: &Size,
    ) -> Result<Missing, AllocError>
        requires shown { Shown farm.now size.now }
        ensures { IfOk result (λ missing. missing ≡ spec.missing_in settings.now size.now) }
    {
        match size {
            Size::Enough { added, .. } => {
                let numbers = counts_on(alloc, settings.machines(), added.machines())?;
                Ok(Missing::Workers(ByMachine { numbers }))
            }
            Size::Never(obstacle) => Ok(Missing::Never(*obstacle)),
            Size::TooMany { added, .. } => Ok(Missing::TooMany(*added)),
        }
    }

    /// The same again. The only error is out of memory.
    pub fn copy(&self, alloc: Global) -> Result<Missing, AllocError>
        ensures { IfOk result (λ copy. copy ≡ self.now) }
    {
        match self {
            Missing::Workers(numbers) => Ok(Missing::Workers(numbers.copy(alloc)?)),
            Missing::Never(obstacle) => Ok(Missing::Never(*obstacle)),
            Missing::TooMany(many) => Ok(Missing::TooMany(*many)),
        }
    }
}
