//! The farm that is to be sized.

ghost use Rattle.std.specs.Prelude.{◌≡◌, ◌<◌, ◌≤◌, All, IfSome, length};
ghost use Rattle.plan_sizing.specs.Sizing as meant;

use plan_model::{FuncId, Input};
use std::marker::Model;

/// A farm that is to be sized: the planning problem of now, how many workers there are, lost ones too, and the level that is asked for.
///
/// A greatest number of workers stays what it is, however many workers are added. So a function that is to have none is given one
/// that no need is above: 4,294,967,295 will do. Contracts see a `Farm`, a record of the problem, the number of slots and the level.
#[derive(Debug, Drop)]
pub struct Farm {
    input: Input,
    slots: u32,
    level: Option<u32>,
}

impl Model for Farm {
    ghost use Rattle.plan_sizing.specs.Sizing as meant;

    ghost Value = { meant.Farm };

    ghost view = { λ a. record {
      problem = a.input;
      slots = a.slots;
      level = a.level;
    } };

    ghost invariant = { λ a. meant.IsFarm (record {
      problem = a.input;
      slots = a.slots;
      level = a.level;
    }) };
}

impl Farm {
    /// The farm of a planning problem whose slots are below `slots`, at most 4,096. The level is how many jobs may wait for each worker of
    /// a function, at least 1; without one any plan will do that meets the least numbers and passes no greatest number.
    pub fn of(input: Input, slots: u32, level: Option<u32>) -> Farm
        requires slotted { All (λ worker. worker.0 < slots) input.live }
        requires few { slots ≤ 4096 }
        requires some { IfSome level (λ level. 0 < level) }
        ensures problem { result.problem ≡ input }
        ensures slots { result.slots ≡ slots }
        ensures level { result.level ≡ level }
    {
        input.facts();
        Farm {
            input,
            slots,
            level,
        }
    }

    /// What every farm keeps: a law, which does nothing when it runs. Callers call it where a proof needs these facts.
    pub fn facts(&self)
        ensures { meant.IsFarm self.now }
    {
        let _slots = &self.slots;
    }

    /// The planning problem of now.
    pub fn input(&self) -> &Input
        ensures { result.now ≡ self.now.problem }
    {
        &self.input
    }

    /// How many workers there are, lost ones too, at most 4,096. Added workers get the slots from this number on.
    pub fn slots(&self) -> u32
        ensures all { result ≡ self.now.slots }
        ensures few { result ≤ 4096 }
    {
        self.slots
    }

    /// How many jobs may wait for each worker of a function, at least 1. Without a level any plan will do.
    pub fn level(&self) -> Option<u32>
        ensures { result ≡ self.now.level }
    {
        self.level
    }

    /// The need of a function: the fewest workers that meet its least number and bring all that waits for it to the level, even if
    /// no live worker may do it. It does not depend on an addition. The condition is a function of the farm.
    pub fn need(&self, function: FuncId) -> u32
        requires { function < length self.now.problem.least }
        ensures { result ≡ meant.need self.now function }
    {
        self.input.facts();
        let place = function.number() as usize;
        let jobs = wanted(self.level, self.input.waiting()[place]);
        self.input.least()[place].max(jobs)
    }
}

/// How many workers the waiting jobs need at the level.
fn wanted(level: Option<u32>, waiting: u32) -> u32
    requires { IfSome level (λ level. 0 < level) }
    ensures { result ≡ meant.wanted level waiting }
{
    match level {
        Some(level) => waiting.div_ceil(level),
        None => 0,
    }
}
