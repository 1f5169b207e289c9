//! What finds plans.
ghost use Rattle.std.specs.Prelude.{◌≡◌, IfOk, IfSome};
ghost use Rattle.plan_model.specs.Shown.{Shown};
ghost use Rattle.level_search.specs.Steady.{IsSteady};

use bumpalo::Bump;
use plan_model::{Answer, Input, Plan};
use std::alloc::{AllocError, Global};

/// What finds the best plan of a round.
pub trait Planner {
    /// A best answer for the input, with the evidence that it is one. A previous plan that is best and leaves nobody idle who may do
    /// a function below its greatest number is the answer again. The only error is out of memory.
    fn solve(&self, input: &Input, previous: Option<&Plan>) -> Result<Answer, AllocError>
        ensures shown { IfOk result (Shown input.now) }
        ensures steady { IfOk result (λ answer. IfSome previous.entry (λ plan. IsSteady input.now plan.now answer)) };
}

/// The planner of [`level_search::solve`], in a fresh arena for each round.
#[derive(Clone, Copy)]
pub struct ArenaPlanner {
    alloc: Global,
}

impl ArenaPlanner {
    /// A planner that takes its arenas from here.
    pub fn new(alloc: Global) -> ArenaPlanner {
        ArenaPlanner { alloc }
    }
}

impl Planner for ArenaPlanner {
    fn solve(&self, input: &Input, previous: Option<&Plan>) -> Result<Answer, AllocError> {
        let bump = Bump::new(self.alloc);
        let solved = level_search::solve(self.alloc, &bump, input, previous)?;
        Ok(solved.answer)
    }
}
