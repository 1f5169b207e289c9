//! A law of letting off, as a function that does nothing when it runs.

ghost use Rattle.plan_model.specs.Planning.{IsShort, top_level};
ghost use Rattle.relaxed_plan.specs.Least.{HasLeast};

use plan_model::{FuncSet, Input};

/// A set that is short of workers at the top level has a function with a least number above 0. So a set that is short, once others are
/// let off, has a function that was not. It does nothing when it runs.
pub fn short_has_least(input: &Input, short: &FuncSet)
    requires { IsShort input.now top_level short.now }
    ensures { HasLeast input.now short.now }
{
    input.facts();
}
