//! The problem that is left if some functions are let off.

ghost use Rattle.std.specs.Prelude.{◌≡◌, ◌<◌, length, map, IfOk};
ghost use Rattle.plan_model.specs.Planning.{functions};
ghost use Rattle.relaxed_plan.specs.Relaxed.{is_among, least_left, let_off_of};

use plan_model::{FuncId, FuncSet, Input};
use std::alloc::{AllocError, Global};

fn is_among(set: &FuncSet, function: FuncId) -> bool
    ensures { result ≡ is_among set.now function }
{
    set.functions().binary_search(&function).is_ok()
}

/// The least number of a function, which is 0 if it is one of the set.
fn least_left(input: &Input, set: &FuncSet, function: FuncId) -> u32
    requires { function < length input.now.least }
    ensures { result ≡ least_left input.now.least set.now function }
{
    if is_among(set, function) {
        0
    } else {
        input.least()[function.number() as usize]
    }
}

/// The least numbers that are left.
fn all_least_left(alloc: Global, input: &Input, set: &FuncSet) -> Result<Vec<u32>, AllocError>
    ensures { IfOk result (λ least. least.items ≡ map (least_left input.now.least set.now) (functions input.now)) }
{
    let mut least = Vec::new(alloc);
    for number in 0..input.functions() as u32 {
        least.push(least_left(input, set, FuncId::new(number)))?;
    }
    Ok(least)
}

/// The same problem, but the least numbers of these functions are 0. A number that is no function of the problem changes nothing. The
/// only error is out of memory.
pub fn let_off(alloc: Global, input: &Input, set: &FuncSet) -> Result<Input, AllocError>
    ensures { IfOk result (λ left. left ≡ let_off_of input.now set.now) }
{
    input.facts();
    let least = all_least_left(alloc, input, set)?;
    Input::of_taken(
        alloc,
        input.live(),
        input.rows(),
        &least,
        input.most(),
        input.waiting(),
    )
}
