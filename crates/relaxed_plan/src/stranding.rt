//! The functions that have a least number but nobody to do them.

ghost use Rattle.std.specs.Prelude.{◌≡◌, ◌<◌, nat_lt, length, slice_index, filter, IfOk};
ghost use Rattle.std.specs.List.{range_with_len};
ghost use Rattle.plan_model.specs.Planning.{IsShort, top_level};
ghost use Rattle.relaxed_plan.specs.Stranded.{lacks_all, stranded_of};

use plan_model::{FuncId, FuncSet, Input};
use std::alloc::{AllocError, Global};

/// Whether the least number of the function is above 0. False for a number that is no function.
fn has_least(input: &Input, function: FuncId) -> bool
    ensures { result ≡ nat_lt 0 (slice_index input.now.least function) }
{
    match input.least().get(function.number() as usize) {
        Some(least) => *least > 0,
        None => false,
    }
}

/// Whether the function has a least number above 0, and no live worker may do it.
fn lacks_all(input: &Input, function: FuncId) -> bool
    ensures { result ≡ lacks_all input.now function }
{
    has_least(input, function) && input.is_stranded(function)
}

/// The functions below a number that lack all workers.
fn all_lacking(alloc: Global, input: &Input, functions: u32) -> Result<Vec<FuncId>, AllocError>
    ensures { IfOk result (λ kept. kept.items ≡ filter (lacks_all input.now) (range_with_len 0 functions)) }
{
    (0..functions)
        .map(FuncId::new)
        .filter(|function| lacks_all(input, *function))
        .collect(alloc)
}

/// The functions with a least number above 0 that no live worker may do, such as those of a host that is down. If there are any, all
/// together are short of workers at the top level, since they need some and have none. The only error is out of memory.
pub fn stranded(alloc: Global, input: &Input) -> Result<FuncSet, AllocError>
    ensures all { IfOk result (λ set. set ≡ stranded_of input.now) }
    ensures short { IfOk result (λ set. 0 < length set → IsShort input.now top_level set) }
{
    let functions = all_lacking(alloc, input, input.functions() as u32)?;
    Ok(FuncSet::of_rising(functions))
}
