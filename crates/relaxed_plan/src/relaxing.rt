//! The search for the functions that have to be let off.

ghost use Rattle.std.specs.Prelude.{◌≡◌, ◌++◌, ◌<◌, ◌≤◌, length, IfNone, IfOk, IfSome};
ghost use Rattle.plan_model.specs.InputRefusals.{rising_of};
ghost use Rattle.plan_model.specs.Planning.{IsShort, top_level};
ghost use Rattle.plan_model.specs.Shown.{Shown};
ghost use Rattle.level_search.specs.Steady.{IsSteady};
ghost use Rattle.relaxed_plan.specs.Least.{least_count};
ghost use Rattle.relaxed_plan.specs.Relaxed.{AreLetOff, IsGivenUp, IsPlanned, let_off_of};
ghost use Rattle.relaxed_plan.specs.Stranded.{served_count, stranded_of};

use crate::letting_off::let_off;
use crate::stranding::stranded;
use bumpalo::Bump;
use level_search::solve;
use plan_model::{Answer, Certified, FuncId, FuncSet, Input, Plan, rising_functions};
use std::alloc::{AllocError, Global};

/// No more problems than this are solved for one plan.
const MAX_SOLVES: u32 = 64;

/// A plan that leaves out least numbers of functions that are short of workers.
#[derive(Drop)]
pub struct Relaxed {
    /// The problem in which the functions that are let off have least numbers of 0, with its best plan.
    pub certified: Certified,
    /// The functions that are let off.
    pub let_off: FuncSet,
}

/// The functions of the problem that the list names.
fn set_of(alloc: Global, input: &Input, named: &[FuncId]) -> Result<FuncSet, AllocError>
    ensures { IfOk result (λ set. set ≡ rising_of (length input.now.least) named.now) }
{
    let functions = rising_functions(alloc, named, input.functions() as u32)?;
    Ok(FuncSet::of_rising(functions))
}

/// The functions of the problem that are in one of the sets.
fn joined(
    alloc: Global,
    input: &Input,
    one: &FuncSet,
    other: &FuncSet,
) -> Result<FuncSet, AllocError>
    ensures { IfOk result (λ set. set ≡ rising_of (length input.now.least) (one.now ++ other.now)) }
{
    let mut named = Vec::from_slice(alloc, one.functions())?;
    named.extend_from_slice(other.functions())?;
    set_of(alloc, input, &named)
}

/// The functions of the set, and those that are stranded once it is let off.
fn with_stranded(alloc: Global, input: &Input, short: &FuncSet) -> Result<FuncSet, AllocError>
    ensures { IfOk result
        (λ set. set ≡ rising_of (length input.now.least) (short.now ++ stranded_of (let_off_of input.now short.now))) }
{
    let left = let_off(alloc, input, short)?;
    let stranded = stranded(alloc, &left)?;
    joined(alloc, input, short, &stranded)
}

/// The problem with an answer that is shown, found in an arena of its own.
fn solved(alloc: Global, input: Input, previous: Option<&Plan>) -> Result<Certified, AllocError>
    ensures input { IfOk result (λ certified. certified.input ≡ input) }
    ensures shown { IfOk result (λ certified. Shown input certified.answer) }
    ensures steady { IfOk result
        (λ certified. IfSome previous.entry (λ plan. IsSteady certified.input plan.now certified.answer)) }
{
    let bump = Bump::new(alloc);
    let solved = solve(alloc, &bump, &input, previous)?;
    Ok(Certified::of(input, solved.answer))
}

/// A plan that leaves out least numbers of functions that are short of workers, of a problem that has no plan.
///
/// The condition is a set of functions that shows this: it is short of workers at the top level (Hall's theorem, with demands), as
/// [`Answer::NoPlan`] has it. The set is let off, as [`let_off`] says: the least numbers of its functions are 0, and nothing else changes.
/// So are all functions that are [`stranded`], which are a set that is short too. What is left is solved. If it has no plan either, the
/// set that shows this is let off too, and so on. So whoever is let off is in a set of which some function has to be let off; which one,
/// nothing says.
///
/// The plan is best for the problem that is left. A previous plan that is best for it too, and leaves nobody idle who may do a function
/// below its greatest number, is the plan again, cut to live workers, permitted functions and greatest numbers.
///
/// At most 64 problems are solved. The answer may be `None` only if at least 64 more sets are short in turn; then more than 64 functions
/// have a least number above 0, and 64 of them are functions that some live worker may do. So functions that no live worker may do,
/// however many, never make it `None` alone. The only error is out of memory.
pub fn relaxed_plan(
    alloc: Global,
    input: &Input,
    short: &FuncSet,
    previous: Option<&Plan>,
) -> Result<Option<Relaxed>, AllocError>
    requires short { IsShort input.now top_level short.now }
    ensures let_off { IfOk result (λ found. IfSome found (λ relaxed. AreLetOff input.now short.now relaxed.let_off)) }
    ensures left { IfOk result
        (λ found. IfSome found (λ relaxed. relaxed.certified.input ≡ let_off_of input.now relaxed.let_off)) }
    ensures planned { IfOk result (λ found. IfSome found (λ relaxed. IsPlanned relaxed.certified.answer)) }
    ensures shown { IfOk result
        (λ found. IfSome found (λ relaxed. Shown (let_off_of input.now relaxed.let_off) relaxed.certified.answer)) }
    ensures steady { IfOk result (λ found. IfSome found
        (λ relaxed. IfSome previous.entry (λ plan. IsSteady relaxed.certified.input plan.now relaxed.certified.answer))) }
    ensures given_up { IfOk result (λ found. IfNone found (IsGivenUp input.now short.now)) }
    ensures many { IfOk result (λ found. IfNone found (64 < least_count input.now)) }
    ensures served { IfOk result (λ found. IfNone found (64 ≤ served_count input.now)) }
{
    input.facts();
    let mut let_off_now = with_stranded(alloc, input, short)?;
    for _solve in 0..MAX_SOLVES {
        let left = let_off(alloc, input, &let_off_now)?;
        let certified = solved(alloc, left, previous)?;
        match certified.answer() {
            Answer::Planned { .. } => {
                return Ok(Some(Relaxed {
                    certified,
                    let_off: let_off_now,
                }));
            }
            Answer::NoPlan { short } => {
                let_off_now = joined(alloc, input, &let_off_now, short)?;
            }
        }
    }
    Ok(None)
}
