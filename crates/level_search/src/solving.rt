//! A whole round: from its input to an answer with its evidence.

ghost use Rattle.std.specs.Prelude.{◌≡◌, ℕ, [], ◌+◌, ◌*◌, ◌^◌, ◌<◌, ◌≤◌, length, map, IfOk, IfSome, IfNone, IsTrue};
ghost use Rattle.std.specs.List.Sorted.{IsStrictlyIncreasing};
ghost use Rattle.plan_model.specs.Planning.{assigned, is_full};
ghost use Rattle.plan_model.specs.Shown.{Shown};
ghost use Rattle.round_arena.specs.Input.{pair_count, cut_plan};
ghost use Rattle.round_arena.specs.Plan.{pair_total};
ghost use Rattle.round_arena.specs.Round.{IsConsistent, plan_of};
ghost use Rattle.level_search.specs.Levels.{Fits};
ghost use Rattle.level_search.specs.Found.{IsFound, Serves};
ghost use Rattle.level_search.specs.Answered.{Starts, evidence};
ghost use Rattle.level_search.specs.Steady.{HasPlan, IsSteady};
ghost use Rattle.level_search.specs.declared.previous.Origin.TheVariants.{Previous};
ghost use Rattle.level_search.specs.Paid.{Fills, PaysForPlan};

use crate::bisect::{Found, solve_levels};
use crate::previous::{Origin, put_back, remember};
use crate::spread::settle;
use bumpalo::Bump;
use plan_model::{Answer, FuncId, FuncSet, Input, Plan};
use round_arena::{Tables, build, copy_plan, looks};
use std::alloc::{AllocError, Global};

/// An answer, with what it cost to find it.
#[derive(Drop)]
pub struct Solved {
    /// The answer.
    pub answer: Answer,
    /// How many permitted pairs of a worker and a function were looked at.
    pub looks: u64,
}

// The plan that lists nobody.
fn empty_plan(alloc: Global) -> Plan
    ensures { result ≡ [] }
{
    Plan::of_rising(Vec::new(alloc))
}

fn copy_set(alloc: Global, functions: &[FuncId]) -> Result<FuncSet, AllocError>
    requires { IsStrictlyIncreasing functions.now }
    ensures { IfOk result (λ set. set ≡ functions.now) }
{
    Ok(FuncSet::of_rising(Vec::from_slice(alloc, functions)?))
}

// The set beside a backlog: none beside 0.
fn copy_evidence(
    alloc: Global,
    level: u64,
    functions: &[FuncId],
) -> Result<Option<FuncSet>, AllocError>
    requires { 0 < level → IsStrictlyIncreasing functions.now }
    ensures { IfOk result (λ set. set ≡ evidence level functions.now) }
{
    if level == 0 {
        return Ok(None);
    }
    Ok(Some(copy_set(alloc, functions)?))
}

// The tables with the previous plan, or with every worker idle.
fn start<'a>(
    alloc: Global,
    bump: &'a Bump,
    input: &Input,
    previous: Option<&Plan>,
) -> Result<Tables<'a>, AllocError>
    ensures starts { IfOk result (Starts input.now) }
    ensures kept { IfOk result (λ t. IfSome previous.entry (λ plan. plan_of t ≡ cut_plan input.now plan.now)) }
    ensures idle { IfOk result (λ t. IfNone previous.entry (plan_of t ≡ cut_plan input.now [])) }
{
    match previous {
        Some(plan) => build(bump, input, plan),
        None => build(bump, input, &empty_plan(alloc)),
    }
}

// The answer that the tables and the set give.
fn answer<'a>(
    alloc: Global,
    tables: &mut Tables<'a>,
    input: &Input,
    found: Found<'a>,
    origin: Origin,
) -> Result<Answer, AllocError>
    requires sound { IsConsistent (length input.now.least) tables.old }
    requires fits { Fits input.now tables.old }
    requires slots { tables.old.slot.now ≡ map (λ worker. worker.0) input.now.live }
    requires found { IsFound input.now tables.old found }
    requires pairs { pair_total tables.old.pairs ≡ pair_count input.now }
    requires looks { tables.old.looks + 2 * pair_total tables.old.pairs < 2 ^ 64 }
    ensures shown { IfOk result (Shown input.now) }

    // If nobody is idle for nothing, and the tables hold the plan before, the answer's plan is theirs.
    ensures kept { IfOk result (λ answer. origin ≡ Previous → Serves input.now tables.old.owner.now found.entry
        → IsTrue (is_full input.now (assigned (plan_of tables.old))) → HasPlan (plan_of tables.old) answer) }
    ensures looks { IfOk result (Fills found.entry (pair_total tables.old.pairs) tables.old.looks tables.new.looks) }
{
    input.facts();
    match found {
        Found::Nothing(set) => Ok(Answer::NoPlan {
            short: copy_set(alloc, set)?,
        }),
        Found::Level(level, set) => {
            settle(tables, input, level, origin);
            let plan = copy_plan(alloc, tables)?;
            let short = copy_evidence(alloc, level, set)?;
            Ok(Answer::Planned {
                plan,
                backlog: level,
                short,
            })
        }
    }
}

/// Plans a round: gives each live worker at most one function, so that each least number is met and
/// the backlog is the least of all such plans, or says that there is no such plan.
///
/// The answer is shown by a set of functions that is short of workers (Hall's theorem, with demands):
/// one level below the backlog, or at the top level if there is no plan. A backlog of 0 needs no
/// set. The levels are bisected (bottleneck assignment by thresholds), and each is tried by searching
/// alternating paths.
///
/// The search starts from the `previous` plan, cut to live workers and permitted functions, and
/// answers it if it is best and leaves nobody idle who may do something.
///
/// If the previous plan is not kept, spare workers move: each goes to the permitted function with the most waiting jobs per
/// worker, if that is at least twice its own function's. Only this much is promised of it: the plan stays as good as it is, and
/// within the bound on looks.
///
/// There is a lower bound on `looks` too, if there is a plan: filling idle workers costs one look a permitted pair, and each worker
/// whom the needs at its backlog ask for beyond those who had a function by the previous plan costs at least one.
///
/// All tables lie in `bump`; the answer is copied out of it, so the arena may be reset afterwards. The
/// only error is that memory was refused, by `alloc` or by the arena's own allocator.
pub fn solve(
    alloc: Global,
    bump: &Bump,
    input: &Input,
    previous: Option<&Plan>,
) -> Result<Solved, AllocError>
    ensures shown { IfOk result (λ solved. Shown input.now solved.answer) }
    ensures looks { IfOk result (λ solved. solved.looks ≤ 34 * ((length input.now.live + 1) * pair_count input.now)) }
    ensures paid { IfOk result (λ solved. IfSome previous.entry (λ plan. PaysForPlan input.now plan.now solved.answer solved.looks)) }
    ensures paid_anew { IfOk result (λ solved. IfNone previous.entry (PaysForPlan input.now [] solved.answer solved.looks)) }
    ensures steady { IfOk result (λ solved. IfSome previous.entry (λ plan. IsSteady input.now plan.now solved.answer)) }
{
    let mut tables = start(alloc, bump, input, previous)?;
    input.facts();
    let seed = remember(bump, &tables)?;
    let found = solve_levels(&mut tables, input)?;
    let origin = put_back(&mut tables, &seed, input, &found);
    let answer = answer(alloc, &mut tables, input, found, origin)?;
    Ok(Solved {
        answer,
        looks: looks(&tables),
    })
}
