//! The search for a size.

ghost use Rattle.std.specs.Prelude.{◌≡◌, ◌+◌, ◌++◌, ◌<◌, ◌≤◌, All, IfOk, None, length, map, sum};
ghost use Rattle.plan_sizing.specs.Hiring.{AreLacks, AreNeeds, ArePlaced, IsLeft, evidence, hired_entries};
ghost use Rattle.plan_sizing.specs.Shown.{Right, Shown};
ghost use Rattle.plan_sizing.specs.Sizing.{first_obstacle};

use crate::farm::Farm;
use crate::hiring::{Hire, hires_of};
use crate::law::shown_is_right;
use crate::obstacles::first_obstacle;
use crate::size::{Addition, Size};
use augment::serve_most;
use bumpalo::Bump;
use plan_model::{FuncId, FuncSet, MAX_WORKERS, MachineId, Plan, SlotId};
use round_arena::{Tables, build, copy_plan};
use std::alloc::{AllocError, Global};

/// Finds how many workers a farm is short of, with what shows it: the least addition with a plan of the farm that has grown, and a set of
/// functions that is short of just so many workers; or why no addition serves.
///
/// The live workers serve as many of the needs as they can, by alternating paths. One worker is added for each need that is left, on a
/// machine that may do its function, and of these on one that may do the most of the functions that are short. Each set that a search got
/// stuck in is closed: whoever may do one of its functions is on one of them. All these together are the set.
///
/// All tables lie in `bump`; the size is copied out of it, so the arena may be reset afterwards. The only error is that memory was refused,
/// by `alloc` or by the arena's own allocator.
pub fn find_size(alloc: Global, bump: &Bump, farm: &Farm) -> Result<Size, AllocError>
    ensures shown { IfOk result (Shown farm.now) }
    ensures right { IfOk result (Right farm.now) }
    ensures placed { IfOk result (ArePlaced farm.now) }
{
    if let Some(obstacle) = first_obstacle(farm) {
        let size = Size::Never(obstacle);
        shown_is_right(farm, &size);
        return Ok(size);
    }
    let left = serve_now(alloc, bump, farm)?;
    let size = size_by(alloc, farm, left)?;
    shown_is_right(farm, &size);
    Ok(size)
}

/// What the live workers leave to an addition.
#[derive(Drop)]
struct Left {
    /// What the live workers do.
    plan: Plan,
    /// The functions that the searches got stuck in.
    short: FuncSet,
    /// For each function how many workers it lacks.
    lacks: Vec<u32>,
}

/// Serves as many of the needs as the live workers can.
fn serve_now(alloc: Global, bump: &Bump, farm: &Farm) -> Result<Left, AllocError>
    requires { first_obstacle farm.now ≡ None }
    ensures { IfOk result (λ left. IsLeft farm.now left.plan left.short left.lacks.items) }
{
    farm.facts();
    let needs = needs_of(alloc, farm)?;
    let mut tables = build(bump, farm.input(), &Plan::of_rising(Vec::new(alloc)))?;
    let set = serve_most(&mut tables, &needs)?;
    let short = FuncSet::of_rising(Vec::from_slice(alloc, set)?);
    let lacks = lacks_of(alloc, &needs, &tables)?;
    let plan = copy_plan(alloc, &tables)?;
    Ok(Left { plan, short, lacks })
}

/// The size of a farm whose live workers leave this to an addition.
fn size_by(alloc: Global, farm: &Farm, left: Left) -> Result<Size, AllocError>
    requires free { first_obstacle farm.now ≡ None }
    requires left { IsLeft farm.now left.plan left.short left.lacks.items }
    ensures shown { IfOk result (Shown farm.now) }
    ensures placed { IfOk result (ArePlaced farm.now) }
{
    farm.facts();
    let many = total(&left.lacks);
    if many > (MAX_WORKERS - farm.slots() as usize) as u64 {
        return Ok(Size::TooMany {
            added: many,
            short: left.short,
        });
    }
    let hires = hires_of(alloc, farm.input(), &left.lacks)?;
    let plan = grow_plan(alloc, farm, &left.plan, &hires)?;
    let added = Addition::of_rising(machines_of(alloc, &hires)?);
    let short = evidence(many, left.short);
    Ok(Size::Enough { added, plan, short })
}

/// The set beside an addition of so many: none beside one of nobody.
fn evidence(many: u64, short: FuncSet) -> Option<FuncSet>
    ensures { result ≡ evidence many short }
{
    if many > 0 { Some(short) } else { None }
}

/// What each function needs.
fn needs_of(alloc: Global, farm: &Farm) -> Result<Vec<u32>, AllocError>
    ensures { IfOk result (λ needs. AreNeeds farm.now needs.items) }
{
    let mut needs = Vec::new(alloc);
    for number in 0..farm.input().functions() as u32 {
        needs.push(farm.need(FuncId::new(number)))?;
    }
    Ok(needs)
}

/// How many workers each function lacks, by the workers counted on each.
fn lacks_of(alloc: Global, needs: &[u32], tables: &Tables) -> Result<Vec<u32>, AllocError>
    requires { length needs.now ≤ length tables.now.count.now }
    ensures { IfOk result (λ lacks. AreLacks needs.now tables.now.count.now lacks.items) }
{
    let mut lacks = Vec::new(alloc);
    for place in 0..needs.len() {
        lacks.push(needs[place].saturating_sub(tables.count[place]))?;
    }
    Ok(lacks)
}

fn total(lacks: &[u32]) -> u64
    requires { length lacks.now ≤ 1024 }
    ensures { result ≡ sum lacks.now }
{
    let mut total = 0;
    for many in lacks {
        total += u64::from(*many);
    }
    total
}

/// The plan with the added workers after it.
fn grow_plan(alloc: Global, farm: &Farm, plan: &Plan, hires: &[Hire]) -> Result<Plan, AllocError>
    requires slots { All (λ entry. entry.0 < farm.now.slots) plan.now }
    requires few { farm.now.slots + length hires.now ≤ 4096 }
    ensures { IfOk result (λ grown. grown ≡ plan.now ++ hired_entries farm.now.slots hires.now) }
{
    let mut entries = Vec::from_slice(alloc, plan.entries())?;
    add_entries(&mut entries, farm.slots(), hires)?;
    Ok(Plan::of_rising(entries))
}

fn add_entries(
    entries: &mut Vec<(SlotId, Option<FuncId>)>,
    first: u32,
    hires: &[Hire],
) -> Result<(), AllocError>
    requires { first + length hires.now ≤ 4096 }
    ensures { IfOk result (λ _. entries.new.items ≡ entries.old.items ++ hired_entries first hires.now) }
{
    let mut slot = first;
    for (_, function) in hires {
        entries.push((SlotId::new(slot), Some(*function)))?;
        slot += 1;
    }
    Ok(())
}

/// The machine of each added worker.
fn machines_of(alloc: Global, hires: &[Hire]) -> Result<Vec<MachineId>, AllocError>
    ensures { IfOk result (λ machines. machines.items ≡ map (λ hire. hire.0) hires.now) }
{
    let mut machines = Vec::new(alloc);
    for (machine, _) in hires {
        machines.push(*machine)?;
    }
    Ok(machines)
}
