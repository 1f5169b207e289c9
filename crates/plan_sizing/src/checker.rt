//! The checker of sizes.

ghost use Rattle.std.specs.Prelude.{◌≡◌, ◌↔◌, ◌+◌, ◌<◌, ◌≤◌, All, IfErr, IsOk, IsTrue, OnOk, length, sum_by};
ghost use Rattle.std.specs.List.{list_all};
ghost use Rattle.plan_model.specs.Counts.{AreCounts};
ghost use Rattle.plan_model.specs.Planning.{assigned, is_live, is_permitted, may_have, meets_most};
ghost use Rattle.plan_model.specs.Shown.{is_plan};
ghost use Rattle.plan_sizing.specs.Shown.{IsFirstFlaw, IsPermitted, IsShownAddition, Right, Shown, meets_needs};
ghost use Rattle.plan_sizing.specs.Sizing.{AreMachines, IsShortBy, grown, need};
ghost use Rattle.plan_sizing.specs.declared.size.Size.TheVariants as size;

use crate::counting::{count_workers, is_live, worker_at, workers};
use crate::farm::Farm;
use crate::law::shown_is_right;
use crate::obstacles::first_obstacle;
use crate::size::{Addition, Flaw, Obstacle, Size};
use plan_model::{
    FuncId, FuncSet, Input, MAX_FUNCTIONS, MAX_WORKERS, MachineId, Plan, count_neighbours,
};

/// Whether the size is shown, which anybody can test without a search. Else the first [`Flaw`] that is true of it.
///
/// An addition is shown if the grown farm is within 4,096 workers, its plan gives workers only permitted functions, each function what
/// it needs and none more than its greatest number, and if a set of functions needs just so many workers more than may do any of them
/// now. Each added worker meets at most one of these needs, so no smaller addition serves: this is the counting half of Hall's theorem. It
/// takes no memory.
pub fn check_size(farm: &Farm, size: &Size) -> Result<(), Flaw>
    ensures ok { IsOk result ↔ Shown farm.now size.now }
    ensures right { OnOk result (Right farm.now size.now) }
    ensures flaw { IfErr result (λ flaw. IsFirstFlaw flaw farm.now size.now) }
{
    farm.facts();
    match size {
        Size::Enough { added, plan, short } => check_addition(farm, added, plan, short),
        Size::Never(obstacle) => check_obstacle(farm, *obstacle),
        Size::TooMany { added, short } => check_too_many(farm, *added, short),
    }
}

fn check_addition(
    farm: &Farm,
    added: &Addition,
    plan: &Plan,
    short: &Option<FuncSet>,
) -> Result<(), Flaw>
    ensures ok { IsOk result ↔ IsShownAddition farm.now added.now plan.now short.now }
    ensures flaw { IfErr result
        (λ flaw. IsFirstFlaw flaw farm.now (size.Enough added.now plan.now short.now)) }
{
    let machines = added.machines();
    if machines.len() > MAX_WORKERS - farm.slots() as usize {
        return Err(Flaw::WrongLimit);
    }
    if !is_plan(farm, machines, plan) {
        return Err(Flaw::NotPermitted);
    }
    let counts = count_workers(farm, machines, plan);
    if !meets_needs(farm, machines, plan, &counts) {
        return Err(Flaw::BelowNeed);
    }
    if !meets_most(farm, machines, plan, &counts) {
        return Err(Flaw::AboveMost);
    }
    match short {
        Some(set) => {
            if machines.is_empty() || !is_short_by(farm, machines.len() as u64, set) {
                return Err(Flaw::NotShort);
            }
        }
        None => {
            if !machines.is_empty() {
                return Err(Flaw::SetMissing);
            }
        }
    }
    Ok(())
}

fn check_obstacle(farm: &Farm, obstacle: Obstacle) -> Result<(), Flaw>
    ensures ok { IsOk result ↔ Shown farm.now (size.Never obstacle) }
    ensures flaw { IfErr result (λ flaw. IsFirstFlaw flaw farm.now (size.Never obstacle)) }
{
    if first_obstacle(farm) == Some(obstacle) {
        Ok(())
    } else {
        Err(Flaw::WrongObstacle)
    }
}

fn check_too_many(farm: &Farm, added: u64, short: &FuncSet) -> Result<(), Flaw>
    ensures ok { IsOk result ↔ Shown farm.now (size.TooMany added short.now) }
    ensures flaw { IfErr result (λ flaw. IsFirstFlaw flaw farm.now (size.TooMany added short.now)) }
{
    if added <= (MAX_WORKERS - farm.slots() as usize) as u64 {
        return Err(Flaw::WrongLimit);
    }
    if !is_short_by(farm, added, short) {
        return Err(Flaw::NotShort);
    }
    if first_obstacle(farm).is_some() {
        return Err(Flaw::WrongObstacle);
    }
    Ok(())
}

/// Whether the machines are there, and the plan lists live and added workers only, each with a function that its machine may do.
fn is_plan(farm: &Farm, added: &[MachineId], plan: &Plan) -> bool
    requires { farm.now.slots + length added.now ≤ 4096 }
    ensures { IsTrue result ↔ IsPermitted farm.now added.now plan.now }
{
    are_machines(farm, added) && is_listed(farm, added, plan) && is_permitted(farm, added, plan)
}

fn are_machines(farm: &Farm, added: &[MachineId]) -> bool
    ensures { IsTrue result ↔ AreMachines farm.now added.now }
{
    let machines = farm.input().machines();
    added
        .iter()
        .all(|machine| (machine.number() as usize) < machines)
}

fn is_listed(farm: &Farm, added: &[MachineId], plan: &Plan) -> bool
    requires { farm.now.slots + length added.now ≤ 4096 }
    ensures { result ≡ list_all (λ entry. is_live (grown farm.now added.now) entry.0) plan.now }
{
    plan.entries()
        .iter()
        .all(|entry| is_live(farm, added, entry.0))
}

fn is_permitted(farm: &Farm, added: &[MachineId], plan: &Plan) -> bool
    requires few { farm.now.slots + length added.now ≤ 4096 }
    requires machines { AreMachines farm.now added.now }
    ensures { result ≡ is_permitted (grown farm.now added.now) (assigned plan.now) }
{
    farm.facts();
    for place in 0..workers(farm, added) {
        let (slot, machine) = worker_at(farm, added, place);
        if !may_have(farm.input(), machine, plan.function_of(slot)) {
            return false;
        }
    }
    true
}

/// Whether the workers of the machine may have this function, or none.
fn may_have(input: &Input, machine: MachineId, function: Option<FuncId>) -> bool
    requires { machine < length input.now.may }
    ensures { result ≡ may_have input.now machine function }
{
    match function {
        Some(function) => input.may(machine, function),
        None => true,
    }
}

/// Whether each function has what it needs, by the workers counted on each.
fn meets_needs(farm: &Farm, added: &[MachineId], plan: &Plan, counts: &[u32]) -> bool
    requires { AreCounts (grown farm.now added.now) (assigned plan.now) counts.now }
    ensures { result ≡ meets_needs farm.now added.now (assigned plan.now) }
{
    for number in 0..farm.input().functions() as u32 {
        if counts[number as usize] < farm.need(FuncId::new(number)) {
            return false;
        }
    }
    true
}

/// Whether no function has more workers than its greatest number, by the workers counted on each.
fn meets_most(farm: &Farm, added: &[MachineId], plan: &Plan, counts: &[u32]) -> bool
    requires { AreCounts (grown farm.now added.now) (assigned plan.now) counts.now }
    ensures { result ≡ meets_most (grown farm.now added.now) (assigned plan.now) }
{
    farm.facts();
    for number in 0..farm.input().functions() as u32 {
        if farm.input().most()[number as usize] < counts[number as usize] {
            return false;
        }
    }
    true
}

/// Whether the set holds functions of the farm only, and needs just so many workers more than may do any of them now.
fn is_short_by(farm: &Farm, many: u64, set: &FuncSet) -> bool
    ensures { IsTrue result ↔ IsShortBy farm.now many set.now }
{
    if !are_functions(farm, set.functions()) {
        return false;
    }
    let have = u64::from(count_neighbours(farm.input(), set));
    let wanted = total_need(farm, set);
    have <= wanted && wanted - have == many
}

fn are_functions(farm: &Farm, set: &[FuncId]) -> bool
    ensures { IsTrue result ↔ All (λ f. f < length farm.now.problem.least) set.now }
{
    let functions = farm.input().functions();
    set.iter()
        .all(|function| (function.number() as usize) < functions)
}

/// How many workers the functions of the set need, all together. The condition is a set of functions of the farm.
pub fn total_need(farm: &Farm, set: &FuncSet) -> u64
    requires { All (λ f. f < length farm.now.problem.least) set.now }
    ensures { result ≡ sum_by (need farm.now) set.now }
{
    farm.facts();
    add_needs(farm, set.functions())
}

fn add_needs(farm: &Farm, set: &[FuncId]) -> u64
    requires within { All (λ f. f < length farm.now.problem.least) set.now }
    requires few { length set.now ≤ 1024 }
    ensures { result ≡ sum_by (need farm.now) set.now }
{
    let mut sum = 0;
    for function in set {
        sum += u64::from(farm.need(*function));
    }
    sum
}
