//! The search over the tables of a round: it serves each function by alternating paths, or shows a set that is short.

ghost use Rattle.std.specs.Prelude.{◌≡◌, ℕ, ◌+◌, ◌*◌, ◌^◌, ◌<◌, ◌≤◌, IsTrue, length, slice_index, take, IfOk, OnErr, IfSome, IfNone};
ghost use Rattle.std.specs.Bool.{OnTrue, OnFalse};
ghost use Rattle.std.specs.List.{range_with_len};
ghost use Rattle.std.specs.List.Sorted.{IsPermutation};
ghost use Rattle.round_arena.specs.Plan.{IsAssigned, IsCounted, IsGraph, count_on, pair_total};
ghost use Rattle.round_arena.specs.Round.{IsConsistent, SamePairs};
ghost use Rattle.augment.specs.Moves.{GainsOne, IsStuck};
ghost use Rattle.augment.specs.Round.{AreLimited, IsCapped, IsServed, IsWithinLooks, KeepsServed, PaysForWorkers, served};
ghost use Rattle.augment.specs.Searching.{AddsLooks, HasNeeds, IsIdleFor, IsLacking, IsStaffed, ShowsShort};
ghost use Rattle.augment.specs.Short.{marked};
ghost use Rattle.augment.specs.Tree.{HasRoom};

use crate::idle::{Idle, count_idle, employ, idle_for};
use crate::search::{Tree, search};
use bumpalo::Bump;
use round_arena::{FuncId, Tables};
use std::alloc::AllocError;

/// What `serve` found. The set lies in the arena of the tables.
#[derive(Drop)]
pub enum Served<'a> {
    /// Each function has what it needs.
    All,
    /// These functions, in rising order, need more workers than may do any of them.
    Short(&'a [FuncId]),
}

// Gives `root` the idle worker.
fn hire(tables: &mut Tables, need: &[u32], root: u32, w: u32)
    requires assigned { IsAssigned (length need.now) tables.old.pairs tables.old.owner.now }
    requires counted { IsCounted (length need.now) tables.old.owner.now tables.old.count.now }
    requires lacking { IsLacking tables.old need.now root }
    requires idle { IsIdleFor tables.old need.now root w }
    ensures same { SamePairs tables.old tables.new }
    ensures assigned { IsAssigned (length need.now) tables.old.pairs tables.new.owner.now }
    ensures counted { IsCounted (length need.now) tables.new.owner.now tables.new.count.now }
    ensures gained { GainsOne (length need.now) root need.now tables.old.owner.now tables.new.owner.now }
{
    tables.count[need.len()] -= 1;
    tables.count[root as usize] += 1;
    tables.owner[w as usize] = root;
}

/// Gives `root` one worker more, and says whether there was one to be had. An idle worker who may do it is found without a search.
pub fn serve_one(
    tables: &mut Tables,
    need: &[u32],
    root: u32,
    tree: &mut Tree,
    idle: &mut Idle,
    looks: &mut u64,
) -> bool
    requires graph { IsGraph (length need.now) (length tables.old.owner.now) tables.old.pairs }
    requires staffed { IsStaffed tables.old.pairs need.now tables.old.owner.now tables.old.count.now tree.old }
    requires lacking { IsLacking tables.old need.now root }
    requires looks { looks.old + pair_total tables.old.pairs < 2 ^ 64 }
    ensures same { SamePairs tables.old tables.new }
    ensures staffed { IsStaffed tables.old.pairs need.now tables.new.owner.now tables.new.count.now tree.new }
    ensures looks { AddsLooks (pair_total tables.old.pairs) looks.old looks.new }
    ensures looked { OnTrue result (looks.old < looks.new) }
    ensures gained { OnTrue result (GainsOne (length need.now) root need.now tables.old.owner.now tables.new.owner.now) }
    ensures stays { OnFalse result (tables.new.owner.now ≡ tables.old.owner.now) }
    ensures stuck { OnFalse result
        (IsStuck tables.old.pairs tables.new.owner.now tables.new.count.now need.now tree.new root) }
{
    if let Some(w) = idle_for(tables, need, root, idle, looks) {
        employ(idle, tables, need.len(), w);
        hire(tables, need, root, w);
        return true;
    }
    let Some(way) = search(tables, need, root, tree, idle, looks) else {
        return false;
    };
    employ(idle, tables, need.len(), way.worker);
    let mut w = way.worker as usize;
    let mut at = way.place;
    let owner = &mut *tables.owner;
    let count = &mut *tables.count;
    let source = owner[w] as usize;
    count[source] -= 1;
    count[root as usize] += 1;
    while at > 0 {
        owner[w] = tree.reached[at];
        w = tree.by[at] as usize;
        at = tree.from[at];
    }
    owner[w] = root;
    true
}

// Moves workers until each function has its need, in the order of the tables, and says whether that was
// reached. If it was not, the functions marked in the tree are short of workers. The pairs that it
// looks at are counted in `looks`, and not in the tables.
fn serve_all(
    tables: &mut Tables,
    need: &[u32],
    tree: &mut Tree,
    idle: &mut Idle,
    looks: &mut u64,
) -> bool
    requires order { IsPermutation (range_with_len 0 (length need.now)) tables.old.order.now }
    requires graph { IsGraph (length need.now) (length tables.old.owner.now) tables.old.pairs }
    requires staffed { IsStaffed tables.old.pairs need.now tables.old.owner.now tables.old.count.now tree.old }
    requires looks { looks.old + (length tables.old.owner.now + 1) * pair_total tables.old.pairs < 2 ^ 64 }
    ensures same { SamePairs tables.old tables.new }
    ensures staffed { IsStaffed tables.old.pairs need.now tables.new.owner.now tables.new.count.now tree.new }
    ensures kept { KeepsServed need.now tables.old tables.new }
    ensures capped { IsCapped need.now tables.old tables.new }
    ensures served { OnTrue result (HasNeeds need.now tables.new.owner.now) }
    ensures short { OnFalse result (ShowsShort tables.old.pairs (length tables.old.owner.now) need.now
        (marked tree.new.place.now (length need.now))) }
    ensures looks_served { OnTrue result
        (looks.new ≤ looks.old + length tables.old.owner.now * pair_total tables.old.pairs) }
    ensures looks { AddsLooks ((length tables.old.owner.now + 1) * pair_total tables.old.pairs) looks.old looks.new }

    // Each worker who is gained for a need costs a look at least, and so does each idle worker who gets a function.
    ensures paid { looks.old + served need.now tables.new.owner.now ≤ looks.new + served need.now tables.old.owner.now }
    ensures hired { looks.old + count_on tables.old.owner.now (length need.now)
        ≤ looks.new + count_on tables.new.owner.now (length need.now) }
{
    let order = tables.order;
    for k in 0..order.len() {
        let f = order[k];
        while tables.count[f as usize] < need[f as usize] {
            if !serve_one(tables, need, f, tree, idle, looks) {
                return false;
            }
        }
    }
    true
}

/// Writes the marked functions to the start of `set`, in order, and gives their number.
pub fn collect(place: &[usize], set: &mut [FuncId]) -> usize
    requires room { length set.old ≡ length place.now }
    requires functions { length place.now < 2 ^ 32 }
    ensures within { result ≤ length set.new }
    ensures members { take result set.new ≡ marked place.now (length place.now) }
{
    let mut n = 0;
    for f in 0..place.len() {
        if place[f] > 0 {
            set[n] = FuncId::new(f as u32);
            n += 1;
        }
    }
    n
}

// Whether each function has what it needs.
fn has_needs(tables: &Tables, need: &[u32]) -> bool
    requires { IsConsistent (length need.now) tables.now }
    ensures { IsTrue result → HasNeeds need.now tables.now.owner.now }
{
    for f in 0..need.len() {
        if tables.count[f] < need[f] {
            return false;
        }
    }
    true
}

/// Moves workers until each function has the number of workers that `need` has for it, or gives a set
/// of functions that need more workers than may do any of them (Hall's theorem, with demands: then
/// nobody can serve these needs). In both cases each worker does at most one function, a permitted
/// one.
///
/// The condition on the needs is that each is at most the function's greatest number of workers, or above
/// the number of workers. If one is above the number of workers, the set is its function alone, nothing
/// is looked at and nobody moves.
///
/// No function falls below the smaller of its need and its number before, nor rises above the larger. None
/// gets more workers than its greatest number.
///
/// For L workers and P permitted pairs it looks at most at L * P pairs if all is served, and at (L + 1) * P if a set is
/// short; so many looks must fit into the tables' counter. It looks at least once for each worker who is gained for a need,
/// and for each idle worker who gets a function.
///
/// The only error is that a growth of the arena was refused. All growths are made first, so then the
/// tables are as before.
pub fn serve<'a>(tables: &mut Tables<'a>, need: &[u32]) -> Result<Served<'a>, AllocError>
    requires sound { IsConsistent (length need.now) tables.old }
    requires limited { AreLimited need.now tables.old }
    requires looks { tables.old.looks + (length tables.old.owner.now + 1) * pair_total tables.old.pairs < 2 ^ 64 }
    ensures sound { IsConsistent (length need.now) tables.new }
    ensures same { SamePairs tables.old tables.new }
    ensures served { IfOk result (IsServed need.now tables.new) }
    ensures kept { KeepsServed need.now tables.old tables.new }
    ensures capped { IsCapped need.now tables.old tables.new }
    ensures looks { IfOk result (IsWithinLooks tables.old tables.new) }
    ensures paid { PaysForWorkers need.now tables.old tables.new }
    ensures memory { OnErr result (tables.new ≡ tables.old) }
{
    let functions = need.len();
    let bump = tables.bump;
    if let Some(alone) = beyond(need, tables.owner.len()) {
        let set = bump.try_alloc_slice_copy(&[FuncId::new(alone)])?;
        return Ok(Served::Short(set));
    }
    if has_needs(tables, need) {
        return Ok(Served::All);
    }
    let set = bump.try_alloc_slice_fill_clone(functions, FuncId::new(0))?;
    let machines = tables.pairs.workers.first.len() - 1;
    let mut tree = new_tree(bump, functions, machines)?;
    let mut idle = count_idle(bump, tables, functions, machines)?;
    let mut looks = tables.looks;
    let is_served = serve_all(tables, need, &mut tree, &mut idle, &mut looks);
    tables.looks = looks;
    if is_served {
        return Ok(Served::All);
    }
    Ok(Served::Short(reached(&tree, set)))
}

/// A tree that has reached nothing, with room for so many functions and machines.
pub fn new_tree<'a>(
    bump: &'a Bump,
    functions: usize,
    machines: usize,
) -> Result<Tree<'a>, AllocError>
    ensures { IfOk result (HasRoom functions machines) }
{
    Ok(Tree {
        reached: bump.try_alloc_slice_fill_clone(functions, 0)?,
        by: bump.try_alloc_slice_fill_clone(functions, 0)?,
        from: bump.try_alloc_slice_fill_clone(functions, 0)?,
        place: bump.try_alloc_slice_fill_clone(functions, 0)?,
        tail: 0,
        passed: bump.try_alloc_slice_fill_clone(machines, false)?,
    })
}

// The first function that needs more workers than there are.
fn beyond(need: &[u32], workers: usize) -> Option<u32>
    requires functions { length need.now < 2 ^ 32 }
    ensures above { IfSome result (λ f. (f < length need.now) × (workers < slice_index need.now f)) }
    ensures within { IfNone result ((f : ℕ) → f < length need.now → slice_index need.now f ≤ workers) }
{
    for f in 0..need.len() {
        if need[f] as usize > workers {
            return Some(f as u32);
        }
    }
    None
}

// The functions that the tree marks, in order.
fn reached<'a>(tree: &Tree, set: &'a mut [FuncId]) -> &'a [FuncId]
    requires room { length set.old ≡ length tree.now.place.now }
    requires functions { length set.old < 2 ^ 32 }
    ensures { result.now ≡ marked tree.now.place.now (length tree.now.place.now) }
{
    let place = &*tree.place;
    let n = collect(place, set);
    &set[..n]
}
