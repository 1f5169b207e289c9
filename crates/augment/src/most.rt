//! The search that goes on when it gets stuck: it serves as many of the needs as can be.

ghost use Rattle.std.specs.Prelude.{◌≡◌, ℕ, ◌+◌, ◌^◌, ◌<◌, ◌≤◌, IsTrue, length, slice_index, IfOk, OnErr};
ghost use Rattle.std.specs.Bool.{OnTrue, OnFalse};
ghost use Rattle.std.specs.List.{range_with_len};
ghost use Rattle.std.specs.List.Sorted.{IsPermutation};
ghost use Rattle.round_arena.specs.Plan.{IsGraph, count_on, machine_count, pair_total};
ghost use Rattle.round_arena.specs.Round.{IsConsistent, SamePairs};
ghost use Rattle.augment.specs.Most.{AreCutOff, AreWithinMost, AreWithinNeeds, IsCutOff, IsPassedBy};
ghost use Rattle.augment.specs.Most.{IsServedMost, IsServedOrMarked, MarksReached};
ghost use Rattle.augment.specs.Moves.{IsStuck};
ghost use Rattle.augment.specs.Searching.{IsLacking, IsStaffed};
ghost use Rattle.augment.specs.Short.{marked};

use crate::idle::{Idle, count_idle};
use crate::search::Tree;
use crate::serving::{collect, new_tree, serve_one};
use round_arena::{FuncId, Groups, Tables};
use std::alloc::AllocError;

// Gives the function workers up to its need, and says whether it has so many then. What is looked at is counted in the tables.
fn serve_function(
    tables: &mut Tables,
    need: &[u32],
    f: u32,
    tree: &mut Tree,
    idle: &mut Idle,
) -> bool
    requires graph { IsGraph (length need.now) (length tables.old.owner.now) tables.old.pairs }
    requires staffed { IsStaffed tables.old.pairs need.now tables.old.owner.now tables.old.count.now tree.old }
    requires within { AreWithinNeeds need.now tables.old.owner.now }
    requires known { f < length need.now }
    requires looks { pair_total tables.old.pairs < 2 ^ 64 }
    ensures same { SamePairs tables.old tables.new }
    ensures staffed { IsStaffed tables.old.pairs need.now tables.new.owner.now tables.new.count.now tree.new }
    ensures within { AreWithinNeeds need.now tables.new.owner.now }
    ensures grows { (g : ℕ) → g < length need.now → count_on tables.old.owner.now g ≤ count_on tables.new.owner.now g }
    ensures served { OnTrue result (slice_index need.now f ≤ count_on tables.new.owner.now f) }
    ensures stuck { OnFalse result (IsStuck tables.old.pairs tables.new.owner.now tables.new.count.now need.now tree.new f) }
{
    while tables.count[f as usize] < need[f as usize] {
        let mut looks = 0;
        let is_served = serve_one(tables, need, f, tree, idle, &mut looks);
        tables.looks = tables.looks.saturating_add(looks);
        if !is_served {
            return false;
        }
    }
    true
}

// Whether each worker of machine `m` is on a marked function.
fn is_passed(tables: &Tables, short: &[usize], m: u32) -> bool
    requires graph { IsGraph (length short.now) (length tables.now.owner.now) tables.now.pairs }
    requires known { m < machine_count tables.now.pairs }
    ensures { IsTrue result → IsPassedBy tables.now.pairs tables.now.owner.now short.now m }
{
    let Groups { first, items } = tables.pairs.workers;
    for k in first[m as usize]..first[m as usize + 1] {
        let f = tables.owner[items[k] as usize] as usize;
        if f >= short.len() || short[f] == 0 {
            return false;
        }
    }
    true
}

// Whether each worker who may do function `f` is on a marked function, so that no search from there finds anybody.
fn is_cut_off(tables: &Tables, short: &[usize], f: u32) -> bool
    requires graph { IsGraph (length short.now) (length tables.now.owner.now) tables.now.pairs }
    requires known { f < length short.now }
    ensures { IsTrue result → IsCutOff tables.now.pairs tables.now.owner.now short.now f }
{
    let Groups { first, items } = tables.pairs.machines;
    for k in first[f as usize]..first[f as usize + 1] {
        if !is_passed(tables, short, items[k]) {
            return false;
        }
    }
    true
}

// Marks the functions that a stuck search has reached.
fn mark_reached(short: &mut [usize], tree: &Tree)
    requires { length tree.now.place.now ≡ length short.old }
    ensures { MarksReached short.old short.new tree.now.place.now }
{
    for f in 0..short.len() {
        if tree.place[f] > 0 {
            short[f] = 1;
        }
    }
}

// Gives the function workers up to its need. If it is left short it is marked, and with it all functions that the workers who may do a
// marked one are on. If all who may do it are on marked functions, nothing is searched for.
fn serve_or_mark(
    tables: &mut Tables,
    need: &[u32],
    f: u32,
    tree: &mut Tree,
    idle: &mut Idle,
    short: &mut [usize],
)
    requires graph { IsGraph (length need.now) (length tables.old.owner.now) tables.old.pairs }
    requires staffed { IsStaffed tables.old.pairs need.now tables.old.owner.now tables.old.count.now tree.old }
    requires within { AreWithinNeeds need.now tables.old.owner.now }
    requires known { f < length need.now }
    requires looks { pair_total tables.old.pairs < 2 ^ 64 }
    requires cut { AreCutOff tables.old.pairs tables.old.owner.now (length need.now) short.old }
    ensures same { SamePairs tables.old tables.new }
    ensures staffed { IsStaffed tables.old.pairs need.now tables.new.owner.now tables.new.count.now tree.new }
    ensures within { AreWithinNeeds need.now tables.new.owner.now }
    ensures cut { AreCutOff tables.old.pairs tables.new.owner.now (length need.now) short.new }
    ensures served { IsServedOrMarked need.now tables.new.owner.now short.new f }
    ensures kept { (g : ℕ) → g < length need.now → IsServedOrMarked need.now tables.old.owner.now short.old g
        → IsServedOrMarked need.now tables.new.owner.now short.new g }
{
    if is_cut_off(tables, short, f) {
        short[f as usize] = 1;
    } else if !serve_function(tables, need, f, tree, idle) {
        mark_reached(short, tree);
    }
}

// Serves each function that lacks workers as far as it goes, in the order of the tables.
fn serve_each(
    tables: &mut Tables,
    need: &[u32],
    tree: &mut Tree,
    idle: &mut Idle,
    short: &mut [usize],
)
    requires order { IsPermutation (range_with_len 0 (length need.now)) tables.old.order.now }
    requires graph { IsGraph (length need.now) (length tables.old.owner.now) tables.old.pairs }
    requires staffed { IsStaffed tables.old.pairs need.now tables.old.owner.now tables.old.count.now tree.old }
    requires within { AreWithinNeeds need.now tables.old.owner.now }
    requires looks { pair_total tables.old.pairs < 2 ^ 64 }
    requires cut { AreCutOff tables.old.pairs tables.old.owner.now (length need.now) short.old }
    ensures same { SamePairs tables.old tables.new }
    ensures staffed { IsStaffed tables.old.pairs need.now tables.new.owner.now tables.new.count.now tree.new }
    ensures within { AreWithinNeeds need.now tables.new.owner.now }
    ensures cut { AreCutOff tables.old.pairs tables.new.owner.now (length need.now) short.new }
    ensures served { (f : ℕ) → f < length need.now → IsServedOrMarked need.now tables.new.owner.now short.new f }
{
    let order = tables.order;
    for k in 0..order.len() {
        let f = order[k];
        if tables.count[f as usize] < need[f as usize] {
            serve_or_mark(tables, need, f, tree, idle, short);
        }
    }
}

// The functions that are marked, in order.
fn marked_functions<'a>(short: &[usize], set: &'a mut [FuncId]) -> &'a [FuncId]
    requires room { length set.old ≡ length short.now }
    requires functions { length set.old < 2 ^ 32 }
    ensures { result.now ≡ marked short.now (length short.now) }
{
    let n = collect(short, set);
    &set[..n]
}

/// Moves workers until as many needs are met as can be, if no function has more workers than it needs, and gives the set that shows it:
/// its needs are so many more than the workers who may do any of its functions as needs are left in all (Hall's theorem, with
/// demands, in its form for what is left over). No function gets more workers than it needs.
///
/// The needs are within the greatest numbers. If a search gets stuck, its functions and their workers are left alone from then
/// on: each worker who may do one of them is on one of them, and no later search can come there.
///
/// The only error is that a growth of the arena was refused. All growths are made first, so then the
/// tables are as before.
pub fn serve_most<'a>(tables: &mut Tables<'a>, need: &[u32]) -> Result<&'a [FuncId], AllocError>
    requires sound { IsConsistent (length need.now) tables.old }
    requires most { AreWithinMost need.now tables.old }
    requires within { AreWithinNeeds need.now tables.old.owner.now }
    requires looks { pair_total tables.old.pairs < 2 ^ 64 }
    ensures sound { IsConsistent (length need.now) tables.new }
    ensures same { SamePairs tables.old tables.new }
    ensures within { AreWithinNeeds need.now tables.new.owner.now }
    ensures short { IfOk result (λ set. IsServedMost need.now tables.new set.now) }
    ensures memory { OnErr result (tables.new ≡ tables.old) }
{
    let functions = need.len();
    let bump = tables.bump;
    let set = bump.try_alloc_slice_fill_clone(functions, FuncId::new(0))?;
    let short = bump.try_alloc_slice_fill_clone(functions, 0)?;
    let machines = tables.pairs.workers.first.len() - 1;
    let mut tree = new_tree(bump, functions, machines)?;
    let mut idle = count_idle(bump, tables, functions, machines)?;
    serve_each(tables, need, &mut tree, &mut idle, short);
    Ok(marked_functions(short, set))
}
