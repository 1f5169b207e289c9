//! Idle workers, who are found without a search.

ghost use Rattle.std.specs.Prelude.{◌≡◌, ℕ, ◌+◌, ◌^◌, ◌<◌, ◌≤◌, length, slice_index, IfNone, IfSome};
ghost use Rattle.round_arena.specs.Plan.{degree, machine_count, staff_of};
ghost use Rattle.augment.specs.Searching.{AddsLooks, IsIdleFor, IsIdleOf, IsSearchable, IsTreeOf, IsWayOutOf, MayDo};

use crate::search::{Tree, WayOut};
use bumpalo::Bump;
use round_arena::{Groups, Tables};
use std::alloc::AllocError;

/// Where idle workers are to be found. No contract rests on it: each worker is looked at before he is taken for idle.
///
/// While needs are served nobody becomes idle. So a machine without idle workers stays so, and each function goes through its machines
/// once, however many searches reach it.
#[derive(Drop)]
pub struct Idle<'t> {
    /// How many workers of each machine are idle.
    pub workers: &'t mut [u32],
    /// For each function the first place in the list of its machines at which there may be an idle worker.
    pub next: &'t mut [usize],
}

/// Counts the idle workers of each machine.
pub fn count_idle<'a>(
    bump: &'a Bump,
    tables: &Tables,
    functions: usize,
    machines: usize,
) -> Result<Idle<'a>, AllocError> {
    let workers = bump.try_alloc_slice_fill_clone(machines, 0u32)?;
    let next = bump.try_alloc_slice_fill_clone(functions, 0usize)?;
    for (owner, machine) in tables.owner.iter().zip(tables.machine) {
        if *owner as usize == functions {
            if let Some(many) = workers.get_mut(machine.number() as usize) {
                *many = many.saturating_add(1);
            }
        }
    }
    Ok(Idle { workers, next })
}

/// The worker is given a function. If he is idle, his machine has one idle worker less.
pub fn employ(idle: &mut Idle, tables: &Tables, functions: usize, w: u32) {
    let place = w as usize;
    if let (Some(owner), Some(machine)) = (tables.owner.get(place), tables.machine.get(place)) {
        if *owner as usize == functions {
            if let Some(many) = idle.workers.get_mut(machine.number() as usize) {
                *many = many.saturating_sub(1);
            }
        }
    }
}

// The place in the list of machines from which on function `f` looks for idle workers.
fn place_of(idle: &Idle, f: u32, least: usize) -> usize
    ensures { least ≤ result }
{
    match idle.next.get(f as usize) {
        Some(place) => least.max(*place),
        None => least,
    }
}

fn set_place(idle: &mut Idle, f: u32, place: usize) {
    if let Some(next) = idle.next.get_mut(f as usize) {
        *next = place;
    }
}

// Whether the machine has an idle worker, as far as is known.
fn has_idle(idle: &Idle, m: u32) -> bool {
    match idle.workers.get(m as usize) {
        Some(many) => *many > 0,
        None => false,
    }
}

// The next machine that may do function `f` and has an idle worker, as far as is known.
fn idle_machine(tables: &Tables, need: &[u32], f: u32, idle: &mut Idle) -> Option<u32>
    requires fits { IsSearchable tables.now need.now }
    requires known { f < length need.now }
    ensures { IfSome result (λ m. MayDo tables.now.pairs m f) }
{
    let Groups { first, items } = tables.pairs.machines;
    let end = first[f as usize + 1];
    for k in place_of(idle, f, first[f as usize])..end {
        let m = items[k];
        if has_idle(idle, m) {
            set_place(idle, f, k);
            return Some(m);
        }
    }
    set_place(idle, f, end);
    None
}

// An idle worker of machine `m`.
fn idle_of(tables: &Tables, need: &[u32], m: u32, looks: &mut u64) -> Option<u32>
    requires fits { IsSearchable tables.now need.now }
    requires known { m < machine_count tables.now.pairs }
    requires looks { looks.old + staff_of tables.now.pairs m < 2 ^ 64 }
    ensures looks { AddsLooks (staff_of tables.now.pairs m) looks.old looks.new }
    ensures looked { IfSome result (λ w. looks.old < looks.new) }
    ensures found { IfSome result (IsIdleOf tables.now need.now m) }
{
    let Groups { first, items } = tables.pairs.workers;
    for k in first[m as usize]..first[m as usize + 1] {
        *looks += 1;
        let w = items[k];
        if tables.owner[w as usize] as usize == need.len() {
            return Some(w);
        }
    }
    None
}

/// An idle worker who may do function `f`. If there is none nobody counts as looked at: then no machine is known to have one.
pub fn idle_for(
    tables: &Tables,
    need: &[u32],
    f: u32,
    idle: &mut Idle,
    looks: &mut u64,
) -> Option<u32>
    requires fits { IsSearchable tables.now need.now }
    requires known { f < length need.now }
    requires looks { looks.old + degree tables.now.pairs f < 2 ^ 64 }
    ensures looks { AddsLooks (degree tables.now.pairs f) looks.old looks.new }
    ensures looked { IfSome result (λ w. looks.old < looks.new) }
    ensures none { IfNone result (looks.new ≡ looks.old) }
    ensures found { IfSome result (IsIdleFor tables.now need.now f) }
{
    let Some(m) = idle_machine(tables, need, f, idle) else {
        return None;
    };
    let mut seen = *looks;
    let Some(w) = idle_of(tables, need, m, &mut seen) else {
        return None;
    };
    *looks = seen;
    Some(w)
}

/// An idle worker who may do one of the functions of the tree, from this place on. If nobody is idle, none is looked for.
pub fn way_to_idle(
    tables: &Tables,
    need: &[u32],
    tree: &Tree,
    from: usize,
    idle: &mut Idle,
    looks: &mut u64,
) -> Option<WayOut>
    requires fits { IsSearchable tables.now need.now }
    requires tree { IsTreeOf tables.now need.now tree.now }
    requires looks { (place : ℕ) → from ≤ place → place < tree.now.tail
        → looks.old + degree tables.now.pairs (slice_index tree.now.reached.now place) < 2 ^ 64 }
    ensures looks { IfSome result
        (λ way. AddsLooks (degree tables.now.pairs (slice_index tree.now.reached.now way.place)) looks.old looks.new) }
    ensures looked { IfSome result (λ way. looks.old < looks.new) }
    ensures none { IfNone result (looks.new ≡ looks.old) }
    ensures place { IfSome result (λ way. from ≤ way.place) }
    ensures found { IfSome result (λ way. IsWayOutOf tables.now need.now tree.now way.worker way.place) }
{
    if tables.count[need.len()] == 0 {
        return None;
    }
    for place in from..tree.tail {
        if let Some(worker) = idle_for(tables, need, tree.reached[place], idle, looks) {
            return Some(WayOut { worker, place });
        }
    }
    None
}
