//! The plan of the round before, kept if it still serves.

ghost use Rattle.std.specs.Prelude.{◌≡◌, ℕ, ◌≤◌, ◌<◌, ◌↔◌, IsTrue, length, slice_index, IfOk};
ghost use Rattle.round_arena.specs.Plan.{IsCounted};
ghost use Rattle.round_arena.specs.Round.{IsConsistent, SamePairs};
ghost use Rattle.level_search.specs.Levels.{Fits, AreMet};
ghost use Rattle.level_search.specs.Found.{IsFound, Serves};
ghost use Rattle.level_search.specs.Steady.{IsSeed};
ghost use Rattle.level_search.specs.declared.previous.Origin.TheVariants.{Previous};

use crate::bisect::Found;
use bumpalo::Bump;
use plan_model::{FuncId, Input};
use round_arena::Tables;
use std::alloc::AllocError;

/// Who did what before the search moved anybody.
#[derive(Clone, Copy)]
pub struct Seed<'a> {
    pub owner: &'a [u32],
    pub count: &'a [u32],
}

/// Where the functions of the workers come from, once a level is found.
#[derive(Clone, Copy)]
pub enum Origin {
    /// They are those of the plan before, as far as it is left.
    Previous,
    /// The search moved workers.
    Search,
}

/// Copies the owners and counts of the tables.
pub fn remember<'a>(bump: &'a Bump, tables: &Tables) -> Result<Seed<'a>, AllocError>
    ensures owner { IfOk result (λ seed. seed.owner.now ≡ tables.now.owner.now) }
    ensures count { IfOk result (λ seed. seed.count.now ≡ tables.now.count.now) }
{
    Ok(Seed {
        owner: bump.try_alloc_slice_copy(tables.owner)?,
        count: bump.try_alloc_slice_copy(tables.count)?,
    })
}

// Whether the seed meets the needs of the level.
fn meets(seed: &Seed, input: &Input, level: u64) -> bool
    requires { IsCounted (length input.now.least) seed.now.owner.now seed.now.count.now }
    ensures { IsTrue result ↔ AreMet input.now seed.now.owner.now level }
{
    for f in 0..input.functions() as u32 {
        if seed.count[f as usize] < input.need(level, FuncId::new(f)) {
            return false;
        }
    }
    true
}

// Whether the seed meets the needs of the level that was found.
fn serves(seed: &Seed, input: &Input, found: &Found) -> bool
    requires { IsCounted (length input.now.least) seed.now.owner.now seed.now.count.now }
    ensures { IsTrue result ↔ Serves input.now seed.now.owner.now found.now }
{
    match found {
        Found::Level(level, _) => meets(seed, input, *level),
        Found::Nothing(_) => false,
    }
}

/// Puts the workers back on what they did before, if that serves the level that was found: a search that
/// got stuck may have moved them for nothing.
pub fn put_back(tables: &mut Tables, seed: &Seed, input: &Input, found: &Found) -> Origin
    requires sound { IsConsistent (length input.now.least) tables.old }
    requires seed { IsSeed (length input.now.least) tables.old seed.now }
    requires found { IsFound input.now tables.old found.now }
    ensures sound { IsConsistent (length input.now.least) tables.new }
    ensures same { SamePairs tables.old tables.new }
    ensures found { IsFound input.now tables.new found.now }
    ensures kept { Serves input.now seed.now.owner.now found.now → tables.new.owner.now ≡ seed.now.owner.now }
    ensures origin { (result ≡ Previous) ↔ Serves input.now seed.now.owner.now found.now }
    ensures looks { tables.new.looks ≡ tables.old.looks }
{
    let is_kept = serves(seed, input, found);
    if is_kept {
        tables.owner.copy_from_slice(seed.owner);
        tables.count.copy_from_slice(seed.count);
        Origin::Previous
    } else {
        Origin::Search
    }
}
