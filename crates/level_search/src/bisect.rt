//! The bisection of levels.

ghost use Rattle.std.specs.Prelude.{◌≡◌, ◌+◌, ◌*◌, ◌^◌, ◌<◌, ◌≤◌, ◌↔◌, length, IfOk, IsTrue, OnOk};
ghost use Rattle.plan_model.specs.Planning.{IsShort};
ghost use Rattle.round_arena.specs.Plan.{pair_total};
ghost use Rattle.round_arena.specs.Round.{IsConsistent, SamePairs};
ghost use Rattle.augment.specs.Round.{Hires, IsWithinLooks};
ghost use Rattle.level_search.specs.Levels.{AreNeeds, ExceedsWorkers, Fits};
ghost use Rattle.level_search.specs.Found.{IsProbed, KeepsMet, IsFound};
ghost use Rattle.level_search.specs.Paid.{passes};

use augment::{Served, serve};
use plan_model::{FuncId, Input, TOP_LEVEL};
use round_arena::Tables;
use std::alloc::AllocError;

/// What the bisection of levels gives.
#[derive(Drop)]
pub enum Found<'a> {
    /// The tables serve the level. If it is above 0, the functions are short one level below.
    Level(u64, &'a [FuncId]),
    /// The functions are short at the top level.
    Nothing(&'a [FuncId]),
}

// Writes what each function needs at the level.
fn fill_needs(input: &Input, level: u64, needs: &mut [u32])
    requires { length needs.old ≡ length input.now.least }
    ensures { AreNeeds input.now level needs.new }
{
    for f in 0..input.functions() as u32 {
        needs[f as usize] = input.need(level, FuncId::new(f));
    }
}

// Serves what each function needs at the level, or gives a set that is short there.
fn probe<'a>(tables: &mut Tables<'a>, input: &Input, level: u64) -> Result<Served<'a>, AllocError>
    requires sound { IsConsistent (length input.now.least) tables.old }
    requires fits { Fits input.now tables.old }
    requires looks { tables.old.looks + (length tables.old.owner.now + 1) * pair_total tables.old.pairs < 2 ^ 64 }
    ensures sound { IsConsistent (length input.now.least) tables.new }
    ensures same { SamePairs tables.old tables.new }
    ensures probed { IfOk result (IsProbed input.now level tables.new) }
    ensures kept { KeepsMet input.now level tables.old tables.new }
    ensures looks { IfOk result (IsWithinLooks tables.old tables.new) }
    ensures hired { Hires (length input.now.least) tables.old tables.new }
{
    let needs = tables
        .bump
        .try_alloc_slice_fill_clone(input.functions(), 0)?;
    fill_needs(input, level, needs);
    let served = serve(tables, needs)?;
    Ok(served)
}

// Whether all functions together need more workers at the level than there are. Then no search is needed to know that it cannot be served.
fn exceeds_workers(input: &Input, level: u64) -> bool
    ensures { IsTrue result ↔ ExceedsWorkers input.now level }
{
    let mut wanted = 0u32;
    for f in 0..input.functions() as u32 {
        wanted += input.need(level, FuncId::new(f));
    }
    input.workers() < wanted
}

// A set that is short at a level at which the functions need more workers than there are.
fn find_short<'a>(
    tables: &mut Tables<'a>,
    input: &Input,
    level: u64,
) -> Result<&'a [FuncId], AllocError>
    requires sound { IsConsistent (length input.now.least) tables.old }
    requires fits { Fits input.now tables.old }
    requires exceeds { ExceedsWorkers input.now level }
    requires looks { tables.old.looks + (length tables.old.owner.now + 1) * pair_total tables.old.pairs < 2 ^ 64 }
    ensures sound { IsConsistent (length input.now.least) tables.new }
    ensures same { SamePairs tables.old tables.new }
    ensures short { IfOk result (λ set. IsShort input.now level set.now) }
    ensures kept { KeepsMet input.now level tables.old tables.new }
    ensures looks { IfOk result (λ _. tables.new.looks
        ≤ tables.old.looks + (length tables.old.owner.now + 1) * pair_total tables.old.pairs) }
    ensures hired { Hires (length input.now.least) tables.old tables.new }
{
    match probe(tables, input, level)? {
        Served::Short(set) => Ok(set),
        // Who has what he needs is one of the workers, and there are not enough.
        Served::All => Ok(&[]),
    }
}

/// The least level that can be served, with a set that is short one level below, or a set that is
/// short at the top level.
pub fn solve_levels<'a>(tables: &mut Tables<'a>, input: &Input) -> Result<Found<'a>, AllocError>
    requires sound { IsConsistent (length input.now.least) tables.old }
    requires fits { Fits input.now tables.old }
    requires looks { tables.old.looks + 34 * ((length tables.old.owner.now + 1) * pair_total tables.old.pairs) < 2 ^ 64 }
    ensures sound { IsConsistent (length input.now.least) tables.new }
    ensures same { SamePairs tables.old tables.new }
    ensures found { IfOk result (IsFound input.now tables.new) }
    ensures looks { IfOk result (λ found. tables.new.looks + passes found * pair_total tables.old.pairs
        ≤ tables.old.looks + 34 * ((length tables.old.owner.now + 1) * pair_total tables.old.pairs)) }
    ensures hired { OnOk result (Hires (length input.now.least) tables.old tables.new) }
{
    if let Served::Short(set) = probe(tables, input, TOP_LEVEL)? {
        return Ok(Found::Nothing(set));
    }
    let mut low = 0u64;
    let mut high = TOP_LEVEL;
    // The set that is short one level below `low`, if that level was searched. If more workers are needed there than there are, it was not:
    // such a search moves many workers, whom the next one moves back.
    let mut short: Option<&'a [FuncId]> = None;
    // There are 2^33 levels, so 33 halvings leave one. With a `for` the bound on probes, and so on looks, is in the code.
    for _round in 0..33u32 {
        let middle = low + (high - low) / 2;
        if low < high && exceeds_workers(input, middle) {
            low = middle + 1;
            short = None;
        } else if low < high {
            match probe(tables, input, middle)? {
                Served::All => high = middle,
                Served::Short(set) => {
                    low = middle + 1;
                    short = Some(set);
                }
            }
        }
    }
    match short {
        Some(set) => Ok(Found::Level(high, set)),
        None if high == 0 => Ok(Found::Level(0, &[])),
        None => Ok(Found::Level(high, find_short(tables, input, high - 1)?)),
    }
}
