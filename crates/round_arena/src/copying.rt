//! The plan of the tables, copied out of the arena.

ghost use Rattle.std.specs.Prelude.{◌≡◌, ℕ, length, IfOk};
ghost use Rattle.round_arena.specs.Round.{IsConsistent, plan_entries, function_at, plan_of};

use crate::tables::Tables;
use plan_model::{FuncId, Plan, SlotId};
use std::alloc::{AllocError, Global};

// The function of a worker, none if it is idle.
fn function_at(functions: usize, owner: u32) -> Option<FuncId>
    ensures { result ≡ function_at functions owner }
{
    if (owner as usize) < functions {
        Some(FuncId::new(owner))
    } else {
        None
    }
}

fn copy_entries(
    alloc: Global,
    slots: &[SlotId],
    owner: &[u32],
    functions: usize,
) -> Result<Vec<(SlotId, Option<FuncId>)>, AllocError>
    requires { length slots.now ≡ length owner.now }
    ensures { IfOk result (λ entries. entries.items ≡ plan_entries functions slots.now owner.now) }
{
    let mut entries = Vec::new(alloc);
    for w in 0..slots.len() {
        entries.push((slots[w], function_at(functions, owner[w])))?;
    }
    Ok(entries)
}

/// Copies the tables' plan out of the arena: it lists each worker of the round by its slot, with its
/// function or none. The only error is out of memory.
pub fn copy_plan(alloc: Global, tables: &Tables) -> Result<Plan, AllocError>
    requires sound { IsConsistent (length tables.now.order.now) tables.now }
    ensures { IfOk result (λ plan. plan ≡ plan_of tables.now) }
{
    let entries = copy_entries(alloc, tables.slot, tables.owner, tables.order.len())?;
    Ok(Plan::of_rising(entries))
}

/// How many permitted pairs of a worker and a function have been looked at since the tables were
/// built. A search looks at a pair at most once.
pub fn looks(tables: &Tables) -> u64
    ensures { result ≡ tables.now.looks }
{
    tables.looks
}
