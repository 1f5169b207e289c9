//! The planning problem of the settings.

ghost use Rattle.std.specs.Prelude.{◌≡◌, ◌≤◌, false, IfOk, filter, length, slice_index_or};
ghost use Rattle.std.specs.List.{enumerate_from};

use plan_model::{MachineId, SlotId, is_marked};
use std::alloc::{AllocError, Global};

/// The workers whose slots are marked, as slot and machine, if each slot's machine is given. A slot without a mark is not live.
pub fn live_workers(
    alloc: Global,
    owners: &[MachineId],
    live: &[bool],
) -> Result<Vec<(SlotId, MachineId)>, AllocError>
    requires { length owners.now ≤ 4096 }
    ensures { IfOk result
        (λ workers. workers.items ≡ filter (λ worker. slice_index_or live.now worker.0 false) (enumerate_from 0 owners.now)) }
{
    let mut workers = Vec::new(alloc);
    let mut slot = 0;
    for machine in owners {
        if is_marked(live, slot) {
            workers.push((SlotId::new(slot), *machine))?;
        }
        slot += 1;
    }
    Ok(workers)
}
