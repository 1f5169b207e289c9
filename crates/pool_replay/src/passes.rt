//! The passes of the workers that joined.

ghost use Rattle.std.specs.Prelude.{◌≡◌, IfSome, IfNone, OnOk, is_some};
ghost use Rattle.std.specs.FinSet as set;

use pool_core::Pass;
use std::alloc::{AllocError, Global};
use std::collections::BTreeMap;
use std::marker::Model;
use worker_state::WorkerName;

/// The passes of the workers that joined, each under its worker's slot and generation, until it is taken. A worker that is gone
/// from its slot still has its pass here. Clauses see them as the set of the workers that have one.
///
/// Each call takes logarithmic time.
#[derive(Drop)]
pub struct Passes {
    by_worker: BTreeMap<(u32, u32), Pass>,
}

impl Model for Passes {
    ghost use Rattle.std.specs.FinSet as set;
    ghost use Rattle.std.specs.BTreeMap.{keys};
    ghost use Rattle.pool_replay.specs.Passes.{worker_cmp, coded_worker, workers_at, IsByWorker};

    ghost Value = { set.FinSet worker_cmp };

    ghost coded = { set.code coded_worker };

    ghost view = { λ p. workers_at (keys p.by_worker) };

    ghost invariant = { λ p. IsByWorker p.by_worker };
}

fn key_of(worker: &WorkerName) -> (u32, u32)
    ensures { result ≡ (worker.now.slot, worker.now.generation) }
{
    (worker.slot.number(), worker.generation)
}

impl Passes {
    /// No passes.
    pub fn new(alloc: Global) -> Passes
        ensures { result ≡ set.empty }
    {
        Passes {
            by_worker: BTreeMap::new(alloc),
        }
    }

    /// The worker's pass.
    pub fn get(&self, worker: &WorkerName) -> Option<&Pass>
        ensures some { IfSome result (λ pass. pass.now ≡ worker.now) }
        ensures there { is_some result ≡ set.contains self.now worker.now }
    {
        self.by_worker.get(&key_of(worker))
    }

    /// Keeps a pass under the name of its worker.
    pub fn keep(&mut self, pass: Pass) -> Result<(), AllocError>
        ensures { OnOk result (self.new ≡ set.insert self.old pass) }
    {
        let key = key_of(&pass.name());
        self.by_worker.insert(key, pass)?;
        Ok(())
    }

    /// Takes the worker's pass out.
    pub fn take(&mut self, worker: &WorkerName) -> Option<Pass>
        ensures some { IfSome result (λ pass. pass ≡ worker.now) }
        ensures none { IfNone result (self.new ≡ self.old) }
        ensures there { is_some result ≡ set.contains self.old worker.now }
        ensures rest { self.new ≡ set.remove self.old worker.now }
    {
        self.by_worker.remove(&key_of(worker))
    }
}
