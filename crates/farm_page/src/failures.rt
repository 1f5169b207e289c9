//! The last jobs that were not completed.

ghost use Rattle.std.specs.Prelude.{◌≡◌, [], ◌∷◌, IfOk, OnErr, OnOk, take};
ghost use Rattle.farm_page.specs.Rows.{failure_rows};

use crate::view::FailureView;
use std::alloc::{AllocError, Global};
use std::marker::Model;

/// How many jobs that were not completed a page shows.
const KEPT: usize = 20;

/// The last jobs that failed or were lost, 20 at most, the newest first.
#[derive(Drop)]
pub struct Failures {
    jobs: Vec<FailureView>,
}

impl Model for Failures {
    ghost use Rattle.std.specs.Prelude.{List, length, ◌≤◌};
    ghost use Rattle.farm_page.specs.declared.view.FailureView.{FailureView};

    ghost Value = { List FailureView };

    ghost view = { λ f. f.jobs.items };

    ghost invariant = { λ f. length f.jobs.items ≤ 20 };
}

impl Failures {
    /// Those of a farm before its first job.
    pub fn new(alloc: Global) -> Failures
        ensures { result ≡ [] }
    {
        Failures {
            jobs: Vec::new(alloc),
        }
    }

    /// Adds one more, and forgets the oldest if there are too many. The only error is out of memory; then nothing is added.
    pub fn add(&mut self, failure: FailureView) -> Result<(), AllocError>
        ensures ok { OnOk result (self.new ≡ take 20 (failure ∷ self.old)) }
        ensures err { OnErr result (self.new ≡ self.old) }
    {
        self.jobs.insert(0, failure)?;
        self.jobs.truncate(KEPT);
        Ok(())
    }

    /// Failures that are shown as these are. The only error is out of memory.
    pub fn copy(&self) -> Result<Failures, AllocError>
        ensures { IfOk result (λ copy. failure_rows copy ≡ failure_rows self.now) }
    {
        let jobs = self.jobs.clone()?;
        Ok(Failures { jobs })
    }

    /// The jobs, the newest first.
    pub fn jobs(&self) -> &[FailureView]
        ensures { result.now ≡ self.now }
    {
        &self.jobs
    }
}
