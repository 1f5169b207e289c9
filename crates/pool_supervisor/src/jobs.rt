//! Where the sessions of a run have their jobs from.
ghost use Rattle.pool_supervisor.specs.Sessions.{Covers, HadJobs, HadNamedJobs};

use job_runner::{Jobs, NamedJobs};
use plan_model::SlotId;
use worker_state::WorkerName;

/// What gives each session of a run its jobs, and says which slots may have one.
pub trait JobSource {
    ghost use Rattle.std.specs.Prelude.{◌≡◌, ℕ, Bool, true, IfNone, IfSome};
    ghost use Rattle.worker_state.specs.declared.slot.WorkerName.{WorkerName};

    /// What runs the jobs of one session.
    type Jobs: Jobs + Send + Drop;

    /// Whether it may say of a slot that it may have a worker, or that it may not.
    ghost allows: { Self → ℕ → Bool → Bool };

    /// What it may give the session of a worker.
    ghost gives: { Self → WorkerName → Self.Jobs → Type 0 };

    /// Which worker it may give nothing.
    ghost denies: { Self → WorkerName → Type 0 };

    /// Whether the slot may have a worker now. Whoever fills slots, an attempt or a refill between two, asks this of each empty slot that
    /// it looks at, and leaves the slot empty if not.
    fn may_start(&self, slot: SlotId) -> bool
        ensures { allows self.now slot result ≡ true };

    /// The jobs of a worker's session, which is about to start, in the session's own thread. If there are none the session ends before it
    /// begins: nothing is written to the job server, and the worker is lost as `Unserved`.
    fn jobs_of(&self, worker: WorkerName) -> Option<Self::Jobs>
        ensures given { IfSome result (gives self.now worker) }
        ensures denied { IfNone result (denies self.now worker) };

    /// Whether it has a job of this function. Nothing that a run does depends on it.
    fn serves(&self, function: &[u8]) -> bool;
}

/// Does nothing. A session whose source is these jobs by name had jobs, each of which reported what its name means.
pub fn sessions_have_named_jobs<'j, T: NamedJobs + Sync>(jobs: &'j T)
    ensures { Covers (HadNamedJobs (T.told jobs.now)) (HadJobs ⟦<&'j T as Jobs>⟧.tells ⟦<&'j T as Jobs>⟧.fails ⟦<&'j T as Jobs>⟧.prepares
        (⟦<&'j T as JobSource>⟧.gives jobs.entry) (⟦<&'j T as JobSource>⟧.denies jobs.entry)) }
{}

/// Jobs by name are the same for each session, and each slot may have one.
impl<'j, T: NamedJobs + Sync> JobSource for &'j T {
    ghost use Rattle.std.specs.Prelude.{◌≡◌};

    type Jobs = &'j T;

    ghost allows = { λ _ _ may. may };

    ghost gives = { λ source _ jobs. jobs ≡ source };

    ghost denies = { λ _ _. ⊥ };

    fn may_start(&self, _slot: SlotId) -> bool {
        true
    }

    fn jobs_of(&self, _worker: WorkerName) -> Option<&'j T> {
        Some(*self)
    }

    fn serves(&self, function: &[u8]) -> bool {
        (**self).serves(function)
    }
}
