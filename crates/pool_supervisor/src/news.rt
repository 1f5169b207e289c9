//! What is reported of a run while it goes on.
ghost use Rattle.std.specs.Prelude.{◌<◌};
ghost use Rattle.pool_settings.specs.Slots.{slots};
ghost use Rattle.pool_supervisor.specs.Steps.{IsLetOffOf, IsMadeOf};

use crate::attempt::Attempt;
use crate::queue::Queue;
use crate::run_end::RunEnd;
use job_runner::SessionEnd;
use plan_model::{Certified, FuncId, SlotId};
use pool_core::JoinError;
use pool_settings::Settings;
use relaxed_plan::Relaxed;
use worker_state::WorkerName;

/// An attempt that was made.
#[derive(Clone, Copy)]
pub struct Attempted<'a> {
    /// The settings of the run.
    pub settings: &'a Settings,
    /// The attempt's number, from 1.
    pub number: u32,
    /// What it came to.
    pub attempt: &'a Attempt,
    /// How many workers were alive when the attempt began, before it started new ones.
    pub alive_before: u32,
    /// How many workers are alive after it.
    pub alive: u32,
    /// The most workers that one slot has had so far.
    pub most_used: u32,
    /// The longest queue per worker under the attempt's plan. None if it led to no plan, or if no job waits.
    pub longest: Option<Queue>,
}

/// A worker that joined, and whose session was started.
#[derive(Clone, Copy)]
pub struct JoinedWorker<'a> {
    /// The settings of the run.
    pub settings: &'a Settings,
    /// The worker.
    pub worker: WorkerName,
    /// The worker is one of the settings.
    pub ghost known: { worker.slot < slots settings.now },
}

/// A worker whose session has ended.
#[derive(Clone, Copy)]
pub struct EndedWorker<'a> {
    /// The settings of the run.
    pub settings: &'a Settings,
    /// The worker.
    pub worker: WorkerName,
    /// How its session ended. If it reported fewer jobs than it grabbed, it left one without an answer.
    pub end: SessionEnd,
    /// The worker is one of the settings.
    pub ghost known: { worker.slot < slots settings.now },
}

/// What is reported of a run while it goes on. No contract says that it is.
pub trait Progress {
    /// A run by these settings begins, and has no job for the function. Jobs of it are answered as failed.
    fn lacks_job(&self, _settings: &Settings, _function: FuncId) {}

    /// An answer was found for what was viewed of the pool, and the pool is asked to take it next. If an attempt comes to a round, it is
    /// the round of the last answer that was found.
    fn planned(&self, _settings: &Settings, _certified: &Certified)
        requires of_these { IsMadeOf _settings.now _certified.now.input }
    {}

    /// The last answer that was found says that there is no plan, and this relaxed plan was found. Its orders are posted if the pool takes
    /// the answer.
    fn relaxed(&self, _settings: &Settings, _relaxed: &Relaxed)
        requires of_these { IsLetOffOf _settings.now _relaxed.now.let_off _relaxed.now.certified.input }
    {}

    /// An attempt was made.
    fn attempted(&self, made: &Attempted<'_>);

    /// A worker joined, and its session was started.
    fn joined(&self, _joined: &JoinedWorker<'_>) {}

    /// There is a link for a worker of the slot, and the pool takes none, by this refusal.
    fn not_joined(&self, _slot: SlotId, _error: JoinError) {}

    /// There is a link and a worker for the slot, and no thread could be started for them. The worker is lost, and the link is closed. Only
    /// a run that ends when its watch says so goes on.
    fn not_started(&self, _slot: SlotId) {}

    /// A worker's session has ended, and its thread was joined.
    fn ended(&self, _ended: &EndedWorker<'_>) {}

    /// All sessions have ended, and the run came to this.
    fn finished(&self, _ended: &RunEnd) {}
}
