//! A session that has ended, as its thread hands it back.
ghost use Rattle.std.specs.Prelude.{◌≡◌, ◌<◌, IfOk};
ghost use Rattle.job_runner.specs.Run.{seen_link};
ghost use Rattle.pool_settings.specs.Slots.{slots};
ghost use Rattle.pool_supervisor.specs.Dials.{IsNew};
ghost use Rattle.pool_supervisor.specs.Sessions.{Covers, HadJobs, IsPast};

use crate::jobs::JobSource;
use crate::place::RunId;
use crate::port::Watch;
use crate::session::{Papers, Returned, Site, Unused, run_worker};
use byte_io::{Sink, Source};
use core::thread::{Promise, PromisedHandle};
use std::marker::Model;
use std::snapshot::Snapshot;
use std::sync::Wait;
use std::thread::Threads;
use worker_state::WorkerName;

/// A session that has ended.
#[derive(Drop)]
pub struct EndedSession<N: RunId> {
    /// Its worker.
    pub worker: WorkerName,
    /// What it hands back.
    pub returned: Returned<N>,
}

impl<N: RunId> EndedSession<N> {
    /// A worker's session over this link, run to its end, and what the link was then.
    pub fn of<L: Source + Sink, J: JobSource, C: Watch, R: Wait>(
        site: &Site<'_, N, J, C, R>,
        link: &mut L,
        papers: Papers<N>,
    ) -> (EndedSession<N>, Snapshot<L>)
        requires slot { papers.worker.pass.slot < slots site.now.run.settings.now }
        requires fresh { IsNew (seen_link L.input L.output link.old) }
        requires source { Covers N.had_jobs (HadJobs J.Jobs.tells J.Jobs.fails J.Jobs.prepares (J.gives site.now.lent.jobs.now)
            (J.denies site.now.lent.jobs.now)) }
        ensures past { IsPast N.settings N.had_jobs result.0.worker result.0.returned.end
            (seen_link L.input L.output result.1.value) }
        ensures link { result.1.value ≡ link.new }
    {
        let worker = papers.worker.pass.name();
        let returned = run_worker(site, link, papers);
        (EndedSession { worker, returned }, Snapshot::of(link))
    }
}

/// What a session comes to: it was run to its end, and besides what its link was then; or it never began, since no thread could be started
/// for it.
pub type SessionOutcome<N, L> = Result<(EndedSession<N>, Snapshot<L>), Unused<N>>;

/// The promise of a session's thread: a session that was run to its end is one of a worker of the run. It was served over the link with
/// jobs of the run's source, or ended as one without jobs.
#[derive(Clone, Copy)]
pub struct OfRun;

impl<N: RunId, L: Source + Sink> Promise<SessionOutcome<N, L>> for OfRun {
    ghost use Rattle.std.specs.Prelude.{IfOk};
    ghost use Rattle.job_runner.specs.Run.{seen_link};
    ghost use Rattle.pool_supervisor.specs.Sessions.{IsPast};

    ghost kept_by = { λ _ outcome. IfOk outcome (λ ended. IsPast N.settings N.had_jobs ended.0.worker ended.0.returned.end
        (seen_link L.input L.output ended.1.value)) };
}

/// What a session without a thread came to. Of it the same is known.
#[derive(Drop)]
pub struct Unthreaded<N: RunId, L: Source + Sink> {
    outcome: SessionOutcome<N, L>,
}

impl<N: RunId, L: Source + Sink> Model for Unthreaded<N, L> {
    ghost use Rattle.std.specs.Prelude.{IfOk, ⊤};
    ghost use Rattle.job_runner.specs.Run.{seen_link};
    ghost use Rattle.pool_supervisor.specs.Sessions.{IsPast};

    ghost Value = { ⊤ };

    ghost view = { λ _. tt };

    ghost invariant = { λ s. IfOk s.outcome (λ ended. IsPast N.settings N.had_jobs ended.0.worker ended.0.returned.end
        (seen_link L.input L.output ended.1.value)) };
}

impl<N: RunId, L: Source + Sink> Unthreaded<N, L> {
    /// A session that came to this.
    pub fn new(outcome: SessionOutcome<N, L>) -> Unthreaded<N, L>
        requires past { IfOk outcome (λ ended. IsPast N.settings N.had_jobs ended.0.worker ended.0.returned.end
            (seen_link L.input L.output ended.1.value)) }
    {
        Unthreaded { outcome }
    }
}

/// A session that was started, or is over since it could not be.
#[derive(Drop)]
pub enum Session<N: RunId, L: Source + Sink> {
    /// It has a thread, which hands back what it comes to.
    InThread(PromisedHandle<SessionOutcome<N, L>, OfRun>),
    /// It is over.
    Over(Unthreaded<N, L>),
}

impl<N: RunId, L: Source + Sink> Session<N, L> {
    /// Waits for the session's end.
    pub fn join<R: Threads>(self, rt: &R) -> SessionOutcome<N, L>
        ensures past { IfOk result (λ ended. IsPast N.settings N.had_jobs ended.0.worker ended.0.returned.end
            (seen_link L.input L.output ended.1.value)) }
        ensures known { IfOk result (λ ended. ended.0.worker.slot < slots N.settings) }
    {
        match self {
            Session::InThread(handle) => handle.join(rt),
            Session::Over(unthreaded) => {
                let Unthreaded { outcome } = unthreaded;
                outcome
            }
        }
    }
}
