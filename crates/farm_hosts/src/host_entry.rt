//! A host of a farm: how it is, and what is new of it.

ghost use Rattle.std.specs.Prelude.{◌≡◌, ◌↔◌, ◌+◌, ◌-◌, ◌*◌, ◌^◌, ◌<◌, Bool, IfErr, IfNone, IfOk, IfSome, None, Some, false, max, min};
ghost use Rattle.std.specs.Prelude.{nat_lt, true};
ghost use Rattle.std.specs.Option.{option_map};
ghost use Rattle.farm_hosts.specs.Hosts as spec;

use crate::first_answers::FirstAnswers;
use crate::host_state::{BeforeJob, HostState, Presence, Reason};
use crate::left_jobs::{LeftJob, LeftJobs};
use devices::DialError;
use job_runner::Readiness;
use plan_model::MachineId;
use worker_state::WorkerName;

/// From how many attempts on after the last word of a host one of its workers dials it.
const LONGEST_SILENCE: u64 = 4;

/// What is new of a host.
#[derive(Clone, Copy, Debug, PartialEq, Eq)]
pub enum HostNews {
    /// It was left alone, and is not any more.
    Reached,
    /// It is left alone from now on.
    Unreached(Reason),
}

/// A slot of a machine.
#[derive(Clone, Copy, Debug, PartialEq, Eq)]
pub struct MachineSlot {
    /// The machine.
    pub machine: MachineId,
    /// The slot's number among those of the machine, from 0.
    pub number: u32,
    /// How many slots the machine has.
    pub of: u32,
}

/// What is new of a host, by why it was left alone before and is now.
fn news_of(before: Option<Reason>, now: Option<Reason>) -> Option<HostNews> {
    match (before, now) {
        (Some(_), None) => Some(HostNews::Reached),
        (None, Some(why)) => Some(HostNews::Unreached(why)),
        _ => None,
    }
}

/// A host of a farm.
#[derive(Clone, Copy, Debug, PartialEq, Eq)]
pub struct HostEntry {
    /// How it is.
    pub state: HostState,
    /// What it left unserved.
    pub left: LeftJobs,
    /// The attempt of the last word of it: it took a connection or served a job. Or in which a worker last took a look at it.
    pub heard: u64,
    /// How many of its workers are at a job there, or take a look at it.
    pub busy: u32,
    /// Whether its jobs are answered.
    pub answers: FirstAnswers,
    /// How many workers came to try it.
    pub tries: u64,
    /// How many of its workers joined in this attempt, less those that ended in it.
    pub joined: u32,
    /// How many of its workers have joined, and were not seen to end. One whose link is held still counts.
    pub alive: u32,
    /// How many attempts pass at most before it is dialled again if it takes no connection.
    pub longest_unreached: u64,
}

impl HostEntry {
    /// One of which nothing is known, and which is dialled again after so many attempts at most if it takes no connection.
    pub fn new(longest_unreached: u64) -> HostEntry
        ensures state { spec.starts_of result.state ≡ Some 4096 }
        ensures longest { result.longest_unreached ≡ longest_unreached }
    {
        HostEntry {
            state: HostState::Present(Presence::new()),
            left: LeftJobs::nothing(),
            heard: 1,
            busy: 0,
            answers: FirstAnswers::new(),
            tries: 0,
            joined: 0,
            alive: 0,
            longest_unreached,
        }
    }

    /// Whether a worker of this slot may start in this attempt. If the host is left alone, tries go round the slots, since each can have
    /// only so many workers. If the slot whose turn it is has a worker, any may have the try an attempt later. Else as many may start as
    /// its state says, or as were alive before this attempt: what a host lost that was gone for a moment comes back at once.
    pub fn may_start(&self, slot: MachineSlot, attempt: u64) -> bool
        ensures present { IfSome (spec.starts_of self.now.state)
            (λ starts. result ≡ nat_lt self.now.joined (max starts (self.now.alive - self.now.joined))) }
        ensures alone { IfSome (spec.try_of self.now.state) (λ due. attempt < due → result ≡ false) }
        ensures tried { IfSome (spec.try_of self.now.state) (λ due. due < attempt → result ≡ true) }
    {
        match self.state {
            HostState::Present(presence) => {
                let before = self.alive.saturating_sub(self.joined);
                self.joined < presence.starts.max(before)
            }
            HostState::Away(absence) => {
                let due = absence.next_try();
                let turn = self.tries.checked_rem(slot.of as u64);
                let is_turn = turn == Some(slot.number as u64);
                due < attempt || (due == attempt && is_turn)
            }
        }
    }

    /// The next attempt begins.
    pub fn begin_attempt(&mut self)
        ensures joined { self.new.joined ≡ 0 }
        ensures reason { spec.reason_of self.new.state ≡ spec.reason_of self.old.state }
        ensures tries { spec.try_of self.new.state ≡ spec.try_of self.old.state }
        ensures starts { spec.starts_of self.new.state ≡ option_map (λ starts. min (starts * 2) 4096) (spec.starts_of self.old.state) }
    {
        self.joined = 0;
        self.state = self.state.after_attempt();
    }

    /// After a worker joined in this attempt.
    pub fn note_join(&mut self, attempt: u64)
        ensures joined { self.new.joined ≡ min (self.old.joined + 1) (2 ^ 32 - 1) }
        ensures alive { self.new.alive ≡ min (self.old.alive + 1) (2 ^ 32 - 1) }
        ensures reason { spec.reason_of self.new.state ≡ spec.reason_of self.old.state }
        ensures tries { spec.IfAway self.old.state (λ before.
            spec.IfAway self.new.state (spec.IsTriedIn attempt self.old.longest_unreached before)) }
    {
        if self.state.is_tried_in(attempt) {
            self.tries = self.tries.saturating_add(1);
        }
        self.joined = self.joined.saturating_add(1);
        self.alive = self.alive.saturating_add(1);
        self.state = self.state.after_join(attempt, self.longest_unreached);
    }

    /// After a worker ended. Another one may join in its place in this attempt.
    pub fn note_end(&mut self, worker: WorkerName)
        ensures alive { self.new.alive ≡ self.old.alive - 1 }
        ensures joined { self.new.joined ≡ self.old.joined - 1 }
        ensures reason { spec.reason_of self.new.state ≡ spec.reason_of self.old.state }
        ensures goes { spec.trier_of self.old.state ≡ Some worker → spec.trier_of self.new.state ≡ None }
    {
        self.alive = self.alive.saturating_sub(1);
        self.joined = self.joined.saturating_sub(1);
        self.state = self.state.after_end(worker);
    }

    /// Whether it has no job to do and takes no look, and for four attempts was not heard of. A host that has a job to do is not silent: a
    /// service that does one job after the other would leave such dials waiting, until its queue is full.
    fn is_silent(&self, attempt: u64) -> bool
        ensures { result ≡ spec.is_silent self.now attempt }
    {
        self.busy == 0 && self.heard.saturating_add(LONGEST_SILENCE) <= attempt
    }

    /// What a worker, whose jobs are run by what is so, does before it asks for one more job in this attempt. One that is told that its
    /// connection was closed takes a look. Of those that find a host silent one does, and until it has looked no other does for that: a
    /// look-up may take long.
    pub fn before_job(
        &mut self,
        worker: WorkerName,
        readiness: Readiness,
        attempt: u64,
    ) -> BeforeJob
        ensures does { (is_trier : Bool) × ((is_trier ≡ true) ↔ (spec.trier_of self.old.state ≡ Some worker))
            × (result ≡ spec.before_job (spec.reason_of self.old.state) is_trier (spec.has_to_look readiness self.old attempt)) }
        ensures state { self.new.state ≡ self.old.state }
    {
        let has_to_look = readiness == Readiness::Lost || self.is_silent(attempt);
        let does = self
            .state
            .before_job(self.state.is_tried_by(worker), has_to_look);
        if does == BeforeJob::Look {
            self.heard = attempt;
            self.busy = self.busy.saturating_add(1);
        }
        does
    }

    /// What is new of it, by why it was left alone before. If anything is, the jobs that it left unserved count no more.
    fn news_since(&mut self, before: Option<Reason>) -> Option<HostNews>
        ensures { self.new.state ≡ self.old.state }
    {
        let news = news_of(before, self.state.reason());
        if news.is_some() {
            self.left = LeftJobs::nothing();
        }
        news
    }

    /// After a connection was opened, or could not be. What is new of it.
    pub fn note_dial(&mut self, dialled: Result<(), DialError>, attempt: u64) -> Option<HostNews>
        ensures marks { spec.reason_of self.new.state ≡ spec.after_dial (spec.reason_of self.old.state) dialled }
        ensures starts { IfOk dialled (λ _. spec.starts_of self.new.state
            ≡ spec.starts_after_opening (spec.reason_of self.old.state) (spec.starts_of self.old.state)) }
        ensures soon { IfErr dialled (λ why. spec.is_local why ≡ false
            → spec.MayBeTriedFrom (attempt + self.old.longest_unreached) self.new.state) }
    {
        let before = self.state.reason();
        self.state = self
            .state
            .after_dial(dialled, attempt, self.longest_unreached);
        if dialled.is_ok() {
            self.heard = attempt;
        }
        self.news_since(before)
    }

    /// After it served a job at this time, in milliseconds. What is new of it.
    pub fn note_served(&mut self, attempt: u64, now_ms: Option<u64>) -> Option<HostNews>
        ensures reason { spec.reason_of self.new.state ≡ spec.after_served (spec.reason_of self.old.state) }
        ensures starts { spec.starts_of self.new.state
            ≡ spec.starts_after_served (spec.reason_of self.old.state) (spec.starts_of self.old.state) }
        ensures left { self.new.left ≡ spec.left_after_served now_ms }
    {
        let before = self.state.reason();
        self.state = self.state.after_served();
        self.heard = attempt;
        self.left = LeftJobs::after_served(now_ms);
        news_of(before, self.state.reason())
    }

    /// After a round without a plan. What is new of it.
    pub fn note_no_plan(&mut self) -> Option<HostNews>
        ensures reason { spec.reason_of self.new.state ≡ spec.after_no_plan (spec.reason_of self.old.state) (spec.trier_of self.old.state) }
        ensures starts { IfSome (spec.starts_of self.new.state) (λ starts. starts ≡ 4096) }
    {
        let before = self.state.reason();
        self.state = self.state.after_no_plan();
        self.news_since(before)
    }

    /// After it left this job unserved. What is new of it. If it was not left alone before, it is now if so many new jobs were left in a
    /// row, and it has served none for 200 milliseconds. That is asked at each job, also at one that others had left before.
    pub fn note_unserved(&mut self, job: LeftJob, attempt: u64) -> Option<HostNews>
        ensures reason { spec.reason_of self.new.state ≡ spec.after_left (spec.reason_of self.old.state) self.old.left job }
        ensures left { IfNone (spec.reason_of self.new.state) (self.new.left ≡ spec.left_with job self.old.left) }
    {
        if self.state.reason().is_some() {
            return None;
        }
        self.left = self.left.with(job);
        if !self.left.mark(job) {
            return None;
        }
        self.left = LeftJobs::nothing();
        self.state = self
            .state
            .away(Reason::Unserved, attempt, self.longest_unreached);
        Some(HostNews::Unreached(Reason::Unserved))
    }
}
