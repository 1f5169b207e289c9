//! What a page shows of an answer.

ghost use Rattle.std.specs.Prelude.{◌≡◌, ◌≤◌, IfOk, length, sum};
ghost use Rattle.farm_notes.specs.Evidence as spec;
ghost use Rattle.farm_notes.specs.Notes.{is_of, numbered};
ghost use Rattle.farm_notes.specs.Sizes.{KeepsFarmOf};
ghost use Rattle.pool_supervisor.specs.Steps.{IsMadeOf};

use crate::kept_evidence::KeptEvidence;
use crate::kept_relaxed::KeptRelaxed;
use farm_page::Shortage;
use live_size::{LiveSize, PosedSize, Unbounded};
use plan_model::{Answer, Certified, FuncSet, Input, Plan, TOP_LEVEL, count_neighbours};
use pool_settings::Settings;
use std::alloc::{AllocError, Global};
use std::num::NonZeroU32;

/// The backlog that a services file wants, and what its settings leave unbounded.
#[derive(Clone, Copy)]
pub struct Wanted<'w> {
    /// The functions for which the settings file gives no greatest number.
    pub unbounded: &'w Unbounded,
    /// How many jobs may wait for each worker of a function.
    pub backlog: NonZeroU32,
}

/// What a page shows of the answer to an attempt.
#[derive(Drop)]
pub struct Found {
    /// What it can be checked with.
    pub evidence: KeptEvidence,
    /// The functions that are short of workers, if the answer names any.
    pub shortage: Option<Shortage>,
    /// By function, how many jobs wait.
    pub waiting: Vec<u32>,
    /// How many jobs wait for all functions together.
    pub waiting_jobs: u64,
    /// By function, how many workers the plan gives it, and nothing if there is no plan: then workers go on as they were ordered before.
    pub workers: Vec<u32>,
    /// By machine, how many of its workers are alive.
    pub alive: Vec<u32>,
    /// The plan that was posted instead if the answer is none.
    pub relaxed: Option<KeptRelaxed>,
    /// The farm of the attempt, until its size is found. None if no backlog is wanted, or if there was no memory.
    pub posed: Option<PosedSize>,
    /// Its size. None until it is found, and if no backlog is wanted or there was no memory.
    pub size: Option<LiveSize>,
}

/// The farm of an attempt that plans for this problem, if a backlog is wanted. Without memory there is none, and the plan stays.
fn posed_of(
    alloc: Global,
    settings: &Settings,
    input: &Input,
    wanted: Option<Wanted<'_>>,
) -> Option<PosedSize>
    requires of_these { IsMadeOf settings.now input.now }
    ensures { KeepsFarmOf settings.now input.now wanted.entry result }
{
    let Wanted { unbounded, backlog } = wanted?;
    PosedSize::of(alloc, settings, unbounded, input, backlog).ok()
}

/// How many jobs wait for all functions together.
fn sum_of(waiting: &[u32]) -> u64
    requires few { length waiting.now ≤ 1024 }
    ensures { result ≡ sum waiting.now }
{
    let mut jobs = 0u64;
    for count in waiting {
        jobs += u64::from(*count);
    }
    jobs
}

/// How many workers a plan gives each of so many functions.
pub(crate) fn workers_by_function(
    alloc: Global,
    plan: &Plan,
    functions: usize,
) -> Result<Vec<u32>, AllocError> {
    let mut workers = vec![in alloc; 0u32; functions]?;
    for (_, function) in plan.entries() {
        if let Some(function) = function {
            if let Some(count) = workers.get_mut(function.number() as usize) {
                *count = count.saturating_add(1);
            }
        }
    }
    Ok(workers)
}

/// How many workers of each machine are live.
fn alive_by_machine(alloc: Global, input: &Input) -> Result<Vec<u32>, AllocError> {
    let mut alive = vec![in alloc; 0u32; input.machines()]?;
    for (_, machine) in input.live() {
        if let Some(count) = alive.get_mut(machine.number() as usize) {
            *count = count.saturating_add(1);
        }
    }
    Ok(alive)
}

/// How many workers these functions need together at this level. None if for one of them no number of the workers alive will do.
fn need_of(input: &Input, level: u64, short: &FuncSet) -> Option<u64> {
    let mut need = 0u64;
    for function in short.functions() {
        if (function.number() as usize) < input.functions() {
            let own = input.need(level, *function);
            if own > input.workers() {
                return None;
            }
            need = need.saturating_add(u64::from(own));
        }
    }
    Some(need)
}

/// What shows that no plan has a lower level, or that there is none.
fn shortage_of(
    alloc: Global,
    settings: &Settings,
    input: &Input,
    level: u64,
    short: &FuncSet,
) -> Result<Shortage, AllocError> {
    let mut functions = Vec::new(alloc);
    for function in short.functions() {
        if function.number() < settings.functions() {
            functions.push(String::from_str(alloc, settings.function_name(*function))?)?;
        }
    }
    Ok(Shortage {
        functions,
        need: need_of(input, level, short),
        have: u64::from(count_neighbours(input, short)),
    })
}

impl Found {
    /// What a page shows of this answer, with the farm of its problem if a backlog is wanted. The only error is out of memory. There may be
    /// none for the farm: then all else is kept.
    pub fn of(
        alloc: Global,
        settings: &Settings,
        certified: &Certified,
        wanted: Option<Wanted<'_>>,
    ) -> Result<Found, AllocError>
        requires of_these { IsMadeOf settings.now certified.now.input }
        ensures evidence { IfOk result (λ found. spec.IsEvidenceOf settings.now certified.now found.evidence) }
        ensures waiting { IfOk result (λ found. found.waiting.items ≡ certified.now.input.waiting) }
        ensures waiting_jobs { IfOk result (λ found. found.waiting_jobs ≡ sum certified.now.input.waiting) }
        ensures posed { IfOk result (λ found. KeepsFarmOf settings.now certified.now.input wanted.entry found.posed) }
    {
        let input = certified.input();
        input.facts();
        let (shortage, workers) = match certified.answer() {
            Answer::Planned {
                plan,
                backlog,
                short,
            } => {
                let shortage = match short {
                    Some(short) => Some(shortage_of(
                        alloc,
                        settings,
                        input,
                        backlog.saturating_sub(1),
                        short,
                    )?),
                    None => None,
                };
                (
                    shortage,
                    workers_by_function(alloc, plan, input.functions())?,
                )
            }
            Answer::NoPlan { short } => (
                Some(shortage_of(alloc, settings, input, TOP_LEVEL, short)?),
                Vec::new(alloc),
            ),
        };
        Ok(Found {
            evidence: KeptEvidence::of(alloc, settings, certified)?,
            shortage,
            waiting: Vec::from_slice(alloc, input.waiting())?,
            waiting_jobs: sum_of(input.waiting()),
            workers,
            alive: alive_by_machine(alloc, input)?,
            relaxed: None,
            posed: posed_of(alloc, settings, input, wanted),
            size: None,
        })
    }

    /// Whether it was found in the attempt of this number.
    pub fn is_of(&self, attempt: u32) -> bool
        ensures { result ≡ is_of attempt self.now }
    {
        self.evidence.attempt() == attempt
    }

    /// The same, as that of an attempt of this number.
    pub fn numbered(self, attempt: u32) -> Found
        ensures { result ≡ numbered attempt self }
    {
        Found {
            evidence: self.evidence.numbered(attempt),
            shortage: self.shortage,
            waiting: self.waiting,
            waiting_jobs: self.waiting_jobs,
            workers: self.workers,
            alive: self.alive,
            relaxed: self.relaxed,
            posed: self.posed,
            size: self.size,
        }
    }
}
