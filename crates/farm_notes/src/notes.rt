//! What the page of a farm is made of, kept from attempt to attempt.

ghost use Rattle.std.specs.Prelude.{◌≡◌, ◌<◌, ◌++◌, [], ◌∷◌, IfOk, None, OnErr, OnOk, length};
ghost use Rattle.farm_notes.specs.Notes as spec;
ghost use Rattle.farm_notes.specs.Relaxed.{ShowsARelaxedPlan};
ghost use Rattle.farm_page.specs.Kept.{last_of};
ghost use Rattle.pool_supervisor.specs.Rounds as rounds;
ghost use Rattle.pool_supervisor.specs.Steps.{IsLetOffOf, IsMadeOf};

use crate::found::{Found, Wanted};
use crate::kept_relaxed::KeptRelaxed;
use crate::tally::FunctionJobs;
use farm_page::{
    AttemptView, Attempts, EndView, Evidence, Failures, FarmView, FunctionView, HostView,
    JobsAgain, MissingView, Outcome, RelaxedPlan, Shortage, SizeView, Turnover, Workers,
};
use job_runner::EndCause;
use live_size::{ByMachine, LiveSize, Missing, PosedSize};
use plan_model::{Certified, FuncId, MachineId};
use plan_sizing::Obstacle;
use pool_settings::Settings;
use pool_supervisor::{Attempt, Attempted, EndCounts, attempt_words};
use refusal::Labelled;
use relaxed_plan::Relaxed;
use std::alloc::{AllocError, Global};
use std::sync::{Mutex, Wait};

/// What others know of a farm when a page is made.
#[derive(Clone, Copy)]
pub struct Known<'a> {
    /// By machine, why its host is left alone, if it is.
    pub unreached: &'a [Option<&'static str>],
    /// By function, its jobs.
    pub jobs: &'a [FunctionJobs],
    /// The last jobs that were not completed.
    pub failures: &'a Failures,
    /// The jobs that come again.
    pub again: JobsAgain,
    /// The machines that have no worker for want of files or threads.
    pub without_room: &'a [MachineId],
    /// Whether the services file wants a backlog.
    pub wants_backlog: bool,
}

/// What is kept.
#[derive(Drop)]
struct Kept {
    /// What was found in the attempt that goes on.
    found: Option<Found>,
    /// What was found in the last attempt that led to a round.
    last: Option<Found>,
    /// The last attempts.
    attempts: Attempts,
    /// Why workers ended.
    ends: EndCounts,
    /// How many workers ended since the last attempt was told.
    ended_since: u64,
    /// How many ended between that attempt and the one before.
    ended: u64,
}

/// What the page of a farm is made of, kept from attempt to attempt.
#[derive(Drop)]
pub struct PageNotes {
    kept: Mutex<Kept>,
}

/// Whether an attempt led to a round.
fn is_round(attempt: &Attempt) -> bool
    ensures { result ≡ rounds.is_round attempt.now }
{
    matches!(
        attempt,
        Attempt::Backlog { .. } | Attempt::Unserved { .. } | Attempt::NoPlan { .. }
    )
}

/// The backlog of an attempt, if it has one that can be drawn.
fn backlog_of(attempt: &Attempt) -> Option<u64>
    ensures { result ≡ spec.backlog_of attempt.now }
{
    match attempt {
        Attempt::Backlog { backlog, .. } => Some(*backlog),
        _ => None,
    }
}

/// What a page draws of an attempt in which this was found. Jobs wait also if there is no plan, or none that serves all of them.
fn attempt_view(attempt: &Attempt, found: &Option<Found>) -> AttemptView
    ensures { result ≡ spec.attempt_view attempt.now found.now }
{
    let waiting = match found {
        Some(found) if is_round(attempt) => Some(found.waiting_jobs),
        _ => None,
    };
    AttemptView {
        backlog: backlog_of(attempt),
        waiting,
    }
}

/// What an attempt without a status came to, for this reason, if this line of it could not be read.
fn no_status(why: String, line: Option<u32>) -> Result<Outcome, AllocError> {
    match line {
        Some(line) => Ok(Outcome::Unreadable { why, line }),
        None => Ok(Outcome::NoRound(why)),
    }
}

/// What an attempt came to, as a page shows it. The only error is out of memory.
fn outcome_of(alloc: Global, attempt: &Attempt) -> Result<Outcome, AllocError> {
    match attempt {
        Attempt::Backlog { backlog, .. } => Ok(Outcome::Backlog(*backlog)),
        Attempt::Unserved { waiting, .. } => Ok(Outcome::Unserved(*waiting)),
        Attempt::NoPlan { .. } => Ok(Outcome::NoPlan),
        Attempt::Status(error) => no_status(attempt_words(alloc, attempt)?, error.line()),
        Attempt::NoLink | Attempt::Refused(_) | Attempt::Memory => Ok(Outcome::NoRound(
            attempt_words(alloc, attempt)?,
        )),
    }
}

/// The greatest number of workers of a function, if the settings bound it.
fn most_of(settings: &Settings, function: FuncId) -> Option<u32> {
    match settings.most_numbers().get(function.number() as usize) {
        Some(most) if *most < settings.slots() => Some(*most),
        _ => None,
    }
}

/// The evidence of what was found, if anything was. The only error is out of memory.
fn evidence_shown(alloc: Global, found: &Option<Found>) -> Result<Option<Evidence>, AllocError>
    ensures same { IfOk result (spec.ShowsEvidence found.now) }
    ensures answers { IfOk result spec.ShowsAShownAnswer }
{
    match found {
        Some(found) => Ok(Some(found.evidence.copy(alloc)?)),
        None => Ok(None),
    }
}

/// Whether what was found is in force after an attempt: no later round took its place.
fn is_in_force(found: &Found, made: &Attempted<'_>) -> bool {
    found.is_of(made.number) || !is_round(made.attempt)
}

/// The plan that leaves out least numbers, if one was posted for what was found and is in force. The only error is out of memory.
fn relaxed_shown(
    alloc: Global,
    found: &Option<Found>,
    made: &Attempted<'_>,
) -> Result<Option<RelaxedPlan>, AllocError>
    ensures { IfOk result ShowsARelaxedPlan }
{
    let relaxed = match found {
        Some(found) if is_in_force(found, made) => &found.relaxed,
        _ => return Ok(None),
    };
    match relaxed {
        Some(relaxed) => Ok(Some(relaxed.copy(alloc)?)),
        None => Ok(None),
    }
}

/// The text of the size of what was found last. The only error is out of memory.
fn size_shown(
    alloc: Global,
    found: &Option<Found>,
    known: &Known<'_>,
) -> Result<SizeView, AllocError> {
    if !known.wants_backlog {
        return Ok(SizeView::NotAsked);
    }
    let Some(found) = found else {
        return Ok(SizeView::NoRound);
    };
    match &found.size {
        Some(size) => Ok(SizeView::Text {
            attempt: found.evidence.attempt(),
            text: Vec::from_slice(alloc, size.text())?,
        }),
        None => Ok(SizeView::NoMemory),
    }
}

/// How many workers are missing on all machines together.
fn all_missing(missing: &ByMachine) -> u64 {
    let mut workers = 0u64;
    for number in missing.numbers() {
        workers = workers.saturating_add(u64::from(*number));
    }
    workers
}

/// The name of the function that shows that no addition helps. The only error is out of memory.
fn shown_by(alloc: Global, settings: &Settings, obstacle: Obstacle) -> Result<String, AllocError> {
    let function = match obstacle {
        Obstacle::AboveMost { function, .. } | Obstacle::NoMachine { function, .. } => function,
    };
    if function.number() < settings.functions() {
        String::from_str(alloc, settings.function_name(function))
    } else {
        Ok(String::new(alloc))
    }
}

/// How many workers are missing, as a page shows it. The only error is out of memory.
fn missing_view(
    alloc: Global,
    settings: &Settings,
    size: &LiveSize,
) -> Result<MissingView, AllocError> {
    match size.missing() {
        Missing::Workers(numbers) => Ok(MissingView::Workers(all_missing(numbers))),
        Missing::Never(obstacle) => {
            Ok(MissingView::Never(shown_by(alloc, settings, *obstacle)?))
        }
        Missing::TooMany(workers) => Ok(MissingView::TooMany(*workers)),
    }
}

/// The names of machines of the settings. The only error is out of memory.
fn machine_names(
    alloc: Global,
    settings: &Settings,
    machines: &[MachineId],
) -> Result<Vec<String>, AllocError> {
    let mut names = Vec::new(alloc);
    for machine in machines {
        names.push(String::from_str(alloc, settings.machine_name(*machine))?)?;
    }
    Ok(names)
}

/// By function, how many workers a plan that is in force gives it.
fn planned_workers(found: &Found) -> &[u32] {
    match &found.relaxed {
        Some(relaxed) => relaxed.workers(),
        None => &found.workers,
    }
}

/// The same shortage again. The only error is out of memory.
fn copy_shortage(shortage: &Option<Shortage>) -> Result<Option<Shortage>, AllocError> {
    let Some(shortage) = shortage else {
        return Ok(None);
    };
    Ok(Some(Shortage {
        functions: shortage.functions.clone()?,
        need: shortage.need,
        have: shortage.have,
    }))
}

/// What a page shows of a cause for which workers ended.
fn end_view(alloc: Global, cause: EndCause, count: u64) -> Result<EndView, AllocError> {
    Ok(EndView {
        cause: String::from_str(alloc, cause.label().name())?,
        count,
    })
}

impl Kept {
    /// Keeps what an attempt came to. The only error is out of memory.
    fn note(&mut self, made: &Attempted<'_>) -> Result<(), AllocError>
        ensures last { self.new.last
            ≡ spec.last_found (rounds.is_round made.now.attempt.now) made.now.number self.old.found self.old.last }
        ensures found { self.new.found ≡ None }
        ensures drawn { OnOk result (self.new.attempts
            ≡ last_of 600 (self.old.attempts ++ spec.attempt_view made.now.attempt.now self.old.found ∷ [])) }
        ensures kept { OnErr result (self.new.attempts ≡ self.old.attempts) }
    {
        self.ended = self.ended_since;
        self.ended_since = 0;
        let drawn = attempt_view(made.attempt, &self.found);
        let found = self.found.take();
        if is_round(made.attempt) {
            if let Some(found) = found {
                self.last = Some(found.numbered(made.number));
            }
        }
        self.attempts.add(drawn)
    }

    /// How many jobs wait for a function, and how many workers it has, if this was found in the attempt of this number.
    fn numbers(&self, attempt: u32, function: FuncId) -> (Option<u32>, Option<u32>) {
        let place = function.number() as usize;
        match &self.last {
            Some(found) if found.is_of(attempt) => (
                found.waiting.get(place).copied(),
                planned_workers(found).get(place).copied(),
            ),
            _ => (None, None),
        }
    }

    /// How many workers of a machine are alive, if this was found in the attempt of this number.
    fn alive(&self, attempt: u32, machine: MachineId) -> Option<u32> {
        match &self.last {
            Some(found) if found.is_of(attempt) => {
                found.alive.get(machine.number() as usize).copied()
            }
            _ => None,
        }
    }

    /// What a page shows of a function.
    fn function(
        &self,
        alloc: Global,
        made: &Attempted<'_>,
        function: FuncId,
        jobs: Option<FunctionJobs>,
    ) -> Result<FunctionView, AllocError>
        requires function { function < length made.now.settings.now.functions }
    {
        let settings = made.settings;
        let (waiting, workers) = self.numbers(made.number, function);
        Ok(FunctionView {
            name: String::from_str(alloc, settings.function_name(function))?,
            waiting,
            running: jobs.map(|jobs| jobs.running),
            workers,
            least: settings.least(function),
            most: most_of(settings, function),
            jobs: jobs.map(|jobs| jobs.ends),
        })
    }

    /// What a page shows of the functions.
    fn functions(
        &self,
        alloc: Global,
        made: &Attempted<'_>,
        known: &Known<'_>,
    ) -> Result<Vec<FunctionView>, AllocError> {
        let mut functions = Vec::new(alloc);
        for number in 0..made.settings.functions() {
            let jobs = known.jobs.get(number as usize).copied();
            functions.push(self.function(alloc, made, FuncId::new(number), jobs)?)?;
        }
        Ok(functions)
    }

    /// The size that was found in the attempt of this number.
    fn size(&self, attempt: u32) -> Option<&LiveSize> {
        match &self.last {
            Some(found) if found.is_of(attempt) => found.size.as_ref(),
            _ => None,
        }
    }

    /// How many workers are missing on a machine, if this was found in the attempt of this number.
    fn missing_on(&self, attempt: u32, machine: MachineId) -> Option<u32> {
        match self.size(attempt)?.missing() {
            Missing::Workers(numbers) => Some(numbers.on(machine)),
            Missing::Never(_) | Missing::TooMany(_) => None,
        }
    }

    /// How many workers are missing at an attempt. The only error is out of memory.
    fn missing(
        &self,
        alloc: Global,
        made: &Attempted<'_>,
        known: &Known<'_>,
    ) -> Result<MissingView, AllocError> {
        if !known.wants_backlog {
            return Ok(MissingView::NotAsked);
        }
        match self.size(made.number) {
            Some(size) => missing_view(alloc, made.settings, size),
            None if is_round(made.attempt) => Ok(MissingView::NoMemory),
            None => Ok(MissingView::NoLoad),
        }
    }

    /// Takes the farm of the last round, whose size is not found yet.
    fn take_posed(&mut self) -> Option<PosedSize> {
        self.last.as_mut()?.posed.take()
    }

    /// Keeps the size of the last round.
    fn keep_size(&mut self, size: Option<LiveSize>) {
        if let Some(found) = &mut self.last {
            if size.is_some() {
                found.size = size;
            }
        }
    }

    /// What a page shows of a machine.
    fn host(
        &self,
        alloc: Global,
        made: &Attempted<'_>,
        machine: MachineId,
        unreached: Option<&'static str>,
    ) -> Result<HostView, AllocError>
        requires machine { machine < length made.now.settings.now.machines }
    {
        let settings = made.settings;
        let unreached = match unreached {
            Some(why) => Some(String::from_str(alloc, why)?),
            None => None,
        };
        Ok(HostView {
            name: String::from_str(alloc, settings.machine_name(machine))?,
            alive: self.alive(made.number, machine),
            all: settings.workers(machine),
            unreached,
            missing: self.missing_on(made.number, machine),
        })
    }

    /// What a page shows of the machines.
    fn hosts(
        &self,
        alloc: Global,
        made: &Attempted<'_>,
        known: &Known<'_>,
    ) -> Result<Vec<HostView>, AllocError> {
        let mut hosts = Vec::new(alloc);
        for number in 0..made.settings.machines() {
            let unreached = known.unreached.get(number as usize).copied().flatten();
            hosts.push(self.host(alloc, made, MachineId::new(number), unreached)?)?;
        }
        Ok(hosts)
    }

    /// What a page shows of the causes for which workers end: of each, so that a count that rises was there as 0.
    fn ends(&self, alloc: Global) -> Result<Vec<EndView>, AllocError> {
        let mut ends = Vec::new(alloc);
        for (cause, count) in self.ends.each() {
            ends.push(end_view(alloc, cause, count)?)?;
        }
        Ok(ends)
    }

    /// A worker ended for this cause.
    fn end(&mut self, cause: EndCause) {
        self.ends.count(cause);
        self.ended_since = self.ended_since.saturating_add(1);
    }

    /// What was found has no plan, and this one was posted instead.
    fn relax(&mut self, relaxed: Option<KeptRelaxed>) {
        if let Some(found) = &mut self.found {
            found.relaxed = relaxed;
        }
    }

    /// What a page shows after an attempt.
    fn view(
        &self,
        alloc: Global,
        made: &Attempted<'_>,
        known: &Known<'_>,
    ) -> Result<FarmView, AllocError>
        ensures evidence { IfOk result (λ view. spec.ShowsEvidence self.now.last view.evidence) }
        ensures answers { IfOk result (λ view. spec.ShowsAShownAnswer view.evidence) }
        ensures relaxed { IfOk result (λ view. ShowsARelaxedPlan view.relaxed) }
        ensures attempt { IfOk result (λ view. view.attempt ≡ made.now.number) }
        ensures drawn { IfOk result (λ view. view.attempts ≡ self.now.attempts) }
    {
        let settings = made.settings;
        let evidence = evidence_shown(alloc, &self.last)?;
        let shortage = match &self.last {
            Some(found) if found.is_of(made.number) => copy_shortage(&found.shortage)?,
            _ => None,
        };
        Ok(FarmView {
            server: String::from_str(alloc, settings.server())?,
            time: None,
            attempt: made.number,
            outcome: outcome_of(alloc, made.attempt)?,
            shortage,
            workers: Workers {
                alive: made.alive,
                all: settings.slots(),
            },
            turnover: Turnover {
                alive_before: made.alive_before,
                ended: self.ended,
                most_used: made.most_used,
            },
            again: known.again,
            without_room: machine_names(alloc, settings, known.without_room)?,
            functions: self.functions(alloc, made, known)?,
            hosts: self.hosts(alloc, made, known)?,
            ends: self.ends(alloc)?,
            failures: known.failures.copy()?,
            evidence,
            relaxed: relaxed_shown(alloc, &self.last, made)?,
            missing: self.missing(alloc, made, known)?,
            size: size_shown(alloc, &self.last, known)?,
            attempts: self.attempts.copy()?,
        })
    }
}

impl PageNotes {
    /// Those of a farm before its first attempt.
    pub fn new(alloc: Global) -> PageNotes {
        PageNotes {
            kept: Mutex::new(Kept {
                found: None,
                last: None,
                attempts: Attempts::new(alloc),
                ends: EndCounts::none(),
                ended_since: 0,
                ended: 0,
            }),
        }
    }

    /// An answer was found, and this backlog is wanted, if one is. If there is no memory for what a page shows of it, the page goes on to
    /// show the answer before.
    pub fn planned<R: Wait>(
        &self,
        rt: &R,
        alloc: Global,
        settings: &Settings,
        certified: &Certified,
        wanted: Option<Wanted<'_>>,
    )
        requires of_these { IsMadeOf settings.now certified.now.input }
    {
        let found = Found::of(alloc, settings, certified, wanted).ok();
        self.kept.lock(rt).found = found;
    }

    /// The round of the answer that was found last has no plan, and this plan, which leaves out some least numbers, was posted instead. If
    /// there is no memory for what a page shows of it, it is not shown. The next round drops it.
    pub fn relaxed<R: Wait>(&self, rt: &R, alloc: Global, settings: &Settings, relaxed: &Relaxed)
        requires of_these { IsLetOffOf settings.now relaxed.now.let_off relaxed.now.certified.input }
    {
        let kept = KeptRelaxed::of(alloc, settings, relaxed).ok();
        self.kept.lock(rt).relax(kept);
    }

    /// A worker ended for this cause.
    pub fn ended<R: Wait>(&self, rt: &R, cause: EndCause) {
        self.kept.lock(rt).end(cause);
    }

    /// What a page shows after an attempt. If it has evidence, that is of an answer that is shown for its input, whole; and so is a
    /// plan that leaves out least numbers. Its time is left open. The size of the attempt is found here, and while nobody waits for
    /// the notes. The only error is out of memory.
    pub fn view<R: Wait>(
        &self,
        rt: &R,
        alloc: Global,
        made: &Attempted<'_>,
        known: &Known<'_>,
    ) -> Result<FarmView, AllocError>
        ensures answers { IfOk result (λ view. spec.ShowsAShownAnswer view.evidence) }
        ensures relaxed { IfOk result (λ view. ShowsARelaxedPlan view.relaxed) }
        ensures attempt { IfOk result (λ view. view.attempt ≡ made.now.number) }
    {
        let posed = self.note(rt, made)?;
        let size = posed.and_then(|posed| posed.size(alloc).ok());
        let mut held = self.kept.lock(rt);
        held.keep_size(size);
        held.view(alloc, made, known)
    }

    /// Keeps what an attempt came to, and takes the farm whose size is to be found. The only error is out of memory.
    fn note<R: Wait>(&self, rt: &R, made: &Attempted<'_>) -> Result<Option<PosedSize>, AllocError> {
        let mut held = self.kept.lock(rt);
        held.note(made)?;
        Ok(held.take_posed())
    }
}
