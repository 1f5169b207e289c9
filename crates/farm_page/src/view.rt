//! What a page shows of a farm.

ghost use Rattle.std.specs.Prelude.{◌≡◌};
ghost use Rattle.farm_page.specs.View.{has_plan};

use crate::attempts::Attempts;
use crate::failures::Failures;

/// What an attempt to plan came to.
#[derive(Drop)]
pub enum Outcome {
    /// A plan under which so many jobs wait for each worker of a function at most.
    Backlog(u64),
    /// A plan, but jobs wait for a function that some worker alive may do and none does: so many for the one that has the most.
    Unserved(u64),
    /// No plan meets the least and greatest numbers of workers.
    NoPlan,
    /// No round was made, since a line of the job server's status text cannot be read.
    Unreadable {
        /// Why, as the line of the attempt says it.
        why: String,
        /// The number of that line, from 1.
        line: u32,
    },
    /// No round was made, for another reason. The words say why, as the line of the attempt does.
    NoRound(String),
}

impl Outcome {
    /// Whether it is a plan.
    pub fn has_plan(&self) -> bool
        ensures { result ≡ has_plan self.now }
    {
        matches!(self, Outcome::Backlog(_) | Outcome::Unserved(_))
    }
}

/// How many workers are missing, so that no more jobs wait for each worker of a function than the services file wants.
#[derive(Drop)]
pub enum MissingView {
    /// The services file wants no backlog.
    NotAsked,
    /// The attempt read no load.
    NoLoad,
    /// There was no memory for it.
    NoMemory,
    /// So many workers, on all hosts together. Each host has its number.
    Workers(u64),
    /// No addition of workers helps, as the function of this name shows.
    Never(String),
    /// So many workers at least, and with those of the settings they are more than 4,096.
    TooMany(u64),
}

/// The text of a size, of an attempt.
#[derive(Drop)]
pub enum SizeView {
    /// The services file wants no backlog.
    NotAsked,
    /// There was no round yet.
    NoRound,
    /// There was no memory for it.
    NoMemory,
    /// This text.
    Text {
        /// The number of its attempt.
        attempt: u32,
        /// The text, as `poolman size` writes it.
        text: Vec<u8>,
    },
}

/// What a page draws of an attempt.
#[derive(Clone, Copy)]
pub struct AttemptView {
    /// So many jobs wait for each worker of a function at most. None if the attempt led to no plan, or to one under which jobs wait for a
    /// function that no worker does.
    pub backlog: Option<u64>,
    /// So many jobs wait, for all functions of the settings together. None if the attempt led to no round.
    pub waiting: Option<u64>,
}

/// How many workers there are.
#[derive(Clone, Copy)]
pub struct Workers {
    /// Those alive.
    pub alive: u32,
    /// Those of the settings.
    pub all: u32,
}

/// How workers come and go.
#[derive(Clone, Copy)]
pub struct Turnover {
    /// Workers that were alive when the attempt began, before it started new ones.
    pub alive_before: u32,
    /// Workers that ended since the attempt before.
    pub ended: u64,
    /// The most workers that one slot has had so far.
    pub most_used: u32,
}

/// Jobs that services leave, and that come again.
#[derive(Clone, Copy, Debug, PartialEq, Eq)]
pub struct JobsAgain {
    /// How often the job that was left most often was left lately. 0 if none came again.
    pub times: u32,
    /// How many workers' connections are held with such a job now.
    pub held: u32,
}

/// What became of the jobs of a function since the farm began.
#[derive(Clone, Copy)]
pub struct JobEnds {
    /// Jobs that were answered with a result.
    pub completed: u64,
    /// Jobs that were answered with a failure.
    pub failed: u64,
    /// Jobs whose worker ended without an answer.
    pub lost: u64,
}

/// A function of the settings.
#[derive(Drop)]
pub struct FunctionView {
    /// Its name.
    pub name: String,
    /// Jobs that wait for a worker, as the job server counts them. None if the attempt had no status of the job server.
    pub waiting: Option<u32>,
    /// Jobs that a worker of the farm has. None if that is not counted.
    pub running: Option<u32>,
    /// How many workers do it. None if the attempt had no plan of them.
    pub workers: Option<u32>,
    /// How many workers are to do it at least.
    pub least: u32,
    /// How many may do it at most. None if any number may.
    pub most: Option<u32>,
    /// What became of its jobs. None if that is not counted.
    pub jobs: Option<JobEnds>,
}

/// A machine of the settings: the host of a service.
#[derive(Drop)]
pub struct HostView {
    /// Its name.
    pub name: String,
    /// How many of its workers are alive. None if the attempt did not count them.
    pub alive: Option<u32>,
    /// How many workers it has by the settings.
    pub all: u32,
    /// Why it is not reached. None if it is.
    pub unreached: Option<String>,
    /// How many workers are missing on it. None if that is not known.
    pub missing: Option<u32>,
}

/// A cause for which workers end.
#[derive(Drop)]
pub struct EndView {
    /// The cause's name.
    pub cause: String,
    /// How many workers ended for it since the farm began.
    pub count: u64,
}

/// How a job ended that was not completed.
#[derive(Clone, Drop)]
pub enum FailureEnd {
    /// The job server was told that it failed.
    Failed,
    /// The same, and its service said this of it.
    Said(String),
    /// It was not answered, for this reason, and the job server gives it to another worker.
    Lost(String),
}

/// A job that was not completed. Its names are shown as they are, so whoever makes one makes words of bytes that are no text.
#[derive(Clone, Drop)]
pub struct FailureView {
    /// When it ended, as RFC 3339 writes it, and `-` if the clock could not be read.
    pub time: String,
    /// Its handle.
    pub handle: String,
    /// Its unique id.
    pub unique: String,
    /// Its function.
    pub function: String,
    /// The worker that had it, as `north/0#3`.
    pub worker: String,
    /// How it ended.
    pub end: FailureEnd,
}

/// Functions that are short of workers: what shows that there is no plan, or none with a smaller backlog.
#[derive(Drop)]
pub struct Shortage {
    /// The functions' names.
    pub functions: Vec<String>,
    /// How many workers they would need. None if no number of the workers alive would do.
    pub need: Option<u64>,
    /// How many workers alive may do any of them.
    pub have: u64,
}

/// A plan that is in force though no plan meets all least numbers: it leaves out those of functions that are short of workers.
#[derive(Drop)]
pub struct RelaxedPlan {
    /// The names of these functions.
    pub let_off: Vec<String>,
    /// A settings file in which their least numbers are 0. With it, and with the status text and the lost workers of the evidence, the
    /// report can be checked.
    pub settings: Vec<u8>,
    /// The report of the plan, whole.
    pub report: Vec<u8>,
}

/// All that a plan can be checked with, beside the settings. Its parts are of one attempt.
#[derive(Drop)]
pub struct Evidence {
    /// The attempt's number.
    pub attempt: u32,
    /// The report of what the planner answered, whole.
    pub report: Vec<u8>,
    /// The status text of the job server that it was made for, to the end of its line `.`.
    pub status: Vec<u8>,
    /// The workers that were not alive, as `north/0`.
    pub lost: Vec<String>,
}

/// A farm after one of its attempts to plan.
#[derive(Drop)]
pub struct FarmView {
    /// The job server's address.
    pub server: String,
    /// When the attempt ended, as RFC 3339 writes it. None if the clock could not be read.
    pub time: Option<String>,
    /// The attempt's number, from 1; 0 before the first.
    pub attempt: u32,
    /// What it came to.
    pub outcome: Outcome,
    /// What shows that no plan is better. None if nothing was to be shown.
    pub shortage: Option<Shortage>,
    /// The workers of the farm.
    pub workers: Workers,
    /// How they come and go.
    pub turnover: Turnover,
    /// The jobs that come again.
    pub again: JobsAgain,
    /// The names of the machines that have no worker for want of files or threads.
    pub without_room: Vec<String>,
    /// The functions, in the order of the settings.
    pub functions: Vec<FunctionView>,
    /// The hosts, in the order of the settings.
    pub hosts: Vec<HostView>,
    /// Why workers ended, with the causes of no end.
    pub ends: Vec<EndView>,
    /// The last jobs that were not completed.
    pub failures: Failures,
    /// The evidence of the last attempt that had any.
    pub evidence: Option<Evidence>,
    /// The plan of that attempt that is in force in place of one that meets all least numbers, if there is none of these.
    pub relaxed: Option<RelaxedPlan>,
    /// How many workers are missing at this attempt.
    pub missing: MissingView,
    /// The text of the size of the attempt that the evidence is of.
    pub size: SizeView,
    /// The last attempts, this one last.
    pub attempts: Attempts,
}
