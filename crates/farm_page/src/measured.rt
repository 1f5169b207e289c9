//! What is measured of a farm, of a function and of a host.

ghost use Rattle.std.specs.Prelude.{◌≡◌};
ghost use Rattle.farm_page.specs.Measured as spec;

use crate::health::Moment;
use crate::view::{FarmView, FunctionView, HostView, MissingView, Outcome};

/// A number of a farm.
#[derive(Clone, Copy)]
pub enum FarmNumber {
    /// Attempts that were made.
    Attempts,
    /// Whether the last attempt led to a plan.
    HasPlan,
    /// The backlog.
    Backlog,
    /// Jobs that wait for a function that some worker alive may do and none does.
    Unserved,
    /// Whether the last attempt is late.
    IsLate,
    /// Whether the farm ends.
    IsEnding,
    /// Workers alive.
    AliveWorkers,
    /// Workers that were alive before the last attempt started new ones.
    AliveBefore,
    /// Workers of the settings.
    Workers,
    /// The most workers that one slot has had.
    SlotWorkers,
    /// How often the job that was left most often was left lately.
    AgainTimes,
    /// Connections that are held with a job that comes again.
    HeldConnections,
    /// Functions whose least numbers are left out.
    LetOff,
    /// Whether an addition of workers reaches the wanted backlog.
    SizeFound,
}

/// A number of a function.
#[derive(Clone, Copy)]
pub enum FunctionNumber {
    /// Its jobs that wait.
    Waiting,
    /// Its jobs that a worker has.
    Running,
    /// Its workers.
    Workers,
    /// Its least number of workers.
    Least,
    /// Its greatest number of workers.
    Most,
    /// Its jobs that were answered with a result.
    Completed,
    /// Its jobs that were answered with a failure.
    Failed,
    /// Its jobs that were lost.
    Lost,
}

/// A number of a host.
#[derive(Clone, Copy)]
pub enum HostNumber {
    /// Whether it is reached.
    Reached,
    /// Its workers alive.
    Alive,
    /// Its workers of the settings.
    Workers,
    /// Its workers that are missing.
    Missing,
}

/// Whether an addition of workers reaches the wanted backlog, also one of nobody. None if that is not known.
fn is_found(missing: &MissingView) -> Option<bool>
    ensures { result ≡ spec.is_found missing.now }
{
    match missing {
        MissingView::Workers(_) => Some(true),
        MissingView::Never(_) | MissingView::TooMany(_) => Some(false),
        MissingView::NotAsked | MissingView::NoLoad | MissingView::NoMemory => None,
    }
}

/// How many functions a plan in force leaves out of account.
fn let_off(view: &FarmView) -> u64
    ensures { result ≡ spec.let_off view.now }
{
    match &view.relaxed {
        Some(plan) => plan.let_off.len() as u64,
        None => 0,
    }
}

/// A number of the farm at a moment. None if it has no value now.
pub fn farm_value(view: &FarmView, moment: Moment, number: FarmNumber) -> Option<u64>
    ensures { result ≡ spec.farm_value view.now moment number }
{
    match (number, &view.outcome) {
        (FarmNumber::Attempts, _) => Some(u64::from(view.attempt)),
        (FarmNumber::HasPlan, outcome) => Some(u64::from(outcome.has_plan())),
        (FarmNumber::Backlog, Outcome::Backlog(jobs)) => Some(*jobs),
        (FarmNumber::Unserved, Outcome::Unserved(jobs)) => Some(*jobs),
        (FarmNumber::Unserved, Outcome::Backlog(_)) => Some(0),
        (FarmNumber::IsLate, _) => Some(u64::from(moment.is_late())),
        (FarmNumber::IsEnding, _) => Some(u64::from(moment.is_ending())),
        (FarmNumber::AliveWorkers, _) => Some(u64::from(view.workers.alive)),
        (FarmNumber::AliveBefore, _) => Some(u64::from(view.turnover.alive_before)),
        (FarmNumber::Workers, _) => Some(u64::from(view.workers.all)),
        (FarmNumber::SlotWorkers, _) => Some(u64::from(view.turnover.most_used)),
        (FarmNumber::AgainTimes, _) => Some(u64::from(view.again.times)),
        (FarmNumber::HeldConnections, _) => Some(u64::from(view.again.held)),
        (FarmNumber::LetOff, _) => Some(let_off(view)),
        (FarmNumber::SizeFound, _) => Some(u64::from(is_found(&view.missing)?)),
        _ => None,
    }
}

/// A number of a function. None if it is not known.
pub fn function_value(function: &FunctionView, number: FunctionNumber) -> Option<u64>
    ensures { result ≡ spec.function_value function.now number }
{
    match number {
        FunctionNumber::Waiting => Some(u64::from(function.waiting?)),
        FunctionNumber::Running => Some(u64::from(function.running?)),
        FunctionNumber::Workers => Some(u64::from(function.workers?)),
        FunctionNumber::Least => Some(u64::from(function.least)),
        FunctionNumber::Most => Some(u64::from(function.most?)),
        FunctionNumber::Completed => Some(function.jobs?.completed),
        FunctionNumber::Failed => Some(function.jobs?.failed),
        FunctionNumber::Lost => Some(function.jobs?.lost),
    }
}

/// A number of a host. None if it is not known.
pub fn host_value(host: &HostView, number: HostNumber) -> Option<u64>
    ensures { result ≡ spec.host_value host.now number }
{
    match number {
        HostNumber::Reached => Some(u64::from(host.unreached.is_none())),
        HostNumber::Alive => Some(u64::from(host.alive?)),
        HostNumber::Workers => Some(u64::from(host.all)),
        HostNumber::Missing => Some(u64::from(host.missing?)),
    }
}
