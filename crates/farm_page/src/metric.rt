//! The metrics of a farm: a row for each. `/metrics`, the definitions of `specs/` and the docs take names and meanings from these rows.

ghost use Rattle.std.specs.Prelude.{◌≡◌};
ghost use Rattle.farm_page.specs.Metric as spec;

use crate::measured::{FarmNumber, FunctionNumber, HostNumber};

/// How a metric changes.
#[derive(Clone, Copy)]
pub enum MetricKind {
    /// It only rises while the farm goes on.
    Counter,
    /// It rises and falls.
    Gauge,
}

impl MetricKind {
    /// The kind, as the text format of Prometheus names it.
    pub fn name(self) -> &'static str
        ensures { result.now ≡ spec.kind_name self }
    {
        match self {
            MetricKind::Counter => "counter",
            MetricKind::Gauge => "gauge",
        }
    }
}

/// What a metric has samples of, and which number a sample shows.
#[derive(Clone, Copy)]
pub enum Value {
    /// The farm: one sample, and no metric if it has no value now.
    Farm(FarmNumber),
    /// Each function of which the number is known.
    Function(FunctionNumber),
    /// Each host of which the number is known.
    Host(HostNumber),
    /// Each cause for which workers end: how many ended for it.
    Cause,
}

impl Value {
    /// The label that names what a sample is of. Empty if there is one sample, which has no label.
    pub fn label(self) -> &'static str
        ensures { result.now ≡ spec.label self }
    {
        match self {
            Value::Farm(_) => "",
            Value::Function(_) => "function",
            Value::Host(_) => "host",
            Value::Cause => "cause",
        }
    }
}

/// The row of a metric. `T` is how its words are held: a constant has a name in `specs/` only if no struct in it has a reference.
#[derive(Clone, Copy)]
pub struct Row<T> {
    /// Its name: with its unit, and `_total` at the end for a counter.
    pub name: T,
    /// How it changes.
    pub kind: MetricKind,
    /// What its samples show.
    pub value: Value,
    /// What it means.
    pub help: T,
}

/// A metric.
pub type Metric = Row<&'static str>;

/// All metrics, in the order in which they are told.
pub static METRICS: [Metric; 27] = [
    Row {
        name: "poolman_attempts_total",
        kind: MetricKind::Counter,
        value: Value::Farm(FarmNumber::Attempts),
        help: "Attempts to plan.",
    },
    Row {
        name: "poolman_has_plan",
        kind: MetricKind::Gauge,
        value: Value::Farm(FarmNumber::HasPlan),
        help: "1 if the last attempt led to a plan, else 0.",
    },
    Row {
        name: "poolman_backlog_jobs",
        kind: MetricKind::Gauge,
        value: Value::Farm(FarmNumber::Backlog),
        help: "Waiting jobs per worker, of the function for which that is greatest.",
    },
    Row {
        name: "poolman_unserved_jobs",
        kind: MetricKind::Gauge,
        value: Value::Farm(FarmNumber::Unserved),
        help: "Jobs of the longest queue that workers alive may serve and none does.",
    },
    Row {
        name: "poolman_is_late",
        kind: MetricKind::Gauge,
        value: Value::Farm(FarmNumber::IsLate),
        help: "1 if the farm goes on and its last attempt is older than three rounds, else 0.",
    },
    Row {
        name: "poolman_is_ending",
        kind: MetricKind::Gauge,
        value: Value::Farm(FarmNumber::IsEnding),
        help: "1 if the farm is to end, else 0.",
    },
    Row {
        name: "poolman_alive_workers",
        kind: MetricKind::Gauge,
        value: Value::Farm(FarmNumber::AliveWorkers),
        help: "Workers alive.",
    },
    Row {
        name: "poolman_alive_before_workers",
        kind: MetricKind::Gauge,
        value: Value::Farm(FarmNumber::AliveBefore),
        help: "Workers that were alive before the last attempt started new ones.",
    },
    Row {
        name: "poolman_workers",
        kind: MetricKind::Gauge,
        value: Value::Farm(FarmNumber::Workers),
        help: "Workers of the settings.",
    },
    Row {
        name: "poolman_slot_workers",
        kind: MetricKind::Gauge,
        value: Value::Farm(FarmNumber::SlotWorkers),
        help: "Workers that the most used slot has had, of 262143.",
    },
    Row {
        name: "poolman_again_times",
        kind: MetricKind::Gauge,
        value: Value::Farm(FarmNumber::AgainTimes),
        help: "How often the job that was left most often was left lately, 0 if none comes again.",
    },
    Row {
        name: "poolman_held_connections",
        kind: MetricKind::Gauge,
        value: Value::Farm(FarmNumber::HeldConnections),
        help: "Connections of workers that hold a job that comes again.",
    },
    Row {
        name: "poolman_let_off_functions",
        kind: MetricKind::Gauge,
        value: Value::Farm(FarmNumber::LetOff),
        help: "Functions short of workers, whose least numbers the plan in force leaves out.",
    },
    Row {
        name: "poolman_size_found",
        kind: MetricKind::Gauge,
        value: Value::Farm(FarmNumber::SizeFound),
        help: "1 if an addition of workers, also of none, reaches the wanted backlog, 0 if none does.",
    },
    Row {
        name: "poolman_function_waiting_jobs",
        kind: MetricKind::Gauge,
        value: Value::Function(FunctionNumber::Waiting),
        help: "Jobs that wait for a worker.",
    },
    Row {
        name: "poolman_function_running_jobs",
        kind: MetricKind::Gauge,
        value: Value::Function(FunctionNumber::Running),
        help: "Jobs that a worker has.",
    },
    Row {
        name: "poolman_function_workers",
        kind: MetricKind::Gauge,
        value: Value::Function(FunctionNumber::Workers),
        help: "Workers that do the function.",
    },
    Row {
        name: "poolman_function_least_workers",
        kind: MetricKind::Gauge,
        value: Value::Function(FunctionNumber::Least),
        help: "Workers that are to do the function at least.",
    },
    Row {
        name: "poolman_function_most_workers",
        kind: MetricKind::Gauge,
        value: Value::Function(FunctionNumber::Most),
        help: "Workers that may do the function at most.",
    },
    Row {
        name: "poolman_function_completed_jobs_total",
        kind: MetricKind::Counter,
        value: Value::Function(FunctionNumber::Completed),
        help: "Jobs that were answered with a result.",
    },
    Row {
        name: "poolman_function_failed_jobs_total",
        kind: MetricKind::Counter,
        value: Value::Function(FunctionNumber::Failed),
        help: "Jobs that were answered with a failure.",
    },
    Row {
        name: "poolman_function_lost_jobs_total",
        kind: MetricKind::Counter,
        value: Value::Function(FunctionNumber::Lost),
        help: "Jobs whose worker ended without an answer.",
    },
    Row {
        name: "poolman_host_reached",
        kind: MetricKind::Gauge,
        value: Value::Host(HostNumber::Reached),
        help: "1 if the host is reached, else 0.",
    },
    Row {
        name: "poolman_host_alive_workers",
        kind: MetricKind::Gauge,
        value: Value::Host(HostNumber::Alive),
        help: "Workers of the host that are alive.",
    },
    Row {
        name: "poolman_host_workers",
        kind: MetricKind::Gauge,
        value: Value::Host(HostNumber::Workers),
        help: "Workers of the host by the settings.",
    },
    Row {
        name: "poolman_missing_workers",
        kind: MetricKind::Gauge,
        value: Value::Host(HostNumber::Missing),
        help: "Workers to add to the host for the wanted backlog.",
    },
    Row {
        name: "poolman_ended_workers_total",
        kind: MetricKind::Counter,
        value: Value::Cause,
        help: "Workers that ended, by cause.",
    },
];
