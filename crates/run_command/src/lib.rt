//! The command `run` as a call over a settings text, a host and a sink, with the jobs that its workers can do.
#![tactic(auto)]

mod host;
mod running;
mod system;
mod text;
mod text_link;
mod watching;

pub use host::{Host, Route, status_ms, text_ms, write_ms};
pub use pool_supervisor::{Attempt, Attempted, EndedWorker, JoinedWorker, Progress, RunEnd, Watch};
pub use running::{run_jobs, run_rounds, run_source};
pub use stock_jobs::{StockJob, stock_jobs};
pub use system::{System, gave_no_status, time_in_seconds};
pub use text_link::TextLink;
pub use watching::{attempt_told, end_notes};
