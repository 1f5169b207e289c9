//! The command `serve` as a call over the texts of settings and services and a host: a farm, whose hosts do its jobs.
#![tactic(auto)]

mod addresses;
mod books;
mod farm;
mod farm_jobs;
mod host;
mod job_lines;
mod last_jobs;
mod left_out;
mod line_queue;
mod manager;
mod page_door;
mod reporting;
mod serving;
mod signals;
mod system;

pub use books::Books;
pub use farm::{Farm, FarmTexts};
pub use farm_jobs::{FarmJobs, FarmSource};
pub use host::FarmHost;
pub use job_lines::{Uncompleted, failure_line, lost_job, uncompleted_job, why_not_completed};
pub use last_jobs::{AnsweredJob, LastJobs};
pub use line_queue::{LineQueue, Taken, write_lines};
pub use manager::{FarmManager, Stage};
pub use page_door::PageDoor;
pub use page_server::{EndFlag, SharedPage, end_with_input, serve_page};
pub use reporting::Outlook;
pub use serving::{FarmEnd, run_farm, serve_farm};
pub use signals::{drain_at_signals, signals_line};
pub use system::{Edges, FarmSystem};
