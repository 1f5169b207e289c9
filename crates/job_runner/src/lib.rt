//! A worker's session: it takes jobs from the job server over a link, runs them, and answers them, as the pool orders.
#![tactic(auto)]

mod answering;
mod end;
mod job;
mod jobs;
mod listen;
mod messages;
mod order;
mod port;
mod reply;
mod sending;
mod session;
mod state;
mod table;
mod worker;

pub use end::{EndCause, SessionEnd};
pub use job::{End, Job, Note, Outcome};
pub use jobs::{Jobs, NotDone, Readiness};
pub use port::{Gone, GrabRefusal, PoolPort, PortAnswer};
pub use session::{run_session, serve_worker};
pub use table::{JobTable, NamedJobs, TwiceNamed};
pub use worker::Workplace;
