//! The pool that sessions share, and the port by which each of them reaches it.
//!
//! The pool lies under one lock, beside two books: how many jobs were grabbed, and how many were reported. A session holds a share
//! of each book, which rises with the book if one of its calls succeeds, and never else. So the amounts of all
//! shares add up to the totals of the pool, whatever the threads do.
#![tactic(auto)]

mod asking;
mod attempt;
mod attempts;
mod booked;
mod calls;
mod crew;
mod dial;
mod ended;
mod ends;
mod filling;
mod job_counts;
mod jobs;
mod news;
mod place;
mod planner;
mod port;
mod posting;
mod queue;
mod round;
mod run;
mod run_end;
mod session;
mod shared;
mod steps;

pub use attempt::{Attempt, PoolRefusal, attempt_line, attempt_words};
pub use attempts::Until;
pub use booked::Booked;
pub use calls::{Call, Calls};
pub use dial::Dial;
pub use ends::EndCounts;
pub use job_counts::JobCounts;
pub use jobs::{JobSource, sessions_have_named_jobs};
pub use news::{Attempted, EndedWorker, JoinedWorker, Progress};
pub use place::{Grabs, Place, Reports, RoundsOf, RunBoard, RunId, RunLedger, RunRounds};
pub use planner::{ArenaPlanner, Planner};
pub use port::{SharedPort, Watch};
pub use posting::{publish, publish_by};
pub use queue::Queue;
pub use run::{run_pool, run_sessions, run_until_ended};
pub use run_end::RunEnd;
pub use session::{Enrolled, Lent, Papers, Returned, Site, run_worker};
pub use shared::Shared;
