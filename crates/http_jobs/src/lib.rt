//! Jobs that a service does over HTTP: one request and one response for each, over a connection that is kept.
#![tactic(auto)]

mod answers;
mod clock;
mod exchanging;
mod fault;
mod last_address;
mod look;
mod outcome;
mod posts;
mod reader;
mod request;
mod sending;
mod service;
mod service_jobs;
mod tcp;
mod values;

pub use answers::{Answer, Bounds, Received, ask};
pub use clock::Clock;
pub use devices::DialError;
pub use exchanging::{Done, Sending, exchange};
pub use fault::{Came, NotDone, Unanswered, Unserved, dial_words};
pub use last_address::LastAddress;
pub use look::Look;
pub use outcome::{Failure, Reply, left_too_often};
pub use posts::Post;
pub use request::Attempt;
pub use service::{Service, ServiceError};
pub use service_jobs::{Dial, JobTerms, Resend, ServiceJobs, try_dial};
pub use tcp::{CallTimes, SystemClock, TcpDial};
