//! The jobs that services of a farm left unserved lately, by whichever worker, and those of them that are held before they are given back.
#![tactic(auto)]

mod job;
mod table;
mod unread;

pub use job::{UnservedJob, hold_ms, is_left_too_often};
pub use table::UnservedJobs;
pub use unread::UnreadJobs;
