//! The books of a farm.

use crate::farm::Farm;
use crate::last_jobs::LastJobs;
use farm_hosts::{FileRoom, Hosts, ThreadRoom};
use farm_notes::Tally;
use std::sync::Mutex;
use unserved_jobs::{UnreadJobs, UnservedJobs};

/// What is kept of a farm while it runs.
#[derive(Clone, Copy)]
pub struct Books<'e> {
    /// The farm.
    pub farm: &'e Farm,
    /// Which hosts are reached.
    pub hosts: &'e Hosts,
    /// The jobs that services left unserved lately, and which workers hold one.
    pub unserved: &'e Mutex<UnservedJobs>,
    /// The workers that met a job that is too large to be read, and how many of their links are held.
    pub unread: &'e Mutex<UnreadJobs>,
    /// What became of the jobs.
    pub tally: &'e Tally,
    /// The job that each worker did last.
    pub last_jobs: &'e LastJobs,
    /// Whether there are files for more workers.
    pub files: &'e FileRoom,
    /// Whether there are threads for more workers.
    pub threads: &'e ThreadRoom,
}
