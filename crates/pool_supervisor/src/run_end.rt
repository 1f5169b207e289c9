//! What a run came to.
ghost use Rattle.std.specs.Prelude.{◌≡◌, ◌+◌};
ghost use Rattle.pool_supervisor.specs.JobCounts.{answered};

use crate::attempt::Attempt;
use crate::ends::EndCounts;
use crate::job_counts::JobCounts;
use pool_core::Totals;

/// How a run ended. The totals of the pool account for each job, and the numbers that the run adds up beside the pool are equal to them.
#[derive(Debug, Drop)]
pub struct RunEnd {
    /// The totals of the pool after the last session.
    pub totals: Totals,
    /// How many jobs the sessions grabbed, added up.
    pub grabbed: u64,
    /// How many jobs they reported, added up.
    pub reported: u64,
    /// What became of the jobs that they were given, added up.
    pub jobs: JobCounts,
    /// Why the sessions ended.
    pub ends: EndCounts,
    /// How many chapters of the history ended.
    pub chapters: u32,
    /// What each attempt came to, the first one first. Nothing if the run went on until its watch ended it.
    pub lines: Vec<Attempt>,
    /// Each job that was grabbed is running, reported or lost.
    pub ghost accounts: { totals.grabbed ≡ totals.running + totals.reported + totals.lost },
    /// The sums are the totals.
    pub ghost grabs_agree: { totals.grabbed ≡ grabbed },
    pub ghost reports_agree: { totals.reported ≡ reported },
    /// Each job that was reported was completed or failed.
    pub ghost ends_agree: { answered jobs ≡ reported },
}
