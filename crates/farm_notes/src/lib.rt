//! What the page of a farm shows, made from what its run reports.
#![tactic(auto)]

mod evidence;
mod found;
mod kept_evidence;
mod kept_relaxed;
mod notes;
mod relaxed_settings;
mod tally;

pub use evidence::{evidence_of, status_text};
pub use found::{Found, Wanted};
pub use kept_evidence::KeptEvidence;
pub use kept_relaxed::KeptRelaxed;
pub use notes::{Known, PageNotes};
pub use relaxed_settings::settings_text;
pub use tally::{FunctionJobs, JobEnd, Tally};
