//! What a farm's workers need to start and to go on: hosts that are reached and serve jobs, files, and threads.
#![tactic(auto)]

mod file_room;
mod first_answers;
mod host_entry;
mod host_sign;
mod host_state;
mod hosts;
mod left_jobs;
mod thread_room;
mod waits;

pub use file_room::{FileNews, FileRoom};
pub use first_answers::{AnswerNews, Heard};
pub use host_entry::{HostNews, MachineSlot};
pub use host_sign::{HostSign, sign_of};
pub use host_state::{BeforeJob, Reason, lets_go_on, said_of_host};
pub use hosts::Hosts;
pub use left_jobs::LeftJob;
pub use thread_room::{ThreadNews, ThreadRoom};
