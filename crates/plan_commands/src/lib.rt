//! The commands `plan` and `check` as calls over texts and devices, and what each command of the program ends with: an exit
//! status, and a fault if it was not answered.
#![tactic(auto)]

mod check;
mod ending;
mod fault;
mod found;
mod mistake;
mod place;
mod plan;
mod problem;
mod reading;
mod services_mistake;

pub use check::{Verdict, check_text};
pub use ending::{Exit, deliver};
pub use fault::{Fault, NamedFile, PageError};
pub use mistake::Mistake;
pub use plan::plan_text;
pub use problem::{Problem, pose, pose_text};
pub use reading::{
    read_page, read_services, read_services_file, read_settings, read_settings_file, services_in,
    settings_in,
};
pub use services_mistake::ServicesMistake;
