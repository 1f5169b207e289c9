//! The command `settings` as calls over texts and a device: what a settings file means, or where its first fault is; and what it means
//! with a services file.
#![tactic(auto)]

mod farm;
mod farm_remarks;
mod history;
mod jobless;
mod meaning;
mod place;
mod portless;
mod remarks;
mod served;
mod services_meaning;
mod services_place;
mod settings;

pub use meaning::meaning_text;
pub use place::{place_text, push_printable};
pub use served::farm_text;
pub use services_place::services_place_text;
pub use settings::settings_text;
