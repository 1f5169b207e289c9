//! How many workers a farm is short of at one attempt to plan, with a text that shows it.
//!
//! [`LiveSize::of`] takes the problem that the attempt planned for and the backlog that is wanted, and answers what `poolman size` would:
//! the fewest workers to add, by machine, or why no addition helps, and the text of the size, which `poolman check-size` finds shown.
#![tactic(auto)]

mod answer;
mod farm;
mod kept_farm;
mod missing;
mod unbounded;

pub use answer::LiveSize;
pub use farm::farm_of;
pub use kept_farm::PosedSize;
pub use missing::{ByMachine, Missing};
pub use unbounded::Unbounded;
