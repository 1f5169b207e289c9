//! How many workers a farm is short of: a search, and a checker of what it finds.
//!
//! A [`Farm`] is the planning problem of now, the number of its workers, lost ones too, and the level that is asked for. A [`Size`] is the
//! least addition of workers with the plan that it makes possible, or why no addition serves, and beside it a set of functions that is
//! short of just so many workers. [`check_size`] holds a size against its farm without a search, and [`find_size`] finds it.
#![tactic(auto)]

mod checker;
mod counting;
mod farm;
mod hiring;
mod law;
mod obstacles;
mod search;
mod size;

pub use checker::{check_size, total_need};
pub use farm::Farm;
pub use law::{needs_are_fewest, shown_is_right};
pub use obstacles::first_obstacle;
pub use search::find_size;
pub use size::{Addition, Flaw, MachineOrder, Obstacle, Size};
