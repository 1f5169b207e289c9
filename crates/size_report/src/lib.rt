//! The text of a size: how many workers a farm is short of, with what shows it; and the reading of such a text.
//!
//! [`size_text`] makes the text of a size that is shown. [`read_size`] takes exactly the texts of this shape whose workers, machines and
//! functions the settings have, and gives the size that they state, for [`check_size`](plan_sizing::check_size) to hold against its farm.
//!
//! ```text
//! size 1
//! level 4
//! add 1
//! on b 1
//! work a/0 x
//! work b/1 y
//! short need 2 have 1
//! in y need 2
//! end
//! ```
//!
//! Each line ends with a line feed, its words are separated by one space, and its numbers are decimal without leading zeros. The lines
//! are in this order:
//!
//! 1. `size 1`.
//! 2. `level B`, or `level -` if any plan will do.
//! 3. `add N`, and for each machine that gets workers, in the order of names, `on MACHINE COUNT`.
//! 4. For each worker that the plan gives a function, in the order of slots, `work MACHINE/NUMBER FUNCTION`. The added workers come last,
//!    by machine, and are numbered on from the last worker of their machine: to a machine with 4 workers come 4, 5, ..
//! 5. If N is above 0, `short need X have Y`, and for each function of the set in the order of names `in FUNCTION need K`.
//! 6. `end`.
//!
//! If no addition serves, there is one line in place of 3 to 5: `cannot 1 FUNCTION need K most M` or `cannot 2 FUNCTION need K`. If
//! each that serves makes more than 4,096 workers, `cannot 3 add N` is in place of 3 and 4, and the lines of 5 after it.
#![tactic(auto)]

mod draft;
mod law;
mod line;
mod reader;
mod stage;
mod text;
mod workers;

pub use law::{size_reads_back, texts_are_sizes};
pub use reader::read_size;
pub use text::size_text;
