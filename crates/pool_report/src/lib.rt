//! A report: the text that gives an answer with its evidence, and the reading of such a text.
//!
//! [`write`] gives the report of an answer that is shown to a [`Sink`](byte_io::Sink), and [`report_text`]
//! makes its text. [`read`] takes exactly the texts of this shape whose workers and functions the settings
//! have, and gives the answer that they state, for [`check`](plan_model::check) to hold against its input. So
//! a report is evidence that anybody can carry and anybody can test.
//!
//! ```text
//! report 1
//! backlog 6
//! work a/0 x
//! work b/0 y
//! short need 3 have 2
//! in x need 2
//! in y need 1
//! end
//! ```
//!
//! Each line ends with a line feed, its words are separated by one space, and its numbers are decimal without
//! leading zeros. The lines are in this order:
//!
//! 1. `report 1`.
//! 2. `backlog K` for a backlog below 2^32, `unserved W` for the backlog 2^32 + W, with W at least 1, or
//!    `noplan`.
//! 3. With a plan, for each live worker in the order of slots `work MACHINE/NUMBER FUNCTION`, or `idle
//!    MACHINE/NUMBER` for a worker without a function.
//! 4. With a set of functions, `short need N have H`, and for each function of the set in the order of names
//!    `in FUNCTION need N`.
//! 5. For each function that no live worker may do, in the order of names, `stranded FUNCTION WAITING`.
//! 6. `end`.
#![tactic(auto)]

mod draft;
mod error;
mod law;
mod line;
mod lines;
mod reader;
mod report;
mod stage;

pub use error::{ReadError, WriteError};
pub use law::{
    lines_are_encoded, lines_read_back, names_read_back, report_reads_back, texts_are_reports,
};
pub use line::{Line, after_word, count_after, read_line};
pub use lines::{push_needed_line, push_short_line, push_worker_line};
pub use reader::{cut_line, read};
pub use report::{report_text, write};
pub use stage::Misread;
