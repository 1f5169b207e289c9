//! The command lines by which a person drives the pool's machine, read as values.
//!
//! ```text
//! join a/0
//! load x 6 0 y 6 0
//! round
//! grab a/0#1 H:host:1 x 1700000000000
//! begin a/0#1 1
//! report a/0#1 1 complete
//! totals
//! ```
//!
//! A line is one command, of one of these forms:
//!
//! | form | what it asks for |
//! |---|---|
//! | `join W` | a new worker in the slot |
//! | `load [NAME TOTAL RUNNING]..` | these are the server's queues |
//! | `round` | a round: a plan, and its orders |
//! | `view` | a plan for the state of now, which is kept |
//! | `adopt` | the orders of the plan that was kept |
//! | `grab P HANDLE FUNCTION NOW` | the worker was given a job |
//! | `begin P TICKET` | the worker begins to report its job |
//! | `report P TICKET complete`, or `fail` | the worker has reported its job |
//! | `lose P CAUSE` | the worker is lost |
//! | `expire P NOW` | the worker is lost if its job takes too long |
//! | `job TICKET` | the state of a job |
//! | `order W` | the order of the slot |
//! | `totals` | how many jobs, rounds and events there are |
//! | `chapter` | the end of the chapter of the history |
//!
//! Words are separated by one space. So a line with two spaces in a row or one at an end has an empty word, which is taken
//! nowhere, and the empty line is no command.
//!
//! W names a slot of the settings, `machine/number`, exactly as the settings do: `a/00` names none. P is a worker: the name
//! of its slot, `#` and its generation, from 1 to 262,143. Numbers are one or more decimal digits, zeros before them allowed.
//! TOTAL and RUNNING are below 2^32. TICKET, and NOW in milliseconds, are below 2^64. HANDLE is 1 to 63 bytes without NUL.
//! NAME and FUNCTION are any words; the settings need not have them. CAUSE is the name of a cause, such as `Closed`.
//!
//! [`command_in`] reads a line. What a command does is for whoever carries it out.
#![tactic(auto)]

mod command;
mod form;
mod law;
mod line;
mod word;

pub use command::{Command, Word};
pub use law::{causes_read_back, workers_read_back};
pub use line::command_in;
