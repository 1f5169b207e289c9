//! The pool: worker slots, jobs by ticket, orders and rounds, with the history that led to them.
//!
//! Each call on a `Pool` either answers its lowest true refusal and changes nothing, or is one event of a machine that the
//! definitions describe; the state is always the replay of the events.
#![tactic(auto)]

mod answer;
mod error;
mod event;
mod laws;
mod pool;
mod rounds;
mod table;
mod totals;

pub use answer::{Ran, StayOrRetire, Totals};
pub use error::{
    AdoptError, BeginError, ChapterError, ExpireError, GrabError, JoinError, LoadError, LoseError,
    ReportError, RoundError, ViewError,
};
pub use event::{Chapter, Event, Forgotten, FunctionName, Job};
pub use laws::{
    bases_are_sound, calls_replay, chapters_count, events_count, histories_are_sound,
    histories_count, histories_cut, histories_extend, histories_join, jobs_are_accounted_for,
    jobs_are_booked_once, jobs_are_handed_out_once, jobs_are_lost_with_their_workers,
    rounds_are_shown, rounds_order, workers_are_new,
};
pub use pool::{Pass, Pool};
pub use totals::totals_line;
