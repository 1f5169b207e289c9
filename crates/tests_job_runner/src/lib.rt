//! Worked sessions over a port that holds a pool, and what tests of sessions use: jobs, orders, packets, ports, and what is seen at an end.
//! More tests are in `tests/run_only/tests_job_runner`.
#![tactic(auto)]

mod jobs;
mod orders;
pub mod packets;
mod pool_port;
mod scenario;
mod seen;
mod slot_board;
#[cfg(test)]
mod tests;

pub use jobs::TestJob;
pub use orders::{Orders, note};
pub use pool_port::{Beside, PoolTestPort, order_work};
pub use scenario::{BOTH, Farm, Scenario, Trouble, new_farm, run_over};
pub use seen::{Seen, play_once, script_of, single_bytes};
pub use slot_board::SlotBoard;
