//! A whole run: what it writes, and how it ends.

use crate::one_job::OneJob;
use byte_io::doubles::Script;
use plan_commands::Exit;
use run_command::{Host, run_rounds};
use std::alloc::{AllocError, Global};

/// Machine a with one worker for reverse.
pub const ONE: &[u8] = b"version = 1
round_ms = 1
[functions.reverse]
[machines.a]
workers = 1
functions = [\"reverse\"]
";

/// Whether a run ends so and writes this.
pub fn ends<H: Host>(
    host: &H,
    alloc: Global,
    settings: &[u8],
    rounds: u32,
    exit: Exit,
    wanted: &[u8],
) -> bool {
    let mut sink = Script::new(alloc);
    let found = run_rounds(host, alloc, settings, rounds, &mut sink);
    found == exit && sink.output() == wanted
}

const WORKED: &[u8] = b"attempt 1 round 1 backlog 1
attempt 2 round 2 backlog 0
totals grabbed 1 running 0 reported 1 lost 0 rounds 2 events 9
";

/// One job, which is answered before the second status is sent.
#[test]
fn one_job_in_two_rounds(rt: HostRuntime) -> Result<(), AllocError> {
    let alloc = rt.alloc();
    let host = OneJob::new(&rt, alloc)?;
    assert!(rt; ends(&host, alloc, ONE, 2, Exit::answered(0), WORKED));
    Ok(())
}
