//! `replay` over texts in memory: worked examples.

use crate::run_commands;
use byte_io::SliceSource;
use byte_io::doubles::Script;
use plan_commands::Exit;
use std::alloc::Global;

/// Worker a/0 may do x, worker b/0 may do x and y.
const TWO: &[u8] = b"version = 1
[functions.x]
[functions.y]
[machines.a]
workers = 1
functions = [\"x\"]
[machines.b]
workers = 1
functions = [\"x\", \"y\"]
";

const THREE: &[u8] = b"version = 1
[functions.x]
[functions.y]
[machines.a]
workers = 3
functions = [\"x\", \"y\"]
";

/// One worker, whose jobs are late after five seconds.
const TIMED: &[u8] = b"version = 1
job_timeout_ms = 5000
[functions.x]
[machines.a]
workers = 1
functions = [\"x\"]
";

/// The same, which retires after two runs.
const RETIRING: &[u8] = b"version = 1
job_timeout_ms = 5000
max_runs = 2
[functions.x]
[machines.a]
workers = 1
functions = [\"x\"]
";

/// One worker, with room for five events.
const SHORT: &[u8] = b"version = 1
history = 5
[functions.x]
[machines.a]
workers = 1
functions = [\"x\"]
";

const BOTH: &[u8] = b"version = 1
[functions.x]
[functions.y]
[machines.a]
workers = 1
functions = [\"x\", \"y\"]
";

/// Whether each of these lines is a command, with these answers.
fn prints(alloc: Global, settings_text: &[u8], lines: &[u8], answers: &[u8]) -> bool {
    let mut source = SliceSource::new(lines);
    let mut sink = Script::new(alloc);
    let exit = run_commands(alloc, settings_text, &mut source, &mut sink);
    exit == Exit::answered(0) && sink.output() == answers
}

const ROUNDS: &[u8] = b"join a/0
join a/1
join a/2
load x 10 0 y 4 0
round
round
";

const ROUNDS_ANSWERS: &[u8] = b"ok a/0#1
ok a/1#1
ok a/2#1
ok
ok 1 backlog 5 moved 3
ok 2 backlog 5 moved 0
";

#[test]
fn rounds(rt: HostRuntime) {
    assert!(rt; prints(rt.alloc(), THREE, ROUNDS, ROUNDS_ANSWERS));
}

const LATE: &[u8] = b"join a/0
grab a/0#1 H:a:1 x 0
expire a/0#1 4999
expire a/0#1 5000
begin a/0#1 1
report a/0#1 1 complete
job 1
";

const LATE_ANSWERS: &[u8] = b"ok a/0#1
ok 1
refused 4 NotLate
ok
refused 1 Gone
refused 1 Gone
lost a/0#1 Late
";

const IN_TIME: &[u8] = b"join a/0
grab a/0#1 H:a:1 x 0
begin a/0#1 1
expire a/0#1 5000
report a/0#1 1 complete
job 1
";

const IN_TIME_ANSWERS: &[u8] = b"ok a/0#1
ok 1
ok
refused 3 Reporting
ok stay
reported complete
";

#[test]
fn jobs_that_are_late(rt: HostRuntime) {
    assert!(rt; prints(rt.alloc(), TIMED, LATE, LATE_ANSWERS));
    assert!(rt; prints(rt.alloc(), TIMED, IN_TIME, IN_TIME_ANSWERS));
}

const VIEWS: &[u8] = b"join a/0
join b/0
load x 6 0 y 2 0
view
lose b/0#1 Closed
adopt
view
adopt
totals
";

const VIEWS_ANSWERS: &[u8] = b"ok a/0#1
ok b/0#1
ok
ok backlog 6
ok
refused 2 Stale
ok backlog 6
ok 1 backlog 6 moved 1
totals grabbed 0 running 0 reported 0 lost 0 rounds 1 events 5
";

const SAME_AGAIN: &[u8] = b"adopt
join a/0
join b/0
load x 6 0 y 2 0
view
grab a/0#1 H:a:1 x 0
load x 7 1 y 2 0
lose b/0#1 Closed
join b/0
adopt
";

const SAME_AGAIN_ANSWERS: &[u8] = b"refused NoView
ok a/0#1
ok b/0#1
ok
ok backlog 6
ok 1
ok
ok
ok b/0#2
ok 1 backlog 6 moved 2
";

#[test]
fn views_that_are_adopted(rt: HostRuntime) {
    assert!(rt; prints(rt.alloc(), TWO, VIEWS, VIEWS_ANSWERS));
    assert!(rt; prints(rt.alloc(), TWO, SAME_AGAIN, SAME_AGAIN_ANSWERS));
}

const ORDERS: &[u8] = b"join a/0
load y 3 0
round
load
round
order a/0
";

const ORDERS_ANSWERS: &[u8] = b"ok a/0#1
ok
ok 1 backlog 3 moved 1
ok
ok 2 backlog 0 moved 0
work y round 1
";

const REJOINED: &[u8] = b"join a/0
join b/0
load x 6 0 y 2 0
round
order a/0
round
order a/0
lose b/0#1 Closed
join b/0
order b/0
round
order b/0
order a/0
";

const REJOINED_ANSWERS: &[u8] = b"ok a/0#1
ok b/0#1
ok
ok 1 backlog 6 moved 2
work x round 1
ok 2 backlog 6 moved 0
work x round 1
ok
ok b/0#2
idle
ok 3 backlog 6 moved 1
work y round 3
work x round 1
";

#[test]
fn orders_that_stay(rt: HostRuntime) {
    assert!(rt; prints(rt.alloc(), BOTH, ORDERS, ORDERS_ANSWERS));
    assert!(rt; prints(rt.alloc(), TWO, REJOINED, REJOINED_ANSWERS));
}

const RETIRED: &[u8] = b"join a/0
grab a/0#1 H:a:1 x 0
begin a/0#1 1
report a/0#1 1 complete
grab a/0#1 H:a:2 x 0
begin a/0#1 2
report a/0#1 2 complete
grab a/0#1 H:a:3 x 0
join a/0
";

const RETIRED_ANSWERS: &[u8] = b"ok a/0#1
ok 1
ok
ok stay
ok 2
ok
ok retire
refused 1 Gone
ok a/0#2
";

const FULL: &[u8] = b"join a/0
load
grab a/0#1 H:a:1 x 0
load
load
load
round
lose a/0#1 Closed
";

const FULL_ANSWERS: &[u8] = b"ok a/0#1
ok
refused 3 HistoryFull
ok
ok
refused 1 HistoryFull
refused 2 HistoryFull
ok
";

#[test]
fn limits_of_runs_and_events(rt: HostRuntime) {
    assert!(rt; prints(rt.alloc(), RETIRING, RETIRED, RETIRED_ANSWERS));
    assert!(rt; prints(rt.alloc(), SHORT, FULL, FULL_ANSWERS));
}

const REFUSALS: &[u8] = b"round
join a/0
join a/0
expire a/0#1 9
grab a/0#1 H:a:1 x 0
grab a/0#1 H:a:2 x 0
report a/0#1 1 fail
begin a/0#1 2
begin a/0#1 1
begin a/0#1 1
lose a/0#1 WriteFault
job 1
begin a/0#1 1
";

const REFUSALS_ANSWERS: &[u8] = b"refused 1 NoLoad
ok a/0#1
refused 1 AlreadyLive
refused 2 NoJob
ok 1
refused 2 Busy
refused 3 NotReporting
refused 2 WrongTicket
ok
refused 3 AlreadyReporting
ok
lost a/0#1 WriteFault
refused NoPass
";

#[test]
fn refusals_in_turn(rt: HostRuntime) {
    assert!(rt; prints(rt.alloc(), TIMED, REFUSALS, REFUSALS_ANSWERS));
}
