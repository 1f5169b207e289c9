//! Whole runs over the server in memory. None depends on which thread runs when: where it matters, somebody waits.

use crate::doubles::{Pause, is_round};
use crate::scenario::{Scenario, lines_of, totals_of};
use crate::server::{ASSIGN, Fate, Part};
use crate::tally::{Happening, Tally};
use job_runner::EndCause;
use pool_supervisor::RunEnd;
use std::alloc::Global;
use std::process::Abort;
use std::test::Fail;

/// One worker for `reverse`.
const ONE: &str =
    "version = 1\nround_ms = 7\n[functions.reverse]\n[machines.a]\nworkers = 1\nfunctions = [\"reverse\"]\n";

/// The same, whose chapters end when more than five of their ten events are used.
const ONE_WITH_CHAPTERS: &str =
    "version = 1\nround_ms = 7\nhistory = 10\n[functions.reverse]\n[machines.a]\nworkers = 1\nfunctions = [\"reverse\"]\n";

/// Two workers for `reverse`.
const TWO: &str =
    "version = 1\nround_ms = 7\n[functions.reverse]\n[machines.a]\nworkers = 2\nfunctions = [\"reverse\"]\n";

const ONE_WAITS: &[u8] = b"reverse\t1\t0\t0\n.\n";

const TWO_WAIT: &[u8] = b"reverse\t2\t0\t0\n.\n";

const THREE_WAIT: &[u8] = b"reverse\t3\t0\t0\n.\n";

const NONE_WAITS: &[u8] = b"reverse\t0\t0\t1\n.\n";

const ONE_JOB: &[&[u8]] = &[ASSIGN];

const TWO_JOBS: &[&[u8]] = &[ASSIGN, ASSIGN];

/// The data of [`ASSIGN`].
const DATA: &[u8] = b"a\0c";

/// The run made its attempts and came to this, and nobody waited in vain.
fn expect(
    rt: &impl Abort,
    alloc: Global,
    tally: &Tally,
    ended: &RunEnd,
    lines: &str,
    totals: (u64, u64, u64, u64, u32, u32),
) -> Result<(), Fail> {
    assert!(rt; !tally.has_given_up(), "a wait was given up");
    let told = lines_of(alloc, ended)?;
    assert_eq!(rt; told.as_str(), lines);
    assert_eq!(rt; totals_of(ended), totals);
    assert_eq!(rt; (ended.grabbed, ended.reported), (totals.0, totals.2));
    assert_eq!(rt; tally.count(Happening::Attempted), ended.lines.len() as u64);
    let rounds = ended.lines.iter().filter(|line| is_round(line)).count();
    assert_eq!(rt; tally.count(Happening::MadeRound), rounds as u64);
    assert_eq!(rt; tally.count(Happening::Paused), ended.lines.len() as u64);
    Ok(())
}

const FIRST_ALONE: &[Part] = &[Part {
    worker: b"a/0#1",
    function: b"reverse",
    jobs: ONE_JOB,
    fate: Fate::Holds,
}];

/// One job waits at first, and then none.
const ONE_THEN_NONE: &[&[u8]] = &[ONE_WAITS, NONE_WAITS, NONE_WAITS];

const ANSWERED: &[Pause] = &[Pause {
    until: &[(Happening::Answered, 1)],
    jump_ms: 0,
}];

/// One job, which is answered before the server sends its second status. The second plan is made from the first.
#[test]
fn one_job_in_two_rounds(rt: HostRuntime) -> Result<(), Fail> {
    let tally = Tally::new();
    let mut scenario = Scenario::new(ONE, 2, FIRST_ALONE, ONE_THEN_NONE);
    scenario.pauses = ANSWERED;
    let ended = scenario.run(&rt, rt.alloc(), &tally)?;
    let lines = "attempt 1 round 1 backlog 1\nattempt 2 round 2 backlog 0\n";
    expect(&rt, rt.alloc(), &tally, &ended, lines, (1, 0, 1, 0, 2, 9))?;
    assert_eq!(rt; ended.chapters, 0);
    assert_eq!(rt; tally.count(Happening::PlannedAfterAPlan), 1);
    Ok(())
}

/// The same with one round more. Whether the chapter ends before the second or the third attempt is open, and with it how many events
/// are left.
#[test]
fn a_chapter_in_three_rounds(rt: HostRuntime) -> Result<(), Fail> {
    let tally = Tally::new();
    let mut scenario = Scenario::new(ONE_WITH_CHAPTERS, 3, FIRST_ALONE, ONE_THEN_NONE);
    scenario.pauses = ANSWERED;
    let ended = scenario.run(&rt, rt.alloc(), &tally)?;
    let lines =
        "attempt 1 round 1 backlog 1\nattempt 2 round 2 backlog 0\nattempt 3 round 3 backlog 0\n";
    let events = ended.totals.events;
    expect(
        &rt,
        rt.alloc(),
        &tally,
        &ended,
        lines,
        (1, 0, 1, 0, 3, events),
    )?;
    assert_eq!(rt; ended.chapters, 1);
    Ok(())
}

const BOTH: &[Part] = &[
    Part {
        worker: b"a/0#1",
        function: b"reverse",
        jobs: ONE_JOB,
        fate: Fate::Holds,
    },
    Part {
        worker: b"a/1#1",
        function: b"reverse",
        jobs: ONE_JOB,
        fate: Fate::Holds,
    },
];

/// The status and the pause of the next test, and what its jobs wait for.
const TWO_AT_FIRST: &[&[u8]] = &[TWO_WAIT];

const BOTH_ANSWERED: &[Pause] = &[Pause {
    until: &[(Happening::Answered, 2)],
    jump_ms: 0,
}];

const UNTIL_BOTH_BEGAN: &[(&[u8], Happening, u64)] = &[(DATA, Happening::Begun, 2)];

/// The first job waits until the second has begun, and is answered all the same where it does not.
#[test]
fn two_at_once(rt: HostRuntime) -> Result<(), Fail> {
    let tally = Tally::new();
    let mut scenario = Scenario::new(TWO, 1, BOTH, TWO_AT_FIRST);
    scenario.job_waits = UNTIL_BOTH_BEGAN;
    scenario.pauses = BOTH_ANSWERED;
    let ended = scenario.run(&rt, rt.alloc(), &tally)?;
    let lines = "attempt 1 round 1 backlog 1\n";
    expect(&rt, rt.alloc(), &tally, &ended, lines, (2, 0, 2, 0, 1, 12))
}

/// One worker with two jobs, and what they and the second plan wait for.
const TWICE: &[Part] = &[Part {
    worker: b"a/0#1",
    function: b"reverse",
    jobs: TWO_JOBS,
    fate: Fate::Holds,
}];

const TWO_THEN_ONE: &[&[u8]] = &[TWO_WAIT, ONE_WAITS];

const UNTIL_PLANNED_AGAIN: &[(&[u8], Happening, u64)] = &[(DATA, Happening::Planned, 2)];

const UNTIL_BEGUN_AGAIN: &[(u64, Happening, u64)] = &[(2, Happening::Begun, 2)];

/// The first job waits until the planner is at work again, and the planner until the second job has begun.
#[test]
fn solve_lets_go(rt: HostRuntime) -> Result<(), Fail> {
    let tally = Tally::new();
    let mut scenario = Scenario::new(ONE, 2, TWICE, TWO_THEN_ONE);
    scenario.job_waits = UNTIL_PLANNED_AGAIN;
    scenario.plan_waits = UNTIL_BEGUN_AGAIN;
    let ended = scenario.run(&rt, rt.alloc(), &tally)?;
    let lines = "attempt 1 round 1 backlog 2\nattempt 2 round 2 backlog 1\n";
    expect(&rt, rt.alloc(), &tally, &ended, lines, (2, 0, 2, 0, 2, 12))
}

/// Machine a with one worker for reverse, b with one for echo and reverse.
const TWO_MACHINES: &str = "version = 1
round_ms = 7
[functions.echo]
[functions.reverse]
[machines.a]
workers = 1
functions = [\"reverse\"]
[machines.b]
workers = 1
functions = [\"echo\", \"reverse\"]
";

/// A job `H:a:2` of `echo` without data. Nobody has that job, so it fails.
const ECHO_JOB: &[&[u8]] = &[b"\0RES\0\0\0\x1f\0\0\0\x0eH:a:2\0echo\0u2\0"];

const TWO_FUNCTIONS: &[Part] = &[
    Part {
        worker: b"a/0#1",
        function: b"reverse",
        jobs: ONE_JOB,
        fate: Fate::Holds,
    },
    Part {
        worker: b"b/0#1",
        function: b"echo",
        jobs: ECHO_JOB,
        fate: Fate::Holds,
    },
];

const MORE_REVERSE: &[&[u8]] = &[b"echo\t2\t0\t0\nreverse\t6\t0\t0\n.\n"];

/// The only plan with a backlog of 6 gives each worker a function of its own.
#[test]
fn each_worker_has_its_own_order(rt: HostRuntime) -> Result<(), Fail> {
    let tally = Tally::new();
    let mut scenario = Scenario::new(TWO_MACHINES, 1, TWO_FUNCTIONS, MORE_REVERSE);
    scenario.pauses = BOTH_ANSWERED;
    let ended = scenario.run(&rt, rt.alloc(), &tally)?;
    let lines = "attempt 1 round 1 backlog 6\n";
    expect(&rt, rt.alloc(), &tally, &ended, lines, (2, 0, 2, 0, 1, 12))?;
    assert_eq!(rt; (ended.jobs.completed, ended.jobs.failed), (1, 1));
    Ok(())
}

/// Two workers, which retire after one run. A chapter ends after 20 events.
const RETIRE: &str =
    "version = 1\nround_ms = 7\nmax_runs = 1\nhistory = 40\n[functions.reverse]\n[machines.a]\nworkers = 2\nfunctions = [\"reverse\"]\n";

const FIVE: &[Part] = &[
    Part {
        worker: b"a/0#1",
        function: b"reverse",
        jobs: ONE_JOB,
        fate: Fate::Holds,
    },
    Part {
        worker: b"a/1#1",
        function: b"reverse",
        jobs: ONE_JOB,
        fate: Fate::Holds,
    },
    Part {
        worker: b"a/0#2",
        function: b"reverse",
        jobs: ONE_JOB,
        fate: Fate::Holds,
    },
    Part {
        worker: b"a/1#2",
        function: b"reverse",
        jobs: ONE_JOB,
        fate: Fate::Holds,
    },
    Part {
        worker: b"a/0#3",
        function: b"reverse",
        jobs: ONE_JOB,
        fate: Fate::Holds,
    },
];

/// Before each of the first three pauses ends so many workers have left.
const RETIRED: &[Pause] = &[
    Pause {
        until: &[(Happening::Left, 2)],
        jump_ms: 0,
    },
    Pause {
        until: &[(Happening::Left, 4)],
        jump_ms: 0,
    },
    Pause {
        until: &[(Happening::Left, 5)],
        jump_ms: 0,
    },
];

const TWO_THREE_TIMES: &[&[u8]] = &[TWO_WAIT, TWO_WAIT, TWO_WAIT, NONE_WAITS];

/// Five jobs by workers that retire after one each, and a chapter that ends before the last attempt.
#[test]
fn workers_are_replaced(rt: HostRuntime) -> Result<(), Fail> {
    let tally = Tally::new();
    let mut scenario = Scenario::new(RETIRE, 4, FIVE, TWO_THREE_TIMES);
    scenario.pauses = RETIRED;
    let ended = scenario.run(&rt, rt.alloc(), &tally)?;
    let lines =
        "attempt 1 round 1 backlog 1\nattempt 2 round 2 backlog 1\nattempt 3 round 3 backlog 1\nattempt 4 round 4 backlog 0\n";
    expect(&rt, rt.alloc(), &tally, &ended, lines, (5, 0, 5, 0, 4, 5))?;
    assert_eq!(rt; ended.chapters, 1);
    assert_eq!(rt; ended.ends.of(EndCause::Retired), 5);
    assert_eq!(rt; ended.ends.of(EndCause::Gone), 0);
    Ok(())
}

/// Three workers, which retire after two runs.
const THREE: &str =
    "version = 1\nround_ms = 7\nmax_runs = 2\n[functions.reverse]\n[machines.a]\nworkers = 3\nfunctions = [\"reverse\"]\n";

/// A job with the data `late`.
const LATE_JOB: &[&[u8]] = &[b"\0RES\0\0\0\x1f\0\0\0\x15H:a:2\0reverse\0u2\0late"];

/// The first worker dies in its job, the second is late with its own, and the third retires. Each is replaced.
const FATES: &[Part] = &[
    Part {
        worker: b"a/0#1",
        function: b"reverse",
        jobs: ONE_JOB,
        fate: Fate::BreaksAt(1),
    },
    Part {
        worker: b"a/1#1",
        function: b"reverse",
        jobs: LATE_JOB,
        fate: Fate::Holds,
    },
    Part {
        worker: b"a/2#1",
        function: b"reverse",
        jobs: TWO_JOBS,
        fate: Fate::Holds,
    },
    Part {
        worker: b"a/0#2",
        function: b"reverse",
        jobs: ONE_JOB,
        fate: Fate::Holds,
    },
    Part {
        worker: b"a/2#2",
        function: b"reverse",
        jobs: ONE_JOB,
        fate: Fate::Holds,
    },
    Part {
        worker: b"a/1#2",
        function: b"reverse",
        jobs: TWO_JOBS,
        fate: Fate::Holds,
    },
];

/// The first two workers have left and the late job has begun; then the time of a job passes, to the millisecond. Then the late one has
/// left, and its neighbours have answered; and then the one after it has retired.
const JOB_TIME: &[Pause] = &[
    Pause {
        until: &[(Happening::Left, 2), (Happening::Begun, 4)],
        jump_ms: 60_000,
    },
    Pause {
        until: &[(Happening::Left, 3), (Happening::Answered, 4)],
        jump_ms: 0,
    },
    Pause {
        until: &[(Happening::Left, 4)],
        jump_ms: 0,
    },
];

const THREE_ALWAYS: &[&[u8]] = &[THREE_WAIT, THREE_WAIT, THREE_WAIT, THREE_WAIT];

/// The late job goes on once the server is asked for its status again: the attempt has looked for late workers then.
const UNTIL_LATE: &[(&[u8], Happening, u64)] = &[(b"late", Happening::Asked, 2)];

/// The backlog shows how many workers live: three jobs wait for them.
#[test]
fn workers_die_retire_and_are_late(rt: HostRuntime) -> Result<(), Fail> {
    let tally = Tally::new();
    let mut scenario = Scenario::new(THREE, 4, FATES, THREE_ALWAYS);
    scenario.pauses = JOB_TIME;
    scenario.job_waits = UNTIL_LATE;
    let ended = scenario.run(&rt, rt.alloc(), &tally)?;
    let lines =
        "attempt 1 round 1 backlog 1\nattempt 2 round 2 backlog 2\nattempt 3 round 3 backlog 1\nattempt 4 round 4 backlog 1\n";
    expect(&rt, rt.alloc(), &tally, &ended, lines, (8, 0, 6, 2, 4, 41))?;
    assert_eq!(rt; ended.chapters, 0);
    Ok(())
}

/// Each of the first workers leaves while the planner is at work, one at each of its calls.
const LEAVERS: &[Part] = &[
    Part {
        worker: b"a/0#1",
        function: b"reverse",
        jobs: &[],
        fate: Fate::EndsAt(1),
    },
    Part {
        worker: b"a/1#1",
        function: b"reverse",
        jobs: &[],
        fate: Fate::EndsAt(2),
    },
    Part {
        worker: b"a/2#1",
        function: b"reverse",
        jobs: &[],
        fate: Fate::EndsAt(3),
    },
];

const NONE_TWICE: &[&[u8]] = &[NONE_WAITS, NONE_WAITS];

const UNTIL_ONE_LEFT: &[(u64, Happening, u64)] = &[
    (1, Happening::Left, 1),
    (2, Happening::Left, 2),
    (3, Happening::Left, 3),
];

/// A plan for a pool that has changed meanwhile is not adopted, and is made anew, three times in all.
#[test]
fn stale_plans(rt: HostRuntime) -> Result<(), Fail> {
    let tally = Tally::new();
    let mut scenario = Scenario::new(THREE, 2, LEAVERS, NONE_TWICE);
    scenario.plan_waits = UNTIL_ONE_LEFT;
    let ended = scenario.run(&rt, rt.alloc(), &tally)?;
    let lines = "attempt 1 refused 2 Stale\nattempt 2 round 1 backlog 0\n";
    expect(&rt, rt.alloc(), &tally, &ended, lines, (0, 0, 0, 0, 1, 15))?;
    assert_eq!(rt; tally.count(Happening::Planned), 4);
    assert_eq!(rt; tally.count(Happening::PlannedAfterAPlan), 0);
    Ok(())
}

/// One worker, whose history has room for three events.
const THREE_EVENTS: &str =
    "version = 1\nround_ms = 7\nhistory = 3\n[functions.reverse]\n[machines.a]\nworkers = 1\nfunctions = [\"reverse\"]\n";

/// The same with room for two.
const TWO_EVENTS: &str =
    "version = 1\nround_ms = 7\nhistory = 2\n[functions.reverse]\n[machines.a]\nworkers = 1\nfunctions = [\"reverse\"]\n";

/// One worker for x and y.
const EITHER: &str =
    "version = 1\nround_ms = 7\n[functions.x]\n[functions.y]\n[machines.a]\nworkers = 1\nfunctions = [\"x\", \"y\"]\n";

/// One worker where two are wanted.
const TOO_FEW: &str =
    "version = 1\nround_ms = 7\n[functions.x]\nleast = 2\n[machines.a]\nworkers = 1\nfunctions = [\"x\"]\n";

/// Settings, how many dials fail, what the server sends, and what comes of it: the lines, rounds, events of the last chapter, and chapters.
const ATTEMPTS: [(&str, u64, &[&[u8]], &str, u32, u32, u32); 4] = [
    (
        THREE_EVENTS,
        2,
        &[b"reverse\t1\n.\n", NONE_WAITS, NONE_WAITS],
        "attempt 1 nolink\nattempt 2 status 1 BadLine line 1\nattempt 3 refused 3 HistoryFull\nattempt 4 round 1 backlog 0\n",
        1,
        3,
        1,
    ),
    (
        TWO_EVENTS,
        0,
        &[NONE_WAITS],
        "attempt 1 refused 1 HistoryFull\n",
        0,
        2,
        0,
    ),
    (
        EITHER,
        0,
        &[b"x\t3\t0\t0\ny\t7\t0\t0\n.\n"],
        "attempt 1 round 1 unserved 3\n",
        1,
        4,
        0,
    ),
    (TOO_FEW, 0, &[b".\n"], "attempt 1 round 1 noplan\n", 1, 4, 0),
];

/// What an attempt can come to beside a backlog, with no job. A line is one attempt.
#[test]
fn lines_of_attempts(rt: HostRuntime) -> Result<(), Fail> {
    for (settings, failing_dials, statuses, lines, rounds, events, chapters) in ATTEMPTS {
        let tally = Tally::new();
        let count = lines.lines().count() as u32;
        let mut scenario = Scenario::new(settings, count, &[], statuses);
        scenario.failing_dials = failing_dials;
        let ended = scenario.run(&rt, rt.alloc(), &tally)?;
        expect(
            &rt,
            rt.alloc(),
            &tally,
            &ended,
            lines,
            (0, 0, 0, 0, rounds, events),
        )?;
        assert_eq!(rt; ended.chapters, chapters, "{lines}");
    }
    Ok(())
}
