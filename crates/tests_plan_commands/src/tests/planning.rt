//! Whole commands over texts in memory: worked examples.

use byte_io::SliceSource;
use byte_io::doubles::Script;
use gear_status::StatusError;
use plan_commands::{Exit, Fault, check_text, plan_text};
use std::alloc::{AllocError, Global};

/// Worker a/0 may do x, worker b/0 may do x and y.
pub const TWO: &[u8] = b"version = 1
[functions.x]
[functions.y]
[machines.a]
workers = 1
functions = [\"x\"]
[machines.b]
workers = 1
functions = [\"x\", \"y\"]
";

pub const TWO_STATUS: &[u8] = b"x\t6\t0\t2\ny\t2\t0\t1\n.\n";

pub const TWO_REPORT: &[u8] = b"report 1
backlog 6
work a/0 x
work b/0 y
short need 3 have 2
in x need 2
in y need 1
end
";

pub const PAIR: &[u8] = b"version = 1
[functions.x]
[machines.a]
workers = 2
functions = [\"x\"]
";

pub const PAIR_NINE: &[u8] = b"report 1
backlog 5
work a/0 x
work a/1 x
short need 3 have 2
in x need 3
end
";

const PAIR_ONE: &[u8] = b"report 1
backlog 1
work a/0 x
work a/1 x
short need 3 have 2
in x need 3
end
";

const PAIR_NONE: &[u8] = b"report 1
backlog 0
work a/0 x
work a/1 x
end
";

const ONE: &[u8] = b"version = 1
[functions.x]
[machines.a]
workers = 1
functions = [\"x\"]
";

const ONE_LOST: &[u8] = b"report 1\nbacklog 0\nstranded x 7\nend\n";

const ONE_BIG: &[u8] = b"report 1
backlog 4294967295
work a/0 x
short need 2 have 1
in x need 2
end
";

const WANTED: &[u8] = b"version = 1
[functions.x]
least = 1
[machines.a]
workers = 1
functions = [\"x\"]
";

const WANTED_LOST: &[u8] = b"report 1
noplan
short need 1 have 0
in x need 1
stranded x 7
end
";

const BOTH: &[u8] = b"version = 1
[functions.x]
[functions.y]
[machines.a]
workers = 1
functions = [\"x\", \"y\"]
";

const BOTH_Y: &[u8] = b"report 1
unserved 3
work a/0 y
short need 2 have 1
in x need 1
in y need 1
end
";

const BOTH_X: &[u8] = b"report 1
unserved 3
work a/0 x
short need 2 have 1
in x need 1
in y need 1
end
";

const APART: &[u8] = b"version = 1
[functions.x]
[functions.y]
[machines.a]
workers = 1
functions = [\"x\"]
[machines.b]
workers = 3
functions = [\"y\"]
";

const APART_REPORT: &[u8] = b"report 1
backlog 8
work a/0 x
work b/0 y
work b/1 y
work b/2 y
short need 2 have 1
in x need 2
end
";

const APART_IDLE: &[u8] = b"report 1
backlog 8
work a/0 x
work b/0 y
work b/1 y
idle b/2
short need 2 have 1
in x need 2
end
";

const THREE: &[u8] = b"version = 1
[functions.x]
[functions.y]
[machines.a]
workers = 3
functions = [\"x\", \"y\"]
";

const THREE_LEAST: &[u8] = b"version = 1
[functions.x]
[functions.y]
least = 2
[machines.a]
workers = 3
functions = [\"x\", \"y\"]
";

const THREE_STATUS: &[u8] = b"x\t10\t0\t3\ny\t4\t0\t3\n.\n";

const THREE_REPORT: &[u8] = b"report 1
backlog 5
work a/0 x
work a/1 x
work a/2 y
short need 4 have 3
in x need 3
in y need 1
end
";

/// The exit and the output of `plan`.
pub fn plan(
    alloc: Global,
    settings: &[u8],
    lost: &[&str],
    status: &[u8],
) -> Result<(Exit, Script), AllocError> {
    let mut source = SliceSource::new(status);
    let mut sink = Script::new(alloc);
    let exit = plan_text(alloc, settings, lost, &mut source, &mut sink);
    Ok((exit, sink))
}

/// Whether `plan` writes this report and ends with this status, and `check` then says that it is shown.
pub fn plans(
    alloc: Global,
    settings: &[u8],
    lost: &[&str],
    status: &[u8],
    report: &[u8],
    wanted: u8,
) -> bool {
    let Ok((exit, sink)) = plan(alloc, settings, lost, status) else {
        return false;
    };
    exit == Exit::answered(wanted)
        && sink.output() == report
        && checks(alloc, settings, lost, status, report, b"shown\n")
}

/// Whether `plan` meets this fault and writes nothing.
pub fn plan_meets(
    alloc: Global,
    settings: &[u8],
    lost: &[&str],
    status: &[u8],
    fault: Fault,
) -> bool {
    let Ok((exit, sink)) = plan(alloc, settings, lost, status) else {
        return false;
    };
    exit == Exit::refused(fault) && sink.output().is_empty()
}

/// Whether `check` writes this line about the report.
pub fn checks(
    alloc: Global,
    settings: &[u8],
    lost: &[&str],
    status: &[u8],
    report: &[u8],
    line: &[u8],
) -> bool {
    let mut source = SliceSource::new(report);
    let mut sink = Script::new(alloc);
    let exit = check_text(alloc, settings, status, lost, &mut source, &mut sink);
    let wanted = if line == b"shown\n".as_slice() { 0 } else { 1 };
    exit == Exit::answered(wanted) && sink.output() == line
}

/// The first example's report, with a text in the place of so many bytes.
fn changed(alloc: Global, at: usize, len: usize, to: &[u8]) -> Result<Vec<u8>, AllocError> {
    let (prefix, rest) = TWO_REPORT.split_at(at.min(TWO_REPORT.len()));
    let (_, back) = rest.split_at(len.min(rest.len()));
    let mut report = Vec::new(alloc);
    report.extend_from_slice(prefix)?;
    report.extend_from_slice(to)?;
    report.extend_from_slice(back)?;
    Ok(report)
}

/// Whether `check` says this of the first example's report with so many bytes replaced.
fn says(alloc: Global, at: usize, len: usize, to: &[u8], line: &[u8]) -> bool {
    match changed(alloc, at, len, to) {
        Ok(report) => checks(alloc, TWO, &[], TWO_STATUS, &report, line),
        Err(_) => false,
    }
}

#[test]
fn reports_of_one_function(rt: HostRuntime) {
    let alloc = rt.alloc();
    assert!(rt; plans(alloc, PAIR, &[], b"x\t9\t0\t0\n.\n", PAIR_NINE, 0));
    assert!(rt; plans(alloc, PAIR, &[], b"x\t1\t0\t0\n.\n", PAIR_ONE, 0));
    assert!(rt; plans(alloc, PAIR, &[], b"x\t0\t0\t0\n.\n", PAIR_NONE, 0));
    assert!(rt; plans(alloc, ONE, &[], b"x\t4294967295\t0\t0\n.\n", ONE_BIG, 0));
}

#[test]
fn reports_of_two_functions(rt: HostRuntime) {
    let alloc = rt.alloc();
    assert!(rt; plans(alloc, TWO, &[], TWO_STATUS, TWO_REPORT, 0));
    assert!(rt; plans(alloc, BOTH, &[], b"x\t3\t0\t0\ny\t7\t0\t0\n.\n", BOTH_Y, 0));
    assert!(rt; plans(alloc, BOTH, &[], b"x\t7\t0\t0\ny\t3\t0\t0\n.\n", BOTH_X, 0));
    assert!(rt;
        plans(
            alloc,
            APART,
            &[],
            b"x\t8\t0\t0\ny\t3\t0\t0\n.\n",
            APART_REPORT,
            0
        )
    );
}

#[test]
fn reports_without_a_worker(rt: HostRuntime) {
    let alloc = rt.alloc();
    assert!(rt; plans(alloc, ONE, &["a/0"], b"x\t7\t0\t0\n.\n", ONE_LOST, 0));
    assert!(rt; plans(alloc, WANTED, &["a/0"], b"x\t7\t0\t0\n.\n", WANTED_LOST, 1));
}

/// How often the plan of these settings puts a worker on x, with its second line.
fn workers_on_x(alloc: Global, settings: &[u8], second: &[u8]) -> Option<usize> {
    let (exit, sink) = plan(alloc, settings, &[], THREE_STATUS).ok()?;
    let report = sink.output();
    if exit != Exit::answered(0)
        || !checks(alloc, settings, &[], THREE_STATUS, report, b"shown\n")
    {
        return None;
    }
    if !report.starts_with(b"report 1\n") || !report[9..].starts_with(second) {
        return None;
    }
    Some(
        report
            .split(|byte| *byte == b'\n')
            .filter(|line| line.starts_with(b"work ") && line.ends_with(b" x"))
            .count(),
    )
}

#[test]
fn counts_where_the_worker_is_free(rt: HostRuntime) {
    let alloc = rt.alloc();
    assert!(rt; workers_on_x(alloc, THREE, b"backlog 5\n") == Some(2));
    assert!(rt; workers_on_x(alloc, THREE_LEAST, b"backlog 10\n") == Some(1));
}

#[test]
fn faults_of_status_texts(rt: HostRuntime) {
    let alloc = rt.alloc();
    let bad = Fault::Status(StatusError::BadLine(1));
    assert!(rt; plan_meets(alloc, TWO, &[], b"x\t1\n", bad));
    let cut = Fault::Status(StatusError::Truncated);
    assert!(rt; plan_meets(alloc, TWO, &[], b"x\t6\t0\t2\n", cut));
}

#[test]
fn verdicts_on_changed_reports(rt: HostRuntime) {
    let alloc = rt.alloc();
    assert!(rt; says(alloc, 17, 1, b"5", b"not shown 3 WrongBacklog\n"));
    assert!(rt; says(alloc, 28, 1, b"y", b"not shown 1 NotPermitted\n"));
    assert!(rt; says(alloc, 73, 12, b"", b"not shown 4 NotShort\n"));
    assert!(rt; says(alloc, 41, 44, b"", b"not shown 5 SetMissing\n"));
    assert!(rt; says(alloc, 52, 1, b"4", b"not shown 7 Text\n"));
}

#[test]
fn verdicts_on_other_reports(rt: HostRuntime) {
    let alloc = rt.alloc();
    let idle = b"not shown 6 Idle\n";
    assert!(rt;
        checks(
            alloc,
            APART,
            &[],
            b"x\t8\t0\t0\ny\t3\t0\t0\n.\n",
            APART_IDLE,
            idle
        )
    );
    let least = b"not shown 2 BelowLeast\n";
    assert!(rt; checks(alloc, THREE_LEAST, &[], THREE_STATUS, THREE_REPORT, least));
}
