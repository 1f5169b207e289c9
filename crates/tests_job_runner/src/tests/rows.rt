//! Worked sessions over a port that holds a pool, byte for byte.

use crate::jobs::TestJob;
use crate::packets::{
    ANSWERED, ASKED, ASSIGN, COMPLETE, FAIL, GRAB, NO_JOB, NOTED, PRE_SLEEP, TO_ECHO,
};
use crate::pool_port::Beside;
use crate::scenario::Scenario;
use crate::seen::{Seen, play_once, single_bytes};
use crate::slot_board::SlotBoard;
use job_runner::{EndCause, JobTable, TwiceNamed};
use pool_core::ExpireError;
use std::alloc::{AllocError, Global};
use std::process::Abort;
use std::test::Fail;
use worker_state::{Cause, EndKind, Standing};

/// These texts one after the other.
fn joined(alloc: Global, texts: &[&[u8]]) -> Result<Vec<u8>, AllocError> {
    let mut whole = Vec::new(alloc);
    for text in texts {
        whole.extend_from_slice(text)?;
    }
    Ok(whole)
}

/// A session of these jobs, which reads a job of `reverse` and then the end.
fn play_jobs(alloc: Global, jobs: &'static [(&'static [u8], TestJob)]) -> Option<Seen> {
    let mut scenario = Scenario::new();
    scenario.jobs = jobs;
    play_once(alloc, &scenario, &[ASSIGN], None)
}

/// The session ends so, with these counts, and has lost its worker for that cause, if it has one.
fn expect_end(rt: &impl Abort, seen: &Seen, cause: EndCause, counts: (u64, u64, u64)) {
    assert_eq!(rt; seen.end.cause, cause);
    assert_eq!(rt; seen.counts(), counts);
    assert_eq!(rt; seen.lost, cause.loss());
    assert_eq!(rt; seen.losses, u64::from(cause.loss().is_some()));
}

/// One job was answered, and then the input ended.
fn expect_one_job(rt: &impl Abort, seen: &Seen, written: &[u8], kind: EndKind) {
    expect_end(rt, seen, EndCause::Closed, (1, 1, 1));
    assert!(rt; seen.written.as_slice() == written);
    assert_eq!(rt; seen.standing, Some(Standing::Reported(kind)));
}

#[test]
fn a_job_in_single_bytes(rt: HostRuntime) -> Result<(), Fail> {
    let pieces = single_bytes(rt.alloc(), ASSIGN)?;
    assert_eq!(rt; pieces.len(), 64);
    let seen = play_once(rt.alloc(), &Scenario::new(), pieces.as_slice(), None).ok_or("not run")?;
    expect_one_job(&rt, &seen, ANSWERED, EndKind::Complete);
    Ok(())
}

#[test]
fn a_job_that_comes_whole(rt: HostRuntime) -> Result<(), Fail> {
    let seen = play_once(rt.alloc(), &Scenario::new(), &[ASSIGN], None).ok_or("not run")?;
    expect_one_job(&rt, &seen, ANSWERED, EndKind::Complete);
    assert_eq!(rt; seen.written.len(), 81);
    Ok(())
}

/// The worker sleeps, and then one job waits for `echo` alone, and a round is made.
fn ordered_to_echo() -> Scenario {
    let mut scenario = Scenario::new();
    scenario.beside = Beside::LoadAt(2, b"echo");
    scenario
}

/// At the next timeout it gives up `reverse`, takes `echo`, and asks for a job.
fn expect_to_echo(rt: &impl Abort, alloc: Global, seen: &Seen) -> Result<(), Fail> {
    let wanted = joined(alloc, &[ASKED, PRE_SLEEP, TO_ECHO])?;
    expect_end(rt, seen, EndCause::Closed, (0, 0, 0));
    assert!(rt; seen.written == wanted);
    Ok(())
}

#[test]
fn an_order_that_changes_while_the_worker_sleeps(rt: HostRuntime) -> Result<(), Fail> {
    let seen = play_once(rt.alloc(), &ordered_to_echo(), &[NO_JOB, b""], None).ok_or("not run")?;
    expect_to_echo(&rt, rt.alloc(), &seen)
}

#[test]
fn an_order_that_changes_on_the_board_while_the_worker_sleeps(rt: HostRuntime) -> Result<(), Fail> {
    let board = SlotBoard::new(rt.alloc()).ok_or("no board")?;
    let pieces = [NO_JOB, b"".as_slice()];
    let seen = play_once(rt.alloc(), &ordered_to_echo(), &pieces, Some(board)).ok_or("not run")?;
    expect_to_echo(&rt, rt.alloc(), &seen)
}

#[test]
fn a_job_that_nobody_has(rt: HostRuntime) -> Result<(), Fail> {
    let seen = play_jobs(rt.alloc(), &[]).ok_or("not run")?;
    let wanted = joined(rt.alloc(), &[ASKED, FAIL, GRAB])?;
    expect_one_job(&rt, &seen, wanted.as_slice(), EndKind::Fail);
    assert_eq!(rt; seen.written.len(), 77);
    Ok(())
}

const NOTES: &[(&[u8], TestJob)] = &[(b"reverse", TestJob::Notes)];

/// It says that one of two is done, and a piece, before its result.
#[test]
fn a_job_with_notes(rt: HostRuntime) -> Result<(), Fail> {
    let seen = play_jobs(rt.alloc(), NOTES).ok_or("not run")?;
    let wanted = joined(rt.alloc(), &[ASKED, NOTED, GRAB])?;
    expect_one_job(&rt, &seen, wanted.as_slice(), EndKind::Complete);
    Ok(())
}

#[test]
fn no_turns(rt: HostRuntime) -> Result<(), Fail> {
    let mut scenario = Scenario::new();
    scenario.turns = 0;
    let seen = play_once(rt.alloc(), &scenario, &[ASSIGN], None).ok_or("not run")?;
    expect_end(&rt, &seen, EndCause::TurnsUsed, (0, 0, 0));
    assert!(rt; seen.written.as_slice() == ASKED);
    assert_eq!(rt; seen.written.len(), 48);
    Ok(())
}

/// The worker retires after one run.
const ONE_RUN: &str =
    "version = 1\nmax_runs = 1\n[functions.reverse]\n[machines.a]\nworkers = 1\nfunctions = [\"reverse\"]\n";

#[test]
fn retired(rt: HostRuntime) -> Result<(), Fail> {
    let mut scenario = Scenario::new();
    scenario.settings = ONE_RUN;
    let seen = play_once(rt.alloc(), &scenario, &[ASSIGN], None).ok_or("not run")?;
    let wanted = joined(rt.alloc(), &[ASKED, COMPLETE])?;
    expect_end(&rt, &seen, EndCause::Retired, (1, 1, 1));
    assert!(rt; seen.written == wanted);
    assert_eq!(rt; seen.written.len(), 69);
    assert!(rt; seen.is_reported());
    Ok(())
}

/// The job is late just before its report begins, which the pool refuses then: no byte of the answer is written, and the worker is not lost
/// again.
#[test]
fn gone(rt: HostRuntime) -> Result<(), Fail> {
    let mut scenario = Scenario::new();
    scenario.beside = Beside::LateBefore;
    let seen = play_once(rt.alloc(), &scenario, &[ASSIGN], None).ok_or("not run")?;
    expect_end(&rt, &seen, EndCause::Gone, (1, 0, 0));
    assert!(rt; seen.written.as_slice() == ASKED);
    assert_eq!(rt; seen.expired, Some(Ok(())));
    assert_eq!(rt; seen.job_loss(), Some(Cause::Late));
    Ok(())
}

#[test]
fn two_jobs_of_one_name(rt: HostRuntime) -> Result<(), Fail> {
    let mut jobs = Vec::new(rt.alloc());
    jobs.push((Vec::from_slice(rt.alloc(), b"x")?, TestJob::Reverse))?;
    jobs.push((Vec::from_slice(rt.alloc(), b"x")?, TestJob::Fail))?;
    assert_eq!(rt; JobTable::new(jobs).err(), Some(TwiceNamed));
    Ok(())
}
