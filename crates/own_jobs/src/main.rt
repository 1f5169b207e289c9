//! A program with jobs of its own: `own_jobs JOB < DATA` does one job, `own_jobs SETTINGS ROUNDS` runs workers that do them.
#![tactic(auto)]

mod jobs;

use devices::{InputSource, OutputSink, read_file, read_whole};
use job_runner::{End, Job, JobTable, NamedJobs};
use jobs::{Lines, Whole};
use run_command::{Host, System, run_jobs};
use std::alloc::AllocError;
use std::io::Write;
use std::process::ExitCode;
use std::{env, io};

/// Does one job on standard input, and prints its result. Status 0, and 1 if it fails, cannot be done, or there is no such job.
fn do_job(rt: &HostRuntime, jobs: &JobTable, name: &str) -> u8 {
    let Ok(input) = read_whole(rt.alloc(), &mut InputSource::new(rt.reader())) else {
        return 1;
    };
    match &jobs.run(rt.alloc(), name.as_bytes(), &input) {
        Ok(Some(outcome)) => print(rt, &outcome.end),
        _ => 1,
    }
}

/// Prints the result of a job, if it has one.
fn print(rt: &HostRuntime, end: &End) -> u8 {
    match end {
        End::Complete(result) => io::writer(rt).write_all(result).map_or(1, |_| 0),
        End::Fail => 1,
    }
}

/// Runs workers by this settings file, for so many attempts.
fn serve<H: Host>(rt: &HostRuntime, host: &H, jobs: &JobTable, file: &str, rounds: &str) -> u8 {
    let (Ok(settings), Ok(rounds)) = (read_file(rt, rt.alloc(), file), rounds.parse()) else {
        return 2;
    };
    let sink = &mut OutputSink::new(io::writer(rt));
    let exit = run_jobs(host, rt.alloc(), jobs, &settings, rounds, sink);
    if let Some(fault) = &exit.fault {
        let _ = rt.eprintln(fault);
    }
    exit.status
}

/// Does what the words ask for, with the two jobs by name.
fn obey<H: Host>(rt: &HostRuntime, host: &H) -> Result<u8, AllocError> {
    let alloc = rt.alloc();
    let mut jobs: Vec<(Vec<u8>, Box<dyn Job + Send + Sync>)> = Vec::new(alloc);
    jobs.push((Vec::from_slice(alloc, b"lines")?, Box::new(alloc, Lines)?))?;
    jobs.push((Vec::from_slice(alloc, b"whole")?, Box::new(alloc, Whole)?))?;
    let (Ok(jobs), Ok(mut words)) = (JobTable::new(jobs), env::args(rt)) else {
        return Ok(2);
    };
    Ok(match (words.nth(1), words.next()) {
        (Some(name), None) => do_job(rt, &jobs, name.as_str()),
        (Some(file), Some(rounds)) => serve(rt, host, &jobs, file.as_str(), rounds.as_str()),
        _ => 2,
    })
}

fn main(rt: HostRuntime) -> ExitCode {
    ExitCode::from(obey(&rt, &System::new(&rt)).unwrap_or(4))
}
