//! The jobs that the program's workers can do.

ghost use Rattle.std.specs.Prelude.{◌≡◌, ℕ, List, IfOk};
ghost use Rattle.std.specs.List.{list_any};
ghost use Rattle.std.specs.Str.{bytes_eq};
ghost use Rattle.stock_jobs.specs.Stock as spec;

use job_runner::{End, Job, JobTable, NamedJobs, Outcome};
use std::alloc::{AllocError, Global};

/// A job that the program's workers can do. Each says nothing before its end, and always completes.
#[derive(Clone, Copy, Debug, PartialEq, Eq)]
pub enum StockJob {
    /// `reverse`: the bytes of the input, the last one first.
    Reverse,
    /// `length`: the number of the input's bytes, in decimal digits.
    Length,
    /// `echo`: the input.
    Echo,
}

impl StockJob {
    /// The function by which clients ask for it.
    pub fn name(self) -> &'static str
        ensures { result.now ≡ spec.stock_name self }
    {
        match self {
            StockJob::Reverse => "reverse",
            StockJob::Length => "length",
            StockJob::Echo => "echo",
        }
    }

    /// Its result for an input.
    fn result(self, alloc: Global, input: &[u8]) -> Result<Vec<u8>, AllocError>
        ensures { IfOk result (λ bytes. bytes.items ≡ spec.result_of self input.now) }
    {
        match self {
            StockJob::Reverse => {
                let mut bytes = Vec::from_slice(alloc, input)?;
                bytes.reverse();
                Ok(bytes)
            }
            StockJob::Length => Ok(input.len().to_string(alloc)?.into_bytes()),
            StockJob::Echo => Vec::from_slice(alloc, input),
        }
    }
}

impl Job for StockJob {
    ghost use Rattle.stock_jobs.specs.Stock.{told_by_job};

    ghost meaning = { told_by_job };

    fn run(&self, alloc: Global, input: &[u8]) -> Result<Outcome, AllocError> {
        let result = self.result(alloc, input)?;
        Ok(Outcome {
            notes: Vec::new(alloc),
            end: End::Complete(result),
        })
    }
}

/// All of them.
const ALL: [StockJob; 3] = [StockJob::Reverse, StockJob::Length, StockJob::Echo];

/// Whether it is the job of this name.
fn has_name(job: &StockJob, name: &[u8]) -> bool
    ensures { result ≡ bytes_eq (spec.stock_name job.now) name.now }
{
    job.name().as_bytes() == name
}

/// Whether one of the jobs has this name.
pub fn is_stock(name: &[u8]) -> bool
    ensures { result ≡ spec.is_stock name.now }
{
    ALL.iter().any(|job| has_name(job, name))
}

/// A job with its name.
fn named(alloc: Global, job: StockJob) -> Result<(Vec<u8>, StockJob), AllocError>
    ensures name { IfOk result (λ entry. entry.0.items ≡ spec.stock_name job) }
    ensures job { IfOk result (λ entry. entry.1 ≡ job) }
{
    Ok((Vec::from_slice(alloc, job.name().as_bytes())?, job))
}

/// The three jobs by name. The only error is out of memory.
pub fn stock_jobs(alloc: Global) -> Result<JobTable<StockJob>, AllocError>
    ensures { IfOk result (λ table. (name input : List ℕ) → ⟦<JobTable<StockJob> as NamedJobs>⟧.told table name input
        ≡ spec.told_by_name name input) }
{
    let mut jobs = Vec::new(alloc);
    jobs.push(named(alloc, StockJob::Reverse)?)?;
    jobs.push(named(alloc, StockJob::Length)?)?;
    jobs.push(named(alloc, StockJob::Echo)?)?;
    let Ok(table) = JobTable::new(jobs) else {
        unreachable!()
    };
    Ok(table)
}
