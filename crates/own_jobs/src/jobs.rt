//! Two jobs: one that always answers, and one that may fail.

ghost use Rattle.std.specs.Prelude.{◌≡◌};
ghost use Rattle.own_jobs.specs.Jobs as spec;

use job_runner::{End, Job, Outcome};
use std::alloc::{AllocError, Global};

/// `lines`: how many line feeds its input has.
#[derive(Drop)]
pub struct Lines;

/// How many line feeds the input has.
fn count_lines(input: &[u8]) -> usize
    ensures { result ≡ spec.lines_in input.now }
{
    input.iter().filter(|byte| **byte == b'\n').count()
}

impl Job for Lines {
    ghost use Rattle.own_jobs.specs.Jobs.{told_by_lines};

    ghost meaning = { λ _ input. told_by_lines input };

    fn run(&self, alloc: Global, input: &[u8]) -> Result<Outcome, AllocError> {
        let count = count_lines(input).to_string(alloc)?;
        Ok(Outcome {
            notes: Vec::new(alloc),
            end: End::Complete(count.into_bytes()),
        })
    }
}

/// `whole`: its input, if a line feed is the last byte. Else it was cut, and the job fails.
#[derive(Drop)]
pub struct Whole;

impl Job for Whole {
    ghost use Rattle.own_jobs.specs.Jobs.{told_by_whole};

    ghost meaning = { λ _ input. told_by_whole input };

    fn run(&self, alloc: Global, input: &[u8]) -> Result<Outcome, AllocError> {
        let end = if input.ends_with(b"\n") {
            End::Complete(Vec::from_slice(alloc, input)?)
        } else {
            End::Fail
        };
        Ok(Outcome {
            notes: Vec::new(alloc),
            end,
        })
    }
}
