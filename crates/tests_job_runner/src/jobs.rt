//! Jobs for the tests.

ghost use Rattle.std.specs.Prelude.{◌≡◌, ◌+◌, ◌∷◌, [], IfOk, reverse, map};
ghost use Rattle.job_runner.specs.Told.{progress, piece, warning, remark_of};

use job_runner::{End, Job, Note, Outcome};
use std::alloc::{AllocError, Global};

/// A job for tests.
#[derive(Clone, Copy, Debug, PartialEq, Eq)]
pub enum TestJob {
    /// Tells its input in reverse.
    Reverse,
    /// The same, after a half of progress, a piece `p` and a warning `w`.
    Talk,
    /// Tells a half of progress, a piece `a`, and the result `b`.
    Notes,
    /// Fails.
    Fail,
    /// Finds no memory.
    Exhaust,
    /// Tells so many zeros.
    Fill(u32),
}

/// The input in reverse.
fn reversed(alloc: Global, input: &[u8]) -> Result<Vec<u8>, AllocError>
    ensures { IfOk result (λ text. text.items ≡ reverse input.now) }
{
    let mut text = Vec::from_slice(alloc, input)?;
    text.reverse();
    Ok(text)
}

/// What a job says that talks.
fn talk(alloc: Global) -> Result<Vec<Note>, AllocError>
    ensures { IfOk result (λ notes. map remark_of notes.items ≡ progress 1 2 ∷ piece (112 ∷ []) ∷ warning (119 ∷ []) ∷ []) }
{
    let mut notes = Vec::new(alloc);
    notes.push(Note::Progress(1, 2))?;
    notes.push(Note::Piece(vec![in alloc; 112]?))?;
    notes.push(Note::Warning(vec![in alloc; 119]?))?;
    Ok(notes)
}

/// What a job says before its result `b`.
fn notes(alloc: Global) -> Result<Vec<Note>, AllocError>
    ensures { IfOk result (λ notes. map remark_of notes.items ≡ progress 1 2 ∷ piece (97 ∷ []) ∷ []) }
{
    let mut notes = Vec::new(alloc);
    notes.push(Note::Progress(1, 2))?;
    notes.push(Note::Piece(vec![in alloc; 97]?))?;
    Ok(notes)
}

impl Job for TestJob {
    ghost use Rattle.tests_job_runner.specs.Jobs.{told_by_test};

    ghost meaning = { told_by_test };

    fn run(&self, alloc: Global, input: &[u8]) -> Result<Outcome, AllocError> {
        match *self {
            TestJob::Reverse => Ok(Outcome {
                notes: Vec::new(alloc),
                end: End::Complete(reversed(alloc, input)?),
            }),
            TestJob::Talk => Ok(Outcome {
                notes: talk(alloc)?,
                end: End::Complete(reversed(alloc, input)?),
            }),
            TestJob::Notes => Ok(Outcome {
                notes: notes(alloc)?,
                end: End::Complete(vec![in alloc; 98]?),
            }),
            TestJob::Fail => Ok(Outcome {
                notes: Vec::new(alloc),
                end: End::Fail,
            }),
            TestJob::Exhaust => Err(AllocError),
            TestJob::Fill(count) => Ok(Outcome {
                notes: Vec::new(alloc),
                end: End::Complete(vec![in alloc; 0u8; count as usize]?),
            }),
        }
    }
}
