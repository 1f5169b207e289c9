//! Jobs by name.

ghost use Rattle.std.specs.Prelude.{◌≡◌, ℕ, List, Option, IfOk, is_err, is_some, map};
ghost use Rattle.std.specs.Option.{option_map};
ghost use Rattle.job_runner.specs.Told.{Told, told_of};
ghost use Rattle.std.specs.Cmp.Lexicographic.{slice_cmp};
ghost use Rattle.std.specs.List.{IsAllAdjacentAnswer, find};
ghost use Rattle.std.specs.List.Sorted.{IsStrictlySortedBy-prop};
ghost use Rattle.std.specs.Ordering.{is_lt, nat_cmp};
ghost use Rattle.std.specs.Str.{bytes_eq};
ghost use Rattle.job_runner.specs.Table.{is_named_twice, told_by, RiseByName};

use crate::job::{Job, Outcome};
use std::alloc::{AllocError, Global};
use std::cmp::Ordering;
use thiserror::Error;

/// Jobs by name, each with a stated meaning. Many sessions may run them at once.
pub trait NamedJobs {
    /// What the job of a name reports for an input, and none if there is no such name.
    ghost told: { Self → List ℕ → List ℕ → Option Told };

    /// Runs the job of that name. None if there is no such name. The only error is out of memory.
    fn run(&self, alloc: Global, name: &[u8], input: &[u8]) -> Result<Option<Outcome>, AllocError>
        ensures { IfOk result (λ outcome. option_map told_of outcome ≡ told self.now name.now input.now) };

    /// Whether there is a job of that name.
    fn serves(&self, name: &[u8]) -> bool
        ensures { (input : List ℕ) → result ≡ is_some (told self.now name.now input) };
}

/// Two jobs have one name.
#[derive(Clone, Copy, Debug, PartialEq, Eq, Error)]
#[error("two jobs have one name")]
pub struct TwiceNamed;

/// Jobs by name, boxed unless the caller says otherwise. A name is looked up by binary search.
#[derive(Drop)]
pub struct JobTable<J = Box<dyn Job + Send + Sync>> {
    /// Each name with its job, in byte order of the names.
    jobs: Vec<(Vec<u8>, J)>,
    ghost rising: { RiseByName (λ entry. entry.0.items) jobs.items } by { IsStrictlySortedBy-prop _ _ },
}

/// The order of the names of two entries, byte by byte.
fn by_name<J>(one: &(Vec<u8>, J), other: &(Vec<u8>, J)) -> Ordering
    ensures { result ≡ slice_cmp nat_cmp one.now.0.items other.now.0.items }
{
    one.0.as_slice().cmp(other.0.as_slice())
}

/// The order of an entry's name and a name.
fn at_name<J>(entry: &(Vec<u8>, J), name: &[u8]) -> Ordering
    ensures { result ≡ slice_cmp nat_cmp entry.now.0.items name.now }
{
    entry.0.as_slice().cmp(name)
}

/// Whether each name is below the next.
fn rise<J>(jobs: &[(Vec<u8>, J)]) -> bool
    ensures { IsAllAdjacentAnswer (λ x y b. b ≡ is_lt (slice_cmp nat_cmp x.0.items y.0.items)) jobs.now result }
{
    jobs.is_sorted_by(|one, other| by_name(one, other).is_lt())
}

impl<J: Job> JobTable<J> {
    /// A table of these jobs. It is refused exactly if two have one name, and takes no memory.
    pub fn new(mut jobs: Vec<(Vec<u8>, J)>) -> Result<JobTable<J>, TwiceNamed>
        ensures same { IfOk result (λ table. (name input : List ℕ) → ⟦<JobTable<J> as NamedJobs>⟧.told table name input
            ≡ told_by (λ entry. entry.0.items) (λ entry. J.meaning entry.1) jobs.items name input) }
        ensures refused { is_err result ≡ is_named_twice (λ entry. entry.0.items) jobs.items }
    {
        jobs.sort_unstable_by(|one, other| by_name(one, other));
        if !rise(jobs.as_slice()) {
            return Err(TwiceNamed);
        }
        Ok(JobTable { jobs })
    }
}

impl<J> JobTable<J> {
    /// The entry of a name.
    fn entry(&self, name: &[u8]) -> Option<&(Vec<u8>, J)>
        ensures { option_map (λ entry. entry.now) result ≡ find (λ entry. bytes_eq entry.0.items name.now) self.now.jobs.items }
    {
        match self.jobs.binary_search_by(|entry| at_name(entry, name)) {
            Ok(place) => Some(&self.jobs[place]),
            Err(_) => None,
        }
    }
}

impl<J: Job> NamedJobs for JobTable<J> {
    ghost use Rattle.job_runner.specs.Table.{told_by};

    ghost told = { λ table. told_by (λ entry. entry.0.items) (λ entry. J.meaning entry.1) table.jobs.items };

    fn run(&self, alloc: Global, name: &[u8], input: &[u8]) -> Result<Option<Outcome>, AllocError> {
        match self.entry(name) {
            Some(entry) => Ok(Some(entry.1.run(alloc, input)?)),
            None => Ok(None),
        }
    }

    fn serves(&self, name: &[u8]) -> bool {
        self.entry(name).is_some()
    }
}
