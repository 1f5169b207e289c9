//! Why sessions ended, counted.
ghost use Rattle.std.specs.Prelude.{◌≡◌, map};
ghost use Rattle.pool_supervisor.specs.EndCounts.{all_causes, ended_for, no_ends, one_more, with_cause};

use job_runner::EndCause;

/// How many causes there are for which a session ends.
const CAUSES: usize = EndCause::ALL.len();

/// How many sessions ended for each cause.
#[derive(Clone, Copy, Debug, PartialEq, Eq)]
pub struct EndCounts {
    counts: [u64; CAUSES],
}

/// One more, or the same at the greatest number that a count can hold.
fn one_more(count: u64) -> u64
    ensures { result ≡ one_more count }
{
    count.saturating_add(1)
}

impl EndCounts {
    /// No session has ended.
    pub fn none() -> EndCounts
        ensures { result ≡ no_ends }
    {
        EndCounts {
            counts: [0; CAUSES],
        }
    }

    /// How many sessions ended for this cause.
    pub fn of(&self, cause: EndCause) -> u64
        ensures { result ≡ ended_for cause self.now }
    {
        self.counts[cause.place()]
    }

    /// Each cause with its count, in the order of the causes' numbers.
    pub fn each(&self) -> [(EndCause, u64); CAUSES]
        ensures { result ≡ map (λ cause. (cause, ended_for cause self.now)) all_causes }
    {
        let mut each = [(EndCause::Retired, 0); CAUSES];
        for place in 0..CAUSES {
            let cause = EndCause::ALL[place];
            each[place] = (cause, self.of(cause));
        }
        each
    }

    /// One more session has ended for this cause. A count stays at the greatest number that it can hold.
    pub fn count(&mut self, cause: EndCause)
        ensures { self.new ≡ with_cause cause self.old }
    {
        self.counts[cause.place()] = one_more(self.counts[cause.place()]);
    }
}
