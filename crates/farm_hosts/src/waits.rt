//! How the waits between tries grow.

ghost use Rattle.std.specs.Prelude.{◌≡◌, ◌+◌, ◌*◌, ◌^◌, ◌-◌, min, nat_le};
ghost use Rattle.farm_hosts.specs.Hosts.{longest_unreached};
ghost use Rattle.std.specs.Option.{option_map_or};

/// How many attempts pass before the first try.
pub const FIRST_WAIT: u64 = 1;

/// How many attempts pass at most before files or threads are looked for again, or a worker starts beside one that tries its host.
pub const LONGEST_WAIT: u64 = 64;

/// How many attempts pass at most before a host is tried again whose jobs were not served. Each try may cost a job one more turn.
pub const LONGEST_UNSERVED: u64 = 8;

/// For how many milliseconds at most a host is left alone that took no connection. A dial costs no job anything.
const LONGEST_UNREACHED_MS: u32 = 10_000;

/// How many attempts pass at most before a host is dialled again that took no connection, if `round_ms` milliseconds pass between two:
/// those of 10 seconds, 64 at most, and 1 at least.
pub fn longest_unreached(round_ms: u32) -> u64
    ensures { result ≡ longest_unreached round_ms }
{
    let attempts = LONGEST_UNREACHED_MS / round_ms.max(1);
    (attempts.max(1) as u64).min(LONGEST_WAIT)
}

/// The attempt that comes so many after this one.
pub fn due_after(attempt: u64, wait: u64) -> u64
    ensures { result ≡ min (attempt + wait) (2 ^ 64 - 1) }
{
    attempt.saturating_add(wait)
}

/// So many workers of a host may start in the attempt in which it is back, twice as many in the next one, and so on.
pub const FIRST_STARTS: u32 = 2;

/// So many workers may start in an attempt at most: a farm has no more.
pub const ALL_STARTS: u32 = 4_096;

/// How many may start in the attempt after one in which so many may.
pub fn more_starts(starts: u32) -> u32
    ensures { result ≡ min (starts * 2) 4096 }
{
    starts.saturating_mul(2).min(ALL_STARTS)
}

/// The wait that comes after this one: waits are 1, 2, 4 .. attempts, and so many at most.
pub fn longer_wait(wait: u64, longest: u64) -> u64
    ensures { result ≡ min (wait * 2) longest }
{
    wait.saturating_mul(2).min(longest)
}

/// What workers need to start was lacking at the last try.
#[derive(Clone, Copy, Debug, PartialEq, Eq)]
pub struct Lack {
    /// How many attempts pass from that try to the next one.
    pub wait: u64,
    /// The attempt of the next try.
    pub due: u64,
}

impl Lack {
    /// Whether it is time for the next try.
    pub fn is_due(self, attempt: u64) -> bool
        ensures { result ≡ nat_le self.due attempt }
    {
        self.due <= attempt
    }

    /// The same, but the next try is in this attempt.
    pub fn due_now(self, attempt: u64) -> Lack
        ensures due { result.due ≡ attempt }
        ensures wait { result.wait ≡ self.wait }
    {
        Lack {
            due: attempt,
            ..self
        }
    }
}

/// The lack after one more try in this attempt, at which it was so again: the waits grow as 1, 2, 4 .. attempts, and 64 at most.
pub fn lacking_again(before: Option<Lack>, attempt: u64) -> Lack
    ensures wait { result.wait ≡ option_map_or (λ r. min (r.wait * 2) 64) before 1 }
    ensures due { result.due ≡ min (attempt + result.wait) (2 ^ 64 - 1) }
{
    let wait = match before {
        None => FIRST_WAIT,
        Some(lack) => longer_wait(lack.wait, LONGEST_WAIT),
    };
    Lack {
        wait,
        due: due_after(attempt, wait),
    }
}
