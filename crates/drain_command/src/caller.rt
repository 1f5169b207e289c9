//! What a drain is lent by the machine that it is made on.

use byte_io::{Sink, Source};
use http_jobs::{CallTimes, Clock, Dial, Look};

/// What a drain is lent by the machine that it is made on: connections to a page, a clock, and pauses.
pub trait Caller {
    ghost use Rattle.std.specs.Prelude.{◌≡◌, IfSome, string_bytes};

    /// A connection to a page.
    type Link: Source + Sink + Look + Drop;

    /// What opens connections to one page.
    type Dials: Dial<Self::Link> + Drop;

    /// What shows the time.
    type Times: Clock + Drop;

    /// What opens connections to this address, as `127.0.0.1:4780`.
    fn dials(&self, address: String, times: CallTimes) -> Self::Dials
        ensures host { IfSome (Self.Dials.host result) (λ named. named ≡ string_bytes address) };

    /// A clock.
    fn times(&self) -> Self::Times;

    /// Waits for so many milliseconds.
    fn pause(&self, milliseconds: u32);
}
