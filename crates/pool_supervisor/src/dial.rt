//! What makes links to the job server.
ghost use Rattle.std.specs.Prelude.{◌≡◌, ◌∷◌, [], IfSome};
ghost use Rattle.job_runner.specs.Run.{seen_link};
ghost use Rattle.pool_supervisor.specs.Dials.{IsNew, closed, dialled, then_called};

use byte_io::{Sink, Source};
use std::snapshot::Snapshot;

/// What makes links to the job server, and gets word of those that were used how they ended.
///
/// One in memory can show contracts its calls, as a list. Of the system's network nothing is known, and it shows None.
pub trait Dial<L: Source + Sink> {
    ghost use Rattle.std.specs.Prelude.{List, Option};
    ghost use Rattle.pool_supervisor.specs.Dials.{DialCall};

    /// The calls so far, the first one first, or None.
    ghost calls: { Self → Option (List DialCall) };

    /// A new link, or none if the server could not be reached.
    fn dial(&mut self) -> Option<L>
        ensures calls { Self.calls self.new ≡ then_called (Self.calls self.old) (dialled result ∷ []) }
        ensures fresh { IfSome result (λ link. IsNew (seen_link L.input L.output link)) };

    /// A new link over which the server is asked for its status, or none if the server could not be reached.
    fn dial_for_status(&mut self) -> Option<L>
        ensures calls { Self.calls self.new ≡ then_called (Self.calls self.old) (dialled result ∷ []) }
        ensures fresh { IfSome result (λ link. IsNew (seen_link L.input L.output link)) }
    {
        self.dial()
    }

    /// A link was closed. This is what it was then: a link of the run's own after its use, and the link of a session once that is joined.
    /// A link over which no session came about is not reported.
    fn hung_up(&mut self, link: Snapshot<L>)
        ensures calls { Self.calls self.new
            ≡ then_called (Self.calls self.old) (closed (seen_link L.input L.output link.value) ∷ []) };
}
