//! What shows the time.

ghost use Rattle.std.specs.Prelude.{◌≡◌, ◌∷◌, [], ℕ, List, Option};
ghost use Rattle.byte_io.specs.Deadline.{is_past};
ghost use Rattle.http_jobs.specs.Clock.{shown_then};

/// What shows the time.
///
/// One in memory can show contracts its readings, as a list. Of the system's clock nothing is known, and it shows None.
pub trait Clock {
    ghost use Rattle.std.specs.Prelude.{ℕ, List, Option};

    /// The times that it showed so far, the first one first, or None.
    ghost shown: { Self → Option (List (Option ℕ)) };

    /// Milliseconds since some moment that stays the same, or None if the time is not known. It never goes back.
    fn now_ms(&mut self) -> Option<u64>
        ensures { Self.shown self.new ≡ shown_then (Self.shown self.old) (result ∷ []) };
}

/// Whether the deadline has come. Without a deadline, or if the time is not known, it has not.
pub fn is_late<C: Clock>(clock: &mut C, deadline: Option<u64>) -> bool
    ensures { (time : Option ℕ) × (C.shown clock.new ≡ shown_then (C.shown clock.old) (time ∷ [])) × (result ≡ is_past deadline time) }
{
    byte_io::is_past(deadline, clock.now_ms())
}
