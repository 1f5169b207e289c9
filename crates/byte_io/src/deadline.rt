//! Until when something has to be done, in milliseconds since some moment that stays the same.

ghost use Rattle.std.specs.Prelude.{◌≡◌};
ghost use Rattle.byte_io.specs.Deadline as spec;

/// The deadline of what starts now and may take so many milliseconds. None if the time is not known.
pub fn deadline_from(limit_ms: u64, now: Option<u64>) -> Option<u64>
    ensures from { result ≡ spec.deadline_from limit_ms now }
{
    match now {
        Some(now) => Some(now.saturating_add(limit_ms)),
        None => None,
    }
}

/// Whether the deadline has come. Without a deadline, or if the time is not known, it has not.
pub fn is_past(deadline: Option<u64>, now: Option<u64>) -> bool
    ensures past { result ≡ spec.is_past deadline now }
{
    match (deadline, now) {
        (Some(deadline), Some(now)) => deadline <= now,
        _ => false,
    }
}
