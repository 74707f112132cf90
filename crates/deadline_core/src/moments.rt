//! Moments that may not be there, in nanoseconds of the caller's clock: which of two comes first,
//! and whether an alarm comes by a moment that is awaited.
ghost use Rattle.std.specs.Prelude.{◌≡◌, ◌↔◌, true};
ghost use Rattle.deadline_core.specs.Moments.{earlier_of, IsCovered};

/// The moment that comes first of two, where there is one.
pub fn earlier(one: Option<u64>, other: Option<u64>) -> Option<u64>
    ensures { result ≡ earlier_of one other }
{
    match (one, other) {
        (Some(first), Some(second)) => Some(first.min(second)),
        (Some(at), None) | (None, Some(at)) => Some(at),
        (None, None) => None,
    }
}

/// Whether the alarm comes by the moment that is awaited, if any is.
pub fn is_covered(awaited: Option<u64>, alarm: Option<u64>) -> bool
    ensures { result ≡ true ↔ IsCovered awaited alarm }
{
    match (awaited, alarm) {
        (None, _) => true,
        (Some(_), None) => false,
        (Some(at), Some(moment)) => moment <= at,
    }
}
