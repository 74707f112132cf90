//! Moments: when a read or a write that nothing comes of gives up, and when a pause is over.

ghost use Rattle.std.specs.Prelude.{◌≡◌, ◌≤◌, ◌+◌, ◌*◌, ◌-◌, ◌^◌, ◌↔◌, min, true, ℕ, Some};

/// What tells the moment, in nanoseconds from a start of its own.
pub trait Moments {
    /// The moment now.
    fn now(&self) -> u64;
}

/// The nanoseconds of a millisecond. The clause below has the figure itself, so that another value
/// is refused.
const NANOS_PER_MS: u64 = 1_000_000;

/// The moment at which a read or a write that begins now gives up, by the idle time of its rule.
/// `now` and the moment are in nanoseconds of one clock. A sum past the greatest `u64` is the
/// greatest `u64`.
pub fn idle_deadline(now: u64, idle_ms: u32) -> u64
    ensures { result ≡ min (now + idle_ms * 1000000) (2 ^ 64 - 1) }
{
    now.saturating_add(idle_ms as u64 * NANOS_PER_MS)
}

/// The moment at which a pause of so many milliseconds is over that begins now. A sum past the
/// greatest `u64` is the greatest `u64`.
pub fn pause_end(now: u64, pause_ms: u64) -> u64
    ensures { result ≡ min (now + pause_ms * 1000000) (2 ^ 64 - 1) }
{
    now.saturating_add(pause_ms.saturating_mul(NANOS_PER_MS))
}

/// Whether a moment stands and has come. What has no moment waits for none.
pub fn has_come(moment: Option<u64>, now: u64) -> bool
    ensures { result ≡ true ↔ (at : ℕ) × (moment ≡ Some at) × (at ≤ now) }
{
    match moment {
        Some(at) => at <= now,
        None => false,
    }
}
