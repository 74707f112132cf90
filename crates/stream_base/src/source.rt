//! Sources of bytes, which tell what they have left and how their reads went, and reading from
//! them.

ghost use Rattle.std.specs.Prelude.{◌≡◌, ◌<◌, ℕ, Bool, List, Option, IfOk, OnOk, OnErr, length};
ghost use Rattle.std.specs.Prelude.{take};
ghost use Rattle.std.specs.Io.{ReadsAtMost};
ghost use Rattle.std.specs.Io.KnownBytes.{Consumes, IsAtEnd, Keeps, ReadConsumes};
ghost use Rattle.stream_base.specs.Attempt.{interruptions_after, failed_after, FailedOrInterrupted};

use crate::attempt::{AttemptError, MAX_INTERRUPTIONS};

/// A source of bytes whose reads can be told apart: it says in proofs what is left, how often in a
/// row it was interrupted, and whether it ever failed. Std's readers say nothing of an error.
pub trait Source {
    // The bytes that reads will give from here on, where they are known.
    ghost remaining: { Self → Option (List ℕ) };

    // The interruptions since the last read that was not interrupted.
    ghost interruptions: { Self → ℕ };

    // It has failed at some read.
    ghost failed: { Self → Bool };

    // The second is the first at a later time, on the same device.
    ghost stays: { Self → Self → Type 0 };

    /// One read. `Ok(0)` into a buffer with room is the end.
    fn try_read(&mut self, buf: &mut [u8]) -> Result<usize, AttemptError>
        ensures bound { ReadsAtMost result buf.new }
        ensures bytes { ReadConsumes (remaining self.old) (remaining self.new) result buf.new }
        ensures row { interruptions self.new ≡ interruptions_after (interruptions self.old) result }
        ensures health { failed self.new ≡ failed_after (failed self.old) result }
        ensures same { stays self.old self.new };

    ghost stays_itself: { (a : Self) → stays a a };

    ghost stays_on: { (a b c : Self) → stays a b → stays b c → stays a c };
}

/// The source failed, or was interrupted more than `MAX_INTERRUPTIONS` times in a row.
#[derive(Clone, Copy, Debug, PartialEq, Eq, Drop)]
pub struct SourceFault;

/// Reads once into the buffer, and again as long as it is interrupted.
pub fn read_from<S: Source>(source: &mut S, buf: &mut [u8]) -> Result<usize, SourceFault>
    requires uninterrupted { S.interruptions source.old ≡ 0 }
    ensures bound { ReadsAtMost result buf.new }
    ensures bytes { IfOk result (λ n. Consumes (S.remaining source.old) (S.remaining source.new)
        (take n buf.new)) }
    ensures end { IfOk result (λ n. n ≡ 0 → 0 < length buf.new → IsAtEnd (S.remaining source.new)) }
    ensures row { OnOk result (S.interruptions source.new ≡ 0) }
    ensures health { OnOk result (S.failed source.new ≡ S.failed source.old) }
    ensures kept { OnErr result (Keeps (S.remaining source.old) (S.remaining source.new)) }
    ensures cause { OnErr result
        (FailedOrInterrupted (S.failed source.new) (S.interruptions source.new)) }
    ensures same { S.stays source.old source.new }
{
    for _ in 0..=MAX_INTERRUPTIONS {
        match source.try_read(buf) {
            Ok(n) => return Ok(n),
            Err(AttemptError::Interrupted) => {}
            Err(AttemptError::Failed) => return Err(SourceFault),
        }
    }
    Err(SourceFault)
}
