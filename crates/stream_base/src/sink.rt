//! Sinks of bytes, which tell what they hold and how their writes went, and writing to them.

ghost use Rattle.std.specs.Prelude.{◌≡◌, ◌<◌, ◌≤◌, ◌||◌, ℕ, Bool, true, List, Option, IfOk, OnOk};
ghost use Rattle.std.specs.Prelude.{OnErr, is_ok, length, take};
ghost use Rattle.std.specs.Io.{WritesAtMost};
ghost use Rattle.std.specs.Io.KnownBytes.{Appends, Keeps, WriteAppends};
ghost use Rattle.stream_base.specs.Fronts.{AppendsFront, AppendsPart};
ghost use Rattle.stream_base.specs.Attempt.{interruptions_after, failed_after, flushed_after};
ghost use Rattle.stream_base.specs.Attempt.{taken, took_nothing_after, FailedOrInterrupted};
ghost use Rattle.stream_base.specs.Attempt.{WriteStopped};

use crate::attempt::{AttemptError, MAX_INTERRUPTIONS};

/// A sink of bytes whose writes can be told apart: it says in proofs what it holds, how often in a
/// row it was interrupted, whether it ever failed, and whether a write ever took nothing.
pub trait Sink {
    // The bytes that it holds, where they are known.
    ghost contents: { Self → Option (List ℕ) };

    // The interruptions since the last write or flush that was not interrupted.
    ghost interruptions: { Self → ℕ };

    // It has failed at some write or flush.
    ghost failed: { Self → Bool };

    // Some write of at least one byte took none.
    ghost took_nothing: { Self → Bool };

    // No byte was taken since the last flush that succeeded.
    ghost flushed: { Self → Bool };

    // The second is the first at a later time, on the same device.
    ghost stays: { Self → Self → Type 0 };

    /// One write, of all of the bytes or of a front of them.
    fn try_write(&mut self, bytes: &[u8]) -> Result<usize, AttemptError>
        ensures bound { WritesAtMost result bytes.now }
        ensures bytes { WriteAppends (contents self.old) (contents self.new) result bytes.now }
        ensures row { interruptions self.new ≡ interruptions_after (interruptions self.old) result }
        ensures health { failed self.new ≡ failed_after (failed self.old) result }
        ensures progress { took_nothing self.new
            ≡ took_nothing_after (took_nothing self.old) result bytes.now }
        ensures flushed { flushed self.new
            ≡ flushed_after (flushed self.old) (taken result bytes.now) }
        ensures same { stays self.old self.new };

    /// Passes on what the sink has kept back, if it keeps anything back.
    fn try_flush(&mut self) -> Result<(), AttemptError>
        ensures kept { Keeps (contents self.old) (contents self.new) }
        ensures row { interruptions self.new ≡ interruptions_after (interruptions self.old) result }
        ensures health { failed self.new ≡ failed_after (failed self.old) result }
        ensures progress { took_nothing self.new ≡ took_nothing self.old }
        ensures flushed { flushed self.new ≡ (is_ok result || flushed self.old) }
        ensures same { stays self.old self.new };

    ghost stays_itself: { (a : Self) → stays a a };

    ghost stays_on: { (a b c : Self) → stays a b → stays b c → stays a c };
}

/// The sink failed, was interrupted more than `MAX_INTERRUPTIONS` times in a row, or a write took
/// nothing.
#[derive(Clone, Copy, Debug, PartialEq, Eq, Drop)]
pub struct SinkFault;

/// Writes a front of the text, of one byte at least; again as long as it is interrupted.
fn write_some<K: Sink>(sink: &mut K, text: &[u8]) -> Result<usize, SinkFault>
    requires uninterrupted { K.interruptions sink.old ≡ 0 }
    requires some { 0 < length text.now }
    ensures bound { IfOk result (λ n. (0 < n) × (n ≤ length text.now)) }
    ensures bytes { IfOk result (λ n.
        Appends (K.contents sink.old) (K.contents sink.new) (take n text.now)) }
    ensures row { OnOk result (K.interruptions sink.new ≡ 0) }
    ensures health { OnOk result (K.failed sink.new ≡ K.failed sink.old) }
    ensures progress { OnOk result (K.took_nothing sink.new ≡ K.took_nothing sink.old) }
    ensures flushed { IfOk result (λ n.
        K.flushed sink.new ≡ flushed_after (K.flushed sink.old) (take n text.now)) }
    ensures kept { OnErr result (Keeps (K.contents sink.old) (K.contents sink.new)) }
    ensures cause { OnErr result
        (WriteStopped (K.failed sink.new) (K.interruptions sink.new) (K.took_nothing sink.new)) }
    ensures same { K.stays sink.old sink.new }
{
    for _ in 0..=MAX_INTERRUPTIONS {
        match sink.try_write(text) {
            Ok(0) => return Err(SinkFault),
            Ok(n) => return Ok(n),
            Err(AttemptError::Interrupted) => {}
            Err(AttemptError::Failed) => return Err(SinkFault),
        }
    }
    Err(SinkFault)
}

/// Writes the whole text. At a fault the sink has taken a front of it, and never the whole.
pub fn write_to<K: Sink>(sink: &mut K, text: &[u8]) -> Result<(), SinkFault>
    requires uninterrupted { K.interruptions sink.old ≡ 0 }
    ensures ok { OnOk result (Appends (K.contents sink.old) (K.contents sink.new) text.now) }
    ensures row { OnOk result (K.interruptions sink.new ≡ 0) }
    ensures health { OnOk result (K.failed sink.new ≡ K.failed sink.old) }
    ensures progress { OnOk result (K.took_nothing sink.new ≡ K.took_nothing sink.old) }
    ensures flushed { OnOk result
        (K.flushed sink.new ≡ flushed_after (K.flushed sink.old) text.now) }
    ensures front { OnErr result
        (AppendsPart (K.contents sink.old) (K.contents sink.new) text.now) }
    ensures cause { OnErr result
        (WriteStopped (K.failed sink.new) (K.interruptions sink.new) (K.took_nothing sink.new)) }
    ensures same { K.stays sink.old sink.new }
{
    let mut at = 0;
    while at < text.len() {
        match write_some(sink, &text[at..]) {
            Ok(n) => at += n,
            Err(fault) => return Err(fault),
        }
    }
    Ok(())
}

/// Makes the sink pass on what it has kept back, so that a fault of doing so is seen here.
pub fn flush_to<K: Sink>(sink: &mut K) -> Result<(), SinkFault>
    requires uninterrupted { K.interruptions sink.old ≡ 0 }
    ensures kept { Keeps (K.contents sink.old) (K.contents sink.new) }
    ensures row { OnOk result (K.interruptions sink.new ≡ 0) }
    ensures health { OnOk result (K.failed sink.new ≡ K.failed sink.old) }
    ensures progress { K.took_nothing sink.new ≡ K.took_nothing sink.old }
    ensures flushed { OnOk result (K.flushed sink.new ≡ true) }
    ensures cause { OnErr result
        (FailedOrInterrupted (K.failed sink.new) (K.interruptions sink.new)) }
    ensures same { K.stays sink.old sink.new }
{
    for _ in 0..=MAX_INTERRUPTIONS {
        match sink.try_flush() {
            Ok(()) => return Ok(()),
            Err(AttemptError::Interrupted) => {}
            Err(AttemptError::Failed) => return Err(SinkFault),
        }
    }
    Err(SinkFault)
}

/// Writes the whole text, and makes the sink pass on all that it holds. At a fault the sink has
/// taken a front of the text, which is the whole where the fault is the flush's. The clauses are
/// those of `write_to` but for `flushed` and `front`, written out, since a caller reads them here
/// alone.
pub fn deliver_to<K: Sink>(sink: &mut K, text: &[u8]) -> Result<(), SinkFault>
    requires uninterrupted { K.interruptions sink.old ≡ 0 }
    ensures ok { OnOk result (Appends (K.contents sink.old) (K.contents sink.new) text.now) }
    ensures row { OnOk result (K.interruptions sink.new ≡ 0) }
    ensures health { OnOk result (K.failed sink.new ≡ K.failed sink.old) }
    ensures progress { OnOk result (K.took_nothing sink.new ≡ K.took_nothing sink.old) }
    ensures flushed { OnOk result (K.flushed sink.new ≡ true) }
    ensures front { OnErr result
        (AppendsFront (K.contents sink.old) (K.contents sink.new) text.now) }
    ensures cause { OnErr result
        (WriteStopped (K.failed sink.new) (K.interruptions sink.new) (K.took_nothing sink.new)) }
    ensures same { K.stays sink.old sink.new }
{
    if let Err(fault) = write_to(sink, text) {
        return Err(fault);
    }
    flush_to(sink)
}
