//! What the thread decides: when it is to be woken, and what it does after a turn.
//!
//! A batch that a device doesn't take stays, and goes on where its last byte was taken. So no line
//! is cut short, and none of it is lost, however often the device fails; what comes meanwhile waits
//! in the queue, and is counted as lost beyond its bound.

ghost use Rattle.std.specs.Prelude.{◌≡◌, ◌↔◌, ◌<◌, IsTrue, true, false};
ghost use Rattle.log_writer.specs.Turn.{turn_of, IsStuck};

use stream_base::attempt::AttemptError;

/// What one turn of the thread came to.
#[derive(Clone, Copy, Debug, PartialEq, Eq, Drop)]
pub enum Turn {
    /// Nothing was there to write.
    Empty,
    /// All that was there is written.
    Written,
    /// A write was interrupted; the rest may be written at once.
    Interrupted,
    /// The device took no more.
    Failed,
}

/// What the thread does next.
#[derive(Clone, Copy, Debug, PartialEq, Eq, Drop)]
pub enum Next {
    /// Another turn, at once.
    Again,
    /// It waits for a line, for the end, and where a device failed at most for `PAUSE_MS`.
    Waits,
    /// It is over.
    Ends,
}

impl Turn {
    /// What a turn came to that wrote so.
    pub fn of(wrote: Result<(), AttemptError>) -> Turn
        ensures { result ≡ turn_of wrote }
    {
        match wrote {
            Ok(()) => Turn::Written,
            Err(AttemptError::Interrupted) => Turn::Interrupted,
            Err(AttemptError::Failed) => Turn::Failed,
        }
    }

    /// What comes after this turn, ahead of which the end was asked for or wasn't. The end comes
    /// once all is written, or at the first failure: nobody waits for a device that fails.
    pub fn next(self, is_ended: bool) -> Next
        ensures ends { (result ≡ Next.Ends) ↔ (is_ended ≡ true) × IsStuck self }
        ensures waits { (result ≡ Next.Waits) ↔ (is_ended ≡ false) × IsStuck self }
    {
        match self {
            Turn::Written | Turn::Interrupted => Next::Again,
            Turn::Empty | Turn::Failed => { if is_ended { Next::Ends } else { Next::Waits } }
        }
    }
}

/// Whether a push wakes the thread, by the bytes that waited before it and that wait now. One that
/// finds some waiting doesn't: the thread was woken for those, and takes all at once.
pub fn must_wake(before: usize, now: usize) -> bool
    ensures { IsTrue result ↔ (before ≡ 0) × (0 < now) }
{
    before == 0 && now > 0
}
