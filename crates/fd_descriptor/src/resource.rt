//! What a program brings to a descriptor: the two halves and how they are destroyed, a half that
//! can be shut, and alarms for deadlines.

ghost use Rattle.std.specs.Prelude.{◌≡◌, ℕ, true, Result, IfOk, IfErr};
ghost use Rattle.deadline_core.specs.declared.deadline.Dirs.{Dirs};
ghost use Rattle.rwloops.specs.declared.outcome.DevKind.{DevKind};

use base_types::OutOfMemory;
use deadline_core::Dirs;
use rwloops::DevKind;

/// What a descriptor guards: two halves, and how they are destroyed.
pub trait Resource {
    /// What is read from, or accepted from.
    type R: Drop;

    /// What is written to.
    type W: Drop;

    /// What the system is asked by about the socket, while a reference is held. It is let go after
    /// the halves, and once it was made nothing changes it.
    type Control: Drop;

    /// What the system is asked by about the socket of this read half, which is made before a
    /// descriptor has the half.
    fn control_of(read: &Self::R) -> Self::Control;

    /// Destroys both. It runs once, in the call that came last; only a `close` that is that call
    /// tells its fault.
    fn destroy(read: Self::R, write: Self::W) -> Result<(), DevKind>;
}

/// A half that can be shut while the other goes on, as `CloseWrite` of Go's `net.TCPConn`.
pub trait HalfClose {
    /// What is so of a half that was asked to be shut and answered this. Whoever has nothing to say
    /// of it leaves it out.
    ghost shut_told: { Self → Result (Unit {0}) DevKind → Type 0 } = { λ _ _. Unit {0} };

    /// What is so of a half that was asked whether its connection isn't made yet, and answered yes.
    /// It may be left out too.
    ghost connecting: { Self → Type 0 } = { λ _. Unit {0} };

    /// Whether the connection that it belongs to isn't made yet. Shutting it now would give the
    /// connection up, so a descriptor waits until the half is ready to be written, and asks again.
    fn is_connecting(&mut self) -> bool
        ensures told { result ≡ true → connecting self.new }
    {
        false
    }

    /// What came of its connection, once that isn't being made any more. Whoever has nothing to say
    /// of it leaves it out.
    fn connected(&self) -> Result<(), DevKind> {
        Ok(())
    }

    /// Shuts it for good.
    fn shut(&mut self) -> Result<(), DevKind>
        ensures told { shut_told self.new result };
}

/// Where a descriptor asks to be told of a moment: its timers, under whatever lock they need.
///
/// A cell calls them with its own lock held, so that of two threads which set a deadline the later
/// one also arms later. The order of locks is cell, then timers: whoever takes due timers out gives
/// the timers' lock up before it ticks a cell.
pub trait Alarms {
    /// What is so once they were asked for a `tick` of this key, for these directions, at this
    /// moment. Whoever has nothing to say of it leaves it out.
    ghost armed: { Self → ℕ → Dirs → ℕ → Type 0 } = { λ _ _ _ _. Unit {0} };

    /// What is so once they refused that for want of memory. It may be left out too.
    ghost refused: { Self → ℕ → Dirs → ℕ → Type 0 } = { λ _ _ _ _. Unit {0} };

    /// What is so once they were asked for no `tick` of this key and these directions any more. It
    /// may be left out too.
    ghost disarmed: { Self → ℕ → Dirs → Type 0 } = { λ _ _ _. Unit {0} };

    /// Asks for a `tick` of this key at `at`, in place of what was asked for these directions. One
    /// that is refused changes neither direction.
    fn arm(&self, key: u64, dirs: Dirs, at: u64) -> Result<(), OutOfMemory>
        ensures armed { IfOk result (λ _. armed self.now key dirs at) }
        ensures refused { IfErr result (λ _. refused self.now key dirs at) };

    /// Asks for no `tick` for these directions any more.
    fn disarm(&self, key: u64, dirs: Dirs)
        ensures told { disarmed self.now key dirs };
}
