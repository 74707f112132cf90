//! What the lock of a cell guards: a poll state, and in which directions somebody is parked.
//! Nothing here waits or wakes.
//!
//! A call that changes the state answers who has to be woken. It clears their flags, so that nobody
//! else wakes them: whoever made the call owes the wake-up, once the lock is given up.

ghost use Rattle.std.specs.Prelude.{◌≡◌, ◌&&◌, ◌||◌, not, List, [], ◌∷◌, true, false, Ok, IfOk};
ghost use Rattle.std.specs.Prelude.{IfErr};
ghost use Rattle.std.specs.Prelude.{OnSome, IfNone};
ghost use Rattle.base_types.specs.declared.direction.Dir.{Dir};
ghost use Rattle.deadline_core.specs.PollHistory.{Call, Prepared, Looked, Readied, DeadlineSet};
ghost use Rattle.deadline_core.specs.PollHistory.{Ticked, Evicted};
ghost use Rattle.deadline_core.specs.PollHistory.{prepare_answer, look_answer, closing, covers};
ghost use Rattle.deadline_core.specs.PollHistory.{same_dir};
ghost use Rattle.fd_descriptor.specs.Parking.{IsAfter, is_parked, is_woken, is_park};

use crate::deadlines::Setting;
use base_types::Dir;
use deadline_core::{Dirs, Look, PollState, Refusal};

/// A poll state, with a flag for each direction in which somebody may be parked.
///
/// Only a look that answers `Park` sets a flag, and only a call that answers it as woken clears it.
#[derive(Drop)]
pub struct Watched {
    state: PollState,
    read_parked: bool,
    write_parked: bool,
}

/// The directions whose callers were parked, and have to be woken.
#[derive(Clone, Copy)]
pub struct Parked {
    pub read: bool,
    pub write: bool,
}

/// What a state that isn't closing gives: without it no alarm is asked for.
#[derive(Drop)]
pub(crate) struct NotClosing {
    asked: (),
}

impl Watched {
    /// A new poll state, and nobody parked.
    pub fn new() -> Watched
        ensures after { IsAfter result [] }
        ensures nobody { (d : Dir) → is_parked result d ≡ false }
    {
        Watched {
            state: PollState::new(),
            read_parked: false,
            write_parked: false,
        }
    }

    /// Whether the state is closing.
    pub fn is_closing(&self) -> bool
        ensures answer { (calls : List Call) → IsAfter self.now calls → result ≡ closing calls }
    {
        self.state.is_closing()
    }

    /// What it takes to ask for an alarm, unless the state is closing.
    pub(crate) fn not_closing(&self) -> Option<NotClosing>
        ensures open { (calls : List Call) → IsAfter self.now calls
            → OnSome result (closing calls ≡ false) }
        ensures closing { (calls : List Call) → IsAfter self.now calls
            → IfNone result (closing calls ≡ true) }
    {
        if self.is_closing() {
            None
        } else {
            Some(NotClosing { asked: () })
        }
    }

    /// Begins a call: answers why it is refused, or forgets the notice that an earlier one left.
    pub fn prepare(&mut self, dir: Dir) -> Result<(), Refusal>
        ensures answer { (calls : List Call) → IsAfter self.old calls
            → result ≡ prepare_answer dir calls }
        ensures after { (calls : List Call) → IsAfter self.old calls
            → IsAfter self.new (Prepared dir result ∷ calls) }
        ensures parked { (d : Dir) → is_parked self.new d ≡ is_parked self.old d }
    {
        self.state.prepare(dir)
    }

    /// Looks whether a call may go on. Where it has to park its flag is set, so that it is woken.
    pub fn look(&mut self, dir: Dir) -> Look
        ensures answer { (calls : List Call) → IsAfter self.old calls
            → result ≡ look_answer dir calls }
        ensures after { (calls : List Call) → IsAfter self.old calls
            → IsAfter self.new (Looked dir result ∷ calls) }
        ensures parked { (d : Dir) → is_parked self.new d ≡
            ((is_park result && same_dir dir d) || is_parked self.old d) }
    {
        let answer = self.state.look(dir);
        if let Look::Park = answer {
            match dir {
                Dir::Read => self.read_parked = true,
                Dir::Write => self.write_parked = true,
            }
        }
        answer
    }

    // Clears the flags of these directions, whose callers are woken next.
    fn unpark(&mut self, dirs: Dirs) -> Parked
        ensures woken { (d : Dir) → is_woken result d ≡ (covers dirs d && is_parked self.old d) }
        ensures parked { (d : Dir) → is_parked self.new d ≡
            (not (covers dirs d) && is_parked self.old d) }
        ensures state { self.new.state ≡ self.old.state }
    {
        let read = dirs != Dirs::Write && self.read_parked;
        let write = dirs != Dirs::Read && self.write_parked;
        self.read_parked = dirs == Dirs::Write && self.read_parked;
        self.write_parked = dirs == Dirs::Read && self.write_parked;
        Parked { read, write }
    }

    /// Notes that a direction is ready: who is parked in it has to be woken, and nobody else.
    pub fn notify(&mut self, dir: Dir) -> Parked
        ensures after { (calls : List Call) → IsAfter self.old calls
            → IsAfter self.new (Readied dir ∷ calls) }
        ensures woken { (d : Dir) → is_woken result d ≡ (same_dir dir d && is_parked self.old d) }
        ensures parked { (d : Dir) → is_parked self.new d ≡
            (not (same_dir dir d) && is_parked self.old d) }
    {
        self.state.ready(dir);
        self.unpark(match dir {
            Dir::Read => Dirs::Read,
            Dir::Write => Dirs::Write,
        })
    }

    /// Shows the state the clock. Everybody who is parked has to be woken: who isn't expired looks,
    /// and parks again.
    pub fn tick(&mut self, now: u64) -> Parked
        ensures after { (calls : List Call) → IsAfter self.old calls
            → IsAfter self.new (Ticked now ∷ calls) }
        ensures woken { (d : Dir) → is_woken result d ≡ is_parked self.old d }
        ensures parked { (d : Dir) → is_parked self.new d ≡ false }
    {
        self.state.tick(now);
        self.unpark(Dirs::Both)
    }

    /// Makes the state closing, for good: everybody who is parked has to be woken.
    pub fn evict(&mut self) -> Parked
        ensures after { (calls : List Call) → IsAfter self.old calls
            → IsAfter self.new (Evicted ∷ calls) }
        ensures woken { (d : Dir) → is_woken result d ≡ is_parked self.old d }
        ensures parked { (d : Dir) → is_parked self.new d ≡ false }
    {
        self.state.evict();
        self.unpark(Dirs::Both)
    }

    /// Sets a deadline: who is parked in its directions has to be woken, to look at the new one. A
    /// state that is closing answers `Closed`, and nothing changes.
    pub fn set(&mut self, setting: Setting) -> Result<Parked, Refusal>
        ensures closed { (calls : List Call) → IsAfter self.old calls → closing calls ≡ true
            → result ≡ Err Refusal.Closed }
        ensures open { (calls : List Call) → IsAfter self.old calls → closing calls ≡ false
            → IfErr result (λ refusal. ⊥) }
        ensures after { (calls : List Call) → IsAfter self.old calls
            → IfOk result (λ woken. IsAfter self.new
            (DeadlineSet setting.dirs setting.deadline setting.now (Ok tt) ∷ calls)) }
        ensures woken { IfOk result (λ woken. (d : Dir)
            → is_woken woken d ≡ (covers setting.dirs d && is_parked self.old d)) }
        ensures parked { IfOk result (λ woken. (d : Dir)
            → is_parked self.new d ≡ (not (covers setting.dirs d) && is_parked self.old d)) }
        ensures refused { IfErr result (λ refusal. self.new ≡ self.old) }
    {
        if self.state.is_closing() {
            return Err(Refusal::Closed);
        }
        // A state that isn't closing refuses no deadline.
        let _ = self.state.set(setting.dirs, setting.deadline, setting.now);
        Ok(self.unpark(setting.dirs))
    }
}
