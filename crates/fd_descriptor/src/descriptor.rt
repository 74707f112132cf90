//! A descriptor, and the handles through which alone it is reached.

ghost use Rattle.std.specs.Prelude.{◌≡◌};
ghost use Rattle.std.specs.Arc.{arc_value};
ghost use Rattle.lockword.specs.Places.{ref_place};
ghost use Rattle.lockword.specs.TransitionOutcomes.{IsSeatOf};
ghost use Rattle.fd_descriptor.specs.Marks.{HoldsSeatOf};

use crate::poll_cell::PollCell;
use crate::resource::Resource;
use lockword::{LockWord, Ref, Seat};
use std::alloc::{Allocator, Global};
use std::sync::Arc;

/// A descriptor: the lock word with both halves, and where its calls wait.
#[derive(Drop)]
pub struct Fd<X: Resource, A: Allocator = Global> {
    pub(crate) word: LockWord<X::R, X::W>,
    pub(crate) cell: Arc<PollCell, A>,
    // No other module reaches it but by `control_for`, which takes a reference.
    control: X::Control,
}

impl<X: Resource, A: Allocator> Fd<X, A> {
    pub(crate) fn new(
        word: LockWord<X::R, X::W>,
        cell: Arc<PollCell, A>,
        control: X::Control,
    ) -> Fd<X, A>
        ensures { result ≡ record { word = word; cell = cell; control = control } }
    {
        Fd {
            word,
            cell,
            control,
        }
    }

    /// What the system is asked by, for as long as this reference is held: until it is given back,
    /// nobody destroys the halves, so that the socket's number is the socket's still.
    pub(crate) fn control_for<'a>(&'a self, held: &'a Ref<X::R, X::W>) -> &'a X::Control
        requires { IsSeatOf self.now.word (ref_place held.now) }
        ensures { result.now ≡ self.now.control }
    {
        let _ = held;
        &self.control
    }
}

/// A handle on a descriptor, with one seat of its lock word, as a `net.Conn` of Go's.
///
/// Any number of handles may be on one descriptor, and each call takes its handle alone. A handle
/// may be dropped: that closes nothing, and when the last one goes while the descriptor is open,
/// the halves are dropped and nobody destroys them.
#[derive(Drop)]
pub struct FdHandle<X: Resource, A: Allocator = Global> {
    pub(crate) fd: Arc<Fd<X, A>, A>,
    pub(crate) seat: Option<Seat<X::R, X::W>>,
    ghost seated: { HoldsSeatOf (arc_value fd).word seat },
}
