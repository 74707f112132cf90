//! The handle's own calls: how a descriptor is opened, shared and waited for.

ghost use Rattle.std.specs.Prelude.{◌≡◌, true, IfOk, IfErr};
ghost use Rattle.std.specs.Arc.{arc_value};
ghost use Rattle.lockword.specs.TransitionOutcomes.{IsOnlyClosed};
ghost use Rattle.fd_descriptor.specs.FdHandle.{descriptor_of, cell_of, KeepsDeeds, DidNothing};
ghost use Rattle.fd_descriptor.specs.FdHandle.{IsFirst, heard_of};
ghost use Rattle.fd_descriptor.specs.FdHandle.{marks_of, saw_closed, saw_draining, saw_done};
ghost use Rattle.fd_descriptor.specs.FdHandle.{LooksAt};

use crate::descriptor::{Fd, FdHandle};
use crate::poll_cell::PollCell;
use crate::resource::Resource;
use base_types::OutOfMemory;
use lockword::LockWord;
use lockword_core::Word;
use rwloops::Fault;
use std::alloc::{Allocator, Global};
use std::sync::Arc;

impl<X: Resource> FdHandle<X> {
    /// A new descriptor, with its first handle. Where memory is refused the halves are dropped, and
    /// nobody destroys them.
    pub fn open(
        alloc: Global,
        read: X::R,
        write: X::W,
        key: u64,
    ) -> Result<FdHandle<X>, OutOfMemory>
        ensures first { IfOk result (IsFirst key) }
    {
        FdHandle::open_in(alloc, alloc, read, write, key)
    }
}

impl<X: Resource, A: Allocator> FdHandle<X, A> {
    /// As `open`, with the cell and the descriptor's own block over any allocator.
    pub fn open_in(
        alloc: A,
        words: Global,
        read: X::R,
        write: X::W,
        key: u64,
    ) -> Result<FdHandle<X, A>, OutOfMemory>
    where
        A: Copy,
        ensures first { IfOk result (IsFirst key) }
    {
        let Ok(cell) = Arc::new(alloc, PollCell::new(key)) else {
            return Err(OutOfMemory);
        };
        let control = X::control_of(&read);
        let (word, seat) = LockWord::new(words, read, write)?;
        let Ok(fd) = Arc::new(alloc, Fd::new(word, cell, control)) else {
            return Err(OutOfMemory);
        };
        Ok(FdHandle {
            fd,
            seat: Some(seat),
        })
    }

    /// Where the calls on this descriptor wait: whoever hears that it is ready, or that a moment
    /// has come, tells it to the cell. It takes no memory; refused is only a cell that is held too
    /// often.
    pub fn cell(&self) -> Result<Arc<PollCell, A>, OutOfMemory>
        ensures own { IfOk result (λ cell. arc_value cell ≡ cell_of self.now) }
    {
        match Arc::try_clone(&self.fd.cell) {
            Ok(cell) => Ok(cell),
            Err(_) => Err(OutOfMemory),
        }
    }

    /// The seven fields of the descriptor's lock word, by one load: who has it, who waits for it,
    /// and whether it is closed and whether it is draining.
    pub fn look(&mut self) -> Word
        ensures same { descriptor_of self.new ≡ descriptor_of self.old }
        ensures closed { saw_closed self.new ≡ result.closed }
        ensures stays { saw_closed self.old ≡ true → result.closed ≡ true }
        ensures draining { saw_draining self.new ≡ result.drain }
        ensures drain_stays { saw_draining self.old ≡ true → result.drain ≡ true }
        ensures done { saw_done self.new ≡ saw_done self.old }
        ensures gone { saw_done self.old ≡ true → IsOnlyClosed result }
        ensures looks { LooksAt self.old self.new result }
        ensures deeds { KeepsDeeds self.old self.new }
    {
        let Some(mut seat) = self.seat.take() else {
            unreachable!()
        };
        let word = self.fd.word.look(&mut seat);
        self.seat = Some(seat);
        word
    }

    /// Another handle on this descriptor, which has seen the same, also where that is a drain. It
    /// takes no memory; refused is only a descriptor that is held too often.
    pub fn share(&mut self) -> Result<FdHandle<X, A>, Fault>
        ensures same { descriptor_of self.new ≡ descriptor_of self.old }
        ensures kept { marks_of self.new ≡ marks_of self.old }
        ensures heard { heard_of self.new ≡ heard_of self.old }
        ensures told { IfOk result (λ other. heard_of other ≡ heard_of self.old) }
        ensures deeds { KeepsDeeds self.old self.new }
        ensures shared { IfOk result (λ other. descriptor_of other ≡ descriptor_of self.old) }
        ensures seen { IfOk result (λ other. marks_of other ≡ marks_of self.old) }
        ensures idle { IfOk result DidNothing }
        ensures refused { IfErr result (λ fault. fault ≡ Fault.OutOfMemory) }
    {
        let Ok(fd) = Arc::try_clone(&self.fd) else {
            return Err(Fault::OutOfMemory);
        };
        let Some(seat) = self.seat.take() else {
            unreachable!()
        };
        let (mine, theirs) = self.fd.word.split(seat);
        self.seat = Some(mine);
        Ok(FdHandle {
            fd,
            seat: Some(theirs),
        })
    }
}
