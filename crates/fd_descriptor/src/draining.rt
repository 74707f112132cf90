//! The drain of a descriptor.

ghost use Rattle.std.specs.Prelude.{◌≡◌, true, Err, IfErr};
ghost use Rattle.fd_descriptor.specs.FdHandle.{KeepsHandle, marks_of, saw_closed, saw_draining};
ghost use Rattle.fd_descriptor.specs.FdHandle.{closes_of, destroys_of, drains_of, HearsOn};
ghost use Rattle.fd_descriptor.specs.HandleCalls.{Drains, MayTell, IsRefusedEntry};
ghost use Rattle.fd_descriptor.specs.HandleCalls.{HasDrained, TellsWhoDrained};

use crate::descriptor::FdHandle;
use crate::leave::lock_fault;
use crate::resource::Resource;
use rwloops::Fault;
use std::alloc::Allocator;
use std::sync::Wait;

impl<X: Resource, A: Allocator> FdHandle<X, A> {
    /// Drains the descriptor for all handles, and for good: from then on no read, accept, write,
    /// shut or deadline begins, those that wait for a lock are woken and refused as `Draining`, and
    /// those that have their half go on and end as ever, also where they are parked. `close` and
    /// `share` work as before. `Closed` says that the descriptor is closed, `Draining` that
    /// somebody drained it before. It evicts nobody and takes no memory. Go has no such call: the
    /// rule is this project's own, so that a server may let its calls end before it closes.
    pub fn drain<T: Wait>(&mut self, rt: &T) -> Result<(), Fault>
        ensures keeps { KeepsHandle self.old self.new }
        ensures heard { HearsOn self.old self.new }
        ensures no_close { closes_of self.new ≡ closes_of self.old }
        ensures no_destroy { destroys_of self.new ≡ destroys_of self.old }
        ensures closed { saw_closed self.old ≡ true → result ≡ Err Fault.Closed }
        ensures draining { saw_draining self.old ≡ true → IsRefusedEntry result }
        ensures allowed { IfErr result (MayTell Drains (marks_of self.old) (marks_of self.new)) }
        ensures drained { HasDrained result (marks_of self.new) }
        ensures drainer { TellsWhoDrained result (drains_of self.old) (drains_of self.new) }
    {
        let Some(seat) = self.seat.take() else {
            unreachable!()
        };
        match fdmutex::drain(rt, &self.fd.word, seat) {
            Ok(left) => {
                self.seat = Some(left);
                Ok(())
            }
            Err((left, refusal)) => {
                self.seat = Some(left);
                Err(lock_fault(refusal))
            }
        }
    }
}
