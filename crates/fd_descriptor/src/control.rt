//! A call through a descriptor to its socket, under a reference.

ghost use Rattle.std.specs.Prelude.{◌≡◌, IfOk};
ghost use Rattle.std.specs.Fn.{FnOnceReturnsAt};
ghost use Rattle.fd_descriptor.specs.Entry.{IsEntry};
ghost use Rattle.fd_descriptor.specs.FdHandle.{control_of};
ghost use Rattle.fd_descriptor.specs.HandleCalls.{Controls};

use crate::descriptor::{Fd, FdHandle};
use crate::leave::{leave, lock_fault};
use crate::resource::Resource;
use fdmutex::{decref, incref};
use rwloops::Fault;
use std::alloc::Allocator;
use std::sync::Wait;

impl<X: Resource, A: Allocator> FdHandle<X, A> {
    /// Asks the system about the descriptor's socket: calls `act` once, with what the resource made
    /// of its read half, and answers what that gave. Until `act` has returned the socket isn't
    /// destroyed, nor its number given out again. It waits for no other call, and takes no memory.
    ///
    /// Where it is refused `act` isn't called: as `Closed` once the descriptor is closed, also
    /// where its last user hasn't left yet, as `Draining` once it drains, and as `TooMany` where
    /// no reference is left. A close waits until `act` has returned, so `act` closes no handle of
    /// the same descriptor. Go's `RawControl` and `SetsockoptInt` (`fd_unix.go`, `fd_posix.go`) are
    /// so; the refusal of one that drains is this project's own.
    pub fn control<T, Y, F>(&mut self, rt: &T, act: F) -> Result<Y, Fault>
    where
        T: Wait,
        F: FnOnce(&X::Control) -> Y,
        requires act { F.IsAlwaysCallable act }
        ensures entry { IsEntry Controls self.old self.new result }
        ensures did { IfOk result (λ answer.
            FnOnceReturnsAt F.FnOnce act (control_of self.old) answer) }
    {
        let Some(seat) = self.seat.take() else {
            unreachable!()
        };
        let fd: &Fd<X, A> = &self.fd;
        let held = match incref(rt, &fd.word, seat) {
            Ok(held) => held,
            Err((left, refusal)) => {
                self.seat = Some(left);
                return Err(lock_fault(refusal));
            }
        };
        let answer = act(fd.control_for(&held));
        self.seat = Some(leave::<X>(&fd.word, decref(&fd.word, held)));
        Ok(answer)
    }
}
