//! A handle as a writer. It holds no byte; what it may hold is the fault of a write that was cut
//! off after some bytes: these count, and the next write tells the fault.

ghost use Rattle.std.specs.Prelude.{◌≡◌, ℕ, ◌⊎◌, true, length, None, Some, Ok, Result, IfSome};
ghost use Rattle.std.specs.Io.{WritesAtMost};
ghost use Rattle.std.specs.Io.KnownBytes.{WriteAppends};
ghost use Rattle.rwloops.specs.declared.fault.Fault.{Fault};
ghost use Rattle.rwloops.specs.declared.fault.WriteFault.{WriteFault};
ghost use Rattle.fd_descriptor.specs.FdHandle.{KeepsHandle, saw_closed, saw_draining};
ghost use Rattle.handle_io.specs.Answers.{IsWriteOf, IsWriteAnswer, IsNotConnected, TellsFault};
ghost use Rattle.handle_io.specs.Writer.{handle_of, untold_of};

use crate::kinds::error_of;
use fd_descriptor::{Fault, FdHandle, Resource, TryWrite};
use std::io;
use std::io::Write;
use std::sync::Wait;

/// A handle as a writer. Others read, write, time and close the same descriptor meanwhile, by
/// handles of their own.
#[derive(Drop)]
pub struct HandleWriter<X: Resource, R: Drop> {
    rt: R,
    handle: FdHandle<X>,
    untold: Option<Fault>,
}

impl<X: Resource, R: Drop> HandleWriter<X, R> {
    /// A writer by this handle, which waits by this runtime.
    pub fn new(rt: R, handle: FdHandle<X>) -> HandleWriter<X, R>
        ensures handle { handle_of result ≡ handle }
        ensures untold { untold_of result ≡ None }
    {
        HandleWriter {
            rt,
            handle,
            untold: None,
        }
    }

    /// The writer's handle, and the fault of a write that was cut off, where no write has told it.
    pub fn into_parts(self) -> (FdHandle<X>, Option<Fault>)
        ensures handle { result.0 ≡ handle_of self }
        ensures untold { result.1 ≡ untold_of self }
    {
        (self.handle, self.untold)
    }
}

impl<X: Resource, R: Wait + Drop> Write for HandleWriter<X, R>
where
    X::W: TryWrite,
{
    /// Waits until all bytes are taken, or until what ends the wait. Bytes that were taken before
    /// that count, and the next write tells it, which then writes nothing.
    fn write(&mut self, buf: &[u8]) -> io::Result<usize>
        ensures bound { WritesAtMost result buf.now }
        ensures bytes { WriteAppends None None result buf.now }
        ensures told { IfSome (untold_of self.old) (λ fault. TellsFault fault result
            × (untold_of self.new ≡ None) × (handle_of self.new ≡ handle_of self.old)) }
        ensures answer { untold_of self.old ≡ None → (told : Result ℕ WriteFault)
            × IsWriteOf (handle_of self.old) (handle_of self.new) (length buf.now) told
            × IsWriteAnswer told result (untold_of self.new) }
        ensures keeps { KeepsHandle (handle_of self.old) (handle_of self.new) }
        ensures shut_out { untold_of self.old ≡ None → (saw_closed (handle_of self.old) ≡ true)
            ⊎ (saw_draining (handle_of self.old) ≡ true) → IsNotConnected result }
    {
        if let Some(fault) = self.untold.take() {
            return Err(error_of(fault));
        }
        match self.handle.write(&self.rt, buf) {
            Ok(count) => Ok(count),
            Err(failed) => {
                if failed.count == 0 {
                    return Err(error_of(failed.fault));
                }
                self.untold = Some(failed.fault);
                Ok(failed.count)
            }
        }
    }

    /// Nothing is held back, so there is nothing to do.
    fn flush(&mut self) -> io::Result<()>
        ensures done { result ≡ Ok tt }
        ensures same { self.new ≡ self.old }
    {
        Ok(())
    }
}
