//! A handle as a reader: it waits for bytes, and the stream's end is a count of 0.

ghost use Rattle.std.specs.Prelude.{◌≡◌, ℕ, ◌⊎◌, true, length, None, Result};
ghost use Rattle.std.specs.Io.{ReadsAtMost};
ghost use Rattle.std.specs.Io.KnownBytes.{ReadConsumes};
ghost use Rattle.rwloops.specs.declared.fault.Fault.{Fault};
ghost use Rattle.fd_descriptor.specs.FdHandle.{KeepsHandle, saw_closed, saw_draining};
ghost use Rattle.handle_io.specs.Answers.{IsReadOf, IsReadAnswer, IsNotConnected};
ghost use Rattle.handle_io.specs.Reader.{handle_of};

use crate::kinds::error_of;
use fd_descriptor::{Fault, FdHandle, Resource, TryRead};
use std::io;
use std::io::Read;
use std::sync::Wait;

/// A handle as a reader. Others read, write, time and close the same descriptor meanwhile, by
/// handles of their own.
#[derive(Drop)]
pub struct HandleReader<X: Resource, R: Drop> {
    rt: R,
    handle: FdHandle<X>,
}

impl<X: Resource, R: Drop> HandleReader<X, R> {
    /// A reader by this handle, which waits by this runtime.
    pub fn new(rt: R, handle: FdHandle<X>) -> HandleReader<X, R>
        ensures handle { handle_of result ≡ handle }
    {
        HandleReader { rt, handle }
    }

    /// The reader's handle.
    pub fn into_handle(self) -> FdHandle<X>
        ensures handle { result ≡ handle_of self }
    {
        self.handle
    }
}

/// The error that tells what a read of a handle was answered, or its count, which is 0 at the
/// stream's end.
fn read_answer(told: Result<usize, Fault>) -> io::Result<usize>
    ensures answer { IsReadAnswer told result }
{
    match told {
        Ok(count) => Ok(count),
        Err(Fault::EndOfFile) => Ok(0),
        Err(fault) => Err(error_of(fault)),
    }
}

impl<X: Resource, R: Wait + Drop> Read for HandleReader<X, R>
where
    X::R: TryRead,
{
    /// Waits for at least one byte, for the end, or for what ends the wait: a close, a deadline or
    /// a fault of the device.
    fn read(&mut self, buf: &mut [u8]) -> io::Result<usize>
        ensures bound { ReadsAtMost result buf.new }
        ensures bytes { ReadConsumes None None result buf.new }
        ensures answer { (told : Result ℕ Fault)
            × IsReadOf (handle_of self.old) (handle_of self.new) (length buf.old) told
            × IsReadAnswer told result }
        ensures keeps { KeepsHandle (handle_of self.old) (handle_of self.new) }
        ensures shut_out { (saw_closed (handle_of self.old) ≡ true)
            ⊎ (saw_draining (handle_of self.old) ≡ true) → IsNotConnected result }
    {
        read_answer(self.handle.read(&self.rt, buf))
    }
}
