//! The halves of sockets, and what a descriptor makes of them. A socket is closed when its last
//! half is dropped.

ghost use Rattle.std.specs.Prelude.{◌≡◌, ◌<◌, Ok, None, IfOk, true, false, length};
ghost use Rattle.readiness.specs.SockControl.{asked_number, asks_tcp};
ghost use Rattle.readiness.specs.Sockets.{read_from, written_to, failure_of, known_made, came_of};
ghost use Rattle.readiness.specs.Sockets.{is_tcp, socket_number};
ghost use Rattle.readiness.specs.SystemErrors.{outcome_told};
ghost use Rattle.rwloops.specs.Outcome.{IsCountWithin, count_in};

use crate::last_codes::LastCodes;
use crate::sock::{Listen, Sock};
use crate::sock_control::SockControl;
use crate::system_error::{accepted_of, kind_of, outcome_of};
use base_types::{Dir, OutOfMemory};
use fd_descriptor::{HalfClose, Resource};
use rwloops::{AcceptOutcome, DevKind, Outcome, TryAccept, TryRead, TryWrite};
use std::alloc::{Allocator, Global};
use std::io;
use std::io::{Read, Write};
use std::net::Shutdown;
use std::sync::Arc;

/// What is read from a socket.
#[derive(Drop)]
pub struct ReadHalf<A: Allocator = Global> {
    sock: Arc<Sock, A>,
    codes: Option<Arc<LastCodes, A>>,
}

/// What is written to a socket.
#[derive(Drop)]
pub struct WriteHalf<A: Allocator = Global> {
    sock: Arc<Sock, A>,
    // What the connection came to, where it was learnt before the half was shut.
    failed: Option<DevKind>,
    // Whether a write has shown that the connection is made. It is never unset.
    made: bool,
    codes: Option<Arc<LastCodes, A>>,
}

// Both halves of a socket, each with the place for the numbers of its errors, where there is one.
fn halves_of<A: Allocator>(
    alloc: A,
    sock: Sock,
    read_codes: Option<Arc<LastCodes, A>>,
    write_codes: Option<Arc<LastCodes, A>>,
) -> Result<(ReadHalf<A>, WriteHalf<A>), OutOfMemory>
    ensures read { IfOk result (λ halves. read_from halves.0 ≡ sock) }
    ensures written { IfOk result (λ halves. written_to halves.1 ≡ sock) }
    ensures unfailed { IfOk result (λ halves. failure_of halves.1 ≡ None) }
    ensures unmade { IfOk result (λ halves. known_made halves.1 ≡ false) }
{
    let sock = Arc::new(alloc, sock)?;
    let other = Arc::try_clone(&sock)?;
    Ok((
        ReadHalf {
            sock,
            codes: read_codes,
        },
        WriteHalf {
            sock: other,
            failed: None,
            made: false,
            codes: write_codes,
        },
    ))
}

impl Sock {
    /// Both halves. Where memory is refused the socket is dropped, which closes it.
    pub fn split<A: Allocator>(self, alloc: A) -> Result<(ReadHalf<A>, WriteHalf<A>), OutOfMemory>
        ensures read { IfOk result (λ halves. read_from halves.0 ≡ self) }
        ensures written { IfOk result (λ halves. written_to halves.1 ≡ self) }
        ensures unfailed { IfOk result (λ halves. failure_of halves.1 ≡ None) }
        ensures unmade { IfOk result (λ halves. known_made halves.1 ≡ false) }
    {
        halves_of(alloc, self, None, None)
    }

    /// Both halves as of `split`, which note the numbers of their errors there.
    pub fn split_noting<A: Allocator>(
        self,
        alloc: A,
        codes: &Arc<LastCodes, A>,
    ) -> Result<(ReadHalf<A>, WriteHalf<A>), OutOfMemory>
        ensures read { IfOk result (λ halves. read_from halves.0 ≡ self) }
        ensures written { IfOk result (λ halves. written_to halves.1 ≡ self) }
        ensures unfailed { IfOk result (λ halves. failure_of halves.1 ≡ None) }
        ensures unmade { IfOk result (λ halves. known_made halves.1 ≡ false) }
    {
        let read = Arc::try_clone(codes)?;
        let write = Arc::try_clone(codes)?;
        halves_of(alloc, self, Some(read), Some(write))
    }
}

// What one system call to read or to write gave. The number of a fault is noted, where there is a
// place for it.
fn noted_outcome<A: Allocator>(
    codes: &Option<Arc<LastCodes, A>>,
    dir: Dir,
    done: io::Result<usize>,
) -> Outcome
    ensures { result ≡ outcome_told done }
{
    if let (Some(codes), Err(error)) = (codes, &done) {
        codes.note(dir, error);
    }
    outcome_of(done)
}

impl<A: Allocator> TryRead for ReadHalf<A> {
    ghost tells = { λ _ _. ⊥ };

    // It doesn't try again before it says that it would block: a yield gives the processor to a
    // busy neighbour for milliseconds, and a spin keeps it from the peer.
    fn try_read(&mut self, buf: &mut [u8]) -> Outcome {
        let done = match &*self.sock {
            Sock::Tcp(tcp) => {
                let mut reader = &tcp.stream;
                reader.read(buf)
            }
            Sock::Unix(unix) => {
                let mut reader = &unix.stream;
                reader.read(buf)
            }
        };
        noted_outcome(&self.codes, Dir::Read, done)
    }
}

impl<A: Allocator> TryWrite for WriteHalf<A> {
    ghost tells = { λ _ _. ⊥ };

    fn try_write(&mut self, bytes: &[u8]) -> Outcome
        ensures within { IsCountWithin (length bytes.now) result }
        ensures made { 0 < count_in result → known_made self.new ≡ true }
        ensures kept { count_in result ≡ 0 → known_made self.new ≡ known_made self.old }
    {
        let done = match &*self.sock {
            Sock::Tcp(tcp) => {
                let mut writer = &tcp.stream;
                writer.write(bytes)
            }
            Sock::Unix(unix) => {
                let mut writer = &unix.stream;
                writer.write(bytes)
            }
        };
        let outcome = noted_outcome(&self.codes, Dir::Write, done);
        if let Outcome::Count(1..) = outcome {
            self.made = true;
        }
        outcome
    }
}

impl<A: Allocator> HalfClose for WriteHalf<A> {
    // A socket without a peer is being connected, or was and failed. A write of no byte would block
    // in the one state, and in the other it takes the system's error, which `shut` tells. One that
    // took a byte had a peer, so the system isn't asked.
    fn is_connecting(&mut self) -> bool
        ensures made { known_made self.old ≡ true → result ≡ false }
    {
        if self.made || self.sock.is_connected() {
            return false;
        }
        match self.try_write(&[]) {
            Outcome::WouldBlock => true,
            Outcome::Broken(kind) => {
                self.failed = Some(kind);
                false
            }
            _ => false,
        }
    }

    fn connected(&self) -> Result<(), DevKind>
        ensures own { result ≡ came_of (failure_of self.now) }
    {
        match self.failed {
            Some(kind) => Err(kind),
            None => Ok(()),
        }
    }

    fn shut(&mut self) -> Result<(), DevKind> {
        if let Some(kind) = self.failed {
            return Err(kind);
        }
        let done = match &*self.sock {
            Sock::Tcp(tcp) => tcp.stream.shutdown(Shutdown::Write),
            Sock::Unix(unix) => unix.stream.shutdown(Shutdown::Write),
        };
        match done {
            Ok(()) => Ok(()),
            Err(error) => Err(self.end_of(&error)),
        }
    }
}

impl<A: Allocator> WriteHalf<A> {
    // What a connection came to that can't be shut, with this error: the system's own error of it,
    // where it has one still.
    fn end_of(&mut self, error: &io::Error) -> DevKind {
        match self.try_write(&[]) {
            Outcome::Broken(kind) => kind,
            _ => kind_of(error),
        }
    }
}

/// A connection as a resource: dropping both halves destroys it. Its table entry goes first, so it
/// is not taken out of a poller by a call of its own.
pub struct SockRes;

impl Resource for SockRes {
    type R = ReadHalf;

    type W = WriteHalf;

    type Control = SockControl;

    fn control_of(read: &ReadHalf) -> SockControl
        ensures number { asked_number result ≡ socket_number (read_from read.now) }
        ensures tcp { asks_tcp result ≡ is_tcp (read_from read.now) }
    {
        SockControl::of(&read.sock)
    }

    fn destroy(read: ReadHalf, write: WriteHalf) -> Result<(), DevKind>
        ensures { result ≡ Ok tt }
    {
        drop((read, write));
        Ok(())
    }
}

/// The write half of a listener, which is written nothing.
#[derive(Drop)]
pub struct NoWrites;

impl TryAccept for Listen {
    type T = Sock;

    ghost tells = { λ _ _. ⊥ };

    fn try_accept(&mut self) -> AcceptOutcome<Sock> {
        accepted_of(self.accept())
    }
}

/// A listener as a resource: dropping it destroys it. The path of a Unix one stays.
pub struct ListenRes;

impl Resource for ListenRes {
    type R = Listen;

    type W = NoWrites;

    type Control = ();

    fn destroy(read: Listen, write: NoWrites) -> Result<(), DevKind>
        ensures { result ≡ Ok tt }
    {
        drop(read);
        drop(write);
        Ok(())
    }

    fn control_of(_read: &Listen) {}
}
