//! What a relay's threads run on, and the server of its metrics.

use std::net::{Net, TcpListener, TcpStream};
use std::random::RandomSource;
use std::sync::Wait;
use std::thread::Threads;
use std::time::Clock;

/// What a relay runs on: it waits, starts threads, opens sockets and reads the clock, and each
/// thread has it.
pub(crate) trait RelayRuntime: Wait
    + Threads
    + Net<Listener = TcpListener, Stream = TcpStream>
    + Clock
    + Copy
    + Send
    + Sync
    + 'static {}

impl<R> RelayRuntime for R
where
    R: Wait
        + Threads
        + Net<Listener = TcpListener, Stream = TcpStream>
        + Clock
        + Copy
        + Send
        + Sync
        + 'static,
{}

/// What a relay runs on, and random keys too, for the tables of the metrics' server. One bound,
/// since what goes to a thread may rest on none that is assumed of the sender's alone.
pub(crate) trait ServeRuntime: Wait
    + Threads
    + Net<Listener = TcpListener, Stream = TcpStream>
    + Clock
    + RandomSource
    + Copy
    + Send
    + Sync
    + 'static {}

impl<R> ServeRuntime for R
where
    R: Wait
        + Threads
        + Net<Listener = TcpListener, Stream = TcpStream>
        + Clock
        + RandomSource
        + Copy
        + Send
        + Sync
        + 'static,
{}

/// What the thread that looks names up runs on: it says on standard error which can't be.
pub(crate) trait NamesRuntime: Wait
    + Threads
    + Net<Listener = TcpListener, Stream = TcpStream>
    + Clock
    + Eprint
    + Copy
    + Send
    + Sync
    + 'static {}

impl<R> NamesRuntime for R
where
    R: Wait
        + Threads
        + Net<Listener = TcpListener, Stream = TcpStream>
        + Clock
        + Eprint
        + Copy
        + Send
        + Sync
        + 'static,
{}
