//! A server in one call.

ghost use Rattle.std.specs.Prelude.{◌≡◌, None, IfOk, max};
ghost use Rattle.net.specs.Over.{over_asked, over_loops};

use crate::accepting::Listener;
use crate::over::Ended;
use crate::running::Net;
use crate::runs::Runs;
use crate::task::Task;
use readiness::Addr;
use std::alloc::Global;
use std::fs::Files;
use std::io;
use std::net::Net as Sockets;
use std::thread::Threads;

/// Serves who connects to this address, on a net of its own, by so many loops, each a thread, at
/// least one: a task for each connection, begun of this one. It returns once the service is over,
/// as where a task asked for that (`Conn::closer`). A program that does something else meanwhile
/// calls `Net::start`, `Listener::bind` and `Net::serve`.
pub fn listen_and_serve<T, R>(
    rt: R,
    alloc: Global,
    addr: &Addr,
    loops: usize,
    task: T,
) -> io::Result<Ended>
where
    T: Task<R> + Send + 'static,
    R: Runs + Threads + Sockets + Files + Send + Sync + 'static,
    ensures loops { IfOk result (λ ended. over_loops ended ≡ max loops 1) }
    ensures asked { IfOk result (λ ended. over_asked ended ≡ None) }
{
    let net = Net::start(rt, alloc)?;
    let listener = Listener::bind(&net, addr)?;
    Ok(net.serve(listener, loops, task)?.wait())
}
