//! Memory that is refused. It holds where all is given as well: `tests/refused_memory.sh` refuses
//! each allocation in turn, until each test here says that the one refused came behind its round.

use super::line_tasks::line_round;
use super::tasks::{Does, task_that};
use super::{millis, open_files};
use net::{Addr, Conn, ConnGroup, Listener, Net, Runs, listen_and_serve, tcp};
use std::alloc::Global;
use std::fs::Files;
use std::io;
use std::io::{ErrorKind, Read, Write};
use std::net::Net as Sockets;
use std::thread::Threads;
use std::time::Duration;

fn addr_of<R: Runs + Threads + Sockets + Files>(listener: &Listener<R>) -> io::Result<Addr> {
    match listener.local_addr() {
        Some(addr) => Ok(addr),
        None => Err(ErrorKind::AddrNotAvailable.into()),
    }
}

/// Both ends of a connection, of which the one has looked up the other's host.
fn both<R>(net: &Net<R>, alloc: Global) -> io::Result<(Conn<R>, Conn<R>)>
where
    R: Runs + Threads + Sockets + Files,
{
    let mut listener = Listener::bind(net, &tcp(0))?;
    let Addr::Tcp(_, port) = addr_of(&listener)? else {
        return Err(ErrorKind::InvalidData.into());
    };
    let target = format!(in alloc; "localhost:{port}")?;
    let near = Conn::dial(net, target.as_str(), millis(10_000))?;
    listener.set_accept_timeout(millis(10_000))?;
    let far = listener.accept()?;
    Ok((near, far))
}

/// A round trip of a connection with a time, which has asked for what there is.
fn round_trip<R: Runs>(near: &mut Conn<R>, far: &mut Conn<R>) -> io::Result<()> {
    far.set_read_timeout(millis(10_000))?;
    let (at_once, every) = (near.nodelay()?, near.keepalive()?);
    near.set_nodelay(at_once)?;
    near.set_keepalive(every)?;
    near.write_all(b"hello")?;
    far.read_exact(&mut [0; 5])
}

/// A group of this connection, which is ended, and a handle that closes it.
fn ends_group<R>(net: &Net<R>, near: &Conn<R>) -> io::Result<()>
where
    R: Runs + Threads + Sockets + Files + Send + Sync + 'static,
{
    let group = ConnGroup::new(net)?;
    let _member = group.join(near)?;
    group.try_clone()?.end();
    near.socket_closer()?.try_clone()?.close();
    Ok(())
}

/// A net, a listener and a connection, which goes round, is ended by its group, and is closed gently
/// at the other end.
fn connected<R>(rt: R, alloc: Global) -> io::Result<()>
where
    R: Runs + Threads + Sockets + Files + Send + Sync + 'static,
{
    let net = Net::start(rt, alloc)?;
    let (mut near, mut far) = both(&net, alloc)?;
    round_trip(&mut near, &mut far)?;
    ends_group(&net, &near)?;
    far.close_gently(Duration::from_secs(10))?;
    Ok(())
}

/// A server at an address that is taken: it is told so, and nobody is served.
fn at_taken<R>(rt: R, alloc: Global) -> io::Result<()>
where
    R: Runs + Threads + Sockets + Files + Send + Sync + 'static,
{
    let net = Net::start(rt, alloc)?;
    let listener = Listener::bind(&net, &tcp(0))?;
    let addr = addr_of(&listener)?;
    match listen_and_serve(rt, alloc, &addr, 1, task_that(Does::Echoes(0))) {
        Err(error) if error.kind() == ErrorKind::AddrInUse => Ok(()),
        Err(error) => Err(error),
        Ok(_) => Err(ErrorKind::InvalidData.into()),
    }
}

/// The files that are open. One look of two may be refused memory itself, and then sees fewer.
fn looked(rt: &HostRuntime) -> Option<usize> {
    open_files(rt).max(open_files(rt))
}

/// Whether it was done, or told as want of memory. Without memory the system starts no thread, and
/// says so by `EAGAIN`.
fn is_fine(told: io::Result<()>) -> bool {
    match told {
        Ok(()) => true,
        Err(error) => matches!(error.kind(), ErrorKind::OutOfMemory | ErrorKind::WouldBlock),
    }
}

/// Whether it was done, or told as want of memory, and nothing is left open.
fn is_well(rt: &HostRuntime, before: Option<usize>, told: io::Result<()>) -> bool {
    is_fine(told) && before.is_some() && looked(rt) == before
}

/// Whether none of many allocations is refused.
fn none_is_refused(alloc: Global) -> bool {
    for _ in 0..1_000u32 {
        if Vec::<u64>::with_capacity(alloc, 1).is_err() {
            return false;
        }
    }
    true
}

#[test]
fn a_refused_connection_is_told_and_leaves_nothing_open(rt: HostRuntime) {
    let before = looked(&rt);
    holds!(rt; is_well(&rt, before, connected(rt, rt.alloc())), "told, and nothing is left");
    holds!(rt; none_is_refused(rt.alloc()), "refused behind the round");
}

#[test]
fn a_refused_server_at_an_address_that_is_taken_leaves_nothing_open(rt: HostRuntime) {
    let before = looked(&rt);
    holds!(rt; is_well(&rt, before, at_taken(rt, rt.alloc())), "told, and nothing is left");
    holds!(rt; none_is_refused(rt.alloc()), "refused behind the round");
}

#[test]
fn a_refused_service_of_lines_is_told_and_leaves_nothing_open(rt: HostRuntime) {
    let before = looked(&rt);
    holds!(rt; is_well(&rt, before, line_round(rt, rt.alloc())), "told, and nothing is left");
    holds!(rt; none_is_refused(rt.alloc()), "refused behind the round");
}
