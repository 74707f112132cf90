//! Clients of a server of lines: what each hears by what it says. Most of it clauses say, and
//! `lines_served.py` tries the rest.

use super::{millis, open_files};
use net::{AfterLine, Conn, LineHandler, LineTask, Listener, Net, Runs, Service, tcp};
use std::alloc::Global;
use std::fs::Files;
use std::io;
use std::io::{ErrorKind, Read, Write};
use std::net::Net as Sockets;
use std::thread::Threads;
use std::time::Duration;

/// Answers a line by itself behind its number. `end` ends the service, `fail` is an error, `none` has
/// no answer.
#[derive(Drop)]
pub(super) struct Brackets {
    lines: u8,
}

impl<R: Runs> LineHandler<R> for Brackets {
    ghost use Rattle.std.specs.Prelude.{◌≡◌, ◌+◌, min};

    // Each line counts, whatever is answered.
    ghost answers = { λ old line out after new. new.lines ≡ min (old.lines + 1) 255 };

    // Who connects has said no line.
    ghost begins = { λ first made. made.lines ≡ 0 };

    fn begin(&self, _alloc: Global) -> io::Result<Brackets> {
        Ok(Brackets { lines: 0 })
    }

    fn answer(&mut self, _rt: &R, line: &[u8], out: &mut Vec<u8>) -> io::Result<AfterLine> {
        self.lines = self.lines.saturating_add(1);
        if line == b"fail".as_slice() {
            return Err(ErrorKind::InvalidData.into());
        }
        if line != b"none".as_slice() {
            out.push(b'0'.saturating_add(self.lines))?;
            out.extend_from_slice(line)?;
        }
        Ok(match line {
            b"end" => AfterLine::Shutdown(Duration::from_secs(60)),
            _ => AfterLine::Listen,
        })
    }
}

/// How a client comes to its end.
#[derive(Clone, Copy, PartialEq, Eq)]
enum End {
    /// By the server's end, which it waits for.
    Theirs,
    /// It says that it says no more.
    Own,
}

/// What a client says at once, how it ends, and all that it hears.
const ROWS: &[(&str, &[u8], End, &[u8])] = &[
    (
        "an answer of no byte, and a line without its end",
        b"none\na\nb",
        End::Own,
        b"2a",
    ),
    (
        "one too long, of which nothing is said",
        b"12345678\n123456789\nb\n",
        End::Theirs,
        b"112345678",
    ),
    ("a handler's error", b"fail\na\n", End::Theirs, b""),
];

/// A service of one loop by brackets.
fn serves<R>(rt: R, alloc: Global) -> io::Result<(Net<R>, Service<R>)>
where
    R: Runs + Threads + Sockets + Files + Send + Sync + 'static,
{
    let net = Net::start(rt, alloc)?;
    let listener = Listener::bind(&net, &tcp(0))?;
    let idle = Duration::from_secs(60);
    let task = LineTask::<Brackets, 8>::new(Brackets { lines: 0 }, idle, alloc);
    let service = net.serve(listener, 1, task)?;
    Ok((net, service))
}

/// A client of the service that has said this.
fn client<R>(net: &Net<R>, service: &Service<R>, says: &[u8]) -> io::Result<Conn<R>>
where
    R: Runs + Threads + Sockets + Files + Send + Sync + 'static,
{
    let Some(addr) = service.local_addr() else {
        return Err(ErrorKind::AddrNotAvailable.into());
    };
    let mut conn = Conn::connect(net, &addr, millis(60_000))?;
    conn.set_read_timeout(millis(60_000))?;
    conn.write_all(says)?;
    Ok(conn)
}

/// Whether all that a client hears until the end is this.
fn hears<R: Runs>(conn: &mut Conn<R>, end: End, wanted: &[u8]) -> io::Result<bool> {
    if end == End::Own {
        conn.close_write()?;
    }
    for wanted in wanted {
        let mut heard = [0];
        conn.read_exact(&mut heard)?;
        if heard != [*wanted] {
            return Ok(false);
        }
    }
    Ok(conn.read(&mut [0])? == 0)
}

#[test]
fn clients_of_lines_hear_as_a_row_says(rt: HostRuntime) {
    let before = open_files(&rt);
    let (net, service) = serves(rt, rt.alloc()).expect(&rt, "a service");
    for (name, says, end, wanted) in ROWS {
        let mut conn = client(&net, &service, says).expect(&rt, "a client");
        holds!(rt; hears(&mut conn, *end, wanted).ok() == Some(true), name);
    }
    service.stop();
    net.stop();
    holds!(rt; before.is_some() && open_files(&rt) == before, "nothing is left open");
}

/// A service of lines with a client, which ends it, as does a handle.
pub(super) fn line_round<R>(rt: R, alloc: Global) -> io::Result<()>
where
    R: Runs + Threads + Sockets + Files + Send + Sync + 'static,
{
    let (net, service) = serves(rt, alloc)?;
    let mut asks = client(&net, &service, b"a\nend\n")?;
    // (a client whose task is refused memory hears less, and the service goes on)
    let _ = hears(&mut asks, End::Theirs, b"1a2end");
    service.closer()?.shutdown(Duration::from_millis(10));
    service.wait();
    Ok(())
}
