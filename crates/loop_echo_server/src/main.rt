//! `loop_echo_server PORT LOOPS IDLE_MS END` gives back what it is sent at this port of loopback, to
//! many clients on each of so many threads, closes a connection that is idle for so long, and ends
//! once somebody connects to the address END.
#![tactic(auto)]

ghost use Rattle.std.specs.Prelude.{◌≡◌, ◌≤◌};

use net::{Cause, Conn, Listener, Net, Next, Runs, ServiceCloser, Task, address_of, tcp};
use std::alloc::Global;
use std::io::ErrorKind;
use std::time::Duration;
use std::{env, io, thread};

/// How long clients with something under way may go on once the end was asked for.
const LAST_MS: u64 = 10_000;

/// What a client said and isn't given back yet: from here to there in the buffer.
#[derive(Drop)]
struct Echo {
    idle: Duration,
    buf: [u8; 4096],
    from: usize,
    to: usize,
    ghost kept: { (from ≤ to) × (to ≤ 4096) },
}

impl Echo {
    fn new(idle: Duration) -> Echo
        ensures { result.from ≡ result.to }
    {
        Echo {
            idle,
            buf: [0; 4096],
            from: 0,
            to: 0,
        }
    }
}

impl<R: Runs> Task<R> for Echo {
    fn begin(&self, _alloc: Global) -> io::Result<Echo> {
        Ok(Echo::new(self.idle))
    }

    // It is over at the end, at a fault, and where nothing goes on and its time is over or, with
    // nothing left to write, its service ends.
    fn step(&mut self, _rt: &R, conn: &mut Conn<R>, cause: Cause) -> Next {
        for _ in 0..16u8 {
            if self.from == self.to {
                match conn.poll_read(&mut self.buf) {
                    Some(Ok(count)) if count > 0 => (self.from, self.to) = (0, count),
                    None => return Next::Read(cause.idle(self.idle)),
                    _ => return Next::Over,
                }
            }
            match conn.poll_write(&self.buf[self.from..self.to]) {
                Some(Ok(count)) => self.from += count,
                None => return Next::Write(cause.within(self.idle)),
                _ => return Next::Over,
            }
        }
        Next::Again
    }
}

/// Ends the service once somebody has connected to this listener.
fn end_at_call<R: Runs>(end: Listener<R>, closer: ServiceCloser<R>) -> io::Result<()> {
    let mut end = end;
    end.accept()?;
    closer.shutdown(Duration::from_millis(LAST_MS));
    Ok(())
}

/// The port, the threads, the milliseconds and the address that the words ask for.
fn asked(words: &[String]) -> Option<(u16, usize, u64, &str)> {
    match words {
        [_, port, loops, idle_ms, end] => Some((
            port.parse().ok()?,
            loops.parse().ok()?,
            idle_ms.parse().ok()?,
            end.as_str(),
        )),
        _ => None,
    }
}

fn main(rt: HostRuntime) -> io::Result<()> {
    let words: Vec<String> = env::args(&rt)?.collect(rt.alloc())?;
    let Some((port, loops, idle_ms, end)) = asked(words.as_slice()) else {
        return Err(ErrorKind::InvalidInput.into());
    };
    let net = Net::start(rt, rt.alloc())?;
    let listener = Listener::bind(&net, &tcp(port))?;
    let end = Listener::bind(&net, &address_of(end)?)?;
    let idle = Duration::from_millis(idle_ms);
    let service = net.serve(listener, loops, Echo::new(idle))?;
    let closer = service.closer()?;
    thread::spawn(&rt, move || end_at_call(end, closer))?;
    service.wait();
    Ok(())
}
