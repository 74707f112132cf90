//! `echo_server PORT IDLE_MS END` gives back what it is sent at this port of loopback, closes a
//! connection that is idle for so long, and ends once somebody connects to the address END.
#![tactic(auto)]

use net::{Conn, Listener, Net, Runs, address_of, tcp};
use std::io::ErrorKind;
use std::sync::Arc;
use std::thread::Threads;
use std::time::Duration;
use std::{env, io, thread};

/// How long a thread rests before it tries again.
const REST_MS: u64 = 5;

/// How often it looks, at the end, whether clients are still there: for ten seconds.
const LOOKS: u32 = 2_000;

/// Gives back what comes, until its end, or until nothing has come for so long.
fn echo<R: Runs>(conn: Conn<R>, idle: Duration) -> io::Result<u64> {
    let mut conn = conn;
    conn.set_read_timeout(Some(idle))?;
    let mut writer = conn.try_clone()?;
    io::copy(&mut conn, &mut writer)
}

/// Serves each client in a thread of its own, which has a clone of `clients`, until the listener is
/// closed.
fn serve<R>(rt: R, listener: &mut Listener<R>, idle: Duration, clients: &Arc<()>) -> io::Result<()>
where
    R: Runs + Threads + Send + Sync + 'static,
{
    for _ in rt.forever() {
        match listener.accept() {
            Ok(conn) => {
                let here = Arc::try_clone(clients)?;
                thread::spawn(&rt, move || {
                    let _ = echo(conn, idle);
                    drop(here);
                })?;
            }
            Err(error) if error.kind() == ErrorKind::NotConnected => break,
            Err(_) => thread::sleep(&rt, Duration::from_millis(REST_MS)),
        }
    }
    Ok(())
}

/// Closes the first listener once somebody has connected to the second.
fn close_at_call<R: Runs>(listener: Listener<R>, end: Listener<R>) -> io::Result<()> {
    let (mut listener, mut end) = (listener, end);
    end.accept()?;
    listener.close()
}

/// The port, the milliseconds and the address that the words ask for.
fn asked(words: &[String]) -> Option<(u16, u64, &str)> {
    match words {
        [_, port, idle_ms, end] => Some((port.parse().ok()?, idle_ms.parse().ok()?, end.as_str())),
        _ => None,
    }
}

fn main(rt: HostRuntime) -> io::Result<()> {
    let words: Vec<String> = env::args(&rt)?.collect(rt.alloc())?;
    let Some((port, idle_ms, end)) = asked(words.as_slice()) else {
        return Err(ErrorKind::InvalidInput.into());
    };
    let net = Net::start(rt, rt.alloc())?;
    let mut listener = Listener::bind(&net, &tcp(port))?;
    let other = listener.try_clone()?;
    let end = Listener::bind(&net, &address_of(end)?)?;
    thread::spawn(&rt, move || close_at_call(other, end))?;
    let clients = Arc::new(rt.alloc(), ())?;
    serve(rt, &mut listener, Duration::from_millis(idle_ms), &clients)?;
    for _ in 0..LOOKS {
        if Arc::strong_count(&clients) == 1 {
            break;
        }
        thread::sleep(&rt, Duration::from_millis(REST_MS));
    }
    net.stop();
    Ok(())
}
