//! `line_server PORT IDLE_MS` keeps texts by keys for clients at this port of loopback, who give it
//! commands, a line each. It closes a connection that is idle for so long, and ends once a client
//! says `SHUTDOWN`.
#![tactic(auto)]

use key_values::{Command, Store, carry_out};
use net::{AfterLine, LineHandler, LineTask, Runs, listen_and_serve, tcp};
use std::alloc::Global;
use std::io::ErrorKind;
use std::sync::{Arc, Mutex};
use std::time::Duration;
use std::{env, io};

/// The most bytes of a line, beside its line feed.
const LINE_BYTES: usize = 1_024;

/// The threads that serve clients.
const LOOPS: usize = 2;

/// How long clients may go on once one of them said `SHUTDOWN`.
const LAST_MS: u64 = 10_000;

/// A client, who shares the texts with all others.
#[derive(Drop)]
struct Client {
    store: Arc<Mutex<Store>>,
}

// What follows the answer to a command.
fn after(command: &Command<'_>) -> AfterLine {
    match command {
        Command::Quit => AfterLine::Leave,
        Command::Shutdown => AfterLine::Shutdown(Duration::from_millis(LAST_MS)),
        _ => AfterLine::Listen,
    }
}

impl<R: Runs> LineHandler<R> for Client {
    fn begin(&self, _alloc: Global) -> io::Result<Client> {
        let store = Arc::try_clone(&self.store)?;
        Ok(Client { store })
    }

    fn answer(&mut self, rt: &R, line: &[u8], out: &mut Vec<u8>) -> io::Result<AfterLine> {
        let Some(command) = Command::parse(line) else {
            out.extend_from_slice(b"ERROR\n")?;
            return Ok(AfterLine::Listen);
        };
        carry_out(&mut self.store.lock(rt), &command, out)?;
        Ok(after(&command))
    }

    fn too_long(&mut self, _rt: &R, out: &mut Vec<u8>) -> io::Result<()> {
        Ok(out.extend_from_slice(b"TOO LONG\n")?)
    }
}

/// The port and the milliseconds that the words ask for.
fn asked(words: &[String]) -> Option<(u16, u64)> {
    match words {
        [_, port, idle_ms] => Some((port.parse().ok()?, idle_ms.parse().ok()?)),
        _ => None,
    }
}

fn main(rt: HostRuntime) -> io::Result<()> {
    let alloc = rt.alloc();
    let words: Vec<String> = env::args(&rt)?.collect(alloc)?;
    let Some((port, idle_ms)) = asked(words.as_slice()) else {
        return Err(ErrorKind::InvalidInput.into());
    };
    let store = Arc::new(alloc, Mutex::new(Store::new(alloc)))?;
    let idle = Duration::from_millis(idle_ms);
    let task = LineTask::<Client, LINE_BYTES>::new(Client { store }, idle, alloc);
    listen_and_serve(rt, alloc, &tcp(port), LOOPS, task)?;
    Ok(())
}
