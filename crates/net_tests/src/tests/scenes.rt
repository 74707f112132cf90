//! What both ends of a connection do in turn, by rows: who, what, and how it fails, if it does.

use super::{kind_of, millis, own_path, pair};
use net::{Addr, Conn, Net, Runs, tcp};
use std::fs::Files;
use std::io;
use std::io::{ErrorKind, Read, Write};
use std::net::Net as Sockets;
use std::process::Abort;
use std::thread::Threads;
use std::time::Instant;

/// The end that connected, a clone of that, or the end that was accepted.
#[derive(Clone, Copy)]
enum Who {
    Near,
    Clone,
    Far,
}

/// What it does. A time of 0 is none.
#[derive(Clone, Copy)]
enum Call {
    Says(&'static [u8]),
    Hears(&'static [u8]),
    /// A read that comes to the end.
    HearsEnd,
    /// A read that takes so many milliseconds at least, and comes to nothing.
    HearsNothing(u64),
    /// Writes that go on until one fails.
    SaysForever,
    ReadTimeout(u64),
    WriteTimeout(u64),
    Deadline(u64),
    CloseWrite,
    Close,
    Clone,
    /// It is let go.
    Drop,
}

const LATE: Option<ErrorKind> = Some(ErrorKind::TimedOut);

const GONE: Option<ErrorKind> = Some(ErrorKind::NotConnected);

const OTHER: Who = Who::Clone;

const SCENES: &[(&str, &[(Who, Call, Option<ErrorKind>)])] = &[
    (
        "both ends say and hear",
        &[
            (Who::Near, Call::Says(b"hello"), None),
            (Who::Far, Call::Hears(b"hello"), None),
            (Who::Far, Call::Says(b"and you"), None),
            (Who::Near, Call::Hears(b"and you"), None),
        ],
    ),
    (
        "who has said all hears on",
        &[
            (Who::Near, Call::Says(b"bye"), None),
            (Who::Near, Call::CloseWrite, None),
            (Who::Far, Call::Hears(b"bye"), None),
            (Who::Far, Call::HearsEnd, None),
            (Who::Far, Call::Says(b"bye bye"), None),
            (Who::Near, Call::Hears(b"bye bye"), None),
            (Who::Near, Call::Says(b"more"), Some(ErrorKind::BrokenPipe)),
        ],
    ),
    (
        "each read has its whole time, and one that comes in time is as any",
        &[
            (Who::Near, Call::ReadTimeout(40), None),
            (Who::Near, Call::HearsNothing(40), LATE),
            (Who::Near, Call::HearsNothing(40), LATE),
            (Who::Far, Call::Says(b"late"), None),
            (Who::Near, Call::Hears(b"late"), None),
            (Who::Near, Call::ReadTimeout(0), None),
            (Who::Far, Call::Says(b"later"), None),
            (Who::Near, Call::Hears(b"later"), None),
        ],
    ),
    (
        "a write that isn't taken gives up, and reads go on",
        &[
            (Who::Near, Call::WriteTimeout(40), None),
            (Who::Near, Call::SaysForever, LATE),
            (Who::Far, Call::Says(b"hello"), None),
            (Who::Near, Call::Hears(b"hello"), None),
        ],
    ),
    (
        "a time of writes is none of reads",
        &[
            (Who::Near, Call::WriteTimeout(20), None),
            (Who::Far, Call::ReadTimeout(40), None),
            (Who::Far, Call::HearsNothing(40), LATE),
            (Who::Near, Call::Deadline(0), None),
            (Who::Far, Call::Says(b"hello"), None),
            (Who::Near, Call::Hears(b"hello"), None),
        ],
    ),
    (
        "at the deadline all calls give up, until it is set again",
        &[
            (Who::Near, Call::Deadline(40), None),
            (Who::Near, Call::HearsNothing(20), LATE),
            (Who::Near, Call::HearsNothing(0), LATE),
            (Who::Near, Call::Says(b"late"), LATE),
            (Who::Near, Call::Deadline(0), None),
            (Who::Near, Call::Says(b"hello"), None),
            (Who::Far, Call::Hears(b"hello"), None),
        ],
    ),
    (
        "of a time and a deadline the earlier counts",
        &[
            (Who::Near, Call::ReadTimeout(600_000), None),
            (Who::Near, Call::Deadline(40), None),
            (Who::Near, Call::HearsNothing(20), LATE),
            (Who::Near, Call::Deadline(600_000), None),
            (Who::Near, Call::ReadTimeout(40), None),
            (Who::Near, Call::HearsNothing(40), LATE),
            (Who::Near, Call::HearsNothing(40), LATE),
        ],
    ),
    (
        "a clone is of the same connection",
        &[
            (Who::Near, Call::Clone, None),
            (OTHER, Call::Says(b"hello"), None),
            (Who::Far, Call::Hears(b"hello"), None),
            (Who::Near, Call::ReadTimeout(40), None),
            (OTHER, Call::HearsNothing(40), LATE),
            (OTHER, Call::Close, None),
            (Who::Near, Call::HearsNothing(0), GONE),
            (Who::Near, Call::Says(b"late"), GONE),
            (Who::Far, Call::HearsEnd, None),
        ],
    ),
    (
        "the last clone that goes closes",
        &[
            (Who::Near, Call::Clone, None),
            (Who::Near, Call::Drop, None),
            (OTHER, Call::Says(b"still"), None),
            (Who::Far, Call::Hears(b"still"), None),
            (OTHER, Call::Drop, None),
            (Who::Far, Call::HearsEnd, None),
        ],
    ),
    (
        "after a close each call is told so",
        &[
            (Who::Near, Call::Close, None),
            (Who::Near, Call::HearsNothing(0), GONE),
            (Who::Near, Call::Says(b"late"), GONE),
            (Who::Near, Call::ReadTimeout(40), GONE),
            (Who::Near, Call::WriteTimeout(40), GONE),
            (Who::Near, Call::Deadline(40), GONE),
            (Who::Near, Call::CloseWrite, GONE),
            (Who::Near, Call::Close, GONE),
            (Who::Far, Call::HearsEnd, None),
        ],
    ),
];

const LUMP: &[u8] = &[7; 65_536];

const MOST_LUMPS: u32 = 10_000;

fn hears<R: Runs>(conn: &mut Conn<R>, words: &[u8]) -> io::Result<()> {
    let mut heard = [0; 16];
    let room = heard.len().min(words.len());
    conn.read_exact(&mut heard[..room])?;
    if &heard[..room] == words {
        Ok(())
    } else {
        Err(ErrorKind::InvalidData.into())
    }
}

/// A read that has to give so many bytes at most.
fn reads<R: Runs>(conn: &mut Conn<R>, most: usize) -> io::Result<()> {
    if conn.read(&mut [0; 8])? <= most {
        Ok(())
    } else {
        Err(ErrorKind::InvalidData.into())
    }
}

fn reads_late<R: Runs + Abort>(rt: &R, conn: &mut Conn<R>, ms: u64) -> io::Result<()> {
    let start = Instant::now(rt)?;
    let read = reads(conn, 8);
    let took = start.elapsed(rt)?.as_millis();
    holds!(*rt; took >= u128::from(ms), "in its time");
    read
}

fn says_forever<R: Runs>(conn: &mut Conn<R>) -> io::Result<()> {
    for _ in 0..MOST_LUMPS {
        conn.write_all(LUMP)?;
    }
    Ok(())
}

fn does<R: Runs + Abort>(rt: &R, conn: &mut Conn<R>, call: Call) -> io::Result<()> {
    match call {
        Call::Says(words) => conn.write_all(words),
        Call::Hears(words) => hears(conn, words),
        Call::HearsEnd => reads(conn, 0),
        Call::HearsNothing(ms) => reads_late(rt, conn, ms),
        Call::SaysForever => says_forever(conn),
        Call::ReadTimeout(ms) => conn.set_read_timeout(millis(ms)),
        Call::WriteTimeout(ms) => conn.set_write_timeout(millis(ms)),
        Call::Deadline(ms) => conn.set_deadline(millis(ms)),
        Call::CloseWrite => conn.close_write(),
        Call::Close => conn.close(),
        Call::Clone | Call::Drop => Ok(()),
    }
}

/// Both ends, and a clone of the one, as far as they are there.
#[derive(Drop)]
struct Ends<R: Runs> {
    near: Option<Conn<R>>,
    clone: Option<Conn<R>>,
    far: Option<Conn<R>>,
}

impl<R: Runs + Abort> Ends<R> {
    fn of(&mut self, who: Who) -> &mut Option<Conn<R>> {
        match who {
            Who::Near => &mut self.near,
            Who::Clone => &mut self.clone,
            Who::Far => &mut self.far,
        }
    }

    fn takes_step(&mut self, rt: &R, who: Who, call: Call) -> io::Result<()> {
        let Some(conn) = self.of(who) else {
            return Err(ErrorKind::NotFound.into());
        };
        does(rt, conn, call)?;
        if let Call::Clone = call {
            let other = conn.try_clone()?;
            self.clone = Some(other);
        }
        if let Call::Drop = call {
            *self.of(who) = None;
        }
        Ok(())
    }
}

fn plays<R: Runs + Threads + Sockets + Files + Abort>(rt: &R, net: &Net<R>, addr: &Addr) {
    for (name, steps) in SCENES {
        let (near, far) = pair(rt, net, addr);
        let mut ends = Ends {
            near: Some(near),
            clone: None,
            far: Some(far),
        };
        for (who, call, fails) in *steps {
            let came = kind_of(ends.takes_step(rt, *who, *call));
            holds!(*rt; came == *fails, name);
        }
    }
}

#[test]
fn both_ends_do_in_turn_what_a_row_says(rt: HostRuntime) {
    let net = Net::start(rt, rt.alloc()).expect(&rt, "net");
    plays(&rt, &net, &tcp(0));
    plays(&rt, &net, &own_path(&rt, "scene").expect(&rt, "a path"));
    net.stop();
}
