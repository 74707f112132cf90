//! Bytes that go out to a sink that takes some, blocks and fails in turn.

use net::{Outgoing, PollWrite};
use std::alloc::Global;
use std::io;
use std::io::ErrorKind;

/// What a write that doesn't wait comes to.
#[derive(Clone, Copy)]
enum Write {
    Takes(usize),
    Blocks,
    Fails,
}

/// A sink of the test's own.
#[derive(Drop)]
struct Script {
    writes: &'static [Write],
    at: usize,
    taken: Vec<u8>,
}

impl PollWrite for Script {
    ghost use Rattle.std.specs.Prelude.{Some};

    ghost written = { λ script. Some script.taken.items };

    fn poll_write(&mut self, buf: &[u8]) -> Option<io::Result<usize>> {
        let write = self.writes.get(self.at).copied().unwrap_or(Write::Blocks);
        self.at = self.at.saturating_add(1);
        match write {
            Write::Takes(most) => {
                let count = most.min(buf.len());
                match self.taken.extend_from_slice(&buf[..count]) {
                    Ok(()) => Some(Ok(count)),
                    Err(_) => Some(Err(ErrorKind::OutOfMemory.into())),
                }
            }
            Write::Blocks => None,
            Write::Fails => Some(Err(ErrorKind::BrokenPipe.into())),
        }
    }
}

/// What a send comes to.
#[derive(Clone, Copy, PartialEq, Eq)]
enum Sent {
    All,
    Some,
    Failed,
}

/// What the writes come to, and what each send then says, with the bytes that were taken by then.
const ROWS: &[(&str, &[Write], &[(Sent, &[u8])])] = &[(
    "in parts, over a block and a fault",
    &[
        Write::Takes(2),
        Write::Blocks,
        Write::Fails,
        Write::Takes(4),
    ],
    &[
        (Sent::Some, b"an"),
        (Sent::Some, b"an"),
        (Sent::Failed, b"an"),
        (Sent::All, b"answer"),
    ],
)];

fn sends_row(alloc: Global, writes: &'static [Write], sends: &[(Sent, &[u8])]) -> Option<bool> {
    let taken = Vec::new(alloc);
    let mut sink = Script {
        writes,
        at: 0,
        taken,
    };
    let mut out = Outgoing::new(alloc);
    out.push(b"answer").ok()?;
    for (said, bytes) in sends {
        let sent = match out.poll(&mut sink) {
            Some(Ok(())) => Sent::All,
            Some(Err(_)) => Sent::Failed,
            None => Sent::Some,
        };
        if sent != *said || sink.taken.as_slice() != *bytes {
            return Some(false);
        }
    }
    Some(out.is_sent())
}

#[test]
fn bytes_go_out_as_a_row_says(rt: HostRuntime) {
    for (name, writes, sends) in ROWS {
        holds!(rt; sends_row(rt.alloc(), writes, sends) == Some(true), name);
    }
}
