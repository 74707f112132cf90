//! The replies to `ctl`, what is printed of them, and the statuses.

use relay_admin::Command;
use relay_command::{Fault, reply_status};
use std::alloc::Global;
use std::io::{Cursor, ErrorKind, Read, Result, Write};
use std::prelude::HostRuntime;

/// Replies, and the status that each comes to.
const ROWS: [(&str, u8); 17] = [
    ("ok\n", 0),
    ("ids\n", 0),
    ("ids 1 2\n", 0),
    ("totals up 1 down 0\n", 0),
    ("rules 2\n", 0),
    (
        "show 1 rule error side client peer unix: up 0 down 0 age 1 quiet 1\n",
        0,
    ),
    ("errors\n", 0),
    ("cannot\n", 0),
    ("error 400 bad command\n", 1),
    ("error 404 no such connection\n", 1),
    ("error 409 closed\n", 1),
    ("error 409 draining\n", 1),
    ("error 409 busy\n", 1),
    ("error 507 out of memory\n", 1),
    ("bad rules: line 3\n", 1),
    ("cannot read rules\n", 1),
    ("cannot listen web\n", 1),
];

/// Replies to `show` without an id, and the status that each comes to.
const LISTINGS: [(&str, u8); 4] = [
    ("end\n", 0),
    (
        "show 1 rule web side listener peer unix: up 0 down 0 age 1 quiet 1\nend\n",
        0,
    ),
    (
        "show 1 rule web side listener peer unix: up 0 down 0 age 1 quiet 1\n\
        error 507 out of memory\n",
        1,
    ),
    ("error 507 out of memory\n", 1),
];

/// Whether a reply has this status, and is printed as it is.
fn is_told(alloc: Global, command: Command, reply: &str, wanted: u8) -> bool {
    let mut reader = Cursor::new(reply.as_bytes());
    let mut printed: Vec<u8> = Vec::new(alloc);
    let status = reply_status(alloc, &command, &mut reader, &mut printed);
    status == Ok(wanted) && printed.as_slice() == reply.as_bytes()
}

#[test]
fn each_reply_is_printed_and_has_its_status(rt: HostRuntime) {
    for (reply, status) in ROWS {
        assert!(&rt;
            is_told(rt.alloc(), Command::List, reply, status),
            "{reply}"
        );
    }
}

#[test]
fn a_listing_is_printed_and_has_its_status(rt: HostRuntime) {
    for (reply, status) in LISTINGS {
        assert!(&rt;
            is_told(rt.alloc(), Command::ShowAll, reply, status),
            "{reply}"
        );
    }
}

/// Whether no whole reply is there, and nothing of it is printed.
fn is_no_reply(alloc: Global, command: Command, reply: &str) -> bool {
    let mut reader = Cursor::new(reply.as_bytes());
    let mut printed: Vec<u8> = Vec::new(alloc);
    let status = reply_status(alloc, &command, &mut reader, &mut printed);
    status == Err(Fault::Reach) && printed.is_empty()
}

#[test]
fn half_a_reply_is_none(rt: HostRuntime) {
    for reply in ["", "o", "ok", "ids 1 2", "ok\nids"] {
        assert!(&rt; is_no_reply(rt.alloc(), Command::List, reply), "{reply}");
    }
}

#[test]
fn a_listing_without_its_last_line_is_no_reply(rt: HostRuntime) {
    for reply in [
        "",
        "end",
        "show 1 rule web side client peer unix: up 0 down 0 age 1 quiet 1\n",
    ] {
        assert!(&rt; is_no_reply(rt.alloc(), Command::ShowAll, reply), "{reply}");
    }
}

/// A connection that is reset, and an output that is closed.
#[derive(Drop)]
struct Broken;

impl Read for Broken {
    fn read(&mut self, _buf: &mut [u8]) -> Result<usize> {
        Err(ErrorKind::ConnectionReset.into())
    }
}

impl Write for Broken {
    fn write(&mut self, _bytes: &[u8]) -> Result<usize> {
        Err(ErrorKind::BrokenPipe.into())
    }

    fn flush(&mut self) -> Result<()> {
        Ok(())
    }
}

#[test]
fn broken_devices_are_told_apart(rt: HostRuntime) {
    let alloc = rt.alloc();
    let mut printed: Vec<u8> = Vec::new(alloc);
    let unread = reply_status(alloc, &Command::List, &mut Broken, &mut printed);
    assert!(&rt; unread == Err(Fault::Reach), "a reset connection");
    let mut done = Cursor::new(b"ok\n".as_slice());
    let unprinted = reply_status(alloc, &Command::Stop, &mut done, &mut Broken);
    assert!(&rt; unprinted == Err(Fault::Print), "a closed output");
}
