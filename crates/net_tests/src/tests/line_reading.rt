//! Lines of a connection: how they come of bytes clauses say.

use super::pair;
use net::{Heard, Lines, Net, tcp};
use std::io::Write;

#[test]
fn a_line_of_a_connection_comes_in_parts_and_what_is_behind_is_kept(rt: HostRuntime) {
    let net = Net::start(rt, rt.alloc()).expect(&rt, "net");
    let (mut near, mut far) = pair(&rt, &net, &tcp(0));
    let mut lines = Lines::<8>::new();
    holds!(rt; lines.poll(&mut far).is_none(), "nothing is there yet");
    holds!(rt; near.write_all(b"fi").is_ok(), "said");
    holds!(rt; lines.poll(&mut far).is_none(), "a part isn't told");
    holds!(rt; lines.line() == b"fi".as_slice(), "it is kept");
    holds!(rt; near.write_all(b"rst\nsecond\n").is_ok(), "said");
    holds!(rt; lines.read(&mut far).ok() == Some(Heard::Line), "a line");
    holds!(rt; lines.line() == b"first".as_slice(), "all of it");
    let second = lines.poll(&mut far);
    holds!(rt; matches!(second, Some(Ok(Heard::Line))), "another, which was read ahead");
    holds!(rt; lines.line() == b"second".as_slice(), "all of it");
    drop(near);
    holds!(rt; lines.read(&mut far).ok() == Some(Heard::End), "the end");
}
