//! Texts of addresses, and what both ends say of theirs.

use super::{own_path, pair};
use net::{Addr, Net, address_of, tcp};
use std::io::ErrorKind;

/// A text, and the four bytes and the port that it names, if it names any.
const ROWS: &[(&str, Option<([u8; 4], u16)>)] = &[
    ("127.0.0.1:80", Some(([127, 0, 0, 1], 80))),
    ("0.0.0.0:65535", Some(([0, 0, 0, 0], 65_535))),
    ("10.1.2.3:0", Some(([10, 1, 2, 3], 0))),
    ("", None),
    ("unix:", None),
    ("127.0.0.1", None),
    ("127.0.0.1:65536", None),
    ("127.0.0.01:80", None),
    ("[::1]", None),
    ("localhost:80", None),
    (" 127.0.0.1:80", None),
];

/// Whether a text names this, or is refused.
fn is_so(text: &str, named: Option<([u8; 4], u16)>) -> bool {
    match address_of(text) {
        Ok(Addr::Tcp(bytes, port)) => Some((bytes, port)) == named,
        Ok(Addr::Tcp6(_, _, _)) | Ok(Addr::Unix(_)) => false,
        Err(error) => error.kind() == ErrorKind::InvalidInput && named.is_none(),
    }
}

#[test]
fn a_text_names_an_address(rt: HostRuntime) {
    for (text, named) in ROWS {
        holds!(rt; is_so(text, *named), text);
    }
}

#[test]
fn each_end_tells_both_addresses(rt: HostRuntime) {
    let net = Net::start(rt, rt.alloc()).expect(&rt, "net");
    let (near, far) = pair(&rt, &net, &tcp(0));
    holds!(rt; near.local_addr().is_some() && near.local_addr() == far.peer_addr());
    holds!(rt; far.local_addr().is_some() && far.local_addr() == near.peer_addr());
    let path = own_path(&rt, "names").expect(&rt, "a path");
    let (near, far) = pair(&rt, &net, &path);
    holds!(rt; near.peer_addr() == Some(path) && far.local_addr() == Some(path));
    holds!(rt; near.local_addr().is_none() && far.peer_addr().is_none());
    net.stop();
}
