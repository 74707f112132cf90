//! Connects by the name of a host. `/etc/hosts` has `localhost`; where it has both families for it, the
//! address that is tried first refuses. A name that ends in `.invalid` is nobody's.

use super::{kind_of, millis, own_path};
use net::{Addr, Conn, Listener, Net, Runs, tcp};
use std::alloc::Global;
use std::fs::Files;
use std::io;
use std::io::ErrorKind;
use std::net::{Ipv6Addr, Net as Sockets};
use std::process::Abort;
use std::thread::Threads;

/// Texts before the port, and whether a connect there finds a listener of IPv4's loopback.
const HOSTS: &[(&str, bool)] = &[
    ("127.0.0.1:", true),
    ("localhost:", true),
    ("[::ffff:127.0.0.1]:", true),
    ("[::1]:", false),
    ("nobody.invalid:", false),
];

/// Texts that name nothing.
const NOWHERE: &[&str] = &[
    "",
    ":",
    ":80",
    "localhost",
    "localhost:",
    "localhost:http",
    "localhost:080",
    "localhost:65536",
    "localhost:-1",
    "::1:80",
    "[::1]",
    "[localhost]:80:1",
    "unix:",
];

/// A listener of this address, and a text of its port behind a host.
fn text_of(alloc: Global, host: &str, at: Option<Addr>) -> Option<String> {
    let port = match at? {
        Addr::Tcp(_, port) | Addr::Tcp6(_, _, port) => port,
        Addr::Unix(_) => return None,
    };
    format!(in alloc; "{host}{port}").ok()
}

#[test]
fn a_connect_by_a_name_comes_where_the_row_says(rt: HostRuntime) {
    let net = Net::start(rt, rt.alloc()).expect(&rt, "net");
    let mut listener = Listener::bind(&net, &tcp(0)).expect(&rt, "bound");
    for (host, is_there) in HOSTS {
        let text = text_of(rt.alloc(), host, listener.local_addr()).expect(&rt, host);
        let dialled = Conn::dial(&net, text.as_str(), millis(60_000));
        holds!(rt; dialled.is_ok() == *is_there, host);
        if let Ok(conn) = dialled {
            holds!(rt; conn.peer_addr() == listener.local_addr(), host);
            holds!(rt; listener.accept().is_ok(), host);
        }
    }
    net.stop();
}

#[test]
fn a_text_that_names_nothing_is_refused(rt: HostRuntime) {
    let net = Net::start(rt, rt.alloc()).expect(&rt, "net");
    for text in NOWHERE {
        let told = kind_of(Conn::dial(&net, text, millis(60_000)));
        holds!(rt; told == Some(ErrorKind::InvalidInput), text);
    }
    net.stop();
}

#[test]
fn a_path_is_dialled_too(rt: HostRuntime) {
    let net = Net::start(rt, rt.alloc()).expect(&rt, "net");
    let addr = own_path(&rt, "dialled").expect(&rt, "a path");
    let _listener = Listener::bind(&net, &addr).expect(&rt, "bound");
    let Addr::Unix(path) = addr else {
        return;
    };
    let path = path.as_str();
    let text = format!(in rt.alloc(); "unix:{path}").expect(&rt, "memory");
    let conn = Conn::dial(&net, text.as_str(), None).expect(&rt, "dialled");
    holds!(rt; conn.peer_addr() == Some(addr));
    net.stop();
}
