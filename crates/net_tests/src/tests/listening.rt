//! The path of a Unix listener goes with it, and who comes later may have it.

use super::{kind_of, millis, own_path};
use net::{Addr, Conn, Listener, Net, Runs};
use std::fs::Files;
use std::io::ErrorKind;
use std::net::Net as Sockets;
use std::thread::Threads;
use std::{fs, io};

/// How a listener ends.
#[derive(Clone, Copy)]
enum Ends {
    Close,
    Drop,
    /// A clone is let go before it.
    DropBoth,
    Stop,
}

const ROWS: &[(&str, Ends)] = &[
    ("closed", Ends::Close),
    ("let go", Ends::Drop),
    ("let go with its clone", Ends::DropBoth),
    ("stopped with its net", Ends::Stop),
];

fn end_by<R: Runs + Threads>(net: Net<R>, listener: Listener<R>, how: Ends) -> io::Result<()> {
    let mut listener = listener;
    match how {
        Ends::Close => listener.close()?,
        Ends::Drop => drop(listener),
        Ends::DropBoth => {
            let other = listener.try_clone()?;
            drop(listener);
            drop(other);
        }
        Ends::Stop => net.stop(),
    }
    Ok(())
}

fn is_there<R: Files>(rt: &R, path: &str) -> bool {
    // A socket can't be opened as a file, and that isn't told so where nothing is there.
    kind_of(fs::open(rt, path)) != Some(ErrorKind::NotFound)
}

/// Whether a listener's path is there while it listens, and gone after its end.
fn comes_and_goes<R>(rt: R, net: Net<R>, addr: &Addr, how: Ends) -> io::Result<bool>
where
    R: Runs + Threads + Sockets + Files,
{
    let Addr::Unix(path) = addr else {
        return Ok(false);
    };
    let listener = Listener::bind(&net, addr)?;
    drop(Conn::connect(&net, addr, millis(1_000))?);
    let before = is_there(&rt, path.as_str());
    end_by(net, listener, how)?;
    Ok(before && !is_there(&rt, path.as_str()))
}

#[test]
fn the_path_of_a_listener_goes_with_it(rt: HostRuntime) {
    let addr = own_path(&rt, "listener").expect(&rt, "a path");
    for (name, how) in ROWS {
        let net = Net::start(rt, rt.alloc()).expect(&rt, "net");
        let gone = comes_and_goes(rt, net, &addr, *how).expect(&rt, name);
        holds!(rt; gone, name);
    }
}
