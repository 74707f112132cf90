//! The text of an address, and that a rules file reads it back as the address that it was.

use arrayvec::ArrayString;
use relay_admin::{Addr, Rules};
use std::alloc::Global;

/// An address by literals.
#[derive(Clone, Copy)]
enum Place {
    Tcp([u8; 4], u16),
    Unix(&'static str),
}

impl Place {
    fn addr(self) -> Addr {
        match self {
            Place::Tcp(ip, port) => Addr::Tcp(ip, port),
            Place::Unix(path) => match ArrayString::from(path) {
                Ok(held) => Addr::Unix(held),
                Err(_) => Addr::Unix(ArrayString::new()),
            },
        }
    }
}

// A path of 100 bytes.
const PATH: &str = "/xxxxxxxxxxxxxxxxxxxxxxxxxxxxxxxxxxxxxxxxxxxxxxxxx\
    xxxxxxxxxxxxxxxxxxxxxxxxxxxxxxxxxxxxxxxxxxxxxxxxxx";

const LONGEST: &str = "unix:/xxxxxxxxxxxxxxxxxxxxxxxxxxxxxxxxxxxxxxxxxxxxxxxxx\
    xxxxxxxxxxxxxxxxxxxxxxxxxxxxxxxxxxxxxxxxxxxxxxxxxx";

const ROWS: &[(Place, &str)] = &[
    (Place::Tcp([127, 0, 0, 1], 8080), "tcp:127.0.0.1:8080"),
    (Place::Tcp([1, 22, 203, 4], 5), "tcp:1.22.203.4:5"),
    (Place::Tcp([0, 0, 0, 0], 1), "tcp:0.0.0.0:1"),
    (
        Place::Tcp([255, 255, 255, 255], 65_535),
        "tcp:255.255.255.255:65535",
    ),
    (Place::Unix("/run/app.sock"), "unix:/run/app.sock"),
    (Place::Unix(PATH), LONGEST),
];

#[test]
fn an_address_has_its_text(rt: HostRuntime) {
    for (place, want) in ROWS {
        let text = place.addr().text();
        assert!(rt; text.as_str() == *want, "{want}");
    }
}

/// Where the only rule of a file listens that has this text for it.
fn listens_at(alloc: Global, text: &str) -> Option<Addr> {
    let line = format!(in alloc; "relay a {text} unix:/x never\n").ok()?;
    let rules = Rules::parse(line.as_bytes()).ok()?;
    let rule = rules.as_slice().first()?;
    Some(rule.listen)
}

#[test]
fn a_rules_file_reads_the_text_back(rt: HostRuntime) {
    for (place, want) in ROWS {
        let addr = place.addr();
        let text = addr.text();
        let read = listens_at(rt.alloc(), text.as_str());
        assert!(rt; read == Some(addr), "{want}");
    }
}
