//! Where a rule listens and where it connects to. A rules file spells no address of IPv6: a rule of a
//! configuration may have one, and so may a client.

ghost use Rattle.std.specs.Prelude.{◌≡◌, ◌≤◌, ◌+◌, ◌++◌, true, length, slice_index};
ghost use Rattle.std.specs.List.{list_all};
ghost use Rattle.std.specs.Fmt.{decimal};
ghost use Rattle.std.specs.Net.Addr.{ipv6_segments};
ghost use Rattle.std.specs.Net.Text as Text;
ghost use Rattle.arrayvec.specs.ArrayString.{array_string_len};
ghost use Rattle.relay_admin.specs.rules.Addr.{address_of, address_text, is_path, is_visible};
ghost use Rattle.relay_admin.specs.rules.Addr.{same_address, tcp, tcp6, unix};
ghost use Rattle.relay_admin.specs.rules.Reading.{address_at, path_at, tcp_at};
ghost use Rattle.relay_admin.specs.TextReading.{Views};

use crate::text::{number_between, split_once};
use arrayvec::ArrayString;
use ip_text::{MAX_IPV6_BYTES, ipv6_text};
use itoa::Buffer;
use std::net::Ipv6Addr;
use std::str;

/// The most bytes of a path.
pub const MAX_PATH_BYTES: usize = 100;

/// The most bytes of an address's text: those of a path, and "unix:" before it.
pub const MAX_ADDR_BYTES: usize = MAX_PATH_BYTES + 5;

/// An address: `Tcp` has the four bytes of an IPv4 address and a port; `Tcp6` an IPv6 address, the
/// number of its scope, 0 for none, and a port; `Unix` the path of a socket.
#[derive(Clone, Copy, Debug, PartialEq, Eq, Drop)]
pub enum Addr {
    Tcp([u8; 4], u16),
    Tcp6(Ipv6Addr, u32, u16),
    Unix(ArrayString<MAX_PATH_BYTES>),
}

impl Addr {
    /// The address as a rules file spells it, and one of IPv6 as a configuration does, at most 105
    /// bytes.
    pub fn text(&self) -> ArrayString<MAX_ADDR_BYTES>
        ensures { result.bytes ≡ address_text (address_of self.now) }
    {
        match self {
            Addr::Tcp(bytes, port) => tcp_text(bytes, *port),
            Addr::Tcp6(ip, scope, port) => tcp6_text(*ip, *scope, *port),
            Addr::Unix(path) => unix_text(path.as_str()),
        }
    }
}

fn tcp_text(bytes: &[u8; 4], port: u16) -> ArrayString<MAX_ADDR_BYTES>
    ensures { result.bytes ≡ address_text (tcp (slice_index bytes.now 0) (slice_index bytes.now 1)
        (slice_index bytes.now 2) (slice_index bytes.now 3) port) }
{
    let mut text = ArrayString::new();
    push_number(&mut text, "tcp:", u32::from(bytes[0]));
    push_number(&mut text, ".", u32::from(bytes[1]));
    push_number(&mut text, ".", u32::from(bytes[2]));
    push_number(&mut text, ".", u32::from(bytes[3]));
    push_number(&mut text, ":", u32::from(port));
    text
}

fn tcp6_text(ip: Ipv6Addr, scope: u32, port: u16) -> ArrayString<MAX_ADDR_BYTES>
    ensures { result.bytes ≡ address_text (tcp6 (ipv6_segments ip) scope port) }
{
    let digits = digits_of(ip);
    let mut text = ArrayString::new();
    text.push_str("tcp:[");
    text.push_str(digits.as_str());
    push_scope(&mut text, scope);
    push_number(&mut text, "]:", u32::from(port));
    text
}

/// The digits of the address.
fn digits_of(ip: Ipv6Addr) -> ArrayString<MAX_IPV6_BYTES>
    ensures { result.bytes ≡ Text.ipv6_text (ipv6_segments ip) }
{
    let segments = ip.segments();
    let digits = ipv6_text(ip);
    held_digits(&segments, digits.as_slice())
}

/// The digits of the address with these segments, which are ASCII since each has 16 bits.
fn held_digits(segments: &[u16], digits: &[u8]) -> ArrayString<MAX_IPV6_BYTES>
    requires its { digits.now ≡ Text.ipv6_text segments.now }
    requires short { length digits.now ≤ MAX_IPV6_BYTES }
    ensures { result.bytes ≡ digits.now }
{
    held(digits)
}

/// Puts `%` and the scope behind the text, or nothing for none.
fn push_scope(text: &mut ArrayString<MAX_ADDR_BYTES>, scope: u32)
    requires { array_string_len text.old + 11 ≤ MAX_ADDR_BYTES }
    ensures bytes { text.new.bytes ≡ text.old.bytes ++ Text.scope_text scope }
    ensures short { array_string_len text.new ≤ array_string_len text.old + 11 }
{
    if scope > 0 {
        push_number(text, "%", scope);
    }
}

/// Puts these words and a number behind the text.
fn push_number(text: &mut ArrayString<MAX_ADDR_BYTES>, words: &str, number: u32)
    requires { array_string_len text.old + length words.now + 10 ≤ MAX_ADDR_BYTES }
    ensures bytes { text.new.bytes ≡ text.old.bytes ++ (words.now ++ decimal number) }
    ensures short { array_string_len text.new ≤ array_string_len text.old + length words.now + 10 }
{
    let mut digits = Buffer::new();
    text.push_str(words);
    text.push_str(digits.format(number));
}

/// The text of the address with this path; of no path, that of an unnamed socket.
pub(crate) fn unix_text(path: &str) -> ArrayString<MAX_ADDR_BYTES>
    requires { length path.now ≤ MAX_PATH_BYTES }
    ensures { result.bytes ≡ address_text (unix path.now) }
{
    let mut text = ArrayString::new();
    text.push_str("unix:");
    text.push_str(path);
    text
}

/// The address that a text spells, as the rules file has it, and none where it spells none.
#[tactic(auto, unfolding(crate::specs::rules::Reading::address_at))]
pub fn addr_of(text: &[u8]) -> Option<Addr>
    ensures { Views address_of result (address_at text.now) }
{
    let (kind, rest) = split_once(text, b':')?;
    if kind == b"tcp".as_slice() {
        tcp_of(rest)
    } else if kind == b"unix".as_slice() {
        path_of(rest)
    } else {
        None
    }
}

/// Whether both are one address.
pub fn is_same_addr(one: &Addr, other: &Addr) -> bool
    ensures { result ≡ same_address (address_of one.now) (address_of other.now) }
{
    match (one, other) {
        (Addr::Tcp(a, port), Addr::Tcp(b, other_port)) => {
            a[0] == b[0] && a[1] == b[1] && a[2] == b[2] && a[3] == b[3] && *port == *other_port
        }
        (Addr::Tcp6(ip, scope, port), Addr::Tcp6(other_ip, other_scope, other_port)) => {
            ip.segments() == other_ip.segments() && *scope == *other_scope && *port == *other_port
        }
        (Addr::Unix(path), Addr::Unix(other_path)) => path.as_str() == other_path.as_str(),
        _ => false,
    }
}

#[tactic(auto, unfolding(crate::specs::rules::Reading::tcp_at))]
fn tcp_of(text: &[u8]) -> Option<Addr>
    ensures { Views address_of result (tcp_at text.now) }
{
    let (first, rest) = split_once(text, b'.')?;
    let (second, rest) = split_once(rest, b'.')?;
    let (third, rest) = split_once(rest, b'.')?;
    let (fourth, port) = split_once(rest, b':')?;
    let a = number_between(0, 255, first)?;
    let b = number_between(0, 255, second)?;
    let c = number_between(0, 255, third)?;
    let d = number_between(0, 255, fourth)?;
    let port = number_between(1, 65_535, port)?;
    Some(Addr::Tcp([a as u8, b as u8, c as u8, d as u8], port as u16))
}

#[tactic(auto, unfolding(crate::specs::rules::Reading::path_at))]
fn path_of(text: &[u8]) -> Option<Addr>
    ensures { Views address_of result (path_at text.now) }
{
    if is_path_text(text) {
        Some(Addr::Unix(held(text)))
    } else {
        None
    }
}

pub(crate) fn is_path_text(text: &[u8]) -> bool
    ensures { result ≡ is_path text.now }
{
    if text.is_empty() || text[0] != b'/' {
        return false;
    }
    are_visible(text) && text.len() <= MAX_PATH_BYTES
}

pub(crate) fn are_visible(text: &[u8]) -> bool
    ensures { result ≡ list_all is_visible text.now }
{
    for byte in text {
        if *byte < 0x21 || 0x7e < *byte {
            return false;
        }
    }
    true
}

/// The text in a value of its own, in which it fits.
pub(crate) fn held<const N: usize>(text: &[u8]) -> ArrayString<N>
    requires visible { list_all is_visible text.now ≡ true }
    requires short { length text.now ≤ N }
    ensures { result.bytes ≡ text.now }
{
    match str::from_utf8(text) {
        Ok(text) => match ArrayString::from(text) {
            Ok(held) => held,
            Err(_) => unreachable!(),
        },
        Err(_) => unreachable!(),
    }
}
