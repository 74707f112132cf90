//! Version 2: what the bytes of a head and a block say.

ghost use Rattle.std.specs.Prelude.{◌≡◌, ◌≤◌, ◌+◌, ◌*◌, ◌<◌, length, None, slice_range};
ghost use Rattle.proxy_header.specs.Block.{SaysBlock, head_fault, is_family, ipv4_stream};
ghost use Rattle.proxy_header.specs.Block.{ipv6_stream, least_block, number_at, proxy_command};
ghost use Rattle.proxy_header.specs.Block.{unix_stream};

use crate::fault::HeaderFault;
use crate::header::{EndsV4, EndsV6, HEAD_BYTES, Header, MAX_BYTES, NAME_BYTES, Names};
use std::net::{Ipv4Addr, Ipv6Addr};

/// What each header of version 2 begins with.
pub(crate) const SIGNATURE: &[u8] = b"\r\n\r\n\0\r\nQUIT\n";

/// The version and the command LOCAL.
pub(crate) const LOCAL: u8 = 0x20;

/// The version and the command PROXY.
pub(crate) const PROXY: u8 = 0x21;

pub(crate) const IPV4_STREAM: u8 = 0x11;

pub(crate) const IPV6_STREAM: u8 = 0x21;

pub(crate) const UNIX_STREAM: u8 = 0x31;

/// The most bytes behind a head.
const MAX_BLOCK: usize = MAX_BYTES - HEAD_BYTES;

/// The first fault of a head: its command, its family, the size of its block.
#[tactic(auto, unfolding(crate::specs::Block::head_fault))]
pub(crate) fn fault_of(command: u8, family: u8, size: usize) -> Option<HeaderFault>
    ensures { result ≡ head_fault command family size }
{
    if command != LOCAL && command != PROXY {
        return Some(HeaderFault::Command);
    }
    if command == PROXY && !is_known(family) {
        return Some(HeaderFault::Family);
    }
    if size > MAX_BLOCK {
        return Some(HeaderFault::TooLong);
    }
    if command == PROXY && size < least_size(family) {
        return Some(HeaderFault::TooShort);
    }
    None
}

fn is_known(family: u8) -> bool
    ensures { result ≡ is_family family }
{
    match family {
        0 | 0x12 | 0x22 | 0x32 => true,
        IPV4_STREAM | IPV6_STREAM | UNIX_STREAM => true,
        _ => false,
    }
}

/// The bytes that the addresses of a family take.
fn least_size(family: u8) -> usize
    ensures { result ≡ least_block family }
{
    match family {
        IPV4_STREAM => 12,
        IPV6_STREAM => 36,
        UNIX_STREAM => 2 * NAME_BYTES,
        _ => 0,
    }
}

/// What a head without fault and its block say.
#[tactic(auto, unfolding(crate::specs::Block::head_fault))]
pub(crate) fn said_by(command: u8, family: u8, block: &[u8]) -> Header
    requires { head_fault command family (length block.now) ≡ None }
    ensures { SaysBlock command family block.now result }
{
    if command == LOCAL {
        return Header::Local;
    }
    match family {
        IPV4_STREAM => ipv4(block),
        IPV6_STREAM => ipv6(block),
        UNIX_STREAM => names(block),
        _ => Header::Unknown,
    }
}

fn ipv4(block: &[u8]) -> Header
    requires { 12 ≤ length block.now }
    ensures { SaysBlock proxy_command ipv4_stream block.now result }
{
    Header::V4(EndsV4 {
        source: Ipv4Addr::from_octets(array_at(block, 0)),
        source_port: number(block, 8),
        destination: Ipv4Addr::from_octets(array_at(block, 4)),
        destination_port: number(block, 10),
    })
}

fn ipv6(block: &[u8]) -> Header
    requires { 36 ≤ length block.now }
    ensures { SaysBlock proxy_command ipv6_stream block.now result }
{
    Header::V6(EndsV6 {
        source: Ipv6Addr::from_octets(array_at(block, 0)),
        source_port: number(block, 32),
        destination: Ipv6Addr::from_octets(array_at(block, 16)),
        destination_port: number(block, 34),
    })
}

fn names(block: &[u8]) -> Header
    requires { 216 ≤ length block.now }
    ensures { SaysBlock proxy_command unix_stream block.now result }
{
    Header::Unix(Names {
        source: array_at(block, 0),
        destination: array_at(block, NAME_BYTES),
    })
}

/// The bytes from this place on that the array has room for.
fn array_at<const N: usize>(bytes: &[u8], at: usize) -> [u8; N]
    requires { at + N ≤ length bytes.now }
    ensures { result ≡ slice_range bytes.now at (at + N) }
{
    let mut array = [0; N];
    array.copy_from_slice(&bytes[at..at + N]);
    array
}

/// The number of the two bytes at this place, the high one first.
pub(crate) fn number(bytes: &[u8], at: usize) -> u16
    requires { at + 1 < length bytes.now }
    ensures { result ≡ number_at bytes.now at }
{
    256 * u16::from(bytes[at]) + u16::from(bytes[at + 1])
}
