//! The first header of a stream's bytes.

ghost use Rattle.std.specs.Prelude.{◌≡◌, ◌↔◌, ◌≤◌, ◌+◌, ◌<◌, ℕ, length, min, take, IsTrue};
ghost use Rattle.proxy_header.specs.Block.{signature};
ghost use Rattle.proxy_header.specs.HeaderReading.{Agrees, BeginsWith, IsAnswer, word};
ghost use Rattle.proxy_header.specs.declared.header.Header.{Header};
ghost use Rattle.proxy_header.specs.declared.header_reading.Decoded.TheVariants.{Whole};

use crate::block::{SIGNATURE, fault_of, number, said_by};
use crate::fault::HeaderFault;
use crate::header::{HEAD_BYTES, Header, MAX_LINE_BYTES};
use crate::line::{end_of, said_in};

/// What a stream's first bytes are.
#[derive(Clone, Copy, Debug, PartialEq, Eq, Drop)]
pub enum Decoded {
    /// A header, and of how many bytes it is. What follows them is the connection's own.
    Whole(Header, usize),
    /// The beginning of a header: more bytes are needed. A header of 536 bytes is whole, or faulty.
    More,
    /// No header, whatever may follow.
    Fault(HeaderFault),
}

/// The header that these bytes of a stream begin with, of either version. It looks at the bytes
/// alone, so that a caller that only peeked takes exactly the header's bytes, and none behind it.
pub fn decode(bytes: &[u8]) -> Decoded
    ensures answer { IsAnswer bytes.now result }
    // So a header is found wherever one begins the bytes.
    ensures whole { (said : Header) → (size : ℕ)
        → (result ≡ Whole said size) ↔ BeginsWith bytes.now size said }
{
    answer(bytes)
}

fn answer(bytes: &[u8]) -> Decoded
    ensures { IsAnswer bytes.now result }
{
    if agrees(bytes, SIGNATURE) {
        return version2(bytes);
    }
    if agrees(bytes, b"PROXY ") {
        return version1(bytes);
    }
    Decoded::Fault(HeaderFault::NoHeader)
}

/// Whether the bytes are those of the front, as far as both go.
fn agrees(bytes: &[u8], front: &[u8]) -> bool
    ensures { IsTrue result ↔ Agrees bytes.now front.now }
{
    let both = bytes.len().min(front.len());
    bytes[..both] == front[..both]
}

fn version2(bytes: &[u8]) -> Decoded
    requires { Agrees bytes.now signature }
    ensures { IsAnswer bytes.now result }
{
    if bytes.len() < HEAD_BYTES {
        return Decoded::More;
    }
    let size = usize::from(number(bytes, 14));
    if let Some(fault) = fault_of(bytes[12], bytes[13], size) {
        return Decoded::Fault(fault);
    }
    let end = HEAD_BYTES + size;
    if bytes.len() < end {
        return Decoded::More;
    }
    Decoded::Whole(said_by(bytes[12], bytes[13], &bytes[HEAD_BYTES..end]), end)
}

fn version1(bytes: &[u8]) -> Decoded
    requires { Agrees bytes.now word }
    ensures { IsAnswer bytes.now result }
{
    match end_of(bytes) {
        Some(end) => match said_in(&bytes[..end]) {
            Some(said) => Decoded::Whole(said, end + 2),
            None => Decoded::Fault(HeaderFault::BadLine),
        },
        None if bytes.len() < MAX_LINE_BYTES => Decoded::More,
        None => Decoded::Fault(HeaderFault::NoEnd),
    }
}
