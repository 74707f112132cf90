//! Headers as bytes.

ghost use Rattle.std.specs.Prelude.{◌≡◌, ◌≤◌, ◌+◌, [], ◌∷◌, ◌++◌, codes, length};
ghost use Rattle.std.specs.Fmt.{decimal};
ghost use Rattle.arrayvec.specs.ArrayVec.{array_vec_len};
ghost use Rattle.proxy_header.specs.Line.{ends_text};
ghost use Rattle.proxy_header.specs.HeaderWriting.{block_of, command_of, family_of, two_bytes};
ghost use Rattle.proxy_header.specs.HeaderWriting.{version1_bytes, version1_line, version2_bytes};

use crate::block::{IPV4_STREAM, IPV6_STREAM, LOCAL, PROXY, SIGNATURE, UNIX_STREAM};
use crate::header::{Header, MAX_BLOCK_BYTES, MAX_LINE_BYTES, MAX_VERSION2_BYTES};
use arrayvec::ArrayVec;
use ip_text::{dotted, hex_groups};
use itoa::Buffer;

/// The header in version 2: at most 232 bytes, with nothing behind the addresses.
pub fn version2(header: &Header) -> ArrayVec<u8, MAX_VERSION2_BYTES>
    ensures { result.items ≡ version2_bytes header.now }
{
    let block = block(header);
    let mut bytes = ArrayVec::new();
    put(&mut bytes, SIGNATURE);
    put(&mut bytes, &[command(header), family(header)]);
    put(&mut bytes, &high_and_low(block.len() as u16));
    put(&mut bytes, block.as_slice());
    bytes
}

/// The header in version 1: at most 107 bytes. It has neither LOCAL nor Unix sockets, and says
/// UNKNOWN of both.
pub fn version1(header: &Header) -> ArrayVec<u8, MAX_LINE_BYTES>
    ensures { result.items ≡ version1_bytes header.now }
{
    let mut bytes = line(header);
    put(&mut bytes, b"\r\n");
    bytes
}

/// The line without its CR LF.
fn line(header: &Header) -> ArrayVec<u8, MAX_LINE_BYTES>
    ensures bytes { result.items ≡ version1_line header.now }
    ensures short { array_vec_len result + 2 ≤ MAX_LINE_BYTES }
{
    match header {
        Header::V4(ends) => {
            let (source, destination) = (dotted(ends.source), dotted(ends.destination));
            let (one, other) = (ends.source_port, ends.destination_port);
            line_of(
                b"PROXY TCP4 ",
                source.as_slice(),
                destination.as_slice(),
                one,
                other,
            )
        }
        Header::V6(ends) => {
            let (source, destination) = (hex_groups(ends.source), hex_groups(ends.destination));
            let (one, other) = (ends.source_port, ends.destination_port);
            line_of(
                b"PROXY TCP6 ",
                source.as_slice(),
                destination.as_slice(),
                one,
                other,
            )
        }
        _ => unknown(),
    }
}

fn unknown() -> ArrayVec<u8, MAX_LINE_BYTES>
    ensures bytes { result.items ≡ codes "PROXY UNKNOWN" }
    ensures short { array_vec_len result + 2 ≤ MAX_LINE_BYTES }
{
    let mut bytes = ArrayVec::new();
    put(&mut bytes, b"PROXY UNKNOWN");
    bytes
}

/// These words, then two addresses and two ports.
fn line_of(
    words: &[u8],
    source: &[u8],
    destination: &[u8],
    one: u16,
    other: u16,
) -> ArrayVec<u8, MAX_LINE_BYTES>
    requires { length words.now + length source.now + length destination.now + 15
        ≤ MAX_LINE_BYTES }
    ensures bytes { result.items ≡ words.now ++ ends_text source.now destination.now one other }
    ensures short { array_vec_len result + 2 ≤ MAX_LINE_BYTES }
{
    let mut bytes = ArrayVec::new();
    put(&mut bytes, words);
    put_pair(&mut bytes, source, destination);
    put_numbers(&mut bytes, one, other);
    bytes
}

fn command(header: &Header) -> u8
    ensures { result ≡ command_of header.now }
{
    match header {
        Header::Local => LOCAL,
        _ => PROXY,
    }
}

fn family(header: &Header) -> u8
    ensures { result ≡ family_of header.now }
{
    match header {
        Header::V4(_) => IPV4_STREAM,
        Header::V6(_) => IPV6_STREAM,
        Header::Unix(_) => UNIX_STREAM,
        _ => 0,
    }
}

/// The addresses and ports, or the names.
fn block(header: &Header) -> ArrayVec<u8, MAX_BLOCK_BYTES>
    ensures { result.items ≡ block_of header.now }
{
    let mut bytes = ArrayVec::new();
    match header {
        Header::V4(ends) => {
            put(&mut bytes, &ends.source.octets());
            put(&mut bytes, &ends.destination.octets());
            put(&mut bytes, &high_and_low(ends.source_port));
            put(&mut bytes, &high_and_low(ends.destination_port));
        }
        Header::V6(ends) => {
            put(&mut bytes, &ends.source.octets());
            put(&mut bytes, &ends.destination.octets());
            put(&mut bytes, &high_and_low(ends.source_port));
            put(&mut bytes, &high_and_low(ends.destination_port));
        }
        Header::Unix(names) => {
            put(&mut bytes, &names.source);
            put(&mut bytes, &names.destination);
        }
        _ => {}
    }
    bytes
}

fn high_and_low(number: u16) -> [u8; 2]
    ensures { result ≡ two_bytes number }
{
    [(number / 256) as u8, (number % 256) as u8]
}

/// Puts two addresses with a space behind each.
fn put_pair(bytes: &mut ArrayVec<u8, MAX_LINE_BYTES>, source: &[u8], destination: &[u8])
    requires { array_vec_len bytes.old + length source.now + length destination.now + 2
        ≤ MAX_LINE_BYTES }
    ensures bytes { bytes.new.items
        ≡ bytes.old.items ++ (source.now ++ 32 ∷ (destination.now ++ 32 ∷ [])) }
    ensures len { array_vec_len bytes.new
        ≡ array_vec_len bytes.old + length source.now + length destination.now + 2 }
{
    put(bytes, source);
    put(bytes, b" ");
    put(bytes, destination);
    put(bytes, b" ");
}

/// Puts two numbers with a space between them, in 11 bytes at most.
fn put_numbers(bytes: &mut ArrayVec<u8, MAX_LINE_BYTES>, one: u16, other: u16)
    requires { array_vec_len bytes.old + 11 ≤ MAX_LINE_BYTES }
    ensures bytes { bytes.new.items ≡ bytes.old.items ++ (decimal one ++ 32 ∷ decimal other) }
    ensures short { array_vec_len bytes.new ≤ array_vec_len bytes.old + 11 }
{
    let mut digits = Buffer::new();
    put(bytes, digits.format(one).as_bytes());
    put(bytes, b" ");
    put(bytes, digits.format(other).as_bytes());
}

/// Puts these bytes behind the others.
fn put<const N: usize>(bytes: &mut ArrayVec<u8, N>, more: &[u8])
    requires { array_vec_len bytes.old + length more.now ≤ N }
    ensures bytes { bytes.new.items ≡ bytes.old.items ++ more.now }
    ensures len { array_vec_len bytes.new ≡ array_vec_len bytes.old + length more.now }
{
    if bytes.try_extend_from_slice(more).is_err() {
        unreachable!();
    }
}
