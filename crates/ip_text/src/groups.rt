//! Groups of hex digits with colons between them, and four numbers with dots.

ghost use Rattle.std.specs.Prelude.{◌≡◌, ◌≤◌, ◌<◌, ◌+◌, ◌*◌, ◌++◌, length};
ghost use Rattle.std.specs.Char.{digit_char};
ghost use Rattle.std.specs.Fmt.{decimal};
ghost use Rattle.std.specs.Net.Addr.{ipv4_octets, ipv6_segments};
ghost use Rattle.std.specs.Net.Text as Text;
ghost use Rattle.arrayvec.specs.ArrayVec.{array_vec_len};

use arrayvec::ArrayVec;
use itoa::Buffer;
use std::net::{Ipv4Addr, Ipv6Addr};

/// Room for the text of an IPv4 address: four numbers of three digits, and three dots.
pub const MAX_IPV4_BYTES: usize = 15;

/// Room for eight groups of four hex digits, and a colon with each. The text has at most 39 bytes.
pub const MAX_GROUPS_BYTES: usize = 40;

/// Room for the text of an IPv6 address.
pub const MAX_IPV6_BYTES: usize = MAX_GROUPS_BYTES;

/// The address as four decimal numbers with dots between them.
pub fn dotted(address: Ipv4Addr) -> ArrayVec<u8, MAX_IPV4_BYTES>
    ensures { result.items ≡ Text.ipv4_text (ipv4_octets address) }
{
    let [a, b, c, d] = address.octets();
    let mut text = ArrayVec::new();
    put_octet(&mut text, b"", a);
    put_octet(&mut text, b".", b);
    put_octet(&mut text, b".", c);
    put_octet(&mut text, b".", d);
    text
}

/// Puts these bytes and a number behind the text.
fn put_octet<const N: usize>(text: &mut ArrayVec<u8, N>, words: &[u8], octet: u8)
    requires { array_vec_len text.old + length words.now + 3 ≤ N }
    ensures bytes { text.new.items ≡ text.old.items ++ (words.now ++ decimal octet) }
    ensures short { array_vec_len text.new ≤ array_vec_len text.old + length words.now + 3 }
{
    let mut digits = Buffer::new();
    put(text, words);
    put(text, digits.format(octet).as_bytes());
}

/// Puts these bytes behind the text.
fn put<const N: usize>(text: &mut ArrayVec<u8, N>, bytes: &[u8])
    requires { array_vec_len text.old + length bytes.now ≤ N }
    ensures bytes { text.new.items ≡ text.old.items ++ bytes.now }
    ensures len { array_vec_len text.new ≡ array_vec_len text.old + length bytes.now }
{
    if text.try_extend_from_slice(bytes).is_err() {
        unreachable!();
    }
}

/// The address as hex groups alone, as RFC 5952 has them: an IPv4-mapped address has no dots here.
#[tactic(auto, unfolding(std::specs::Net::Text::hex_groups_text))]
pub fn hex_groups(address: Ipv6Addr) -> ArrayVec<u8, MAX_GROUPS_BYTES>
    ensures { result.items ≡ Text.hex_groups_text (ipv6_segments address) }
{
    let segments = address.segments();
    let (start, size) = longest_zero_run(&segments);
    let mut text = ArrayVec::new();
    if size > 1 {
        put_groups(&mut text, &segments[..start]);
        put(&mut text, b"::");
        put_groups(&mut text, &segments[start + size..]);
    } else {
        put_groups(&mut text, &segments);
    }
    text
}

/// The address as RFC 5952 has it: an IPv4-mapped one ends in its IPv4 address.
#[tactic(auto, unfolding(std::specs::Net::Text::ipv6_text))]
pub fn ipv6_text(address: Ipv6Addr) -> ArrayVec<u8, MAX_IPV6_BYTES>
    ensures { result.items ≡ Text.ipv6_text (ipv6_segments address) }
{
    match address.to_ipv4_mapped() {
        Some(inner) => {
            let mut text = ArrayVec::new();
            let inner = dotted(inner);
            put(&mut text, b"::ffff:");
            put(&mut text, inner.as_slice());
            text
        }
        None => hex_groups(address),
    }
}

/// Puts groups with colons between them behind the text.
fn put_groups<const N: usize>(text: &mut ArrayVec<u8, N>, segments: &[u16])
    requires { array_vec_len text.old + 5 * length segments.now ≤ N }
    ensures bytes { text.new.items ≡ text.old.items ++ Text.groups_text segments.now }
    ensures short { array_vec_len text.new ≤ array_vec_len text.old + 5 * length segments.now }
{
    if let [first, others @ ..] = segments {
        put_hex(text, b"", *first);
        for segment in others {
            put_hex(text, b":", *segment);
        }
    }
}

/// Puts these bytes and a group behind the text.
#[tactic(auto, unfolding(std::specs::Net::Text::hex))]
fn put_hex<const N: usize>(text: &mut ArrayVec<u8, N>, words: &[u8], segment: u16)
    requires { array_vec_len text.old + length words.now + 4 ≤ N }
    ensures bytes { text.new.items ≡ text.old.items ++ (words.now ++ Text.hex segment) }
    ensures short { array_vec_len text.new ≤ array_vec_len text.old + length words.now + 4 }
{
    let digits = [
        hex_digit(segment / 0x1000),
        hex_digit(segment / 0x100 % 16),
        hex_digit(segment / 0x10 % 16),
        hex_digit(segment % 16),
    ];
    let zeros = leading_zero_digits(segment);
    put(text, words);
    put(text, &digits[zeros..]);
}

fn hex_digit(digit: u16) -> u8
    requires { digit < 16 }
    ensures { result ≡ digit_char digit }
{
    if digit < 10 {
        b'0' + digit as u8
    } else {
        b'a' + (digit - 10) as u8
    }
}

fn leading_zero_digits(segment: u16) -> usize
    ensures value { result ≡ Text.leading_zero_digits segment }
    ensures within { result < 4 }
{
    match segment {
        0x1000.. => 0,
        0x100.. => 1,
        0x10.. => 2,
        _ => 3,
    }
}

/// Where the longest run of zeros begins, the first of that length, and how many it has.
fn longest_zero_run(segments: &[u16]) -> (usize, usize)
    ensures value { result ≡ Text.longest_zero_run segments.now }
    ensures within { result.0 + result.1 ≤ length segments.now }
{
    let mut start = segments.len();
    let mut size = 0;
    let mut run = 0;
    for i in (0..segments.len()).rev() {
        run = if segments[i] == 0 { run + 1 } else { 0 };
        if run >= size {
            start = i;
            size = run;
        }
    }
    (start, size)
}
