//! How many descriptors a process may have, by Linux's text of its limits.

ghost use Rattle.std.specs.Prelude.{◌≡◌, ◌==◌, ◌≤◌, length};
ghost use Rattle.std.specs.List.{position_or_len, prefix_len};
ghost use Rattle.relay_command.specs.SoftLimit as spec;

use stream_base::decimal::parse_decimal;

/// What the line begins with that tells how many files may be open has so many bytes.
const WORDS_BYTES: usize = 14;

/// How many descriptors a process may have, by what the system says of its limits
/// (`/proc/self/limits` of Linux); none where that isn't said.
pub fn descriptors_allowed(limits: &str) -> Option<u64>
    ensures { result ≡ spec.soft_limit limits.now }
{
    allowed_by(limits.as_bytes())
}

fn allowed_by(limits: &[u8]) -> Option<u64>
    ensures { result ≡ spec.soft_limit limits.now }
{
    if limits.is_empty() {
        return None;
    }
    let end = place_of(b'\n', limits);
    let line = &limits[..end];
    if tells_open_files(line) {
        return parse_decimal(first_word(&line[WORDS_BYTES..]));
    }
    if end == limits.len() {
        return None;
    }
    allowed_by(&limits[end + 1..])
}

fn tells_open_files(line: &[u8]) -> bool
    ensures { result ≡ spec.tells_open_files line.now }
{
    line.len() >= WORDS_BYTES && &line[..WORDS_BYTES] == b"Max open files".as_slice()
}

fn first_word(text: &[u8]) -> &[u8]
    ensures { result.now ≡ spec.first_word text.now }
{
    let words = &text[blanks(text)..];
    &words[..place_of(b' ', words)]
}

// How many blanks a text begins with.
fn blanks(text: &[u8]) -> usize
    ensures value { result ≡ prefix_len spec.is_blank text.now }
    ensures within { result ≤ length text.now }
{
    for place in 0..text.len() {
        if text[place] != b' ' {
            return place;
        }
    }
    text.len()
}

// The place of the first such byte; how many bytes there are, where there is none.
fn place_of(byte: u8, text: &[u8]) -> usize
    ensures value { result ≡ position_or_len (λ b. b == byte) text.now }
    ensures within { result ≤ length text.now }
{
    for place in 0..text.len() {
        if text[place] == byte {
            return place;
        }
    }
    text.len()
}
