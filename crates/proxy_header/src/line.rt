//! Version 1: where a line ends, and what it spells.

ghost use Rattle.std.specs.Prelude.{◌≡◌, ◌≢◌, ◌↔◌, ◌≤◌, ◌<◌, ◌+◌, ◌++◌, ℕ, List, length};
ghost use Rattle.std.specs.Prelude.{IfSome, IfNone, IsTrue, MatchOption};
ghost use Rattle.proxy_header.specs.Line.{IsEnd, NoEndBelow, SaysUnknown, SpellsLine, SpellsV4};
ghost use Rattle.proxy_header.specs.Line.{SpellsV6, words_at};
ghost use Rattle.proxy_header.specs.declared.header.EndsV4.{EndsV4};
ghost use Rattle.proxy_header.specs.declared.header.EndsV6.{EndsV6};
ghost use Rattle.proxy_header.specs.declared.header.Header.{Header};
ghost use Rattle.proxy_header.specs.declared.header.Header.TheVariants.{V4, V6};
ghost use Rattle.text_reading.specs.Reading.{Views};

use crate::header::{EndsV4, EndsV6, Header, MAX_LINE_BYTES};
use std::net::{Ipv4Addr, Ipv6Addr};
use text_reading::{number_between, split_once};

/// Where the first CR LF of the first 107 bytes stands.
pub(crate) fn end_of(bytes: &[u8]) -> Option<usize>
    ensures found { IfSome result (λ end. (end + 2 ≤ MAX_LINE_BYTES) × (end + 2 ≤ length bytes.now)
        × IsEnd bytes.now end × NoEndBelow bytes.now end) }
    ensures none { IfNone result ((k : ℕ) → k + 2 ≤ MAX_LINE_BYTES → IsEnd bytes.now k → ⊥) }
{
    let places = bytes.len().min(MAX_LINE_BYTES).saturating_sub(1);
    for at in 0..places {
        if ends_at(bytes, at) {
            return Some(at);
        }
    }
    None
}

fn ends_at(bytes: &[u8], at: usize) -> bool
    requires { at + 1 < length bytes.now }
    ensures { IsTrue result ↔ IsEnd bytes.now at }
{
    bytes[at] == b'\r' && bytes[at + 1] == b'\n'
}

/// What a line says, without its CR LF.
pub(crate) fn said_in(line: &[u8]) -> Option<Header>
    ensures { MatchOption result ((said : Header) → SpellsLine line.now said → ⊥)
        (λ said. SpellsLine line.now said) }
{
    if let Some(ends) = ipv4_in(line) {
        return Some(Header::V4(ends));
    }
    if let Some(ends) = ipv6_in(line) {
        return Some(Header::V6(ends));
    }
    if says_unknown(line) {
        return Some(Header::Unknown);
    }
    None
}

/// The word of a sender that can't tell.
const UNKNOWN: &[u8] = b"PROXY UNKNOWN";

fn says_unknown(line: &[u8]) -> bool
    ensures { IsTrue result ↔ SaysUnknown line.now }
{
    line == UNKNOWN || line.starts_with(b"PROXY UNKNOWN ")
}

/// What stands behind these words, and `None` where the line doesn't begin with them.
fn behind<'a>(line: &'a [u8], words: &[u8]) -> Option<&'a [u8]>
    ensures { MatchOption result ((rest : List ℕ) → line.now ≢ words.now ++ rest)
        (λ text. line.now ≡ words.now ++ text.now) }
{
    line.strip_prefix(words)
}

fn ipv4_in(line: &[u8]) -> Option<EndsV4>
    ensures { MatchOption result ((ends : EndsV4) → SpellsLine line.now (V4 ends) → ⊥)
        (λ ends. SpellsLine line.now (V4 ends)) }
{
    match behind(line, b"PROXY TCP4 ") {
        Some(text) => ipv4(text),
        None => None,
    }
}

fn ipv6_in(line: &[u8]) -> Option<EndsV6>
    ensures { MatchOption result ((ends : EndsV6) → SpellsLine line.now (V6 ends) → ⊥)
        (λ ends. SpellsLine line.now (V6 ends)) }
{
    match behind(line, b"PROXY TCP6 ") {
        Some(text) => ipv6(text),
        None => None,
    }
}

fn ipv4(text: &[u8]) -> Option<EndsV4>
    ensures { MatchOption result ((ends : EndsV4) → SpellsV4 text.now ends → ⊥)
        (λ ends. SpellsV4 text.now ends) }
{
    let Some(words) = words_of(text) else {
        return None;
    };
    let Ok(source) = Ipv4Addr::parse_ascii(words.source) else {
        return None;
    };
    let Ok(destination) = Ipv4Addr::parse_ascii(words.destination) else {
        return None;
    };
    Some(EndsV4 {
        source,
        source_port: words.source_port,
        destination,
        destination_port: words.destination_port,
    })
}

fn ipv6(text: &[u8]) -> Option<EndsV6>
    ensures { MatchOption result ((ends : EndsV6) → SpellsV6 text.now ends → ⊥)
        (λ ends. SpellsV6 text.now ends) }
{
    let Some(words) = words_of(text) else {
        return None;
    };
    let Ok(source) = Ipv6Addr::parse_ascii(words.source) else {
        return None;
    };
    let Ok(destination) = Ipv6Addr::parse_ascii(words.destination) else {
        return None;
    };
    Some(EndsV6 {
        source,
        source_port: words.source_port,
        destination,
        destination_port: words.destination_port,
    })
}

/// Two addresses, not read yet, and two ports.
#[derive(Clone, Copy)]
struct Words<'a> {
    source: &'a [u8],
    destination: &'a [u8],
    source_port: u16,
    destination_port: u16,
}

#[tactic(auto, unfolding(crate::specs::Line::words_at))]
fn words_of(text: &[u8]) -> Option<Words<'_>>
    ensures { Views (λ words. (
      words.source.now,
      words.destination.now,
      words.source_port,
      words.destination_port,
    )) result (words_at text.now) }
{
    let (source, rest) = split_once(text, b' ')?;
    let (destination, rest) = split_once(rest, b' ')?;
    let (source_port, rest) = split_once(rest, b' ')?;
    let source_port = number_between(0, 65_535, source_port)?;
    let destination_port = number_between(0, 65_535, rest)?;
    Some(Words {
        source,
        destination,
        source_port: source_port as u16,
        destination_port: destination_port as u16,
    })
}
