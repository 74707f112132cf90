//! One figure: its name, its labels, its value. Each function puts it behind what the vector holds.

ghost use Rattle.std.specs.Prelude.{◌≡◌, ◌+◌, ◌%◌, ◌∷◌, ◌++◌, OnOk, codes};
ghost use Rattle.std.specs.Fmt.{decimal};
ghost use Rattle.relay_metrics.specs.Family.{name_text};
ghost use Rattle.relay_metrics.specs.Sample.{label_text, rule_sample_text, sample_text};
ghost use Rattle.relay_metrics.specs.Sample.{escaped, escaped_byte, seconds_text, single_text};
ghost use Rattle.relay_metrics.specs.Sample.{value_text};

use crate::family::Family;
use base_types::OutOfMemory;
use itoa::Buffer;
use std::alloc::Allocator;

/// A value, and the end of its line.
#[tactic(auto, unfolding(crate::specs::Sample::value_text))]
pub(crate) fn write_value<A: Allocator>(into: &mut Vec<u8, A>, n: u64) -> Result<(), OutOfMemory>
    ensures { OnOk result (into.new.items ≡ into.old.items ++ value_text (decimal n)) }
{
    let mut buffer = Buffer::new();
    into.extend_from_slice(b" ")?;
    into.extend_from_slice(buffer.format(n).as_bytes())?;
    into.extend_from_slice(b"\n")
}

/// A label.
#[tactic(auto, unfolding(crate::specs::Sample::label_text))]
pub(crate) fn write_label<A: Allocator>(
    into: &mut Vec<u8, A>,
    key: &[u8],
    value: &[u8],
) -> Result<(), OutOfMemory>
    ensures { OnOk result (into.new.items ≡ into.old.items ++ label_text key.now value.now) }
{
    into.extend_from_slice(key)?;
    into.extend_from_slice(b"=\"")?;
    into.extend_from_slice(value)?;
    into.extend_from_slice(b"\"")
}

/// A family of one figure, which has no label.
#[tactic(auto, unfolding(crate::specs::Sample::single_text))]
pub(crate) fn write_single<A: Allocator>(
    into: &mut Vec<u8, A>,
    family: Family,
    n: u64,
) -> Result<(), OutOfMemory>
    ensures { OnOk result (into.new.items ≡ into.old.items ++ single_text family n) }
{
    family.write_head(into)?;
    into.extend_from_slice(family.name())?;
    write_value(into, n)
}

/// A figure with one label.
#[tactic(auto, unfolding(crate::specs::Sample::sample_text, crate::specs::Sample::labelled_text))]
pub(crate) fn write_sample<A: Allocator>(
    into: &mut Vec<u8, A>,
    family: Family,
    key: &[u8],
    value: &[u8],
    n: u64,
) -> Result<(), OutOfMemory>
    ensures { OnOk result
        (into.new.items ≡ into.old.items ++ sample_text family key.now value.now n) }
{
    into.extend_from_slice(family.name())?;
    into.extend_from_slice(b"{")?;
    write_label(into, key, value)?;
    into.extend_from_slice(b"}")?;
    write_value(into, n)
}

/// A figure of a rule with one label more.
#[tactic(auto, unfolding(crate::specs::Sample::rule_sample_text, crate::specs::Sample::labelled_text))]
pub(crate) fn write_rule_sample<A: Allocator>(
    into: &mut Vec<u8, A>,
    family: Family,
    rule: &[u8],
    key: &[u8],
    value: &[u8],
    n: u64,
) -> Result<(), OutOfMemory>
    ensures { OnOk result (into.new.items
        ≡ into.old.items ++ rule_sample_text family rule.now key.now value.now n) }
{
    into.extend_from_slice(family.name())?;
    into.extend_from_slice(b"{")?;
    write_label(into, b"rule", rule)?;
    into.extend_from_slice(b",")?;
    write_label(into, key, value)?;
    into.extend_from_slice(b"}")?;
    write_value(into, n)
}

// A byte of a label's value.
fn write_escaped_byte<A: Allocator>(into: &mut Vec<u8, A>, byte: u8) -> Result<(), OutOfMemory>
    ensures { OnOk result (into.new.items ≡ into.old.items ++ escaped_byte byte) }
{
    if byte == b'"' || byte == b'\\' {
        into.push(b'\\')?;
    }
    into.push(byte)?;
    Ok(())
}

// A label's value in which any byte but a line feed may stand.
fn write_escaped<A: Allocator>(into: &mut Vec<u8, A>, value: &[u8]) -> Result<(), OutOfMemory>
    ensures { OnOk result (into.new.items ≡ into.old.items ++ escaped value.now) }
{
    for byte in value {
        write_escaped_byte(into, *byte)?;
    }
    Ok(())
}

#[tactic(auto, unfolding(crate::specs::Sample::label_text))]
fn write_escaped_label<A: Allocator>(
    into: &mut Vec<u8, A>,
    key: &[u8],
    value: &[u8],
) -> Result<(), OutOfMemory>
    ensures { OnOk result
        (into.new.items ≡ into.old.items ++ label_text key.now (escaped value.now)) }
{
    into.extend_from_slice(key)?;
    into.extend_from_slice(b"=\"")?;
    write_escaped(into, value)?;
    into.extend_from_slice(b"\"")
}

/// A figure of a rule with one label more, in whose value any byte but a line feed may stand.
#[tactic(auto, unfolding(crate::specs::Sample::rule_sample_text, crate::specs::Sample::labelled_text))]
pub(crate) fn write_escaped_sample<A: Allocator>(
    into: &mut Vec<u8, A>,
    family: Family,
    rule: &[u8],
    key: &[u8],
    value: &[u8],
    n: u64,
) -> Result<(), OutOfMemory>
    ensures { OnOk result (into.new.items
        ≡ into.old.items ++ rule_sample_text family rule.now key.now (escaped value.now) n) }
{
    into.extend_from_slice(family.name())?;
    into.extend_from_slice(b"{")?;
    write_label(into, b"rule", rule)?;
    into.extend_from_slice(b",")?;
    write_escaped_label(into, key, value)?;
    into.extend_from_slice(b"}")?;
    write_value(into, n)
}

/// Milliseconds as seconds.
#[tactic(auto, unfolding(crate::specs::Sample::seconds_text))]
pub(crate) fn write_seconds<A: Allocator>(into: &mut Vec<u8, A>, ms: u64) -> Result<(), OutOfMemory>
    ensures { OnOk result (into.new.items ≡ into.old.items ++ seconds_text ms) }
{
    let mut buffer = Buffer::new();
    into.extend_from_slice(buffer.format(ms / 1_000).as_bytes())?;
    into.extend_from_slice(&[b'.', digit(ms / 100), digit(ms / 10), digit(ms)])
}

/// The last decimal digit of a number.
pub(crate) fn digit(n: u64) -> u8
    ensures { result ≡ 48 + n % 10 }
{
    b'0' + (n % 10) as u8
}
