//! Reading a text: its parts, and its numbers within bounds.

ghost use Rattle.std.specs.Prelude.{◌≡◌, ◌≤◌, ◌<◌, ◌^◌, IfSome};
ghost use Rattle.relay_admin.specs.TextReading.{Views, number_within, split_at_first, time_within};

use stream_base::decimal::parse_decimal;

/// A day, in milliseconds: the longest time that an operator may name.
pub const DAY_MS: u64 = 86_400_000;

/// The number from `low` to `high` that the text spells, and none where it spells none.
pub(crate) fn number_between(low: u64, high: u64, text: &[u8]) -> Option<u64>
    ensures value { result ≡ number_within low high text.now }
    ensures bounds { IfSome result (λ n. (low ≤ n) × (n ≤ high)) }
{
    let Some(n) = parse_decimal(text) else {
        return None;
    };
    if n < low || high < n {
        return None;
    }
    Some(n)
}

/// The milliseconds from `low` to `high` that the text spells, or never, by this word; and none
/// where it spells neither.
#[tactic(auto, unfolding(crate::specs::TextReading::time_within))]
pub(crate) fn time_between(low: u64, high: u64, text: &[u8]) -> Option<Option<u32>>
    requires { high < 2 ^ 32 }
    ensures { result ≡ time_within low high text.now }
{
    if text == b"never".as_slice() {
        return Some(None);
    }
    let ms = number_between(low, high, text)?;
    Some(Some(ms as u32))
}

/// What stands before the first such byte, and what stands behind it.
pub(crate) fn split_once(text: &[u8], byte: u8) -> Option<(&[u8], &[u8])>
    ensures { Views (λ parts. (parts.0.now, parts.1.now)) result (split_at_first byte text.now) }
{
    for i in 0..text.len() {
        if text[i] == byte {
            return Some((&text[..i], &text[i + 1..]));
        }
    }
    None
}
