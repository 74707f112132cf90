//! Reading a text from left to right: where a byte stands first, and numbers within bounds.
#![tactic(auto)]

ghost use Rattle.std.specs.Prelude.{◌≡◌, ◌≤◌, ◌<◌, ◌^◌, ℕ, IfSome, IfNone};
ghost use Rattle.stream_base.specs.Lines.{Lacks};
ghost use Rattle.text_reading.specs.Reading.{SpellsNumber, Splits, Views};
ghost use Rattle.text_reading.specs.Reading.{number_within, split_at_first};

use stream_base::decimal::parse_decimal;

/// What stands before the first such byte of a text, and what stands behind it; `None` where the
/// text has no such byte.
pub fn split_once(text: &[u8], byte: u8) -> Option<(&[u8], &[u8])>
    ensures parts { IfSome result (λ parts. Splits byte text.now (parts.0.now, parts.1.now)) }
    ensures none { IfNone result (Lacks byte text.now) }
    // The same as a function of the text.
    ensures value { Views (λ parts. (parts.0.now, parts.1.now)) result
        (split_at_first byte text.now) }
{
    for i in 0..text.len() {
        if text[i] == byte {
            return Some((&text[..i], &text[i + 1..]));
        }
    }
    None
}

/// The number from `low` to `high` that the text spells, and `None` where it spells none: a number
/// has one spelling, digits of which the first is no zero, or `0`.
pub fn number_between(low: u64, high: u64, text: &[u8]) -> Option<u64>
    ensures spelled { IfSome result (λ n. SpellsNumber low high text.now n) }
    ensures none { IfNone result ((n : ℕ) → SpellsNumber low high text.now n → ⊥) }
    // The same as a function of the text.
    ensures value { result ≡ number_within low high text.now }
{
    let Some(n) = parse_decimal(text) else {
        return None;
    };
    if n < low || high < n {
        return None;
    }
    Some(n)
}
