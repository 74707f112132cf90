//! Numbers in their one spelling: `0`, or digits that begin with no zero; no sign, no space.

ghost use Rattle.std.specs.Prelude.{◌≡◌, ◌≢◌, ◌<◌, ◌^◌, ℕ, IfSome, IfNone};
ghost use Rattle.std.specs.Fmt.{decimal};
ghost use Rattle.stream_base.specs.Decimal.{number_of};

/// The number that the text spells, if it spells one below 2^64.
pub fn parse_decimal(text: &[u8]) -> Option<u64>
    ensures spelled { IfSome result (λ n. text.now ≡ decimal n) }
    ensures refused { IfNone result ((n : ℕ) → n < 2 ^ 64 → text.now ≢ decimal n) }
    // The same as a function of the text.
    ensures value { result ≡ number_of text.now }
{
    let Ok(digits) = str::from_utf8(text) else {
        return None;
    };
    if text.is_empty() {
        return None;
    }
    // Two spellings that `parse` would take as well: a plus, and zeros in front.
    if text[0] == b'+' {
        return None;
    }
    if text[0] == b'0' && text.len() > 1 {
        return None;
    }
    match digits.parse::<u64>() {
        Ok(n) => Some(n),
        Err(_) => None,
    }
}
