//! Times: a number and one of the units ms, s, m and h, as `500ms`, `5s`, `30m`, `2h`.

ghost use Rattle.std.specs.Prelude.{◌≡◌, ◌<◌, ◌≤◌, ◌*◌, ◌++◌, IfSome};
ghost use Rattle.config_values.specs.Time.{behind_digits, digits_before, time_at, unit_of};

use text_reading::number_between;

/// A day, in milliseconds: the longest time that an operator may name.
pub const DAY_MS: u64 = 86_400_000;

/// The milliseconds that a text spells, from 1 to those of a day: a number, which has one spelling,
/// and behind it `ms`, `s`, `m` or `h`. `None` where it spells none.
#[tactic(auto, unfolding(crate::specs::Time::time_at))]
pub fn time_of(text: &[u8]) -> Option<u64>
    ensures { result ≡ time_at text.now }
{
    let (digits, word) = split_digits(text);
    let (factor, most) = unit_of(word)?;
    let number = number_between(1, most, digits)?;
    Some(number * factor)
}

/// How many milliseconds a unit has, and the most of it that a day has.
fn unit_of(word: &[u8]) -> Option<(u64, u64)>
    ensures value { result ≡ unit_of word.now }
    ensures day { IfSome result (λ unit. unit.0 * unit.1 ≤ DAY_MS) }
{
    if word == b"ms".as_slice() {
        Some((1, 86_400_000))
    } else if word == b"s".as_slice() {
        Some((1_000, 86_400))
    } else if word == b"m".as_slice() {
        Some((60_000, 1_440))
    } else if word == b"h".as_slice() {
        Some((3_600_000, 24))
    } else {
        None
    }
}

/// The digits at the front, and what stands behind them.
fn split_digits(text: &[u8]) -> (&[u8], &[u8])
    ensures digits { result.0.now ≡ digits_before text.now }
    ensures behind { result.1.now ≡ behind_digits text.now }
{
    for at in 0..text.len() {
        if !text[at].is_ascii_digit() {
            return (&text[..at], &text[at..]);
        }
    }
    (text, &[])
}
