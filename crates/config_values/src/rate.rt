//! Rates: so many in a second, a minute or an hour, as `100/s`, `30/m`, `5/h`.

ghost use Rattle.std.specs.Prelude.{◌≡◌};
ghost use Rattle.config_values.specs.Rate.{rate_at, unit_seconds};

use text_reading::{number_between, split_once};

/// The greatest number of a rate.
pub const MAX_RATE: u64 = 1_000_000;

/// So many in so many seconds.
#[derive(Clone, Copy, Debug, PartialEq, Eq, Drop)]
pub struct Rate {
    /// From 1 to 1,000,000.
    pub count: u32,
    /// 1, 60 or 3,600.
    pub seconds: u32,
}

/// The rate that a text spells: a number from 1 to 1,000,000, a slash, and `s`, `m` or `h`. `None`
/// where it spells none.
#[tactic(auto, unfolding(crate::specs::Rate::rate_at))]
pub fn rate_of(text: &[u8]) -> Option<Rate>
    ensures { result ≡ rate_at text.now }
{
    let (number, unit) = split_once(text, b'/')?;
    let seconds = unit_seconds(unit)?;
    let count = number_between(1, MAX_RATE, number)?;
    Some(Rate {
        count: count as u32,
        seconds,
    })
}

/// How many seconds a unit has.
fn unit_seconds(unit: &[u8]) -> Option<u32>
    ensures { result ≡ unit_seconds unit.now }
{
    if unit == b"s".as_slice() {
        Some(1)
    } else if unit == b"m".as_slice() {
        Some(60)
    } else if unit == b"h".as_slice() {
        Some(3_600)
    } else {
        None
    }
}
