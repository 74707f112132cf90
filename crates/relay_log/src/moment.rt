//! A moment in UTC, to the millisecond, and its text by ISO 8601: `2026-11-24T15:21:47.123Z`.

ghost use Rattle.std.specs.Prelude.{◌≡◌, ◌<◌, ◌/◌, ◌%◌, ◌+◌, ◌++◌, pos, min, OnOk, OnErr};
ghost use Rattle.jiff_core.specs.Date.{epoch_day};

use base_types::OutOfMemory;
use jiff_core::civil::Date;
use std::alloc::Allocator;

/// The milliseconds of a day. UTC as computers count it has no leap seconds.
pub const DAY_MS: u64 = 86_400_000;

/// The greatest moment, 9999-12-31T23:59:59.999Z, in milliseconds since 1970.
pub const GREATEST_MS: u64 = 253_402_300_799_999;

/// A day of the calendar and the milliseconds since it began.
#[derive(Clone, Copy)]
pub struct Moment {
    pub date: Date,
    pub ms_of_day: u32,
    ghost within: { ms_of_day < 86400000 },
}

impl Moment {
    ghost use Rattle.relay_log.specs.Moment.{moment_text};

    /// So many milliseconds after 1970 began. A moment after the greatest is taken for that.
    pub fn from_millis(ms: u64) -> Moment
        ensures date { epoch_day result.date ≡ pos (min ms 253402300799999 / 86400000) }
        ensures ms_of_day { result.ms_of_day ≡ min ms 253402300799999 % 86400000 }
    {
        let ms = ms.min(GREATEST_MS);
        let date = match Date::from_unix_epoch_day((ms / DAY_MS) as i64) {
            Ok(date) => date,
            // A day number up to that of the greatest moment has a date.
            Err(_) => Date::MAX,
        };
        Moment {
            date,
            ms_of_day: (ms % DAY_MS) as u32,
        }
    }

    /// Puts its text behind what the vector holds, or nothing where memory is refused.
    #[tactic(auto, unfolding(crate::specs::Moment::moment_text))]
    pub fn write<A: Allocator>(self, into: &mut Vec<u8, A>) -> Result<(), OutOfMemory>
        ensures written { OnOk result (into.new.items ≡ into.old.items ++ moment_text self) }
        ensures kept { OnErr result (into.new.items ≡ into.old.items) }
    {
        let year = self.date.year.unsigned_abs() as u32;
        let month = self.date.month as u32;
        let day = self.date.day as u32;
        let ms = self.ms_of_day;
        into.extend_from_slice(&[
            digit(year / 1_000),
            digit(year / 100),
            digit(year / 10),
            digit(year),
            b'-',
            digit(month / 10),
            digit(month),
            b'-',
            digit(day / 10),
            digit(day),
            b'T',
            digit(ms / 3_600_000 / 10),
            digit(ms / 3_600_000),
            b':',
            digit(ms / 60_000 % 60 / 10),
            digit(ms / 60_000 % 60),
            b':',
            digit(ms / 1_000 % 60 / 10),
            digit(ms / 1_000 % 60),
            b'.',
            digit(ms % 1_000 / 100),
            digit(ms % 1_000 / 10),
            digit(ms % 1_000),
            b'Z',
        ])
    }
}

// The last decimal digit of a number.
fn digit(n: u32) -> u8
    ensures { result ≡ 48 + n % 10 }
{
    b'0' + (n % 10) as u8
}
