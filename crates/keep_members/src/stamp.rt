ghost use Rattle.keep_members.specs.Stamp.{IsInstant};

use crate::instant::{rest_of, seconds_of};
use jiff::Timestamp;

const FIRST_SECOND: i64 = -62_167_219_200;

const LAST_SECOND: i64 = 253_402_207_200;

const LAST_NANOSECOND: u32 = 999_999_999;

/// An instant that a node can say: from 0000-01-01T00:00:00Z to 9999-12-30T22:00:00.999999999Z.
#[derive(Clone, Copy, PartialEq, Eq)]
pub struct Stamp {
    seconds: i64,
    nanoseconds: u32,
    ghost in_range: { IsInstant seconds nanoseconds },
}

impl Stamp {
    ghost use Rattle.std.specs.Prelude.{◌≡◌, option_map};
    ghost use Rattle.keep_members.specs.Members.{stamp_view};
    ghost use Rattle.keep_members.specs.Stamp as spec;

    /// The instant of so many seconds since 1970-01-01T00:00:00Z, rounded down, and so many nanoseconds. Where no node
    /// can say it, the nearest one that a node can say.
    pub fn nearest(seconds: i64, nanoseconds: u32) -> Stamp
        ensures { stamp_view result ≡ spec.nearest seconds nanoseconds }
    {
        if seconds < FIRST_SECOND {
            return Stamp {
                seconds: FIRST_SECOND,
                nanoseconds: 0,
            };
        }
        if seconds > LAST_SECOND {
            return Stamp {
                seconds: LAST_SECOND,
                nanoseconds: LAST_NANOSECOND,
            };
        }
        Stamp {
            seconds,
            nanoseconds: nanoseconds.min(LAST_NANOSECOND),
        }
    }

    /// The instant, if a node can say it.
    pub(crate) fn at(instant: Timestamp) -> Option<Stamp>
        ensures { option_map stamp_view result ≡ spec.stamp_at instant.nanosecond }
    {
        let seconds = seconds_of(instant);
        let nanoseconds = rest_of(instant);
        if seconds < FIRST_SECOND || seconds > LAST_SECOND {
            return None;
        }
        Some(Stamp {
            seconds,
            nanoseconds,
        })
    }

    /// Seconds since 1970-01-01T00:00:00Z, rounded down.
    pub fn seconds(self) -> i64
        ensures { result ≡ self.seconds }
    {
        self.seconds
    }

    /// The nanoseconds beyond the seconds: below 10^9.
    pub fn nanoseconds(self) -> u32
        ensures { result ≡ self.nanoseconds }
    {
        self.nanoseconds
    }
}
