ghost use Rattle.std.specs.Prelude.{◌≡◌, ◌<◌, pos, unsigned_abs};
ghost use Rattle.std.specs.Int.{int_div_euclid, int_rem_euclid};

use jiff::Timestamp;

/// The whole seconds since 1970, rounded down.
pub(crate) fn seconds_of(instant: Timestamp) -> i64
    ensures { result ≡ int_div_euclid instant.nanosecond (pos 1_000_000_000) }
{
    instant.as_nanosecond().div_euclid(1_000_000_000) as i64
}

/// The nanoseconds beyond them.
pub(crate) fn rest_of(instant: Timestamp) -> u32
    ensures value { result ≡ unsigned_abs (int_rem_euclid instant.nanosecond (pos 1_000_000_000)) }
    ensures bound { result < 1_000_000_000 }
{
    instant.as_nanosecond().rem_euclid(1_000_000_000) as u32
}
