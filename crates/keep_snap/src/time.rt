ghost use Rattle.std.specs.Prelude.{◌≡◌, ◌*◌, ◌^◌, ◌<◌, ◌-ℤ◌};
ghost use Rattle.std.specs.Prelude.{IfSome, length, neg_ℤ, option_map, pos, position};
ghost use Rattle.std.specs.Char.{is_ascii_digit};
ghost use Rattle.std.specs.Int.{IsInRange};
ghost use Rattle.std.specs.List.{list_all};
ghost use Rattle.jiff_core.specs.Calendar.{IsEpochDay};
ghost use Rattle.jiff_core.specs.Weekday.{monday_zero};
ghost use Rattle.keep_snap.specs.Time.{moment_in, time_in, written};
ghost use Rattle.keep_snap.specs.Time as spec;

use jiff::Timestamp;
use jiff::civil::{Date, Weekday};
use std::str;

/// A month of a year.
#[derive(Clone, Copy, PartialEq, Eq, PartialOrd, Ord)]
pub struct Month {
    /// 0 to 9999.
    pub year: i16,
    /// 1 for January, to 12.
    pub month: u8,
}

/// A time as a snapshot has it: its instant, and the day, week, month and year of its written date.
#[derive(Clone, Copy, PartialEq, Eq)]
pub struct Time {
    /// Nanoseconds since 1970-01-01T00:00:00Z.
    pub instant: i128,
    /// The number of the day, 0 for 1970-01-01.
    pub day: i32,
    /// The number of the day that is the week's Monday.
    pub week: i32,
    pub month: Month,
    pub year: i16,
}

/// The time that a text writes (RFC 3339, section 5.6): `YYYY-MM-DDTHH:MM:SS`, then a point and one to nine
/// digits or nothing, then `Z` or a sign and `HH:MM`. Offsets go to 23:59, and there is no second 60. The
/// instant is at most 9999-12-30T22:00:00.999999999Z.
pub fn parse_time(text: &str) -> Option<Time>
    ensures { result ≡ time_in text.now }
{
    let bytes = text.as_bytes();
    if bytes.len() < 19 {
        return None;
    }
    let (wall, rest) = bytes.split_at(19);
    let at = zone_at(rest)?;
    let (fraction, zone) = rest.split_at(at);
    time_from(wall, fraction, zone)
}

/// The whole seconds since 1970-01-01T00:00:00Z of the instant that a text writes (as [`parse_time`] reads it), rounded
/// down.
pub fn parse_moment(text: &str) -> Option<i64>
    ensures { result ≡ moment_in text.now }
{
    let time = parse_time(text)?;
    Some(time.instant.div_euclid(1_000_000_000) as i64)
}

/// The time that a date with a time of day, a fraction and a zone write.
fn time_from(wall: &[u8], fraction: &[u8], zone: &[u8]) -> Option<Time>
    requires { length wall.now ≡ 19 }
    ensures { result ≡ spec.time_from wall.now fraction.now zone.now }
{
    let date = date_in(&wall[0..10])?;
    let seconds = clock_in(&wall[10..19])?;
    let nanoseconds = fraction_in(fraction)?;
    let offset = offset_in(zone)?;
    let day = date.to_plain().to_unix_epoch_day();
    time_at(date, instant_of(day, seconds, offset, nanoseconds))
}

/// Where the zone begins.
fn zone_at(text: &[u8]) -> Option<usize>
    ensures value { result ≡ position spec.begins_zone text.now }
    ensures within { IfSome result (λ at. at < length text.now) }
{
    text.iter().position(|byte| begins_zone(*byte))
}

fn begins_zone(byte: u8) -> bool
    ensures { result ≡ spec.begins_zone byte }
{
    matches!(byte, b'Z' | b'+' | b'-')
}

/// `YYYY-MM-DD`
fn date_in(text: &[u8]) -> Option<Date>
    requires { length text.now ≡ 10 }
    ensures { option_map written result ≡ spec.date_in text.now }
{
    let year = number(&text[0..4])?;
    let month = number(&text[5..7])?;
    let day = number(&text[8..10])?;
    if text[4] != b'-' || text[7] != b'-' {
        return None;
    }
    date_of(year, month, day)
}

/// The date with these parts, if the calendar has it.
fn date_of(year: u32, month: u32, day: u32) -> Option<Date>
    requires year_fits { year < 10_000 }
    requires month_fits { month < 100 }
    requires day_fits { day < 100 }
    ensures { option_map written result ≡ spec.date_of year month day }
{
    Date::new(year as i16, month as i8, day as i8).ok()
}

/// `HH:MM`, in minutes.
fn minutes_in(text: &[u8]) -> Option<u32>
    requires { length text.now ≡ 5 }
    ensures value { result ≡ spec.minutes_in text.now }
    ensures bound { IfSome result (λ minutes. minutes < 1440) }
{
    let hour = number(&text[0..2])?;
    let minute = number(&text[3..5])?;
    if text[2] != b':' || hour > 23 || minute > 59 {
        return None;
    }
    Some(hour * 60 + minute)
}

/// `THH:MM:SS`, in seconds.
fn clock_in(text: &[u8]) -> Option<u32>
    requires { length text.now ≡ 9 }
    ensures { result ≡ spec.clock_in text.now }
{
    let minutes = minutes_in(&text[1..6])?;
    let second = number(&text[7..9])?;
    if text[0] != b'T' || text[6] != b':' || second > 59 {
        return None;
    }
    Some(minutes * 60 + second)
}

/// `Z`, or a sign and `HH:MM`, in seconds.
fn offset_in(text: &[u8]) -> Option<i32>
    ensures { result ≡ spec.offset_in text.now }
{
    match text {
        [b'Z'] => Some(0),
        [b'+', ahead @ ..] if ahead.len() == 5 => Some(minutes_in(ahead)? as i32 * 60),
        [b'-', behind @ ..] if behind.len() == 5 => Some(behind_by(minutes_in(behind)?)),
        _ => None,
    }
}

fn behind_by(minutes: u32) -> i32
    requires { minutes < 1440 }
    ensures { result ≡ neg_ℤ (pos (minutes * 60)) }
{
    -(minutes as i32 * 60)
}

/// Nothing, or a point and one to nine digits, in nanoseconds.
fn fraction_in(text: &[u8]) -> Option<u64>
    ensures { result ≡ spec.fraction_in text.now }
{
    match text {
        [] => Some(0),
        [b'.', digits @ ..] if 1 <= digits.len() && digits.len() <= 9 => {
            let nanoseconds = number(digits)?;
            Some(nanoseconds as u64 * 10u64.pow(9 - digits.len() as u32))
        }
        _ => None,
    }
}

/// Nanoseconds since 1970.
fn instant_of(day: i32, seconds: u32, offset: i32, nanoseconds: u64) -> i128
    ensures { result ≡ spec.instant_of day seconds offset nanoseconds }
{
    (day as i128 * 86_400 + seconds as i128 - offset as i128) * 1_000_000_000 + nanoseconds as i128
}

/// What is to be known of a written date at an instant that jiff holds as a timestamp.
fn time_at(date: Date, instant: i128) -> Option<Time>
    ensures { result ≡ spec.time_at (written date) instant }
{
    Timestamp::from_nanosecond(instant).ok()?;
    let day = date.to_plain().to_unix_epoch_day();
    let month = Month {
        year: date.year(),
        month: date.month() as u8,
    };
    Some(Time {
        instant,
        day,
        week: monday_of(day, date.weekday()),
        month,
        year: date.year(),
    })
}

/// The day number of the Monday that begins the week of a day.
fn monday_of(day: i32, weekday: Weekday) -> i32
    requires { IsEpochDay day }
    ensures { result ≡ day -ℤ pos (monday_zero weekday) }
{
    day - weekday.to_monday_zero_offset() as i32
}

/// The number that one to nine digits write.
fn number(digits: &[u8]) -> Option<u32>
    requires { IsInRange 1 9 (length digits.now) }
    ensures value { result ≡ spec.number digits.now }
    ensures bound { IfSome result (λ n. n < 10 ^ length digits.now) }
{
    if !are_digits(digits) {
        return None;
    }
    match str::from_utf8(digits) {
        Ok(text) => text.parse().ok(),
        Err(_) => None,
    }
}

fn are_digits(bytes: &[u8]) -> bool
    ensures { result ≡ list_all is_ascii_digit bytes.now }
{
    bytes.iter().all(|byte| byte.is_ascii_digit())
}
