ghost use Rattle.std.specs.Prelude.{◌≡◌, ◌++◌, ◌<◌, IfOk, OnOk, option_map, string_bytes};
ghost use Rattle.keep_tables.specs.Dates.{Civil, civil_of, dated};
ghost use Rattle.keep_tables.specs.Times.{clock_text, date_text, local_text, two, utc_text, wall_text};

use crate::digits::push_digits;
use jiff_core::civil::Date;
use std::alloc::{AllocError, Global};
use std::fmt::Write;

/// A moment in seconds since 1970-01-01T00:00:00Z, on a clock that is `offset` seconds ahead of UTC:
/// `2026-11-28 14:05:09`. Outside the years 0 to 9999 it is `@` and the seconds on that clock.
pub fn local_time(alloc: Global, moment: i64, offset: i32) -> Result<String, AllocError>
    ensures { IfOk result (λ text. string_bytes text ≡ local_text moment offset) }
{
    wall_time(alloc, ' ', "", moment as i128 + offset as i128)
}

/// A moment in seconds since 1970-01-01T00:00:00Z, as RFC 3339 writes it in UTC: `2026-11-28T13:05:09Z`. Outside the years 0
/// to 9999 it is `@` and the seconds.
pub fn utc_time(alloc: Global, moment: i64) -> Result<String, AllocError>
    ensures { IfOk result (λ text. string_bytes text ≡ utc_text moment) }
{
    wall_time(alloc, 'T', "Z", moment as i128)
}

const DAY: i128 = 86_400;

/// The numbers of 0000-01-01 and of 9999-12-31.
const FIRST: i128 = -719_528;

const LAST: i128 = 2_932_896;

/// So many seconds since 1970-01-01T00:00:00, as date and time of day.
fn wall_time(
    alloc: Global,
    parting: char,
    ending: &str,
    seconds: i128,
) -> Result<String, AllocError>
    requires { parting < 128 }
    ensures { IfOk result (λ text. string_bytes text ≡ wall_text parting ending.now seconds) }
{
    let mut text = String::new(alloc);
    match date_at(seconds.div_euclid(DAY)) {
        Some(date) => {
            let year = year_of(date);
            push_date(&mut text, year, date.month as u32, date.day as u32)?;
            text.push(parting)?;
            push_clock(&mut text, seconds.rem_euclid(DAY) as u32)?;
            text.push_str(ending)?;
        }
        None => write!(text, "@{seconds}")?,
    }
    Ok(text)
}

fn year_of(date: Date) -> u32
    ensures { result ≡ (civil_of date).year }
{
    date.year.unsigned_abs() as u32
}

/// The date of a day number, from 0000-01-01 to 9999-12-31.
fn date_at(day: i128) -> Option<Date>
    ensures { option_map civil_of result ≡ dated day }
{
    if day < FIRST || LAST < day {
        return None;
    }
    Date::from_unix_epoch_day(day as i64).ok()
}

fn push_date(text: &mut String, year: u32, month: u32, day: u32) -> Result<(), AllocError>
    ensures { let date : Civil = record { year = year; month = month; day = day } in
        OnOk result (string_bytes text.new ≡ string_bytes text.old ++ date_text date) }
{
    push_digits(text, 10, 4, year)?;
    text.push('-')?;
    push_two(text, month)?;
    text.push('-')?;
    push_two(text, day)
}

/// The time of day after so many seconds of a day.
fn push_clock(text: &mut String, seconds: u32) -> Result<(), AllocError>
    ensures { OnOk result (string_bytes text.new ≡ string_bytes text.old ++ clock_text seconds) }
{
    push_two(text, seconds / 3600)?;
    text.push(':')?;
    push_two(text, seconds / 60 % 60)?;
    text.push(':')?;
    push_two(text, seconds % 60)
}

fn push_two(text: &mut String, number: u32) -> Result<(), AllocError>
    ensures { OnOk result (string_bytes text.new ≡ string_bytes text.old ++ two number) }
{
    push_digits(text, 10, 2, number)
}
