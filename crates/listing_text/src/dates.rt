// Minutes as dates and times of day, in UTC.
ghost use Rattle.std.specs.Prelude.{◌≡◌, ◌≤◌, ◌<◌, ◌++◌, OnOk, ◌≤ℤ◌, ◌*ℤ◌, pos};
ghost use Rattle.listing_text.specs.Dates.{minute_text, minute_of as minute_of_text, minute_of_second, two_digits, four_digits, two_of, four_of, moment_of, stamp, civil_minute, first_minute, last_minute};
ghost use Rattle.jiff.specs.Words.{civil_nanos};

use dired_text::Memory;
use jiff::Timestamp;
use jiff::civil::DateTime;
use jiff::tz::Offset;

/// The minute of a second, both counted from 1970-01-01 00:00 UTC: the seconds divided by 60, rounded down.
pub fn minute_of(second: i64) -> i64
    ensures { result ≡ minute_of_second second }
{
    second.div_euclid(60)
}

// 0001-01-01 00:00 and 9998-12-31 23:59, the first and the last minute that are shown.
const FIRST_MINUTE: i64 = -1_035_593_280;

const LAST_MINUTE: i64 = 4_222_846_079;

// A date of the years 1 to 9998 and a time of day.
#[derive(Clone, Copy, Debug)]
struct Moment {
    year: u16,
    month: u8,
    day: u8,
    hour: u8,
    minute: u8,
}

// Pushes the text of a minute, as `2024-06-19 17:30`.
pub(crate) fn push_minute(text: &mut Vec<u8>, minute: i64) -> Result<(), Memory>
    ensures { OnOk result (text.new.items ≡ text.old.items ++ minute_text minute) }
{
    let shown = shown_moment(minute);
    push_four(text, shown.year)?;
    text.push(b'-')?;
    push_two(text, shown.month)?;
    text.push(b'-')?;
    push_two(text, shown.day)?;
    text.push(b' ')?;
    push_two(text, shown.hour)?;
    text.push(b':')?;
    push_two(text, shown.minute)
}

// The date and the time of day that are shown for a minute.
fn shown_moment(minute: i64) -> Moment
    ensures text { stamp result.year result.month result.day result.hour result.minute ≡
        minute_text minute }
    ensures year { result.year < 10000 }
    ensures month { result.month < 100 }
    ensures day { result.day < 100 }
    ensures hour { result.hour < 100 }
    ensures minute { result.minute < 100 }
{
    let civil = civil_at(minute.clamp(FIRST_MINUTE, LAST_MINUTE)).to_plain();
    Moment {
        year: civil.date.year.unsigned_abs(),
        month: civil.date.month,
        day: civil.date.day,
        hour: civil.time.hour,
        minute: civil.time.minute,
    }
}

// What a clock in UTC shows at a minute of the years 1 to 9998.
fn civil_at(minute: i64) -> DateTime
    requires first { first_minute ≤ℤ minute }
    requires last { minute ≤ℤ last_minute }
    ensures { civil_nanos result ≡ minute *ℤ pos 60_000_000_000 }
{
    let instant = Timestamp::from_second(minute * 60).unwrap_or(Timestamp::UNIX_EPOCH);
    Offset::UTC.to_datetime(instant)
}

fn push_two(text: &mut Vec<u8>, number: u8) -> Result<(), Memory>
    requires { number < 100 }
    ensures { OnOk result (text.new.items ≡ text.old.items ++ two_digits number) }
{
    text.push(b'0' + number / 10)?;
    text.push(b'0' + number % 10)?;
    Ok(())
}

fn push_four(text: &mut Vec<u8>, number: u16) -> Result<(), Memory>
    requires { number < 10000 }
    ensures { OnOk result (text.new.items ≡ text.old.items ++ four_digits number) }
{
    push_two(text, (number / 100) as u8)?;
    push_two(text, (number % 100) as u8)
}

// The minute that a text of the form `2024-06-19 17:30` shows, or None where it shows none of the years 1 to 9998.
#[tactic(auto, unfolding(crate::specs::Dates::minute_of))]
pub(crate) fn read_minute(text: &[u8]) -> Option<i64>
    ensures { result ≡ minute_of_text text.now }
{
    match text {
        [a, b, c, d, b'-', e, f, b'-', g, h, b' ', i, j, b':', k, l] => {
            let year = read_four(*a, *b, *c, *d)?;
            let month = read_two(*e, *f)?;
            let day = read_two(*g, *h)?;
            let hour = read_two(*i, *j)?;
            let minute = read_two(*k, *l)?;
            minute_at(year, month, day, hour, minute)
        }
        _ => None,
    }
}

// The number that two digits write.
#[tactic(auto, unfolding(crate::specs::Dates::two_of))]
fn read_two(high: u8, low: u8) -> Option<u8>
    ensures { result ≡ two_of high low }
{
    if high.is_ascii_digit() && low.is_ascii_digit() {
        Some((high - b'0') * 10 + (low - b'0'))
    } else {
        None
    }
}

// The number that four digits write.
#[tactic(auto, unfolding(crate::specs::Dates::four_of))]
fn read_four(a: u8, b: u8, c: u8, d: u8) -> Option<u16>
    ensures { result ≡ four_of a b c d }
{
    let high = read_two(a, b)?;
    let low = read_two(c, d)?;
    Some(u16::from(high) * 100 + u16::from(low))
}

// The minute of a date of the years 1 to 9998 and a time of day, or None where the calendar or a clock has none.
#[tactic(auto, unfolding(crate::specs::Dates::moment_of))]
fn minute_at(year: u16, month: u8, day: u8, hour: u8, minute: u8) -> Option<i64>
    ensures { result ≡ moment_of year month day hour minute }
{
    if year < 1 || 9998 < year || month > 12 || day > 31 || hour > 23 || minute > 59 {
        return None;
    }
    match DateTime::new(
        year as i16,
        month as i8,
        day as i8,
        hour as i8,
        minute as i8,
        0,
        0,
    ) {
        Ok(civil) => Some(minute_of_civil(civil)),
        Err(_) => None,
    }
}

// The minute at which a clock in UTC shows a date of the years 1 to 9998 and a time of day in whole minutes.
fn minute_of_civil(civil: DateTime) -> i64
    requires first_year { pos 1 ≤ℤ civil.date.year }
    requires last_year { civil.date.year ≤ℤ pos 9998 }
    requires seconds { civil.time.second ≡ 0 }
    requires fraction { civil.time.subsec_nanosecond ≡ 0 }
    ensures { result ≡ civil_minute civil }
{
    let instant = Offset::UTC
        .to_timestamp(civil)
        .unwrap_or(Timestamp::UNIX_EPOCH);
    instant.as_second().div_euclid(60)
}
