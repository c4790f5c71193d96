//! Points in time and lengths of time.

ghost use Rattle.std.specs.Prelude.{◌≡◌, ◌+◌, ◌-◌, ◌*◌, ◌^◌, ◌<◌, ◌≤◌, ◌==◌, ◌+ℤ◌, ◌-ℤ◌, ◌*ℤ◌, ◌≤ℤ◌, neg_ℤ};
ghost use Rattle.std.specs.Prelude.{length, drop, slice_index, pos, Some, None, Option, IfSome, if◌then◌else◌};
ghost use Rattle.std.specs.Char.{is_ascii_digit};
ghost use Rattle.std.specs.List.{list_all, prefix_len};
ghost use Rattle.jiff_core.specs.Calendar.{days_from_civil};
ghost use Rattle.pb_json_scalars.specs.Clock.{ahead_by, date_days, day_second, days_of, duration, fraction_len, fraction_nanos, instant};
ghost use Rattle.pb_json_scalars.specs.Clock.{instant_of, is_civil, nanos_of, natural, offset, second_of, signed_time, timestamp, unsigned_duration};

use jiff_core::civil::Date;

/// Seconds and nanoseconds, as a `google.protobuf.Timestamp` and a `google.protobuf.Duration` hold them.
#[derive(Clone, Copy, Debug, PartialEq, Eq)]
pub struct Time {
    pub seconds: i64,
    pub nanos: i32,
}

/// The point in time that a string means (RFC 3339, section 5.6), as seconds since 1970-01-01T00:00:00Z and nanoseconds after these:
/// from 0001-01-01T00:00:00Z to 9999-12-31T23:59:59.999999999Z.
pub fn read_timestamp(characters: &[u8]) -> Option<Time>
    ensures { result ≡ timestamp characters.now }
{
    if characters.len() < 20 || characters[10] != b'T' {
        return None;
    }
    let days = date_days(&characters[0..10])?;
    let second = day_second(&characters[11..19])?;
    instant_of(days, second, &characters[19..])
}

/// A day, a second of it, and then a fraction of a second and an offset.
fn instant_of(days: i32, second: u32, rest: &[u8]) -> Option<Time>
    ensures { result ≡ instant_of (Some days) (Some second) (fraction_nanos rest.now)
        (offset (drop (fraction_len rest.now) rest.now)) }
{
    let nanos = fraction_nanos(rest)?;
    let ahead = offset(&rest[fraction_len(rest)..])?;
    instant(seconds_of(days, second, ahead), nanos)
}

/// The seconds since 1970-01-01T00:00:00Z.
fn seconds_of(days: i32, second: u32, ahead: i32) -> i64
    ensures { result ≡ days *ℤ pos 86_400 +ℤ pos second -ℤ ahead }
{
    local_seconds(days, second) - i64::from(ahead)
}

fn local_seconds(days: i32, second: u32) -> i64
    ensures is { result ≡ days *ℤ pos 86_400 +ℤ pos second }
    ensures from { neg_ℤ (pos 200_000_000_000_000) ≤ℤ result }
    ensures to { result ≤ℤ pos 200_000_000_000_000 }
{
    start_of(days) + i64::from(second)
}

fn start_of(days: i32) -> i64
    ensures is { result ≡ days *ℤ pos 86_400 }
    ensures from { neg_ℤ (pos 190_000_000_000_000) ≤ℤ result }
    ensures to { result ≤ℤ pos 190_000_000_000_000 }
{
    i64::from(days) * 86_400
}

/// The length of time that a string means, as `1.5s`: seconds and nanoseconds of the same sign, about 10,000 years at most.
pub fn read_duration(characters: &[u8]) -> Option<Time>
    ensures { result ≡ duration characters.now }
{
    if !characters.is_empty() && characters[0] == b'-' {
        unsigned_duration(true, &characters[1..])
    } else {
        unsigned_duration(false, characters)
    }
}

fn unsigned_duration(is_negative: bool, characters: &[u8]) -> Option<Time>
    ensures { result ≡ unsigned_duration is_negative (prefix_len is_ascii_digit characters.now) characters.now }
{
    let whole = digits_len(characters);
    let rest = &characters[whole..];
    if &rest[fraction_len(rest)..] != b"s".as_slice() {
        return None;
    }
    let seconds = natural(315_576_000_000, &characters[..whole])?;
    let nanos = fraction_nanos(rest)?;
    Some(signed_time(is_negative, seconds, nanos))
}

fn signed_time(is_negative: bool, seconds: u64, nanos: u32) -> Time
    requires seconds { seconds ≤ 315_576_000_000 }
    requires nanos { nanos < 1_000_000_000 }
    ensures { Some result ≡ signed_time is_negative (Some seconds) (Some nanos) }
{
    let (seconds, nanos) = (seconds as i64, nanos as i32);
    if is_negative {
        Time {
            seconds: -seconds,
            nanos: -nanos,
        }
    } else {
        Time { seconds, nanos }
    }
}

/// A point in time, where it is in range.
fn instant(seconds: i64, nanos: u32) -> Option<Time>
    requires { nanos < 1_000_000_000 }
    ensures { result ≡ instant seconds nanos }
{
    if -62_135_596_800 <= seconds && seconds <= 253_402_300_799 {
        Some(Time {
            seconds,
            nanos: nanos as i32,
        })
    } else {
        None
    }
}

/// The days since 1970-01-01 of a date of ten characters.
fn date_days(date: &[u8]) -> Option<i32>
    requires { length date.now ≡ 10 }
    ensures { result ≡ date_days date.now }
{
    if date[4] != b'-' || date[7] != b'-' {
        return None;
    }
    let year = natural(9_999, &date[0..4])?;
    let month = natural(99, &date[5..7])?;
    let day = natural(99, &date[8..10])?;
    days(year, month, day)
}

/// The days since 1970-01-01 of a date that the calendar has.
fn days(year: u64, month: u64, day: u64) -> Option<i32>
    requires year { year ≤ 9_999 }
    requires month { month ≤ 99 }
    requires day { day ≤ 99 }
    ensures is { result ≡ days_of (Some year) (Some month) (Some day) }
{
    match Date::new(year as i16, month as i8, day as i8) {
        Ok(date) => Some(date.to_unix_epoch_day()),
        Err(_) => None,
    }
}

/// The second of a day of a time of eight characters.
fn day_second(time: &[u8]) -> Option<u32>
    requires { length time.now ≡ 8 }
    ensures { result ≡ day_second time.now }
{
    if time[2] != b':' || time[5] != b':' {
        return None;
    }
    let hour = natural(23, &time[0..2])?;
    let minute = natural(59, &time[3..5])?;
    let second = natural(59, &time[6..8])?;
    Some((hour * 3_600 + minute * 60 + second) as u32)
}

/// The seconds that local time is ahead of UTC.
fn offset(characters: &[u8]) -> Option<i32>
    ensures { result ≡ offset characters.now }
{
    if characters == b"Z".as_slice() {
        return Some(0);
    }
    if characters.len() != 6
        || (characters[0] != b'+' && characters[0] != b'-')
        || characters[3] != b':'
    {
        return None;
    }
    let hour = natural(23, &characters[1..3])?;
    let minute = natural(59, &characters[4..6])?;
    Some(ahead_by(characters[0] == b'-', hour, minute))
}

fn ahead_by(is_negative: bool, hour: u64, minute: u64) -> i32
    requires hour { hour ≤ 23 }
    requires minute { minute ≤ 59 }
    ensures { Some result ≡ ahead_by is_negative (Some hour) (Some minute) }
{
    let size = (hour * 3_600 + minute * 60) as i32;
    if is_negative { -size } else { size }
}

/// The nanoseconds of the fraction of a second at the front.
fn fraction_nanos(characters: &[u8]) -> Option<u32>
    ensures is { result ≡ fraction_nanos characters.now }
    ensures below { IfSome result (λ n. n < 1_000_000_000) }
{
    if characters.is_empty() || characters[0] != b'.' {
        return Some(0);
    }
    nanos_of(&characters[1..fraction_len(characters)])
}

/// The nanoseconds of digits after the point, of which there are nine at most.
fn nanos_of(digits: &[u8]) -> Option<u32>
    ensures is { result ≡ nanos_of digits.now }
    ensures below { IfSome result (λ n. n < 1_000_000_000) }
{
    if digits.len() > 9 {
        return None;
    }
    let number = natural(999_999_999, digits)?;
    Some((number * 10_u64.pow((9 - digits.len()) as u32)) as u32)
}

/// How many characters the fraction of a second at the front takes.
fn fraction_len(characters: &[u8]) -> usize
    ensures is { result ≡ fraction_len characters.now }
    ensures within { result ≤ length characters.now }
{
    if characters.is_empty() || characters[0] != b'.' {
        0
    } else {
        1 + digits_len(&characters[1..])
    }
}

/// How many digits the bytes begin with.
fn digits_len(characters: &[u8]) -> usize
    ensures is { result ≡ prefix_len is_ascii_digit characters.now }
    ensures within { result ≤ length characters.now }
{
    for (at, byte) in characters.iter().enumerate() {
        if !byte.is_ascii_digit() {
            return at;
        }
    }
    characters.len()
}

/// Digits as a number that is not above a limit.
fn natural(most: u64, digits: &[u8]) -> Option<u64>
    ensures is { result ≡ natural most digits.now }
    ensures below { IfSome result (λ n. n ≤ most) }
{
    if !are_digits(digits) {
        return None;
    }
    let Ok(number) = fast_float::parse_u64(digits) else {
        return None;
    };
    if number <= most { Some(number) } else { None }
}

fn are_digits(characters: &[u8]) -> bool
    ensures { result ≡ list_all is_ascii_digit characters.now }
{
    characters.iter().all(|byte| byte.is_ascii_digit())
}
