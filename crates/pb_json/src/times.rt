//! Points in time and lengths of time.

ghost use Rattle.std.specs.Prelude.{◌≡◌, ◌+ℤ◌, ◌-ℤ◌, ◌≤ℤ◌, ◌≤◌, ◌<◌, ◌||◌, ℕ, pos, neg_ℤ, true, int_lt};
ghost use Rattle.jiff_core.specs.Date.{epoch_day};
ghost use Rattle.pb_value.specs.View.{fields_view};
ghost use Rattle.pb_json.specs.Answers.{Prints};
ghost use Rattle.pb_json.specs.JsonText.{IsJsonText, in_quotes};
ghost use Rattle.pb_json.specs.Json.{instant};
ghost use Rattle.pb_json.specs.Mapping.{duration_json, timestamp_json};
ghost use Rattle.pb_json.specs.Refusals.{duration_cause, timestamp_cause};
ghost use Rattle.pb_json.specs.Times.{IsDateText, fraction, is_between, is_instant, is_span, sign, span_text, three_digits, time_text, two_digits};
ghost use Rattle.pb_json.specs.declared.form.Layout.{Layout};
ghost use Rattle.pb_output.specs.Sink.{Puts};

use crate::error::JsonCause;
use crate::held::integer_at;
use crate::scalars::put_natural;
use jiff_core::civil::Date;
use pb_output::Sink;
use pb_value::Content;
use pb_wire::Output;
use std::collections::BTreeMap;

/// The seconds from 0001-01-01 to 1970-01-01.
const TO_1970: i64 = 62_135_596_800;

/// The days from -9999-01-01 to 0001-01-01.
const TO_YEAR_ONE: u32 = 3_652_425;

/// What is wrong with a `google.protobuf.Timestamp` of these fields.
pub(crate) fn timestamp_cause(fields: &BTreeMap<u32, Content>) -> Option<JsonCause>
    ensures { result ≡ timestamp_cause (fields_view fields.now.entries) }
{
    if is_instant(integer_at(fields, 1), integer_at(fields, 2)) {
        None
    } else {
        Some(JsonCause::OutOfRange)
    }
}

/// What is wrong with a `google.protobuf.Duration` of these fields.
pub(crate) fn duration_cause(fields: &BTreeMap<u32, Content>) -> Option<JsonCause>
    ensures { result ≡ duration_cause (fields_view fields.now.entries) }
{
    if is_span(integer_at(fields, 1), integer_at(fields, 2)) {
        None
    } else {
        Some(JsonCause::OutOfRange)
    }
}

/// From 0001-01-01T00:00:00Z to 9999-12-31T23:59:59.999999999Z.
fn is_instant(seconds: i64, nanos: i64) -> bool
    ensures { result ≡ is_instant seconds nanos }
{
    -62_135_596_800 <= seconds && seconds <= 253_402_300_799 && 0 <= nanos && nanos <= 999_999_999
}

/// About 10,000 years at most, in seconds and nanoseconds of the same sign.
fn is_span(seconds: i64, nanos: i64) -> bool
    ensures { result ≡ is_span seconds nanos }
{
    -315_576_000_000 <= seconds
        && seconds <= 315_576_000_000
        && -999_999_999 <= nanos
        && nanos <= 999_999_999
        && !(seconds < 0 && 0 < nanos)
        && !(0 < seconds && nanos < 0)
}

/// A `google.protobuf.Timestamp` of these fields; out of range `null`.
pub(crate) fn put_timestamp<O: Output>(
    sink: &mut Sink,
    out: &mut O,
    fields: &BTreeMap<u32, Content>,
)
    ensures { (layout : Layout) (indent : ℕ) → Prints O.written O.failures out.old out.new sink.old sink.new
        (IsJsonText layout indent (timestamp_json (fields_view fields.now.entries))) }
{
    let seconds = integer_at(fields, 1);
    let nanos = integer_at(fields, 2);
    if is_instant(seconds, nanos) {
        put_instant(sink, out, seconds, nanos);
    } else {
        sink.put(out, b"null");
    }
}

/// A `google.protobuf.Duration` of these fields; out of range `null`.
pub(crate) fn put_duration<O: Output>(sink: &mut Sink, out: &mut O, fields: &BTreeMap<u32, Content>)
    ensures { (layout : Layout) (indent : ℕ) → Prints O.written O.failures out.old out.new sink.old sink.new
        (IsJsonText layout indent (duration_json (fields_view fields.now.entries))) }
{
    let seconds = integer_at(fields, 1);
    let nanos = integer_at(fields, 2);
    if is_span(seconds, nanos) {
        put_span(sink, out, seconds, nanos);
    } else {
        sink.put(out, b"null");
    }
}

/// A point in time, in quotes.
fn put_instant<O: Output>(sink: &mut Sink, out: &mut O, seconds: i64, nanos: i64)
    requires { is_instant seconds nanos ≡ true }
    ensures { (layout : Layout) (indent : ℕ) → Prints O.written O.failures out.old out.new sink.old sink.new
        (IsJsonText layout indent (instant seconds nanos)) }
{
    let since = since_year_one(seconds);
    sink.put(out, b"\"");
    put_day(sink, out, (since / 86_400) as u32);
    sink.put(out, b"T");
    put_time(sink, out, (since % 86_400) as u32);
    put_fraction(sink, out, nanos.unsigned_abs() as u32);
    sink.put(out, b"Z\"");
}

/// The seconds since 0001-01-01.
fn since_year_one(seconds: i64) -> u64
    requires { is_between (neg_ℤ (pos 62_135_596_800)) (pos 253_402_300_799) seconds ≡ true }
    ensures counted { pos result ≡ seconds +ℤ pos 62_135_596_800 }
    ensures within { result < 315_537_897_600 }
{
    (seconds + TO_1970) as u64
}

/// The date `days` days after 0001-01-01.
fn put_day<O: Output>(sink: &mut Sink, out: &mut O, days: u32)
    requires { days ≤ 3_652_058 }
    ensures { Prints O.written O.failures out.old out.new sink.old sink.new (IsDateText (pos days -ℤ pos 719_162)) }
{
    put_date(sink, out, Date::from_days_since_min(TO_YEAR_ONE + days));
}

fn put_date<O: Output>(sink: &mut Sink, out: &mut O, date: Date)
    requires { pos 1 ≤ℤ date.year }
    ensures { Prints O.written O.failures out.old out.new sink.old sink.new (IsDateText (epoch_day date)) }
{
    let year = date.year.unsigned_abs();
    put_two(sink, out, (year / 100) as u8);
    put_two(sink, out, (year % 100) as u8);
    sink.put(out, b"-");
    put_two(sink, out, date.month);
    sink.put(out, b"-");
    put_two(sink, out, date.day);
}

/// A second of a day.
fn put_time<O: Output>(sink: &mut Sink, out: &mut O, second: u32)
    requires { second < 86_400 }
    ensures { Puts O.written O.failures out.old out.new sink.old sink.new (time_text second) }
{
    put_two(sink, out, (second / 3_600) as u8);
    sink.put(out, b":");
    put_two(sink, out, (second / 60 % 60) as u8);
    sink.put(out, b":");
    put_two(sink, out, (second % 60) as u8);
}

/// A length of time, in quotes.
fn put_span<O: Output>(sink: &mut Sink, out: &mut O, seconds: i64, nanos: i64)
    requires { is_span seconds nanos ≡ true }
    ensures { Puts O.written O.failures out.old out.new sink.old sink.new (in_quotes (span_text seconds nanos)) }
{
    sink.put(out, b"\"");
    put_sign(sink, out, is_negative(seconds, nanos));
    put_natural(sink, out, seconds.unsigned_abs());
    put_fraction(sink, out, nanos.unsigned_abs() as u32);
    sink.put(out, b"s\"");
}

fn is_negative(seconds: i64, nanos: i64) -> bool
    ensures { result ≡ (int_lt seconds (pos 0) || int_lt nanos (pos 0)) }
{
    seconds < 0 || nanos < 0
}

fn put_sign<O: Output>(sink: &mut Sink, out: &mut O, is_negative: bool)
    ensures { Puts O.written O.failures out.old out.new sink.old sink.new (sign is_negative) }
{
    if is_negative {
        sink.put(out, b"-");
    }
}

/// The nanoseconds of a second: nothing, or a point and 3, 6 or 9 digits.
fn put_fraction<O: Output>(sink: &mut Sink, out: &mut O, nanos: u32)
    requires { nanos < 1_000_000_000 }
    ensures { Puts O.written O.failures out.old out.new sink.old sink.new (fraction nanos) }
{
    if nanos == 0 {
        return;
    }
    sink.put(out, b".");
    put_three(sink, out, (nanos / 1_000_000) as u16);
    if nanos % 1_000_000 == 0 {
        return;
    }
    put_three(sink, out, (nanos / 1_000 % 1_000) as u16);
    if nanos % 1_000 == 0 {
        return;
    }
    put_three(sink, out, (nanos % 1_000) as u16);
}

fn put_two<O: Output>(sink: &mut Sink, out: &mut O, number: u8)
    requires { number < 100 }
    ensures { Puts O.written O.failures out.old out.new sink.old sink.new (two_digits number) }
{
    sink.put(out, &[b'0' + number / 10, b'0' + number % 10]);
}

fn put_three<O: Output>(sink: &mut Sink, out: &mut O, number: u16)
    requires { number < 1_000 }
    ensures { Puts O.written O.failures out.old out.new sink.old sink.new (three_digits number) }
{
    let hundreds = b'0' + (number / 100) as u8;
    let tens = b'0' + (number / 10 % 10) as u8;
    let ones = b'0' + (number % 10) as u8;
    sink.put(out, &[hundreds, tens, ones]);
}
