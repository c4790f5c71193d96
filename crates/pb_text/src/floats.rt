//! Floats and doubles, by digits that read back as the same bits.

ghost use Rattle.std.specs.Prelude.{◌≡◌, from_bits, true, Some};
ghost use Rattle.std.specs.Float.{binary32, binary64};
ghost use Rattle.ryu.specs.Parse.{parse_float};
ghost use Rattle.ryu.specs.Plain.{IsPlainNumber};
ghost use Rattle.pb_listing.specs.Putting.{PutsSome};
ghost use Rattle.pb_text.specs.Numbers.{IsFloatText, IsNumber, IsNumberFor};

use crate::layout::{DOUBLE, FLOAT, laid_out};
use crate::numbers::is_number;
use pb_output::Sink;
use pb_wire::Output;
use std::num::{
    f32_from_bits_with_nan, f32_to_bits_with_nan, f64_from_bits_with_nan, f64_to_bits_with_nan,
};

/// A `float` by its bits.
pub(crate) fn put_float<O: Output>(sink: &mut Sink, out: &mut O, bits: u32)
    ensures { PutsSome O.written O.failures out.old out.new sink.old sink.new
        (IsFloatText binary32 (from_bits binary32 bits)) }
{
    let number = f32_from_bits_with_nan(bits);
    if number.is_nan() {
        sink.put(out, b"nan");
        return;
    }
    let mut buffer = ryu::Buffer::new();
    let shortest = buffer.format(number).as_bytes();
    if number.is_finite() {
        put_finite_float(sink, out, bits, shortest);
    } else {
        sink.put(out, shortest);
    }
}

/// A finite `float`, of which a text is given, in the layout of `%g`.
fn put_finite_float<O: Output>(sink: &mut Sink, out: &mut O, bits: u32, shortest: &[u8])
    requires plain { IsPlainNumber shortest.now }
    requires read { parse_float binary32 shortest.now ≡ Some (from_bits binary32 bits) }
    ensures { PutsSome O.written O.failures out.old out.new sink.old sink.new
        (IsNumberFor binary32 (from_bits binary32 bits)) }
{
    match laid_out(shortest, FLOAT) {
        Some(text) => put_float_either(sink, out, bits, text.as_slice(), shortest),
        None => sink.put(out, shortest),
    }
}

/// A `float` by a text, if it is a number that reads back as the same bits, or else by another one.
fn put_float_either<O: Output>(sink: &mut Sink, out: &mut O, bits: u32, text: &[u8], other: &[u8])
    requires plain { IsPlainNumber other.now }
    requires read { parse_float binary32 other.now ≡ Some (from_bits binary32 bits) }
    ensures { PutsSome O.written O.failures out.old out.new sink.old sink.new
        (IsNumberFor binary32 (from_bits binary32 bits)) }
{
    if is_float(text, bits) {
        sink.put(out, text);
    } else {
        sink.put(out, other);
    }
}

/// Whether a text is a number that reads as the float with these bits.
fn is_float(text: &[u8], bits: u32) -> bool
    ensures number { result ≡ true → IsNumber text.now }
    ensures read { result ≡ true → parse_float binary32 text.now ≡ Some (from_bits binary32 bits) }
{
    let read: fast_float::Result<f32> = fast_float::parse(text);
    match read {
        Ok(number) => has_float_bits(number, bits) && is_number(text),
        Err(_) => false,
    }
}

/// Whether a float has these bits.
fn has_float_bits(number: f32, bits: u32) -> bool
    ensures { result ≡ true → number ≡ from_bits binary32 bits }
{
    f32_to_bits_with_nan(number) == bits
}

/// A `double` by its bits.
pub(crate) fn put_double<O: Output>(sink: &mut Sink, out: &mut O, bits: u64)
    ensures { PutsSome O.written O.failures out.old out.new sink.old sink.new
        (IsFloatText binary64 (from_bits binary64 bits)) }
{
    let number = f64_from_bits_with_nan(bits);
    if number.is_nan() {
        sink.put(out, b"nan");
        return;
    }
    let mut buffer = ryu::Buffer::new();
    let shortest = buffer.format(number).as_bytes();
    if number.is_finite() {
        put_finite_double(sink, out, bits, shortest);
    } else {
        sink.put(out, shortest);
    }
}

/// A finite `double`, of which a text is given, in the layout of `%g`.
fn put_finite_double<O: Output>(sink: &mut Sink, out: &mut O, bits: u64, shortest: &[u8])
    requires plain { IsPlainNumber shortest.now }
    requires read { parse_float binary64 shortest.now ≡ Some (from_bits binary64 bits) }
    ensures { PutsSome O.written O.failures out.old out.new sink.old sink.new
        (IsNumberFor binary64 (from_bits binary64 bits)) }
{
    match laid_out(shortest, DOUBLE) {
        Some(text) => put_double_either(sink, out, bits, text.as_slice(), shortest),
        None => sink.put(out, shortest),
    }
}

/// A `double` by a text, if it is a number that reads back as the same bits, or else by another one.
fn put_double_either<O: Output>(sink: &mut Sink, out: &mut O, bits: u64, text: &[u8], other: &[u8])
    requires plain { IsPlainNumber other.now }
    requires read { parse_float binary64 other.now ≡ Some (from_bits binary64 bits) }
    ensures { PutsSome O.written O.failures out.old out.new sink.old sink.new
        (IsNumberFor binary64 (from_bits binary64 bits)) }
{
    if is_double(text, bits) {
        sink.put(out, text);
    } else {
        sink.put(out, other);
    }
}

/// Whether a text is a number that reads as the double with these bits.
fn is_double(text: &[u8], bits: u64) -> bool
    ensures number { result ≡ true → IsNumber text.now }
    ensures read { result ≡ true → parse_float binary64 text.now ≡ Some (from_bits binary64 bits) }
{
    let read: fast_float::Result<f64> = fast_float::parse(text);
    match read {
        Ok(number) => has_double_bits(number, bits) && is_number(text),
        Err(_) => false,
    }
}

/// Whether a double has these bits.
fn has_double_bits(number: f64, bits: u64) -> bool
    ensures { result ≡ true → number ≡ from_bits binary64 bits }
{
    f64_to_bits_with_nan(number) == bits
}
