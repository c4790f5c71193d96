//! Floats and doubles in a form.

ghost use Rattle.std.specs.Prelude.{◌≤◌, ◌++◌, ℕ, ℤ, List, codes, from_bits, length};
ghost use Rattle.std.specs.Float.{binary32, binary64};
ghost use Rattle.hex.specs.Hex.{encode_lower};
ghost use Rattle.pb_schema.specs.Scalar.{double, float};
ghost use Rattle.pb_listing.specs.FloatText.{IsDecimal, IsScalarText};
ghost use Rattle.pb_listing.specs.Putting.{PutsSome};
ghost use Rattle.pb_output.specs.Sink.{Puts};

use crate::form::FloatForm;
use pb_output::Sink;
use pb_wire::Output;
use std::num::{f32_from_bits_with_nan, f64_from_bits_with_nan};

/// A `float` by its bits.
pub(crate) fn put_float<O: Output>(sink: &mut Sink, out: &mut O, form: FloatForm, bits: u32)
    ensures { (names : List (List ℕ × ℤ))
        → PutsSome O.written O.failures out.old out.new sink.old sink.new
        (IsScalarText form names (float bits)) }
{
    match form {
        FloatForm::Bits => put_bits(sink, out, &bits.to_be_bytes()),
        FloatForm::Decimal => put_float_decimal(sink, out, bits),
    }
}

/// A `double` by its bits.
pub(crate) fn put_double<O: Output>(sink: &mut Sink, out: &mut O, form: FloatForm, bits: u64)
    ensures { (names : List (List ℕ × ℤ))
        → PutsSome O.written O.failures out.old out.new sink.old sink.new
        (IsScalarText form names (double bits)) }
{
    match form {
        FloatForm::Bits => put_bits(sink, out, &bits.to_be_bytes()),
        FloatForm::Decimal => put_double_decimal(sink, out, bits),
    }
}

/// The bits of a float, the highest first.
fn put_bits<O: Output>(sink: &mut Sink, out: &mut O, bytes: &[u8])
    requires { length bytes.now ≤ 8 }
    ensures { Puts O.written O.failures out.old out.new sink.old sink.new
        (codes "0x" ++ encode_lower bytes.now) }
{
    sink.reserve(out, 18);
    sink.held.push(b"0x");
    sink.held.push_hex(bytes);
}

fn put_float_decimal<O: Output>(sink: &mut Sink, out: &mut O, bits: u32)
    ensures { PutsSome O.written O.failures out.old out.new sink.old sink.new
        (IsDecimal binary32 13 5 (from_bits binary32 bits)) }
{
    let number = f32_from_bits_with_nan(bits);
    if number.is_nan() {
        sink.put(out, b"nan");
    } else {
        sink.put(out, ryu::Buffer::new().format(number).as_bytes());
    }
}

fn put_double_decimal<O: Output>(sink: &mut Sink, out: &mut O, bits: u64)
    ensures { PutsSome O.written O.failures out.old out.new sink.old sink.new
        (IsDecimal binary64 16 4 (from_bits binary64 bits)) }
{
    let number = f64_from_bits_with_nan(bits);
    if number.is_nan() {
        sink.put(out, b"nan");
    } else {
        sink.put(out, ryu::Buffer::new().format(number).as_bytes());
    }
}
