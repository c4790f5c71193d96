//! Values that are no messages.

ghost use Rattle.std.specs.Prelude.{◌≡◌, ◌<◌, ◌≤◌, ℕ, decimal, from_bits, length, option_map};
ghost use Rattle.std.specs.Float.{binary32, binary64};
ghost use Rattle.std.specs.Fmt.{signed_decimal};
ghost use Rattle.base64.specs.Engines.{standard};
ghost use Rattle.base64.specs.GeneralPurpose.{encode_of};
ghost use Rattle.pb_schema.specs.EnumValues.{value_name as named_value};
ghost use Rattle.pb_schema.specs.Rules.{NamesType};
ghost use Rattle.pb_value.specs.View.{value_view};
ghost use Rattle.pb_json.specs.Answers.{Prints};
ghost use Rattle.pb_json.specs.declared.form.Layout.{Layout};
ghost use Rattle.pb_json.specs.JsonText.{IsJsonText, bool_text, in_quotes};
ghost use Rattle.pb_json.specs.Mapping.{enum_json, float_json, infinity_word, names_of_kind, scalar_or_null};
ghost use Rattle.pb_output.specs.Sink.{Puts};

use crate::context::Context;
use crate::strings::{put_quoted, put_string};
use crate::well_known::is_null_enum;
use base64::engine::general_purpose::STANDARD;
use pb_output::Sink;
use pb_schema::{Kind, Pool};
use pb_value::Value;
use pb_wire::Output;
use std::num::{f32_from_bits_with_nan, f64_from_bits_with_nan};

/// The bytes that are encoded at a time, and the characters that they give.
const BASE64_BYTES: usize = 768;

const BASE64_CHARACTERS: usize = 1024;

/// A value that is no message; of a message `null`.
pub(crate) fn put_scalar<O: Output>(
    sink: &mut Sink,
    out: &mut O,
    context: &Context<'_>,
    indent: usize,
    kind: Kind,
    value: &Value,
)
    requires { NamesType (length context.now.pool.now.messages) (length context.now.pool.now.enums) kind }
    ensures { Prints O.written O.failures out.old out.new sink.old sink.new
        (IsJsonText context.now.form.layout indent (scalar_or_null context.now.pool.now kind (value_view value.now))) }
{
    match value {
        Value::I32(number) => put_integer(sink, out, i64::from(*number)),
        Value::I64(number) => put_quoted_integer(sink, out, *number),
        Value::U32(number) => put_natural(sink, out, u64::from(*number)),
        Value::U64(number) => put_quoted_natural(sink, out, *number),
        Value::Bool(flag) => put_bool(sink, out, *flag),
        Value::F32(bits) => put_single(sink, out, *bits),
        Value::F64(bits) => put_double(sink, out, *bits),
        Value::Enum(number) => put_enum(sink, out, context.pool, kind, *number),
        Value::Text(text) => put_string(sink, out, text.as_str().as_bytes()),
        Value::Bytes(bytes) => put_base64(sink, out, bytes),
        Value::Message(_) => sink.put(out, b"null"),
    }
}

pub(crate) fn put_natural<O: Output>(sink: &mut Sink, out: &mut O, number: u64)
    ensures { Puts O.written O.failures out.old out.new sink.old sink.new (decimal number) }
{
    sink.reserve(out, 20);
    sink.held.push_decimal(number);
}

fn put_integer<O: Output>(sink: &mut Sink, out: &mut O, number: i64)
    ensures { Puts O.written O.failures out.old out.new sink.old sink.new (signed_decimal number) }
{
    sink.reserve(out, 21);
    sink.held.push_signed(number);
}

fn put_quoted_natural<O: Output>(sink: &mut Sink, out: &mut O, number: u64)
    ensures { Puts O.written O.failures out.old out.new sink.old sink.new (in_quotes (decimal number)) }
{
    sink.put(out, b"\"");
    put_natural(sink, out, number);
    sink.put(out, b"\"");
}

fn put_quoted_integer<O: Output>(sink: &mut Sink, out: &mut O, number: i64)
    ensures { Puts O.written O.failures out.old out.new sink.old sink.new (in_quotes (signed_decimal number)) }
{
    sink.put(out, b"\"");
    put_integer(sink, out, number);
    sink.put(out, b"\"");
}

fn put_bool<O: Output>(sink: &mut Sink, out: &mut O, flag: bool)
    ensures { Puts O.written O.failures out.old out.new sink.old sink.new (bool_text flag) }
{
    if flag {
        sink.put(out, b"true")
    } else {
        sink.put(out, b"false")
    }
}

/// A `float` by its bits.
fn put_single<O: Output>(sink: &mut Sink, out: &mut O, bits: u32)
    ensures { (layout : Layout) (indent : ℕ) → Prints O.written O.failures out.old out.new sink.old sink.new
        (IsJsonText layout indent (float_json binary32 (from_bits binary32 bits))) }
{
    let number = f32_from_bits_with_nan(bits);
    if number.is_nan() {
        put_quoted(sink, out, b"NaN");
    } else if number.is_finite() {
        sink.put(out, ryu::Buffer::new().format_finite(number).as_bytes());
    } else {
        put_infinity(sink, out, number.is_sign_negative());
    }
}

/// A `double` by its bits.
fn put_double<O: Output>(sink: &mut Sink, out: &mut O, bits: u64)
    ensures { (layout : Layout) (indent : ℕ) → Prints O.written O.failures out.old out.new sink.old sink.new
        (IsJsonText layout indent (float_json binary64 (from_bits binary64 bits))) }
{
    let number = f64_from_bits_with_nan(bits);
    if number.is_nan() {
        put_quoted(sink, out, b"NaN");
    } else if number.is_finite() {
        sink.put(out, ryu::Buffer::new().format_finite(number).as_bytes());
    } else {
        put_infinity(sink, out, number.is_sign_negative());
    }
}

fn put_infinity<O: Output>(sink: &mut Sink, out: &mut O, is_negative: bool)
    ensures { Puts O.written O.failures out.old out.new sink.old sink.new (in_quotes (infinity_word is_negative)) }
{
    if is_negative {
        put_quoted(sink, out, b"-Infinity");
    } else {
        put_quoted(sink, out, b"Infinity");
    }
}

/// An enum's value by its name, or by its number where no value has it.
fn put_enum<O: Output>(sink: &mut Sink, out: &mut O, pool: &Pool, kind: Kind, number: i32)
    requires { NamesType (length pool.now.messages) (length pool.now.enums) kind }
    ensures { (layout : Layout) (indent : ℕ) → Prints O.written O.failures out.old out.new sink.old sink.new
        (IsJsonText layout indent (enum_json pool.now kind number)) }
{
    if is_null_enum(pool, kind) {
        sink.put(out, b"null");
        return;
    }
    match value_name(pool, kind, number) {
        Some(name) => put_string(sink, out, name.as_bytes()),
        None => put_integer(sink, out, i64::from(number)),
    }
}

/// The name of the first value with this number, of the enum that a kind names.
fn value_name(pool: &Pool, kind: Kind, number: i32) -> Option<&str>
    requires { NamesType (length pool.now.messages) (length pool.now.enums) kind }
    ensures { option_map (λ s. s.now) result ≡ named_value number (names_of_kind pool.now kind) }
{
    let id = kind.enum_id()?;
    pool.value_name(id, number)
}

/// Bytes in base64, with padding, between quotes.
fn put_base64<O: Output>(sink: &mut Sink, out: &mut O, bytes: &[u8])
    ensures { Puts O.written O.failures out.old out.new sink.old sink.new (in_quotes (encode_of standard bytes.now)) }
{
    sink.put(out, b"\"");
    put_encoded(sink, out, bytes);
    sink.put(out, b"\"");
}

fn put_encoded<O: Output>(sink: &mut Sink, out: &mut O, bytes: &[u8])
    ensures { Puts O.written O.failures out.old out.new sink.old sink.new (encode_of standard bytes.now) }
{
    let mut done = 0;
    'pieces: while bytes.len() - done > BASE64_BYTES {
        put_piece(sink, out, &bytes[done..done + BASE64_BYTES]);
        done += BASE64_BYTES;
    }
    put_piece(sink, out, &bytes[done..]);
}

fn put_piece<O: Output>(sink: &mut Sink, out: &mut O, bytes: &[u8])
    requires { length bytes.now ≤ 768 }
    ensures { Puts O.written O.failures out.old out.new sink.old sink.new (encode_of standard bytes.now) }
{
    let mut characters = [0; BASE64_CHARACTERS];
    if let Ok(count) = STANDARD.encode_slice(bytes, &mut characters) {
        sink.put(out, &characters[..count]);
    }
}
