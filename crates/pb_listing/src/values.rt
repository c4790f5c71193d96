//! The values of a message's listing.

ghost use Rattle.std.specs.Prelude.{◌≡◌, ◌++◌, ◌<◌, [], codes, decimal, length, option_map};
ghost use Rattle.std.specs.Fmt.{signed_decimal};
ghost use Rattle.std.specs.List.{flat_map};
ghost use Rattle.hex.specs.Hex.{encode_lower};
ghost use Rattle.pb_schema.specs.EnumValues.{value_name as named_value};
ghost use Rattle.pb_schema.specs.Rules.{NamesType};
ghost use Rattle.pb_value.specs.View.{key_view, value_view};
ghost use Rattle.pb_listing.specs.FloatText.{IsDatumText};
ghost use Rattle.pb_listing.specs.Listing.{bool_text, enum_text, names_of_kind, scalar_text, text_byte};
ghost use Rattle.pb_listing.specs.Putting.{PutsSome};
ghost use Rattle.pb_output.specs.Sink.{Puts};

use crate::context::Context;
use crate::floats::{put_double, put_float};
use pb_output::Sink;
use pb_schema::{Kind, Pool};
use pb_value::{MapKey, Value};
use pb_wire::Output;

/// A value that is no message; of a message nothing.
pub(crate) fn put_scalar<O: Output>(
    sink: &mut Sink,
    out: &mut O,
    context: &Context<'_>,
    kind: Kind,
    value: &Value,
)
    requires { NamesType (length context.now.pool.now.messages)
        (length context.now.pool.now.enums) kind }
    ensures { PutsSome O.written O.failures out.old out.new sink.old sink.new
        (IsDatumText context.now.floats (names_of_kind context.now.pool.now kind)
        (value_view value.now)) }
{
    match value {
        Value::I32(number) => put_integer(sink, out, i64::from(*number)),
        Value::I64(number) => put_integer(sink, out, *number),
        Value::U32(number) => put_natural(sink, out, u64::from(*number)),
        Value::U64(number) => put_natural(sink, out, *number),
        Value::Bool(flag) => put_bool(sink, out, *flag),
        Value::F32(bits) => put_float(sink, out, context.floats, *bits),
        Value::F64(bits) => put_double(sink, out, context.floats, *bits),
        Value::Enum(number) => put_enum(sink, out, context.pool, kind, *number),
        Value::Text(text) => put_text(sink, out, text.as_str().as_bytes()),
        Value::Bytes(bytes) => put_bytes(sink, out, bytes),
        Value::Message(_) => {}
    }
}

/// A key, which is written like a value.
pub(crate) fn put_key<O: Output>(sink: &mut Sink, out: &mut O, key: &MapKey)
    ensures { Puts O.written O.failures out.old out.new sink.old sink.new
        (scalar_text [] (key_view key.now)) }
{
    match key {
        MapKey::I32(number) => put_integer(sink, out, i64::from(*number)),
        MapKey::I64(number) => put_integer(sink, out, *number),
        MapKey::U32(number) => put_natural(sink, out, u64::from(*number)),
        MapKey::U64(number) => put_natural(sink, out, *number),
        MapKey::Bool(flag) => put_bool(sink, out, *flag),
        MapKey::Text(text) => put_text(sink, out, text.as_str().as_bytes()),
    }
}

pub(crate) fn put_natural<O: Output>(sink: &mut Sink, out: &mut O, number: u64)
    ensures { Puts O.written O.failures out.old out.new sink.old sink.new (decimal number) }
{
    sink.reserve(out, 20);
    sink.held.push_decimal(number);
}

pub(crate) fn put_integer<O: Output>(sink: &mut Sink, out: &mut O, number: i64)
    ensures { Puts O.written O.failures out.old out.new sink.old sink.new (signed_decimal number) }
{
    sink.reserve(out, 21);
    sink.held.push_signed(number);
}

fn put_bool<O: Output>(sink: &mut Sink, out: &mut O, flag: bool)
    ensures { Puts O.written O.failures out.old out.new sink.old sink.new (bool_text flag) }
{
    if flag {
        sink.put(out, b"true")
    } else {
        sink.put(out, b"false")
    }
}

/// The name of an enum's value, or its number where no value has it.
fn put_enum<O: Output>(sink: &mut Sink, out: &mut O, pool: &Pool, kind: Kind, number: i32)
    requires { NamesType (length pool.now.messages) (length pool.now.enums) kind }
    ensures { Puts O.written O.failures out.old out.new sink.old sink.new
        (enum_text (names_of_kind pool.now kind) number) }
{
    match value_name(pool, kind, number) {
        Some(name) => sink.put(out, name.as_bytes()),
        None => put_integer(sink, out, i64::from(number)),
    }
}

/// A text between quotes.
fn put_text<O: Output>(sink: &mut Sink, out: &mut O, text: &[u8])
    ensures { Puts O.written O.failures out.old out.new sink.old sink.new
        (codes "\"" ++ flat_map text_byte text.now ++ codes "\"") }
{
    sink.put(out, b"\"");
    put_text_bytes(sink, out, text);
    sink.put(out, b"\"");
}

fn put_text_bytes<O: Output>(sink: &mut Sink, out: &mut O, text: &[u8])
    ensures { Puts O.written O.failures out.old out.new sink.old sink.new
        (flat_map text_byte text.now) }
{
    for byte in text {
        put_text_byte(sink, out, *byte);
    }
}

#[inline]
fn put_text_byte<O: Output>(sink: &mut Sink, out: &mut O, byte: u8)
    ensures { Puts O.written O.failures out.old out.new sink.old sink.new (text_byte byte) }
{
    sink.reserve(out, 4);
    if byte == b'"' || byte == b'\\' {
        sink.held.push(&[b'\\', byte]);
    } else if byte < 32 || byte == 127 {
        sink.held.push(b"\\x");
        sink.held.push_hex_byte(byte);
    } else {
        sink.held.push(&[byte]);
    }
}

fn put_bytes<O: Output>(sink: &mut Sink, out: &mut O, bytes: &[u8])
    ensures { Puts O.written O.failures out.old out.new sink.old sink.new
        (codes "h'" ++ encode_lower bytes.now ++ codes "'") }
{
    sink.put(out, b"h'");
    sink.put_hex(out, bytes);
    sink.put(out, b"'");
}

/// The name of the first value with this number, of the enum that a kind names.
fn value_name(pool: &Pool, kind: Kind, number: i32) -> Option<&str>
    requires { NamesType (length pool.now.messages) (length pool.now.enums) kind }
    ensures { option_map (λ s. s.now) result ≡ named_value number (names_of_kind pool.now kind) }
{
    let id = kind.enum_id()?;
    pool.value_name(id, number)
}
