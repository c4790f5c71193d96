//! A value as C is given it.

ghost use Rattle.std.specs.Prelude.{◌≡◌, ◌<◌};
ghost use Rattle.std.specs.Int.{cast_unsigned, w64};
ghost use Rattle.pb_value.specs.View.{value_view};
ghost use Rattle.pb_place.specs.Found.{found_view};
ghost use Rattle.pb_c_message.specs.Plain.{bit, datum_plain, seen_plain};

use pb_place::Found;
use pb_value::Value;

/// The kinds of values, by the numbers that types have in descriptor.proto.
pub const DOUBLE: u32 = 1;

pub const FLOAT: u32 = 2;

pub const INT64: u32 = 3;

pub const UINT64: u32 = 4;

pub const INT32: u32 = 5;

pub const BOOL: u32 = 8;

pub const STRING: u32 = 9;

pub const MESSAGE: u32 = 11;

pub const BYTES: u32 = 12;

pub const UINT32: u32 = 13;

pub const ENUM: u32 = 14;

/// What holds several values.
pub const LIST: u32 = 19;

pub const MAP: u32 = 20;

/// A step of a place that is no key.
pub const FIELD: u32 = 21;

pub const INDEX: u32 = 22;

/// A value, or a step of a place.
///
/// Of a value, the number is an integer as 64 bits, 0 or 1 of a `bool`, the bits of a `float` or `double`, how many bytes a string or
/// bytes have, how many values a list or a map has, or the number of a message's type. Of a step it is the number of a field, an index, or
/// a key; a string is the one at this index of a list beside the steps.
#[repr(C)]
#[derive(Clone, Copy, Debug, PartialEq, Eq)]
pub struct PlainValue {
    pub kind: u32,
    pub number: u64,
}

/// All 64 bits of the two's complement.
pub fn all_bits(number: i32) -> u64
    ensures { result ≡ cast_unsigned w64 number }
{
    i64::from(number).cast_unsigned()
}

/// 1 for true.
pub fn bit(value: bool) -> u64
    ensures { result ≡ bit value }
{
    if value { 1 } else { 0 }
}

/// A value that is no message, as C is given it.
fn plain_value(value: &Value) -> PlainValue
    ensures { result ≡ datum_plain (value_view value.now) }
{
    match value {
        Value::I32(number) => PlainValue {
            kind: INT32,
            number: all_bits(*number),
        },
        Value::I64(number) => PlainValue {
            kind: INT64,
            number: number.cast_unsigned(),
        },
        Value::U32(number) => PlainValue {
            kind: UINT32,
            number: u64::from(*number),
        },
        Value::U64(number) => PlainValue {
            kind: UINT64,
            number: *number,
        },
        Value::Bool(value) => PlainValue {
            kind: BOOL,
            number: bit(*value),
        },
        Value::F32(bits) => PlainValue {
            kind: FLOAT,
            number: u64::from(*bits),
        },
        Value::F64(bits) => PlainValue {
            kind: DOUBLE,
            number: *bits,
        },
        Value::Enum(number) => PlainValue {
            kind: ENUM,
            number: all_bits(*number),
        },
        Value::Text(text) => PlainValue {
            kind: STRING,
            number: text.len() as u64,
        },
        Value::Bytes(bytes) => PlainValue {
            kind: BYTES,
            number: bytes.len() as u64,
        },
        Value::Message(_) => PlainValue {
            kind: MESSAGE,
            number: 0,
        },
    }
}

/// What is at a place, as C is given it.
pub(crate) fn plain_found(found: &Found<'_>) -> PlainValue
    ensures { result ≡ seen_plain (found_view found.now) }
{
    match found {
        Found::Message(message) => PlainValue {
            kind: MESSAGE,
            number: message.message_type().0 as u64,
        },
        Found::Scalar(value) => plain_value(value),
        Found::List(values) => PlainValue {
            kind: LIST,
            number: values.len() as u64,
        },
        Found::Map(entries) => PlainValue {
            kind: MAP,
            number: entries.len() as u64,
        },
    }
}
