//! A scalar that is found in bytes, as C is given it.

ghost use Rattle.std.specs.Prelude.{◌≡◌};
ghost use Rattle.pb_find.specs.View.{scalar_view};
ghost use Rattle.pb_c_message.specs.Plain.{scalar_bytes as bytes_of, scalar_plain};

use crate::value::{
    BOOL, BYTES, DOUBLE, ENUM, FLOAT, INT32, INT64, PlainValue, STRING, UINT32, UINT64, all_bits,
    bit,
};
use pb_find::ScalarRef;

/// A scalar, as C is given it.
pub fn scalar_value(scalar: ScalarRef<'_>) -> PlainValue
    ensures { result ≡ scalar_plain (scalar_view scalar.entry) }
{
    match scalar {
        ScalarRef::I32(number) => PlainValue {
            kind: INT32,
            number: all_bits(number),
        },
        ScalarRef::I64(number) => PlainValue {
            kind: INT64,
            number: number.cast_unsigned(),
        },
        ScalarRef::U32(number) => PlainValue {
            kind: UINT32,
            number: u64::from(number),
        },
        ScalarRef::U64(number) => PlainValue {
            kind: UINT64,
            number,
        },
        ScalarRef::Bool(value) => PlainValue {
            kind: BOOL,
            number: bit(value),
        },
        ScalarRef::F32(bits) => PlainValue {
            kind: FLOAT,
            number: u64::from(bits),
        },
        ScalarRef::F64(bits) => PlainValue {
            kind: DOUBLE,
            number: bits,
        },
        ScalarRef::Enum(number) => PlainValue {
            kind: ENUM,
            number: all_bits(number),
        },
        ScalarRef::Text(text) => PlainValue {
            kind: STRING,
            number: text.len() as u64,
        },
        ScalarRef::Bytes(bytes) => PlainValue {
            kind: BYTES,
            number: bytes.len() as u64,
        },
    }
}

/// The bytes of a string or of bytes, and else none.
pub fn scalar_bytes<'a>(scalar: ScalarRef<'a>) -> &'a [u8]
    ensures { result.now ≡ bytes_of (scalar_view scalar.entry) }
{
    match scalar {
        ScalarRef::Text(text) => text.as_bytes(),
        ScalarRef::Bytes(bytes) => bytes,
        _ => &[],
    }
}
