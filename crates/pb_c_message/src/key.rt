//! A map's key as C is given it.

ghost use Rattle.std.specs.Prelude.{◌≡◌};
ghost use Rattle.pb_value.specs.View.{key_view};
ghost use Rattle.pb_c_message.specs.Plain.{scalar_bytes, scalar_plain};

use crate::value::{BOOL, INT32, INT64, PlainValue, STRING, UINT32, UINT64, all_bits, bit};
use pb_value::MapKey;

/// A key, as C is given it.
pub fn key_value(key: &MapKey) -> PlainValue
    ensures { result ≡ scalar_plain (key_view key.now) }
{
    match key {
        MapKey::I32(number) => PlainValue {
            kind: INT32,
            number: all_bits(*number),
        },
        MapKey::I64(number) => PlainValue {
            kind: INT64,
            number: number.cast_unsigned(),
        },
        MapKey::U32(number) => PlainValue {
            kind: UINT32,
            number: u64::from(*number),
        },
        MapKey::U64(number) => PlainValue {
            kind: UINT64,
            number: *number,
        },
        MapKey::Bool(value) => PlainValue {
            kind: BOOL,
            number: bit(*value),
        },
        MapKey::Text(text) => PlainValue {
            kind: STRING,
            number: text.len() as u64,
        },
    }
}

/// The bytes of a key that is a string, and else none.
pub fn key_bytes(key: &MapKey) -> &[u8]
    ensures { result.now ≡ scalar_bytes (key_view key.now) }
{
    match key {
        MapKey::Text(text) => text.as_str().as_bytes(),
        _ => &[],
    }
}
