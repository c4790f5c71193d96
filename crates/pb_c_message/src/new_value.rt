//! Values as C says them.

ghost use Rattle.std.specs.Prelude.{◌≡◌, None, Some, option_map, MatchResult};
ghost use Rattle.std.specs.List.{slice_get};
ghost use Rattle.pb_schema.specs.Scalar.{bytes};
ghost use Rattle.pb_value.specs.Data.{scalar};
ghost use Rattle.pb_value.specs.View.{key_view, value_view};
ghost use Rattle.pb_c_message.specs.Answers.{IsUnsaid};
ghost use Rattle.pb_c_message.specs.NewValue.{value_said};

use crate::miss::Miss;
use crate::place::{int32_said, key_of, uint32_said};
use crate::value::{BYTES, DOUBLE, ENUM, FLOAT, MESSAGE, PlainValue};
use pb_value::bodies::empty_body;
use pb_value::{MapKey, Value};
use std::alloc::Global;

/// The kind of a group, which is a message as a value.
const GROUP: u32 = 10;

/// The bytes of an index among those that are given.
fn bytes_value(alloc: Global, number: u64, given: &[&[u8]]) -> Result<Value, Miss>
    ensures { MatchResult result
        (λ v. option_map (λ b. scalar (bytes b.now)) (slice_get given.now number)
        ≡ Some (value_view v))
        (IsUnsaid (option_map (λ b. scalar (bytes b.now)) (slice_get given.now number) ≡ None)) }
{
    let Some(bytes) = given.get(number as usize) else {
        return Err(Miss::BadPlace);
    };
    let bytes = Vec::from_slice(alloc, bytes)?;
    Ok(Value::Bytes(bytes))
}

/// A value that a key may be.
fn key_as_value(key: MapKey) -> Value
    ensures { value_view result ≡ scalar (key_view key) }
{
    match key {
        MapKey::I32(number) => Value::I32(number),
        MapKey::I64(number) => Value::I64(number),
        MapKey::U32(number) => Value::U32(number),
        MapKey::U64(number) => Value::U64(number),
        MapKey::Bool(value) => Value::Bool(value),
        MapKey::Text(text) => Value::Text(text),
    }
}

/// The value that a kind and a number say. Where they say none it is a bad place.
pub(crate) fn value_of(alloc: Global, value: PlainValue, given: &[&[u8]]) -> Result<Value, Miss>
    ensures { MatchResult result (λ v. value_said given.now value ≡ Some (value_view v))
        (IsUnsaid (value_said given.now value ≡ None)) }
{
    if value.kind == DOUBLE {
        return Ok(Value::F64(value.number));
    }
    if value.kind == FLOAT {
        return match uint32_said(value.number) {
            Some(bits) => Ok(Value::F32(bits)),
            None => Err(Miss::BadPlace),
        };
    }
    if value.kind == GROUP || value.kind == MESSAGE {
        return Ok(Value::Message(empty_body(alloc)));
    }
    if value.kind == BYTES {
        let bytes = bytes_value(alloc, value.number, given)?;
        return Ok(bytes);
    }
    if value.kind == ENUM {
        return match int32_said(value.number) {
            Some(number) => Ok(Value::Enum(number)),
            None => Err(Miss::BadPlace),
        };
    }
    let key = key_of(alloc, value.kind, value.number, given)?;
    Ok(key_as_value(key))
}
