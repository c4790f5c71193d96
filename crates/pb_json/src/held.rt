//! What the fields of types with a form of their own hold.

ghost use Rattle.std.specs.Prelude.{◌≡◌};
ghost use Rattle.pb_value.specs.View.{content_view, fields_view, value_view};
ghost use Rattle.pb_json.specs.Held.{bytes_at, bytes_held, bytes_of, integer_at, integer_held, integer_of, string_at, string_held, string_of};

use pb_value::{Content, Value};
use std::collections::BTreeMap;

/// The signed integer in the field of a number, and 0 where there is none.
pub(crate) fn integer_at(fields: &BTreeMap<u32, Content>, number: u32) -> i64
    ensures { result ≡ integer_at number (fields_view fields.now.entries) }
{
    match fields.get(&number) {
        Some(content) => integer_held(content),
        None => 0,
    }
}

fn integer_held(content: &Content) -> i64
    ensures { result ≡ integer_held (content_view content.now) }
{
    match content {
        Content::One(value) => integer_of(value),
        Content::List(_) | Content::Map(_) => 0,
    }
}

fn integer_of(value: &Value) -> i64
    ensures { result ≡ integer_of (value_view value.now) }
{
    match value {
        Value::I32(number) => i64::from(*number),
        Value::I64(number) => *number,
        Value::U32(_) | Value::U64(_) | Value::Bool(_) | Value::F32(_) | Value::F64(_) => 0,
        Value::Enum(_) | Value::Text(_) | Value::Bytes(_) | Value::Message(_) => 0,
    }
}

/// The bytes of a string, and none of another value.
pub(crate) fn string_of(value: &Value) -> &[u8]
    ensures { result.now ≡ string_of (value_view value.now) }
{
    text_of(value).as_bytes()
}

/// A string, and the empty one of another value.
fn text_of(value: &Value) -> &str
    ensures { result.now ≡ string_of (value_view value.now) }
{
    match value {
        Value::Text(text) => text.as_str(),
        Value::I32(_) | Value::I64(_) | Value::U32(_) | Value::U64(_) | Value::Bool(_) => "",
        Value::F32(_) | Value::F64(_) | Value::Enum(_) | Value::Bytes(_) | Value::Message(_) => "",
    }
}

/// The string in the field of a number, and the empty one where there is none.
pub(crate) fn text_at(fields: &BTreeMap<u32, Content>, number: u32) -> &str
    ensures { result.now ≡ string_at number (fields_view fields.now.entries) }
{
    match fields.get(&number) {
        Some(content) => text_held(content),
        None => "",
    }
}

fn text_held(content: &Content) -> &str
    ensures { result.now ≡ string_held (content_view content.now) }
{
    match content {
        Content::One(value) => text_of(value),
        Content::List(_) | Content::Map(_) => "",
    }
}

/// The bytes in the field of a number, and none where there is none.
pub(crate) fn bytes_at(fields: &BTreeMap<u32, Content>, number: u32) -> &[u8]
    ensures { result.now ≡ bytes_at number (fields_view fields.now.entries) }
{
    match fields.get(&number) {
        Some(content) => bytes_held(content),
        None => b"",
    }
}

fn bytes_held(content: &Content) -> &[u8]
    ensures { result.now ≡ bytes_held (content_view content.now) }
{
    match content {
        Content::One(value) => bytes_of(value),
        Content::List(_) | Content::Map(_) => b"",
    }
}

fn bytes_of(value: &Value) -> &[u8]
    ensures { result.now ≡ bytes_of (value_view value.now) }
{
    match value {
        Value::Bytes(bytes) => bytes.as_slice(),
        Value::I32(_) | Value::I64(_) | Value::U32(_) | Value::U64(_) | Value::Bool(_) => b"",
        Value::F32(_) | Value::F64(_) | Value::Enum(_) | Value::Text(_) | Value::Message(_) => b"",
    }
}
