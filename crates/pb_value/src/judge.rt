//! Which values are of which kind, and which contents of which shape.

pub(crate) mod check;
pub(crate) mod declared;
pub(crate) mod depth;
pub(crate) mod unknown;

ghost use Rattle.std.specs.Prelude.{◌≡◌, IsTrue};
ghost use Rattle.pb_value.specs.Judge.{is_value_of, are_values_of, is_key_of, are_entries_of, holds_kind, has_shape};
ghost use Rattle.pb_value.specs.Judge.{is_absence, is_scalar_of, is_default_datum, IsWithin, IsKeyWithin};
ghost use Rattle.std.specs.Prelude.{string_bytes};
ghost use Rattle.pb_schema.specs.Scalar.{int32, int64, uint32, uint64, boolean, float, double, enum, text as scalar_text, bytes as scalar_bytes};
ghost use Rattle.pb_schema.specs.Kinds.{IsOfKind};
ghost use Rattle.pb_value.specs.Data.{one};
ghost use Rattle.pb_value.specs.View.{key_view, value_view, content_view, values_view, entries_view};

use crate::body::{Content, MapKey, Value};
use pb_schema::{Kind, Shape};
use std::collections::BTreeMap;

/// Whether a value is of a kind. What a message holds is not looked into.
pub(crate) fn is_value_of(kind: Kind, value: &Value) -> bool
    ensures test { result ≡ is_value_of kind (value_view value.now) }
    ensures in_range { IsTrue result → IsWithin kind (value_view value.now) }
{
    match value {
        Value::I32(number) => is_int32(kind, *number),
        Value::I64(number) => is_int64(kind, *number),
        Value::U32(number) => is_uint32(kind, *number),
        Value::U64(number) => is_uint64(kind, *number),
        Value::Bool(truth) => is_boolean(kind, *truth),
        Value::F32(bits) => is_float(kind, *bits),
        Value::F64(bits) => is_double(kind, *bits),
        Value::Enum(number) => is_enum(kind, *number),
        Value::Text(text) => is_text(kind, text),
        Value::Bytes(bytes) => is_bytes(kind, bytes),
        Value::Message(_) => matches!(kind, Kind::Message(_) | Kind::Group(_)),
    }
}

// The kinds of each form of scalar. A number that is passed is known to be in its type's range.

fn is_int32(kind: Kind, number: i32) -> bool
    ensures test { result ≡ is_scalar_of kind (int32 number) }
    ensures in_range { IsTrue result → IsOfKind kind (int32 number) }
{
    matches!(kind, Kind::Int32 | Kind::Sint32 | Kind::Sfixed32)
}

fn is_int64(kind: Kind, number: i64) -> bool
    ensures test { result ≡ is_scalar_of kind (int64 number) }
    ensures in_range { IsTrue result → IsOfKind kind (int64 number) }
{
    matches!(kind, Kind::Int64 | Kind::Sint64 | Kind::Sfixed64)
}

fn is_uint32(kind: Kind, number: u32) -> bool
    ensures test { result ≡ is_scalar_of kind (uint32 number) }
    ensures in_range { IsTrue result → IsOfKind kind (uint32 number) }
{
    matches!(kind, Kind::Uint32 | Kind::Fixed32)
}

fn is_uint64(kind: Kind, number: u64) -> bool
    ensures test { result ≡ is_scalar_of kind (uint64 number) }
    ensures in_range { IsTrue result → IsOfKind kind (uint64 number) }
{
    matches!(kind, Kind::Uint64 | Kind::Fixed64)
}

fn is_boolean(kind: Kind, truth: bool) -> bool
    ensures test { result ≡ is_scalar_of kind (boolean truth) }
    ensures in_range { IsTrue result → IsOfKind kind (boolean truth) }
{
    matches!(kind, Kind::Bool)
}

fn is_float(kind: Kind, bits: u32) -> bool
    ensures test { result ≡ is_scalar_of kind (float bits) }
    ensures in_range { IsTrue result → IsOfKind kind (float bits) }
{
    matches!(kind, Kind::Float)
}

fn is_double(kind: Kind, bits: u64) -> bool
    ensures test { result ≡ is_scalar_of kind (double bits) }
    ensures in_range { IsTrue result → IsOfKind kind (double bits) }
{
    matches!(kind, Kind::Double)
}

fn is_enum(kind: Kind, number: i32) -> bool
    ensures test { result ≡ is_scalar_of kind (enum number) }
    ensures in_range { IsTrue result → IsOfKind kind (enum number) }
{
    matches!(kind, Kind::Enum(_) | Kind::ClosedEnum(_))
}

fn is_text(kind: Kind, text: &String) -> bool
    ensures test { result ≡ is_scalar_of kind (scalar_text (string_bytes text.now)) }
    ensures in_range { IsTrue result → IsOfKind kind (scalar_text (string_bytes text.now)) }
{
    matches!(kind, Kind::Text)
}

fn is_bytes(kind: Kind, bytes: &[u8]) -> bool
    ensures test { result ≡ is_scalar_of kind (scalar_bytes bytes.now) }
    ensures in_range { IsTrue result → IsOfKind kind (scalar_bytes bytes.now) }
{
    matches!(kind, Kind::Bytes)
}

fn are_values_of(kind: Kind, values: &Vec<Value>) -> bool
    ensures { result ≡ are_values_of kind (values_view values.now.items) }
{
    for value in values {
        if !is_value_of(kind, value) {
            return false;
        }
    }
    true
}

/// Whether a key is of the kind of a map's keys. Where the field is no map, no key is judged.
pub(crate) fn is_key_of(shape: Shape, key: &MapKey) -> bool
    ensures test { result ≡ is_key_of shape (key_view key.now) }
    ensures in_range { IsTrue result → IsKeyWithin shape (key_view key.now) }
{
    let Shape::Map { key: kind } = shape else {
        return true;
    };
    match key {
        MapKey::I32(number) => is_int32(kind, *number),
        MapKey::I64(number) => is_int64(kind, *number),
        MapKey::U32(number) => is_uint32(kind, *number),
        MapKey::U64(number) => is_uint64(kind, *number),
        MapKey::Bool(truth) => is_boolean(kind, *truth),
        MapKey::Text(text) => is_text(kind, text),
    }
}

fn are_entries_of(shape: Shape, kind: Kind, entries: &BTreeMap<MapKey, Value>) -> bool
    ensures { result ≡ are_entries_of shape kind (entries_view entries.now.entries) }
{
    for (key, value) in entries {
        if !is_key_of(shape, key) || !is_value_of(kind, value) {
            return false;
        }
    }
    true
}

/// Whether each value of a content is of a kind, and each key of the shape's.
pub(crate) fn holds_kind(shape: Shape, kind: Kind, content: &Content) -> bool
    ensures { result ≡ holds_kind shape kind (content_view content.now) }
{
    match content {
        Content::One(value) => is_value_of(kind, value),
        Content::List(values) => are_values_of(kind, values),
        Content::Map(entries) => are_entries_of(shape, kind, entries),
    }
}

/// Whether a content is one value, a list or a map, as a field's shape says.
pub(crate) fn has_shape(shape: Shape, content: &Content) -> bool
    ensures { result ≡ has_shape shape (content_view content.now) }
{
    match shape {
        Shape::Implicit | Shape::Explicit | Shape::OneofMember(_) => matches!(
            content,
            Content::One(_)
        ),
        Shape::List { packed: _ } => matches!(content, Content::List(_)),
        Shape::Map { key: _ } => matches!(content, Content::Map(_)),
    }
}

/// Whether a scalar is the default of its kind; of a float or double +0 alone.
#[inline(always)]
fn is_default(value: &Value) -> bool
    ensures { result ≡ is_default_datum (value_view value.now) }
{
    match value {
        Value::I32(number) | Value::Enum(number) => *number == 0,
        Value::I64(number) => *number == 0,
        Value::U32(number) | Value::F32(number) => *number == 0,
        Value::U64(number) | Value::F64(number) => *number == 0,
        Value::Bool(truth) => !*truth,
        Value::Text(text) => text.is_empty(),
        Value::Bytes(bytes) => bytes.is_empty(),
        Value::Message(_) => false,
    }
}

/// Whether a field without the value is the same: an implicit field's default.
#[inline(always)]
pub(crate) fn is_absent(shape: Shape, value: &Value) -> bool
    ensures { result ≡ is_absence shape (one (value_view value.now)) }
{
    matches!(shape, Shape::Implicit) && is_default(value)
}

/// Whether a field without the content is the same: an implicit field's default, an empty list or an empty map.
#[inline(always)]
pub(crate) fn is_absence(shape: Shape, content: &Content) -> bool
    ensures { result ≡ is_absence shape (content_view content.now) }
{
    match content {
        Content::One(value) => is_absent(shape, value),
        Content::List(values) => values.is_empty(),
        Content::Map(entries) => entries.is_empty(),
    }
}
