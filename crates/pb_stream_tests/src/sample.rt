//! The schema that the tests speak of, and messages of it.

ghost use Rattle.std.specs.Prelude.{◌<◌, length};

use pb_schema::{EnumId, Kind, MessageId, Pool, Shape};
use pb_test_types::{EnumRow, FieldRow, FileRow, TypeRow, pool_of};
use pb_value::{Content, DynamicMessage, Value};
use std::alloc::Global;
use std::test::Fail;

/// A pool and a message type of it.
#[derive(Drop)]
pub(crate) struct Schema {
    pub(crate) pool: Pool,
    pub(crate) kind: MessageId,
    ghost there: { kind.0 < length pool.messages },
}

/// message T { int32 a = 1; string b = 2; T c = 3; }
pub(crate) fn sample(alloc: Global) -> Result<Schema, Fail> {
    sample_of(alloc, "T")
}

/// Of a proto2 file: enum C { ONE = 1; TWO = 2; } message Q { optional int32 a = 1; optional group G = 3 { optional int32 x = 1; }
/// optional C k = 4; repeated C l = 5 [packed = true]; }
pub(crate) fn closed_sample(alloc: Global) -> Result<Schema, Fail> {
    sample_of(alloc, "Q")
}

fn sample_of(alloc: Global, name: &str) -> Result<Schema, Fail> {
    let pool = pool_of(alloc, FILES, TYPES, ENUMS)?;
    let kind = pool.message_by_name(name).ok_or("no type")?;
    Ok(Schema { pool, kind })
}

const C: Kind = Kind::ClosedEnum(EnumId(0));

const FIELDS_OF_T: &[FieldRow] = &[
    ("a", 1, Kind::Int32, Shape::Implicit),
    ("b", 2, Kind::Text, Shape::Implicit),
    ("c", 3, Kind::Message(MessageId(0)), Shape::Explicit),
];

const FIELDS_OF_Q: &[FieldRow] = &[
    ("a", 1, Kind::Int32, Shape::Explicit),
    ("g", 3, Kind::Group(MessageId(2)), Shape::Explicit),
    ("k", 4, C, Shape::Explicit),
    ("l", 5, C, Shape::List { packed: true }),
];

const FIELDS_OF_G: &[FieldRow] = &[("x", 1, Kind::Int32, Shape::Explicit)];

const TYPES: &[TypeRow] = &[
    ("T", 0, None, FIELDS_OF_T, &[]),
    ("Q", 1, None, FIELDS_OF_Q, &[]),
    ("G", 1, Some(MessageId(1)), FIELDS_OF_G, &[]),
];

const FILES: &[FileRow<'static>] = &[("t.proto", "", false), ("q.proto", "", true)];

const ENUMS: &[EnumRow] = &[("C", 1, &[("ONE", 1), ("TWO", 2)])];

/// A message whose field 1 is this number.
pub(crate) fn holding(
    alloc: Global,
    schema: &Schema,
    number: i32,
) -> Result<DynamicMessage<'_>, Fail> {
    let mut message = DynamicMessage::new(alloc, &schema.pool, schema.kind);
    message.set(1, Content::One(Value::I32(number)))?;
    Ok(message)
}

/// A message whose field 2 is a string of `letters` letters.
pub(crate) fn long(
    alloc: Global,
    schema: &Schema,
    letters: usize,
) -> Result<DynamicMessage<'_>, Fail> {
    let text = String::from_utf8(vec![in alloc; b'x'; letters]?)?;
    let mut message = DynamicMessage::new(alloc, &schema.pool, schema.kind);
    message.set(2, Content::One(Value::Text(text)))?;
    Ok(message)
}
