//! The schema that the tests speak of.

ghost use Rattle.std.specs.Prelude.{◌<◌, length};

use pb_schema::{Kind, MessageId, Pool, Shape};
use pb_test_types::{EnumRow, FieldRow, PACKED, TypeRow, UNPACKED, pool_of};
use pb_value::{Body, DynamicMessage, ValueError};
use std::alloc::Global;
use std::test::Fail;

/// A pool and a message type of it.
#[derive(Drop)]
pub(crate) struct Schema {
    pub(crate) pool: Pool,
    pub(crate) message_type: MessageId,
    ghost within: { message_type.0 < length pool.messages },
}

impl Schema {
    pub(crate) fn made(&self, alloc: Global, body: Body) -> Result<DynamicMessage<'_>, ValueError> {
        DynamicMessage::from_body(alloc, &self.pool, self.message_type, body)
    }
}

/// package a.b; message T { int32 a = 1; string b = 2; T c = 3; repeated int32 e = 6; oneof o { uint32 x = 7;
/// T y = 8; } map<string, int32> m = 9; optional bool p = 10; map<uint32, T> n = 12; repeated string u = 13;
/// repeated T r = 19; N l = 20; double d = 21; float f = 22; int64 g = 23; uint64 h = 24; bytes i = 25;
/// map<bool, int64> k = 27; map<sint32, int32> s = 28; map<int64, int32> v = 29; map<fixed64, int32> w = 30;
/// } message N { string z = 1; }
pub(crate) fn sample(alloc: Global) -> Result<Schema, Fail> {
    let pool = pool_of(alloc, &[("t.proto", "a.b", false)], TYPES, ENUMS)?;
    let message_type = pool.message_by_name("a.b.T").ok_or("no type")?;
    Ok(Schema { pool, message_type })
}

const TYPES: &[TypeRow] = &[
    ("T", 0, None, FIELDS_OF_T, &["o"]),
    ("N", 0, None, FIELDS_OF_N, &[]),
];

const ENUMS: &[EnumRow] = &[];

const T: Kind = Kind::Message(MessageId(0));

const FIELDS_OF_T: &[FieldRow] = &[
    ("a", 1, Kind::Int32, Shape::Implicit),
    ("b", 2, Kind::Text, Shape::Implicit),
    ("c", 3, T, Shape::Explicit),
    ("e", 6, Kind::Int32, PACKED),
    ("x", 7, Kind::Uint32, Shape::OneofMember(0)),
    ("y", 8, T, Shape::OneofMember(0)),
    ("m", 9, Kind::Int32, Shape::Map { key: Kind::Text }),
    ("p", 10, Kind::Bool, Shape::Explicit),
    ("n", 12, T, Shape::Map { key: Kind::Uint32 }),
    ("u", 13, Kind::Text, UNPACKED),
    ("r", 19, T, UNPACKED),
    ("l", 20, Kind::Message(MessageId(1)), Shape::Explicit),
    ("d", 21, Kind::Double, Shape::Implicit),
    ("f", 22, Kind::Float, Shape::Implicit),
    ("g", 23, Kind::Int64, Shape::Implicit),
    ("h", 24, Kind::Uint64, Shape::Implicit),
    ("i", 25, Kind::Bytes, Shape::Implicit),
    ("k", 27, Kind::Int64, Shape::Map { key: Kind::Bool }),
    ("s", 28, Kind::Int32, Shape::Map { key: Kind::Sint32 }),
    ("v", 29, Kind::Int32, Shape::Map { key: Kind::Int64 }),
    ("w", 30, Kind::Int32, Shape::Map { key: Kind::Fixed64 }),
];

const FIELDS_OF_N: &[FieldRow] = &[("z", 1, Kind::Text, Shape::Implicit)];
