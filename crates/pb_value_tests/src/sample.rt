//! The schema that the tests speak of.

ghost use Rattle.std.specs.Prelude.{◌<◌, length};

use pb_schema::{EnumId, Kind, MessageId, Pool, Shape};
use pb_test_types::{EnumRow, FieldRow, PACKED, TypeRow, UNPACKED, pool_of};
use pb_value::{Body, DynamicMessage, ValueError};
use std::alloc::Global;
use std::test::Fail;

/// A pool and a message type of it.
#[derive(Drop)]
pub(crate) struct Schema {
    pub(crate) pool: Pool,
    pub(crate) kind: MessageId,
    ghost there: { kind.0 < length pool.messages },
}

impl Schema {
    pub(crate) fn empty(&self, alloc: Global) -> DynamicMessage<'_> {
        DynamicMessage::new(alloc, &self.pool, self.kind)
    }

    pub(crate) fn made(&self, alloc: Global, body: Body) -> Result<DynamicMessage<'_>, ValueError> {
        DynamicMessage::from_body(alloc, &self.pool, self.kind, body)
    }
}

/// package a.b; enum E { Z = 0; NEG = -1; } message T { int32 a = 1; string b = 2; T c = 3; double d = 4; repeated int32 e = 6;
/// oneof o { uint32 x = 7; T y = 8; } map<string, int32> m = 9; optional bool p = 10; sint32 s = 11; map<uint32, T> n = 12;
/// repeated string u = 13; repeated sint32 v = 14 [packed = false]; bytes w = 15; float g = 16; E k = 17;
/// oneof q { fixed64 f = 18; } repeated T r = 19; message N { string z = 1; } N l = 20; }
pub(crate) fn sample(alloc: Global) -> Result<Schema, Fail> {
    sample_in(alloc, "a.b", "a.b.T")
}

/// A type of the same declarations in a package of this name.
pub(crate) fn sample_in(alloc: Global, package: &str, name: &str) -> Result<Schema, Fail> {
    typed(
        pool_of(alloc, &[("t.proto", package, false)], TYPES, ENUMS)?,
        name,
    )
}

/// Of a proto2 file: enum E { TWO = 2; ONE = 1; NEG = -1; } message Q { optional int32 a = 1; repeated int32 e = 2;
/// optional group G = 3 { optional int32 x = 1; optional E k = 2; optional Q c = 3; } optional E k = 4; repeated E l = 5 [packed = true];
/// oneof o { E m = 6; group V = 7 { optional int32 x = 1; optional E k = 2; optional Q c = 3; } E n = 8; }
/// repeated group W = 19 { optional int32 x = 1; optional E k = 2; optional Q c = 3; } }
pub(crate) fn closed_sample(alloc: Global) -> Result<Schema, Fail> {
    typed(
        pool_of(alloc, &[("t.proto", "", true)], CLOSED_TYPES, CLOSED_ENUMS)?,
        "Q",
    )
}

fn typed(pool: Pool, name: &str) -> Result<Schema, Fail> {
    let kind = pool.message_by_name(name).ok_or("no type")?;
    Ok(Schema { pool, kind })
}

const TYPES: &[TypeRow] = &[
    ("T", 0, None, FIELDS_OF_T, &["o", "q"]),
    ("N", 0, Some(MessageId(0)), FIELDS_OF_N, &[]),
];

const CLOSED_TYPES: &[TypeRow] = &[
    ("Q", 0, None, FIELDS_OF_Q, &["o"]),
    ("G", 0, Some(MessageId(0)), FIELDS_OF_G, &[]),
    ("V", 0, Some(MessageId(0)), FIELDS_OF_G, &[]),
    ("W", 0, Some(MessageId(0)), FIELDS_OF_G, &[]),
];

const ENUMS: &[EnumRow] = &[("E", 0, &[("Z", 0), ("NEG", -1)])];

const CLOSED_ENUMS: &[EnumRow] = &[("E", 0, &[("TWO", 2), ("ONE", 1), ("NEG", -1)])];

const T: Kind = Kind::Message(MessageId(0));

const E: Kind = Kind::ClosedEnum(EnumId(0));

const FIELDS_OF_T: &[FieldRow] = &[
    ("a", 1, Kind::Int32, Shape::Implicit),
    ("b", 2, Kind::Text, Shape::Implicit),
    ("c", 3, T, Shape::Explicit),
    ("d", 4, Kind::Double, Shape::Implicit),
    ("e", 6, Kind::Int32, PACKED),
    ("x", 7, Kind::Uint32, Shape::OneofMember(0)),
    ("y", 8, T, Shape::OneofMember(0)),
    ("m", 9, Kind::Int32, Shape::Map { key: Kind::Text }),
    ("p", 10, Kind::Bool, Shape::Explicit),
    ("s", 11, Kind::Sint32, Shape::Implicit),
    ("n", 12, T, Shape::Map { key: Kind::Uint32 }),
    ("u", 13, Kind::Text, UNPACKED),
    ("v", 14, Kind::Sint32, UNPACKED),
    ("w", 15, Kind::Bytes, Shape::Implicit),
    ("g", 16, Kind::Float, Shape::Implicit),
    ("k", 17, Kind::Enum(EnumId(0)), Shape::Implicit),
    ("f", 18, Kind::Fixed64, Shape::OneofMember(1)),
    ("r", 19, T, UNPACKED),
    ("l", 20, Kind::Message(MessageId(1)), Shape::Explicit),
];

const FIELDS_OF_N: &[FieldRow] = &[("z", 1, Kind::Text, Shape::Implicit)];

const FIELDS_OF_Q: &[FieldRow] = &[
    ("a", 1, Kind::Int32, Shape::Explicit),
    ("e", 2, Kind::Int32, UNPACKED),
    ("g", 3, Kind::Group(MessageId(1)), Shape::Explicit),
    ("k", 4, E, Shape::Explicit),
    ("l", 5, E, PACKED),
    ("m", 6, E, Shape::OneofMember(0)),
    ("v", 7, Kind::Group(MessageId(2)), Shape::OneofMember(0)),
    ("n", 8, E, Shape::OneofMember(0)),
    ("w", 19, Kind::Group(MessageId(3)), UNPACKED),
];

const FIELDS_OF_G: &[FieldRow] = &[
    ("x", 1, Kind::Int32, Shape::Explicit),
    ("k", 2, E, Shape::Explicit),
    ("c", 3, T, Shape::Explicit),
];
