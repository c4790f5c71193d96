//! The schema that the tests speak of:
//!
//! enum E { Z = 0; NEG = -1; }
//! message T { int32 a = 1; string b = 2; T c = 3; double d = 4; repeated int32 e = 6; oneof o { uint32 x = 7; T y = 8; }
//! map<string, int32> m = 9; optional bool p = 10; sint32 s = 11; map<uint32, T> n = 12; }
//! message F { int32 a = 1; string b = 2; double d = 4; repeated int32 e = 6; optional bool p = 10; sint32 s = 11;
//! repeated string u = 13; repeated sint32 v = 14 [packed = false]; bytes w = 15; float g = 16; E k = 17;
//! repeated fixed32 h = 18; }
//!
//! and of the proto2 file q.proto:
//!
//! enum C { ONE = 1; TWO = 2; }
//! message Q { optional int32 a = 1; repeated int32 e = 2; optional group G = 3 { optional int32 x = 1; } optional C k = 4;
//! repeated C l = 5 [packed = true]; }
//! message R { repeated group H = 1 { optional R r = 1; optional int32 x = 2; optional group W = 3 { optional int32 x = 1; optional C k = 2;
//! repeated group Y = 3 { optional int32 x = 1; } optional string t = 5; map<int32, int32> m = 6; } }
//! oneof o { group V = 3 { optional int32 x = 1; } int32 y = 4; C z = 7; }
//! repeated C l = 5; map<int32, R> m = 6; }
//! message N { }
//! message S { repeated S s = 1; repeated fixed32 h = 2; repeated double d = 3; }

ghost use Rattle.std.specs.Prelude.{◌<◌, length};

use pb_decode::{DecodeError, PushDecoder, decode, validate};
use pb_decode_parts::NoMemory;
use pb_decode_whole::build;
use pb_schema::{EnumId, Kind, MessageId, Pool, Shape};
use pb_test_types::{
    EnumRow, FIELDS_OF_F, FIELDS_OF_T, FieldRow, FileRow, PACKED, TypeRow, UNPACKED, pool_of,
};
use pb_value::DynamicMessage;
use pb_wire::Limits;
use std::alloc::Global;
use std::test::Fail;

const C: Kind = Kind::ClosedEnum(EnumId(1));

const G: Kind = Kind::Group(MessageId(3));

const R: MessageId = MessageId(4);

const H: Kind = Kind::Group(MessageId(5));

const W: Kind = Kind::Group(MessageId(6));

const Y: Kind = Kind::Group(MessageId(7));

const V: Kind = Kind::Group(MessageId(8));

const FIELDS_OF_Q: &[FieldRow] = &[
    ("a", 1, Kind::Int32, Shape::Explicit),
    ("e", 2, Kind::Int32, UNPACKED),
    ("g", 3, G, Shape::Explicit),
    ("k", 4, C, Shape::Explicit),
    ("l", 5, C, PACKED),
];

const FIELDS_OF_G: &[FieldRow] = &[("x", 1, Kind::Int32, Shape::Explicit)];

const FIELDS_OF_R: &[FieldRow] = &[
    ("h", 1, H, UNPACKED),
    ("v", 3, V, Shape::OneofMember(0)),
    ("y", 4, Kind::Int32, Shape::OneofMember(0)),
    ("l", 5, C, UNPACKED),
    ("m", 6, Kind::Message(R), Shape::Map { key: Kind::Int32 }),
    ("z", 7, C, Shape::OneofMember(0)),
];

const FIELDS_OF_H: &[FieldRow] = &[
    ("r", 1, Kind::Message(R), Shape::Explicit),
    ("x", 2, Kind::Int32, Shape::Explicit),
    ("w", 3, W, Shape::Explicit),
];

const FIELDS_OF_W: &[FieldRow] = &[
    ("x", 1, Kind::Int32, Shape::Explicit),
    ("k", 2, C, Shape::Explicit),
    ("y", 3, Y, UNPACKED),
    ("t", 5, Kind::Text, Shape::Explicit),
    ("m", 6, Kind::Int32, Shape::Map { key: Kind::Int32 }),
];

const S: Kind = Kind::Message(MessageId(10));

const FIELDS_OF_S: &[FieldRow] = &[
    ("s", 1, S, UNPACKED),
    ("h", 2, Kind::Fixed32, UNPACKED),
    ("d", 3, Kind::Double, UNPACKED),
];

const TYPES: &[TypeRow] = &[
    ("T", 0, None, FIELDS_OF_T, &["o"]),
    ("F", 0, None, FIELDS_OF_F, &[]),
    ("Q", 1, None, FIELDS_OF_Q, &[]),
    ("G", 1, Some(MessageId(2)), FIELDS_OF_G, &[]),
    ("R", 1, None, FIELDS_OF_R, &["o"]),
    ("H", 1, Some(R), FIELDS_OF_H, &[]),
    ("W", 1, Some(MessageId(5)), FIELDS_OF_W, &[]),
    ("Y", 1, Some(MessageId(6)), FIELDS_OF_G, &[]),
    ("V", 1, Some(R), FIELDS_OF_G, &[]),
    ("N", 1, None, &[], &[]),
    ("S", 1, None, FIELDS_OF_S, &[]),
];

const FILES: &[FileRow<'static>] = &[("t.proto", "", false), ("q.proto", "", true)];

const ENUMS: &[EnumRow] = &[
    ("E", 0, &[("Z", 0), ("NEG", -1)]),
    ("C", 1, &[("ONE", 1), ("TWO", 2)]),
];

/// A pool and a message type of it.
#[derive(Drop)]
pub(crate) struct Schema {
    pub(crate) alloc: Global,
    pub(crate) pool: Pool,
    pub(crate) kind: MessageId,
    ghost there: { kind.0 < length pool.messages },
}

impl Schema {
    pub(crate) fn decoder(&self, limits: Limits) -> Result<PushDecoder<'_>, DecodeError> {
        PushDecoder::new(self.alloc, &self.pool, self.kind, limits)
    }

    pub(crate) fn decode<'p>(
        &'p self,
        bytes: &[u8],
        limits: Limits,
    ) -> Result<DynamicMessage<'p>, DecodeError> {
        decode(self.alloc, &self.pool, self.kind, bytes, limits)
    }

    pub(crate) fn build<'p>(
        &'p self,
        bytes: &[u8],
        limits: Limits,
    ) -> Result<DynamicMessage<'p>, NoMemory> {
        build(self.alloc, &self.pool, self.kind, bytes, limits)
    }

    pub(crate) fn validate(&self, bytes: &[u8], limits: Limits) -> Result<(), DecodeError> {
        validate(self.alloc, &self.pool, self.kind, bytes, limits)
    }
}

/// The type of a name.
pub(crate) fn sample(alloc: Global, name: &str) -> Result<Schema, Fail> {
    let pool = pool_of(alloc, FILES, TYPES, ENUMS)?;
    let kind = pool.message_by_name(name).ok_or("no type")?;
    Ok(Schema { alloc, pool, kind })
}
