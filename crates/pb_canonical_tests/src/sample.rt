//! The schema that the tests speak of. Of the proto3 file t.proto:
//!
//! enum E { Z = 0; NEG = -1; }
//! message T { int32 a = 1; string b = 2; T c = 3; double d = 4; repeated int32 e = 6; oneof o { uint32 x = 7; T y = 8; }
//! map<string, int32> m = 9; optional bool p = 10; sint32 s = 11; map<uint32, T> n = 12; }
//! message F { double d = 1; float f = 2; int64 i = 3; uint64 u = 4; int32 j = 5; fixed64 x = 6; fixed32 y = 7; bool b = 8;
//! string s = 9; bytes w = 10; uint32 v = 11; sfixed32 p = 12; sfixed64 q = 13; sint32 z = 14; sint64 t = 15; E e = 16; }
//! message M { map<int32, bool> a = 1; map<int64, string> b = 2; map<uint64, bytes> c = 3; map<sint32, E> d = 4;
//! map<sint64, M> e = 5; map<fixed32, float> f = 6; map<fixed64, double> g = 7; map<sfixed32, sint32> h = 8;
//! map<sfixed64, fixed64> i = 9; map<bool, sfixed32> j = 10; map<string, M> k = 11; }
//!
//! and of the proto2 file q.proto:
//!
//! enum C { ONE = 1; TWO = 2; }
//! message Q { optional C k = 1; optional group G = 2 { optional int32 x = 1; optional Q q = 2; }
//! oneof o { C c = 3; int32 i = 4; group H = 5 { optional int32 x = 1; optional Q q = 2; } string t = 6; Q n = 7; }
//! repeated C l = 8 [packed = true]; oneof p { int32 r = 9; bytes w = 10; } }
//! message L { repeated C a = 1; repeated group G = 2 { .. as in Q }; repeated string c = 3; repeated fixed64 d = 4;
//! repeated double e = 5 [packed = true]; repeated float f = 6 [packed = true]; repeated bool g = 7 [packed = true];
//! repeated L h = 8; repeated uint64 i = 9; repeated bytes j = 20; }

ghost use Rattle.std.specs.Prelude.{◌<◌, length};

use pb_canonical::is_canonical;
use pb_decode::{DecodeError, decode};
use pb_schema::{EnumId, Kind, MessageId, Pool, Shape};
use pb_test_types::{EnumRow, FIELDS_OF_T, FieldRow, FileRow, PACKED, TypeRow, UNPACKED, pool_of};
use pb_value::DynamicMessage;
use pb_wire::Limits;
use std::alloc::Global;
use std::test::Fail;

const E: Kind = Kind::Enum(EnumId(0));

const FIELDS_OF_F: &[FieldRow] = &[
    ("d", 1, Kind::Double, Shape::Implicit),
    ("f", 2, Kind::Float, Shape::Implicit),
    ("i", 3, Kind::Int64, Shape::Implicit),
    ("u", 4, Kind::Uint64, Shape::Implicit),
    ("j", 5, Kind::Int32, Shape::Implicit),
    ("x", 6, Kind::Fixed64, Shape::Implicit),
    ("y", 7, Kind::Fixed32, Shape::Implicit),
    ("b", 8, Kind::Bool, Shape::Implicit),
    ("s", 9, Kind::Text, Shape::Implicit),
    ("w", 10, Kind::Bytes, Shape::Implicit),
    ("v", 11, Kind::Uint32, Shape::Implicit),
    ("p", 12, Kind::Sfixed32, Shape::Implicit),
    ("q", 13, Kind::Sfixed64, Shape::Implicit),
    ("z", 14, Kind::Sint32, Shape::Implicit),
    ("t", 15, Kind::Sint64, Shape::Implicit),
    ("e", 16, E, Shape::Implicit),
];

const M: Kind = Kind::Message(MessageId(2));

const FIELDS_OF_M: &[FieldRow] = &[
    ("a", 1, Kind::Bool, Shape::Map { key: Kind::Int32 }),
    ("b", 2, Kind::Text, Shape::Map { key: Kind::Int64 }),
    ("c", 3, Kind::Bytes, Shape::Map { key: Kind::Uint64 }),
    ("d", 4, E, Shape::Map { key: Kind::Sint32 }),
    ("e", 5, M, Shape::Map { key: Kind::Sint64 }),
    ("f", 6, Kind::Float, Shape::Map { key: Kind::Fixed32 }),
    ("g", 7, Kind::Double, Shape::Map { key: Kind::Fixed64 }),
    (
        "h",
        8,
        Kind::Sint32,
        Shape::Map {
            key: Kind::Sfixed32,
        },
    ),
    (
        "i",
        9,
        Kind::Fixed64,
        Shape::Map {
            key: Kind::Sfixed64,
        },
    ),
    ("j", 10, Kind::Sfixed32, Shape::Map { key: Kind::Bool }),
    ("k", 11, M, Shape::Map { key: Kind::Text }),
];

const C: Kind = Kind::ClosedEnum(EnumId(1));

const Q: Kind = Kind::Message(MessageId(3));

const L: Kind = Kind::Message(MessageId(6));

const FIELDS_OF_Q: &[FieldRow] = &[
    ("k", 1, C, Shape::Explicit),
    ("g", 2, Kind::Group(MessageId(4)), Shape::Explicit),
    ("c", 3, C, Shape::OneofMember(0)),
    ("i", 4, Kind::Int32, Shape::OneofMember(0)),
    ("h", 5, Kind::Group(MessageId(5)), Shape::OneofMember(0)),
    ("t", 6, Kind::Text, Shape::OneofMember(0)),
    ("n", 7, Q, Shape::OneofMember(0)),
    ("l", 8, C, PACKED),
    ("r", 9, Kind::Int32, Shape::OneofMember(1)),
    ("w", 10, Kind::Bytes, Shape::OneofMember(1)),
];

const FIELDS_OF_L: &[FieldRow] = &[
    ("a", 1, C, UNPACKED),
    ("g", 2, Kind::Group(MessageId(7)), UNPACKED),
    ("c", 3, Kind::Text, UNPACKED),
    ("d", 4, Kind::Fixed64, UNPACKED),
    ("e", 5, Kind::Double, PACKED),
    ("f", 6, Kind::Float, PACKED),
    ("b", 7, Kind::Bool, PACKED),
    ("h", 8, L, UNPACKED),
    ("i", 9, Kind::Uint64, UNPACKED),
    ("j", 20, Kind::Bytes, UNPACKED),
];

const FIELDS_OF_G: &[FieldRow] = &[
    ("x", 1, Kind::Int32, Shape::Explicit),
    ("q", 2, Q, Shape::Explicit),
];

const TYPES: &[TypeRow] = &[
    ("T", 0, None, FIELDS_OF_T, &["o"]),
    ("F", 0, None, FIELDS_OF_F, &[]),
    ("M", 0, None, FIELDS_OF_M, &[]),
    ("Q", 1, None, FIELDS_OF_Q, &["o", "p"]),
    ("G", 1, Some(MessageId(3)), FIELDS_OF_G, &[]),
    ("H", 1, Some(MessageId(3)), FIELDS_OF_G, &[]),
    ("L", 1, None, FIELDS_OF_L, &[]),
    ("G", 1, Some(MessageId(6)), FIELDS_OF_G, &[]),
];

const FILES: &[FileRow<'static>] = &[("t.proto", "", false), ("q.proto", "", true)];

const ENUMS: &[EnumRow] = &[
    ("E", 0, &[("Z", 0), ("NEG", -1)]),
    ("C", 1, &[("ONE", 1), ("TWO", 2)]),
];

/// A pool and a message type of it.
#[derive(Drop)]
pub(crate) struct Schema {
    pub(crate) alloc: Global,
    pub(crate) pool: Pool,
    pub(crate) kind: MessageId,
    ghost there: { kind.0 < length pool.messages },
}

impl Schema {
    pub(crate) fn is_canonical(&self, bytes: &[u8]) -> bool {
        is_canonical(&self.pool, self.kind, bytes)
    }

    pub(crate) fn decode<'p>(&'p self, bytes: &[u8]) -> Result<DynamicMessage<'p>, DecodeError> {
        decode(self.alloc, &self.pool, self.kind, bytes, Limits::FULL)
    }
}

/// The type of a name.
pub(crate) fn sample(alloc: Global, name: &str) -> Result<Schema, Fail> {
    let pool = pool_of(alloc, FILES, TYPES, ENUMS)?;
    let kind = pool.message_by_name(name).ok_or("no type")?;
    Ok(Schema { alloc, pool, kind })
}
