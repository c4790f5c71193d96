//! The schema that the tests speak of:
//!
//! enum E { Z = 0; NEG = -1; }
//! message T { int32 a = 1; string b = 2; T c = 3; double d = 4; repeated int32 e = 6; oneof o { uint32 x = 7; T y = 8; }
//! map<string, int32> m = 9; optional bool p = 10; sint32 s = 11; map<uint32, T> n = 12; }
//! message F { int32 a = 1; string b = 2; double d = 4; repeated int32 e = 6; optional bool p = 10; sint32 s = 11;
//! repeated string u = 13; repeated sint32 v = 14 [packed = false]; bytes w = 15; float g = 16; E k = 17;
//! repeated fixed32 h = 18; }
//! message W { int64 a = 1; uint64 b = 2; sint64 c = 3; fixed64 d = 4; sfixed32 e = 5; sfixed64 f = 6; fixed32 g = 7;
//! uint32 h = 8; bool i = 9; repeated bool j = 10; repeated double k = 11; repeated sint64 l = 12; repeated bytes m = 13;
//! repeated E n = 14; map<bool, string> o = 15; map<sint32, bool> p = 16; map<fixed64, bytes> q = 17; repeated T r = 18;
//! map<string, E> s = 19; map<int64, float> t = 20; optional string v = 22; repeated float u = 536870911; }
//!
//! and of a proto2 file:
//!
//! enum C { TWO = 2; ONE = 1; MINUS = -1; }
//! message Q { optional int32 a = 1; repeated int32 e = 2; optional group G = 3 { optional int32 x = 1; optional C k = 2; optional Q c = 3; }
//! optional C k = 4; repeated C l = 5 [packed = true]; oneof o { C m = 6; group V = 536870911 { optional int32 x = 1; } }
//! repeated C r = 9; map<int32, Q> p = 10; repeated group H = 16 { optional int32 x = 1; optional C k = 2; optional Q c = 3; } }

use pb_schema::{EnumId, Kind, MessageId, Pool, Shape};
use pb_test_types::{
    EnumRow, FIELDS_OF_F, FIELDS_OF_T, FieldRow, FileRow, PACKED, TypeRow, UNPACKED, pool_of,
};
use std::alloc::Global;
use std::test::Fail;

const T: Kind = Kind::Message(MessageId(0));

const E: Kind = Kind::Enum(EnumId(0));

const C: Kind = Kind::ClosedEnum(EnumId(1));

const Q: MessageId = MessageId(3);

const FIELDS_OF_W: &[FieldRow] = &[
    ("a", 1, Kind::Int64, Shape::Implicit),
    ("b", 2, Kind::Uint64, Shape::Implicit),
    ("c", 3, Kind::Sint64, Shape::Implicit),
    ("d", 4, Kind::Fixed64, Shape::Implicit),
    ("e", 5, Kind::Sfixed32, Shape::Implicit),
    ("f", 6, Kind::Sfixed64, Shape::Implicit),
    ("g", 7, Kind::Fixed32, Shape::Implicit),
    ("h", 8, Kind::Uint32, Shape::Implicit),
    ("i", 9, Kind::Bool, Shape::Implicit),
    ("j", 10, Kind::Bool, PACKED),
    ("k", 11, Kind::Double, PACKED),
    ("l", 12, Kind::Sint64, PACKED),
    ("m", 13, Kind::Bytes, UNPACKED),
    ("n", 14, E, PACKED),
    ("o", 15, Kind::Text, Shape::Map { key: Kind::Bool }),
    ("p", 16, Kind::Bool, Shape::Map { key: Kind::Sint32 }),
    ("q", 17, Kind::Bytes, Shape::Map { key: Kind::Fixed64 }),
    ("r", 18, T, UNPACKED),
    ("s", 19, E, Shape::Map { key: Kind::Text }),
    ("t", 20, Kind::Float, Shape::Map { key: Kind::Int64 }),
    ("v", 22, Kind::Text, Shape::Explicit),
    ("u", 536_870_911, Kind::Float, PACKED),
];

const FIELDS_OF_Q: &[FieldRow] = &[
    ("a", 1, Kind::Int32, Shape::Explicit),
    ("e", 2, Kind::Int32, UNPACKED),
    ("g", 3, Kind::Group(MessageId(4)), Shape::Explicit),
    ("k", 4, C, Shape::Explicit),
    ("l", 5, C, PACKED),
    ("m", 6, C, Shape::OneofMember(0)),
    ("r", 9, C, UNPACKED),
    ("p", 10, Kind::Message(Q), Shape::Map { key: Kind::Int32 }),
    ("h", 16, Kind::Group(MessageId(5)), UNPACKED),
    (
        "v",
        536_870_911,
        Kind::Group(MessageId(6)),
        Shape::OneofMember(0),
    ),
];

const FIELDS_OF_G: &[FieldRow] = &[
    ("x", 1, Kind::Int32, Shape::Explicit),
    ("k", 2, C, Shape::Explicit),
    ("c", 3, Kind::Message(Q), Shape::Explicit),
];

const FIELDS_OF_V: &[FieldRow] = &[("x", 1, Kind::Int32, Shape::Explicit)];

const TYPES: &[TypeRow] = &[
    ("T", 0, None, FIELDS_OF_T, &["o"]),
    ("F", 0, None, FIELDS_OF_F, &[]),
    ("W", 0, None, FIELDS_OF_W, &[]),
    ("Q", 1, None, FIELDS_OF_Q, &["o"]),
    ("G", 1, Some(Q), FIELDS_OF_G, &[]),
    ("H", 1, Some(Q), FIELDS_OF_G, &[]),
    ("V", 1, Some(Q), FIELDS_OF_V, &[]),
];

const FILES: &[FileRow<'static>] = &[("t.proto", "", false), ("q.proto", "", true)];

const ENUMS: &[EnumRow] = &[
    ("E", 0, &[("Z", 0), ("NEG", -1)]),
    ("C", 1, &[("TWO", 2), ("ONE", 1), ("MINUS", -1)]),
];

pub(crate) fn pool(alloc: Global) -> Result<Pool, Fail> {
    Ok(pool_of(alloc, FILES, TYPES, ENUMS)?)
}
