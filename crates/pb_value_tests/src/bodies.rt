//! Which bodies are messages.

use super::sample::Schema;
use pb_test_types::body_of;
use pb_value::ValueError;
use std::alloc::Global;
use std::test::Fail;

/// A row: why the body is refused, or `good`, and the body.
const KINDS_AND_SHAPES: &str = "
good
good 1:i5 2:tx 4:F1
good 6:[i0,i-1]
good 13:[t,tx]
good 15:xff
good 16:f2147483648
good 17:e7
NoSuchField 99:i5
NoSuchField 0:i5
WrongKind 1:tx
WrongKind 1:I5
WrongKind 3:tx
WrongKind 2:n0
WrongKind 2:x78
WrongKind 6:[i1,tx]
WrongShape 6:i5
WrongKind 6:tx
WrongShape 1:[i5]
WrongShape 1:[]
WrongShape 1:{}
";

/// What a part holds is judged by its own type.
const PARTS: &str = "
good 20:n0
WrongKind 20:m1=i5
NoSuchField 20:n1
";

const DEFAULTS: &str = "
DefaultStored 1:i0
DefaultStored 2:t
DefaultStored 4:F0
DefaultStored 15:x
DefaultStored 16:f0
DefaultStored 17:e0
DefaultStored 6:[]
DefaultStored 9:{}
DefaultStored 3:m1=i0
DefaultStored 19:[m1=i1,m1=i0]
DefaultStored 12:{u0=m1=i0}
good 4:F9223372036854775808
good 10:b0
good 7:u0
good 3:n0
good 9:{t=i0}
";

const MAPS_AND_ONEOFS: &str = "
good 9:{tk=i7,tl=i8}
good 12:{u9=n0}
WrongKind 9:{i1=i7}
WrongKind 9:{tk=tv}
WrongKind 12:{i9=n0}
WrongKind 12:{b1=n0}
good 7:u5 18:U5
TwoMembers 7:u5 8:n0
";

/// Records of no field, of a field's number and a wire type that does not fit it, and others. The first one is reported.
const UNKNOWN_RECORDS: &str = "
good 99~v5 5~d1 99~w1
good 536870911~xff
good 1~x 1~g1 4~w1
good 9~v5 6~d5 13~v5
good 99~a1
NoSuchField 0~v5
NoSuchField 536870912~v5
NoSuchField 99~a0
NoSuchField 1~a536870912
KnownAsUnknown 1~v5
KnownAsUnknown 99~v5 1~v5
KnownAsUnknown 6~v5
KnownAsUnknown 6~x
KnownAsUnknown 14~x
KnownAsUnknown 4~d5
KnownAsUnknown 16~w5
KnownAsUnknown 9~x
KnownAsUnknown 3~x
KnownAsUnknown 1~v5 0~v5
NoSuchField 0~v5 1~v5
";

/// Of two causes the one at the lower number is reported, at one number the least, a part's after the field's own, and the
/// depth last.
const FIRST_CAUSE: &str = "
DefaultStored 1:i0 2:i5
WrongKind 2:i5 6:[]
DefaultStored 6:[] 99:i5
WrongKind 6:{i1=tx}
WrongKind 7:u5 8:tx
WrongShape 7:u5 8:[]
TwoMembers 7:u5 8:m1=i0
WrongKind 3:n101 9:tx
DefaultStored 1:i0 0~v5
KnownAsUnknown 3:n100 1~v5
";

/// A message, a map entry and a group are one level each, and a message in a map is at its entry's level.
const LEVELS: &str = "
good 3:n99
TooDeep 3:n100
good 19:[n0,n99]
TooDeep 19:[n0,n100]
good 12:{u1=n99}
TooDeep 12:{u1=n100}
good 1~g100
TooDeep 1~g101
";

pub(crate) const TABLES: &[&str] = &[
    KINDS_AND_SHAPES,
    PARTS,
    DEFAULTS,
    MAPS_AND_ONEOFS,
    UNKNOWN_RECORDS,
    FIRST_CAUSE,
    LEVELS,
];

/// Values of closed enums, in each shape: a number that is not declared is refused, and zero is as any other.
const DECLARED: &str = "
good 4:e1
good 4:e-1
good 1:i0 4:e2 5:[e1,e2,e1,e-1]
good 6:e1
good 8:e2
NoSuchValue 4:e7
NoSuchValue 4:e0
NoSuchValue 4:e-2147483648
NoSuchValue 5:[e1,e7,e2]
NoSuchValue 5:[e7]
NoSuchValue 6:e7
NoSuchValue 3:m2=e7
NoSuchValue 3:n1.4=e7
NoSuchValue 7:m2=e0
NoSuchValue 19:[n0,m2=e7]
good 19:[n0,m2=e-1,m1=i0]
WrongKind 4:i1
WrongKind 5:[e7,i1]
WrongShape 4:[e7]
WrongShape 5:e7
DefaultStored 5:[]
TwoMembers 6:e1 8:e7
NoSuchValue 6:e7 8:e1
NoSuchValue 4:e7 5:[]
DefaultStored 2:[] 4:e7
NoSuchValue 3:n101 4:e7
NoSuchValue 4:e7 0~v5
";

/// Groups hold messages of their types, one level down.
const GROUPS: &str = "
good 3:n0
good 3:m1=i0
good 7:m1=i5
good 19:[n0,m1=i1,n2]
WrongKind 3:i5
WrongKind 3:m1=tx
NoSuchField 3:m4=e1
WrongShape 3:[n0]
WrongShape 19:n0
DefaultStored 19:[]
TwoMembers 6:e1 7:n0
good 3:n99
TooDeep 3:n100
good 19:[n99]
TooDeep 19:[n100]
NoSuchValue 3:n100.2=e7
";

/// An undeclared number may be kept as an unknown record, and no bytes at a closed list may. A group at a group's field is known.
const CLOSED_RECORDS: &str = "
good 4~v7
good 4~v0
good 4~v4294967303
good 4~v18446744073709551614
good 5~v7 5~v9
good 6~v7 8~v0
good 4:e1 4~v7 4~v8
KnownAsUnknown 4~v1
KnownAsUnknown 4~v4294967297
KnownAsUnknown 4~v4294967295
KnownAsUnknown 4~v18446744073709551615
KnownAsUnknown 5~v2
KnownAsUnknown 6~v1
KnownAsUnknown 4~v7 4~v2
KnownAsUnknown 5~x
KnownAsUnknown 5~x07
KnownAsUnknown 5~x0102
good 4~x07 6~x01
good 4~d1 5~w1 5~g1
good 3~x0805 3~v5
KnownAsUnknown 3~g1
KnownAsUnknown 7~g2
KnownAsUnknown 19~a1
good 1~g1 4~g1
KnownAsUnknown 3:n100 4~v1
TooDeep 3:n100 4~v7
";

pub(crate) const CLOSED_TABLES: &[&str] = &[DECLARED, GROUPS, CLOSED_RECORDS];

/// Whether a body is judged as its row says. One that is a message stays as it is.
pub(crate) fn is_told(alloc: Global, schema: &Schema, row: &str) -> Result<bool, Fail> {
    let (told, words) = row.split_once(' ').unwrap_or((row, ""));
    match schema.made(alloc, body_of(alloc, words)?) {
        Ok(message) => Ok(told == "good" && message.into_body() == body_of(alloc, words)?),
        Err(ValueError::Memory) => Err(Fail::new("no memory")),
        Err(cause) => Ok(cause.name() == told),
    }
}
