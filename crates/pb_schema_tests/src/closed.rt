//! Groups and closed enums: their kinds, the wire types that fit their fields, and which numbers an enum declares.

use super::pools::are_only_fit;
use super::rows::pool_of;
use pb_schema::{EnumId, Kind, MessageId, Pool};
use std::test::Fail;

/// A kind, and whether only files of proto2 have it.
const KINDS: &[(Kind, bool)] = &[
    (Kind::Group(MessageId(0)), true),
    (Kind::ClosedEnum(EnumId(0)), true),
    (Kind::Message(MessageId(0)), false),
    (Kind::Enum(EnumId(0)), false),
    (Kind::Int32, false),
    (Kind::Bytes, false),
    (Kind::Fixed64, false),
];

#[test]
fn kinds_of_proto2(rt: HostRuntime) {
    for (kind, is_of_proto2) in KINDS {
        assert!(rt; kind.is_of_proto2() == *is_of_proto2, "{kind:?}");
    }
}

/// A group is neither packed nor a key, and a closed enum is as an open one.
#[test]
fn tables_of_kinds(rt: HostRuntime) {
    let group = Kind::Group(MessageId(0));
    let closed = Kind::ClosedEnum(EnumId(0));
    assert!(rt;
        group.wire_type() == 3
            && !group.is_packable()
            && !group.is_key_kind()
            && closed.wire_type() == 0
            && closed.is_packable()
            && !closed.is_key_kind()
    );
}

/// An enum whose numbers rise by one, one with gaps below zero and above, one with two values of a number, one whose numbers are in no order,
/// and an open one.
const ENUMS: &str = "
proto2 q.proto -
file r.proto -
message Q 0 -
oneof o
field g 1 group:0 explicit
field h 2 group:0 list
field i 3 group:0 oneof:0
field k 4 closed:0 explicit
field l 5 closed:0 packed
field m 6 closed:0 list
enum A 0 -
value A1 1
value A2 2
value A3 3
enum B 0 -
value B1 -7
value B2 -1
value B3 4
enum C 0 -
value C1 5
value C2 5
value C3 6
value C4 5
value C5 8
enum D 0 -
value D1 3
value D2 2147483647
value D3 1
value D4 -2147483648
value D5 2
enum E 1 -
value E1 0
value E2 9
";

/// An enum by its index, and numbers that it declares.
const DECLARED: &[(usize, &[i32])] = &[
    (0, &[1, 2, 3]),
    (1, &[-7, -1, 4]),
    (2, &[5, 6, 8]),
    (3, &[1, 2, 3, i32::MAX, i32::MIN]),
    (4, &[0, 9]),
];

/// Numbers that it does not declare. An index that is out of range declares none.
const UNDECLARED: &[(usize, &[i32])] = &[
    (0, &[0, 4, -1, -2, i32::MAX, i32::MIN]),
    (1, &[-8, -6, -4, -2, 0, 1, 3, 5, 7]),
    (2, &[4, 7, 9, -5, 0]),
    (3, &[0, 4, 5, -1, -2, -3, 2_147_483_646, -2_147_483_647]),
    (4, &[1, 8, 10, -9]),
    (5, &[0, 1]),
    (usize::MAX, &[0, 1]),
];

fn each_is(pool: &Pool, rows: &[(usize, &[i32])], wanted: bool) -> bool {
    for (index, numbers) in rows {
        for number in numbers.iter() {
            if pool.declares(EnumId(*index), *number) != wanted {
                return false;
            }
        }
    }
    true
}

#[test]
fn declared_numbers(rt: HostRuntime) -> Result<(), Fail> {
    let pool = pool_of(rt.alloc(), ENUMS)?;
    assert!(rt; each_is(&pool, DECLARED, true) && each_is(&pool, UNDECLARED, false));
    Ok(())
}

/// A field, and the wire types that fit it: a group's is its own alone, and which numbers are declared is not asked.
const FITTING: &[(u32, (u8, u8))] = &[
    (1, (3, 3)),
    (2, (3, 3)),
    (3, (3, 3)),
    (4, (0, 0)),
    (5, (0, 2)),
    (6, (0, 2)),
];

#[test]
fn records_that_fit(rt: HostRuntime) -> Result<(), Fail> {
    let pool = pool_of(rt.alloc(), ENUMS)?;
    assert!(rt; are_only_fit(&pool, "Q", FITTING));
    Ok(())
}
