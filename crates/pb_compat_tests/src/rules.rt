//! Each rule that breaks reading, but for the kinds and shapes of the table: a message of the old type whose bytes the new type refuses or reads
//! otherwise.

use super::built::is_built;
use super::fields::{compare_first, pool_of};
use super::readings::reads_same;
use super::witnesses::has_break;
use pb_schema::Pool;
use std::alloc::Global;
use std::test::Fail;

/// The old fields, the new fields, the numbers of the old and of the new enum, and an encoding of a message of the old type.
type Witness = (
    &'static str,
    &'static str,
    &'static str,
    &'static str,
    &'static str,
);

const WITNESSES: &[Witness] = &[
    // fields that may both be set move into one oneof: the later one is left
    (
        "a 1 int32 i;b 2 int32 i",
        "a 1 int32 o;b 2 int32 o",
        "0",
        "0",
        "08011002",
    ),
    (
        "a 1 int32 o;b 2 int32 o1",
        "a 1 int32 o;b 2 int32 o",
        "0",
        "0",
        "08011002",
    ),
    (
        "a 1 int32 o;b 2 int32 o;c 3 int32 e",
        "a 1 int32 o;b 2 int32 o;c 3 int32 o",
        "0",
        "0",
        "08011803",
    ),
    // a number that the new enum does not declare becomes unknown
    ("a 1 closed e", "a 1 closed e", "1,2", "1", "0802"),
    ("a 1 closed u", "a 1 closed p", "1,2", "1", "08010802"),
    ("a 1 enum e", "a 1 closed e", "0", "0,1", "0802"),
    ("a 1 bool e", "a 1 closed e", "0", "1,2", "0800"),
    ("a 1 bool i", "a 1 closed e", "0", "0,2", "0801"),
    ("a 1 int32 e", "a 1 closed e", "0", "0,1", "0802"),
    // a number that the new kind does not hold
    ("a 1 closed e", "a 1 bool e", "0,2", "0", "0802"),
    (
        "a 1 closed e",
        "a 1 uint32 e",
        "0,-2",
        "0",
        "08feffffffffffffffff01",
    ),
    ("a 1 closed e", "a 1 sint32 e", "0,2", "0", "0802"),
    // a packed list whose bytes are no whole elements of the new kind
    (
        "a 1 closed p",
        "a 1 sfixed64 p",
        "-1",
        "0",
        "0a0affffffffffffffffff01",
    ),
    (
        "a 1 closed p",
        "a 1 fixed32 p",
        "2097152",
        "0",
        "0a0480808001",
    ),
    // a key is cut, a map is no list, and a list no map
    (
        "a 1 string mint64",
        "a 1 string m",
        "0",
        "0",
        "0a09088080808010120161",
    ),
    (
        "a 1 string mstring",
        "a 1 message u",
        "0",
        "0",
        "0a060a0161120162",
    ),
    ("a 1 message u", "a 1 string m", "0", "0", "0a020801"),
    // two messages are merged into one, and of two numbers the last is left
    (
        "a 1 message u",
        "a 1 message e",
        "0",
        "0",
        "0a0208010a020802",
    ),
    ("a 1 int32 u", "a 1 int32 e", "0", "0", "08010802"),
    // bytes that are no message, and a message that is no group
    ("a 1 bytes e", "a 1 message e", "0", "0", "0a01ff"),
    ("a 1 message e", "a 1 group e", "0", "0", "0a020801"),
    ("a 1 group e", "a 1 message e", "0", "0", "0b08010c"),
];

/// Whether field 1 is reported to break, and is refused or read otherwise, also in the message that the library builds.
fn shows(alloc: Global, old: &Pool, new: &Pool, encoding: &str) -> Result<bool, Fail> {
    let bytes = hex::decode(alloc, encoding)?;
    let compared = compare_first(alloc, old, new)?;
    Ok(
        has_break(&compared)
            && !reads_same(alloc, old, new, &bytes, 1)?
            && is_built(alloc, old, new)?,
    )
}

fn is_shown(alloc: Global, witness: &Witness) -> Result<bool, Fail> {
    let (old_fields, new_fields, old_numbers, new_numbers, encoding) = *witness;
    let old = pool_of(alloc, old_fields, old_numbers)?;
    let new = pool_of(alloc, new_fields, new_numbers)?;
    shows(alloc, &old, &new, encoding)
}

fn first_not_shown(alloc: Global) -> Result<Option<usize>, Fail> {
    for (index, witness) in WITNESSES.iter().enumerate() {
        if !is_shown(alloc, witness)? {
            return Ok(Some(index));
        }
    }
    Ok(None)
}

#[test]
fn each_rule(rt: HostRuntime) -> Result<(), Fail> {
    let wrong = first_not_shown(rt.alloc())?;
    assert!(rt; wrong.is_none(), "{wrong:?}");
    Ok(())
}
