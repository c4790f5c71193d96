//! Parts that meet all rules, and for each rule the same parts with the least change that breaks it.

use super::rows::{changed_pool, pool_of};
use pb_schema::{EnumId, MessageId, Pool, PoolError};
use std::alloc::Global;
use std::test::Fail;

/// Two files, of which the second imports the first. M, with N in it, is in the first, and P, R and S in the second. P uses M.
const USUAL: &str = "
file a.proto a.b
file b.proto - 0
message M 0 -
oneof o
oneof z
field x 1 int32 implicit
field y 2 uint32 oneof:0
field m_ap 3 int32 map:string
field l 4 int32 packed
field n 5 message:1 explicit
field e 6 enum:0 implicit
field w 7 uint32 oneof:1
message N 0 0
message P 1 -
field q 1 message:0 explicit
message R 1 -
message S 1 -
enum E 0 1
value EZ 0
enum G 0 0
value GZ 0
value GY 0
enum H 0 -
value HZ 0
value HY -1
";

/// Whether the parts meet the rules, the line of the parts that is replaced, and the line in its place, with what it is.
const USUAL_CASES: &str = "
bad 1 file - a.b | no name
bad 1 file b.proto a.b | the name of another
bad 1 file a.proto a. | an empty part
bad 1 file a.proto a.1b | no word
bad 1 file a.proto a.b 2 | an import that is not there
bad 1 file a.proto a.b 0 | itself imported
bad 1 file a.proto a.b 1 | each imports the other
bad 1 file a.proto P.b | a package inside one with the name of a message
bad 1 file a.proto P | a package with the name of a message
bad 2 file b.proto - | a type of a file that is not reached
bad 3 message 1M 0 - | no word
bad 17 message S 2 - | a file that is not there
bad 13 message N 0 5 | a parent that is not there
bad 14 message P 1 0 | a parent in another file
bad 16 message R 1 4 | a parent that stands behind
bad 16 message R 1 3 | itself as parent
bad 17 message S 1 2 | behind another than its parent
bad 17 message S 0 - | by falling file
bad 17 message R 1 - | the name of another
bad 13 message MApEntry 0 0 | the name of an entry message
bad 17 message a 1 - | the name of a package
good 17 message M 1 - | the name of a message in a package
bad 6 field x 0 int32 implicit | no number
bad 6 field x 2 int32 implicit | the number of another
good 6 field x 18999 int32 implicit | below the numbers kept for implementations
bad 6 field x 19000 int32 implicit | the first of them
bad 6 field x 19999 int32 implicit | the last of them
good 6 field x 20000 int32 implicit | above them
good 6 field x 536870911 int32 implicit | the greatest number
bad 6 field x 536870912 int32 implicit | one more
bad 6 field x 4294967295 int32 implicit | far more
bad 6 field x. 1 int32 implicit | no word
bad 6 field - 1 int32 implicit | no name
bad 6 field y 1 int32 implicit | the name of another
bad 6 field N 1 int32 implicit | the name of a message
bad 6 field o 1 int32 implicit | the name of a oneof
bad 6 field GZ 1 int32 implicit | the name of a value
bad 6 field _1 1 int32 map:string | an entry name that is no word
bad 6 field x 1 int32 oneof:2 | a oneof that is not there
bad 6 field x 1 string packed | a packed text
bad 6 field x 1 message:0 packed | a packed message
bad 6 field x 1 message:0 implicit | an implicit message
bad 6 field x 1 message:5 explicit | a message that is not there
bad 6 field x 1 enum:3 implicit | an enum that is not there
bad 6 field x 1 message:2 explicit | a message that is not seen
bad 12 field w 7 uint32 implicit | a oneof without member
bad 5 oneof z- | no word
bad 5 oneof o | the name of another
good 8 field m_ap 3 int32 map:bool | a key
good 8 field m_ap 3 int32 map:sfixed64 | a key
good 8 field m_ap 3 int32 map:sint32 | a key
bad 8 field m_ap 3 int32 map:double | no key
bad 8 field m_ap 3 int32 map:float | no key
bad 8 field m_ap 3 int32 map:bytes | no key
bad 8 field m_ap 3 int32 map:enum:0 | no key
bad 8 field m_ap 3 int32 map:message:0 | no key
bad 23 enum H- 0 - | no word
bad 23 enum H 2 - | a file that is not there
bad 20 enum G 0 5 | a parent that is not there
bad 23 enum H 1 0 | a parent in another file
bad 18 enum E 0 - | outside messages, and not last
bad 18 enum E 1 - | by falling file
bad 23 enum M 0 - | the name of a message
bad 23 enum H 0 1 | behind the enum of the message around its own
bad 19 | no value
bad 24 value HZ 1 | a first value other than 0
bad 25 value H-Y 1 | no word
bad 25 value HZ 1 | the same name twice
bad 25 value M 1 | the name of a message
good 25 value GZ 1 | the name of a value in another scope
";

/// A file of proto2 between two of proto3, each of which imports the one before it.
const SYNTAXES: &str = "
file a.proto a
proto2 b.proto b 0
file c.proto c 1
message M 1 -
oneof o
field x 1 int32 explicit
field g 2 group:1 explicit
field e 3 closed:2 explicit
field l 4 closed:2 packed
field r 5 group:1 list
field y 6 group:1 oneof:0
field m 7 int32 map:string
field f 8 enum:0 explicit
message G 1 0
message P 2 -
field x 1 enum:3 implicit
field m 2 int32 map:string
field n 3 message:0 explicit
enum A 0 -
value ZERO 0
enum K 1 0
value FIVE 5
enum C 1 -
value TWO 2
value ONE 1
value ALSO_TWO 2
enum D 2 -
value FIRST 0
";

const SYNTAX_CASES: &str = "
bad 18 field n 3 group:0 explicit | a group in a proto3 file
bad 18 field n 3 closed:2 explicit | a closed enum in one
bad 17 field m 2 group:0 map:string | a map of groups in one
bad 18 field n 3 enum:2 explicit | an open enum that is of a proto2 file
bad 8 field e 3 enum:2 explicit | the same in that file
bad 8 field e 3 closed:0 explicit | a closed enum that is of a proto3 file
bad 12 field m 7 group:1 map:string | a map of groups
bad 12 field m 7 closed:2 map:string | a map of closed enums
good 12 field m 7 enum:0 map:string | a map of open enums
good 12 field m 7 message:1 map:string | a map of messages
bad 12 field m 7 int32 map:closed:2 | no key
bad 12 field m 7 int32 map:group:1 | no key
bad 6 field x 1 int32 implicit | an implicit field in a proto2 file
bad 8 field e 3 closed:2 implicit | an implicit closed enum
bad 7 field g 2 group:1 implicit | an implicit group
good 8 field e 3 closed:2 oneof:0 | a closed enum in a oneof
good 8 field e 3 closed:2 list | a list of closed enums that is not packed
bad 10 field r 5 group:1 packed | a packed group
bad 7 field g 2 group:3 explicit | a group that is not there
bad 8 field e 3 closed:4 explicit | an enum that is not there
bad 7 field g 2 group:2 explicit | a group that is not seen
good 7 field g 2 group:0 explicit | a group of the message that it stands in
bad 22 | a closed enum without a value
good 22 value FIVE 0 | a closed enum that begins at 0
good 22 value FIVE -2147483648 | at the least number
bad 20 value ZERO 5 | an open enum that begins elsewhere
bad 20 | an open enum without a value
bad 2 file b.proto b 0 | what stands in proto2 files in one of proto3
bad 3 proto2 c.proto c 1 | what stands in proto3 files in one of proto2
";

fn is_told(alloc: Global, rows: &str, case: &str) -> Result<bool, Fail> {
    let (change, _) = case.split_once('|').ok_or("no case")?;
    let (answer, change) = change.split_once(' ').ok_or("no answer")?;
    let (at, instead) = change.split_once(' ').ok_or("no line")?;
    let pool = changed_pool(alloc, rows, at.parse::<usize>()?, instead)?;
    Ok(pool.is_some() == (answer == "good"))
}

#[test]
fn rules(rt: HostRuntime) -> Result<(), Fail> {
    for case in USUAL_CASES.lines() {
        assert!(rt;
            case.is_empty() || is_told(rt.alloc(), USUAL, case)?,
            "{case}"
        );
    }
    Ok(())
}

#[test]
fn rules_of_syntaxes(rt: HostRuntime) -> Result<(), Fail> {
    for case in SYNTAX_CASES.lines() {
        assert!(rt;
            case.is_empty() || is_told(rt.alloc(), SYNTAXES, case)?,
            "{case}"
        );
    }
    Ok(())
}

const MESSAGES: &[&str] = &["a.b.M", "a.b.M.N", "P", "R", "S"];

const ENUMS: &[&str] = &["a.b.M.N.E", "a.b.M.G", "a.b.H"];

fn are_messages(pool: &Pool, names: &[&str]) -> bool {
    for (index, name) in names.iter().enumerate() {
        if pool.message_by_name(name) != Some(MessageId(index)) {
            return false;
        }
    }
    true
}

fn are_enums(pool: &Pool, names: &[&str]) -> bool {
    for (index, name) in names.iter().enumerate() {
        if pool.enum_by_name(name) != Some(EnumId(index)) {
            return false;
        }
    }
    true
}

/// A oneof of M by its index, and the numbers of its members. There are two.
const MEMBERS: &[(u32, &[u32])] = &[(0, &[2]), (1, &[7]), (2, &[]), (u32::MAX, &[])];

fn are_members(pool: &Pool) -> bool {
    let Some(message) = pool.message_by_name("a.b.M") else {
        return false;
    };
    for (oneof, numbers) in MEMBERS {
        if pool.oneof_members(message, *oneof) != *numbers {
            return false;
        }
    }
    true
}

#[test]
fn parts_that_meet_all_rules(rt: HostRuntime) -> Result<(), Fail> {
    let pool = pool_of(rt.alloc(), USUAL)?;
    assert!(rt; are_messages(&pool, MESSAGES) && are_enums(&pool, ENUMS) && are_members(&pool));
    Ok(())
}

/// Whether the pool is the same, the line of the parts that is replaced, and the line in its place.
const ALIKE_CASES: &str = "
same 1 file a.proto a.b
other 1 file c.proto a.b
other 2 file b.proto b 0
same 6 field x 1 int32 implicit
other 6 field xx 1 int32 implicit
other 6 field x 8 int32 implicit
other 6 field x 1 sint32 implicit
other 6 field x 1 int32 explicit
other 4 oneof oo
other 17 message T 1 -
other 17
same 25 value HY -1
other 25 value HX -1
other 25 value HY 1
other 25
other 23 enum K 0 -
other 23 enum H 1 -
";

/// Whether a case's pool is the same as this one, as the case says.
fn is_alike(alloc: Global, pool: &Pool, case: &str) -> Result<bool, Fail> {
    let (answer, change) = case.split_once(' ').ok_or("no answer")?;
    let (at, instead) = change.split_once(' ').unwrap_or((change, ""));
    let other = changed_pool(alloc, USUAL, at.parse::<usize>()?, instead)?;
    match other {
        Some(other) => Ok(pool.equals(&other) == (answer == "same")),
        None => Err(Fail::new("parts that break a rule")),
    }
}

/// The first case that is answered otherwise, or none.
fn first_unlike(alloc: Global, pool: &Pool) -> Result<Option<&'static str>, Fail> {
    for case in ALIKE_CASES.lines() {
        if !case.is_empty() && !is_alike(alloc, pool, case)? {
            return Ok(Some(case));
        }
    }
    Ok(None)
}

fn wrong_case(alloc: Global) -> Result<Option<&'static str>, Fail> {
    let pool = pool_of(alloc, USUAL)?;
    first_unlike(alloc, &pool)
}

#[test]
fn pools_that_hold_the_same(rt: HostRuntime) -> Result<(), Fail> {
    let wrong = wrong_case(rt.alloc())?;
    assert!(rt; wrong.is_none(), "{wrong:?}");
    Ok(())
}

#[test]
fn parts_of_both_syntaxes(rt: HostRuntime) -> Result<(), Fail> {
    let pool = pool_of(rt.alloc(), SYNTAXES)?;
    assert!(rt;
        are_messages(&pool, &["b.M", "b.M.G", "c.P"])
            && are_enums(&pool, &["a.A", "b.M.K", "b.C", "c.D"])
    );
    Ok(())
}

#[test]
fn refusals_by_number(rt: HostRuntime) {
    assert!(rt; PoolError::BadParts.number() == 34 && PoolError::Memory.number() == 35);
}
