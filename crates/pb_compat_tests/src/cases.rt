//! Worked cases: what the comparison reports of fields that are old, and of fields that are new.

use super::fields::{compare_first, pool_of};
use pb_compat::ComparedTypes;
use pb_schema::Pool;
use std::alloc::Global;
use std::test::Fail;

/// The old fields, the new fields, the numbers of the old and of the new enum, and the differences between the messages.
type Case = (
    &'static str,
    &'static str,
    &'static str,
    &'static str,
    &'static str,
);

const CASES: &[Case] = &[
    ("a 1 int32 i", "a 1 int32 i", "0", "0", ""),
    // removed, renamed, and both at another place
    (
        "a 1 int32 i;b 2 string i",
        "a 1 int32 i",
        "0",
        "0",
        "2 Loses",
    ),
    ("a 1 int32 i", "b 1 int32 i", "0", "0", "1 Renames"),
    (
        "a 1 int32 i",
        "b 1 string i",
        "0",
        "0",
        "1 BreaksReading 1 Renames",
    ),
    // by rising number, whatever the order of declaration
    (
        "b 9 int32 i;a 2 int32 i;c 5 int32 i",
        "x 7 int32 i",
        "0",
        "0",
        "2 Loses 5 Loses 9 Loses",
    ),
    // a field that is new is no difference
    ("a 1 int32 i", "a 1 int32 i;b 2 int32 i", "0", "0", ""),
    // presence
    ("a 1 int32 i", "a 1 int32 e", "0", "0", "1 ChangesPresence"),
    ("a 1 int32 e", "a 1 int32 i", "0", "0", "1 ChangesPresence"),
    ("a 1 int32 i", "a 1 int64 e", "0", "0", "1 ChangesPresence"),
    ("a 1 int32 e", "a 1 int32 o", "0", "0", "1 Converts"),
    // kinds and shapes that keep the value
    ("a 1 int32 i", "a 1 int64 i", "0", "0", "1 Converts"),
    ("a 1 int32 i", "a 1 int32 p", "0", "0", "1 Converts"),
    ("a 1 int32 u", "a 1 int32 p", "0", "0", ""),
    ("a 1 string i", "a 1 bytes i", "0", "0", "1 Converts"),
    // oneofs: two fields that may both be set, two of one oneof, and one beside a field that the new type has elsewhere
    (
        "a 1 int32 i;b 2 int32 i",
        "a 1 int32 o;b 2 int32 o",
        "0",
        "0",
        "1 BreaksReading 2 BreaksReading",
    ),
    (
        "a 1 int32 o;b 2 int32 o",
        "a 1 int32 o;b 2 int32 o",
        "0",
        "0",
        "",
    ),
    (
        "a 1 int32 o;b 2 int32 o1",
        "a 1 int32 o;b 2 int32 o",
        "0",
        "0",
        "1 BreaksReading 2 BreaksReading",
    ),
    (
        "a 1 int32 e;b 2 int32 e",
        "a 1 int32 o;b 2 int32 e;c 3 int32 o",
        "0",
        "0",
        "1 Converts",
    ),
    (
        "a 1 int32 o;b 2 int32 o",
        "a 1 int32 e;b 2 int32 o;c 3 int32 o",
        "0",
        "0",
        "1 Converts",
    ),
    (
        "a 1 int32 o;b 2 int32 o;c 3 int32 e",
        "a 1 int32 o;b 2 int32 o;c 3 int32 o",
        "0",
        "0",
        "1 BreaksReading 2 BreaksReading 3 BreaksReading",
    ),
    // closed enums: a number that is removed, one that is added, and what their numbers fit
    (
        "a 1 closed e",
        "a 1 closed e",
        "1,2",
        "1",
        "1 BreaksReading",
    ),
    ("a 1 closed e", "a 1 closed e", "1", "1,2", ""),
    ("a 1 closed e", "a 1 enum e", "1,2", "0", "1 Converts"),
    ("a 1 enum e", "a 1 closed e", "0", "0,1", "1 BreaksReading"),
    ("a 1 closed e", "a 1 bool e", "0,1", "0", "1 Converts"),
    ("a 1 closed e", "a 1 bool e", "0,2", "0", "1 BreaksReading"),
    ("a 1 closed e", "a 1 uint32 e", "0,2", "0", "1 Converts"),
    (
        "a 1 closed e",
        "a 1 uint32 e",
        "0,-2",
        "0",
        "1 BreaksReading",
    ),
    ("a 1 closed e", "a 1 sint32 e", "0", "0", "1 Converts"),
    ("a 1 bool e", "a 1 closed e", "0", "1,2", "1 BreaksReading"),
    ("a 1 bool e", "a 1 closed e", "0", "0,1", "1 Converts"),
    // with implicit presence false is not written
    (
        "a 1 bool i",
        "a 1 closed e",
        "0",
        "1,2",
        "1 ChangesPresence",
    ),
    ("a 1 bool i", "a 1 closed u", "0", "1", "1 Converts"),
    ("a 1 bool i", "a 1 closed e", "0", "0,2", "1 BreaksReading"),
    // open enums have all numbers of 32 bits
    ("a 1 enum i", "a 1 enum i", "0,1", "0", ""),
    // keys of maps
    ("a 1 string m", "a 1 string mint64", "0", "0", "1 Converts"),
    (
        "a 1 string mint64",
        "a 1 string m",
        "0",
        "0",
        "1 BreaksReading",
    ),
    ("a 1 string mbool", "a 1 bytes m", "0", "0", "1 Converts"),
    (
        "a 1 string mstring",
        "a 1 message u",
        "0",
        "0",
        "1 BreaksReading",
    ),
    // messages as bytes, and messages as groups
    ("a 1 message e", "a 1 bytes e", "0", "0", "1 Converts"),
    ("a 1 bytes e", "a 1 message e", "0", "0", "1 BreaksReading"),
    ("a 1 message e", "a 1 group e", "0", "0", "1 BreaksReading"),
    ("a 1 message e", "a 1 message u", "0", "0", "1 Converts"),
    (
        "a 1 message u",
        "a 1 message e",
        "0",
        "0",
        "1 BreaksReading",
    ),
];

/// The differences as words.
fn words(alloc: Global, types: &ComparedTypes) -> Result<String, Fail> {
    let mut text = String::new(alloc);
    for difference in &types.differences {
        if !text.is_empty() {
            text.push(' ')?;
        }
        let shown = format!(in alloc; "{} {:?}", difference.number, difference.severity)?;
        text.push_str(shown.as_str())?;
    }
    Ok(text)
}

/// The differences between the messages M of two pools, as words.
fn answer(alloc: Global, old: &Pool, new: &Pool) -> Result<String, Fail> {
    let compared = compare_first(alloc, old, new)?;
    match compared.first() {
        Some(types) => words(alloc, types),
        None => Ok(String::new(alloc)),
    }
}

fn answer_of(alloc: Global, case: &Case) -> Result<String, Fail> {
    let (old_fields, new_fields, old_numbers, new_numbers, _) = *case;
    let old = pool_of(alloc, old_fields, old_numbers)?;
    let new = pool_of(alloc, new_fields, new_numbers)?;
    answer(alloc, &old, &new)
}

fn is_answered(alloc: Global, case: &Case) -> Result<bool, Fail> {
    let answer = answer_of(alloc, case)?;
    Ok(answer.as_str() == case.4)
}

fn first_wrong(alloc: Global) -> Result<Option<usize>, Fail> {
    for (index, case) in CASES.iter().enumerate() {
        if !is_answered(alloc, case)? {
            return Ok(Some(index));
        }
    }
    Ok(None)
}

#[test]
fn worked_cases(rt: HostRuntime) -> Result<(), Fail> {
    let wrong = first_wrong(rt.alloc())?;
    assert!(rt; wrong.is_none(), "{wrong:?}");
    Ok(())
}
