//! Each path of a message, beside what `decode`, `message` and `get` answer.

use super::sample::{Schema, sample};
use super::words::bytes_of;
use pb_find::ScalarRef;
use pb_value::{Content, MessageRef, Value};
use pb_wire::Limits;
use std::alloc::Global;
use std::test::Fail;

/// A value as a borrowed scalar. A message is none.
fn as_scalar(value: &Value) -> Option<ScalarRef<'_>> {
    match value {
        Value::I32(number) => Some(ScalarRef::I32(*number)),
        Value::I64(number) => Some(ScalarRef::I64(*number)),
        Value::U32(number) => Some(ScalarRef::U32(*number)),
        Value::U64(number) => Some(ScalarRef::U64(*number)),
        Value::Bool(value) => Some(ScalarRef::Bool(*value)),
        Value::F32(bits) => Some(ScalarRef::F32(*bits)),
        Value::F64(bits) => Some(ScalarRef::F64(*bits)),
        Value::Enum(number) => Some(ScalarRef::Enum(*number)),
        Value::Text(string) => Some(ScalarRef::Text(string.as_str())),
        Value::Bytes(bytes) => Some(ScalarRef::Bytes(bytes.as_slice())),
        Value::Message(_) => None,
    }
}

/// The scalar that a field of a message holds.
fn scalar_in<'a>(message: &MessageRef<'a>, number: u32) -> Option<ScalarRef<'a>> {
    match message.get(number)? {
        Content::One(value) => as_scalar(value),
        Content::List(_) | Content::Map(_) => None,
    }
}

/// The scalar at a path of at most three numbers.
fn scalar_at<'a>(message: &MessageRef<'a>, path: &[u32]) -> Option<ScalarRef<'a>> {
    match path {
        [last] => scalar_in(message, *last),
        [first, last] => scalar_in(&message.message(*first)?, *last),
        [first, second, last] => { scalar_in(&message.message(*first)?.message(*second)?, *last) }
        _ => None,
    }
}

/// The greatest number in the paths.
const MOST: u32 = 12;

/// Whether `find` answers at a path what look-ups in the message of the bytes do.
pub(crate) fn is_found(
    schema: &Schema,
    bytes: &[u8],
    message: &MessageRef<'_>,
    path: &[u32],
) -> Result<bool, Fail> {
    let found = schema.find(bytes, Limits::FULL, path)?;
    Ok(found == scalar_at(message, path))
}

/// Whether it does at each path that begins with two numbers and has at most three.
fn is_found_from(
    schema: &Schema,
    bytes: &[u8],
    message: &MessageRef<'_>,
    first: u32,
    second: u32,
) -> Result<bool, Fail> {
    for third in 0..=MOST {
        if !is_found(schema, bytes, message, &[first, second, third])? {
            return Ok(false);
        }
    }
    is_found(schema, bytes, message, &[first, second])
}

/// Whether it does at each path that begins with a number and has at most three.
fn is_found_after(
    schema: &Schema,
    bytes: &[u8],
    message: &MessageRef<'_>,
    first: u32,
) -> Result<bool, Fail> {
    for second in 0..=MOST {
        if !is_found_from(schema, bytes, message, first, second)? {
            return Ok(false);
        }
    }
    is_found(schema, bytes, message, &[first])
}

/// Whether it does at each path of at most three numbers.
fn is_found_at_each_path(
    schema: &Schema,
    bytes: &[u8],
    message: &MessageRef<'_>,
) -> Result<bool, Fail> {
    for first in 0..=MOST {
        if !is_found_after(schema, bytes, message, first)? {
            return Ok(false);
        }
    }
    is_found(schema, bytes, message, &[])
}

/// Whether `find` answers what `decode` and look-ups do at each path.
fn is_as_decoded(schema: &Schema, bytes: &[u8]) -> Result<bool, Fail> {
    let message = schema.decode(bytes, Limits::FULL)?;
    is_found_at_each_path(schema, bytes, &message.view())
}

/// Messages of the type `T`.
const OF_T: &str = "
-
08960112017a1a0208012100000000000000803202030438054a050a016b100750005801
1a0208011a0312017a42020801380542025802
1a041a0208051a0250011a061a0408075003
4202080142021a00420642040801380542024a00
38054202080142025802420a1a0842023805420208013807
620608011202080162060801120258016206080212021a00
1a061a041a0208051a061a041a02500108051a001a021a00
0a01411a050a0141080542030a01413801a3010801a401
4a050a01611001080508001a020800120161
";

/// Messages of the type `Q`.
const OF_Q: &str = "
08010807180120071809
13080514130807141312020802140801
2b08052c20012b120208012c
2b08052c2b2c3a0208013a0213143a061308051408013201614805520162
3a0a3a0208013a040807080242020107420101
3a063a0408020801130805143a063a04080718011809
";

/// Whether so is the message of a row.
fn is_row_as_decoded(schema: &Schema, row: &str) -> Result<bool, Fail> {
    let bytes = bytes_of(schema.alloc, row)?;
    is_as_decoded(schema, &bytes)
}

/// The first row of which a path is answered otherwise, or none.
fn first_wrong<'a>(schema: &Schema, rows: &'a str) -> Result<Option<&'a str>, Fail> {
    for row in rows.lines() {
        if !row.is_empty() && !is_row_as_decoded(schema, row)? {
            return Ok(Some(row));
        }
    }
    Ok(None)
}

fn wrong_row(alloc: Global, name: &str, rows: &'static str) -> Result<Option<&'static str>, Fail> {
    let schema = sample(alloc, name)?;
    first_wrong(&schema, rows)
}

#[test]
fn each_path(rt: HostRuntime) -> Result<(), Fail> {
    let wrong = wrong_row(rt.alloc(), "T", OF_T)?;
    assert!(rt; wrong.is_none(), "{wrong:?}");
    Ok(())
}

#[test]
fn each_path_with_groups(rt: HostRuntime) -> Result<(), Fail> {
    let wrong = wrong_row(rt.alloc(), "Q", OF_Q)?;
    assert!(rt; wrong.is_none(), "{wrong:?}");
    Ok(())
}
