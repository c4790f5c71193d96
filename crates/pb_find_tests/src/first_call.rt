//! The example in the crate comment of `pb_find`.

use super::sample::sample;
use pb_find::{ScalarRef, find};
use pb_schema::Pool;
use pb_wire::Limits;
use std::alloc::Global;
use std::test::Fail;

/// The int32 field 1 of the message in field 3 of a message of type T.
fn find_number(alloc: Global, pool: &Pool, bytes: &[u8]) -> Result<Option<i32>, Fail> {
    let message_type = pool.message_by_name("T").ok_or("no type T")?;
    match find(alloc, pool, message_type, bytes, Limits::FULL, &[3, 1])? {
        Some(ScalarRef::I32(number)) => Ok(Some(number)),
        _ => Ok(None), // absent
    }
}

#[test]
fn first_call(rt: HostRuntime) -> Result<(), Fail> {
    let schema = sample(rt.alloc(), "T")?;
    let there = find_number(rt.alloc(), &schema.pool, b"\x1a\x02\x08\x05")?;
    let absent = find_number(rt.alloc(), &schema.pool, b"\x08\x05")?;
    assert!(rt; there == Some(5) && absent.is_none());
    Ok(())
}
