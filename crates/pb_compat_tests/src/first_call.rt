//! The example of the crate's comment.

use super::fields::pool_of;
use pb_compat::{breaks_reading, compare};
use pb_schema::Pool;
use std::alloc::Global;
use std::test::Fail;

/// Whether every message of the old type p.M keeps its values if it is read as the new one.
fn keeps_messages(alloc: Global, old: &Pool, new: &Pool) -> Result<bool, Fail> {
    let old_type = old.message_by_name("p.M").ok_or("no old type")?;
    let new_type = new.message_by_name("p.M").ok_or("no new type")?;
    let compared = compare(alloc, old, old_type, new, new_type)?;
    Ok(!breaks_reading(&compared))
}

#[test]
fn first_call(rt: HostRuntime) -> Result<(), Fail> {
    let alloc = rt.alloc();
    let old = pool_of(alloc, "a 1 int32 i", "0")?;
    let new = pool_of(alloc, "a 1 int64 i", "0")?;
    let forward = keeps_messages(alloc, &old, &new)?;
    let back = keeps_messages(alloc, &new, &old)?;
    assert!(rt; forward && !back);
    Ok(())
}
