//! The example in the crate comment of `pb_decode`.

use super::sample::sample;
use pb_decode::decode;
use pb_schema::Pool;
use pb_wire::Limits;
use std::alloc::Global;
use std::test::Fail;

/// How many fields a message of type T has, or where its bytes fail and why.
fn outcome(alloc: Global, pool: &Pool, bytes: &[u8]) -> Result<String, Fail> {
    let message_type = pool.message_by_name("T").ok_or("no type T")?;
    match decode(alloc, pool, message_type, bytes, Limits::FULL) {
        Ok(message) => Ok(format!(in alloc; "{} fields", message.body().fields.len())?),
        Err(error) => Ok(format!(in alloc; "{error}")?), // the byte and the cause of a fault, which has a path too
    }
}

#[test]
fn first_call(rt: HostRuntime) -> Result<(), Fail> {
    let schema = sample(rt.alloc(), "T")?;
    let whole = outcome(rt.alloc(), &schema.pool, b"\x08\x96\x01")?;
    let cut = outcome(rt.alloc(), &schema.pool, b"\x08\x96")?;
    assert!(rt; whole.as_str() == "1 fields" && cut.as_str() == "Truncated at byte 2");
    Ok(())
}
