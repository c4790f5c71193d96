//! The first call.

use super::sample::sample;
use pb_canonical::is_canonical;
use pb_schema::Pool;
use std::test::Fail;

/// Whether bytes are the canonical encoding of a message of type T.
fn is_canonical_t(pool: &Pool, bytes: &[u8]) -> Result<bool, Fail> {
    let message_type = pool.message_by_name("T").ok_or("no type T")?;
    Ok(is_canonical(pool, message_type, bytes))
}

#[test]
fn first_call(rt: HostRuntime) -> Result<(), Fail> {
    let schema = sample(rt.alloc(), "T")?;
    let canonical = is_canonical_t(&schema.pool, b"\x08\x05\x1a\x00")?;
    let other = is_canonical_t(&schema.pool, b"\x1a\x00\x08\x05")?;
    assert!(rt; canonical && !other);
    Ok(())
}
