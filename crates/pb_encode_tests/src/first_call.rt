//! The example in the crate comment of `pb_encode`.

use super::schema::pool;
use pb_encode::encode;
use pb_schema::Pool;
use pb_value::{Content, DynamicMessage, Value};
use std::alloc::Global;
use std::test::Fail;

/// The canonical bytes of a message whose int32 field 1 is 150: 08 96 01.
fn encoded(alloc: Global, pool: &Pool) -> Result<Vec<u8>, Fail> {
    let message_type = pool.message_by_name("T").ok_or("no type T")?;
    let mut message = DynamicMessage::new(alloc, pool, message_type);
    message.set(1, Content::One(Value::I32(150)))?;
    let bytes = encode(&message)?; // or the error TooLarge or Memory
    Ok(bytes)
}

#[test]
fn first_call(rt: HostRuntime) -> Result<(), Fail> {
    let pool = pool(rt.alloc())?;
    assert!(rt; encoded(rt.alloc(), &pool)?.as_slice() == b"\x08\x96\x01".as_slice());
    Ok(())
}
