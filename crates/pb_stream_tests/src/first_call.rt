//! The example in the crate comment of `pb_stream`.

use super::sample::sample;
use pb_schema::Pool;
use pb_stream::DelimitedReader;
use pb_wire::{FailurePlan, Limits, MemInput};
use std::alloc::Global;
use std::test::Fail;

/// How many messages of type T are in a stream, each after its length.
fn count(alloc: Global, pool: &Pool, stream: &[u8]) -> Result<u64, Fail> {
    let message_type = pool.message_by_name("T").ok_or("no type T")?;
    let input = MemInput::new(stream, 4096, FailurePlan::NEVER); // or `ReadInput::new(rt.stdin())`
    let mut reader = DelimitedReader::new(alloc, pool, message_type, input, Limits::FULL);
    let mut count = 0;
    for index in 1..u64::MAX {
        if reader.next()?.is_none() {
            break;
        }
        count = index;
    }
    Ok(count)
}

#[test]
fn first_call(rt: HostRuntime) -> Result<(), Fail> {
    let schema = sample(rt.alloc())?;
    // A message whose field 1 is 5, and one of no fields.
    assert!(rt; count(rt.alloc(), &schema.pool, b"\x02\x08\x05\x00")? == 2);
    Ok(())
}
