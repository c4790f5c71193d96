//! The example in the crate comment of `pb_wire`.

use pb_wire::{Limits, read_raw, write_raw};
use std::test::Fail;

#[test]
fn first_call(rt: HostRuntime) -> Result<(), Fail> {
    // The allocator: what takes memory is passed it.
    let alloc = rt.alloc();
    // Field 1 with the number 150, in a byte more than it needs.
    let records = read_raw(alloc, b"\x08\x96\x81\x00", Limits::FULL)?; // each number with its payload, or the one fault
    let shortest = write_raw(alloc, &records)?;
    assert!(rt; shortest.as_slice() == b"\x08\x96\x01".as_slice());
    Ok(())
}
