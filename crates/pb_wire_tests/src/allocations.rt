//! What devices answer where an allocation is refused, which `.ci/allocations` does.

use pb_wire::{FailurePlan, MemInput, MemOutput, ReadFault, read_up_to, write_all};
use std::alloc::Global;
use std::test::Fail;

/// Whether just these bytes are read, or out of memory is reported.
fn is_read(alloc: Global, bytes: &[u8]) -> bool {
    let mut input = MemInput::new(bytes, 7, FailurePlan::NEVER);
    match read_up_to(alloc, &mut input, 10_000) {
        Ok(read) => read.as_slice() == bytes,
        Err(fault) => matches!(fault, ReadFault::Memory),
    }
}

/// Whether these bytes are written, or a beginning of them that is counted: the output in memory fails where it can't grow.
fn is_written(alloc: Global, bytes: &[u8]) -> bool {
    let mut output = MemOutput::new(alloc, 7, FailurePlan::NEVER);
    match write_all(&mut output, bytes) {
        Ok(()) => output.bytes() == bytes,
        Err(fault) => {
            fault.written == output.bytes().len() as u64 && bytes.starts_with(output.bytes())
        }
    }
}

#[test]
fn devices(rt: HostRuntime) -> Result<(), Fail> {
    let bytes = vec![in rt.alloc(); b'x'; 9000]?;
    assert!(rt; is_read(rt.alloc(), &bytes) && is_written(rt.alloc(), &bytes));
    Ok(())
}
