//! A vector as an output.

ghost use Rattle.std.specs.Prelude.{◌≡◌, [], Some, IfOk};

use pb_wire::{DeviceFault, Output};
use std::alloc::{AllocError, Global};

/// An output that keeps what is written, with a capacity that is reserved at the start. It fails when memory runs out.
#[derive(Drop)]
pub(crate) struct VectorOutput {
    bytes: Vec<u8>,
    failures: u64,
}

impl VectorOutput {
    pub(crate) fn with_capacity(alloc: Global, capacity: usize) -> Result<VectorOutput, AllocError>
        ensures { IfOk result (λ out. ⟦<VectorOutput as Output>⟧.written out ≡ Some []) }
    {
        Ok(VectorOutput {
            bytes: Vec::with_capacity(alloc, capacity)?,
            failures: 0,
        })
    }

    /// What was written.
    pub(crate) fn into_bytes(self) -> Vec<u8>
        ensures { ⟦<VectorOutput as Output>⟧.written self ≡ Some result.items }
    {
        self.bytes
    }
}

impl Output for VectorOutput {
    ghost written = { λ s. Some s.bytes.items };

    ghost failures = { λ s. s.failures };

    fn write(&mut self, bytes: &[u8]) -> Result<usize, DeviceFault> {
        if self.bytes.extend_from_slice(bytes).is_err() {
            self.failures = self.failures.wrapping_add(1);
            return Err(DeviceFault);
        }
        Ok(bytes.len())
    }
}
