//! Files beside files in memory.

ghost use Rattle.std.specs.Prelude.{◌≡◌, ◌+◌, ◌&&◌, [], Some, false};
ghost use Rattle.pbtool_files.specs.MemFiles.{map_of};
ghost use Rattle.pbtool_layers.specs.Overlay.{failures_of, is_steady_of, left_of};
ghost use Rattle.pbtool_layers.specs.WithMemory.{beside, is_in_memory};

use crate::overlay::OverlayInput;
use pb_wire::{DeviceFault, FailurePlan, MemInput};
use pbtool_files::{Files, MemFiles};
use std::alloc::Global;
use std::io::Error;

/// The most bytes that a read gives.
const PIECE: usize = 65536;

/// Files, and beside them files in memory, whose paths begin with a NUL. No word of a command line has a NUL, and no
/// path of a system. A file in memory stays until the program ends.
#[derive(Drop)]
pub struct WithMemory<F: Drop> {
    files: F,
    memory: MemFiles<'static>,
}

impl<F: Files + Drop> WithMemory<F> {
    /// These files. None is in memory yet.
    pub fn new(alloc: Global, files: F) -> WithMemory<F>
        ensures contents { ⟦<WithMemory<F> as Files>⟧.contents result
            ≡ beside (F.contents files) (Some (map_of [])) }
        ensures steady { ⟦<WithMemory<F> as Files>⟧.is_steady result ≡ F.is_steady files }
    {
        let memory = MemFiles::new(
            alloc,
            Vec::new(alloc),
            PIECE,
            FailurePlan::NEVER,
            FailurePlan::NEVER,
        );
        WithMemory { files, memory }
    }
}

/// Whether a path is that of a file in memory.
fn is_in_memory(path: &str) -> bool
    ensures { result ≡ is_in_memory path.now }
{
    match path.as_bytes().first() {
        Some(first) => *first == 0,
        None => false,
    }
}

impl<F: Files + Drop> Files for WithMemory<F> {
    type In = OverlayInput<'static, F::In>;

    ghost contents = { λ s. beside (F.contents s.files) (⟦<MemFiles<'static> as Files>⟧.contents s.memory) };

    ghost failures = { λ s. F.failures s.files + ⟦<MemFiles<'static> as Files>⟧.failures s.memory };

    ghost is_steady = { λ s. F.is_steady s.files && ⟦<MemFiles<'static> as Files>⟧.is_steady s.memory };

    // Memory can run out at a write.
    ghost takes_writes = { λ _. false };

    fn open(&mut self, path: &str) -> Result<Option<OverlayInput<'static, F::In>>, DeviceFault> {
        if is_in_memory(path) {
            return match self.memory.open(path) {
                Ok(Some(input)) => Ok(Some(OverlayInput::Given(input))),
                Ok(None) => Ok(None),
                Err(fault) => Err(fault),
            };
        }
        match self.files.open(path) {
            Ok(Some(input)) => Ok(Some(OverlayInput::File(input))),
            Ok(None) => Ok(None),
            Err(fault) => Err(fault),
        }
    }

    fn write_whole(&mut self, path: &str, bytes: &[u8]) -> Result<(), DeviceFault> {
        if is_in_memory(path) {
            return self.memory.write_whole(path, bytes);
        }
        self.files.write_whole(path, bytes)
    }

    /// A file in memory can be read.
    fn reason(&self, path: &str) -> Option<Error> {
        if is_in_memory(path) {
            return None;
        }
        self.files.reason(path)
    }
}
