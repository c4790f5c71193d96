//! Files in memory, for tests.

ghost use Rattle.std.specs.Prelude.{◌≡◌, ◌≢◌, ◌<◌, ◌&&◌, Some, None, true, false, is_none, IfSome, OnOk, option_map, ℕ, List};
ghost use Rattle.pbtool_files.specs.MemFiles.{map_of};

use crate::files::Files;
use pb_wire::{DeviceFault, FailurePlan, MemInput};
use std::alloc::{AllocError, Global};
use std::io;

/// Files in memory, which are opened as they were given or written. A file that is written stays until the program
/// ends.
#[derive(Drop)]
pub struct MemFiles<'a> {
    entries: Vec<(String, &'a [u8])>,
    alloc: Global,
    most: usize,
    input_plan: FailurePlan,
    plan: FailurePlan,
    failures: u64,
    ghost moves: { 0 < most },
}

impl<'a> MemFiles<'a> {
    /// Each input gives at most `most` bytes a call and fails by `input_plan`. The calls on the files fail by `plan`,
    /// and a write where memory runs out.
    pub fn new(
        alloc: Global,
        entries: Vec<(String, &'a [u8])>,
        most: usize,
        input_plan: FailurePlan,
        plan: FailurePlan,
    ) -> MemFiles<'a>
        requires { 0 < most }
        ensures contents { ⟦<MemFiles<'static> as Files>⟧.contents result ≡ Some (map_of entries.entry.items) }
        ensures steady { plan.fails_after ≡ None → input_plan.fails_after ≡ None
            → ⟦<MemFiles<'static> as Files>⟧.is_steady result ≡ true }
    {
        MemFiles {
            entries,
            alloc,
            most,
            input_plan,
            plan,
            failures: 0,
        }
    }

    /// The bytes at a path.
    pub fn bytes_at(&self, path: &str) -> Option<&'a [u8]>
        ensures { IfSome (⟦<MemFiles<'static> as Files>⟧.contents self.now) (λ map.
            option_map (λ b. b.now) result ≡ map path.now) }
    {
        let entry = self.entries.iter().find(|e| e.0.as_str() == path)?;
        Some(entry.1)
    }

    fn put(&mut self, path: &str, bytes: &[u8]) -> Result<(), AllocError>
        ensures others { (other : List ℕ) → other ≢ path.now
            → map_of self.new.entries.items other ≡ map_of self.old.entries.items other }
        ensures set { OnOk result (map_of self.new.entries.items path.now ≡ Some bytes.now) }
        ensures kept { (self.new.failures ≡ self.old.failures) × (self.new.plan ≡ self.old.plan)
            × (self.new.input_plan ≡ self.old.input_plan) }
    {
        let path = String::from_str(self.alloc, path)?;
        let bytes = Vec::from_slice(self.alloc, bytes)?.leak();
        self.entries.insert(0, (path, bytes))?;
        Ok(())
    }
}

impl<'a> Files for MemFiles<'a> {
    type In = MemInput<'a>;

    ghost contents = { λ s. Some (map_of s.entries.items) };

    ghost failures = { λ s. s.failures };

    ghost is_steady = { λ s. is_none s.plan.fails_after && is_none s.input_plan.fails_after };

    // Memory can run out at a write.
    ghost takes_writes = { λ _. false };

    fn open(&mut self, path: &str) -> Result<Option<MemInput<'a>>, DeviceFault> {
        if self.plan.count_call() {
            self.failures = self.failures.wrapping_add(1);
            return Err(DeviceFault);
        }
        Ok(
            self.bytes_at(path)
                .map(|bytes| MemInput::new(bytes, self.most, self.input_plan)),
        )
    }

    fn write_whole(&mut self, path: &str, bytes: &[u8]) -> Result<(), DeviceFault> {
        if self.plan.count_call() || self.put(path, bytes).is_err() {
            self.failures = self.failures.wrapping_add(1);
            return Err(DeviceFault);
        }
        Ok(())
    }

    /// No system has these files.
    fn reason(&self, _path: &str) -> Option<io::Error> {
        None
    }
}
