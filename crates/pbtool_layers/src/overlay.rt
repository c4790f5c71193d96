//! Files in which some paths have bytes that are given.

ghost use Rattle.std.specs.Prelude.{◌≡◌, ◌≢◌, ◌+◌, false, option_map};
ghost use Rattle.pbtool_layers.specs.Overlay.{contents_over, failures_of, given_at, is_steady_of, left_of};

use pb_wire::{DeviceFault, FailurePlan, Input, MemInput};
use pbtool_files::Files;
use std::io::Error;

/// The most bytes that a read gives.
const PIECE: usize = 65536;

/// A path, and the bytes of its file.
#[derive(Clone, Copy)]
pub struct Given<'t> {
    pub path: &'t str,
    pub bytes: &'t [u8],
}

/// Files in which the paths of a table have the bytes that it gives, whatever the files have there. A file of
/// the table is not written: that fails.
#[derive(Drop)]
pub struct Overlay<'t, F: Drop> {
    files: F,
    table: &'t [Given<'t>],

    /// How often a file of the table was to be written. The number wraps.
    failures: u64,
}

impl<'t, F: Files + Drop> Overlay<'t, F> {
    /// These files under this table. No failure is counted yet.
    pub fn new(files: F, table: &'t [Given<'t>]) -> Overlay<'t, F>
        ensures contents { ⟦<Overlay<'static, F> as Files>⟧.contents result
            ≡ contents_over table.now (F.contents files) }
        ensures steady { ⟦<Overlay<'static, F> as Files>⟧.is_steady result ≡ F.is_steady files }
        ensures failures { ⟦<Overlay<'static, F> as Files>⟧.failures result ≡ F.failures files }
    {
        Overlay {
            files,
            table,
            failures: 0,
        }
    }

    /// The bytes that the table gives to a path.
    fn given_at(&self, path: &str) -> Option<&'t [u8]>
        ensures { option_map (λ b. b.now) result ≡ given_at self.now.table.now path.now }
    {
        let given = self.table.iter().find(|given| given.path == path)?;
        Some(given.bytes)
    }
}

impl<'t, F: Files + Drop> Files for Overlay<'t, F> {
    type In = OverlayInput<'t, F::In>;

    ghost contents = { λ s. contents_over s.table.now (F.contents s.files) };

    ghost failures = { λ s. F.failures s.files + s.failures };

    ghost is_steady = { λ s. F.is_steady s.files };

    ghost takes_writes = { λ _. false };

    fn open(&mut self, path: &str) -> Result<Option<OverlayInput<'t, F::In>>, DeviceFault> {
        if let Some(bytes) = self.given_at(path) {
            let input = MemInput::new(bytes, PIECE, FailurePlan::NEVER);
            return Ok(Some(OverlayInput::Given(input)));
        }
        match self.files.open(path) {
            Ok(Some(input)) => Ok(Some(OverlayInput::File(input))),
            Ok(None) => Ok(None),
            Err(fault) => Err(fault),
        }
    }

    fn write_whole(&mut self, path: &str, bytes: &[u8]) -> Result<(), DeviceFault> {
        if self.given_at(path).is_some() {
            self.failures = self.failures.wrapping_add(1);
            return Err(DeviceFault);
        }
        self.files.write_whole(path, bytes)
    }

    /// A file of the table can be read, and was not to be written.
    fn reason(&self, path: &str) -> Option<Error> {
        match self.given_at(path) {
            Some(_) => None,
            None => self.files.reason(path),
        }
    }
}

/// A file that is read, or bytes that are given.
#[derive(Drop)]
pub enum OverlayInput<'t, A: Drop> {
    File(A),
    Given(MemInput<'t>),
}

impl<'t, A: Input + Drop> Input for OverlayInput<'t, A> {
    ghost left = { left_of A.left ⟦<MemInput<'static> as Input>⟧.left };

    ghost failures = { failures_of A.failures ⟦<MemInput<'static> as Input>⟧.failures };

    ghost is_steady = { is_steady_of A.is_steady ⟦<MemInput<'static> as Input>⟧.is_steady };

    fn read(&mut self, into: &mut [u8]) -> Result<usize, DeviceFault> {
        match self {
            OverlayInput::File(input) => input.read(into),
            OverlayInput::Given(input) => input.read(into),
        }
    }
}
