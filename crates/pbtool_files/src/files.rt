//! Named files. A contract sees them as a map from paths to bytes, where they report it, and how often they failed.

ghost use Rattle.std.specs.Prelude.{◌≡◌, ◌≢◌, ℕ, Bool, true, Option, IsOk, IfSome, IfOk, OnOk, OnErr};
ghost use Rattle.pbtool_files.specs.FileMap.{FileMap, OpensAt, WritesWhole};

use pb_wire::{DeviceFault, Input};
use std::io;

/// Named files, each read from its front or written whole.
pub trait Files {
    type In: Input + Drop;

    // The file at each path, of files that report it.
    ghost contents: { Self → Option FileMap };

    // How often the files failed.
    ghost failures: { Self → ℕ };

    // Opening and reading do not fail, and the files stay steady.
    ghost is_steady: { Self → Bool };

    // Writing does not fail, and the files go on taking writes.
    ghost takes_writes: { Self → Bool };

    /// Opens a file, or answers `None` where no file has this path.
    fn open(&mut self, path: &str) -> Result<Option<Self::In>, DeviceFault>
        ensures map { OpensAt Self.In.left (contents self.old) (contents self.new) path.now result }
        ensures kept { OnOk result (failures self.new ≡ failures self.old) }
        ensures failed { OnErr result (failures self.new ≢ failures self.old) }
        ensures succeeds { is_steady self.old ≡ true → IsOk result }
        ensures steady { is_steady self.old ≡ true → is_steady self.new ≡ true }
        ensures takes_writes { takes_writes self.old ≡ true → takes_writes self.new ≡ true }
        ensures steady_input { is_steady self.old ≡ true
            → IfOk result (λ o. IfSome o (λ input. Self.In.is_steady input ≡ true)) };

    /// Makes a file of these bytes, or sets the one that has this path.
    fn write_whole(&mut self, path: &str, bytes: &[u8]) -> Result<(), DeviceFault>
        ensures map { WritesWhole (contents self.old) (contents self.new) path.now bytes.now result }
        ensures kept { OnOk result (failures self.new ≡ failures self.old) }
        ensures failed { OnErr result (failures self.new ≢ failures self.old) }
        ensures succeeds { takes_writes self.old ≡ true → IsOk result }
        ensures steady { is_steady self.old ≡ true → is_steady self.new ≡ true }
        ensures takes_writes { takes_writes self.old ≡ true → takes_writes self.new ≡ true };

    /// Why the system refuses the file of a path: why it could not be written, if a file could not, or why it cannot be opened or its first
    /// byte cannot be read. `None` where it can, or where the files give no reasons. No clause says what a system answers.
    fn reason(&self, path: &str) -> Option<io::Error>;
}
