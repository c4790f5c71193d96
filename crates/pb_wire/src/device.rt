//! Where bytes come from and go to. A contract sees the bytes that are left or written, where the device reports them,
//! and how often the device failed.

ghost use Rattle.std.specs.Prelude.{◌≡◌, ◌≢◌, ◌<◌, ◌≤◌, ℕ, List, Bool, true, Option, length, IsOk, IfOk, OnOk, OnErr};
ghost use Rattle.std.specs.Io.KnownBytes.{ReadConsumes, WriteAppends};

use thiserror::Error;

/// A device failed.
#[derive(Clone, Copy, Debug, PartialEq, Eq, Error)]
#[error("the device failed")]
pub struct DeviceFault;

/// Where bytes come from. A read into a slice that is not empty gives no bytes at the end of the input alone.
pub trait Input {
    // The bytes that are left, of an input that reports them.
    ghost left: { Self → Option (List ℕ) };

    // How often the input failed.
    ghost failures: { Self → ℕ };

    // The input does not fail, and stays steady.
    ghost is_steady: { Self → Bool };

    fn read(&mut self, into: &mut [u8]) -> Result<usize, DeviceFault>
        ensures count { IfOk result (λ n. n ≤ length into.new) }
        ensures bytes { ReadConsumes (left self.old) (left self.new) result into.new }
        ensures kept { OnOk result (failures self.new ≡ failures self.old) }
        ensures failed { OnErr result (failures self.new ≢ failures self.old) }
        ensures succeeds { is_steady self.old ≡ true → IsOk result }
        ensures steady { is_steady self.old ≡ true → is_steady self.new ≡ true };
}

/// Where bytes go to. A write of a slice that is not empty takes at least one byte, or fails and takes none.
pub trait Output {
    // The bytes that were written, of an output that reports them.
    ghost written: { Self → Option (List ℕ) };

    // How often the output failed.
    ghost failures: { Self → ℕ };

    fn write(&mut self, bytes: &[u8]) -> Result<usize, DeviceFault>
        ensures count { IfOk result (λ n. n ≤ length bytes.now) }
        ensures some { IfOk result (λ n. 0 < length bytes.now → 0 < n) }
        ensures bytes { WriteAppends (written self.old) (written self.new) result bytes.now }
        ensures kept { OnOk result (failures self.new ≡ failures self.old) }
        ensures failed { OnErr result (failures self.new ≢ failures self.old) };
}
