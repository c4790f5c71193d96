//! Files that say how much of them was read.

ghost use Rattle.std.specs.Prelude.{◌≡◌};

use pb_wire::{DeviceFault, Input};
use pbtool_files::Files;
use std::io::Error;

/// After how many bytes of a file the number is written again.
const STEP: u64 = 0x400_0000;

const MEBIBYTE: u64 = 0x10_0000;

/// Files that write to standard error how much of each was read, again and again on one line, which they
/// clear at its end. They are what they are without it.
#[derive(Drop)]
pub struct Progress<'a, R, F: Drop> {
    rt: &'a R,
    files: F,
    is_wanted: bool,
}

impl<'a, R: Eprint, F: Files + Drop> Progress<'a, R, F> {
    /// These files. Nothing is written unless it is wanted.
    pub fn new(rt: &'a R, files: F, is_wanted: bool) -> Progress<'a, R, F>
        ensures files { result.files ≡ files }
        ensures wanted { result.is_wanted ≡ is_wanted }
    {
        Progress {
            rt,
            files,
            is_wanted,
        }
    }
}

impl<'a, R: Eprint, F: Files + Drop> Files for Progress<'a, R, F> {
    type In = Counted<'a, R, F::In>;

    ghost contents = { λ s. F.contents s.files };

    ghost failures = { λ s. F.failures s.files };

    ghost is_steady = { λ s. F.is_steady s.files };

    ghost takes_writes = { λ s. F.takes_writes s.files };

    fn open(&mut self, path: &str) -> Result<Option<Counted<'a, R, F::In>>, DeviceFault> {
        match self.files.open(path) {
            Ok(Some(input)) => Ok(Some(Counted {
                rt: self.rt,
                input,
                read: 0,
                is_wanted: self.is_wanted,
            })),
            Ok(None) => Ok(None),
            Err(fault) => Err(fault),
        }
    }

    fn write_whole(&mut self, path: &str, bytes: &[u8]) -> Result<(), DeviceFault> {
        match self.files.write_whole(path, bytes) {
            Ok(()) => Ok(()),
            Err(fault) => Err(fault),
        }
    }

    fn reason(&self, path: &str) -> Option<Error> {
        self.files.reason(path)
    }
}

/// An input that says how much of it was read.
#[derive(Drop)]
pub struct Counted<'a, R, I: Drop> {
    rt: &'a R,
    input: I,

    /// The number of bytes. The greatest u64 also means more.
    read: u64,
    is_wanted: bool,
}

impl<'a, R: Eprint, I: Input + Drop> Counted<'a, R, I> {
    /// Counts bytes that were read, none at the end, and writes how many there are. A failure to write is not
    /// reported.
    fn count(&mut self, count: usize)
        ensures { self.new.input ≡ self.old.input }
    {
        let before = self.read / STEP;
        self.read = self.read.saturating_add(count as u64);
        if !self.is_wanted {
            return;
        }
        let rt = self.rt;
        if count == 0 && before > 0 {
            let _ = eprint!(rt; "               \r");
        } else if self.read / STEP > before {
            let _ = eprint!(rt; "{} MiB\r", self.read / MEBIBYTE);
        }
    }
}

impl<'a, R: Eprint, I: Input + Drop> Input for Counted<'a, R, I> {
    ghost left = { λ s. I.left s.input };

    ghost failures = { λ s. I.failures s.input };

    ghost is_steady = { λ s. I.is_steady s.input };

    fn read(&mut self, into: &mut [u8]) -> Result<usize, DeviceFault> {
        match self.input.read(into) {
            Ok(count) => {
                self.count(count);
                Ok(count)
            }
            Err(fault) => Err(fault),
        }
    }
}
