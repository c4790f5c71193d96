//! The files of the system.

ghost use Rattle.std.specs.Prelude.{◌≡◌, ◌≢◌, ◌↔◌, None, false, IsOk, IsSome, OnOk, OnErr};
ghost use Rattle.std.specs.Io.KnownBytes.{Appends};

use crate::files::Files;
use pb_wire::{DeviceFault, ReadInput};
use std::io::{self, Error, ErrorKind, Read, Write};
use std::{fs, rt};

/// The files of the system. No clause says what they hold. A failure is counted in a number that wraps.
#[derive(Drop)]
pub struct HostFiles<'a, R> {
    rt: &'a R,
    failures: u64,

    /// Why the last file that could not be written could not, if there was one.
    unwritten: Option<Error>,
}

impl<'a, R: rt::Files> HostFiles<'a, R> {
    /// No failure is counted yet.
    pub fn new(rt: &'a R) -> HostFiles<'a, R>
        ensures { result.failures ≡ 0 }
    {
        HostFiles {
            rt,
            failures: 0,
            unwritten: None,
        }
    }

    /// Whether an error of opening a file says that no file has this path. Any other error is a failure, also of a file that may
    /// not be read.
    fn judge(&mut self, kind: ErrorKind) -> Result<(), DeviceFault>
        ensures missing { IsOk result ↔ (kind ≡ ErrorKind.NotFound) }
        ensures kept { OnOk result (self.new.failures ≡ self.old.failures) }
        ensures failed { OnErr result (self.new.failures ≢ self.old.failures) }
    {
        match kind {
            ErrorKind::NotFound => Ok(()),
            _ => {
                self.failures = self.failures.wrapping_add(1);
                Err(DeviceFault)
            }
        }
    }

    /// Makes the file of a path anew, of these bytes. Why it could not be written is kept for `reason`.
    fn replace(&mut self, path: &str, bytes: &[u8]) -> Result<(), DeviceFault>
        ensures kept { OnOk result (self.new.failures ≡ self.old.failures) }
        ensures failed { OnErr result (self.new.failures ≢ self.old.failures) }
        ensures reason { OnErr result (IsSome self.new.unwritten) }
    {
        let Err(error) = write_file(self.rt, path, bytes) else {
            return Ok(());
        };
        self.failures = self.failures.wrapping_add(1);
        self.unwritten = Some(error);
        Err(DeviceFault)
    }

    /// Why a file could not be written, if one could not, or else why the file of a path cannot be opened or read.
    fn reason_at(&self, path: &str) -> Option<Error>
        ensures { IsSome self.now.unwritten → result ≡ self.now.unwritten }
    {
        if self.unwritten.is_some() {
            return self.unwritten;
        }
        match fs::open(self.rt, path) {
            Ok(mut file) => reason_unread(&mut file),
            Err(error) => Some(error),
        }
    }
}

/// Makes the file of a path anew, of these bytes.
fn write_file<R: rt::Files>(rt: &R, path: &str, bytes: &[u8]) -> io::Result<()> {
    let mut file = fs::create(rt, path)?;
    write_bytes(&mut file, bytes)
}

/// Writes bytes to a file that was opened: on success all of them, after what it had.
fn write_bytes<W: Write>(file: &mut W, bytes: &[u8]) -> io::Result<()>
    ensures { OnOk result (Appends (W.contents file.old) (W.contents file.new) bytes.now) }
{
    file.write_all(bytes)
}

impl<R: rt::Files> Files for HostFiles<'_, R>
where
    R::File: Drop,
{
    type In = ReadInput<R::File>;

    ghost contents = { λ _. None };

    ghost failures = { λ s. s.failures };

    ghost is_steady = { λ _. false };

    ghost takes_writes = { λ _. false };

    fn open(&mut self, path: &str) -> Result<Option<ReadInput<R::File>>, DeviceFault> {
        match fs::open(self.rt, path) {
            Ok(file) => Ok(Some(ReadInput::new(file))),
            Err(error) => {
                self.judge(error.kind())?;
                Ok(None)
            }
        }
    }

    fn write_whole(&mut self, path: &str, bytes: &[u8]) -> Result<(), DeviceFault> {
        self.replace(path, bytes)
    }

    fn reason(&self, path: &str) -> Option<Error> {
        self.reason_at(path)
    }
}

/// Why no byte can be read, if none can.
fn reason_unread<R: Read>(file: &mut R) -> Option<Error> {
    let mut byte = [0u8; 1];
    match file.read(&mut byte) {
        Ok(_) => None,
        Err(error) => Some(error),
    }
}
