//! Files beside which standard input and output have the name `-`.

ghost use Rattle.std.specs.Prelude.{◌≡◌, ◌≢◌, ◌+◌, None, Some, false, IfOk, OnErr, OnOk};
ghost use Rattle.pbtool_cli.specs.StandardFiles.{failures_of, left_of};

use pb_wire::{DeviceFault, Input, Output, write_all};
use pbtool_files::Files;
use std::io::Error;

/// The name of standard input where it is read, and of standard output where it is written.
const STANDARD: &str = "-";

/// Files, and a standard input and output, whose name is `-`. The input is opened once: a second opening fails. No clause says what
/// the files hold.
#[derive(Drop)]
pub struct StandardFiles<F: Drop, I: Drop, O: Drop> {
    files: F,

    /// Until it is opened.
    input: Option<I>,
    output: O,

    /// How often the standard input could not be opened or the output not be written. The number wraps.
    failures: u64,
}

impl<F: Files + Drop, I: Input + Drop, O: Output + Drop> StandardFiles<F, I, O> {
    /// These files, with this standard input and output. No failure is counted yet.
    pub fn new(files: F, input: I, output: O) -> StandardFiles<F, I, O>
        ensures files { result.files ≡ files }
        ensures input { result.input ≡ Some input }
        ensures output { result.output ≡ output }
        ensures none_failed { result.failures ≡ 0 }
    {
        StandardFiles {
            files,
            input: Some(input),
            output,
            failures: 0,
        }
    }

    /// The standard input, once.
    fn open_standard(&mut self) -> Result<I, DeviceFault>
        ensures given { IfOk result (λ input. self.old.input ≡ Some input) }
        ensures once { OnOk result (self.new.input ≡ None) }
        ensures opened { OnErr result (self.old.input ≡ None) }
        ensures kept { OnOk result (self.new.failures ≡ self.old.failures) }
        ensures failed { OnErr result (self.new.failures ≢ self.old.failures) }
        ensures same { self.new.files ≡ self.old.files }
    {
        match self.input.take() {
            Some(input) => Ok(input),
            None => Err(self.fail()),
        }
    }

    /// Counts a failure.
    fn fail(&mut self) -> DeviceFault
        ensures counted { self.new.failures ≢ self.old.failures }
        ensures same { self.new.files ≡ self.old.files }
    {
        self.failures = self.failures.wrapping_add(1);
        DeviceFault
    }
}

impl<F: Files + Drop, I: Input + Drop, O: Output + Drop> Files for StandardFiles<F, I, O> {
    type In = StandardInput<F::In, I>;

    ghost contents = { λ _. None };

    ghost failures = { λ s. F.failures s.files + s.failures };

    ghost is_steady = { λ _. false };

    ghost takes_writes = { λ _. false };

    fn open(&mut self, path: &str) -> Result<Option<StandardInput<F::In, I>>, DeviceFault> {
        if path == STANDARD {
            return match self.open_standard() {
                Ok(input) => Ok(Some(StandardInput::Standard(input))),
                Err(fault) => Err(fault),
            };
        }
        match self.files.open(path) {
            Ok(Some(input)) => Ok(Some(StandardInput::File(input))),
            Ok(None) => Ok(None),
            Err(fault) => Err(fault),
        }
    }

    fn write_whole(&mut self, path: &str, bytes: &[u8]) -> Result<(), DeviceFault> {
        if path != STANDARD {
            return self.files.write_whole(path, bytes);
        }
        match write_all(&mut self.output, bytes) {
            Ok(()) => Ok(()),
            Err(_) => Err(self.fail()),
        }
    }

    fn reason(&self, path: &str) -> Option<Error> {
        if path == STANDARD {
            return None;
        }
        self.files.reason(path)
    }
}

/// A file that is read, or the standard input.
#[derive(Drop)]
pub enum StandardInput<A: Drop, B: Drop> {
    File(A),
    Standard(B),
}

impl<A: Input + Drop, B: Input + Drop> Input for StandardInput<A, B> {
    ghost left = { left_of A.left B.left };

    ghost failures = { failures_of A.failures B.failures };

    ghost is_steady = { λ _. false };

    fn read(&mut self, into: &mut [u8]) -> Result<usize, DeviceFault> {
        match self {
            StandardInput::File(input) => input.read(into),
            StandardInput::Standard(input) => input.read(into),
        }
    }
}
