//! The command over files in memory, with devices that fail.

use pb_wire::{FailurePlan, MemOutput};
use pbtool_cli::{MemFiles, run};
use std::alloc::Global;
use std::test::Fail;

/// How the devices of a run fail.
#[derive(Clone, Copy)]
pub struct Failures {
    pub open: FailurePlan,
    pub input: FailurePlan,
    pub out: FailurePlan,
    pub err: FailurePlan,
}

pub const NONE: Failures = Failures {
    open: FailurePlan::NEVER,
    input: FailurePlan::NEVER,
    out: FailurePlan::NEVER,
    err: FailurePlan::NEVER,
};

/// A device that fails after this many calls.
pub fn after(others: u64) -> FailurePlan {
    FailurePlan {
        fails_after: Some(others),
    }
}

/// What a run leaves.
#[derive(Drop)]
pub struct Run {
    pub status: u8,
    pub out: MemOutput,
    pub err: MemOutput,
}

impl Run {
    pub fn is(&self, status: u8, out: &[u8], err: &[u8]) -> bool {
        self.status == status && self.out.bytes() == out && self.err.bytes() == err
    }
}

/// What protoc writes of m.proto: message M { int32 a = 1; }
pub const SET_OF_M: &str =
    "0a240a076d2e70726f746f22110a014d120c0a0161180120012805520161620670726f746f33";

/// Files in memory, which give one byte a call.
pub fn files_of<'a>(
    alloc: Global,
    entries: &[(&str, &'a [u8])],
    failures: Failures,
) -> Result<MemFiles<'a>, Fail> {
    let mut named = Vec::new(alloc);
    for (path, bytes) in entries {
        named.push((String::from_str(alloc, path)?, *bytes))?;
    }
    Ok(MemFiles::new(alloc, named, 1, failures.input, failures.open))
}

/// The files of a table.
pub fn files_in(
    alloc: Global,
    listed: &'static [(&'static str, &'static str)],
    failures: Failures,
) -> Result<MemFiles<'static>, Fail> {
    let mut entries = Vec::new(alloc);
    for (path, content) in listed {
        entries.push((*path, content.as_bytes()))?;
    }
    files_of(alloc, &entries, failures)
}

/// Runs the words after the program's name over files. The outputs take one byte a call.
pub fn run_words(
    alloc: Global,
    words: &[&str],
    files: &mut MemFiles<'_>,
    failures: Failures,
) -> Result<Run, Fail> {
    let mut args = vec![in alloc; String::from_str(alloc, "pbtool")?]?;
    for word in words {
        args.push(String::from_str(alloc, word)?)?;
    }
    let mut out = MemOutput::new(alloc, 1, failures.out);
    let mut err = MemOutput::new(alloc, 1, failures.err);
    let status = run(alloc, args.as_slice(), files, &mut out, &mut err);
    Ok(Run { status, out, err })
}

/// Runs words, with a blank between each two, over files.
pub fn run_separate(
    alloc: Global,
    words: &str,
    files: &mut MemFiles<'_>,
    failures: Failures,
) -> Result<Run, Fail> {
    let mut separate = Vec::new(alloc);
    for word in words.split(' ') {
        separate.push(word)?;
    }
    run_words(alloc, separate.as_slice(), files, failures)
}

/// Runs words over a file `f`.
pub fn run_over(
    alloc: Global,
    words: &[&str],
    file: &[u8],
    failures: Failures,
) -> Result<Run, Fail> {
    let mut files = files_of(alloc, &[("f", file)], failures)?;
    run_words(alloc, words, &mut files, failures)
}
