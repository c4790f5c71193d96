//! Messages that are read from JSON. Canonical bytes are those of the encoding guide's rules.

use crate::runs::{NONE, files_of, run_words};
use pbtool_cli::MemFiles;
use std::alloc::Global;
use std::test::Fail;

const SOURCE: &str = "syntax = \"proto3\"; message M { int32 a = 1; string b = 2; M c = 3; }";

/// The files: the source, and the text.
fn files_in<'a>(alloc: Global, text: &'a str) -> Result<MemFiles<'a>, Fail> {
    files_of(
        alloc,
        &[("ROOT/m.proto", SOURCE.as_bytes()), ("f", text.as_bytes())],
        NONE,
    )
}

/// Whether names that no field has are passed over with the flag.
fn is_lenient(alloc: Global) -> Result<bool, Fail> {
    let mut files = files_in(alloc, "{\"d\":{\"e\":[1]},\"a\":1}")?;
    let compiled = run_words(
        alloc,
        &["compile", "ROOT", "s", "m.proto"],
        &mut files,
        NONE,
    )?;
    let run = run_words(
        alloc,
        &["from-json", "--lenient", "s", "M", "f", "o"],
        &mut files,
        NONE,
    )?;
    Ok(
        compiled.status == 0
            && run.is(0, b"", b"")
            && files.bytes_at("o") == Some(b"\x08\x01".as_slice()),
    )
}

#[test]
fn lenient(rt: HostRuntime) -> Result<(), Fail> {
    assert!(rt; is_lenient(rt.alloc())?);
    Ok(())
}
