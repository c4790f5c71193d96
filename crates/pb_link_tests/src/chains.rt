//! Long chains of files, each of which imports the next one publicly.

use super::rows::answers;
use super::set_bytes::put_record;
use std::alloc::{AllocError, Global};
use std::test::Fail;

/// message First { Last used = 1; }
const FIRST: &str = "\x22\x19\x0a\x05First\x12\x10\x0a\x04used\x18\x01\x20\x01\x32\x04Last";

/// message Last {}
const LAST: &str = "\x22\x06\x0a\x04Last";

/// A file of this index, which has five digits, that imports another publicly, and its message or none.
fn put_file(
    alloc: Global,
    set: &mut Vec<u8>,
    index: u32,
    import: u32,
    message: &str,
) -> Result<(), AllocError> {
    let file = format!(in alloc;
        "\x0a\x06f{index}\x1a\x06f{import}\x50\x00{message}\x62\x06proto3"
    )?;
    put_record(set, 0x0a, file.as_bytes())
}

/// 2,000 files, each of which imports the next one, and the last one a file of this index. The first uses a message of the last.
fn chain(alloc: Global, behind: u32) -> Result<Vec<u8>, AllocError> {
    let mut set = Vec::new(alloc);
    put_file(alloc, &mut set, 10_000, 10_001, FIRST)?;
    for index in 10_001..11_999u32 {
        put_file(alloc, &mut set, index, index + 1, "")?;
    }
    put_file(alloc, &mut set, 11_999, behind, LAST)?;
    Ok(set)
}

/// A chain whose last file imports a file that is there, and imports nothing.
fn chain_links(alloc: Global) -> Result<bool, Fail> {
    let mut set = chain(alloc, 12_000)?;
    put_record(&mut set, 0x0a, b"\x0a\x06f12000\x62\x06proto3")?;
    answers(alloc, &set, "ok")
}

fn cycle_is_told(alloc: Global) -> Result<bool, Fail> {
    let set = chain(alloc, 10_000)?;
    answers(alloc, &set, "f10000 - ImportCycle")
}

#[test]
fn chains(rt: HostRuntime) -> Result<(), Fail> {
    assert!(rt; chain_links(rt.alloc())? && cycle_is_told(rt.alloc())?);
    Ok(())
}
