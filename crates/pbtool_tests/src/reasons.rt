//! The reasons of the system for files that are refused, as the C library words them.

use pbtool_cli::{Files, HostFiles};
use std::alloc::Global;
use std::io;
use std::test::Fail;

/// Whether a reason has these words.
fn says(alloc: Global, reason: Option<io::Error>, words: &str) -> Result<bool, Fail> {
    let Some(error) = reason else {
        return Ok(false);
    };
    Ok(format!(in alloc; "{error}")?.as_str() == words)
}

// A file that is not there, a path through what is no folder, a folder, a file that can be read, and one that can't be written.
#[test]
fn of_files(rt: HostRuntime) -> Result<(), Fail> {
    let alloc = rt.alloc();
    let mut files = HostFiles::new(&rt);
    assert!(rt;
        says(
            alloc,
            files.reason("/dev/no file"),
            "No such file or directory (os error 2)",
        )? && says(
            alloc,
            files.reason("/dev/null/file"),
            "Not a directory (os error 20)",
        )? && says(alloc, files.reason("/dev"), "Is a directory (os error 21)",)?
            && files.reason("/dev/null").is_none()
    );
    let is_written = files.write_whole("/dev/null/file", b"a").is_ok();
    assert!(rt;
        !is_written
            && says(
                alloc,
                files.reason("/dev/null"),
                "Not a directory (os error 20)",
            )?
    );
    Ok(())
}
