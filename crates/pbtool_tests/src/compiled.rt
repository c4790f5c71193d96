//! `compile` over sources in memory. What is written and reported is worked out by the rules of sources, of linking and of
//! sets.

use crate::runs::{Failures, NONE, Run, after, files_of, run_words};
use pbtool_cli::MemFiles;
use std::alloc::Global;
use std::test::Fail;

/// Runs `compile` over sources.
fn compiled<'w>(
    alloc: Global,
    flags: &[&'w str],
    directories: &[&'w str],
    names: &[&'w str],
    files: &mut MemFiles<'_>,
) -> Result<Run, Fail> {
    let mut words = vec![in alloc; "compile"]?;
    for flag in flags {
        words.push(*flag)?;
    }
    for directory in directories {
        words.push("-I")?;
        words.push(*directory)?;
    }
    words.push("ROOT")?;
    words.push("OUT")?;
    for name in names {
        words.push(*name)?;
    }
    run_words(alloc, &words, files, NONE)
}

/// The files of a row.
fn sources_of<'a>(
    alloc: Global,
    sources: &'a [(&'a str, &'a str)],
    failures: Failures,
) -> Result<MemFiles<'a>, Fail> {
    let mut entries = Vec::new(alloc);
    for (path, source) in sources {
        entries.push((*path, source.as_bytes()))?;
    }
    files_of(alloc, &entries, failures)
}

/// The import is longer than the file that is given, and is under the second directory.
const CHAIN: &[(&str, &str)] = &[
    ("ROOT/a.proto", "syntax = \"proto3\"; import \"b.proto\";"),
    (
        "E/b.proto",
        "syntax = \"proto3\"; message LongerThanTheOther { }",
    ),
];

/// After how many calls the files fail, and the device that is reported. A failure ends the search.
const UNOPENED: &[(u64, &str)] = &[
    (0, "device ROOT/a.proto\n"),
    (1, "device ROOT/b.proto\n"),
    (2, "device D/b.proto\n"),
    (3, "device E/b.proto\n"),
    (4, "device OUT\n"),
];

/// After how many reads each file fails, and the device that is reported.
const UNREAD: &[(u64, &str)] = &[
    (0, "device ROOT/a.proto\n"),
    (36, "device ROOT/a.proto\n"),
    (37, "device E/b.proto\n"),
];

fn is_failed(alloc: Global, failures: Failures, line: &str) -> Result<bool, Fail> {
    let mut files = sources_of(alloc, CHAIN, failures)?;
    let run = compiled(alloc, &[], &["D", "E"], &["a.proto"], &mut files)?;
    Ok(run.is(3, b"", line.as_bytes()) && files.bytes_at("OUT").is_none())
}

// A source that can't be opened, an import among them, and a set that can't be written.
#[test]
fn files_fail(rt: HostRuntime) -> Result<(), Fail> {
    for (calls, line) in UNOPENED {
        let open = Failures {
            open: after(*calls),
            ..NONE
        };
        assert!(rt; is_failed(rt.alloc(), open, line)?, "{line}");
    }
    Ok(())
}

// A source that can't be read, an import among them.
#[test]
fn reads_fail(rt: HostRuntime) -> Result<(), Fail> {
    for (calls, line) in UNREAD {
        let input = Failures {
            input: after(*calls),
            ..NONE
        };
        assert!(rt; is_failed(rt.alloc(), input, line)?, "{line}");
    }
    Ok(())
}
