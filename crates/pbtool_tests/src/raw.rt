//! The command over files in memory: worked rows, usage, and devices that fail. Expected values are those of the
//! encoding guide's rules, worked out by hand.

use crate::runs::{Failures, NONE, after, run_over};
use pb_wire::{FailurePlan, ReadFault, read_up_to};
use pbtool_cli::{Files, HostFiles, MemFiles};
use std::test::Fail;

const NO_COMMANDS: &[&[&str]] = &[
    &[],
    &["--help"],
    &["unknown", "f"],
    &["raw"],
    &["raw", "--help"],
    &["raw", "f", "g"],
    &["raw", "--long", "f"],
    &["raw", "--nested=1", "f"],
    &["show", "--nested", "f", "T", "f"],
    &["check"],
    &["show", "f", "T"],
    &["canon", "--out", "f", "T", "f"],
    &["frames", "--out", "g", "f", "T", "f"],
    &["frames", "--keep-going=1", "f", "T", "f"],
    &["show", "--keep-going", "f", "T", "f"],
    &["json", "f", "T"],
    &["json", "--pretty", "--short", "f", "T", "f"],
    &["show", "--pretty", "f", "T", "f"],
    &["show", "--decimal=1", "f", "T", "f"],
    &["canon", "--decimal", "f", "T", "f"],
    &["raw", "--lenient", "f"],
    &["types"],
    &["types", "f", "N", "g"],
    &["types", "--lenient"],
    &["compile", "f", "g"],
    &["compile", "-I", "d", "f", "g"],
    &["compile", "f", "g", "h", "-I"],
    &["compile", "--lenient=1", "f", "g", "h"],
    &["compat", "f"],
    &["compat", "f", "g", "T", "h"],
    &["compat", "--both=1", "f", "g"],
    &["types", "--both", "f"],
    &["--version"],
];

#[test]
fn usage(rt: HostRuntime) -> Result<(), Fail> {
    for words in NO_COMMANDS {
        let reported = run_over(rt.alloc(), words, b"", NONE)?;
        assert!(rt;
            reported.status == 2
                && reported.out.bytes().is_empty()
                && !reported.err.bytes().is_empty(),
            "{words:?}"
        );
    }
    // The text of usage is clap's.
    let reported = run_over(rt.alloc(), &["show", "f", "T"], b"", NONE)?;
    assert!(rt; reported.is(2, b"", WITHOUT_A_FILE));
    Ok(())
}

const WITHOUT_A_FILE: &[u8] =
    b"error: the following required arguments were not provided:\n  <FILE>\n\nUsage: pbtool show <SET> <TYPE> <FILE>\n\nFor more information, try '--help'.\n";

pub(crate) const FLAT: &[u8] = b"\x08\x96\x81\x00\x12\x01\x7a\x2d\x01\x00\x00\x00";

// Each read of the file fails in turn, and opening it does.
#[test]
fn input_fails(rt: HostRuntime) -> Result<(), Fail> {
    let alloc = rt.alloc();
    let missing = run_over(alloc, &["raw", "a/g"], FLAT, NONE)?;
    assert!(rt; missing.is(3, b"", b"device a/g\n"));
    let open = Failures {
        open: after(0),
        ..NONE
    };
    assert!(rt; run_over(alloc, &["raw", "f"], FLAT, open)?.is(3, b"", b"device f\n"));
    for call in 0..13 {
        let input = Failures {
            input: after(call),
            ..NONE
        };
        let reported = run_over(alloc, &["raw", "f"], FLAT, input)?;
        assert!(rt; reported.is(3, b"", b"device f\n"), "call {call}");
    }
    let past = Failures {
        input: after(13),
        ..NONE
    };
    assert_eq!(rt; run_over(alloc, &["raw", "f"], FLAT, past)?.status, 0);
    Ok(())
}

const ANSWERS: &[(&[&str], &[u8])] = &[
    (&["raw", "f"], b"1 varint 150\n2 len 1 7a\n5 i32 00000001\n"),
    (&["raw", "--short", "f"], b"08960112017a2d01000000\n"),
];

// Each write of standard output fails in turn: what went out before stays.
#[test]
fn output_fails(rt: HostRuntime) -> Result<(), Fail> {
    let alloc = rt.alloc();
    for (words, answer) in ANSWERS {
        for call in 0..answer.len() {
            let out = Failures {
                out: after(call as u64),
                ..NONE
            };
            let reported = run_over(alloc, words, FLAT, out)?;
            assert!(rt;
                reported.is(3, &answer[..call], b"device -\n"),
                "call {call}"
            );
        }
        let past = Failures {
            out: after(answer.len() as u64),
            ..NONE
        };
        assert!(rt; run_over(alloc, words, FLAT, past)?.is(0, answer, b""));
    }
    Ok(())
}

// A failure of standard error leaves the status.
#[test]
fn error_output_fails(rt: HostRuntime) -> Result<(), Fail> {
    let alloc = rt.alloc();
    for call in 0..10 {
        let err = Failures {
            err: after(call),
            ..NONE
        };
        let refused = run_over(alloc, &["raw", "f"], b"\x08", err)?;
        let missing = run_over(alloc, &["raw", "g"], b"", err)?;
        let usage = run_over(alloc, &["raw"], b"", err)?;
        assert!(rt; refused.status == 1 && missing.status == 3 && usage.status == 2);
    }
    Ok(())
}

// Files in memory keep what is written.
#[test]
fn written_files(rt: HostRuntime) -> Result<(), Fail> {
    let alloc = rt.alloc();
    let entries: Vec<(String, &[u8])> = Vec::new(alloc);
    let mut files = MemFiles::new(alloc, entries, 2, FailurePlan::NEVER, after(3));
    let is_missing = files.open("a")?.is_none();
    files.write_whole("a", b"first")?;
    files.write_whole("a", b"again")?;
    assert!(rt;
        is_missing && files.write_whole("b", b"never").is_err() && files.bytes_at("b").is_none()
    );
    let mut input = files.open("a")?.ok_or("no file")?;
    let read = read_up_to(alloc, &mut input, 9)?;
    assert!(rt;
        files.bytes_at("a") == Some(b"again".as_slice()) && read.as_slice() == b"again".as_slice()
    );
    Ok(())
}

// A path through what is no folder can't be opened, which is no missing file; a folder opens, and can't be read.
#[test]
fn unreadable_files(rt: HostRuntime) -> Result<(), Fail> {
    let mut files = HostFiles::new(&rt);
    assert!(rt;
        files.open("/dev/null/file").is_err()
            && files.write_whole("/dev/null/file", b"a").is_err()
            && files
                .open("/dev/no file")
                .is_ok_and(|input| input.is_none())
    );
    let mut folder = files.open("/dev")?.ok_or("no folder")?;
    let read = read_up_to(rt.alloc(), &mut folder, 9);
    assert!(rt; matches!(read, Err(ReadFault::Device)));
    Ok(())
}
