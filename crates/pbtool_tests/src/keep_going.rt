//! Streams in which frames are refused: `frames --keep-going`. The set has message M { int32 a = 1; }. Expected lines are worked out by hand.

use crate::runs::{Failures, NONE, Run, SET_OF_M, after, files_of, run_words};
use std::alloc::Global;
use std::test::Fail;

fn run_on(alloc: Global, words: &[&str], file: &[u8], failures: Failures) -> Result<Run, Fail> {
    let set = hex::decode(alloc, SET_OF_M)?;
    let stream = Vec::from_slice(alloc, file)?;
    let mut files = files_of(
        alloc,
        &[("s", set.as_slice()), ("f", stream.as_slice())],
        failures,
    )?;
    run_words(alloc, words, &mut files, failures)
}

const WORDS: &[&str] = &["frames", "--keep-going", "s", "M", "f"];

/// Two messages, between which one is refused.
const STREAM: &[u8] = b"\x03\x08\x96\x01\x02\x08\x96\x02\x08\x05";

const PRINTED: &[u8] = b"frame 0 at 0 size 4\n  a: 150\nframe 2 at 7 size 3\n  a: 5\n";

const REPORTED: &[u8] = b"frame 1 byte 2 path 1[0] cause PastEnd\nframes refused 1 of 3\n";

// Each write of standard output fails in turn: what went out before remains, and the device alone is reported.
#[test]
fn outputs_fail(rt: HostRuntime) -> Result<(), Fail> {
    for count in 0..PRINTED.len() {
        let out = Failures {
            out: after(count as u64),
            ..NONE
        };
        let run = run_on(rt.alloc(), WORDS, STREAM, out)?;
        assert!(rt; run.is(3, &PRINTED[..count], b"device -\n"), "{count}");
    }
    Ok(())
}

/// Empty frames, more than the set has bytes, before those of the stream.
const EMPTY: usize = 40;

/// What is printed after the empty frames where this read fails.
fn printed_at(call: usize) -> &'static [u8] {
    if call < EMPTY + 4 {
        b""
    } else if call < EMPTY + STREAM.len() {
        b"frame 40 at 40 size 4\n  a: 150\n"
    } else {
        b"frame 40 at 40 size 4\n  a: 150\nframe 42 at 47 size 3\n  a: 5\n"
    }
}

/// Whether what was read before this read of the stream fails is printed, and the device alone is reported.
fn fails_at(alloc: Global, call: usize) -> Result<bool, Fail> {
    let mut stream = vec![in alloc; 0; EMPTY]?;
    stream.extend_from_slice(STREAM)?;
    let mut printed = String::new(alloc);
    for index in 0..EMPTY {
        printed.push_str(format!(in alloc; "frame {index} at {index} size 1\n")?.as_str())?;
    }
    let mut bytes = Vec::from_slice(alloc, printed.as_bytes())?;
    bytes.extend_from_slice(printed_at(call))?;
    let input = Failures {
        input: after(call as u64),
        ..NONE
    };
    Ok(run_on(alloc, WORDS, &stream, input)?.is(3, &bytes, b"device f\n"))
}

// Each read of the stream fails in turn, that of its end too.
#[test]
fn inputs_fail(rt: HostRuntime) -> Result<(), Fail> {
    for call in EMPTY..EMPTY + STREAM.len() + 1 {
        assert!(rt; fails_at(rt.alloc(), call)?, "{call}");
    }
    Ok(())
}

// Standard error fails: the status is that of the reports, and what went out remains.
#[test]
fn reports_fail(rt: HostRuntime) -> Result<(), Fail> {
    for count in 0..REPORTED.len() {
        let err = Failures {
            err: after(count as u64),
            ..NONE
        };
        let run = run_on(rt.alloc(), WORDS, STREAM, err)?;
        assert!(rt; run.is(1, PRINTED, &REPORTED[..count]), "{count}");
    }
    Ok(())
}
