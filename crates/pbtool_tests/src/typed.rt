//! The commands that read messages by a type. The sets T, F, M, Q and R are what protoc writes of these files; what is printed is worked out
//! by the rules of messages, of their canonical form and of listings.

use crate::runs::{Failures, NONE, Run, SET_OF_M, after, files_of, run_words};
use std::alloc::Global;
use std::test::Fail;

/// message T {
///   int32 a = 1; string b = 2; T c = 3; double d = 4; repeated int32 e = 6; oneof o { uint32 x = 7; T y = 8; }
///   map<string, int32> m = 9; optional bool p = 10; sint32 s = 11; map<uint32, T> n = 12;
/// }
const T: &str =
    "0ad3020a07742e70726f746f22bf020a0154120c0a0161180120012805520161120c0a016218022001280952016212100a016318032001280b32022e54520163120c0a0164180420012801520164120c0a0165180620032805520165120e0a017818072001280d480052017812120a017918082001280b32022e54480052017912170a016d18092003280b32092e542e4d456e74727952016d12110a0170180a200128084801520170880101120c0a0173180b2001281152017312170a016e180c2003280b32092e542e4e456e74727952016e1a340a064d456e74727912100a036b657918012001280952036b657912140a0576616c7565180220012805520576616c75653a0238011a380a064e456e74727912100a036b657918012001280d52036b657912180a0576616c756518022001280b32022e54520576616c75653a02380142030a016f42040a025f70620670726f746f33";

/// enum E { Z = 0; NEG = -1; }
/// message F {
///   int32 a = 1; string b = 2; double d = 4; repeated int32 e = 6; optional bool p = 10; sint32 s = 11;
///   repeated string u = 13; repeated sint32 v = 14 [packed = false]; bytes w = 15; float g = 16; E k = 17;
///   repeated fixed32 h = 18;
/// }
const F: &str =
    "0af0010a07662e70726f746f22be010a0146120c0a0161180120012805520161120c0a0162180220012809520162120c0a0164180420012801520164120c0a016518062003280552016512110a0170180a200128084800520170880101120c0a0173180b20012811520173120c0a0175180d2003280952017512100a0176180e2003281142021000520176120c0a0177180f2001280c520177120c0a016718102001280252016712100a016b18112001280e32022e4552016b120c0a016818122003280752016842040a025f702a1c0a014512050a015a100012100a034e454710ffffffffffffffffff01620670726f746f33";

/// Of proto2: enum E { ONE = 1; TWO = 2; }
/// message Q {
///   optional int32 a = 1; repeated int32 e = 2; optional group G = 3 { optional int32 x = 1; } optional E k = 4;
///   repeated E l = 5 [packed = true];
/// }
const Q: &str =
    "0a90010a07712e70726f746f226e0a0151120c0a0161180120012805520161120c0a016518022003280552016512120a016718032001280a32042e512e4752016712100a016b18042001280e32022e4552016b12140a016c18052003280e32022e454202100152016c1a110a0147120c0a01781801200128055201782a150a014512070a034f4e45100112070a0354574f1002";

/// Of proto2: message R {
///   repeated group L = 1 { optional int32 x = 1; } oneof o { group H = 2 { optional R r = 1; } int32 n = 3; }
///   map<int32, R> m = 4; repeated sint32 p = 5 [packed = false]; repeated fixed32 f = 6 [packed = true]; optional string s = 7;
///   optional R r = 8;
/// }
const R: &str =
    "0a8f020a07722e70726f746f2283020a015212120a016c18012003280a32042e522e4c52016c12140a016818022001280a32042e522e484800520168120e0a016e180320012805480052016e12170a016d18042003280b32092e522e4d456e74727952016d12100a01701805200328114202100052017012100a016618062003280742021001520166120c0a017318072001280952017312100a017218082001280b32022e525201721a110a014c120c0a01781801200128055201781a150a014812100a017218012001280b32022e525201721a380a064d456e74727912100a036b657918012001280552036b657912180a0576616c756518022001280b32022e52520576616c75653a02380142030a016f";

/// The first word of a row, and what is after it.
fn word(row: &str) -> (&str, &str) {
    row.split_once(' ').unwrap_or((row, ""))
}

/// A set by its name, or bytes in hexadecimal. A dash is for none.
fn bytes_of(alloc: Global, word: &str) -> Result<Vec<u8>, Fail> {
    let digits = match word {
        "T" => T,
        "F" => F,
        "M" => SET_OF_M,
        "Q" => Q,
        "R" => R,
        "-" => "",
        digits => digits,
    };
    Ok(hex::decode(alloc, digits)?)
}

/// Runs words over a set `s` and a file `f`.
fn run_on(
    alloc: Global,
    words: &[&str],
    set: &[u8],
    file: &[u8],
    failures: Failures,
) -> Result<Run, Fail> {
    let mut files = files_of(alloc, &[("s", set), ("f", file)], failures)?;
    run_words(alloc, words, &mut files, failures)
}

/// A message of M that is longer than the set.
const LONG: [u8; 60] = [0x08; 60];

/// How `check` of it ends where this read fails of the set or, where that is read, of the message.
fn answer_at(call: u64, set: usize) -> (u8, &'static [u8], &'static [u8]) {
    if call <= set as u64 {
        (3, b"", b"device s\n")
    } else if call <= LONG.len() as u64 {
        (3, b"", b"device f\n")
    } else {
        (0, b"ok\n", b"")
    }
}

fn fails_at(alloc: Global, set: &[u8], call: u64) -> Result<bool, Fail> {
    let input = Failures {
        input: after(call),
        ..NONE
    };
    let run = run_on(alloc, &["check", "s", "M", "f"], set, &LONG, input)?;
    let (status, printed, reported) = answer_at(call, set.len());
    Ok(run.is(status, printed, reported))
}

// Each read of the set fails in turn, and then each of the message. At the last byte of an input its end is still to be read.
#[test]
fn inputs_fail(rt: HostRuntime) -> Result<(), Fail> {
    let set = bytes_of(rt.alloc(), SET_OF_M)?;
    for call in 0..62 {
        assert!(rt; fails_at(rt.alloc(), &set, call)?, "call {call}");
    }
    Ok(())
}

/// Words, after how many calls the files fail, and the device that is reported.
const UNOPENED: &[(&[&str], u64, &str)] = &[
    (&["check", "x", "M", "x"], 9, "device x\n"),
    (&["check", "s", "M", "x"], 9, "device x\n"),
    (&["show", "s", "M", "f"], 0, "device s\n"),
    (&["types", "x"], 9, "device x\n"),
    (&["types", "--lenient", "s", "M"], 0, "device s\n"),
    (&["frames", "s", "M", "f"], 1, "device f\n"),
    (&["canon", "s", "M", "f", "--out", "o"], 2, "device o\n"),
];

fn is_unopened(alloc: Global, words: &[&str], calls: u64, line: &str) -> Result<bool, Fail> {
    let set = bytes_of(alloc, SET_OF_M)?;
    let open = Failures {
        open: after(calls),
        ..NONE
    };
    let run = run_on(alloc, words, &set, b"\x08\x05", open)?;
    Ok(run.is(3, b"", line.as_bytes()))
}

// A file that is not there, and one that can't be opened or written.
#[test]
fn files_fail(rt: HostRuntime) -> Result<(), Fail> {
    for (words, calls, line) in UNOPENED {
        assert!(rt; is_unopened(rt.alloc(), words, *calls, line)?, "{line}");
    }
    Ok(())
}

/// What each command prints of the bytes of a file; `frames` of two messages, after which the last one is cut short.
const PRINTED: &[(&str, &[u8], &[u8])] = &[
    ("check", b"\x08\x05", b"ok\n"),
    ("show", b"\x08\x05", b"a: 5\n"),
    ("canon", b"\x08\x85\x00", b"0805\n"),
    (
        "frames",
        b"\x02\x08\x05\x00\x01",
        b"frame 0 at 0 size 3\n  a: 5\nframe 1 at 3 size 1\n",
    ),
];

/// Whether what went out before a write failed stays, and the device is reported.
fn is_cut(alloc: Global, command: &str, file: &[u8], printed: &[u8]) -> Result<bool, Fail> {
    let set = bytes_of(alloc, SET_OF_M)?;
    let out = Failures {
        out: after(printed.len() as u64),
        ..NONE
    };
    let run = run_on(alloc, &[command, "s", "M", "f"], &set, file, out)?;
    Ok(run.is(3, printed, b"device -\n"))
}

// Each write of standard output fails in turn.
#[test]
fn outputs_fail(rt: HostRuntime) -> Result<(), Fail> {
    for (command, file, printed) in PRINTED {
        for count in 0..printed.len() {
            assert!(rt;
                is_cut(rt.alloc(), command, file, &printed[..count])?,
                "{command} {count}"
            );
        }
    }
    Ok(())
}
