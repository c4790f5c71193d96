//! Refusals that are explained. What is printed is worked out by the rules of paths, and the bytes counted by hand.

use crate::runs::{Failures, NONE, Run, after, files_in, run_separate};
use std::alloc::Global;
use std::test::Fail;

/// message M { int32 a = 1; string b = 2; M c = 3; map<string, M> d = 4; repeated fixed32 e = 5; }
pub(crate) const SOURCE: &str =
    "syntax = \"proto3\"; message M { int32 a = 1; string b = 2; M c = 3; map<string, M> d = 4; repeated fixed32 e = 5; }";

/// Sources that are refused, each by another rule.
const BAD: &str = "syntax = \"proto3\";\nmessage M {\n  string \u{fc} = 1;\n}\n";

const ALONE: &str = "syntax = \"proto3\"; import \"gone.proto\"; message M { Gone g = 1; }";

const LOST: &str =
    "syntax = \"proto3\"; package p; message M { message N { int32 a = 1; Gone g = 2; } }";

const TWICE: &str = "syntax = \"proto3\"; message M { int32 a = 1; int32 b = 2; int32 c = 2; }";

const FILES: &[(&str, &str)] = &[
    ("ROOT/m.proto", SOURCE),
    ("ROOT/bad.proto", BAD),
    ("ROOT/alone.proto", ALONE),
    ("ROOT/lost.proto", LOST),
    ("ROOT/twice.proto", TWICE),
    ("cut", "\x08\x01\x12\x05ab"),
    ("past", "\x08\x01\x1a\x06\x08\x02\x12\x03ab\x08\x03\x08\x04"),
    ("entry", "\x22\x07\x0a\x01k\x12\x02\x0f\x00"),
    ("group", "\x08\x01\x3b\x08\x02\x34"),
    ("packed", "\x2a\x06\x01\x00\x00\x00\x02\x00"),
    (
        "zeros",
        "\x00\x00\x00\x00\x00\x00\x00\x00\x00\x00\x00\x00\x00\x00\x00\x00\x00\x00\x00\x00\x00\x00",
    ),
    ("frames", "\x02\x08\x01\x00\x04\x08\x01\x12\x05"),
    ("none", "\x0a"),
    ("several", "\x02\x08\x01\x02\x12\x05\x00\x02\x08"),
    ("json", "{\n \"a\": 1,\n \"b\": 2\n}"),
];

/// Words, and after bars the lines on standard error.
const ROWS: &str = r#"
raw --explain cut|byte 6 path 2[0] cause Truncated|  at byte 6 of cut|  2[0]: bytes 2 to 8|  expected: more bytes: the input ends inside a record|  08 01 12 05 61 62|                    ^^ the end
check --explain s M cut|byte 6 path 2[0] cause Truncated|  at byte 6 of cut|  2[0] b, string: bytes 2 to 8|  expected: more bytes: the input ends inside a record|  08 01 12 05 61 62|                    ^^ the end
show --explain s M past|byte 7 path 3[0].2[0] cause PastEnd|  at byte 7 of past|  3[0] c, M: bytes 2 to 9|  2[0] b, string: bytes 6 to 10|  expected: a record that ends no later than its parent|  08 01 1a 06 08 02 12 03 61 62 08 03 08 04|                       ^^
canon s M entry --explain|byte 7 path 4[0].2[0] cause BadType|  at byte 7 of entry|  4[0] d, map<string, M>: bytes 0 to 8|  2[0] value, M: bytes 5 to 8|  expected: a wire type from 0 to 5|  22 07 0a 01 6b 12 02 0f 00|                       ^^
raw --explain group|byte 5 path 7[0] cause WrongEnd|  at byte 5 of group|  7[0]: from byte 2 on|  expected: the end of the group that is open, with its field number|  08 01 3b 08 02 34|                 ^^
check --explain s M group|byte 5 path 7[0] cause WrongEnd|  at byte 5 of group|  7[0] unknown: from byte 2 on|  expected: the end of the group that is open, with its field number|  08 01 3b 08 02 34|                 ^^
check --explain s M packed|byte 6 path 5[0] cause PastEnd|  at byte 6 of packed|  5[0] e, fixed32: bytes 0 to 7|  expected: a record that ends no later than its parent|  2a 06 01 00 00 00 02 00|                    ^^
raw --explain zeros|byte 0 path - cause NumberZero|  at byte 0 of zeros|  expected: a field number above 0|  00 00 00 00 00 00 00 00 00 00 00 00 00 00 00 00 00|  ^^
frames --explain s M frames|frame 2 byte 4 path 2[0] cause PastEnd|  at byte 8 of frames: byte 4 of frame 2, which begins at byte 4|  2[0] b, string: bytes 7 to 13|  expected: a record that ends no later than its parent|  04 08 01 12 05|              ^^
check --explain none M cut|set byte 1 path 1[0] cause Truncated|  at byte 1 of none|  1[0] file, google.protobuf.FileDescriptorProto: from byte 0 on|  expected: more bytes: the input ends inside a record|  0a|     ^^ the end
frames --keep-going --explain s M several|frame 1 byte 2 path 2[0] cause PastEnd|frame 3 byte 2 path 1[0] cause Truncated|frames refused 2 of 4|  at byte 5 of several: byte 2 of frame 1, which begins at byte 3|  2[0] b, string: bytes 4 to 10|  expected: a record that ends no later than its parent|  02 12 05 00 02 08|        ^^|  at byte 9 of several: byte 2 of frame 3, which begins at byte 7|  1[0] a, int32: from byte 8 on|  expected: more bytes: the input ends inside a record|  02 08|        ^^ the end
compile --explain ROOT x bad.proto|source bad.proto byte 40 cause BadToken|  line 3 column 10|    string ü = 1;|           ^|  expected: a word, a number, a string, a sign or a comment
compile --explain ROOT x alone.proto|link alone.proto at - cause MissingImport|  line 1 column 27|  syntax = "proto3"; import "gone.proto"; message M { Gone g = 1; }|                            ^|  the import gone.proto is under no folder that was given|  looked for ROOT/gone.proto
compile --explain ROOT x lost.proto|link lost.proto at p.M.N.g cause NotFound|  line 1 column 73|  syntax = "proto3"; package p; message M { message N { int32 a = 1; Gone g = 2; } }|                                                                          ^|  looked for the type Gone
compile --explain ROOT x twice.proto|link twice.proto at M.c cause NumberTaken|  line 1 column 64|  syntax = "proto3"; message M { int32 a = 1; int32 b = 2; int32 c = 2; }|                                                                 ^|  the number is that of b
raw --explain nowhere|device nowhere|  no file has this path
check --explain s N cut|type N unknown|  the set has one message type: M
from-json --explain s M json x|json byte 17 cause BadValue|  line 3 column 7|   "b": 2|        ^
"#;

/// Runs words over the files and the set.
fn run_line(alloc: Global, words: &str, failures: Failures) -> Result<Run, Fail> {
    let mut files = files_in(alloc, FILES, NONE)?;
    if !run_separate(alloc, "compile ROOT s m.proto", &mut files, NONE)?.is(0, b"", b"") {
        return Err("the source does not compile".into());
    }
    run_separate(alloc, words, &mut files, failures)
}

/// The lines after bars, each with its end.
pub(crate) fn lines_of(alloc: Global, lines: &str) -> Result<String, Fail> {
    let mut text = String::new(alloc);
    for line in lines.split('|') {
        text.push_str(line)?;
        text.push_str("\n")?;
    }
    Ok(text)
}

/// Whether these lines are reported, which begin with those without the flag, and all else is as without it.
fn is_explained(alloc: Global, row: &str) -> Result<bool, Fail> {
    let (words, lines) = row.split_once('|').ok_or("no lines")?;
    let reported = lines_of(alloc, lines)?;
    let run = run_line(alloc, words, NONE)?;
    let plain = run_line(alloc, without_flag(alloc, words)?.as_str(), NONE)?;
    Ok(
        run.status == plain.status
            && run.err.bytes() == reported.as_bytes()
            && run.out.bytes() == plain.out.bytes()
            && reported.as_bytes().starts_with(plain.err.bytes()),
    )
}

/// The words without the flag.
fn without_flag(alloc: Global, words: &str) -> Result<String, Fail> {
    let (before, after) = words.split_once(" --explain").ok_or("no flag")?;
    let mut plain = String::from_str(alloc, before)?;
    plain.push_str(after)?;
    Ok(plain)
}

#[test]
fn rows(rt: HostRuntime) -> Result<(), Fail> {
    for row in ROWS.lines() {
        assert!(rt; row.is_empty() || is_explained(rt.alloc(), row)?, "{row}");
    }
    Ok(())
}

// Each write of standard error fails in turn, and the status stays.
#[test]
fn reports_fail(rt: HostRuntime) -> Result<(), Fail> {
    for count in 0..120 {
        let err = Failures {
            err: after(count),
            ..NONE
        };
        let run = run_line(rt.alloc(), "check --explain s M past", err)?;
        assert!(rt;
            run.status == 1 && run.err.bytes().len() as u64 == count,
            "{count}"
        );
    }
    Ok(())
}
