//! Sources with the descriptor set of what they declare, or with their fault.

use pb_descr::write_set;
use pb_source::parse;
use std::alloc::Global;
use std::test::Fail;

/// A row: a source after its syntax and a blank, and the bytes of the set of m.proto, or the byte and the cause of the fault.
const ROWS: &str = "
 => 0a110a076d2e70726f746f620670726f746f33
message M { int32 a = 1; } => 0a210a076d2e70726f746f220e0a014d12090a0161180120012805620670726f746f33
message M { optional int32 a = 1; } => 0a2c0a076d2e70726f746f22190a014d120e0a0161180120012805480088010142040a025f61620670726f746f33
message M { int32 a = 1; } option java_package = 'x'; => 0a210a076d2e70726f746f220e0a014d12090a0161180120012805620670726f746f33
message M { int32 a = 010; } => 0a210a076d2e70726f746f220e0a014d12090a0161180820012805620670726f746f33
message M { int32 a = 0x1F; } => 0a210a076d2e70726f746f220e0a014d12090a0161181f20012805620670726f746f33
message M { int32 message = 1; } => 0a270a076d2e70726f746f22140a014d120f0a076d657373616765180120012805620670726f746f33
message M { map<string, int32> my_map = 9; } => 0a630a076d2e70726f746f22500a014d121d0a066d795f6d617018092003280b320d2e4d2e4d794d6170456e7472791a2c0a0a4d794d6170456e747279120b0a036b6579180120012809120d0a0576616c75651802200128053a023801620670726f746f33
message M { group g = 1; } => 0a260a076d2e70726f746f22130a014d120e0a016718012001320567726f7570620670726f746f33
import 'a'; import public 'b' \"c\"; import weak 'd'; package p.q; import public 'e'; => 0a270a076d2e70726f746f1203702e711a01611a0262631a01641a016550015003620670726f746f33
package p; message M { message N { map<int64, .x.Y> m = 1; } map n = 2; map.o r = 3; } => 0a84010a076d2e70726f746f120170226e0a014d120c0a016e1802200132036d6170120e0a01721803200132056d61702e6f1a4b0a014e12180a016d18012003280b320d2e702e4d2e4e2e4d456e7472791a2c0a064d456e747279120b0a036b657918012001280312110a0576616c75651802200132042e782e593a023801620670726f746f33
message M { repeated double d = 1 [packed = false, x.y = -1, packed = true]; oneof o { option a = 'b'; M m = 2; ; bytes b = 3; } optional string s = 4; oneof p { int32.x i = 5; } } => 0a740a076d2e70726f746f22610a014d120d0a016418012003280142021001120c0a016d1802200132014d4800120b0a016218032001280c4800120e0a0173180420012809480288010112120a0169180520013207696e7433322e78480142030a016f42030a017042040a025f73620670726f746f33
message M { reserved 5, 7 to 9, 10 to max; reserved 'a', \"b\" 'c'; enum E { A = 0; } ; option deprecated = true; } => 0a3f0a076d2e70726f746f222c0a014d220a0a014512050a014110004a04080510064a040807100a4a08080a10808080800252016152026263620670726f746f33
enum E { option allow_alias = false; A = 0; B = -2147483648 [x = 1, y.z = +inf]; ; option allow_alias = true; reserved -4 to -2, 7 to max; reserved 'q'; option z = 'r' 's'; C = 0; } => 0a5d0a076d2e70726f746f2a4a0a014512050a01411000120e0a01421080808080f8ffffffff0112050a014310001a021001221608fcffffffffffffffff0110feffffffffffffffff012208080710ffffffff072a0171620670726f746f33
service S { rpc A (stream stream) returns (.a.b); option x = 1; rpc B (c) returns (stream .stream) { option y = z; ; } ; } => 0a3e0a076d2e70726f746f322b0a015312130a0141120673747265616d1a042e612e62280112110a01421201631a072e73747265616d3001620670726f746f33
message M { required int32 a = 1; } => 31 Unexpected
message M { optional group G = 1 { } } => 52 Unexpected
message M { int32 a = 1 [(x) = 1]; } => 44 CustomOption
message M { int32 a = 2147483648; } => 41 NumberTooLarge
message M { int32 a = 99999999999999999999999; } => 41 NumberTooLarge
message M { int32 a = 08; } => 41 Unexpected
message M { int32 a = 1 [default = 1]; } => 44 Unexpected
message M { int32 a = 1 [packed = yes]; } => 53 Unexpected
message M { reserved 2147483648; } => 40 NumberTooLarge
message M { reserved -1; } => 40 Unexpected
message M { reserved '\\xff'; } => 40 BadUtf8
import 'a' '\\377'; => 26 BadUtf8
enum E { A = -2147483649; } => 33 NumberTooLarge
enum E { option allow_alias = 1; } => 49 Unexpected
package a; ; package b; => 32 Unexpected
message M { map<float, int32> m = 1; } => 35 Unexpected
message M { oneof o { repeated int32 a = 1; } } => 56 Unexpected
message M { int32 a = 1 => 42 Unexpected
option a.(b) = 1; => 28 CustomOption
option a = {}; => 30 Unexpected
option a = 1.5; => 31 Unexpected
/* x => 19 OpenComment
import 'a => 26 OpenText
import '\\q'; => 27 BadToken
";

/// What is reported of a source: the bytes of its set, or its fault.
fn told(alloc: Global, source: &[u8]) -> Result<String, Fail> {
    match parse(alloc, "m.proto", source) {
        Ok(decl) => {
            let files = vec![in alloc; decl]?;
            let set = write_set(alloc, &files)?;
            Ok(hex::encode(alloc, &set)?)
        }
        Err(fault) => Ok(format!(in alloc; "{} {}", fault.byte, fault.cause)?),
    }
}

/// Whether a row's source is answered as it says, or in this other way.
fn holds(alloc: Global, row: &str, otherwise: &str) -> Result<bool, Fail> {
    let (written, wanted) = row.split_once(" => ").ok_or("no source")?;
    let source = format!(in alloc; "syntax = \"proto3\"; {written}")?;
    let told = told(alloc, source.as_bytes())?;
    Ok(told.as_str() == wanted || told.as_str() == otherwise)
}

#[test]
fn sources(rt: HostRuntime) -> Result<(), Fail> {
    for row in ROWS.lines() {
        assert!(rt; row.is_empty() || holds(rt.alloc(), row, "")?, "{row}");
    }
    Ok(())
}

/// Where an allocation is refused, as by `.ci/allocations`, that is reported at byte 0, or the answer is as before.
#[test]
fn allocations(rt: HostRuntime) -> Result<(), Fail> {
    for row in ROWS.lines() {
        assert!(rt;
            row.is_empty() || holds(rt.alloc(), row, "0 Memory")?,
            "{row}"
        );
    }
    Ok(())
}

/// Sources as they are, with their faults.
const WHOLE: &[(&[u8], &str)] = &[
    (b"", "0 NotProto3"),
    (b"/**/", "4 NotProto3"),
    (b"; syntax = \"proto3\";", "0 NotProto3"),
    (b"syntax = \"proto2\";", "9 NotProto3"),
    (b"syntax = \"\";", "9 NotProto3"),
    (
        b"syntax = \"proto2\"; message M { optional group G = 1 { } }",
        "9 NotProto3",
    ),
    (b"syntax = \"proto3\"", "17 Unexpected"),
    (
        b"\xef\xbb\xbfsyntax = \"proto3\"; message M { required int32 a = 1; }",
        "34 Unexpected",
    ),
    (b"syntax = \"proto3\"; \xff", "19 BadUtf8"),
    (b"syntax = \"proto3\"; /* x", "19 OpenComment"),
    (b"syntax = \"proto3\"; import \"a\n", "26 OpenText"),
    (b"syntax = \"proto3\"; import \"\\q\";", "27 BadToken"),
];

#[test]
fn whole_sources(rt: HostRuntime) -> Result<(), Fail> {
    for row in WHOLE {
        let told = told(rt.alloc(), row.0)?;
        assert!(rt; told.as_str() == row.1, "{}", row.1);
    }
    Ok(())
}

/// A part this many times over.
fn push_repeated(source: &mut String, part: &str, count: u32) -> Result<(), Fail> {
    for _ in 0..count {
        source.push_str(part)?;
    }
    Ok(())
}

/// A number of messages, each in the one before, of which this many are closed.
fn nested(alloc: Global, count: u32, closed: u32) -> Result<String, Fail> {
    let mut source = String::from_str(alloc, "syntax = \"proto3\"; ")?;
    push_repeated(&mut source, "message A{", count)?;
    push_repeated(&mut source, "}", closed)?;
    Ok(source)
}

#[test]
fn nests(rt: HostRuntime) -> Result<(), Fail> {
    let alloc = rt.alloc();
    assert!(rt; parse(alloc, "m.proto", nested(alloc, 64, 64)?.as_bytes()).is_ok());
    for closed in [0, 65] {
        let deep = told(alloc, nested(alloc, 65, closed)?.as_bytes())?;
        assert_eq!(rt; deep.as_str(), "659 NestedTooDeep");
    }
    let open = told(alloc, nested(alloc, 64, 63)?.as_bytes())?;
    assert_eq!(rt; open.as_str(), "722 Unexpected");
    Ok(())
}

#[test]
fn long_sources(rt: HostRuntime) -> Result<(), Fail> {
    let alloc = rt.alloc();
    for part in [";", "//\n", "/**/"] {
        let mut source = String::from_str(alloc, "syntax = \"proto3\";")?;
        push_repeated(&mut source, part, 1_000_000)?;
        let told = told(alloc, source.as_bytes())?;
        assert_eq!(rt; told.as_str(), "0a110a076d2e70726f746f620670726f746f33");
    }
    Ok(())
}
