//! Sources that are read leniently: what is read and dropped, the faults of it, and sources of proto2.

use pb_descr::write_set;
use pb_source::{parse, parse_lenient};
use std::alloc::Global;
use std::test::Fail;

/// A row: a source after its syntax and a blank, and another source that declares the same to `protoc`, with options that say nothing left out,
/// and which the strict grammar takes; or the byte and the cause of the fault.
const ROWS: &str = "
option (a) = 1; => 
option (a.b).c.(.d.e) = -1.5; => 
option a = 1.; option b = 1.e5; option c = .5E+3; option d = +1e-3; option e = -.5; option f = 08.5; option g = inf; option h = -nan; option i = 1e5; option j = 1.5e5; option k = 1.e-5; => 
option (a) = { b: 1 c { d: [1, 2] e < f: 'x' > } -1.5 { } }; => 
option a = {}; => 
message M { repeated int32 a = 1 [(x) = 1, packed = true, (y).z = {a: [b]}]; } => message M { repeated int32 a = 1 [packed = true]; }
message M { repeated int32 a = 1 [(packed) = 1.5, (packed).b = false]; } => message M { repeated int32 a = 1; }
message M { map<int32, string> a = 1 [(x) = {}]; option (y) = 1.5; oneof o { option (z) = 1; int32 b = 2 [(x) = -inf]; } } => message M { map<int32, string> a = 1; oneof o { int32 b = 2; } }
enum E { option (x) = {}; option allow_alias = true; A = 0 [(y) = {}]; B = 0 [(y) = 0x1F, z = .5]; } => enum E { option allow_alias = true; A = 0; B = 0; }
enum E { option (allow_alias) = 5; A = 0; } => enum E { A = 0; }
message M { } service S { option (x) = 1e-3; rpc A (M) returns (M) { option (google.api.http) = { get: '/v1/{name=*}' additional_bindings { } }; } } => message M { } service S { rpc A (M) returns (M); }
extend google.protobuf.FieldOptions { string s = 50000; repeated int32 t = 50001 [(u) = 1]; optional .a.B v = 50002; ; } => 
extend .X { } => 
message M { extend X { int32 y = 1; } int32 a = 1; extensions 100 to 199, 300 to max [declaration = {number: 100}, verification = UNVERIFIED]; extensions 5; } => message M { int32 a = 1; }
option a = 1x; => 30 Unexpected
option a = 08; => 32 Unexpected
option a = 1e; => 32 Unexpected
option a = 1ee; => 30 Unexpected
option a = 1e5.5; => 33 Unexpected
option a = 0x1.5; => 33 Unexpected
option a = 0x; => 30 Unexpected
option a = 1.5.5; => 33 Unexpected
option a = 1.f; => 32 Unexpected
option a = .e5; => 31 Unexpected
option a = 1e-; => 33 Unexpected
option a = --1; => 31 Unexpected
option a = 'x' {}; => 34 Unexpected
option a = { b: [1, 2 }; => 41 Unexpected
option a = { < ] }; => 34 Unexpected
option a = { } }; => 34 Unexpected
option a = [1]; => 30 Unexpected
option a = {; => 32 Unexpected
option (a = 1; => 29 Unexpected
option () = 1; => 27 Unexpected
option (a)b = 1; => 29 Unexpected
option (a.) = 1; => 29 Unexpected
extend X { required int32 a = 1; } => 30 Unexpected
extend X { map<int32, int32> a = 1; } => 33 Unexpected
extend { } => 26 Unexpected
extend X { int32 a = 2147483648; } => 40 NumberTooLarge
extend X  => 28 Unexpected
message M { extensions; } => 41 Unexpected
message M { extensions 1 [];  } => 45 Unexpected
message M { extensions 2147483648; } => 42 NumberTooLarge
message M { required int32 a = 1; } => 31 Unexpected
message M { repeated int32 a = 1 [packed = 1.5]; } => 62 Unexpected
message M { int32 a = 1 [default = 1]; } => 44 Unexpected
enum E { option allow_alias = {}; } => 49 Unexpected
service S { extend X { } } => 31 Unexpected
enum E { extend = 1; extensions = 2; extend X { } } => 63 Unexpected
";

/// Whether a row's source declares what the other one does, or has the fault that it names, or this one.
fn holds(alloc: Global, row: &str, otherwise: &str) -> Result<bool, Fail> {
    let (written, wanted) = row.split_once(" => ").ok_or("no source")?;
    let source = format!(in alloc; "syntax = \"proto3\"; {written}")?;
    let same = format!(in alloc; "syntax = \"proto3\"; {wanted}")?;
    match parse_lenient(alloc, "m.proto", source.as_bytes()) {
        Ok(decl) => match parse(alloc, "m.proto", same.as_bytes()) {
            Ok(other) => Ok(decl == other),
            Err(fault) => {
                let fault = format!(in alloc; "{} {}", fault.byte, fault.cause)?;
                Ok(fault.as_str() == otherwise)
            }
        },
        Err(fault) => {
            let fault = format!(in alloc; "{} {}", fault.byte, fault.cause)?;
            Ok(fault.as_str() == wanted || fault.as_str() == otherwise)
        }
    }
}

#[test]
fn sources(rt: HostRuntime) -> Result<(), Fail> {
    for row in ROWS.lines() {
        assert!(rt; row.is_empty() || holds(rt.alloc(), row, "")?, "{row}");
    }
    Ok(())
}

/// Where an allocation is refused, which `.ci/allocations` does, the fault is `Memory` at byte 0, or the answer is the same.
#[test]
fn allocations(rt: HostRuntime) -> Result<(), Fail> {
    for row in ROWS.lines() {
        assert!(rt;
            row.is_empty() || holds(rt.alloc(), row, "0 Memory")?,
            "{row}"
        );
    }
    Ok(())
}

/// What a source is refused with; nothing where it is taken.
fn refused_with(alloc: Global, source: &[u8]) -> Result<String, Fail> {
    match parse_lenient(alloc, "m.proto", source) {
        Ok(_) => Ok(String::new(alloc)),
        Err(fault) => Ok(format!(in alloc; "{} {}", fault.byte, fault.cause)?),
    }
}

#[test]
fn other_syntax(rt: HostRuntime) -> Result<(), Fail> {
    let alloc = rt.alloc();
    assert!(rt; refused_with(alloc, b"")?.as_str() == "");
    assert!(rt; refused_with(alloc, b"// nothing")?.as_str() == "");
    assert!(rt; refused_with(alloc, b"syntax = \"proto2\";")?.as_str() == "");
    assert!(rt; refused_with(alloc, b"syntax = 'proto' '2';")?.as_str() == "");
    assert!(rt; refused_with(alloc, b"syntax = \"proto1\";")?.as_str() == "9 NotProto3");
    assert!(rt; refused_with(alloc, b"syntax = \"\";")?.as_str() == "9 NotProto3");
    assert!(rt; refused_with(alloc, b"syntax = proto2;")?.as_str() == "9 Unexpected");
    assert!(rt; refused_with(alloc, b"syntax;")?.as_str() == "6 Unexpected");
    assert!(rt; refused_with(alloc, b"edition = \"2023\";")?.as_str() == "0 Unexpected");
    assert!(rt;
        refused_with(alloc, b"syntax = \"proto2\"; syntax = \"proto2\";")?.as_str()
            == "19 Unexpected"
    );
    assert!(rt;
        refused_with(alloc, b"package a; syntax = \"proto2\";")?.as_str() == "11 Unexpected"
    );
    Ok(())
}

/// A row: a source of proto2 after its syntax and a blank, and the bytes that `protoc` writes of it, or the byte and the cause of the fault. Of the
/// bytes what says nothing of a declaration, as a label `optional` or a default value, is left out.
const PROTO2_ROWS: &str = "
 => 0a090a076d2e70726f746f
message M { optional int32 a = 1; } => 0a190a076d2e70726f746f220e0a014d12090a0161180120012805
message M { required int32 a = 1; repeated int32 b = 2; } => 0a240a076d2e70726f746f22190a014d12090a016118012001280512090a0162180220032805
message M { optional int32 a = 1 [default = -5]; optional double b = 2 [default = -inf]; optional string c = 3 [default = 'x' 'y']; optional float d = 4 [default = 1.5e3]; } => 0a3a0a076d2e70726f746f222f0a014d12090a016118012001280512090a016218022001280112090a016318032001280912090a0164180420012802
message M { repeated int32 a = 1 [packed = true]; repeated int32 b = 2 [packed = false]; repeated int32 c = 3; } => 0a370a076d2e70726f746f222c0a014d120d0a016118012003280542021001120d0a01621802200328054202100012090a0163180320032805
message M { oneof o { int32 a = 1; string b = 2 [default = 'x']; } optional bool c = 3; } => 0a380a076d2e70726f746f222d0a014d120b0a01611801200128054800120b0a0162180220012809480012090a016318032001280842030a016f
message M { map<string, int32> a = 1; } => 0a4e0a076d2e70726f746f22430a014d12140a016118012003280b32092e4d2e41456e7472791a280a0641456e747279120b0a036b6579180120012809120d0a0576616c75651802200128053a023801
enum E { A = 5; B = 0; C = -1; } => 0a2c0a076d2e70726f746f2a210a014512050a0141100512050a01421000120e0a014310ffffffffffffffffff01
message M { extensions 100 to 199; extensions 300 to max; optional int32 a = 1; } extend M { optional int32 x = 100; repeated string y = 101; } => 0a190a076d2e70726f746f220e0a014d12090a0161180120012805
message M { extensions 100 to 199; message N { extend M { optional int32 x = 100 [default = 7]; } optional int32 a = 2; } } => 0a1e0a076d2e70726f746f22130a014d1a0e0a014e12090a0161180220012805
message M { reserved 5, 7 to 9; reserved 'x'; optional int32 a = 1; } => 0a280a076d2e70726f746f221d0a014d12090a01611801200128054a04080510064a040807100a520178
package p; option java_package = 'x'; message M { message N { required bytes b = 3; } enum E { A = 1; } } => 0a2d0a076d2e70726f746f120170221f0a014d1a0e0a014e12090a016218032001280c220a0a014512050a01411001
message M { optional int32 optional = 1; required int32 required = 2; repeated int32 map = 3; optional int32 group = 4; } => 0a4e0a076d2e70726f746f22430a014d12100a086f7074696f6e616c18012001280512100a087265717569726564180220012805120b0a036d6170180320032805120d0a0567726f7570180420012805
message M { option message_set_wire_format = false; optional int32 default = 1 [deprecated = true, default = 0x1F]; } => 0a1f0a076d2e70726f746f22140a014d120f0a0764656661756c74180120012805
message M { optional group Result = 1 { optional int32 a = 2; } } => 0a3e0a076d2e70726f746f22330a014d12190a06726573756c7418012001280a32092e4d2e526573756c741a130a06526573756c7412090a0161180220012805
message M { repeated group Result = 1 { required string url = 2; repeated group In = 3 { } } optional int32 b = 4; required group G_2b = 5 [deprecated = true] { ; } } => 0a8a010a076d2e70726f746f227f0a014d12190a06726573756c7418012003280a32092e4d2e526573756c7412090a016218042001280512150a04675f326218052001280a32072e4d2e475f32621a350a06526573756c74120b0a0375726c18022001280912180a02696e18032003280a320c2e4d2e526573756c742e496e1a040a02496e1a060a04475f3262
package p.q; message M { message A { optional group G = 1 { optional int32 g = 2; } } } => 0a3f0a076d2e70726f746f1203702e71222f0a014d1a2a0a014112150a016718012001280a320a2e702e712e4d2e412e471a0e0a014712090a0167180220012805
message M { oneof o { int32 a = 1; group G = 2 { optional int32 b = 1; } string c = 3; } optional group H = 4 { map<int32, string> m = 1; } } => 0aa9010a076d2e70726f746f229d010a014d120b0a0161180120012805480012110a016718022001280a32042e4d2e474800120b0a01631803200128094800120f0a016818042001280a32042e4d2e481a0e0a014712090a01621801200128051a450a014812160a016d18012003280b320b2e4d2e482e4d456e7472791a280a064d456e747279120b0a036b6579180120012805120d0a0576616c75651802200128093a02380142030a016f
message M { extensions 100 to max; message N { } extend M { optional group G = 100 { optional int32 a = 1; } } map<int32, int32> m = 1; optional group H = 2 { } } => 0a790a076d2e70726f746f226e0a014d12140a016d18012003280b32092e4d2e4d456e747279120f0a016818022001280a32042e4d2e481a030a014e1a0e0a014712090a01611801200128051a280a064d456e747279120b0a036b6579180120012805120d0a0576616c75651802200128053a0238011a030a0148
message M { extensions 100 to max; } message Z { } extend M { repeated group G = 100 { enum E { A = 0; } } optional int32 i = 101; optional group H = 102 { } } message Y { } => 0a2e0a076d2e70726f746f22030a014d22030a015a220f0a0147220a0a014512050a0141100022030a014822030a0159
message M { int32 a = 1; } => 31 Unexpected
message M { optional group g = 1 { } } => 46 Unexpected
message M { optional group = 1; } => 46 Unexpected
message M { group G = 1 { } } => 31 Unexpected
message M { optional group G = 1; } => 51 Unexpected
message M { optional group.A a = 1; } => 45 Unexpected
message M { optional group G = 2147483648 { } } => 50 NumberTooLarge
message M { optional group G = 1 { int32 a = 1; } } => 54 Unexpected
message M { optional group G = 1 { }; } } => 59 Unexpected
message M { oneof o { optional group G = 1 { } } } => 56 Unexpected
message M { oneof o { group g = 1 { } } } => 47 Unexpected
extend X { group G = 1 { } } => 30 Unexpected
extend X { optional group g = 1 { } } => 45 Unexpected
message M { optional map<int32, int32> a = 1; } => 43 Unexpected
message M { map a = 1; } => 35 Unexpected
message M { oneof o { optional int32 a = 1; } } => 56 Unexpected
message M { optional int32 a = 1 [default]; } => 60 Unexpected
message M { optional int32 a = 1 [default = ]; } => 63 Unexpected
extend X { int32 a = 1; } => 30 Unexpected
extend X { map<int32, int32> a = 1; } => 30 Unexpected
";

/// The bytes of the set of a source of proto2, or its fault.
fn proto2_set(alloc: Global, written: &str) -> Result<String, Fail> {
    let source = format!(in alloc; "syntax = \"proto2\"; {written}")?;
    match parse_lenient(alloc, "m.proto", source.as_bytes()) {
        Ok(decl) => {
            let files = vec![in alloc; decl]?;
            let set = write_set(alloc, &files)?;
            Ok(hex::encode(alloc, &set)?)
        }
        Err(fault) => Ok(format!(in alloc; "{} {}", fault.byte, fault.cause)?),
    }
}

#[test]
fn proto2_sources(rt: HostRuntime) -> Result<(), Fail> {
    for row in PROTO2_ROWS.lines() {
        if let Some((written, wanted)) = row.split_once(" => ") {
            assert!(rt;
                proto2_set(rt.alloc(), written)?.as_str() == wanted,
                "{row}"
            );
        }
    }
    Ok(())
}

/// This sign 2^18 times.
fn many(alloc: Global, sign: &str) -> Result<String, Fail> {
    let mut text = String::from_str(alloc, sign)?;
    for _ in 0..18 {
        let half = String::from_str(alloc, text.as_str())?;
        text.push_str(&half)?;
    }
    Ok(text)
}

/// A source of proto2 that begins so, and then has this many groups, each in the one before, and in the last one these words.
fn with_groups(alloc: Global, written: &str, count: u32, inside: &str) -> Result<String, Fail> {
    let mut source = String::from_str(alloc, "syntax = \"proto2\"; ")?;
    source.push_str(written)?;
    for _ in 0..count {
        source.push_str("optional group G = 1 { ")?;
    }
    source.push_str(inside)?;
    for _ in 0..count {
        source.push('}')?;
    }
    source.push('}')?;
    Ok(source)
}

/// What such a source is refused with.
fn groups_refused_with(
    alloc: Global,
    written: &str,
    count: u32,
    inside: &str,
) -> Result<String, Fail> {
    let source = with_groups(alloc, written, count, inside)?;
    refused_with(alloc, source.as_bytes())
}

/// Messages and groups nest at most 64 deep together, also in a oneof. A group in a block of `extend` is a message of the scope around.
#[test]
fn nested_groups(rt: HostRuntime) -> Result<(), Fail> {
    let alloc = rt.alloc();
    let inside = groups_refused_with(alloc, "message M { ", 63, "")?;
    assert!(rt; inside.as_str() == "");
    let deep = groups_refused_with(alloc, "message M { ", 64, "")?;
    assert!(rt; deep.as_str() == "1489 NestedTooDeep");
    let extended = groups_refused_with(alloc, "extend M { ", 64, "")?;
    assert!(rt; extended.as_str() == "");
    let deep_extended = groups_refused_with(alloc, "extend M { ", 65, "")?;
    assert!(rt; deep_extended.as_str() == "1511 NestedTooDeep");
    let in_oneof = "oneof o { group H = 2 { } }";
    let deep_in_oneof = groups_refused_with(alloc, "message M { ", 63, in_oneof)?;
    assert!(rt; deep_in_oneof.as_str() == "1490 NestedTooDeep");
    Ok(())
}

/// Many brackets are read in linear time, and take no more stack than one.
#[test]
fn deep_aggregates(rt: HostRuntime) -> Result<(), Fail> {
    let alloc = rt.alloc();
    let mut source = String::from_str(alloc, "syntax = \"proto3\"; option a = ")?;
    source.push_str(&many(alloc, "{")?)?;
    assert!(rt; refused_with(alloc, source.as_bytes())?.as_str() == "262174 Unexpected");
    source.push_str(&many(alloc, "}")?)?;
    source.push(';')?;
    assert!(rt; refused_with(alloc, source.as_bytes())?.as_str() == "");
    source.push('}')?;
    assert!(rt; refused_with(alloc, source.as_bytes())?.as_str() == "524319 Unexpected");
    Ok(())
}

/// A source of all kinds of lines, whose prefixes are refused or taken.
const WHOLE: &str =
    "syntax = \"proto3\"; package p; import 'a'; option (x).y = { a: 1 b { c: [ 1.5e-3, 'd' ] } }; extend .X { repeated int32 a = 1 [(y) = -.5]; }
message M { extensions 4 to max [z = 1.]; oneof o { M m = 1 [(z) = inf]; } map<string, M> n = 2; extend X { M m = 3; } }
enum E { option (w) = {}; A = 0 [(v) = 1e5]; } service S { rpc A (M) returns (stream M) { option (u) = { get: '/' }; } }";

/// Whether a prefix of the source is taken, or is refused no further than its end.
fn prefix_holds(alloc: Global, len: usize) -> Result<bool, Fail> {
    let bytes = WHOLE.as_bytes();
    let front = bytes.get(..len).ok_or("no prefix")?;
    match parse_lenient(alloc, "m.proto", front) {
        Ok(_) => Ok(true),
        Err(fault) => Ok(fault.byte <= len as u64),
    }
}

#[test]
fn prefixes(rt: HostRuntime) -> Result<(), Fail> {
    for len in 0..WHOLE.len() {
        assert!(rt; prefix_holds(rt.alloc(), len)?, "{len}");
    }
    assert!(rt; refused_with(rt.alloc(), WHOLE.as_bytes())?.as_str() == "");
    Ok(())
}
