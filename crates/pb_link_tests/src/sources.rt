//! Sources of proto3 that import a file of proto2, which a set holds.

use super::rows::{files_answer, files_of};
use pb_descr::FileDecl;
use pb_source::{SourceFault, parse};
use std::alloc::Global;
use std::test::Fail;

/// What `protoc` writes of q.proto, which is of proto2: enum E { ONE = 1; TWO = 2; }
/// message Q {
///   optional int32 a = 1; repeated int32 e = 2; optional group G = 3 { optional int32 x = 1; } optional E k = 4;
///   repeated E l = 5 [packed = true];
/// }
const SET: &str =
    "0a90010a07712e70726f746f226e0a0151120c0a0161180120012805520161120c0a016518022003280552016512120a016718032001280a32042e512e4752016712100a016b18042001280e32022e4552016b12140a016c18052003280e32022e454202100152016c1a110a0147120c0a01781801200128055201782a150a014512070a034f4e45100112070a0354574f1002";

/// A row: what p.proto has after its import, and what is answered of the set and it.
const ROWS: &str = "
 => ok
message P { Q q = 1; repeated Q.G g = 2; map<string, Q> m = 3; } => ok
message P { oneof o { Q.G g = 1; int32 n = 2; } } => ok
message P { E k = 1; } => p.proto P.k ClosedEnum
message P { repeated E k = 1; } => p.proto P.k ClosedEnum
message P { map<int32, E> m = 1; } => p.proto P.MEntry.value ClosedEnum
message P { oneof o { E k = 1; } } => p.proto P.k ClosedEnum
enum F { TWO = 0; } => p.proto TWO NameTaken
enum F { A = 1; } => p.proto F BadEnum
service S { rpc a (Q) returns (Q.G); } => ok
";

fn parsed(alloc: Global, source: &str) -> Result<FileDecl, SourceFault> {
    parse(alloc, "p.proto", source.as_bytes())
}

/// The files of the set, and after them that of a source.
fn files_with(alloc: Global, source: &str) -> Result<Vec<FileDecl>, Fail> {
    let mut files = files_of(alloc, SET)?;
    files.push(parsed(alloc, source)?)?;
    Ok(files)
}

fn source_answers(alloc: Global, source: &str, wanted: &str) -> Result<bool, Fail> {
    let files = files_with(alloc, source)?;
    Ok(files_answer(alloc, &files, wanted)?)
}

fn is_told(alloc: Global, row: &str) -> Result<bool, Fail> {
    let (written, wanted) = row.split_once(" => ").ok_or("no answer")?;
    let source = format!(in alloc; "syntax = \"proto3\"; import \"q.proto\"; {written}")?;
    source_answers(alloc, source.as_str(), wanted)
}

#[test]
fn sources(rt: HostRuntime) -> Result<(), Fail> {
    for row in ROWS.lines() {
        assert!(rt; row.is_empty() || is_told(rt.alloc(), row)?, "{row}");
    }
    Ok(())
}
