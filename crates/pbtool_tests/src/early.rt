//! Files that are longer than the bytes that are judged before more are read: those of `raw`, and descriptor sets.

use crate::runs::{Failures, NONE, after, run_over};
use std::alloc::Global;
use std::test::Fail;

/// Records of three bytes each, so that one begins before the end of the first 65,536 bytes and ends after it; and then other bytes.
fn records_and(alloc: Global, others: &[u8]) -> Result<Vec<u8>, Fail> {
    let mut file = Vec::new(alloc);
    for _ in 0..30_000 {
        file.extend_from_slice(b"\x08\x80\x01")?;
    }
    file.extend_from_slice(others)?;
    Ok(file)
}

// A fault of the first bytes is reported, though the file can't be read to its end.
#[test]
fn refused_early(rt: HostRuntime) -> Result<(), Fail> {
    let alloc = rt.alloc();
    let input = Failures {
        input: after(66_000),
        ..NONE
    };
    let zeros = vec![in alloc; 0; 70_000]?;
    let run = run_over(alloc, &["raw", "f"], &zeros, input)?;
    assert!(rt; run.is(1, b"", b"byte 0 path - cause NumberZero\n"));
    let records = records_and(alloc, b"")?;
    let run = run_over(alloc, &["raw", "f"], &records, input)?;
    assert!(rt; run.is(3, b"", b"device f\n"));
    Ok(())
}

/// 250 records of a number that a set does not have, of 303 bytes each, and then other bytes.
fn long_records_and(alloc: Global, others: &[u8]) -> Result<Vec<u8>, Fail> {
    let mut file = Vec::new(alloc);
    for _ in 0..250 {
        file.extend_from_slice(b"\x12\xac\x02")?;
        file.extend_from_slice(&[0x61; 300])?;
    }
    file.extend_from_slice(others)?;
    Ok(file)
}

/// The set of m.proto: message M { int32 a = 1; }
const SET: &[u8] =
    b"\x0a\x21\x0a\x07m.proto\x22\x0e\x0a\x01M\x12\x09\x0a\x01a\x18\x01\x20\x01\x28\x05\x62\x06proto3";

// The same of a descriptor set.
#[test]
fn set_refused_early(rt: HostRuntime) -> Result<(), Fail> {
    let alloc = rt.alloc();
    let input = Failures {
        input: after(66_000),
        ..NONE
    };
    let zeros = vec![in alloc; 0; 70_000]?;
    let run = run_over(alloc, &["check", "f", "M", "f"], &zeros, input)?;
    assert!(rt; run.is(1, b"", b"set byte 0 path - cause NumberZero\n"));
    let lenient = run_over(alloc, &["types", "--lenient", "f"], &zeros, input)?;
    assert!(rt; lenient.is(1, b"", b"set byte 0 path - cause NumberZero\n"));
    let records = long_records_and(alloc, SET)?;
    let run = run_over(alloc, &["types", "f"], &records, input)?;
    assert!(rt; run.is(3, b"", b"device f\n"));
    Ok(())
}
