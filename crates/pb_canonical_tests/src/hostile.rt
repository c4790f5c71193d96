//! Long inputs of shapes that are slow to judge if bytes are read anew at each level or for each record.

use super::sample::{Schema, sample};
use std::alloc::{AllocError, Global};
use std::test::Fail;

/// A piece of bytes, this often.
fn repeated(alloc: Global, piece: &[u8], times: usize) -> Result<Vec<u8>, AllocError> {
    let mut bytes = Vec::new(alloc);
    for _ in 0..times {
        bytes.extend_from_slice(piece)?;
    }
    Ok(bytes)
}

const TIMES: usize = 50_000;

/// Whether long runs of records and groups are answered.
fn answers_runs(schema: &Schema) -> Result<bool, Fail> {
    let unknown = repeated(schema.alloc, b"\xa0\x06\x01", TIMES)?;
    let groups = repeated(schema.alloc, b"\xa3\x06\xa4\x06", TIMES)?;
    let same = repeated(schema.alloc, b"\x08\x01", TIMES)?;
    let open = repeated(schema.alloc, b"\xa3\x06", TIMES)?;
    Ok(
        schema.is_canonical(&unknown)
            && schema.is_canonical(&groups)
            && !schema.is_canonical(&same)
            && !schema.is_canonical(&open),
    )
}

#[test]
fn runs(rt: HostRuntime) -> Result<(), Fail> {
    let schema = sample(rt.alloc(), "T")?;
    assert!(rt; answers_runs(&schema)?);
    Ok(())
}
