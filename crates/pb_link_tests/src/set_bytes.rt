//! Parts of sets as bytes, of which large sets are made.

use std::alloc::{AllocError, Global};

/// A number in four bytes, also a small one.
pub(crate) fn put_number(out: &mut Vec<u8>, number: u64) -> Result<(), AllocError> {
    out.push((number % 128) as u8 | 0x80)?;
    out.push((number / 128 % 128) as u8 | 0x80)?;
    out.push((number / 16_384 % 128) as u8 | 0x80)?;
    out.push((number / 2_097_152 % 128) as u8)?;
    Ok(())
}

/// A record: its tag, the length of its bytes, and these.
pub(crate) fn put_record(out: &mut Vec<u8>, tag: u8, bytes: &[u8]) -> Result<(), AllocError> {
    out.push(tag)?;
    put_number(out, bytes.len() as u64)?;
    out.extend_from_slice(bytes)?;
    Ok(())
}

/// What comes before a record, and the record.
pub(crate) fn with_record(
    alloc: Global,
    before: &[u8],
    tag: u8,
    bytes: &[u8],
) -> Result<Vec<u8>, AllocError> {
    let mut out = Vec::from_slice(alloc, before)?;
    put_record(&mut out, tag, bytes)?;
    Ok(out)
}
