//! What the words of rows mean.

use std::alloc::Global;
use std::test::Fail;

/// The first word of a line, and the rest after the space.
pub(crate) fn word(line: &str) -> (&str, &str) {
    line.split_once(' ').unwrap_or((line, ""))
}

/// Bytes in hexadecimal. `-` is no byte.
pub(crate) fn bytes_of(alloc: Global, word: &str) -> Result<Vec<u8>, Fail> {
    if word == "-" {
        return Ok(Vec::new(alloc));
    }
    Ok(hex::decode(alloc, word)?)
}
