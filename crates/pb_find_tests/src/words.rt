//! The meaning of the words of rows.

use std::alloc::Global;
use std::test::Fail;

/// The first word of a line, and the rest after the space.
pub(crate) fn word(line: &str) -> (&str, &str) {
    line.split_once(' ').unwrap_or((line, ""))
}

/// Bytes in hexadecimal. `-` means none.
pub(crate) fn bytes_of(alloc: Global, word: &str) -> Result<Vec<u8>, Fail> {
    if word == "-" {
        return Ok(Vec::new(alloc));
    }
    Ok(hex::decode(alloc, word)?)
}

/// Numbers with dots between them. `-` means none.
pub(crate) fn path_of(alloc: Global, word: &str) -> Result<Vec<u32>, Fail> {
    let mut path = Vec::new(alloc);
    if word == "-" {
        return Ok(path);
    }
    for number in word.split('.') {
        path.push(number.parse::<u32>()?)?;
    }
    Ok(path)
}
