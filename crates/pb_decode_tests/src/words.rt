//! The meaning of the words of rows.

use pb_wire::{Limits, MAX_BYTES, MAX_DEPTH};
use std::alloc::Global;
use std::test::Fail;

/// The first word of a line, and the rest after the space.
pub(crate) fn word(line: &str) -> (&str, &str) {
    line.split_once(' ').unwrap_or((line, ""))
}

/// Bytes in hexadecimal. `-` means none.
pub(crate) fn bytes_of(alloc: Global, word: &str) -> Result<Vec<u8>, Fail> {
    if word == "-" {
        return Ok(Vec::new(alloc));
    }
    Ok(hex::decode(alloc, word)?)
}

/// The greatest length and depth. `-` means the greatest there is.
pub(crate) fn limits_of(length: &str, depth: &str) -> Result<Limits, Fail> {
    let max_bytes = if length == "-" {
        MAX_BYTES
    } else {
        length.parse::<u32>()?
    };
    let max_depth = if depth == "-" {
        MAX_DEPTH
    } else {
        depth.parse::<u8>()?
    };
    Ok(Limits::new(max_bytes, max_depth).ok_or("no limits")?)
}

/// Whether a number is the one that a row gives, if it gives one.
pub(crate) fn is_number(number: usize, word: &str) -> Result<bool, Fail> {
    Ok(word == "?" || word.parse::<usize>()? == number)
}
