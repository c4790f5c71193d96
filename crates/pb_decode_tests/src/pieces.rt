//! What a decoder answers to each piece, and what it holds between pieces.

use super::answers::{is_answered, is_refused};
use super::sample::Schema;
use super::words::{bytes_of, is_number, word};
use pb_decode::PushDecoder;
use pb_wire::Limits;
use std::alloc::Global;
use std::test::Fail;

/// Whether the answer to one piece, or to the end, is as expected.
fn is_taken(
    alloc: Global,
    decoder: &mut PushDecoder<'_>,
    piece: &str,
    expected: &str,
) -> Result<bool, Fail> {
    if piece == "finish" {
        return is_answered(alloc, decoder.finish(), expected);
    }
    match decoder.feed(&bytes_of(alloc, piece)?) {
        Ok(()) => Ok(expected == "ok"),
        Err(error) => is_refused(alloc, error, expected),
    }
}

/// Whether the answers to pieces are as expected.
fn are_taken(
    alloc: Global,
    decoder: &mut PushDecoder<'_>,
    pieces: &str,
    expected: &str,
) -> Result<bool, Fail> {
    for (piece, expected) in pieces.split(',').zip(expected.split(';')) {
        if !is_taken(alloc, decoder, piece, expected)? {
            return Ok(false);
        }
    }
    Ok(true)
}

/// Whether this number of bytes is held, and this number of contexts is open.
fn holds(decoder: &PushDecoder<'_>, pending: &str, frames: &str) -> Result<bool, Fail> {
    Ok(is_number(decoder.pending(), pending)? && is_number(decoder.frames(), frames)?)
}

fn are_taken_and_held(
    alloc: Global,
    decoder: &mut PushDecoder<'_>,
    words: &str,
) -> Result<bool, Fail> {
    let (pending, words) = word(words);
    let (frames, words) = word(words);
    let (pieces, expected) = word(words);
    Ok(are_taken(alloc, decoder, pieces, expected)? && holds(decoder, pending, frames)?)
}

/// Whether the answers to pieces are as expected, and what is held and open after the last.
pub(crate) fn is_pushed(schema: &Schema, limits: Limits, words: &str) -> Result<bool, Fail> {
    let mut decoder = schema.decoder(limits)?;
    are_taken_and_held(schema.alloc, &mut decoder, words)
}
