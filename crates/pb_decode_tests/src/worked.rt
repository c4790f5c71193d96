//! One text however its bytes come.

ghost use Rattle.std.specs.Prelude.{◌<◌};

use super::answers::{is_answered, is_answered_or_memory, is_refused};
use super::sample::Schema;
use super::words::{bytes_of, word};
use pb_decode::{DecodeError, PushDecoder};
use pb_decode_parts::NoMemory;
use pb_value::DynamicMessage;
use pb_wire::Limits;
use std::alloc::AllocError;
use std::test::Fail;

/// A decoder that answered holds nothing, and is finished.
pub(crate) fn is_finished(decoder: &mut PushDecoder<'_>) -> bool {
    decoder.pending() == 0
        && decoder.frames() == 0
        && matches!(decoder.feed(b"\x08"), Err(DecodeError::Finished))
        && matches!(decoder.finish(), Err(DecodeError::Finished))
}

/// The answer to a piece, and to the rest in pieces of `size` bytes.
fn in_pieces<'p>(
    decoder: &mut PushDecoder<'p>,
    first: &[u8],
    rest: &[u8],
    size: usize,
) -> Result<DynamicMessage<'p>, DecodeError>
    requires { 0 < size }
{
    decoder.feed(first)?;
    for piece in rest.chunks(size) {
        decoder.feed(piece)?;
    }
    decoder.finish()
}

/// Whether the answer to a piece, and to the rest in pieces of `size` bytes, is as expected, and the last.
pub(crate) fn is_fed(
    schema: &Schema,
    limits: Limits,
    pieces: (&[u8], &[u8]),
    size: usize,
    expected: &str,
) -> Result<bool, Fail>
    requires { 0 < size }
{
    let (first, rest) = pieces;
    let mut decoder = schema.decoder(limits)?;
    let is_expected = is_answered(
        schema.alloc,
        in_pieces(&mut decoder, first, rest, size),
        expected,
    )?;
    Ok(is_expected && is_finished(&mut decoder))
}

/// Whether the answer is as expected at every cut into two.
fn is_fed_at_cuts(
    schema: &Schema,
    limits: Limits,
    bytes: &[u8],
    expected: &str,
) -> Result<bool, Fail> {
    for cut in 0..bytes.len() {
        if !is_fed(schema, limits, bytes.split_at(cut), usize::MAX, expected)? {
            return Ok(false);
        }
    }
    Ok(true)
}

/// Whether `validate` accepts bytes whose answer is a message, and reports the same fault of others.
fn is_validated(
    schema: &Schema,
    limits: Limits,
    bytes: &[u8],
    expected: &str,
) -> Result<bool, Fail> {
    match schema.validate(bytes, limits) {
        Ok(()) => Ok(expected.starts_with("= ")),
        Err(error) => is_refused(schema.alloc, error, expected),
    }
}

/// Whether `build` makes the message of bytes whose answer is one, so that `decode` does not read them again, and none of others. Out of memory
/// is passed on.
fn is_built(schema: &Schema, limits: Limits, bytes: &[u8], expected: &str) -> Result<bool, Fail> {
    match schema.build(bytes, limits) {
        Ok(message) => is_answered(schema.alloc, Ok(message), expected),
        Err(NoMemory) => {
            if expected.starts_with("= ") {
                return Err(Fail::from(AllocError));
            }
            Ok(true)
        }
    }
}

/// Whether the answer is as expected at once, byte by byte and at every cut into two.
pub(crate) fn is_decoded(schema: &Schema, limits: Limits, words: &str) -> Result<bool, Fail> {
    let (input, expected) = word(words);
    let bytes = bytes_of(schema.alloc, input)?;
    let at_once = schema.decode(&bytes, limits);
    Ok(
        is_answered(schema.alloc, at_once, expected)?
            && is_validated(schema, limits, &bytes, expected)?
            && is_built(schema, limits, &bytes, expected)?
            && is_fed(schema, limits, (b"", &bytes), 1, expected)?
            && is_fed_at_cuts(schema, limits, &bytes, expected)?,
    )
}

/// Whether the answer to pieces of three bytes is as expected, or Memory, and the last.
fn is_fed_or_memory(
    schema: &Schema,
    limits: Limits,
    bytes: &[u8],
    expected: &str,
) -> Result<bool, Fail> {
    let Ok(mut decoder) = schema.decoder(limits) else {
        return Ok(true);
    };
    let answer = in_pieces(&mut decoder, b"", bytes, 3);
    let is_expected = is_answered_or_memory(schema.alloc, answer, expected)?;
    Ok(is_expected && is_finished(&mut decoder))
}

/// Whether each answer is as expected, or Memory where an allocation is refused.
pub(crate) fn is_grown(schema: &Schema, limits: Limits, words: &str) -> Result<bool, Fail> {
    let (input, expected) = word(words);
    let bytes = bytes_of(schema.alloc, input)?;
    let at_once = schema.decode(&bytes, limits);
    Ok(
        is_answered_or_memory(schema.alloc, at_once, expected)?
            && is_fed_or_memory(schema, limits, &bytes, expected)?,
    )
}
