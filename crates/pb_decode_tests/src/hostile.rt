//! Texts made to hurt.

use super::answers::{answer_text, is_answered, is_refused};
use super::sample::Schema;
use super::words::{bytes_of, word};
use super::worked::{is_fed, is_finished};
use pb_decode::{DecodeError, PushDecoder};
use pb_wire::{Cause, Limits, put_varint};
use std::alloc::Global;
use std::test::Fail;

/// How often a piece is taken, of `times`, and why no more.
fn repeat(
    decoder: &mut PushDecoder<'_>,
    piece: &[u8],
    times: u32,
) -> (u32, Result<(), DecodeError>) {
    for taken in 0..times {
        if let Err(error) = decoder.feed(piece) {
            return (taken, Err(error));
        }
    }
    (times, Ok(()))
}

/// Whether a piece that is repeated is taken the expected number of times, and then the answer is as expected, and the last.
fn is_taken(
    alloc: Global,
    decoder: &mut PushDecoder<'_>,
    piece: &[u8],
    times: (u32, u32),
    expected: &str,
) -> Result<bool, Fail> {
    let (taken, end) = repeat(decoder, piece, times.0);
    let is_expected = match end {
        Ok(()) => is_answered(alloc, decoder.finish(), expected)?,
        Err(error) => is_refused(alloc, error, expected)?,
    };
    Ok(is_expected && taken == times.1 && is_finished(decoder))
}

fn are_taken(alloc: Global, decoder: &mut PushDecoder<'_>, words: &str) -> Result<bool, Fail> {
    let (piece, words) = word(words);
    let (times, words) = word(words);
    let (taken, expected) = word(words);
    let times = (times.parse::<u32>()?, taken.parse::<u32>()?);
    let piece = bytes_of(alloc, piece)?;
    is_taken(alloc, decoder, &piece, times, expected)
}

/// Whether a piece that comes again and again is answered as expected, and nothing is taken after it.
pub(crate) fn is_repeated(schema: &Schema, limits: Limits, words: &str) -> Result<bool, Fail> {
    let mut decoder = schema.decoder(limits)?;
    are_taken(schema.alloc, &mut decoder, words)
}

/// The front of the bytes up to a place is a message, or ends there inside a record.
fn is_front(schema: &Schema, limits: Limits, bytes: &[u8], end: usize) -> Result<bool, Fail> {
    let front = bytes.get(..end).ok_or("no front")?;
    let expected = answer_text(schema.alloc, schema.decode(front, limits))?;
    let place = format!(in schema.alloc; "! {end} ")?;
    let is_cut = expected.as_str().starts_with(place.as_str())
        && expected.as_str().ends_with(" Truncated");
    Ok(expected.as_str().starts_with("= ") || is_cut)
}

pub(crate) fn are_fronts(schema: &Schema, limits: Limits, words: &str) -> Result<bool, Fail> {
    let bytes = bytes_of(schema.alloc, words)?;
    for end in 0..bytes.len() {
        if !is_front(schema, limits, &bytes, end)? {
            return Ok(false);
        }
    }
    Ok(true)
}

/// Feeds a varint of a number.
fn feed_varint(decoder: &mut PushDecoder<'_>, number: u32) -> Result<(), DecodeError> {
    decoder.feed(put_varint(u64::from(number) * 8).as_slice())?;
    decoder.feed(b"\x01")
}

/// Feeds varints of `count` falling field numbers.
fn feed_falling(decoder: &mut PushDecoder<'_>, count: u32) -> Result<(), DecodeError> {
    for below in 0..count {
        feed_varint(decoder, 1_000_100 - below % 1_000_000)?;
    }
    Ok(())
}

/// How many unknown records there are, of `count` falling field numbers.
fn kept(decoder: &mut PushDecoder<'_>, count: u32) -> Result<usize, DecodeError> {
    feed_falling(decoder, count)?;
    Ok(decoder.finish()?.body().unknown.len())
}

/// Whether unknown records of `count` falling field numbers are all kept.
pub(crate) fn are_falling(schema: &Schema, limits: Limits, words: &str) -> Result<bool, Fail> {
    let count = words.parse::<u32>()?;
    let mut decoder = schema.decoder(limits)?;
    Ok(kept(&mut decoder, count)? == count as usize)
}

/// A decoder that is fed the front of a long text, which it does not hold.
fn fed_one<'p>(
    schema: &'p Schema,
    limits: Limits,
    piece: &[u8],
) -> Result<PushDecoder<'p>, DecodeError> {
    let mut decoder = schema.decoder(limits)?;
    decoder.feed(piece)?;
    Ok(decoder)
}

fn fed<'p>(
    schema: &'p Schema,
    limits: Limits,
    piece: &[u8],
    count: u32,
) -> Result<Vec<PushDecoder<'p>>, DecodeError> {
    let mut decoders = Vec::new(schema.alloc);
    for _ in 0..count {
        decoders.push(fed_one(schema, limits, piece)?)?;
    }
    Ok(decoders)
}

/// Whether each decoder holds nothing, and answers as expected.
fn are_told(alloc: Global, decoders: &mut [PushDecoder<'_>], expected: &str) -> Result<bool, Fail> {
    for decoder in decoders {
        let is_empty = decoder.pending() == 0 && decoder.frames() == 1;
        if !is_empty || !is_answered(alloc, decoder.finish(), expected)? {
            return Ok(false);
        }
    }
    Ok(true)
}

/// Whether `count` decoders, alive at once, each answer as expected.
pub(crate) fn are_alive(schema: &Schema, limits: Limits, words: &str) -> Result<bool, Fail> {
    let (piece, words) = word(words);
    let (count, expected) = word(words);
    let count = count.parse::<u32>()?;
    let piece = bytes_of(schema.alloc, piece)?;
    let mut decoders = fed(schema, limits, &piece, count)?;
    are_told(schema.alloc, &mut decoders, expected)
}

/// Entries of a map of messages, of which the last, under the key 20, has a message of these bytes.
fn map_around(alloc: Global, before: &[u8], inner: &[u8]) -> Result<Vec<u8>, Fail> {
    let mut last = Vec::new(alloc);
    last.extend_from_slice(b"\x08\x14\x12")?;
    last.extend_from_slice(put_varint(inner.len() as u64).as_slice())?;
    last.extend_from_slice(inner)?;
    let mut entries = Vec::new(alloc);
    entries.extend_from_slice(before)?;
    entries.push(0x62)?;
    entries.extend_from_slice(put_varint(last.len() as u64).as_slice())?;
    entries.extend_from_slice(&last)?;
    Ok(entries)
}

fn maps_around(
    alloc: Global,
    before: &[u8],
    innermost: Vec<u8>,
    levels: u32,
) -> Result<Vec<u8>, Fail> {
    let mut bytes = innermost;
    for _ in 0..levels {
        bytes = map_around(alloc, before, &bytes)?;
    }
    Ok(bytes)
}

/// Whether maps in maps are answered as expected, at once and byte by byte.
pub(crate) fn are_nested(schema: &Schema, limits: Limits, words: &str) -> Result<bool, Fail> {
    let (levels, words) = word(words);
    let (before, words) = word(words);
    let (innermost, expected) = word(words);
    let levels = levels.parse::<u32>()?;
    let before = bytes_of(schema.alloc, before)?;
    let innermost = bytes_of(schema.alloc, innermost)?;
    let bytes = maps_around(schema.alloc, &before, innermost, levels)?;
    let at_once = schema.decode(&bytes, limits);
    Ok(
        is_answered(schema.alloc, at_once, expected)?
            && is_fed(schema, limits, (b"", &bytes), 1, expected)?,
    )
}

/// The field 1 of T that many times, and then a record of number 0.
fn records_before_fault(alloc: Global, count: u32) -> Result<Vec<u8>, Fail> {
    let mut bytes = Vec::new(alloc);
    for _ in 0..count {
        bytes.extend_from_slice(b"\x08\x01")?;
    }
    bytes.extend_from_slice(b"\x00\x01")?;
    Ok(bytes)
}

/// The record of the field 3 of T with these bytes.
fn message_around(alloc: Global, inner: &[u8]) -> Result<Vec<u8>, Fail> {
    let mut bytes = Vec::new(alloc);
    bytes.push(0x1a)?;
    bytes.extend_from_slice(put_varint(inner.len() as u64).as_slice())?;
    bytes.extend_from_slice(inner)?;
    Ok(bytes)
}

fn messages_around(alloc: Global, innermost: Vec<u8>, levels: u32) -> Result<Vec<u8>, Fail> {
    let mut bytes = innermost;
    for _ in 0..levels {
        bytes = message_around(alloc, &bytes)?;
    }
    Ok(bytes)
}

fn is_number_zero(error: &DecodeError) -> bool {
    matches!(
        error,
        DecodeError::Fault {
            cause: Cause::NumberZero,
            ..
        }
    )
}

/// Whether messages in messages are refused at once, and by a decoder in one piece, for the fault after that many records in the innermost. A
/// reader that read the records again at each level, or at each record, would take longer than a test may.
pub(crate) fn is_refused_in_time(
    schema: &Schema,
    limits: Limits,
    words: &str,
) -> Result<bool, Fail> {
    let (levels, count) = word(words);
    let innermost = records_before_fault(schema.alloc, count.parse::<u32>()?)?;
    let bytes = messages_around(schema.alloc, innermost, levels.parse::<u32>()?)?;
    let Err(at_once) = schema.decode(&bytes, limits) else {
        return Ok(false);
    };
    let mut decoder = schema.decoder(limits)?;
    let Err(fed) = decoder.feed(&bytes) else {
        return Ok(false);
    };
    Ok(is_number_zero(&at_once) && is_number_zero(&fed))
}
