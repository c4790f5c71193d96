//! Messages that more bytes or another message come onto.

use super::answers::is_answered;
use super::sample::Schema;
use super::words::{bytes_of, word};
use pb_decode::decode_onto;
use pb_value::DynamicMessage;
use pb_wire::Limits;
use std::test::Fail;

/// The message of bytes.
fn message_of<'p>(schema: &'p Schema, input: &str) -> Result<DynamicMessage<'p>, Fail> {
    let bytes = bytes_of(schema.alloc, input)?;
    Ok(schema.decode(&bytes, Limits::FULL)?)
}

/// Whether the bytes onto the message are answered as expected.
pub(crate) fn is_put_onto(schema: &Schema, limits: Limits, words: &str) -> Result<bool, Fail> {
    let (value, words) = word(words);
    let (input, expected) = word(words);
    let bytes = bytes_of(schema.alloc, input)?;
    let message = message_of(schema, value)?;
    is_answered(schema.alloc, decode_onto(message, &bytes, limits), expected)
}

/// Whether one message over the other is as expected.
pub(crate) fn is_merged(schema: &Schema, words: &str) -> Result<bool, Fail> {
    let (first, words) = word(words);
    let (second, expected) = word(words);
    let message = message_of(schema, first)?;
    let merged = message.merge(message_of(schema, second)?)?;
    is_answered(schema.alloc, Ok(merged), expected)
}
