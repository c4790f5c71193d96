//! What a message has at a place that C says.

ghost use Rattle.std.specs.Prelude.{◌≡◌, ℕ, List, None, Some, length, option_map, IsErr, MatchResult};
ghost use Rattle.pb_wire.specs.Spell.{shortest_records};
ghost use Rattle.pb_wire.specs.Unknown.{records_of};
ghost use Rattle.pb_place.specs.Ask.{key_in, laid_over};
ghost use Rattle.pb_place.specs.Found.{found_view};
ghost use Rattle.pb_value.specs.View.{key_view, value_view};
ghost use Rattle.pb_c_message.specs.declared.miss.Miss.TheVariants.{Memory};
ghost use Rattle.pb_c_message.specs.Answers.{Answers, IsAt, IsMissed, bytes_in, member_in, numbers_in, plain_in, unknown_in, datum_bytes};

use crate::miss::Miss;
use crate::place::place_of;
use crate::value::{PlainValue, plain_found};
use pb_place::{Found, at, key_at as key_of, numbers_at, unknown_at as records_at, which_oneof_at};
use pb_value::{MapKey, MessageRef, Value};
use pb_wire::{Unknown, can_write, write_raw};
use std::alloc::Global;

/// What a message has at a place.
fn found_at<'a>(
    alloc: Global,
    message: MessageRef<'a>,
    place: &[PlainValue],
    keys: &[&[u8]],
) -> Result<Found<'a>, Miss>
    ensures { MatchResult result (λ f. IsAt keys.now place.now message.entry (Some (found_view f)))
        (IsMissed (IsAt keys.now place.now message.entry None) keys.now place.now) }
{
    let steps = place_of(alloc, place, keys)?;
    match at(message, steps.as_slice()) {
        Some(found) => Ok(found),
        None => Err(Miss::Absent),
    }
}

/// The value at a place, or what else is there.
pub fn value_at(
    alloc: Global,
    message: MessageRef<'_>,
    place: &[PlainValue],
    keys: &[&[u8]],
) -> Result<PlainValue, Miss>
    ensures { MatchResult result (λ v. Answers plain_in keys.now place.now message.entry (Some v))
        (IsMissed (Answers plain_in keys.now place.now message.entry None) keys.now place.now) }
{
    let found = found_at(alloc, message, place, keys)?;
    Ok(plain_found(&found))
}

/// The bytes of a string or of bytes.
fn bytes_of(value: &Value) -> Option<&[u8]>
    ensures { option_map (λ b. b.now) result ≡ datum_bytes (value_view value.now) }
{
    match value {
        Value::Text(text) => Some(text.as_str().as_bytes()),
        Value::Bytes(bytes) => Some(bytes),
        _ => None,
    }
}

fn bytes_found<'a>(found: &Found<'a>) -> Option<&'a [u8]>
    ensures { option_map (λ b. b.now) result ≡ bytes_in (found_view found.now) }
{
    match found {
        Found::Scalar(value) => bytes_of(value),
        _ => None,
    }
}

/// The string or the bytes at a place.
pub fn bytes_at<'a>(
    alloc: Global,
    message: MessageRef<'a>,
    place: &[PlainValue],
    keys: &[&[u8]],
) -> Result<&'a [u8], Miss>
    ensures { MatchResult result
        (λ b. Answers bytes_in keys.now place.now message.entry (Some b.now))
        (IsMissed (Answers bytes_in keys.now place.now message.entry None) keys.now place.now) }
{
    let found = found_at(alloc, message, place, keys)?;
    match bytes_found(&found) {
        Some(bytes) => Ok(bytes),
        None => Err(Miss::Absent),
    }
}

/// The key at an index, counted from 0, of the map at a place, by rising keys.
pub fn key_at<'a>(
    alloc: Global,
    message: MessageRef<'a>,
    place: &[PlainValue],
    keys: &[&[u8]],
    index: usize,
) -> Result<&'a MapKey, Miss>
    ensures { MatchResult result
        (λ k. Answers (key_in index) keys.now place.now message.entry (Some (key_view k.now)))
        (IsMissed (Answers (key_in index) keys.now place.now message.entry None) keys.now
        place.now) }
{
    let steps = place_of(alloc, place, keys)?;
    match key_of(message, steps.as_slice(), index) {
        Some(key) => Ok(key),
        None => Err(Miss::Absent),
    }
}

/// Writes the numbers of the fields that are set in the message at a place, by rising number: those that the buffer holds. The answer is how
/// many there are.
pub fn fields_at(
    alloc: Global,
    message: MessageRef<'_>,
    place: &[PlainValue],
    keys: &[&[u8]],
    buffer: &mut [u32],
) -> Result<usize, Miss>
    ensures answer { MatchResult result (λ n. (ns : List ℕ)
        × Answers numbers_in keys.now place.now message.entry (Some ns) × (n ≡ length ns)
        × (buffer.new ≡ laid_over ns buffer.old))
        (IsMissed (Answers numbers_in keys.now place.now message.entry None) keys.now place.now) }
    ensures unwritten { IsErr result → buffer.new ≡ buffer.old }
{
    let steps = place_of(alloc, place, keys)?;
    match numbers_at(message, steps.as_slice(), buffer) {
        Some(count) => Ok(count),
        None => Err(Miss::Absent),
    }
}

/// The number of the member of a oneof that is set in the message at a place. The oneof is named by its index in the message's type.
pub fn oneof_at(
    alloc: Global,
    message: MessageRef<'_>,
    place: &[PlainValue],
    keys: &[&[u8]],
    oneof: u32,
) -> Result<u32, Miss>
    ensures { MatchResult result
        (λ n. Answers (member_in oneof) keys.now place.now message.entry (Some n))
        (IsMissed (Answers (member_in oneof) keys.now place.now message.entry None) keys.now
        place.now) }
{
    let steps = place_of(alloc, place, keys)?;
    match which_oneof_at(message, steps.as_slice(), oneof) {
        Some(number) => Ok(number),
        None => Err(Miss::Absent),
    }
}

/// The shortest encoding of unknown records, or out of memory, as which a payload that is too long to be written counts.
fn shortest_of(alloc: Global, records: &[(u32, Unknown)]) -> Result<Vec<u8>, Miss>
    ensures { MatchResult result (λ b. b.items ≡ shortest_records (records_of records.now))
        (λ e. e ≡ Memory) }
{
    if !can_write(records) {
        return Err(Miss::Memory);
    }
    match write_raw(alloc, records) {
        Ok(bytes) => Ok(bytes),
        Err(_) => Err(Miss::Memory),
    }
}

/// The unknown records of the message at a place, as their shortest encoding. A record with a payload of more than 2^31 - 1 bytes, which no
/// decoded message has, counts as out of memory.
pub fn unknown_at(
    alloc: Global,
    message: MessageRef<'_>,
    place: &[PlainValue],
    keys: &[&[u8]],
) -> Result<Vec<u8>, Miss>
    ensures { MatchResult result
        (λ b. Answers unknown_in keys.now place.now message.entry (Some b.items))
        (IsMissed (Answers unknown_in keys.now place.now message.entry None) keys.now place.now) }
{
    let steps = place_of(alloc, place, keys)?;
    match records_at(message, steps.as_slice()) {
        Some(records) => shortest_of(alloc, records),
        None => Err(Miss::Absent),
    }
}
