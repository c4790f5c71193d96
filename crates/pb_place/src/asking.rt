//! Questions about what a message has at a place.

ghost use Rattle.std.specs.Prelude.{◌≡◌, is_some, length, option_and_then, option_map};
ghost use Rattle.pb_wire.specs.Unknown.{records_of};
ghost use Rattle.pb_schema.specs.Types.{message_fields};
ghost use Rattle.pb_value.specs.Data.{fields_of, unknown_of};
ghost use Rattle.pb_value.specs.Oneof.{member_set};
ghost use Rattle.pb_value.specs.View.{entries_view, fields_view, key_view, value_view};
ghost use Rattle.pb_place.specs.At.{at};
ghost use Rattle.pb_place.specs.Ask.{message_in, scalar_in, length_in, key_in, numbers_of, laid_over, nth_key, numbers_into};

use crate::reading::{Found, at};
use crate::step::PlaceStep;
use pb_value::{Content, MapKey, MessageRef, Value};
use pb_wire::Unknown;
use std::collections::BTreeMap;

/// Whether a message has something at a place.
pub fn is_set(message: MessageRef<'_>, place: &[PlaceStep]) -> bool
    ensures { result ≡ is_some (at place.now message.entry) }
{
    at(message, place).is_some()
}

/// The message at a place: the message itself at the place of no steps.
pub fn message_at<'a>(message: MessageRef<'a>, place: &[PlaceStep]) -> Option<MessageRef<'a>>
    ensures { result ≡ option_and_then message_in (at place.now message.entry) }
{
    match at(message, place)? {
        Found::Message(found) => Some(found),
        _ => None,
    }
}

/// The value at a place that is no message.
pub fn scalar_at<'a>(message: MessageRef<'a>, place: &[PlaceStep]) -> Option<&'a Value>
    ensures { option_map (λ v. value_view v.now) result
        ≡ option_and_then scalar_in (at place.now message.entry) }
{
    match at(message, place)? {
        Found::Scalar(value) => Some(value),
        _ => None,
    }
}

/// The length of the list or map at a place. A list or map that is empty is not set, so there is none.
pub fn len_at(message: MessageRef<'_>, place: &[PlaceStep]) -> Option<usize>
    ensures { result ≡ option_and_then length_in (at place.now message.entry) }
{
    match at(message, place)? {
        Found::List(values) => Some(values.len()),
        Found::Map(entries) => Some(entries.len()),
        _ => None,
    }
}

/// The key at an index, counted from 0, of the map at a place, by rising keys.
pub fn key_at<'a>(message: MessageRef<'a>, place: &[PlaceStep], index: usize) -> Option<&'a MapKey>
    ensures { option_map (λ k. key_view k.now) result
        ≡ option_and_then (key_in index) (at place.now message.entry) }
{
    match at(message, place)? {
        Found::Map(entries) => nth_key(entries, index),
        _ => None,
    }
}

/// The key at an index, counted from 0, of a map.
fn nth_key(entries: &BTreeMap<MapKey, Value>, index: usize) -> Option<&MapKey>
    ensures { option_map (λ k. key_view k.now) result
        ≡ nth_key (entries_view entries.now.entries) index }
{
    let mut left = index;
    for (key, _) in entries {
        if left == 0 {
            return Some(key);
        }
        left -= 1;
    }
    None
}

/// The number of the member of a oneof that is set in the message at a place.
pub fn which_oneof_at(message: MessageRef<'_>, place: &[PlaceStep], oneof: u32) -> Option<u32>
    ensures { result ≡ option_and_then
        (λ w. member_set (message_fields w.pool w.kind) oneof (fields_of w.body))
        (option_and_then message_in (at place.now message.entry)) }
{
    message_at(message, place)?.which_oneof(oneof)
}

/// The unknown records of the message at a place.
pub fn unknown_at<'a>(message: MessageRef<'a>, place: &[PlaceStep]) -> Option<&'a [(u32, Unknown)]>
    ensures { option_map (λ us. records_of us.now) result
        ≡ option_map (λ w. unknown_of w.body)
        (option_and_then message_in (at place.now message.entry)) }
{
    Some(&message_at(message, place)?.body().unknown)
}

/// Writes the numbers of the fields that are set in the message at a place, by rising number: those that the buffer holds. The answer is
/// how many there are. Where no message is at the place, nothing is written.
pub fn numbers_at(message: MessageRef<'_>, place: &[PlaceStep], buffer: &mut [u32]) -> Option<usize>
    ensures counted { result ≡ option_map (λ w. length (numbers_of (fields_of w.body)))
        (option_and_then message_in (at place.now message.entry)) }
    ensures written { buffer.new ≡ numbers_into
        (option_and_then message_in (at place.now message.entry)) buffer.old }
{
    let found = message_at(message, place)?;
    Some(write_numbers(&found.body().fields, buffer))
}

/// Writes the numbers of some fields, those that the buffer holds, and counts all of them.
fn write_numbers(fields: &BTreeMap<u32, Content>, buffer: &mut [u32]) -> usize
    ensures counted { result ≡ length (numbers_of (fields_view fields.now.entries)) }
    ensures written { buffer.new
        ≡ laid_over (numbers_of (fields_view fields.now.entries)) buffer.old }
{
    let mut count = 0;
    for (number, _) in fields {
        if count == buffer.len() {
            break;
        }
        buffer[count] = *number;
        count += 1;
    }
    fields.len()
}
