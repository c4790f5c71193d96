//! The keys of a map, from an index on, as C is given them.

ghost use Rattle.std.specs.Prelude.{◌≡◌, List, None, Some, length, map, option_and_then, option_map, IsErr, IfSome, MatchResult};
ghost use Rattle.pb_schema.specs.Scalar.{Scalar};
ghost use Rattle.pb_value.specs.View.{entries_view};
ghost use Rattle.pb_place.specs.At.{at};
ghost use Rattle.pb_place.specs.Found.{found_view};
ghost use Rattle.pb_c_message.specs.Answers.{Answers, IsMissed};
ghost use Rattle.pb_c_message.specs.Keys.{ReportsKeys, entries_in, keys_from, keys_in, laid, laid_from, strings_of};
ghost use Rattle.pb_c_message.specs.Plain.{scalar_plain};

use crate::key::{key_bytes, key_value};
use crate::miss::Miss;
use crate::place::place_of;
use crate::value::PlainValue;
use pb_place::{Found, PlaceStep, at};
use pb_value::{MapKey, MessageRef, Value};
use std::alloc::Global;
use std::collections::BTreeMap;

/// How many keys there are, and how many bytes their strings have.
#[repr(C)]
#[derive(Clone, Copy, Debug, PartialEq, Eq)]
pub struct KeyCounts {
    pub keys: usize,
    pub bytes: usize,
}

/// Lays bytes over a buffer from an index on, as many as it holds.
fn lay_from(at: usize, bytes: &[u8], out: &mut [u8])
    ensures { out.new ≡ laid_from at bytes.now out.old }
{
    let mut index = at;
    for byte in bytes {
        if index >= out.len() {
            break;
        }
        out[index] = *byte;
        index += 1;
    }
}

/// How many bytes the strings among the keys of a map have from an index on, if a `usize` holds that.
fn strings_len(entries: &BTreeMap<MapKey, Value>, first: usize) -> Option<usize>
    ensures { IfSome result (λ n. n
        ≡ length (strings_of (keys_from first (entries_view entries.now.entries)))) }
{
    let mut skipped = first;
    let mut size = 0usize;
    for (key, _) in entries {
        if skipped > 0 {
            skipped -= 1;
            continue;
        }
        size = size.checked_add(key_bytes(key).len())?;
    }
    Some(size)
}

/// Writes the keys of a map from an index on, as many as the buffer holds.
fn write_keys(entries: &BTreeMap<MapKey, Value>, first: usize, buffer: &mut [PlainValue])
    ensures { buffer.new ≡ laid
        (map scalar_plain (keys_from first (entries_view entries.now.entries))) buffer.old }
{
    let mut skipped = first;
    let mut count = 0;
    for (key, _) in entries {
        if skipped > 0 {
            skipped -= 1;
            continue;
        }
        if count >= buffer.len() {
            break;
        }
        buffer[count] = key_value(key);
        count += 1;
    }
}

/// Writes the strings among the keys of a map from an index on, one after another, as much of them as the buffer holds.
fn write_strings(entries: &BTreeMap<MapKey, Value>, first: usize, out: &mut [u8])
    ensures { out.new
        ≡ laid (strings_of (keys_from first (entries_view entries.now.entries))) out.old }
{
    let mut skipped = first;
    let mut at = 0;
    for (key, _) in entries {
        if skipped > 0 {
            skipped -= 1;
            continue;
        }
        if at >= out.len() {
            break;
        }
        let bytes = key_bytes(key);
        lay_from(at, bytes, out);
        at += bytes.len();
    }
}

/// Writes the keys of a map from an index on and their strings, unless no `usize` holds how many bytes these have.
fn report_keys(
    entries: &BTreeMap<MapKey, Value>,
    first: usize,
    buffer: &mut [PlainValue],
    out: &mut [u8],
) -> Option<KeyCounts>
    ensures reported { IfSome result
        (λ c. ReportsKeys (keys_from first (entries_view entries.now.entries)) buffer.old
        buffer.new out.old out.new c) }
    ensures unwritten { result ≡ None → (buffer.new ≡ buffer.old) × (out.new ≡ out.old) }
{
    let bytes = strings_len(entries, first)?;
    write_keys(entries, first, buffer);
    write_strings(entries, first, out);
    let keys = entries.len().saturating_sub(first);
    Some(KeyCounts { keys, bytes })
}

/// The entries of the map that is at a place.
fn map_of<'a>(found: Found<'a>) -> Option<&'a BTreeMap<MapKey, Value>>
    ensures { option_map (λ es. entries_view es.now.entries) result
        ≡ entries_in (found_view found.entry) }
{
    match found {
        Found::Map(entries) => Some(entries),
        _ => None,
    }
}

/// The entries of the map at a place.
fn map_at<'a>(message: MessageRef<'a>, place: &[PlaceStep]) -> Option<&'a BTreeMap<MapKey, Value>>
    ensures { option_map (λ es. entries_view es.now.entries) result
        ≡ option_and_then entries_in (at place.now message.entry) }
{
    let found = at(message, place)?;
    map_of(found)
}

/// Writes the keys of the map at a place from an index on, by rising keys, and the strings among them one after another: as many and as much
/// as the buffers hold. The answer is how many there are. Bytes that no `usize` counts, which no memory holds, count as out of memory.
pub fn keys_at(
    alloc: Global,
    message: MessageRef<'_>,
    place: &[PlainValue],
    keys: &[&[u8]],
    first: usize,
    buffer: &mut [PlainValue],
    out: &mut [u8],
) -> Result<KeyCounts, Miss>
    ensures answer { MatchResult result (λ c. (xs : List Scalar)
        × Answers (keys_in first) keys.now place.now message.entry (Some xs)
        × ReportsKeys xs buffer.old buffer.new out.old out.new c)
        (IsMissed (Answers (keys_in first) keys.now place.now message.entry None) keys.now
        place.now) }
    ensures unwritten { IsErr result → (buffer.new ≡ buffer.old) × (out.new ≡ out.old) }
{
    let steps = place_of(alloc, place, keys)?;
    let Some(entries) = map_at(message, steps.as_slice()) else {
        return Err(Miss::Absent);
    };
    match report_keys(entries, first, buffer, out) {
        Some(counts) => Ok(counts),
        None => Err(Miss::Memory),
    }
}
