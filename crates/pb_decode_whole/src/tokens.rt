//! Lengths after tags, and what a tag is for.

ghost use Rattle.std.specs.Prelude.{◌≡◌, ◌+◌, ◌≤◌, ◌<◌, ◌^◌, true, Some, length, IfOk, IfSome};
ghost use Rattle.pb_decode_parts.specs.Tokens.Number.{IsNumberType};
ghost use Rattle.pb_decode_whole.specs.Lengths.{IsLengthAfter, TellsLength};
ghost use Rattle.pb_decode_whole.specs.Reads.{Begins};

use crate::reader::{AtTag, Left};
use pb_decode_parts::{NoMemory, RecordTag, record_tag};
use pb_wire::{Scanned, left_after, scan_length};

/// Where the payload of a record begins whose tag takes this many bytes, and its size. `left` is how many bytes come before the end of
/// the part, if that is known.
pub fn length_after(tag_size: usize, bytes: &[u8], left: Option<u32>) -> Option<(usize, u32)>
    requires within { tag_size ≤ length bytes.now }
    requires small { length bytes.now < 2 ^ 31 }
    ensures within { IfSome result (λ t. (tag_size ≤ t.0) × (t.0 ≤ length bytes.now) × (t.1 < 2 ^ 31)) }
    ensures whole { TellsLength tag_size bytes.now left result }
{
    let after = left_after(left, tag_size);
    let Scanned::Whole(size, used) = scan_length(&bytes[tag_size..], after) else {
        return None;
    };
    Some((tag_size + used, size))
}

/// As `length_after`, if all of the payload is there.
#[inline(always)]
pub fn payload_after(tag_size: usize, bytes: &[u8], left: Option<u32>) -> Option<(usize, u32)>
    requires within { tag_size ≤ length bytes.now }
    requires small { length bytes.now < 2 ^ 31 }
    ensures within { IfSome result (λ t. (tag_size ≤ t.0) × (t.0 + t.1 ≤ length bytes.now)) }
    ensures whole { TellsLength tag_size bytes.now left result }
{
    let (start, size) = length_after(tag_size, bytes, left)?;
    if bytes.len() - start < size as usize {
        return None;
    }
    Some((start, size))
}

/// As `payload_after`, of the record at a tag.
#[inline(always)]
pub(crate) fn payload_at(at: AtTag) -> Result<(usize, u32), NoMemory>
    requires within { at.tag.size ≤ length at.bytes.now }
    requires small { length at.bytes.now < 2 ^ 31 }
    ensures within { IfOk result (λ t. (at.entry.tag.size ≤ t.0) × (t.0 + t.1 ≤ length at.entry.bytes.now)) }
    ensures whole { IfOk result (IsLengthAfter at.entry.tag.size at.entry.bytes.now (Some at.entry.left.remaining)) }
{
    match payload_after(at.tag.size, at.bytes, Some(at.left.remaining)) {
        Some(payload) => Ok(payload),
        None => Err(NoMemory),
    }
}

/// Says that a tag has a number after it: a varint, eight bytes or four bytes.
#[inline(always)]
pub(crate) fn is_number(wire_type: u8) -> bool
    ensures { result ≡ true → IsNumberType wire_type }
{
    wire_type == 0 || wire_type == 1 || wire_type == 5
}

/// The tag that begins the bytes.
#[inline(always)]
pub(crate) fn tag_at(bytes: &[u8], left: Left) -> Result<AtTag, NoMemory>
    ensures { IfOk result (Begins bytes.now left) }
{
    match record_tag(bytes, Some(left.remaining)) {
        Some(tag) => Ok(AtTag { tag, bytes, left }),
        None => Err(NoMemory),
    }
}

/// The tag that begins the bytes, if it has the number and the wire type of this one.
#[inline(always)]
pub(crate) fn tag_again(first: RecordTag, bytes: &[u8], left: Left) -> Option<AtTag>
    ensures own { IfSome result (λ t. (t.tag.number ≡ first.number) × (t.tag.wire_type ≡ first.wire_type)) }
    ensures begins { IfSome result (Begins bytes.now left) }
{
    let tag = record_tag(bytes, Some(left.remaining))?;
    if tag.number == first.number && tag.wire_type == first.wire_type {
        Some(AtTag { tag, bytes, left })
    } else {
        None
    }
}
