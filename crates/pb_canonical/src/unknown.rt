//! Unknown records: those that count for no field of a message.

ghost use Rattle.std.specs.Prelude.{◌≡◌, ◌≢◌, ◌<◌, ℕ, List, length, IfSome, IsSomeAnd};
ghost use Rattle.pb_wire.specs.Record.{Payload, varint, wire_type as type_of};
ghost use Rattle.pb_wire.specs.Ranges.{IsNumber};
ghost use Rattle.pb_schema.specs.Types.{message_fields};
ghost use Rattle.pb_schema.specs.Closed.{counts};
ghost use Rattle.pb_value.specs.Canon.{record_of};
ghost use Rattle.pb_canonical.specs.Parts.{tagged, IsStop, UnknownFirst, UnknownsFirst, RawFirst, InsideFirst};

use crate::first::{Tag, after_end, tag_first, varint_first};
use crate::scalars::scalar_first;
use pb_schema::{MessageId, Pool, Shape, fits};

/// The bytes after the payload of a tag's record, whatever its number.
#[cycle(raw)]
pub(crate) fn raw_first(bytes: &[u8], tag: Tag, levels: u8) -> Option<&[u8]>
    requires { IsNumber tag.number }
    ensures first { IfSome result (λ r. RawFirst tag.number tag.wire_type levels bytes.now r.now) }
    ensures complete { (s : List ℕ) → RawFirst tag.number tag.wire_type levels bytes.now s → IsSomeAnd result (λ r. r.now ≡ s) }
{
    if tag.wire_type == 3 {
        group_first(bytes, tag.number, levels)
    } else {
        let (_payload, rest) = scalar_first(bytes, tag.wire_type)?;
        Some(rest)
    }
}

/// The bytes after a group whose start tag is before these bytes.
#[cycle(raw)]
fn group_first(bytes: &[u8], number: u32, levels: u8) -> Option<&[u8]>
    requires { IsNumber number }
    ensures first { IfSome result (λ r. RawFirst number 3 levels bytes.now r.now) }
    ensures complete { (s : List ℕ) → RawFirst number 3 levels bytes.now s → IsSomeAnd result (λ r. r.now ≡ s) }
{
    if levels == 0 {
        return None;
    }
    let end = inside_first(bytes, levels - 1)?;
    let rest = after_end(end, number)?;
    Some(rest)
}

/// The bytes after the records of a group: its end tag, or none.
#[cycle(raw)]
fn inside_first(bytes: &[u8], levels: u8) -> Option<&[u8]>
    ensures first { IfSome result (λ r. InsideFirst levels bytes.now r.now) }
    ensures complete { (s : List ℕ) → IsStop s → InsideFirst levels bytes.now s → IsSomeAnd result (λ r. r.now ≡ s) }
{
    let mut rest = bytes;
    'records: while !rest.is_empty() {
        let (tag, after) = tag_first(rest)?;
        if tag.wire_type == 4 {
            return Some(rest);
        }
        rest = raw_first(after, tag, levels)?;
    }
    Some(rest)
}

/// Whether a record of this number and wire type counts for a field of a message type. Of a closed enum it need not be declared.
fn fits_at(pool: &Pool, message_type: MessageId, tag: Tag) -> bool
    requires { message_type.0 < length pool.now.messages }
    ensures { (p : Payload) → type_of p ≡ tag.wire_type → type_of p ≢ 0
        → counts pool.now (message_fields pool.now message_type.0) (record_of tag.number p) ≡ result }
{
    match pool.field_by_number(message_type, tag.number) {
        Some(field) => fits(field, tag.wire_type),
        None => false,
    }
}

/// Whether a varint counts for the field of a number in a message type.
fn counts_at(pool: &Pool, message_type: MessageId, field: u32, number: u64) -> bool
    requires { message_type.0 < length pool.now.messages }
    ensures { counts pool.now (message_fields pool.now message_type.0) (record_of field (varint number)) ≡ result }
{
    match pool.field_by_number(message_type, field) {
        Some(field) => {
            if !fits(field, 0) {
                return false;
            }
            if let Shape::Map { key: _ } = field.shape {
                return true;
            }
            !pool.is_undeclared(field.kind, number)
        }
        None => false,
    }
}

/// The bytes after the payload of an unknown record with this tag.
fn unknown_first<'a>(
    pool: &Pool,
    message_type: MessageId,
    bytes: &'a [u8],
    tag: Tag,
    levels: u8,
) -> Option<&'a [u8]>
    requires within { message_type.0 < length pool.now.messages }
    requires number { IsNumber tag.number }
    ensures first { IfSome result (λ r. UnknownFirst pool.now message_type.0 tag.number levels (tagged tag.number tag.wire_type bytes.now) r.now) }
    ensures complete { (s : List ℕ) → UnknownFirst pool.now message_type.0 tag.number levels (tagged tag.number tag.wire_type bytes.now) s
        → IsSomeAnd result (λ r. r.now ≡ s) }
{
    if tag.wire_type == 0 {
        let (number, rest) = varint_first(bytes)?;
        if counts_at(pool, message_type, tag.number, number) {
            None
        } else {
            Some(rest)
        }
    } else if fits_at(pool, message_type, tag) {
        None
    } else {
        raw_first(bytes, tag, levels)
    }
}

/// The bytes after the unknown records at the start: an end tag, or none.
pub(crate) fn unknowns_first<'a>(
    pool: &Pool,
    message_type: MessageId,
    bytes: &'a [u8],
    levels: u8,
) -> Option<&'a [u8]>
    requires { message_type.0 < length pool.now.messages }
    ensures first { IfSome result (λ r. UnknownsFirst pool.now message_type.0 levels bytes.now r.now) }
    ensures complete { (s : List ℕ) → IsStop s → UnknownsFirst pool.now message_type.0 levels bytes.now s → IsSomeAnd result (λ r. r.now ≡ s) }
{
    let mut rest = bytes;
    'records: while !rest.is_empty() {
        let (tag, after) = tag_first(rest)?;
        if tag.wire_type == 4 {
            return Some(rest);
        }
        rest = unknown_first(pool, message_type, after, tag, levels)?;
    }
    Some(rest)
}
