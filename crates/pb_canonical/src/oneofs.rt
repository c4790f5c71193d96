//! The oneofs of which a member was read.

ghost use Rattle.std.specs.Prelude.{◌≡◌, ◌≤◌, ◌<◌, ◌+◌, ◌^◌, ◌++◌, ◌⊎◌, ℕ, List, Some, length, true, IfSome, IfNone};
ghost use Rattle.std.specs.Bool.{Decides};
ghost use Rattle.std.specs.Int.{IsBitSet};
ghost use Rattle.pb_wire.specs.Record.{Record};
ghost use Rattle.pb_wire.specs.Spell.{shortest_records};
ghost use Rattle.pb_schema.specs.Types.{message_fields};
ghost use Rattle.pb_schema.specs.Rules.{IsPool};
ghost use Rattle.pb_value.specs.Data.{Fields, fields_depth};
ghost use Rattle.pb_value.specs.Canon.{canon_fields};
ghost use Rattle.pb_value.specs.WellFormed.{oneof_of, oneof_at, AreFields, HasOneMemberEach};
ghost use Rattle.pb_canonical.specs.Parts.{IsMarked, IsMore, IsTaken, CanBeRead, OneRecordEach, OneMemberEach};

use crate::first::tag_first;
use crate::unknown::raw_first;
use pb_schema::{Field, MessageId, Pool, Shape};

/// How many oneofs have a mark.
const MARKED: usize = 128;

/// What was read of a message's fields: the number after the last one, and which of the first 128 oneofs have a member, a bit each.
#[derive(Clone, Copy)]
pub(crate) struct Met {
    pub next: u32,
    pub oneofs: u128,
}

/// The same with one more field. None where the field may not follow.
#[inline(always)]
pub(crate) fn with_field(met: Met, field: &Field) -> Option<Met>
    requires { field.now.number < 2 ^ 29 }
    ensures follows { IfSome result (λ r. (met.next ≤ field.now.number) × (r.next ≡ field.now.number + 1)) }
    ensures oneofs { IfSome result (λ r. IsMarked (oneof_of field.now.shape) 0 met.oneofs r.oneofs) }
    ensures refused { IfNone result ((field.now.number < met.next) ⊎ IsTaken (oneof_of field.now.shape) 0 met.oneofs) }
{
    if field.number < met.next {
        return None;
    }
    let oneofs = with_shape(met.oneofs, field.shape, 0)?;
    Some(Met {
        next: field.number + 1,
        oneofs,
    })
}

/// The marks, from that of the oneof `first` on, with one more field. None where its oneof has a member already.
#[inline(always)]
fn with_shape(marks: u128, shape: Shape, first: usize) -> Option<u128>
    ensures marked { IfSome result (λ r. IsMarked (oneof_of shape) first marks r) }
    ensures refused { IfNone result (IsTaken (oneof_of shape) first marks) }
{
    match shape {
        Shape::OneofMember(oneof) => {
            let new = with_oneof(marks, oneof as usize, first)?;
            Some(new)
        }
        Shape::Implicit | Shape::Explicit | Shape::List { packed: _ } | Shape::Map { key: _ } => {
            Some(marks)
        }
    }
}

/// The marks, from that of the oneof `first` on, with one more oneof. None where it has a member already.
fn with_oneof(marks: u128, oneof: usize, first: usize) -> Option<u128>
    ensures marked { IfSome result (λ r. IsMarked (Some oneof) first marks r) }
    ensures refused { IfNone result (IsTaken (Some oneof) first marks) }
{
    if oneof < first {
        return Some(marks);
    }
    let index = oneof - first;
    if MARKED <= index {
        return Some(marks);
    }
    let new = with_mark(marks, index as u32)?;
    Some(new)
}

/// The marks with one more. None where it is set already.
#[inline(always)]
fn with_mark(marks: u128, index: u32) -> Option<u128>
    requires { index < 128 }
    ensures more { IfSome result (λ r. IsMore marks index r) }
    ensures refused { IfNone result (IsBitSet marks index) }
{
    let mark = 1u128 << index;
    if marks & mark == 0 {
        Some(marks | mark)
    } else {
        None
    }
}

/// The marks with the oneof of one more record. None where it has a member already.
fn with_number(
    pool: &Pool,
    message_type: MessageId,
    marks: u128,
    number: u32,
    first: usize,
) -> Option<u128>
    requires { message_type.0 < length pool.now.messages }
    ensures marked { IfSome result (λ r. IsMarked (oneof_at (message_fields pool.now message_type.0) number) first marks r) }
    ensures refused { IfNone result (IsTaken (oneof_at (message_fields pool.now message_type.0) number) first marks) }
{
    match pool.field_by_number(message_type, number) {
        Some(field) => {
            let new = with_shape(marks, field.shape, first)?;
            Some(new)
        }
        None => Some(marks),
    }
}

/// Whether records have at most one member of each of 128 oneofs.
fn has_one_record_each(
    pool: &Pool,
    message_type: MessageId,
    bytes: &[u8],
    levels: u8,
    first: usize,
) -> bool
    requires { message_type.0 < length pool.now.messages }
    ensures { (rs : List Record) → CanBeRead levels rs → bytes.now ≡ shortest_records rs
        → Decides result (OneRecordEach (oneof_at (message_fields pool.now message_type.0)) first rs) }
{
    let mut rest = bytes;
    let mut marks: u128 = 0;
    'records: while !rest.is_empty() {
        let Some((tag, after)) = tag_first(rest) else {
            return false;
        };
        let Some(end) = raw_first(after, tag, levels) else {
            return false;
        };
        let Some(new) = with_number(pool, message_type, marks, tag.number, first) else {
            return false;
        };
        marks = new;
        rest = end;
    }
    true
}

/// Whether the records of fields, which are the bytes before `rest`, have at most one member of each oneof, where they have of each of the
/// first 128. They are read once for each further 128 oneofs of the message type.
#[inline(always)]
pub(crate) fn has_one_member_each(
    pool: &Pool,
    message_type: MessageId,
    bytes: &[u8],
    rest: &[u8],
    levels: u8,
) -> bool
    requires within { message_type.0 < length pool.now.messages }
    requires shorter { length rest.now ≤ length bytes.now }
    ensures { (fs : Fields) → AreFields pool.now (message_fields pool.now message_type.0) fs → fields_depth fs ≤ levels
        → bytes.now ≡ shortest_records (canon_fields pool.now (message_fields pool.now message_type.0) fs) ++ rest.now
        → OneMemberEach (message_fields pool.now message_type.0) 128 fs
        → Decides result (HasOneMemberEach (message_fields pool.now message_type.0) fs) }
{
    let oneofs = oneof_count(pool, message_type);
    if oneofs <= MARKED {
        return true;
    }
    let records = &bytes[..bytes.len() - rest.len()];
    have_further_oneofs_one_each(pool, message_type, records, levels, oneofs)
}

/// How many oneofs a message type has.
#[inline(always)]
fn oneof_count(pool: &Pool, message_type: MessageId) -> usize
    requires { message_type.0 < length pool.now.messages }
    ensures below { (n o : ℕ) → oneof_at (message_fields pool.now message_type.0) n ≡ Some o → o < result }
    ensures rules { IsPool pool.now }
    ensures few { result < 2 ^ 63 }
{
    let message = &pool.messages()[message_type.0];
    message.oneofs.len()
}

/// As `has_one_member_each`, of bytes that are the records, and a message type with more than 128 oneofs.
fn have_further_oneofs_one_each(
    pool: &Pool,
    message_type: MessageId,
    bytes: &[u8],
    levels: u8,
    oneofs: usize,
) -> bool
    requires within { message_type.0 < length pool.now.messages }
    requires rules { IsPool pool.now }
    requires few { oneofs < 2 ^ 63 }
    ensures each { (fs : Fields) → AreFields pool.now (message_fields pool.now message_type.0) fs → fields_depth fs ≤ levels
        → bytes.now ≡ shortest_records (canon_fields pool.now (message_fields pool.now message_type.0) fs)
        → OneMemberEach (message_fields pool.now message_type.0) 128 fs
        → result ≡ true → OneMemberEach (message_fields pool.now message_type.0) oneofs fs }
    ensures complete { (fs : Fields) → AreFields pool.now (message_fields pool.now message_type.0) fs → fields_depth fs ≤ levels
        → bytes.now ≡ shortest_records (canon_fields pool.now (message_fields pool.now message_type.0) fs)
        → HasOneMemberEach (message_fields pool.now message_type.0) fs → result ≡ true }
{
    let mut first = MARKED;
    'oneofs: while first < oneofs {
        if !has_one_record_each(pool, message_type, bytes, levels, first) {
            return false;
        }
        first += MARKED;
    }
    true
}
