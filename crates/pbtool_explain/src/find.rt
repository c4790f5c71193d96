//! Where the records of a path are in bytes.

ghost use Rattle.std.specs.Prelude.{◌≡◌, ◌≢◌, ◌+◌, ◌-◌, ◌≤◌, ◌<◌, ◌^◌, ◌%◌, ◌/◌, ◌↔◌, ℕ, List, None, true, false, drop, length, IfSome, IfNone};
ghost use Rattle.pb_wire.specs.Fault.{Fault, HasTag, Place, Reads, VarintFault, place};
ghost use Rattle.pb_wire.specs.Record.{Record};
ghost use Rattle.pb_wire.specs.RecordIter.{ShowsRecord, seen};
ghost use Rattle.pb_wire.specs.Scan.{given_at, passed};
ghost use Rattle.pbtool_explain.specs.Records.{IsFound, IsValueAt, IsWholeAt};
ghost use Rattle.pbtool_explain.specs.Turns.{IsReached, ShowsValue, TurnIs};

use pb_wire::{Limits, PathStep, Payload, RecordIter, Scanned, scan_varint};

/// A record: the index of its first byte, that of its payload, and that after its last byte, if its bytes say it.
#[derive(Clone, Copy, Debug, PartialEq, Eq)]
pub(crate) struct Found {
    pub start: usize,
    pub payload: usize,
    pub end: Option<usize>,
}

/// The tag of a step: its wire type, and how many bytes it takes.
#[derive(Clone, Copy)]
struct Tag {
    wire_type: u64,
    size: usize,
}

/// What comes at an index between records.
#[derive(Clone, Copy)]
enum Turn {
    /// The record that is looked for.
    Here(Found),
    /// Another record, which is whole and ends before this index, and how many records of the number come before that.
    Past { at: usize, before: u32 },
    /// Neither.
    Nowhere,
}

const VARINT: u64 = 0;

const I64: u64 = 1;

const LEN: u64 = 2;

const START_GROUP: u64 = 3;

const END_GROUP: u64 = 4;

/// The record that a step leads to, in a payload that begins at an index: the whole records before it are passed over. None where the
/// bytes have no such record.
pub(crate) fn find_record(bytes: &[u8], start: usize, step: PathStep) -> Option<Found>
    ensures { IsFound bytes.now start step result }
{
    let mut at = start;
    let mut before: u32 = 0;
    'records: loop {
        match take_turn(bytes, at, before, step) {
            Turn::Here(found) => return Some(found),
            Turn::Nowhere => return None,
            Turn::Past {
                at: after,
                before: counted,
            } => {
                at = after;
                before = counted;
            }
        }
    }
}

/// What comes at an index, before which there are this number of records of the step's number.
fn take_turn(bytes: &[u8], at: usize, before: u32, step: PathStep) -> Turn
    requires { before ≤ step.occurrence }
    ensures { (start : ℕ) (rs : List Record) → IsReached bytes.now start step rs at before
        → TurnIs bytes.now start step at result }
{
    let rest = rest_at(bytes, at);
    match tag_of(rest, before, step) {
        Some(tag) => Turn::Here(found_at(rest, at, tag)),
        None => match first_record(rest) {
            None => Turn::Nowhere,
            Some((number, payload)) => Turn::Past {
                at: at.saturating_add(record_size(rest, payload)),
                before: count_on(before, step.occurrence, number == step.number),
            },
        },
    }
}

/// The tag of a step that begins the bytes, if this number of records before it is that of the step.
fn tag_of(rest: &[u8], before: u32, step: PathStep) -> Option<Tag>
    ensures counted { IfSome result (λ t. before ≡ step.occurrence) }
    ensures found { IfSome result (λ t. (0 < t.size) × (t.size ≤ length rest.now)
        × (t.wire_type < 6) × (t.wire_type ≢ 4)
        × ((at : ℕ) → HasTag (given_at at None rest.now) step.number t.wire_type
        (passed (given_at at None rest.now) t.size))) }
    ensures none { IfNone result (before ≡ step.occurrence → (at w : ℕ) (q : Place)
        → HasTag (given_at at None rest.now) step.number w q → w ≢ 4 → ⊥) }
{
    if before == step.occurrence {
        step_tag(rest, step.number)
    } else {
        None
    }
}

/// The count of records after one more, which may be one of those that are counted. It is below the count that is looked for.
fn count_on(before: u32, last: u32, is_counted: bool) -> u32
    ensures more { is_counted ≡ true → before < last → result ≡ before + 1 }
    ensures same { is_counted ≡ false → result ≡ before }
{
    if is_counted {
        before.saturating_add(1)
    } else {
        before
    }
}

/// The bytes from an index on.
fn rest_at(bytes: &[u8], at: usize) -> &[u8]
    ensures { result.now ≡ drop at bytes.now }
{
    &bytes[at.min(bytes.len())..]
}

/// The varint that begins the bytes, and how many bytes it takes.
fn varint_of(rest: &[u8]) -> Option<(u64, usize)>
    ensures found { IfSome result (λ r. (0 < r.1) × (r.1 ≤ length rest.now)
        × ((at : ℕ) → Reads (given_at at None rest.now) r.0
        (passed (given_at at None rest.now) r.1))) }
    ensures none { IfNone result ((at : ℕ) → (f : Fault)
        × VarintFault (given_at at None rest.now) f) }
{
    match scan_varint(rest, None) {
        Scanned::Whole(number, size) => Some((number, size)),
        Scanned::Short | Scanned::Fault(_) => None,
    }
}

/// How many bytes the varint takes that begins the bytes, if one does.
fn varint_size(rest: &[u8]) -> usize
    ensures { (at n : ℕ) (q : Place) → Reads (given_at at None rest.now) n q
        → q ≡ passed (given_at at None rest.now) result }
{
    match varint_of(rest) {
        Some((_, size)) => size,
        None => 0,
    }
}

/// The tag of a number that begins the bytes, if it ends no group.
fn step_tag(rest: &[u8], number: u32) -> Option<Tag>
    ensures found { IfSome result (λ t. (0 < t.size) × (t.size ≤ length rest.now)
        × (t.wire_type < 6) × (t.wire_type ≢ 4)
        × ((at : ℕ) → HasTag (given_at at None rest.now) number t.wire_type
        (passed (given_at at None rest.now) t.size))) }
    ensures none { IfNone result ((at w : ℕ) (q : Place)
        → HasTag (given_at at None rest.now) number w q → w ≢ 4 → ⊥) }
{
    let (tag, size) = varint_of(rest)?;
    if is_step_tag(tag, number) {
        Some(Tag {
            wire_type: tag % 8,
            size,
        })
    } else {
        None
    }
}

/// Whether a varint is a tag of a field number that ends no group: the number is from 1 to 2^29 - 1, and the wire type from 0 to 5.
fn is_step_tag(tag: u64, number: u32) -> bool
    ensures { result ≡ true ↔ ((0 < number) × (number < 2 ^ 29) × (tag / 8 ≡ number) × (tag % 8 < 6)
        × (tag % 8 ≢ 4)) }
{
    let wire_type = tag % 8;
    0 < number
        && number < 1 << 29
        && tag / 8 == u64::from(number)
        && wire_type < 6
        && wire_type != END_GROUP
}

/// The record of a step whose tag begins the bytes, which begin at an index.
fn found_at(rest: &[u8], at: usize, tag: Tag) -> Found
    requires small { at + length rest.now < 2 ^ 63 }
    requires within { tag.size ≤ length rest.now }
    requires known { (tag.wire_type < 6) × (tag.wire_type ≢ 4) }
    ensures start { result.start ≡ at }
    ensures value { IsValueAt tag.wire_type
        (passed (given_at at None rest.now) tag.size) result.payload result.end }
{
    let value = value_bounds(rest_at(rest, tag.size), at + tag.size, tag.wire_type);
    Found {
        start: at,
        payload: value.0,
        end: value.1,
    }
}

/// Where the payload begins of a value of a wire type, which begins the bytes, and where the value ends, if its bytes say it.
fn value_bounds(value: &[u8], at: usize, wire_type: u64) -> (usize, Option<usize>)
    requires small { at + length value.now < 2 ^ 63 }
    requires known { (wire_type < 6) × (wire_type ≢ 4) }
    ensures { IsValueAt wire_type (given_at at None value.now) result.0 result.1 }
{
    match wire_type {
        VARINT => (at, number_end(value, at)),
        I64 => (at, Some(at + 8)),
        LEN => bytes_bounds(value, at),
        START_GROUP => (at, None),
        _ => (at, Some(at + 4)),
    }
}

/// Where the varint ends that begins the bytes.
fn number_end(value: &[u8], at: usize) -> Option<usize>
    requires { at + length value.now < 2 ^ 63 }
    ensures { IsValueAt 0 (given_at at None value.now) at result }
{
    let (_, size) = varint_of(value)?;
    Some(at + size)
}

/// Where the bytes begin and end whose length begins the bytes.
fn bytes_bounds(value: &[u8], at: usize) -> (usize, Option<usize>)
    requires { at + length value.now < 2 ^ 63 }
    ensures { IsValueAt 2 (given_at at None value.now) result.0 result.1 }
{
    match varint_of(value) {
        None => (at, None),
        Some((length, size)) => {
            let start = at + size;
            (start, start.checked_add(length as usize))
        }
    }
}

/// The record that begins the bytes, if it is whole: its number and its payload.
fn first_record(rest: &[u8]) -> Option<(u32, Payload<'_>)>
    ensures whole { IfSome result (λ r. (at : ℕ)
        → (q : Place) × (h : ShowsRecord 100 (given_at at None rest.now) (r.0, seen r.1) q)
        × (length h.front < 2 ^ 31)) }
    ensures none { IfNone result ((at : ℕ) → IsWholeAt (given_at at None rest.now) → ⊥) }
{
    match RecordIter::new(rest, Limits::FULL).next() {
        Some(Ok(record)) => Some(record),
        Some(Err(_)) => None,
        None => None,
    }
}

/// How many bytes the record with this payload takes that begins the bytes.
fn record_size(rest: &[u8], payload: Payload<'_>) -> usize
    ensures { (at k : ℕ) (q : Place)
        → ShowsRecord 100 (given_at at None rest.now) (k, seen payload.entry) q
        → q ≡ passed (given_at at None rest.now) result }
{
    let tag = varint_size(rest);
    tag.saturating_add(value_size(rest_at(rest, tag), payload))
}

/// How many bytes follow the tag of a record with this payload, where these begin them.
fn value_size(value: &[u8], payload: Payload<'_>) -> usize
    ensures { (at : ℕ) (q : Place) → ShowsValue (given_at at None value.now) (seen payload.entry) q
        → q ≡ passed (given_at at None value.now) result }
{
    match payload {
        Payload::Varint(_) => varint_size(value),
        Payload::I64(_) => 8,
        Payload::I32(_) => 4,
        Payload::Len(bytes) => varint_size(value).saturating_add(bytes.len()),
        Payload::Group(inside) => {
            let end = rest_at(value, inside.len());
            inside.len().saturating_add(varint_size(end))
        }
    }
}
