//! Messages, and what their fields have: values, lists and maps.

ghost use Rattle.std.specs.Prelude.{◌≡◌, ◌≢◌, ◌<◌, ◌^◌, ◌++◌, ℕ, List, Some, None, false, true, is_some, length, IsTrue, IfSome, IsSomeAnd};
ghost use Rattle.std.specs.Bool.{Decides};
ghost use Rattle.pb_wire.specs.Record.{Payload};
ghost use Rattle.pb_wire.specs.Ranges.{IsNumber};
ghost use Rattle.pb_wire.specs.Spell.{shortest_record};
ghost use Rattle.pb_schema.specs.declared.types.Shape.TheVariants as shape;
ghost use Rattle.pb_schema.specs.PayloadView.{payload_view};
ghost use Rattle.pb_schema.specs.Types.{message_fields, field_numbered};
ghost use Rattle.pb_schema.specs.View.{field_view};
ghost use Rattle.pb_schema.specs.Fits.{fits_type};
ghost use Rattle.pb_schema.specs.Kinds.{wire_type_of, closed_enum, is_packable, is_key_kind, is_of_proto2};
ghost use Rattle.pb_schema.specs.Closed.{counts, is_undeclared};
ghost use Rattle.pb_schema.specs.Rules.{IsPool};
ghost use Rattle.pb_value.specs.Canon.{record_of};
ghost use Rattle.pb_canonical.specs.Canonical.{IsCanonical};
ghost use Rattle.pb_canonical.specs.Parts.{tagged, payload_bytes, is_zero as is_zero_payload, IsKindOf, GoesTogether, IsWritten, ValueFirst, GivenFirst};
ghost use Rattle.pb_canonical.specs.Parts.{AreElements, PackedFirst, SomeEach, EntryFirst, SomeEntries, HeldFirst, FieldsFirst, MessageFirst};
ghost use Rattle.pb_canonical.specs.Parts.{InnerFirst, GroupFirst, IsStop, IsEnd, IsPayloadAt, EndsAt, GoesNoFurther};

use crate::first::{Tag, after_end, payload_first, tag_first, varint_first};
use crate::keys::is_below;
use crate::oneofs::{Met, has_one_member_each, with_field};
use crate::scalars::{is_zero, value_payload_first};
use crate::unknown::unknowns_first;
use pb_schema::scalars::ScalarPayload;
use pb_schema::{Field, Kind, MessageId, Pool, Shape, fits};

/// The longest encoding, 2^31 - 1 bytes.
const MAX_BYTES: usize = 0x7fff_ffff;

/// How many levels may be below a message.
const MAX_DEPTH: u8 = 100;

/// Whether bytes are the canonical encoding of a message of a type: what `encode` writes of some message (encoding guide, "Field Order",
/// "Packed Repeated Fields", "Maps", "Oneofs"). `message_type` is a type of the pool. Takes no memory, and time in proportion to the bytes.
///
/// The answer is true exactly where they are.
pub fn is_canonical(pool: &Pool, message_type: MessageId, bytes: &[u8]) -> bool
    requires { message_type.0 < length pool.now.messages }
    ensures { Decides result (IsCanonical pool.now message_type.0 bytes.now) }
{
    if MAX_BYTES < bytes.len() {
        return false;
    }
    let _types = pool.messages();
    match message_first(pool, message_type, bytes, MAX_DEPTH) {
        Some(rest) => rest.is_empty(),
        None => false,
    }
}

/// The bytes after a message at the start, with this many levels left: those of an end tag, or none.
#[cycle(messages)]
fn message_first<'a>(
    pool: &Pool,
    message_type: MessageId,
    bytes: &'a [u8],
    levels: u8,
) -> Option<&'a [u8]>
    requires within { message_type.0 < length pool.now.messages }
    requires pool { IsPool pool.now }
    ensures first { IfSome result (λ r. MessageFirst pool.now message_type.0 levels bytes.now r.now) }
    ensures complete { (s : List ℕ) → IsStop s → MessageFirst pool.now message_type.0 levels bytes.now s → IsSomeAnd result (λ r. r.now ≡ s) }
{
    let rest = fields_first(pool, message_type, bytes, levels)?;
    if !has_one_member_each(pool, message_type, bytes, rest, levels) {
        return None;
    }
    let end = unknowns_first(pool, message_type, rest, levels)?;
    Some(end)
}

/// The bytes after the fields of a message at the start.
#[cycle(messages)]
fn fields_first<'a>(
    pool: &Pool,
    message_type: MessageId,
    bytes: &'a [u8],
    levels: u8,
) -> Option<&'a [u8]>
    requires within { message_type.0 < length pool.now.messages }
    requires pool { IsPool pool.now }
    ensures first { IfSome result (λ r. FieldsFirst pool.now message_type.0 0 0 levels bytes.now r.now) }
    ensures complete { (s : List ℕ) → IsEnd pool.now message_type.0 s → FieldsFirst pool.now message_type.0 0 0 levels bytes.now s
        → IsSomeAnd result (λ r. r.now ≡ s) }
{
    let mut rest = bytes;
    let mut met = Met { next: 0, oneofs: 0 };
    'fields: while !rest.is_empty() {
        let (tag, after) = tag_first(rest)?;
        let Some(field) = field_at(pool, message_type, tag, after) else {
            return Some(rest);
        };
        met = with_field(met, field)?;
        rest = field_first(pool, field, after, tag, levels)?;
    }
    Some(rest)
}

/// The field that the record of a tag counts for.
#[inline(always)]
fn field_at<'p>(
    pool: &'p Pool,
    message_type: MessageId,
    tag: Tag,
    bytes: &[u8],
) -> Option<&'p Field>
    requires { message_type.0 < length pool.now.messages }
    ensures found { IfSome result (λ f. field_numbered tag.number (message_fields pool.now message_type.0) ≡ Some (field_view f.now)) }
    ensures number { IfSome result (λ f. (f.now.number ≡ tag.number) × (f.now.number < 2 ^ 29)) }
    ensures rules { IfSome result (λ f. GoesTogether pool.now (field_view f.now)) }
    ensures of_type { IfSome result (λ f. fits_type (field_view f.now) tag.wire_type ≡ true) }
    ensures is_counted { (p : Payload) → (s : List ℕ) → IsPayloadAt tag.number tag.wire_type p bytes.now s
        → counts pool.now (message_fields pool.now message_type.0) (record_of tag.number p) ≡ is_some result }
{
    let field = pool.field_by_number(message_type, tag.number)?;
    if !fits(field, tag.wire_type) {
        return None;
    }
    if is_undeclared_first(pool, field.kind, tag, bytes) {
        return None;
    }
    Some(field)
}

/// Whether the payload of a tag at the start is a number that the closed enum of a kind does not declare.
#[inline(always)]
fn is_undeclared_first(pool: &Pool, kind: Kind, tag: Tag, bytes: &[u8]) -> bool
    ensures { (p : Payload) → (s : List ℕ) → IsPayloadAt tag.number tag.wire_type p bytes.now s
        → result ≡ is_undeclared pool.now (closed_enum kind) p }
{
    if tag.wire_type != 0 {
        return false;
    }
    let Kind::ClosedEnum(_) = kind else {
        return false;
    };
    match varint_first(bytes) {
        Some((number, _)) => pool.is_undeclared(kind, number),
        None => false,
    }
}

/// The bytes after the records of a field, of which the first has its tag before these bytes.
#[cycle(messages)]
#[inline(always)]
fn field_first<'a>(
    pool: &Pool,
    field: &Field,
    bytes: &'a [u8],
    tag: Tag,
    levels: u8,
) -> Option<&'a [u8]>
    requires number { field.now.number ≡ tag.number }
    requires rules { GoesTogether pool.now (field_view field.now) }
    requires pool { IsPool pool.now }
    ensures first { IfSome result (λ r. HeldFirst pool.now (field_view field.now) levels (tagged tag.number tag.wire_type bytes.now) r.now) }
    ensures complete { (s : List ℕ) → GoesNoFurther pool.now (field_view field.now) s
        → HeldFirst pool.now (field_view field.now) levels (tagged tag.number tag.wire_type bytes.now) s → IsSomeAnd result (λ r. r.now ≡ s) }
{
    match field.shape {
        Shape::Implicit => {
            let rest = implicit_first(pool, field.kind, bytes, tag)?;
            Some(rest)
        }
        Shape::Explicit => {
            let rest = value_first(pool, field.kind, bytes, tag, levels)?;
            Some(rest)
        }
        Shape::OneofMember(_) => {
            let rest = value_first(pool, field.kind, bytes, tag, levels)?;
            Some(rest)
        }
        Shape::List { packed: true } => {
            let rest = packed_first(pool, field.kind, bytes, tag)?;
            Some(rest)
        }
        Shape::List { packed: false } => {
            let rest = list_first(pool, field, bytes, tag, levels)?;
            Some(rest)
        }
        Shape::Map { key } => {
            let rest = map_first(pool, key, field, bytes, tag, levels)?;
            Some(rest)
        }
    }
}

/// The bytes after a value of a field with implicit presence, which is no default.
fn implicit_first<'a>(pool: &Pool, kind: Kind, bytes: &'a [u8], tag: Tag) -> Option<&'a [u8]>
    ensures first { IfSome result (λ r. GivenFirst pool.now kind tag.number 0 (tagged tag.number tag.wire_type bytes.now) r.now) }
    ensures complete { (p : Payload) → (s : List ℕ) → wire_type_of kind ≡ tag.wire_type → IsWritten pool.now kind p → is_zero_payload p ≡ false
        → bytes.now ≡ payload_bytes p ++ s → IsSomeAnd result (λ r. r.now ≡ s) }
{
    if tag.wire_type != kind.wire_type() {
        return None;
    }
    let (payload, rest) = value_payload_first(pool, kind, bytes)?;
    if is_zero(payload) { None } else { Some(rest) }
}

/// The bytes after a scalar of a kind.
#[inline(always)]
fn scalar_value_first<'a>(pool: &Pool, kind: Kind, bytes: &'a [u8], tag: Tag) -> Option<&'a [u8]>
    requires { wire_type_of kind ≡ tag.wire_type }
    ensures first { IfSome result (λ r. ValueFirst pool.now kind tag.number 0 (tagged tag.number tag.wire_type bytes.now) r.now) }
    ensures complete { (p : Payload) → (s : List ℕ) → IsWritten pool.now kind p → bytes.now ≡ payload_bytes p ++ s
        → IsSomeAnd result (λ r. r.now ≡ s) }
{
    let (_payload, rest) = value_payload_first(pool, kind, bytes)?;
    Some(rest)
}

/// The bytes after a value of a kind.
#[cycle(messages)]
fn value_first<'a>(
    pool: &Pool,
    kind: Kind,
    bytes: &'a [u8],
    tag: Tag,
    levels: u8,
) -> Option<&'a [u8]>
    requires kind { IsKindOf pool.now kind }
    requires number { IsNumber tag.number }
    requires pool { IsPool pool.now }
    ensures first { IfSome result (λ r. ValueFirst pool.now kind tag.number levels (tagged tag.number tag.wire_type bytes.now) r.now) }
    ensures complete { (s : List ℕ) → ValueFirst pool.now kind tag.number levels (tagged tag.number tag.wire_type bytes.now) s
        → IsSomeAnd result (λ r. r.now ≡ s) }
{
    if tag.wire_type != kind.wire_type() {
        return None;
    }
    match kind {
        Kind::Message(message_type) => {
            let rest = inner_first(pool, message_type, bytes, levels)?;
            Some(rest)
        }
        Kind::Group(message_type) => {
            let rest = group_first(pool, message_type, bytes, tag.number, levels)?;
            Some(rest)
        }
        _ => {
            let rest = scalar_value_first(pool, kind, bytes, tag)?;
            Some(rest)
        }
    }
}

/// The bytes after a message that follows its length.
#[cycle(messages)]
fn inner_first<'a>(
    pool: &Pool,
    message_type: MessageId,
    bytes: &'a [u8],
    levels: u8,
) -> Option<&'a [u8]>
    requires within { message_type.0 < length pool.now.messages }
    requires pool { IsPool pool.now }
    ensures first { IfSome result (λ r. InnerFirst pool.now message_type.0 levels bytes.now r.now) }
    ensures complete { (s : List ℕ) → InnerFirst pool.now message_type.0 levels bytes.now s → IsSomeAnd result (λ r. r.now ≡ s) }
{
    if levels == 0 {
        return None;
    }
    let (payload, rest) = payload_first(bytes)?;
    let end = message_first(pool, message_type, payload, levels - 1)?;
    if end.is_empty() { Some(rest) } else { None }
}

/// The bytes after a message that is a group.
#[cycle(messages)]
fn group_first<'a>(
    pool: &Pool,
    message_type: MessageId,
    bytes: &'a [u8],
    number: u32,
    levels: u8,
) -> Option<&'a [u8]>
    requires within { message_type.0 < length pool.now.messages }
    requires number { IsNumber number }
    requires pool { IsPool pool.now }
    ensures first { IfSome result (λ r. GroupFirst pool.now message_type.0 number levels bytes.now r.now) }
    ensures complete { (s : List ℕ) → GroupFirst pool.now message_type.0 number levels bytes.now s → IsSomeAnd result (λ r. r.now ≡ s) }
{
    if levels == 0 {
        return None;
    }
    let end = message_first(pool, message_type, bytes, levels - 1)?;
    let rest = after_end(end, number)?;
    Some(rest)
}

/// The bytes after a packed list.
fn packed_first<'a>(pool: &Pool, kind: Kind, bytes: &'a [u8], tag: Tag) -> Option<&'a [u8]>
    requires { IsTrue (is_packable kind) }
    ensures first { IfSome result (λ r. PackedFirst pool.now kind tag.number (tagged tag.number tag.wire_type bytes.now) r.now) }
    ensures complete { (s : List ℕ) → PackedFirst pool.now kind tag.number (tagged tag.number tag.wire_type bytes.now) s
        → IsSomeAnd result (λ r. r.now ≡ s) }
{
    if tag.wire_type != 2 {
        return None;
    }
    let (payload, rest) = payload_first(bytes)?;
    if payload.is_empty() {
        return None;
    }
    if are_elements(pool, kind, payload) {
        Some(rest)
    } else {
        None
    }
}

/// Whether bytes are elements of a packed list.
fn are_elements(pool: &Pool, kind: Kind, bytes: &[u8]) -> bool
    requires { IsTrue (is_packable kind) }
    ensures { Decides result (AreElements pool.now kind bytes.now) }
{
    let mut rest = bytes;
    'elements: while !rest.is_empty() {
        let Some((_payload, after)) = value_payload_first(pool, kind, rest) else {
            return false;
        };
        rest = after;
    }
    true
}

/// The bytes after a tag at the start.
fn after_tag(bytes: &[u8], tag: Tag) -> Option<&[u8]>
    ensures split { IfSome result (λ r. bytes.now ≡ tagged tag.number tag.wire_type r.now) }
    ensures complete { (s : List ℕ) → IsNumber tag.number → tag.wire_type < 8 → bytes.now ≡ tagged tag.number tag.wire_type s
        → IsSomeAnd result (λ r. r.now ≡ s) }
{
    let (first, rest) = tag_first(bytes)?;
    if first.number == tag.number && first.wire_type == tag.wire_type {
        Some(rest)
    } else {
        None
    }
}

/// The bytes after the tag of the next element of a list.
fn next_element<'a>(pool: &Pool, kind: Kind, bytes: &'a [u8], tag: Tag) -> Option<&'a [u8]>
    ensures split { IfSome result (λ r. bytes.now ≡ tagged tag.number tag.wire_type r.now) }
    ensures declared { IfSome result (λ r. (p : Payload) → (s : List ℕ) → IsPayloadAt tag.number tag.wire_type p r.now s
        → is_undeclared pool.now (closed_enum kind) p ≡ false) }
    ensures complete { (p : Payload) → (t s : List ℕ) → IsNumber tag.number → bytes.now ≡ tagged tag.number tag.wire_type t
        → IsPayloadAt tag.number tag.wire_type p t s → is_undeclared pool.now (closed_enum kind) p ≡ false → IsSomeAnd result (λ r. r.now ≡ t) }
{
    let rest = after_tag(bytes, tag)?;
    if is_undeclared_first(pool, kind, tag, rest) {
        None
    } else {
        Some(rest)
    }
}

/// The bytes after a list, each element in a record of its own.
#[cycle(messages)]
fn list_first<'a>(
    pool: &Pool,
    field: &Field,
    bytes: &'a [u8],
    tag: Tag,
    levels: u8,
) -> Option<&'a [u8]>
    requires number { field.now.number ≡ tag.number }
    requires rules { GoesTogether pool.now (field_view field.now) }
    requires pool { IsPool pool.now }
    ensures first { IfSome result (λ r. SomeEach pool.now (field_view field.now) levels (tagged tag.number tag.wire_type bytes.now) r.now) }
    ensures complete { (s : List ℕ) → EndsAt pool.now (closed_enum field.now.kind) tag.number tag.wire_type s
        → SomeEach pool.now (field_view field.now) levels (tagged tag.number tag.wire_type bytes.now) s → IsSomeAnd result (λ r. r.now ≡ s) }
{
    let mut rest = value_first(pool, field.kind, bytes, tag, levels)?;
    'values: loop {
        let Some(after) = next_element(pool, field.kind, rest, tag) else {
            return Some(rest);
        };
        let end = value_first(pool, field.kind, after, tag, levels)?;
        rest = end;
    }
}

/// The bytes after a map.
#[cycle(messages)]
fn map_first<'a>(
    pool: &Pool,
    key: Kind,
    field: &Field,
    bytes: &'a [u8],
    tag: Tag,
    levels: u8,
) -> Option<&'a [u8]>
    requires number { field.now.number ≡ tag.number }
    requires rules { GoesTogether pool.now (field_view field.now) }
    requires key { field.now.shape ≡ shape.Map key }
    requires pool { IsPool pool.now }
    ensures first { IfSome result (λ r. SomeEntries pool.now (field_view field.now) levels (tagged tag.number tag.wire_type bytes.now) r.now) }
    ensures complete { (s : List ℕ) → EndsAt pool.now None tag.number tag.wire_type s
        → SomeEntries pool.now (field_view field.now) levels (tagged tag.number tag.wire_type bytes.now) s → IsSomeAnd result (λ r. r.now ≡ s) }
{
    if tag.wire_type != 2 {
        return None;
    }
    let (first, after_first) = entry_first(pool, key, field.kind, bytes, levels)?;
    let mut last = first;
    let mut rest = after_first;
    'entries: loop {
        let Some(after) = after_tag(rest, tag) else {
            return Some(rest);
        };
        let (found, end) = entry_first(pool, key, field.kind, after, levels)?;
        if !is_below(key, last, found) {
            return None;
        }
        last = found;
        rest = end;
    }
}

/// The key of an entry that follows its length, and the bytes after the entry. A message that is its value is at its level.
#[cycle(messages)]
fn entry_first<'a>(
    pool: &Pool,
    key: Kind,
    value: Kind,
    bytes: &'a [u8],
    levels: u8,
) -> Option<(ScalarPayload<'a>, &'a [u8])>
    requires kind { IsKindOf pool.now value }
    requires key { IsTrue (is_key_kind key) }
    requires open_kind { is_of_proto2 value ≡ false }
    requires pool { IsPool pool.now }
    ensures first { IfSome result (λ r. EntryFirst pool.now key value levels bytes.now (payload_view r.0) r.1.now) }
    ensures complete { (p : Payload) → (s : List ℕ) → EntryFirst pool.now key value levels bytes.now p s
        → IsSomeAnd result (λ r. (payload_view r.0 ≡ p) × (r.1.now ≡ s)) }
{
    if levels == 0 {
        return None;
    }
    let (payload, rest) = payload_first(bytes)?;
    let (found, after) = key_first(pool, key, payload)?;
    let (tag, after_tag) = tag_first(after)?;
    if tag.number != 2 {
        return None;
    }
    let end = value_first(pool, value, after_tag, tag, levels)?;
    if end.is_empty() {
        Some((found, rest))
    } else {
        None
    }
}

/// The key of an entry, and the bytes after it.
fn key_first<'a>(pool: &Pool, key: Kind, bytes: &'a [u8]) -> Option<(ScalarPayload<'a>, &'a [u8])>
    ensures key { IfSome result (λ r. IsWritten pool.now key (payload_view r.0)) }
    ensures split { IfSome result (λ r. bytes.now ≡ shortest_record 1 (payload_view r.0) ++ r.1.now) }
    ensures complete { (p : Payload) → (s : List ℕ) → IsWritten pool.now key p → bytes.now ≡ shortest_record 1 p ++ s
        → IsSomeAnd result (λ r. (payload_view r.0 ≡ p) × (r.1.now ≡ s)) }
{
    let (tag, after) = tag_first(bytes)?;
    if tag.number != 1 || tag.wire_type != key.wire_type() {
        return None;
    }
    let (payload, rest) = value_payload_first(pool, key, after)?;
    Some((payload, rest))
}
