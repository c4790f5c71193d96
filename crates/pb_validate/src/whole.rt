//! Whether bytes are whole records in a context, and no more. It is fast since nothing is kept for a fault: `scope` finds that.

ghost use Rattle.std.specs.Prelude.{◌≡◌, ◌≢◌, ◌≤◌, ◌<◌, None, true, length, IfSome, IsUtf8};
ghost use Rattle.pb_wire.specs.Fault.{HasTag};
ghost use Rattle.pb_wire.specs.Record.{len};
ghost use Rattle.pb_wire.specs.Scan.{here, IsNumberType};
ghost use Rattle.pb_wire.specs.Sound.{Sound};
ghost use Rattle.pb_schema.specs.Context.{a_message, an_entry, schema_of};
ghost use Rattle.pb_validate.specs.Contexts.{context_view, CanRead};
ghost use Rattle.pb_validate.specs.Payloads.{IsNumberOfType};
ghost use Rattle.pb_validate.specs.Judging.{ReadsRecord};
ghost use Rattle.pb_validate.specs.Whole.{AreWhole};

use crate::context::{Context, Element, Reading, group_context, reading_of};
use crate::payload::{number_end, payload_at};
use crate::varints::{are_varints, varint_end};
use pb_schema::{Kind, MessageId, Pool};
use pb_wire::{RecordTag, tag_at};

/// Shorter strings are tried as ASCII first.
const SHORT: usize = 64;

/// Says that bytes are a string.
#[inline(always)]
fn is_text(bytes: &[u8]) -> bool
    ensures { result ≡ true → IsUtf8 bytes.now }
{
    (bytes.len() < SHORT && bytes.is_ascii()) || simdutf8::basic::from_utf8(bytes).is_ok()
}

/// The index after the number of a wire type that begins at an index, if it is whole.
#[inline(always)]
fn whole_number_end(bytes: &[u8], at: usize, wire_type: u8) -> Option<usize>
    requires at_in_bounds { at ≤ length bytes.now }
    requires number { IsNumberType wire_type }
    ensures within { IfSome result (λ end. (at < end) × (end ≤ length bytes.now)) }
    ensures ok { IfSome result (λ end. IsNumberOfType wire_type (here bytes.now at None) (here bytes.now end None)) }
{
    if wire_type == 0 {
        let end = varint_end(bytes, at)?;
        return Some(end);
    }
    match number_end(bytes, at, wire_type, None) {
        Ok(end) => Some(end),
        Err(_) => None,
    }
}

/// Says that bytes are whole records in a context, with these levels left.
#[cycle(whole)]
#[inline(always)]
pub(crate) fn are_whole(pool: &Pool, context: Context, levels: u8, bytes: &[u8]) -> bool
    requires { CanRead pool.now (context_view context) }
    ensures { result ≡ true → AreWhole (schema_of pool.now) (context_view context) levels bytes.now }
{
    match context {
        Context::Message(message) => message_is_whole(pool, message, levels, bytes),
        Context::Entry(key, value) => entry_is_whole(pool, key, value, levels, bytes),
        Context::UnknownGroup => false,
    }
}

/// As `are_whole`, in a message.
#[cycle(whole)]
fn message_is_whole(pool: &Pool, message: MessageId, levels: u8, bytes: &[u8]) -> bool
    requires { CanRead pool.now (a_message message.0) }
    ensures { result ≡ true → AreWhole (schema_of pool.now) (a_message message.0) levels bytes.now }
{
    records_are_whole(pool, Context::Message(message), levels, bytes)
}

/// As `are_whole`, in a map entry.
#[cycle(whole)]
fn entry_is_whole(pool: &Pool, key: Kind, value: Kind, levels: u8, bytes: &[u8]) -> bool
    requires { CanRead pool.now (an_entry key value) }
    ensures { result ≡ true → AreWhole (schema_of pool.now) (an_entry key value) levels bytes.now }
{
    records_are_whole(pool, Context::Entry(key, value), levels, bytes)
}

/// As `are_whole`, record by record.
#[cycle(whole)]
#[inline(always)]
fn records_are_whole(pool: &Pool, context: Context, levels: u8, bytes: &[u8]) -> bool
    requires { CanRead pool.now (context_view context) }
    ensures { result ≡ true → AreWhole (schema_of pool.now) (context_view context) levels bytes.now }
{
    let mut at = 0;
    while at < bytes.len() {
        let Ok(tag) = tag_at(bytes, at, None, None) else {
            return false;
        };
        match record_end(pool, context, levels, bytes, tag) {
            Some(end) => at = end,
            None => return false,
        }
    }
    true
}

/// The index after the record of a tag, if it is whole.
#[cycle(whole)]
#[inline(always)]
pub(crate) fn record_end(
    pool: &Pool,
    context: Context,
    levels: u8,
    bytes: &[u8],
    tag: RecordTag,
) -> Option<usize>
    requires can { CanRead pool.now (context_view context) }
    requires end_in_bounds { tag.end ≤ length bytes.now }
    requires is_tag { HasTag (here bytes.now tag.at None) tag.number tag.wire_type (here bytes.now tag.end None) }
    requires no_end { tag.wire_type ≢ 4 }
    ensures within { IfSome result (λ end. (tag.end ≤ end) × (end ≤ length bytes.now)) }
    ensures ok { IfSome result (λ end. ReadsRecord (schema_of pool.now) (context_view context) levels
        tag.number tag.wire_type (here bytes.now tag.end None) (here bytes.now end None)) }
{
    if tag.wire_type == 2 {
        let Ok((start, end)) = payload_at(bytes, tag.end, None) else {
            return None;
        };
        if payload_is_whole(pool, context, levels, tag.number, &bytes[start..end]) {
            Some(end)
        } else {
            None
        }
    } else if tag.wire_type == 3 {
        group_end(pool, context, levels, bytes, tag)
    } else {
        let end = whole_number_end(bytes, tag.end, tag.wire_type)?;
        Some(end)
    }
}

/// Says that a payload is what a record of a number has after its length.
#[cycle(whole)]
#[inline(always)]
fn payload_is_whole(pool: &Pool, context: Context, levels: u8, number: u32, payload: &[u8]) -> bool
    requires { CanRead pool.now (context_view context) }
    ensures { result ≡ true → Sound (schema_of pool.now) (context_view context) levels number (len payload.now) }
{
    match reading_of(pool, context, number) {
        Reading::Unread => true,
        Reading::Text => is_text(payload),
        Reading::Packed(Element::Varint) => are_varints(payload),
        Reading::Packed(Element::FourBytes) => payload.len() % 4 == 0,
        Reading::Packed(Element::EightBytes) => payload.len() % 8 == 0,
        Reading::Message(inner) => levels > 0 && are_whole(pool, inner, levels - 1, payload),
        Reading::SameLevel(inner) => are_whole(pool, inner, levels, payload),
    }
}

/// As `record_end`, of a group.
#[cycle(whole)]
fn group_end(
    pool: &Pool,
    context: Context,
    levels: u8,
    bytes: &[u8],
    tag: RecordTag,
) -> Option<usize>
    requires can { CanRead pool.now (context_view context) }
    requires end_in_bounds { tag.end ≤ length bytes.now }
    ensures within { IfSome result (λ end. (tag.end ≤ end) × (end ≤ length bytes.now)) }
    ensures ok { IfSome result (λ end. ReadsRecord (schema_of pool.now) (context_view context) levels
        tag.number 3 (here bytes.now tag.end None) (here bytes.now end None)) }
{
    if levels == 0 {
        return None;
    }
    let inner = group_context(pool, context, tag.number);
    let mut at = tag.end;
    loop {
        let Ok(next) = tag_at(bytes, at, Some(tag.number), None) else {
            return None;
        };
        if next.wire_type == 4 {
            return Some(next.end);
        }
        match record_end(pool, inner, levels - 1, bytes, next) {
            Some(end) => at = end,
            None => return None,
        }
    }
}
