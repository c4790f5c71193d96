//! Whether records are unknown to a type, and can be written.

ghost use Rattle.std.specs.Prelude.{◌≡◌, ◌<◌, ◌&&◌, not, length, IsTrue, true, Some};
ghost use Rattle.pb_wire.specs.Record.{wire_type, group_of};
ghost use Rattle.pb_wire.specs.Unknown.{payload_of, records_of};
ghost use Rattle.pb_wire.specs.Ranges.{AreBytes, IsInRange, AreInRange};
ghost use Rattle.pb_schema.specs.Types.{message_fields};
ghost use Rattle.pb_schema.specs.View.{field_view};
ghost use Rattle.pb_schema.specs.Fits.{fits_type};
ghost use Rattle.pb_schema.specs.Closed.{closed_of, is_undeclared};
ghost use Rattle.pb_value.specs.Cause.{is_number, is_numbered, is_numbered_group, record_cause, unknown_cause, Judges};
ghost use Rattle.pb_value.specs.WellFormed.{IsUnknown, AreUnknown};
ghost use Rattle.pb_value.specs.Canon.{record_of};

use crate::error::ValueError;
use crate::lookup::field_at;
use pb_schema::{Field, MessageId, Pool, Shape, fits};
use pb_wire::Unknown;

/// The least number above those that a record may have.
const NUMBERS: u32 = 0x2000_0000;

fn is_number(number: u32) -> bool
    ensures { result ≡ is_number number }
{
    0 < number && number < NUMBERS
}

/// Whether each number in a group is one of the wire.
#[cycle(numbered)]
fn is_numbered(payload: &Unknown) -> bool
    ensures test { result ≡ is_numbered (payload_of payload.now) }
    ensures in_range { IsTrue result → IsInRange (payload_of payload.now) }
{
    // A number that is read is known to be in its type's range.
    match payload {
        Unknown::Varint(number) | Unknown::I64(number) => {
            let _number = *number;
            true
        }
        Unknown::I32(number) => {
            let _number = *number;
            true
        }
        Unknown::Len(bytes) => are_bytes(bytes),
        Unknown::Group(records) => are_numbered(records),
    }
}

/// Every byte string can be a payload.
fn are_bytes(bytes: &[u8]) -> bool
    ensures test { result ≡ true }
    ensures in_range { AreBytes bytes.now }
{
    let _ = bytes;
    true
}

#[cycle(numbered)]
fn are_numbered(records: &[(u32, Unknown)]) -> bool
    ensures test { result ≡ is_numbered_group (group_of (records_of records.now)) }
    ensures in_range { IsTrue result → AreInRange (records_of records.now) }
{
    for (number, payload) in records {
        if !is_number(*number) || !is_numbered(payload) {
            return false;
        }
    }
    true
}

fn wire_type(payload: &Unknown) -> u8
    ensures { result ≡ wire_type (payload_of payload.now) }
{
    match payload {
        Unknown::Varint(_) => 0,
        Unknown::I64(_) => 1,
        Unknown::Len(_) => 2,
        Unknown::Group(_) => 3,
        Unknown::I32(_) => 5,
    }
}

/// Whether a payload is a number that the closed enum of a field doesn't declare.
fn is_undeclared(pool: &Pool, field: &Field, payload: &Unknown) -> bool
    ensures { result ≡ is_undeclared pool.now (closed_of (Some (field_view field.now))) (payload_of payload.now) }
{
    if matches!(field.shape, Shape::Map { key: _ }) {
        return false;
    }
    let Unknown::Varint(number) = payload else {
        return false;
    };
    pool.is_undeclared(field.kind, *number)
}

/// Whether a payload counts for the field of its number.
fn is_known(pool: &Pool, field: &Field, payload: &Unknown) -> bool
    ensures { result ≡ (fits_type (field_view field.now) (wire_type (payload_of payload.now))
        && not (is_undeclared pool.now (closed_of (Some (field_view field.now))) (payload_of payload.now))) }
{
    fits(field, wire_type(payload)) && !is_undeclared(pool, field, payload)
}

fn check_record(
    pool: &Pool,
    message_type: MessageId,
    number: u32,
    payload: &Unknown,
) -> Result<(), ValueError>
    requires { message_type.0 < length pool.now.messages }
    ensures { let fs = message_fields pool.now message_type.0 in let r = record_of number (payload_of payload.now) in
        Judges result (record_cause pool.now fs r) (IsUnknown pool.now fs r) }
{
    if !is_number(number) || !is_numbered(payload) {
        return Err(ValueError::NoSuchField);
    }
    if let Some(field) = field_at(pool, message_type, number) {
        if is_known(pool, field, payload) {
            return Err(ValueError::KnownAsUnknown);
        }
    }
    Ok(())
}

/// Whether records can be the unknown ones of a message of a type, and if not why, at the first that cannot.
pub(crate) fn check_unknown(
    pool: &Pool,
    message_type: MessageId,
    records: &[(u32, Unknown)],
) -> Result<(), ValueError>
    requires { message_type.0 < length pool.now.messages }
    ensures { let fs = message_fields pool.now message_type.0 in
        Judges result (unknown_cause pool.now fs (records_of records.now)) (AreUnknown pool.now fs (records_of records.now)) }
{
    for (number, payload) in records {
        check_record(pool, message_type, *number, payload)?;
    }
    Ok(())
}
