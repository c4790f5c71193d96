//! Payloads, and the scalars that they encode.

ghost use Rattle.std.specs.Prelude.{◌≡◌, ◌≢◌, ◌≤◌, ℕ, List, None, length, option_and_then, MatchOption, IsUtf8};
ghost use Rattle.pb_wire.specs.Record.{varint, len};
ghost use Rattle.pb_wire.specs.RecordIter.{seen};
ghost use Rattle.pb_wire.specs.Fault.{Place, Leads};
ghost use Rattle.pb_wire.specs.Spell.{Body};
ghost use Rattle.pb_schema.specs.declared.types.Kind.TheVariants.{Text};
ghost use Rattle.pb_schema.specs.Scalar.{is_default as default};
ghost use Rattle.pb_schema.specs.Kinds.{read};
ghost use Rattle.pb_validate.specs.Here.{here};
ghost use Rattle.pb_find.specs.Found.{kept as kept_by};
ghost use Rattle.pb_find.specs.Loops.{payload_of, IsOne};
ghost use Rattle.pb_find.specs.View.{scalar_view, found_view};

use crate::scalar_ref::ScalarRef;
use pb_schema::scalars::low_half;
use pb_schema::{Kind, Shape};
use pb_validate::payload_at;
use pb_wire::{Limits, Payload, RecordIter, unzigzag32, unzigzag64};

/// The payload of the one record that bytes encode.
pub(crate) fn only_payload(bytes: &[u8]) -> Payload<'_>
    requires { IsOne bytes.now }
    ensures { (one : IsOne bytes.now) → payload_of (seen result) ≡ one.only.payload }
{
    let mut records = RecordIter::new(bytes, Limits::FULL);
    match records.next() {
        Some(Ok((_, payload))) => payload,
        Some(Err(_)) => unreachable!(),
        None => unreachable!(),
    }
}

/// The string that begins at an index with its length, and the index after it. None where there is none.
pub(crate) fn string_at(bytes: &[u8], at: usize) -> Option<(usize, &str)>
    requires { at ≤ length bytes.now }
    ensures { MatchOption result ((s : List ℕ) (k : ℕ) (q : Place) → Leads (Body k (len s)) (here bytes.now at None) q → IsUtf8 s → ⊥)
        (λ r. (at ≤ r.0) × (r.0 ≤ length bytes.now) × IsUtf8 r.1.now
        × ((k : ℕ) → Leads (Body k (len r.1.now)) (here bytes.now at None) (here bytes.now r.0 None))) }
{
    let Ok((start, end)) = payload_at(bytes, at, None) else {
        return None;
    };
    let Ok(string) = simdutf8::basic::from_utf8(&bytes[start..end]) else {
        return None;
    };
    Some((end, string))
}

/// The scalar of a kind that a varint encodes. A kind of another wire type has none.
fn of_varint<'a>(kind: Kind, number: u64) -> Option<ScalarRef<'a>>
    ensures { found_view result ≡ read kind (varint number) }
{
    match kind {
        Kind::Int32 => Some(ScalarRef::I32(low_half(number).cast_signed())),
        Kind::Int64 => Some(ScalarRef::I64(number.cast_signed())),
        Kind::Uint32 => Some(ScalarRef::U32(low_half(number))),
        Kind::Uint64 => Some(ScalarRef::U64(number)),
        Kind::Sint32 => Some(ScalarRef::I32(unzigzag32(low_half(number)))),
        Kind::Sint64 => Some(ScalarRef::I64(unzigzag64(number))),
        Kind::Bool => Some(ScalarRef::Bool(number != 0)),
        Kind::Enum(_) | Kind::ClosedEnum(_) => {
            Some(ScalarRef::Enum(low_half(number).cast_signed()))
        }
        _ => None,
    }
}

/// The scalar of a kind, but for strings, that a payload encodes. A payload of another wire type encodes none.
pub(crate) fn scalar_of(kind: Kind, payload: Payload<'_>) -> Option<ScalarRef<'_>>
    requires { kind ≢ Text }
    ensures { found_view result ≡ read kind (payload_of (seen payload.entry)) }
{
    match payload {
        Payload::Varint(number) => of_varint(kind, number),
        Payload::I64(number) => match kind {
            Kind::Fixed64 => Some(ScalarRef::U64(number)),
            Kind::Sfixed64 => Some(ScalarRef::I64(number.cast_signed())),
            Kind::Double => Some(ScalarRef::F64(number)),
            _ => None,
        },
        Payload::I32(number) => match kind {
            Kind::Fixed32 => Some(ScalarRef::U32(number)),
            Kind::Sfixed32 => Some(ScalarRef::I32(number.cast_signed())),
            Kind::Float => Some(ScalarRef::F32(number)),
            _ => None,
        },
        Payload::Len(bytes) => match kind {
            Kind::Bytes => Some(ScalarRef::Bytes(bytes)),
            _ => None,
        },
        Payload::Group(_) => None,
    }
}

/// Whether a scalar is the one that an absent field of implicit presence has. Of a float or a double it is +0 alone.
fn is_default(scalar: ScalarRef<'_>) -> bool
    ensures { result ≡ default (scalar_view scalar.entry) }
{
    match scalar {
        ScalarRef::I32(number) | ScalarRef::Enum(number) => number == 0,
        ScalarRef::I64(number) => number == 0,
        ScalarRef::U32(number) | ScalarRef::F32(number) => number == 0,
        ScalarRef::U64(number) | ScalarRef::F64(number) => number == 0,
        ScalarRef::Bool(value) => !value,
        ScalarRef::Text(string) => string.is_empty(),
        ScalarRef::Bytes(bytes) => bytes.is_empty(),
    }
}

/// What a field of a shape keeps of a scalar: with implicit presence, none that is the default.
pub(crate) fn kept(shape: Shape, scalar: Option<ScalarRef<'_>>) -> Option<ScalarRef<'_>>
    ensures { found_view result ≡ option_and_then (kept_by shape) (found_view scalar.entry) }
{
    match scalar {
        Some(scalar) if shape == Shape::Implicit && is_default(scalar) => None,
        _ => scalar,
    }
}
