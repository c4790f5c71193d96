//! Payloads of scalars: which of them a value of a kind is written as.

ghost use Rattle.std.specs.Prelude.{◌≡◌, ◌≢◌, ◌++◌, List, ℕ, IfSome, IsSomeAnd, IsUtf8};
ghost use Rattle.std.specs.Bool.{Decides};
ghost use Rattle.pb_wire.specs.Record.{Payload, varint, fixed64, len, fixed32, wire_type as type_of};
ghost use Rattle.pb_wire.specs.Ranges.{IsInRange};
ghost use Rattle.pb_schema.specs.Kinds.{wire_type_of};
ghost use Rattle.pb_schema.specs.PayloadView.{payload_view};
ghost use Rattle.pb_canonical.specs.Parts.{payload_bytes, is_zero, IsPlain, IsWritten, NumberFits, EightFits, FourFits, BytesFit};

use crate::first::{eight_first, four_first, payload_first, varint_first};
use pb_schema::scalars::ScalarPayload;
use pb_schema::{Kind, Pool};

/// Shorter strings are tried as ASCII first.
const SHORT: usize = 64;

/// The least number of 64 bits that a negative number of 32 bits is written as.
const NEGATIVE: u64 = 0xffff_ffff_8000_0000;

/// Says that bytes are a string.
#[inline(always)]
fn is_string(bytes: &[u8]) -> bool
    ensures { Decides result (IsUtf8 bytes.now) }
{
    if bytes.len() < SHORT {
        if bytes.is_ascii() {
            return true;
        }
    }
    simdutf8::basic::from_utf8(bytes).is_ok()
}

/// The payload of a wire type at the start. A group has none.
#[inline(always)]
pub(crate) fn scalar_first(bytes: &[u8], wire_type: u8) -> Option<(ScalarPayload<'_>, &[u8])>
    ensures payload { IfSome result (λ r. bytes.now ≡ payload_bytes (payload_view r.0) ++ r.1.now) }
    ensures of_type { IfSome result (λ r. type_of (payload_view r.0) ≡ wire_type) }
    ensures plain { IfSome result (λ r. type_of (payload_view r.0) ≢ 3) }
    ensures in_range { IfSome result (λ r. IsInRange (payload_view r.0)) }
    ensures complete { (p : Payload) → (s : List ℕ) → IsPlain wire_type p → bytes.now ≡ payload_bytes p ++ s
        → IsSomeAnd result (λ r. (payload_view r.0 ≡ p) × (r.1.now ≡ s)) }
{
    match wire_type {
        0 => {
            let (number, rest) = varint_first(bytes)?;
            Some((ScalarPayload::Varint(number), rest))
        }
        1 => {
            let (number, rest) = eight_first(bytes)?;
            Some((ScalarPayload::I64(number), rest))
        }
        2 => {
            let (payload, rest) = payload_first(bytes)?;
            Some((ScalarPayload::Len(payload), rest))
        }
        5 => {
            let (number, rest) = four_first(bytes)?;
            Some((ScalarPayload::I32(number), rest))
        }
        _ => None,
    }
}

/// Whether a kind has the number as a varint.
#[inline(always)]
fn is_number(pool: &Pool, kind: Kind, number: u64) -> bool
    ensures { Decides result (NumberFits pool.now kind number) }
{
    match kind {
        Kind::Int64 | Kind::Uint64 | Kind::Sint64 => true,
        Kind::Uint32 | Kind::Sint32 => number <= 0xffff_ffff,
        Kind::Int32 | Kind::Enum(_) => number <= 0x7fff_ffff || NEGATIVE <= number,
        Kind::ClosedEnum(_) => {
            (number <= 0x7fff_ffff || NEGATIVE <= number) && !pool.is_undeclared(kind, number)
        }
        Kind::Bool => number <= 1,
        _ => false,
    }
}

/// Whether a value of a kind is written as eight bytes.
#[inline(always)]
fn is_eight_bytes(kind: Kind) -> bool
    ensures { Decides result (EightFits kind) }
{
    match kind {
        Kind::Fixed64 | Kind::Sfixed64 | Kind::Double => true,
        _ => false,
    }
}

/// Whether a value of a kind is written as four bytes.
#[inline(always)]
fn is_four_bytes(kind: Kind) -> bool
    ensures { Decides result (FourFits kind) }
{
    match kind {
        Kind::Fixed32 | Kind::Sfixed32 | Kind::Float => true,
        _ => false,
    }
}

/// Whether a value of a kind is written as these bytes after their length.
#[inline(always)]
fn is_bytes(kind: Kind, bytes: &[u8]) -> bool
    ensures { Decides result (BytesFit kind bytes.now) }
{
    match kind {
        Kind::Text => is_string(bytes),
        Kind::Bytes => true,
        _ => false,
    }
}

/// Whether a value of a kind is written as a varint of the number.
#[inline(always)]
fn is_written_number(pool: &Pool, kind: Kind, number: u64) -> bool
    ensures { Decides result (IsWritten pool.now kind (varint number)) }
{
    is_number(pool, kind, number)
}

/// Whether a value of a kind is written as these eight bytes.
#[inline(always)]
fn is_written_eight(pool: &Pool, kind: Kind, number: u64) -> bool
    ensures { Decides result (IsWritten pool.now kind (fixed64 number)) }
{
    let _types = pool.messages();
    is_eight_bytes(kind)
}

/// Whether a value of a kind is written as these four bytes.
#[inline(always)]
fn is_written_four(pool: &Pool, kind: Kind, number: u32) -> bool
    ensures { Decides result (IsWritten pool.now kind (fixed32 number)) }
{
    let _types = pool.messages();
    is_four_bytes(kind)
}

/// Whether a value of a kind is written as these bytes after their length.
#[inline(always)]
fn is_written_bytes(pool: &Pool, kind: Kind, bytes: &[u8]) -> bool
    ensures { Decides result (IsWritten pool.now kind (len bytes.now)) }
{
    let _types = pool.messages();
    is_bytes(kind, bytes)
}

/// Whether a value of a kind is written as a payload. A value of a closed enum has a number that the enum declares.
#[inline(always)]
fn is_written(pool: &Pool, kind: Kind, payload: ScalarPayload<'_>) -> bool
    ensures { Decides result (IsWritten pool.now kind (payload_view payload.entry)) }
{
    match payload {
        ScalarPayload::Varint(number) => is_written_number(pool, kind, number),
        ScalarPayload::I64(number) => is_written_eight(pool, kind, number),
        ScalarPayload::Len(bytes) => is_written_bytes(pool, kind, bytes),
        ScalarPayload::I32(number) => is_written_four(pool, kind, number),
    }
}

/// Whether the payload is that of a default.
#[inline(always)]
pub(crate) fn is_zero(payload: ScalarPayload<'_>) -> bool
    ensures { result ≡ is_zero (payload_view payload.entry) }
{
    match payload {
        ScalarPayload::Varint(number) | ScalarPayload::I64(number) => number == 0,
        ScalarPayload::Len(bytes) => bytes.is_empty(),
        ScalarPayload::I32(number) => number == 0,
    }
}

/// The payload of a value of a kind at the start.
#[inline(always)]
pub(crate) fn value_payload_first<'a>(
    pool: &Pool,
    kind: Kind,
    bytes: &'a [u8],
) -> Option<(ScalarPayload<'a>, &'a [u8])>
    ensures payload { IfSome result (λ r. bytes.now ≡ payload_bytes (payload_view r.0) ++ r.1.now) }
    ensures of_type { IfSome result (λ r. type_of (payload_view r.0) ≡ wire_type_of kind) }
    ensures plain { IfSome result (λ r. type_of (payload_view r.0) ≢ 3) }
    ensures value { IfSome result (λ r. IsWritten pool.now kind (payload_view r.0)) }
    ensures complete { (p : Payload) → (s : List ℕ) → IsWritten pool.now kind p → bytes.now ≡ payload_bytes p ++ s
        → IsSomeAnd result (λ r. (payload_view r.0 ≡ p) × (r.1.now ≡ s)) }
{
    let (payload, rest) = scalar_first(bytes, kind.wire_type())?;
    if is_written(pool, kind, payload) {
        Some((payload, rest))
    } else {
        None
    }
}
