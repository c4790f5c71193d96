//! Whole payloads of bytes go where their records' targets say.

ghost use Rattle.std.specs.Prelude.{◌≡◌, ◌≤◌, Some, length, IsUtf8, IfOk, IfErr, IfSome};
ghost use Rattle.pb_wire.specs.Record.{len};
ghost use Rattle.pb_schema.specs.declared.types.Kind.TheVariants.{Text as TextKind};
ghost use Rattle.pb_schema.specs.Rules.{IsPool};
ghost use Rattle.pb_schema.specs.Kinds.{read};
ghost use Rattle.pb_value.specs.Data.{scalar};
ghost use Rattle.pb_value.specs.View.{value_view};
ghost use Rattle.pb_decode_parts.specs.declared.values.payload_value.PayloadError.TheVariants.{Memory};
ghost use Rattle.pb_decode_parts.specs.Open.Parents.{CanHold};
ghost use Rattle.pb_decode_parts.specs.Open.PartView.{part_view};
ghost use Rattle.pb_decode_parts.specs.Values.Put.{scalar_kind as kind_given};
ghost use Rattle.pb_decode_parts.specs.Values.PayloadValue.{IsPayloadError, IfBadText, IsBytesTarget};
ghost use Rattle.pb_decode_parts.specs.Values.Puts.{PutsPayload, RefusesPayload};

use crate::values::put::{put_scalar, put_unknown, scalar_kind};
use crate::{NoMemory, Part, Target};
use pb_schema::{Kind, Pool};
use pb_value::Value;
use pb_wire::Unknown;
use std::alloc::{AllocError, Global};

/// Why a payload gives no value.
#[derive(Clone, Copy)]
pub enum PayloadError {
    /// A string is not UTF-8. This many of its bytes are before the first wrong one.
    BadText(usize),
    Memory,
}

impl From<AllocError> for PayloadError {
    ghost from_gives = { λ _ e. e ≡ Memory };

    fn from(_e: AllocError) -> PayloadError {
        PayloadError::Memory
    }
}

// Putting a value into a part fails only when out of memory.
impl From<NoMemory> for PayloadError {
    ghost from_gives = { λ _ e. e ≡ Memory };

    fn from(_e: NoMemory) -> PayloadError {
        PayloadError::Memory
    }
}

/// The value of a kind that a payload encodes, into which it is copied. A kind of another wire type has none, and gives `false`.
#[inline(always)]
fn payload_value(alloc: Global, kind: Kind, bytes: &[u8]) -> Result<Value, PayloadError>
    ensures value { IfOk result (λ v. IfSome (read kind (len bytes.now)) (λ x. value_view v ≡ scalar x)) }
    ensures text { IfOk result (λ _. kind ≡ TextKind → IsUtf8 bytes.now) }
    ensures fault { IfErr result (IsPayloadError kind bytes.now) }
    ensures accepted { (kind ≡ TextKind → IsUtf8 bytes.now) → IfErr result (λ e. e ≡ Memory) }
{
    match kind {
        Kind::Text => match simdutf8::compat::from_utf8(bytes) {
            Ok(text) => Ok(Value::Text(String::from_str(alloc, text)?)),
            Err(error) => Err(PayloadError::BadText(error.valid_up_to())),
        },
        Kind::Bytes => Ok(Value::Bytes(Vec::from_slice(alloc, bytes)?)),
        _ => Ok(Value::Bool(false)),
    }
}

/// A payload that comes next, all of whose bytes are here, goes into the part that its record belongs to, and the reader is
/// after it. It is copied once.
#[inline(always)]
pub fn put_payload(
    alloc: Global,
    pool: &Pool,
    part: &mut Part,
    number: u32,
    target: Target,
    bytes: &[u8],
) -> Result<(), PayloadError>
    requires rules { IsPool pool.now }
    requires can { CanHold pool.now (part_view part.old) }
    requires bytes { IsBytesTarget target }
    ensures reached { PutsPayload pool.now number target bytes.now part.old part.new result }
    ensures refused { RefusesPayload pool.now number target bytes.now part.old result }
    ensures same { IfErr result (λ e. IfBadText e (λ _. part.new ≡ part.old)) }
    ensures within { IfErr result (λ e. IfBadText e (λ valid. valid ≤ length bytes.now)) }
    ensures accepted { (kind_given target ≡ Some TextKind → IsUtf8 bytes.now) → IfErr result (λ e. e ≡ Memory) }
{
    match scalar_kind(target) {
        Some(kind) => {
            let value = payload_value(alloc, kind, bytes)?;
            Ok(put_scalar(alloc, pool, part, number, target, value)?)
        }
        None => {
            let copy = Vec::from_slice(alloc, bytes)?;
            Ok(put_unknown(part, number, Unknown::Len(copy))?)
        }
    }
}
