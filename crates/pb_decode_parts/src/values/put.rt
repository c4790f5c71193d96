//! Scalars, numbers and unknown records go where their records' targets say.

ghost use Rattle.std.specs.Prelude.{◌≡◌, OnOk, option_map};
ghost use Rattle.pb_wire.specs.Unknown.{payload_of};
ghost use Rattle.pb_schema.specs.Rules.{IsPool};
ghost use Rattle.pb_schema.specs.Kinds.{closed_enum};
ghost use Rattle.pb_schema.specs.Closed.{is_undeclared};
ghost use Rattle.pb_value.specs.View.{key_view, value_view};
ghost use Rattle.pb_decode_parts.specs.Open.Parents.{CanHold};
ghost use Rattle.pb_decode_parts.specs.Open.PartView.{part_view};
ghost use Rattle.pb_decode_parts.specs.Tokens.Number.{number_view};
ghost use Rattle.pb_decode_parts.specs.Values.Put.{key_in, put_datum, put_record, scalar_kind as kind_given};
ghost use Rattle.pb_decode_parts.specs.Values.Puts.{PutsNumber, PutsElement};

use crate::error::memory_alone;
use crate::{Part, Put, Target, number_value};
use pb_schema::{Kind, Pool};
use pb_value::bodies::{push_element, store};
use pb_value::{Content, MapKey, Value};
use pb_wire::{Number, Unknown};
use std::alloc::Global;

/// A number as the payload of an unknown record.
#[inline(always)]
pub(crate) fn unknown_number(value: Number) -> Unknown
    ensures { payload_of result ≡ number_view value }
{
    match value {
        Number::Varint(n) => Unknown::Varint(n),
        Number::I64(n) => Unknown::I64(n),
        Number::I32(n) => Unknown::I32(n),
    }
}

/// Puts an unknown record into the part it belongs to. An entry drops it.
#[inline(always)]
pub(crate) fn put_unknown(part: &mut Part, number: u32, unknown: Unknown) -> Put
    ensures { OnOk result (part_view part.new ≡ put_record number (payload_of unknown) (part_view part.old)) }
{
    match part {
        Part::Message(_, body) => Ok(body.unknown.push((number, unknown))?),
        Part::Entry(_) => Ok(()),
        Part::Group(records) => Ok(records.push((number, unknown))?),
    }
}

/// A value as a map's key. There is none of a kind that no key has.
#[inline(always)]
fn key_of(value: Value) -> Option<MapKey>
    ensures { option_map key_view result ≡ key_in (value_view value) }
{
    match value {
        Value::I32(n) => Some(MapKey::I32(n)),
        Value::I64(n) => Some(MapKey::I64(n)),
        Value::U32(n) => Some(MapKey::U32(n)),
        Value::U64(n) => Some(MapKey::U64(n)),
        Value::Bool(b) => Some(MapKey::Bool(b)),
        Value::Text(s) => Some(MapKey::Text(s)),
        Value::F32(_) | Value::F64(_) | Value::Enum(_) | Value::Bytes(_) | Value::Message(_) =>
            None,
    }
}

/// Puts a scalar into the part that its record belongs to: into the field of one value, at the end of a list, or into an entry.
#[inline(always)]
pub fn put_scalar(
    alloc: Global,
    pool: &Pool,
    part: &mut Part,
    number: u32,
    target: Target,
    value: Value,
) -> Put
    requires { CanHold pool.now (part_view part.old) }
    ensures { OnOk result (part_view part.new ≡ put_datum pool.now number target (part_view part.old) (value_view value)) }
{
    match part {
        Part::Message(kind, body) => match target {
            Target::One(_, shape) => {
                let content = Content::One(value);
                store(pool, *kind, body, shape, number, content).map_err(memory_alone)
            }
            Target::Element(_) => { push_element(alloc, body, number, value).map_err(memory_alone) }
            _ => Ok(()),
        },
        Part::Entry(entry) => {
            match target {
                Target::Key(_) => entry.key = key_of(value),
                Target::EntryValue(_) => entry.value = Some(value),
                _ => {}
            }
            Ok(())
        }
        Part::Group(_) => Ok(()),
    }
}

/// The kind of the scalar that a record gives.
#[inline(always)]
pub(crate) fn scalar_kind(target: Target) -> Option<Kind>
    ensures { result ≡ kind_given target }
{
    match target {
        Target::One(kind, _) => Some(kind),
        Target::Element(kind) => Some(kind),
        Target::Key(kind) => Some(kind),
        Target::EntryValue(kind) => Some(kind),
        Target::Packed(_) | Target::Message(_, _) | Target::Entry(_, _) | Target::Unknown => None,
    }
}

/// Whether a number is one that the closed enum of a kind doesn't declare.
#[inline(always)]
pub fn is_undeclared(pool: &Pool, kind: Kind, value: Number) -> bool
    ensures { result ≡ is_undeclared pool.now (closed_enum kind) (number_view value) }
{
    let Number::Varint(number) = value else {
        return false;
    };
    pool.is_undeclared(kind, number)
}

/// A number that comes next goes into the part that its record belongs to, and the reader is after it.
#[inline(always)]
pub fn put_number(
    alloc: Global,
    pool: &Pool,
    part: &mut Part,
    number: u32,
    target: Target,
    value: Number,
) -> Put
    requires rules { IsPool pool.now }
    requires can { CanHold pool.now (part_view part.old) }
    ensures { PutsNumber pool.now number target value part.old part.new result }
{
    match scalar_kind(target) {
        Some(kind) if is_undeclared(pool, kind, value) => {
            put_unknown(part, number, unknown_number(value))
        }
        Some(kind) => put_scalar(alloc, pool, part, number, target, number_value(kind, value)),
        None => put_unknown(part, number, unknown_number(value)),
    }
}

/// One more element of a packed list goes to the list's end, or among the unknown records where it is a number that its closed
/// enum doesn't declare, and the reader is after it.
pub fn put_element(
    alloc: Global,
    pool: &Pool,
    part: &mut Part,
    number: u32,
    kind: Kind,
    value: Number,
) -> Put
    requires { CanHold pool.now (part_view part.old) }
    ensures { PutsElement pool.now number kind value part.old part.new result }
{
    if is_undeclared(pool, kind, value) {
        return put_unknown(part, number, unknown_number(value));
    }
    put_scalar(
        alloc,
        pool,
        part,
        number,
        Target::Element(kind),
        number_value(kind, value),
    )
}
