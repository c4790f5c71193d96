//! Values for messages that show a break.

ghost use Rattle.std.specs.Prelude.{◌≡◌, ◌≢◌, ◌==◌, ◌<◌, ◌&&◌, true, false, pos, length, Some, None, is_some, IfOk, IfSome};
ghost use Rattle.pb_schema.specs.Closed.{declares as declares_in};
ghost use Rattle.pb_schema.specs.EnumValues.{enum_values};
ghost use Rattle.pb_schema.specs.Kinds.{wire_type_of, closed_enum};
ghost use Rattle.pb_schema.specs.Rules.{NamesType};
ghost use Rattle.pb_value.specs.Data.{scalar};
ghost use Rattle.pb_value.specs.Judge.Forms.{is_default_datum};
ghost use Rattle.pb_value.specs.View.{key_view, value_view};
ghost use Rattle.pb_compat.specs.Fields.{keeps_kind as keeps_value};
ghost use Rattle.pb_compat.specs.Samples.{sample as sample_of, edge as edge_of, first_number as first_of, is_key_value, IsValue, IsLostValue};
ghost use Rattle.pb_compat.specs.Scalars.{declares_others, holds_number as holds, holds_values};

use crate::scalars::{holds_number, undeclared, values_of};
use pb_schema::{EnumId, Kind, Pool};
use pb_value::bodies::empty_body;
use pb_value::{MapKey, Value};
use std::alloc::{AllocError, Global};

/// A value of a kind that is no default. A closed enum may not declare it.
fn sample(alloc: Global, kind: Kind) -> Result<Value, AllocError>
    ensures { IfOk result (λ v. value_view v ≡ sample_of kind) }
{
    Ok(match kind {
        Kind::Double => Value::F64(1),
        Kind::Float => Value::F32(1),
        Kind::Int64 | Kind::Sint64 | Kind::Sfixed64 => Value::I64(1),
        Kind::Uint64 | Kind::Fixed64 => Value::U64(1),
        Kind::Int32 | Kind::Sint32 | Kind::Sfixed32 => Value::I32(1),
        Kind::Uint32 | Kind::Fixed32 => Value::U32(1),
        Kind::Bool => Value::Bool(true),
        Kind::Enum(_) | Kind::ClosedEnum(_) => Value::Enum(1),
        Kind::Text => Value::Text(String::from_str(alloc, "a")?),
        Kind::Bytes => Value::Bytes(vec![in alloc; 255u8]?),
        Kind::Message(_) | Kind::Group(_) => Value::Message(empty_body(alloc)),
    })
}

/// A value of a kind that each other kind of the same wire type reads otherwise, where the table does not keep the kind.
fn edge(alloc: Global, kind: Kind) -> Result<Value, AllocError>
    ensures { IfOk result (λ v. value_view v ≡ edge_of kind) }
{
    Ok(match kind {
        Kind::Int64 => Value::I64(-2_147_483_649),
        Kind::Sint64 => Value::I64(2_147_483_648),
        Kind::Sfixed64 => Value::I64(-1),
        Kind::Uint64 | Kind::Fixed64 => Value::U64(u64::MAX),
        Kind::Int32 | Kind::Sint32 | Kind::Sfixed32 => Value::I32(-1),
        Kind::Uint32 | Kind::Fixed32 => Value::U32(u32::MAX),
        Kind::Enum(_) => Value::Enum(-1),
        Kind::Double
        | Kind::Float
        | Kind::Bool
        | Kind::Text
        | Kind::Bytes
        | Kind::ClosedEnum(_)
        | Kind::Message(_)
        | Kind::Group(_) => return sample(alloc, kind),
    })
}

/// The number of the first value of an enum.
fn first_number(pool: &Pool, entry: EnumId) -> i32
    requires { entry.0 < length pool.now.enums }
    ensures { first_of (enum_values pool.now entry.0) ≡ Some result }
{
    match values_of(pool, entry).first() {
        Some(value) => value.1,
        None => 0, // an enum has a value
    }
}

/// A value that a field of a kind can hold, and no default where the kind is no closed enum.
pub(crate) fn any_value(alloc: Global, pool: &Pool, kind: Kind) -> Result<Value, AllocError>
    requires { NamesType (length pool.now.messages) (length pool.now.enums) kind }
    ensures value { IfOk result (λ v. IsValue pool.now kind (value_view v)) }
    ensures other { closed_enum kind ≡ None
        → IfOk result (λ v. is_default_datum (value_view v) ≡ false) }
{
    match kind {
        Kind::ClosedEnum(entry) => Ok(Value::Enum(first_number(pool, entry))),
        _ => sample(alloc, kind),
    }
}

/// A number of an enum that a kind does not read as this number.
fn number_not_held(pool: &Pool, entry: EnumId, new: &Pool, kind: Kind) -> i32
    requires { holds_values new.now kind (enum_values pool.now entry.0) ≡ false }
    ensures declared { declares_in pool.now entry.0 result ≡ true }
    ensures other { holds new.now kind result ≡ false }
{
    let values = values_of(pool, entry);
    for value in values {
        let number = value.1;
        if !holds_number(new, kind, number) {
            return number;
        }
    }
    0 // one of them is not held
}

/// A value of the old kind that the new kind, which does not keep the old one, reads otherwise or not at all.
pub(crate) fn lost_value(
    alloc: Global,
    old: &Pool,
    new: &Pool,
    from: Kind,
    to: Kind,
) -> Result<Value, AllocError>
    requires { keeps_value old.now new.now from to ≡ false }
    ensures { IfOk result (λ v. IsLostValue old.now new.now from to (value_view v)) }
{
    match (from, to) {
        (Kind::ClosedEnum(entry), _) => Ok(Value::Enum(number_not_held(old, entry, new, to))),
        (Kind::Int32, Kind::ClosedEnum(entry)) => Ok(Value::I32(number_lost(new, entry))),
        (Kind::Enum(_), Kind::ClosedEnum(entry)) => Ok(Value::Enum(number_lost(new, entry))),
        (Kind::Bool, Kind::ClosedEnum(entry)) => Ok(Value::Bool(!new.declares(entry, 1))),
        _ => open_value(alloc, from, to),
    }
}

/// A number that an enum does not declare, and 0 only if that is the only one.
fn number_lost(pool: &Pool, entry: EnumId) -> i32
    requires { (declares_in pool.now entry.0 (pos 0) && declares_others pool.now entry.0) ≡ false }
    ensures undeclared { declares_in pool.now entry.0 result ≡ false }
    ensures other { declares_others pool.now entry.0 ≡ false → result ≢ pos 0 }
{
    undeclared(pool, entry).unwrap_or(0)
}

/// A value of the old kind that the new kind, which does not keep the old one, reads otherwise or not at all, of other pairs than the above.
fn open_value(alloc: Global, from: Kind, to: Kind) -> Result<Value, AllocError>
    ensures same { IfOk result (λ v. wire_type_of from ≡ wire_type_of to
        → value_view v ≡ edge_of from) }
    ensures other { IfOk result (λ v. (wire_type_of from == wire_type_of to) ≡ false
        → value_view v ≡ sample_of from) }
{
    if from.wire_type() == to.wire_type() {
        edge(alloc, from)
    } else {
        sample(alloc, from)
    }
}

/// A value as the key of a map.
pub(crate) fn key_of(value: Value) -> Option<MapKey>
    ensures key { IfSome result (λ k. value_view value ≡ scalar (key_view k)) }
    ensures some { is_some result ≡ is_key_value (value_view value) }
{
    match value {
        Value::I32(number) => Some(MapKey::I32(number)),
        Value::I64(number) => Some(MapKey::I64(number)),
        Value::U32(number) => Some(MapKey::U32(number)),
        Value::U64(number) => Some(MapKey::U64(number)),
        Value::Bool(value) => Some(MapKey::Bool(value)),
        Value::Text(string) => Some(MapKey::Text(string)),
        _ => None,
    }
}
