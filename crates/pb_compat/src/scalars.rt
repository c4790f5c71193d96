//! Which kinds keep the values of other kinds.

ghost use Rattle.std.specs.Prelude.{◌≡◌, ◌≢◌, ◌<◌, ◌^◌, ◌==◌, ◌&&◌, ◌||◌, pos, negsuc, false, map, string_bytes, is_none, IfSome};
ghost use Rattle.pb_schema.specs.EnumValues.{enum_values};
ghost use Rattle.pb_schema.specs.Rules.{IsPool};
ghost use Rattle.pb_schema.specs.Closed.{declares as declares_in};
ghost use Rattle.pb_compat.specs.Scalars.{holds_number as holds, holds_values as all_held, holds_int32 as holds_all, declares_others, keeps_scalars as keeps};

use pb_schema::{EnumId, Kind, Pool};

/// How many numbers of 32 bits are negative.
const HALF: u32 = 0x8000_0000;

/// Whether a kind reads the varint of a number as this number.
pub(crate) fn holds_number(new: &Pool, kind: Kind, number: i32) -> bool
    ensures { result ≡ holds new.now kind number }
{
    match kind {
        Kind::Int32 | Kind::Int64 | Kind::Enum(_) => true,
        Kind::ClosedEnum(entry) => new.declares(entry, number),
        Kind::Uint32 | Kind::Uint64 => number >= 0,
        Kind::Bool => number == 0 || number == 1,
        Kind::Sint32 | Kind::Sint64 => number == 0,
        _ => false,
    }
}

/// The values of an enum.
pub(crate) fn values_of(pool: &Pool, entry: EnumId) -> &[(String, i32)]
    ensures values { map (λ v. (string_bytes v.0, v.1)) result.now ≡ enum_values pool.now entry.0 }
    ensures rules { IsPool pool.now }
{
    match pool.enums().get(entry.0) {
        Some(entry) => entry.values.as_slice(),
        None => &[],
    }
}

/// Whether a kind reads each value of an enum as its number.
fn holds_values(new: &Pool, kind: Kind, values: &[(String, i32)]) -> bool
    ensures { result ≡ all_held new.now kind (map (λ v. (string_bytes v.0, v.1)) values.now) }
{
    for value in values {
        if !holds_number(new, kind, value.1) {
            return false;
        }
    }
    true
}

/// A number, or the one that has all its bits turned, that an enum does not declare. 0 is not looked for.
fn undeclared_at(pool: &Pool, entry: EnumId, size: u32) -> Option<i32>
    requires { size < 2 ^ 31 }
    ensures all { is_none result
        ≡ (((size == 0) || declares_in pool.now entry.0 (pos size)) && declares_in pool.now entry.0
        (negsuc size)) }
    ensures some { IfSome result (λ z. declares_in pool.now entry.0 z ≡ false) }
    ensures other { IfSome result (λ z. z ≢ pos 0) }
{
    let number = size as i32;
    if size != 0 && !pool.declares(entry, number) {
        Some(number)
    } else if !pool.declares(entry, -1 - number) {
        Some(-1 - number)
    } else {
        None
    }
}

/// A number other than 0 that an enum does not declare, if it does not declare them all. In time by the values of the enum.
pub(crate) fn undeclared(pool: &Pool, entry: EnumId) -> Option<i32>
    ensures all { is_none result ≡ declares_others pool.now entry.0 }
    ensures some { IfSome result (λ z. declares_in pool.now entry.0 z ≡ false) }
    ensures other { IfSome result (λ z. z ≢ pos 0) }
{
    for size in 0..HALF {
        if let Some(number) = undeclared_at(pool, entry, size) {
            return Some(number);
        }
    }
    None
}

/// Whether a kind reads each int32 as the same number.
fn holds_int32(new: &Pool, kind: Kind) -> bool
    ensures { result ≡ holds_all new.now kind }
{
    match kind {
        Kind::Int32 | Kind::Int64 | Kind::Enum(_) => true,
        Kind::ClosedEnum(entry) => new.declares(entry, 0) && undeclared(new, entry).is_none(),
        _ => false,
    }
}

/// Whether what the new kind reads means the same as each scalar that the old kind wrote. In time by the values of a closed enum.
pub(crate) fn keeps_scalars(old: &Pool, new: &Pool, from: Kind, to: Kind) -> bool
    ensures { result ≡ keeps old.now new.now from to }
{
    match from {
        Kind::Double => matches!(to, Kind::Double),
        Kind::Float => matches!(to, Kind::Float),
        Kind::Int64 => matches!(to, Kind::Int64),
        Kind::Uint64 => matches!(to, Kind::Uint64),
        Kind::Int32 | Kind::Enum(_) => holds_int32(new, to),
        Kind::Fixed64 => matches!(to, Kind::Fixed64),
        Kind::Fixed32 => matches!(to, Kind::Fixed32),
        Kind::Bool => holds_number(new, to, 0) && holds_number(new, to, 1),
        Kind::Text => matches!(to, Kind::Text | Kind::Bytes),
        Kind::Bytes => matches!(to, Kind::Bytes),
        Kind::Uint32 => matches!(to, Kind::Uint32 | Kind::Uint64 | Kind::Int64),
        Kind::Sfixed32 => matches!(to, Kind::Sfixed32),
        Kind::Sfixed64 => matches!(to, Kind::Sfixed64),
        Kind::Sint32 => matches!(to, Kind::Sint32 | Kind::Sint64),
        Kind::Sint64 => matches!(to, Kind::Sint64),
        Kind::Message(_) | Kind::Group(_) => false,
        Kind::ClosedEnum(entry) => holds_values(new, to, values_of(old, entry)),
    }
}
