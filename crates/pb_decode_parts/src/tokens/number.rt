//! Numbers at the start of bytes, and what they are as values.

ghost use Rattle.std.specs.Prelude.{◌≡◌, ℕ, IfSome};
ghost use Rattle.pb_wire.specs.Scan.{given_at, number_view, IsNumberType};
ghost use Rattle.pb_schema.specs.Kinds.{read};
ghost use Rattle.pb_value.specs.Data.{scalar};
ghost use Rattle.pb_value.specs.View.{value_view};
ghost use Rattle.pb_decode_parts.specs.Tokens.Numbers.{TellsNumber};

use pb_schema::Kind;
use pb_schema::scalars::low_half;
use pb_value::Value;
use pb_wire::{Number, Scanned, scan_number, unzigzag32, unzigzag64};

/// The number after a tag of a wire type, at the start of some bytes, with this many before the known end. A loop that does little else
/// calls `scan_number`, which is inlined.
pub fn number_at(wire_type: u8, bytes: &[u8], left: Option<u32>) -> Scanned<Number>
    requires { IsNumberType wire_type }
    ensures { (at : ℕ) → TellsNumber wire_type (given_at at left bytes.now) result }
{
    scan_number(wire_type, bytes, left)
}

/// The value of a kind that a number means. A number of another wire type means none, and gives `false`.
#[inline(always)]
pub fn number_value(kind: Kind, number: Number) -> Value
    ensures { IfSome (read kind (number_view number)) (λ x. value_view result ≡ scalar x) }
{
    match number {
        Number::Varint(n) => match kind {
            Kind::Int32 => Value::I32(low_half(n).cast_signed()),
            Kind::Int64 => Value::I64(n.cast_signed()),
            Kind::Uint32 => Value::U32(low_half(n)),
            Kind::Uint64 => Value::U64(n),
            Kind::Sint32 => Value::I32(unzigzag32(low_half(n))),
            Kind::Sint64 => Value::I64(unzigzag64(n)),
            Kind::Bool => Value::Bool(n != 0),
            Kind::Enum(_) | Kind::ClosedEnum(_) => Value::Enum(low_half(n).cast_signed()),
            _ => Value::Bool(false),
        },
        Number::I64(n) => match kind {
            Kind::Fixed64 => Value::U64(n),
            Kind::Sfixed64 => Value::I64(n.cast_signed()),
            Kind::Double => Value::F64(n),
            _ => Value::Bool(false),
        },
        Number::I32(n) => match kind {
            Kind::Fixed32 => Value::U32(n),
            Kind::Sfixed32 => Value::I32(n.cast_signed()),
            Kind::Float => Value::F32(n),
            _ => Value::Bool(false),
        },
    }
}
