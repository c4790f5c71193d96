//! The order of map keys, by the payloads that they are written as.

ghost use Rattle.std.specs.Prelude.{◌≡◌, true, false, IsTrue};
ghost use Rattle.std.specs.Bool.{Decides};
ghost use Rattle.pb_schema.specs.PayloadView.{payload_view};
ghost use Rattle.pb_schema.specs.Scalar.{bytes_cmp};
ghost use Rattle.pb_schema.specs.Kinds.{is_key_kind};
ghost use Rattle.std.specs.declared.cmp.Ordering.TheVariants.{Less};
ghost use Rattle.pb_canonical.specs.Parts.{AreBelow, NoneBelow, NumberBelow, EightBelow, FourBelow, StringBelow};

use pb_schema::Kind;
use pb_schema::scalars::ScalarPayload;
use pb_wire::unzigzag64;

/// Whether the first bytes are below the second.
fn are_bytes_below(first: &[u8], second: &[u8]) -> bool
    ensures { Decides result (bytes_cmp first.now second.now ≡ Less) }
{
    let mut one = first;
    let mut other = second;
    while !one.is_empty() {
        if other.is_empty() || other[0] < one[0] {
            return false;
        }
        if one[0] < other[0] {
            return true;
        }
        one = &one[1..];
        other = &other[1..];
    }
    !other.is_empty()
}

/// Whether the key of a varint is below that of another.
fn is_number_below(kind: Kind, first: u64, second: u64) -> bool
    ensures { Decides result (NumberBelow kind first second) }
{
    match kind {
        Kind::Int32 | Kind::Int64 => first.cast_signed() < second.cast_signed(),
        Kind::Sint32 | Kind::Sint64 => unzigzag64(first) < unzigzag64(second),
        Kind::Uint32 | Kind::Uint64 | Kind::Bool => first < second,
        _ => false,
    }
}

/// Whether the key of eight bytes is below that of others.
fn is_eight_below(kind: Kind, first: u64, second: u64) -> bool
    ensures { Decides result (EightBelow kind first second) }
{
    match kind {
        Kind::Sfixed64 => first.cast_signed() < second.cast_signed(),
        Kind::Fixed64 => first < second,
        _ => false,
    }
}

/// Whether the key of four bytes is below that of others.
fn is_four_below(kind: Kind, first: u32, second: u32) -> bool
    ensures { Decides result (FourBelow kind first second) }
{
    match kind {
        Kind::Sfixed32 => first.cast_signed() < second.cast_signed(),
        Kind::Fixed32 => first < second,
        _ => false,
    }
}

/// Whether the key of bytes after their length is below that of others.
fn is_string_below(kind: Kind, first: &[u8], second: &[u8]) -> bool
    ensures { Decides result (StringBelow kind first.now second.now) }
{
    match kind {
        Kind::Text => are_bytes_below(first, second),
        _ => false,
    }
}

/// Whether the key of a kind that is written as the first payload is below that of the second.
pub(crate) fn is_below(kind: Kind, first: ScalarPayload<'_>, second: ScalarPayload<'_>) -> bool
    ensures below { result ≡ true → AreBelow kind (payload_view first.entry) (payload_view second.entry) }
    ensures other { result ≡ false → IsTrue (is_key_kind kind) → NoneBelow kind (payload_view first.entry) (payload_view second.entry) }
{
    match first {
        ScalarPayload::Varint(one) => match second {
            ScalarPayload::Varint(other) => is_number_below(kind, one, other),
            _ => false,
        },
        ScalarPayload::I64(one) => match second {
            ScalarPayload::I64(other) => is_eight_below(kind, one, other),
            _ => false,
        },
        ScalarPayload::Len(one) => match second {
            ScalarPayload::Len(other) => is_string_below(kind, one, other),
            _ => false,
        },
        ScalarPayload::I32(one) => match second {
            ScalarPayload::I32(other) => is_four_below(kind, one, other),
            _ => false,
        },
    }
}
