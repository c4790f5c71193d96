//! What the values of each kind are written as, and how they are read (encoding guide, "Scalar Value Types").
//!
//! Each kind has a type here of its own. Code over a kind takes one of them as a parameter.

ghost use Rattle.std.specs.Prelude.{◌≡◌, ◌%◌, ◌^◌, Some, None, IfOk, IfSome, IfNone, IsOk, IsTrue, string_bytes};
ghost use Rattle.std.specs.List.{AllByRecursion};
ghost use Rattle.std.specs.Int.{cast_unsigned, w64};
ghost use Rattle.pb_wire.specs.Record.{wire_type};
ghost use Rattle.pb_wire.specs.Ranges.{IsByte};
ghost use Rattle.pb_schema.specs.declared.types.Kind.{Kind as TheKind};
ghost use Rattle.pb_schema.specs.declared.types.Kind.TheVariants as kind;
ghost use Rattle.pb_schema.specs.Scalar.{Scalar as ScalarValue, int32, int64, uint32, uint64, boolean, float, double, enum, text, bytes};
ghost use Rattle.pb_schema.specs.Kinds.{read as read_of, written, is_packable, IsOfKind};
ghost use Rattle.pb_schema.specs.ReadBack.{read-written};
ghost use Rattle.pb_schema.specs.PayloadView.{payload_view};

use pb_wire::{unzigzag32, unzigzag64, zigzag32, zigzag64};
use std::alloc::{AllocError, Global};

/// What comes after the tag of a scalar.
#[derive(Clone, Copy, Debug)]
pub enum ScalarPayload<'a> {
    Varint(u64),
    I64(u64),
    Len(&'a [u8]),
    I32(u32),
}

impl ScalarPayload<'_> {
    /// The number of its wire type.
    pub fn wire_type(self) -> u8
        ensures { result ≡ wire_type (payload_view self.entry) }
    {
        match self {
            ScalarPayload::Varint(_) => 0,
            ScalarPayload::I64(_) => 1,
            ScalarPayload::Len(_) => 2,
            ScalarPayload::I32(_) => 5,
        }
    }
}

/// A kind whose values are no messages.
pub trait Scalar {
    /// A value. A float or a double is its bits, and an enum its number.
    type Item: Drop;

    ghost kind: { TheKind };

    ghost view: { Self.Item → ScalarValue };

    /// The payload that a value is written as.
    fn write(item: &Self::Item) -> ScalarPayload<'_>
        ensures payload { payload_view result ≡ written kind (view item.now) }
        ensures in_range { IsOfKind kind (view item.now) };

    /// The value that a payload encodes. None where the payload is of another wire type, or is not UTF-8. Takes memory for a string or
    /// bytes alone.
    fn read(alloc: Global, payload: ScalarPayload<'_>) -> Result<Option<Self::Item>, AllocError>
        ensures found { IfOk result (λ o. IfSome o (λ x. read_of kind (payload_view payload.entry) ≡ Some (view x))) }
        ensures in_range { IfOk result (λ o. IfSome o (λ x. IsOfKind kind (view x))) }
        ensures none { IfOk result (λ o. IfNone o ((x : ScalarValue) → read_of kind (payload_view payload.entry) ≡ Some x → IsOfKind kind x → ⊥)) }
        ensures packable { IsTrue (is_packable kind) → IsOk result };

    ghost reads_back: { (x : ScalarValue) → IsOfKind kind x → read_of kind (written kind x) ≡ Some x };
}

/// The low 32 bits, all that an int32, a uint32, a sint32 or an enum has of a varint.
#[inline(always)]
pub fn low_half(number: u64) -> u32
    ensures { result ≡ number % 2 ^ 32 }
{
    (number % 0x1_0000_0000) as u32
}

/// All 64 bits of the two's complement.
fn all_bits(number: i32) -> u64
    ensures { result ≡ cast_unsigned w64 number }
{
    i64::from(number).cast_unsigned()
}

fn copy_of(alloc: Global, bytes: &[u8]) -> Result<Vec<u8>, AllocError>
    ensures items { IfOk result (λ v. v.items ≡ bytes.now) }
    ensures in_range { IfOk result (λ v. AllByRecursion IsByte v.items) }
{
    let copied = bytes.to_vec(alloc)?;
    Ok(copied)
}

pub struct Double;

impl Scalar for Double {
    type Item = u64;

    ghost kind = { kind.Double };

    ghost view = { double };

    ghost reads_back = { read-written kind.Double };

    fn write(item: &u64) -> ScalarPayload<'_> {
        ScalarPayload::I64(*item)
    }

    fn read(_alloc: Global, payload: ScalarPayload<'_>) -> Result<Option<u64>, AllocError> {
        match payload {
            ScalarPayload::I64(number) => Ok(Some(number)),
            _ => Ok(None),
        }
    }
}

pub struct Float;

impl Scalar for Float {
    type Item = u32;

    ghost kind = { kind.Float };

    ghost view = { float };

    ghost reads_back = { read-written kind.Float };

    fn write(item: &u32) -> ScalarPayload<'_> {
        ScalarPayload::I32(*item)
    }

    fn read(_alloc: Global, payload: ScalarPayload<'_>) -> Result<Option<u32>, AllocError> {
        match payload {
            ScalarPayload::I32(number) => Ok(Some(number)),
            _ => Ok(None),
        }
    }
}

pub struct Int64;

impl Scalar for Int64 {
    type Item = i64;

    ghost kind = { kind.Int64 };

    ghost view = { int64 };

    ghost reads_back = { read-written kind.Int64 };

    fn write(item: &i64) -> ScalarPayload<'_> {
        ScalarPayload::Varint(item.cast_unsigned())
    }

    fn read(_alloc: Global, payload: ScalarPayload<'_>) -> Result<Option<i64>, AllocError> {
        match payload {
            ScalarPayload::Varint(number) => Ok(Some(number.cast_signed())),
            _ => Ok(None),
        }
    }
}

pub struct Uint64;

impl Scalar for Uint64 {
    type Item = u64;

    ghost kind = { kind.Uint64 };

    ghost view = { uint64 };

    ghost reads_back = { read-written kind.Uint64 };

    fn write(item: &u64) -> ScalarPayload<'_> {
        ScalarPayload::Varint(*item)
    }

    fn read(_alloc: Global, payload: ScalarPayload<'_>) -> Result<Option<u64>, AllocError> {
        match payload {
            ScalarPayload::Varint(number) => Ok(Some(number)),
            _ => Ok(None),
        }
    }
}

pub struct Int32;

impl Scalar for Int32 {
    type Item = i32;

    ghost kind = { kind.Int32 };

    ghost view = { int32 };

    ghost reads_back = { read-written kind.Int32 };

    fn write(item: &i32) -> ScalarPayload<'_> {
        ScalarPayload::Varint(all_bits(*item))
    }

    fn read(_alloc: Global, payload: ScalarPayload<'_>) -> Result<Option<i32>, AllocError> {
        match payload {
            ScalarPayload::Varint(number) => Ok(Some(low_half(number).cast_signed())),
            _ => Ok(None),
        }
    }
}

pub struct Fixed64;

impl Scalar for Fixed64 {
    type Item = u64;

    ghost kind = { kind.Fixed64 };

    ghost view = { uint64 };

    ghost reads_back = { read-written kind.Fixed64 };

    fn write(item: &u64) -> ScalarPayload<'_> {
        ScalarPayload::I64(*item)
    }

    fn read(_alloc: Global, payload: ScalarPayload<'_>) -> Result<Option<u64>, AllocError> {
        match payload {
            ScalarPayload::I64(number) => Ok(Some(number)),
            _ => Ok(None),
        }
    }
}

pub struct Fixed32;

impl Scalar for Fixed32 {
    type Item = u32;

    ghost kind = { kind.Fixed32 };

    ghost view = { uint32 };

    ghost reads_back = { read-written kind.Fixed32 };

    fn write(item: &u32) -> ScalarPayload<'_> {
        ScalarPayload::I32(*item)
    }

    fn read(_alloc: Global, payload: ScalarPayload<'_>) -> Result<Option<u32>, AllocError> {
        match payload {
            ScalarPayload::I32(number) => Ok(Some(number)),
            _ => Ok(None),
        }
    }
}

pub struct Bool;

impl Scalar for Bool {
    type Item = bool;

    ghost kind = { kind.Bool };

    ghost view = { boolean };

    ghost reads_back = { read-written kind.Bool };

    fn write(item: &bool) -> ScalarPayload<'_> {
        ScalarPayload::Varint(u64::from(*item))
    }

    fn read(_alloc: Global, payload: ScalarPayload<'_>) -> Result<Option<bool>, AllocError> {
        match payload {
            ScalarPayload::Varint(number) => Ok(Some(number != 0)),
            _ => Ok(None),
        }
    }
}

pub struct Text;

impl Scalar for Text {
    type Item = String;

    ghost kind = { kind.Text };

    ghost view = { λ s. text (string_bytes s) };

    ghost reads_back = { read-written kind.Text };

    fn write(item: &String) -> ScalarPayload<'_> {
        ScalarPayload::Len(item.as_str().as_bytes())
    }

    fn read(alloc: Global, payload: ScalarPayload<'_>) -> Result<Option<String>, AllocError> {
        match payload {
            ScalarPayload::Len(bytes) => match std::str::from_utf8(bytes) {
                Ok(text) => Ok(Some(String::from_str(alloc, text)?)),
                Err(_) => Ok(None),
            },
            _ => Ok(None),
        }
    }
}

pub struct Bytes;

impl Scalar for Bytes {
    type Item = Vec<u8>;

    ghost kind = { kind.Bytes };

    ghost view = { λ v. bytes v.items };

    ghost reads_back = { read-written kind.Bytes };

    fn write(item: &Vec<u8>) -> ScalarPayload<'_> {
        ScalarPayload::Len(item.as_slice())
    }

    fn read(alloc: Global, payload: ScalarPayload<'_>) -> Result<Option<Vec<u8>>, AllocError> {
        match payload {
            ScalarPayload::Len(bytes) => Ok(Some(copy_of(alloc, bytes)?)),
            _ => Ok(None),
        }
    }
}

pub struct Uint32;

impl Scalar for Uint32 {
    type Item = u32;

    ghost kind = { kind.Uint32 };

    ghost view = { uint32 };

    ghost reads_back = { read-written kind.Uint32 };

    fn write(item: &u32) -> ScalarPayload<'_> {
        ScalarPayload::Varint(u64::from(*item))
    }

    fn read(_alloc: Global, payload: ScalarPayload<'_>) -> Result<Option<u32>, AllocError> {
        match payload {
            ScalarPayload::Varint(number) => Ok(Some(low_half(number))),
            _ => Ok(None),
        }
    }
}

pub struct Sfixed32;

impl Scalar for Sfixed32 {
    type Item = i32;

    ghost kind = { kind.Sfixed32 };

    ghost view = { int32 };

    ghost reads_back = { read-written kind.Sfixed32 };

    fn write(item: &i32) -> ScalarPayload<'_> {
        ScalarPayload::I32(item.cast_unsigned())
    }

    fn read(_alloc: Global, payload: ScalarPayload<'_>) -> Result<Option<i32>, AllocError> {
        match payload {
            ScalarPayload::I32(number) => Ok(Some(number.cast_signed())),
            _ => Ok(None),
        }
    }
}

pub struct Sfixed64;

impl Scalar for Sfixed64 {
    type Item = i64;

    ghost kind = { kind.Sfixed64 };

    ghost view = { int64 };

    ghost reads_back = { read-written kind.Sfixed64 };

    fn write(item: &i64) -> ScalarPayload<'_> {
        ScalarPayload::I64(item.cast_unsigned())
    }

    fn read(_alloc: Global, payload: ScalarPayload<'_>) -> Result<Option<i64>, AllocError> {
        match payload {
            ScalarPayload::I64(number) => Ok(Some(number.cast_signed())),
            _ => Ok(None),
        }
    }
}

pub struct Sint32;

impl Scalar for Sint32 {
    type Item = i32;

    ghost kind = { kind.Sint32 };

    ghost view = { int32 };

    ghost reads_back = { read-written kind.Sint32 };

    fn write(item: &i32) -> ScalarPayload<'_> {
        ScalarPayload::Varint(u64::from(zigzag32(*item)))
    }

    fn read(_alloc: Global, payload: ScalarPayload<'_>) -> Result<Option<i32>, AllocError> {
        match payload {
            ScalarPayload::Varint(number) => Ok(Some(unzigzag32(low_half(number)))),
            _ => Ok(None),
        }
    }
}

pub struct Sint64;

impl Scalar for Sint64 {
    type Item = i64;

    ghost kind = { kind.Sint64 };

    ghost view = { int64 };

    ghost reads_back = { read-written kind.Sint64 };

    fn write(item: &i64) -> ScalarPayload<'_> {
        ScalarPayload::Varint(zigzag64(*item))
    }

    fn read(_alloc: Global, payload: ScalarPayload<'_>) -> Result<Option<i64>, AllocError> {
        match payload {
            ScalarPayload::Varint(number) => Ok(Some(unzigzag64(number))),
            _ => Ok(None),
        }
    }
}

/// The kind of every enum, since all are written and read alike.
pub struct EnumNumber;

impl Scalar for EnumNumber {
    type Item = i32;

    ghost kind = { kind.Enum (record { 0 = 0 }) };

    ghost view = { enum };

    ghost reads_back = { read-written (kind.Enum (record { 0 = 0 })) };

    fn write(item: &i32) -> ScalarPayload<'_> {
        ScalarPayload::Varint(all_bits(*item))
    }

    fn read(_alloc: Global, payload: ScalarPayload<'_>) -> Result<Option<i32>, AllocError> {
        match payload {
            ScalarPayload::Varint(number) => Ok(Some(low_half(number).cast_signed())),
            _ => Ok(None),
        }
    }
}
