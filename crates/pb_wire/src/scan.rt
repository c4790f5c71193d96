//! What is at the front of bytes that others may follow: varints, numbers of a fixed width, tags and lengths, up to a known end.

ghost use Rattle.std.specs.Prelude.{◌≡◌, ◌≢◌, ◌-◌, ◌≤◌, ℕ, [], Option, true, false, length, take, option_map, Some, MatchOption, IfOk, IfErr};
ghost use Rattle.pb_wire.specs.Fault.{Place, fault, window, Reads, HasTag, TagFault};
ghost use Rattle.pb_wire.specs.Scan.{given_at, TellsVarint, TellsFixed64, TellsFixed32, TellsNumber, IsNumberType, TellsTag, TellsLength};
ghost use Rattle.pb_wire.specs.declared.scan.Scanned.TheVariants as scanned;
ghost use Rattle.pb_wire.specs.declared.fault.Cause.TheVariants.{Truncated, PastEnd};

use crate::fault::Cause;
use crate::limits::MAX_BYTES;
use crate::reading::{u32_at, u64_at};
use crate::varint::varint_at_front;

/// What is at the front.
#[derive(Clone, Copy, Debug, PartialEq, Eq)]
pub enum Scanned<T> {
    /// The value, and how many bytes it takes.
    Whole(T, usize),
    /// The bytes end before more of them settle it.
    Short,
    /// It is refused, whatever bytes follow.
    Fault(Cause),
}

/// The parts of a tag.
#[derive(Clone, Copy, Debug, PartialEq, Eq)]
pub struct Tag {
    pub number: u32,
    pub wire_type: u8,
}

/// The number after a tag.
#[derive(Clone, Copy, Debug, PartialEq, Eq)]
pub enum Number {
    Varint(u64),
    I64(u64),
    I32(u32),
}

/// The varint at the front, with this many bytes before the known end, or with no known end.
#[inline(always)]
pub fn scan_varint(bytes: &[u8], left: Option<u32>) -> Scanned<u64>
    ensures { (at : ℕ) → TellsVarint (given_at at left bytes.now) result }
{
    let size = before_end(bytes, left);
    match varint_at_front(&bytes[..size]) {
        Ok((number, taken)) => Scanned::Whole(number, taken),
        Err(fault) => match fault.cause {
            Cause::Truncated => cut_after(size, left),
            cause => Scanned::Fault(cause),
        },
    }
}

/// The number of eight bytes, likewise.
#[inline(always)]
pub fn scan_fixed64(bytes: &[u8], left: Option<u32>) -> Scanned<u64>
    ensures { (at : ℕ) → TellsFixed64 (given_at at left bytes.now) result }
{
    if passes_end(8, left) {
        return Scanned::Fault(Cause::PastEnd);
    }
    match u64_at(bytes, 0) {
        Ok((number, size)) => Scanned::Whole(number, size),
        Err(_) => Scanned::Short,
    }
}

/// The number of four bytes, likewise.
#[inline(always)]
pub fn scan_fixed32(bytes: &[u8], left: Option<u32>) -> Scanned<u32>
    ensures { (at : ℕ) → TellsFixed32 (given_at at left bytes.now) result }
{
    if passes_end(4, left) {
        return Scanned::Fault(Cause::PastEnd);
    }
    match u32_at(bytes, 0) {
        Ok((number, size)) => Scanned::Whole(number, size),
        Err(_) => Scanned::Short,
    }
}

/// The number after a tag of this wire type, likewise.
#[inline(always)]
pub fn scan_number(wire_type: u8, bytes: &[u8], left: Option<u32>) -> Scanned<Number>
    requires { IsNumberType wire_type }
    ensures { (at : ℕ) → TellsNumber wire_type (given_at at left bytes.now) result }
{
    if wire_type == 0 {
        return match scan_varint(bytes, left) {
            Scanned::Whole(number, size) => Scanned::Whole(Number::Varint(number), size),
            Scanned::Short => Scanned::Short,
            Scanned::Fault(cause) => Scanned::Fault(cause),
        };
    }
    if wire_type == 1 {
        return match scan_fixed64(bytes, left) {
            Scanned::Whole(number, size) => Scanned::Whole(Number::I64(number), size),
            Scanned::Short => Scanned::Short,
            Scanned::Fault(cause) => Scanned::Fault(cause),
        };
    }
    match scan_fixed32(bytes, left) {
        Scanned::Whole(number, size) => Scanned::Whole(Number::I32(number), size),
        Scanned::Short => Scanned::Short,
        Scanned::Fault(cause) => Scanned::Fault(cause),
    }
}

/// The tag at the front, likewise. Whether the group that it ends is open is judged elsewhere.
#[inline(always)]
pub fn scan_tag(bytes: &[u8], left: Option<u32>) -> Scanned<Tag>
    ensures { (at : ℕ) → TellsTag (given_at at left bytes.now) result }
{
    match scan_varint(bytes, left) {
        Scanned::Whole(tag, size) => match tag_of(tag) {
            Ok(tag) => Scanned::Whole(tag, size),
            Err(cause) => Scanned::Fault(cause),
        },
        Scanned::Short => Scanned::Short,
        Scanned::Fault(cause) => Scanned::Fault(cause),
    }
}

/// The parts of the tag that a number is.
#[inline(always)]
pub fn tag_of(tag: u64) -> Result<Tag, Cause>
    ensures whole { (p q : Place) → Reads p tag q → IfOk result (λ t. HasTag p t.number t.wire_type q) }
    ensures settled { IfErr result (λ c. c ≢ Truncated) }
    ensures refused { (p q : Place) (innermost : Option ℕ) → Reads p tag q → IfErr result (λ c. TagFault innermost p (fault p.at [] c)) }
{
    let Ok(tag) = u32::try_from(tag) else {
        return Err(Cause::TagTooLarge);
    };
    let number = tag / 8;
    if number == 0 {
        return Err(Cause::NumberZero);
    }
    let wire_type = (tag % 8) as u8;
    if wire_type > 5 {
        return Err(Cause::BadType);
    }
    Ok(Tag { number, wire_type })
}

/// The most bytes that a payload has.
const MAX_LENGTH: u64 = MAX_BYTES as u64;

/// The length at the front, likewise. Its payload is no longer than the known end allows.
#[inline(always)]
pub fn scan_length(bytes: &[u8], left: Option<u32>) -> Scanned<u32>
    ensures { (at : ℕ) → TellsLength (given_at at left bytes.now) result }
{
    match scan_varint(bytes, left) {
        Scanned::Whole(length, size) => {
            if length > MAX_LENGTH {
                return Scanned::Fault(Cause::LengthTooLarge);
            }
            let length = length as u32;
            if passes_end(length, left_after(left, size)) {
                return Scanned::Fault(Cause::PastEnd);
            }
            Scanned::Whole(length, size)
        }
        Scanned::Short => Scanned::Short,
        Scanned::Fault(cause) => Scanned::Fault(cause),
    }
}

/// How many of the bytes are before the known end, if there is one.
#[inline(always)]
pub fn before_end(bytes: &[u8], left: Option<u32>) -> usize
    ensures within { result ≤ length bytes.now }
    ensures window { (at : ℕ) → window (given_at at left bytes.now) ≡ take result bytes.now }
{
    match left {
        None => bytes.len(),
        Some(left) => bytes.len().min(left as usize),
    }
}

/// How many bytes are before the known end after this many more.
#[inline(always)]
pub fn left_after(left: Option<u32>, used: usize) -> Option<u32>
    ensures { result ≡ option_map (λ e. e - used) left }
{
    left.map(|left| (left as usize).saturating_sub(used) as u32)
}

/// What goes on after this many bytes.
#[inline(always)]
fn cut_after(size: usize, left: Option<u32>) -> Scanned<u64>
    ensures past { left ≡ Some size → result ≡ scanned.Fault PastEnd }
    ensures short { left ≢ Some size → result ≡ scanned.Short }
{
    match left {
        Some(left) if left as usize == size => Scanned::Fault(Cause::PastEnd),
        _ => Scanned::Short,
    }
}

/// Says that this many bytes pass the known end.
#[inline(always)]
fn passes_end(size: u32, left: Option<u32>) -> bool
    ensures yes { result ≡ true → MatchOption left (Unit {0}) (λ e. size ≤ e) → ⊥ }
    ensures no { result ≡ false → MatchOption left (Unit {0}) (λ e. size ≤ e) }
{
    match left {
        None => false,
        Some(left) => left < size,
    }
}
