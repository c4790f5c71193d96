//! Tokens at the start of bytes, each in its shortest spelling, and the bytes after them.

ghost use Rattle.std.specs.Prelude.{◌≡◌, ◌≤◌, ◌<◌, ◌^◌, ◌++◌, ℕ, List, take, length, IfSome, IsSomeAnd};
ghost use Rattle.std.specs.Bool.{Decides};
ghost use Rattle.std.specs.Int.{w32, w64, to_le_bytes};
ghost use Rattle.pb_wire.specs.Varint.{IsVarint, shortest};
ghost use Rattle.pb_wire.specs.Record.{len};
ghost use Rattle.pb_wire.specs.Ranges.{IsNumber};
ghost use Rattle.pb_canonical.specs.Parts.{tagged, payload_bytes, IsTagged};

use pb_wire::{Scanned, read_varint, scan_fixed64};

/// The most bytes that a varint has.
const MAX_VARINT: usize = 10;

/// A tag: the number of a field and a wire type.
#[derive(Clone, Copy, PartialEq, Eq)]
pub(crate) struct Tag {
    pub number: u32,
    pub wire_type: u8,
}

/// The varint at the start, if it is the shortest of its number.
#[inline(always)]
pub(crate) fn varint_first(bytes: &[u8]) -> Option<(u64, &[u8])>
    ensures split { IfSome result (λ r. bytes.now ≡ shortest r.0 ++ r.1.now) }
    ensures complete { (n : ℕ) → (s : List ℕ) → n < 2 ^ 64 → bytes.now ≡ shortest n ++ s → IsSomeAnd result (λ r. (r.0 ≡ n) × (r.1.now ≡ s)) }
{
    if !bytes.is_empty() && bytes[0] < 0x80 {
        return Some((u64::from(bytes[0]), &bytes[1..]));
    }
    match two_byte_varint_first(bytes) {
        Some((number, rest)) => Some((number, rest)),
        None => long_varint_first(bytes),
    }
}

/// As `varint_first`, of two bytes.
#[inline(always)]
fn two_byte_varint_first(bytes: &[u8]) -> Option<(u64, &[u8])>
    ensures split { IfSome result (λ r. bytes.now ≡ shortest r.0 ++ r.1.now) }
    ensures small { IfSome result (λ r. r.0 < 2 ^ 64) }
{
    if bytes.len() < 2 {
        return None;
    }
    let first = bytes[0];
    let second = bytes[1];
    if first < 0x80 || 0x80 <= second || second == 0 {
        return None;
    }
    let number = u64::from(first - 0x80) + 0x80 * u64::from(second);
    Some((number, &bytes[2..]))
}

/// As `varint_first`, of any size.
fn long_varint_first(bytes: &[u8]) -> Option<(u64, &[u8])>
    ensures split { IfSome result (λ r. bytes.now ≡ shortest r.0 ++ r.1.now) }
    ensures complete { (n : ℕ) → (s : List ℕ) → n < 2 ^ 64 → bytes.now ≡ shortest n ++ s → IsSomeAnd result (λ r. (r.0 ≡ n) × (r.1.now ≡ s)) }
{
    let Ok((number, size)) = read_varint(bytes) else {
        return None;
    };
    if is_shortest(bytes, size) {
        Some((number, &bytes[size..]))
    } else {
        None
    }
}

/// Whether the varint of this size at the start is the shortest of its number: its last byte is not zero, unless it is the only one, and
/// the tenth holds the one bit that is left of 64.
#[inline(always)]
fn is_shortest(bytes: &[u8], size: usize) -> bool
    requires some { 0 < size }
    requires within { size ≤ length bytes.now }
    ensures { (n : ℕ) → IsVarint n (take size bytes.now) → Decides result (take size bytes.now ≡ shortest n) }
{
    let last = bytes[size - 1];
    if size == 1 {
        return true;
    }
    if last == 0 {
        return false;
    }
    size < MAX_VARINT || last == 1
}

/// The tag at the start.
#[inline(always)]
pub(crate) fn tag_first(bytes: &[u8]) -> Option<(Tag, &[u8])>
    ensures tag { IfSome result (λ r. bytes.now ≡ tagged r.0.number r.0.wire_type r.1.now) }
    ensures number { IfSome result (λ r. IsNumber r.0.number) }
    ensures wire_type { IfSome result (λ r. r.0.wire_type < 8) }
    ensures complete { (k w : ℕ) → (s : List ℕ) → IsNumber k → w < 8 → bytes.now ≡ tagged k w s
        → IsSomeAnd result (λ r. IsTagged k w r.0.number r.0.wire_type × (r.1.now ≡ s)) }
{
    let (tag, rest) = varint_first(bytes)?;
    let Ok(tag) = u32::try_from(tag) else {
        return None;
    };
    let number = tag / 8;
    if number == 0 {
        return None;
    }
    let wire_type = (tag % 8) as u8;
    Some((Tag { number, wire_type }, rest))
}

/// The bytes after the end tag of a group of this number.
pub(crate) fn after_end(bytes: &[u8], number: u32) -> Option<&[u8]>
    ensures split { IfSome result (λ r. bytes.now ≡ tagged number 4 r.now) }
    ensures complete { (s : List ℕ) → IsNumber number → bytes.now ≡ tagged number 4 s → IsSomeAnd result (λ r. r.now ≡ s) }
{
    let (tag, rest) = tag_first(bytes)?;
    if tag.number == number && tag.wire_type == 4 {
        Some(rest)
    } else {
        None
    }
}

/// The payload at the start, which begins with its length.
#[inline(always)]
pub(crate) fn payload_first(bytes: &[u8]) -> Option<(&[u8], &[u8])>
    ensures split { IfSome result (λ r. bytes.now ≡ payload_bytes (len r.0.now) ++ r.1.now) }
    ensures complete { (p s : List ℕ) → bytes.now ≡ payload_bytes (len p) ++ s → IsSomeAnd result (λ r. (r.0.now ≡ p) × (r.1.now ≡ s)) }
{
    let (size, rest) = varint_first(bytes)?;
    if (rest.len() as u64) < size {
        return None;
    }
    let size = size as usize;
    Some((&rest[..size], &rest[size..]))
}

/// The eight bytes at the start.
#[inline(always)]
pub(crate) fn eight_first(bytes: &[u8]) -> Option<(u64, &[u8])>
    ensures split { IfSome result (λ r. bytes.now ≡ to_le_bytes w64 r.0 ++ r.1.now) }
    ensures complete { (n : ℕ) → (s : List ℕ) → n < 2 ^ 64 → bytes.now ≡ to_le_bytes w64 n ++ s → IsSomeAnd result (λ r. (r.0 ≡ n) × (r.1.now ≡ s)) }
{
    match scan_fixed64(bytes, None) {
        Scanned::Whole(number, size) => Some((number, &bytes[size..])),
        Scanned::Short => None,
        Scanned::Fault(_) => None,
    }
}

/// The four bytes at the start.
#[inline(always)]
pub(crate) fn four_first(bytes: &[u8]) -> Option<(u32, &[u8])>
    ensures split { IfSome result (λ r. bytes.now ≡ to_le_bytes w32 r.0 ++ r.1.now) }
    ensures complete { (n : ℕ) → (s : List ℕ) → n < 2 ^ 32 → bytes.now ≡ to_le_bytes w32 n ++ s → IsSomeAnd result (λ r. (r.0 ≡ n) × (r.1.now ≡ s)) }
{
    let Some(front) = bytes.first_chunk() else {
        return None;
    };
    Some((u32::from_le_bytes(*front), &bytes[4..]))
}
