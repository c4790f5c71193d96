//! Varints whose numbers do not matter, eight bytes at a time.

ghost use Rattle.std.specs.Prelude.{◌≡◌, ◌+◌, ◌-◌, ◌≤◌, ◌<◌, ◌^◌, ℕ, None, true, length, IfSome};
ghost use Rattle.std.specs.Slice.Scan.{Flags};
ghost use Rattle.pb_wire.specs.Fault.{Reads};
ghost use Rattle.pb_wire.specs.Schema.{a_varint};
ghost use Rattle.pb_wire.specs.Sound.{AreElements};
ghost use Rattle.pb_wire.specs.Scan.{here};
ghost use Rattle.pb_validate.specs.Whole.{ends_varint, Begun};

use pb_wire::varint_at;

/// The high bit of each of eight bytes.
const HIGH_BITS: u64 = 0x8080_8080_8080_8080;

/// The high bits of those of the eight bytes from an index on that end a varint.
#[inline(always)]
fn last_bytes(bytes: &[u8], at: usize) -> u64
    requires { at + 8 ≤ length bytes.now }
    ensures { Flags (ends_varint bytes.now) at result }
{
    let word = u64::from_le_bytes([
        bytes[at],
        bytes[at + 1],
        bytes[at + 2],
        bytes[at + 3],
        bytes[at + 4],
        bytes[at + 5],
        bytes[at + 6],
        bytes[at + 7],
    ]);
    (word & HIGH_BITS) ^ HIGH_BITS
}

/// The index after the varint that begins at an index, if it is whole.
#[inline(always)]
pub(crate) fn varint_end(bytes: &[u8], at: usize) -> Option<usize>
    requires { at ≤ length bytes.now }
    ensures within { IfSome result (λ end. (at < end) × (end ≤ length bytes.now)) }
    ensures ok { IfSome result (λ end. (n : ℕ) × Reads (here bytes.now at None) n (here bytes.now end None)) }
{
    if at < bytes.len() && bytes[at] < 0x80 {
        return Some(at + 1);
    }
    if bytes.len() - at < 10 {
        return match varint_at(bytes, at, None) {
            Ok((_, end)) => Some(end),
            Err(_) => None,
        };
    }
    let last = last_bytes(bytes, at);
    if last != 0 {
        return Some(at + last.trailing_zeros() as usize / 8 + 1);
    }
    if bytes[at + 8] < 0x80 {
        return Some(at + 9);
    }
    if bytes[at + 9] < 0x80 {
        return Some(at + 10);
    }
    None
}

/// How many bytes before an index are of a varint that goes on there, eight bytes further. None where a varint has too many.
#[inline(always)]
fn begun_after_word(bytes: &[u8], at: usize, begun: usize) -> Option<usize>
    requires within { at + 8 ≤ length bytes.now }
    requires begun { Begun bytes.now at begun }
    ensures { IfSome result (λ n. Begun bytes.now (at + 8) n) }
{
    let last = last_bytes(bytes, at);
    if last == 0 {
        return if begun < 2 { Some(begun + 8) } else { None };
    }
    if 9 < begun + last.trailing_zeros() as usize / 8 {
        return None;
    }
    Some(last.leading_zeros() as usize / 8)
}

/// Says that bytes are whole varints, one after another.
pub(crate) fn are_varints(bytes: &[u8]) -> bool
    ensures { result ≡ true → AreElements a_varint bytes.now }
{
    let mut at = 0;
    let mut begun = 0;
    while 8 <= bytes.len() - at {
        match begun_after_word(bytes, at, begun) {
            Some(after) => begun = after,
            None => return false,
        }
        at += 8;
    }
    while at < bytes.len() {
        if bytes[at] < 0x80 {
            begun = 0;
        } else if begun < 9 {
            begun += 1;
        } else {
            return false;
        }
        at += 1;
    }
    begun == 0
}
