//! Numbers as varints (encoding guide, "Base 128 Varints").

ghost use Rattle.std.specs.Prelude.{◌≡◌, ◌≤◌, ℕ, [], Ok, length, take, IfOk, IfErr, IfSome, IsErrAnd};
ghost use Rattle.pb_wire.specs.Varint.{IsVarint, shortest};
ghost use Rattle.pb_wire.specs.Fault.{Fault, VarintFault, fault, text_at};

use crate::fault::{Cause, WireFault};
use std::marker::Model;

/// The most bytes that a varint has.
const MAX_LEN: usize = 10;

/// Reads the varint that some bytes begin with, and returns its number and how many bytes it takes. Other bytes may
/// follow it. Overlong spellings are read, and bits above the sixty-fourth are dropped.
///
/// Fails with `VarintTooLong` where ten bytes all have the high bit, and with `Truncated` where the bytes end before.
pub fn read_varint(bytes: &[u8]) -> Result<(u64, usize), WireFault>
    ensures within { IfOk result (λ found. found.1 ≤ length bytes.now) }
    ensures found { IfOk result (λ found. IsVarint found.0 (take found.1 bytes.now)) }
    ensures only { (n size : ℕ) → size ≤ length bytes.now → IsVarint n (take size bytes.now) → result ≡ Ok (n, size) }
    ensures fault { IfErr result (λ e. VarintFault (text_at bytes.now) (fault e.byte [] e.cause)) }
    ensures refused { (f : Fault) → VarintFault (text_at bytes.now) f → IsErrAnd result (λ e. fault e.byte [] e.cause ≡ f) }
{
    varint_at_front(bytes)
}

/// As `read_varint`. Most varints are one byte, and most others two or three.
#[inline(always)]
pub(crate) fn varint_at_front(bytes: &[u8]) -> Result<(u64, usize), WireFault>
    ensures within { IfOk result (λ found. found.1 ≤ length bytes.now) }
    ensures found { IfOk result (λ found. IsVarint found.0 (take found.1 bytes.now)) }
    ensures only { (n size : ℕ) → size ≤ length bytes.now → IsVarint n (take size bytes.now) → result ≡ Ok (n, size) }
    ensures fault { IfErr result (λ e. VarintFault (text_at bytes.now) (fault e.byte [] e.cause)) }
{
    if !bytes.is_empty() && bytes[0] < 0x80 {
        return Ok((u64::from(bytes[0]), 1));
    }
    match short_varint(bytes) {
        Some((number, size)) => Ok((number, size)),
        None => long_varint(bytes),
    }
}

/// The varint of two or three bytes that the bytes begin with, if it is one.
#[inline(always)]
fn short_varint(bytes: &[u8]) -> Option<(u64, usize)>
    ensures within { IfSome result (λ found. found.1 ≤ length bytes.now) }
    ensures found { IfSome result (λ found. IsVarint found.0 (take found.1 bytes.now)) }
{
    if bytes.len() < 2 || bytes[0] < 0x80 {
        return None;
    }
    let one = u64::from(bytes[0] & 0x7f);
    let two = one | u64::from(bytes[1] & 0x7f) << 7;
    if bytes[1] < 0x80 {
        return Some((two, 2));
    }
    if bytes.len() < 3 {
        return None;
    }
    let three = two | u64::from(bytes[2] & 0x7f) << 14;
    if bytes[2] < 0x80 {
        return Some((three, 3));
    }
    None
}

/// As `read_varint`, byte by byte.
fn long_varint(bytes: &[u8]) -> Result<(u64, usize), WireFault>
    ensures within { IfOk result (λ found. found.1 ≤ length bytes.now) }
    ensures found { IfOk result (λ found. IsVarint found.0 (take found.1 bytes.now)) }
    ensures only { (n size : ℕ) → size ≤ length bytes.now → IsVarint n (take size bytes.now) → result ≡ Ok (n, size) }
    ensures fault { IfErr result (λ e. VarintFault (text_at bytes.now) (fault e.byte [] e.cause)) }
{
    let mut value = 0u64;
    for i in 0..MAX_LEN {
        if i == bytes.len() {
            return Err(WireFault {
                byte: i as u64,
                cause: Cause::Truncated,
            });
        }
        let byte = bytes[i];
        value |= u64::from(byte & 0x7f) << (7 * i);
        if byte < 0x80 {
            return Ok((value, i + 1));
        }
    }
    Err(WireFault {
        byte: 0,
        cause: Cause::VarintTooLong,
    })
}

/// The bytes of a varint, 1 to 10.
#[derive(Debug, Drop)]
pub struct VarintBytes {
    bytes: [u8; MAX_LEN],
    len: usize,
}

impl Model for VarintBytes {
    ghost use Rattle.std.specs.Prelude.{ℕ, List, take, ◌≤◌};

    ghost Value = { List ℕ };

    ghost view = { λ v. take v.len v.bytes };

    ghost invariant = { λ v. v.len ≤ 10 };
}

impl PartialEq for VarintBytes {
    ghost use Rattle.std.specs.Prelude.{nat_eq};
    ghost use Rattle.std.specs.Cmp.{partial_equiv_from_equiv};
    ghost use Rattle.std.specs.Cmp.Lexicographic.{pointwise, nat_list_eq_equiv};

    ghost eq = { pointwise nat_eq };

    ghost laws = { partial_equiv_from_equiv nat_list_eq_equiv };

    fn eq(&self, other: &VarintBytes) -> bool {
        self.as_slice() == other.as_slice()
    }
}

impl Eq for VarintBytes {
    ghost use Rattle.std.specs.Cmp.Lexicographic.{nat_list_eq_equiv};

    ghost laws = { nat_list_eq_equiv };
}

impl VarintBytes {
    /// The bytes.
    pub fn as_slice(&self) -> &[u8]
        ensures { result.now ≡ self.now }
    {
        &self.bytes[..self.len]
    }
}

/// The shortest varint of a number.
#[inline]
pub fn put_varint(number: u64) -> VarintBytes
    ensures shortest { result ≡ shortest number }
    ensures spelled { IsVarint number result }
{
    let mut bytes = [0u8; MAX_LEN];
    let mut len = 0;
    let mut rest = number;
    while rest >= 0x80 {
        bytes[len] = (rest & 0x7f) as u8 | 0x80;
        rest >>= 7;
        len += 1;
    }
    bytes[len] = rest as u8;
    VarintBytes {
        bytes,
        len: len + 1,
    }
}
