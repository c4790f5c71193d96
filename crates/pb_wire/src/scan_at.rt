//! What is at an index of the bytes, up to a known end.

ghost use Rattle.std.specs.Prelude.{◌≡◌, ◌≢◌, ◌≤◌, ◌<◌, ◌^◌, [], Some, length, IfOk, IfErr, IsOk};
ghost use Rattle.pb_wire.specs.Record.{wire_type};
ghost use Rattle.pb_wire.specs.Fault.{Place, fault, Reads, HasTag, HasLength, VarintFault, TagFault, LengthFault};
ghost use Rattle.pb_wire.specs.Scan.{here, number_view, Follows, IsNumberType, NumberFault};
ghost use Rattle.pb_wire.specs.declared.fault.Cause.TheVariants.{Truncated};

use crate::fault::{Cause, WireFault};
use crate::reading::refused;
use crate::scan::{Number, Scanned, left_after, scan_length, scan_number, scan_varint, tag_of};

/// A whole tag: its parts, and the indexes where it begins and ends.
#[derive(Clone, Copy)]
pub struct RecordTag {
    pub number: u32,
    pub wire_type: u8,
    pub at: usize,
    pub end: usize,
}

/// The varint that begins at an index, and the index after it.
#[inline(always)]
pub fn varint_at(bytes: &[u8], at: usize, to: Option<u32>) -> Result<(u64, usize), WireFault>
    requires { at ≤ length bytes.now }
    ensures within { IfOk result (λ r. (at < r.1) × (r.1 ≤ length bytes.now)) }
    ensures ok { IfOk result (λ r. Reads (here bytes.now at to) r.0 (here bytes.now r.1 to)) }
    ensures fault { IfErr result (λ e. VarintFault (here bytes.now at to) (fault e.byte [] e.cause)) }
{
    match scan_varint(&bytes[at..], left_after(to, at)) {
        Scanned::Whole(number, size) => Ok((number, at + size)),
        Scanned::Short => Err(refused(bytes.len(), Cause::Truncated)),
        Scanned::Fault(cause) => Err(refused(at, cause)),
    }
}

/// The number of a wire type that begins at an index, and the index after it.
#[inline(always)]
pub fn number_at(
    bytes: &[u8],
    at: usize,
    code: u8,
    to: Option<u32>,
) -> Result<(Number, usize), WireFault>
    requires at_in_bounds { at ≤ length bytes.now }
    requires number { IsNumberType code }
    ensures within { IfOk result (λ r. (at < r.1) × (r.1 ≤ length bytes.now)) }
    ensures of_type { IfOk result (λ r. wire_type (number_view r.0) ≡ code) }
    ensures ok { IfOk result (λ r. Follows (here bytes.now at to) (number_view r.0) (here bytes.now r.1 to)) }
    ensures fault { IfErr result (λ e. NumberFault code (here bytes.now at to) (fault e.byte [] e.cause)) }
{
    match scan_number(code, &bytes[at..], left_after(to, at)) {
        Scanned::Whole(number, size) => Ok((number, at + size)),
        Scanned::Short => Err(refused(bytes.len(), Cause::Truncated)),
        Scanned::Fault(cause) => Err(refused(at, cause)),
    }
}

/// The tag that begins at an index, where a group of this number is open innermost, if one is.
#[inline(always)]
pub fn tag_at(
    bytes: &[u8],
    at: usize,
    innermost: Option<u32>,
    to: Option<u32>,
) -> Result<RecordTag, WireFault>
    requires { at ≤ length bytes.now }
    ensures within { IfOk result (λ t. (at < t.end) × (t.end ≤ length bytes.now) × (t.at ≡ at)) }
    ensures ok { IfOk result (λ t. HasTag (here bytes.now at to) t.number t.wire_type (here bytes.now t.end to)) }
    ensures ends { IfOk result (λ t. t.wire_type ≡ 4 → innermost ≡ Some t.number) }
    ensures fault { IfErr result (λ e. TagFault innermost (here bytes.now at to) (fault e.byte [] e.cause)) }
{
    let (tag, end) = varint_at(bytes, at, to)?;
    let tag = match tag_of(tag) {
        Ok(tag) => tag,
        Err(cause) => return Err(refused(at, cause)),
    };
    if tag.wire_type == 4 {
        if let Err(cause) = group_end(innermost, tag.number) {
            return Err(refused(at, cause));
        }
    }
    Ok(RecordTag {
        number: tag.number,
        wire_type: tag.wire_type,
        at,
        end,
    })
}

/// Judges the last tag of a group of a number, where a group of this number is open innermost, if one is.
#[inline(always)]
pub fn group_end(innermost: Option<u32>, number: u32) -> Result<(), Cause>
    ensures ends { IsOk result → innermost ≡ Some number }
    ensures settled { IfErr result (λ c. c ≢ Truncated) }
    ensures refused { (p q : Place) → HasTag p number 4 q → IfErr result (λ c. TagFault innermost p (fault p.at [] c)) }
{
    match innermost {
        Some(open) if open == number => Ok(()),
        Some(_) => Err(Cause::WrongEnd),
        None => Err(Cause::StrayEnd),
    }
}

/// The length that begins at an index, and the index after it, where its payload begins.
#[inline(always)]
pub fn length_at(bytes: &[u8], at: usize, to: Option<u32>) -> Result<(usize, usize), WireFault>
    requires { at ≤ length bytes.now }
    ensures within { IfOk result (λ r. (at < r.1) × (r.1 ≤ length bytes.now) × (r.0 < 2 ^ 31)) }
    ensures ok { IfOk result (λ r. HasLength (here bytes.now at to) r.0 (here bytes.now r.1 to)) }
    ensures fault { IfErr result (λ e. LengthFault (here bytes.now at to) (fault e.byte [] e.cause)) }
{
    match scan_length(&bytes[at..], left_after(to, at)) {
        Scanned::Whole(length, size) => Ok((length as usize, at + size)),
        Scanned::Short => Err(refused(bytes.len(), Cause::Truncated)),
        Scanned::Fault(cause) => Err(refused(at, cause)),
    }
}
