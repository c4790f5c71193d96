//! Bytes as records.

ghost use Rattle.std.specs.Prelude.{◌≡◌, ◌≢◌, ◌+◌, ◌≤◌, ◌<◌, ◌^◌, ◌⊎◌, ℕ, List, [], reverse, filter, ◌==◌};
ghost use Rattle.std.specs.Prelude.{Ok, Some, None, true, false, length, IfOk, IfErr, OnOk, MatchResult, IsErrAnd};
ghost use Rattle.std.specs.Int.{w32, w64, to_le_bytes};
ghost use Rattle.pb_wire.specs.Record.{Record, len};
ghost use Rattle.pb_wire.specs.Ranges.{AreInRange};
ghost use Rattle.pb_wire.specs.Writable.{AreWritable};
ghost use Rattle.pb_wire.specs.Spell.{Body};
ghost use Rattle.pb_wire.specs.Fault.{Fault, VarintFault, FixedFault, LengthFault, CutFault, TagFault, fault, step, place, Leads, Reads, HasTag};
ghost use Rattle.pb_wire.specs.Fault.{fault as fault_with};
ghost use Rattle.pb_wire.specs.Schema.{blank};
ghost use Rattle.pb_wire.specs.Grammar.{IsText, HasFault, beyond};
ghost use Rattle.pb_wire.specs.WireType.{code_of};
ghost use Rattle.pb_wire.specs.declared.reading.WireType.{WireType};
ghost use Rattle.pb_wire.specs.Unknown.{payload_of, records_of};
ghost use Rattle.pb_wire.specs.RecordIter.{without_path};
ghost use Rattle.pb_wire.specs.Reading.{ReadsAll, ReadsValue, IfFault, IfRawFault, BadValue, BadFrom};

use crate::fault::{Cause, PathStep, RawError, ReadError, WireFault};
use crate::limits::{Limits, MAX_BYTES};
use crate::unknown::Unknown;
use crate::varint::varint_at_front;
use std::alloc::Global;

/// What follows a tag.
#[derive(Clone, Copy, Debug, PartialEq, Eq)]
pub(crate) enum WireType {
    Varint,
    I64,
    Len,
    StartGroup,
    EndGroup,
    I32,
}

/// Reads the varint that begins at an index, and returns the index after it.
// What each record goes through is put in place, since a call costs as much as a short record.
#[inline(always)]
pub(crate) fn varint_at(bytes: &[u8], at: usize) -> Result<(u64, usize), WireFault>
    requires { at ≤ length bytes.now }
    ensures within { IfOk result (λ r. (at < r.1) × (r.1 ≤ length bytes.now)) }
    ensures ok { IfOk result (λ r. Reads (place bytes.now at) r.0 (place bytes.now r.1)) }
    ensures fault { IfErr result (λ e. VarintFault (place bytes.now at) (fault e.byte [] e.cause)) }
{
    match varint_at_front(&bytes[at..]) {
        Ok((number, size)) => Ok((number, at + size)),
        Err(fault) => Err(WireFault {
            byte: at as u64 + fault.byte,
            cause: fault.cause,
        }),
    }
}

/// Reads the tag that begins at an index: the number, the wire type, and the index after it.
#[inline(always)]
pub(crate) fn tag_at(
    bytes: &[u8],
    at: usize,
    innermost: Option<u32>,
) -> Result<(u32, WireType, usize), WireFault>
    requires { at ≤ length bytes.now }
    ensures within { IfOk result (λ r. (at < r.2) × (r.2 ≤ length bytes.now)) }
    ensures ok { IfOk result (λ r. HasTag (place bytes.now at) r.0 (code_of r.1) (place bytes.now r.2)) }
    ensures ends { IfOk result (λ r. code_of r.1 ≡ 4 → innermost ≡ Some r.0) }
    ensures fault { IfErr result (λ e. TagFault innermost (place bytes.now at) (fault e.byte [] e.cause)) }
{
    let (tag, after) = varint_at(bytes, at)?;
    let Ok(tag) = u32::try_from(tag) else {
        return Err(refused(at, Cause::TagTooLarge));
    };
    let number = tag / 8;
    if number == 0 {
        return Err(refused(at, Cause::NumberZero));
    }
    let Some(wire_type) = wire_type_of(tag % 8) else {
        return Err(refused(at, Cause::BadType));
    };
    if let WireType::EndGroup = wire_type {
        match innermost {
            None => return Err(refused(at, Cause::StrayEnd)),
            Some(open) => {
                if open != number {
                    return Err(refused(at, Cause::WrongEnd));
                }
            }
        }
    }
    Ok((number, wire_type, after))
}

/// A fault of this cause at an index.
pub fn refused(at: usize, cause: Cause) -> WireFault
    ensures { result ≡ record { byte = at; cause = cause } }
{
    WireFault {
        byte: at as u64,
        cause,
    }
}

#[inline(always)]
fn wire_type_of(code: u32) -> Option<WireType>
    ensures found { (w : WireType) → result ≡ Some w → code_of w ≡ code }
    ensures none { result ≡ None → 6 ≤ code }
{
    match code {
        0 => Some(WireType::Varint),
        1 => Some(WireType::I64),
        2 => Some(WireType::Len),
        3 => Some(WireType::StartGroup),
        4 => Some(WireType::EndGroup),
        5 => Some(WireType::I32),
        _ => None,
    }
}

/// Reads the eight bytes that begin at an index.
pub(crate) fn u64_at(bytes: &[u8], at: usize) -> Result<(u64, usize), WireFault>
    requires { at ≤ length bytes.now }
    ensures within { IfOk result (λ r. (at < r.1) × (r.1 ≤ length bytes.now)) }
    ensures ok { IfOk result (λ r. Leads (λ s. s ≡ to_le_bytes w64 r.0) (place bytes.now at) (place bytes.now r.1)) }
    ensures fault { IfErr result (λ e. FixedFault 8 (place bytes.now at) (fault e.byte [] e.cause)) }
{
    let Some(front) = bytes[at..].first_chunk() else {
        return Err(refused(bytes.len(), Cause::Truncated));
    };
    Ok((u64::from_le_bytes(*front), at + 8))
}

/// Reads the four bytes that begin at an index.
pub(crate) fn u32_at(bytes: &[u8], at: usize) -> Result<(u32, usize), WireFault>
    requires { at ≤ length bytes.now }
    ensures within { IfOk result (λ r. (at < r.1) × (r.1 ≤ length bytes.now)) }
    ensures ok { IfOk result (λ r. Leads (λ s. s ≡ to_le_bytes w32 r.0) (place bytes.now at) (place bytes.now r.1)) }
    ensures fault { IfErr result (λ e. FixedFault 4 (place bytes.now at) (fault e.byte [] e.cause)) }
{
    let Some(front) = bytes[at..].first_chunk() else {
        return Err(refused(bytes.len(), Cause::Truncated));
    };
    Ok((u32::from_le_bytes(*front), at + 4))
}

/// The most bytes that a payload has.
const MAX_LENGTH: u64 = MAX_BYTES as u64;

/// Reads the length that begins at an index and the bytes that it counts.
pub(crate) fn bytes_at(bytes: &[u8], at: usize) -> Result<(&[u8], usize), WireFault>
    requires { at ≤ length bytes.now }
    ensures within { IfOk result (λ r. (at < r.1) × (r.1 ≤ length bytes.now)) }
    ensures ok { IfOk result (λ r. (k : ℕ) → Leads (Body k (len r.0.now)) (place bytes.now at) (place bytes.now r.1)) }
    ensures fault { IfErr result (λ e. LengthFault (place bytes.now at) (fault e.byte [] e.cause)
        ⊎ CutFault (place bytes.now at) (fault e.byte [] e.cause)) }
{
    let (size, start) = varint_at(bytes, at)?;
    if size > MAX_LENGTH {
        return Err(refused(at, Cause::LengthTooLarge));
    }
    let size = size as usize;
    if bytes.len() - start < size {
        return Err(refused(bytes.len(), Cause::Truncated));
    }
    Ok((&bytes[start..start + size], start + size))
}

/// Reads the value that begins at an index, after its tag. Where it has a fault, the steps to it from there are reported, the
/// last of them first.
#[cycle(read)]
fn value_at(
    alloc: Global,
    bytes: &[u8],
    at: usize,
    number: u32,
    wire_type: WireType,
    depth_left: u8,
    steps: &mut Vec<PathStep>,
) -> Result<(Unknown, usize), ReadError>
    requires at_in_bounds { at ≤ length bytes.now }
    requires size { length bytes.now < 2 ^ 32 }
    requires no_end { code_of wire_type ≢ 4 }
    requires level { code_of wire_type ≡ 3 → 0 < depth_left }
    requires no_steps { steps.old.items ≡ [] }
    ensures within { IfOk result (λ r. (at ≤ r.1) × (r.1 ≤ length bytes.now)) }
    ensures ok { IfOk result
        (λ r. ReadsValue depth_left number (code_of wire_type) (place bytes.now at) (payload_of r.0) (place bytes.now r.1)) }
    ensures steps { OnOk result (steps.new.items ≡ []) }
    ensures fault { IfErr result (λ e. IfFault e (BadValue depth_left number (code_of wire_type) (place bytes.now at) steps.new.items)) }
{
    match wire_type {
        WireType::Varint => {
            let (n, after) = varint_at(bytes, at)?;
            Ok((Unknown::Varint(n), after))
        }
        WireType::I64 => {
            let (n, after) = u64_at(bytes, at)?;
            Ok((Unknown::I64(n), after))
        }
        WireType::Len => {
            let (payload, after) = bytes_at(bytes, at)?;
            Ok((Unknown::Len(Vec::from_slice(alloc, payload)?), after))
        }
        WireType::StartGroup => {
            let (inside, after) = records_at(
                alloc,
                bytes,
                at,
                Some(number),
                depth_left - 1,
                steps,
            )?;
            Ok((Unknown::Group(inside), after))
        }
        WireType::EndGroup => unreachable!(),
        WireType::I32 => {
            let (n, after) = u32_at(bytes, at)?;
            Ok((Unknown::I32(n), after))
        }
    }
}

/// Reads records up to the end of the input, or up to and with the end of the group that is open. Where they have a fault,
/// the steps to it from there are reported, the last of them first.
#[cycle(read)]
fn records_at(
    alloc: Global,
    bytes: &[u8],
    at: usize,
    innermost: Option<u32>,
    depth_left: u8,
    steps: &mut Vec<PathStep>,
) -> Result<(Vec<(u32, Unknown)>, usize), ReadError>
    requires at_in_bounds { at ≤ length bytes.now }
    requires size { length bytes.now < 2 ^ 32 }
    requires no_steps { steps.old.items ≡ [] }
    ensures within { IfOk result (λ r. (at ≤ r.1) × (r.1 ≤ length bytes.now)) }
    ensures whole { innermost ≡ None → IfOk result (λ r. r.1 ≡ length bytes.now) }
    ensures ok { IfOk result
        (λ r. ReadsAll depth_left innermost (place bytes.now at) (records_of r.0.items) (place bytes.now r.1)) }
    ensures steps { OnOk result (steps.new.items ≡ []) }
    ensures fault { IfErr result (λ e. IfFault e (BadFrom depth_left innermost (place bytes.now at) steps.new.items)) }
{
    let mut records = Vec::new(alloc);
    let mut here = at;
    'records: while !is_at_end(bytes, here, innermost) {
        let (number, wire_type, start) = tag_at(bytes, here, innermost)?;
        if let WireType::EndGroup = wire_type {
            return Ok((records, start));
        }
        if let WireType::StartGroup = wire_type {
            if depth_left == 0 {
                steps.push(step_behind(&records, number))?;
                return Err(ReadError::Fault(refused(here, Cause::TooDeep)));
            }
        }
        let (payload, after) = match value_at(
            alloc, bytes, start, number, wire_type, depth_left, steps,
        ) {
            Ok(value) => value,
            Err(error) => {
                steps.push(step_behind(&records, number))?;
                return Err(error);
            }
        };
        records.push((number, payload))?;
        here = after;
    }
    Ok((records, here))
}

/// The step to the record of this number that follows these.
#[tactic(auto, using(crate::proofs::ReadingLemmas::same_count))]
fn step_behind(records: &[(u32, Unknown)], number: u32) -> PathStep
    requires { length records.now < 2 ^ 32 }
    ensures { result ≡ step number (records_of records.now) }
{
    PathStep {
        number,
        occurrence: count_of(records, number),
    }
}

/// How many of the records have a number.
fn count_of(records: &[(u32, Unknown)], number: u32) -> u32
    requires { length records.now < 2 ^ 32 }
    ensures { result ≡ length (filter (λ r. r.0 == number) records.now) }
{
    records.iter().filter(|record| record.0 == number).count() as u32
}

/// Says that nothing is open and nothing is left.
#[inline]
pub(crate) fn is_at_end(bytes: &[u8], at: usize, innermost: Option<u32>) -> bool
    requires { at ≤ length bytes.now }
    ensures ends { result ≡ true → (innermost ≡ None) × (at ≡ length bytes.now) }
    ensures goes_on { result ≡ false → innermost ≡ None → at < length bytes.now }
{
    match innermost {
        None => at == bytes.len(),
        Some(_) => false,
    }
}

/// Reads the records that bytes encode, all of the bytes, groups nested (encoding guide, "Message Structure"). A
/// length-delimited payload is not looked into.
///
/// Fails with the first fault of the input, if it is no list of records within the limits, or when memory runs out.
pub fn read_raw(
    alloc: Global,
    bytes: &[u8],
    limits: Limits,
) -> Result<Vec<(u32, Unknown)>, RawError>
    ensures records { IfOk result (λ v. IsText blank tt limits bytes.now (records_of v.items)) }
    ensures fault { IfErr result (λ e. IfRawFault e (HasFault blank tt limits bytes.now)) }

    // Each encoding is accepted and each fault is reported, unless memory runs out.
    ensures accepted { (rs : List Record) → IsText blank tt limits bytes.now rs
        → MatchResult result (λ v. records_of v.items ≡ rs) (λ e. e ≡ RawError.Memory) }
    ensures refused { (f : Fault) → HasFault blank tt limits bytes.now f → IsErrAnd result (λ e. IfRawFault e (λ g. g ≡ f)) }

    // What is read can be written.
    ensures ranges { IfOk result (λ v. AreInRange (records_of v.items)) }
    ensures writable { IfOk result (λ v. AreWritable (records_of v.items)) }
{
    read_text(alloc, bytes, limits)
}

/// As `read_raw`, said of what was answered.
fn read_text(alloc: Global, bytes: &[u8], limits: Limits) -> Result<Vec<(u32, Unknown)>, RawError>
    ensures ok { IfOk result (λ v. IsText blank tt limits bytes.now (records_of v.items)) }
    ensures fault { IfErr result (λ e. IfRawFault e (HasFault blank tt limits bytes.now)) }
{
    let max_bytes = limits.max_bytes() as usize;
    let mut steps = Vec::new(alloc);
    if bytes.len() <= max_bytes {
        return match records_at(alloc, bytes, 0, None, limits.max_depth(), &mut steps) {
            Ok((records, _)) => Ok(records),
            Err(ReadError::Memory) => Err(RawError::Memory),
            Err(ReadError::Fault(fault)) => Err(below(fault, steps)),
        };
    }
    match records_at(
        alloc,
        &bytes[..max_bytes],
        0,
        None,
        limits.max_depth(),
        &mut steps,
    ) {
        Ok(_) => Err(RawError::Fault {
            byte: max_bytes as u64,
            path: Vec::new(alloc),
            cause: Cause::InputTooLarge,
        }),
        Err(ReadError::Memory) => Err(RawError::Memory),
        Err(ReadError::Fault(fault)) => Err(of_longer(max_bytes, fault, steps)),
    }
}

/// A fault below these steps, of which the last comes first.
pub(crate) fn below(fault: WireFault, mut steps: Vec<PathStep>) -> RawError
    ensures { IfRawFault result (λ f. f ≡ fault_with fault.byte (reverse steps.items) fault.cause) }
{
    steps.reverse();
    RawError::Fault {
        byte: fault.byte,
        path: steps,
        cause: fault.cause,
    }
}

/// A fault of the bytes within the limit, as the fault of the longer input.
pub(crate) fn of_longer(max_bytes: usize, fault: WireFault, mut steps: Vec<PathStep>) -> RawError
    ensures { IfRawFault result (λ f. f ≡ beyond max_bytes (fault_with fault.byte (reverse steps.items) fault.cause)) }
{
    if let Cause::Truncated = fault.cause {
        steps.clear();
    }
    below(fault_beyond(max_bytes, fault), steps)
}

/// A fault of the first bytes of a longer input, as the fault of that input: their end is no end of a token.
pub(crate) fn fault_beyond(end: usize, fault: WireFault) -> WireFault
    ensures { (path : List PathStep) → result ≡ without_path (beyond end (fault_with fault.byte path fault.cause)) }
{
    match fault.cause {
        Cause::Truncated => refused(end, Cause::InputTooLarge),
        _ => fault,
    }
}
