//! Bytes judged as records, none of which is built.

ghost use Rattle.std.specs.Prelude.{◌≡◌, ◌≢◌, ◌+◌, ◌≤◌, ◌<◌, ◌^◌, List, [], Ok, None, length, IfOk, IfErr, OnOk, MatchResult, IsErrAnd};
ghost use Rattle.pb_wire.specs.Exact.{IsSomeText};
ghost use Rattle.pb_wire.specs.Fault.{Fault, step, place, HasTag};
ghost use Rattle.pb_wire.specs.Grammar.{HasFault};
ghost use Rattle.pb_wire.specs.Reading.{ReadsAll, ReadsValue, IfFault, IfRawFault, BadRecord, BadFrom};
ghost use Rattle.pb_wire.specs.Record.{Record, Payload};
ghost use Rattle.pb_wire.specs.Schema.{blank};
ghost use Rattle.pb_wire.specs.Sound.{AllSound};
ghost use Rattle.pb_wire.specs.Spell.{AreRecords};
ghost use Rattle.pb_wire.specs.WireType.{code_of};

use crate::fault::{Cause, PathStep, RawError, ReadError};
use crate::iter::{RecordIter, value_end};
use crate::limits::Limits;
use crate::reading::{WireType, below, is_at_end, of_longer, refused, tag_at};
use std::alloc::Global;

/// Judges bytes as `read_raw` does, without building the records: no memory is taken but for the path of a fault.
///
/// Fails with the first fault of the input, if it is no list of records within the limits, or where memory runs out for
/// the fault's path.
pub fn judge_raw(alloc: Global, bytes: &[u8], limits: Limits) -> Result<(), RawError>
    ensures text { IfOk result (λ _. IsSomeText blank tt limits bytes.now) }
    ensures fault { IfErr result (λ e. IfRawFault e (HasFault blank tt limits bytes.now)) }

    // Each encoding is accepted and each fault is reported, unless memory runs out.
    ensures accepted { IsSomeText blank tt limits bytes.now → MatchResult result (λ _. Unit {0}) (λ e. e ≡ RawError.Memory) }
    ensures refused { (f : Fault) → HasFault blank tt limits bytes.now f → IsErrAnd result (λ e. IfRawFault e (λ g. g ≡ f)) }
{
    judge_text(alloc, bytes, limits)
}

/// As `judge_raw`, said of what was answered.
fn judge_text(alloc: Global, bytes: &[u8], limits: Limits) -> Result<(), RawError>
    ensures ok { IfOk result (λ _. IsSomeText blank tt limits bytes.now) }
    ensures fault { IfErr result (λ e. IfRawFault e (HasFault blank tt limits bytes.now)) }
{
    let max_bytes = limits.max_bytes() as usize;
    let mut steps = Vec::new(alloc);
    if bytes.len() <= max_bytes {
        return match records_end(bytes, 0, None, limits.max_depth(), &mut steps) {
            Ok(_) => Ok(()),
            Err(ReadError::Memory) => Err(RawError::Memory),
            Err(ReadError::Fault(fault)) => Err(below(fault, steps)),
        };
    }
    match records_end(&bytes[..max_bytes], 0, None, limits.max_depth(), &mut steps) {
        Ok(_) => Err(RawError::Fault {
            byte: max_bytes as u64,
            path: Vec::new(alloc),
            cause: Cause::InputTooLarge,
        }),
        Err(ReadError::Memory) => Err(RawError::Memory),
        Err(ReadError::Fault(fault)) => Err(of_longer(max_bytes, fault, steps)),
    }
}

/// Finds the end of the records that begin at an index: the end of the bytes, or of the tag that ends the group of this
/// number. Where they have a fault, the steps to it from there are reported, the last of them first.
#[cycle(end)]
fn records_end(
    bytes: &[u8],
    at: usize,
    innermost: Option<u32>,
    depth_left: u8,
    steps: &mut Vec<PathStep>,
) -> Result<usize, ReadError>
    requires at_in_bounds { at ≤ length bytes.now }
    requires size { length bytes.now < 2 ^ 31 }
    requires depth { depth_left ≤ 100 }
    requires no_steps { steps.old.items ≡ [] }
    ensures within { IfOk result (λ end. (at ≤ end) × (end ≤ length bytes.now)) }
    ensures whole { innermost ≡ None → IfOk result (λ end. end ≡ length bytes.now) }
    ensures ok { IfOk result (λ end. (rs : List Record) × ReadsAll depth_left innermost (place bytes.now at) rs (place bytes.now end)) }
    ensures steps { OnOk result (steps.new.items ≡ []) }
    ensures fault { IfErr result (λ e. IfFault e (BadFrom depth_left innermost (place bytes.now at) steps.new.items)) }
{
    let mut here = at;
    'records: while !is_at_end(bytes, here, innermost) {
        let (number, wire_type, start) = tag_at(bytes, here, innermost)?;
        if let WireType::EndGroup = wire_type {
            return Ok(start);
        }
        match record_end(bytes, here, start, number, wire_type, depth_left, steps) {
            Ok(end) => here = end,
            Err(error) => {
                steps.push(step_behind(&bytes[at..here], number))?;
                return Err(error);
            }
        }
    }
    Ok(here)
}

/// Finds the end of the record whose tag begins at one index and ends at another. Where it has a fault, the steps to that
/// from within the record are reported, the last of them first.
#[cycle(end)]
fn record_end(
    bytes: &[u8],
    tag: usize,
    start: usize,
    number: u32,
    wire_type: WireType,
    depth_left: u8,
    steps: &mut Vec<PathStep>,
) -> Result<usize, ReadError>
    requires start_in_bounds { start ≤ length bytes.now }
    requires size { length bytes.now < 2 ^ 31 }
    requires depth { depth_left ≤ 100 }
    requires is_tag { HasTag (place bytes.now tag) number (code_of wire_type) (place bytes.now start) }
    requires no_end { code_of wire_type ≢ 4 }
    requires no_steps { steps.old.items ≡ [] }
    ensures within { IfOk result (λ end. (start ≤ end) × (end ≤ length bytes.now)) }
    ensures ok { IfOk result
        (λ end. (payload : Payload) × ReadsValue depth_left number (code_of wire_type) (place bytes.now start) payload (place bytes.now end)) }
    ensures steps { OnOk result (steps.new.items ≡ []) }
    ensures fault { IfErr result (λ e. IfFault e (BadRecord depth_left number (place bytes.now tag) steps.new.items)) }
{
    let WireType::StartGroup = wire_type else {
        return Ok(value_end(bytes, start, wire_type)?);
    };
    if depth_left == 0 {
        return Err(ReadError::Fault(refused(tag, Cause::TooDeep)));
    }
    let end = records_end(bytes, start, Some(number), depth_left - 1, steps)?;
    Ok(end)
}

/// The step to a record of this number after these bytes, which encode whole records.
fn step_behind(bytes: &[u8], number: u32) -> PathStep
    requires { length bytes.now < 2 ^ 31 }
    ensures { (rs : List Record) → AreRecords rs bytes.now → AllSound blank tt 100 rs → result ≡ step number rs }
{
    let mut occurrence = 0;
    for item in RecordIter::new(bytes, Limits::FULL) {
        let Ok((other, _)) = item else { break };
        if other == number {
            occurrence += 1;
        }
    }
    PathStep { number, occurrence }
}
