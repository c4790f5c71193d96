//! Records of an input in turn, none of them copied.

ghost use Rattle.std.specs.Prelude.{if◌then◌else◌, ◌≡◌, ◌≢◌, ◌+◌, ◌-◌, ◌<◌, ◌≤◌, ◌++◌, ◌∷◌, ℕ, List, [], Ok, Err, Some, None, length, IfOk, IfErr};
ghost use Rattle.pb_wire.specs.Record.{Record};
ghost use Rattle.pb_wire.specs.Record as wire;
ghost use Rattle.pb_wire.specs.Exact.{Exactly, IsSomeText};
ghost use Rattle.pb_wire.specs.Fault.{Fault, HasTag, place};
ghost use Rattle.pb_wire.specs.Fault.{fault as fault_with};
ghost use Rattle.pb_wire.specs.Grammar.{Bad, RecordFault, IsText, HasFault, beyond};
ghost use Rattle.pb_wire.specs.Reading.{Front, ReadsValue};
ghost use Rattle.pb_wire.specs.RecordIter.{Seen, seen, AreShown, ShowsFront, Gives, all_ok, without_path, start, ShowsRecord, IsValueFault};
ghost use Rattle.pb_wire.specs.Schema.{blank, records, in_group};
ghost use Rattle.pb_wire.specs.WireType.{code_of};
ghost use Rattle.pb_wire.specs.declared.fault.PathStep.{PathStep};

use crate::fault::{Cause, WireFault};
use crate::limits::Limits;
use crate::open_groups::OpenGroups;
use crate::reading::{
    WireType, bytes_at, fault_beyond, refused, tag_at, u32_at, u64_at, varint_at,
};
use std::iter::FusedIterator;
use std::marker::Model;

/// A payload, whose bytes are a part of the source. A group is what lies between its tags.
#[derive(Clone, Copy, Debug, PartialEq, Eq)]
pub enum Payload<'a> {
    Varint(u64),
    I64(u64),
    Len(&'a [u8]),
    Group(&'a [u8]),
    I32(u32),
}

/// The records of an input in turn, up to its end or its first fault, and then that fault. It takes no memory.
///
/// The bytes after the first `max_bytes` are never read: after the records that are complete there comes
/// `InputTooLarge`, unless a fault other than `Truncated` shows before.
#[derive(Clone, Debug, Drop)]
pub struct RecordIter<'a> {
    bytes: &'a [u8],
    at: usize,
    max_depth: u8,
    is_cut: bool,
}

impl<'a> Model for RecordIter<'a> {
    ghost use Rattle.std.specs.Prelude.{◌≤◌, length};
    ghost use Rattle.pb_wire.specs.Rest.{Rest};

    ghost Value = { Rest };

    ghost view = { λ s. record { text = s.bytes.now; at = s.at; depth = s.max_depth; is_cut = s.is_cut } };

    ghost invariant = { λ s. (s.at ≤ length s.bytes.now) × (s.max_depth ≤ 100) };
}

impl<'a> RecordIter<'a> {
    /// The records of these bytes, within the limits. On a valid input they come all, in order. On other bytes the records before
    /// the fault come, and then it.
    pub fn new(bytes: &'a [u8], limits: Limits) -> RecordIter<'a>
        ensures begins { result ≡ start limits bytes.now }

        ensures text { (rs : List Record) → IsText blank tt limits bytes.now rs
            → (xs : List (ℕ × Seen)) × AreShown rs xs bytes.now × Gives result (all_ok xs) }
        ensures fault { (f : Fault) → HasFault blank tt limits bytes.now f
            → (xs : List (ℕ × Seen)) × ShowsFront xs bytes.now × Gives result (all_ok xs ++ Err (without_path f) ∷ []) }

        // One of the two is so.
        ensures settled { Exactly (IsSomeText blank tt limits bytes.now) (HasFault blank tt limits bytes.now) }
    {
        let end = bytes.len().min(limits.max_bytes() as usize);
        RecordIter {
            bytes: &bytes[..end],
            at: 0,
            max_depth: limits.max_depth(),
            is_cut: end < bytes.len(),
        }
    }
}

impl<'a> Iterator for RecordIter<'a> {
    type Item = Result<(u32, Payload<'a>), WireFault>;

    ghost use Rattle.std.specs.Prelude.{◌+◌, ◌-◌, length, if◌then◌else◌};
    ghost use Rattle.std.specs.Iterator.{at_most};
    ghost use Rattle.pb_wire.specs.RecordIter.{NextGives};

    ghost next_gives = { NextGives };

    ghost remaining = { λ s. at_most (length s.text - s.at + (if s.is_cut then 1 else 0)) };

    #[inline(always)]
    fn next(&mut self) -> Option<Result<(u32, Payload<'a>), WireFault>> {
        let end = self.bytes.len();
        let is_cut = self.is_cut;
        if self.at == end {
            if !is_cut {
                return None;
            }
            self.is_cut = false;
            return Some(Err(refused(end, Cause::InputTooLarge)));
        }
        match record_at(self.bytes, self.at, self.max_depth) {
            Ok((number, payload, after)) => {
                self.at = after;
                Some(Ok((number, payload)))
            }
            Err(fault) => {
                self.at = end;
                self.is_cut = false;
                Some(Err(fault_at_end(fault, is_cut, end)))
            }
        }
    }
}

impl<'a> FusedIterator for RecordIter<'a> {}

/// A fault of the bytes that are read, as a fault of the input. Where the input goes on after them, their end is no end
/// of a token.
fn fault_at_end(fault: WireFault, is_cut: bool, end: usize) -> WireFault
    ensures { (path : List PathStep) → result ≡ without_path (let f = fault_with fault.byte path fault.cause in if is_cut then beyond end f else f) }
{
    if is_cut {
        fault_beyond(end, fault)
    } else {
        fault
    }
}

/// Reads the record that begins at an index, and returns the index after it.
#[inline(always)]
fn record_at(bytes: &[u8], at: usize, max_depth: u8) -> Result<(u32, Payload<'_>, usize), WireFault>
    requires at_in_bounds { at ≤ length bytes.now }
    requires depth { max_depth ≤ 100 }
    ensures within { IfOk result (λ r. (at < r.2) × (r.2 ≤ length bytes.now)) }
    ensures ok { IfOk result (λ r. ShowsRecord max_depth (place bytes.now at) (r.0, seen r.1) (place bytes.now r.2)) }
    ensures fault { IfErr result (λ e. (path : List PathStep)
        × RecordFault blank (records tt) [] max_depth (place bytes.now at) (fault_with e.byte path e.cause)) }
{
    let (number, wire_type, start) = tag_at(bytes, at, None)?;
    match wire_type {
        WireType::Varint => {
            let (n, after) = varint_at(bytes, start)?;
            Ok((number, Payload::Varint(n), after))
        }
        WireType::I64 => {
            let (n, after) = u64_at(bytes, start)?;
            Ok((number, Payload::I64(n), after))
        }
        WireType::Len => {
            let (payload, after) = bytes_at(bytes, start)?;
            Ok((number, Payload::Len(payload), after))
        }
        WireType::StartGroup => {
            if max_depth == 0 {
                return Err(refused(at, Cause::TooDeep));
            }
            let (end, after) = group_end(bytes, start, number, max_depth)?;
            Ok((number, Payload::Group(&bytes[start..end]), after))
        }
        WireType::EndGroup => unreachable!(),
        WireType::I32 => {
            let (n, after) = u32_at(bytes, start)?;
            Ok((number, Payload::I32(n), after))
        }
    }
}

/// Finds the end tag of the group of this number whose inside begins at an index: where the tag begins and ends.
fn group_end(
    bytes: &[u8],
    start: usize,
    number: u32,
    max_depth: u8,
) -> Result<(usize, usize), WireFault>
    requires start_in_bounds { start ≤ length bytes.now }
    requires a_level { 0 < max_depth }
    requires depth { max_depth ≤ 100 }
    ensures within { IfOk result (λ r. (start ≤ r.0) × (r.0 < r.1) × (r.1 ≤ length bytes.now)) }
    ensures ok { IfOk result (λ r. (rs : List Record) × Front (max_depth - 1) (place bytes.now start) rs (place bytes.now r.0)
        × HasTag (place bytes.now r.0) number 4 (place bytes.now r.1)) }
    ensures fault { IfErr result (λ e. (path : List PathStep)
        × Bad blank (in_group number tt) (max_depth - 1) (place bytes.now start) (fault_with e.byte path e.cause)) }
{
    let mut groups = OpenGroups::new(number);
    let mut here = start;
    'records: loop {
        let (inside, wire_type, after) = tag_at(bytes, here, Some(groups.innermost()))?;
        match wire_type {
            WireType::EndGroup => {
                if groups.len() == 1 {
                    return Ok((here, after));
                }
                groups.pop();
                here = after;
            }
            WireType::StartGroup => {
                if groups.len() == max_depth as usize {
                    return Err(refused(here, Cause::TooDeep));
                }
                groups.push(inside);
                here = after;
            }
            _ => here = value_end(bytes, after, wire_type)?,
        }
    }
}

/// Finds the end of the value that begins at an index, after a tag that begins or ends no group.
#[inline(always)]
pub(crate) fn value_end(bytes: &[u8], at: usize, wire_type: WireType) -> Result<usize, WireFault>
    requires at_in_bounds { at ≤ length bytes.now }
    requires no_start { code_of wire_type ≢ 3 }
    requires no_end { code_of wire_type ≢ 4 }
    ensures within { IfOk result (λ end. (at ≤ end) × (end ≤ length bytes.now)) }
    ensures ok { IfOk result (λ end. (depth_left k : ℕ) → (payload : wire.Payload)
        × ReadsValue depth_left k (code_of wire_type) (place bytes.now at) payload (place bytes.now end)) }
    ensures fault { IfErr result (λ e. IsValueFault (code_of wire_type) (place bytes.now at) e) }
{
    match wire_type {
        WireType::Varint => Ok(varint_at(bytes, at)?.1),
        WireType::I64 => Ok(u64_at(bytes, at)?.1),
        WireType::Len => Ok(bytes_at(bytes, at)?.1),
        WireType::I32 => Ok(u32_at(bytes, at)?.1),
        WireType::StartGroup | WireType::EndGroup => unreachable!(),
    }
}
