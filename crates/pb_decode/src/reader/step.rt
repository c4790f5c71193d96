//! What comes next, token by token, and the faults that no other reader reports.

ghost use Rattle.std.specs.Prelude.{◌≡◌, ◌≢◌, ◌⊎◌, ◌+◌, ◌≤◌, ◌<◌, ℕ, List, [], Option, Some, drop, length, MatchBool, OnOk, IfOk, IfNone};
ghost use Rattle.pb_decode_parts.specs.declared.tokens.step.Step.TheVariants as steps;
ghost use Rattle.pb_decode_parts.specs.Tokens.After.{tag as tag_of, awaited};
ghost use Rattle.pb_decode_parts.specs.Tokens.Number.{IsNumberType};
ghost use Rattle.pb_decode.specs.Reader.{state_view, left_of, IsReading, CanRead, Passes};
ghost use Rattle.pb_decode.specs.Reader.Waiting.{Waits};
ghost use Rattle.pb_decode.specs.Reader.Ended.{NothingEnds};
ghost use Rattle.pb_decode.specs.Reader.Steps.{IsAtTag, TellsFault, TakesNext, TakesAll, PassesTag, TellsTagFault};
ghost use Rattle.pb_schema.specs.Rules.{IsPool};

use crate::error::DecodeError;
use crate::reader::state::{State, Taken};
use pb_decode_parts::{
    NoMemory, PayloadError, RecordTag, Step, Target, count_one, group_refusal, number_at,
    open_group, put_element, put_number, put_payload, tag_step, target_of,
};
use pb_decode_whole::reader::Reader;
use pb_schema::Kind;
use pb_wire::{Cause, Scanned, group_end, scan_length, scan_tag};

/// Whether no byte is left, in the input or before the known end.
fn is_spent(bytes: &[u8], left: Option<u32>) -> bool
    ensures { MatchBool result ((bytes.now ≡ []) ⊎ (left ≡ Some 0)) ((bytes.now ≢ []) × (left ≢ Some 0)) }
{
    bytes.is_empty() || left == Some(0)
}

impl State {
    /// Takes the number of a record.
    fn take_number(
        &mut self,
        by: &Reader<'_>,
        number: u32,
        wire_type: u8,
        target: Target,
        bytes: &[u8],
    ) -> Taken
        requires can { CanRead by.now.pool.now self.old bytes.now }
        requires number { IsNumberType wire_type }
        requires step { awaited self.old.step ≡ Some (tag_of number wire_type target) }
        ensures passes { IfOk result (λ o. Passes (state_view self.old) bytes.now (state_view self.new) o) }
        ensures taken { TakesNext by.now.pool.now self.old self.new bytes.now result }
        ensures waits { IfOk result (λ o. IfNone o (Waits (state_view self.new) bytes.now)) }
        ensures refused { TellsFault by.now.pool.now self.old bytes.now result }
    {
        match number_at(wire_type, bytes, self.left()) {
            Scanned::Whole(value, size) => {
                put_number(by.alloc, by.pool, &mut self.part, number, target, value)?;
                count_one(&mut self.scope, number)?;
                self.at += size as u32;
                self.step = Step::Tag;
                Ok(Some(size))
            }
            Scanned::Short => Ok(None),
            Scanned::Fault(cause) => Err(self.fault_at(by.alloc, self.at, cause)),
        }
    }

    /// Takes an element of a packed list.
    fn take_element(&mut self, by: &Reader<'_>, number: u32, kind: Kind, bytes: &[u8]) -> Taken
        requires can { CanRead by.now.pool.now self.old bytes.now }
        requires step { (outer : Option ℕ) × (self.old.step ≡ steps.Elements number kind outer) }
        requires goes_on { left_of (state_view self.old) ≢ Some 0 }
        ensures passes { IfOk result (λ o. Passes (state_view self.old) bytes.now (state_view self.new) o) }
        ensures taken { TakesNext by.now.pool.now self.old self.new bytes.now result }
        ensures waits { IfOk result (λ o. IfNone o (Waits (state_view self.new) bytes.now)) }
        ensures refused { TellsFault by.now.pool.now self.old bytes.now result }
    {
        match number_at(kind.wire_type(), bytes, self.left()) {
            Scanned::Whole(value, size) => {
                put_element(by.alloc, by.pool, &mut self.part, number, kind, value)?;
                self.at += size as u32;
                Ok(Some(size))
            }
            Scanned::Short => Ok(None),
            Scanned::Fault(cause) => Err(self.fault_at(by.alloc, self.at, cause)),
        }
    }

    /// Takes the length of a record.
    fn take_length(&mut self, by: &Reader<'_>, number: u32, target: Target, bytes: &[u8]) -> Taken
        requires can { CanRead by.now.pool.now self.old bytes.now }
        requires step { self.old.step ≡ steps.Length number target }
        ensures passes { IfOk result (λ o. Passes (state_view self.old) bytes.now (state_view self.new) o) }
        ensures taken { TakesNext by.now.pool.now self.old self.new bytes.now result }
        ensures waits { IfOk result (λ o. IfNone o (Waits (state_view self.new) bytes.now)) }
        ensures refused { TellsFault by.now.pool.now self.old bytes.now result }
    {
        match scan_length(bytes, self.left()) {
            Scanned::Whole(size, used) => {
                let begin = self.at + used as u32;
                self.advance_past_length(by.alloc, number, target, begin, size)?;
                Ok(Some(used))
            }
            Scanned::Short => Ok(None),
            Scanned::Fault(cause) => Err(self.fault_at(by.alloc, self.at, cause)),
        }
    }

    /// Takes the payload of a record, of this many bytes.
    fn take_payload(
        &mut self,
        by: &Reader<'_>,
        number: u32,
        target: Target,
        size: u32,
        bytes: &[u8],
    ) -> Taken
        requires can { CanRead by.now.pool.now self.old bytes.now }
        requires step { self.old.step ≡ steps.Payload number target size }
        ensures passes { IfOk result (λ o. Passes (state_view self.old) bytes.now (state_view self.new) o) }
        ensures taken { TakesNext by.now.pool.now self.old self.new bytes.now result }
        ensures waits { IfOk result (λ o. IfNone o (Waits (state_view self.new) bytes.now)) }
        ensures refused { TellsFault by.now.pool.now self.old bytes.now result }
    {
        let wanted = size as usize;
        if bytes.len() < wanted {
            return Ok(None);
        }
        let payload = &bytes[..wanted];
        match put_payload(by.alloc, by.pool, &mut self.part, number, target, payload) {
            Ok(()) => {
                count_one(&mut self.scope, number)?;
                self.at += size;
                self.step = Step::Tag;
                Ok(Some(wanted))
            }
            Err(PayloadError::BadText(valid)) => {
                let byte = self.at + valid as u32;
                Err(self.fault_at(by.alloc, byte, Cause::BadText))
            }
            Err(PayloadError::Memory) => Err(DecodeError::Memory),
        }
    }

    /// Opens the group of a tag, where a level is left: as the message of its field, or as unknown records.
    pub(crate) fn enter_group(&mut self, by: &Reader<'_>, tag: RecordTag) -> Result<(), NoMemory>
        requires at_tag { (rest : List ℕ) × IsAtTag by.now.pool.now self.old rest tag }
        requires start { tag.wire_type ≡ 3 }
        requires level { 0 < self.old.scope.depth_left }
        ensures at { OnOk result ((self.new.at ≡ self.old.at + tag.size) × (self.new.step ≡ steps.Tag)) }
        ensures reads { PassesTag by.now.pool.now self.old self.new tag result }
    {
        let meant = target_of(by.pool, &self.part, tag.number, 3);
        let begin = self.at + tag.size as u32;
        let part = &mut self.part;
        let scope = &mut self.scope;
        let parent = open_group(by.alloc, part, scope, tag.number, meant);
        self.enter(parent, begin)?;
        Ok(())
    }

    /// After a tag what it begins is begun, or the group that it ends is closed.
    fn advance_past_tag(&mut self, by: &Reader<'_>, tag: RecordTag) -> Result<(), DecodeError>
        requires at_tag { (rest : List ℕ) × IsAtTag by.now.pool.now self.old rest tag }
        requires known { tag.wire_type < 6 }
        ensures at { OnOk result (self.new.at ≡ self.old.at + tag.size) }
        ensures reads { PassesTag by.now.pool.now self.old self.new tag result }
        ensures refused { TellsTagFault by.now.pool.now self.old tag result }
    {
        if tag.wire_type == 3 {
            if let Some(cause) = group_refusal(self.scope.depth_left) {
                return Err(self.fault_inside(by.alloc, tag.number, cause));
            }
            self.enter_group(by, tag)?;
            Ok(())
        } else if tag.wire_type == 4 {
            match group_end(self.innermost(), tag.number) {
                Ok(()) => {
                    self.close_innermost(by, tag.size)?;
                    Ok(())
                }
                Err(cause) => Err(self.fault_at(by.alloc, self.at, cause)),
            }
        } else {
            let levels = self.scope.depth_left;
            match tag_step(by.pool, &self.part, levels, tag.number, tag.wire_type) {
                Some(step) => {
                    self.at += tag.size as u32;
                    self.step = step;
                    Ok(())
                }
                None => Err(self.fault_inside(by.alloc, tag.number, Cause::TooDeep)),
            }
        }
    }

    /// Takes the tag of a record, or the last tag of a group. At the top with nothing left there is none.
    fn take_tag(&mut self, by: &Reader<'_>, bytes: &[u8]) -> Taken
        requires can { CanRead by.now.pool.now self.old bytes.now }
        requires step { self.old.step ≡ steps.Tag }
        requires goes_on { NothingEnds (state_view self.old) }
        ensures passes { IfOk result (λ o. Passes (state_view self.old) bytes.now (state_view self.new) o) }
        ensures taken { TakesNext by.now.pool.now self.old self.new bytes.now result }
        ensures waits { IfOk result (λ o. IfNone o (Waits (state_view self.new) bytes.now)) }
        ensures refused { TellsFault by.now.pool.now self.old bytes.now result }
    {
        if is_spent(bytes, self.left()) {
            return Ok(None);
        }
        match scan_tag(bytes, self.left()) {
            Scanned::Whole(parts, size) => {
                let tag = RecordTag {
                    number: parts.number,
                    wire_type: parts.wire_type,
                    size,
                };
                self.advance_past_tag(by, tag)?;
                Ok(Some(size))
            }
            Scanned::Short => Ok(None),
            Scanned::Fault(cause) => Err(self.fault_at(by.alloc, self.at, cause)),
        }
    }

    /// Takes what comes next, where nothing ends before it.
    fn take_open(&mut self, by: &Reader<'_>, bytes: &[u8]) -> Taken
        requires can { CanRead by.now.pool.now self.old bytes.now }
        requires goes_on { NothingEnds (state_view self.old) }
        ensures passes { IfOk result (λ o. Passes (state_view self.old) bytes.now (state_view self.new) o) }
        ensures taken { TakesNext by.now.pool.now self.old self.new bytes.now result }
        ensures waits { IfOk result (λ o. IfNone o (Waits (state_view self.new) bytes.now)) }
        ensures refused { TellsFault by.now.pool.now self.old bytes.now result }
    {
        match self.step {
            Step::Tag => self.take_tag(by, bytes),
            Step::Varint(number, target) => self.take_number(by, number, 0, target, bytes),
            Step::I64(number, target) => self.take_number(by, number, 1, target, bytes),
            Step::I32(number, target) => self.take_number(by, number, 5, target, bytes),
            Step::Length(number, target) => self.take_length(by, number, target, bytes),
            Step::Payload(number, target, size) => {
                self.take_payload(by, number, target, size, bytes)
            }
            Step::Elements(number, kind, _) => self.take_element(by, number, kind, bytes),
        }
    }

    /// Takes all that is complete at the start of the bytes, and how many bytes that are. Records and elements that are complete one after
    /// another are taken at once, and what ends is closed; what then comes next is taken token by token.
    pub(crate) fn take_all(&mut self, by: &Reader<'_>, bytes: &[u8]) -> Result<usize, DecodeError>
        requires rules { IsPool by.now.pool.now }
        requires reading { IsReading by.now.pool.now (state_view self.old) bytes.now }
        ensures passes { IfOk result (λ n. (n ≤ length bytes.now) × (self.new.at ≡ self.old.at + n)) }
        ensures taken { TakesAll by.now.pool.now self.old self.new bytes.now result }
        ensures waits { IfOk result (λ n. Waits (state_view self.new) (drop n bytes.now)) }
        ensures refused { TellsFault by.now.pool.now self.old bytes.now result }
    {
        let mut here = 0;
        loop {
            let ahead = self.take_many(by, &bytes[here..])?;
            here += ahead;
            let Some(size) = self.take_open(by, &bytes[here..])? else {
                return Ok(here);
            };
            here += size;
        }
    }
}
