//! What is complete in the bytes is taken at once: records, elements of packed lists, and the tags and lengths that open or end
//! messages, entries, lists and groups. A message or a map entry is read by `pb_decode_whole` and goes into its slot without being opened.

ghost use Rattle.std.specs.Prelude.{◌≡◌, true, ◌+◌, ◌*◌, ◌≤◌, ℕ, Option, length, OnOk, IfOk, IfNone};
ghost use Rattle.pb_decode_parts.specs.declared.open.target.Target.TheVariants as targets;
ghost use Rattle.pb_decode_parts.specs.declared.tokens.step.Step.TheVariants.{Tag, Elements};
ghost use Rattle.pb_decode_parts.specs.Values.PayloadValue.{IsBytesTarget};
ghost use Rattle.pb_decode_parts.specs.Tokens.Number.{IsNumberType};
ghost use Rattle.pb_decode.specs.Reader.{state_view, weight, CanRead};
ghost use Rattle.pb_decode.specs.Reader.Ended.{NothingEnds};
ghost use Rattle.pb_decode.specs.Reader.Steps.{IsAtTag, IsAtLengthTag, TellsFault, PassesWhole, TakesWhole, TakesMany};

use crate::error::DecodeError;
use crate::reader::state::State;
use pb_decode_parts::{
    Entry, NoMemory, Part, PayloadError, RecordTag, Slot, Step, Target, close_part, count_one,
    depth_left_in, has_level, is_free, number_at, put_number, put_payload, put_run, read_run,
    record_tag, target_of,
};
use pb_decode_whole::reader::{Left, Reader};
use pb_decode_whole::tokens::{length_after, payload_after};
use pb_schema::{Kind, MessageId};
use pb_value::bodies::empty_body;
use pb_wire::{Scanned, group_end, left_after};

/// How many bytes are taken at once. There are none where the bytes end too early, and where only the reader of tokens goes on.
type TakenWhole = Result<Option<usize>, NoMemory>;

/// Says that a record with this target has its payload's bytes for its value, or is unknown.
fn is_for_bytes(target: Target) -> bool
    ensures { result ≡ true → IsBytesTarget target }
{
    match target {
        Target::Packed(_) | Target::Message(_, _) | Target::Entry(_, _) => false,
        _ => true,
    }
}

impl State {
    /// Takes the record of a number, after whose tag the number is complete.
    fn take_number_record(&mut self, by: &Reader<'_>, tag: RecordTag, bytes: &[u8]) -> TakenWhole
        requires at_tag { IsAtTag by.now.pool.now self.old bytes.now tag }
        requires number { IsNumberType tag.wire_type }
        ensures passes { IfOk result (PassesWhole tag.size self.old self.new bytes.now) }
        ensures taken { TakesWhole by.now.pool.now self.old self.new bytes.now result }
    {
        let after = left_after(self.left(), tag.size);
        match number_at(tag.wire_type, &bytes[tag.size..], after) {
            Scanned::Whole(value, size) => {
                let target = target_of(by.pool, &self.part, tag.number, tag.wire_type);
                put_number(by.alloc, by.pool, &mut self.part, tag.number, target, value)?;
                count_one(&mut self.scope, tag.number)?;
                let used = tag.size + size;
                self.at += used as u32;
                Ok(Some(used))
            }
            Scanned::Short => Ok(None),
            Scanned::Fault(_) => Ok(None),
        }
    }

    /// Takes the record of bytes, after whose tag its payload is complete.
    fn take_bytes_record(
        &mut self,
        by: &Reader<'_>,
        tag: RecordTag,
        target: Target,
        bytes: &[u8],
    ) -> TakenWhole
        requires at { IsAtLengthTag by.now.pool.now self.old bytes.now tag target }
        requires target { IsBytesTarget target }
        ensures passes { IfOk result (PassesWhole tag.size self.old self.new bytes.now) }
        ensures taken { TakesWhole by.now.pool.now self.old self.new bytes.now result }
    {
        let Some((start, size)) = payload_after(tag.size, bytes, self.left()) else {
            return Ok(None);
        };
        let end = start + size as usize;
        let number = tag.number;
        let payload = &bytes[start..end];
        match put_payload(by.alloc, by.pool, &mut self.part, number, target, payload) {
            Ok(()) => {
                count_one(&mut self.scope, number)?;
                self.at += end as u32;
                Ok(Some(end))
            }
            Err(PayloadError::BadText(_)) => Ok(None),
            Err(PayloadError::Memory) => Err(NoMemory),
        }
    }

    /// Takes the message after whose tag its payload is complete, if its slot is free. If the payload was read and is no message, or memory
    /// was refused, `by_tokens` is set.
    fn take_message(
        &mut self,
        by: &Reader<'_>,
        tag: RecordTag,
        message_type: MessageId,
        slot: Slot,
        by_tokens: &mut bool,
        bytes: &[u8],
    ) -> TakenWhole
        requires { IsAtLengthTag by.now.pool.now self.old bytes.now tag (targets.Message message_type slot) }
        ensures passes { IfOk result (PassesWhole tag.size self.old self.new bytes.now) }
        ensures none { IfOk result (λ o. IfNone o (self.new ≡ self.old)) }
        ensures taken { TakesWhole by.now.pool.now self.old self.new bytes.now result }
    {
        if !has_level(self.scope.depth_left, Target::Message(message_type, slot)) {
            return Ok(None);
        }
        if !is_free(&self.part, slot) {
            return Ok(None);
        }
        let Some((start, size)) = payload_after(tag.size, bytes, self.left()) else {
            return Ok(None);
        };
        let end = start + size as usize;
        let mut inner = Part::Message(message_type, empty_body(by.alloc));
        let within = Left {
            remaining: size,
            depth_left: depth_left_in(slot, self.scope.depth_left),
        };
        let Ok(()) = by.read_records(&mut inner, &bytes[start..], within) else {
            *by_tokens = true;
            return Ok(None);
        };
        let outer = &mut self.part;
        let around = &mut self.scope;
        close_part(by.alloc, by.pool, outer, around, tag.number, slot, inner)?;
        self.at += end as u32;
        Ok(Some(end))
    }

    /// Takes the map entry after whose tag its payload is complete, as `take_message` does.
    fn take_entry(
        &mut self,
        by: &Reader<'_>,
        tag: RecordTag,
        key_kind: Kind,
        value_kind: Kind,
        by_tokens: &mut bool,
        bytes: &[u8],
    ) -> TakenWhole
        requires { IsAtLengthTag by.now.pool.now self.old bytes.now tag (targets.Entry key_kind value_kind) }
        ensures passes { IfOk result (PassesWhole tag.size self.old self.new bytes.now) }
        ensures none { IfOk result (λ o. IfNone o (self.new ≡ self.old)) }
        ensures taken { TakesWhole by.now.pool.now self.old self.new bytes.now result }
    {
        if self.scope.depth_left == 0 {
            return Ok(None);
        }
        let Some((start, size)) = payload_after(tag.size, bytes, self.left()) else {
            return Ok(None);
        };
        let end = start + size as usize;
        let mut entry = Part::Entry(Entry {
            key_kind,
            value_kind,
            key: None,
            value: None,
        });
        let within = Left {
            remaining: size,
            depth_left: self.scope.depth_left - 1,
        };
        let Ok(()) = by.read_entry(&mut entry, &bytes[start..], within) else {
            *by_tokens = true;
            return Ok(None);
        };
        let slot = Slot::Map(tag.number);
        let outer = &mut self.part;
        let around = &mut self.scope;
        close_part(by.alloc, by.pool, outer, around, tag.number, slot, entry)?;
        self.at += end as u32;
        Ok(Some(end))
    }

    /// Opens the message, the entry or the packed list of a record, where a level is left for it.
    fn take_opening(
        &mut self,
        by: &Reader<'_>,
        tag: RecordTag,
        target: Target,
        bytes: &[u8],
    ) -> TakenWhole
        requires { IsAtLengthTag by.now.pool.now self.old bytes.now tag target }
        ensures passes { IfOk result (PassesWhole tag.size self.old self.new bytes.now) }
        ensures taken { TakesWhole by.now.pool.now self.old self.new bytes.now result }
    {
        if !has_level(self.scope.depth_left, target) {
            return Ok(None);
        }
        let Some((start, size)) = length_after(tag.size, bytes, self.left()) else {
            return Ok(None);
        };
        let begin = self.at + start as u32;
        self.advance_past_length(by.alloc, tag.number, target, begin, size)?;
        Ok(Some(start))
    }

    /// Takes the message or the entry of a record at once, unless all is to be read by tokens.
    fn take_inner(
        &mut self,
        by: &Reader<'_>,
        tag: RecordTag,
        target: Target,
        by_tokens: &mut bool,
        bytes: &[u8],
    ) -> TakenWhole
        requires { IsAtLengthTag by.now.pool.now self.old bytes.now tag target }
        ensures passes { IfOk result (PassesWhole tag.size self.old self.new bytes.now) }
        ensures none { IfOk result (λ o. IfNone o (self.new ≡ self.old)) }
        ensures taken { TakesWhole by.now.pool.now self.old self.new bytes.now result }
    {
        if *by_tokens {
            return Ok(None);
        }
        match target {
            Target::Message(message_type, slot) => {
                self.take_message(by, tag, message_type, slot, by_tokens, bytes)
            }
            Target::Entry(key_kind, value_kind) => {
                self.take_entry(by, tag, key_kind, value_kind, by_tokens, bytes)
            }
            _ => Ok(None),
        }
    }

    /// Takes the record of a length whose payload is complete after its tag, or opens what it opens. A record is opened too where its
    /// payload was read and is none: it has a fault, or memory was refused, and from there on all is read token by token, so that no
    /// byte is read twice at once.
    fn take_length_record(
        &mut self,
        by: &Reader<'_>,
        tag: RecordTag,
        by_tokens: &mut bool,
        bytes: &[u8],
    ) -> TakenWhole
        requires at_tag { IsAtTag by.now.pool.now self.old bytes.now tag }
        requires bytes { tag.wire_type ≡ 2 }
        ensures passes { IfOk result (PassesWhole tag.size self.old self.new bytes.now) }
        ensures taken { TakesWhole by.now.pool.now self.old self.new bytes.now result }
    {
        let target = target_of(by.pool, &self.part, tag.number, 2);
        if is_for_bytes(target) {
            return self.take_bytes_record(by, tag, target, bytes);
        }
        match self.take_inner(by, tag, target, by_tokens, bytes)? {
            Some(size) => Ok(Some(size)),
            None => self.take_opening(by, tag, target, bytes),
        }
    }

    /// Opens the group whose first tag is there, where a level is left for it, or closes the innermost one, whose last tag is there. Only
    /// reading finds the end of a group, so it is not read at once.
    fn take_group_tag(&mut self, by: &Reader<'_>, tag: RecordTag, bytes: &[u8]) -> TakenWhole
        requires at_tag { IsAtTag by.now.pool.now self.old bytes.now tag }
        ensures passes { IfOk result (PassesWhole tag.size self.old self.new bytes.now) }
        ensures taken { TakesWhole by.now.pool.now self.old self.new bytes.now result }
    {
        if tag.wire_type == 3 {
            if self.scope.depth_left == 0 {
                return Ok(None);
            }
            self.enter_group(by, tag)?;
            Ok(Some(tag.size))
        } else if tag.wire_type == 4 {
            let Ok(()) = group_end(self.innermost(), tag.number) else {
                return Ok(None);
            };
            self.close_innermost(by, tag.size)?;
            Ok(Some(tag.size))
        } else {
            Ok(None)
        }
    }

    /// Takes the record at the start of the bytes, or opens or closes what its tag and its length open or close.
    fn take_record(&mut self, by: &Reader<'_>, by_tokens: &mut bool, bytes: &[u8]) -> TakenWhole
        requires can { CanRead by.now.pool.now self.old bytes.now }
        requires step { self.old.step ≡ Tag }
        ensures passes { IfOk result (PassesWhole 1 self.old self.new bytes.now) }
        ensures taken { TakesWhole by.now.pool.now self.old self.new bytes.now result }
    {
        let Some(tag) = record_tag(bytes, self.left()) else {
            return Ok(None);
        };
        if tag.wire_type == 2 {
            self.take_length_record(by, tag, by_tokens, bytes)
        } else if tag.wire_type == 0 || tag.wire_type == 1 || tag.wire_type == 5 {
            self.take_number_record(by, tag, bytes)
        } else {
            self.take_group_tag(by, tag, bytes)
        }
    }

    /// Takes the elements that are complete at the start of the bytes, if there are any.
    fn take_run(&mut self, by: &Reader<'_>, number: u32, kind: Kind, bytes: &[u8]) -> TakenWhole
        requires can { CanRead by.now.pool.now self.old bytes.now }
        requires step { (outer : Option ℕ) × (self.old.step ≡ Elements number kind outer) }
        ensures passes { IfOk result (PassesWhole 1 self.old self.new bytes.now) }
        ensures taken { TakesWhole by.now.pool.now self.old self.new bytes.now result }
    {
        let (run, size) = read_run(by.alloc, by.pool, number, kind, bytes, self.left())?;
        if size == 0 {
            return Ok(None);
        }
        put_run(by.alloc, &mut self.part, number, run)?;
        self.at += size as u32;
        Ok(Some(size))
    }

    /// Takes what is complete at the start of the bytes: a record or what opens one, the end of a group, or elements.
    fn take_whole(&mut self, by: &Reader<'_>, by_tokens: &mut bool, bytes: &[u8]) -> TakenWhole
        requires can { CanRead by.now.pool.now self.old bytes.now }
        ensures passes { IfOk result (PassesWhole 1 self.old self.new bytes.now) }
        ensures taken { TakesWhole by.now.pool.now self.old self.new bytes.now result }
    {
        match self.step {
            Step::Tag => self.take_record(by, by_tokens, bytes),
            Step::Elements(number, kind, _) => self.take_run(by, number, kind, bytes),
            _ => Ok(None),
        }
    }

    /// Takes all that is complete at the start of the bytes, one after another, and how many bytes that are. What ends there is closed,
    /// and a byte that is refused stays where it is.
    pub(crate) fn take_many(&mut self, by: &Reader<'_>, bytes: &[u8]) -> Result<usize, DecodeError>
        requires can { CanRead by.now.pool.now self.old bytes.now }
        ensures passes { IfOk result (λ n. (n ≤ length bytes.now) × (self.new.at ≡ self.old.at + n)
            × (weight self.new.step ≤ 2 * n + weight self.old.step)) }
        ensures goes_on { OnOk result (NothingEnds (state_view self.new)) }
        ensures taken { TakesMany by.now.pool.now self.old self.new bytes.now result }
        ensures refused { TellsFault by.now.pool.now self.old bytes.now result }
    {
        let mut here = 0;
        let mut by_tokens = false;
        loop {
            self.take_ended(by)?;
            let Some(size) = self.take_whole(by, &mut by_tokens, &bytes[here..])? else {
                return Ok(here);
            };
            here += size;
        }
    }
}
