//! The pass that finds the fault of a message and the path to it. Nothing is built.

ghost use Rattle.std.specs.Prelude.{◌≡◌, ◌≢◌, ◌≤◌, ◌<◌, [], Some, None, true, false, length, IfOk, IfErr, OnOk, IfSome};
ghost use Rattle.pb_wire.specs.Exact.{IsOver};
ghost use Rattle.pb_wire.specs.Fault.{Place, HasTag};
ghost use Rattle.pb_wire.specs.Grammar.{Begins};
ghost use Rattle.pb_schema.specs.Context.{schema_of};
ghost use Rattle.pb_wire.specs.Scan.{here};
ghost use Rattle.pb_validate.specs.Contexts.{context_view};
ghost use Rattle.pb_validate.specs.Payloads.{ReadsPayload, MessageFault};
ghost use Rattle.pb_validate.specs.Whole.{AreWhole};
ghost use Rattle.pb_validate.specs.Judging.{open_view, CanJudge, ReadsRecords, ReadsOne, Refuses, RefusesRecords, RefusesRecord};

use crate::context::{Context, Reading, group_context, reading_of};
use crate::payload::{list_end, number_end, payload_at, text_end};
use crate::refusal::{Refusal, step_after};
use pb_schema::Pool;
use pb_wire::{Cause, PathStep, RecordTag, length_at, refused, tag_at};
use std::alloc::Global;

/// What is open innermost, in a message with the types of a pool.
#[derive(Clone, Copy)]
pub(crate) struct Scope<'p> {
    pub pool: &'p Pool,
    pub context: Context,
    /// The number of the group, if it is one.
    pub group: Option<u32>,
    /// How many levels are left below it.
    pub levels: u8,
    /// The index of its known end.
    pub to: Option<u32>,
}

/// Where something ends, or why it is refused.
type Ended = Result<usize, Refusal>;

impl Scope<'_> {
    /// Says that the records of what is open end at an index. Those of a group end at its end tag alone.
    #[inline(always)]
    fn is_at_end(&self, bytes: &[u8], at: usize) -> bool
        requires { at ≤ length bytes.now }
        ensures ends { result ≡ true → (self.now.group ≡ None) × IsOver (here bytes.now at self.now.to) }
        ensures goes_on { result ≡ false → self.now.group ≡ None → Begins (open_view self.now) (here bytes.now at self.now.to) }
    {
        if self.group.is_some() {
            return false;
        }
        match self.to {
            None => at == bytes.len(),
            Some(end) => at >= end as usize,
        }
    }

    /// The end of the records that begin at an index: their known end, the end of the bytes, or the end of the tag that ends the group.
    /// Where they have a fault, the steps to it are put in, the last of them first.
    #[cycle(end)]
    pub(crate) fn records_end(&self, bytes: &[u8], at: usize, steps: &mut Vec<PathStep>) -> Ended
        requires { CanJudge self.now bytes.now at steps.old.items }
        ensures within { IfOk result (λ end. (at ≤ end) × (end ≤ length bytes.now)) }
        ensures ok { IfOk result (λ end. ReadsRecords self.now (here bytes.now at self.now.to) (here bytes.now end self.now.to)) }
        ensures steps { OnOk result (steps.new.items ≡ []) }
        ensures fault { IfErr result (λ e. RefusesRecords self.now (here bytes.now at self.now.to) e steps.new.items) }
    {
        let mut here = at;
        'records: while !self.is_at_end(bytes, here) {
            let tag = tag_at(bytes, here, self.group, self.to)?;
            if tag.wire_type == 4 {
                return Ok(tag.end);
            }
            match self.record_end(bytes, tag, steps) {
                Ok(end) => here = end,
                Err(error) => {
                    steps.push(step_after(&bytes[at..here], tag.number))?;
                    return Err(error);
                }
            }
        }
        Ok(here)
    }

    /// The end of the record of a tag. Where it has a fault, the steps to that from within the record are put in, the last of them first.
    #[cycle(end)]
    fn record_end(&self, bytes: &[u8], tag: RecordTag, steps: &mut Vec<PathStep>) -> Ended
        requires can { CanJudge self.now bytes.now tag.end steps.old.items }
        requires is_tag { HasTag (here bytes.now tag.at self.now.to) tag.number tag.wire_type (here bytes.now tag.end self.now.to) }
        requires no_end { tag.wire_type ≢ 4 }
        ensures within { IfOk result (λ end. (tag.end ≤ end) × (end ≤ length bytes.now)) }
        ensures ok { IfOk result (λ end. ReadsOne self.now tag.number tag.wire_type (here bytes.now tag.end self.now.to) (here bytes.now end self.now.to)) }
        ensures steps { OnOk result (steps.new.items ≡ []) }
        ensures fault { IfErr result (λ e. RefusesRecord self.now tag.number (here bytes.now tag.at self.now.to) e steps.new.items) }
    {
        if tag.wire_type == 2 {
            self.payload_end(bytes, tag, steps)
        } else if tag.wire_type == 3 {
            if self.levels == 0 {
                return Err(Refusal::Fault(refused(tag.at, Cause::TooDeep)));
            }
            let inner = Scope {
                context: group_context(self.pool, self.context, tag.number),
                group: Some(tag.number),
                levels: self.levels - 1,
                ..*self
            };
            inner.records_end(bytes, tag.end, steps)
        } else {
            Ok(number_end(bytes, tag.end, tag.wire_type, self.to)?)
        }
    }

    /// As `record_end`, of a length and its payload.
    #[cycle(end)]
    fn payload_end(&self, bytes: &[u8], tag: RecordTag, steps: &mut Vec<PathStep>) -> Ended
        requires can { CanJudge self.now bytes.now tag.end steps.old.items }
        requires is_tag { HasTag (here bytes.now tag.at self.now.to) tag.number 2 (here bytes.now tag.end self.now.to) }
        ensures within { IfOk result (λ end. (tag.end ≤ end) × (end ≤ length bytes.now)) }
        ensures ok { IfOk result (λ end. ReadsOne self.now tag.number 2 (here bytes.now tag.end self.now.to) (here bytes.now end self.now.to)) }
        ensures steps { OnOk result (steps.new.items ≡ []) }
        ensures fault { IfErr result (λ e. RefusesRecord self.now tag.number (here bytes.now tag.at self.now.to) e steps.new.items) }
    {
        match reading_of(self.pool, self.context, tag.number) {
            Reading::Unread => Ok(payload_at(bytes, tag.end, self.to)?.1),
            Reading::Text => Ok(text_end(bytes, tag.end, self.to)?),
            Reading::Packed(element) => Ok(list_end(bytes, tag.end, element, self.to)?),
            Reading::Message(context) => {
                if self.levels == 0 {
                    return Err(Refusal::Fault(refused(tag.at, Cause::TooDeep)));
                }
                let inner = Scope {
                    context,
                    levels: self.levels - 1,
                    ..*self
                };
                inner.message_end(bytes, tag.end, steps)
            }
            Reading::SameLevel(context) => {
                Scope { context, ..*self }.message_end(bytes, tag.end, steps)
            }
        }
    }

    /// The end of the payload whose length begins at an index, which has the records of this scope: only the known end is that of what holds
    /// it. Where they have a fault, the steps to it are put in, the last of them first.
    #[cycle(end)]
    fn message_end(&self, bytes: &[u8], at: usize, steps: &mut Vec<PathStep>) -> Ended
        requires { CanJudge self.now bytes.now at steps.old.items }
        ensures within { IfOk result (λ end. (at ≤ end) × (end ≤ length bytes.now)) }
        ensures ok { IfOk result (λ end. ReadsPayload (AreWhole (schema_of self.now.pool.now) (context_view self.now.context) self.now.levels)
            (here bytes.now at self.now.to) (here bytes.now end self.now.to)) }
        ensures steps { OnOk result (steps.new.items ≡ []) }
        ensures fault { IfErr result (λ e. Refuses e steps.new.items
            (MessageFault (schema_of self.now.pool.now) (context_view self.now.context) self.now.levels (here bytes.now at self.now.to))) }
    {
        let (size, start) = length_at(bytes, at, self.to)?;
        let inner = Scope {
            group: None,
            to: Some((start + size) as u32),
            ..*self
        };
        inner.records_end(bytes, start, steps)
    }

    /// The end of the record of a tag. None where the record has a fault, for the path of which memory is taken.
    pub(crate) fn exact_end(&self, alloc: Global, bytes: &[u8], tag: RecordTag) -> Option<usize>
        requires can { CanJudge self.now bytes.now tag.end [] }
        requires is_tag { HasTag (here bytes.now tag.at self.now.to) tag.number tag.wire_type (here bytes.now tag.end self.now.to) }
        requires no_end { tag.wire_type ≢ 4 }
        ensures within { IfSome result (λ end. (tag.end ≤ end) × (end ≤ length bytes.now)) }
        ensures some { IfSome result (λ end. ReadsOne self.now tag.number tag.wire_type (here bytes.now tag.end self.now.to) (here bytes.now end self.now.to)) }
        ensures none { result ≡ None → (q : Place) → ReadsOne self.now tag.number tag.wire_type (here bytes.now tag.end self.now.to) q → ⊥ }
    {
        let mut steps = Vec::new(alloc);
        self.record_end(bytes, tag, &mut steps).ok()
    }
}
