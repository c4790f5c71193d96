//! What a decoder has read so far: a stack of open parts, and what comes next.

ghost use Rattle.std.specs.Prelude.{◌≡◌, ◌∷◌, ◌+◌, ◌≤◌, ◌<◌, ◌^◌, vec_len, OnOk, IfSome};
ghost use Rattle.pb_decode_parts.specs.declared.tokens.step.Step.TheVariants.{Tag};
ghost use Rattle.pb_decode_parts.specs.Open.Openings.{innermost_group};
ghost use Rattle.pb_decode_parts.specs.Open.PartView.{parent_view};
ghost use Rattle.pb_decode.specs.Reader.{state_view, parents_view, left_of, weight};
ghost use Rattle.pb_decode.specs.Reader.Lengths.{PassesLength};

use crate::error::DecodeError;
use pb_decode_parts::{
    NoMemory, Parent, Part, Scope, Step, Target, begin_list, begin_payload, open_entry,
    open_message,
};
use std::alloc::Global;

/// How many bytes a step takes. There are none where the bytes end too early.
pub(crate) type Taken = Result<Option<usize>, DecodeError>;

/// What a decoder keeps between the bytes that it takes.
#[derive(Drop)]
pub(crate) struct State {
    /// How many bytes are taken.
    pub at: u32,
    /// What there is of the innermost part.
    pub part: Part,
    pub scope: Scope,
    /// The parts around it, outermost first.
    pub parents: Vec<Parent>,
    pub step: Step,
}

impl State {
    /// How many bytes are left before the known end of the innermost part.
    pub(crate) fn left(&self) -> Option<u32>
        ensures { result ≡ left_of (state_view self.now) }
    {
        self.scope.end.map(|end| end.saturating_sub(self.at))
    }

    /// The number of the group that is open innermost, if an end tag ends the open part there.
    #[inline(always)]
    pub(crate) fn innermost(&self) -> Option<u32>
        ensures group { result ≡ innermost_group (parents_view self.now.parents.items) }
        ensures inside { IfSome result (λ _. 0 < vec_len self.now.parents) }
    {
        match self.parents.last() {
            Some(parent) if parent.group => Some(parent.number),
            _ => None,
        }
    }

    /// What is opened is the innermost part, which begins at `at`; this is its parent.
    #[inline(always)]
    pub(crate) fn enter(&mut self, parent: Parent, at: u32) -> Result<(), NoMemory>
        ensures at { OnOk result ((self.new.at ≡ at) × (self.new.step ≡ Tag)) }
        ensures part { OnOk result ((self.new.part ≡ self.old.part) × (self.new.scope ≡ self.old.scope)) }
        ensures parents { OnOk result (parents_view self.new.parents.items ≡ parent_view parent ∷ parents_view self.old.parents.items) }
    {
        self.parents.push(parent)?;
        self.at = at;
        self.step = Step::Tag;
        Ok(())
    }

    /// After the length of a record: opens the message or the entry, or says that elements or a payload come next.
    pub(crate) fn advance_past_length(
        &mut self,
        alloc: Global,
        number: u32,
        target: Target,
        begin: u32,
        size: u32,
    ) -> Result<(), NoMemory>
        requires { begin + size < 2 ^ 32 }
        ensures at { OnOk result ((self.new.at ≡ begin) × (weight self.new.step ≤ 1)) }
        ensures reads { PassesLength number target begin size self.old self.new result }
    {
        let end = begin + size;
        match target {
            Target::Message(kind, slot) => {
                let part = &mut self.part;
                let scope = &mut self.scope;
                let parent = open_message(alloc, part, scope, number, kind, slot, end);
                self.enter(parent, begin)?;
                Ok(())
            }
            Target::Entry(key, value) => {
                let part = &mut self.part;
                let scope = &mut self.scope;
                let parent = open_entry(alloc, part, scope, number, key, value, end);
                self.enter(parent, begin)?;
                Ok(())
            }
            Target::Packed(kind) => {
                self.step = begin_list(&mut self.scope, number, kind, end);
                self.at = begin;
                Ok(())
            }
            _ => {
                self.step = begin_payload(number, target, size);
                self.at = begin;
                Ok(())
            }
        }
    }
}
