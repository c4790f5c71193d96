//! What ends where a reader is: a packed list, and the parts that end with it or at a tag.

ghost use Rattle.std.specs.Prelude.{◌≡◌, ◌↔◌, ◌+◌, ◌-◌, ◌<◌, ◌≤◌, ◌^◌, ℕ, List, Some, IsTrue, MatchBool, vec_len, OnOk};
ghost use Rattle.pb_decode_parts.specs.declared.tokens.step.Step.TheVariants.{Tag};
ghost use Rattle.pb_decode_parts.specs.Open.Occurrences.{counts_view};
ghost use Rattle.pb_decode.specs.Reader.{state_view, left_of, CanRead, weight};
ghost use Rattle.pb_decode.specs.Reader.Ended.{NothingEnds, PartEnds, PartGoesOn, EndsList, EndsPart};
ghost use Rattle.pb_decode.specs.Reader.Steps.{TellsFaultAnyway, KeepsReading};

use crate::error::DecodeError;
use crate::reader::state::State;
use pb_decode_parts::{NoMemory, Parent, Step, close_part, count_one};
use pb_decode_whole::reader::Reader;
use pb_wire::Cause;
use std::mem;

impl State {
    /// Whether the known end is reached.
    #[inline(always)]
    fn is_at_end(&self) -> bool
        ensures { IsTrue result ↔ (left_of (state_view self.now) ≡ Some 0) }
    {
        self.left() == Some(0)
    }

    /// Whether a part below the top ends at a tag.
    #[inline(always)]
    fn part_ends(&self) -> bool
        ensures { MatchBool result (PartEnds self.now) (PartGoesOn self.now) }
    {
        !self.parents.is_empty() && self.is_at_end()
    }

    /// A packed list whose known end is reached is a whole record of its part, which goes on to its own end.
    fn end_list(&mut self, number: u32, outer: Option<u32>) -> Result<(), NoMemory>
        requires few { counts_view self.old.scope.occurrences number < 2 ^ 32 - 1 }
        ensures at { OnOk result ((self.new.at ≡ self.old.at) × (self.new.step ≡ Tag)) }
        ensures taken { EndsList number outer self.old self.new result }
    {
        self.scope.end = outer;
        count_one(&mut self.scope, number)?;
        self.step = Step::Tag;
        Ok(())
    }

    /// Closes the innermost part: with this many bytes, a group's last tag, or with none at its known end. It goes where it belongs
    /// in its parent, where the reader then is.
    pub(crate) fn close_innermost(&mut self, by: &Reader<'_>, used: usize) -> Result<(), NoMemory>
        requires can { (rest : List ℕ) × CanRead by.now.pool.now self.old rest }
        requires tag { self.old.step ≡ Tag }
        requires inside { 0 < vec_len self.old.parents }
        requires fits { self.old.at + used < 2 ^ 32 }
        ensures at { OnOk result ((self.new.at ≡ self.old.at + used) × (self.new.step ≡ Tag)) }
        ensures fewer { OnOk result (vec_len self.new.parents < vec_len self.old.parents) }
        ensures closes { EndsPart by.now.pool.now self.old self.new used result }
    {
        let Some(parent) = self.parents.pop() else {
            unreachable!();
        };
        let Parent {
            part,
            number,
            slot,
            group: _,
            scope,
        } = parent;
        let inner = mem::replace(&mut self.part, part);
        self.scope = scope;
        self.at += used as u32;
        let outer = &mut self.part;
        let around = &mut self.scope;
        close_part(by.alloc, by.pool, outer, around, number, slot, inner)?;
        Ok(())
    }

    /// Closes the parts that end at a tag, innermost first. The top stays open.
    fn close_ended(&mut self, by: &Reader<'_>) -> Result<(), DecodeError>
        requires can { (rest : List ℕ) × CanRead by.now.pool.now self.old rest }
        requires tag { self.old.step ≡ Tag }
        ensures at { OnOk result ((self.new.at ≡ self.old.at) × (self.new.step ≡ Tag)) }
        ensures goes_on { OnOk result (PartGoesOn self.new) }
        ensures taken { KeepsReading by.now.pool.now self.old self.new result }
        ensures refused { TellsFaultAnyway by.now.pool.now self.old result }
    {
        while self.part_ends() {
            if self.innermost().is_some() {
                return Err(self.fault_at(by.alloc, self.at, Cause::PastEnd));
            }
            self.close_innermost(by, 0)?;
        }
        Ok(())
    }

    /// Closes all that ends here: a packed list, and then the parts that end with it, or those that end at a tag.
    #[inline(always)]
    pub(crate) fn take_ended(&mut self, by: &Reader<'_>) -> Result<(), DecodeError>
        requires can { (rest : List ℕ) × CanRead by.now.pool.now self.old rest }
        ensures at { OnOk result (self.new.at ≡ self.old.at) }
        ensures weight { OnOk result (weight self.new.step ≤ weight self.old.step) }
        ensures goes_on { OnOk result (NothingEnds (state_view self.new)) }
        ensures taken { KeepsReading by.now.pool.now self.old self.new result }
        ensures refused { TellsFaultAnyway by.now.pool.now self.old result }
    {
        match self.step {
            Step::Tag => {
                self.close_ended(by)?;
                Ok(())
            }
            Step::Elements(number, _, outer) => {
                if !self.is_at_end() {
                    return Ok(());
                }
                self.end_list(number, outer)?;
                self.close_ended(by)?;
                Ok(())
            }
            _ => Ok(()),
        }
    }
}
