//! The pairs of types that are reached, each once.

ghost use Rattle.std.specs.Prelude.{◌≡◌, ◌<◌, [], Some, length, slice_get, IfOk, OnOk, IfSome};
ghost use Rattle.std.specs.List.{AllByRecursion};
ghost use Rattle.pb_schema.specs.Names.{AllDiffer};
ghost use Rattle.pb_schema.specs.Types.{Types, message_fields};
ghost use Rattle.pb_compat.specs.Pairs.{leads, AreRising};
ghost use Rattle.pb_compat.specs.Walk.{pairs_of, steps_of, Adds, Follows, HasBegun, IsWithin};

use crate::difference::Step;
use indexmap::IndexSet;
use pb_schema::{MessageId, Pool};
use std::alloc::{AllocError, Global};

/// Pairs of a type of the old pool and one of the new pool, each once, with how it was reached first.
#[derive(Drop)]
pub(crate) struct Pairs {
    pub(crate) seen: IndexSet<(usize, usize)>,
    pub(crate) steps: Vec<Option<Step>>,
}

/// Where the fields of a number lead from two types, if both hold messages.
fn pair_at(
    old: &Pool,
    old_type: MessageId,
    new: &Pool,
    new_type: MessageId,
    number: u32,
) -> Option<(usize, usize)>
    requires old { old_type.0 < length old.now.messages }
    requires new { new_type.0 < length new.now.messages }
    ensures leads { result ≡ leads old.now new.now (old_type.0, new_type.0) number }
    ensures old { IfSome result (λ p. p.0 < length old.now.messages) }
    ensures new { IfSome result (λ p. p.1 < length new.now.messages) }
{
    let from = old.field_by_number(old_type, number)?.kind.message()?;
    let to = new.field_by_number(new_type, number)?.kind.message()?;
    Some((from.0, to.0))
}

impl Pairs {
    pub(crate) fn new(alloc: Global) -> Pairs
        ensures pairs { pairs_of result ≡ [] }
        ensures steps { steps_of result ≡ [] }
    {
        Pairs {
            seen: IndexSet::new(alloc),
            steps: Vec::new(alloc),
        }
    }

    /// The pairs where a comparison begins, which differ.
    pub(crate) fn begin(alloc: Global, starts: &[(usize, usize)]) -> Result<Pairs, AllocError>
        ensures { (old new : Types) → AllDiffer starts.now
            → AllByRecursion (IsWithin old new) starts.now
            → IfOk result (HasBegun old new starts.now (length starts.now)) }
    {
        let mut pairs = Pairs::new(alloc);
        for start in starts {
            pairs.add(*start, None)?;
        }
        Ok(pairs)
    }

    /// Adds a pair where it is new.
    pub(crate) fn add(&mut self, pair: (usize, usize), step: Option<Step>) -> Result<(), AllocError>
        ensures { OnOk result (Adds pair step self.old self.new) }
    {
        let (_, is_new) = self.seen.insert_full(pair)?;
        if is_new {
            self.steps.push(step)?;
        }
        Ok(())
    }

    /// Adds the pairs that the fields of some rising numbers lead to from two types, the pair at an index.
    pub(crate) fn follow(
        &mut self,
        old: &Pool,
        old_type: MessageId,
        new: &Pool,
        new_type: MessageId,
        index: usize,
        numbers: &[u32],
    ) -> Result<(), AllocError>
        requires old { old_type.0 < length old.now.messages }
        requires new { new_type.0 < length new.now.messages }
        requires rising { AreRising (message_fields old.now old_type.0) numbers.now }
        ensures { OnOk result (Follows old.now new.now index
            (old_type.0, new_type.0) numbers.now self.old self.new) }
    {
        for number in numbers {
            if let Some(pair) = pair_at(old, old_type, new, new_type, *number) {
                let step = Step {
                    from: index,
                    field: *number,
                };
                self.add(pair, Some(step))?;
            }
        }
        Ok(())
    }

    /// How many pairs there are.
    pub(crate) fn len(&self) -> usize
        ensures { result ≡ length (pairs_of self.now) }
    {
        self.seen.len()
    }

    /// The pair at an index.
    pub(crate) fn get(&self, index: usize) -> Option<(usize, usize)>
        ensures { result ≡ slice_get (pairs_of self.now) index }
    {
        self.seen.get_index(index).copied()
    }

    /// How the pair at an index was reached first.
    pub(crate) fn step(&self, index: usize) -> Option<Step>
        requires { index < length (steps_of self.now) }
        ensures { slice_get (steps_of self.now) index ≡ Some result }
    {
        self.steps[index]
    }
}
