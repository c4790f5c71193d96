//! The comparison of two types, and of all types that their fields lead to.

ghost use Rattle.std.specs.Prelude.{◌≡◌, ◌<◌, ℕ, [], ◌∷◌, Some, length, slice_get, IfOk, OnOk};
ghost use Rattle.std.specs.List.{AllByRecursion};
ghost use Rattle.pb_compat.specs.Namesakes.{namesakes as namesakes_of};
ghost use Rattle.pb_compat.specs.Nested.{AreLinked, IsReachedFrom};
ghost use Rattle.pb_compat.specs.Pairs.{types_of, AreDifferences, IsComparison, IsComparisonFrom};
ghost use Rattle.pb_compat.specs.Bounded.{Compares, IsWithinBound, Links, Exceeds};
ghost use Rattle.pb_compat.specs.Walk.{pairs_of, steps_of, FollowsAll, IsWithin};
ghost use Rattle.pb_compat.specs.Pairs.{AreRising};
ghost use Rattle.pb_schema.specs.Names.{AllDiffer};
ghost use Rattle.pb_schema.specs.Types.{message_fields};

use crate::difference::ComparedTypes;
use crate::differences::{differences_between, rising_numbers};
use crate::namesakes::namesakes;
use crate::pairs::Pairs;
use pb_schema::{MessageId, Pool};
use std::alloc::{AllocError, Global};

/// The numbers of the fields of a type, in rising order.
fn numbers_in(alloc: Global, pool: &Pool, message: MessageId) -> Result<Vec<u32>, AllocError>
    requires { message.0 < length pool.now.messages }
    ensures { IfOk result (λ v. AreRising (message_fields pool.now message.0) v.items) }
{
    rising_numbers(alloc, &pool.messages()[message.0].fields)
}

/// Compares the types of the pair at an index, and adds the pairs that their fields lead to.
fn compare_types(
    alloc: Global,
    old: &Pool,
    old_type: MessageId,
    new: &Pool,
    new_type: MessageId,
    index: usize,
    pairs: &mut Pairs,
) -> Result<ComparedTypes, AllocError>
    requires old { old_type.0 < length old.now.messages }
    requires new { new_type.0 < length new.now.messages }
    requires at { slice_get (pairs_of pairs.old) index ≡ Some (old_type.0, new_type.0) }
    requires size { index < length (steps_of pairs.old) }
    ensures types { IfOk result (λ c. types_of c ≡ (old_type.0, new_type.0)) }
    ensures step { IfOk result (λ c. slice_get (steps_of pairs.new) index ≡ Some c.reached_by) }
    ensures differences { IfOk result
        (λ c. AreDifferences old.now new.now old_type.0 new_type.0 c.differences.items) }
    ensures followed { OnOk result
        (FollowsAll old.now new.now index (old_type.0, new_type.0) pairs.old pairs.new) }
{
    let numbers = numbers_in(alloc, old, old_type)?;
    pairs.follow(old, old_type, new, new_type, index, &numbers)?;
    let differences = differences_between(alloc, old, old_type, new, new_type, &numbers)?;
    Ok(ComparedTypes {
        old: old_type,
        new: new_type,
        reached_by: pairs.step(index),
        differences,
    })
}

/// Compares the types of some pairs, and of all pairs that their fields lead to.
fn compare_pairs(
    alloc: Global,
    old: &Pool,
    new: &Pool,
    starts: &[(usize, usize)],
) -> Result<Vec<ComparedTypes>, AllocError>
    requires within { AllByRecursion (IsWithin old.now new.now) starts.now }
    requires differ { AllDiffer starts.now }
    ensures compared { IfOk result (λ v. IsComparisonFrom old.now new.now starts.now v.items) }
    ensures linked { IfOk result (λ v. AreLinked old.now new.now v.items) }
{
    let mut pairs = Pairs::begin(alloc, starts)?;
    let mut compared = Vec::new(alloc);
    while let Some((from, to)) = pairs.get(compared.len()) {
        let types = compare_types(
            alloc,
            old,
            MessageId(from),
            new,
            MessageId(to),
            compared.len(),
            &mut pairs,
        )?;
        compared.push(types)?;
    }
    Ok(compared)
}

/// Compares the types of some pairs, and of all pairs that their fields lead to; None if more than `max_pairs` are reached.
fn compare_few(
    alloc: Global,
    old: &Pool,
    new: &Pool,
    starts: &[(usize, usize)],
    max_pairs: usize,
) -> Result<Option<Vec<ComparedTypes>>, AllocError>
    requires within { AllByRecursion (IsWithin old.now new.now) starts.now }
    requires differ { AllDiffer starts.now }
    ensures compared { IfOk result (Compares old.now new.now starts.now) }
    ensures linked { IfOk result (Links old.now new.now) }
    ensures few { IfOk result (IsWithinBound max_pairs) }
    ensures many { IfOk result (Exceeds old.now new.now starts.now max_pairs) }
{
    let mut pairs = Pairs::begin(alloc, starts)?;
    let mut compared = Vec::new(alloc);
    while let Some((from, to)) = pairs.get(compared.len()) {
        let reached = pairs.len();
        if reached > max_pairs {
            return Ok(None);
        }
        let index = compared.len();
        let types = compare_types(
            alloc,
            old,
            MessageId(from),
            new,
            MessageId(to),
            index,
            &mut pairs,
        )?;
        compared.push(types)?;
    }
    Ok(Some(compared))
}

/// Compares a message type of an old pool with one of a new pool, and each pair of types that fields of the same number lead to if both
/// hold messages. Each pair is compared once, in the order in which it was reached first; the types given are the first pair.
///
/// It reports what happens to messages of the old type that are read as the new type (language guide, "Updating A Message Type"): of each
/// field of an old type what its change does, by rising field number, and then whether it is renamed. docs/COMPAT.md has the rules. The only
/// error is that memory is refused. The stack is bounded; time and memory go by the fields and oneofs of the pairs, and by the values of the
/// closed enums that fields of them have.
pub fn compare(
    alloc: Global,
    old: &Pool,
    old_type: MessageId,
    new: &Pool,
    new_type: MessageId,
) -> Result<Vec<ComparedTypes>, AllocError>
    requires old { old_type.0 < length old.now.messages }
    requires new { new_type.0 < length new.now.messages }
    ensures compared { IfOk result
        (λ v. IsComparison old.now new.now (old_type.0, new_type.0) v.items) }
    ensures linked { IfOk result (λ v. AreLinked old.now new.now v.items) }
    ensures began { IfOk result (λ v. (start : ℕ × ℕ) (n i : ℕ) → IsReachedFrom v.items start n i
        → start ≡ (old_type.0, new_type.0)) }
{
    compare_pairs(alloc, old, new, &[(old_type.0, new_type.0)])
}

/// Compares each message type of an old pool with that of the new pool that has its full name, and each pair of types that fields of the same
/// number lead to if both hold messages, as `compare` does. The types of the same names come first, in the order of the old pool. A type that
/// the new pool lacks is in no pair by its name: `namesake` finds none.
pub fn compare_all(alloc: Global, old: &Pool, new: &Pool) -> Result<Vec<ComparedTypes>, AllocError>
    ensures compared { IfOk result
        (λ v. IsComparisonFrom old.now new.now (namesakes_of old.now new.now) v.items) }
    ensures linked { IfOk result (λ v. AreLinked old.now new.now v.items) }
{
    let starts = namesakes(alloc, old, new)?;
    compare_pairs(alloc, old, new, &starts)
}

/// Compares two types, of the old pool and of the new one, as `compare` does; None if more than `max_pairs` pairs are reached. Until then it keeps
/// no more than these and those that the fields of one pair lead to. So the caller bounds the time and the memory that schemas of strangers take:
/// two of n types can reach n squared pairs.
pub fn compare_within(
    alloc: Global,
    old: &Pool,
    new: &Pool,
    types: (MessageId, MessageId),
    max_pairs: usize,
) -> Result<Option<Vec<ComparedTypes>>, AllocError>
    requires old { types.0.0 < length old.now.messages }
    requires new { types.1.0 < length new.now.messages }
    ensures compared { IfOk result (Compares old.now new.now ((types.0.0, types.1.0) ∷ [])) }
    ensures linked { IfOk result (Links old.now new.now) }
    ensures few { IfOk result (IsWithinBound max_pairs) }
    ensures many { IfOk result (Exceeds old.now new.now ((types.0.0, types.1.0) ∷ []) max_pairs) }
{
    compare_few(alloc, old, new, &[(types.0.0, types.1.0)], max_pairs)
}

/// Compares all types as `compare_all` does; None if more than `max_pairs` pairs are reached.
pub fn compare_all_within(
    alloc: Global,
    old: &Pool,
    new: &Pool,
    max_pairs: usize,
) -> Result<Option<Vec<ComparedTypes>>, AllocError>
    ensures compared { IfOk result (Compares old.now new.now (namesakes_of old.now new.now)) }
    ensures linked { IfOk result (Links old.now new.now) }
    ensures few { IfOk result (IsWithinBound max_pairs) }
    ensures many { IfOk result (Exceeds old.now new.now (namesakes_of old.now new.now) max_pairs) }
{
    let starts = namesakes(alloc, old, new)?;
    compare_few(alloc, old, new, &starts, max_pairs)
}
