//! Messages of the type with which a comparison began, that show that a difference between types nested in it breaks reading.

ghost use Rattle.std.specs.Prelude.{◌≡◌, ◌<◌, ◌&&◌, ℕ, true, Some, length, is_some, nat_lt, slice_get, IfOk, IfSome};
ghost use Rattle.pb_schema.specs.Types.{FieldView, message_fields, field_numbered};
ghost use Rattle.pb_value.specs.View.{body_view};
ghost use Rattle.pb_compat.specs.Agrees.{break_among};
ghost use Rattle.pb_compat.specs.Fields.{differences_at};
ghost use Rattle.pb_compat.specs.Nested.{AreLinked, IsReachedFrom, IsBuiltRound, IsFoundWhereNear, IsNestedWitness};
ghost use Rattle.pb_compat.specs.declared.difference.ComparedTypes.{ComparedTypes as Compared};

use crate::difference::ComparedTypes;
use crate::witnesses::{any_key, body_of, content_of, witness_body};
use pb_schema::{MessageId, Pool};
use pb_value::bodies::from_well_formed;
use pb_value::{Body, DynamicMessage, Value};
use std::alloc::{AllocError, Global};

/// The most fields that lead to a pair of which a break is shown: a message nests at most 100 levels below itself, and what shows the break nests
/// up to one.
const MAX_FIELDS: u8 = 99;

/// The body of a field alone that holds a message, or what shows that the field itself breaks.
fn body_round(
    alloc: Global,
    old: &Pool,
    old_type: MessageId,
    new: &Pool,
    new_type: MessageId,
    number: u32,
    inner: Body,
) -> Result<Body, AllocError>
    requires old { old_type.0 < length old.now.messages }
    requires new { new_type.0 < length new.now.messages }
    requires field { is_some (field_numbered number (message_fields old.now old_type.0)) ≡ true }
    ensures { IfOk result (λ b. IsBuiltRound old.now new.now old_type.0 new_type.0 number
        (body_view inner) (body_view b)) }
{
    if let Some(body) = witness_body(alloc, old, old_type, new, new_type, number)? {
        return Ok(body);
    }
    let Some(field) = old.field_by_number(old_type, number) else {
        return Ok(inner); // the type has the field
    };
    let key = any_key(alloc, old, field.shape)?;
    let content = content_of(alloc, field.shape, key, Value::Message(inner))?;
    Ok(body_of(alloc, number, content)?)
}

/// The type with which the comparison began, and the body of a message of it that holds what shows the break.
fn nested_body(
    alloc: Global,
    old: &Pool,
    new: &Pool,
    compared: &[ComparedTypes],
    index: usize,
    number: u32,
) -> Result<Option<(MessageId, Body)>, AllocError>
    requires linked { AreLinked old.now new.now compared.now }
    requires index { index < length compared.now }
    ensures shown { IfOk result
        (λ o. IfSome o (λ r. IsNestedWitness old.now new.now compared.now index r.0.0
        (body_view r.1))) }
    ensures within { IfOk result (λ o. IfSome o (λ r. r.0.0 < length old.now.messages)) }
    ensures exact { (c : Compared) (start : ℕ × ℕ) (n : ℕ) → slice_get compared.now index ≡ Some c
        → IsReachedFrom compared.now start n index
        → IfOk result (λ o. is_some o
        ≡ (break_among (differences_at old.now new.now c.old.0 c.new.0 number) && nat_lt n 100)) }
{
    let mut types = &compared[index];
    let found = witness_body(alloc, old, types.old, new, types.new, number)?;
    let Some(mut body) = found else {
        return Ok(None);
    };
    let mut fields = 0;
    while let Some(step) = types.reached_by {
        if fields == MAX_FIELDS {
            return Ok(None);
        }
        types = &compared[step.from];
        body = body_round(alloc, old, types.old, new, types.new, step.field, body)?;
        fields += 1;
    }
    Ok(Some((types.old, body)))
}

/// A message that shows, for the types with which a comparison began, that the difference at a field of the types at an index of it breaks
/// reading: a message of the old one whose canonical bytes are refused by the new one, or read as a message that does not agree with it.
///
/// It holds, in the fields by which the types were reached, the message that `witness` builds for these types; or, where one of these fields breaks
/// itself, what shows that, for the first that does.
///
/// There is one exactly where the difference breaks and the types can be reached by at most 99 fields, one in another: the steps of a comparison
/// are the fewest (`reachable`). No message holds one that is more than 100 levels down. Time and memory go by the fields that lead to the types, as for `witness` at each.
pub fn nested_witness<'p>(
    alloc: Global,
    old: &'p Pool,
    new: &Pool,
    compared: &[ComparedTypes],
    index: usize,
    number: u32,
) -> Result<Option<DynamicMessage<'p>>, AllocError>
    requires linked { AreLinked old.now new.now compared.now }
    requires index { index < length compared.now }
    ensures typed { IfOk result (λ o. IfSome o (λ w. w.pool ≡ old.now)) }
    ensures shown { IfOk result
        (λ o. IfSome o (λ w. IsNestedWitness old.now new.now compared.now index w.kind w.body)) }
    ensures exact { (c : Compared) (start : ℕ × ℕ) (n : ℕ) → slice_get compared.now index ≡ Some c
        → IsReachedFrom compared.now start n index
        → IfOk result (λ o. is_some o
        ≡ (break_among (differences_at old.now new.now c.old.0 c.new.0 number) && nat_lt n 100)) }
    ensures reachable { IfOk result
        (λ o. IsFoundWhereNear old.now new.now compared.now index number (is_some o)) }
{
    match nested_body(alloc, old, new, compared, index, number)? {
        Some((message_type, body)) => Ok(Some(from_well_formed(alloc, old, message_type, body))),
        None => Ok(None),
    }
}
