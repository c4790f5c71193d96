//! Scalars of a message whose canonical bytes are held, found in these.

ghost use Rattle.std.specs.Prelude.{◌≡◌, ◌<◌, List, length, map, IfOk, IfSome, Some};
ghost use Rattle.pb_value.specs.Data.{scalar};
ghost use Rattle.pb_place.specs.At.{single};
ghost use Rattle.pb_find.specs.View.{scalar_view};
ghost use Rattle.pb_c_message.specs.Answers.{Answers, IsAt, bytes_in, plain_in};
ghost use Rattle.pb_c_message.specs.Places.{Bytes, field, places, said};
ghost use Rattle.pb_c_message.specs.Holds.{IsHeld, message_held};

use crate::held::Held;
use crate::miss::Miss;
use crate::place::uint32_said;
use crate::scalar::scalar_value;
use crate::value::{FIELD, PlainValue};
use pb_find::{ScalarRef, find};
use pb_schema::{MessageId, Pool};
use pb_wire::Limits;
use std::alloc::Global;

/// The number of the field that a step is.
pub(crate) fn field_said(step: PlainValue) -> Option<u32>
    ensures { IfSome result (λ n. (keys : List Bytes) → said keys step ≡ Some (field n)) }
{
    if step.kind == FIELD {
        uint32_said(step.number)
    } else {
        None
    }
}

/// The numbers of the fields that the steps of a place lead through, if each step is a field.
fn numbers_of(alloc: Global, place: &[PlainValue]) -> Result<Option<Vec<u32>>, Miss>
    ensures { IfOk result (λ o. IfSome o (λ ns. (keys : List Bytes)
        → places keys place.now ≡ Some (map field ns.items))) }
{
    let mut numbers = Vec::new(alloc);
    for step in place {
        let Some(number) = field_said(*step) else {
            return Ok(None);
        };
        numbers.push(number)?;
    }
    Ok(Some(numbers))
}

/// The scalar at a place of a message whose bytes are held, where the place leads through fields of one value. Of other places, and where
/// nothing is there, nothing is said.
fn scalar_held<'a>(
    alloc: Global,
    pool: &Pool,
    message_type: MessageId,
    held: &'a Held,
    place: &[PlainValue],
) -> Option<ScalarRef<'a>>
    requires within { message_type.0 < length pool.now.messages }
    requires held { IsHeld pool.now message_type.0 held.now }
    ensures { IfSome result (λ x. (keys : List Bytes)
        → IsAt keys place.now (message_held pool.now message_type.0 held.now)
        (Some (single (scalar (scalar_view x))))) }
{
    let Held::Bytes(bytes) = held else {
        return None;
    };
    let Ok(Some(numbers)) = numbers_of(alloc, place) else {
        return None;
    };
    match find(alloc, pool, message_type, bytes, Limits::FULL, &numbers) {
        Ok(found) => found,
        Err(_) => None,
    }
}

/// The value of a scalar at a place of a message whose bytes are held, if it is found without the message's fields.
pub fn plain_held(
    alloc: Global,
    pool: &Pool,
    message_type: MessageId,
    held: &Held,
    place: &[PlainValue],
) -> Option<PlainValue>
    requires within { message_type.0 < length pool.now.messages }
    requires held { IsHeld pool.now message_type.0 held.now }
    ensures { IfSome result (λ x. (keys : List Bytes)
        → Answers plain_in keys place.now (message_held pool.now message_type.0 held.now)
        (Some x)) }
{
    let found = scalar_held(alloc, pool, message_type, held, place)?;
    Some(scalar_value(found))
}

/// The string or the bytes at a place of a message whose bytes are held, if they are found without the message's fields.
pub fn bytes_held<'a>(
    alloc: Global,
    pool: &Pool,
    message_type: MessageId,
    held: &'a Held,
    place: &[PlainValue],
) -> Option<&'a [u8]>
    requires within { message_type.0 < length pool.now.messages }
    requires held { IsHeld pool.now message_type.0 held.now }
    ensures { IfSome result (λ b. (keys : List Bytes)
        → Answers bytes_in keys place.now (message_held pool.now message_type.0 held.now)
        (Some b.now)) }
{
    match scalar_held(alloc, pool, message_type, held, place)? {
        ScalarRef::Text(text) => Some(text.as_bytes()),
        ScalarRef::Bytes(bytes) => Some(bytes),
        _ => None,
    }
}
