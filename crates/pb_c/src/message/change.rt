//! Changes of a message that a handle holds, at a place.

ghost use Rattle.std.specs.Prelude.{◌≡◌, ◌↔◌, ◌⊎◌, None, Some};
ghost use Rattle.pb_c_message.specs.Ends.{ends};
ghost use Rattle.pb_c_message.specs.declared.changing.PlainChange.TheVariants as change;
ghost use Rattle.pb_c_message.specs.declared.changing.Put.TheVariants.{Set, Push, Insert};
ghost use Rattle.pb_c.specs.Message.Changes.{IsChangeAnswer, IsChanged, cause_answer, unmade_answer};

use pb_c_answers::{ABSENT, BAD_PLACE, BAD_VALUE, DONE, EMPTY, MEMORY};
use pb_c_handles::message::own::OwnMessage;
use pb_c_handles::message::{MessageHandle, put, take};
use pb_c_message::{Held, PlainChange, PlainValue, Put, Unchanged, change, take_body};
use pb_place::ChangeError;
use pb_value::bodies::from_well_formed;
use pb_value::{DynamicMessage, ValueError};
use std::alloc::Global;

/// The answer for a cause.
fn cause_answer(cause: ValueError) -> u32
    ensures { result ≡ cause_answer cause }
{
    if cause.number() == ValueError::Memory.number() {
        return MEMORY;
    }
    u32::from(cause.number())
}

/// The answer where nothing is changed.
fn unmade_answer(unchanged: Unchanged) -> u32
    ensures { result ≡ unmade_answer unchanged }
{
    match unchanged {
        Unchanged::BadPlace => BAD_PLACE,
        Unchanged::BadValue => BAD_VALUE,
        Unchanged::Refused(ChangeError::Absent) => ABSENT,
        Unchanged::Refused(ChangeError::Refused(cause)) => cause_answer(cause),
    }
}

/// Makes a change in a message.
fn change_message(
    alloc: Global,
    message: &mut DynamicMessage<'_>,
    place: &[PlainValue],
    strings: &[&[u8]],
    plain: PlainChange,
) -> u32
    ensures changed { IsChanged (ends strings.now place.now plain) (Some message.old)
        (Some message.new) result }
    ensures answers { IsChangeAnswer result }
    ensures same_type { (message.new.pool ≡ message.old.pool)
        × (message.new.kind ≡ message.old.kind) }
{
    match change(alloc, message, place, strings, plain) {
        Ok(()) => DONE,
        Err(unchanged) => unmade_answer(unchanged),
    }
}

/// Makes a change in a message that is owned.
fn change_own(
    alloc: Global,
    own: &mut OwnMessage,
    place: &[PlainValue],
    strings: &[&[u8]],
    plain: PlainChange,
) -> u32
    ensures changed { IsChanged (ends strings.now place.now plain) (Some own.old)
        (Some own.new) result }
    ensures answers { IsChangeAnswer result }
{
    let Some(body) = take_body(alloc, &own.pool, own.message_type, &mut own.held) else {
        return MEMORY;
    };
    let mut message = from_well_formed(alloc, &own.pool, own.message_type, body);
    let answer = change_message(alloc, &mut message, place, strings, plain);
    let _well_formed = message.body();
    own.held = Held::Fields(message.into_body());
    answer
}

/// Makes a change in the message that a handle holds.
fn change_held(
    alloc: Global,
    message: &mut MessageHandle,
    place: &[PlainValue],
    strings: &[&[u8]],
    plain: PlainChange,
) -> u32
    ensures changed { IsChanged
        (ends strings.now place.now plain) message.old.seal.message message.new.seal.message
        result }
    ensures empty { result ≡ EMPTY ↔ (message.old.seal.message ≡ None) }
    ensures answers { (result ≡ EMPTY) ⊎ IsChangeAnswer result }
{
    let Some(mut own) = take(alloc, message) else {
        return EMPTY;
    };
    let answer = change_own(alloc, &mut own, place, strings, plain);
    put(message, own);
    answer
}

/// Sets the field that the place ends at to a value, or puts it in place of the element of a list that the place ends at. A string or bytes are those
/// of the index that the value has as its number, among the strings; a message is an empty one.
///
/// Answers DONE; EMPTY where the handle holds nothing; BAD_PLACE where the steps say no place; BAD_VALUE where the value is none; ABSENT where
/// the message of the field is not there, the list has no such element, or the place ends at neither; the cause, 21 to 30, why the message refuses
/// the change; or MEMORY. The message is changed at DONE alone.
#[unsafe(no_mangle)]
pub extern "C" fn mb_message_set(
    alloc: Global,
    message: &mut MessageHandle,
    place: &[PlainValue],
    strings: &[&[u8]],
    value: &PlainValue,
) -> u32
    ensures changed { IsChanged
        (ends strings.now place.now (change.Put Set value.now)) message.old.seal.message
        message.new.seal.message result }
    ensures empty { result ≡ EMPTY ↔ (message.old.seal.message ≡ None) }
    ensures answers { (result ≡ EMPTY) ⊎ IsChangeAnswer result }
{
    change_held(
        alloc,
        message,
        place,
        strings,
        PlainChange::Put(Put::Set, *value),
    )
}

/// Clears the field that the place ends at.
///
/// Answers as `mb_message_set` does.
#[unsafe(no_mangle)]
pub extern "C" fn mb_message_clear(
    alloc: Global,
    message: &mut MessageHandle,
    place: &[PlainValue],
    strings: &[&[u8]],
) -> u32
    ensures changed { IsChanged
        (ends strings.now place.now change.Clear) message.old.seal.message message.new.seal.message
        result }
    ensures empty { result ≡ EMPTY ↔ (message.old.seal.message ≡ None) }
    ensures answers { (result ≡ EMPTY) ⊎ IsChangeAnswer result }
{
    change_held(alloc, message, place, strings, PlainChange::Clear)
}

/// Puts a value at the end of the list that the place ends at.
///
/// Answers as `mb_message_set` does.
#[unsafe(no_mangle)]
pub extern "C" fn mb_message_push(
    alloc: Global,
    message: &mut MessageHandle,
    place: &[PlainValue],
    strings: &[&[u8]],
    value: &PlainValue,
) -> u32
    ensures changed { IsChanged
        (ends strings.now place.now (change.Put Push value.now)) message.old.seal.message
        message.new.seal.message result }
    ensures empty { result ≡ EMPTY ↔ (message.old.seal.message ≡ None) }
    ensures answers { (result ≡ EMPTY) ⊎ IsChangeAnswer result }
{
    change_held(
        alloc,
        message,
        place,
        strings,
        PlainChange::Put(Put::Push, *value),
    )
}

/// Puts a value under the key that the place ends at, in place of what was there.
///
/// Answers as `mb_message_set` does, and ABSENT where the place does not end at a key of a field's map.
#[unsafe(no_mangle)]
pub extern "C" fn mb_message_insert(
    alloc: Global,
    message: &mut MessageHandle,
    place: &[PlainValue],
    strings: &[&[u8]],
    value: &PlainValue,
) -> u32
    ensures changed { IsChanged
        (ends strings.now place.now (change.Put Insert value.now)) message.old.seal.message
        message.new.seal.message result }
    ensures empty { result ≡ EMPTY ↔ (message.old.seal.message ≡ None) }
    ensures answers { (result ≡ EMPTY) ⊎ IsChangeAnswer result }
{
    change_held(
        alloc,
        message,
        place,
        strings,
        PlainChange::Put(Put::Insert, *value),
    )
}

/// Removes the entry of the key that the place ends at, if it is there, or the element of a list that the place ends at.
///
/// Answers as `mb_message_insert` does, and ABSENT where the list has no such element.
#[unsafe(no_mangle)]
pub extern "C" fn mb_message_remove(
    alloc: Global,
    message: &mut MessageHandle,
    place: &[PlainValue],
    strings: &[&[u8]],
) -> u32
    ensures changed { IsChanged
        (ends strings.now place.now change.Remove) message.old.seal.message message.new.seal.message
        result }
    ensures empty { result ≡ EMPTY ↔ (message.old.seal.message ≡ None) }
    ensures answers { (result ≡ EMPTY) ⊎ IsChangeAnswer result }
{
    change_held(alloc, message, place, strings, PlainChange::Remove)
}

/// Drops the unknown records of the message at a place.
///
/// Answers as `mb_message_set` does, and ABSENT where no message is at the place.
#[unsafe(no_mangle)]
pub extern "C" fn mb_message_drop_unknown(
    alloc: Global,
    message: &mut MessageHandle,
    place: &[PlainValue],
    strings: &[&[u8]],
) -> u32
    ensures changed { IsChanged
        (ends strings.now place.now change.DropUnknown) message.old.seal.message
        message.new.seal.message result }
    ensures empty { result ≡ EMPTY ↔ (message.old.seal.message ≡ None) }
    ensures answers { (result ≡ EMPTY) ⊎ IsChangeAnswer result }
{
    change_held(alloc, message, place, strings, PlainChange::DropUnknown)
}
