//! The value at a place of a message.

ghost use Rattle.std.specs.Prelude.{◌≡◌, ◌≢◌, ◌↔◌, ◌⊎◌, List, None, Some, IfSome};
ghost use Rattle.pb_c_message.specs.Answers.{Answers, plain_in};
ghost use Rattle.pb_c_message.specs.Places.{Bytes};
ghost use Rattle.pb_c.specs.Message.Places.{IsAnswered};

use super::miss::miss_number;
use pb_c_answers::{ABSENT, BAD_PLACE, DONE, EMPTY, MEMORY};
use pb_c_handles::message::own::{OwnMessage, may_look};
use pb_c_handles::message::{MessageHandle, put, take};
use pb_c_message::{Held, PlainValue, plain_held, take_body, value_at};
use pb_value::DynamicMessage;
use pb_value::bodies::from_well_formed;
use std::alloc::Global;

/// Reports the value at a place.
fn report_value(
    alloc: Global,
    message: &DynamicMessage<'_>,
    place: &[PlainValue],
    keys: &[&[u8]],
    value: &mut PlainValue,
) -> u32
    ensures answered { IsAnswered plain_in keys.now place.now (Some message.now) result
        (λ x. value.new ≡ x) }
    ensures unreported { result ≢ DONE → value.new ≡ value.old }
    ensures answers { (result ≡ DONE) ⊎ (result ≡ ABSENT) ⊎ (result ≡ BAD_PLACE)
        ⊎ (result ≡ MEMORY) }
{
    match value_at(alloc, message.view(), place, keys) {
        Ok(found) => {
            *value = found;
            DONE
        }
        Err(miss) => miss_number(miss),
    }
}

/// The value at a place of a message that is owned, where it is found in the bytes that are held.
fn look(alloc: Global, own: &mut OwnMessage, place: &[PlainValue]) -> Option<PlainValue>
    ensures found { IfSome result (λ x. (keys : List Bytes)
        → Answers plain_in keys place.now own.old (Some x)) }
    ensures same { own.new ≡ own.old }
{
    if !may_look(own) {
        return None;
    }
    plain_held(alloc, &own.pool, own.message_type, &own.held, place)
}

/// Reports the value at a place of a message that is owned.
fn get_own(
    alloc: Global,
    own: &mut OwnMessage,
    place: &[PlainValue],
    keys: &[&[u8]],
    value: &mut PlainValue,
) -> u32
    ensures answered { IsAnswered plain_in keys.now place.now (Some own.old) result
        (λ x. value.new ≡ x) }
    ensures unreported { result ≢ DONE → value.new ≡ value.old }
    ensures answers { (result ≡ DONE) ⊎ (result ≡ ABSENT) ⊎ (result ≡ BAD_PLACE)
        ⊎ (result ≡ MEMORY) }
    ensures same { own.new ≡ own.old }
{
    if let Some(found) = look(alloc, own, place) {
        *value = found;
        return DONE;
    }
    let Some(body) = take_body(alloc, &own.pool, own.message_type, &mut own.held) else {
        return MEMORY;
    };
    let message = from_well_formed(alloc, &own.pool, own.message_type, body);
    let answer = report_value(alloc, &message, place, keys, value);
    own.held = Held::Fields(message.into_body());
    answer
}

/// Reports the value at a place of the message: a scalar, or the kind and the size of what else is there.
///
/// Answers DONE; EMPTY where the handle holds nothing; BAD_PLACE where the steps say no place; ABSENT where nothing is there; or MEMORY. The
/// value is written at DONE alone.
#[unsafe(no_mangle)]
pub extern "C" fn mb_message_get(
    alloc: Global,
    message: &mut MessageHandle,
    place: &[PlainValue],
    keys: &[&[u8]],
    value: &mut PlainValue,
) -> u32
    ensures answered { IsAnswered plain_in keys.now place.now message.old.seal.message result
        (λ x. value.new ≡ x) }
    ensures unreported { result ≢ DONE → value.new ≡ value.old }
    ensures empty { result ≡ EMPTY ↔ (message.old.seal.message ≡ None) }
    ensures answers { (result ≡ DONE) ⊎ (result ≡ EMPTY) ⊎ (result ≡ ABSENT) ⊎ (result ≡ BAD_PLACE)
        ⊎ (result ≡ MEMORY) }
    ensures same { message.new.seal.message ≡ message.old.seal.message }
{
    let Some(mut own) = take(alloc, message) else {
        return EMPTY;
    };
    let answer = get_own(alloc, &mut own, place, keys, value);
    put(message, own);
    answer
}
