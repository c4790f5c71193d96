//! Which member of a oneof is set in a message at a place.

ghost use Rattle.std.specs.Prelude.{◌≡◌, ◌≢◌, ◌↔◌, ◌⊎◌, None, Some};
ghost use Rattle.pb_c_message.specs.Answers.{member_in};
ghost use Rattle.pb_c.specs.Message.Places.{IsAnswered};

use super::miss::miss_number;
use pb_c_answers::{ABSENT, BAD_PLACE, DONE, EMPTY, MEMORY};
use pb_c_handles::message::own::OwnMessage;
use pb_c_handles::message::{MessageHandle, put, take};
use pb_c_message::{Held, PlainValue, oneof_at, take_body};
use pb_value::DynamicMessage;
use pb_value::bodies::from_well_formed;
use std::alloc::Global;

/// Reports the member of a oneof at a place.
fn report_member(
    alloc: Global,
    message: &DynamicMessage<'_>,
    place: &[PlainValue],
    keys: &[&[u8]],
    oneof: u32,
    number: &mut u32,
) -> u32
    ensures answered { IsAnswered (member_in oneof) keys.now place.now (Some message.now) result
        (λ n. number.new ≡ n) }
    ensures unreported { result ≢ DONE → number.new ≡ number.old }
    ensures answers { (result ≡ DONE) ⊎ (result ≡ ABSENT) ⊎ (result ≡ BAD_PLACE)
        ⊎ (result ≡ MEMORY) }
{
    match oneof_at(alloc, message.view(), place, keys, oneof) {
        Ok(member) => {
            *number = member;
            DONE
        }
        Err(miss) => miss_number(miss),
    }
}

/// Reports the member of a oneof at a place of a message that is owned.
fn oneof_own(
    alloc: Global,
    own: &mut OwnMessage,
    place: &[PlainValue],
    keys: &[&[u8]],
    oneof: u32,
    number: &mut u32,
) -> u32
    ensures answered { IsAnswered (member_in oneof) keys.now place.now (Some own.old) result
        (λ n. number.new ≡ n) }
    ensures unreported { result ≢ DONE → number.new ≡ number.old }
    ensures answers { (result ≡ DONE) ⊎ (result ≡ ABSENT) ⊎ (result ≡ BAD_PLACE)
        ⊎ (result ≡ MEMORY) }
    ensures same { own.new ≡ own.old }
{
    let Some(body) = take_body(alloc, &own.pool, own.message_type, &mut own.held) else {
        return MEMORY;
    };
    let message = from_well_formed(alloc, &own.pool, own.message_type, body);
    let answer = report_member(alloc, &message, place, keys, oneof, number);
    own.held = Held::Fields(message.into_body());
    answer
}

/// Reports the number of the member that is set of the oneof at this index of the type of the message at a place.
///
/// Answers DONE; EMPTY where the handle holds nothing; BAD_PLACE where the steps say no place; ABSENT where no message is there, its type has
/// no such oneof, or no member of it is set; or MEMORY. The number is written at DONE alone.
#[unsafe(no_mangle)]
pub extern "C" fn mb_message_oneof(
    alloc: Global,
    message: &mut MessageHandle,
    place: &[PlainValue],
    keys: &[&[u8]],
    oneof: u32,
    number: &mut u32,
) -> u32
    ensures answered { IsAnswered
        (member_in oneof) keys.now place.now message.old.seal.message result (λ n. number.new ≡ n) }
    ensures unreported { result ≢ DONE → number.new ≡ number.old }
    ensures empty { result ≡ EMPTY ↔ (message.old.seal.message ≡ None) }
    ensures answers { (result ≡ DONE) ⊎ (result ≡ EMPTY) ⊎ (result ≡ ABSENT) ⊎ (result ≡ BAD_PLACE)
        ⊎ (result ≡ MEMORY) }
    ensures same { message.new.seal.message ≡ message.old.seal.message }
{
    let Some(mut own) = take(alloc, message) else {
        return EMPTY;
    };
    let answer = oneof_own(alloc, &mut own, place, keys, oneof, number);
    put(message, own);
    answer
}
