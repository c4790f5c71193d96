//! The numbers of the fields that are set in a message at a place.

ghost use Rattle.std.specs.Prelude.{◌≡◌, ◌≢◌, ◌↔◌, ◌⊎◌, None, Some, length};
ghost use Rattle.pb_place.specs.Ask.{laid_over};
ghost use Rattle.pb_c_message.specs.Answers.{numbers_in};
ghost use Rattle.pb_c.specs.Message.Places.{IsAnswered};

use super::miss::miss_number;
use pb_c_answers::{ABSENT, BAD_PLACE, DONE, EMPTY, MEMORY};
use pb_c_handles::message::own::OwnMessage;
use pb_c_handles::message::{MessageHandle, put, take};
use pb_c_message::{Held, PlainValue, fields_at, take_body};
use pb_value::DynamicMessage;
use pb_value::bodies::from_well_formed;
use std::alloc::Global;

/// Writes the numbers of the fields that are set at a place.
fn write_fields(
    alloc: Global,
    message: &DynamicMessage<'_>,
    place: &[PlainValue],
    keys: &[&[u8]],
    numbers: &mut [u32],
    count: &mut usize,
) -> u32
    ensures answered { IsAnswered numbers_in keys.now place.now (Some message.now) result
        (λ ns. (numbers.new ≡ laid_over ns numbers.old) × (count.new ≡ length ns)) }
    ensures unwritten { result ≢ DONE → (numbers.new ≡ numbers.old) × (count.new ≡ count.old) }
    ensures answers { (result ≡ DONE) ⊎ (result ≡ ABSENT) ⊎ (result ≡ BAD_PLACE)
        ⊎ (result ≡ MEMORY) }
{
    match fields_at(alloc, message.view(), place, keys, numbers) {
        Ok(found) => {
            *count = found;
            DONE
        }
        Err(miss) => miss_number(miss),
    }
}

/// Writes the numbers of the fields that are set at a place of a message that is owned.
fn fields_own(
    alloc: Global,
    own: &mut OwnMessage,
    place: &[PlainValue],
    keys: &[&[u8]],
    numbers: &mut [u32],
    count: &mut usize,
) -> u32
    ensures answered { IsAnswered numbers_in keys.now place.now (Some own.old) result
        (λ ns. (numbers.new ≡ laid_over ns numbers.old) × (count.new ≡ length ns)) }
    ensures unwritten { result ≢ DONE → (numbers.new ≡ numbers.old) × (count.new ≡ count.old) }
    ensures answers { (result ≡ DONE) ⊎ (result ≡ ABSENT) ⊎ (result ≡ BAD_PLACE)
        ⊎ (result ≡ MEMORY) }
    ensures same { own.new ≡ own.old }
{
    let Some(body) = take_body(alloc, &own.pool, own.message_type, &mut own.held) else {
        return MEMORY;
    };
    let message = from_well_formed(alloc, &own.pool, own.message_type, body);
    let answer = write_fields(alloc, &message, place, keys, numbers, count);
    own.held = Held::Fields(message.into_body());
    answer
}

/// Writes the numbers of the fields that are set in the message at a place, by rising number, as many as the buffer holds, and reports how
/// many there are.
///
/// Answers DONE; EMPTY where the handle holds nothing; BAD_PLACE where the steps say no place; ABSENT where no message is there; or MEMORY.
/// The numbers and their count are written at DONE alone.
#[unsafe(no_mangle)]
pub extern "C" fn mb_message_fields(
    alloc: Global,
    message: &mut MessageHandle,
    place: &[PlainValue],
    keys: &[&[u8]],
    numbers: &mut [u32],
    count: &mut usize,
) -> u32
    ensures answered { IsAnswered numbers_in keys.now place.now message.old.seal.message result
        (λ ns. (numbers.new ≡ laid_over ns numbers.old) × (count.new ≡ length ns)) }
    ensures unwritten { result ≢ DONE → (numbers.new ≡ numbers.old) × (count.new ≡ count.old) }
    ensures empty { result ≡ EMPTY ↔ (message.old.seal.message ≡ None) }
    ensures answers { (result ≡ DONE) ⊎ (result ≡ EMPTY) ⊎ (result ≡ ABSENT) ⊎ (result ≡ BAD_PLACE)
        ⊎ (result ≡ MEMORY) }
    ensures same { message.new.seal.message ≡ message.old.seal.message }
{
    let Some(mut own) = take(alloc, message) else {
        return EMPTY;
    };
    let answer = fields_own(alloc, &mut own, place, keys, numbers, count);
    put(message, own);
    answer
}
