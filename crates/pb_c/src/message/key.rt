//! The keys of a map at a place of a message.

ghost use Rattle.std.specs.Prelude.{◌≡◌, ◌≢◌, ◌↔◌, ◌⊎◌, None, Some};
ghost use Rattle.pb_place.specs.Ask.{key_in};
ghost use Rattle.pb_c.specs.Typed.Found.{Reports};
ghost use Rattle.pb_c.specs.Message.Places.{IsAnswered};

use super::miss::miss_number;
use pb_c_answers::{ABSENT, BAD_PLACE, DONE, EMPTY, MEMORY, lay_over};
use pb_c_handles::message::own::OwnMessage;
use pb_c_handles::message::{MessageHandle, put, take};
use pb_c_message::{Held, PlainValue, key_at, key_bytes, key_value, take_body};
use pb_value::DynamicMessage;
use pb_value::bodies::from_well_formed;
use std::alloc::Global;

/// Reports a key of the map at a place.
fn report_key(
    alloc: Global,
    message: &DynamicMessage<'_>,
    place: &[PlainValue],
    keys: &[&[u8]],
    index: usize,
    key: &mut PlainValue,
    out: &mut [u8],
) -> u32
    ensures answered { IsAnswered (key_in index) keys.now place.now (Some message.now) result
        (λ x. Reports x key.new out.old out.new) }
    ensures unreported { result ≢ DONE → (key.new ≡ key.old) × (out.new ≡ out.old) }
    ensures answers { (result ≡ DONE) ⊎ (result ≡ ABSENT) ⊎ (result ≡ BAD_PLACE)
        ⊎ (result ≡ MEMORY) }
{
    match key_at(alloc, message.view(), place, keys, index) {
        Ok(found) => {
            *key = key_value(found);
            lay_over(key_bytes(found), out);
            DONE
        }
        Err(miss) => miss_number(miss),
    }
}

/// Reports a key of the map at a place of a message that is owned.
fn key_own(
    alloc: Global,
    own: &mut OwnMessage,
    place: &[PlainValue],
    keys: &[&[u8]],
    index: usize,
    key: &mut PlainValue,
    out: &mut [u8],
) -> u32
    ensures answered { IsAnswered (key_in index) keys.now place.now (Some own.old) result
        (λ x. Reports x key.new out.old out.new) }
    ensures unreported { result ≢ DONE → (key.new ≡ key.old) × (out.new ≡ out.old) }
    ensures answers { (result ≡ DONE) ⊎ (result ≡ ABSENT) ⊎ (result ≡ BAD_PLACE)
        ⊎ (result ≡ MEMORY) }
    ensures same { own.new ≡ own.old }
{
    let Some(body) = take_body(alloc, &own.pool, own.message_type, &mut own.held) else {
        return MEMORY;
    };
    let message = from_well_formed(alloc, &own.pool, own.message_type, body);
    let answer = report_key(alloc, &message, place, keys, index, key, out);
    own.held = Held::Fields(message.into_body());
    answer
}

/// Reports the key at an index, counted from 0, of the map at a place: keys are in order, strings by their bytes. Of a string as much is
/// written as the buffer holds.
///
/// Answers DONE; EMPTY where the handle holds nothing; BAD_PLACE where the steps say no place; ABSENT where no map is there, or it has no
/// such key; or MEMORY. The key and its bytes are written at DONE alone.
#[unsafe(no_mangle)]
pub extern "C" fn mb_message_key(
    alloc: Global,
    message: &mut MessageHandle,
    place: &[PlainValue],
    keys: &[&[u8]],
    index: usize,
    key: &mut PlainValue,
    out: &mut [u8],
) -> u32
    ensures answered { IsAnswered (key_in index) keys.now place.now message.old.seal.message result
        (λ x. Reports x key.new out.old out.new) }
    ensures unreported { result ≢ DONE → (key.new ≡ key.old) × (out.new ≡ out.old) }
    ensures empty { result ≡ EMPTY ↔ (message.old.seal.message ≡ None) }
    ensures answers { (result ≡ DONE) ⊎ (result ≡ EMPTY) ⊎ (result ≡ ABSENT) ⊎ (result ≡ BAD_PLACE)
        ⊎ (result ≡ MEMORY) }
    ensures same { message.new.seal.message ≡ message.old.seal.message }
{
    let Some(mut own) = take(alloc, message) else {
        return EMPTY;
    };
    let answer = key_own(alloc, &mut own, place, keys, index, key, out);
    put(message, own);
    answer
}
