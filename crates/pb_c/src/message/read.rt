//! The string or the bytes at a place of a message.

ghost use Rattle.std.specs.Prelude.{◌≡◌, ◌≢◌, ◌↔◌, ◌⊎◌, ℕ, List, None, Some, true, false};
ghost use Rattle.pb_c_message.specs.Answers.{Answers, bytes_in};
ghost use Rattle.pb_c_message.specs.Places.{Bytes};
ghost use Rattle.pb_c_answers.specs.Reporting.{IsLaid};
ghost use Rattle.pb_c.specs.Message.Places.{IsAnswered};

use super::miss::miss_number;
use pb_c_answers::{ABSENT, BAD_PLACE, DONE, EMPTY, MEMORY, write_out};
use pb_c_handles::message::own::{OwnMessage, may_look};
use pb_c_handles::message::{MessageHandle, put, take};
use pb_c_message::{Held, PlainValue, bytes_at, bytes_held, take_body};
use pb_value::DynamicMessage;
use pb_value::bodies::from_well_formed;
use std::alloc::Global;

/// Writes the string or the bytes at a place.
fn write_bytes(
    alloc: Global,
    message: &DynamicMessage<'_>,
    place: &[PlainValue],
    keys: &[&[u8]],
    out: &mut [u8],
    size: &mut usize,
) -> u32
    ensures answered { IsAnswered bytes_in keys.now place.now (Some message.now) result
        (λ b. IsLaid b out.old out.new size.new) }
    ensures unwritten { result ≢ DONE → (out.new ≡ out.old) × (size.new ≡ size.old) }
    ensures answers { (result ≡ DONE) ⊎ (result ≡ ABSENT) ⊎ (result ≡ BAD_PLACE)
        ⊎ (result ≡ MEMORY) }
{
    match bytes_at(alloc, message.view(), place, keys) {
        Ok(bytes) => {
            write_out(bytes, out, size);
            DONE
        }
        Err(miss) => miss_number(miss),
    }
}

/// Writes the string or the bytes at a place of a message that is owned, where they are found in the bytes that are held.
fn write_found(
    alloc: Global,
    own: &mut OwnMessage,
    place: &[PlainValue],
    out: &mut [u8],
    size: &mut usize,
) -> bool
    ensures found { result ≡ true → (b : List ℕ)
        × ((keys : List Bytes) → Answers bytes_in keys place.now own.old (Some b))
        × IsLaid b out.old out.new size.new }
    ensures unwritten { result ≡ false → (out.new ≡ out.old) × (size.new ≡ size.old) }
    ensures same { own.new ≡ own.old }
{
    if !may_look(own) {
        return false;
    }
    if let Some(found) = bytes_held(alloc, &own.pool, own.message_type, &own.held, place) {
        write_out(found, out, size);
        return true;
    }
    false
}

/// Writes the string or the bytes at a place of a message that is owned.
fn read_own(
    alloc: Global,
    own: &mut OwnMessage,
    place: &[PlainValue],
    keys: &[&[u8]],
    out: &mut [u8],
    size: &mut usize,
) -> u32
    ensures answered { IsAnswered bytes_in keys.now place.now (Some own.old) result
        (λ b. IsLaid b out.old out.new size.new) }
    ensures unwritten { result ≢ DONE → (out.new ≡ out.old) × (size.new ≡ size.old) }
    ensures answers { (result ≡ DONE) ⊎ (result ≡ ABSENT) ⊎ (result ≡ BAD_PLACE)
        ⊎ (result ≡ MEMORY) }
    ensures same { own.new ≡ own.old }
{
    if write_found(alloc, own, place, out, size) {
        return DONE;
    }
    let Some(body) = take_body(alloc, &own.pool, own.message_type, &mut own.held) else {
        return MEMORY;
    };
    let message = from_well_formed(alloc, &own.pool, own.message_type, body);
    let answer = write_bytes(alloc, &message, place, keys, out, size);
    own.held = Held::Fields(message.into_body());
    answer
}

/// Writes the string or the bytes at a place of the message, as much as the buffer holds, and reports the whole length.
///
/// Answers DONE; EMPTY where the handle holds nothing; BAD_PLACE where the steps say no place; ABSENT where nothing or something else is
/// there; or MEMORY. The bytes and their number are written at DONE alone.
#[unsafe(no_mangle)]
pub extern "C" fn mb_message_read(
    alloc: Global,
    message: &mut MessageHandle,
    place: &[PlainValue],
    keys: &[&[u8]],
    out: &mut [u8],
    size: &mut usize,
) -> u32
    ensures answered { IsAnswered bytes_in keys.now place.now message.old.seal.message result
        (λ b. IsLaid b out.old out.new size.new) }
    ensures unwritten { result ≢ DONE → (out.new ≡ out.old) × (size.new ≡ size.old) }
    ensures empty { result ≡ EMPTY ↔ (message.old.seal.message ≡ None) }
    ensures answers { (result ≡ DONE) ⊎ (result ≡ EMPTY) ⊎ (result ≡ ABSENT) ⊎ (result ≡ BAD_PLACE)
        ⊎ (result ≡ MEMORY) }
    ensures same { message.new.seal.message ≡ message.old.seal.message }
{
    let Some(mut own) = take(alloc, message) else {
        return EMPTY;
    };
    let answer = read_own(alloc, &mut own, place, keys, out, size);
    put(message, own);
    answer
}
