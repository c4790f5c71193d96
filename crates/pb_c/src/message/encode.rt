//! The canonical bytes of a message, and how many they are.

ghost use Rattle.std.specs.Prelude.{◌≡◌, ◌≢◌, ◌<◌, ◌≤◌, ◌^◌, ◌↔◌, ◌⊎◌, None, Some, length};
ghost use Rattle.pb_value.specs.Dynamic.{Dynamic};
ghost use Rattle.pb_encode.specs.Encoding.{bytes_of};
ghost use Rattle.pb_encode.specs.Sizes.{capped};
ghost use Rattle.pb_c_answers.specs.Reporting.{IsLaid};

use crate::typed::canon::write_canonical;
use pb_c_answers::{DONE, EMPTY, MEMORY, TOO_LARGE, write_out};
use pb_c_handles::message::own::OwnMessage;
use pb_c_handles::message::{MessageHandle, put, take};
use pb_c_message::{Held, canonical_bytes, take_body};
use pb_encode::encoded_len;
use pb_value::bodies::{empty_body, from_well_formed};
use pb_wire::MAX_BYTES;
use std::alloc::Global;
use std::mem;

/// Writes the canonical bytes of the message.
fn encode_own(alloc: Global, own: &mut OwnMessage, out: &mut [u8], size: &mut usize) -> u32
    ensures written { result ≡ DONE → (length (bytes_of own.old) < 2 ^ 31)
        × IsLaid (bytes_of own.old) out.old out.new size.new }
    ensures too_large { result ≡ TOO_LARGE → 2 ^ 31 ≤ length (bytes_of own.old) }
    ensures unwritten { result ≢ DONE → (out.new ≡ out.old) × (size.new ≡ size.old) }
    ensures answers { (result ≡ DONE) ⊎ (result ≡ TOO_LARGE) ⊎ (result ≡ MEMORY) }
    ensures same { own.new ≡ own.old }
{
    let _types = own.pool.messages();
    if let Some(bytes) = canonical_bytes(&own.held) {
        write_out(bytes, out, size);
        return DONE;
    }
    let Some(body) = take_body(alloc, &own.pool, own.message_type, &mut own.held) else {
        return MEMORY;
    };
    let message = from_well_formed(alloc, &own.pool, own.message_type, body);
    let answer = write_canonical(&message, out, size);
    own.held = Held::Fields(message.into_body());
    answer
}

/// Counts the canonical bytes of a message that is owned, up to the greatest number.
fn count_own(alloc: Global, own: &mut OwnMessage) -> u128
    ensures counted { result ≡ capped (length (bytes_of own.old)) }
    ensures same { own.new ≡ own.old }
{
    let _types = own.pool.messages();
    let nothing = Held::Fields(empty_body(alloc));
    match mem::replace(&mut own.held, nothing) {
        Held::Bytes(bytes) => {
            let count = bytes.len() as u128;
            own.held = Held::Bytes(bytes);
            count
        }
        Held::Fields(body) => {
            let message = from_well_formed(alloc, &own.pool, own.message_type, body);
            let count = encoded_len(&message);
            own.held = Held::Fields(message.into_body());
            count
        }
    }
}

/// Reports how many canonical bytes a message that is owned has.
fn report_count(alloc: Global, own: &mut OwnMessage, size: &mut usize) -> u32
    ensures counted { result ≡ DONE → (length (bytes_of own.old) < 2 ^ 31)
        × (size.new ≡ length (bytes_of own.old)) }
    ensures too_large { result ≡ TOO_LARGE → 2 ^ 31 ≤ length (bytes_of own.old) }
    ensures uncounted { result ≢ DONE → size.new ≡ size.old }
    ensures answers { (result ≡ DONE) ⊎ (result ≡ TOO_LARGE) }
    ensures same { own.new ≡ own.old }
{
    let count = count_own(alloc, own);
    if count > u128::from(MAX_BYTES) {
        return TOO_LARGE;
    }
    *size = count as usize;
    DONE
}

/// Writes the canonical bytes of the message, as many as the buffer holds, and reports how many there are.
///
/// Answers DONE; EMPTY where the handle holds nothing; TOO_LARGE where they would be more than 2^31 - 1; or MEMORY. They and their number are
/// written at DONE alone.
#[unsafe(no_mangle)]
pub extern "C" fn mb_message_encode(
    alloc: Global,
    message: &mut MessageHandle,
    out: &mut [u8],
    size: &mut usize,
) -> u32
    ensures written { result ≡ DONE → (m : Dynamic) × (message.old.seal.message ≡ Some m)
        × (length (bytes_of m) < 2 ^ 31) × IsLaid (bytes_of m) out.old out.new size.new }
    ensures too_large { result ≡ TOO_LARGE → (m : Dynamic) × (message.old.seal.message ≡ Some m)
        × (2 ^ 31 ≤ length (bytes_of m)) }
    ensures unwritten { result ≢ DONE → (out.new ≡ out.old) × (size.new ≡ size.old) }
    ensures empty { result ≡ EMPTY ↔ (message.old.seal.message ≡ None) }
    ensures answers { (result ≡ DONE) ⊎ (result ≡ EMPTY) ⊎ (result ≡ TOO_LARGE)
        ⊎ (result ≡ MEMORY) }
    ensures same { message.new.seal.message ≡ message.old.seal.message }
{
    let Some(mut own) = take(alloc, message) else {
        return EMPTY;
    };
    let answer = encode_own(alloc, &mut own, out, size);
    put(message, own);
    answer
}

/// Reports how many canonical bytes the message has. It takes no memory.
///
/// Answers DONE; EMPTY where the handle holds nothing; or TOO_LARGE where they would be more than 2^31 - 1. The number is written at DONE
/// alone.
#[unsafe(no_mangle)]
pub extern "C" fn mb_message_encoded_length(
    alloc: Global,
    message: &mut MessageHandle,
    size: &mut usize,
) -> u32
    ensures counted { result ≡ DONE → (m : Dynamic) × (message.old.seal.message ≡ Some m)
        × (length (bytes_of m) < 2 ^ 31) × (size.new ≡ length (bytes_of m)) }
    ensures too_large { result ≡ TOO_LARGE → (m : Dynamic) × (message.old.seal.message ≡ Some m)
        × (2 ^ 31 ≤ length (bytes_of m)) }
    ensures uncounted { result ≢ DONE → size.new ≡ size.old }
    ensures empty { result ≡ EMPTY ↔ (message.old.seal.message ≡ None) }
    ensures answers { (result ≡ DONE) ⊎ (result ≡ EMPTY) ⊎ (result ≡ TOO_LARGE) }
    ensures same { message.new.seal.message ≡ message.old.seal.message }
{
    let Some(mut own) = take(alloc, message) else {
        return EMPTY;
    };
    let answer = report_count(alloc, &mut own, size);
    put(message, own);
    answer
}
