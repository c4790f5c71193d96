//! The unknown records of the message at a place.

ghost use Rattle.std.specs.Prelude.{◌≡◌, ◌≢◌, ◌↔◌, ◌⊎◌, None, Some, MatchResult};
ghost use Rattle.pb_c_message.specs.Answers.{Answers, IsMissed, unknown_in};
ghost use Rattle.pb_c_answers.specs.Reporting.{IsLaid};
ghost use Rattle.pb_c.specs.Message.Places.{IsAnswered};

use super::miss::miss_number;
use pb_c_answers::{ABSENT, BAD_PLACE, DONE, EMPTY, MEMORY, write_out};
use pb_c_handles::message::own::OwnMessage;
use pb_c_handles::message::{MessageHandle, put, take};
use pb_c_message::{Held, Miss, PlainValue, take_body, unknown_at};
use pb_value::bodies::from_well_formed;
use std::alloc::Global;

/// The unknown records at a place of a message that is owned, as their shortest encoding.
fn unknown_own(
    alloc: Global,
    own: &mut OwnMessage,
    place: &[PlainValue],
    keys: &[&[u8]],
) -> Result<Vec<u8>, Miss>
    ensures answer { MatchResult result
        (λ b. Answers unknown_in keys.now place.now own.old (Some b.items))
        (IsMissed (Answers unknown_in keys.now place.now own.old None) keys.now place.now) }
    ensures same { own.new ≡ own.old }
{
    let Some(body) = take_body(alloc, &own.pool, own.message_type, &mut own.held) else {
        return Err(Miss::Memory);
    };
    let message = from_well_formed(alloc, &own.pool, own.message_type, body);
    let answer = unknown_at(alloc, message.view(), place, keys);
    own.held = Held::Fields(message.into_body());
    answer
}

/// Writes the unknown records of the message at a place, as their shortest encoding, as much as the buffer holds, and reports the whole length.
///
/// Answers DONE; EMPTY where the handle holds nothing; BAD_PLACE where the steps say no place; ABSENT where no message is there; or
/// MEMORY. The bytes and their number are written at DONE alone.
#[unsafe(no_mangle)]
pub extern "C" fn mb_message_unknown(
    alloc: Global,
    message: &mut MessageHandle,
    place: &[PlainValue],
    keys: &[&[u8]],
    out: &mut [u8],
    size: &mut usize,
) -> u32
    ensures answered { IsAnswered unknown_in keys.now place.now message.old.seal.message result
        (λ b. IsLaid b out.old out.new size.new) }
    ensures unwritten { result ≢ DONE → (out.new ≡ out.old) × (size.new ≡ size.old) }
    ensures empty { result ≡ EMPTY ↔ (message.old.seal.message ≡ None) }
    ensures answers { (result ≡ DONE) ⊎ (result ≡ EMPTY) ⊎ (result ≡ ABSENT) ⊎ (result ≡ BAD_PLACE)
        ⊎ (result ≡ MEMORY) }
    ensures same { message.new.seal.message ≡ message.old.seal.message }
{
    let Some(mut own) = take(alloc, message) else {
        return EMPTY;
    };
    let answer = unknown_own(alloc, &mut own, place, keys);
    put(message, own);
    match answer {
        Ok(bytes) => {
            write_out(&bytes, out, size);
            DONE
        }
        Err(miss) => miss_number(miss),
    }
}
