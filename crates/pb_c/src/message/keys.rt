//! The keys of a map at a place of a message, from one on.

ghost use Rattle.std.specs.Prelude.{◌≡◌, ◌≢◌, ◌↔◌, ◌⊎◌, List, None, Some, IsErr, MatchResult};
ghost use Rattle.pb_schema.specs.Scalar.{Scalar};
ghost use Rattle.pb_c_message.specs.Answers.{Answers, IsMissed};
ghost use Rattle.pb_c_message.specs.Keys.{ReportsKeys, keys_in};
ghost use Rattle.pb_c.specs.Message.Places.{IsAnswered};

use super::miss::miss_number;
use pb_c_answers::{ABSENT, BAD_PLACE, DONE, EMPTY, MEMORY};
use pb_c_handles::message::own::OwnMessage;
use pb_c_handles::message::{MessageHandle, put, take};
use pb_c_message::{Held, KeyCounts, Miss, PlainValue, keys_at, take_body};
use pb_value::bodies::from_well_formed;
use std::alloc::Global;

/// Writes the keys of the map at a place of a message that is owned, from an index on, and the strings among them, as many and as much as the
/// buffers hold. The answer is how many there are.
fn keys_own(
    alloc: Global,
    own: &mut OwnMessage,
    place: &[PlainValue],
    keys: &[&[u8]],
    first: usize,
    found: &mut [PlainValue],
    out: &mut [u8],
) -> Result<KeyCounts, Miss>
    ensures answer { MatchResult result
        (λ c. (xs : List Scalar) × Answers (keys_in first) keys.now place.now own.old (Some xs)
        × ReportsKeys xs found.old found.new out.old out.new c)
        (IsMissed (Answers (keys_in first) keys.now place.now own.old None) keys.now place.now) }
    ensures unwritten { IsErr result → (found.new ≡ found.old) × (out.new ≡ out.old) }
    ensures same { own.new ≡ own.old }
{
    let Some(body) = take_body(alloc, &own.pool, own.message_type, &mut own.held) else {
        return Err(Miss::Memory);
    };
    let message = from_well_formed(alloc, &own.pool, own.message_type, body);
    let answer = keys_at(alloc, message.view(), place, keys, first, found, out);
    own.held = Held::Fields(message.into_body());
    answer
}

/// Writes the keys of the map at a place from an index, counted from 0, on: keys are in order, strings by their bytes. As many are written as
/// the buffer holds, and of their strings, one after another, as much as the other buffer holds. It is reported how many keys there are from the
/// index on, and how many bytes their strings have.
///
/// Answers DONE; EMPTY where the handle holds nothing; BAD_PLACE where the steps say no place; ABSENT where no map is there; or MEMORY. The
/// keys, their bytes and the counts are written at DONE alone.
#[unsafe(no_mangle)]
pub extern "C" fn mb_message_keys(
    alloc: Global,
    message: &mut MessageHandle,
    place: &[PlainValue],
    keys: &[&[u8]],
    first: usize,
    found: &mut [PlainValue],
    out: &mut [u8],
    counts: &mut KeyCounts,
) -> u32
    ensures answered { IsAnswered (keys_in first) keys.now place.now message.old.seal.message result
        (λ xs. ReportsKeys xs found.old found.new out.old out.new counts.new) }
    ensures unreported { result ≢ DONE → (found.new ≡ found.old) × (out.new ≡ out.old)
        × (counts.new ≡ counts.old) }
    ensures empty { result ≡ EMPTY ↔ (message.old.seal.message ≡ None) }
    ensures answers { (result ≡ DONE) ⊎ (result ≡ EMPTY) ⊎ (result ≡ ABSENT) ⊎ (result ≡ BAD_PLACE)
        ⊎ (result ≡ MEMORY) }
    ensures same { message.new.seal.message ≡ message.old.seal.message }
{
    let Some(mut own) = take(alloc, message) else {
        return EMPTY;
    };
    let answer = keys_own(alloc, &mut own, place, keys, first, found, out);
    put(message, own);
    match answer {
        Ok(count) => {
            *counts = count;
            DONE
        }
        Err(miss) => miss_number(miss),
    }
}
