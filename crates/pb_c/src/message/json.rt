//! The JSON of a message that a handle holds.

ghost use Rattle.std.specs.Prelude.{◌≡◌, ◌≢◌, ◌↔◌, ◌⊎◌, None, Some};
ghost use Rattle.pb_value.specs.Dynamic.{Dynamic};
ghost use Rattle.pb_json.specs.Refusals.{Refused, refused};
ghost use Rattle.pb_json.specs.Given.{NamesGiven};
ghost use Rattle.pb_c_handles.specs.Held.{names_held, types_held};
ghost use Rattle.pb_c_answers.specs.Json.Writing.{IsJsonLaid, IsJsonLaidBy, RefusesAs};

use pb_c_answers::{DONE, EMPTY, MEMORY, form_of, write_as_json};
use pb_c_handles::message::own::OwnMessage;
use pb_c_handles::message::{MessageHandle, put, take};
use pb_c_handles::pool::{self as pools, PoolHandle};
use pb_c_message::{Held, take_body};
use pb_json::JsonForm;
use pb_value::bodies::from_well_formed;
use std::alloc::Global;

/// Writes the JSON of a message that is owned.
fn json_own(
    alloc: Global,
    own: &mut OwnMessage,
    form: JsonForm<'_>,
    out: &mut [u8],
    size: &mut usize,
    path: &mut [u32],
    steps: &mut usize,
) -> u32
    ensures written { result ≡ DONE → IsJsonLaid form.entry own.old out.old out.new size.new }
    ensures unwritten { result ≢ DONE → (out.new ≡ out.old) × (size.new ≡ size.old) }
    ensures formless { result ≢ DONE → result ≢ MEMORY
        → (r : Refused) × (refused own.old ≡ Some r)
        × RefusesAs r result path.old path.new steps.new }
    ensures unreported { (result ≡ DONE) ⊎ (result ≡ MEMORY)
        → (path.new ≡ path.old) × (steps.new ≡ steps.old) }
    ensures accepted { refused own.old ≡ None → (result ≡ DONE) ⊎ (result ≡ MEMORY) }
    ensures refused { (r : Refused) → refused own.old ≡ Some r
        → RefusesAs r result path.old path.new steps.new ⊎ (result ≡ MEMORY) }
    ensures same { own.new ≡ own.old }
{
    let Some(body) = take_body(alloc, &own.pool, own.message_type, &mut own.held) else {
        return MEMORY;
    };
    let message = from_well_formed(alloc, &own.pool, own.message_type, body);
    let answer = write_as_json(&message, form, out, size, path, steps);
    own.held = Held::Fields(message.into_body());
    answer
}

/// Writes the JSON of the message that a handle holds.
fn json_held(
    alloc: Global,
    message: &mut MessageHandle,
    form: JsonForm<'_>,
    out: &mut [u8],
    size: &mut usize,
    path: &mut [u32],
    steps: &mut usize,
) -> u32
    ensures written { result ≡ DONE → (m : Dynamic) × (message.old.seal.message ≡ Some m)
        × IsJsonLaid form.entry m out.old out.new size.new }
    ensures unwritten { result ≢ DONE → (out.new ≡ out.old) × (size.new ≡ size.old) }
    ensures formless { result ≢ DONE → result ≢ EMPTY → result ≢ MEMORY
        → (m : Dynamic) × (message.old.seal.message ≡ Some m)
        × ((r : Refused) × (refused m ≡ Some r) × RefusesAs r result path.old path.new steps.new) }
    ensures unreported { (result ≡ DONE) ⊎ (result ≡ EMPTY) ⊎ (result ≡ MEMORY)
        → (path.new ≡ path.old) × (steps.new ≡ steps.old) }
    ensures empty { result ≡ EMPTY ↔ (message.old.seal.message ≡ None) }
    ensures same { message.new.seal.message ≡ message.old.seal.message }
    ensures accepted { (m : Dynamic) → message.old.seal.message ≡ Some m → refused m ≡ None
        → (result ≡ DONE) ⊎ (result ≡ MEMORY) }
    ensures refused { (m : Dynamic) (r : Refused) → message.old.seal.message ≡ Some m
        → refused m ≡ Some r → RefusesAs r result path.old path.new steps.new ⊎ (result ≡ MEMORY) }
{
    let Some(mut own) = take(alloc, message) else {
        return EMPTY;
    };
    let answer = json_own(alloc, &mut own, form, out, size, path, steps);
    put(message, own);
    answer
}

/// Writes the message as JSON (ProtoJSON format), as much of it as the buffer holds, and reports its whole length. `declared_names` has the
/// fields' names as declared; else a field has the name that the pool's set gives it, or its name in lowerCamelCase. `indented` has a line for each
/// member and element. The pool is the one that the message is of: its names go by the numbers of its message types.
///
/// Answers DONE; EMPTY where one of the handles holds nothing; 91 to 95, the cause why a part of the message has no JSON form, with the field numbers
/// that lead there and how many they are; or MEMORY. What an answer does not belong to is not written.
#[unsafe(no_mangle)]
pub extern "C" fn mb_message_json(
    alloc: Global,
    pool: &mut PoolHandle,
    message: &mut MessageHandle,
    declared_names: bool,
    indented: bool,
    out: &mut [u8],
    size: &mut usize,
    path: &mut [u32],
    steps: &mut usize,
) -> u32
    ensures written { result ≡ DONE → (given : NamesGiven) × (names_held pool.old ≡ Some given)
        × ((m : Dynamic) × (message.old.seal.message ≡ Some m)
        × IsJsonLaidBy given declared_names indented m out.old out.new size.new) }
    ensures unwritten { result ≢ DONE → (out.new ≡ out.old) × (size.new ≡ size.old) }
    ensures formless { result ≢ DONE → result ≢ EMPTY → result ≢ MEMORY
        → (m : Dynamic) × (message.old.seal.message ≡ Some m)
        × ((r : Refused) × (refused m ≡ Some r) × RefusesAs r result path.old path.new steps.new) }
    ensures unreported { (result ≡ DONE) ⊎ (result ≡ EMPTY) ⊎ (result ≡ MEMORY)
        → (path.new ≡ path.old) × (steps.new ≡ steps.old) }
    ensures empty { result ≡ EMPTY ↔ (types_held pool.old ≡ None)
        ⊎ (message.old.seal.message ≡ None) }
    ensures same { message.new.seal.message ≡ message.old.seal.message }
    ensures same_pool { pool.new.seal.pool ≡ pool.old.seal.pool }

    // By the names that a handle holds, each message that has a JSON form is written and each other one is refused, unless memory runs out.
    ensures accepted { (given : NamesGiven) (m : Dynamic) → names_held pool.old ≡ Some given
        → message.old.seal.message ≡ Some m → refused m ≡ None
        → (result ≡ DONE) ⊎ (result ≡ MEMORY) }
    ensures refused { (given : NamesGiven) (m : Dynamic) (r : Refused)
        → names_held pool.old ≡ Some given → message.old.seal.message ≡ Some m → refused m ≡ Some r
        → RefusesAs r result path.old path.new steps.new ⊎ (result ≡ MEMORY) }
{
    let Some(shared) = pools::take(alloc, pool) else {
        return EMPTY;
    };
    let form = form_of(declared_names, indented, &shared.names);
    let answer = json_held(alloc, message, form, out, size, path, steps);
    pools::put(pool, shared);
    answer
}
