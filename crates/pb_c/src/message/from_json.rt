//! A message of a JSON text.

ghost use Rattle.std.specs.Prelude.{◌≡◌, ◌≢◌, ◌<◌, ◌≤◌, ◌↔◌, ◌⊎◌, None, Some, length, Err, IfOk, IfErr, IsErrAnd, MatchResult};
ghost use Rattle.pb_schema.specs.Types.{Types};
ghost use Rattle.pb_value.specs.Data.{Message};
ghost use Rattle.pb_json_read.specs.Answers.{IsReadBy, IsRefusedBy};
ghost use Rattle.pb_json_read.specs.declared.error.JsonReadError.{JsonReadError as ReadError};
ghost use Rattle.pb_c_handles.specs.Held.{names_held, types_held};
ghost use Rattle.pb_c_answers.specs.Json.Reading.{IsReadHeld, IsRefusedHeld, ReportsRead, rules_of};
ghost use Rattle.pb_c_message.specs.Holds.{message_of};
ghost use Rattle.pb_c_answers.specs.Typed.{HasType, LacksType};

use pb_c_answers::{DONE, EMPTY, MEMORY, NO_TYPE, read_text, rules_of};
use pb_c_handles::message::own::{OwnMessage, boxed};
use pb_c_handles::message::{MessageHandle, hold};
use pb_c_handles::pool::{PoolHandle, put, take};
use pb_json::JsonNames;
use pb_json_read::JsonRules;
use pb_schema::Pool;
use std::alloc::Global;
use std::sync::Arc;

/// A box of the message of a JSON text, by the names that fields are given.
fn boxed_text(
    alloc: Global,
    pool: &Arc<Pool>,
    number: u32,
    json: &[u8],
    rules: JsonRules,
    names: &JsonNames,
    byte: &mut usize,
) -> Result<Box<OwnMessage, Global>, u32>
    ensures read { IfOk result (λ b. (v : Message)
        × IsReadBy pool.now.value rules names.now number json.now v
        × (b.value ≡ message_of pool.now.value number v)) }
    ensures fault { IfErr result (λ a. a ≢ NO_TYPE → a ≢ MEMORY
        → (e : ReadError) × IsRefusedBy pool.now.value rules names.now number json.now e
        × ReportsRead e a byte.new) }
    ensures done { IfOk result (λ b. byte.new ≡ byte.old) }
    ensures unreported { IfErr result (λ a. (a ≡ NO_TYPE) ⊎ (a ≡ MEMORY) → byte.new ≡ byte.old) }
    ensures no_type { result ≡ Err NO_TYPE ↔ length pool.now.value.messages ≤ number }
    ensures answers { IfErr result (λ a. (a ≡ NO_TYPE) ⊎ (a ≡ MEMORY) ⊎ (101 ≤ a)) }
    ensures accepted { number < length pool.now.value.messages → (v : Message)
        → IsReadBy pool.now.value rules names.now number json.now v
        → MatchResult result (λ b. b.value ≡ message_of pool.now.value number v) (λ a. a ≡ MEMORY) }
    ensures refused { number < length pool.now.value.messages → (e : ReadError)
        → IsRefusedBy pool.now.value rules names.now number json.now e
        → IsErrAnd result (λ a. ReportsRead e a byte.new ⊎ (a ≡ MEMORY)) }
{
    match read_text(alloc, pool, number, json, rules, names, byte) {
        Ok(message) => match boxed(alloc, pool, message) {
            Ok(message) => Ok(message),
            Err(_) => Err(MEMORY),
        },
        Err(answer) => Err(answer),
    }
}

/// Reads a message of the type of this number in the pool from a JSON text (ProtoJSON format), in place of what the handle of the message held. The
/// message holds the pool too. A field has the name that the pool's set gives it, in place of its name in lowerCamelCase. `lenient` passes over
/// members that no field has, and over names that an enum does not declare.
///
/// Answers DONE; EMPTY where the handle of the pool holds nothing; NO_TYPE where the pool has no such type; 101 to 109, the cause why the text is
/// refused, with the byte where what is refused begins, counted from 0; or MEMORY. The handle of the message is changed at DONE alone, and the byte
/// is written for a cause alone.
#[unsafe(no_mangle)]
pub extern "C" fn mb_message_from_json(
    alloc: Global,
    pool: &mut PoolHandle,
    message_type: u32,
    json: &[u8],
    lenient: bool,
    message: &mut MessageHandle,
    byte: &mut usize,
) -> u32
    ensures read { result ≡ DONE → (ts : Types) × HasType (types_held pool.old) message_type ts
        × ((v : Message) × IsReadHeld (names_held pool.old) ts
        (rules_of lenient) message_type json.now v
        × (message.new.seal.message ≡ Some (message_of ts message_type v))) }
    ensures fault { result ≢ DONE → result ≢ EMPTY → result ≢ NO_TYPE → result ≢ MEMORY
        → (ts : Types) × HasType (types_held pool.old) message_type ts
        × ((e : ReadError) × IsRefusedHeld (names_held pool.old) ts
        (rules_of lenient) message_type json.now e × ReportsRead e result byte.new) }
    ensures kept { result ≢ DONE → message.new ≡ message.old }
    ensures unreported { (result ≡ DONE) ⊎ (result ≡ EMPTY) ⊎ (result ≡ NO_TYPE) ⊎ (result ≡ MEMORY)
        → byte.new ≡ byte.old }
    ensures empty { result ≡ EMPTY ↔ (types_held pool.old ≡ None) }
    ensures no_type { result ≡ NO_TYPE ↔ LacksType (types_held pool.old) message_type }
    ensures same { pool.new.seal.pool ≡ pool.old.seal.pool }

    // Each message is read and each fault is reported, unless memory runs out.
    ensures accepted { (ts : Types) → HasType (types_held pool.old) message_type ts → (v : Message)
        → IsReadHeld (names_held pool.old) ts (rules_of lenient) message_type json.now v
        → ((result ≡ DONE) × (message.new.seal.message ≡ Some (message_of ts message_type v)))
        ⊎ (result ≡ MEMORY) }
    ensures refused { (ts : Types) → HasType (types_held pool.old) message_type ts → (e : ReadError)
        → IsRefusedHeld (names_held pool.old) ts (rules_of lenient) message_type json.now e
        → ReportsRead e result byte.new ⊎ (result ≡ MEMORY) }
{
    let Some(shared) = take(alloc, pool) else {
        return EMPTY;
    };
    let rules = rules_of(lenient);
    let read = boxed_text(
        alloc,
        &shared.pool,
        message_type,
        json,
        rules,
        &shared.names,
        byte,
    );
    put(pool, shared);
    match read {
        Ok(read) => {
            hold(alloc, message, read);
            DONE
        }
        Err(answer) => answer,
    }
}
