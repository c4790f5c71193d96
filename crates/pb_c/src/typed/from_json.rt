//! The canonical bytes of a JSON text.

ghost use Rattle.std.specs.Prelude.{◌≡◌, ◌≢◌, ◌<◌, ◌≤◌, ◌^◌, ◌↔◌, ◌⊎◌, None, length};
ghost use Rattle.pb_schema.specs.Types.{Types};
ghost use Rattle.pb_value.specs.Canon.{canon_bytes};
ghost use Rattle.pb_value.specs.Data.{Message};
ghost use Rattle.pb_json_read.specs.declared.error.JsonReadError.{JsonReadError as ReadError};
ghost use Rattle.pb_c_answers.specs.Json.Reading.{IsReadHeld, IsRefusedHeld, ReportsRead, rules_of};
ghost use Rattle.pb_c_answers.specs.Reporting.{IsLaid};
ghost use Rattle.pb_c_answers.specs.Typed.{HasType, LacksType};
ghost use Rattle.pb_c_handles.specs.Held.{names_held, types_held};

use pb_c_answers::{DONE, EMPTY, MEMORY, NO_TYPE, TOO_LARGE, canonical_text, rules_of, write_out};
use pb_c_handles::pool::{PoolHandle, put, take};
use std::alloc::Global;

/// Writes the canonical bytes of the message of the type of this number in the pool that a JSON text is (ProtoJSON format), as many as the buffer holds,
/// and reports how many there are. Fields have their names as in `mb_message_from_json`. `lenient` passes over members that no field has, and over
/// names that an enum does not declare.
///
/// Answers as `mb_message_from_json` does, and TOO_LARGE where the canonical bytes would be more than 2^31 - 1. They and their number are written at
/// DONE alone, and the byte is written for a cause alone.
#[unsafe(no_mangle)]
pub extern "C" fn mb_from_json(
    alloc: Global,
    pool: &mut PoolHandle,
    message_type: u32,
    json: &[u8],
    lenient: bool,
    out: &mut [u8],
    size: &mut usize,
    byte: &mut usize,
) -> u32
    ensures written { result ≡ DONE → (ts : Types) × HasType (types_held pool.old) message_type ts
        × ((v : Message) × IsReadHeld (names_held pool.old) ts
        (rules_of lenient) message_type json.now v
        × (length (canon_bytes ts message_type v) < 2 ^ 31)
        × IsLaid (canon_bytes ts message_type v) out.old out.new size.new) }
    ensures too_large { result ≡ TOO_LARGE → (ts : Types)
        × HasType (types_held pool.old) message_type ts
        × ((v : Message) × IsReadHeld (names_held pool.old) ts
        (rules_of lenient) message_type json.now v
        × (2 ^ 31 ≤ length (canon_bytes ts message_type v))) }
    ensures fault { result ≢ DONE → result ≢ EMPTY → result ≢ NO_TYPE → result ≢ TOO_LARGE
        → result ≢ MEMORY → (ts : Types) × HasType (types_held pool.old) message_type ts
        × ((e : ReadError) × IsRefusedHeld (names_held pool.old) ts
        (rules_of lenient) message_type json.now e × ReportsRead e result byte.new) }
    ensures unwritten { result ≢ DONE → (out.new ≡ out.old) × (size.new ≡ size.old) }
    ensures unreported { (result ≡ DONE) ⊎ (result ≡ EMPTY) ⊎ (result ≡ NO_TYPE)
        ⊎ (result ≡ TOO_LARGE) ⊎ (result ≡ MEMORY) → byte.new ≡ byte.old }
    ensures empty { result ≡ EMPTY ↔ (types_held pool.old ≡ None) }
    ensures no_type { result ≡ NO_TYPE ↔ LacksType (types_held pool.old) message_type }
    ensures same { pool.new.seal.pool ≡ pool.old.seal.pool }

    // The canonical bytes of each message that is read are written and each fault is reported, unless memory runs out.
    ensures accepted { (ts : Types) → HasType (types_held pool.old) message_type ts → (v : Message)
        → IsReadHeld (names_held pool.old) ts (rules_of lenient) message_type json.now v
        → length (canon_bytes ts message_type v) < 2 ^ 31
        → ((result ≡ DONE) × IsLaid (canon_bytes ts message_type v) out.old out.new size.new)
        ⊎ (result ≡ MEMORY) }
    ensures oversized { (ts : Types) → HasType (types_held pool.old) message_type ts → (v : Message)
        → IsReadHeld (names_held pool.old) ts (rules_of lenient) message_type json.now v
        → 2 ^ 31 ≤ length (canon_bytes ts message_type v)
        → (result ≡ TOO_LARGE) ⊎ (result ≡ MEMORY) }
    ensures refused { (ts : Types) → HasType (types_held pool.old) message_type ts → (e : ReadError)
        → IsRefusedHeld (names_held pool.old) ts (rules_of lenient) message_type json.now e
        → ReportsRead e result byte.new ⊎ (result ≡ MEMORY) }
{
    let Some(shared) = take(alloc, pool) else {
        return EMPTY;
    };
    let rules = rules_of(lenient);
    let read = canonical_text(
        alloc,
        &shared.pool,
        message_type,
        json,
        rules,
        &shared.names,
        byte,
    );
    put(pool, shared);
    match read {
        Ok(bytes) => {
            write_out(&bytes, out, size);
            DONE
        }
        Err(answer) => answer,
    }
}
