//! Bytes checked as a message.

ghost use Rattle.std.specs.Prelude.{◌≡◌, ◌≢◌, ◌+◌, ◌*◌, ◌<◌, ◌≤◌, ◌↔◌, ◌⊎◌, None, length};
ghost use Rattle.pb_wire.specs.Fault.{Fault};
ghost use Rattle.pb_schema.specs.Types.{Types};
ghost use Rattle.pb_value.specs.Data.{Message};
ghost use Rattle.pb_value.specs.Derives.{Text};
ghost use Rattle.pb_decode.specs.Push.{IsFaultOf};
ghost use Rattle.pb_c_handles.specs.Held.{types_held};
ghost use Rattle.pb_c_answers.specs.Reporting.{AreLimits, Tells, bounds};
ghost use Rattle.pb_c_answers.specs.Typed.{HasType, LacksType};

use pb_c_answers::{
    BAD_LIMITS, DONE, EMPTY, FAULT, FaultReport, MEMORY, NO_TYPE, Step, tell_error, type_numbered,
};
use pb_c_handles::pool::{PoolHandle, put, take};
use pb_decode::validate;
use pb_schema::Pool;
use pb_wire::Limits;
use std::alloc::Global;

/// Checks the bytes as a message of the type of this number in the pool, within the limits: at most `max_bytes` bytes, and messages
/// and groups at most `max_depth` deep.
///
/// Answers DONE where they are one; FAULT with the fault, and as many steps of its path as the buffer holds, of at most
/// `2 * max_depth + 1`; BAD_LIMITS where a limit is above the greatest, EMPTY where the handle holds nothing, and NO_TYPE where its pool
/// has no such type, judged in this order; or MEMORY, where there is none for the path of a fault: nothing else takes any. The fault and the
/// path are written at FAULT alone, and the handle holds what it held.
#[unsafe(no_mangle)]
pub extern "C" fn mb_check(
    alloc: Global,
    pool: &mut PoolHandle,
    message_type: u32,
    bytes: &[u8],
    max_bytes: u32,
    max_depth: u8,
    fault: &mut FaultReport,
    path: &mut [Step],
) -> u32
    ensures text { result ≡ DONE → (ts : Types) × HasType (types_held pool.old) message_type ts
        × ((v : Message) × Text ts message_type (bounds max_bytes max_depth) bytes.now v) }
    ensures fault { result ≡ FAULT → (ts : Types) × HasType (types_held pool.old) message_type ts
        × ((f : Fault) × IsFaultOf ts message_type (bounds max_bytes max_depth) bytes.now f
        × Tells f fault.new path.old path.new) }
    ensures steps { result ≡ FAULT → fault.new.steps ≤ 2 * max_depth + 1 }
    ensures untold { result ≢ FAULT → (fault.new ≡ fault.old) × (path.new ≡ path.old) }
    ensures limits { result ≡ BAD_LIMITS ↔ ¬ AreLimits max_bytes max_depth }
    ensures empty { result ≡ EMPTY ↔ AreLimits max_bytes max_depth × (types_held pool.old ≡ None) }
    ensures no_type { result ≡ NO_TYPE ↔ AreLimits max_bytes max_depth
        × LacksType (types_held pool.old) message_type }
    ensures answers { (result ≡ DONE) ⊎ (result ≡ BAD_LIMITS) ⊎ (result ≡ EMPTY)
        ⊎ (result ≡ NO_TYPE) ⊎ (result ≡ FAULT) ⊎ (result ≡ MEMORY) }
    ensures same { pool.new.seal.pool ≡ pool.old.seal.pool }

    // Each message is accepted, also where no memory is left, and each fault is reported, unless memory for its path runs out.
    ensures accepted { AreLimits max_bytes max_depth → (ts : Types)
        → HasType (types_held pool.old) message_type ts → (v : Message)
        → Text ts message_type (bounds max_bytes max_depth) bytes.now v → result ≡ DONE }
    ensures refused { AreLimits max_bytes max_depth → (ts : Types)
        → HasType (types_held pool.old) message_type ts → (f : Fault)
        → IsFaultOf ts message_type (bounds max_bytes max_depth) bytes.now f
        → ((result ≡ FAULT) × Tells f fault.new path.old path.new) ⊎ (result ≡ MEMORY) }
{
    let Some(limits) = Limits::new(max_bytes, max_depth) else {
        return BAD_LIMITS;
    };
    let Some(shared) = take(alloc, pool) else {
        return EMPTY;
    };
    let answer = check_message(
        alloc,
        &shared.pool,
        message_type,
        bytes,
        limits,
        fault,
        path,
    );
    put(pool, shared);
    answer
}

/// Checks the bytes as a message of the type of a number.
fn check_message(
    alloc: Global,
    pool: &Pool,
    number: u32,
    bytes: &[u8],
    limits: Limits,
    fault: &mut FaultReport,
    path: &mut [Step],
) -> u32
    ensures text { result ≡ DONE → (v : Message) × Text pool.now number limits bytes.now v }
    ensures fault { result ≡ FAULT → (f : Fault) × IsFaultOf pool.now number limits bytes.now f
        × Tells f fault.new path.old path.new }
    ensures untold { result ≢ FAULT → (fault.new ≡ fault.old) × (path.new ≡ path.old) }
    ensures no_type { result ≡ NO_TYPE ↔ length pool.now.messages ≤ number }
    ensures answers { (result ≡ DONE) ⊎ (result ≡ NO_TYPE) ⊎ (result ≡ FAULT) ⊎ (result ≡ MEMORY) }
    ensures accepted { number < length pool.now.messages → (v : Message)
        → Text pool.now number limits bytes.now v → result ≡ DONE }
    ensures refused { number < length pool.now.messages → (f : Fault)
        → IsFaultOf pool.now number limits bytes.now f
        → ((result ≡ FAULT) × Tells f fault.new path.old path.new) ⊎ (result ≡ MEMORY) }
{
    let Some(message_type) = type_numbered(pool, number) else {
        return NO_TYPE;
    };
    match validate(alloc, pool, message_type, bytes, limits) {
        Ok(()) => DONE,
        Err(error) => tell_error(&error, fault, path),
    }
}
