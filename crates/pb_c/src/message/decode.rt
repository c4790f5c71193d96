//! A message of bytes.

ghost use Rattle.std.specs.Prelude.{◌≡◌, ◌≢◌, ◌+◌, ◌*◌, ◌<◌, ◌≤◌, ◌↔◌, ◌⊎◌, None, Some, length, Err, IfOk, IfErr, IsErrAnd, MatchResult};
ghost use Rattle.pb_wire.specs.Fault.{Fault};
ghost use Rattle.pb_schema.specs.Types.{Types};
ghost use Rattle.pb_value.specs.Data.{Message};
ghost use Rattle.pb_value.specs.Derives.{Text};
ghost use Rattle.pb_decode.specs.Push.{IsFaultOf};
ghost use Rattle.pb_c_handles.specs.Held.{types_held};
ghost use Rattle.pb_c_answers.specs.Reporting.{AreLimits, Tells, bounds};
ghost use Rattle.pb_c_message.specs.Holds.{message_of};
ghost use Rattle.pb_c_answers.specs.Typed.{HasType, LacksType};

use super::copy::bytes_copied;
use crate::typed::canonical::is_known_canonical;
use pb_c_answers::{
    BAD_LIMITS, DONE, EMPTY, FAULT, FaultReport, MEMORY, NO_TYPE, Step, read_message,
};
use pb_c_handles::message::own::{OwnMessage, boxed};
use pb_c_handles::message::{MessageHandle, hold};
use pb_c_handles::pool::{PoolHandle, put, take};
use pb_schema::{MessageId, Pool};
use pb_wire::Limits;
use std::alloc::Global;
use std::sync::Arc;

/// The message of the bytes, by its type's number: the bytes themselves, where they are canonical, and else the fields. Where there is none, a fault is
/// reported, and the error is what a call answers.
fn decode_message(
    alloc: Global,
    pool: &Arc<Pool>,
    number: u32,
    bytes: &[u8],
    limits: Limits,
    fault: &mut FaultReport,
    path: &mut [Step],
) -> Result<Box<OwnMessage, Global>, u32>
    ensures text { IfOk result (λ b. (v : Message) × Text pool.now.value number limits bytes.now v
        × (b.value ≡ message_of pool.now.value number v)) }
    ensures fault { IfErr result (λ a. a ≡ FAULT
        → (f : Fault) × IsFaultOf pool.now.value number limits bytes.now f
        × Tells f fault.new path.old path.new) }
    ensures untold { result ≢ Err FAULT → (fault.new ≡ fault.old) × (path.new ≡ path.old) }
    ensures no_type { result ≡ Err NO_TYPE ↔ length pool.now.value.messages ≤ number }
    ensures answers { IfErr result (λ a. (a ≡ NO_TYPE) ⊎ (a ≡ FAULT) ⊎ (a ≡ MEMORY)) }
    ensures accepted { number < length pool.now.value.messages → (v : Message)
        → Text pool.now.value number limits bytes.now v
        → MatchResult result (λ b. b.value ≡ message_of pool.now.value number v) (λ a. a ≡ MEMORY) }
    ensures refused { number < length pool.now.value.messages → (f : Fault)
        → IsFaultOf pool.now.value number limits bytes.now f
        → IsErrAnd result (λ a. ((a ≡ FAULT) × Tells f fault.new path.old path.new)
        ⊎ (a ≡ MEMORY)) }
{
    if is_known_canonical(alloc, pool, number, bytes, limits) {
        return bytes_copied(alloc, pool, MessageId(number as usize), bytes);
    }
    match read_message(alloc, pool, number, bytes, limits, fault, path) {
        Ok(message) => match boxed(alloc, pool, message) {
            Ok(message) => Ok(message),
            Err(_) => Err(MEMORY),
        },
        Err(answer) => Err(answer),
    }
}

/// Decodes the bytes as a message of the type of this number in the pool, in place of what the handle of the message held. The message holds
/// the pool too, which is freed with the last handle that holds it.
///
/// Canonical bytes, as most in a pipeline are, are checked and copied: fields are built of them by the first call that needs them, which
/// answers MEMORY where there is none for that.
///
/// Answers as `mb_check` does, and MEMORY also where there is none for the message. The handle of the message is changed at DONE alone.
#[unsafe(no_mangle)]
pub extern "C" fn mb_message_decode(
    alloc: Global,
    pool: &mut PoolHandle,
    message_type: u32,
    bytes: &[u8],
    max_bytes: u32,
    max_depth: u8,
    message: &mut MessageHandle,
    fault: &mut FaultReport,
    path: &mut [Step],
) -> u32
    ensures text { result ≡ DONE → (ts : Types) × HasType (types_held pool.old) message_type ts
        × ((v : Message) × Text ts message_type (bounds max_bytes max_depth) bytes.now v
        × (message.new.seal.message ≡ Some (message_of ts message_type v))) }
    ensures fault { result ≡ FAULT → (ts : Types) × HasType (types_held pool.old) message_type ts
        × ((f : Fault) × IsFaultOf ts message_type (bounds max_bytes max_depth) bytes.now f
        × Tells f fault.new path.old path.new) }
    ensures steps { result ≡ FAULT → fault.new.steps ≤ 2 * max_depth + 1 }
    ensures kept { result ≢ DONE → message.new ≡ message.old }
    ensures untold { result ≢ FAULT → (fault.new ≡ fault.old) × (path.new ≡ path.old) }
    ensures limits { result ≡ BAD_LIMITS ↔ ¬ AreLimits max_bytes max_depth }
    ensures empty { result ≡ EMPTY ↔ AreLimits max_bytes max_depth × (types_held pool.old ≡ None) }
    ensures no_type { result ≡ NO_TYPE ↔ AreLimits max_bytes max_depth
        × LacksType (types_held pool.old) message_type }
    ensures answers { (result ≡ DONE) ⊎ (result ≡ BAD_LIMITS) ⊎ (result ≡ EMPTY)
        ⊎ (result ≡ NO_TYPE) ⊎ (result ≡ FAULT) ⊎ (result ≡ MEMORY) }
    ensures same { pool.new.seal.pool ≡ pool.old.seal.pool }

    // Each message is decoded and each fault is reported, unless memory runs out.
    ensures accepted { AreLimits max_bytes max_depth → (ts : Types)
        → HasType (types_held pool.old) message_type ts → (v : Message)
        → Text ts message_type (bounds max_bytes max_depth) bytes.now v
        → ((result ≡ DONE) × (message.new.seal.message ≡ Some (message_of ts message_type v)))
        ⊎ (result ≡ MEMORY) }
    ensures refused { AreLimits max_bytes max_depth → (ts : Types)
        → HasType (types_held pool.old) message_type ts → (f : Fault)
        → IsFaultOf ts message_type (bounds max_bytes max_depth) bytes.now f
        → ((result ≡ FAULT) × Tells f fault.new path.old path.new) ⊎ (result ≡ MEMORY) }
{
    let Some(limits) = Limits::new(max_bytes, max_depth) else {
        return BAD_LIMITS;
    };
    let Some(shared) = take(alloc, pool) else {
        return EMPTY;
    };
    let decoded = decode_message(
        alloc,
        &shared.pool,
        message_type,
        bytes,
        limits,
        fault,
        path,
    );
    put(pool, shared);
    match decoded {
        Ok(decoded) => {
            hold(alloc, message, decoded);
            DONE
        }
        Err(answer) => answer,
    }
}
