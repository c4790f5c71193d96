//! The canonical bytes of a message.

ghost use Rattle.std.specs.Prelude.{◌≡◌, ◌≢◌, ◌+◌, ◌*◌, ◌<◌, ◌≤◌, ◌^◌, ◌↔◌, ◌⊎◌, None, length};
ghost use Rattle.pb_wire.specs.Fault.{Fault};
ghost use Rattle.pb_value.specs.Canon.{canon_bytes};
ghost use Rattle.pb_schema.specs.Types.{Types};
ghost use Rattle.pb_value.specs.Data.{Message};
ghost use Rattle.pb_value.specs.Derives.{Text};
ghost use Rattle.pb_canonical.specs.Canonical.{IsCanonical};
ghost use Rattle.pb_encode.specs.Encoding.{bytes_of};
ghost use Rattle.pb_decode.specs.Push.{IsFaultOf};
ghost use Rattle.pb_c_handles.specs.Held.{types_held};
ghost use Rattle.pb_c.specs.Typed.Input.{AreCanonical, Encodes, HasFault, IsTyped, IsUntyped, canon_of};
ghost use Rattle.pb_c_answers.specs.Reporting.{AreLimits, IsLaid, Tells, bounds};
ghost use Rattle.pb_c_answers.specs.Typed.{HasType, LacksType};

use crate::typed::canonical::is_known_canonical;
use crate::typed::input::TypedInput;
use pb_c_answers::{
    BAD_LIMITS, DONE, EMPTY, FAULT, FaultReport, MEMORY, NO_TYPE, Step, TOO_LARGE, read_message,
    write_out,
};
use pb_c_handles::pool::{PoolHandle, put, take};
use pb_encode::{EncodeError, encode};
use pb_value::DynamicMessage;
use pb_wire::Limits;
use std::alloc::Global;

/// Writes the canonical bytes of the message that the bytes are, as many as the buffer holds, and reports how many there are.
///
/// Bytes that are canonical already, as most in a pipeline are, are checked and copied: no message is built of them, and no memory is taken.
///
/// Answers as `mb_check` does, and TOO_LARGE where the canonical bytes would be more than 2^31 - 1. They and their number are written
/// at DONE alone, so where the reported number is above the buffer's length, call again with a buffer of that length.
#[unsafe(no_mangle)]
pub extern "C" fn mb_canon(
    alloc: Global,
    pool: &mut PoolHandle,
    message_type: u32,
    bytes: &[u8],
    max_bytes: u32,
    max_depth: u8,
    out: &mut [u8],
    size: &mut usize,
    fault: &mut FaultReport,
    path: &mut [Step],
) -> u32
    ensures text { result ≡ DONE → (ts : Types) × HasType (types_held pool.old) message_type ts
        × ((v : Message) × Text ts message_type (bounds max_bytes max_depth) bytes.now v
        × (length (canon_bytes ts message_type v) < 2 ^ 31)
        × IsLaid (canon_bytes ts message_type v) out.old out.new size.new) }
    ensures too_large { result ≡ TOO_LARGE → (ts : Types)
        × HasType (types_held pool.old) message_type ts
        × ((v : Message) × Text ts message_type (bounds max_bytes max_depth) bytes.now v
        × (2 ^ 31 ≤ length (canon_bytes ts message_type v))) }
    ensures fault { result ≡ FAULT → (ts : Types) × HasType (types_held pool.old) message_type ts
        × ((f : Fault) × IsFaultOf ts message_type (bounds max_bytes max_depth) bytes.now f
        × Tells f fault.new path.old path.new) }
    ensures steps { result ≡ FAULT → fault.new.steps ≤ 2 * max_depth + 1 }
    ensures unwritten { result ≢ DONE → (out.new ≡ out.old) × (size.new ≡ size.old) }
    ensures untold { result ≢ FAULT → (fault.new ≡ fault.old) × (path.new ≡ path.old) }
    ensures limits { result ≡ BAD_LIMITS ↔ ¬ AreLimits max_bytes max_depth }
    ensures empty { result ≡ EMPTY ↔ AreLimits max_bytes max_depth × (types_held pool.old ≡ None) }
    ensures no_type { result ≡ NO_TYPE ↔ AreLimits max_bytes max_depth
        × LacksType (types_held pool.old) message_type }
    ensures answers { (result ≡ DONE) ⊎ (result ≡ BAD_LIMITS) ⊎ (result ≡ EMPTY)
        ⊎ (result ≡ NO_TYPE) ⊎ (result ≡ TOO_LARGE) ⊎ (result ≡ FAULT) ⊎ (result ≡ MEMORY) }
    ensures same { pool.new.seal.pool ≡ pool.old.seal.pool }

    // Each valid input is accepted and each fault is reported, unless memory runs out.
    ensures accepted { AreLimits max_bytes max_depth → (ts : Types)
        → HasType (types_held pool.old) message_type ts → (v : Message)
        → Text ts message_type (bounds max_bytes max_depth) bytes.now v
        → length (canon_bytes ts message_type v) < 2 ^ 31
        → ((result ≡ DONE) × IsLaid (canon_bytes ts message_type v) out.old out.new size.new)
        ⊎ (result ≡ MEMORY) }
    ensures oversized { AreLimits max_bytes max_depth → (ts : Types)
        → HasType (types_held pool.old) message_type ts → (v : Message)
        → Text ts message_type (bounds max_bytes max_depth) bytes.now v
        → 2 ^ 31 ≤ length (canon_bytes ts message_type v)
        → (result ≡ TOO_LARGE) ⊎ (result ≡ MEMORY) }
    ensures refused { AreLimits max_bytes max_depth → (ts : Types)
        → HasType (types_held pool.old) message_type ts → (f : Fault)
        → IsFaultOf ts message_type (bounds max_bytes max_depth) bytes.now f
        → ((result ≡ FAULT) × Tells f fault.new path.old path.new) ⊎ (result ≡ MEMORY) }

    // What is canonical already is copied, whatever memory is left.
    ensures copied { AreLimits max_bytes max_depth → (ts : Types)
        → HasType (types_held pool.old) message_type ts → IsCanonical ts message_type bytes.now
        → (v : Message) → Text ts message_type (bounds max_bytes max_depth) bytes.now v
        → result ≡ DONE }
{
    let Some(limits) = Limits::new(max_bytes, max_depth) else {
        return BAD_LIMITS;
    };
    let Some(shared) = take(alloc, pool) else {
        return EMPTY;
    };
    let input = TypedInput {
        pool: &shared.pool,
        type_number: message_type,
        bytes,
        limits,
    };
    let answer = canon_message(alloc, input, out, size, fault, path);
    put(pool, shared);
    answer
}

/// Writes the canonical bytes of the message that the bytes are, by its type's number.
fn canon_message(
    alloc: Global,
    input: TypedInput<'_>,
    out: &mut [u8],
    size: &mut usize,
    fault: &mut FaultReport,
    path: &mut [Step],
) -> u32
    ensures text { result ≡ DONE → (v : Message) × Encodes input.entry v
        × (length (canon_of input.entry v) < 2 ^ 31)
        × IsLaid (canon_of input.entry v) out.old out.new size.new }
    ensures too_large { result ≡ TOO_LARGE → (v : Message) × Encodes input.entry v
        × (2 ^ 31 ≤ length (canon_of input.entry v)) }
    ensures fault { result ≡ FAULT → (f : Fault) × HasFault input.entry f
        × Tells f fault.new path.old path.new }
    ensures unwritten { result ≢ DONE → (out.new ≡ out.old) × (size.new ≡ size.old) }
    ensures untold { result ≢ FAULT → (fault.new ≡ fault.old) × (path.new ≡ path.old) }
    ensures no_type { result ≡ NO_TYPE ↔ IsUntyped input.entry }
    ensures answers { (result ≡ DONE) ⊎ (result ≡ TOO_LARGE) ⊎ (result ≡ NO_TYPE) ⊎ (result ≡ FAULT)
        ⊎ (result ≡ MEMORY) }
    ensures accepted { IsTyped input.entry → (v : Message) → Encodes input.entry v
        → length (canon_of input.entry v) < 2 ^ 31
        → ((result ≡ DONE) × IsLaid (canon_of input.entry v) out.old out.new size.new)
        ⊎ (result ≡ MEMORY) }
    ensures oversized { IsTyped input.entry → (v : Message) → Encodes input.entry v
        → 2 ^ 31 ≤ length (canon_of input.entry v) → (result ≡ TOO_LARGE) ⊎ (result ≡ MEMORY) }
    ensures refused { IsTyped input.entry → (f : Fault) → HasFault input.entry f
        → ((result ≡ FAULT) × Tells f fault.new path.old path.new) ⊎ (result ≡ MEMORY) }
    ensures copied { IsTyped input.entry → AreCanonical input.entry
        → (v : Message) → Encodes input.entry v → result ≡ DONE }
{
    if is_known_canonical(
        alloc,
        input.pool,
        input.type_number,
        input.bytes,
        input.limits,
    ) {
        write_out(input.bytes, out, size);
        return DONE;
    }
    match read_message(
        alloc,
        input.pool,
        input.type_number,
        input.bytes,
        input.limits,
        fault,
        path,
    ) {
        Ok(message) => write_canonical(&message, out, size),
        Err(answer) => answer,
    }
}

/// Writes the canonical bytes of a message.
pub(crate) fn write_canonical(message: &DynamicMessage<'_>, out: &mut [u8], size: &mut usize) -> u32
    ensures written { result ≡ DONE → (length (bytes_of message.now) < 2 ^ 31)
        × IsLaid (bytes_of message.now) out.old out.new size.new }
    ensures too_large { result ≡ TOO_LARGE → 2 ^ 31 ≤ length (bytes_of message.now) }
    ensures unwritten { result ≢ DONE → (out.new ≡ out.old) × (size.new ≡ size.old) }
    ensures answers { (result ≡ DONE) ⊎ (result ≡ TOO_LARGE) ⊎ (result ≡ MEMORY) }
{
    match encode(message) {
        Ok(canonical) => {
            write_out(&canonical, out, size);
            DONE
        }
        Err(EncodeError::TooLarge) => TOO_LARGE,
        Err(EncodeError::Memory | EncodeError::Device { written: _ }) => MEMORY,
    }
}
