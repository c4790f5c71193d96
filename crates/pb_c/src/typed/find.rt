//! One scalar of a message, read from its bytes.

ghost use Rattle.std.specs.Prelude.{◌≡◌, ◌≢◌, ◌+◌, ◌*◌, ◌<◌, ◌≤◌, ◌↔◌, ◌⊎◌, None, Some, Ok, Err};
ghost use Rattle.pb_wire.specs.Fault.{Fault};
ghost use Rattle.pb_schema.specs.Scalar.{Scalar};
ghost use Rattle.pb_schema.specs.Types.{Types};
ghost use Rattle.pb_value.specs.Data.{Message};
ghost use Rattle.pb_value.specs.Derives.{Text};
ghost use Rattle.pb_decode.specs.Push.{IsFaultOf};
ghost use Rattle.pb_find.specs.ScalarAt.{IsFound, scalar_at};
ghost use Rattle.pb_find.specs.View.{scalar_view};
ghost use Rattle.pb_c_handles.specs.Held.{types_held};
ghost use Rattle.pb_c_answers.specs.Reporting.{AreLimits, Tells, bounds};
ghost use Rattle.pb_c_message.specs.Holds.{message_of};
ghost use Rattle.pb_c_answers.specs.Typed.{HasType, LacksType};
ghost use Rattle.pb_c.specs.Typed.Found.{Reports, TellsFound};

use pb_c_answers::{
    ABSENT, BAD_LIMITS, DONE, EMPTY, FAULT, FaultReport, MEMORY, NO_TYPE, Step, lay_over,
    tell_error, type_numbered,
};
use pb_c_handles::pool::{PoolHandle, put, take};
use pb_c_message::{PlainValue, scalar_bytes, scalar_value};
use pb_decode::DecodeError;
use pb_find::{ScalarRef, find};
use pb_wire::Limits;
use std::alloc::Global;

/// Reports a scalar.
fn report_scalar(scalar: ScalarRef<'_>, value: &mut PlainValue, out: &mut [u8])
    ensures { Reports (scalar_view scalar.entry) value.new out.old out.new }
{
    *value = scalar_value(scalar);
    lay_over(scalar_bytes(scalar), out);
}

/// Reports what was found, and answers accordingly.
fn tell_found(
    found: Result<Option<ScalarRef<'_>>, DecodeError>,
    value: &mut PlainValue,
    out: &mut [u8],
    fault: &mut FaultReport,
    path: &mut [Step],
) -> u32
    ensures told { TellsFound found.entry result value.new out.old out.new fault.new path.old
        path.new }
    ensures unreported { result ≢ DONE → (value.new ≡ value.old) × (out.new ≡ out.old) }
    ensures untold { result ≢ FAULT → (fault.new ≡ fault.old) × (path.new ≡ path.old) }
    ensures answers { (result ≡ DONE) ⊎ (result ≡ ABSENT) ⊎ (result ≡ FAULT) ⊎ (result ≡ MEMORY) }
{
    match found {
        Ok(Some(scalar)) => {
            report_scalar(scalar, value, out);
            DONE
        }
        Ok(None) => ABSENT,
        Err(error) => tell_error(&error, fault, path),
    }
}

/// Finds the scalar that the message, which the bytes are, has at a path of field numbers, without building it: each number but the last is
/// a field of one message, and the last a field of one scalar. Of a string or bytes as much is written as the buffer holds.
///
/// Answers as `mb_check` does, but for ABSENT where the message has no such scalar. The value and its bytes are written at DONE alone.
#[unsafe(no_mangle)]
pub extern "C" fn mb_find(
    alloc: Global,
    pool: &mut PoolHandle,
    message_type: u32,
    bytes: &[u8],
    max_bytes: u32,
    max_depth: u8,
    numbers: &[u32],
    value: &mut PlainValue,
    out: &mut [u8],
    fault: &mut FaultReport,
    path: &mut [Step],
) -> u32
    ensures found { result ≡ DONE → (ts : Types) × HasType (types_held pool.old) message_type ts
        × ((x : Scalar) × IsFound ts message_type (bounds max_bytes max_depth) bytes.now numbers.now
        (Some x) × Reports x value.new out.old out.new) }
    ensures absent { result ≡ ABSENT → (ts : Types) × HasType (types_held pool.old) message_type ts
        × IsFound ts message_type (bounds max_bytes max_depth) bytes.now numbers.now None }
    ensures fault { result ≡ FAULT → (ts : Types) × HasType (types_held pool.old) message_type ts
        × ((f : Fault) × IsFaultOf ts message_type (bounds max_bytes max_depth) bytes.now f
        × Tells f fault.new path.old path.new) }
    ensures steps { result ≡ FAULT → fault.new.steps ≤ 2 * max_depth + 1 }
    ensures unreported { result ≢ DONE → (value.new ≡ value.old) × (out.new ≡ out.old) }
    ensures untold { result ≢ FAULT → (fault.new ≡ fault.old) × (path.new ≡ path.old) }
    ensures limits { result ≡ BAD_LIMITS ↔ ¬ AreLimits max_bytes max_depth }
    ensures empty { result ≡ EMPTY ↔ AreLimits max_bytes max_depth × (types_held pool.old ≡ None) }
    ensures no_type { result ≡ NO_TYPE ↔ AreLimits max_bytes max_depth
        × LacksType (types_held pool.old) message_type }
    ensures answers { (result ≡ DONE) ⊎ (result ≡ ABSENT) ⊎ (result ≡ BAD_LIMITS) ⊎ (result ≡ EMPTY)
        ⊎ (result ≡ NO_TYPE) ⊎ (result ≡ FAULT) ⊎ (result ≡ MEMORY) }
    ensures same { pool.new.seal.pool ≡ pool.old.seal.pool }

    // What the message has is found, also where no memory is left, and each fault is reported, unless memory for its path runs out.
    ensures reported { AreLimits max_bytes max_depth → (ts : Types)
        → HasType (types_held pool.old) message_type ts → (v : Message)
        → Text ts message_type (bounds max_bytes max_depth) bytes.now v → (x : Scalar)
        → scalar_at numbers.now (message_of ts message_type v) ≡ Some x
        → (result ≡ DONE) × Reports x value.new out.old out.new }
    ensures missing { AreLimits max_bytes max_depth → (ts : Types)
        → HasType (types_held pool.old) message_type ts → (v : Message)
        → Text ts message_type (bounds max_bytes max_depth) bytes.now v
        → scalar_at numbers.now (message_of ts message_type v) ≡ None → result ≡ ABSENT }
    ensures refused { AreLimits max_bytes max_depth → (ts : Types)
        → HasType (types_held pool.old) message_type ts → (f : Fault)
        → IsFaultOf ts message_type (bounds max_bytes max_depth) bytes.now f
        → ((result ≡ FAULT) × Tells f fault.new path.old path.new) ⊎ (result ≡ MEMORY) }
{
    let Some(limits) = Limits::new(max_bytes, max_depth) else {
        return BAD_LIMITS;
    };
    let Some(shared) = take(alloc, pool) else {
        return EMPTY;
    };
    let Some(of_type) = type_numbered(&shared.pool, message_type) else {
        put(pool, shared);
        return NO_TYPE;
    };
    let found = find(alloc, &shared.pool, of_type, bytes, limits, numbers);
    put(pool, shared);
    tell_found(found, value, out, fault, path)
}
