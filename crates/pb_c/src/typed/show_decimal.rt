//! The listing of a message, with floats in decimal.

ghost use Rattle.std.specs.Prelude.{◌≡◌, ◌≢◌, ◌+◌, ◌*◌, ◌≤◌, ◌↔◌, ◌⊎◌, None};
ghost use Rattle.pb_wire.specs.Fault.{Fault};
ghost use Rattle.pb_schema.specs.Types.{Types};
ghost use Rattle.pb_value.specs.Data.{Message};
ghost use Rattle.pb_value.specs.Derives.{Text};
ghost use Rattle.pb_decode.specs.Push.{IsFaultOf};
ghost use Rattle.pb_c_handles.specs.Held.{types_held};
ghost use Rattle.pb_c.specs.Message.Listed.{IsListedDecimal};
ghost use Rattle.pb_c_answers.specs.Reporting.{AreLimits, Tells, bounds};
ghost use Rattle.pb_c_message.specs.Holds.{message_of};
ghost use Rattle.pb_c_answers.specs.Typed.{HasType, LacksType};

use crate::listed::show_message;
use crate::typed::input::TypedInput;
use pb_c_answers::{BAD_LIMITS, DONE, EMPTY, FAULT, FaultReport, MEMORY, NO_TYPE, Step};
use pb_c_handles::pool::{PoolHandle, put, take};
use pb_listing::FloatForm;
use pb_wire::Limits;
use std::alloc::Global;

/// Writes the listing of the message that the bytes are as `mb_show` does, but with each float as the shortest decimal that reads back to the same
/// bits, or `nan`, `inf` or `-inf`, as `pbtool show --decimal` prints it.
///
/// Answers as `mb_show` does.
#[unsafe(no_mangle)]
pub extern "C" fn mb_show_decimal(
    alloc: Global,
    pool: &mut PoolHandle,
    message_type: u32,
    bytes: &[u8],
    max_bytes: u32,
    max_depth: u8,
    out: &mut [u8],
    size: &mut usize,
    fault: &mut FaultReport,
    path: &mut [Step],
) -> u32
    ensures text { result ≡ DONE → (ts : Types) × HasType (types_held pool.old) message_type ts
        × ((v : Message) × Text ts message_type (bounds max_bytes max_depth) bytes.now v
        × IsListedDecimal (message_of ts message_type v) out.old out.new size.new) }
    ensures fault { result ≡ FAULT → (ts : Types) × HasType (types_held pool.old) message_type ts
        × ((f : Fault) × IsFaultOf ts message_type (bounds max_bytes max_depth) bytes.now f
        × Tells f fault.new path.old path.new) }
    ensures steps { result ≡ FAULT → fault.new.steps ≤ 2 * max_depth + 1 }
    ensures unwritten { result ≢ DONE → (out.new ≡ out.old) × (size.new ≡ size.old) }
    ensures untold { result ≢ FAULT → (fault.new ≡ fault.old) × (path.new ≡ path.old) }
    ensures limits { result ≡ BAD_LIMITS ↔ ¬ AreLimits max_bytes max_depth }
    ensures empty { result ≡ EMPTY ↔ AreLimits max_bytes max_depth × (types_held pool.old ≡ None) }
    ensures no_type { result ≡ NO_TYPE ↔ AreLimits max_bytes max_depth
        × LacksType (types_held pool.old) message_type }
    ensures answers { (result ≡ DONE) ⊎ (result ≡ BAD_LIMITS) ⊎ (result ≡ EMPTY)
        ⊎ (result ≡ NO_TYPE) ⊎ (result ≡ FAULT) ⊎ (result ≡ MEMORY) }
    ensures same { pool.new.seal.pool ≡ pool.old.seal.pool }

    // Each valid input is accepted and each fault is reported, unless memory runs out.
    ensures accepted { AreLimits max_bytes max_depth → (ts : Types)
        → HasType (types_held pool.old) message_type ts → (v : Message)
        → Text ts message_type (bounds max_bytes max_depth) bytes.now v
        → ((result ≡ DONE) × IsListedDecimal
        (message_of ts message_type v) out.old out.new size.new) ⊎ (result ≡ MEMORY) }
    ensures refused { AreLimits max_bytes max_depth → (ts : Types)
        → HasType (types_held pool.old) message_type ts → (f : Fault)
        → IsFaultOf ts message_type (bounds max_bytes max_depth) bytes.now f
        → ((result ≡ FAULT) × Tells f fault.new path.old path.new) ⊎ (result ≡ MEMORY) }
{
    let Some(limits) = Limits::new(max_bytes, max_depth) else {
        return BAD_LIMITS;
    };
    let Some(shared) = take(alloc, pool) else {
        return EMPTY;
    };
    let input = TypedInput {
        pool: &shared.pool,
        type_number: message_type,
        bytes,
        limits,
    };
    let answer = show_message(alloc, input, FloatForm::Decimal, out, size, fault, path);
    put(pool, shared);
    answer
}
