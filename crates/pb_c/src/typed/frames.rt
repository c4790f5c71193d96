//! A message after its length.

ghost use Rattle.std.specs.Prelude.{◌≡◌, ◌≢◌, ◌+◌, ◌*◌, ◌<◌, ◌≤◌, ◌↔◌, ◌⊎◌, None, Some, length, IfSome};
ghost use Rattle.pb_wire.specs.Fault.{Fault};
ghost use Rattle.pb_schema.specs.Types.{Types};
ghost use Rattle.pb_c_handles.specs.Held.{types_held};
ghost use Rattle.pb_c.specs.Typed.Input.{BeginsWithFrame, BeginsWithNoFrame, IsPartOfFrame, IsTyped, IsUntyped};
ghost use Rattle.pb_c_answers.specs.Reporting.{AreLimits, Tells, bounds};
ghost use Rattle.pb_c_answers.specs.Typed.{ByFault, HasType, LacksType};
ghost use Rattle.pb_c.specs.Typed.Frames.{AnswersFault, IsFramed, IsNoFrame, IsPart, IsSpan};

use crate::typed::input::TypedInput;
use pb_c_answers::{
    BAD_LIMITS, DONE, EMPTY, FAULT, FaultReport, MEMORY, NO_TYPE, PART, Step, tell_error,
    type_numbered,
};
use pb_c_handles::pool::{PoolHandle, put, take};
use pb_decode::{DecodeError, validate};
use pb_schema::{MessageId, Pool};
use pb_stream::read_delimited;
use pb_wire::{Cause, FailurePlan, Limits, MemInput, read_varint};
use std::alloc::Global;

/// Where the message of a frame is, by its length.
#[repr(C)]
#[derive(Clone, Copy, Debug, PartialEq, Eq)]
pub struct FrameReport {
    /// Where it begins, after its length.
    pub begin: usize,
    /// Where it ends, and the frame with it.
    pub end: usize,
}

/// Checks the frame that the bytes begin with: a message of the type of this number in the pool, after its length.
///
/// Answers DONE with where the message begins and ends, whatever follows it; PART where the bytes end before their frame does, so that
/// more are needed; and else as `mb_check` does. A fault's byte counts from the first byte of the length.
///
/// At FAULT and PART it is reported where the message would begin and end by its length, up to the greatest size, so that a caller can skip a
/// refused frame; both are 0 where the length cannot be read. At other answers nothing is reported of the frame.
#[unsafe(no_mangle)]
pub extern "C" fn mb_frames(
    alloc: Global,
    pool: &mut PoolHandle,
    message_type: u32,
    bytes: &[u8],
    max_bytes: u32,
    max_depth: u8,
    frame: &mut FrameReport,
    fault: &mut FaultReport,
    path: &mut [Step],
) -> u32
    ensures framed { result ≡ DONE → (ts : Types) × HasType (types_held pool.old) message_type ts
        × IsFramed ts message_type (bounds max_bytes max_depth) bytes.now frame.new }
    ensures part { result ≡ PART → (ts : Types) × HasType (types_held pool.old) message_type ts
        × IsPart ts message_type (bounds max_bytes max_depth) bytes.now }
    ensures fault { result ≡ FAULT → (ts : Types) × HasType (types_held pool.old) message_type ts
        × ((f : Fault) × IsNoFrame ts message_type (bounds max_bytes max_depth) bytes.now f
        × Tells f fault.new path.old path.new) }
    ensures steps { result ≡ FAULT → fault.new.steps ≤ 2 * max_depth + 1 }
    ensures span { (result ≡ PART) ⊎ (result ≡ FAULT) → IsSpan bytes.now frame.new }
    ensures unframed { result ≢ DONE → result ≢ PART → result ≢ FAULT → frame.new ≡ frame.old }
    ensures untold { result ≢ FAULT → (fault.new ≡ fault.old) × (path.new ≡ path.old) }
    ensures limits { result ≡ BAD_LIMITS ↔ ¬ AreLimits max_bytes max_depth }
    ensures empty { result ≡ EMPTY ↔ AreLimits max_bytes max_depth × (types_held pool.old ≡ None) }
    ensures no_type { result ≡ NO_TYPE ↔ AreLimits max_bytes max_depth
        × LacksType (types_held pool.old) message_type }
    ensures answers { (result ≡ DONE) ⊎ (result ≡ BAD_LIMITS) ⊎ (result ≡ EMPTY)
        ⊎ (result ≡ NO_TYPE) ⊎ (result ≡ PART) ⊎ (result ≡ FAULT) ⊎ (result ≡ MEMORY) }
    ensures same { pool.new.seal.pool ≡ pool.old.seal.pool }

    // Each frame is accepted, also where no memory is left, and of all other bytes it is reported what they are, unless memory runs out.
    ensures accepted { AreLimits max_bytes max_depth → (ts : Types)
        → HasType (types_held pool.old) message_type ts → (r : FrameReport)
        → IsFramed ts message_type (bounds max_bytes max_depth) bytes.now r
        → (result ≡ DONE) × (frame.new ≡ r) }
    ensures parted { AreLimits max_bytes max_depth → (ts : Types)
        → HasType (types_held pool.old) message_type ts
        → IsPart ts message_type (bounds max_bytes max_depth) bytes.now
        → (result ≡ PART) ⊎ (result ≡ MEMORY) }
    ensures refused { AreLimits max_bytes max_depth → (ts : Types)
        → HasType (types_held pool.old) message_type ts → (f : Fault)
        → IsNoFrame ts message_type (bounds max_bytes max_depth) bytes.now f
        → ((result ≡ FAULT) × Tells f fault.new path.old path.new) ⊎ (result ≡ MEMORY) }
{
    let Some(limits) = Limits::new(max_bytes, max_depth) else {
        return BAD_LIMITS;
    };
    let Some(shared) = take(alloc, pool) else {
        return EMPTY;
    };
    let input = TypedInput {
        pool: &shared.pool,
        type_number: message_type,
        bytes,
        limits,
    };
    let answer = check_frame(alloc, input, frame, fault, path);
    put(pool, shared);
    answer
}

/// Checks the frame that the bytes begin with, a message of the type of a number after its length.
fn check_frame(
    alloc: Global,
    input: TypedInput<'_>,
    frame: &mut FrameReport,
    fault: &mut FaultReport,
    path: &mut [Step],
) -> u32
    ensures framed { result ≡ DONE → BeginsWithFrame input.entry frame.new }
    ensures part { result ≡ PART → IsPartOfFrame input.entry }
    ensures fault { result ≡ FAULT → (f : Fault) × BeginsWithNoFrame input.entry f
        × Tells f fault.new path.old path.new }
    ensures span { (result ≡ PART) ⊎ (result ≡ FAULT) → IsSpan input.entry.bytes.now frame.new }
    ensures unframed { result ≢ DONE → result ≢ PART → result ≢ FAULT → frame.new ≡ frame.old }
    ensures untold { result ≢ FAULT → (fault.new ≡ fault.old) × (path.new ≡ path.old) }
    ensures no_type { result ≡ NO_TYPE ↔ IsUntyped input.entry }
    ensures answers { (result ≡ DONE) ⊎ (result ≡ PART) ⊎ (result ≡ NO_TYPE) ⊎ (result ≡ FAULT)
        ⊎ (result ≡ MEMORY) }
    ensures accepted { IsTyped input.entry → (r : FrameReport) → BeginsWithFrame input.entry r
        → (result ≡ DONE) × (frame.new ≡ r) }
    ensures parted { IsTyped input.entry → IsPartOfFrame input.entry
        → (result ≡ PART) ⊎ (result ≡ MEMORY) }
    ensures refused { IsTyped input.entry → (f : Fault) → BeginsWithNoFrame input.entry f
        → ((result ≡ FAULT) × Tells f fault.new path.old path.new) ⊎ (result ≡ MEMORY) }
{
    let Some(message_type) = type_numbered(input.pool, input.type_number) else {
        return NO_TYPE;
    };
    if let Some(found) = find_frame(alloc, input.pool, message_type, input.bytes, input.limits) {
        *frame = found;
        return DONE;
    }
    let answer = tell_no_frame(
        alloc,
        input.pool,
        message_type,
        input.bytes,
        input.limits,
        fault,
        path,
    );
    report_span(answer, input.bytes, frame);
    answer
}

/// Reports where the message of a frame is by its length, where a call answers what the frame is.
fn report_span(answer: u32, bytes: &[u8], frame: &mut FrameReport)
    ensures span { answer ≢ MEMORY → IsSpan bytes.now frame.new }
    ensures unframed { answer ≡ MEMORY → frame.new ≡ frame.old }
{
    if answer != MEMORY {
        *frame = span_of(bytes);
    }
}

/// Where the message of the frame that bytes begin with is by its length, whatever it holds and whether or not it is there.
fn span_of(bytes: &[u8]) -> FrameReport
    ensures { IsSpan bytes.now result }
{
    match read_varint(bytes) {
        Ok((size, begin)) => FrameReport {
            begin,
            end: begin.saturating_add(size as usize),
        },
        Err(_) => FrameReport { begin: 0, end: 0 },
    }
}

/// Where the message of the frame is that the bytes begin with, if they begin with one. The message is judged in place.
fn find_frame(
    alloc: Global,
    pool: &Pool,
    message_type: MessageId,
    bytes: &[u8],
    limits: Limits,
) -> Option<FrameReport>
    requires { message_type.0 < length pool.now.messages }
    ensures framed { IfSome result (IsFramed pool.now message_type.0 limits bytes.now) }
    ensures found { (r : FrameReport) → IsFramed pool.now message_type.0 limits bytes.now r
        → result ≡ Some r }
{
    let Ok((size, begin)) = read_varint(bytes) else {
        return None;
    };
    if size > (bytes.len() - begin) as u64 {
        return None;
    }
    let end = begin + size as usize;
    match validate(alloc, pool, message_type, &bytes[begin..end], limits) {
        Ok(()) => Some(FrameReport { begin, end }),
        Err(_) => None,
    }
}

/// Reports what bytes are that begin with no frame: a part of one, or none whatever follows.
fn tell_no_frame(
    alloc: Global,
    pool: &Pool,
    message_type: MessageId,
    bytes: &[u8],
    limits: Limits,
    fault: &mut FaultReport,
    path: &mut [Step],
) -> u32
    requires within { message_type.0 < length pool.now.messages }
    requires no_frame { (r : FrameReport) → ¬ IsFramed pool.now message_type.0 limits bytes.now r }
    ensures part { result ≡ PART → IsPart pool.now message_type.0 limits bytes.now }
    ensures fault { result ≡ FAULT → (f : Fault)
        × IsNoFrame pool.now message_type.0 limits bytes.now f
        × Tells f fault.new path.old path.new }
    ensures untold { result ≢ FAULT → (fault.new ≡ fault.old) × (path.new ≡ path.old) }
    ensures answers { (result ≡ PART) ⊎ (result ≡ FAULT) ⊎ (result ≡ MEMORY) }
    ensures parted { IsPart pool.now message_type.0 limits bytes.now
        → (result ≡ PART) ⊎ (result ≡ MEMORY) }
    ensures refused { (f : Fault) → IsNoFrame pool.now message_type.0 limits bytes.now f
        → ((result ≡ FAULT) × Tells f fault.new path.old path.new) ⊎ (result ≡ MEMORY) }
{
    let mut input = MemInput::new(bytes, usize::MAX, FailurePlan::NEVER);
    match read_delimited(alloc, pool, message_type, &mut input, limits) {
        Ok(Some(_)) => unreachable!(),
        Ok(None) => PART,
        Err(error) => tell_frame_error(&error, fault, path),
    }
}

/// Reports the fault of an error, if it has one that more bytes do not mend, and answers the error's number.
fn tell_frame_error(error: &DecodeError, fault: &mut FaultReport, path: &mut [Step]) -> u32
    ensures told { ByFault error.now
        (AnswersFault result (λ f. Tells f fault.new path.old path.new)) (result ≡ MEMORY) }
    ensures untold { result ≢ FAULT → (fault.new ≡ fault.old) × (path.new ≡ path.old) }
    ensures answers { (result ≡ PART) ⊎ (result ≡ FAULT) ⊎ (result ≡ MEMORY) }
{
    match error {
        DecodeError::Fault {
            byte: _,
            path: _,
            cause: Cause::Truncated,
        } => PART,
        _ => tell_error(error, fault, path),
    }
}
