//! Bytes that are decoded onto a message.

ghost use Rattle.std.specs.Prelude.{◌≡◌, ◌≢◌, ◌+◌, ◌*◌, ◌≤◌, ◌^◌, ◌↔◌, ◌⊎◌, None, Some, length, Err, IfOk, IfErr, IsErrAnd, MatchResult};
ghost use Rattle.pb_wire.specs.Fault.{Fault};
ghost use Rattle.pb_value.specs.Data.{Message};
ghost use Rattle.pb_value.specs.Dynamic.{Dynamic};
ghost use Rattle.pb_decode.specs.Onto.{TextOnto};
ghost use Rattle.pb_encode.specs.Encoding.{bytes_of};
ghost use Rattle.pb_c.specs.Message.Pairs.{IsFaultOn, IsOnto, IsTooLargeIn};
ghost use Rattle.pb_c_answers.specs.Reporting.{AreLimits, Tells, bounds};

use super::copy::copy_of;
use pb_c_answers::{
    BAD_LIMITS, DONE, EMPTY, FAULT, FaultReport, MEMORY, Step, TOO_LARGE, tell_error,
};
use pb_c_handles::message::own::OwnMessage;
use pb_c_handles::message::{MessageHandle, put, take};
use pb_c_message::{Held, take_body};
use pb_decode::decode_onto;
use pb_value::DynamicMessage;
use pb_value::bodies::from_well_formed;
use pb_wire::Limits;
use std::alloc::Global;

/// The message with the bytes decoded onto it, which is given up. Where there is none, a fault is reported, and the error is what a call
/// answers.
fn onto_copy<'p>(
    copy: DynamicMessage<'p>,
    bytes: &[u8],
    limits: Limits,
    fault: &mut FaultReport,
    path: &mut [Step],
) -> Result<DynamicMessage<'p>, u32>
    ensures onto { IfOk result (λ n. IsOnto limits bytes.now copy.entry n) }
    ensures fault { IfErr result (λ a. a ≡ FAULT
        → (f : Fault) × IsFaultOn limits bytes.now copy.entry f
        × Tells f fault.new path.old path.new) }
    ensures untold { result ≢ Err FAULT → (fault.new ≡ fault.old) × (path.new ≡ path.old) }
    ensures answers { IfErr result (λ a. (a ≡ FAULT) ⊎ (a ≡ MEMORY)) }
    ensures accepted { (w : Message) → TextOnto copy.entry limits bytes.now w
        → MatchResult result (λ n. n ≡ record copy.entry { body = w }) (λ a. a ≡ MEMORY) }
    ensures refused { (f : Fault) → IsFaultOn limits bytes.now copy.entry f
        → IsErrAnd result (λ a. ((a ≡ FAULT) × Tells f fault.new path.old path.new)
        ⊎ (a ≡ MEMORY)) }
{
    match decode_onto(copy, bytes, limits) {
        Ok(merged) => Ok(merged),
        Err(error) => Err(tell_error(&error, fault, path)),
    }
}

/// The message with the bytes decoded onto a copy of it, so that it is there still where they are refused. Where there is none, a fault is
/// reported, and the error is what a call answers.
fn merged_with<'p>(
    message: &DynamicMessage<'p>,
    bytes: &[u8],
    limits: Limits,
    fault: &mut FaultReport,
    path: &mut [Step],
) -> Result<DynamicMessage<'p>, u32>
    ensures onto { IfOk result (λ n. IsOnto limits bytes.now message.now n) }
    ensures fault { IfErr result (λ a. a ≡ FAULT
        → (f : Fault) × IsFaultOn limits bytes.now message.now f
        × Tells f fault.new path.old path.new) }
    ensures untold { result ≢ Err FAULT → (fault.new ≡ fault.old) × (path.new ≡ path.old) }
    ensures too_large { result ≡ Err TOO_LARGE → 2 ^ 31 ≤ length (bytes_of message.now) }
    ensures answers { IfErr result (λ a. (a ≡ FAULT) ⊎ (a ≡ TOO_LARGE) ⊎ (a ≡ MEMORY)) }
    ensures accepted { (w : Message) → TextOnto message.now limits bytes.now w
        → MatchResult result (λ n. n ≡ record message.now { body = w })
        (λ a. (a ≡ TOO_LARGE) ⊎ (a ≡ MEMORY)) }
    ensures refused { (f : Fault) → IsFaultOn limits bytes.now message.now f
        → IsErrAnd result (λ a. ((a ≡ FAULT) × Tells f fault.new path.old path.new)
        ⊎ (a ≡ TOO_LARGE) ⊎ (a ≡ MEMORY)) }
{
    match copy_of(message) {
        Ok(copy) => onto_copy(copy, bytes, limits, fault, path),
        Err(answer) => Err(answer),
    }
}

/// Decodes the bytes onto a message.
fn merge_message(
    message: &mut DynamicMessage<'_>,
    bytes: &[u8],
    limits: Limits,
    fault: &mut FaultReport,
    path: &mut [Step],
) -> u32
    ensures onto { result ≡ DONE → IsOnto limits bytes.now message.old message.new }
    ensures kept { result ≢ DONE → message.new ≡ message.old }
    ensures fault { result ≡ FAULT → (f : Fault) × IsFaultOn limits bytes.now message.old f
        × Tells f fault.new path.old path.new }
    ensures untold { result ≢ FAULT → (fault.new ≡ fault.old) × (path.new ≡ path.old) }
    ensures too_large { result ≡ TOO_LARGE → 2 ^ 31 ≤ length (bytes_of message.old) }
    ensures answers { (result ≡ DONE) ⊎ (result ≡ FAULT) ⊎ (result ≡ TOO_LARGE)
        ⊎ (result ≡ MEMORY) }
    ensures accepted { (w : Message) → TextOnto message.old limits bytes.now w
        → ((result ≡ DONE) × (message.new ≡ record message.old { body = w })) ⊎ (result ≡ TOO_LARGE)
        ⊎ (result ≡ MEMORY) }
    ensures refused { (f : Fault) → IsFaultOn limits bytes.now message.old f
        → ((result ≡ FAULT) × Tells f fault.new path.old path.new) ⊎ (result ≡ TOO_LARGE)
        ⊎ (result ≡ MEMORY) }
    ensures same_type { (message.new.pool ≡ message.old.pool)
        × (message.new.kind ≡ message.old.kind) }
{
    match merged_with(message, bytes, limits, fault, path) {
        Ok(merged) => {
            *message = merged;
            DONE
        }
        Err(answer) => answer,
    }
}

/// Decodes the bytes onto a message that is owned.
fn merge_own(
    alloc: Global,
    own: &mut OwnMessage,
    bytes: &[u8],
    limits: Limits,
    fault: &mut FaultReport,
    path: &mut [Step],
) -> u32
    ensures onto { result ≡ DONE → IsOnto limits bytes.now own.old own.new }
    ensures kept { result ≢ DONE → own.new ≡ own.old }
    ensures fault { result ≡ FAULT → (f : Fault) × IsFaultOn limits bytes.now own.old f
        × Tells f fault.new path.old path.new }
    ensures untold { result ≢ FAULT → (fault.new ≡ fault.old) × (path.new ≡ path.old) }
    ensures too_large { result ≡ TOO_LARGE → 2 ^ 31 ≤ length (bytes_of own.old) }
    ensures answers { (result ≡ DONE) ⊎ (result ≡ FAULT) ⊎ (result ≡ TOO_LARGE)
        ⊎ (result ≡ MEMORY) }
    ensures accepted { (w : Message) → TextOnto own.old limits bytes.now w
        → ((result ≡ DONE) × (own.new ≡ record own.old { body = w })) ⊎ (result ≡ TOO_LARGE)
        ⊎ (result ≡ MEMORY) }
    ensures refused { (f : Fault) → IsFaultOn limits bytes.now own.old f
        → ((result ≡ FAULT) × Tells f fault.new path.old path.new) ⊎ (result ≡ TOO_LARGE)
        ⊎ (result ≡ MEMORY) }
{
    let Some(body) = take_body(alloc, &own.pool, own.message_type, &mut own.held) else {
        return MEMORY;
    };
    let mut message = from_well_formed(alloc, &own.pool, own.message_type, body);
    let answer = merge_message(&mut message, bytes, limits, fault, path);
    let _well_formed = message.body();
    own.held = Held::Fields(message.into_body());
    answer
}

/// Decodes the bytes onto the message: then it is what its canonical bytes followed by these bytes decode to (encoding guide, "Last One
/// Wins").
///
/// Answers DONE; BAD_LIMITS where a limit is above the greatest; EMPTY where the handle holds nothing; FAULT where the bytes are no encoding of
/// the message's type, with the fault; TOO_LARGE where the message has more than 2^31 - 1 canonical bytes already; or MEMORY. The message is
/// changed at DONE alone. Limits and the byte of a fault are those of the bytes alone.
#[unsafe(no_mangle)]
pub extern "C" fn mb_message_merge(
    alloc: Global,
    message: &mut MessageHandle,
    bytes: &[u8],
    max_bytes: u32,
    max_depth: u8,
    fault: &mut FaultReport,
    path: &mut [Step],
) -> u32
    ensures onto { result ≡ DONE → (m n : Dynamic) × (message.old.seal.message ≡ Some m)
        × (message.new.seal.message ≡ Some n) × IsOnto (bounds max_bytes max_depth) bytes.now m n }
    ensures fault { result ≡ FAULT → (m : Dynamic) × (message.old.seal.message ≡ Some m)
        × ((f : Fault) × IsFaultOn (bounds max_bytes max_depth) bytes.now m f
        × Tells f fault.new path.old path.new) }
    ensures steps { result ≡ FAULT → fault.new.steps ≤ 2 * max_depth + 1 }
    ensures kept { result ≢ DONE → message.new.seal.message ≡ message.old.seal.message }
    ensures untold { result ≢ FAULT → (fault.new ≡ fault.old) × (path.new ≡ path.old) }
    ensures limits { result ≡ BAD_LIMITS ↔ ¬ AreLimits max_bytes max_depth }
    ensures empty { result ≡ EMPTY ↔ AreLimits max_bytes max_depth
        × (message.old.seal.message ≡ None) }
    ensures too_large { result ≡ TOO_LARGE → IsTooLargeIn message.old.seal.message }
    ensures answers { (result ≡ DONE) ⊎ (result ≡ BAD_LIMITS) ⊎ (result ≡ EMPTY) ⊎ (result ≡ FAULT)
        ⊎ (result ≡ TOO_LARGE) ⊎ (result ≡ MEMORY) }

    // Each encoding is decoded onto the message and each fault is reported, unless the message is too large or memory runs out.
    ensures accepted { AreLimits max_bytes max_depth → (m : Dynamic)
        → message.old.seal.message ≡ Some m → (w : Message)
        → TextOnto m (bounds max_bytes max_depth) bytes.now w
        → ((result ≡ DONE) × (message.new.seal.message ≡ Some (record m { body = w })))
        ⊎ (result ≡ TOO_LARGE) ⊎ (result ≡ MEMORY) }
    ensures refused { AreLimits max_bytes max_depth → (m : Dynamic)
        → message.old.seal.message ≡ Some m → (f : Fault)
        → IsFaultOn (bounds max_bytes max_depth) bytes.now m f
        → ((result ≡ FAULT) × Tells f fault.new path.old path.new) ⊎ (result ≡ TOO_LARGE)
        ⊎ (result ≡ MEMORY) }
{
    let Some(limits) = Limits::new(max_bytes, max_depth) else {
        return BAD_LIMITS;
    };
    let Some(mut own) = take(alloc, message) else {
        return EMPTY;
    };
    let answer = merge_own(alloc, &mut own, bytes, limits, fault, path);
    put(message, own);
    answer
}
