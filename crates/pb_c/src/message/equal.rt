//! Whether two messages that handles hold are equal.

ghost use Rattle.std.specs.Prelude.{◌≡◌, ◌≢◌, ◌<◌, ◌≤◌, ◌^◌, ◌↔◌, ◌⊎◌, true, None, length, Err, IfOk, IfErr};
ghost use Rattle.std.specs.Bool.{Decides};
ghost use Rattle.pb_encode.specs.Encoding.{bytes_of};
ghost use Rattle.pb_c_message.specs.Plain.{bit};
ghost use Rattle.pb_c.specs.Message.Pairs.{IsTooLargeIn, Marks};

use pb_c_answers::{DONE, EMPTY, MEMORY, TOO_LARGE, canonical_of};
use pb_c_handles::message::own::OwnMessage;
use pb_c_handles::message::{MessageHandle, put, take};
use pb_c_message::{Held, take_body};
use pb_encode::encoded_len;
use pb_value::DynamicMessage;
use pb_value::bodies::from_well_formed;
use std::alloc::Global;

/// Whether two messages are of one type of equal pools.
fn are_alike(message: &DynamicMessage<'_>, other: &DynamicMessage<'_>) -> bool
    ensures { Decides result ((message.now.kind ≡ other.now.kind)
        × (message.now.pool ≡ other.now.pool)) }
{
    if message.message_type().0 != other.message_type().0 {
        return false;
    }
    message.pool().equals(other.pool())
}

/// Whether bytes are the canonical bytes of a message.
fn are_bytes_of(bytes: &[u8], message: &DynamicMessage<'_>) -> Result<bool, u32>
    ensures decided { IfOk result (λ e. Decides e (bytes.now ≡ bytes_of message.now)) }
    ensures too_large { result ≡ Err TOO_LARGE → 2 ^ 31 ≤ length (bytes_of message.now) }
    ensures answers { IfErr result (λ a. (a ≡ TOO_LARGE) ⊎ (a ≡ MEMORY)) }
{
    match canonical_of(message) {
        Ok(others) => Ok(bytes == others.as_slice()),
        Err(answer) => Err(answer),
    }
}

/// Whether two messages have the same canonical bytes.
fn have_same_bytes(message: &DynamicMessage<'_>, other: &DynamicMessage<'_>) -> Result<bool, u32>
    ensures decided { IfOk result (λ e. Decides e (bytes_of message.now ≡ bytes_of other.now)) }
    ensures small { IfOk result (λ e. e ≡ true → length (bytes_of message.now) < 2 ^ 31) }
    ensures too_large { result ≡ Err TOO_LARGE
        → (2 ^ 31 ≤ length (bytes_of message.now)) ⊎ (2 ^ 31 ≤ length (bytes_of other.now)) }
    ensures answers { IfErr result (λ a. (a ≡ TOO_LARGE) ⊎ (a ≡ MEMORY)) }
{
    if encoded_len(message) != encoded_len(other) {
        return Ok(false);
    }
    match canonical_of(message) {
        Ok(bytes) => are_bytes_of(&bytes, other),
        Err(answer) => Err(answer),
    }
}

/// Whether two messages are equal: of one type of equal pools, with the same contents.
fn are_equal(message: &DynamicMessage<'_>, other: &DynamicMessage<'_>) -> Result<bool, u32>
    ensures decided { IfOk result (λ e. Decides e (message.now ≡ other.now)) }
    ensures too_large { result ≡ Err TOO_LARGE
        → (2 ^ 31 ≤ length (bytes_of message.now)) ⊎ (2 ^ 31 ≤ length (bytes_of other.now)) }
    ensures answers { IfErr result (λ a. (a ≡ TOO_LARGE) ⊎ (a ≡ MEMORY)) }
{
    if !are_alike(message, other) {
        return Ok(false);
    }
    let _types = message.pool().messages();
    let _well_formed = message.body();
    let _other_well_formed = other.body();
    have_same_bytes(message, other)
}

/// 1 for true, and 0 for false.
fn mark_of(is: bool) -> u32
    ensures { result ≡ bit is }
{
    if is { 1 } else { 0 }
}

/// Reports whether two messages are equal.
fn report_equal(message: &DynamicMessage<'_>, other: &DynamicMessage<'_>, equal: &mut u32) -> u32
    ensures decided { result ≡ DONE → Marks equal.new (message.now ≡ other.now) }
    ensures undecided { result ≢ DONE → equal.new ≡ equal.old }
    ensures too_large { result ≡ TOO_LARGE → (2 ^ 31 ≤ length (bytes_of message.now))
        ⊎ (2 ^ 31 ≤ length (bytes_of other.now)) }
    ensures answers { (result ≡ DONE) ⊎ (result ≡ TOO_LARGE) ⊎ (result ≡ MEMORY) }
{
    match are_equal(message, other) {
        Ok(same) => {
            *equal = mark_of(same);
            DONE
        }
        Err(answer) => answer,
    }
}

/// Reports whether a message is equal to one that is owned.
fn equal_to(
    alloc: Global,
    message: &DynamicMessage<'_>,
    other: &mut OwnMessage,
    equal: &mut u32,
) -> u32
    ensures decided { result ≡ DONE → Marks equal.new (message.now ≡ other.old) }
    ensures undecided { result ≢ DONE → equal.new ≡ equal.old }
    ensures too_large { result ≡ TOO_LARGE → (2 ^ 31 ≤ length (bytes_of message.now))
        ⊎ (2 ^ 31 ≤ length (bytes_of other.old)) }
    ensures answers { (result ≡ DONE) ⊎ (result ≡ TOO_LARGE) ⊎ (result ≡ MEMORY) }
    ensures same { other.new ≡ other.old }
{
    let Some(body) = take_body(alloc, &other.pool, other.message_type, &mut other.held) else {
        return MEMORY;
    };
    let second = from_well_formed(alloc, &other.pool, other.message_type, body);
    let answer = report_equal(message, &second, equal);
    other.held = Held::Fields(second.into_body());
    answer
}

/// Reports whether two messages that are owned are equal.
fn equal_own(alloc: Global, own: &mut OwnMessage, other: &mut OwnMessage, equal: &mut u32) -> u32
    ensures decided { result ≡ DONE → Marks equal.new (own.old ≡ other.old) }
    ensures undecided { result ≢ DONE → equal.new ≡ equal.old }
    ensures too_large { result ≡ TOO_LARGE → (2 ^ 31 ≤ length (bytes_of own.old))
        ⊎ (2 ^ 31 ≤ length (bytes_of other.old)) }
    ensures answers { (result ≡ DONE) ⊎ (result ≡ TOO_LARGE) ⊎ (result ≡ MEMORY) }
    ensures same { (own.new ≡ own.old) × (other.new ≡ other.old) }
{
    let Some(body) = take_body(alloc, &own.pool, own.message_type, &mut own.held) else {
        return MEMORY;
    };
    let message = from_well_formed(alloc, &own.pool, own.message_type, body);
    let answer = equal_to(alloc, &message, other, equal);
    own.held = Held::Fields(message.into_body());
    answer
}

/// Reports whether two messages are equal: 1 where they are of the same type, by pools that hold the same, and have the same fields and the
/// same unknown records in the same order; and else 0. Floats are compared by their bits.
///
/// Answers DONE; EMPTY where a handle holds nothing; TOO_LARGE where one of both has more than 2^31 - 1 canonical bytes; or MEMORY. The mark is
/// written at DONE alone.
#[unsafe(no_mangle)]
pub extern "C" fn mb_message_equal(
    alloc: Global,
    message: &mut MessageHandle,
    other: &mut MessageHandle,
    equal: &mut u32,
) -> u32
    ensures decided { result ≡ DONE
        → Marks equal.new (message.old.seal.message ≡ other.old.seal.message) }
    ensures undecided { result ≢ DONE → equal.new ≡ equal.old }
    ensures too_large { result ≡ TOO_LARGE → IsTooLargeIn message.old.seal.message
        ⊎ IsTooLargeIn other.old.seal.message }
    ensures empty { result ≡ EMPTY ↔ (message.old.seal.message ≡ None)
        ⊎ (other.old.seal.message ≡ None) }
    ensures answers { (result ≡ DONE) ⊎ (result ≡ EMPTY) ⊎ (result ≡ TOO_LARGE)
        ⊎ (result ≡ MEMORY) }
    ensures same { (message.new.seal.message ≡ message.old.seal.message)
        × (other.new.seal.message ≡ other.old.seal.message) }
{
    let Some(mut own) = take(alloc, message) else {
        return EMPTY;
    };
    let Some(mut second) = take(alloc, other) else {
        put(message, own);
        return EMPTY;
    };
    let answer = equal_own(alloc, &mut own, &mut second, equal);
    put(message, own);
    put(other, second);
    answer
}
