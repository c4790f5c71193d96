//! A copy of a message that a handle holds.

ghost use Rattle.std.specs.Prelude.{◌≡◌, ◌≢◌, ◌<◌, ◌≤◌, ◌^◌, ◌↔◌, ◌⊎◌, None, Some, length, Err, IfOk, IfErr};
ghost use Rattle.pb_wire.specs.Inside.{records_spelled};
ghost use Rattle.pb_value.specs.Dynamic.{Dynamic};
ghost use Rattle.pb_value.specs.Value.{value};
ghost use Rattle.pb_canonical.specs.Canonical.{IsCanonical};
ghost use Rattle.pb_encode.specs.Encoding.{bytes_of};
ghost use Rattle.pb_c_message.specs.Holds.{message_of};

use pb_c_answers::{DONE, EMPTY, MEMORY, TOO_LARGE, canonical_of};
use pb_c_handles::message::own::{OwnMessage, boxed, bytes_boxed};
use pb_c_handles::message::{MessageHandle, hold, put, take};
use pb_c_message::{Held, canonical_bytes, take_body};
use pb_decode::decode;
use pb_schema::{MessageId, Pool};
use pb_value::DynamicMessage;
use pb_value::bodies::from_well_formed;
use pb_wire::Limits;
use std::alloc::Global;
use std::sync::Arc;

/// What the canonical bytes of a message decode to.
fn decoded<'p>(message: &DynamicMessage<'p>, bytes: &[u8]) -> Result<DynamicMessage<'p>, u32>
    requires canonical { bytes.now ≡ bytes_of message.now }
    requires small { length (bytes_of message.now) < 2 ^ 31 }
    ensures same { IfOk result (λ m. m ≡ message.now) }
    ensures memory { IfErr result (λ a. a ≡ MEMORY) }
{
    let alloc = message.alloc();
    let pool = message.pool();
    let message_type = message.message_type();
    let _types = pool.messages();
    let _well_formed = message.body();
    match decode(alloc, pool, message_type, bytes, Limits::FULL) {
        Ok(copy) => Ok(copy),
        Err(_) => Err(MEMORY),
    }
}

/// A copy of a message: what its canonical bytes decode to.
pub(super) fn copy_of<'p>(message: &DynamicMessage<'p>) -> Result<DynamicMessage<'p>, u32>
    ensures same { IfOk result (λ m. m ≡ message.now) }
    ensures too_large { result ≡ Err TOO_LARGE → 2 ^ 31 ≤ length (bytes_of message.now) }
    ensures answers { IfErr result (λ a. (a ≡ TOO_LARGE) ⊎ (a ≡ MEMORY)) }
{
    match canonical_of(message) {
        Ok(bytes) => decoded(message, &bytes),
        Err(answer) => Err(answer),
    }
}

/// A box of a copy of a message of this pool.
fn copy_boxed(
    alloc: Global,
    pool: &Arc<Pool>,
    message: &DynamicMessage<'_>,
) -> Result<Box<OwnMessage, Global>, u32>
    requires { message.now.pool ≡ pool.now.value }
    ensures same { IfOk result (λ b. b.value ≡ message.now) }
    ensures too_large { result ≡ Err TOO_LARGE → 2 ^ 31 ≤ length (bytes_of message.now) }
    ensures answers { IfErr result (λ a. (a ≡ TOO_LARGE) ⊎ (a ≡ MEMORY)) }
{
    match copy_of(message) {
        Ok(copy) => match boxed(alloc, pool, copy) {
            Ok(copy) => Ok(copy),
            Err(_) => Err(MEMORY),
        },
        Err(answer) => Err(answer),
    }
}

/// A box of the message that canonical bytes are, of which a copy is held, or what a call answers.
pub(super) fn bytes_copied(
    alloc: Global,
    pool: &Arc<Pool>,
    message_type: MessageId,
    bytes: &[u8],
) -> Result<Box<OwnMessage, Global>, u32>
    requires within { message_type.0 < length pool.now.value.messages }
    requires canonical { IsCanonical pool.now.value message_type.0 bytes.now }
    ensures value { IfOk result (λ b. b.value
        ≡ message_of pool.now.value message_type.0
        (value pool.now.value message_type.0 (records_spelled bytes.now))) }
    ensures memory { IfErr result (λ a. a ≡ MEMORY) }
{
    match bytes_boxed(alloc, pool, message_type, bytes) {
        Ok(message) => Ok(message),
        Err(_) => Err(MEMORY),
    }
}

/// A box of a copy of a message that is owned.
fn copy_own(alloc: Global, own: &mut OwnMessage) -> Result<Box<OwnMessage, Global>, u32>
    ensures same { IfOk result (λ b. b.value ≡ own.old) }
    ensures too_large { result ≡ Err TOO_LARGE → 2 ^ 31 ≤ length (bytes_of own.old) }
    ensures answers { IfErr result (λ a. (a ≡ TOO_LARGE) ⊎ (a ≡ MEMORY)) }
    ensures kept { own.new ≡ own.old }
{
    if let Some(bytes) = canonical_bytes(&own.held) {
        return bytes_copied(alloc, &own.pool, own.message_type, bytes);
    }
    let Some(body) = take_body(alloc, &own.pool, own.message_type, &mut own.held) else {
        return Err(MEMORY);
    };
    let message = from_well_formed(alloc, &own.pool, own.message_type, body);
    let made = copy_boxed(alloc, &own.pool, &message);
    own.held = Held::Fields(message.into_body());
    made
}

/// Puts a copy of the message that one handle holds into another one, in place of what that held. Each is changed and freed by itself; both
/// hold the pool.
///
/// Answers DONE; EMPTY where the first handle holds nothing; TOO_LARGE where the message has more than 2^31 - 1 canonical bytes; or MEMORY. The
/// other handle is changed at DONE alone.
#[unsafe(no_mangle)]
pub extern "C" fn mb_message_copy(
    alloc: Global,
    message: &mut MessageHandle,
    other: &mut MessageHandle,
) -> u32
    ensures copied { result ≡ DONE → other.new.seal.message ≡ message.old.seal.message }
    ensures kept { result ≢ DONE → other.new ≡ other.old }
    ensures too_large { result ≡ TOO_LARGE → (m : Dynamic) × (message.old.seal.message ≡ Some m)
        × (2 ^ 31 ≤ length (bytes_of m)) }
    ensures empty { result ≡ EMPTY ↔ (message.old.seal.message ≡ None) }
    ensures answers { (result ≡ DONE) ⊎ (result ≡ EMPTY) ⊎ (result ≡ TOO_LARGE)
        ⊎ (result ≡ MEMORY) }
    ensures same { message.new.seal.message ≡ message.old.seal.message }
{
    let Some(mut own) = take(alloc, message) else {
        return EMPTY;
    };
    let made = copy_own(alloc, &mut own);
    put(message, own);
    match made {
        Ok(made) => {
            hold(alloc, other, made);
            DONE
        }
        Err(answer) => answer,
    }
}
