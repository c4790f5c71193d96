//! Messages of the types of a pool, each named by its number there.

ghost use Rattle.std.specs.Prelude.{◌≡◌, ◌≢◌, ◌<◌, ◌≤◌, ◌^◌, ◌↔◌, ◌⊎◌, length, Err, IfOk, IfErr, IfSome, IfNone, IsErrAnd, MatchResult};
ghost use Rattle.pb_wire.specs.Fault.{Fault};
ghost use Rattle.pb_value.specs.Data.{Message};
ghost use Rattle.pb_value.specs.Derives.{Text};
ghost use Rattle.pb_encode.specs.Encoding.{bytes_of};
ghost use Rattle.pb_decode.specs.Push.{IsFaultOf};
ghost use Rattle.pb_c_answers.specs.Reporting.{IsLaid, Tells};
ghost use Rattle.pb_c_answers.specs.Typed.{ByFault};

use crate::reporting::{
    FAULT, FaultReport, MEMORY, NO_TYPE, Step, TOO_LARGE, lay_over, tell_fault,
};
use pb_decode::{DecodeError, decode};
use pb_encode::{EncodeError, encode};
use pb_schema::{MessageId, Pool};
use pb_value::DynamicMessage;
use pb_wire::Limits;
use std::alloc::Global;

/// The message type of a number, if the pool has one.
pub fn type_numbered(pool: &Pool, number: u32) -> Option<MessageId>
    ensures found { IfSome result (λ m. (m.0 ≡ number) × (number < length pool.now.messages)) }
    ensures none { IfNone result (length pool.now.messages ≤ number) }
{
    let index = number as usize;
    if index < pool.messages().len() {
        Some(MessageId(index))
    } else {
        None
    }
}

/// The message of the bytes, by its type's number. Where there is none, a fault is reported, and the error is what a call answers.
pub fn read_message<'p>(
    alloc: Global,
    pool: &'p Pool,
    number: u32,
    bytes: &[u8],
    limits: Limits,
    fault: &mut FaultReport,
    path: &mut [Step],
) -> Result<DynamicMessage<'p>, u32>
    ensures of_type { IfOk result (λ m. (m.pool ≡ pool.now) × (m.kind ≡ number)) }
    ensures text { IfOk result (λ m. Text pool.now number limits bytes.now m.body) }
    ensures fault { IfErr result (λ a. a ≡ FAULT
        → (f : Fault) × IsFaultOf pool.now number limits bytes.now f
        × Tells f fault.new path.old path.new) }
    ensures untold { result ≢ Err FAULT → (fault.new ≡ fault.old) × (path.new ≡ path.old) }
    ensures no_type { result ≡ Err NO_TYPE ↔ length pool.now.messages ≤ number }
    ensures answers { IfErr result (λ a. (a ≡ NO_TYPE) ⊎ (a ≡ FAULT) ⊎ (a ≡ MEMORY)) }
    ensures accepted { number < length pool.now.messages → (v : Message)
        → Text pool.now number limits bytes.now v
        → MatchResult result (λ m. m.body ≡ v) (λ a. a ≡ MEMORY) }
    ensures refused { number < length pool.now.messages → (f : Fault)
        → IsFaultOf pool.now number limits bytes.now f
        → IsErrAnd result (λ a. ((a ≡ FAULT) × Tells f fault.new path.old path.new)
        ⊎ (a ≡ MEMORY)) }
{
    let Some(message_type) = type_numbered(pool, number) else {
        return Err(NO_TYPE);
    };
    match decode(alloc, pool, message_type, bytes, limits) {
        Ok(message) => Ok(message),
        Err(error) => Err(tell_error(&error, fault, path)),
    }
}

/// Reports the fault of an error, if it has one, and answers the error's number.
pub fn tell_error(error: &DecodeError, fault: &mut FaultReport, path: &mut [Step]) -> u32
    ensures told { ByFault error.now (λ f. (result ≡ FAULT) × Tells f fault.new path.old path.new)
        (result ≡ MEMORY) }
    ensures untold { result ≢ FAULT → (fault.new ≡ fault.old) × (path.new ≡ path.old) }
    ensures answers { (result ≡ FAULT) ⊎ (result ≡ MEMORY) }
{
    match error {
        DecodeError::Fault {
            byte,
            path: steps,
            cause,
        } => tell_fault(*byte, steps, *cause, fault, path),
        DecodeError::Memory | DecodeError::Device | DecodeError::Finished => MEMORY,
    }
}

/// Writes as much of a string as the buffer holds, and reports its whole length.
pub fn write_out(text: &[u8], out: &mut [u8], size: &mut usize)
    ensures { IsLaid text.now out.old out.new size.new }
{
    lay_over(text, out);
    *size = text.len();
}

/// The canonical bytes of a message, or what a call answers.
pub fn canonical_of(message: &DynamicMessage<'_>) -> Result<Vec<u8>, u32>
    ensures canonical { IfOk result (λ b. (b.items ≡ bytes_of message.now)
        × (length (bytes_of message.now) < 2 ^ 31)) }
    ensures too_large { result ≡ Err TOO_LARGE → 2 ^ 31 ≤ length (bytes_of message.now) }
    ensures answers { IfErr result (λ a. (a ≡ TOO_LARGE) ⊎ (a ≡ MEMORY)) }
{
    match encode(message) {
        Ok(bytes) => Ok(bytes),
        Err(EncodeError::TooLarge) => Err(TOO_LARGE),
        Err(EncodeError::Memory | EncodeError::Device { written: _ }) => Err(MEMORY),
    }
}
