//! What a call answers of a decoder that is owned.

ghost use Rattle.std.specs.Prelude.{◌≡◌, ◌≢◌, ◌+◌, ◌*◌, ◌<◌, ◌≤◌, ◌↔◌, ◌⊎◌, Some, length, Err, IfOk, IfErr};
ghost use Rattle.pb_c_answers.specs.Reporting.{Tells};
ghost use Rattle.pb_decode.specs.Parts.{IsOfPool, decoder_of};
ghost use Rattle.pb_c_answers.specs.Decoder.{ByError, IsBegun, IsCounted, IsEnded, IsFed};

use super::receiving::{finish, pending, receive, start};
use crate::reporting::{DONE, FAULT, FINISHED, FaultReport, MEMORY, NO_TYPE, Step};
use crate::typed::{tell_error, type_numbered};
use pb_c_handles::decoder::own::{OwnDecoder, boxed};
use pb_decode::{DecodeError, DecoderParts};
use pb_schema::Pool;
use pb_value::DynamicMessage;
use pb_wire::Limits;
use std::alloc::Global;
use std::sync::Arc;

/// A box of a decoder of the type of a number that has received no byte, or what a call answers.
pub fn begin(
    alloc: Global,
    pool: &Arc<Pool>,
    number: u32,
    limits: Limits,
) -> Result<Box<OwnDecoder, Global>, u32>
    ensures begun { IfOk result (λ b. IsBegun pool.now.value number limits b.value) }
    ensures no_type { result ≡ Err NO_TYPE ↔ length pool.now.value.messages ≤ number }
    ensures answers { IfErr result (λ a. (a ≡ NO_TYPE) ⊎ (a ≡ MEMORY)) }
{
    let Some(message_type) = type_numbered(pool, number) else {
        return Err(NO_TYPE);
    };
    match start(alloc, pool, message_type, limits) {
        Ok(parts) => match boxed(alloc, pool, parts) {
            Ok(own) => Ok(own),
            Err(_) => Err(MEMORY),
        },
        Err(_) => Err(MEMORY),
    }
}

/// Reports the fault of an error of a decoder, if it has one, and answers the error's number.
fn answer_of(error: &DecodeError, fault: &mut FaultReport, path: &mut [Step]) -> u32
    ensures told { ByError error.now (λ f. (result ≡ FAULT) × Tells f fault.new path.old path.new)
        (result ≡ MEMORY) (result ≡ FINISHED) }
    ensures untold { result ≢ FAULT → (fault.new ≡ fault.old) × (path.new ≡ path.old) }
    ensures answers { (result ≡ FAULT) ⊎ (result ≡ MEMORY) ⊎ (result ≡ FINISHED) }
{
    match error {
        DecodeError::Finished => FINISHED,
        other => tell_error(other, fault, path),
    }
}

/// Gives a decoder of this pool the next piece. Where that is refused, the fault is reported.
fn give(
    alloc: Global,
    pool: &Pool,
    parts: &mut DecoderParts,
    piece: &[u8],
    fault: &mut FaultReport,
    path: &mut [Step],
) -> u32
    requires { IsOfPool pool.now parts.old }
    ensures fed { IsFed (Some (decoder_of pool.now parts.old))
        (Some (decoder_of pool.now parts.new)) piece.now result
        (λ f. Tells f fault.new path.old path.new) }
    ensures of_pool { IsOfPool pool.now parts.new }
    ensures steps { result ≡ FAULT → fault.new.steps ≤ 2 * parts.old.limits.depth + 1 }
    ensures untold { result ≢ FAULT → (fault.new ≡ fault.old) × (path.new ≡ path.old) }
    ensures answers { (result ≡ DONE) ⊎ (result ≡ FAULT) ⊎ (result ≡ MEMORY) ⊎ (result ≡ FINISHED) }
{
    match receive(alloc, pool, parts, piece) {
        Ok(()) => DONE,
        Err(error) => answer_of(&error, fault, path),
    }
}

/// Gives the decoder the next piece. Where that is refused, the fault is reported.
pub fn feed(
    alloc: Global,
    own: &mut OwnDecoder,
    piece: &[u8],
    fault: &mut FaultReport,
    path: &mut [Step],
) -> u32
    ensures fed { IsFed (Some own.old) (Some own.new) piece.now result
        (λ f. Tells f fault.new path.old path.new) }
    ensures steps { result ≡ FAULT → fault.new.steps ≤ 2 * own.old.limits.depth + 1 }
    ensures untold { result ≢ FAULT → (fault.new ≡ fault.old) × (path.new ≡ path.old) }
    ensures answers { (result ≡ DONE) ⊎ (result ≡ FAULT) ⊎ (result ≡ MEMORY) ⊎ (result ≡ FINISHED) }
{
    give(alloc, &own.pool, &mut own.parts, piece, fault, path)
}

/// The message of all bytes that a decoder of this pool received. Where they are none, a fault is reported, and the error is what a call answers.
pub fn end<'p>(
    alloc: Global,
    pool: &'p Pool,
    parts: &mut DecoderParts,
    fault: &mut FaultReport,
    path: &mut [Step],
) -> Result<DynamicMessage<'p>, u32>
    requires { IsOfPool pool.now parts.old }
    ensures given { IfOk result
        (λ m. IsEnded (Some (decoder_of pool.now parts.old))
        (Some (decoder_of pool.now parts.new)) DONE (λ n. n ≡ m)
        (λ f. Tells f fault.new path.old path.new)) }
    ensures refused { IfErr result
        (λ a. IsEnded (Some (decoder_of pool.now parts.old))
        (Some (decoder_of pool.now parts.new)) a (λ n. ⊥)
        (λ f. Tells f fault.new path.old path.new)) }
    ensures of_pool { IsOfPool pool.now parts.new }
    ensures same_pool { IfOk result (λ m. m.pool ≡ pool.now) }
    ensures steps { result ≡ Err FAULT → fault.new.steps ≤ 2 * parts.old.limits.depth + 1 }
    ensures untold { result ≢ Err FAULT → (fault.new ≡ fault.old) × (path.new ≡ path.old) }
    ensures answers { IfErr result (λ a. (a ≡ FAULT) ⊎ (a ≡ MEMORY) ⊎ (a ≡ FINISHED)) }
{
    match finish(alloc, pool, parts) {
        Ok(message) => Ok(message),
        Err(error) => Err(answer_of(&error, fault, path)),
    }
}

/// How many bytes the decoder holds.
pub fn count(alloc: Global, own: &mut OwnDecoder) -> usize
    ensures counted { IsCounted (Some own.old) result }
    ensures same { own.new ≡ own.old }
{
    pending(alloc, &own.pool, &mut own.parts)
}
