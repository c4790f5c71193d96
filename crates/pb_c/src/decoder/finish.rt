//! The message of the pieces that a decoder received.

ghost use Rattle.std.specs.Prelude.{◌≡◌, ◌≢◌, ◌+◌, ◌*◌, ◌≤◌, ◌↔◌, ◌⊎◌, None, Some, Err, IfOk, IfErr};
ghost use Rattle.pb_decode.specs.Decoder.{Decoder};
ghost use Rattle.pb_decode.specs.Parts.{IsOfPool, decoder_of};
ghost use Rattle.pb_c_answers.specs.Reporting.{Tells};
ghost use Rattle.pb_c_answers.specs.Decoder.{IsEnded};

use pb_c_answers::decoder::end;
use pb_c_answers::{DONE, EMPTY, FAULT, FINISHED, FaultReport, MEMORY, Step};
use pb_c_handles::decoder::own::OwnDecoder;
use pb_c_handles::decoder::{DecoderHandle, put, take};
use pb_c_handles::message::own::{OwnMessage, boxed};
use pb_c_handles::message::{MessageHandle, hold};
use pb_decode::DecoderParts;
use pb_schema::Pool;
use std::alloc::Global;
use std::sync::Arc;

/// A box of the message of all bytes that a decoder of this pool received. Where there is none, a fault is reported, and the error is what a call
/// answers.
fn message_of_parts(
    alloc: Global,
    pool: &Arc<Pool>,
    parts: &mut DecoderParts,
    fault: &mut FaultReport,
    path: &mut [Step],
) -> Result<Box<OwnMessage, Global>, u32>
    requires { IsOfPool pool.now.value parts.old }
    ensures given { IfOk result
        (λ b. IsEnded (Some (decoder_of pool.now.value parts.old))
        (Some (decoder_of pool.now.value parts.new)) DONE (λ m. b.value ≡ m)
        (λ f. Tells f fault.new path.old path.new)) }
    ensures refused { IfErr result
        (λ a. IsEnded (Some (decoder_of pool.now.value parts.old))
        (Some (decoder_of pool.now.value parts.new)) a (λ m. ⊥)
        (λ f. Tells f fault.new path.old path.new)) }
    ensures of_pool { IsOfPool pool.now.value parts.new }
    ensures steps { result ≡ Err FAULT → fault.new.steps ≤ 2 * parts.old.limits.depth + 1 }
    ensures untold { result ≢ Err FAULT → (fault.new ≡ fault.old) × (path.new ≡ path.old) }
    ensures answers { IfErr result (λ a. (a ≡ FAULT) ⊎ (a ≡ MEMORY) ⊎ (a ≡ FINISHED)) }
{
    match end(alloc, pool, parts, fault, path) {
        Ok(message) => match boxed(alloc, pool, message) {
            Ok(message) => Ok(message),
            Err(_) => Err(MEMORY),
        },
        Err(answer) => Err(answer),
    }
}

/// A box of the message of all bytes that a decoder received, or what a call answers.
fn finish_own(
    alloc: Global,
    own: &mut OwnDecoder,
    fault: &mut FaultReport,
    path: &mut [Step],
) -> Result<Box<OwnMessage, Global>, u32>
    ensures given { IfOk result
        (λ b. IsEnded (Some own.old) (Some own.new) DONE (λ m. b.value ≡ m)
        (λ f. Tells f fault.new path.old path.new)) }
    ensures refused { IfErr result
        (λ a. IsEnded (Some own.old) (Some own.new) a (λ m. ⊥)
        (λ f. Tells f fault.new path.old path.new)) }
    ensures steps { result ≡ Err FAULT → fault.new.steps ≤ 2 * own.old.limits.depth + 1 }
    ensures untold { result ≢ Err FAULT → (fault.new ≡ fault.old) × (path.new ≡ path.old) }
    ensures answers { IfErr result (λ a. (a ≡ FAULT) ⊎ (a ≡ MEMORY) ⊎ (a ≡ FINISHED)) }
{
    message_of_parts(alloc, &own.pool, &mut own.parts, fault, path)
}

/// Puts the message of all bytes that the decoder received into the handle of a message, in place of what that held. The decoder is finished then,
/// whatever is answered.
///
/// Answers DONE; EMPTY where the handle of the decoder holds nothing; FAULT where the bytes are no encoding, also where they end too early; MEMORY;
/// or FINISHED where the decoder was finished before. The handle of the message is changed at DONE alone, and the fault and its path are written at
/// FAULT alone.
#[unsafe(no_mangle)]
pub extern "C" fn mb_decoder_finish(
    alloc: Global,
    decoder: &mut DecoderHandle,
    message: &mut MessageHandle,
    fault: &mut FaultReport,
    path: &mut [Step],
) -> u32
    ensures ended { IsEnded decoder.old.seal.decoder decoder.new.seal.decoder result
        (λ m. message.new.seal.message ≡ Some m) (λ f. Tells f fault.new path.old path.new) }
    ensures kept { result ≢ DONE → message.new ≡ message.old }
    ensures steps { (d : Decoder) → decoder.old.seal.decoder ≡ Some d → result ≡ FAULT
        → fault.new.steps ≤ 2 * d.limits.depth + 1 }
    ensures untold { result ≢ FAULT → (fault.new ≡ fault.old) × (path.new ≡ path.old) }
    ensures empty { result ≡ EMPTY ↔ (decoder.old.seal.decoder ≡ None) }
    ensures answers { (result ≡ DONE) ⊎ (result ≡ EMPTY) ⊎ (result ≡ FAULT) ⊎ (result ≡ MEMORY)
        ⊎ (result ≡ FINISHED) }
{
    let Some(mut own) = take(alloc, decoder) else {
        return EMPTY;
    };
    let ended = finish_own(alloc, &mut own, fault, path);
    put(decoder, own);
    match ended {
        Ok(ended) => {
            hold(alloc, message, ended);
            DONE
        }
        Err(answer) => answer,
    }
}
