//! A piece for a decoder that a handle holds.

ghost use Rattle.std.specs.Prelude.{◌≡◌, ◌≢◌, ◌+◌, ◌*◌, ◌≤◌, ◌↔◌, ◌⊎◌, None, Some};
ghost use Rattle.pb_decode.specs.Decoder.{Decoder};
ghost use Rattle.pb_c_answers.specs.Reporting.{Tells};
ghost use Rattle.pb_c_answers.specs.Decoder.{IsFed};

use pb_c_answers::decoder::feed;
use pb_c_answers::{DONE, EMPTY, FAULT, FINISHED, FaultReport, MEMORY, Step};
use pb_c_handles::decoder::{DecoderHandle, put, take};
use std::alloc::Global;

/// Gives the decoder the next piece of the encoding. Bytes that no encoding begins with are refused in the first piece that settles it.
///
/// Answers DONE; EMPTY where the handle holds nothing; FAULT; MEMORY; or FINISHED where the decoder has given its message or its fault, or ran out
/// of memory. It is finished after FAULT and MEMORY too. The fault and its path are written at FAULT alone: the byte counts from the first piece on.
#[unsafe(no_mangle)]
pub extern "C" fn mb_decoder_feed(
    alloc: Global,
    decoder: &mut DecoderHandle,
    piece: &[u8],
    fault: &mut FaultReport,
    path: &mut [Step],
) -> u32
    ensures fed { IsFed decoder.old.seal.decoder decoder.new.seal.decoder piece.now result
        (λ f. Tells f fault.new path.old path.new) }
    ensures steps { (d : Decoder) → decoder.old.seal.decoder ≡ Some d → result ≡ FAULT
        → fault.new.steps ≤ 2 * d.limits.depth + 1 }
    ensures untold { result ≢ FAULT → (fault.new ≡ fault.old) × (path.new ≡ path.old) }
    ensures empty { result ≡ EMPTY ↔ (decoder.old.seal.decoder ≡ None) }
    ensures answers { (result ≡ DONE) ⊎ (result ≡ EMPTY) ⊎ (result ≡ FAULT) ⊎ (result ≡ MEMORY)
        ⊎ (result ≡ FINISHED) }
{
    let Some(mut own) = take(alloc, decoder) else {
        return EMPTY;
    };
    let answer = feed(alloc, &mut own, piece, fault, path);
    put(decoder, own);
    answer
}
