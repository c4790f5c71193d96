//! How many bytes a decoder that a handle holds has of what is open.

ghost use Rattle.std.specs.Prelude.{◌≡◌, ◌≢◌, ◌↔◌, ◌⊎◌, None};
ghost use Rattle.pb_c_answers.specs.Decoder.{IsCounted};

use pb_c_answers::decoder::count;
use pb_c_answers::{DONE, EMPTY};
use pb_c_handles::decoder::{DecoderHandle, put, take};
use std::alloc::Global;

/// Reports how many bytes the decoder holds: those received of the open token, or of the payload of a string, of bytes or of an unknown record. 0 where
/// it is finished.
///
/// Answers DONE, or EMPTY where the handle holds nothing. The number is written at DONE alone.
#[unsafe(no_mangle)]
pub extern "C" fn mb_decoder_pending(
    alloc: Global,
    decoder: &mut DecoderHandle,
    pending: &mut usize,
) -> u32
    ensures counted { result ≡ DONE → IsCounted decoder.old.seal.decoder pending.new }
    ensures uncounted { result ≢ DONE → pending.new ≡ pending.old }
    ensures empty { result ≡ EMPTY ↔ (decoder.old.seal.decoder ≡ None) }
    ensures answers { (result ≡ DONE) ⊎ (result ≡ EMPTY) }
    ensures same { decoder.new.seal.decoder ≡ decoder.old.seal.decoder }
{
    let Some(mut own) = take(alloc, decoder) else {
        return EMPTY;
    };
    *pending = count(alloc, &mut own);
    put(decoder, own);
    DONE
}
