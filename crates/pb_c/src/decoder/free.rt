//! A decoder that a handle holds, freed.

ghost use Rattle.std.specs.Prelude.{◌≡◌};

use pb_c_handles::decoder::{DecoderHandle, take};
use std::alloc::Global;

/// Frees the decoder that a handle holds, which holds nothing then. Its pool is freed with the last handle that holds it.
#[unsafe(no_mangle)]
pub extern "C" fn mb_decoder_free(alloc: Global, decoder: &mut DecoderHandle)
    ensures left { decoder.new.seal.decoder ≡ None }
{
    let _ = take(alloc, decoder);
}
