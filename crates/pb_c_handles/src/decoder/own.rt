//! What the handle of a decoder holds.

ghost use Rattle.std.specs.Prelude.{◌≡◌, IfOk};
ghost use Rattle.pb_decode.specs.Parts.{IsOfPool, decoder_of};

use pb_decode::DecoderParts;
use pb_schema::Pool;
use std::alloc::{AllocError, Global};
use std::marker::Model;
use std::sync::Arc;

/// A decoder: the pool of its type, which handles share, and what it has apart from that.
#[derive(Drop)]
pub struct OwnDecoder {
    pub pool: Arc<Pool>,
    pub parts: DecoderParts,
}

impl Model for OwnDecoder {
    ghost use Rattle.pb_decode.specs.Decoder.{Decoder, datum_code, payload_code};
    ghost use Rattle.std.specs.Coded.{codes};
    ghost use Rattle.pb_value.specs.Code.{message_code};

    ghost Value = { Decoder };

    ghost coded = { Prim.hlevel (codes, message_code, datum_code, payload_code) };

    ghost use Rattle.pb_decode.specs.Parts.{IsOfPool, decoder_of};

    ghost view = { λ d. decoder_of d.pool.value d.parts };

    ghost invariant = { λ d. IsOfPool d.pool.value d.parts };
}

/// A box of the decoder of this pool that these are the parts of.
pub fn boxed(
    alloc: Global,
    pool: &Arc<Pool>,
    parts: DecoderParts,
) -> Result<Box<OwnDecoder, Global>, AllocError>
    requires { IsOfPool pool.now.value parts }
    ensures same { IfOk result (λ b. b.value ≡ decoder_of pool.now.value parts) }
{
    let pool = Arc::try_clone(pool)?;
    Ok(Box::new(alloc, OwnDecoder { pool, parts })?)
}
