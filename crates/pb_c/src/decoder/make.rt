//! A decoder that has received no byte.

ghost use Rattle.std.specs.Prelude.{◌≡◌, ◌≢◌, ◌↔◌, ◌⊎◌, None, Some};
ghost use Rattle.pb_schema.specs.Types.{Types};
ghost use Rattle.pb_decode.specs.Decoder.{Decoder};
ghost use Rattle.pb_c_answers.specs.Reporting.{AreLimits, bounds};
ghost use Rattle.pb_c_answers.specs.Typed.{HasType, LacksType};
ghost use Rattle.pb_c_answers.specs.Decoder.{IsBegun};
ghost use Rattle.pb_c_handles.specs.Held.{types_held};

use pb_c_answers::decoder::begin;
use pb_c_answers::{BAD_LIMITS, DONE, EMPTY, MEMORY, NO_TYPE};
use pb_c_handles::decoder::{DecoderHandle, hold};
use pb_c_handles::pool::{PoolHandle, put, take};
use pb_wire::Limits;
use std::alloc::Global;

/// Makes a decoder of the type of this number in the pool that has received no byte, in place of what the handle of the decoder held. The
/// decoder holds the pool too, which is freed with the last handle that holds it.
///
/// Answers DONE; BAD_LIMITS; EMPTY where the handle of the pool holds nothing; NO_TYPE where its pool has no such type; or MEMORY. The handle
/// of the decoder is changed at DONE alone.
#[unsafe(no_mangle)]
pub extern "C" fn mb_decoder_new(
    alloc: Global,
    pool: &mut PoolHandle,
    message_type: u32,
    max_bytes: u32,
    max_depth: u8,
    decoder: &mut DecoderHandle,
) -> u32
    ensures made { result ≡ DONE → (ts : Types) × HasType (types_held pool.old) message_type ts
        × ((d : Decoder) × IsBegun ts message_type (bounds max_bytes max_depth) d
        × (decoder.new.seal.decoder ≡ Some d)) }
    ensures kept { result ≢ DONE → decoder.new ≡ decoder.old }
    ensures limits { result ≡ BAD_LIMITS ↔ ¬ AreLimits max_bytes max_depth }
    ensures empty { result ≡ EMPTY ↔ AreLimits max_bytes max_depth × (types_held pool.old ≡ None) }
    ensures no_type { result ≡ NO_TYPE ↔ AreLimits max_bytes max_depth
        × LacksType (types_held pool.old) message_type }
    ensures answers { (result ≡ DONE) ⊎ (result ≡ BAD_LIMITS) ⊎ (result ≡ EMPTY)
        ⊎ (result ≡ NO_TYPE) ⊎ (result ≡ MEMORY) }
    ensures same { pool.new.seal.pool ≡ pool.old.seal.pool }
{
    let Some(limits) = Limits::new(max_bytes, max_depth) else {
        return BAD_LIMITS;
    };
    let Some(shared) = take(alloc, pool) else {
        return EMPTY;
    };
    let begun = begin(alloc, &shared.pool, message_type, limits);
    put(pool, shared);
    match begun {
        Ok(begun) => {
            hold(alloc, decoder, begun);
            DONE
        }
        Err(answer) => answer,
    }
}
