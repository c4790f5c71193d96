//! Decoding by pieces, of what a decoder has apart from its pool.

ghost use Rattle.std.specs.Prelude.{◌≡◌, ◌<◌, ◌≤◌, ◌++◌, ◌↔◌, ◌⊎◌, max, ℕ, List, [], length, None, Err, OnOk, OnErr, IfOk, IfErr};
ghost use Rattle.pb_wire.specs.Fault.{Fault};
ghost use Rattle.pb_value.specs.Data.{Message};
ghost use Rattle.pb_decode.specs.declared.error.DecodeError.TheVariants.{Memory, Finished};
ghost use Rattle.pb_decode.specs.Reader.{IfFault};
ghost use Rattle.pb_decode.specs.Parts.{IsOfPool, decoder_of};
ghost use Rattle.pb_decode.specs.Received.{After, IsTextFor, IsFaultFor, IsSettledFor, IsGoingFor, IsPendingFor, IsDeclaredFor};
ghost use Rattle.pb_decode.specs.Push.{Gives, Tells};

use pb_decode::{DecodeError, DecoderParts, PushDecoder};
use pb_schema::{MessageId, Pool};
use pb_value::DynamicMessage;
use pb_wire::Limits;
use std::alloc::Global;

/// The parts of a decoder of this pool that has received no byte. `message_type` is a type of the pool.
pub(crate) fn start(
    alloc: Global,
    pool: &Pool,
    message_type: MessageId,
    limits: Limits,
) -> Result<DecoderParts, DecodeError>
    requires { message_type.0 < length pool.now.messages }
    ensures of_pool { IfOk result (λ p. IsOfPool pool.now p) }
    ensures of_type { IfOk result (λ p. (p.message_type ≡ message_type.0) × (p.limits ≡ limits)) }
    ensures after { IfOk result (λ p. After (decoder_of pool.now p) []) }
    ensures memory { IfErr result (λ e. e ≡ Memory) }
{
    match PushDecoder::new(alloc, pool, message_type, limits) {
        Ok(decoder) => Ok(decoder.into_parts()),
        Err(error) => Err(error),
    }
}

/// Receives the next piece, as `PushDecoder::feed` does.
pub(crate) fn receive(
    alloc: Global,
    pool: &Pool,
    parts: &mut DecoderParts,
    piece: &[u8],
) -> Result<(), DecodeError>
    requires { IsOfPool pool.now parts.old }
    ensures of_pool { IsOfPool pool.now parts.new }
    ensures same { (parts.new.message_type ≡ parts.old.message_type)
        × (parts.new.limits ≡ parts.old.limits) }
    ensures after { (b : List ℕ) → After (decoder_of pool.now parts.old) b
        → OnOk result (After (decoder_of pool.now parts.new) (b ++ piece.now)) }
    ensures goes_on { (b : List ℕ) → After (decoder_of pool.now parts.old) b
        → OnOk result (IsGoingFor (decoder_of pool.now parts.old) (b ++ piece.now)) }
    ensures fault { (b : List ℕ) → After (decoder_of pool.now parts.old) b
        → IfErr result (λ e. IfFault e
        (IsSettledFor (decoder_of pool.now parts.old) (b ++ piece.now))) }
    ensures going { (b : List ℕ) → After (decoder_of pool.now parts.old) b
        → IsGoingFor (decoder_of pool.now parts.old) (b ++ piece.now)
        → IfErr result (λ e. e ≡ Memory) }
    ensures refused { (b : List ℕ) (f : Fault) → After (decoder_of pool.now parts.old) b
        → IsSettledFor (decoder_of pool.now parts.old) (b ++ piece.now) f → Tells result f }
    ensures closes { OnErr result (parts.new.reading ≡ None) }
    ensures finished { parts.old.reading ≡ None → result ≡ Err Finished }
    ensures some { (parts.old.reading ≡ None)
        ⊎ ((b : List ℕ) × After (decoder_of pool.now parts.old) b) }
{
    let mut decoder = PushDecoder::from_parts(alloc, pool, parts.take());
    let received = decoder.feed(piece);
    *parts = decoder.into_parts();
    received
}

/// The message of all bytes received, as `PushDecoder::finish` gives it.
pub(crate) fn finish<'p>(
    alloc: Global,
    pool: &'p Pool,
    parts: &mut DecoderParts,
) -> Result<DynamicMessage<'p>, DecodeError>
    requires { IsOfPool pool.now parts.old }
    ensures of_pool { IsOfPool pool.now parts.new }
    ensures same { (parts.new.message_type ≡ parts.old.message_type)
        × (parts.new.limits ≡ parts.old.limits) }
    ensures value { (b : List ℕ) → After (decoder_of pool.now parts.old) b
        → IfOk result (λ m. (m.pool ≡ pool.now) × (m.kind ≡ parts.old.message_type)
        × IsTextFor (decoder_of pool.now parts.old) b m.body) }
    ensures fault { (b : List ℕ) → After (decoder_of pool.now parts.old) b
        → IfErr result (λ e. IfFault e (IsFaultFor (decoder_of pool.now parts.old) b)) }
    ensures accepted { (b : List ℕ) (v : Message) → After (decoder_of pool.now parts.old) b
        → IsTextFor (decoder_of pool.now parts.old) b v → Gives result v }
    ensures refused { (b : List ℕ) (f : Fault) → After (decoder_of pool.now parts.old) b
        → IsFaultFor (decoder_of pool.now parts.old) b f → Tells result f }
    ensures closes { parts.new.reading ≡ None }
    ensures finished { parts.old.reading ≡ None → result ≡ Err Finished }
    ensures some { (parts.old.reading ≡ None)
        ⊎ ((b : List ℕ) × After (decoder_of pool.now parts.old) b) }
{
    let mut decoder = PushDecoder::from_parts(alloc, pool, parts.take());
    let finished = decoder.finish();
    *parts = decoder.into_parts();
    finished
}

/// How many bytes are held, as `PushDecoder::pending` counts them.
pub(crate) fn pending(alloc: Global, pool: &Pool, parts: &mut DecoderParts) -> usize
    requires { IsOfPool pool.now parts.old }
    ensures same { parts.new ≡ parts.old }
    ensures held { (b : List ℕ) → After (decoder_of pool.now parts.old) b
        → IsPendingFor (decoder_of pool.now parts.old) b result }
    ensures one { (b : List ℕ) (n : ℕ) → After (decoder_of pool.now parts.old) b
        → IsPendingFor (decoder_of pool.now parts.old) b n → n ≡ result }
    ensures bound { (b : List ℕ) → After (decoder_of pool.now parts.old) b
        → (n : ℕ) × IsDeclaredFor (decoder_of pool.now parts.old) b n × (result ≤ max 10 n) }
    ensures closed { parts.old.reading ≡ None → result ≡ 0 }
{
    let decoder = PushDecoder::from_parts(alloc, pool, parts.take());
    let size = decoder.pending();
    *parts = decoder.into_parts();
    size
}
