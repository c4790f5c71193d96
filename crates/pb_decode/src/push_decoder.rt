//! Decoding from pieces of an encoding.

ghost use Rattle.std.specs.Prelude.{◌≡◌, None};

use crate::decoder_parts::DecoderParts;
use crate::error::DecodeError;
use crate::push::{Reading, end, open_contexts, start, take_text};
use pb_schema::{MessageId, Pool};
use pb_value::DynamicMessage;
use pb_wire::Limits;
use std::alloc::Global;
use std::marker::Model;

/// Decodes a message of a type from pieces of its encoding.
///
/// What it keeps between pieces is the message so far, the open parts, and the bytes of one open token or payload.
#[derive(Drop)]
pub struct PushDecoder<'p> {
    alloc: Global,
    pool: &'p Pool,
    kind: MessageId,
    limits: Limits,
    reading: Option<Reading>,
}

/// What was read is given up.
fn close(reading: &mut Option<Reading>)
    ensures { reading.new ≡ None }
{
    *reading = None;
}

impl<'p> Model for PushDecoder<'p> {
    ghost use Rattle.pb_decode.specs.Decoder.{Decoder, datum_code, payload_code};
    ghost use Rattle.std.specs.Coded.{codes};
    ghost use Rattle.pb_value.specs.Code.{message_code};

    ghost Value = { Decoder };

    ghost coded = { Prim.hlevel (codes, message_code, datum_code, payload_code) };

    ghost use Rattle.std.specs.Prelude.{option_map};
    ghost use Rattle.pb_decode.specs.ReadingView.{reading_view, IsSound};

    ghost view = { λ d. record { pool = d.pool.now; kind = d.kind.0; limits = d.limits; reading = option_map reading_view d.reading } };

    ghost invariant = { λ d. IsSound d.pool.now d.kind.0 d.limits d.reading };
}

impl<'p> PushDecoder<'p> {
    ghost use Rattle.std.specs.Prelude.{◌≡◌, ◌<◌, ◌≤◌, ◌+◌, ◌*◌, ◌++◌, max, ℕ, List, [], length, None, Err, OnOk, OnErr, IfOk, IfErr};
    ghost use Rattle.pb_wire.specs.Fault.{Fault};
    ghost use Rattle.pb_wire.specs.Exact.{Exactly};
    ghost use Rattle.pb_value.specs.Data.{Message};
    ghost use Rattle.pb_decode.specs.declared.error.DecodeError.TheVariants.{Memory, Finished};
    ghost use Rattle.pb_decode.specs.Reader.{IfFault};
    ghost use Rattle.pb_decode.specs.Parts.{IsOfPool, decoder_of};
    ghost use Rattle.pb_decode.specs.Received.{After, IsTextFor, IsFaultFor, IsSettledFor, IsGoingFor, IsPendingFor, IsOpenFor, IsDeclaredFor};
    ghost use Rattle.pb_decode.specs.Push.{Gives, Tells};

    /// A decoder that has received no byte. `message_type` is a type of the pool.
    pub fn new(
        alloc: Global,
        pool: &'p Pool,
        message_type: MessageId,
        limits: Limits,
    ) -> Result<PushDecoder<'p>, DecodeError>
        requires { message_type.0 < length pool.now.messages }
        ensures of_type { IfOk result (λ d. (d.pool ≡ pool.now) × (d.kind ≡ message_type.0) × (d.limits ≡ limits)) }
        ensures after { IfOk result (λ d. After d []) }
        ensures memory { IfErr result (λ e. e ≡ Memory) }
    {
        let _types = pool.messages();
        let reading = start(alloc, pool, message_type, limits);
        Ok(PushDecoder {
            alloc,
            pool,
            kind: message_type,
            limits,
            reading: Some(reading),
        })
    }

    /// The decoder of these parts, which are those of a decoder of this pool or of one that holds the same. It goes on where that one was:
    /// nothing is read again.
    pub fn from_parts(alloc: Global, pool: &'p Pool, parts: DecoderParts) -> PushDecoder<'p>
        requires { IsOfPool pool.now parts }
        ensures { result ≡ decoder_of pool.now parts }
    {
        let _types = pool.messages();
        PushDecoder {
            alloc,
            pool,
            kind: parts.message_type,
            limits: parts.limits,
            reading: parts.reading,
        }
    }

    /// What the decoder holds apart from its pool.
    pub fn into_parts(self) -> DecoderParts
        ensures same { decoder_of self.entry.pool result ≡ self.entry }
        ensures of_pool { IsOfPool self.entry.pool result }
    {
        DecoderParts {
            message_type: self.kind,
            limits: self.limits,
            reading: self.reading,
        }
    }

    /// Receives the next piece. Bytes that no encoding begins with are refused in the first piece that settles it, and every later
    /// call answers [`DecodeError::Finished`].
    pub fn feed(&mut self, piece: &[u8]) -> Result<(), DecodeError>
        ensures same { (self.new.pool ≡ self.old.pool) × (self.new.kind ≡ self.old.kind) × (self.new.limits ≡ self.old.limits) }
        ensures after { (b : List ℕ) → After self.old b → OnOk result (After self.new (b ++ piece.now)) }
        ensures goes_on { (b : List ℕ) → After self.old b → OnOk result (IsGoingFor self.old (b ++ piece.now)) }
        ensures fault { (b : List ℕ) → After self.old b → IfErr result (λ e. IfFault e (IsSettledFor self.old (b ++ piece.now))) }
        ensures going { (b : List ℕ) → After self.old b → IsGoingFor self.old (b ++ piece.now) → IfErr result (λ e. e ≡ Memory) }
        ensures refused { (b : List ℕ) (f : Fault) → After self.old b → IsSettledFor self.old (b ++ piece.now) f → Tells result f }
        ensures closes { OnErr result (self.new.reading ≡ None) }
        ensures finished { self.old.reading ≡ None → (result ≡ Err Finished) × (self.new ≡ self.old) }
    {
        let Some(reading) = &mut self.reading else {
            return Err(DecodeError::Finished);
        };
        match take_text(
            self.alloc,
            self.pool,
            self.kind,
            self.limits,
            reading,
            piece,
        ) {
            Ok(()) => Ok(()),
            Err(error) => {
                close(&mut self.reading);
                Err(error)
            }
        }
    }

    /// The message of all bytes received. Every later call answers [`DecodeError::Finished`].
    pub fn finish(&mut self) -> Result<DynamicMessage<'p>, DecodeError>
        ensures same { (self.new.pool ≡ self.old.pool) × (self.new.kind ≡ self.old.kind) × (self.new.limits ≡ self.old.limits) }
        ensures value { (b : List ℕ) → After self.old b → IfOk result (λ m. (m.pool ≡ self.old.pool) × (m.kind ≡ self.old.kind) × IsTextFor self.old b m.body) }
        ensures fault { (b : List ℕ) → After self.old b → IfErr result (λ e. IfFault e (IsFaultFor self.old b)) }
        ensures accepted { (b : List ℕ) (v : Message) → After self.old b → IsTextFor self.old b v → Gives result v }
        ensures refused { (b : List ℕ) (f : Fault) → After self.old b → IsFaultFor self.old b f → Tells result f }
        ensures one { (b : List ℕ) → After self.old b → Exactly ((v : Message) × IsTextFor self.old b v) (IsFaultFor self.old b) }
        ensures closes { self.new.reading ≡ None }
        ensures finished { self.old.reading ≡ None → result ≡ Err Finished }
    {
        let Some(reading) = self.reading.take() else {
            return Err(DecodeError::Finished);
        };
        end(self.alloc, self.pool, self.kind, self.limits, reading)
    }
    /// How many bytes are held: those received of the open token, or of the payload of a string, of bytes or of an unknown
    /// record. They are at most ten, or the one length declared for that payload. 0 where the decoder is finished.
    pub fn pending(&self) -> usize
        ensures held { (b : List ℕ) → After self.now b → IsPendingFor self.now b result }
        ensures one { (b : List ℕ) (n : ℕ) → After self.now b → IsPendingFor self.now b n → n ≡ result }
        ensures bound { (b : List ℕ) → After self.now b → (n : ℕ) × IsDeclaredFor self.now b n × (result ≤ max 10 n) }
        ensures one_bound { (b : List ℕ) (n k : ℕ)
            → IsDeclaredFor self.now b n
            → IsDeclaredFor self.now b k → n ≡ k }
        ensures closed { self.now.reading ≡ None → result ≡ 0 }
    {
        match &self.reading {
            Some(reading) => reading.held.len(),
            None => 0,
        }
    }

    /// How many messages, map entries, groups and packed lists are open, the top one too. 0 where the decoder is finished.
    pub fn frames(&self) -> usize
        ensures open { (b : List ℕ) → After self.now b → IsOpenFor self.now b result }
        ensures one { (b : List ℕ) (n : ℕ) → After self.now b → IsOpenFor self.now b n → n ≡ result }
        ensures bound { result ≤ 2 * self.now.limits.depth + 2 }
        ensures closed { self.now.reading ≡ None → result ≡ 0 }
    {
        match &self.reading {
            Some(reading) => open_contexts(reading),
            None => 0,
        }
    }
}
