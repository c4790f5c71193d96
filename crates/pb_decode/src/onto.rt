//! Decoding onto a message.

ghost use Rattle.std.specs.Prelude.{◌≡◌, ◌+◌, ◌<◌, ◌≤◌, ◌^◌, ◌++◌, ℕ, List, length, None, OnOk, IfOk, IfErr};
ghost use Rattle.pb_wire.specs.Record.{Record};
ghost use Rattle.pb_wire.specs.Fault.{Fault};
ghost use Rattle.pb_wire.specs.Exact.{Exactly};
ghost use Rattle.pb_wire.specs.Limits.{full};
ghost use Rattle.pb_schema.specs.Rules.{IsPool};
ghost use Rattle.pb_value.specs.Data.{Message};
ghost use Rattle.pb_value.specs.View.{body_view};
ghost use Rattle.pb_value.specs.WellFormed.{IsWellFormed};
ghost use Rattle.pb_value.specs.Derives.{Text};
ghost use Rattle.pb_decode.specs.Reader.{IfFault};
ghost use Rattle.pb_decode.specs.Reader.Start.{starting, further};
ghost use Rattle.pb_decode.specs.Onto.{IsTextOnto, TextOnto, DerivesFor, canonical};
ghost use Rattle.pb_decode.specs.Reader.Pieces.{received, ReadFrom};
ghost use Rattle.pb_decode.specs.Push.{IsFaultOf, Gives, Tells};

use crate::error::DecodeError;
use crate::push::Reading;
use crate::reader::fault::too_large;
use crate::reader::start::{begin_at, finish_message, take_onward};
use pb_schema::{MessageId, Pool};
use pb_value::{Body, DynamicMessage};
use pb_wire::Limits;
use std::alloc::Global;

/// Takes all bytes of an input, or of too many those within the limit.
fn take_within(
    alloc: Global,
    pool: &Pool,
    message_type: MessageId,
    limits: Limits,
    reading: &mut Reading,
    bytes: &[u8],
) -> Result<(), DecodeError>
    requires rules { IsPool pool.now }
    requires took { (base : List Record) × ReadFrom pool.now (starting message_type.0 limits.depth base None) reading.old }
    ensures size { OnOk result (length bytes.now ≤ limits.bytes) }
    ensures at { OnOk result (received reading.new ≡ length bytes.now) }
    ensures took { (base : List Record) → ReadFrom pool.now (starting message_type.0 limits.depth base None) reading.old
        → OnOk result (ReadFrom pool.now (further (starting message_type.0 limits.depth base None) bytes.now) reading.new) }
    ensures fault { IfErr result (λ e. IfFault e (IsFaultOf pool.now message_type.0 limits bytes.now)) }
{
    let most = limits.max_bytes();
    if bytes.len() > most as usize {
        take_onward(alloc, pool, reading, &bytes[..most as usize])?;
        return Err(too_large(alloc, most));
    }
    take_onward(alloc, pool, reading, bytes)
}

/// Decodes an input onto the body of a message.
pub(crate) fn read_onto<'p>(
    alloc: Global,
    pool: &'p Pool,
    message_type: MessageId,
    body: Body,
    bytes: &[u8],
    limits: Limits,
) -> Result<DynamicMessage<'p>, DecodeError>
    requires rules { IsPool pool.now }
    requires within { message_type.0 < length pool.now.messages }
    requires well_formed { IsWellFormed pool.now message_type.0 (body_view body) }
    ensures deep { limits.depth ≤ 100 }
    ensures of_type { IfOk result (λ m. (m.pool ≡ pool.now) × (m.kind ≡ message_type.0)) }
    ensures value { IfOk result (λ m. IsTextOnto pool.now message_type.0 limits (body_view body) bytes.now m.body) }
    ensures fault { IfErr result (λ e. IfFault e (IsFaultOf pool.now message_type.0 limits bytes.now)) }
{
    let depth_left = limits.max_depth();
    let mut reading = begin_at(alloc, message_type, body, depth_left, None);
    take_within(alloc, pool, message_type, limits, &mut reading, bytes)?;
    finish_message(alloc, pool, message_type, reading)
}

/// Decodes bytes onto a message of their type: the answer is what the message's canonical form followed by the bytes
/// decodes to (encoding guide, "Last One Wins").
///
/// The message is given up also where the bytes are refused. Places and limits count the bytes alone.
pub fn decode_onto<'p>(
    message: DynamicMessage<'p>,
    bytes: &[u8],
    limits: Limits,
) -> Result<DynamicMessage<'p>, DecodeError>
    ensures of_type { IfOk result (λ m. (m.pool ≡ message.entry.pool) × (m.kind ≡ message.entry.kind)) }
    ensures value { IfOk result (λ m. TextOnto message.entry limits bytes.now m.body) }
    ensures fault { IfErr result (λ e. IfFault e (IsFaultOf message.entry.pool message.entry.kind limits bytes.now)) }
    ensures accepted { (w : Message) → TextOnto message.entry limits bytes.now w → Gives result w }
    ensures refused { (f : Fault) → IsFaultOf message.entry.pool message.entry.kind limits bytes.now f → Tells result f }
    ensures one { Exactly ((w : Message) × TextOnto message.entry limits bytes.now w) (IsFaultOf message.entry.pool message.entry.kind limits bytes.now) }
    // after any bytes that the message derives from
    ensures joined { (a : List ℕ) → DerivesFor message.entry limits a message.entry.body
        → IfOk result (λ m. DerivesFor message.entry limits (a ++ bytes.now) m.body) }
    ensures accepts_joined { (a : List ℕ) (w : Message) → length bytes.now ≤ limits.bytes → DerivesFor message.entry limits a message.entry.body
        → DerivesFor message.entry limits (a ++ bytes.now) w → Gives result w }
    // after its canonical bytes
    ensures text { length (canonical message.entry ++ bytes.now) < 2 ^ 31
        → IfOk result (λ m. Text message.entry.pool message.entry.kind full (canonical message.entry ++ bytes.now) m.body) }
{
    let alloc = message.alloc();
    let pool = message.pool();
    let kind = message.message_type();
    let _types = pool.messages();
    let _well_formed = message.body();
    read_onto(alloc, pool, kind, message.into_body(), bytes, limits)
}
