//! Decoding, whole and in pieces.

ghost use Rattle.std.specs.Prelude.{◌≡◌, ◌+◌, ◌-◌, ◌<◌, ◌≤◌, ◌^◌, ◌++◌, ℕ, List, [], drop, length, vec_len, OnOk, IfOk, IfErr};
ghost use Rattle.pb_wire.specs.Fault.{Fault, fault};
ghost use Rattle.pb_wire.specs.declared.fault.Cause.TheVariants.{Truncated};
ghost use Rattle.pb_wire.specs.Exact.{Exactly};
ghost use Rattle.pb_schema.specs.Rules.{IsPool};
ghost use Rattle.pb_value.specs.Data.{Message};
ghost use Rattle.pb_value.specs.Derives.{Text};
ghost use Rattle.pb_decode.specs.Reader.{state_view, path_here, IsReading, IfFault};
ghost use Rattle.pb_decode.specs.Push.{IsSettled, IsFaultOf, Gives, Tells};
ghost use Rattle.pb_decode.specs.Reader.Waiting.{Waits, lists_in};
ghost use Rattle.pb_decode.specs.Reader.Steps.{TellsFault};
ghost use Rattle.pb_decode.specs.Reader.Pieces.{received, ReadText, ReadSome, TakesFront, TakesPiece, TellsPieceFault};

use crate::error::DecodeError;
use crate::onto::read_onto;
use crate::reader::fault::too_large;
use crate::reader::start::{begin_empty, finish_message};
use crate::reader::state::State;
use crate::validating::refuse;
use pb_decode_parts::{NoMemory, Step};
use pb_decode_whole::build;
use pb_decode_whole::reader::Reader;
use pb_schema::{MessageId, Pool};
use pb_value::DynamicMessage;
use pb_value::bodies::empty_body;
use pb_wire::{Cause, Limits};
use std::alloc::Global;

/// What a decoder has between pieces.
#[derive(Drop)]
pub(crate) struct Reading {
    pub reader: State,
    /// The bytes of an open token, or of an open payload.
    pub held: Vec<u8>,
}

/// Takes what is complete at the start of the bytes, where none are held, and holds the others.
fn take_front(
    alloc: Global,
    pool: &Pool,
    reading: &mut Reading,
    bytes: &[u8],
) -> Result<(), DecodeError>
    requires rules { IsPool pool.now }
    requires reading { IsReading pool.now (state_view reading.old.reader) bytes.now }
    requires none_held { length reading.old.held.items ≡ 0 }
    ensures at { OnOk result (received reading.new ≡ reading.old.reader.at + length bytes.now) }
    ensures taken { TakesFront pool.now reading.old reading.new bytes.now result }
    ensures waits { OnOk result (Waits (state_view reading.new.reader) reading.new.held.items) }
    ensures refused { TellsFault pool.now reading.old.reader bytes.now result }
{
    let size = reading.reader.take_all(&Reader { alloc, pool }, bytes)?;
    reading.held.extend_from_slice(&bytes[size..])?;
    Ok(())
}

/// The bytes from an index on.
fn rest_of(alloc: Global, bytes: &[u8], from: usize) -> Result<Vec<u8>, NoMemory>
    requires { from ≤ length bytes.now }
    ensures { IfOk result (λ v. v.items ≡ drop from bytes.now) }
{
    let rest = Vec::from_slice(alloc, &bytes[from..])?;
    Ok(rest)
}

/// Takes what is complete at the start of the bytes that are held, and holds the others.
fn take_held(alloc: Global, pool: &Pool, reading: &mut Reading) -> Result<(), DecodeError>
    requires rules { IsPool pool.now }
    requires reading { IsReading pool.now (state_view reading.old.reader) reading.old.held.items }
    ensures at { OnOk result (received reading.new ≡ received reading.old) }
    ensures taken { TakesFront pool.now reading.old reading.new reading.old.held.items result }
    ensures waits { OnOk result (Waits (state_view reading.new.reader) reading.new.held.items) }
    ensures refused { TellsFault pool.now reading.old.reader reading.old.held.items result }
{
    let size = reading
        .reader
        .take_all(&Reader { alloc, pool }, &reading.held)?;
    if size == 0 {
        return Ok(());
    }
    let rest = rest_of(alloc, &reading.held, size)?;
    reading.held = rest;
    Ok(())
}

/// Takes what is complete at the start of the bytes that are held and of those after them, and holds the others.
fn take_joined(
    alloc: Global,
    pool: &Pool,
    reading: &mut Reading,
    more: &[u8],
) -> Result<(), DecodeError>
    requires rules { IsPool pool.now }
    requires reading { IsReading pool.now (state_view reading.old.reader) reading.old.held.items }
    requires small { received reading.old + length more.now < 2 ^ 31 }
    ensures at { OnOk result (received reading.new ≡ received reading.old + length more.now) }
    ensures taken { TakesPiece pool.now reading.old reading.new more.now result }
    ensures waits { OnOk result (Waits (state_view reading.new.reader) reading.new.held.items) }
    ensures refused { TellsPieceFault pool.now reading.old more.now result }
{
    reading.held.extend_from_slice(more)?;
    take_held(alloc, pool, reading)
}

/// How many more bytes to hold before what comes next is read again: all that are missing of a payload, one of a token.
fn wanted(step: Step, count: usize) -> usize
    ensures { 0 < result }
{
    match step {
        Step::Payload(_, _, size) => (size as usize).saturating_sub(count).max(1),
        _ => 1,
    }
}

/// Takes a piece after the bytes that are held. Its first bytes join these until the token or the payload that they begin
/// is whole, and the others are read where they lie.
pub(crate) fn take_piece(
    alloc: Global,
    pool: &Pool,
    reading: &mut Reading,
    piece: &[u8],
) -> Result<(), DecodeError>
    requires rules { IsPool pool.now }
    requires reading { IsReading pool.now (state_view reading.old.reader) reading.old.held.items }
    requires small { received reading.old + length piece.now < 2 ^ 31 }
    ensures at { OnOk result (received reading.new ≡ received reading.old + length piece.now) }
    ensures taken { TakesPiece pool.now reading.old reading.new piece.now result }
    ensures waits { OnOk result (Waits (state_view reading.new.reader) reading.new.held.items) }
    ensures refused { TellsPieceFault pool.now reading.old piece.now result }
{
    let mut here = 0;
    while !reading.held.is_empty() {
        let more = wanted(reading.reader.step, reading.held.len()).min(piece.len() - here);
        take_joined(alloc, pool, reading, &piece[here..here + more])?;
        here += more;
        if here == piece.len() {
            return Ok(());
        }
    }
    take_front(alloc, pool, reading, &piece[here..])
}

/// How many more bytes an input may have.
fn bytes_left(most: u32, reading: &Reading) -> usize
    ensures { result ≡ (most - reading.now.reader.at) - length reading.now.held.items }
{
    (most.saturating_sub(reading.reader.at) as usize).saturating_sub(reading.held.len())
}

/// Takes the next piece of an input.
pub(crate) fn take_text(
    alloc: Global,
    pool: &Pool,
    message_type: MessageId,
    limits: Limits,
    reading: &mut Reading,
    piece: &[u8],
) -> Result<(), DecodeError>
    requires rules { IsPool pool.now }
    requires took { ReadSome pool.now message_type.0 limits reading.old }
    ensures after { (b : List ℕ) → ReadText pool.now message_type.0 limits b reading.old
        → OnOk result (ReadText pool.now message_type.0 limits (b ++ piece.now) reading.new) }
    ensures waits { OnOk result (Waits (state_view reading.new.reader) reading.new.held.items) }
    ensures fault { (b : List ℕ) → ReadText pool.now message_type.0 limits b reading.old
        → IfErr result (λ e. IfFault e (IsSettled pool.now message_type.0 limits (b ++ piece.now))) }
{
    let most = limits.max_bytes();
    let remaining = bytes_left(most, reading);
    if piece.len() > remaining {
        take_piece(alloc, pool, reading, &piece[..remaining])?;
        return Err(too_large(alloc, most));
    }
    take_piece(alloc, pool, reading, piece)
}

/// Where no byte is taken yet.
pub(crate) fn start(alloc: Global, pool: &Pool, message_type: MessageId, limits: Limits) -> Reading
    requires { message_type.0 < length pool.now.messages }
    ensures took { ReadText pool.now message_type.0 limits [] result }
    ensures waits { Waits (state_view result.reader) result.held.items }
{
    begin_empty(alloc, pool, message_type, limits, None)
}

/// How many packed lists are open.
fn open_lists(step: Step) -> usize
    ensures { result ≡ lists_in step }
{
    match step {
        Step::Elements(_, _, _) => 1,
        _ => 0,
    }
}

/// How many messages, map entries, groups and packed lists are open, the top one too.
pub(crate) fn open_contexts(reading: &Reading) -> usize
    ensures { result ≡ vec_len reading.now.reader.parents + lists_in reading.now.reader.step + 1 }
{
    reading.reader.parents.len() + open_lists(reading.reader.step) + 1
}

/// The fault that the input ends too early.
pub(crate) fn cut_short(alloc: Global, reading: &Reading) -> DecodeError
    requires { received reading.now < 2 ^ 31 }
    ensures { IfFault result (λ f. f ≡ fault (received reading.now) (path_here (state_view reading.now.reader)) Truncated) }
{
    let byte = reading.reader.at + reading.held.len() as u32;
    reading.reader.fault_at(alloc, byte, Cause::Truncated)
}

/// The message of the bytes that are taken, or why there is none.
pub(crate) fn end<'p>(
    alloc: Global,
    pool: &'p Pool,
    message_type: MessageId,
    limits: Limits,
    reading: Reading,
) -> Result<DynamicMessage<'p>, DecodeError>
    requires rules { IsPool pool.now }
    requires within { message_type.0 < length pool.now.messages }
    requires took { ReadSome pool.now message_type.0 limits reading }
    ensures of_type { IfOk result (λ m. (m.pool ≡ pool.now) × (m.kind ≡ message_type.0)) }
    ensures value { (b : List ℕ) → ReadText pool.now message_type.0 limits b reading → IfOk result (λ m. Text pool.now message_type.0 limits b m.body) }
    ensures fault { (b : List ℕ) → ReadText pool.now message_type.0 limits b reading
        → IfErr result (λ e. IfFault e (IsFaultOf pool.now message_type.0 limits b)) }
{
    let _small = limits.max_bytes();
    finish_message(alloc, pool, message_type, reading)
}

/// The message that an input encodes, which `build` did not make, or its fault. It is read in pieces only where it has no fault, so that
/// hostile bytes are read three times: by `build`, for the fault, and for its path.
fn read_refused<'p>(
    alloc: Global,
    pool: &'p Pool,
    message_type: MessageId,
    bytes: &[u8],
    limits: Limits,
) -> Result<DynamicMessage<'p>, DecodeError>
    requires rules { IsPool pool.now }
    requires within { message_type.0 < length pool.now.messages }
    ensures of_type { IfOk result (λ m. (m.pool ≡ pool.now) × (m.kind ≡ message_type.0)) }
    ensures value { IfOk result (λ m. Text pool.now message_type.0 limits bytes.now m.body) }
    ensures fault { IfErr result (λ e. IfFault e (IsFaultOf pool.now message_type.0 limits bytes.now)) }
{
    refuse(alloc, pool, message_type, bytes, limits)?;
    let none = empty_body(alloc);
    read_onto(alloc, pool, message_type, none, bytes, limits)
}

/// The message that an input encodes, or its fault.
fn read_whole<'p>(
    alloc: Global,
    pool: &'p Pool,
    message_type: MessageId,
    bytes: &[u8],
    limits: Limits,
) -> Result<DynamicMessage<'p>, DecodeError>
    requires rules { IsPool pool.now }
    requires within { message_type.0 < length pool.now.messages }
    ensures of_type { IfOk result (λ m. (m.pool ≡ pool.now) × (m.kind ≡ message_type.0)) }
    ensures value { IfOk result (λ m. Text pool.now message_type.0 limits bytes.now m.body) }
    ensures fault { IfErr result (λ e. IfFault e (IsFaultOf pool.now message_type.0 limits bytes.now)) }
{
    match build(alloc, pool, message_type, bytes, limits) {
        Ok(message) => Ok(message),
        Err(NoMemory) => read_refused(alloc, pool, message_type, bytes, limits),
    }
}

/// Decodes a message of a type from its encoding (encoding guide, "Message Structure").
///
/// The answer is the message's value, or [`DecodeError::Fault`] with the first byte that no encoding of the type can have there.
/// `message_type` is a type of the pool. Bytes past the limits are refused.
pub fn decode<'p>(
    alloc: Global,
    pool: &'p Pool,
    message_type: MessageId,
    bytes: &[u8],
    limits: Limits,
) -> Result<DynamicMessage<'p>, DecodeError>
    requires { message_type.0 < length pool.now.messages }
    ensures of_type { IfOk result (λ m. (m.pool ≡ pool.now) × (m.kind ≡ message_type.0)) }
    ensures value { IfOk result (λ m. Text pool.now message_type.0 limits bytes.now m.body) }
    ensures fault { IfErr result (λ e. IfFault e (IsFaultOf pool.now message_type.0 limits bytes.now)) }
    ensures accepted { (v : Message) → Text pool.now message_type.0 limits bytes.now v → Gives result v }
    ensures refused { (f : Fault) → IsFaultOf pool.now message_type.0 limits bytes.now f → Tells result f }
    ensures one { Exactly ((v : Message) × Text pool.now message_type.0 limits bytes.now v) (IsFaultOf pool.now message_type.0 limits bytes.now) }
{
    let _types = pool.messages();
    read_whole(alloc, pool, message_type, bytes, limits)
}
