//! Messages in frames: this many bytes of an input.

ghost use Rattle.std.specs.Prelude.{◌≡◌, ◌≢◌, ◌⊎◌, true, ◌+◌, ◌<◌, ◌≤◌, ◌^◌, ℕ, List, length, take, drop, Option, Some, Err, IfOk, IfErr, OnOk, IfSome};
ghost use Rattle.std.specs.Io.KnownBytes.{Consumes, IsAtEnd};
ghost use Rattle.pb_wire.specs.Fault.{Fault};
ghost use Rattle.pb_schema.specs.Rules.{IsPool};
ghost use Rattle.pb_value.specs.Data.{Message};
ghost use Rattle.pb_value.specs.Derives.{Text};
ghost use Rattle.pb_decode.specs.declared.error.DecodeError.TheVariants.{Device};
ghost use Rattle.pb_decode.specs.FromDevice.{IfRefused, TellsFailures, TakesAtMost, GivesOrFails, TellsOrFails};
ghost use Rattle.pb_decode.specs.Loops.{ReadsOn, ReportedOf};
ghost use Rattle.pb_decode.specs.Reader.Start.{Start};
ghost use Rattle.pb_decode.specs.Reader.Pieces.{received, ReadFrom};
ghost use Rattle.pb_decode.specs.Frame.{IsFrameOf, BadFrame, error_later};

use crate::error::DecodeError;
use crate::from_device::read_pieces;
use crate::push::Reading;
use crate::reader::start::{begin_empty, finish_message, take_onward};
use pb_decode_whole::build;
use pb_schema::{MessageId, Pool};
use pb_value::DynamicMessage;
use pb_wire::{Input, Limits};
use std::alloc::Global;

/// How many bytes are asked of an input first: most frames have no more, and their buffer is on the stack.
const FIRST: usize = 4096;

/// Takes what the input gives first of this many bytes into the buffer, and how many they are. Of none it asks for none.
fn read_first<I: Input>(
    input: &mut I,
    buffer: &mut [u8; FIRST],
    size: usize,
) -> Result<usize, DecodeError>
    ensures fits { IfOk result (λ n. n ≤ 4096) }
    ensures count { IfOk result (λ n. n ≤ size) }
    ensures given { IfOk result (λ n. Consumes (I.left input.old) (I.left input.new) (take n buffer.new)) }
    ensures ends { IfOk result (λ n. n ≡ 0 → 0 < size → IsAtEnd (I.left input.new)) }
    ensures error { IfErr result (λ e. e ≡ Device) }
    ensures most { TakesAtMost size (I.left input.old) (I.left input.new) }
    ensures failures { TellsFailures result (I.failures input.old) (I.failures input.new) }
    ensures steady { I.is_steady input.old ≡ true → result ≢ Err Device }
    ensures stays { I.is_steady input.old ≡ true → I.is_steady input.new ≡ true }
{
    if size == 0 {
        return Ok(0);
    }
    let wanted = buffer.len().min(size);
    let Ok(count) = input.read(&mut buffer[..wanted]) else {
        return Err(DecodeError::Device);
    };
    Ok(count)
}

/// The message of a frame of which these are the first bytes, if they are all of it and encode one.
fn read_at_once<'p>(
    alloc: Global,
    pool: &'p Pool,
    message_type: MessageId,
    bytes: &[u8],
    size: u32,
    limits: Limits,
) -> Option<DynamicMessage<'p>>
    requires rules { IsPool pool.now }
    requires within { message_type.0 < length pool.now.messages }
    ensures of_type { IfSome result (λ m. (m.pool ≡ pool.now) × (m.kind ≡ message_type.0)) }
    ensures all { IfSome result (λ m. length bytes.now ≡ size) }
    ensures text { IfSome result (λ m. Text pool.now message_type.0 limits bytes.now m.body) }
{
    if bytes.len() != size as usize {
        return None;
    }
    let Ok(message) = build(alloc, pool, message_type, bytes, limits) else {
        return None;
    };
    Some(message)
}

/// Takes the first bytes of a frame, which are read already, and what the input gives of the others; and how many that is.
fn take_frame<I: Input>(
    alloc: Global,
    pool: &Pool,
    reading: &mut Reading,
    input: &mut I,
    first: &[u8],
    size: usize,
) -> Result<usize, DecodeError>
    requires rules { IsPool pool.now }
    requires took { (o : Start) × ReadFrom pool.now o reading.old }
    requires small { received reading.old + size < 2 ^ 31 }
    requires count { length first.now ≤ size }
    requires ends { length first.now ≡ 0 → 0 < size → IsAtEnd (I.left input.old) }
    ensures count { IfOk result (λ n. n ≤ size) }
    ensures read { (x : Option (List ℕ)) → Consumes x (I.left input.old) first.now
        → IfOk result (λ n. ReadsOn pool.now reading.old reading.new x (I.left input.new) n) }
    ensures ends { IfOk result (λ n. (n ≡ size) ⊎ IsAtEnd (I.left input.new)) }
    ensures fault { (x : Option (List ℕ)) (o : Start) → Consumes x (I.left input.old) first.now → ReadFrom pool.now o reading.old
        → IfErr result (λ e. IfRefused e (ReportedOf pool.now o x (I.left input.new) size)) }
    ensures taken { (x : Option (List ℕ)) → Consumes x (I.left input.old) first.now → TakesAtMost size x (I.left input.new) }
    ensures failures { TellsFailures result (I.failures input.old) (I.failures input.new) }
    ensures steady { I.is_steady input.old ≡ true → result ≢ Err Device }
    ensures stays { I.is_steady input.old ≡ true → I.is_steady input.new ≡ true }
{
    take_onward(alloc, pool, reading, first)?;
    let count = first.len();
    if count == 0 {
        return Ok(0);
    }
    let more = read_pieces(alloc, pool, reading, input, size - count)?;
    Ok(count + more)
}

/// The message of a frame whose first bytes were read before, read in pieces.
fn read_in_pieces<'p, I: Input>(
    alloc: Global,
    pool: &'p Pool,
    message_type: MessageId,
    input: &mut I,
    first: &[u8],
    size: u32,
    limits: Limits,
) -> Result<DynamicMessage<'p>, DecodeError>
    requires rules { IsPool pool.now }
    requires within { message_type.0 < length pool.now.messages }
    requires size { size ≤ limits.bytes }
    requires count { length first.now ≤ size }
    requires ends { length first.now ≡ 0 → 0 < size → IsAtEnd (I.left input.old) }
    ensures of_type { IfOk result (λ m. (m.pool ≡ pool.now) × (m.kind ≡ message_type.0)) }
    ensures value { (x : Option (List ℕ)) → Consumes x (I.left input.old) first.now
        → IfSome x (λ left. IfOk result (λ m. IsFrameOf pool.now message_type.0 limits size left m.body)) }
    ensures rest { (x : Option (List ℕ)) → Consumes x (I.left input.old) first.now
        → OnOk result (IfSome x (λ left. I.left input.new ≡ Some (drop size left))) }
    ensures fault { (x : Option (List ℕ)) → Consumes x (I.left input.old) first.now
        → IfErr result (λ e. IfRefused e (λ f. IfSome x (λ left. BadFrame pool.now message_type.0 limits.depth 0 size left f))) }
    ensures low { IfErr result (λ e. IfRefused e (λ f. f.byte < 2 ^ 31)) }
    ensures most { (x : Option (List ℕ)) → Consumes x (I.left input.old) first.now → TakesAtMost size x (I.left input.new) }
    ensures failures { TellsFailures result (I.failures input.old) (I.failures input.new) }
    ensures steady { I.is_steady input.old ≡ true → result ≢ Err Device }
    ensures stays { I.is_steady input.old ≡ true → I.is_steady input.new ≡ true }
{
    let mut reading = begin_empty(alloc, pool, message_type, limits, Some(size));
    let _small = limits.max_bytes();
    take_frame(alloc, pool, &mut reading, input, first, size as usize)?;
    finish_message(alloc, pool, message_type, reading)
}

/// The message of a frame, at once where all of it comes with the first read, else in pieces. Places count from its first byte.
fn read_frame<'p, I: Input>(
    alloc: Global,
    pool: &'p Pool,
    message_type: MessageId,
    input: &mut I,
    size: u32,
    limits: Limits,
) -> Result<DynamicMessage<'p>, DecodeError>
    requires within { message_type.0 < length pool.now.messages }
    requires size { size ≤ limits.bytes }
    ensures of_type { IfOk result (λ m. (m.pool ≡ pool.now) × (m.kind ≡ message_type.0)) }
    ensures value { IfSome (I.left input.old) (λ left. IfOk result (λ m. IsFrameOf pool.now message_type.0 limits size left m.body)) }
    ensures rest { OnOk result (IfSome (I.left input.old) (λ left. I.left input.new ≡ Some (drop size left))) }
    ensures fault { IfErr result (λ e. IfRefused e (λ f. IfSome (I.left input.old) (λ left. BadFrame pool.now message_type.0 limits.depth 0 size left f))) }
    ensures low { IfErr result (λ e. IfRefused e (λ f. f.byte < 2 ^ 31)) }
    ensures most { TakesAtMost size (I.left input.old) (I.left input.new) }
    ensures failures { TellsFailures result (I.failures input.old) (I.failures input.new) }
    ensures steady { I.is_steady input.old ≡ true → result ≢ Err Device }
    ensures stays { I.is_steady input.old ≡ true → I.is_steady input.new ≡ true }
{
    let _types = pool.messages();
    let _small = limits.max_bytes();
    let mut buffer = [0u8; FIRST];
    let count = read_first(input, &mut buffer, size as usize)?;
    let first = &buffer[..count];
    match read_at_once(alloc, pool, message_type, first, size, limits) {
        Some(message) => Ok(message),
        None => read_in_pieces(alloc, pool, message_type, input, first, size, limits),
    }
}

/// The error with its byte counted from so far before.
fn counted_from(error: DecodeError, start: u64) -> DecodeError
    requires start { start ≤ 10 }
    requires low { IfRefused error (λ f. f.byte < 2 ^ 31) }
    ensures { result ≡ error_later start error }
{
    match error {
        DecodeError::Fault { byte, path, cause } => {
            let byte = byte + start;
            DecodeError::Fault { byte, path, cause }
        }
        other => other,
    }
}

/// The message of a frame. The place of its first byte is `start`.
fn read_frame_at<'p, I: Input>(
    alloc: Global,
    pool: &'p Pool,
    message_type: MessageId,
    input: &mut I,
    start: u64,
    size: u32,
    limits: Limits,
) -> Result<DynamicMessage<'p>, DecodeError>
    requires within { message_type.0 < length pool.now.messages }
    requires start { start ≤ 10 }
    requires size { size ≤ limits.bytes }
    ensures of_type { IfOk result (λ m. (m.pool ≡ pool.now) × (m.kind ≡ message_type.0)) }
    ensures value { IfSome (I.left input.old) (λ left. IfOk result (λ m. IsFrameOf pool.now message_type.0 limits size left m.body)) }
    ensures rest { OnOk result (IfSome (I.left input.old) (λ left. I.left input.new ≡ Some (drop size left))) }
    ensures fault { IfErr result (λ e. IfRefused e (λ f. IfSome (I.left input.old) (λ left. BadFrame pool.now message_type.0 limits.depth start size left f))) }
    ensures most { TakesAtMost size (I.left input.old) (I.left input.new) }
    ensures failures { TellsFailures result (I.failures input.old) (I.failures input.new) }
    ensures steady { I.is_steady input.old ≡ true → result ≢ Err Device }
    ensures stays { I.is_steady input.old ≡ true → I.is_steady input.new ≡ true }
{
    match read_frame(alloc, pool, message_type, input, size, limits) {
        Ok(message) => Ok(message),
        Err(error) => Err(counted_from(error, start)),
    }
}

/// Decodes a message of a type from the next `size` bytes of an input, and takes no byte after them (encoding guide, "Message
/// Structure").
///
/// The place of the first byte is `start`, at most 10, since it comes after a length. The end of the frame is known: a token
/// that would pass it is refused as [`Cause::PastEnd`](pb_wire::Cause::PastEnd). `size` is at most what the limits allow, and
/// `message_type` is a type of the pool. [`DecodeError::Device`] says that the input failed.
pub fn decode_frame<'p, I: Input>(
    alloc: Global,
    pool: &'p Pool,
    message_type: MessageId,
    input: &mut I,
    start: u64,
    size: u32,
    limits: Limits,
) -> Result<DynamicMessage<'p>, DecodeError>
    requires within { message_type.0 < length pool.now.messages }
    requires start { start ≤ 10 }
    requires size { size ≤ limits.bytes }
    ensures of_type { IfOk result (λ m. (m.pool ≡ pool.now) × (m.kind ≡ message_type.0)) }
    ensures value { IfSome (I.left input.old) (λ left. IfOk result (λ m. IsFrameOf pool.now message_type.0 limits size left m.body)) }
    ensures fault { IfErr result (λ e. IfRefused e (λ f. IfSome (I.left input.old) (λ left. BadFrame pool.now message_type.0 limits.depth start size left f))) }
    ensures accepted { IfSome (I.left input.old) (λ left. (v : Message) → IsFrameOf pool.now message_type.0 limits size left v → GivesOrFails result v) }
    ensures refused { IfSome (I.left input.old) (λ left. (f : Fault)
        → BadFrame pool.now message_type.0 limits.depth start size left f → TellsOrFails result f) }
    // what it leaves of the input
    ensures rest { OnOk result (IfSome (I.left input.old) (λ left. I.left input.new ≡ Some (drop size left))) }
    ensures most { TakesAtMost size (I.left input.old) (I.left input.new) }
    // how it fails
    ensures failures { TellsFailures result (I.failures input.old) (I.failures input.new) }
    ensures steady { I.is_steady input.old ≡ true → result ≢ Err Device }
    ensures stays { I.is_steady input.old ≡ true → I.is_steady input.new ≡ true }
{
    read_frame_at(alloc, pool, message_type, input, start, size, limits)
}
