//! Reading the bytes of an input in pieces.

ghost use Rattle.std.specs.Prelude.{◌≡◌, ◌≢◌, ◌⊎◌, true, false, ◌+◌, ◌<◌, ◌≤◌, ◌^◌, ℕ, List, [], length, None, Some, Err, IfOk, IfErr, OnOk, IfSome};
ghost use Rattle.std.specs.Io.KnownBytes.{Consumes, IsAtEnd};
ghost use Rattle.pb_wire.specs.Record.{Record};
ghost use Rattle.pb_wire.specs.Fault.{Fault};
ghost use Rattle.pb_schema.specs.Rules.{IsPool};
ghost use Rattle.pb_value.specs.Data.{Message};
ghost use Rattle.pb_value.specs.Derives.{Text};
ghost use Rattle.pb_decode.specs.declared.error.DecodeError.TheVariants.{Device};
ghost use Rattle.pb_decode.specs.Reader.Start.{Start, starting};
ghost use Rattle.pb_decode.specs.FromDevice.{IfRefused, TellsFailures, TakesAtMost, GivesOrFails, TellsOrFails};
ghost use Rattle.pb_decode.specs.Loops.{ReadsOn, ReportedOf};
ghost use Rattle.pb_decode.specs.Reader.Pieces.{received, ReadFrom};
ghost use Rattle.pb_decode.specs.Push.{IsFaultOf};

use crate::error::DecodeError;
use crate::push::Reading;
use crate::reader::fault::too_large;
use crate::reader::start::{begin_empty, finish_message, take_onward};
use pb_schema::{MessageId, Pool};
use pb_value::DynamicMessage;
use pb_wire::{Input, Limits};
use std::alloc::Global;

/// How many bytes are asked of an input at once.
const PIECE: usize = 65_536;

/// Takes a piece that the input gives into the buffer, and reports how many bytes it gave.
fn read_piece<I: Input>(
    alloc: Global,
    pool: &Pool,
    reading: &mut Reading,
    input: &mut I,
    buffer: &mut [u8],
) -> Result<usize, DecodeError>
    requires rules { IsPool pool.now }
    requires took { (o : Start) × ReadFrom pool.now o reading.old }
    requires small { received reading.old + length buffer.old < 2 ^ 31 }
    ensures count { IfOk result (λ n. n ≤ length buffer.old) }
    ensures read { IfOk result (λ n. ReadsOn pool.now reading.old reading.new (I.left input.old) (I.left input.new) n) }
    ensures ends { IfOk result (λ n. n ≡ 0 → 0 < length buffer.old → IsAtEnd (I.left input.new)) }
    ensures fault { (o : Start) → ReadFrom pool.now o reading.old
        → IfErr result (λ e. IfRefused e (ReportedOf pool.now o (I.left input.old) (I.left input.new) (length buffer.old))) }
    ensures most { TakesAtMost (length buffer.old) (I.left input.old) (I.left input.new) }
    ensures failures { TellsFailures result (I.failures input.old) (I.failures input.new) }
    ensures steady { I.is_steady input.old ≡ true → result ≢ Err Device }
    ensures stays { I.is_steady input.old ≡ true → I.is_steady input.new ≡ true }
{
    let Ok(count) = input.read(buffer) else {
        return Err(DecodeError::Device);
    };
    take_onward(alloc, pool, reading, &buffer[..count])?;
    Ok(count)
}

/// Takes what the input gives up to its end, at most `most` bytes, piece by piece into a buffer, and how many it gave.
pub(crate) fn read_pieces<I: Input>(
    alloc: Global,
    pool: &Pool,
    reading: &mut Reading,
    input: &mut I,
    most: usize,
) -> Result<usize, DecodeError>
    requires rules { IsPool pool.now }
    requires took { (o : Start) × ReadFrom pool.now o reading.old }
    requires small { received reading.old + most < 2 ^ 31 }
    ensures count { IfOk result (λ n. n ≤ most) }
    ensures read { IfOk result (λ n. ReadsOn pool.now reading.old reading.new (I.left input.old) (I.left input.new) n) }
    ensures ends { IfOk result (λ n. (n ≡ most) ⊎ IsAtEnd (I.left input.new)) }
    ensures fault { (o : Start) → ReadFrom pool.now o reading.old
        → IfErr result (λ e. IfRefused e (ReportedOf pool.now o (I.left input.old) (I.left input.new) most)) }
    ensures taken { TakesAtMost most (I.left input.old) (I.left input.new) }
    ensures failures { TellsFailures result (I.failures input.old) (I.failures input.new) }
    ensures steady { I.is_steady input.old ≡ true → result ≢ Err Device }
    ensures stays { I.is_steady input.old ≡ true → I.is_steady input.new ≡ true }
{
    let mut buffer = [0u8; PIECE];
    let mut taken = 0;
    'reading: while taken < most {
        let wanted = buffer.len().min(most - taken);
        let count = read_piece(alloc, pool, reading, input, &mut buffer[..wanted])?;
        if count == 0 {
            return Ok(taken);
        }
        taken += count;
    }
    Ok(taken)
}

/// Asks the input for one more byte, and says whether there was one.
fn has_byte<I: Input>(input: &mut I) -> Result<bool, DecodeError>
    ensures some { IfOk result (λ more. more ≡ true → (bytes : List ℕ) × (length bytes ≡ 1) × Consumes (I.left input.old) (I.left input.new) bytes) }
    ensures none { IfOk result (λ more. more ≡ false → Consumes (I.left input.old) (I.left input.new) [] × IsAtEnd (I.left input.new)) }
    ensures error { IfErr result (λ e. e ≡ Device) }
    ensures most { TakesAtMost 1 (I.left input.old) (I.left input.new) }
    ensures failures { TellsFailures result (I.failures input.old) (I.failures input.new) }
    ensures steady { I.is_steady input.old ≡ true → result ≢ Err Device }
    ensures stays { I.is_steady input.old ≡ true → I.is_steady input.new ≡ true }
{
    let mut byte = [0u8; 1];
    let Ok(count) = input.read(&mut byte) else {
        return Err(DecodeError::Device);
    };
    if count == 0 {
        return Ok(false);
    }
    Ok(true)
}

/// Takes what the input gives up to its end. The first byte past the limit is refused.
fn read_within<I: Input>(
    alloc: Global,
    pool: &Pool,
    message_type: MessageId,
    limits: Limits,
    reading: &mut Reading,
    input: &mut I,
) -> Result<(), DecodeError>
    requires rules { IsPool pool.now }
    requires took { (base : List Record) × ReadFrom pool.now (starting message_type.0 limits.depth base None) reading.old }
    ensures read { OnOk result ((n : ℕ) × (n ≤ limits.bytes) × ReadsOn pool.now reading.old reading.new (I.left input.old) (I.left input.new) n) }
    ensures ends { OnOk result (IsAtEnd (I.left input.new)) }
    ensures small { limits.bytes < 2 ^ 31 }
    ensures fault { IfErr result (λ e. IfRefused e (λ f. IfSome (I.left input.old) (λ left. IsFaultOf pool.now message_type.0 limits left f))) }
    ensures most { TakesAtMost (limits.bytes + 1) (I.left input.old) (I.left input.new) }
    ensures failures { TellsFailures result (I.failures input.old) (I.failures input.new) }
    ensures steady { I.is_steady input.old ≡ true → result ≢ Err Device }
    ensures stays { I.is_steady input.old ≡ true → I.is_steady input.new ≡ true }
{
    let most = limits.max_bytes();
    let count = read_pieces(alloc, pool, reading, input, most as usize)?;
    if count < most as usize {
        return Ok(());
    }
    let more = has_byte(input)?;
    if more {
        return Err(too_large(alloc, most));
    }
    Ok(())
}

/// The message of what the input gives up to its end.
fn read_message<'p, I: Input>(
    alloc: Global,
    pool: &'p Pool,
    message_type: MessageId,
    input: &mut I,
    limits: Limits,
) -> Result<DynamicMessage<'p>, DecodeError>
    requires { message_type.0 < length pool.now.messages }
    ensures of_type { IfOk result (λ m. (m.pool ≡ pool.now) × (m.kind ≡ message_type.0)) }
    ensures value { IfSome (I.left input.old) (λ left. IfOk result (λ m. Text pool.now message_type.0 limits left m.body)) }
    ensures rest { OnOk result (IfSome (I.left input.old) (λ left. I.left input.new ≡ Some [])) }
    ensures fault { IfErr result (λ e. IfRefused e (λ f. IfSome (I.left input.old) (λ left. IsFaultOf pool.now message_type.0 limits left f))) }
    ensures most { TakesAtMost (limits.bytes + 1) (I.left input.old) (I.left input.new) }
    ensures failures { TellsFailures result (I.failures input.old) (I.failures input.new) }
    ensures steady { I.is_steady input.old ≡ true → result ≢ Err Device }
    ensures stays { I.is_steady input.old ≡ true → I.is_steady input.new ≡ true }
{
    let _types = pool.messages();
    let mut reading = begin_empty(alloc, pool, message_type, limits, None);
    read_within(alloc, pool, message_type, limits, &mut reading, input)?;
    finish_message(alloc, pool, message_type, reading)
}

/// Decodes a message of a type from what an input gives up to its end (encoding guide, "Message Structure").
///
/// The answer is that of the bytes as a whole, however the input cuts them: the message's value, or [`DecodeError::Fault`]
/// with the first byte that no encoding of the type can have there. [`DecodeError::Device`] says that the input failed. What is
/// held meanwhile is the message so far and the bytes of one open token or payload. `message_type` is a type of the pool.
pub fn decode_from<'p, I: Input>(
    alloc: Global,
    pool: &'p Pool,
    message_type: MessageId,
    input: &mut I,
    limits: Limits,
) -> Result<DynamicMessage<'p>, DecodeError>
    requires { message_type.0 < length pool.now.messages }
    ensures of_type { IfOk result (λ m. (m.pool ≡ pool.now) × (m.kind ≡ message_type.0)) }
    ensures value { IfSome (I.left input.old) (λ left. IfOk result (λ m. Text pool.now message_type.0 limits left m.body)) }
    ensures fault { IfErr result (λ e. IfRefused e (λ f. IfSome (I.left input.old) (λ left. IsFaultOf pool.now message_type.0 limits left f))) }
    ensures accepted { IfSome (I.left input.old) (λ left. (v : Message) → Text pool.now message_type.0 limits left v → GivesOrFails result v) }
    ensures refused { IfSome (I.left input.old) (λ left. (f : Fault) → IsFaultOf pool.now message_type.0 limits left f → TellsOrFails result f) }
    // what it leaves of the input
    ensures rest { OnOk result (IfSome (I.left input.old) (λ left. I.left input.new ≡ Some [])) }
    ensures most { TakesAtMost (limits.bytes + 1) (I.left input.old) (I.left input.new) }
    // how it fails
    ensures failures { TellsFailures result (I.failures input.old) (I.failures input.new) }
    ensures steady { I.is_steady input.old ≡ true → result ≢ Err Device }
    ensures stays { I.is_steady input.old ≡ true → I.is_steady input.new ≡ true }
{
    read_message(alloc, pool, message_type, input, limits)
}
