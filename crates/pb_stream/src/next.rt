//! The next frame of a stream.

ghost use Rattle.std.specs.Prelude.{◌≡◌, ◌≢◌, ◌<◌, ◌≤◌, ℕ, List, [], Option, true, Err, length, IfOk, OnOk, IsErrOf};
ghost use Rattle.pb_wire.specs.Limits.{Bounds};
ghost use Rattle.pb_schema.specs.Types.{Types};
ghost use Rattle.pb_stream.specs.Taking.{TakesLength};
ghost use Rattle.pb_stream.specs.Next.{IsJudged, IsNext, IsOfType};

use crate::length::{MAX_LEN, take_varint};
use crate::passing::pass_over;
use pb_decode::{DecodeError, decode_frame};
use pb_schema::{MessageId, Pool};
use pb_value::DynamicMessage;
use pb_wire::{
    Cause, FailurePlan, Input, Limits, MemInput, PathStep, ReadFault, read_up_to, read_varint,
};
use std::alloc::Global;

/// The bytes that the decoder is given at a time.
const PIECE: usize = 65536;

/// Why a frame is refused: where, counted from its first byte, the steps to the open records outermost first, and the cause.
#[derive(Debug, Drop)]
pub struct Reason {
    pub byte: u64,
    pub path: Vec<PathStep>,
    pub cause: Cause,
}

/// What a stream has next. Sizes are of whole frames, their lengths included, and the greatest u64 also means more.
#[derive(Drop)]
pub enum NextFrame<'p> {
    /// Nothing.
    End,
    /// A frame of a message.
    Message {
        message: DynamicMessage<'p>,
        size: u64,
    },
    /// A frame that is refused, all of whose bytes were taken.
    Refused {
        reason: Reason,
        size: u64,
    },
    /// A frame that is refused and whose end is not known, or not there.
    Cut {
        reason: Reason,
    },
}

/// Takes the next frame of an input ("Streaming Multiple Messages"): the bytes of its length one by one, and then as many as it
/// counts, and no others. `message_type` is a type of the pool. Fails where the input does, or where memory runs out.
pub fn next_frame<'p, I: Input>(
    alloc: Global,
    pool: &'p Pool,
    message_type: MessageId,
    input: &mut I,
    limits: Limits,
) -> Result<NextFrame<'p>, ReadFault>
    requires { message_type.0 < length pool.now.messages }
    ensures of_type { IfOk result (IsOfType pool.now message_type.0) }
    ensures next { IfOk result
        (IsNext pool.now message_type.0 limits (I.left input.old) (I.left input.new)) }
    ensures kept { OnOk result (I.failures input.new ≡ I.failures input.old) }
    ensures failed { IsErrOf result ReadFault.Device → I.failures input.new ≢ I.failures input.old }
    ensures memory { IsErrOf result ReadFault.Memory → I.failures input.new ≡ I.failures input.old }
    ensures steady { I.is_steady input.old ≡ true → result ≢ Err ReadFault.Device }
    ensures stays { I.is_steady input.old ≡ true → I.is_steady input.new ≡ true }
{
    let mut bytes = [0u8; MAX_LEN];
    let Ok(taken) = take_varint(input, &mut bytes) else {
        return Err(ReadFault::Device);
    };
    if taken == 0 {
        return Ok(NextFrame::End);
    }
    match read_varint(&bytes[..taken]) {
        Err(fault) => {
            let reason = reason_at(alloc, fault.byte, fault.cause);
            Ok(NextFrame::Cut { reason })
        }
        Ok((count, start)) if count > u64::from(limits.max_bytes()) => {
            pass_too_large(alloc, input, start, count)
        }
        Ok((count, start)) => take_message(
            alloc,
            pool,
            message_type,
            input,
            start,
            count as u32,
            limits,
        ),
    }
}

/// What is wrong with a frame at a byte, in no record.
fn reason_at(alloc: Global, byte: u64, cause: Cause) -> Reason
    ensures { (result.byte ≡ byte) × (result.path.items ≡ []) × (result.cause ≡ cause) }
{
    Reason {
        byte,
        path: Vec::new(alloc),
        cause,
    }
}

/// Passes over the bytes of a frame whose length is above the limit: `start` bytes that encode `count` were taken.
fn pass_too_large<'p, I: Input>(
    alloc: Global,
    input: &mut I,
    start: usize,
    count: u64,
) -> Result<NextFrame<'p>, ReadFault>
    ensures of_type { (pool : Types) (m : ℕ) → IfOk result (IsOfType pool m) }
    ensures next { (pool : Types) (m : ℕ) (limits : Bounds) (x : Option (List ℕ))
        → limits.bytes < count → TakesLength start count x (I.left input.old)
        → IfOk result (IsNext pool m limits x (I.left input.new)) }
    ensures kept { OnOk result (I.failures input.new ≡ I.failures input.old) }
    ensures failed { IsErrOf result ReadFault.Device → I.failures input.new ≢ I.failures input.old }
    ensures memory { IsErrOf result ReadFault.Memory → I.failures input.new ≡ I.failures input.old }
    ensures steady { I.is_steady input.old ≡ true → result ≢ Err ReadFault.Device }
    ensures stays { I.is_steady input.old ≡ true → I.is_steady input.new ≡ true }
{
    let reason = reason_at(alloc, 0, Cause::LengthTooLarge);
    let Ok(passed) = pass_over(input, count) else {
        return Err(ReadFault::Device);
    };
    if passed < count {
        return Ok(NextFrame::Cut { reason });
    }
    let size = count.saturating_add(start as u64);
    Ok(NextFrame::Refused { reason, size })
}

/// Takes the bytes of a message after its length: `start` bytes that encode `size` were taken.
fn take_message<'p, I: Input>(
    alloc: Global,
    pool: &'p Pool,
    message_type: MessageId,
    input: &mut I,
    start: usize,
    size: u32,
    limits: Limits,
) -> Result<NextFrame<'p>, ReadFault>
    requires within { message_type.0 < length pool.now.messages }
    requires start { start ≤ 10 }
    requires size { size ≤ limits.bytes }
    ensures of_type { IfOk result (IsOfType pool.now message_type.0) }
    ensures next { (x : Option (List ℕ)) → TakesLength start size x (I.left input.old)
        → IfOk result (IsNext pool.now message_type.0 limits x (I.left input.new)) }
    ensures kept { OnOk result (I.failures input.new ≡ I.failures input.old) }
    ensures failed { IsErrOf result ReadFault.Device → I.failures input.new ≢ I.failures input.old }
    ensures memory { IsErrOf result ReadFault.Memory → I.failures input.new ≡ I.failures input.old }
    ensures steady { I.is_steady input.old ≡ true → result ≢ Err ReadFault.Device }
    ensures stays { I.is_steady input.old ≡ true → I.is_steady input.new ≡ true }
{
    let bytes = read_up_to(alloc, input, size as usize)?;
    read_message(
        alloc,
        pool,
        message_type,
        bytes.as_slice(),
        start,
        size,
        limits,
    )
}

/// The message of a frame, or why these bytes, which come after a length of `start` bytes that encodes `size`, are none.
pub(crate) fn read_message<'p>(
    alloc: Global,
    pool: &'p Pool,
    message_type: MessageId,
    bytes: &[u8],
    start: usize,
    size: u32,
    limits: Limits,
) -> Result<NextFrame<'p>, ReadFault>
    requires within { message_type.0 < length pool.now.messages }
    requires start { start ≤ 10 }
    requires size { size ≤ limits.bytes }
    ensures of_type { IfOk result (IsOfType pool.now message_type.0) }
    ensures judged { IfOk result (IsJudged pool.now message_type.0 limits start size bytes.now) }
    ensures memory { result ≢ Err ReadFault.Device }
{
    let mut given = MemInput::new(bytes, PIECE, FailurePlan::NEVER);
    let front = start as u64;
    match decode_frame(alloc, pool, message_type, &mut given, front, size, limits) {
        Ok(message) => Ok(NextFrame::Message {
            message,
            size: front + u64::from(size),
        }),
        Err(DecodeError::Fault { byte, path, cause }) => {
            let reason = Reason { byte, path, cause };
            if bytes.len() < size as usize {
                return Ok(NextFrame::Cut { reason });
            }
            Ok(NextFrame::Refused {
                reason,
                size: front + u64::from(size),
            })
        }
        Err(DecodeError::Memory | DecodeError::Device | DecodeError::Finished) => {
            Err(ReadFault::Memory)
        }
    }
}
