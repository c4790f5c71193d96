//! Frames of which a buffered input holds all bytes: they are taken without a read of the input.

ghost use Rattle.std.specs.Prelude.{◌≡◌, ◌≢◌, ◌<◌, ◌≤◌, ℕ, List, Option, Some, Err, length, drop};
ghost use Rattle.std.specs.Prelude.{IfOk, IfErr, IfSome, IfNone, IsSome, MatchResult};
ghost use Rattle.std.specs.Io.KnownBytes.{prepend_known};
ghost use Rattle.pb_decode.specs.declared.error.DecodeError.TheVariants.{Memory};
ghost use Rattle.pb_stream.specs.Answers.{AcceptsFrame};
ghost use Rattle.pb_stream.specs.Frame.{Frame};
ghost use Rattle.pb_stream.specs.Held.{HoldsFrame, IsHeld};
ghost use Rattle.pb_stream.specs.Next.{IsNext, IsOfType};

use crate::length::Header;
use crate::next::{NextFrame, read_message};
use crate::reading::{Framed, read_frame};
use pb_decode::DecodeError;
use pb_input::BufferedInput;
use pb_schema::{MessageId, Pool};
use pb_wire::{FailurePlan, Limits, MemInput, ReadFault, read_varint};
use std::alloc::Global;

/// The bytes that the decoder is given at a time.
const PIECE: usize = 65536;

/// The length of the frame that some bytes begin with, if all its bytes are there and it is within the limit.
fn held_length(bytes: &[u8], limits: Limits) -> Option<Header>
    ensures held { IfSome result (λ h. IsHeld h.start h.size bytes.now) }
    ensures small { IfSome result (λ h. (h.start ≤ 10) × (h.size ≤ limits.bytes)) }
    ensures none { IfNone result (HoldsFrame limits bytes.now → ⊥) }
{
    let Ok((size, start)) = read_varint(bytes) else {
        return None;
    };
    let rest = (bytes.len() - start) as u64;
    if size > rest.min(u64::from(limits.max_bytes())) {
        return None;
    }
    Some(Header {
        start,
        size: size as u32,
    })
}

/// Reads the frame that some bytes begin with, or nothing where they are not all bytes of a frame of a message.
pub(crate) fn read_held<'p>(
    alloc: Global,
    pool: &'p Pool,
    message_type: MessageId,
    bytes: &[u8],
    limits: Limits,
) -> Result<Option<Framed<'p>>, DecodeError>
    requires { message_type.0 < length pool.now.messages }
    ensures of_type { IfOk result
        (λ o. IfSome o (λ r. (r.message.pool ≡ pool.now) × (r.message.kind ≡ message_type.0))) }
    ensures fits { IfOk result (λ o. IfSome o (λ r. r.size ≤ length bytes.now)) }
    ensures frame { IfOk result
        (λ o. IfSome o (λ r. Frame pool.now message_type.0 limits bytes.now r.message.body
        (drop r.size bytes.now))) }
    ensures accepted { AcceptsFrame (λ r. r.message.body) pool.now message_type.0 limits
        (Some bytes.now) result }
    ensures memory { IfErr result (λ e. e ≡ Memory) }
{
    let Some(_) = held_length(bytes, limits) else {
        return Ok(None);
    };
    let mut given = MemInput::new(bytes, PIECE, FailurePlan::NEVER);
    match read_frame(alloc, pool, message_type, &mut given, limits) {
        Ok(Some(framed)) => Ok(Some(framed)),
        Ok(None) => Ok(None),
        Err(DecodeError::Fault { .. }) => Ok(None),
        Err(DecodeError::Memory | DecodeError::Device | DecodeError::Finished) => {
            Err(DecodeError::Memory)
        }
    }
}

/// Takes the next frame as [`next_frame`] does, where the input holds all its bytes and its length is within the limit. Where it does
/// not, nothing is taken. The input itself is not read.
///
/// [`next_frame`]: crate::next_frame
pub fn next_held_frame<'p, I: Drop>(
    alloc: Global,
    pool: &'p Pool,
    message_type: MessageId,
    input: &mut BufferedInput<I>,
    limits: Limits,
) -> Result<Option<NextFrame<'p>>, ReadFault>
    requires { message_type.0 < length pool.now.messages }
    ensures of_type { IfOk result (λ o. IfSome o (IsOfType pool.now message_type.0)) }

    // Whatever follows the bytes that are held.
    ensures next { (more : Option (List ℕ)) → IfOk result
        (λ o. IfSome o (IsNext pool.now message_type.0 limits
        (prepend_known input.old.held more)
        (prepend_known input.new.held more))) }
    ensures none { IfOk result (λ o. IfNone o (input.new ≡ input.old)) }
    ensures held { HoldsFrame limits input.old.held
        → MatchResult result (λ o. IsSome o) (λ e. e ≡ ReadFault.Memory) }
    ensures unread { input.new.input ≡ input.old.input }
    ensures memory { result ≢ Err ReadFault.Device }
{
    let Some(header) = held_length(input.held(), limits) else {
        return Ok(None);
    };
    let end = header.start + header.size as usize;
    let next = read_message(
        alloc,
        pool,
        message_type,
        &input.held()[header.start..end],
        header.start,
        header.size,
        limits,
    )?;
    input.advance(end);
    Ok(Some(next))
}
