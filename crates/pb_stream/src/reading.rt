//! Frames from a device.

ghost use Rattle.std.specs.Prelude.{◌≡◌, ◌≢◌, ◌<◌, [], true, Some, None, Err, length, IfOk};
ghost use Rattle.std.specs.Prelude.{IfSome, IfNone, MatchResult};
ghost use Rattle.pb_decode.specs.declared.error.DecodeError.TheVariants.{Memory, Device};
ghost use Rattle.pb_decode.specs.FromDevice.{TellsFailures};
ghost use Rattle.pb_stream.specs.Answers.{AnswersFrame, TellsFrameFault, AcceptsFrame, RefusesFrameFault};
ghost use Rattle.pb_stream.specs.Taking.{StaysInFrame, Takes, TakesNone};

use crate::length::read_length;
use pb_decode::{DecodeError, decode_frame};
use pb_schema::{MessageId, Pool};
use pb_value::DynamicMessage;
use pb_wire::{Input, Limits};
use std::alloc::Global;

/// A message, and how many bytes its frame has.
#[derive(Drop)]
pub(crate) struct Framed<'p> {
    pub(crate) message: DynamicMessage<'p>,
    pub(crate) size: u64,
}

/// Takes the frame that the input begins with, or nothing where nothing is left.
fn take_frame<'p, I: Input>(
    alloc: Global,
    pool: &'p Pool,
    message_type: MessageId,
    input: &mut I,
    limits: Limits,
) -> Result<Option<Framed<'p>>, DecodeError>
    requires { message_type.0 < length pool.now.messages }
    ensures of_type { IfOk result
        (λ o. IfSome o (λ r. (r.message.pool ≡ pool.now) × (r.message.kind ≡ message_type.0))) }
    ensures end { IfOk result (λ o. IfNone o (TakesNone (I.left input.old) (I.left input.new))) }
    ensures message { AnswersFrame (λ r. r.message.body) pool.now message_type.0 limits
        (I.left input.old) (I.left input.new) result }
    ensures counted { IfOk result
        (λ o. IfSome o (λ r. Takes r.size (I.left input.old) (I.left input.new))) }
    ensures fault { TellsFrameFault pool.now message_type.0 limits (I.left input.old) result }
    ensures within { StaysInFrame limits (I.left input.old) (I.left input.new) }
    ensures failures { TellsFailures result (I.failures input.old) (I.failures input.new) }
    ensures none_left { I.left input.old ≡ Some [] → result ≢ Err Memory }
    ensures steady { I.is_steady input.old ≡ true → result ≢ Err Device }
    ensures stays { I.is_steady input.old ≡ true → I.is_steady input.new ≡ true }
{
    let Some(header) = read_length(alloc, input, limits)? else {
        return Ok(None);
    };
    let start = header.start as u64;
    let message = decode_frame(alloc, pool, message_type, input, start, header.size, limits)?;
    Ok(Some(Framed {
        message,
        size: start + u64::from(header.size),
    }))
}

/// Reads the frame that the input begins with, as [`read_delimited`] does.
pub(crate) fn read_frame<'p, I: Input>(
    alloc: Global,
    pool: &'p Pool,
    message_type: MessageId,
    input: &mut I,
    limits: Limits,
) -> Result<Option<Framed<'p>>, DecodeError>
    requires { message_type.0 < length pool.now.messages }
    ensures of_type { IfOk result
        (λ o. IfSome o (λ r. (r.message.pool ≡ pool.now) × (r.message.kind ≡ message_type.0))) }
    ensures end { IfOk result (λ o. IfNone o (TakesNone (I.left input.old) (I.left input.new))) }
    ensures message { AnswersFrame (λ r. r.message.body) pool.now message_type.0 limits
        (I.left input.old) (I.left input.new) result }
    ensures counted { IfOk result
        (λ o. IfSome o (λ r. Takes r.size (I.left input.old) (I.left input.new))) }
    ensures fault { TellsFrameFault pool.now message_type.0 limits (I.left input.old) result }

    ensures ended { I.left input.old ≡ Some []
        → MatchResult result (λ o. o ≡ None) (λ e. e ≡ Device) }
    ensures accepted { AcceptsFrame (λ r. r.message.body) pool.now message_type.0 limits
        (I.left input.old) result }
    ensures refused { RefusesFrameFault pool.now message_type.0 limits (I.left input.old) result }

    ensures within { StaysInFrame limits (I.left input.old) (I.left input.new) }
    ensures failures { TellsFailures result (I.failures input.old) (I.failures input.new) }
    ensures steady { I.is_steady input.old ≡ true → result ≢ Err Device }
    ensures stays { I.is_steady input.old ≡ true → I.is_steady input.new ≡ true }
{
    take_frame(alloc, pool, message_type, input, limits)
}

/// Reads a length and a message of a type, or nothing at the end of the input.
///
/// Just the frame is read: the length byte by byte, and then the bytes that it counts. Where the input begins with no frame,
/// [`DecodeError::Fault`] gives the place, counted from the first byte of the length, and no byte past the frame is read. A length
/// above `max_bytes` of the limits is too large. `message_type` is a type of the pool.
pub fn read_delimited<'p, I: Input>(
    alloc: Global,
    pool: &'p Pool,
    message_type: MessageId,
    input: &mut I,
    limits: Limits,
) -> Result<Option<DynamicMessage<'p>>, DecodeError>
    requires { message_type.0 < length pool.now.messages }
    ensures of_type { IfOk result
        (λ o. IfSome o (λ m. (m.pool ≡ pool.now) × (m.kind ≡ message_type.0))) }
    ensures end { IfOk result (λ o. IfNone o (TakesNone (I.left input.old) (I.left input.new))) }
    ensures message { AnswersFrame (λ m. m.body) pool.now message_type.0 limits (I.left input.old)
        (I.left input.new) result }
    ensures fault { TellsFrameFault pool.now message_type.0 limits (I.left input.old) result }

    // Whatever is right is answered, but where memory or the input fails.
    ensures ended { I.left input.old ≡ Some []
        → MatchResult result (λ o. o ≡ None) (λ e. e ≡ Device) }
    ensures accepted { AcceptsFrame (λ m. m.body) pool.now message_type.0 limits
        (I.left input.old) result }
    ensures refused { RefusesFrameFault pool.now message_type.0 limits (I.left input.old) result }

    ensures within { StaysInFrame limits (I.left input.old) (I.left input.new) }
    ensures failures { TellsFailures result (I.failures input.old) (I.failures input.new) }
    ensures steady { I.is_steady input.old ≡ true → result ≢ Err Device }
    ensures stays { I.is_steady input.old ≡ true → I.is_steady input.new ≡ true }
{
    match read_frame(alloc, pool, message_type, input, limits)? {
        None => Ok(None),
        Some(framed) => Ok(Some(framed.message)),
    }
}
