//! The scalar at a path of field numbers, without a message.

ghost use Rattle.std.specs.Prelude.{◌≡◌, ◌<◌, None, length, IfOk, IfErr, IfSome, IsOkAnd};
ghost use Rattle.pb_wire.specs.Fault.{Fault};
ghost use Rattle.pb_value.specs.Data.{Message};
ghost use Rattle.pb_value.specs.Derives.{Text};
ghost use Rattle.pb_decode.specs.Reader.{IfFault};
ghost use Rattle.pb_decode.specs.Push.{IsFaultOf, Tells};
ghost use Rattle.pb_find.specs.ScalarAt.{scalar_at, message_of, IsFound};
ghost use Rattle.pb_find.specs.View.{found_view};

use crate::level::{Level, target_of};
use crate::scalar_ref::ScalarRef;
use pb_decode::DecodeError;
use pb_schema::{MessageId, Pool};
use pb_validate::find_fault;
use pb_wire::{Limits, RawError};
use std::alloc::Global;

/// Finds the scalar that a message has at a path of field numbers: what `decode`, then `message` for each number but the last, and then
/// `get` for the last would answer (encoding guide, "Last One Wins", "Oneofs").
///
/// The answer is `None` where the scalar is absent, and where the path names no field of one scalar. A string and bytes are slices of the
/// input. What is no message of the type has the fault that `decode` reports. Nothing is built: memory is taken for the path of a fault
/// alone. `message_type` is a type of the pool. A message is read once, in the time of `validate`.
pub fn find<'a>(
    alloc: Global,
    pool: &Pool,
    message_type: MessageId,
    bytes: &'a [u8],
    limits: Limits,
    path: &[u32],
) -> Result<Option<ScalarRef<'a>>, DecodeError>
    requires { message_type.0 < length pool.now.messages }
    ensures found { IfOk result (λ x. IsFound pool.now message_type.0 limits bytes.now path.now (found_view x)) }
    ensures fault { IfErr result (λ e. IfFault e (IsFaultOf pool.now message_type.0 limits bytes.now)) }
    ensures accepted { (v : Message) → Text pool.now message_type.0 limits bytes.now v
        → IsOkAnd result (λ x. found_view x ≡ scalar_at path.now (message_of pool.now message_type.0 v)) }
    ensures refused { (f : Fault) → IsFaultOf pool.now message_type.0 limits bytes.now f → Tells result f }
{
    if let Some(found) = found_in_message(alloc, pool, message_type, bytes, limits, path) {
        return Ok(found);
    }
    match find_fault(alloc, pool, message_type, bytes, limits) {
        Err(RawError::Fault { byte, path, cause }) => Err(DecodeError::Fault { byte, path, cause }),
        Err(RawError::Memory) => Err(DecodeError::Memory),
        Ok(()) => unreachable!(),
    }
}

/// What is found at a path in a message. None where the bytes are no message of the type.
fn found_in_message<'a>(
    alloc: Global,
    pool: &Pool,
    message_type: MessageId,
    bytes: &'a [u8],
    limits: Limits,
    path: &[u32],
) -> Option<Option<ScalarRef<'a>>>
    requires { message_type.0 < length pool.now.messages }
    ensures found { IfSome result (λ x. IsFound pool.now message_type.0 limits bytes.now path.now (found_view x)) }
    ensures none { result ≡ None → (v : Message) → Text pool.now message_type.0 limits bytes.now v → ⊥ }
{
    let _types = pool.messages();
    let levels = limits.max_depth();
    if bytes.len() > limits.max_bytes() as usize {
        return None;
    }
    let top = Level {
        alloc,
        pool,
        bytes,
        message_type,
        target: target_of(pool, message_type, path),
        group: None,
        levels,
    };
    let (_, found) = top.walk(0, None)?;
    Some(found)
}
