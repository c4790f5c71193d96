//! Whether bytes are a message, without building it.

ghost use Rattle.std.specs.Prelude.{◌≡◌, ◌<◌, Ok, length, IfOk, IfErr};
ghost use Rattle.pb_wire.specs.Fault.{Fault};
ghost use Rattle.pb_value.specs.Data.{Message};
ghost use Rattle.pb_value.specs.Derives.{Text};
ghost use Rattle.pb_decode.specs.Reader.{IfFault};
ghost use Rattle.pb_decode.specs.Push.{IsFaultOf, Tells};

use crate::error::DecodeError;
use pb_schema::{MessageId, Pool};
use pb_validate::{find_fault, judge};
use pb_wire::{Limits, RawError};
use std::alloc::Global;

/// Says whether [`decode`](crate::decode) makes a message of these bytes, or gives the fault that it reports, with its path (encoding guide,
/// "Message Structure").
///
/// Nothing is built: memory is taken for the path of a fault alone, so a message is accepted also where no memory is left.
/// `message_type` is a type of the pool. Bytes past the limits are refused.
pub fn validate(
    alloc: Global,
    pool: &Pool,
    message_type: MessageId,
    bytes: &[u8],
    limits: Limits,
) -> Result<(), DecodeError>
    requires { message_type.0 < length pool.now.messages }
    ensures ok { IfOk result (λ _. (v : Message) × Text pool.now message_type.0 limits bytes.now v) }
    ensures fault { IfErr result (λ e. IfFault e (IsFaultOf pool.now message_type.0 limits bytes.now)) }
    ensures accepted { (v : Message) → Text pool.now message_type.0 limits bytes.now v → result ≡ Ok tt }
    ensures refused { (f : Fault) → IsFaultOf pool.now message_type.0 limits bytes.now f → Tells result f }
{
    match judge(alloc, pool, message_type, bytes, limits) {
        Ok(()) => Ok(()),
        Err(RawError::Fault { byte, path, cause }) => Err(DecodeError::Fault { byte, path, cause }),
        Err(RawError::Memory) => Err(DecodeError::Memory),
    }
}

/// As `validate`, of bytes that `build` refused: what has a fault is read once less.
pub(crate) fn refuse(
    alloc: Global,
    pool: &Pool,
    message_type: MessageId,
    bytes: &[u8],
    limits: Limits,
) -> Result<(), DecodeError>
    requires { message_type.0 < length pool.now.messages }
    ensures { IfErr result (λ e. IfFault e (IsFaultOf pool.now message_type.0 limits bytes.now)) }
{
    match find_fault(alloc, pool, message_type, bytes, limits) {
        Ok(()) => Ok(()),
        Err(RawError::Fault { byte, path, cause }) => Err(DecodeError::Fault { byte, path, cause }),
        Err(RawError::Memory) => Err(DecodeError::Memory),
    }
}
