//! The call that builds a message.

ghost use Rattle.std.specs.Prelude.{◌≡◌, ◌<◌, length, IfOk};
ghost use Rattle.pb_value.specs.Derives.{Text};

use crate::heap::keep_heap;
use crate::reader::{Left, Reader, body_of};
use pb_decode_parts::{NoMemory, Part};
use pb_schema::{MessageId, Pool};
use pb_value::DynamicMessage;
use pb_value::bodies::{empty_body, from_well_formed};
use pb_wire::Limits;
use std::alloc::Global;

/// Builds the message of a type whose encoding some bytes are (encoding guide, "Message Structure").
///
/// `message_type` is a type of the pool. Fails where memory is refused, and where the bytes are no encoding of a message of the type
/// within the limits: `pb_validate::judge` says which, and reports the fault.
pub fn build<'p>(
    alloc: Global,
    pool: &'p Pool,
    message_type: MessageId,
    bytes: &[u8],
    limits: Limits,
) -> Result<DynamicMessage<'p>, NoMemory>
    requires { message_type.0 < length pool.now.messages }
    ensures of_type { IfOk result (λ m. (m.pool ≡ pool.now) × (m.kind ≡ message_type.0)) }
    ensures value { IfOk result (λ m. Text pool.now message_type.0 limits bytes.now m.body) }
{
    // Gives that the pool meets its rules.
    let _messages = pool.messages();
    let max_bytes = limits.max_bytes();
    let max_depth = limits.max_depth();
    if bytes.len() > max_bytes as usize {
        return Err(NoMemory);
    }
    let reader = Reader { alloc, pool };
    let left = Left {
        remaining: bytes.len() as u32,
        depth_left: max_depth,
    };
    let mut top = Part::Message(message_type, empty_body(alloc));
    reader.read_records(&mut top, bytes, left)?;
    keep_heap(alloc, bytes.len());
    let body = body_of(top)?;
    Ok(from_well_formed(alloc, pool, message_type, body))
}
