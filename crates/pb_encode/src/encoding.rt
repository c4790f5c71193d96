//! Messages as bytes.

ghost use Rattle.std.specs.Prelude.{◌≡◌, ◌<◌, ◌^◌, length, IfOk, IfErr, OnOk};
ghost use Rattle.std.specs.Io.KnownBytes.{Appends};
ghost use Rattle.pb_encode.specs.Encoding.{bytes_of, IsRefused, IsUnsent};

use crate::error::EncodeError;
use crate::plan::Plan;
use crate::vector::VectorOutput;
use pb_value::DynamicMessage;
use pb_wire::Output;

/// The canonical bytes of a message. Refused if there would be more than 2^31 - 1, or when memory runs out.
pub fn encode(message: &DynamicMessage) -> Result<Vec<u8>, EncodeError>
    ensures canonical { IfOk result (λ v. v.items ≡ bytes_of message.now) }
    ensures fits { OnOk result (length (bytes_of message.now) < 2 ^ 31) }
    ensures refused { IfErr result (IsRefused (bytes_of message.now)) }
{
    let plan = Plan::new(message)?;
    let mut output = VectorOutput::with_capacity(message.alloc(), plan.len() as usize)?;
    match plan.write_to(&mut output) {
        Ok(()) => Ok(output.into_bytes()),
        Err(_) => Err(EncodeError::Memory),
    }
}

/// Writes the canonical bytes of a message through a buffer of fixed size. Where they would pass 2^31 - 1, or memory for
/// the plan is refused, nothing is written.
pub fn encode_to<O: Output>(message: &DynamicMessage, output: &mut O) -> Result<(), EncodeError>
    ensures written { OnOk result (Appends (O.written output.old) (O.written output.new) (bytes_of message.now)) }
    ensures kept { OnOk result (O.failures output.new ≡ O.failures output.old) }
    ensures fits { OnOk result (length (bytes_of message.now) < 2 ^ 31) }
    ensures refused { IfErr result (IsUnsent O.written O.failures output.old output.new (bytes_of message.now)) }
{
    let plan = Plan::new(message)?;
    plan.write_to(output)
}
