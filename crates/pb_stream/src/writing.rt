//! Frames to a device.

ghost use Rattle.std.specs.Prelude.{◌≡◌, ◌<◌, ◌^◌, length, IfErr, OnOk};
ghost use Rattle.std.specs.Io.KnownBytes.{Appends};
ghost use Rattle.pb_encode.specs.Encoding.{bytes_of};
ghost use Rattle.pb_stream.specs.Writing.{frame_of, IsUnsent};

use pb_encode::EncodeError;
use pb_encode::planning::plan;
use pb_value::DynamicMessage;
use pb_wire::{Output, put_varint, write_all};

/// Writes a message after its length: the shortest varint of the length, and then the canonical bytes.
///
/// What is written is a frame of the message within the greatest limits, whatever follows it ([`written_frame`]).
///
/// Where the canonical bytes would pass 2^31 - 1, or memory for the plan is refused, nothing is written. Where the device
/// fails, `written` counts the bytes of the whole frame that went out, those of the length too.
///
/// [`written_frame`]: crate::laws::written_frame
pub fn write_delimited<O: Output>(
    message: &DynamicMessage,
    output: &mut O,
) -> Result<(), EncodeError>
    ensures written { OnOk result
        (Appends (O.written output.old) (O.written output.new) (frame_of (bytes_of message.now))) }
    ensures kept { OnOk result (O.failures output.new ≡ O.failures output.old) }
    ensures fits { OnOk result (length (bytes_of message.now) < 2 ^ 31) }
    ensures refused { IfErr result
        (IsUnsent O.written O.failures output.old output.new (bytes_of message.now)) }
{
    let plan = plan(message)?;
    let front = put_varint(u64::from(plan.len()));
    if let Err(fault) = write_all(output, front.as_slice()) {
        let written = fault.written;
        return Err(EncodeError::Device { written });
    }
    match plan.write_to(output) {
        Ok(()) => Ok(()),
        Err(EncodeError::Device { written }) => Err(EncodeError::Device {
            written: front.as_slice().len() as u64 + written,
        }),
        Err(error) => Err(error),
    }
}
