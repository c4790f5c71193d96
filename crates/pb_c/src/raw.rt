//! Bytes as records, without a schema.

ghost use Rattle.std.specs.Prelude.{◌≡◌};
ghost use Rattle.pb_wire.specs.Reading.{IfRawFault};
ghost use Rattle.pb_c_answers.specs.Reporting.{Tells};

pub(crate) mod check;
pub(crate) mod short;

use pb_c_answers::{FAULT, FaultReport, MEMORY, Step, tell_fault};
use pb_wire::RawError;

/// Reports why bytes are no records, and answers the error's number.
fn tell_raw(error: &RawError, fault: &mut FaultReport, path: &mut [Step]) -> u32
    ensures fault { IfRawFault error.now (λ f. (result ≡ FAULT)
        × Tells f fault.new path.old path.new) }
    ensures memory { error.now ≡ RawError.Memory
        → (result ≡ MEMORY) × (fault.new ≡ fault.old) × (path.new ≡ path.old) }
{
    match error {
        RawError::Fault {
            byte,
            path: steps,
            cause,
        } => tell_fault(*byte, steps, *cause, fault, path),
        RawError::Memory => MEMORY,
    }
}
