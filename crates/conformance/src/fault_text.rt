//! How a fault is reported to the suite.

ghost use Rattle.std.specs.Prelude.{◌≡◌, IfOk, string_bytes};
ghost use Rattle.pb_wire.specs.Fault.{fault};
ghost use Rattle.pb_wire.specs.PathText.{path_text};
ghost use Rattle.conformance.specs.FaultText.{fault_text};

use pb_wire::{Cause, PathStep};
use std::alloc::{AllocError, Global};

/// Where bytes fail, the steps to the open records and the cause, as `pbtool` prints them.
pub fn fault_text(
    alloc: Global,
    byte: u64,
    path: &[PathStep],
    cause: Cause,
) -> Result<String, AllocError>
    ensures { IfOk result (λ text. string_bytes text ≡ fault_text (fault byte path.now cause)) }
{
    let path = path_text(alloc, path)?;
    let text = format!(in alloc; "byte {byte} path {path} cause {cause}")?;
    Ok(text)
}

/// The steps joined by dots, or `-` where there are none.
fn path_text(alloc: Global, path: &[PathStep]) -> Result<String, AllocError>
    ensures { IfOk result (λ text. string_bytes text ≡ path_text path.now) }
{
    let Some((first, others)) = path.split_first() else {
        return String::from_str(alloc, "-");
    };
    let mut text = format!(in alloc; "{first}")?;
    for step in others {
        write!(text, ".{step}")?;
    }
    Ok(text)
}
