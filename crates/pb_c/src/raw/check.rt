//! Bytes judged as records.

ghost use Rattle.std.specs.Prelude.{◌≡◌, ◌≢◌, ◌+◌, ◌≤◌, ◌↔◌, ◌⊎◌};
ghost use Rattle.pb_wire.specs.Exact.{IsSomeText};
ghost use Rattle.pb_wire.specs.Fault.{Fault};
ghost use Rattle.pb_wire.specs.Grammar.{HasFault};
ghost use Rattle.pb_wire.specs.Schema.{blank};
ghost use Rattle.pb_c_answers.specs.Reporting.{AreLimits, Tells, bounds};

use super::tell_raw;
use pb_c_answers::{BAD_LIMITS, DONE, FAULT, FaultReport, MEMORY, Step};
use pb_wire::{Limits, judge_raw};
use std::alloc::Global;

/// Checks bytes as records within the limits: at most `max_bytes` bytes, and groups at most `max_depth` deep.
///
/// Answers DONE where they are records; FAULT with the fault, and as many steps of its path as the buffer holds, of at most
/// `max_depth + 1`; BAD_LIMITS where a limit is above the greatest; or MEMORY. The fault and the path are written at FAULT alone.
#[unsafe(no_mangle)]
pub extern "C" fn mb_raw_check(
    alloc: Global,
    bytes: &[u8],
    max_bytes: u32,
    max_depth: u8,
    fault: &mut FaultReport,
    path: &mut [Step],
) -> u32
    ensures text { result ≡ DONE → IsSomeText blank tt (bounds max_bytes max_depth) bytes.now }
    ensures fault { result ≡ FAULT → (f : Fault)
        × HasFault blank tt (bounds max_bytes max_depth) bytes.now f
        × Tells f fault.new path.old path.new }
    ensures steps { result ≡ FAULT → fault.new.steps ≤ max_depth + 1 }
    ensures untold { result ≢ FAULT → (fault.new ≡ fault.old) × (path.new ≡ path.old) }
    ensures limits { result ≡ BAD_LIMITS ↔ ¬ AreLimits max_bytes max_depth }

    // Each valid input is accepted and each fault is reported, unless memory runs out.
    ensures accepted { AreLimits max_bytes max_depth
        → IsSomeText blank tt (bounds max_bytes max_depth) bytes.now
        → (result ≡ DONE) ⊎ (result ≡ MEMORY) }
    ensures refused { AreLimits max_bytes max_depth → (f : Fault)
        → HasFault blank tt (bounds max_bytes max_depth) bytes.now f
        → ((result ≡ FAULT) × Tells f fault.new path.old path.new) ⊎ (result ≡ MEMORY) }
{
    let Some(limits) = Limits::new(max_bytes, max_depth) else {
        return BAD_LIMITS;
    };
    match judge_raw(alloc, bytes, limits) {
        Ok(()) => DONE,
        Err(error) => tell_raw(&error, fault, path),
    }
}
