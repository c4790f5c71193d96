//! The shortest spelling of records.

ghost use Rattle.std.specs.Prelude.{◌≡◌, ◌≢◌, ◌+◌, ◌≤◌, ◌↔◌, ◌⊎◌, List};
ghost use Rattle.pb_wire.specs.Fault.{Fault};
ghost use Rattle.pb_wire.specs.Grammar.{IsText, HasFault};
ghost use Rattle.pb_wire.specs.Record.{Record};
ghost use Rattle.pb_wire.specs.Schema.{blank};
ghost use Rattle.pb_wire.specs.Spell.{shortest_records};
ghost use Rattle.pb_c_answers.specs.Reporting.{AreLimits, IsLaid, Tells, bounds};

use super::tell_raw;
use pb_c_answers::{BAD_LIMITS, DONE, FAULT, FaultReport, MEMORY, Step, lay_over};
use pb_wire::{Limits, read_raw, write_raw};
use std::alloc::Global;

/// Writes the shortest spelling of the records that bytes are, as much of it as the buffer holds, and reports its whole length.
///
/// Answers as `mb_raw_check` does. The spelling and its length are written at DONE alone.
#[unsafe(no_mangle)]
pub extern "C" fn mb_raw_short(
    alloc: Global,
    bytes: &[u8],
    max_bytes: u32,
    max_depth: u8,
    out: &mut [u8],
    size: &mut usize,
    fault: &mut FaultReport,
    path: &mut [Step],
) -> u32
    ensures text { result ≡ DONE → (rs : List Record)
        × IsText blank tt (bounds max_bytes max_depth) bytes.now rs
        × IsLaid (shortest_records rs) out.old out.new size.new }
    ensures fault { result ≡ FAULT → (f : Fault)
        × HasFault blank tt (bounds max_bytes max_depth) bytes.now f
        × Tells f fault.new path.old path.new }
    ensures steps { result ≡ FAULT → fault.new.steps ≤ max_depth + 1 }
    ensures unwritten { result ≢ DONE → (out.new ≡ out.old) × (size.new ≡ size.old) }
    ensures untold { result ≢ FAULT → (fault.new ≡ fault.old) × (path.new ≡ path.old) }
    ensures limits { result ≡ BAD_LIMITS ↔ ¬ AreLimits max_bytes max_depth }

    // Each valid input is accepted and each fault is reported, unless memory runs out.
    ensures accepted { AreLimits max_bytes max_depth → (rs : List Record)
        → IsText blank tt (bounds max_bytes max_depth) bytes.now rs
        → ((result ≡ DONE) × IsLaid (shortest_records rs) out.old out.new size.new)
        ⊎ (result ≡ MEMORY) }
    ensures refused { AreLimits max_bytes max_depth → (f : Fault)
        → HasFault blank tt (bounds max_bytes max_depth) bytes.now f
        → ((result ≡ FAULT) × Tells f fault.new path.old path.new) ⊎ (result ≡ MEMORY) }
{
    let Some(limits) = Limits::new(max_bytes, max_depth) else {
        return BAD_LIMITS;
    };
    let records = match read_raw(alloc, bytes, limits) {
        Ok(records) => records,
        Err(error) => return tell_raw(&error, fault, path),
    };
    match write_raw(alloc, &records) {
        Ok(spelling) => {
            lay_over(&spelling, out);
            *size = spelling.len();
            DONE
        }
        Err(_) => MEMORY,
    }
}
