//! Inputs that are judged while they are read.

ghost use Rattle.std.specs.Prelude.{◌≡◌, ◌≢◌, ◌⊎◌, ◌<◌, ◌≤◌, ℕ, List, Option, length, true, false, IfErr, OnOk};
ghost use Rattle.std.specs.Io.KnownBytes.{Consumes, IsAtEnd};
ghost use Rattle.pbtool_files.specs.Refusal.{KeepsFailures, names_device};

use crate::report::Refusal;
use pb_wire::{Cause, Input};

/// How many bytes are judged before more are read.
pub const FIRST_PIECE: usize = 65536;

/// How many bytes are asked for at a time.
const PIECE: usize = 16384;

/// Reads on to the end of an input, but not past this number of bytes in all.
pub fn read_on<'a, I: Input>(
    input: &mut I,
    bytes: &mut Vec<u8>,
    limit: usize,
    path: &'a str,
) -> Result<(), Refusal<'a>>
    requires { length bytes.old.items ≤ limit }
    ensures within { length bytes.new.items ≤ limit }
    ensures taken { (x : Option (List ℕ)) → Consumes x (I.left input.old) bytes.old.items
        → OnOk result (Consumes x (I.left input.new) bytes.new.items) }
    ensures ends { OnOk result (length bytes.new.items < limit → IsAtEnd (I.left input.new)) }
    ensures refused { IfErr result (λ e. (e ≡ Refusal.Memory) ⊎ ((e ≡ Refusal.Device path.entry) × (I.is_steady input.old ≡ true → ⊥))) }
    ensures kept { KeepsFailures I.failures input.old input.new result }
    ensures failed { IfErr result (λ e. names_device e ≡ true → I.failures input.new ≢ I.failures input.old) }
    ensures stays { I.is_steady input.old ≡ true → I.is_steady input.new ≡ true }
{
    let mut buffer = [0u8; PIECE];
    'reading: while bytes.len() < limit {
        let size = PIECE.min(limit - bytes.len());
        let Ok(count) = input.read(&mut buffer[..size]) else {
            return Err(Refusal::Device(path));
        };
        if count == 0 {
            return Ok(());
        }
        bytes.extend_from_slice(&buffer[..count])?;
    }
    Ok(())
}

/// Whether the input ends inside a token, a payload or a group, so that more bytes can mend the fault.
pub fn is_cut(cause: Cause) -> bool
    ensures cut { result ≡ true → cause ≡ Cause.Truncated }
    ensures other { result ≡ false → cause ≢ Cause.Truncated }
{
    match cause {
        Cause::Truncated => true,
        _ => false,
    }
}
