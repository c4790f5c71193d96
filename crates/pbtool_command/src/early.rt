//! The bytes of an input that are judged as records while they are read.

ghost use Rattle.std.specs.Prelude.{◌≡◌, ◌≢◌, ◌⊎◌, ◌+◌, ◌++◌, ◌<◌, ◌≤◌, ℕ, List, Option, Some, length, false, true, IfErr, IfOk, OnOk};
ghost use Rattle.std.specs.Io.KnownBytes.{Consumes, IsAtEnd};
ghost use Rattle.pbtool_files.specs.Known.{IsReadFrom};
ghost use Rattle.pbtool_files.specs.Refusal.{KeepsFailures, Refuses, names_device};
ghost use Rattle.pbtool_command.specs.RawAnswer.{RawAnswer};
ghost use Rattle.pbtool_command.specs.Steps.{Judges};
ghost use Rattle.pbtool_command.specs.declared.command.RawForm.{RawForm};

use pb_wire::{Input, Limits, RawError, judge_raw};
use pbtool_files::{FIRST_PIECE, Refusal, is_cut, read_on};
use std::alloc::Global;

/// The bytes of an input, which are records: at most one byte more than the limits allow is read. Where the first bytes have a fault that
/// is that of all longer inputs, no more are read.
pub fn read_records<'a, I: Input>(
    alloc: Global,
    limits: Limits,
    path: &'a str,
    input: &mut I,
) -> Result<Vec<u8>, Refusal<'a>>
    ensures judged { Judges limits path.entry.now
        (IsReadFrom I.left I.is_steady input.old (limits.bytes + 1)) result }
    ensures kept { KeepsFailures I.failures input.old input.new result }
    ensures failed { IfErr result (λ e. names_device e ≡ true
        → I.failures input.new ≢ I.failures input.old) }
{
    let bytes = read_bytes(alloc, limits, path, input)?;
    judge_raw(alloc, bytes.as_slice(), limits)?;
    Ok(bytes)
}

/// The bytes of an input, unless the first of them are refused.
fn read_bytes<'a, I: Input>(
    alloc: Global,
    limits: Limits,
    path: &'a str,
    input: &mut I,
) -> Result<Vec<u8>, Refusal<'a>>
    ensures read { IfOk result (λ v. IsReadFrom I.left I.is_steady input.old (limits.bytes + 1)
        (Some v.items)) }
    ensures refused { IfErr result (λ e. (form : RawForm)
        → Refuses (λ a. (content : Option (List ℕ))
        × IsReadFrom I.left I.is_steady input.old (limits.bytes + 1) content
        × RawAnswer limits form path.entry.now content a) e) }
    ensures kept { KeepsFailures I.failures input.old input.new result }
    ensures failed { IfErr result (λ e. names_device e ≡ true
        → I.failures input.new ≢ I.failures input.old) }
{
    let most = limits.max_bytes() as usize + 1;
    let first = most.min(FIRST_PIECE);
    let mut bytes = Vec::new(alloc);
    read_on(input, &mut bytes, first, path)?;
    if bytes.len() < first {
        return Ok(bytes);
    }
    judge_first(alloc, bytes.as_slice(), limits)?;
    read_on(input, &mut bytes, most, path)?;
    Ok(bytes)
}

/// Judges the first bytes of an input: fails where they have a fault that is that of all longer inputs.
fn judge_first<'a>(alloc: Global, bytes: &[u8], limits: Limits) -> Result<(), Refusal<'a>>
    ensures refused { IfErr result (λ e. (form : RawForm) (path more : List ℕ)
        → Refuses (RawAnswer limits form path (Some (bytes.now ++ more))) e) }
    ensures no_device { IfErr result (λ e. names_device e ≡ false) }
{
    match judge_raw(alloc, bytes, limits) {
        Ok(()) => Ok(()),
        Err(RawError::Memory) => Err(Refusal::Memory),
        Err(RawError::Fault { byte, path, cause }) => {
            if is_cut(cause) {
                return Ok(());
            }
            Err(Refusal::Fault { byte, path, cause })
        }
    }
}
