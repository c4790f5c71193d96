//! Opening the file that a command reads, and reading it.

ghost use Rattle.std.specs.Prelude.{◌≡◌, ◌≢◌, ◌+◌, true, None, Some, drop, IfOk, IfErr, IfSome, OnOk};
ghost use Rattle.pbtool_files.specs.Answer.{device_failed};
ghost use Rattle.pbtool_files.specs.FileMap.{IsOpened, KeepsMap};
ghost use Rattle.pbtool_files.specs.Refusal.{KeepsFailures, Refuses, names_device};
ghost use Rattle.pbtool_files.specs.Known.{IsReadFrom, IsReadOf, OfFiles};

use crate::files::Files;
use crate::report::Refusal;
use pb_wire::{DeviceFault, Input, Limits, ReadFault, read_up_to};
use std::alloc::Global;

/// Opens the file at a path. A missing one is reported as a device that failed.
pub fn open_file<'a, F: Files>(path: &'a str, files: &mut F) -> Result<F::In, Refusal<'a>>
    ensures opened { IfOk result (λ input. OfFiles F.contents F.is_steady files.old path.entry.now
        (λ content. IsOpened F.In.left content (Some input) × (F.In.is_steady input ≡ true))) }
    ensures refused { IfErr result (Refuses (λ a. OfFiles F.contents F.is_steady files.old path.entry.now (λ content. content ≡ None)
        × (a ≡ device_failed path.entry.now))) }
    ensures device { IfErr result (λ e. e ≡ Refusal.Device path.entry) }
    ensures kept { KeepsFailures F.failures files.old files.new result }
    ensures steady { F.is_steady files.old ≡ true → F.is_steady files.new ≡ true }
    ensures unfailing { F.is_steady files.old ≡ true → F.failures files.new ≡ F.failures files.old }
    ensures takes_writes { F.takes_writes files.old ≡ true → F.takes_writes files.new ≡ true }
    ensures files { KeepsMap (F.contents files.old) (F.contents files.new) }
{
    match files.open(path) {
        Ok(Some(input)) => Ok(input),
        Ok(None) | Err(DeviceFault) => Err(Refusal::Device(path)),
    }
}

/// The bytes of a file, but at most one more than the limits allow.
pub fn read_file<'a, F: Files>(
    alloc: Global,
    limits: Limits,
    path: &'a str,
    files: &mut F,
) -> Result<Vec<u8>, Refusal<'a>>
    ensures read { IfOk result (λ v. IsReadOf F.contents F.is_steady files.old (limits.bytes + 1) path.entry.now (Some v.items)) }
    ensures refused { IfErr result (Refuses (λ a. IsReadOf F.contents F.is_steady files.old (limits.bytes + 1) path.entry.now None
        × (a ≡ device_failed path.entry.now))) }
    ensures kept { KeepsFailures F.failures files.old files.new result }
    ensures steady { F.is_steady files.old ≡ true → F.is_steady files.new ≡ true }
    ensures unfailing { F.is_steady files.old ≡ true → F.failures files.new ≡ F.failures files.old }
    ensures takes_writes { F.takes_writes files.old ≡ true → F.takes_writes files.new ≡ true }
    ensures files { KeepsMap (F.contents files.old) (F.contents files.new) }
{
    let mut input = open_file(path, files)?;
    let text = read_input(alloc, limits, path, &mut input)?;
    Ok(text)
}

/// The bytes of an input, but at most one more than the limits allow.
fn read_input<'a, I: Input>(
    alloc: Global,
    limits: Limits,
    path: &'a str,
    input: &mut I,
) -> Result<Vec<u8>, Refusal<'a>>
    ensures read { IfOk result (λ v. IsReadFrom I.left I.is_steady input.old (limits.bytes + 1) (Some v.items)) }
    ensures refused { IfErr result (Refuses (λ a. IsReadFrom I.left I.is_steady input.old (limits.bytes + 1) None
        × (a ≡ device_failed path.entry.now))) }
    ensures kept { KeepsFailures I.failures input.old input.new result }
    ensures failed { IfErr result (λ e. names_device e ≡ true → I.failures input.new ≢ I.failures input.old) }
    ensures rest { IfSome (I.left input.old) (λ left. OnOk result (I.left input.new ≡ Some (drop (limits.bytes + 1) left))) }
{
    let most = limits.max_bytes() as usize + 1;
    match read_up_to(alloc, input, most) {
        Ok(text) => Ok(text),
        Err(ReadFault::Device) => Err(Refusal::Device(path)),
        Err(ReadFault::Memory) => Err(Refusal::Memory),
    }
}
