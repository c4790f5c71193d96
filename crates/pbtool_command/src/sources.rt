//! Sources, read from files under roots.

ghost use Rattle.std.specs.Prelude.{◌≡◌, ◌+◌, ◌⊎◌, true, ℕ, None, option_map, string_bytes, IfOk, IfErr, IsErrOf, MatchOption, OnOk};
ghost use Rattle.pb_declarations.specs.View.{file_view};
ghost use Rattle.pb_source_tokens.specs.Fault.{out_of_memory};
ghost use Rattle.pb_source_tokens.specs.declared.fault.SourceCause.{SourceCause};
ghost use Rattle.pb_wire.specs.Limits.{full};
ghost use Rattle.pbtool_files.specs.Answer.{refused};
ghost use Rattle.pbtool_command.specs.CompileAnswer.{places_of, texts_of, told_of};
ghost use Rattle.pbtool_files.specs.FileMap.{KeepsMap};
ghost use Rattle.pbtool_command.specs.Gathering.{DeclaresAt, HasFaultBy, HasTroubleAt, IsSourceBy, Trouble};
ghost use Rattle.pbtool_command.specs.Gathering.{climbs, given, imported, leaves_root, path_under, places, unread};
ghost use Rattle.pbtool_files.specs.Refusal.{KeepsFailures, Refuses};
ghost use Rattle.pbtool_files.specs.Report.{source_line};
ghost use Rattle.pbtool_files.specs.Known.{IsReadOf};
ghost use Rattle.pbtool_command.specs.Steps.{AbsentOf, DeclaredOf, Fails, IsAt, TroubleOf};

use crate::command::Roots;
use pb_descr::FileDecl;
use pb_source::{SourceCause, SourceFault, parse, parse_lenient};
use pb_wire::{DeviceFault, Limits, ReadFault, read_up_to};
use pbtool_files::{Files, Reading, Refusal};
use std::alloc::{AllocError, Global};

/// The path of a file under a root.
fn path_under(alloc: Global, root: &str, name: &str) -> Result<String, AllocError>
    ensures { IfOk result (λ s. string_bytes s ≡ path_under root.now name.now) }
{
    let mut path = String::from_str(alloc, root)?;
    path.push_str("/")?;
    path.push_str(name)?;
    Ok(path)
}

/// Whether an import of this name is no file under a root.
pub fn leaves_root(name: &str) -> bool
    ensures { result ≡ leaves_root name.now }
{
    match name.as_bytes().first() {
        None => true,
        Some(first) => *first == b'/' || climbs(name),
    }
}

/// Whether a part of the name between its slashes is `..`.
fn climbs(name: &str) -> bool
    ensures { result ≡ climbs name.now }
{
    name.split('/').any(|part| part == "..")
}

/// The bytes of the file at a path, but at most one more than a source may have; none where no file is there.
fn read_bytes<F: Files>(
    alloc: Global,
    path: &str,
    files: &mut F,
) -> Result<Option<Vec<u8>>, ReadFault>
    ensures read { IfOk result (λ o. IsReadOf F.contents F.is_steady files.old (full.bytes + 1)
        path.now (option_map (λ v. v.items) o)) }
    ensures failed { IsErrOf result ReadFault.Device
        → Fails F.contents F.is_steady files.old path.now }
    ensures kept { OnOk result (F.failures files.new ≡ F.failures files.old) }
    ensures memory { IsErrOf result ReadFault.Memory → F.failures files.new ≡ F.failures files.old }
    ensures steady { F.is_steady files.old ≡ true → F.is_steady files.new ≡ true }
    ensures unfailing { F.is_steady files.old ≡ true → F.failures files.new ≡ F.failures files.old }
    ensures takes_writes { F.takes_writes files.old ≡ true → F.takes_writes files.new ≡ true }
    ensures files { KeepsMap (F.contents files.old) (F.contents files.new) }
{
    let most = Limits::FULL.max_bytes() as usize + 1;
    match files.open(path) {
        Ok(Some(mut input)) => match read_up_to(alloc, &mut input, most) {
            Ok(bytes) => Ok(Some(bytes)),
            Err(fault) => Err(fault),
        },
        Ok(None) => Ok(None),
        Err(DeviceFault) => Err(ReadFault::Device),
    }
}

/// Why a source of this name is refused.
fn refusal_of<'a>(alloc: Global, name: &str, fault: SourceFault) -> Refusal<'a>
    ensures memory { fault.cause ≡ SourceCause.Memory → result ≡ Refusal.Memory }
    ensures told { Refuses (λ a. a ≡ refused (source_line name.now fault.byte fault.cause)) result }
{
    if fault.cause == SourceCause::Memory {
        return Refusal::Memory;
    }
    match String::from_str(alloc, name) {
        Ok(file) => Refusal::Source {
            file,
            byte: fault.byte,
            cause: fault.cause,
        },
        Err(_) => Refusal::Memory,
    }
}

/// What the bytes of a source of this name declare, or their fault.
fn parse_by(
    alloc: Global,
    reading: Reading,
    name: &str,
    bytes: &[u8],
) -> Result<FileDecl, SourceFault>
    ensures source { IfOk result (λ f. IsSourceBy reading name.now bytes.now (file_view f)) }
    ensures fault { IfErr result (λ e. (e ≡ out_of_memory)
        ⊎ HasFaultBy reading bytes.now e.byte e.cause) }
{
    match reading {
        Reading::Strict => parse(alloc, name, bytes),
        Reading::Lenient => parse_lenient(alloc, name, bytes),
    }
}

/// What the bytes of a source of this name declare.
fn parse_source<'a>(
    alloc: Global,
    reading: Reading,
    name: &str,
    bytes: &[u8],
) -> Result<FileDecl, Refusal<'a>>
    ensures source { IfOk result (λ f. IsSourceBy reading name.now bytes.now (file_view f)) }
    ensures refused { IfErr result (Refuses (λ a. (place : ℕ) × (c : SourceCause)
        × HasFaultBy reading bytes.now place c
        × (a ≡ refused (source_line name.now place c)))) }
{
    match parse_by(alloc, reading, name, bytes) {
        Ok(file) => Ok(file),
        Err(fault) => Err(refusal_of(alloc, name, fault)),
    }
}

/// What the file of this name under one root declares; none where it is not there.
fn read_under<'a, F: Files>(
    alloc: Global,
    reading: Reading,
    root: &str,
    name: &str,
    files: &mut F,
) -> Result<Option<FileDecl>, Refusal<'a>>
    ensures read { IfOk result (λ o. MatchOption o
        (IsAt F.contents F.is_steady files.old (path_under root.now name.now) None)
        (λ f. DeclaresAt (IsAt F.contents F.is_steady files.old) reading
        (path_under root.now name.now) name.now (file_view f))) }
    ensures refused { IfErr result (Refuses (λ a. (t : Trouble)
        × HasTroubleAt (IsAt F.contents F.is_steady files.old) reading
        (path_under root.now name.now) (Fails F.contents F.is_steady files.old) t
        × (a ≡ told_of name.now t))) }
    ensures kept { KeepsFailures F.failures files.old files.new result }
    ensures steady { F.is_steady files.old ≡ true → F.is_steady files.new ≡ true }
    ensures unfailing { F.is_steady files.old ≡ true → F.failures files.new ≡ F.failures files.old }
    ensures takes_writes { F.takes_writes files.old ≡ true → F.takes_writes files.new ≡ true }
    ensures files { KeepsMap (F.contents files.old) (F.contents files.new) }
{
    let path = path_under(alloc, root, name)?;
    match read_bytes(alloc, path.as_str(), files) {
        Ok(Some(bytes)) => match parse_source(alloc, reading, name, &bytes) {
            Ok(file) => Ok(Some(file)),
            Err(refusal) => Err(refusal),
        },
        Ok(None) => Ok(None),
        Err(ReadFault::Device) => Err(Refusal::File(path)),
        Err(ReadFault::Memory) => Err(Refusal::Memory),
    }
}

/// What the file of this name declares, under the first of these roots that has it; none where no root has it.
fn read_first<'a, F: Files>(
    alloc: Global,
    reading: Reading,
    roots: &[&str],
    name: &str,
    files: &mut F,
) -> Result<Option<FileDecl>, Refusal<'a>>
    ensures read { IfOk result (λ o. MatchOption o
        (AbsentOf F.contents F.is_steady files.old (texts_of roots.now) name.now)
        (λ f. DeclaredOf F.contents F.is_steady files.old (places reading (texts_of roots.now))
        name.now (file_view f))) }
    ensures refused { IfErr result (Refuses (λ a. (t : Trouble)
        × TroubleOf F.contents F.is_steady files.old (places reading (texts_of roots.now)) imported
        name.now t × (a ≡ told_of name.now t))) }
    ensures kept { KeepsFailures F.failures files.old files.new result }
    ensures steady { F.is_steady files.old ≡ true → F.is_steady files.new ≡ true }
    ensures unfailing { F.is_steady files.old ≡ true → F.failures files.new ≡ F.failures files.old }
    ensures takes_writes { F.takes_writes files.old ≡ true → F.takes_writes files.new ≡ true }
    ensures files { KeepsMap (F.contents files.old) (F.contents files.new) }
{
    for root in roots {
        if let Some(file) = read_under(alloc, reading, root, name, files)? {
            return Ok(Some(file));
        }
    }
    Ok(None)
}

/// The same of all roots.
pub fn read_source<'a, F: Files>(
    alloc: Global,
    roots: Roots<'_>,
    name: &str,
    files: &mut F,
) -> Result<Option<FileDecl>, Refusal<'a>>
    ensures read { IfOk result (λ o. MatchOption o
        (AbsentOf F.contents F.is_steady files.old (places_of roots.entry).roots name.now)
        (λ f. DeclaredOf F.contents F.is_steady files.old (places_of roots.entry) name.now
        (file_view f))) }
    ensures refused { IfErr result (Refuses (λ a. (t : Trouble)
        × TroubleOf F.contents F.is_steady files.old (places_of roots.entry) imported name.now t
        × (a ≡ told_of name.now t))) }
    ensures kept { KeepsFailures F.failures files.old files.new result }
    ensures steady { F.is_steady files.old ≡ true → F.is_steady files.new ≡ true }
    ensures unfailing { F.is_steady files.old ≡ true → F.failures files.new ≡ F.failures files.old }
    ensures takes_writes { F.takes_writes files.old ≡ true → F.takes_writes files.new ≡ true }
    ensures files { KeepsMap (F.contents files.old) (F.contents files.new) }
{
    match read_under(alloc, roots.reading, roots.root, name, files)? {
        Some(file) => Ok(Some(file)),
        None => read_first(alloc, roots.reading, roots.others, name, files),
    }
}

/// The same of a file that was given: one that no root has is refused.
pub fn read_given<'a, F: Files>(
    alloc: Global,
    roots: Roots<'_>,
    name: &str,
    files: &mut F,
) -> Result<FileDecl, Refusal<'a>>
    ensures read { IfOk result (λ f. DeclaredOf F.contents F.is_steady files.old
        (places_of roots.entry) name.now (file_view f)) }
    ensures refused { IfErr result (Refuses (λ a. (t : Trouble)
        × TroubleOf F.contents F.is_steady files.old (places_of roots.entry) given name.now t
        × (a ≡ told_of name.now t))) }
    ensures kept { KeepsFailures F.failures files.old files.new result }
    ensures steady { F.is_steady files.old ≡ true → F.is_steady files.new ≡ true }
    ensures unfailing { F.is_steady files.old ≡ true → F.failures files.new ≡ F.failures files.old }
    ensures takes_writes { F.takes_writes files.old ≡ true → F.takes_writes files.new ≡ true }
    ensures files { KeepsMap (F.contents files.old) (F.contents files.new) }
{
    match read_source(alloc, roots, name, files) {
        Ok(Some(file)) => Ok(file),
        Ok(None) => Err(missing(alloc, roots.root, name)),
        Err(refusal) => Err(refusal),
    }
}

/// The refusal of a file that no root has, of which this is the first.
fn missing<'a>(alloc: Global, root: &str, name: &str) -> Refusal<'a>
    ensures { Refuses (λ a. a ≡ told_of name.now (unread (path_under root.now name.now))) result }
{
    match path_under(alloc, root, name) {
        Ok(path) => Refusal::File(path),
        Err(_) => Refusal::Memory,
    }
}
