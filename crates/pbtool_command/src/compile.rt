//! Sources compiled to a descriptor set.

ghost use Rattle.std.specs.Prelude.{◌≡◌, ◌≤◌, ◌<◌, ◌^◌, [], length, map, IfOk, IfErr, true};
ghost use Rattle.pb_descr_message.specs.Sets.{set_bytes};
ghost use Rattle.pb_declarations.specs.View.{file_view};
ghost use Rattle.pb_descr_message.specs.Writing.{set_body};
ghost use Rattle.pb_value.specs.Data.{message_depth};
ghost use Rattle.pbtool_files.specs.Answer.{refused};
ghost use Rattle.pbtool_command.specs.CompileAnswer.{IsLinkedAs, places_of, texts_of};
ghost use Rattle.pbtool_files.specs.FileMap.{IsSaved, IsUnsaved};
ghost use Rattle.pbtool_files.specs.Refusal.{KeepsFailures, Refuses};
ghost use Rattle.pbtool_files.specs.Report.{too_large_line};
ghost use Rattle.pbtool_command.specs.Steps.{Comes, CompileOf, IsNothing};

use crate::command::Roots;
use crate::gathering::gather;
use pb_descr::{FileDecl, WriteSetError, write_set};
use pb_link::{resolve, without_enum_maps};
use pbtool_files::{Files, Reading, Refusal};
use std::alloc::{AllocError, Global};

/// Writes the descriptor set of sources and their imports to a file: whole, or nothing where they are refused. That of sources which are
/// read leniently is as lenient reading takes a set of them: maps of enums in files of proto2 are lists of their entries.
pub fn compile<'a, F: Files>(
    alloc: Global,
    roots: Roots<'_>,
    out: &'a str,
    names: &[&str],
    files: &mut F,
) -> Result<(), Refusal<'a>>
    ensures comes { Comes (λ text. text ≡ []) (λ _. ⊥)
        (IsSaved F.contents files.old files.new)
        (IsUnsaved F.contents F.failures files.old files.new)
        (CompileOf F.contents F.is_steady files.old (places_of roots.entry) out.entry.now
        (texts_of names.now)) IsNothing result }
    ensures kept { KeepsFailures F.failures files.old files.new result }
    ensures unfailing { F.is_steady files.old ≡ true → F.takes_writes files.old ≡ true
        → F.failures files.new ≡ F.failures files.old }
{
    let gathered = gather(alloc, roots, names, files)?;
    let linked = files_to_link(alloc, roots.reading, gathered)?;
    let resolved = resolve(alloc, &linked)?;
    let bytes = bytes_of(alloc, &resolved)?;
    match files.write_whole(out, &bytes) {
        Ok(()) => Ok(()),
        Err(_) => Err(Refusal::Device(out)),
    }
}

/// The files that are linked, of those that were read this way.
fn files_to_link(
    alloc: Global,
    reading: Reading,
    gathered: Vec<FileDecl>,
) -> Result<Vec<FileDecl>, AllocError>
    ensures { IfOk result (λ v. IsLinkedAs reading (map file_view gathered.items)
        (map file_view v.items)) }
{
    match reading {
        Reading::Strict => Ok(gathered),
        Reading::Lenient => without_enum_maps(alloc, &gathered),
    }
}

/// The canonical bytes of the set of files.
fn bytes_of<'a>(alloc: Global, files: &[FileDecl]) -> Result<Vec<u8>, Refusal<'a>>
    requires { message_depth (set_body (map file_view files.now)) ≤ 100 }
    ensures made { IfOk result (λ v. (v.items ≡ set_bytes (map file_view files.now))
        × (length v.items < 2 ^ 31)) }
    ensures refused { IfErr result
        (Refuses (λ a. (2 ^ 31 ≤ length (set_bytes (map file_view files.now)))
        × (a ≡ refused too_large_line))) }
{
    match write_set(alloc, files) {
        Ok(bytes) => Ok(bytes),
        Err(WriteSetError::TooLarge) => Err(Refusal::TooLarge),
        Err(WriteSetError::Memory) => Err(Refusal::Memory),
        // Messages of sources nest at most 64 deep.
        Err(WriteSetError::TooDeep) => unreachable!(),
    }
}
