//! The rules of files.

ghost use Rattle.std.specs.Prelude.{◌↔◌, ◌<◌, IsTrue, IfOk, map};
ghost use Rattle.std.specs.List.{AllByRecursion};
ghost use Rattle.pb_schema.specs.View.{file_view};
ghost use Rattle.pb_schema.specs.Rules.{FilesAreNamed, FileNamesDiffer, PackagesAreWords, ImportsAreFew, ImportsNameFiles};

use crate::names::words::is_package;
use crate::types::FileInfo;
use pb_names::name_set::NameSet;
use std::alloc::{AllocError, Global};

/// The most imports that a file has.
const MAX_IMPORTS: usize = 0x7fff_ffff;

pub(crate) fn files_are_named(files: &[FileInfo]) -> bool
    ensures { IsTrue result ↔ FilesAreNamed (map file_view files.now) }
{
    for file in files {
        if file.name.is_empty() {
            return false;
        }
    }
    true
}

pub(crate) fn file_names_differ(alloc: Global, files: &[FileInfo]) -> Result<bool, AllocError>
    ensures { IfOk result (λ holds. IsTrue holds ↔ FileNamesDiffer (map file_view files.now)) }
{
    let mut names = NameSet::new(alloc);
    for file in files {
        let is_new = names.add_copy(alloc, file.name.as_str().as_bytes())?;
        if !is_new {
            return Ok(false);
        }
    }
    Ok(true)
}

pub(crate) fn packages_are_words(files: &[FileInfo]) -> bool
    ensures { IsTrue result ↔ PackagesAreWords (map file_view files.now) }
{
    for file in files {
        if !is_package(file.package.as_str().as_bytes()) {
            return false;
        }
    }
    true
}

pub(crate) fn imports_are_few(files: &[FileInfo]) -> bool
    ensures { IsTrue result ↔ ImportsAreFew (map file_view files.now) }
{
    for file in files {
        if file.imports.len() > MAX_IMPORTS {
            return false;
        }
    }
    true
}

fn imports_are_below(file: &FileInfo, count: usize) -> bool
    ensures { IsTrue result ↔ AllByRecursion (λ j. j < count) file.now.imports.items }
{
    for index in &file.imports {
        if *index >= count {
            return false;
        }
    }
    true
}

fn all_imports_are_below(files: &[FileInfo], count: usize) -> bool
    ensures { IsTrue result ↔ AllByRecursion (λ f. AllByRecursion (λ j. j < count) f.imports) (map file_view files.now) }
{
    for file in files {
        if !imports_are_below(file, count) {
            return false;
        }
    }
    true
}

pub(crate) fn imports_name_files(files: &[FileInfo]) -> bool
    ensures { IsTrue result ↔ ImportsNameFiles (map file_view files.now) }
{
    all_imports_are_below(files, files.len())
}
