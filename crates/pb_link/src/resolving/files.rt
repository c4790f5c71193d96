//! Files with the types that their declarations mean.

ghost use Rattle.std.specs.Prelude.{◌≡◌, map, IfOk, OnOk};
ghost use Rattle.pb_declarations.specs.View.{file_view};
ghost use Rattle.pb_link.specs.Resolving.{coming, file_read, files_read, behind_file};
ghost use Rattle.pb_link_names.specs.View.{declaration_view, type_names_view};

use crate::declaring::text::copied;
use crate::resolving::enums::{copied_enums, skip_enums};
use crate::resolving::messages::resolve_messages;
use crate::resolving::services::resolve_services;
use crate::resolving::upcoming::Upcoming;
use pb_declarations::FileDecl;
use pb_link_names::declaration::Declaration;
use pb_link_names::found::TypeNames;
use std::alloc::{AllocError, Global};

fn resolve_file(
    alloc: Global,
    row: &[Declaration],
    names: &mut Upcoming,
    file: &FileDecl,
) -> Result<FileDecl, AllocError>
    ensures file { IfOk result (λ f. file_view f
        ≡ file_read (map declaration_view row.now) (coming names.old) (file_view file.now)) }
    ensures behind { OnOk result (coming names.new
        ≡ behind_file (file_view file.now) (coming names.old)) }
{
    names.skip(1);
    let messages = resolve_messages(alloc, row, names, &file.messages)?;
    skip_enums(names, &file.enums);
    let services = resolve_services(alloc, row, names, &file.services)?;
    let name = file.name.clone()?;
    let package = file.package.clone()?;
    let imports = copied(alloc, &file.imports)?;
    let public = Vec::from_slice(alloc, &file.public)?;
    let enums = copied_enums(alloc, &file.enums)?;
    Ok(FileDecl {
        name,
        package,
        imports,
        public,
        messages,
        enums,
        services,
        proto2: file.proto2,
    })
}

/// The files, by what the type names of all their declarations came to.
pub(crate) fn resolve_files(
    alloc: Global,
    row: &[Declaration],
    found: &[TypeNames],
    files: &[FileDecl],
) -> Result<Vec<FileDecl>, AllocError>
    ensures { IfOk result (λ v. map file_view v.items
        ≡ files_read (map declaration_view row.now) (map type_names_view found.now)
        (map file_view files.now)) }
{
    let mut names = Upcoming { rest: found };
    let mut resolved: Vec<FileDecl> = Vec::new(alloc);
    for file in files {
        let made = resolve_file(alloc, row, &mut names, file)?;
        resolved.push(made)?;
    }
    Ok(resolved)
}
