//! The declarations of a pool's types.

pub(crate) mod enums;
mod fields;
mod nesting;
pub(crate) mod order;
pub(crate) mod text;

ghost use Rattle.std.specs.Prelude.{◌≡◌, ◌<◌, ◌^◌, [], pos, length, map, string_bytes, Some, slice_get, IfOk, IfErr, OnOk};
ghost use Rattle.std.specs.List.{enumerate_from};
ghost use Rattle.pb_wire.specs.Limits.{full};
ghost use Rattle.pb_schema.specs.Types.{FileView};
ghost use Rattle.pb_schema.specs.View.{file_view as view_of_file};
ghost use Rattle.pb_schema.specs.Names.{name_at};
ghost use Rattle.pb_schema.specs.Rules.{IsPool};
ghost use Rattle.pb_declarations.specs.View.{file_view};
ghost use Rattle.pb_descr_message.specs.Causes.{set_causes};
ghost use Rattle.pb_descr_message.specs.Sets.{IsSetOf, set_bytes};
ghost use Rattle.pb_descr_message.specs.Writable.{IsWithinLimits};
ghost use Rattle.pb_descr_message.specs.Writing.{set_body};
ghost use Rattle.pb_link_rules.specs.declared.error.LinkError.TheVariants.{Memory};
ghost use Rattle.pb_link.specs.Linking.{Links};
ghost use Rattle.pb_link.specs.ToDecls.{numbered, declared_file, decls_of};
ghost use Rattle.pb_link.specs.Nested.{inside_view, inside_file};

use crate::declaring::nesting::{Inside, nested};
use pb_declarations::FileDecl;
use pb_descr_message::laws::{set_back, writable};
use pb_link_rules::LinkError;
use pb_schema::{FileInfo, Pool};
use std::alloc::{AllocError, Global};

/// The name of an imported file.
fn import_name(alloc: Global, files: &[FileInfo], import: usize) -> Result<String, AllocError>
    ensures { IfOk result (λ s. string_bytes s
        ≡ name_at (map (λ f. f.name) (map view_of_file files.now)) import) }
{
    match files.get(import) {
        Some(file) => {
            let name = file.name.clone()?;
            Ok(name)
        }
        None => Ok(String::new(alloc)),
    }
}

/// The names of imported files.
fn import_names(
    alloc: Global,
    files: &[FileInfo],
    imports: &[usize],
) -> Result<Vec<String>, AllocError>
    ensures { IfOk result (λ v. map string_bytes v.items
        ≡ map (name_at (map (λ f. f.name) (map view_of_file files.now))) imports.now) }
{
    let mut names = Vec::with_capacity(alloc, imports.len())?;
    for import in imports {
        let name = import_name(alloc, files, *import)?;
        names.push(name)?;
    }
    Ok(names)
}

/// The indexes of the imports: 0, 1, ...
fn indexes(alloc: Global, imports: &[usize]) -> Result<Vec<i32>, AllocError>
    requires { length imports.now < 2 ^ 31 }
    ensures { IfOk result (λ v. v.items ≡ map (λ e. pos e.0) (enumerate_from 0 imports.now)) }
{
    let mut indexes = Vec::with_capacity(alloc, imports.len())?;
    for index in 0..imports.len() {
        indexes.push(index as i32)?;
    }
    Ok(indexes)
}

/// The declaration of a file that holds `inside`.
fn file_decl(
    alloc: Global,
    pool: &Pool,
    index: usize,
    inside: Inside,
) -> Result<FileDecl, AllocError>
    requires within { index < length pool.now.files }
    requires inside { inside_view inside ≡ inside_file pool.now
        (numbered pool.now) pool.now.enums index }
    ensures { IfOk result (λ d. (f : FileView) → slice_get pool.now.files index ≡ Some f
        → file_view d ≡ declared_file pool.now (index, f)) }
{
    let file = &pool.files()[index];
    let name = file.name.clone()?;
    let package = file.package.clone()?;
    let imports = import_names(alloc, pool.files(), &file.imports)?;
    let public = indexes(alloc, &file.imports)?;
    let mut messages = inside.messages;
    messages.reverse();
    Ok(FileDecl {
        name,
        package,
        imports,
        public,
        messages,
        enums: inside.enums,
        services: Vec::new(alloc),
        proto2: file.proto2,
    })
}

/// The files of a pool as declarations.
fn pool_decls(alloc: Global, pool: &Pool) -> Result<Vec<FileDecl>, AllocError>
    ensures decls { IfOk result (λ v. map file_view v.items ≡ decls_of pool.now) }
    ensures rules { OnOk result (IsPool pool.now) }
{
    let mut places = nested(alloc, pool)?;
    let mut decls = Vec::with_capacity(alloc, pool.files().len())?;
    while let Some(inside) = places.pop() {
        let index = places.len();
        let decl = file_decl(alloc, pool, index, inside)?;
        decls.push(decl)?;
    }
    decls.reverse();
    Ok(decls)
}

/// The files of a pool as declarations: no services and no reserved parts, each import public, each type number set and each type
/// name written in full after a dot, and entry messages and the oneofs of optional fields made anew.
///
/// Every rule of linking holds of them, and linking them makes the pool's types again. Their set shows no cause, so that its canonical
/// bytes, which `write_set` writes, are a set of them where it nests at most 100 levels deep and has fewer than 2^31 bytes.
///
/// In time and memory by the size of the pool and of the names that its fields mention.
pub fn to_decls(alloc: Global, pool: &Pool) -> Result<Vec<FileDecl>, LinkError>
    ensures decls { IfOk result (λ v. map file_view v.items ≡ decls_of pool.now) }
    ensures linked { IfOk result (λ v. Links (map file_view v.items) pool.now) }
    ensures silent { IfOk result (λ v. set_causes (set_body (map file_view v.items)) ≡ []) }
    ensures set { IfOk result (λ v. IsWithinLimits (map file_view v.items)
        → IsSetOf full (set_bytes (map file_view v.items)) (map file_view v.items)) }
    ensures refused { IfErr result (λ e. e ≡ Memory) }
{
    let decls = pool_decls(alloc, pool)?;
    set_back();
    writable(&decls);
    Ok(decls)
}
