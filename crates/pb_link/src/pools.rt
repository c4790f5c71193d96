//! The parts of the pool of linked declarations.

pub(crate) mod fields;
pub(crate) mod files;
pub(crate) mod parts;
pub(crate) mod tables;
pub(crate) mod types;

ghost use Rattle.std.specs.Prelude.{◌≡◌, map, length, IfOk};
ghost use Rattle.pb_schema.specs.View.{types_of};
ghost use Rattle.pb_declarations.specs.View.{file_view};
ghost use Rattle.pb_graphs.specs.Flat.{lists_of};
ghost use Rattle.pb_link_names.specs.Sees.{files_of};
ghost use Rattle.pb_link_rules.specs.Rules.{World};
ghost use Rattle.pb_link.specs.PoolOf.{pool_of};
ghost use Rattle.pb_link_names.specs.View.{declaration_view, type_names_view};
ghost use Rattle.pb_link_rules.specs.Judged.{IsJudged};
ghost use Rattle.pb_link.specs.Linking.{IsLinked, Links};

use crate::pools::files::files_of;
use crate::pools::parts::PoolParts;
use crate::pools::tables::{Tables, kinds};
use crate::pools::types::{enums_of, messages_of};
use pb_declarations::FileDecl;
use pb_graphs::flat::FlatGraph;
use pb_link_names::declaration::Declaration;
use pb_link_names::found::TypeNames;
use pb_link_rules::judged::Judged;
use std::alloc::{AllocError, Global};

/// The parts of the pool of declarations that link, of which `found` says what their type names came to, and
/// `imports` which files each file imports.
pub(crate) fn linked_parts(
    alloc: Global,
    files: &[FileDecl],
    imports: &FlatGraph,
    row: &[Declaration<'_>],
    found: &[TypeNames],
) -> Result<PoolParts, AllocError>
    requires imports { lists_of imports.now ≡ map (λ f. f.imports)
        (files_of (map file_view files.now)) }
    requires sizes { length found.now ≡ length row.now }
    requires holds { (w : World) × IsLinked (map file_view files.now) (map declaration_view row.now)
        (map type_names_view found.now) w }
    ensures { (w : World) → IsLinked (map file_view files.now) (map declaration_view row.now)
        (map type_names_view found.now) w
        → IfOk result (λ p. types_of p.files.items p.messages.items p.enums.items
        ≡ pool_of (map file_view files.now) w) }
{
    let tables = Tables {
        files,
        row,
        found,
        kinds: kinds(alloc, files, row)?,
    };
    let infos = files_of(alloc, files, imports)?;
    let messages = messages_of(alloc, &tables)?;
    let enums = enums_of(alloc, &tables)?;
    Ok(PoolParts {
        files: infos,
        messages,
        enums,
    })
}

/// The parts of the pool of files of which every rule holds.
pub(crate) fn parts_of_names(
    alloc: Global,
    files: &[FileDecl],
    judged: &Judged,
) -> Result<PoolParts, AllocError>
    requires { IsJudged (map file_view files.now) judged.now }
    ensures { IfOk result (λ p. Links (map file_view files.now)
        (types_of p.files.items p.messages.items p.enums.items)) }
{
    let row = judged.row.as_slice();
    let found = judged.names.found.as_slice();
    match linked_parts(alloc, files, &judged.imports.all, row, found) {
        Ok(parts) => Ok(parts),
        Err(error) => Err(error),
    }
}
