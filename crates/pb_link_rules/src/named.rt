//! Files whose type names were looked up, whether or not a rule fails.

ghost use Rattle.std.specs.Prelude.{map, IfOk};
ghost use Rattle.pb_declarations.specs.View.{file_view};
ghost use Rattle.pb_link_rules.specs.Named.{IsNamed};

use crate::naming::found_names;
use pb_declarations::FileDecl;
use pb_link_names::declaration::Declaration;
use pb_link_names::declared::row;
use pb_link_names::found::TypeNames;
use pb_link_names::imports::Imports;
use std::alloc::{AllocError, Global};

/// Files with what their type names come to.
#[derive(Drop)]
pub struct Named<'a> {
    /// All that they declare, in declaration order.
    pub row: Vec<Declaration<'a>>,
    /// What the type names of each declaration come to, by place.
    pub found: Vec<TypeNames>,
}

/// Looks up the type names of all declarations of files.
pub fn named_files<'a>(alloc: Global, files: &'a [FileDecl]) -> Result<Named<'a>, AllocError>
    ensures { IfOk result (IsNamed (map file_view files.now)) }
{
    let row = row(alloc, files)?;
    let imports = Imports::new(alloc, files)?;
    let found = found_names(alloc, files, &row, &imports)?;
    Ok(Named { row, found })
}
