//! Whether declarations link, or their least fault.

ghost use Rattle.std.specs.Prelude.{◌≡◌, ⊤, ℕ, List, map, IfOk, IfErr, IsErrAnd, MatchResult};
ghost use Rattle.pb_declarations.specs.View.{file_view};
ghost use Rattle.pb_link_rules.specs.declared.cause.LinkCause.{LinkCause as CauseValue};
ghost use Rattle.pb_link_rules.specs.declared.error.LinkError.TheVariants.{Memory};
ghost use Rattle.pb_link_names.specs.Declarations.{full_name};
ghost use Rattle.pb_link_rules.specs.Rules.{World};
ghost use Rattle.pb_link_rules.specs.Link.{IsWorldOf, NothingFails};
ghost use Rattle.pb_link_rules.specs.Faults.{LinkFault, IsUnlinked, TellsLinkFault};
ghost use Rattle.pb_link_rules.specs.Tables.{AreTablesOf};
ghost use Rattle.pb_link_names.specs.View.{declaration_view};

use crate::cause::LinkCause;
use crate::error::LinkError;
use crate::names::Names;
use crate::walk::first_fault;
use pb_declarations::FileDecl;
use pb_link_names::declaration::Declaration;
use std::alloc::AllocError;

/// The fault that a declaration of a file has.
fn fault_of(
    file: &FileDecl,
    declaration: &Declaration,
    cause: LinkCause,
) -> Result<LinkError, AllocError>
    ensures { IfOk result (TellsLinkFault (file_view file.now).name (full_name (declaration_view declaration.now)) cause) }
{
    Ok(LinkError::Fault {
        file: file.name.clone()?,
        full_name: declaration.full_name.clone()?,
        cause,
    })
}

/// Nothing where no rule fails, and else the first fault, by the tables of what the rules come to.
pub(crate) fn verdict(
    files: &[FileDecl],
    row: &[Declaration],
    names: &Names,
    map_marks: &[bool],
) -> Result<(), LinkError>
    requires { (w : World) × IsWorldOf (map file_view files.now) w × AreTablesOf w (map declaration_view row.now) names.now map_marks.now }
    ensures held { IfOk result (λ _. (w : World) → IsWorldOf (map file_view files.now) w → NothingFails w) }
    ensures refused { IfErr result (IsUnlinked (map file_view files.now)) }
    ensures accepted { (w : World) → IsWorldOf (map file_view files.now) w → NothingFails w → MatchResult result (λ _. ⊤) (λ e. e ≡ Memory) }
    ensures fault { (file name : List ℕ) (c : CauseValue) → LinkFault (map file_view files.now) file name c → IsErrAnd result (TellsLinkFault file name c) }
{
    let Some((place, cause)) = first_fault(files, row, names, map_marks) else {
        return Ok(());
    };
    let declaration = &row[place];
    let file = &files[declaration.file];
    Err(fault_of(file, declaration, cause)?)
}
