//! Files that are judged by all rules.

ghost use Rattle.std.specs.Prelude.{◌≡◌, ⊤, ℕ, List, map, IfOk, IfErr, IsErrAnd, MatchResult};
ghost use Rattle.pb_declarations.specs.View.{file_view};
ghost use Rattle.pb_link_rules.specs.declared.cause.LinkCause.{LinkCause as CauseValue};
ghost use Rattle.pb_link_rules.specs.declared.error.LinkError.TheVariants.{Memory};
ghost use Rattle.pb_link_rules.specs.Rules.{World};
ghost use Rattle.pb_link_rules.specs.Link.{IsWorldOf, NothingFails};
ghost use Rattle.pb_link_rules.specs.Faults.{LinkFault, IsUnlinked, TellsLinkFault};
ghost use Rattle.pb_link_rules.specs.Judged.{IsJudged};

use crate::error::LinkError;
use crate::names::Names;
use crate::naming::names_of;
use crate::rules::maps::map_marks;
use crate::verdict::verdict;
use pb_declarations::FileDecl;
use pb_link_names::declaration::Declaration;
use pb_link_names::declared::row;
use pb_link_names::imports::Imports;
use std::alloc::Global;

/// Files of which every rule holds.
#[derive(Drop)]
pub struct Judged<'a> {
    /// All that they declare, in declaration order.
    pub row: Vec<Declaration<'a>>,
    /// Which files each file imports.
    pub imports: Imports,
    /// What the rules of files, names and type names come to, by place.
    pub names: Names,
}

/// Judges files by all rules, or reports the first fault: by file, then by declaration, then by the cause's number.
pub fn judge_files<'a>(alloc: Global, files: &'a [FileDecl]) -> Result<Judged<'a>, LinkError>
    ensures judged { IfOk result (IsJudged (map file_view files.now)) }
    ensures refused { IfErr result (IsUnlinked (map file_view files.now)) }
    ensures accepted { (w : World) → IsWorldOf (map file_view files.now) w → NothingFails w → MatchResult result (λ _. ⊤) (λ e. e ≡ Memory) }
    ensures fault { (file name : List ℕ) (c : CauseValue) → LinkFault (map file_view files.now) file name c → IsErrAnd result (TellsLinkFault file name c) }
{
    let row = row(alloc, files)?;
    let imports = Imports::new(alloc, files)?;
    let names = names_of(alloc, files, &row, &imports)?;
    let marks = map_marks(alloc, &row, &names.found)?;
    match verdict(files, &row, &names, &marks) {
        Ok(()) => Ok(Judged {
            row,
            imports,
            names,
        }),
        Err(error) => Err(error),
    }
}
