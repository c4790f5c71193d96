//! Declarations with their types resolved.

pub(crate) mod enum_maps;
mod enums;
mod fields;
mod files;
mod messages;
mod services;
mod types;
mod upcoming;

ghost use Rattle.std.specs.Prelude.{◌≡◌, ℕ, List, map, IfOk, IfErr, IsErrAnd, MatchResult};
ghost use Rattle.pb_declarations.specs.Decls.{DeclaredFile};
ghost use Rattle.pb_declarations.specs.View.{file_view};
ghost use Rattle.pb_link_rules.specs.declared.cause.LinkCause.{LinkCause as CauseValue};
ghost use Rattle.pb_link_rules.specs.declared.error.LinkError.TheVariants.{Memory};
ghost use Rattle.pb_link_rules.specs.Faults.{LinkFault, IsUnlinked, TellsLinkFault};
ghost use Rattle.pb_link.specs.Resolved.{Resolves};

use crate::resolving::files::resolve_files;
use pb_declarations::FileDecl;
use pb_link_rules::LinkError;
use pb_link_rules::judged::judge_files;
use std::alloc::Global;

/// The same files with every type number set and every type name written in full after a leading dot, if every rule of linking
/// holds. Else the first fault, as `link` reports it.
pub fn resolve(alloc: Global, files: &[FileDecl]) -> Result<Vec<FileDecl>, LinkError>
    ensures resolved { IfOk result
        (λ v. Resolves (map file_view files.now) (map file_view v.items)) }
    ensures refused { IfErr result (IsUnlinked (map file_view files.now)) }
    ensures accepted { (answer : List DeclaredFile) → Resolves (map file_view files.now) answer
        → MatchResult result (λ v. map file_view v.items ≡ answer) (λ e. e ≡ Memory) }
    ensures fault { (file name : List ℕ) (c : CauseValue)
        → LinkFault (map file_view files.now) file name c
        → IsErrAnd result (TellsLinkFault file name c) }
{
    match judge_files(alloc, files) {
        Ok(judged) => {
            let resolved = resolve_files(alloc, &judged.row, &judged.names.found, files)?;
            Ok(resolved)
        }
        Err(error) => Err(error),
    }
}
