//! The pool of declarations, or their least fault.

ghost use Rattle.std.specs.Prelude.{◌≡◌, ℕ, List, map, IfOk, IfErr, IsErrAnd, MatchResult};
ghost use Rattle.pb_schema.specs.Types.{Types};
ghost use Rattle.pb_schema.specs.View.{types_of};
ghost use Rattle.pb_declarations.specs.View.{file_view};
ghost use Rattle.pb_link_rules.specs.declared.cause.LinkCause.{LinkCause as CauseValue};
ghost use Rattle.pb_link_rules.specs.declared.error.LinkError.TheVariants.{Memory};
ghost use Rattle.pb_link.specs.Linking.{Links};
ghost use Rattle.pb_link_rules.specs.Faults.{LinkFault, IsUnlinked, TellsLinkFault};
ghost use Rattle.pb_link_rules.specs.Judged.{IsJudged};

use crate::pools::parts::PoolParts;
use crate::pools::parts_of_names;
use pb_declarations::FileDecl;
use pb_link_rules::LinkError;
use pb_link_rules::judged::{Judged, judge_files};
use pb_schema::Pool;
use std::alloc::Global;

/// The pool of the parts that files make.
fn pool_of_parts(alloc: Global, files: &[FileDecl], parts: PoolParts) -> Result<Pool, LinkError>
    requires { Links (map file_view files.now)
        (types_of parts.files.items parts.messages.items parts.enums.items) }
    ensures made { IfOk result (Links (map file_view files.now)) }
    ensures memory { IfErr result (λ e. e ≡ Memory) }
{
    match Pool::from_known_parts(alloc, parts.files, parts.messages, parts.enums) {
        Ok(pool) => Ok(pool),
        Err(_) => Err(LinkError::Memory),
    }
}

/// The pool of files of which every rule holds. It drops the judged declarations, with their full names,
/// before it makes the tables of the pool, so that both are never in memory together.
fn pool_of_judged(alloc: Global, files: &[FileDecl], judged: Judged) -> Result<Pool, LinkError>
    requires { IsJudged (map file_view files.now) judged }
    ensures made { IfOk result (Links (map file_view files.now)) }
    ensures memory { IfErr result (λ e. e ≡ Memory) }
{
    match parts_of_names(alloc, files, &judged) {
        Ok(parts) => {
            drop(judged);
            pool_of_parts(alloc, files, parts)
        }
        Err(_) => Err(LinkError::Memory),
    }
}

/// The pool of the declarations, if every rule of linking holds. Else the first fault: by file, then by declaration, then by the
/// cause's number.
pub fn link(alloc: Global, files: &[FileDecl]) -> Result<Pool, LinkError>
    ensures made { IfOk result (Links (map file_view files.now)) }
    ensures refused { IfErr result (IsUnlinked (map file_view files.now)) }
    ensures accepted { (types : Types) → Links (map file_view files.now) types
        → MatchResult result (λ pool. pool ≡ types) (λ e. e ≡ Memory) }
    ensures fault { (file name : List ℕ) (c : CauseValue)
        → LinkFault (map file_view files.now) file name c
        → IsErrAnd result (TellsLinkFault file name c) }
{
    match judge_files(alloc, files) {
        Ok(judged) => pool_of_judged(alloc, files, judged),
        Err(error) => Err(error),
    }
}
