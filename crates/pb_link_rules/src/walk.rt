//! The first declaration at which a rule fails.

ghost use Rattle.std.specs.Prelude.{◌≡◌, map};
ghost use Rattle.pb_declarations.specs.View.{file_view};
ghost use Rattle.pb_link_rules.specs.Rules.{World};
ghost use Rattle.pb_link_names.specs.View.{declaration_view};
ghost use Rattle.pb_link_rules.specs.Link.{first_fault};
ghost use Rattle.pb_link_rules.specs.Tables.{AreTablesOf};

use crate::cause::LinkCause;
use crate::judge::judge;
use crate::names::{Names, at_place};
use pb_declarations::FileDecl;
use pb_link_names::declaration::Declaration;

/// The first place at which a rule fails, and the least cause there.
pub(crate) fn first_fault(
    files: &[FileDecl],
    row: &[Declaration],
    names: &Names,
    map_marks: &[bool],
) -> Option<(usize, LinkCause)>
    ensures { (w : World) → w.files ≡ map file_view files.now → AreTablesOf w (map declaration_view row.now) names.now map_marks.now
        → result ≡ first_fault w 0 w.declared }
{
    for (place, declaration) in row.iter().enumerate() {
        let at = at_place(names, map_marks, place);
        if let Some(cause) = judge(files, row, declaration, at) {
            return Some((place, cause));
        }
    }
    None
}
