//! The first file that reaches itself by imports.

ghost use Rattle.std.specs.Prelude.{◌≡◌, ◌<◌, ◌↔◌, ℕ, List, IsTrue, All, IfOk, OnOk, not, length, vec_len};
ghost use Rattle.pb_declarations.specs.Decls.{DeclaredFile};
ghost use Rattle.pb_link_rules.specs.declared.cause.LinkCause.TheVariants.{ImportCycle};
ghost use Rattle.pb_link_names.specs.Components.{number_of, NeverRise};
ghost use Rattle.pb_link_rules.specs.Rules.{World};
ghost use Rattle.pb_link_rules.specs.Link.{holds, IsWorldOf};
ghost use Rattle.pb_graphs.specs.Cycles.{LeadsOn};
ghost use Rattle.pb_graphs.specs.Flat.{lists_of};
ghost use Rattle.pb_graphs.specs.Reach.{IsListed};
ghost use Rattle.pb_link_names.specs.Graphs.{AreImports, LeadToFiles};
ghost use Rattle.pb_link_names.specs.View.{declaration_view};
ghost use Rattle.pb_link_rules.specs.Tables.{TellsFirstCycle};

use pb_graphs::cycles::is_acyclic;
use pb_graphs::reach::{Graph, Reach};
use pb_link_names::components::{component_numbers, number_of};
use pb_link_names::declaration::Declaration;
use pb_link_names::imports::Imports;
use pb_link_names::type_refs::file_in;
use std::alloc::{AllocError, Global};

fn are_below(numbers: &[usize], indexes: &[usize], bound: usize) -> bool
    ensures { IsTrue result ↔ All (λ j. number_of numbers.now j < bound) indexes.now }
{
    for index in indexes {
        if number_of(numbers, *index) >= bound {
            return false;
        }
    }
    true
}

/// Whether a file reaches itself. What it reaches is walked only where an import has the file's number.
fn is_cyclic(
    reach: &mut Reach,
    imports: &Imports,
    numbers: &[usize],
    file: usize,
) -> Result<bool, AllocError>
    requires lead { LeadToFiles imports.now }
    requires numbers { NeverRise (lists_of imports.now.all) numbers.now }
    requires listed { IsListed reach.old }
    requires size { vec_len reach.old.bits ≡ length (lists_of imports.now.all) }
    ensures listed { OnOk result (IsListed reach.new) }
    ensures size { OnOk result (vec_len reach.new.bits ≡ length (lists_of imports.now.all)) }
    ensures exact { IfOk result (λ b. IsTrue b ↔ LeadsOn (lists_of imports.now.all) file file) }
{
    let number = number_of(numbers, file);
    if are_below(numbers, imports.all.next(file), number) {
        return Ok(false);
    }
    reach.reach(&imports.all, imports.all.next(file))?;
    Ok(reach.is_marked(file))
}

/// Whether a declaration is that of a file that reaches itself.
fn is_cycle_at(
    reach: &mut Reach,
    imports: &Imports,
    numbers: &[usize],
    declaration: &Declaration,
) -> Result<bool, AllocError>
    requires lead { LeadToFiles imports.now }
    requires numbers { NeverRise (lists_of imports.now.all) numbers.now }
    requires listed { IsListed reach.old }
    requires size { vec_len reach.old.bits ≡ length (lists_of imports.now.all) }
    ensures listed { OnOk result (IsListed reach.new) }
    ensures size { OnOk result (vec_len reach.new.bits ≡ length (lists_of imports.now.all)) }
    ensures exact { IfOk result (λ b. (files : List DeclaredFile) (w : World) (place : ℕ) → AreImports files imports.now → IsWorldOf files w
        → b ≡ not (holds w place (declaration_view declaration.now) ImportCycle)) }
{
    let Some(_) = file_in(declaration.item) else {
        return Ok(false);
    };
    let is_cyclic = is_cyclic(reach, imports, numbers, declaration.file)?;
    Ok(is_cyclic)
}

/// The place of the first file that reaches itself, if one does. Later files are not looked at, so at most one file's imports are walked.
fn find_cycle(
    alloc: Global,
    row: &[Declaration],
    imports: &Imports,
) -> Result<Option<usize>, AllocError>
    requires { LeadToFiles imports.now }
    ensures { IfOk result (TellsFirstCycle imports.now row.now) }
{
    let numbers = component_numbers(alloc, &imports.all)?;
    let mut reach = Reach::new(alloc, imports.all.len())?;
    for (place, declaration) in row.iter().enumerate() {
        if is_cycle_at(&mut reach, imports, &numbers, declaration)? {
            return Ok(Some(place));
        }
    }
    Ok(None)
}

/// The place of the first file that reaches itself. Most sets have none, and one quick walk finds that.
pub(crate) fn first_cycle(
    alloc: Global,
    row: &[Declaration],
    imports: &Imports,
) -> Result<Option<usize>, AllocError>
    requires { LeadToFiles imports.now }
    ensures { IfOk result (TellsFirstCycle imports.now row.now) }
{
    let free = is_acyclic(alloc, &imports.all)?;
    if free {
        return Ok(None);
    }
    let first = find_cycle(alloc, row, imports)?;
    Ok(first)
}
