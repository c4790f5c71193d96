//! What the rules of files, names and type names come to.

ghost use Rattle.std.specs.Prelude.{◌≡◌, List, map, take, Some, IfOk, OnOk};
ghost use Rattle.pb_declarations.specs.Decls.{DeclaredFile};
ghost use Rattle.pb_declarations.specs.View.{file_view};
ghost use Rattle.pb_link_names.specs.Declarations.{declarations};
ghost use Rattle.pb_link_names.specs.Lookup.{looked_up};
ghost use Rattle.pb_link_rules.specs.Rules.{World, lookups};
ghost use Rattle.pb_link_rules.specs.Link.{IsWorldOf};
ghost use Rattle.pb_link_names.specs.View.{declaration_view, type_names_view};
ghost use Rattle.pb_link_names.specs.Graphs.{AreImports, AreFirst, LeadToFiles, sees_by};
ghost use Rattle.pb_link_names.specs.Scene.{IsScene};
ghost use Rattle.pb_link_rules.specs.Tables.{AreFileTables, AreNameTables, AreNamesOf};
ghost use Rattle.pb_link_names.specs.TypeRefs.{refs_view};
ghost use Rattle.pb_link_rules.specs.Flags.{IsReady};

use crate::cycles::first_cycle;
use crate::flags::{first_files, free_names, right_imports};
use crate::names::Names;
use pb_declarations::FileDecl;
use pb_link_names::declaration::Declaration;
use pb_link_names::found::TypeNames;
use pb_link_names::imports::Imports;
use pb_link_names::packages::{all_packages, seen_packages};
use pb_link_names::places::Places;
use pb_link_names::scene::Scene;
use pb_link_names::sight::Sight;
use pb_link_names::type_refs::{TypeRefs, refs_of};
use pb_link_names::words::words_of;
use std::alloc::{AllocError, Global};

fn front(bytes: &[u8], len: usize) -> &[u8]
    ensures { result.now ≡ take len bytes.now }
{
    if len < bytes.len() {
        return &bytes[..len];
    }
    bytes
}

/// Goes over to what a file sees, where that is not at hand.
fn look_from(
    scene: &mut Scene,
    alloc: Global,
    files: &[FileDecl],
    imports: &Imports,
    file: usize,
) -> Result<(), AllocError>
    requires { IsReady (map file_view files.now) imports.now scene.old }
    ensures ready { OnOk result (IsReady (map file_view files.now) imports.now scene.new) }
    ensures file { OnOk result (scene.new.sight.file ≡ Some file) }
{
    if scene.sight.file == Some(file) {
        return Ok(());
    }
    scene.sight.look(imports, file)?;
    scene.seen = seen_packages(alloc, files, &scene.sight)?;
    Ok(())
}

fn look_up_refs(
    scene: &Scene,
    alloc: Global,
    row: &[Declaration],
    scope: &[u8],
    refs: TypeRefs,
) -> Result<TypeNames, AllocError>
    requires { IsScene (map declaration_view row.now) scene.now }
    ensures { IfOk result (λ t. type_names_view t ≡ map (looked_up (map declaration_view row.now) (sees_by scene.now.sight) scope.now) (refs_view refs.entry)) }
{
    match refs {
        TypeRefs::None => Ok(TypeNames::None),
        TypeRefs::One(name) => {
            let found = scene.look_up(alloc, row, scope, name.as_str().as_bytes())?;
            Ok(TypeNames::One(found))
        }
        TypeRefs::Two(input, output) => {
            let taken = scene.look_up(alloc, row, scope, input.as_str().as_bytes())?;
            let given = scene.look_up(alloc, row, scope, output.as_str().as_bytes())?;
            Ok(TypeNames::Two(taken, given))
        }
    }
}

/// What the type names of a declaration come to. What its file sees is found out only where there are any.
fn type_names_at(
    scene: &mut Scene,
    alloc: Global,
    files: &[FileDecl],
    row: &[Declaration],
    imports: &Imports,
    declaration: &Declaration,
) -> Result<TypeNames, AllocError>
    requires row { map declaration_view row.now ≡ declarations (map file_view files.now) }
    requires ready { IsReady (map file_view files.now) imports.now scene.old }
    ensures ready { OnOk result (IsReady (map file_view files.now) imports.now scene.new) }
    ensures found { IfOk result (λ t. (w : World) → IsWorldOf (map file_view files.now) w → type_names_view t ≡ lookups w (declaration_view declaration.now)) }
{
    let refs = refs_of(declaration.item);
    if let TypeRefs::None = refs {
        return Ok(TypeNames::None);
    }
    look_from(scene, alloc, files, imports, declaration.file)?;
    let scope = front(
        declaration.full_name.as_str().as_bytes(),
        declaration.scope_len,
    );
    let names = look_up_refs(scene, alloc, row, scope, refs)?;
    Ok(names)
}

fn type_names(
    scene: &mut Scene,
    alloc: Global,
    files: &[FileDecl],
    row: &[Declaration],
    imports: &Imports,
) -> Result<Vec<TypeNames>, AllocError>
    requires row { map declaration_view row.now ≡ declarations (map file_view files.now) }
    requires ready { IsReady (map file_view files.now) imports.now scene.old }
    ensures { IfOk result (λ v. (w : World) → IsWorldOf (map file_view files.now) w
        → map type_names_view v.items ≡ map (lookups w) (map declaration_view row.now)) }
{
    let mut found: Vec<TypeNames> = Vec::with_capacity(alloc, row.len())?;
    for declaration in row {
        let names = type_names_at(scene, alloc, files, row, imports, declaration)?;
        found.push(names)?;
    }
    Ok(found)
}

fn scene_of<'a>(
    alloc: Global,
    files: &[FileDecl],
    row: &'a [Declaration],
    imports: &Imports,
) -> Result<Scene<'a>, AllocError>
    requires row { map declaration_view row.now ≡ declarations (map file_view files.now) }
    requires exact { AreImports (map file_view files.now) imports.now }
    requires lead { LeadToFiles imports.now }
    ensures { IfOk result (IsReady (map file_view files.now) imports.now) }
{
    let places = Places::new(alloc, row)?;
    let packages = all_packages(alloc, files)?;
    let words = words_of(alloc, row)?;
    let sight = Sight::new(alloc, imports)?;
    let seen = seen_packages(alloc, files, &sight)?;
    Ok(Scene {
        places,
        packages,
        words,
        sight,
        seen,
    })
}

/// What the type names of all declarations come to, by place.
pub(crate) fn found_names(
    alloc: Global,
    files: &[FileDecl],
    row: &[Declaration],
    imports: &Imports,
) -> Result<Vec<TypeNames>, AllocError>
    requires row { map declaration_view row.now ≡ declarations (map file_view files.now) }
    requires exact { AreImports (map file_view files.now) imports.now }
    requires lead { LeadToFiles imports.now }
    ensures { IfOk result (λ v. (w : World) → IsWorldOf (map file_view files.now) w
        → map type_names_view v.items ≡ map (lookups w) (map declaration_view row.now)) }
{
    let mut scene = scene_of(alloc, files, row, imports)?;
    let found = type_names(&mut scene, alloc, files, row, imports)?;
    Ok(found)
}

/// What the rules of files come to, by place: whether its name is the first, whether its imports are there, and the first cycle.
fn file_tables(
    alloc: Global,
    row: &[Declaration],
    imports: &Imports,
) -> Result<(Vec<bool>, Vec<bool>, Option<usize>), AllocError>
    requires { LeadToFiles imports.now }
    ensures { IfOk result (λ t. (files : List DeclaredFile) (w : World) → AreImports files imports.now → AreFirst files imports.now → IsWorldOf files w
        → w.declared ≡ map declaration_view row.now → AreFileTables w t.0.items t.1.items t.2) }
{
    let file_is_first = first_files(alloc, row, imports)?;
    let imports_are_there = right_imports(alloc, row, imports)?;
    let first_cycle = first_cycle(alloc, row, imports)?;
    Ok((file_is_first, imports_are_there, first_cycle))
}

/// What the rule of free names and the type names come to, by place.
fn name_tables(
    alloc: Global,
    files: &[FileDecl],
    row: &[Declaration],
    imports: &Imports,
) -> Result<(Vec<bool>, Vec<TypeNames>), AllocError>
    requires row { map declaration_view row.now ≡ declarations (map file_view files.now) }
    requires exact { AreImports (map file_view files.now) imports.now }
    requires lead { LeadToFiles imports.now }
    ensures { IfOk result (λ t. (w : World) → IsWorldOf (map file_view files.now) w → AreNameTables w t.0.items t.1.items) }
{
    let mut scene = scene_of(alloc, files, row, imports)?;
    let is_free = free_names(alloc, row, &scene)?;
    let found = type_names(&mut scene, alloc, files, row, imports)?;
    Ok((is_free, found))
}

/// What the rules of files, names and type names come to.
pub(crate) fn names_of(
    alloc: Global,
    files: &[FileDecl],
    row: &[Declaration],
    imports: &Imports,
) -> Result<Names, AllocError>
    requires row { map declaration_view row.now ≡ declarations (map file_view files.now) }
    requires exact { AreImports (map file_view files.now) imports.now }
    requires lead { LeadToFiles imports.now }
    requires first { AreFirst (map file_view files.now) imports.now }
    ensures { IfOk result (λ n. (w : World) × IsWorldOf (map file_view files.now) w × AreNamesOf w n) }
{
    let (file_is_first, imports_are_there, first_cycle) = file_tables(alloc, row, imports)?;
    let (is_free, found) = name_tables(alloc, files, row, imports)?;
    Ok(Names {
        file_is_first,
        imports_are_there,
        first_cycle,
        is_free,
        found,
    })
}
