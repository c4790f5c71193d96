//! Whether the rules of files and names hold, by place.

ghost use Rattle.std.specs.Prelude.{◌≡◌, List, map, IfOk};
ghost use Rattle.std.specs.List.{list_all, enumerate_from};
ghost use Rattle.pb_declarations.specs.View.{file_view};
ghost use Rattle.pb_link_names.specs.Declarations.{Declaration as DeclarationView};
ghost use Rattle.pb_link_rules.specs.Rules.{is_import_index};
ghost use Rattle.pb_link_names.specs.View.{declaration_view};
ghost use Rattle.pb_link_names.specs.PackageSets.{IsPackageSet};
ghost use Rattle.pb_link_names.specs.Scene.{IsScene};
ghost use Rattle.pb_link_rules.specs.Flags.{is_marked_first, are_right_imports, are_imports_there, is_free_name, is_not_before};

use pb_declarations::FileDecl;
use pb_graphs::reach::Graph;
use pb_link_names::declaration::Declaration;
use pb_link_names::imports::Imports;
use pb_link_names::scene::Scene;
use pb_link_names::type_refs::file_in;
use std::alloc::{AllocError, Global};

/// A file has fewer imports.
const MANY_IMPORTS: usize = 2_147_483_648;

/// Whether a file is the first of its name; true at what is no file.
fn is_marked_first(imports: &Imports, declaration: &Declaration) -> bool
    ensures { result ≡ is_marked_first imports.now (declaration_view declaration.now) }
{
    let Some(_) = file_in(declaration.item) else {
        return true;
    };
    match imports.are_first.get(declaration.file) {
        Some(is_first) => *is_first,
        None => false,
    }
}

/// Whether each file is the first of its name.
pub(crate) fn first_files(
    alloc: Global,
    row: &[Declaration],
    imports: &Imports,
) -> Result<Vec<bool>, AllocError>
    ensures { IfOk result (λ v. v.items ≡ map (is_marked_first imports.now) (map declaration_view row.now)) }
{
    let mut flags: Vec<bool> = Vec::with_capacity(alloc, row.len())?;
    for declaration in row {
        flags.push(is_marked_first(imports, declaration))?;
    }
    Ok(flags)
}

fn is_import_index(file: &FileDecl, index: i32) -> bool
    ensures { result ≡ is_import_index (file_view file.now) index }
{
    if index < 0 {
        return false;
    }
    (index as usize) < file.imports.len()
}

fn are_indexes_there(file: &FileDecl, indexes: &[i32]) -> bool
    ensures { result ≡ list_all (is_import_index (file_view file.now)) indexes.now }
{
    for index in indexes {
        if !is_import_index(file, *index) {
            return false;
        }
    }
    true
}

/// Whether the imports of a file are right. `found` of them name files.
fn are_right_imports(found: usize, file: &FileDecl) -> bool
    ensures { result ≡ are_right_imports found (file_view file.now) }
{
    file.imports.len() < MANY_IMPORTS
        && found == file.imports.len()
        && are_indexes_there(file, &file.public)
}

fn has_right_imports(imports: &Imports, declaration: &Declaration) -> bool
    ensures { result ≡ are_imports_there imports.now (declaration_view declaration.now) }
{
    let found = imports.all.next(declaration.file).len();
    match file_in(declaration.item) {
        Some(file) => are_right_imports(found, file),
        None => true,
    }
}

/// Whether the imports of each file are right.
pub(crate) fn right_imports(
    alloc: Global,
    row: &[Declaration],
    imports: &Imports,
) -> Result<Vec<bool>, AllocError>
    ensures { IfOk result (λ v. v.items ≡ map (are_imports_there imports.now) (map declaration_view row.now)) }
{
    let mut flags: Vec<bool> = Vec::with_capacity(alloc, row.len())?;
    for declaration in row {
        flags.push(has_right_imports(imports, declaration))?;
    }
    Ok(flags)
}

fn is_not_before(place: usize, first: Option<usize>) -> bool
    ensures { result ≡ is_not_before place first }
{
    match first {
        Some(first) => place <= first,
        None => true,
    }
}

fn is_free(scene: &Scene, place: usize, declaration: &Declaration) -> bool
    requires { IsPackageSet scene.now.packages }
    ensures { (ds : List DeclarationView) → IsScene ds scene.now → result ≡ is_free_name ds (place, declaration_view declaration.now) }
{
    if !declaration.marks.is_named {
        return true;
    }
    let name = declaration.full_name.as_str().as_bytes();
    if !is_not_before(place, scene.places.firsts.get(name)) {
        return false;
    }
    !scene.packages.contains(name)
}

/// Whether each full name is free.
pub(crate) fn free_names(
    alloc: Global,
    row: &[Declaration],
    scene: &Scene,
) -> Result<Vec<bool>, AllocError>
    requires { IsScene (map declaration_view row.now) scene.now }
    ensures { IfOk result (λ v. v.items ≡ map (is_free_name (map declaration_view row.now)) (enumerate_from 0 (map declaration_view row.now))) }
{
    let mut flags: Vec<bool> = Vec::with_capacity(alloc, row.len())?;
    for (place, declaration) in row.iter().enumerate() {
        flags.push(is_free(scene, place, declaration))?;
    }
    Ok(flags)
}
