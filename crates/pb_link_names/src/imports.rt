//! Which files each file imports, by their indexes.

ghost use Rattle.std.specs.Prelude.{◌≡◌, ◌&&◌, ℕ, List, length, false, not, map, string_bytes};
ghost use Rattle.std.specs.Prelude.{filter_map, option_and_then, option_to_list, slice_get, IfOk, OnOk};
ghost use Rattle.std.specs.List.{slice_index_or};
ghost use Rattle.pb_declarations.specs.Decls.{DeclaredFile};
ghost use Rattle.pb_declarations.specs.View.{file_view};
ghost use Rattle.pb_graphs.specs.Flat.{IsLaid, Grows};
ghost use Rattle.pb_link_names.specs.Sees.{file_named, file_of, public_file_of};
ghost use Rattle.pb_link_names.specs.Firsts.{first_at};
ghost use Rattle.pb_link_names.specs.Graphs.{target_at, is_file, first_marks, joined_names, AreImports, AreFirst, LeadToFiles};

use crate::firsts::Firsts;
use pb_declarations::FileDecl;
use pb_graphs::flat::FlatGraph;
use std::alloc::{AllocError, Global};

/// The imports of each file, and those that are public. An import whose file is not there is left out.
#[derive(Drop)]
pub struct Imports {
    pub all: FlatGraph,
    pub public: FlatGraph,
    /// Whether each file is the first of its name.
    pub are_first: Vec<bool>,
}

/// Takes the mark of a file that is not the first of its name.
fn unmark(marks: &mut Vec<bool>, file: Option<usize>)
    ensures size { length marks.new.items ≡ length marks.old.items }
    ensures unmarked { (i : ℕ) → slice_index_or marks.new.items i false ≡ (slice_index_or marks.old.items i false && not (is_file file i)) }
{
    let Some(file) = file else {
        return;
    };
    if file >= marks.len() {
        return;
    }
    marks[file] = false;
}

/// The names of all files in one buffer, in order. Look-ups then touch little memory, wherever the declarations keep the names.
fn joined_names(alloc: Global, files: &[FileDecl]) -> Result<Vec<u8>, AllocError>
    ensures { IfOk result (λ v. v.items ≡ joined_names (map file_view files.now)) }
{
    let mut names: Vec<u8> = Vec::new(alloc);
    for file in files {
        names.extend_from_slice(file.name.as_str().as_bytes())?;
    }
    Ok(names)
}

/// The first file of each name, and of each file whether it is that one. The names are those of the files, joined.
fn files_by_name<'a>(
    alloc: Global,
    files: &[FileDecl],
    names: &'a [u8],
) -> Result<(Firsts<'a>, Vec<bool>), AllocError>
    requires { names.now ≡ joined_names (map file_view files.now) }
    ensures named { IfOk result (λ r. (name : List ℕ) → first_at r.0 name ≡ file_named (map file_view files.now) name) }
    ensures marked { IfOk result (λ r. r.1.items ≡ first_marks (file_named (map file_view files.now)) (map file_view files.now)) }
{
    let mut firsts = Firsts::new(alloc);
    let mut marks: Vec<bool> = vec![in alloc; false; files.len()]?;
    let mut index = files.len();
    let mut end = names.len();
    while index > 0 {
        index -= 1;
        let start = end - files[index].name.len();
        let later = firsts.put(&names[start..end], index)?;
        unmark(&mut marks, later);
        marks[index] = true;
        end = start;
    }
    Ok((firsts, marks))
}

/// The file that each import names.
fn targets(
    alloc: Global,
    firsts: &Firsts,
    names: &[String],
) -> Result<Vec<Option<usize>>, AllocError>
    ensures { IfOk result (λ v. v.items ≡ map (first_at firsts.now) (map string_bytes names.now)) }
{
    let mut targets: Vec<Option<usize>> = Vec::with_capacity(alloc, names.len())?;
    for name in names {
        targets.push(firsts.get(name.as_str().as_bytes()))?;
    }
    Ok(targets)
}

fn push_target(graph: &mut FlatGraph, target: Option<usize>) -> Result<(), AllocError>
    requires { IsLaid graph.old }
    ensures { OnOk result (Grows (option_to_list target) graph.old graph.new) }
{
    let Some(index) = target else {
        return Ok(());
    };
    graph.push_target(index)?;
    Ok(())
}

fn target_of(targets: &[Option<usize>], index: usize) -> Option<usize>
    ensures { result ≡ option_and_then (λ o. o) (slice_get targets.now index) }
{
    match targets.get(index) {
        Some(target) => *target,
        None => None,
    }
}

fn push_all(graph: &mut FlatGraph, targets: &[Option<usize>]) -> Result<(), AllocError>
    requires { IsLaid graph.old }
    ensures { OnOk result (Grows (filter_map (λ o. o) targets.now) graph.old graph.new) }
{
    for index in 0..targets.len() {
        push_target(graph, target_of(targets, index))?;
    }
    Ok(())
}

fn target_at(targets: &[Option<usize>], at: i32) -> Option<usize>
    ensures { result ≡ target_at targets.now at }
{
    if at < 0 {
        return None;
    }
    target_of(targets, at as usize)
}

fn push_public(
    graph: &mut FlatGraph,
    targets: &[Option<usize>],
    public: &[i32],
) -> Result<(), AllocError>
    requires { IsLaid graph.old }
    ensures { OnOk result (Grows (filter_map (target_at targets.now) public.now) graph.old graph.new) }
{
    for at in public {
        push_target(graph, target_at(targets, *at))?;
    }
    Ok(())
}

/// Adds the files that imports name. A name that no file has is left out.
fn push_named(graph: &mut FlatGraph, firsts: &Firsts, names: &[String]) -> Result<(), AllocError>
    requires { IsLaid graph.old }
    ensures { OnOk result (Grows (filter_map (first_at firsts.now) (map string_bytes names.now)) graph.old graph.new) }
{
    for name in names {
        push_target(graph, firsts.get(name.as_str().as_bytes()))?;
    }
    Ok(())
}

/// Adds the imports of a file, and the public ones. What each import names is kept where there are public ones.
fn push_imports(
    alloc: Global,
    firsts: &Firsts,
    file: &FileDecl,
    all: &mut FlatGraph,
    public: &mut FlatGraph,
) -> Result<(), AllocError>
    requires all { IsLaid all.old }
    requires public { IsLaid public.old }
    ensures all { (files : List DeclaredFile) → ((name : List ℕ) → first_at firsts.now name ≡ file_named files name)
        → OnOk result (Grows (file_of files (file_view file.now)).imports all.old all.new) }
    ensures public { (files : List DeclaredFile) → ((name : List ℕ) → first_at firsts.now name ≡ file_named files name)
        → OnOk result (Grows (public_file_of files (file_view file.now)).imports public.old public.new) }
{
    if file.public.is_empty() {
        push_named(all, firsts, &file.imports)?;
        return Ok(());
    }
    let targets = targets(alloc, firsts, &file.imports)?;
    push_all(all, &targets)?;
    push_public(public, &targets, &file.public)?;
    Ok(())
}

impl Imports {
    /// The imports of these files, all and those that are public.
    pub fn new(alloc: Global, files: &[FileDecl]) -> Result<Imports, AllocError>
        ensures exact { IfOk result (AreImports (map file_view files.now)) }
        ensures lead { IfOk result LeadToFiles }
        ensures first { IfOk result (AreFirst (map file_view files.now)) }
    {
        let names = joined_names(alloc, files)?;
        let (firsts, are_first) = files_by_name(alloc, files, &names)?;
        let mut all = FlatGraph::with_capacity(alloc, files.len())?;
        let mut public = FlatGraph::with_capacity(alloc, files.len())?;
        for file in files {
            push_imports(alloc, &firsts, file, &mut all, &mut public)?;
            all.end_list()?;
            public.end_list()?;
        }
        Ok(Imports {
            all,
            public,
            are_first,
        })
    }
}
