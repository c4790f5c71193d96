//! Names as words in scopes: no full name is held as a string.

ghost use Rattle.std.specs.Prelude.{◌≡◌, [], IfOk, map, option_map};
ghost use Rattle.pb_schema.specs.View.{file_view};
ghost use Rattle.pb_schema.specs.Names.Tree.{IsTree, AddsName, AddsPackage, AddsPackages, IsSplit, full_names_of};

use crate::types::FileInfo;
use indexmap::IndexSet;
use pb_names::name_set::NameSet;
use std::alloc::{AllocError, Global};

/// Names with no scope or in a scope, which is the index of another name.
#[derive(Drop)]
pub(crate) struct NameTree {
    pub(crate) words: NameSet,
    /// Of each name the scope and the index of its last word.
    pub(crate) names: IndexSet<(Option<usize>, usize)>,
}

impl NameTree {
    pub(crate) fn new(alloc: Global) -> NameTree
        ensures tree { IsTree result }
        ensures empty { full_names_of result ≡ [] }
    {
        NameTree {
            words: NameSet::new(alloc),
            names: IndexSet::new(alloc),
        }
    }

    /// Adds a word in a scope. Answers the name's index, and whether it is new.
    pub(crate) fn add(
        &mut self,
        alloc: Global,
        scope: Option<usize>,
        word: &[u8],
    ) -> Result<(usize, bool), AllocError>
        ensures { IfOk result (AddsName self.old self.new scope word.now) }
    {
        let (word, _) = self.words.add_full(word.to_vec(alloc)?)?;
        Ok(self.names.insert_full((scope, word))?)
    }

    /// Adds each package that a package's name makes, word by word. Answers the scope of what is declared in it.
    pub(crate) fn add_package(
        &mut self,
        alloc: Global,
        name: &[u8],
    ) -> Result<Option<usize>, AllocError>
        ensures { IfOk result (AddsPackage self.old self.new name.now) }
    {
        let mut scope = None;
        let mut rest = if name.is_empty() { None } else { Some(name) };
        while let Some(words) = rest {
            let (word, others) = split_word(words);
            let (index, _) = self.add(alloc, scope, word)?;
            scope = Some(index);
            rest = others;
        }
        Ok(scope)
    }
}

/// The first of the words that dots join, and what comes after its dot.
fn split_word(name: &[u8]) -> (&[u8], Option<&[u8]>)
    ensures { IsSplit name.now result.0.now (option_map (λ o. o.now) result.1) }
{
    for index in 0..name.len() {
        if name[index] == b'.' {
            return (&name[..index], Some(&name[index + 1..]));
        }
    }
    (name, None)
}

/// Adds the packages of files. Answers the scope of what is declared in each.
pub(crate) fn add_packages(
    tree: &mut NameTree,
    alloc: Global,
    files: &[FileInfo],
) -> Result<Vec<Option<usize>>, AllocError>
    ensures { IfOk result (λ v. AddsPackages tree.old tree.new (map file_view files.now) v.items) }
{
    let mut scopes = Vec::new(alloc);
    for file in files {
        let scope = tree.add_package(alloc, file.package.as_str().as_bytes())?;
        scopes.push(scope)?;
    }
    Ok(scopes)
}
