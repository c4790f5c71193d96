//! Names as paths of words. A look-up goes along the words of a scope once, and knows of each scope whether a name can be in it.

ghost use Rattle.std.specs.Prelude.{false, ◌≡◌, ◌≤◌, ◌<◌, ◌++◌, ◌∷◌, [], ◌==◌, ◌||◌, List, map, take, length, slice_index, ◌+◌, is_some, IfOk, OnOk, None, Some, if◌then◌else◌};
ghost use Rattle.std.specs.List.{filter};
ghost use Rattle.pb_link_names.specs.Scopes.{scopes_to};
ghost use Rattle.pb_link_names.specs.View.{declaration_view};
ghost use Rattle.pb_link_names.specs.Words.{child_of, child_if, is_off, may_hold, node_of, IsTree, Keeps, AddsWord, AddsName, IsAt, IsAdding, PushesScope, AreWords, written_name};

use crate::declaration::Declaration;
use crate::firsts::Firsts;
use crate::item::Item;
use crate::scopes::part;
use crate::type_refs::file_in;
use std::alloc::{AllocError, Global};

/// A tree of words. Node 0 is the empty scope.
#[derive(Drop)]
pub struct Words<'a> {
    /// Of each node the nodes of the words in it. No node: there is no tree, and nothing is known of any name.
    pub(crate) inside: Vec<Firsts<'a>>,
}

impl<'a> Words<'a> {
    /// The node of a word in a node.
    fn child(&self, node: usize, word: &[u8]) -> Option<usize>
        ensures { result ≡ child_of self.now node word.now }
    {
        match self.inside.get(node) {
            Some(words) => words.get(word),
            None => None,
        }
    }

    fn child_if(&self, node: Option<usize>, word: &[u8]) -> Option<usize>
        ensures { result ≡ child_if self.now node word.now }
    {
        match node {
            Some(node) => self.child(node, word),
            None => None,
        }
    }

    /// Adds a word that is not there yet.
    fn add_child(&mut self, alloc: Global, node: usize, word: &'a [u8]) -> Result<usize, AllocError>
        requires tree { IsTree self.old }
        requires within { node < length self.old.inside.items }
        requires is_new { child_of self.old node word.now ≡ None }
        ensures { IfOk result (AddsWord self.old self.new node word.now) }
    {
        let child = self.inside.len();
        self.inside[node].put(word, child)?;
        self.inside.push(Firsts::new(alloc))?;
        Ok(child)
    }

    /// The node of a word in a node, which is added where it is not there.
    fn add_word(&mut self, alloc: Global, node: usize, word: &'a [u8]) -> Result<usize, AllocError>
        requires tree { IsTree self.old }
        requires within { node < length self.old.inside.items }
        ensures { IfOk result (AddsWord self.old self.new node word.now) }
    {
        if let Some(child) = self.child(node, word) {
            return Ok(child);
        }
        self.add_child(alloc, node, word)
    }

    /// Goes on by a byte of a name that is added, from a node and the start of a word.
    fn add_byte(
        &mut self,
        alloc: Global,
        name: &'a [u8],
        index: usize,
        at: (usize, usize),
    ) -> Result<(usize, usize), AllocError>
        requires within { index < length name.now }
        requires adding { IsAdding self.old name.now index at.0 at.1 }
        ensures adding { IfOk result
            (λ next. IsAdding self.new name.now (index + 1) next.0 next.1) }
        ensures kept { OnOk result (Keeps self.old self.new) }
    {
        if name[index] != b'.' {
            return Ok(at);
        }
        let node = self.add_word(alloc, at.0, part(name, at.1, index))?;
        Ok((node, index + 1))
    }

    /// Adds a name.
    fn add(&mut self, alloc: Global, name: &'a [u8]) -> Result<(), AllocError>
        requires tree { IsTree self.old }
        requires on { 0 < length self.old.inside.items }
        ensures { OnOk result (AddsName name.now self.old self.new) }
    {
        let mut at = (0, 0);
        for index in 0..name.len() {
            at = self.add_byte(alloc, name, index, at)?;
        }
        self.add_word(alloc, at.0, part(name, at.1, name.len()))?;
        Ok(())
    }

    fn may_hold(&self, node: Option<usize>, word: &[u8]) -> bool
        ensures { result ≡ (is_off self.now || is_some (child_if self.now node word.now)) }
    {
        self.inside.is_empty() || self.child_if(node, word).is_some()
    }

    /// Adds a scope by its length, where a name that begins with the word may be in it.
    fn push_scope(
        &self,
        node: Option<usize>,
        word: &[u8],
        len: usize,
        lens: &mut Vec<usize>,
    ) -> Result<(), AllocError>
        ensures { OnOk result
            (PushesScope self.now node word.now len lens.old.items lens.new.items) }
    {
        if self.may_hold(node, word) {
            lens.push(len)?;
        }
        Ok(())
    }

    /// Goes on by a byte of a name, from a node and the start of a word.
    fn pass(&self, name: &[u8], index: usize, at: (Option<usize>, usize)) -> (Option<usize>, usize)
        requires { index < length name.now }
        ensures at { IsAt self.now name.now index at.0 at.1
            → IsAt self.now name.now (index + 1) result.0 result.1 }
        ensures node { IsAt self.now name.now index at.0 at.1 → slice_index name.now index ≡ 46
            → result.0 ≡ node_of self.now (take index name.now) }
    {
        if name[index] != b'.' {
            return at;
        }
        let node = self.child_if(at.0, part(name, at.1, index));
        (node, index + 1)
    }

    /// Adds the scope that ends before a byte, where that is a dot, by the node of its name and its length.
    fn push_outer(
        &self,
        byte: u8,
        scope: (Option<usize>, usize),
        word: &[u8],
        lens: &mut Vec<usize>,
    ) -> Result<(), AllocError>
        ensures dot { byte ≡ 46
            → OnOk result
            (PushesScope self.now (if scope.1 == 0 then Some 0 else scope.0) word.now scope.1
            lens.old.items lens.new.items) }
        ensures other { (byte == 46) ≡ false → OnOk result (lens.new.items ≡ lens.old.items) }
    {
        if byte != b'.' {
            return Ok(());
        }
        self.push_scope(scope_node(scope.0, scope.1), word, scope.1, lens)
    }

    /// Adds a scope that is not empty, by its node.
    fn push_whole(
        &self,
        scope: &[u8],
        node: Option<usize>,
        word: &[u8],
        lens: &mut Vec<usize>,
    ) -> Result<(), AllocError>
        ensures some { 0 < length scope.now
            → OnOk result
            (PushesScope self.now node word.now (length scope.now)
            lens.old.items lens.new.items) }
        ensures none { length scope.now ≡ 0 → OnOk result (lens.new.items ≡ lens.old.items) }
    {
        if scope.is_empty() {
            return Ok(());
        }
        self.push_scope(node, word, scope.len(), lens)
    }

    /// The scopes around one and it itself, from the empty one inwards, by their lengths: those in which a name that begins with the word
    /// may be.
    pub(crate) fn scopes_with(
        &self,
        alloc: Global,
        scope: &[u8],
        word: &[u8],
    ) -> Result<Vec<usize>, AllocError>
        ensures { IfOk result
            (λ v. map (λ n. take n scope.now) v.items
            ≡ filter (may_hold self.now word.now) (scopes_to scope.now)) }
    {
        let mut lens: Vec<usize> = Vec::new(alloc);
        self.push_scope(Some(0), word, 0, &mut lens)?;
        let mut at = (Some(0), 0);
        for index in 0..scope.len() {
            let next = self.pass(scope, index, at);
            self.push_outer(scope[index], (next.0, index), word, &mut lens)?;
            at = next;
        }
        let node = self.child_if(at.0, part(scope, at.1, scope.len()));
        self.push_whole(scope, node, word, &mut lens)?;
        Ok(lens)
    }
}

/// The node of a scope of a length, by that of its name.
fn scope_node(node: Option<usize>, len: usize) -> Option<usize>
    ensures { result ≡ (if len == 0 then Some 0 else node) }
{
    if len == 0 {
        return Some(0);
    }
    node
}

/// What a declaration names: a file its package, any other by its full name.
fn written_name<'a>(declaration: &'a Declaration) -> &'a [u8]
    ensures { result.now ≡ written_name (declaration_view declaration.now) }
{
    match file_in(declaration.item) {
        Some(file) => file.package.as_str().as_bytes(),
        None => declaration.full_name.as_str().as_bytes(),
    }
}

/// The most words of a scope without a tree: few scopes are tried one after another.
const FEW_WORDS: usize = 16;

/// Whether a name has more than a few words.
fn is_deep(name: &[u8]) -> bool {
    let mut left = FEW_WORDS;
    for byte in name {
        if *byte == b'.' {
            if left <= 1 {
                return true;
            }
            left -= 1;
        }
    }
    false
}

/// Whether there is a scope of more than a few words.
fn has_deep_scope(row: &[Declaration]) -> bool {
    for declaration in row {
        let is_scope = matches!(declaration.item, Item::File(_) | Item::Message(_));
        if is_scope && is_deep(written_name(declaration)) {
            return true;
        }
    }
    false
}

/// The tree of the names of a row. There is none where each scope is of a few words.
pub fn words_of<'a>(alloc: Global, row: &'a [Declaration]) -> Result<Words<'a>, AllocError>
    ensures { IfOk result (AreWords (map declaration_view row.now)) }
{
    let mut words = Words {
        inside: Vec::new(alloc),
    };
    if !has_deep_scope(row) {
        return Ok(words);
    }
    words.inside.push(Firsts::new(alloc))?;
    for declaration in row {
        words.add(alloc, written_name(declaration))?;
    }
    Ok(words)
}
