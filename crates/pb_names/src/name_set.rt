//! Sets of names.

ghost use Rattle.std.specs.Prelude.{◌≡◌, List, ℕ, [], length, not, position, option_map, slice_get, IfOk, OnOk, OnErr, None, Some, ◌++◌, ◌∷◌};
ghost use Rattle.std.specs.List.{list_any};
ghost use Rattle.std.specs.Str.{bytes_eq};
ghost use Rattle.pb_names.specs.NameSets.{names_in, with_name};
ghost use Rattle.pb_names.specs.NameIndex.{IsIndex, IsPut, first_of, other_of, texts};

use crate::name_hash::name_hash;
use std::alloc::{AllocError, Global};
use std::collections::BTreeMap;
use std::marker::Model;

/// Names, each once, in the order in which each came first. A name is found by its hash, or by itself if an earlier name has this hash. Both
/// tables are sorted, so nobody can pick names that make look-ups slow.
#[derive(Debug, Drop)]
pub struct NameSet {
    names: Vec<Vec<u8>>,
    /// Of each hash the index of the first name that has it.
    by_hash: BTreeMap<u64, usize>,
    /// The indexes of all other names.
    others: BTreeMap<Vec<u8>, usize>,
}

impl Model for NameSet {
    ghost Value = { List (List ℕ) };

    ghost view = { λ s. texts s.names.items };

    ghost invariant = { λ s. IsIndex (texts s.names.items) (first_of s.by_hash) (other_of s.others) };
}

/// The index of a name, by the tables of these names.
fn find(
    names: &[Vec<u8>],
    by_hash: &BTreeMap<u64, usize>,
    others: &BTreeMap<Vec<u8>, usize>,
    name: &[u8],
) -> Option<usize>
    requires { IsIndex (texts names.now) (first_of by_hash.now) (other_of others.now) }
    ensures { result ≡ position (bytes_eq name.now) (texts names.now) }
{
    let Some(first) = by_hash.get(&name_hash(name)).copied() else {
        return None;
    };
    if names[first].as_slice() == name {
        return Some(first);
    }
    others.get(name).copied()
}

/// Puts the index of a name.
fn put(
    by_hash: &mut BTreeMap<u64, usize>,
    others: &mut BTreeMap<Vec<u8>, usize>,
    name: &Vec<u8>,
    index: usize,
) -> Result<(), AllocError>
    ensures put { OnOk result
        (IsPut name.now.items index (first_of by_hash.old) (other_of others.old)
        (first_of by_hash.new) (other_of others.new)) }
    ensures first { OnErr result (by_hash.new.entries ≡ by_hash.old.entries) }
    ensures other { OnErr result (others.new.entries ≡ others.old.entries) }
{
    let hash = name_hash(name);
    if by_hash.contains_key(&hash) {
        others.insert(name.clone()?, index)?;
    } else {
        by_hash.insert(hash, index)?;
    }
    Ok(())
}

impl NameSet {
    /// No name.
    pub fn new(alloc: Global) -> NameSet
        ensures { names_in result ≡ [] }
    {
        NameSet {
            names: Vec::new(alloc),
            by_hash: BTreeMap::new(alloc),
            others: BTreeMap::new(alloc),
        }
    }

    /// Whether a name was added.
    pub fn contains(&self, name: &[u8]) -> bool
        ensures { result ≡ list_any (bytes_eq name.now) (names_in self.now) }
    {
        self.index_of(name).is_some()
    }

    /// The index of a name.
    pub fn index_of(&self, name: &[u8]) -> Option<usize>
        ensures { result ≡ position (bytes_eq name.now) (names_in self.now) }
    {
        find(&self.names, &self.by_hash, &self.others, name)
    }

    /// The name at an index.
    pub fn get(&self, index: usize) -> Option<&[u8]>
        ensures { option_map (λ n. n.now) result ≡ slice_get (names_in self.now) index }
    {
        match self.names.get(index) {
            Some(name) => Some(name.as_slice()),
            None => None,
        }
    }

    /// Adds a name that is not there. Answers its index.
    fn push(&mut self, name: Vec<u8>) -> Result<usize, AllocError>
        requires { position (bytes_eq name.items) (names_in self.old) ≡ None }
        ensures index { IfOk result (λ index. index ≡ length (names_in self.old)) }
        ensures names { OnOk result
            (names_in self.new ≡ names_in self.old ++ name.items ∷ []) }
    {
        let index = self.names.len();
        self.names.reserve(1)?;
        put(&mut self.by_hash, &mut self.others, &name, index)?;
        self.names.push_reserved(name);
        Ok(index)
    }

    /// Adds a name. Answers its index, and whether it is new.
    pub fn add_full(&mut self, name: Vec<u8>) -> Result<(usize, bool), AllocError>
        ensures index { IfOk result
            (λ r. position (bytes_eq name.items) (names_in self.new) ≡ Some r.0) }
        ensures is_new { IfOk result
            (λ r. r.1 ≡ not (list_any (bytes_eq name.items) (names_in self.old))) }
        ensures names { OnOk result
            (names_in self.new ≡ with_name name.items (names_in self.old)) }
    {
        match self.index_of(&name) {
            Some(index) => Ok((index, false)),
            None => {
                let index = self.push(name)?;
                Ok((index, true))
            }
        }
    }

    /// Adds a name, and answers whether it is new.
    pub fn add(&mut self, name: Vec<u8>) -> Result<bool, AllocError>
        ensures is_new { IfOk result
            (λ is_new. is_new ≡ not (list_any (bytes_eq name.items) (names_in self.old))) }
        ensures names { OnOk result
            (names_in self.new ≡ with_name name.items (names_in self.old)) }
    {
        let (_, is_new) = self.add_full(name)?;
        Ok(is_new)
    }

    /// The same of a name that is copied.
    pub fn add_copy(&mut self, alloc: Global, name: &[u8]) -> Result<bool, AllocError>
        ensures is_new { IfOk result
            (λ is_new. is_new ≡ not (list_any (bytes_eq name.now) (names_in self.old))) }
        ensures names { OnOk result
            (names_in self.new ≡ with_name name.now (names_in self.old)) }
    {
        self.add(name.to_vec(alloc)?)
    }
}
