//! The first place of each name. Places are put from the last one to the first.

ghost use Rattle.std.specs.Prelude.{◌≡◌, ℕ, List, None, Some, IfOk, OnOk, if◌then◌else◌};
ghost use Rattle.std.specs.Str.{bytes_eq};
ghost use Rattle.pb_link_names.specs.Firsts.{first_at, kept_at, is_kept_for_another};
ghost use Rattle.pb_names.specs.NameHash.{name_hash};

use pb_names::name_hash::name_hash;
use std::alloc::{AllocError, Global};
use std::collections::BTreeMap;

/// The first place of each name. The names are borrowed, none is copied. A name is found by its hash, or by itself if another name with this hash
/// was put before. Both tables are sorted, so nobody can pick names that make look-ups slow.
#[derive(Drop)]
pub struct Firsts<'a> {
    /// Of each hash the first name that was put, and its place.
    pub by_hash: BTreeMap<u64, (&'a [u8], usize)>,
    /// The places of all other names.
    pub others: BTreeMap<&'a [u8], usize>,
}

impl<'a> Firsts<'a> {
    pub(crate) fn new(alloc: Global) -> Firsts<'a>
        ensures { (name : List ℕ) → first_at result name ≡ None }
    {
        Firsts {
            by_hash: BTreeMap::new(alloc),
            others: BTreeMap::new(alloc),
        }
    }

    /// Whether another name is kept for a hash.
    fn is_kept_for_another(&self, hash: u64, name: &[u8]) -> bool
        ensures { result ≡ is_kept_for_another name.now (kept_at self.now hash) }
    {
        match self.by_hash.get(&hash) {
            Some((first, _)) => *first != name,
            None => false,
        }
    }

    /// Puts a place for a name, before the one that is there. Answers that one.
    pub(crate) fn put(&mut self, name: &'a [u8], place: usize) -> Result<Option<usize>, AllocError>
        ensures later { IfOk result (λ old. old ≡ first_at self.old name.now) }
        ensures put { OnOk result ((other : List ℕ) → first_at self.new other ≡ (if bytes_eq other name.now then Some place else first_at self.old other)) }
    {
        let later = self.get(name);
        let hash = name_hash(name);
        if self.is_kept_for_another(hash, name) {
            self.others.insert(name, place)?;
        } else {
            self.by_hash.insert(hash, (name, place))?;
        }
        Ok(later)
    }

    /// The first place of a name.
    pub fn get(&self, name: &[u8]) -> Option<usize>
        ensures { result ≡ first_at self.now name.now }
    {
        if let Some((first, place)) = self.by_hash.get(&name_hash(name)) {
            if *first == name {
                return Some(*place);
            }
        }
        self.others.get(name).copied()
    }
}
