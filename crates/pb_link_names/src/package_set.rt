//! Sets of packages. Each holds the packages around it, of which none is kept as a name of its own.

ghost use Rattle.std.specs.Prelude.{◌≡◌, ◌≤◌, ◌<◌, ◌+◌, ◌++◌, ◌∷◌, [], ◌==◌, ℕ, List, false, Some, take, length, slice_index, vec_len, IfOk, OnOk};
ghost use Rattle.pb_schema.specs.Names.{packages_of, with_front};
ghost use Rattle.pb_tries.specs.Tries.{node_of, last_node};
ghost use Rattle.pb_link_names.specs.PackageSets.{package_at, has_package, IsPackageSet, AddsNames, Marks};

use pb_tries::trie::NameTrie;
use std::alloc::{AllocError, Global};

/// Names of packages.
#[derive(Drop)]
pub struct PackageSet {
    pub(crate) names: NameTrie,
    /// Of each node whether its name is that of a package. One past the end is none.
    pub(crate) are_packages: Vec<bool>,
}

impl PackageSet {
    /// No package.
    pub(crate) fn new(alloc: Global) -> Result<PackageSet, AllocError>
        ensures set { IfOk result IsPackageSet }
        ensures empty { IfOk result (λ p. (name : List ℕ) → has_package p name ≡ false) }
    {
        Ok(PackageSet {
            names: NameTrie::new(alloc)?,
            are_packages: Vec::new(alloc),
        })
    }

    fn is_package(&self, node: usize) -> bool
        ensures { result ≡ package_at self.now node }
    {
        match self.are_packages.get(node) {
            Some(is_package) => *is_package,
            None => false,
        }
    }

    /// Whether a name is that of a package.
    pub fn contains(&self, name: &[u8]) -> bool
        requires { IsPackageSet self.now }
        ensures { result ≡ has_package self.now name.now }
    {
        match self.names.find(name) {
            Some(node) => self.is_package(node),
            None => false,
        }
    }

    /// Makes the list of marks long enough for a node.
    fn hold(&mut self, node: usize) -> Result<(), AllocError>
        requires { node ≤ last_node self.old.names }
        ensures names { OnOk result (self.new.names ≡ self.old.names) }
        ensures within { OnOk result (node < vec_len self.new.are_packages) }
        ensures same { OnOk result ((other : ℕ) → package_at self.new other ≡ package_at self.old other) }
    {
        if node < self.are_packages.len() {
            return Ok(());
        }
        self.are_packages.resize(node + 1, false)?;
        Ok(())
    }

    /// Makes the name of a node that of a package.
    fn mark(&mut self, node: usize) -> Result<(), AllocError>
        requires { node ≤ last_node self.old.names }
        ensures { OnOk result (Marks node self.old self.new) }
    {
        self.hold(node)?;
        self.are_packages[node] = true;
        Ok(())
    }

    /// Adds the package whose name ends at the node, if the next byte is a dot.
    fn mark_front(&mut self, name: &[u8], index: usize, node: usize) -> Result<(), AllocError>
        requires set { IsPackageSet self.old }
        requires within { index < length name.now }
        requires at { node_of self.old.names (take index name.now) ≡ Some node }
        ensures added { OnOk result (AddsNames (with_front (slice_index name.now index == 46) (take index name.now) []) self.old self.new) }
        ensures names { OnOk result (self.new.names ≡ self.old.names) }
    {
        if name[index] != b'.' {
            return Ok(());
        }
        self.mark(node)?;
        Ok(())
    }

    /// The node after a byte.
    fn go_on(&mut self, node: usize, byte: u8) -> Result<usize, AllocError>
        requires set { IsPackageSet self.old }
        requires within { node ≤ last_node self.old.names }
        ensures added { OnOk result (AddsNames [] self.old self.new) }
        ensures on { IfOk result (λ next. (name : List ℕ) → node_of self.old.names name ≡ Some node → node_of self.new.names (name ++ byte ∷ []) ≡ Some next) }
    {
        let next = self.names.add_byte(node, byte)?;
        Ok(next)
    }

    /// Goes on by a byte of a package's name. If it is a dot, the package before it is added.
    fn add_byte(&mut self, name: &[u8], index: usize, node: usize) -> Result<usize, AllocError>
        requires set { IsPackageSet self.old }
        requires within { index < length name.now }
        requires at { node_of self.old.names (take index name.now) ≡ Some node }
        ensures added { OnOk result (AddsNames (with_front (slice_index name.now index == 46) (take index name.now) []) self.old self.new) }
        ensures at { IfOk result (λ next. node_of self.new.names (take (index + 1) name.now) ≡ Some next) }
    {
        self.mark_front(name, index, node)?;
        let next = self.go_on(node, name[index])?;
        Ok(next)
    }

    /// Adds the packages that a package's name makes: itself and those around it.
    pub(crate) fn add(&mut self, name: &[u8]) -> Result<(), AllocError>
        requires { IsPackageSet self.old }
        ensures { OnOk result (AddsNames (packages_of name.now) self.old self.new) }
    {
        if name.is_empty() {
            return Ok(());
        }
        let mut node = 0;
        for index in 0..name.len() {
            node = self.add_byte(name, index, node)?;
        }
        self.mark(node)?;
        Ok(())
    }
}
