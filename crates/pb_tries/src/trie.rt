//! Names as paths of bytes: names that begin alike share their beginning, so what a name adds costs the bytes that no name had before.
//! Nothing is hashed, so that nobody can pick names that make look-ups slow.

ghost use Rattle.std.specs.Prelude.{◌≡◌, ◌≤◌, [], length, IfOk, OnOk};
ghost use Rattle.std.specs.List.{slice_index_or};
ghost use Rattle.pb_tries.specs.Tries.{child_of, node_from, IsTrie, ByteAdded};

use std::alloc::{AllocError, Global};

/// A tree of bytes. Node 0 is the empty name, and each other node the name of its parent and one byte more.
#[derive(Drop)]
pub struct NameTrie {
    /// Of each node but the first its parent and its byte.
    pub(crate) edges: Vec<(usize, u8)>,
    /// Of each node its newest child, or 0.
    pub(crate) newest: Vec<usize>,
    /// Of each node the next older child of its parent, or 0.
    pub(crate) older: Vec<usize>,
}

impl NameTrie {
    /// The empty name alone.
    pub fn new(alloc: Global) -> Result<NameTrie, AllocError>
        ensures trie { IfOk result IsTrie }
        ensures empty { IfOk result (λ t. t.edges.items ≡ []) }
    {
        Ok(NameTrie {
            edges: Vec::new(alloc),
            newest: vec![in alloc; 0; 1]?,
            older: vec![in alloc; 0; 1]?,
        })
    }

    fn newest_child(&self, node: usize) -> usize
        ensures { result ≡ slice_index_or self.now.newest.items node 0 }
    {
        match self.newest.get(node) {
            Some(child) => *child,
            None => 0,
        }
    }

    /// The child of a node by a byte.
    fn child(&self, node: usize, byte: u8) -> Option<usize>
        requires { IsTrie self.now }
        ensures { result ≡ child_of self.now.edges.items node byte }
    {
        let mut child = self.newest_child(node);
        while child > 0 {
            if self.edges[child - 1].1 == byte {
                return Some(child);
            }
            child = self.older[child];
        }
        None
    }

    /// Adds a child, which is not there yet.
    fn add_child(&mut self, node: usize, byte: u8) -> Result<usize, AllocError>
        requires trie { IsTrie self.old }
        requires within { node ≤ length self.old.edges.items }
        requires is_new { child_of self.old.edges.items node byte ≡ None }
        ensures { IfOk result (ByteAdded self.old self.new node byte) }
    {
        let older = self.newest[node];
        self.edges.push((node, byte))?;
        self.older.push(older)?;
        self.newest.push(0)?;
        let child = self.edges.len();
        self.newest[node] = child;
        Ok(child)
    }

    /// The child of a node by a byte, which is added where it is not there.
    pub fn add_byte(&mut self, node: usize, byte: u8) -> Result<usize, AllocError>
        requires trie { IsTrie self.old }
        requires within { node ≤ length self.old.edges.items }
        ensures { IfOk result (ByteAdded self.old self.new node byte) }
    {
        if let Some(child) = self.child(node, byte) {
            return Ok(child);
        }
        self.add_child(node, byte)
    }

    /// The node that a name leads to.
    pub fn find(&self, name: &[u8]) -> Option<usize>
        requires { IsTrie self.now }
        ensures { result ≡ node_from self.now.edges.items 0 name.now }
    {
        let mut node = 0;
        for byte in name {
            match self.child(node, *byte) {
                Some(child) => node = child,
                None => return None,
            }
        }
        Some(node)
    }
}
