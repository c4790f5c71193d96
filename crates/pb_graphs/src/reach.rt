//! What a graph is, and what is reached along it from some of its indexes.

ghost use Rattle.std.specs.Prelude.{◌≡◌, ◌<◌, ◌↔◌, [], ◌∷◌, ℕ, List, IsTrue, All, Contains, IfOk, OnOk, length, vec_len};
ghost use Rattle.pb_graphs.specs.Reach.{next_of, IsGraph, Reached, is_marked, IsListed, IsClear, Marks};

use std::alloc::{AllocError, Global};

/// A graph over indexes, each of which leads to a list of them.
pub trait Graph {
    ghost lists: { Self → List (List ℕ) };

    /// How many indexes it has.
    fn len(&self) -> usize
        ensures { result ≡ length (lists self.now) };

    /// Where an index leads. One that is not there leads nowhere.
    fn next(&self, index: usize) -> &[usize]
        ensures { result.now ≡ next_of (lists self.now) index };
}

/// What was reached along a graph last.
#[derive(Drop)]
pub struct Reach {
    /// A bit for each index of the graph.
    pub bits: Vec<bool>,
    /// The indexes whose bit is set, so that work follows what is reached.
    pub reached: Vec<usize>,
}

impl Reach {
    /// Nothing is reached among this many indexes.
    pub fn new(alloc: Global, size: usize) -> Result<Reach, AllocError>
        ensures clear { IfOk result IsClear }
        ensures size { IfOk result (λ r. vec_len r.bits ≡ size) }
    {
        Ok(Reach {
            bits: vec![in alloc; false; size]?,
            reached: Vec::new(alloc),
        })
    }

    /// Whether an index was reached.
    pub fn is_marked(&self, index: usize) -> bool
        ensures { result ≡ is_marked self.now index }
    {
        match self.bits.get(index) {
            Some(bit) => *bit,
            None => false,
        }
    }

    fn clear(&mut self)
        requires { IsListed self.old }
        ensures clear { IsClear self.new }
        ensures size { vec_len self.new.bits ≡ vec_len self.old.bits }
    {
        while let Some(index) = self.reached.pop() {
            self.bits[index] = false;
        }
    }

    fn mark(&mut self, index: usize) -> Result<(), AllocError>
        requires { index < vec_len self.old.bits }
        ensures { OnOk result (Marks (index ∷ []) self.old self.new) }
    {
        if self.bits[index] {
            return Ok(());
        }
        self.reached.push(index)?;
        self.bits[index] = true;
        Ok(())
    }

    fn mark_all(&mut self, indexes: &[usize]) -> Result<(), AllocError>
        requires { All (λ j. j < vec_len self.old.bits) indexes.now }
        ensures { OnOk result (Marks indexes.now self.old self.new) }
    {
        for index in indexes {
            self.mark(*index)?;
        }
        Ok(())
    }

    /// Marks the starts, and nothing else.
    pub fn start(&mut self, starts: &[usize]) -> Result<(), AllocError>
        requires listed { IsListed self.old }
        requires starts { All (λ j. j < vec_len self.old.bits) starts.now }
        ensures listed { OnOk result (IsListed self.new) }
        ensures size { OnOk result (vec_len self.new.bits ≡ vec_len self.old.bits) }
        ensures exact { OnOk result ((j : ℕ) → IsTrue (is_marked self.new j) ↔ Contains starts.now j) }
    {
        self.clear();
        self.mark_all(starts)
    }

    /// Marks what is reached from what is marked.
    pub fn follow<G: Graph>(&mut self, graph: &G) -> Result<(), AllocError>
        requires listed { IsListed self.old }
        requires size { vec_len self.old.bits ≡ length (G.lists graph.now) }
        requires graph { IsGraph (G.lists graph.now) }
        ensures listed { OnOk result (IsListed self.new) }
        ensures size { OnOk result (vec_len self.new.bits ≡ length (G.lists graph.now)) }
        ensures exact { OnOk result ((j : ℕ) → IsTrue (is_marked self.new j) ↔ Reached (G.lists graph.now) self.old.reached.items j) }
    {
        let mut at = 0;
        while at < self.reached.len() {
            let index = self.reached[at];
            self.mark_all(graph.next(index))?;
            at += 1;
        }
        Ok(())
    }

    /// Marks what is reached from the starts, and nothing else.
    pub fn reach<G: Graph>(&mut self, graph: &G, starts: &[usize]) -> Result<(), AllocError>
        requires listed { IsListed self.old }
        requires size { vec_len self.old.bits ≡ length (G.lists graph.now) }
        requires graph { IsGraph (G.lists graph.now) }
        requires starts { All (λ j. j < length (G.lists graph.now)) starts.now }
        ensures listed { OnOk result (IsListed self.new) }
        ensures size { OnOk result (vec_len self.new.bits ≡ length (G.lists graph.now)) }
        ensures exact { OnOk result ((j : ℕ) → IsTrue (is_marked self.new j) ↔ Reached (G.lists graph.now) starts.now j) }
    {
        self.start(starts)?;
        self.follow(graph)?;
        Ok(())
    }
}
