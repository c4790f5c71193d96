//! A graph whose lists are parts of one list, so that it takes few allocations and a walk touches little memory.

ghost use Rattle.std.specs.Prelude.{◌≡◌, ◌<◌, ◌^◌, ◌++◌, [], ◌∷◌, length, IfOk, OnOk};
ghost use Rattle.std.specs.List.{slice_index_or};
ghost use Rattle.pb_graphs.specs.Reach.{next_of};
ghost use Rattle.pb_graphs.specs.Flat.{part_of, lists_of, open_list, IsLaid, Grows};

use crate::reach::Graph;
use std::alloc::{AllocError, Global};

/// Where each index leads.
#[derive(Drop)]
pub struct FlatGraph {
    /// Where the list of each index ends. It begins where the one before it ends.
    pub(crate) ends: Vec<usize>,
    pub(crate) targets: Vec<usize>,
}

/// The part of a list from one place up to another, as far as it lies in the list.
fn part(targets: &[usize], start: usize, end: usize) -> &[usize]
    ensures { result.now ≡ part_of targets.now start end }
{
    let start = start.min(targets.len());
    let end = end.min(targets.len()).max(start);
    &targets[start..end]
}

impl FlatGraph {
    /// No list yet, with space for this many.
    pub fn with_capacity(alloc: Global, lists: usize) -> Result<FlatGraph, AllocError>
        ensures lists { IfOk result (λ f. lists_of f ≡ []) }
        ensures empty { IfOk result (λ f. open_list f ≡ []) }
        ensures laid { IfOk result IsLaid }
    {
        Ok(FlatGraph {
            ends: Vec::with_capacity(alloc, lists)?,
            targets: Vec::new(alloc),
        })
    }

    /// Adds a target to the list that is open at the end.
    pub fn push_target(&mut self, target: usize) -> Result<(), AllocError>
        requires { IsLaid self.old }
        ensures { OnOk result (Grows (target ∷ []) self.old self.new) }
    {
        self.targets.push(target)?;
        Ok(())
    }

    /// Ends the list that is open: it is that of the next index, and an empty one is open.
    pub fn end_list(&mut self) -> Result<(), AllocError>
        requires { IsLaid self.old }
        ensures lists { OnOk result (lists_of self.new ≡ lists_of self.old ++ open_list self.old ∷ []) }
        ensures empty { OnOk result (open_list self.new ≡ []) }
        ensures laid { OnOk result (IsLaid self.new) }
    {
        self.ends.push(self.targets.len())?;
        Ok(())
    }

    /// The same lists as those of a graph.
    pub fn copy_of<G: Graph>(alloc: Global, graph: &G) -> Result<FlatGraph, AllocError>
        ensures { IfOk result (λ f. lists_of f ≡ G.lists graph.now) }
    {
        let mut flat = FlatGraph::with_capacity(alloc, graph.len())?;
        for index in 0..graph.len() {
            flat.targets.extend_from_slice(graph.next(index))?;
            flat.end_list()?;
        }
        Ok(flat)
    }

    /// Where the list of an index begins.
    fn start_of(&self, index: usize) -> usize
        ensures { result ≡ slice_index_or (0 ∷ self.now.ends.items) index 0 }
    {
        if index == 0 {
            return 0;
        }
        match self.ends.get(index - 1) {
            Some(end) => *end,
            None => 0,
        }
    }
}

impl Graph for FlatGraph {
    ghost lists = { lists_of };

    fn len(&self) -> usize {
        self.ends.len()
    }

    fn next(&self, index: usize) -> &[usize]
        ensures exact { result.now ≡ next_of (lists_of self.now) index }
        ensures small { length result.now < 2 ^ 63 }
    {
        match self.ends.get(index) {
            Some(end) => part(&self.targets, self.start_of(index), *end),
            None => &[],
        }
    }
}
