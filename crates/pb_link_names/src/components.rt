//! The strongly connected components of a graph, by numbers.

ghost use Rattle.std.specs.Prelude.{◌≡◌, ◌<◌, ◌≤◌, ◌↔◌, ℕ, List, IsTrue, IfOk, OnOk, All, vec_len};
ghost use Rattle.std.specs.List.{slice_index_or};
ghost use Rattle.pb_graphs.specs.Flat.{lists_of};
ghost use Rattle.pb_link_names.specs.Components.{Fits, work_left, number_of, NeverRise};
ghost use Rattle.pb_link_names.specs.declared.components.Progress.TheVariants.{Numbered};

use pb_graphs::flat::FlatGraph;
use pb_graphs::reach::Graph;
use std::alloc::{AllocError, Global};

/// How far the walk is with an index.
#[derive(Clone, Copy)]
pub(crate) enum Progress {
    Unseen,
    /// Its component may still grow. The place is the first one among the open indexes that it is known to lead to.
    Open(usize),
    Numbered,
}

#[derive(Clone, Copy)]
pub(crate) enum Step {
    Enter(usize),
    /// All that the index leads to has been entered.
    Leave(usize),
}

/// A walk over a graph, depth first, which numbers each component once all that it leads to is numbered (Tarjan's).
#[derive(Drop)]
pub(crate) struct Walk {
    pub(crate) progress: Vec<Progress>,
    /// The indexes whose component may still grow, as they were entered.
    pub(crate) opened: Vec<usize>,
    /// What is to be done, the next one last.
    pub(crate) steps: Vec<Step>,
    pub(crate) numbers: Vec<usize>,
    /// The number of the next component: how many are numbered.
    count: usize,
}

impl Walk {
    fn new(alloc: Global, size: usize) -> Result<Walk, AllocError>
        ensures { IfOk result Fits }
    {
        Ok(Walk {
            progress: vec![in alloc; Progress::Unseen; size]?,
            opened: Vec::new(alloc),
            steps: Vec::new(alloc),
            numbers: vec![in alloc; 0; size]?,
            count: 0,
        })
    }

    fn progress_of(&self, index: usize) -> Progress
        ensures { result ≡ slice_index_or self.now.progress.items index Numbered }
    {
        match self.progress.get(index) {
            Some(progress) => *progress,
            None => Progress::Numbered,
        }
    }

    /// Opens an index that was not seen, and enters what it leads to.
    fn enter(&mut self, graph: &FlatGraph, index: usize) -> Result<(), AllocError>
        requires { Fits self.old }
        ensures fits { OnOk result (Fits self.new) }
        ensures work { OnOk result (work_left (lists_of graph.now) self.new ≤ work_left (lists_of graph.now) self.old) }
    {
        let Progress::Unseen = self.progress_of(index) else {
            return Ok(());
        };
        self.progress[index] = Progress::Open(self.opened.len());
        self.opened.push(index)?;
        self.steps.push(Step::Leave(index))?;
        for next in graph.next(index) {
            self.steps.push(Step::Enter(*next))?;
        }
        Ok(())
    }

    /// The least open place among `place` and the places of these indexes.
    fn first_place(&self, place: usize, indexes: &[usize]) -> usize {
        let mut first = place;
        for index in indexes {
            if let Progress::Open(place) = self.progress_of(*index) {
                first = first.min(place);
            }
        }
        first
    }

    fn number(&mut self, index: usize)
        requires within { index < vec_len self.old.progress }
        requires fits { Fits self.old }
        ensures fits { Fits self.new }
        ensures work { (graph : List (List ℕ)) → work_left graph self.new ≤ work_left graph self.old }
        ensures kept { self.new.opened ≡ self.old.opened }
    {
        self.progress[index] = Progress::Numbered;
        self.numbers[index] = self.count;
    }

    /// Numbers the component that begins with an index: that index, and all that were opened after it.
    fn close(&mut self, first: usize)
        requires { Fits self.old }
        ensures fits { Fits self.new }
        ensures work { (graph : List (List ℕ)) → work_left graph self.new ≤ work_left graph self.old }
    {
        while let Some(index) = self.opened.pop() {
            self.number(index);
            if index == first {
                break;
            }
        }
        // The count never reaches the maximum: memory ends before that.
        self.count = self.count.saturating_add(1);
    }

    /// Closes the component of an index that leads to nothing that was opened before it.
    fn leave(&mut self, graph: &FlatGraph, index: usize)
        requires { Fits self.old }
        ensures fits { Fits self.new }
        ensures work { work_left (lists_of graph.now) self.new ≤ work_left (lists_of graph.now) self.old }
    {
        let Progress::Open(place) = self.progress_of(index) else {
            return;
        };
        let first = self.first_place(place, graph.next(index));
        if first == place {
            self.close(index);
        } else {
            self.progress[index] = Progress::Open(first);
        }
    }

    /// Numbers an index and all that it leads to.
    fn walk_from(&mut self, graph: &FlatGraph, start: usize) -> Result<(), AllocError>
        requires { Fits self.old }
        ensures { OnOk result (Fits self.new) }
    {
        self.steps.push(Step::Enter(start))?;
        while let Some(step) = self.steps.pop() {
            match step {
                Step::Enter(index) => self.enter(graph, index)?,
                Step::Leave(index) => self.leave(graph, index),
            }
        }
        Ok(())
    }
}

/// The number at an index, 0 where there is none.
pub fn number_of(numbers: &[usize], index: usize) -> usize
    ensures { result ≡ number_of numbers.now index }
{
    match numbers.get(index) {
        Some(number) => *number,
        None => 0,
    }
}

fn are_at_most(numbers: &[usize], indexes: &[usize], bound: usize) -> bool
    ensures { IsTrue result ↔ All (λ j. number_of numbers.now j ≤ bound) indexes.now }
{
    for index in indexes {
        if number_of(numbers, *index) > bound {
            return false;
        }
    }
    true
}

fn never_rise(graph: &FlatGraph, numbers: &[usize]) -> bool
    ensures { IsTrue result ↔ NeverRise (lists_of graph.now) numbers.now }
{
    for index in 0..graph.len() {
        if !are_at_most(numbers, graph.next(index), number_of(numbers, index)) {
            return false;
        }
    }
    true
}

/// Numbers of a graph's indexes that never rise along it; one that is not there is 0. Two indexes have the same where each leads to the
/// other. That is not proved of the walk: its numbers are looked at, and if one rose none would be given.
pub fn component_numbers(alloc: Global, graph: &FlatGraph) -> Result<Vec<usize>, AllocError>
    ensures { IfOk result (λ v. NeverRise (lists_of graph.now) v.items) }
{
    let mut walk = Walk::new(alloc, graph.len())?;
    for index in 0..graph.len() {
        walk.walk_from(graph, index)?;
    }
    if !never_rise(graph, &walk.numbers) {
        return Ok(Vec::new(alloc));
    }
    Ok(walk.numbers)
}
