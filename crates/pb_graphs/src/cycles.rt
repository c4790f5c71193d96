//! Whether a graph has a cycle: one pass over its indexes and where they lead.

ghost use Rattle.std.specs.Prelude.{◌≡◌, ◌↔◌, ◌<◌, ◌^◌, [], IsTrue, IfOk, IfSome, length, slice_get};
ghost use Rattle.std.specs.List.{slice_index_or};
ghost use Rattle.pb_graphs.specs.Flat.{lists_of};
ghost use Rattle.pb_graphs.specs.Reach.{next_of, IsGraph};
ghost use Rattle.pb_graphs.specs.Cycles.{IsAcyclic};
ghost use Rattle.pb_graphs.specs.Walks.{AreSettled, AnswersWalk};
ghost use Rattle.pb_graphs.specs.declared.cycles.Progress.TheVariants.{Unseen};

use crate::flat::FlatGraph;
use crate::reach::Graph;
use std::alloc::{AllocError, Global};

/// How far a walk is with an index.
#[derive(Clone, Copy, PartialEq, Eq)]
pub(crate) enum Progress {
    Unseen,
    /// The index is on the walk's path.
    Open,
    /// All that the index reaches is done, and the index is not in it.
    Done,
}

/// The item at a position of the list of an index.
fn target_at(graph: &FlatGraph, index: usize, place: usize) -> Option<usize>
    ensures exact { result ≡ slice_get (next_of (lists_of graph.now) index) place }
    ensures small { IfSome result (λ _. place < 2 ^ 63) }
{
    graph.next(index).get(place).copied()
}

/// Walks from an index that was not seen, depth first. False where an index of the path leads to one of the path. The path has, with
/// each index, how much of its list is done. It is empty between walks, and its memory serves the next one.
fn walk_from(
    graph: &FlatGraph,
    start: usize,
    progress: &mut Vec<Progress>,
    path: &mut Vec<(usize, usize)>,
) -> Result<bool, AllocError>
    requires graph { IsGraph (lists_of graph.now) }
    requires empty { path.old.items ≡ [] }
    requires within { start < length (lists_of graph.now) }
    requires unseen { slice_index_or progress.old.items start Unseen ≡ Unseen }
    requires settled { AreSettled (lists_of graph.now) progress.old.items }
    ensures walked { IfOk result (AnswersWalk (lists_of graph.now) start progress.old.items progress.new.items) }
    ensures empty { IfOk result (λ goes_on. IsTrue goes_on → path.new.items ≡ []) }
{
    path.push((start, 0))?;
    progress[start] = Progress::Open;
    while let Some((index, next)) = path.pop() {
        match target_at(graph, index, next) {
            None => progress[index] = Progress::Done,
            Some(target) => match progress[target] {
                Progress::Done => {
                    path.push((index, next + 1))?;
                }
                Progress::Open => return Ok(false),
                Progress::Unseen => {
                    path.push((index, next))?;
                    path.push((target, 0))?;
                    progress[target] = Progress::Open;
                }
            },
        }
    }
    Ok(true)
}

/// Whether no index of a graph leads back to itself.
pub fn is_acyclic(alloc: Global, graph: &FlatGraph) -> Result<bool, AllocError>
    requires { IsGraph (lists_of graph.now) }
    ensures { IfOk result (λ free. IsTrue free ↔ IsAcyclic (lists_of graph.now)) }
{
    let mut progress = vec![in alloc; Progress::Unseen; graph.len()]?;
    let mut path = Vec::new(alloc);
    for index in 0..graph.len() {
        if progress[index] == Progress::Unseen {
            let free = walk_from(graph, index, &mut progress, &mut path)?;
            if !free {
                return Ok(false);
            }
        }
    }
    Ok(true)
}
