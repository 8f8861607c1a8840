//! The first node that is reached from itself.
//!
//! If no edge leads to a greater label, a node all of whose edges lead to lesser labels is on no
//! cycle, and needs no search. The labels are those of `component`; the answer is exact for any
//! labels.

ghost use Rattle.std.specs.Prelude.{◌≡◌, true, IfOk, length};
ghost use Rattle.circuit_checks.specs.Graphs.{IsGraph, is_cyclic, first_cyclic};
ghost use Rattle.circuit_checks.specs.Searching.{are_below, never_rises, stays, label_of};

use crate::component::{labels, mark_of};
use crate::search::{leads, reads_at};
use sis_base::Sequence;
use std::alloc::{AllocError, Global};

/// The first node of the graph that is reached from itself; each edge must lead to a node of the
/// graph.
#[tactic(auto, using(crate::proofs::Falling::cyclic_more, crate::proofs::Falling::cyclic_done, std::proofs::lemmas::Grind::common_steps))]
pub fn first_cyclic(alloc: Global, graph: &[Sequence<usize>]) -> Result<Option<usize>, AllocError>
    requires { IsGraph graph.now }
    ensures { IfOk result (λ found. found ≡ first_cyclic graph.now) }
{
    let labels = labels(alloc, graph)?;
    let ordered = never_rises(graph, labels.as_slice());
    for place in 0..graph.len() {
        if is_cyclic(alloc, graph, labels.as_slice(), ordered, place)? {
            return Ok(Some(place));
        }
    }
    Ok(None)
}

/// Whether a node is reached from itself. If no edge leads to a greater label and all edges from
/// the node lead to lesser ones, it is not, and nothing is searched.
#[tactic(auto, unfolding(crate::specs::Graphs::is_cyclic))]
fn is_cyclic(
    alloc: Global,
    graph: &[Sequence<usize>],
    labels: &[usize],
    ordered: bool,
    place: usize,
) -> Result<bool, AllocError>
    requires graph { IsGraph graph.now }
    requires ordered { ordered ≡ never_rises graph.now labels.now }
    ensures { IfOk result (λ cyclic. cyclic ≡ is_cyclic graph.now place) }
{
    if ordered && !stays(graph, labels, place) {
        return Ok(false);
    }
    leads(alloc, graph, place, place)
}

/// Whether no edge leads to a greater label.
#[tactic(auto, unfolding(crate::specs::Searching::never_rises))]
fn never_rises(graph: &[Sequence<usize>], labels: &[usize]) -> bool
    ensures { result ≡ never_rises graph.now labels.now }
{
    (0..graph.len()).all(|place| are_below(labels, mark_of(labels, place), reads_at(graph, place)))
}

/// Whether the label of each node is at most a bound.
#[tactic(auto, unfolding(crate::specs::Searching::are_below))]
fn are_below(labels: &[usize], bound: usize, places: &[usize]) -> bool
    ensures { result ≡ are_below labels.now bound places.now }
{
    places.iter().all(|place| mark_of(labels, *place) <= bound)
}

/// Whether some edge from a node leads to a label that is not less.
#[tactic(auto, unfolding(crate::specs::Searching::stays))]
fn stays(graph: &[Sequence<usize>], labels: &[usize], place: usize) -> bool
    ensures { result ≡ stays graph.now labels.now place }
{
    let label = mark_of(labels, place);
    reads_at(graph, place)
        .iter()
        .any(|read| label <= mark_of(labels, *read))
}
