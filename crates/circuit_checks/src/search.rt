//! The search for all nodes to which a node leads: a worklist of nodes, each added when it is first
//! seen. `leads` answers for walks of one to as many steps as the graph has nodes.

ghost use Rattle.std.specs.Prelude.{◌≡◌, ℕ, ◌<◌, ◌++◌, true, false, All, length, slice_set, replicate, IfOk, OnOk};
ghost use Rattle.circuit_checks.specs.Graphs.{IsGraph, reads_of, leads};
ghost use Rattle.circuit_checks.specs.Searching.{is_seen, marks, fresh, fresh_one};

use sis_base::Sequence;
use std::alloc::{AllocError, Global};

/// The successors of a node; none for a node outside the graph.
#[tactic(auto, unfolding(crate::specs::Graphs::reads_of))]
pub fn reads_at(graph: &[Sequence<usize>], place: usize) -> &[usize]
    ensures { result.now ≡ reads_of graph.now place }
{
    match graph.get(place) {
        Some(reads) => reads.as_slice(),
        None => &[],
    }
}

/// Whether a walk of one or more steps leads from one node to another.
pub fn leads(
    alloc: Global,
    graph: &[Sequence<usize>],
    from: usize,
    to: usize,
) -> Result<bool, AllocError>
    requires { IsGraph graph.now }
    ensures { IfOk result (λ led. led ≡ leads graph.now (length graph.now) from to) }
{
    let seen = reached(alloc, graph, from)?;
    Ok(is_seen(seen.as_slice(), to))
}

/// Whether a node is marked.
#[tactic(auto, unfolding(crate::specs::Searching::is_seen))]
pub fn is_seen(seen: &[bool], place: usize) -> bool
    ensures { result ≡ is_seen seen.now place }
{
    seen.get(place).copied().unwrap_or(false)
}

/// The marks of all nodes to which a node leads.
pub fn reached(
    alloc: Global,
    graph: &[Sequence<usize>],
    from: usize,
) -> Result<Vec<bool>, AllocError>
    requires { IsGraph graph.now }
    ensures { IfOk result (λ seen. (place : ℕ) → is_seen seen.items place ≡ leads graph.now
        (length graph.now) from place) }
{
    let mut seen = unmarked(alloc, graph.len())?;
    let mut pending = Vec::new(alloc);
    note_all(reads_at(graph, from), &mut seen, &mut pending)?;
    while let Some(place) = pending.pop() {
        note_all(reads_at(graph, place), &mut seen, &mut pending)?;
    }
    Ok(seen)
}

/// No marks, for so many places.
pub fn unmarked(alloc: Global, count: usize) -> Result<Vec<bool>, AllocError>
    ensures { IfOk result (λ seen. seen.items ≡ replicate count false) }
{
    vec![in alloc; false; count]
}

/// Marks nodes, and appends those that are seen for the first time to the pending ones.
#[tactic(auto, using(crate::proofs::Marking::marks_more, crate::proofs::Marking::marks_done, crate::proofs::Marking::fresh_more, crate::proofs::Marking::fresh_done, std::proofs::lemmas::Grind::common_steps))]
pub fn note_all(
    places: &[usize],
    seen: &mut Vec<bool>,
    pending: &mut Vec<usize>,
) -> Result<(), AllocError>
    requires { All (λ place. place < length seen.old.items) places.now }
    ensures marks { OnOk result (seen.new.items ≡ marks seen.old.items places.now) }
    ensures fresh { OnOk result (pending.new.items
        ≡ pending.old.items ++ fresh seen.old.items places.now) }
{
    for place in places {
        note(*place, seen, pending)?;
    }
    Ok(())
}

/// Marks a node, and appends it to the pending ones if it is seen for the first time.
fn note(place: usize, seen: &mut Vec<bool>, pending: &mut Vec<usize>) -> Result<(), AllocError>
    requires { place < length seen.old.items }
    ensures mark { OnOk result (seen.new.items ≡ slice_set seen.old.items place true) }
    ensures fresh { OnOk result (pending.new.items
        ≡ pending.old.items ++ fresh_one seen.old.items place) }
{
    if !is_seen(seen.as_slice(), place) {
        pending.push(place)?;
    }
    seen[place] = true;
    Ok(())
}
