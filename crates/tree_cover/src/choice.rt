//! Choices of a gate at a tree, and the order that breaks ties between them.
//!
//! The lesser choice is taken: by cost, then by the index of the gate in the library, then by the
//! trees at the pins in order. The order of ties is the project's own. Callers rely on
//! `order_of`; a `Candidate` is a choice whose pins need no memory of their own.

ghost use Rattle.std.specs.Prelude.{◌≡◌};
ghost use Rattle.std.specs.Ordering.{ordering_then, nat_cmp};
ghost use Rattle.std.specs.Cmp.Lexicographic.{slice_cmp};
ghost use Rattle.subject_tree.specs.Order.{tree_cmp, place_cmp};
ghost use Rattle.subject_tree.specs.Tables.{trees_of};
ghost use Rattle.tree_cover.specs.Candidates.{order_of};
ghost use Rattle.tree_cover.specs.Held.{choice_of};

use sis_base::{Sequence, Short};
use std::cmp::Ordering;
use subject_tree::{Arena, Leaves};

/// A gate chosen at a tree: the cost of the cover in millionths, the gate's index in the library,
/// and for each pin the number of the tree that it is bound to. `Choices` keeps many.
#[derive(Drop)]
pub struct Choice {
    pub cost: u128,
    pub place: usize,
    pub pins: Sequence<u32>,
}

// How two lists of trees compare: the first two that differ decide, otherwise the lengths do.
fn compare_pins(leaves: &Leaves, nodes: &Arena, one: &[u32], other: &[u32]) -> Ordering
    ensures { result ≡ slice_cmp (tree_cmp (place_cmp leaves.now)) (trees_of nodes.now one.now)
        (trees_of nodes.now other.now) }
{
    let count = one.len().min(other.len());
    let mut place = 0;
    while place < count {
        match nodes.compare(leaves, one[place] as usize, other[place] as usize) {
            Ordering::Less => return Ordering::Less,
            Ordering::Greater => return Ordering::Greater,
            Ordering::Equal => place += 1,
        }
    }
    one.len().cmp(&other.len())
}

/// A choice that is not yet known to be the best. Gates of covers have at most six literals, so
/// that the numbers at its pins take no memory of their own.
#[derive(Drop)]
pub(crate) struct Candidate {
    pub cost: u128,
    pub place: usize,
    pub pins: Short<u32, 6>,
}

/// How two candidates compare, the lesser of which is taken: by cost, then by the index of the gate
/// in the library, then by the trees at the pins in order.
pub(crate) fn compare_candidates(
    leaves: &Leaves,
    nodes: &Arena,
    one: &Candidate,
    other: &Candidate,
) -> Ordering
    ensures { result ≡ order_of (tree_cmp (place_cmp leaves.now)) nodes.now (choice_of one.now)
        (choice_of other.now) }
{
    match one.cost.cmp(&other.cost).then(one.place.cmp(&other.place)) {
        Ordering::Less => Ordering::Less,
        Ordering::Equal => compare_pins(leaves, nodes, one.pins.as_slice(), other.pins.as_slice()),
        Ordering::Greater => Ordering::Greater,
    }
}
