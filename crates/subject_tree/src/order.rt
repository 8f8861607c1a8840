//! The order of two trees, given by their numbers.
//!
//! Equal trees have one number, so the comparison descends a single path, to the first subtrees
//! that differ. Callers rely on `compare` to be `tree_cmp`, with leaves compared by name.

ghost use Rattle.std.specs.Prelude.{◌≡◌};
ghost use Rattle.subject_tree.specs.Arenas.{tree_at};
ghost use Rattle.subject_tree.specs.Order.{tree_cmp, place_cmp};
ghost use Rattle.subject_tree.specs.Steps.{next};

use crate::arena::{Arena, Vertex};
use crate::leaves::Leaves;
use std::cmp::Ordering;

// What the roots of two different trees decide: how the trees compare, or which two trees below
// compare as they do.
#[derive(Clone, Copy)]
enum Next {
    Done(Ordering),
    Below(usize, usize),
}

// Compares the roots of two different trees.
fn decide(leaves: &Leaves, left: Vertex, right: Vertex) -> Next
    ensures { result ≡ next (place_cmp leaves.now) left right }
{
    match (left, right) {
        (Vertex::Leaf(m), Vertex::Leaf(n)) => Next::Done(leaves.compare(m, n)),
        (Vertex::Leaf(_), Vertex::Inv(_)) => Next::Done(Ordering::Less),
        (Vertex::Leaf(_), Vertex::Nand(_, _)) => Next::Done(Ordering::Less),
        (Vertex::Inv(_), Vertex::Leaf(_)) => Next::Done(Ordering::Greater),
        (Vertex::Inv(m), Vertex::Inv(n)) => Next::Below(m, n),
        (Vertex::Inv(_), Vertex::Nand(_, _)) => Next::Done(Ordering::Less),
        (Vertex::Nand(_, _), Vertex::Leaf(_)) => Next::Done(Ordering::Greater),
        (Vertex::Nand(_, _), Vertex::Inv(_)) => Next::Done(Ordering::Greater),
        (Vertex::Nand(i, m), Vertex::Nand(j, n)) => {
            if i == j {
                Next::Below(m, n)
            } else {
                Next::Below(i, j)
            }
        }
    }
}

impl Arena {
    /// How the trees of two numbers compare, with their leaves by name: a leaf before an inverter
    /// before a NAND, then by the trees below, the left one first. It descends one path, no deeper
    /// than the smaller tree.
    pub fn compare(&self, leaves: &Leaves, left: usize, right: usize) -> Ordering
        ensures { result ≡ tree_cmp (place_cmp leaves.now) (tree_at self.now left)
            (tree_at self.now right) }
    {
        self.sound();
        let mut left = left;
        let mut right = right;
        loop {
            if left == right {
                return Ordering::Equal;
            }
            match decide(leaves, self.vertex(left), self.vertex(right)) {
                Next::Done(ordering) => return ordering,
                Next::Below(next_left, next_right) => {
                    left = next_left;
                    right = next_right;
                }
            }
        }
    }
}
