//! A quick test whether a pattern may match a tree, by the top two levels of both.
//!
//! Source: Keutzer, "DAGON: Technology binding and local optimization by DAG matching" (24th Design
//! Automation Conference, 1987). It needs no recursion and no memory. A pattern that is more than a
//! pin and fails the test matches nothing; no public clause mentions it.

ghost use Rattle.std.specs.Prelude.{◌≡◌};
ghost use Rattle.subject_tree.specs.Trees.{Inv as TheInv, Nand as TheNand};
ghost use Rattle.subject_tree.specs.Arenas.{tree_at};
ghost use Rattle.tree_cover.specs.Fitting.{has_inverter, has_nand, fits_root, may_fit};

use pattern_set::vertex_of;
use subject_tree::{Arena, Vertex};

// Whether the tree of a number is an inverter.
fn is_inverter(nodes: &Arena, number: usize) -> bool
    ensures { result ≡ has_inverter (tree_at nodes.now number) }
{
    match vertex_of(nodes, number) {
        Vertex::Leaf(_) => false,
        Vertex::Inv(_) => true,
        Vertex::Nand(_, _) => false,
    }
}

// Whether the tree of a number is a NAND.
fn is_nand(nodes: &Arena, number: usize) -> bool
    ensures { result ≡ has_nand (tree_at nodes.now number) }
{
    match vertex_of(nodes, number) {
        Vertex::Leaf(_) => false,
        Vertex::Inv(_) => false,
        Vertex::Nand(_, _) => true,
    }
}

// Whether the roots of a pattern and of the tree of a number fit.
fn fits_root(shapes: &Arena, nodes: &Arena, pattern: usize, number: usize) -> bool
    ensures { result ≡ fits_root (tree_at shapes.now pattern) (tree_at nodes.now number) }
{
    match vertex_of(shapes, pattern) {
        Vertex::Leaf(_) => true,
        Vertex::Inv(_) => is_inverter(nodes, number),
        Vertex::Nand(_, _) => is_nand(nodes, number),
    }
}

// Whether an inverter over a pattern fits the tree of a number, down to two levels.
fn fits_inverter(shapes: &Arena, nodes: &Arena, below: usize, number: usize) -> bool
    ensures { result ≡ may_fit (TheInv (tree_at shapes.now below))
        (tree_at nodes.now number) }
{
    match vertex_of(nodes, number) {
        Vertex::Leaf(_) => false,
        Vertex::Inv(under) => fits_root(shapes, nodes, below, under),
        Vertex::Nand(_, _) => false,
    }
}

// Whether a NAND of two patterns fits the tree of a number, down to two levels.
fn fits_nand(shapes: &Arena, nodes: &Arena, left: usize, right: usize, number: usize) -> bool
    ensures { result ≡ may_fit (TheNand (tree_at shapes.now left) (tree_at shapes.now right))
        (tree_at nodes.now number) }
{
    match vertex_of(nodes, number) {
        Vertex::Leaf(_) => false,
        Vertex::Inv(_) => false,
        Vertex::Nand(first, second) => {
            (fits_root(shapes, nodes, left, first) && fits_root(shapes, nodes, right, second))
                || (fits_root(shapes, nodes, left, second)
                    && fits_root(shapes, nodes, right, first))
        }
    }
}

/// Whether the top two levels of a pattern and of the tree of a number fit; false for a pattern
/// that is a single pin.
pub fn may_fit(shapes: &Arena, nodes: &Arena, pattern: usize, number: usize) -> bool
    ensures { result ≡ may_fit (tree_at shapes.now pattern) (tree_at nodes.now number) }
{
    match vertex_of(shapes, pattern) {
        Vertex::Leaf(_) => false,
        Vertex::Inv(below) => fits_inverter(shapes, nodes, below, number),
        Vertex::Nand(left, right) => fits_nand(shapes, nodes, left, right, number),
    }
}
