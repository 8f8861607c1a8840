//! The bindings with which a pattern matches a tree, a NAND in either order of its inputs.
//!
//! Source: Aho, Ganapathi and Tjiang, "Code generation using tree matching and dynamic programming"
//! (ACM Transactions on Programming Languages and Systems 11, 1989). A list of partial bindings
//! grows as pattern and tree are walked together, by a recursion as deep as the pattern. Callers
//! rely on `matches` to be exact: the pattern matches with given trees at its pins exactly if one
//! of the bindings agrees with them.

ghost use Rattle.std.specs.Prelude.{◌≡◌, ◌<◌, ◌++◌, ℕ, List, length, ◌↔◌, IfOk};
ghost use Rattle.std.specs.List.{flat_map};
ghost use Rattle.subject_tree.specs.Trees.{Tree};
ghost use Rattle.subject_tree.specs.Arenas.{tree_at};
ghost use Rattle.pattern_set.specs.Values.{HasLeaf};
ghost use Rattle.tree_cover.specs.Covers.{Matches};
ghost use Rattle.tree_cover.specs.Bindings.{SomeAgrees, PinsBelow, bind, grown, matched};

use crate::binding::{Binding, bind, unbound};
use sis_base::limits::MAX_PINS;
use std::alloc::{AllocError, Global};
use subject_tree::{Arena, Vertex};

// The bindings with one more pin bound to the tree of a number.
fn bind_each(
    alloc: Global,
    pin: usize,
    number: usize,
    bindings: &[Binding],
) -> Result<Vec<Binding>, AllocError>
    ensures { IfOk result (λ made. made.items ≡ flat_map (bind pin number) bindings.now) }
{
    let mut made = Vec::new(alloc);
    for binding in bindings {
        bind(pin, number, binding, &mut made)?;
    }
    Ok(made)
}

// Both lists of bindings, one after the other.
fn both(left: Vec<Binding>, right: Vec<Binding>) -> Result<Vec<Binding>, AllocError>
    ensures { IfOk result (λ made. made.items ≡ left.items ++ right.items) }
{
    let mut made = left;
    let mut behind = right;
    made.append(&mut behind)?;
    Ok(made)
}

// The bindings that some bindings grow to when a pattern is matched with the tree of a number; the
// recursion is as deep as the pattern.
fn grow(
    alloc: Global,
    nodes: &Arena,
    shapes: &Arena,
    pattern: usize,
    number: usize,
    bindings: &[Binding],
) -> Result<Vec<Binding>, AllocError>
    ensures { IfOk result (λ made. made.items ≡ grown nodes.now
        (tree_at shapes.now pattern) number bindings.now) }
{
    if bindings.is_empty() {
        return Ok(Vec::new(alloc));
    }
    shapes.sound();
    match shapes.vertex(pattern) {
        Vertex::Leaf(pin) => {
            let made = bind_each(alloc, pin, number, bindings)?;
            Ok(made)
        }
        Vertex::Inv(below) => match nodes.vertex(number) {
            Vertex::Inv(under) => {
                let made = grow(alloc, nodes, shapes, below, under, bindings)?;
                Ok(made)
            }
            Vertex::Leaf(_) => Ok(Vec::new(alloc)),
            Vertex::Nand(_, _) => Ok(Vec::new(alloc)),
        },
        Vertex::Nand(left, right) => match nodes.vertex(number) {
            Vertex::Nand(first, second) => {
                let straight = grow(alloc, nodes, shapes, left, first, bindings)?;
                let straight = grow(alloc, nodes, shapes, right, second, straight.as_slice())?;
                let crossed = grow(alloc, nodes, shapes, left, second, bindings)?;
                let crossed = grow(alloc, nodes, shapes, right, first, crossed.as_slice())?;
                let made = both(straight, crossed)?;
                Ok(made)
            }
            Vertex::Leaf(_) => Ok(Vec::new(alloc)),
            Vertex::Inv(_) => Ok(Vec::new(alloc)),
        },
    }
}

/// The bindings with which a pattern matches the tree of a number: it matches with trees at its
/// pins exactly if one of them agrees.
pub fn matches(
    alloc: Global,
    nodes: &Arena,
    shapes: &Arena,
    pattern: usize,
    number: usize,
) -> Result<Vec<Binding>, AllocError>
    requires number { number < length nodes.now }
    requires pins { PinsBelow MAX_PINS (tree_at shapes.now pattern) }
    ensures exact { IfOk result (λ made. (bound : List (Tree ℕ)) → Matches
        (tree_at shapes.now pattern) (tree_at nodes.now number) bound
        ↔ SomeAgrees nodes.now made.items bound) }
    ensures grown { IfOk result (λ made. made.items ≡ matched nodes.now
        (tree_at shapes.now pattern) number) }
{
    nodes.sound();
    let mut start = Vec::with_capacity(alloc, 1)?;
    start.push(unbound())?;
    let made = grow(alloc, nodes, shapes, pattern, number, start.as_slice())?;
    Ok(made)
}
