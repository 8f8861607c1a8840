//! Outlines: patterns whose pins are not distinguished, and which of them fit a tree.
//!
//! Source: Hoffmann and O'Donnell, "Pattern matching in trees" (Journal of the ACM 29, 1982): what
//! patterns have in common is looked for once. Many patterns share one outline, so at a vertex each
//! outline is tried once for all of them. Callers rely on `is_open`: a pattern whose outline is
//! marked as misfit matches nothing there. The recursion is as deep as the pattern.

ghost use Rattle.std.specs.Prelude.{◌≡◌, ◌<◌, ℕ, Some, false, length, slice_get, IfOk};
ghost use Rattle.subject_tree.specs.Trees.{Nand as TheNand};
ghost use Rattle.subject_tree.specs.Arenas.{tree_at, KeepsTrees};
ghost use Rattle.tree_cover.specs.Outlines.{fits, IsOutline, AreOutlines, AreMarks};

use std::alloc::{AllocError, Global};
use subject_tree::{Arena, Vertex};

/// The outlines of patterns: trees that fit exactly where the patterns do, and for each pattern the
/// number of its outline.
#[derive(Drop)]
pub(crate) struct Outlines {
    pub arena: Arena,
    pub numbers: Vec<usize>,
}

// The outline of a NAND of two outlines, in whichever order they are given.
fn outline_over(outlines: &mut Arena, one: usize, other: usize) -> Result<usize, AllocError>
    requires one { one < length outlines.old }
    requires other { other < length outlines.old }
    ensures ok { IfOk result (λ number. IsOutline outlines.new
        (TheNand (tree_at outlines.old one) (tree_at outlines.old other)) number) }
    ensures kept { KeepsTrees outlines.old outlines.new }
{
    if other < one {
        return outlines.gate(other, one);
    }
    outlines.gate(one, other)
}

// The outline of a pattern, from those of the patterns before it.
fn outline_at(
    outlines: &mut Arena,
    shapes: &Arena,
    numbers: &[usize],
    pattern: usize,
) -> Result<usize, AllocError>
    requires pattern { pattern < length shapes.now }
    requires count { length numbers.now ≡ pattern }
    requires numbers { AreOutlines outlines.old shapes.now numbers.now }
    ensures ok { IfOk result (λ number. IsOutline outlines.new (tree_at shapes.now pattern) number) }
    ensures kept { KeepsTrees outlines.old outlines.new }
{
    shapes.sound();
    match shapes.vertex(pattern) {
        Vertex::Leaf(_) => outlines.leaf(0),
        Vertex::Inv(below) => outlines.number_of(Vertex::Inv(numbers[below])),
        Vertex::Nand(left, right) => outline_over(outlines, numbers[left], numbers[right]),
    }
}

/// The outlines of all patterns.
pub(crate) fn outlines_of(alloc: Global, shapes: &Arena) -> Result<Outlines, AllocError>
    ensures { IfOk result (λ made. AreOutlines made.arena shapes.now made.numbers.items) }
{
    let mut arena = Arena::new(alloc);
    let mut numbers = Vec::with_capacity(alloc, shapes.len())?;
    for pattern in 0..shapes.len() {
        let number = outline_at(&mut arena, shapes, numbers.as_slice(), pattern)?;
        numbers.push(number)?;
    }
    Ok(Outlines { arena, numbers })
}

// Whether a pattern fits the tree of a number, its pins not distinguished; the recursion is as deep
// as the pattern.
fn fits(shapes: &Arena, nodes: &Arena, pattern: usize, number: usize) -> bool
    ensures { result ≡ fits (tree_at shapes.now pattern) (tree_at nodes.now number) }
{
    shapes.sound();
    nodes.sound();
    match shapes.vertex(pattern) {
        Vertex::Leaf(_) => true,
        Vertex::Inv(below) => match nodes.vertex(number) {
            Vertex::Leaf(_) => false,
            Vertex::Inv(under) => fits(shapes, nodes, below, under),
            Vertex::Nand(_, _) => false,
        },
        Vertex::Nand(left, right) => match nodes.vertex(number) {
            Vertex::Leaf(_) => false,
            Vertex::Inv(_) => false,
            Vertex::Nand(first, second) => {
                (fits(shapes, nodes, left, first) && fits(shapes, nodes, right, second))
                    || (fits(shapes, nodes, left, second) && fits(shapes, nodes, right, first))
            }
        },
    }
}

/// For each outline whether it fits the tree of a number.
pub(crate) fn marks_of(
    alloc: Global,
    outlines: &Arena,
    nodes: &Arena,
    number: usize,
) -> Result<Vec<bool>, AllocError>
    ensures { IfOk result (λ made. AreMarks outlines.now nodes.now number made.items) }
{
    let mut made = Vec::with_capacity(alloc, outlines.len())?;
    for outline in 0..outlines.len() {
        made.push(fits(outlines, nodes, outline, number))?;
    }
    Ok(made)
}

/// Whether a pattern's outline is not marked as a misfit.
pub(crate) fn is_open(numbers: &[usize], marks: &[bool], pattern: usize) -> bool
    ensures { result ≡ false → (outline : ℕ) × (slice_get numbers.now pattern ≡ Some outline)
        × (slice_get marks.now outline ≡ Some false) }
{
    match numbers.get(pattern) {
        None => true,
        Some(outline) => match marks.get(*outline) {
            None => true,
            Some(mark) => *mark,
        },
    }
}
