//! The sizes of the trees of an arena: their vertices, shared subtrees counted each time.
//!
//! A size that exceeds the greatest word of 64 bits is given as that word.

ghost use Rattle.std.specs.Prelude.{◌≡◌, map, slice_index_or, IfOk};
ghost use Rattle.subject_tree.specs.Arenas.{trees};
ghost use Rattle.subject_tree.specs.Sizes.{word_size, size_over};

use crate::arena::{Arena, Vertex};
use std::alloc::{AllocError, Global};

/// The size of a number; past the last that of a leaf.
pub fn size_at(sizes: &[u64], number: usize) -> u64
    ensures { result ≡ slice_index_or sizes.now number 1 }
{
    match sizes.get(number) {
        Some(size) => *size,
        None => 1,
    }
}

// The size of the tree of a vertex, given those of the trees below it.
fn size_over(sizes: &[u64], vertex: Vertex) -> u64
    ensures { result ≡ size_over sizes.now vertex }
{
    match vertex {
        Vertex::Leaf(_) => 1,
        Vertex::Inv(below) => size_at(sizes, below).saturating_add(1),
        Vertex::Nand(left, right) => size_at(sizes, left)
            .saturating_add(size_at(sizes, right))
            .saturating_add(1),
    }
}

impl Arena {
    /// The number of vertices of the tree of each number, in the order of the numbers; `u64::MAX`
    /// if there are that many or more.
    pub fn sizes(&self, alloc: Global) -> Result<Vec<u64>, AllocError>
        ensures { IfOk result (λ sizes. sizes.items ≡ map word_size (trees self.now)) }
    {
        self.sound();
        let mut sizes = Vec::with_capacity(alloc, self.len())?;
        for number in 0..self.len() {
            let size = size_over(sizes.as_slice(), self.vertex(number));
            sizes.push(size)?;
        }
        Ok(sizes)
    }
}
