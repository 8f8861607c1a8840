//! The unique table of vertices (K. S. Brace, R. L. Rudell and R. E. Bryant, 1990): numbers 0 and 1
//! are the constants, and number n + 2 is that of the vertex at index n. The halves of each vertex
//! have lower numbers, no two numbers have one tree, and each tree is reduced.

ghost use Rattle.std.specs.Prelude.{◌≡◌, ℕ, suc, ◌+◌, ◌<◌, ◌≤◌, Some, None, [], length, take, IfOk, IfSome, OnOk};
ghost use Rattle.func_core.specs.Trees.{Node, IsReduced};
ghost use Rattle.func_shared.specs.Vertices.{tree_at, IsNumber, Has, IsTable, Grows, AddsWithin};
ghost use Rattle.func_shared.specs.Merging.{joined};

use crate::vertex::Vertex;
use indexmap::IndexSet;
use std::alloc::{AllocError, Global};
use std::marker::Model;

/// Reduced trees as numbered vertices, in which equal trees have one number. Contracts see the list
/// of its vertices.
#[derive(Drop)]
pub(crate) struct Table {
    vertices: IndexSet<Vertex>,
}

impl Model for Table {
    ghost use Rattle.std.specs.Prelude.{List};
    ghost use Rattle.func_shared.specs.declared.vertex.Vertex.{Vertex};

    ghost Value = { List Vertex };

    ghost use Rattle.func_shared.specs.Vertices.{IsTable};

    ghost view = { λ t. t.vertices.keys };

    ghost invariant = { λ t. IsTable t.vertices.keys };
}

impl Table {
    /// The table without vertices; allocates nothing.
    pub(crate) fn new(alloc: Global) -> Table
        ensures { result ≡ [] }
    {
        Table {
            vertices: IndexSet::new(alloc),
        }
    }

    /// The invariant of every table.
    pub(crate) fn sound(&self)
        ensures { IsTable self.now }
    {
        let _vertices = &self.vertices;
    }

    /// The number of vertices.
    pub(crate) fn len(&self) -> usize
        ensures { result ≡ length self.now }
    {
        self.vertices.len()
    }

    /// Keeps only the first vertices; allocates nothing.
    pub(crate) fn cut(&mut self, count: usize)
        ensures { self.new ≡ take count self.old }
    {
        self.vertices.truncate(count);
    }

    /// The vertex of a number, unless it is a constant's; its halves have lower numbers.
    pub(crate) fn vertex(&self, number: u32) -> Option<Vertex>
        requires { IsNumber self.now number }
        ensures constant { result ≡ None → number < 2 }
        ensures tree { IfSome result (λ vertex. tree_at self.now number
            ≡ Node vertex.place (tree_at self.now vertex.low) (tree_at self.now vertex.high)) }
        ensures below { IfSome result (λ vertex. (vertex.low < number) × (vertex.high < number)) }
    {
        let index = (number as usize).checked_sub(2)?;
        self.vertices.get_index(index).copied()
    }

    /// The number of a node over the trees of two numbers, or of the half if both are equal. A
    /// vertex is added only if no number had the tree, and only one that is an inner subtree of
    /// that node.
    pub(crate) fn join(&mut self, place: u32, low: u32, high: u32) -> Result<u32, AllocError>
        requires low { IsNumber self.old low }
        requires high { IsNumber self.old high }
        requires low_reduced { IsReduced (suc place) (tree_at self.old low) }
        requires high_reduced { IsReduced (suc place) (tree_at self.old high) }
        ensures ok { IfOk result (λ number. Has self.new number
            (joined place (tree_at self.old low) (tree_at self.old high))) }
        ensures grows { Grows self.old self.new }
        ensures added { AddsWithin self.old self.new
            (joined place (tree_at self.old low) (tree_at self.old high)) }
    {
        if low == high {
            return Ok(low);
        }
        if self.vertices.len() >= 4_294_967_294 {
            return Err(AllocError);
        }
        let (index, _) = self.vertices.insert_full(Vertex { place, low, high })?;
        Ok((index + 2) as u32)
    }
}
