//! Trees of two-input NANDs and inverters as numbered vertices, where equal trees share one number.
//!
//! Source: Ershov, "On programming of arithmetic operations" (Communications of the ACM 1, 1958).
//! Invariant (`IsArena`): each vertex is over lower numbers, and no two numbers have the same tree.
//! Callers rely on `KeepsTrees`: a number that has a tree keeps it, whatever is added and whatever
//! the answer. A vertex is packed into eight bytes, so a number above 2^32 - 2 within one is
//! reported as want of memory.

ghost use Rattle.std.specs.Prelude.{◌≡◌, ◌==◌, ◌<◌, ◌⊎◌, ℕ, [], length, IfOk, OnOk};
ghost use Rattle.subject_tree.specs.Trees.{Leaf as TheLeaf, Nand as TheNand, complement_of, product_of, sum_of};
ghost use Rattle.subject_tree.specs.Arenas.{trees, tree_at, built, vertex_at, IsOver, IsArena, KeepsTrees, Has};

use crate::packing::{Packed, pack};
use indexmap::IndexSet;
use std::alloc::{AllocError, Global};
use std::marker::Model;

/// A vertex of a tree: a leaf with its index in a list of leaves, or an inverter or a NAND over
/// vertices by their numbers.
#[derive(Clone, Copy, Debug, PartialEq, Eq, Hash)]
pub enum Vertex {
    Leaf(usize),
    Inv(usize),
    Nand(usize, usize),
}

/// Trees as numbered vertices, each over lower numbers; equal trees have one number. Contracts see
/// it as the list of its vertices. After an error all numbers keep their trees.
#[derive(Drop)]
pub struct Arena {
    nodes: IndexSet<Packed>,
}

impl Model for Arena {
    ghost use Rattle.std.specs.Prelude.{List, map};
    ghost use Rattle.subject_tree.specs.declared.arena.Vertex.{Vertex};

    ghost Value = { List Vertex };

    ghost use Rattle.subject_tree.specs.Arenas.{IsArena};
    ghost use Rattle.subject_tree.specs.Packing.{unpacked};

    ghost view = { λ a. map unpacked a.nodes.keys };

    ghost invariant = { λ a. IsArena (map unpacked a.nodes.keys) };
}

impl Arena {
    /// An arena without vertices; takes no memory.
    pub fn new(alloc: Global) -> Arena
        ensures { result ≡ [] }
    {
        Arena {
            nodes: IndexSet::new(alloc),
        }
    }

    /// The number of vertices; all lower numbers are taken.
    pub fn len(&self) -> usize
        ensures { result ≡ length self.now }
    {
        self.nodes.len()
    }

    /// Whether there is no vertex.
    pub fn is_empty(&self) -> bool
        ensures { result ≡ (length self.now == 0) }
    {
        self.nodes.len() == 0
    }

    /// States the invariant of every arena.
    pub fn sound(&self)
        ensures { IsArena self.now }
    {
        let _nodes = &self.nodes;
    }

    /// The vertex of a number; the leaf of index 0 past the last.
    pub fn vertex(&self, number: usize) -> Vertex
        ensures { result ≡ vertex_at self.now number }
    {
        match self.nodes.get_index(number) {
            Some(packed) => packed.vertex(),
            None => Vertex::Leaf(0),
        }
    }

    /// The number of a vertex over numbers that are taken: a new one if no tree was equal to its
    /// own. Nothing else is added.
    pub fn number_of(&mut self, vertex: Vertex) -> Result<usize, AllocError>
        requires { IsOver (length self.old) vertex }
        ensures ok { IfOk result (λ number. Has self.new number (built (trees self.old) vertex)) }
        ensures kept { KeepsTrees self.old self.new }
        ensures added { OnOk result ((n : ℕ) → n < length self.new → (n < length self.old)
            ⊎ (tree_at self.new n ≡ built (trees self.old) vertex)) }
    {
        let packed = pack(vertex)?;
        let (number, _) = self.nodes.insert_full(packed)?;
        Ok(number)
    }

    /// The number of the leaf of an index.
    pub fn leaf(&mut self, place: usize) -> Result<usize, AllocError>
        ensures ok { IfOk result (λ number. Has self.new number (TheLeaf place)) }
        ensures kept { KeepsTrees self.old self.new }
    {
        self.number_of(Vertex::Leaf(place))
    }

    /// The number of the NAND of the trees of two numbers.
    pub fn gate(&mut self, left: usize, right: usize) -> Result<usize, AllocError>
        requires left { left < length self.old }
        requires right { right < length self.old }
        ensures ok { IfOk result (λ number. Has self.new number
            (TheNand (tree_at self.old left) (tree_at self.old right))) }
        ensures kept { KeepsTrees self.old self.new }
    {
        self.number_of(Vertex::Nand(left, right))
    }

    /// The number of the complement of the tree of a number.
    pub fn complement(&mut self, number: usize) -> Result<usize, AllocError>
        requires { number < length self.old }
        ensures ok { IfOk result (λ made. Has self.new made
            (complement_of (tree_at self.old number))) }
        ensures kept { KeepsTrees self.old self.new }
    {
        self.sound();
        match self.vertex(number) {
            Vertex::Inv(below) => Ok(below),
            Vertex::Leaf(_) => self.number_of(Vertex::Inv(number)),
            Vertex::Nand(_, _) => self.number_of(Vertex::Inv(number)),
        }
    }

    /// The number of the product of the trees of two numbers.
    pub fn product(&mut self, left: usize, right: usize) -> Result<usize, AllocError>
        requires left { left < length self.old }
        requires right { right < length self.old }
        ensures ok { IfOk result (λ number. Has self.new number
            (product_of (tree_at self.old left) (tree_at self.old right))) }
        ensures kept { KeepsTrees self.old self.new }
    {
        let gate = self.gate(left, right)?;
        self.number_of(Vertex::Inv(gate))
    }

    /// The number of the sum of the trees of two numbers.
    pub fn sum(&mut self, left: usize, right: usize) -> Result<usize, AllocError>
        requires left { left < length self.old }
        requires right { right < length self.old }
        ensures ok { IfOk result (λ number. Has self.new number
            (sum_of (tree_at self.old left) (tree_at self.old right))) }
        ensures kept { KeepsTrees self.old self.new }
    {
        let left = self.complement(left)?;
        let right = self.complement(right)?;
        self.gate(left, right)
    }
}
