//! An arena without the trees that are too large for a forest.
//!
//! If no tree has more than `MAX_VERTICES` vertices the arena is returned unchanged. Else the
//! smaller trees are copied to a new arena, and the roots are renumbered. Callers rely on the roots
//! to keep their trees, if these have at most `MAX_VERTICES` vertices together, and on no larger
//! tree being left.

ghost use Rattle.std.specs.Prelude.{◌≡◌, ◌<◌, ◌≤◌, ◌^◌, ◌-◌, ◌⊎◌, ℕ, List, true, [], length, map, sum_by, slice_index_or, nat_le, IfOk, OnOk};
ghost use Rattle.std.specs.List.{list_all};
ghost use Rattle.circuit_model.specs.declared.circuit.Table.{Table};
ghost use Rattle.subject_tree.specs.Trees.{Tree, size_of};
ghost use Rattle.subject_tree.specs.Roots.{AreRoots};
ghost use Rattle.subject_tree.specs.declared.forest.Root.{Root};
ghost use Rattle.subject_tree.specs.Arenas.{trees, tree_at, built, IsOver, KeepsTrees, Has};
ghost use Rattle.subject_tree.specs.Sizes.{word_size};
ghost use Rattle.subject_tree.specs.Pruning.{number_in, renumbered_vertex, renumbered_root};

use crate::arena::{Arena, Vertex};
use crate::forest::Root;
use crate::sizes::size_at;
use sis_base::limits::MAX_VERTICES;
use std::alloc::{AllocError, Global};

// The new number of a number; 0 past the last.
fn number_at(numbers: &[usize], number: usize) -> usize
    ensures { result ≡ number_in numbers.now number }
{
    match numbers.get(number) {
        Some(number) => *number,
        None => 0,
    }
}

// A vertex over the new numbers of its own.
fn renumbered(numbers: &[usize], vertex: Vertex) -> Vertex
    ensures { result ≡ renumbered_vertex numbers.now vertex }
{
    match vertex {
        Vertex::Leaf(place) => Vertex::Leaf(place),
        Vertex::Inv(below) => Vertex::Inv(number_at(numbers, below)),
        Vertex::Nand(left, right) => {
            Vertex::Nand(number_at(numbers, left), number_at(numbers, right))
        }
    }
}

// Keeps a vertex, if its tree is small.
fn keep_vertex(
    kept: &mut Arena,
    numbers: &[usize],
    vertex: Vertex,
    is_small: bool,
) -> Result<usize, AllocError>
    requires { is_small ≡ true → IsOver (length kept.old) (renumbered_vertex numbers.now vertex) }
    ensures has { IfOk result (λ number. is_small ≡ true → Has kept.new number
        (built (trees kept.old) (renumbered_vertex numbers.now vertex))) }
    ensures kept { KeepsTrees kept.old kept.new }
    ensures added { OnOk result ((n : ℕ) → n < length kept.new → (n < length kept.old)
        ⊎ ((is_small ≡ true) × (tree_at kept.new n ≡ built (trees kept.old)
        (renumbered_vertex numbers.now vertex)))) }
{
    if is_small {
        kept.number_of(renumbered(numbers, vertex))
    } else {
        Ok(0)
    }
}

// Copies the trees that have at most so many vertices to another arena; returns the new number of
// each number.
fn keep_small(
    alloc: Global,
    arena: &Arena,
    sizes: &[u64],
    limit: u64,
    kept: &mut Arena,
) -> Result<Vec<usize>, AllocError>
    requires sizes { sizes.now ≡ map word_size (trees arena.now) }
    requires limit { limit < 2 ^ 64 - 1 }
    requires empty { kept.old ≡ [] }
    ensures each { IfOk result (λ numbers. (n : ℕ) → n < length arena.now → size_of
        (tree_at arena.now n) ≤ limit → Has kept.new (number_in numbers.items n)
        (tree_at arena.now n)) }
    ensures small { OnOk result ((n : ℕ) → n < length kept.new → size_of
        (tree_at kept.new n) ≤ limit) }
{
    arena.sound();
    let mut numbers = Vec::with_capacity(alloc, arena.len())?;
    for number in 0..arena.len() {
        let is_small = size_at(sizes, number) <= limit;
        let made = keep_vertex(kept, numbers.as_slice(), arena.vertex(number), is_small)?;
        numbers.push(made)?;
    }
    Ok(numbers)
}

// Gives roots the new numbers of theirs.
fn renumber_roots(roots: &mut Vec<Root>, numbers: &[usize])
    ensures { roots.new.items ≡ map (renumbered_root numbers.now) roots.old.items }
{
    for root in roots.iter_mut() {
        root.number = number_at(numbers, root.number);
    }
}

// Whether all sizes are at most a limit.
fn are_small(sizes: &[u64], limit: u64) -> bool
    ensures { result ≡ list_all (λ size. nat_le size limit) sizes.now }
{
    sizes.iter().all(|size| *size <= limit)
}

// The trees that have at most MAX_VERTICES vertices, in an arena of their own; each root gets its
// tree's number there.
fn pruned(
    alloc: Global,
    arena: &Arena,
    sizes: &[u64],
    roots: &mut Vec<Root>,
) -> Result<Arena, AllocError>
    requires { sizes.now ≡ map word_size (trees arena.now) }
    ensures small { IfOk result (λ kept. (n : ℕ) → n < length kept → size_of
        (tree_at kept n) ≤ MAX_VERTICES) }
    ensures roots { IfOk result (λ kept. (names : List (List ℕ)) (tree : List ℕ → Tree (List ℕ))
        (tables : List Table) → AreRoots arena.now names tree tables roots.old.items
        → sum_by (λ (root : Root). size_of (tree_at arena.now root.number)) roots.old.items ≤ MAX_VERTICES → AreRoots kept names tree tables roots.new.items) }
{
    let mut kept = Arena::new(alloc);
    let numbers = keep_small(alloc, arena, sizes, MAX_VERTICES, &mut kept)?;
    renumber_roots(roots, numbers.as_slice());
    Ok(kept)
}

/// The trees that are small enough for a forest; each root gets its tree's number among them. If
/// all are, the arena is returned as it is; else they get an arena of their own.
pub fn shrink(alloc: Global, arena: Arena, roots: &mut Vec<Root>) -> Result<Arena, AllocError>
    ensures small { IfOk result (λ kept. (n : ℕ) → n < length kept → size_of
        (tree_at kept n) ≤ MAX_VERTICES) }
    ensures roots { IfOk result (λ kept. (names : List (List ℕ)) (tree : List ℕ → Tree (List ℕ))
        (tables : List Table) → AreRoots arena names tree tables roots.old.items
        → sum_by (λ (root : Root). size_of (tree_at arena root.number)) roots.old.items ≤ MAX_VERTICES → AreRoots kept names tree tables roots.new.items) }
{
    let sizes = arena.sizes(alloc)?;
    if are_small(sizes.as_slice(), MAX_VERTICES) {
        return Ok(arena);
    }
    pruned(alloc, &arena, sizes.as_slice(), roots)
}
