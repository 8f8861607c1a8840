//! The patterns of the gates of a library, and whether the library can cover every tree.
//!
//! Source: Keutzer, "DAGON: Technology binding and local optimization by DAG matching" (24th Design
//! Automation Conference, 1987): a library is complete if it has an inverter and a two-input NAND.
//! `patterns` lists for each gate its patterns, each once, or none if the gate is not used in
//! covers. Callers rely on `AreGatesOf`, and on `covers_all` to name the first of the two that is
//! missing.

ghost use Rattle.std.specs.Prelude.{◌≡◌, nat_eq, IfOk};
ghost use Rattle.std.specs.List.{IsDistinct};
ghost use Rattle.subject_tree.specs.Arenas.{trees, tree_at, built, KeepsTrees};
ghost use Rattle.subject_tree.specs.Trees.{Leaf as TheLeaf};
ghost use Rattle.genlib_expr.specs.Formula.{formula_of};
ghost use Rattle.pattern_set.specs.Numbers.{HaveSame};
ghost use Rattle.pattern_set.specs.Cells.{Lists, IsUsedPattern, IsGateOf, AreGatesOf, is_leaf, are_leaves, is_inverter, is_nand, lists_some, has_some, lack_of};

use crate::cells::{Cell, PatternFault, PatternGate, Patterns};
use crate::gathering::all_patterns;
use crate::usage::is_used;
use genlib_expr::Expr;
use indexmap::IndexSet;
use sis_base::Sequence;
use std::alloc::{AllocError, Global};
use subject_tree::{Arena, Vertex};

// Numbers, each once.
fn once(alloc: Global, numbers: &[usize]) -> Result<Sequence<usize>, AllocError>
    ensures once { IfOk result (λ made. IsDistinct nat_eq made) }
    ensures same { IfOk result (λ made. HaveSame made numbers.now) }
{
    let mut kept = IndexSet::new(alloc);
    for number in numbers {
        let (_place, _new) = kept.insert_full(*number)?;
    }
    Ok(Sequence::from_vec(Vec::from_slice(alloc, kept.as_slice())?))
}

// The patterns of a formula, each once; none if its gate is not used.
fn used_patterns(
    alloc: Global,
    arena: &mut Arena,
    expr: &Expr,
) -> Result<Sequence<usize>, AllocError>
    ensures ok { IfOk result (λ made. Lists arena.new made (IsUsedPattern (formula_of expr.now))) }
    ensures kept { KeepsTrees arena.old arena.new }
{
    if !is_used(expr) {
        return Ok(Sequence::new(alloc));
    }
    let all = all_patterns(alloc, arena, expr)?;
    let made = once(alloc, all.as_slice())?;
    Ok(made)
}

// The gate of a cell.
fn gate_of(alloc: Global, arena: &mut Arena, cell: &Cell) -> Result<PatternGate, AllocError>
    ensures ok { IfOk result (λ made. IsGateOf arena.new cell.now made) }
    ensures kept { KeepsTrees arena.old arena.new }
{
    let patterns = used_patterns(alloc, arena, cell.expr)?;
    Ok(PatternGate {
        area: cell.area,
        pins: cell.pins,
        patterns,
    })
}

/// The patterns of the gates of cells, in order.
pub fn patterns(alloc: Global, cells: &[Cell]) -> Result<Patterns, AllocError>
    ensures { IfOk result (λ made. AreGatesOf made.arena cells.now made.gates) }
{
    let mut arena = Arena::new(alloc);
    let mut gates = Sequence::new(alloc);
    for cell in cells {
        let gate = gate_of(alloc, &mut arena, cell)?;
        gates.push(gate)?;
    }
    Ok(Patterns { arena, gates })
}

/// The vertex of a number, of which its tree is made.
pub fn vertex_of(arena: &Arena, number: usize) -> Vertex
    ensures { tree_at arena.now number ≡ built (trees arena.now) result }
{
    arena.sound();
    arena.vertex(number)
}

// Whether the tree of a number is a leaf.
fn is_leaf(arena: &Arena, number: usize) -> bool
    ensures { result ≡ is_leaf (tree_at arena.now number) }
{
    match vertex_of(arena, number) {
        Vertex::Leaf(_) => true,
        Vertex::Inv(_) => false,
        Vertex::Nand(_, _) => false,
    }
}

// Whether the tree of a number is a leaf other than that of an index.
fn is_other_leaf(arena: &Arena, place: usize, number: usize) -> bool
    ensures { result ≡ are_leaves (TheLeaf place) (tree_at arena.now number) }
{
    match vertex_of(arena, number) {
        Vertex::Leaf(other) => place != other,
        Vertex::Inv(_) => false,
        Vertex::Nand(_, _) => false,
    }
}

// Whether the trees of two numbers are different leaves.
fn are_different_leaves(arena: &Arena, left: usize, right: usize) -> bool
    ensures { result ≡ are_leaves (tree_at arena.now left) (tree_at arena.now right) }
{
    match vertex_of(arena, left) {
        Vertex::Leaf(place) => is_other_leaf(arena, place, right),
        Vertex::Inv(_) => false,
        Vertex::Nand(_, _) => false,
    }
}

// Whether the tree of a number is an inverter over a leaf.
fn has_inverter(arena: &Arena, number: usize) -> bool
    ensures { result ≡ is_inverter (tree_at arena.now number) }
{
    match vertex_of(arena, number) {
        Vertex::Leaf(_) => false,
        Vertex::Inv(below) => is_leaf(arena, below),
        Vertex::Nand(_, _) => false,
    }
}

// Whether the tree of a number is a NAND over two different leaves.
fn has_nand(arena: &Arena, number: usize) -> bool
    ensures { result ≡ is_nand (tree_at arena.now number) }
{
    match vertex_of(arena, number) {
        Vertex::Leaf(_) => false,
        Vertex::Inv(_) => false,
        Vertex::Nand(left, right) => are_different_leaves(arena, left, right),
    }
}

// Whether a gate lists an inverter.
fn lists_inverter(arena: &Arena, gate: &PatternGate) -> bool
    ensures { result ≡ lists_some is_inverter arena.now gate.now }
{
    gate.patterns
        .as_slice()
        .iter()
        .any(|number| has_inverter(arena, *number))
}

// Whether a gate lists a NAND of two pins.
fn lists_nand(arena: &Arena, gate: &PatternGate) -> bool
    ensures { result ≡ lists_some is_nand arena.now gate.now }
{
    gate.patterns
        .as_slice()
        .iter()
        .any(|number| has_nand(arena, *number))
}

// Whether some gate lists an inverter.
fn some_inverter(arena: &Arena, gates: &[PatternGate]) -> bool
    ensures { result ≡ has_some is_inverter arena.now gates.now }
{
    gates.iter().any(|gate| lists_inverter(arena, gate))
}

// Whether some gate lists a NAND of two pins.
fn some_nand(arena: &Arena, gates: &[PatternGate]) -> bool
    ensures { result ≡ has_some is_nand arena.now gates.now }
{
    gates.iter().any(|gate| lists_nand(arena, gate))
}

// What a library lacks, by whether it has an inverter and a NAND.
fn lack_by(has_inverter: bool, has_nand: bool) -> Result<(), PatternFault>
    ensures { result ≡ lack_of has_inverter has_nand }
{
    if !has_inverter {
        return Err(PatternFault::NoInverter);
    }
    if !has_nand {
        return Err(PatternFault::NoNand);
    }
    Ok(())
}

/// Whether the library can cover any tree: it has an inverter and a NAND of two pins. Takes no
/// memory.
pub fn covers_all(patterns: &Patterns) -> Result<(), PatternFault>
    ensures { result ≡ lack_of (has_some is_inverter patterns.now.arena patterns.now.gates)
        (has_some is_nand patterns.now.arena patterns.now.gates) }
{
    let arena = &patterns.arena;
    let gates = patterns.gates.as_slice();
    lack_by(some_inverter(arena, gates), some_nand(arena, gates))
}
