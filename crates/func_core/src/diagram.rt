//! Decision trees in memory, and the operations on them.
//!
//! Source: R. E. Bryant, "Graph-Based Algorithms for Boolean Function Manipulation" (1986): apply,
//! satisfy-one and reduced trees. Each operation returns a tree that computes the operation's
//! function, and that is reduced if its arguments are: variables increase on each path and no node
//! has equal halves. No subtrees are shared. `size_of` counts different inner subtrees by comparing
//! them, so it is meant for small trees.

ghost use Rattle.std.specs.Prelude.{◌≡◌, ℕ, suc, ◌≤◌, Bool, IfOk, map, [], ◌∷◌, if◌then◌else◌};
ghost use Rattle.std.specs.Set.{is_member};
ghost use Rattle.func_core.specs.Trees.{eval, IsReduced};
ghost use Rattle.func_core.specs.Sizes.{tree_eq, inner, size};
ghost use Rattle.func_core.specs.Points.{is_constant_zero, path};
ghost use Rattle.func_core.specs.Operations.{bits};
ghost use Rattle.func_core.specs.PlainTrees.{shape, Adds};

use crate::operation::Operation;
use std::alloc::{AllocError, Global};

/// A decision tree: a constant, or a variable with its subtrees for false and for true.
#[derive(Drop)]
pub enum Diagram {
    Zero,
    One,
    Branch(usize, Box<Diagram>, Box<Diagram>),
}

/// The result of an operation on two bits.
fn bit_of(operation: Operation, left: bool, right: bool) -> bool
    ensures { result ≡ bits operation left right }
{
    match operation {
        Operation::And => left && right,
        Operation::Or => left || right,
        Operation::Xor => if left { !right } else { right },
    }
}

/// The tree of a constant.
#[tactic(auto, unfolding(crate::specs::Trees::eval, crate::specs::Trees::IsReduced))]
pub fn leaf(bit: bool) -> Diagram
    ensures computes { (point : ℕ → Bool) → eval (shape result) point ≡ bit }
    ensures reduced { (least : ℕ) → IsReduced least (shape result) }
{
    if bit { Diagram::One } else { Diagram::Zero }
}

/// The tree of a variable.
#[tactic(auto, using(crate::proofs::Steps::eval_variable, crate::proofs::Steps::reduced_variable))]
pub fn variable_at(alloc: Global, place: usize) -> Result<Diagram, AllocError>
    ensures computes { IfOk result (λ made. (point : ℕ → Bool) → eval (shape made) point
        ≡ point place) }
    ensures reduced { IfOk result (λ made. IsReduced 0 (shape made)) }
{
    Ok(Diagram::Branch(
        place,
        Box::new(alloc, Diagram::Zero)?,
        Box::new(alloc, Diagram::One)?,
    ))
}

/// Whether two trees are equal.
#[tactic(auto, unfolding(crate::specs::Sizes::tree_eq))]
pub fn is_same(a: &Diagram, b: &Diagram) -> bool
    ensures { result ≡ tree_eq (shape a.now) (shape b.now) }
{
    match (a, b) {
        (Diagram::Zero, Diagram::Zero) => true,
        (Diagram::One, Diagram::One) => true,
        (Diagram::Branch(v, lo, hi), Diagram::Branch(w, low, high)) => {
            *v == *w && (is_same(lo, low) && is_same(hi, high))
        }
        _ => false,
    }
}

/// A node over two trees, or the first if both are equal.
fn join_halves(alloc: Global, place: usize, lo: Diagram, hi: Diagram) -> Result<Diagram, AllocError>
    ensures computes { IfOk result (λ made. (point : ℕ → Bool) → eval (shape made) point ≡
        (if point place then eval (shape hi) point else eval (shape lo) point)) }
    ensures reduced { IfOk result (λ made. (least : ℕ) → least ≤ place → IsReduced (suc place)
        (shape lo) → IsReduced (suc place) (shape hi) → IsReduced least (shape made)) }
{
    if is_same(&lo, &hi) {
        return Ok(lo);
    }
    Ok(Diagram::Branch(place, Box::new(alloc, lo)?, Box::new(alloc, hi)?))
}

/// The tree of an operation on a constant and a tree; since the operations commute, either may come
/// first.
pub fn with_constant(
    alloc: Global,
    operation: Operation,
    left: bool,
    right: &Diagram,
) -> Result<Diagram, AllocError>
    ensures computes { IfOk result (λ made. (point : ℕ → Bool) → eval (shape made) point
        ≡ bits operation left (eval (shape right.now) point)) }
    ensures reduced { IfOk result (λ made. (least : ℕ) → IsReduced least (shape right.now)
        → IsReduced least (shape made)) }
{
    match right {
        Diagram::Zero => Ok(leaf(bit_of(operation, left, false))),
        Diagram::One => Ok(leaf(bit_of(operation, left, true))),
        Diagram::Branch(place, lo, hi) => {
            let low = with_constant(alloc, operation, left, lo)?;
            let high = with_constant(alloc, operation, left, hi)?;
            join_halves(alloc, *place, low, high)
        }
    }
}

/// The tree of an operation on two trees.
pub fn combine(
    alloc: Global,
    operation: Operation,
    left: &Diagram,
    right: &Diagram,
) -> Result<Diagram, AllocError>
    ensures computes { IfOk result (λ made. (point : ℕ → Bool) → eval (shape made) point
        ≡ bits operation (eval (shape left.now) point) (eval (shape right.now) point)) }
    ensures reduced { IfOk result (λ made. (least : ℕ) → IsReduced least (shape left.now)
        → IsReduced least (shape right.now) → IsReduced least (shape made)) }
{
    match left {
        Diagram::Zero => with_constant(alloc, operation, false, right),
        Diagram::One => with_constant(alloc, operation, true, right),
        Diagram::Branch(place, lo, hi) => match right {
            Diagram::Zero => with_constant(alloc, operation, false, left),
            Diagram::One => with_constant(alloc, operation, true, left),
            Diagram::Branch(other, low, high) => {
                if *place < *other {
                    let l = combine(alloc, operation, lo, right)?;
                    let h = combine(alloc, operation, hi, right)?;
                    return join_halves(alloc, *place, l, h);
                }
                if *other < *place {
                    let l = combine(alloc, operation, left, low)?;
                    let h = combine(alloc, operation, left, high)?;
                    return join_halves(alloc, *other, l, h);
                }
                let l = combine(alloc, operation, lo, low)?;
                let h = combine(alloc, operation, hi, high)?;
                join_halves(alloc, *place, l, h)
            }
        },
    }
}

/// Whether a tree is among some others.
fn is_among(others: &[&Diagram], tree: &Diagram) -> bool
    ensures { result ≡ is_member tree_eq (map (λ d. shape d.now) others.now) (shape tree.now) }
{
    for other in others {
        if is_same(tree, other) {
            return true;
        }
    }
    false
}

/// The trees seen, followed by one more unless it is among them.
fn see<'a>(seen: Vec<&'a Diagram>, tree: &'a Diagram) -> Result<Vec<&'a Diagram>, AllocError>
    ensures { IfOk result (λ all. Adds (map (λ d. shape d.now) seen.entry.items)
        (shape tree.now ∷ []) (map (λ d. shape d.now) all.items)) }
{
    if is_among(&seen, tree) {
        return Ok(seen);
    }
    let mut all = seen;
    all.push(tree)?;
    Ok(all)
}

/// The trees seen, followed by each inner subtree of a tree that is not among them yet.
fn see_inner<'a>(seen: Vec<&'a Diagram>, tree: &'a Diagram) -> Result<Vec<&'a Diagram>, AllocError>
    ensures { IfOk result (λ all. Adds (map (λ d. shape d.now) seen.entry.items) (inner
        (shape tree.now)) (map (λ d. shape d.now) all.items)) }
{
    match tree {
        Diagram::Branch(_, lo, hi) => {
            let with_tree = see(seen, tree)?;
            let with_low = see_inner(with_tree, lo)?;
            let all = see_inner(with_low, hi)?;
            Ok(all)
        }
        Diagram::Zero | Diagram::One => Ok(seen),
    }
}

/// The number of different inner subtrees.
pub fn size_of(alloc: Global, tree: &Diagram) -> Result<usize, AllocError>
    ensures { IfOk result (λ count. count ≡ size (shape tree.now)) }
{
    let seen = see_inner(Vec::new(alloc), tree)?;
    Ok(seen.len())
}

/// Whether a tree is the constant false.
pub fn is_false(tree: &Diagram) -> bool
    ensures { result ≡ is_constant_zero (shape tree.now) }
{
    match tree {
        Diagram::Zero => true,
        _ => false,
    }
}

/// The literals on the path that takes the false half unless that is the constant false.
#[tactic(auto, unfolding(crate::specs::Points::path))]
pub fn path_of(alloc: Global, tree: &Diagram) -> Result<Vec<(usize, bool)>, AllocError>
    ensures { IfOk result (λ literals. literals.items ≡ path (shape tree.now)) }
{
    let mut literals = Vec::new(alloc);
    let mut at = tree;
    while let Diagram::Branch(place, lo, hi) = at {
        if is_false(lo) {
            literals.push((*place, true))?;
            at = hi;
        } else {
            literals.push((*place, false))?;
            at = lo;
        }
    }
    Ok(literals)
}
