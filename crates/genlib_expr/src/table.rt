//! The truth table of an expression over its pins.
//!
//! Source: Shannon's expansion (Brayton, Hachtel, McMullen and Sangiovanni-Vincentelli, "Logic
//! Minimization Algorithms for VLSI Synthesis"). The postfix nodes are evaluated over a stack of
//! tables, each of 2^width bits: those with 0 at the first pin come before those with 1 there
//! (`specs/Tables.antt`). `values_of` returns the values of the expression's function at all
//! points, in that order.

ghost use Rattle.std.specs.Prelude.{◌≡◌, ◌≤◌, ◌∷◌, ◌++◌, None, [], fold, length, map, IfOk, IfSome, OnOk};
ghost use Rattle.genlib_expr.specs.Formula.{formula_of};
ghost use Rattle.genlib_expr.specs.Functions.{function_of};
ghost use Rattle.genlib_expr.specs.Tables.{values, twice, constant_values, pin_values, products, sums, complements, complemented, multiplied, added, tables_with, newest_table};

use crate::{Expr, Node, take_two};
use sis_base::Sequence;
use std::alloc::{AllocError, Global};
use std::collections::VecDeque;

/// The values of a function at all points of its inputs, those with 0 at the first input before
/// those with 1 there.
pub(crate) type Bits = Sequence<bool>;

/// A list followed by another.
fn joined(first: Vec<bool>, second: Vec<bool>) -> Result<Vec<bool>, AllocError>
    ensures { IfOk result (λ made. made.items ≡ first.items ++ second.items) }
{
    let mut made = first;
    let mut behind = second;
    made.append(&mut behind)?;
    Ok(made)
}

/// A list twice.
fn twice(alloc: Global, bits: Vec<bool>) -> Result<Vec<bool>, AllocError>
    ensures { IfOk result (λ made. made.items ≡ twice bits.items) }
{
    let copy = bits.to_vec(alloc)?;
    joined(bits, copy)
}

/// The list of one bit.
fn single(alloc: Global, bit: bool) -> Result<Vec<bool>, AllocError>
    ensures { IfOk result (λ made. made.items ≡ bit ∷ []) }
{
    let mut made = Vec::new(alloc);
    made.push(bit)?;
    Ok(made)
}

/// The table of a constant.
#[tactic(auto, unfolding(crate::specs::Tables::constant_values))]
fn constant_values(alloc: Global, width: usize, bit: bool) -> Result<Vec<bool>, AllocError>
    ensures { IfOk result (λ made. made.items ≡ constant_values width bit) }
{
    if width == 0 {
        return single(alloc, bit);
    }
    let half = constant_values(alloc, width - 1, bit)?;
    let made = twice(alloc, half)?;
    Ok(made)
}

/// The table of a pin.
#[tactic(auto, unfolding(crate::specs::Tables::pin_values))]
fn pin_values(alloc: Global, width: usize, place: usize) -> Result<Vec<bool>, AllocError>
    ensures { IfOk result (λ made. made.items ≡ pin_values width place) }
{
    if width == 0 {
        return single(alloc, false);
    }
    if place == 0 {
        let low = constant_values(alloc, width - 1, false)?;
        let high = constant_values(alloc, width - 1, true)?;
        let made = joined(low, high)?;
        return Ok(made);
    }
    let half = pin_values(alloc, width - 1, place - 1)?;
    let made = twice(alloc, half)?;
    Ok(made)
}

/// The complement of a table.
fn complements(alloc: Global, bits: &[bool]) -> Result<Bits, AllocError>
    ensures { IfOk result (λ made. made ≡ complements bits.now) }
{
    let mut made = Vec::with_capacity(alloc, bits.len())?;
    for bit in bits {
        made.push(!*bit)?;
    }
    Ok(Sequence::from_vec(made))
}

/// The product of two tables.
#[tactic(auto, using(crate::proofs::Steps::products_more, crate::proofs::Steps::products_done, crate::proofs::Steps::products_short, std::proofs::lemmas::Grind::common_steps))]
fn products(alloc: Global, left: &[bool], right: &[bool]) -> Result<Bits, AllocError>
    ensures { IfOk result (λ made. made ≡ products left.now right.now) }
{
    let count = left.len().min(right.len());
    let mut made = Vec::with_capacity(alloc, count)?;
    for i in 0..count {
        made.push(left[i] && right[i])?;
    }
    Ok(Sequence::from_vec(made))
}

/// The sum of two tables.
#[tactic(auto, using(crate::proofs::Steps::sums_more, crate::proofs::Steps::sums_done, crate::proofs::Steps::sums_short, std::proofs::lemmas::Grind::common_steps))]
fn sums(alloc: Global, left: &[bool], right: &[bool]) -> Result<Bits, AllocError>
    ensures { IfOk result (λ made. made ≡ sums left.now right.now) }
{
    let count = left.len().min(right.len());
    let mut made = Vec::with_capacity(alloc, count)?;
    for i in 0..count {
        made.push(left[i] || right[i])?;
    }
    Ok(Sequence::from_vec(made))
}

/// Complements the newest table, if there is one.
#[tactic(auto, unfolding(crate::specs::Tables::complemented))]
fn complement_newest(alloc: Global, waiting: &mut VecDeque<Bits>) -> Result<(), AllocError>
    ensures { OnOk result (waiting.new.items ≡ complemented waiting.old.items) }
{
    match waiting.pop_front() {
        None => Ok(()),
        Some(table) => {
            let made = complements(alloc, table.as_slice())?;
            waiting.push_front(made)?;
            Ok(())
        }
    }
}

/// Multiplies the newest two tables, if there are two; otherwise none is left.
#[tactic(auto, unfolding(crate::specs::Tables::multiplied))]
fn multiply_newest(alloc: Global, waiting: &mut VecDeque<Bits>) -> Result<(), AllocError>
    ensures { OnOk result (waiting.new.items ≡ multiplied waiting.old.items) }
{
    match take_two(waiting) {
        None => {
            waiting.clear();
            Ok(())
        }
        Some(two) => {
            let made = products(alloc, two.left.as_slice(), two.right.as_slice())?;
            waiting.push_front(made)?;
            Ok(())
        }
    }
}

/// Adds the newest two tables, if there are two; otherwise none is left.
#[tactic(auto, unfolding(crate::specs::Tables::added))]
fn add_newest(alloc: Global, waiting: &mut VecDeque<Bits>) -> Result<(), AllocError>
    ensures { OnOk result (waiting.new.items ≡ added waiting.old.items) }
{
    match take_two(waiting) {
        None => {
            waiting.clear();
            Ok(())
        }
        Some(two) => {
            let made = sums(alloc, two.left.as_slice(), two.right.as_slice())?;
            waiting.push_front(made)?;
            Ok(())
        }
    }
}

/// Pushes a table on the stack.
fn put(waiting: &mut VecDeque<Bits>, bits: Vec<bool>) -> Result<(), AllocError>
    ensures { OnOk result (waiting.new.items ≡ bits.items ∷ waiting.old.items) }
{
    waiting.push_front(Sequence::from_vec(bits))?;
    Ok(())
}

/// Evaluates one more node.
#[tactic(auto, unfolding(crate::specs::Tables::tables_with))]
fn take_node(
    alloc: Global,
    width: usize,
    waiting: &mut VecDeque<Bits>,
    node: Node,
) -> Result<(), AllocError>
    ensures { OnOk result (waiting.new.items ≡ tables_with width waiting.old.items node) }
{
    match node {
        Node::Constant(bit) => put(waiting, constant_values(alloc, width, bit)?),
        Node::Pin(place) => put(waiting, pin_values(alloc, width, place)?),
        Node::Not => complement_newest(alloc, waiting),
        Node::And => multiply_newest(alloc, waiting),
        Node::Or => add_newest(alloc, waiting),
    }
}

/// The stack of tables after some nodes, the newest first.
fn run(alloc: Global, width: usize, nodes: &[Node]) -> Result<VecDeque<Bits>, AllocError>
    ensures { IfOk result (λ waiting. waiting.items ≡ fold (tables_with width) [] nodes.now) }
{
    let mut waiting = VecDeque::new(alloc);
    for node in nodes {
        take_node(alloc, width, &mut waiting, *node)?;
    }
    Ok(waiting)
}

/// The newest table of the stack.
#[tactic(auto, unfolding(crate::specs::Tables::newest_table))]
fn newest(alloc: Global, width: usize, waiting: VecDeque<Bits>) -> Result<Bits, AllocError>
    ensures { IfOk result (λ table. table ≡ newest_table width waiting.items) }
{
    let mut waiting = waiting;
    match waiting.pop_front() {
        Some(table) => Ok(table),
        None => Ok(Sequence::from_vec(constant_values(alloc, width, false)?)),
    }
}

/// The values of an expression at all points of `width` pins.
#[tactic(auto, using(crate::proofs::Meaning::newest_values, std::proofs::lemmas::Grind::common_steps))]
pub(crate) fn values_of(alloc: Global, width: usize, expr: &Expr) -> Result<Bits, AllocError>
    ensures { IfOk result (λ table. table ≡ values width (function_of (formula_of expr.now))) }
{
    let waiting = run(alloc, width, expr.nodes())?;
    let table = newest(alloc, width, waiting)?;
    Ok(table)
}
