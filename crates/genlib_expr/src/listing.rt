//! The rows of an expression, and whether two expressions have the same function.
//!
//! Source: Shannon's expansion (Brayton, Hachtel, McMullen and Sangiovanni-Vincentelli, "Logic
//! Minimization Algorithms for VLSI Synthesis"). Both calls compute the truth table of 2^width bits
//! first. `rows` splits it into halves at each pin in turn, with a dash if both halves are equal.

ghost use Rattle.std.specs.Prelude.{◌≡◌, ◌++◌, ◌∷◌, [], map, slice_index_or, false, if◌then◌else◌, IfOk, OnOk};
ghost use Rattle.circuit_model.specs.Values.{literal_of};
ghost use Rattle.cover_ops.specs.Shannon.{same, shannon};
ghost use Rattle.genlib_expr.specs.Formula.{formula_of};
ghost use Rattle.genlib_expr.specs.Functions.{function_of};
ghost use Rattle.genlib_expr.specs.Tables.{are_same, rows_behind};

use crate::Expr;
use crate::table::values_of;
use circuit_model::{Row, Rows, Tri};
use sis_base::Sequence;
use std::alloc::{AllocError, Global};

/// Whether two tables are the same.
fn are_same(left: &[bool], right: &[bool]) -> bool
    ensures { result ≡ are_same left.now right.now }
{
    left == right
}

/// The first bit of a table.
fn first_bit(table: &[bool]) -> bool
    ensures { result ≡ slice_index_or table.now 0 false }
{
    match table {
        [] => false,
        [bit, ..] => *bit,
    }
}

/// A front with one more character.
fn longer(alloc: Global, front: &[Tri], character: Tri) -> Result<Row, AllocError>
    ensures { IfOk result (λ made. made ≡ front.now ++ character ∷ []) }
{
    let mut made = Row::from_slice(alloc, front)?;
    made.push(character)?;
    Ok(made)
}

/// Appends the row of a whole front, if the function is 1 there.
fn add_row(alloc: Global, front: &[Tri], bit: bool, rows: &mut Rows) -> Result<(), AllocError>
    ensures { OnOk result (rows.new ≡ rows.old ++ (if bit then front.now ∷ [] else [])) }
{
    if bit {
        rows.push(Row::from_slice(alloc, front)?)?;
    }
    Ok(())
}

/// Appends the rows of a table, each after a front.
#[tactic(auto, unfolding(crate::specs::Tables::rows_behind))]
fn add_rows(
    alloc: Global,
    front: &[Tri],
    width: usize,
    table: &[bool],
    rows: &mut Rows,
) -> Result<(), AllocError>
    ensures { OnOk result (rows.new ≡ rows.old ++ rows_behind front.now width table.now) }
{
    if width == 0 {
        return add_row(alloc, front, first_bit(table), rows);
    }
    let low = &table[..table.len() / 2];
    let high = &table[table.len() / 2..];
    if are_same(low, high) {
        let front = longer(alloc, front, Tri::Free)?;
        return add_rows(alloc, front.as_slice(), width - 1, low, rows);
    }
    let front_low = longer(alloc, front, Tri::Zero)?;
    add_rows(alloc, front_low.as_slice(), width - 1, low, rows)?;
    let front_high = longer(alloc, front, Tri::One)?;
    add_rows(alloc, front_high.as_slice(), width - 1, high, rows)
}

/// The rows of an expression over `width` pins: no row if it is 0, one row of dashes if it is 1,
/// and otherwise those of its halves at the first pin on which it depends.
#[tactic(auto, using(crate::proofs::Meaning::rows_listed, std::proofs::lemmas::Grind::common_steps))]
pub fn rows(alloc: Global, width: usize, expr: &Expr) -> Result<Rows, AllocError>
    ensures { IfOk result (λ rows. map (map literal_of) rows ≡ shannon width
        (function_of (formula_of expr.now))) }
{
    let table = values_of(alloc, width, expr)?;
    let mut rows = Sequence::new(alloc);
    add_rows(alloc, &[], width, table.as_slice(), &mut rows)?;
    Ok(rows)
}

/// Whether two expressions have the same value at each point of `width` pins.
#[tactic(auto, using(crate::proofs::Meaning::same_values, std::proofs::lemmas::Grind::common_steps))]
pub fn agree(alloc: Global, width: usize, expr: &Expr, other: &Expr) -> Result<bool, AllocError>
    ensures { IfOk result (λ agree. agree ≡ same width (function_of (formula_of expr.now))
        (function_of (formula_of other.now))) }
{
    let table = values_of(alloc, width, expr)?;
    let others = values_of(alloc, width, other)?;
    Ok(are_same(table.as_slice(), others.as_slice()))
}
