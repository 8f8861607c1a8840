//! How a table is decomposed: by the literal of most rows, or towards products and sums.
//!
//! Source: the SIS report (UCB/ERL M92/41), `decomp` and `tech_decomp`. By the rule `Shared` the
//! rows with that literal become one part, without it. By the rule `Gates` a row without literals
//! makes the table constant; of several rows each long one becomes a part; else the first literals
//! of a single row, or the first rows of a sum, are the part. Callers rely on `IsDecomposable`:
//! exactly this decomposition, and none exactly if the table is done.

ghost use Rattle.std.specs.Prelude.{◌≡◌, ℕ, ◌<◌, Bool, true, false, Some, Option, None, List, [], ◌∷◌, length, map, filter, slice_set, replicate, IfOk, MatchOption};
ghost use Rattle.circuit_model.specs.declared.circuit.Table.{Table};
ghost use Rattle.alg_factor.specs.Forms.{IsChosen, NoneShared};
ghost use Rattle.net_decomp.specs.Partings.{rows_of};
ghost use Rattle.net_decomp.specs.Rules.{signal_row, is_long, with_signals, literal_parting, rows_parting, product_parting, sum_parting, is_gate, gate_parting, IsDone, IsDecomposable};
ghost use Rattle.net_decomp.specs.Told.{told};

use crate::Rule;
use crate::gates::{are_gate, is_long_row, some_empty, some_long};
use crate::rows::{first_row, later_row, padded_row, push_padded, signal_row_of};
use alg_factor::{Parts, best_literal, part_rows};
use cube_cover::{Cover, Row, rows_copied};
use sis_base::Copied;
use std::alloc::{AllocError, Global};

/// Lists of rows over the inputs of a table, each of which is to become a table; and the rows that
/// the table then has, over its inputs and the signals of those tables.
#[derive(Drop)]
pub(crate) struct Parting<R: Row> {
    pub(crate) parts: Vec<Vec<R>>,
    pub(crate) rows: Vec<R>,
}

// A list of one.
fn list_of<T: Drop>(alloc: Global, item: T) -> Result<Vec<T>, AllocError>
    ensures { IfOk result (λ made. made.items ≡ item ∷ []) }
{
    let mut made = Vec::new(alloc);
    made.push(item)?;
    Ok(made)
}

// The row of a literal and the signal of the only part.
fn literal_row<R: Row>(
    alloc: Global,
    width: usize,
    place: usize,
    bit: bool,
) -> Result<R, AllocError>
    requires { place < width }
    ensures { IfOk result (λ row. R.literals row ≡ slice_set (signal_row width 1 0) place
        (Some bit)) }
{
    let mut row: R = signal_row_of(alloc, width, 1, 0)?;
    row.set(place, Some(bit));
    Ok(row)
}

// The rows with a literal become the part, and one row replaces them.
#[tactic(auto, unfolding(crate::specs::Rules::literal_parting))]
fn literal_parted<R: Row>(
    alloc: Global,
    cover: &Cover<R>,
    place: usize,
    bit: bool,
) -> Result<Parting<R>, AllocError>
    requires { place < cover.now.width }
    ensures { IfOk result (λ parting. told R.literals parting
        ≡ literal_parting cover.now.width place bit cover.now.rows) }
{
    let width = cover.width();
    let rows = cover.copy(alloc)?.into_rows();
    let Parts { with, others } = part_rows(alloc, width, rows, place, bit)?;
    let mut made = list_of(alloc, literal_row(alloc, width, place, bit)?)?;
    push_padded(alloc, &mut made, others.as_slice(), 1)?;
    Ok(Parting {
        parts: list_of(alloc, with)?,
        rows: made,
    })
}

// By the literal that occurs in most rows; none if no literal occurs in two.
fn shared_parting<R: Row>(alloc: Global, cover: &Cover<R>) -> Result<Option<Parting<R>>, AllocError>
    ensures { IfOk result (λ found. MatchOption found (NoneShared cover.now.rows)
        (λ parting. (place : ℕ) × (bit : Bool) × IsChosen place bit cover.now.rows
        × (told R.literals parting ≡ literal_parting cover.now.width place bit cover.now.rows))) }
{
    match best_literal(cover.width(), cover.rows()) {
        None => Ok(None),
        Some(best) => Ok(Some(literal_parted(alloc, cover, best.place, best.bit)?)),
    }
}

// The rows of two literals or more, each in a list of its own.
fn long_parts<R: Row>(alloc: Global, rows: &[R]) -> Result<Vec<Vec<R>>, AllocError>
    ensures { IfOk result (λ parts. map (λ part. map R.literals part.items) parts.items ≡ map
        (λ row. row ∷ []) (filter is_long (map R.literals rows.now))) }
{
    let mut parts = Vec::new(alloc);
    for row in rows {
        if is_long_row(row) {
            parts.push(list_of(alloc, row.copy(alloc)?)?)?;
        }
    }
    Ok(parts)
}

// Rows whose long ones are replaced by signals.
fn signalled_rows<R: Row>(
    alloc: Global,
    width: usize,
    rows: &[R],
    added: usize,
) -> Result<Vec<R>, AllocError>
    requires { added ≡ length (filter is_long (map R.literals rows.now)) }
    ensures { IfOk result (λ made. map R.literals made.items ≡ with_signals width added 0
        (map R.literals rows.now)) }
{
    let mut made = Vec::with_capacity(alloc, rows.len())?;
    let mut number = 0;
    for row in rows {
        if is_long_row(row) {
            made.push(signal_row_of(alloc, width, added, number)?)?;
            number += 1;
        } else {
            made.push(padded_row(alloc, row, added)?)?;
        }
    }
    Ok(made)
}

// Each long row is a part.
#[tactic(auto, unfolding(crate::specs::Rules::rows_parting))]
fn rows_parted<R: Row>(alloc: Global, width: usize, rows: &[R]) -> Result<Parting<R>, AllocError>
    ensures { IfOk result (λ parting. told R.literals parting ≡ rows_parting width
        (map R.literals rows.now)) }
{
    let parts = long_parts(alloc, rows)?;
    let made = signalled_rows(alloc, width, rows, parts.len())?;
    Ok(Parting { parts, rows: made })
}

// The first literals of a single row become the part.
#[tactic(auto, unfolding(crate::specs::Rules::product_parting))]
fn product_parted<R: Row>(alloc: Global, rows: &[R], most: usize) -> Result<Parting<R>, AllocError>
    ensures { IfOk result (λ parting. told R.literals parting ≡ product_parting most
        (map R.literals rows.now)) }
{
    let mut first = Vec::with_capacity(alloc, rows.len())?;
    let mut later = Vec::with_capacity(alloc, rows.len())?;
    for row in rows {
        first.push(first_row(alloc, row, most)?)?;
        later.push(later_row(alloc, row, most)?)?;
    }
    Ok(Parting {
        parts: list_of(alloc, first)?,
        rows: later,
    })
}

// The first rows become the part.
#[tactic(auto, unfolding(crate::specs::Rules::sum_parting))]
fn sum_parted<R: Row>(
    alloc: Global,
    width: usize,
    rows: &[R],
    most: usize,
) -> Result<Parting<R>, AllocError>
    ensures { IfOk result (λ parting. told R.literals parting ≡ sum_parting width most
        (map R.literals rows.now)) }
{
    let (first, others) = rows.split_at(most.min(rows.len()));
    let part = rows_copied(alloc, first)?;
    let mut made = Vec::new(alloc);
    push_padded(alloc, &mut made, others, 1)?;
    made.push(signal_row_of(alloc, width, 1, 0)?)?;
    Ok(Parting {
        parts: list_of(alloc, part)?,
        rows: made,
    })
}

// One row of dashes, and no parts.
fn constant_parted<R: Row>(alloc: Global, width: usize) -> Result<Parting<R>, AllocError>
    ensures { IfOk result (λ parting. told R.literals parting
        ≡ record { parts = []; rows = replicate width None ∷ [] }) }
{
    Ok(Parting {
        parts: Vec::new(alloc),
        rows: list_of(alloc, R::dashes(alloc, width)?)?,
    })
}

// Towards products and sums.
#[tactic(auto, unfolding(crate::specs::Rules::gate_parting))]
fn gate_parted<R: Row>(
    alloc: Global,
    width: usize,
    rows: &[R],
    products: usize,
    sums: usize,
) -> Result<Parting<R>, AllocError>
    ensures { IfOk result (λ parting. told R.literals parting ≡ gate_parting products sums width
        (map R.literals rows.now)) }
{
    if some_empty(rows) {
        return constant_parted(alloc, width);
    }
    if 1 < rows.len() && some_long(rows) {
        return rows_parted(alloc, width, rows);
    }
    if 1 < rows.len() {
        sum_parted(alloc, width, rows, sums)
    } else {
        product_parted(alloc, rows, products)
    }
}

// Towards products and sums; none if the rows are one of them.
fn gates_parting<R: Row>(
    alloc: Global,
    cover: &Cover<R>,
    products: usize,
    sums: usize,
) -> Result<Option<Parting<R>>, AllocError>
    ensures { IfOk result (λ found. MatchOption found (is_gate products sums cover.now.rows ≡ true)
        (λ parting. (is_gate products sums cover.now.rows ≡ false)
        × (told R.literals parting ≡ gate_parting products sums cover.now.width cover.now.rows))) }
{
    if are_gate(cover.rows(), products, sums) {
        return Ok(None);
    }
    Ok(Some(gate_parted(alloc, cover.width(), cover.rows(), products, sums)?))
}

/// How a table of a cover is decomposed by a rule; none if it is done.
pub(crate) fn parting_of<R: Row>(
    alloc: Global,
    rule: Rule,
    cover: &Cover<R>,
) -> Result<Option<Parting<R>>, AllocError>
    ensures { IfOk result (λ found. (table : Table) → length table.inputs ≡ cover.now.width
        → rows_of table ≡ cover.now.rows → MatchOption found (IsDone rule table)
        (λ parting. IsDecomposable rule table (told R.literals parting))) }
{
    match rule {
        Rule::Shared => shared_parting(alloc, cover),
        Rule::Gates(products, sums) => gates_parting(alloc, cover, products, sums),
    }
}
