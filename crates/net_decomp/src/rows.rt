//! Rows over the inputs of a table, and over these followed by the signals of new tables.
//!
//! A row is padded with dashes for new inputs, or is a single positive literal of one of them, or
//! is split into its first literals and those after them. Callers rely on the lists of
//! `specs/Rules.antt` exactly.

ghost use Rattle.std.specs.Prelude.{◌≡◌, ℕ, ◌-◌, ◌<◌, eqb, Bool, true, if◌then◌else◌, Option, Some, None, List, [], ◌∷◌, ◌++◌, map, replicate, IfOk, OnOk};
ghost use Rattle.cube_cover.specs.Literals.{literal_number};
ghost use Rattle.net_decomp.specs.Rules.{padded, signal_row, first_literals, later_literals};

use alg_div::{literals_of, row_of};
use cube_cover::Row;
use std::alloc::{AllocError, Global};

// So many dashes.
fn dashes(alloc: Global, count: usize) -> Result<Vec<Option<bool>>, AllocError>
    ensures { IfOk result (λ made. made.items ≡ replicate count None) }
{
    let mut made = Vec::with_capacity(alloc, count)?;
    for _filled in 0..count {
        made.push(None)?;
    }
    Ok(made)
}

/// A row with dashes for new inputs.
pub(crate) fn padded_row<R: Row>(alloc: Global, row: &R, added: usize) -> Result<R, AllocError>
    ensures { IfOk result (λ made. R.literals made ≡ padded added (R.literals row.now)) }
{
    let mut literals = literals_of(alloc, row)?;
    let behind = dashes(alloc, added)?;
    literals.extend_from_slice(behind.as_slice())?;
    row_of(alloc, literals.as_slice())
}

/// A row of dashes, over inputs and then new inputs, of which one has the positive literal.
#[tactic(auto, using(crate::proofs::Partly::signal_set))]
pub(crate) fn signal_row_of<R: Row>(
    alloc: Global,
    width: usize,
    added: usize,
    number: usize,
) -> Result<R, AllocError>
    requires { number < added }
    ensures { IfOk result (λ row. R.literals row ≡ signal_row width added number) }
{
    match width.checked_add(added) {
        None => Err(AllocError),
        Some(columns) => {
            let mut row = R::dashes(alloc, columns)?;
            row.set(width + number, Some(true));
            Ok(row)
        }
    }
}

// How many literals are left after one column.
fn left_behind(literal: Option<bool>, left: usize) -> usize
    ensures { result ≡ left - literal_number literal }
{
    match literal {
        None => left,
        Some(_) => left.saturating_sub(1),
    }
}

// The literal if some are left, else a dash.
fn while_left(literal: Option<bool>, left: usize) -> Option<bool>
    ensures { result ≡ (if eqb left 0 then None else literal) }
{
    if left == 0 { None } else { literal }
}

// The literal if none are left, else a dash.
fn past_left(literal: Option<bool>, left: usize) -> Option<bool>
    ensures { result ≡ (if eqb left 0 then literal else None) }
{
    if left == 0 { literal } else { None }
}

// The first literals, so many.
fn first_of(
    alloc: Global,
    literals: &[Option<bool>],
    most: usize,
) -> Result<Vec<Option<bool>>, AllocError>
    ensures { IfOk result (λ made. made.items ≡ first_literals most literals.now) }
{
    let mut made = Vec::with_capacity(alloc, literals.len())?;
    let mut left = most;
    for literal in literals {
        made.push(while_left(*literal, left))?;
        left = left_behind(*literal, left);
    }
    Ok(made)
}

// The literals after the first ones.
fn later_of(
    alloc: Global,
    literals: &[Option<bool>],
    most: usize,
) -> Result<Vec<Option<bool>>, AllocError>
    ensures { IfOk result (λ made. made.items ≡ later_literals most literals.now) }
{
    let mut made = Vec::with_capacity(alloc, literals.len())?;
    let mut left = most;
    for literal in literals {
        made.push(past_left(*literal, left))?;
        left = left_behind(*literal, left);
    }
    Ok(made)
}

/// The row of the first literals of a row, so many.
pub(crate) fn first_row<R: Row>(alloc: Global, row: &R, most: usize) -> Result<R, AllocError>
    ensures { IfOk result (λ made. R.literals made ≡ first_literals most (R.literals row.now)) }
{
    let literals = literals_of(alloc, row)?;
    let first = first_of(alloc, literals.as_slice(), most)?;
    row_of(alloc, first.as_slice())
}

/// The row of the literals after the first ones, and of the positive literal of a new input.
pub(crate) fn later_row<R: Row>(alloc: Global, row: &R, most: usize) -> Result<R, AllocError>
    ensures { IfOk result (λ made. R.literals made ≡ later_literals most
        (R.literals row.now) ++ Some true ∷ []) }
{
    let literals = literals_of(alloc, row)?;
    let mut later = later_of(alloc, literals.as_slice(), most)?;
    later.push(Some(true))?;
    row_of(alloc, later.as_slice())
}

/// Appends copies of rows, with dashes for new inputs.
pub(crate) fn push_padded<R: Row>(
    alloc: Global,
    made: &mut Vec<R>,
    rows: &[R],
    added: usize,
) -> Result<(), AllocError>
    ensures { OnOk result (map R.literals made.new.items ≡ map R.literals made.old.items ++ map
        (padded added) (map R.literals rows.now)) }
{
    for row in rows {
        made.push(padded_row(alloc, row, added)?)?;
    }
    Ok(())
}
