//! Rows by their indices: lists of indices, counted from 0, select rows of a cover without copying
//! them.
//!
//! Source: Brayton et al., "Logic Minimization Algorithms for VLSI Synthesis" (cubes and covers).
//! Promised: each call's exact meaning for the selected rows. An index past the rows selects a row
//! without columns.

ghost use Rattle.std.specs.Prelude.{◌≡◌, Bool, Option, None, List, [], length, map, slice_index_or, IfOk, is_none};
ghost use Rattle.cube_cover.specs.Covers.{agreeing_rows, picked_rows};
ghost use Rattle.cube_cover.specs.Literals.{dashed_rows, row_contains};

use crate::cover::literal_agrees;
use crate::row::Row;
use std::alloc::{AllocError, Global};

/// Whether a row has each point of another.
#[tactic(auto, using(crate::proofs::Products::contains_by_literals))]
pub fn contains_row<R: Row>(row: &R, other: &R) -> bool
    requires { length (R.literals row.now) ≡ length (R.literals other.now) }
    ensures { result ≡ row_contains (R.literals row.now) (R.literals other.now) }
{
    row.contains(other)
}

/// The literal in a column of the row at an index; a dash if there is no such row or column.
#[tactic(auto, using(crate::proofs::Numbered::pick_is, crate::proofs::Numbered::pick_past))]
pub fn literal_at<R: Row>(rows: &[R], number: usize, place: usize) -> Option<bool>
    ensures { result ≡ slice_index_or (slice_index_or (map R.literals rows.now) number []) place
        None }
{
    if number >= rows.len() {
        return None;
    }
    if place >= rows[number].width() {
        return None;
    }
    rows[number].at(place)
}

/// Whether the row at an index contains each point of the given one; true if there is no such row.
#[tactic(auto, using(crate::proofs::Numbered::pick_is, crate::proofs::Numbered::pick_past), unfolding(crate::specs::Literals::row_contains))]
pub fn has_points<R: Row>(given: &R, rows: &[R], number: usize) -> bool
    requires { length (slice_index_or (map R.literals rows.now) number []) ≡ length
        (R.literals given.now) }
    ensures { result ≡ row_contains (slice_index_or (map R.literals rows.now) number [])
        (R.literals given.now) }
{
    if number >= rows.len() {
        return true;
    }
    contains_row(&rows[number], given)
}

/// Whether a literal is a dash.
pub fn is_dash(place: Option<bool>) -> bool
    ensures { result ≡ is_none place }
{
    place.is_none()
}

/// The indices of all rows.
pub fn all_numbers<R: Row>(alloc: Global, rows: &[R]) -> Result<Vec<usize>, AllocError>
    ensures { IfOk result (λ made. picked_rows (map R.literals rows.now) made.items
        ≡ map R.literals rows.now) }
{
    let mut made = Vec::with_capacity(alloc, rows.len())?;
    for number in 0..rows.len() {
        made.push(number)?;
    }
    Ok(made)
}

/// Those selected rows that agree with a bit in a column.
#[tactic(auto, unfolding(crate::specs::Covers::agreeing_rows))]
pub fn pick_agreeing<R: Row>(
    alloc: Global,
    rows: &[R],
    numbers: &[usize],
    place: usize,
    bit: bool,
) -> Result<Vec<usize>, AllocError>
    ensures { IfOk result (λ made. picked_rows (map R.literals rows.now) made.items
        ≡ agreeing_rows place bit (picked_rows (map R.literals rows.now) numbers.now)) }
{
    let mut made = Vec::new(alloc);
    for number in numbers {
        if literal_agrees(literal_at(rows, *number, place), bit) {
            made.push(*number)?;
        }
    }
    Ok(made)
}

/// Those selected rows that have a dash in a column.
#[tactic(auto, unfolding(crate::specs::Literals::dashed_rows))]
pub fn pick_dashed<R: Row>(
    alloc: Global,
    rows: &[R],
    numbers: &[usize],
    place: usize,
) -> Result<Vec<usize>, AllocError>
    ensures { IfOk result (λ made. picked_rows (map R.literals rows.now) made.items
        ≡ dashed_rows place (picked_rows (map R.literals rows.now) numbers.now)) }
{
    let mut made = Vec::new(alloc);
    for number in numbers {
        if is_dash(literal_at(rows, *number, place)) {
            made.push(*number)?;
        }
    }
    Ok(made)
}
