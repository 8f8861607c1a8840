//! Covers: rows of one width (Brayton et al., "Logic Minimization Algorithms for VLSI Synthesis":
//! cubes, cofactors).
//!
//! Contracts see a `Cover` as its width and the list of the rows' literals, in order; its invariant
//! is that every row has the width. A point is a bit for each input; the cover's value there is 1
//! if some row matches it. `cofactor` is given both by rows and by points. Callers keep rows at the
//! width; all other clauses are exact.

ghost use Rattle.std.specs.Prelude.{◌≡◌, ℕ, ◌<◌, Bool, true, ◌↔◌, Option, None, List, [], ◌∷◌, ◌++◌, length, map, slice_set, IfOk, OnOk, OnErr, IsTrue};
ghost use Rattle.sis_base.specs.Rows.{agrees, some_matches, matches, HasWidth, IsPoint};
ghost use Rattle.cube_cover.specs.Covers.{Shape, cofactor_rows};
ghost use Rattle.cube_cover.specs.Literals.{has_literal};

use crate::row::Row;
use sis_base::Copied;
use std::alloc::{AllocError, Global};
use std::marker::Model;

/// A list of rows of one width. Contracts see it as the width and the list of the rows' literals.
#[derive(Drop)]
pub struct Cover<R: Row> {
    width: usize,
    rows: Vec<R>,
}

impl<R: Row> Model for Cover<R> {
    ghost use Rattle.std.specs.Prelude.{map};
    ghost use Rattle.sis_base.specs.Rows.{HasWidth};
    ghost use Rattle.cube_cover.specs.Covers.{Shape};

    ghost Value = { Shape };

    ghost view = { λ cover. record { width = cover.width; rows = map R.literals cover.rows.items } };

    ghost invariant = { λ cover. HasWidth cover.width (map R.literals cover.rows.items) };
}

impl<R: Row> Cover<R> {
    /// The cover of `width` inputs without rows; allocates nothing.
    pub fn new(alloc: Global, width: usize) -> Cover<R>
        ensures { result ≡ record { width = width; rows = [] } }
    {
        Cover {
            width,
            rows: Vec::new(alloc),
        }
    }

    /// The cover of rows that have `width` columns each; allocates nothing.
    pub fn of(width: usize, rows: Vec<R>) -> Cover<R>
        requires { HasWidth width (map R.literals rows.items) }
        ensures { result ≡ record { width = width; rows = map R.literals rows.items } }
    {
        Cover { width, rows }
    }

    /// The number of inputs.
    pub fn width(&self) -> usize
        ensures { result ≡ self.now.width }
    {
        self.width
    }

    /// The rows, in order.
    pub fn rows(&self) -> &[R]
        ensures items { map R.literals result.now ≡ self.now.rows }
        ensures widths { HasWidth self.now.width self.now.rows }
    {
        self.rows.as_slice()
    }

    /// The rows as a vector, in order; allocates nothing.
    pub fn into_rows(self) -> Vec<R>
        ensures items { map R.literals result.items ≡ self.rows }
        ensures widths { HasWidth self.width self.rows }
    {
        let Cover { width: _, rows } = self;
        rows
    }

    /// Appends a row of the cover's width. On an error the cover is unchanged.
    pub fn push(&mut self, row: R) -> Result<(), AllocError>
        requires { length (R.literals row) ≡ self.old.width }
        ensures ok { OnOk result (self.new ≡ record self.old
            { rows = self.old.rows ++ R.literals row ∷ [] }) }
        ensures err { OnErr result (self.new ≡ self.old) }
    {
        self.rows.push(row)?;
        Ok(())
    }

    /// Whether some row matches a point, which has a bit for each input.
    pub fn value_at(&self, point: &[bool]) -> bool
        requires { IsPoint self.now.width point.now }
        ensures { result ≡ some_matches self.now.rows point.now }
    {
        rows_match(self.rows.as_slice(), point)
    }

    /// The cofactor for a value of an input: the rows that agree with the value in the column,
    /// without their literal there.
    pub fn cofactor(&self, alloc: Global, place: usize, value: bool) -> Result<Cover<R>, AllocError>
        requires { place < self.now.width }
        ensures by_rows { IfOk result (λ half. half
            ≡ record self.now { rows = cofactor_rows place value self.now.rows }) }
        ensures points { IfOk result (λ half. (point : List Bool) → IsPoint self.now.width point
            → some_matches half.rows point ≡ some_matches self.now.rows
            (slice_set point place value)) }
    {
        let rows = rows_at(alloc, self.width, self.rows.as_slice(), place, value)?;
        Ok(Cover {
            width: self.width,
            rows,
        })
    }
}

impl<R: Row> Copied for Cover<R> {
    fn copy(&self, alloc: Global) -> Result<Self, AllocError> {
        let rows = rows_copied(alloc, self.rows.as_slice())?;
        Ok(Cover {
            width: self.width,
            rows,
        })
    }
}

/// Copies of rows, in order.
pub fn rows_copied<R: Row>(alloc: Global, rows: &[R]) -> Result<Vec<R>, AllocError>
    ensures { IfOk result (λ made. map R.literals made.items ≡ map R.literals rows.now) }
{
    let mut made = Vec::with_capacity(alloc, rows.len())?;
    for row in rows {
        made.push(row.copy(alloc)?)?;
    }
    Ok(made)
}

/// Whether a literal agrees with a bit; a dash does with each.
pub fn literal_agrees(literal: Option<bool>, bit: bool) -> bool
    ensures { result ≡ agrees literal bit }
{
    match literal {
        None => true,
        Some(other) => other == bit,
    }
}

/// Whether a literal is that of a bit.
pub fn is_literal(literal: Option<bool>, bit: bool) -> bool
    ensures { result ≡ has_literal literal bit }
{
    match literal {
        None => false,
        Some(other) => other == bit,
    }
}

// Whether a row matches a point.
#[tactic(auto, unfolding(sis_base::specs::Rows::matches))]
fn row_matches<R: Row>(row: &R, point: &[bool]) -> bool
    requires { length point.now ≡ length (R.literals row.now) }
    ensures { result ≡ matches (R.literals row.now) point.now }
{
    for (place, bit) in point.iter().enumerate() {
        if !literal_agrees(row.at(place), *bit) {
            return false;
        }
    }
    true
}

// Whether some row matches a point.
#[tactic(auto, using(crate::proofs::Points::width_read), unfolding(sis_base::specs::Rows::some_matches))]
fn rows_match<R: Row>(rows: &[R], point: &[bool]) -> bool
    requires { HasWidth (length point.now) (map R.literals rows.now) }
    ensures { result ≡ some_matches (map R.literals rows.now) point.now }
{
    for row in rows {
        if row_matches(row, point) {
            return true;
        }
    }
    false
}

// A copy of a row without the literal in a column.
fn row_without<R: Row>(alloc: Global, row: &R, place: usize) -> Result<R, AllocError>
    requires { place < length (R.literals row.now) }
    ensures { IfOk result (λ made. R.literals made ≡ slice_set (R.literals row.now) place None) }
{
    let mut made = row.copy(alloc)?;
    made.set(place, None);
    Ok(made)
}

// The rows that agree with a bit in a column, without their literal there.
#[tactic(auto, using(crate::proofs::Points::width_read), unfolding(crate::specs::Covers::cofactor_rows))]
pub(crate) fn rows_at<R: Row>(
    alloc: Global,
    width: usize,
    rows: &[R],
    place: usize,
    bit: bool,
) -> Result<Vec<R>, AllocError>
    requires widths { HasWidth width (map R.literals rows.now) }
    requires place { place < width }
    ensures { IfOk result (λ made. map R.literals made.items ≡ cofactor_rows place bit
        (map R.literals rows.now)) }
{
    let mut made = Vec::new(alloc);
    for row in rows {
        if literal_agrees(row.at(place), bit) {
            made.push(row_without(alloc, row, place)?)?;
        }
    }
    Ok(made)
}
